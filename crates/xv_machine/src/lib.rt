//! The machine: events go in, outcomes come out.
//!
//! A [`Machine`] is booted from program files, of which one is called `init`, and then takes events
//! one by one. It is a kernel and the hart that runs its processes, and stands for a world of
//! `kernel_spec` (`world_of` of `specs/Machine.antt` in `kcall_core`). What an event does there, who wakes and whose
//! turn it is, is `Promised` of `kernel_spec`'s `specs/waking/Wakes.antt`; the first world is `first` of its
//! `specs/runs/First.antt`. Whose each frame of RAM is, is said in `specs/Sound.antt`.
#![tactic(auto)]

mod devices;
mod driving;
mod event;
mod fast;
pub mod laws;
mod machine;
mod parts;
mod player;
mod step;
mod trace;

pub use devices::{ByteSink, Counted, DeviceFault, KeySource};
pub use driving::{DriveEnd, DriveError, RunPlan, drive, play_rounds, play_times};
pub use event::{Event, Outcome};
pub use kcall_core::{
    Call, ChildState, ConsoleList, Descriptor, Echo, End, FileId, FrameUse, OpenFile, PipeCounts,
    ProcessState, Target,
};
pub use machine::{Config, Machine};
pub use parts::{RoundPart, round_parts};
pub use player::{RoundPlayer, Sends};
pub use trace::Note;
