//! What GDB debugs: a machine that goes on by its plan, and back, and what GDB is told of it.
//!
//! A [`Played`] run gets the events of its [`Plan`], and no other, so each place of it is settled from the start: those of
//! a record, if one is played, and then those of [`Rounds`]. Which event stands at a place is in `specs/Plan.antt`. A
//! [`Target`] has such a run, and what GDB has chosen of it. [`Target::answer`] answers each command that leaves the
//! machine where it is; [`Target::go`] goes on, and [`Target::go_back`] goes back. What an answer tells of the
//! machine stands in `specs/Told.antt`, and which events the machine has got in `specs/PlayedBy.antt`.
//!
//! What is told of registers, memory and processes is read by `memory.rt` and `threads.rt`: it stands in
//! `specs/Seen.antt`. The events of rounds, one at each place, stand in `specs/Rounds.antt`.
//!
//! [`serve_gdb`] is what the program `xv_gdb` does: it answers GDB on standard input and output by such a target.
#![tactic(auto)]

mod answers;
mod documents;
mod fast;
mod gone;
pub mod laws;
mod let_run;
mod memory;
mod outcomes;
mod places;
mod plan;
mod played;
mod points;
mod reverse;
mod rounds;
mod service;
mod stepping;
mod target;
mod threads;
mod touches;
mod views;
mod why;
mod words;

pub use let_run::LetRun;
pub use plan::Plan;
pub use played::Played;
pub use points::{Points, Watched};
pub use reverse::Back;
pub use rounds::{Next, Rounds};
pub use service::serve_gdb;
pub use target::{Going, Pause, Stopped, Target, Until, Way};
