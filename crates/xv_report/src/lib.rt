//! What a run comes to, told so that its programmer understands it: why a process ended, on what each sleeper sleeps
//! and who could wake it, and which instruction of which function stands where.
//!
//! It looks at the machine of a session (`xv_session`), or at one that was played again up to a place of its run.
//! [`waits_for`] and [`could_wake`] tell of sleepers what `kernel_spec` says of them (`specs/Waits.antt`), [`wakers`]
//! lists all that could wake one (`specs/Wakers.antt`), [`calls_of`] tells the calls that led to where a process is, by its
//! program's table of call frames (`specs/Unwound.antt`) or by a guess, as [`callers_of`] does (`specs/Callers.antt`),
//! [`call_numbered`] one of these calls by its number (`specs/Numbered.antt`), and
//! [`report_at`] tells a fault of the machine as it was before that step (`specs/Reports.antt`). [`program_name`] and [`call_name`] have the names that belong to these
//! (`specs/Names.antt`). [`Sources`] is what is known of the sources of programs: symbols, the lines of those that were
//! assembled, and a table of the lines of others, in which a line is found by `specs/Lines.antt`, and a name's or a
//! line's address by `specs/Places.antt`. What is printed
//! of all this, by the `Display` of the types in [`text`], is compared with stored reports (`checks/why`).
#![tactic(auto)]

mod callers;
mod causes;
mod fault;
mod hints;
mod jumps;
pub mod laws;
mod lines;
mod names;
mod numbered;
mod places;
mod sources;
mod symbols;
pub mod text;
mod unwinding;
mod waits;
mod waking;

pub use callers::{CALLERS_MAX, Caller, Callers, callers_of};
pub use causes::cause_text;
pub use fault::{FaultReport, report_at, report_of_run};
pub use hints::{Hint, hint_of};
pub use jumps::jump_target;
pub use lines::Lines;
pub use names::{call_name, program_name};
pub use numbered::{NumberedCall, call_numbered};
pub use places::LineNamed;
pub use sources::{ProgramLines, ProgramSource, Sources, source_of};
pub use unwinding::{Activation, Calls, calls_of};
pub use waits::{EndsHeld, Wait, could_wake, ends_held, waits_for};
pub use waking::wakers;
