//! Why kernel calls are refused.
//!
//! Each call has a list of tests, in the order of its row, each with its reason (`specs/Reasons.antt`). [`asked_of`] tells what
//! a process asks for, and [`reason_of`] the reason of the answer to it, by what a machine shows; [`reason_of_last`] that of the
//! call that a session made last. That there is one exactly if the call is refused is a law (`laws.rt`, `specs/Laws.antt`).
#![tactic(auto)]

mod asked;
mod last;
pub mod laws;
mod loading;
mod opened;
mod reason;
mod shown;
mod telling;
mod texts;

pub use asked::{Asked, asked_of, c_int};
pub use last::{REFUSED, reason_of_last};
pub use reason::Reason;
pub use telling::reason_of;
