//! A run that can be looked into: a machine, with the events that it got since it was booted.
//!
//! A [`Session`] boots a machine and sends it events, and keeps them. So it can go back to any place of its run,
//! by booting anew and sending the first of these events again: what a machine does is determined by its programs
//! and its events. Whoever waits for that may break it off ([`Patience`]). A [`Running`] keeps no events. A contract
//! sees a session as `Recorded` of `specs/Recorded.antt`.
#![tactic(auto)]

mod followed;
mod history;
pub mod laws;
mod looking;
mod looking_back;
mod names;
mod pace;
mod patience;
mod playing;
mod resting;
mod running;
mod session;
mod stops;
mod until;

pub use history::EVENTS_MAX;
pub use looking::{Fault, NextStep, fault_of_run, next_step, word_at};
pub use looking_back::{LooksBack, last_before_here};
pub use names::{Named, Names};
pub use patience::{Endless, Patience};
pub use resting::is_any_runnable;
pub use running::{Running, Runs};
pub use session::{PlayError, Session, SessionError};
pub use until::{Condition, Search, is_before};
