//! Rules by which a run is graded, over the notes of its events.
//!
//! A [`Pattern`] says which notes are meant, as `call 1 21 0` does in a trace, and what a call was given. A [`Rule`] says how often they may
//! stand there, which stands before which, or which stand there at all. [`judge`] tells of a rule whether it holds of
//! a list of notes, and if it doesn't, which note or which step shows it. What it means that a rule holds is written
//! in `specs/Rules.antt`, and what a pattern fits in `specs/Patterns.antt`.
#![tactic(auto)]

mod asking;
mod counting;
mod ending;
mod given;
mod note;
mod numbers;
mod order;
mod pattern;
mod pipes;
mod rule;
mod sequence;

pub use asking::{Asking, Things};
pub use counting::{count, first_alone, first_of};
pub use ending::End;
pub use given::{Given, Thing};
pub use note::Note;
pub use numbers::Numbers;
pub use order::{Edge, Order, arrange};
pub use pattern::{Pattern, fits_any, has_letters};
pub use pipes::{Choice, Letter, Pipes};
pub use rule::{Judgement, Rule, judge};
pub use sequence::first_other;
