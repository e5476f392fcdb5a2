//! The debugger's words: what a line asks for, and what help tells of each.
//!
//! [`Word::of`] reads a line, and tells what is wrong with one that asks for nothing. The numbers of a word are in
//! their ranges: `IsInRange` of `specs/Ranges.antt`. A name in a line is looked up by its caller ([`Names`]). [`texts`] has numbers, bytes and names as the debugger's answers
//! show them. Nothing here knows of a machine.
#![tactic(auto)]

mod fault;
mod forms;
mod help;
mod keys;
mod names;
mod numbers;
mod reading;
pub mod texts;
mod tokens;
mod topics;
mod vocabulary;

pub use fault::{WordError, WordErrorKind};
pub use help::show_help;
pub use names::{Names, SPOTS_MOST, Spot, Spots};
pub use topics::Topic;
pub use vocabulary::{
    AskedMarks, BYTES_MOST, EVENTS_MOST, Goal, KEYS_MOST, Keys, LISTED_MOST, MARKS_MOST, Mark,
    Marks, NOTES_MOST, OFTEN_MOST, ROUNDS_MOST, Size, Word,
};
