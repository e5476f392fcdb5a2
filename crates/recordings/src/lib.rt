//! The events of a run that was recorded, for whoever goes on by them.
//!
//! A [`Recording`] has the events each by its place, and [`is_beginning`] tells whether it begins with those of a session.
//! What is at a place, and what it is to begin with events, stands in `specs/Recording.antt`.
#![tactic(auto)]

mod beginning;
mod recording;

pub use beginning::is_beginning;
pub use recording::{Recording, RecordingError};
