//! Runs that a terminal has recorded, for every program that plays one.
//!
//! [`replay_words`] reads what a command line says of a record, and [`record_of`] reads the record's file, up to the event
//! that is asked for. [`recorded_programs`] are the programs that were recorded, of those that are given, and
//! [`recorded_files`] has what is known of their sources too. [`play_record`] lets a player play the record: its machine
//! gets just the record's events, in order, and the sink just what they show. [`recording_of`] has the events each by its
//! place. What the exit status of such a run says stands in `specs/Replays.antt`, and what it says of what was asked for in
//! `specs/Statuses.antt`.
#![tactic(auto)]

mod counting;
mod cutting;
mod ending;
mod files;
mod keys;
mod playing;
mod quiet;
mod reading;
mod recording;
mod words;

pub use counting::PLAYED_AGAIN;
pub use cutting::{CutError, first_events, parts_of};
pub use ending::{RecordEnd, close_record};
pub use files::{RecordedFiles, given_programs, recorded_files};
pub use keys::keys_of;
pub use playing::{play_lines, play_record};
pub use quiet::play_quietly;
pub use reading::{cut_record, record_of, recorded_events, recorded_programs, whole_record};
pub use recording::recording_of;
pub use words::{
    AT_WORD, REPLAY_WORD, Replay, ReplayRefusal, ReplayWords, TOLD_BY_RECORD, replay_words,
};
