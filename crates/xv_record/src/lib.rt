//! The record of a session at the machine: with which frames and programs it was booted, and the events that it got.
//!
//! A record is a text, a line each: the head `xv record 1`, `frames N`, a line `program SUM SIZE NAME` for each
//! program, `events`, the events, and `end`. SUM is the SHA-256 of the program's bytes in hexadecimal digits. The
//! programs themselves aren't in it: who plays a record gives the same files, and a file that differs is told.
//!
//! The events are lines `run N`, `tick N`, `send N`, which stand for so many of these events, and `key B`, a key of
//! this byte; all numbers are decimal. [`record_text`] writes a record and [`take_record`] takes it from a text, and
//! what was written is taken as the same, also what is left of it if its end is cut off (`specs/Reading.antt`).
//!
//! While its session goes on, a record grows in its file, which is a whole record after each step ([`GrowingRecord`],
//! `specs/Growing.antt`).
#![tactic(auto)]

mod events;
mod file;
mod growing;
mod line;
mod reading;
mod refusal;
mod sums;

pub use file::{Record, head_text, record_text};
pub use growing::{GrowError, GrowingRecord, RecordFile, Unwritten};
pub use line::Line;
pub use reading::{Ending, Taken, read_record, take_record};
pub use refusal::{RecordError, RecordRefusal};
pub use sums::{ProgramSum, chosen, sum_of};
