//! A run of programs whose kernel calls are told as they come, from the words of the command line to the exit status.
//! The program that has it is `xv_explain`.
//!
//! The command line, the rounds, the keys, what goes to standard output and the exit status are those of `xv_run`. On
//! standard error stands a line for each kernel call that is done, with what was passed to it and what it answered:
//! `3 (wc): read(0, "echo hi\n", 64) = 8`. Which lines these are says `specs/Lines.antt`.
#![tactic(auto)]

mod asking;
mod choice;
mod command_line;
mod counts;
mod explained;
mod line;
mod lines;
mod replaying;
mod running;
mod seen;
mod stepping;
mod table;
mod telling;
mod watching;

pub use choice::Choice;
pub use line::Settings;
pub use running::explain_by_words;

/// The program's name.
pub const NAME: &str = "xv_explain";
