//! What programs here have in common: the words of a command line, the programs that FILEs hold, with the lines of those
//! that are assembled, and how a run of them ends. [`Failure`] is why a program ends early, and [`exit_statuses`] has
//! the exit statuses by their names. [`line_table`] gives the lines of programs that aren't assembled.
#![tactic(auto)]

mod arguments;
mod command_line;
mod ending;
pub mod exit_statuses;
mod failure;
mod files;
mod given;
mod options;
mod output;
mod refusal;
mod tables;

pub use arguments::{SettingsError, WordsError, words};
pub use command_line::{CommandLine, CommandWord};
pub use ending::{close_run, show_trace, status_of_exit};
pub use failure::Failure;
pub use files::{SourcedProgram, SourcedPrograms, program, program_of_bytes, programs};
pub use given::{Given, given_words, host_words};
pub use options::{FRAMES, NumberOption, QUANTUM, ROUNDS, TRACE};
pub use output::put;
pub use refusal::FileRefusal;
pub use tables::line_table;
