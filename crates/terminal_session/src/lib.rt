//! Sessions with a person, from the words of the command line to the exit status: at a terminal (`xv_terminal`), and with
//! the debugger alone (`xv_debugger`, in [`debugging`](debug_by_words)).
//!
//! At a terminal keys go in as they are typed, what the machine sends comes out at once, and the clock ticks by the host's clock.
//! While a process may run the machine runs at full speed, and while all sleep it takes no time. Ctrl-C stops it and
//! opens the prompt of the debugger (`xv_debug`), Ctrl-P tells the processes, and Ctrl-\ ends the machine. A session can
//! be recorded and played again.
//!
//! `programs/host/terminal.sh` prepares the terminal for it. Standard output has what the machine sends, and nothing
//! else; all that is told about it goes to standard error.
#![tactic(auto)]

mod beginning;
mod command_line;
mod completing;
mod conversing;
mod debugging;
mod ending;
mod first_screen;
mod history;
mod host;
mod keys;
mod line;
mod line_editor;
mod notes;
mod record_file;
mod recording;
mod stopping;
mod telling;

pub use beginning::run;
pub use command_line::settings;
pub use debugging::debug_by_words;
pub use line::Settings;
use std::rt::Env;

/// The name under which the program tells what is wrong.
pub const NAME: &str = "xv_terminal";

/// Runs the programs that the words of a command line name at the terminal, and gives the exit status.
pub fn run_at_terminal<W: Env + AllocGlobal>(rt: &HostRuntime, words: &W) -> u8 {
    match settings(words) {
        Ok(settings) => run(rt, &settings),
        Err(error) => error.close(NAME, &mut rt.stdout(), &mut rt.stderr()),
    }
}
