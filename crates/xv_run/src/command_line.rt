//! The words of the command line.
ghost use Rattle.std.specs.Prelude.{◌≡◌, ◌≤◌, IfOk};
ghost use Rattle.xv_run.specs.Ranges.{AreInRange};

use crate::NAME;
use crate::line::Settings;
use program_files::{
    CommandLine, CommandWord, FRAMES, Given, QUANTUM, ROUNDS, SettingsError, TRACE,
};
use std::alloc::Global;
use std::convert::AsStr;

/// What stands below the list of options in the text of `--help`.
const MORE_HELP: &str = "\
A FILE is named by the last part of its path. If that ends in .s, the file is assembler source,
and is named without the .s. The program named init runs first.

Example:
  xv_run --rounds 500 init.s sh.s < keys.txt

A round is these events, in this order:
  Key   types the next byte of standard input, if there is one
  Run   gives a process its turn, or does one instruction of it; as many times as --quantum says
  Tick  moves the clock, and ends the turn
  Send  sends a byte that was written to the console; 32 times
What the console echoes and sends goes to standard output. The last events, a line each, and one
closing line go to standard error.

Exit status:
  0  init exited with 0, or this text was asked for
  1  the command line is refused
  2  a FILE or the boot is refused, or memory ran out
  3  init exited with another status
  4  all rounds were made, and init has not exited
  5  standard input or standard output failed";

/// The command line.
pub(crate) const COMMAND_LINE: CommandLine = CommandLine {
    name: NAME,
    about: "Runs programs on a RISC-V machine that has the kernel of xv6",
    more_help: MORE_HELP,
    words: &[
        CommandWord::Number(&FRAMES),
        CommandWord::Number(&ROUNDS),
        CommandWord::Number(&QUANTUM),
        CommandWord::Number(&TRACE),
        CommandWord::Files,
    ],
};

/// Reads the words of a command line, the program's name first.
///
/// # Errors
///
/// `Words` if a word is neither an option nor a FILE, if a number isn't in its range, if no FILE is given,
/// if help is asked for, or if `clap` gets no memory: the error's text says which. `Memory` if there is no
/// memory for what the words give.
pub fn settings<S: AsStr>(alloc: Global, words: &[S]) -> Result<Settings, SettingsError>
    ensures { IfOk result (λ s. AreInRange s) }
{
    let given = Given::read(alloc, &COMMAND_LINE, words)?;
    let frames = given.number(&FRAMES)?;
    let rounds = given.number(&ROUNDS)?;
    let quantum = given.number(&QUANTUM)?;
    let trace = given.number(&TRACE)?;
    let files = given.files()?;
    Ok(Settings {
        frames,
        rounds: u64::from(rounds),
        quantum,
        trace,
        files,
    })
}
