//! The words of the command line.
ghost use Rattle.std.specs.Prelude.{◌≡◌, ◌≤◌, ◌<◌, IfOk, vec_len};
ghost use Rattle.terminal_session.specs.Settings.{AreInRange};

use crate::NAME;
use crate::line::Settings;
use program_files::{
    CommandLine, CommandWord, FRAMES, NumberOption, TRACE, WordsError, given_words,
};
use recorded_runs::{AT_WORD, REPLAY_WORD, replay_words};
use std::rt::Env;

/// `--tick`: the time of a tick.
const TICK: NumberOption = NumberOption {
    name: "tick",
    help: "Milliseconds of a tick: 1 to 60000",
    default: "100",
    least: 1,
    most: 60_000,
};

/// What stands below the list of options in the text of `--help`.
const MORE_HELP: &str = "\
A FILE is named by the last part of its path. If that ends in .s, the file is assembler source,
and is named without the .s. The program named init runs first.

programs/host/terminal.sh prepares the terminal for it. Keys go to the machine, but for these:
  Ctrl-C  stops the machine and opens the debugger's prompt: help lists its words, c goes on
  Ctrl-P  tells the processes
  Ctrl-\\  ends the machine
What the machine sends goes to standard output, all else to standard error.

Exit status:
  0  init exited with 0, or this text was asked for
  1  the command line is refused
  2  a FILE, the record or the boot is refused, or memory ran out
  3  init exited with another status
  4  it ended otherwise: by Ctrl-\\, or since no key would come any more
  5  standard input, standard output, the clock or the record's file failed";

const COMMAND_LINE: CommandLine = CommandLine {
    name: NAME,
    about: "Runs programs on a RISC-V machine that has the kernel of xv6, at a terminal",
    more_help: MORE_HELP,
    words: &[
        CommandWord::Number(&FRAMES),
        CommandWord::Number(&TRACE),
        CommandWord::Number(&TICK),
        CommandWord::Text {
            name: "record",
            value: "PATH",
            help: "Keeps the session's record in this file",
        },
        CommandWord::Flag {
            name: "overwrite",
            help: "The record's file may be written over",
        },
        REPLAY_WORD,
        AT_WORD,
        CommandWord::Text {
            name: "lines",
            value: "PATH",
            help: "A file with rows PROGRAM ADDRESS LINE in decimal numbers, for the prompt",
        },
        CommandWord::Flag {
            name: "terminal",
            help: "Standard input answers at once: no byte is not its end",
        },
        CommandWord::Flag {
            name: "woken",
            help: "A key that comes there ends a rest at once",
        },
        CommandWord::Flag {
            name: "apart",
            help: "Standard error is not the terminal",
        },
        CommandWord::Files,
    ],
};

/// What the words of the command line ask for.
///
/// # Errors
///
/// Those of [`given_words`]: if a word is neither an option nor a FILE, if a number isn't in its range, if no FILE is
/// given, if a word isn't text, if help is asked for, or if the host has too little memory.
pub fn settings<R: Env + AllocGlobal>(rt: &R) -> Result<Settings, WordsError>
    ensures { IfOk result (λ s. AreInRange s) }
{
    let given = given_words(rt, &COMMAND_LINE)?;
    let frames = given.number(&FRAMES)?;
    let trace = given.number(&TRACE)?;
    let tick = given.number(&TICK)?;
    let files = given.files()?;
    Ok(Settings {
        frames,
        trace,
        tick,
        record: given.text("record")?,
        overwrite: given.flag("overwrite"),
        replay: replay_words(rt, &given, &[])?,
        lines: given.text("lines")?,
        terminal: given.flag("terminal"),
        woken: given.flag("woken"),
        apart: given.flag("apart"),
        files,
    })
}
