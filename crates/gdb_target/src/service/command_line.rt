//! The words of the command line.
ghost use Rattle.std.specs.Prelude.{IfOk};
ghost use Rattle.gdb_target.specs.Settings.{AreInRange};

use crate::service::NAME;
use program_files::{
    CommandLine, CommandWord, FRAMES, NumberOption, QUANTUM, WordsError, given_words,
};
use recorded_runs::{REPLAY_WORD, ReplayWords, replay_words};
use std::rt::Env;

/// What the words ask for.
#[derive(Drop)]
pub(crate) struct Settings {
    /// Frames of RAM: 16 to 32,768.
    pub frames: u32,
    /// Runs in each round: 1 to 1,000,000.
    pub quantum: u32,
    /// The most events of one command that goes on: 1 to 4,000,000,000.
    pub most: u32,
    /// The path of a file whose bytes are typed.
    pub keys: Option<String>,
    /// A line that is typed after them.
    pub line: Option<String>,
    /// The name of the program that GDB has the symbols of.
    pub file: Option<String>,
    /// The record whose run is debugged, and the place in it at which GDB begins.
    pub replay: ReplayWords,
    /// The path of each FILE, in the order of the words: at least one.
    pub files: Vec<String>,
}

/// The most events of one command.
const MOST: NumberOption = NumberOption {
    name: "most",
    help: "The most events of one continue or step: 1 to 4000000000",
    default: "100000000",
    least: 1,
    most: 4_000_000_000,
};

/// What stands below the list of options in the text of `--help`.
const MORE_HELP: &str = "\
GDB starts it, and talks to it by standard input and output:

  gdb-multiarch -l 60 programs/bin/sh.debug
  (gdb) target remote | ./xv --gdb programs/bin/init programs/bin/sh

A FILE is a program, as for xv_run. A process is a thread, and its pid is the thread's number. GDB knows one
program: breakpoints and watchpoints stop the processes that run this FILE. It is the first one that isn't init,
or the one that --file names.

The events of the machine come in rounds, as in xv_run: a key if one is left, so many Runs as --quantum says, a
tick, and 32 bytes that are sent. So a run is the same each time, and one can go back in it.

With --replay PATH the first events are those of a record, which `xv --record PATH` has kept of a session. GDB begins at
its end, or after its first N events with --at N, and can go back to the boot. After the record the rounds begin. Frames
and programs are the record's: the FILEs have to be there that it names.

Exit status:
  0  GDB went, or this text was asked for
  1  the command line is refused
  2  a FILE, the record or the boot is refused, or memory ran out
  5  standard input or standard output failed";

const COMMAND_LINE: CommandLine = CommandLine {
    name: NAME,
    about: "Runs programs on a RISC-V machine that has the kernel of xv6, for GDB",
    more_help: MORE_HELP,
    words: &[
        CommandWord::Number(&FRAMES),
        CommandWord::Number(&QUANTUM),
        CommandWord::Number(&MOST),
        CommandWord::Text {
            name: "keys",
            value: "FILE",
            help: "A file whose bytes are typed, one a round",
        },
        CommandWord::Text {
            name: "type",
            value: "TEXT",
            help: "A line that is typed after those bytes",
        },
        CommandWord::Text {
            name: "file",
            value: "NAME",
            help: "The program that GDB has the symbols of",
        },
        REPLAY_WORD,
        CommandWord::Text {
            name: "at",
            value: "N",
            help: "GDB begins after the first N events of the record",
        },
        CommandWord::Files,
    ],
};

/// What the words of the command line ask for.
///
/// # Errors
///
/// Those of [`given_words`]: if a word is neither an option nor a FILE, if a number isn't in its range, if no FILE is
/// given, if a word isn't text, if help is asked for, or if the host has too little memory.
pub(crate) fn read_settings<R: Env + AllocGlobal>(rt: &R) -> Result<Settings, WordsError>
    ensures { IfOk result (λ s. AreInRange s) }
{
    let given = given_words(rt, &COMMAND_LINE)?;
    let frames = given.number(&FRAMES)?;
    let quantum = given.number(&QUANTUM)?;
    let most = given.number(&MOST)?;
    let keys = given.text("keys")?;
    let line = given.text("type")?;
    let file = given.text("file")?;
    let replay = replay_words(rt, &given, &[&FRAMES])?;
    let files = given.files()?;
    Ok(Settings {
        frames,
        quantum,
        most,
        keys,
        line,
        file,
        replay,
        files,
    })
}
