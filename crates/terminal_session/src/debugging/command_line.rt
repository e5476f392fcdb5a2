//! The words of the command line.
ghost use Rattle.std.specs.Prelude.{IfOk};
ghost use Rattle.terminal_session.specs.DebugSettings.{AreInRange};

use crate::debugging::NAME;
use crate::debugging::keys::{KEYS, KEYS_WORD};
use program_files::{
    CommandLine, CommandWord, FRAMES, NumberOption, QUANTUM, TRACE, WordsError, given_words,
};
use recorded_runs::{AT_WORD, REPLAY_WORD, ReplayWords, replay_words};
use std::rt::Env;

/// What the words ask for.
#[derive(Drop)]
pub(crate) struct Settings {
    /// Frames of RAM: 16 to 32,768.
    pub frames: u32,
    /// The Runs in a round: 1 to 1,000,000.
    pub quantum: u32,
    /// The most notes that the trace keeps: 0 to 65,536.
    pub trace: u32,
    /// Whether a prompt is written before each line is read, and the line isn't written again.
    pub prompt: bool,
    /// The path of a table of lines.
    pub lines: Option<String>,
    /// The path of a file whose bytes are typed.
    pub keys: Option<String>,
    /// What is said of a record, at whose end the conversation begins.
    pub replay: ReplayWords,
    /// The path of each FILE, in the order of the words: at least one.
    pub files: Vec<String>,
}

/// The option that a record tells itself.
const TOLD_BY_RECORD: [&NumberOption; 1] = [&FRAMES];

/// What stands below the list of options in the text of `--help`.
const MORE_HELP: &str = "\
A FILE is named by the last part of its path. If that ends in .s, the file is assembler source,
and is named without the .s. The program named init runs first. Functions are told by FILE.debug,
if it is there, or else by FILE.

Standard input has words, a line each: help lists them. Without --prompt each line is written
before its answer, after a >, so that the words of a file and their answers read well. The end
of the input ends the debugger, and so does quit.

The words next, finish, until and c go by rounds. With --keys each round begins with a byte of that file,
until there is none left.

With --replay the events of a record that a terminal has kept are sent first, by its programs among
the FILEs: all of them, or with --at the first N. Nothing is shown of them. The words next, finish,
until, c and goto go on by the other events, and by rounds after the last one.

Example:
  printf 'until exit\\nback\\nwhere\\n' | xv_debugger init.s

Exit status:
  0  the words were obeyed, or this text was asked for
  1  the command line is refused
  2  a FILE, the record or the boot is refused, or memory ran out
  5  standard input or standard output failed";

const PROMPT: &str = "prompt";

const LINES: &str = "lines";

const COMMAND_LINE: CommandLine = CommandLine {
    name: NAME,
    about: "Looks into programs that run on a RISC-V machine that has the kernel of xv6",
    more_help: MORE_HELP,
    words: &[
        CommandWord::Number(&FRAMES),
        CommandWord::Number(&QUANTUM),
        CommandWord::Number(&TRACE),
        CommandWord::Flag {
            name: PROMPT,
            help: "Write a prompt before each line is read, and don't write the line again",
        },
        CommandWord::Text {
            name: LINES,
            value: "TABLE",
            help: "A file with rows PROGRAM ADDRESS LINE in decimal numbers, as ./xv --debug makes it",
        },
        KEYS_WORD,
        REPLAY_WORD,
        AT_WORD,
        CommandWord::Files,
    ],
};

/// The same words, if no file of keys is named; and else the option that names it doesn't go with a record, which tells
/// the keys itself.
fn without_keys(words: ReplayWords, keys: &Option<String>) -> ReplayWords {
    match keys {
        Some(_) => ReplayWords {
            path: words.path,
            at: words.at,
            beside: Some(KEYS),
        },
        None => words,
    }
}

/// What the words of the command line ask for.
///
/// # Errors
///
/// Those of [`given_words`]: if a word is neither an option nor a FILE, if a number isn't in its range, if no FILE is
/// given, if a word isn't text, if help is asked for, or if the host has too little memory.
pub(crate) fn read_settings<R: Env + AllocGlobal>(rt: &R) -> Result<Settings, WordsError>
    ensures { IfOk result (λ s. AreInRange s) }
{
    let given = given_words(rt, &COMMAND_LINE)?;
    let frames = given.number(&FRAMES)?;
    let quantum = given.number(&QUANTUM)?;
    let trace = given.number(&TRACE)?;
    let prompt = given.flag(PROMPT);
    let lines = given.text(LINES)?;
    let keys = given.text(KEYS)?;
    let replay = without_keys(replay_words(rt, &given, &TOLD_BY_RECORD)?, &keys);
    let files = given.files()?;
    Ok(Settings {
        frames,
        quantum,
        trace,
        prompt,
        lines,
        keys,
        replay,
        files,
    })
}
