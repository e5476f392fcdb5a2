//! The words of the command line.
ghost use Rattle.std.specs.Prelude.{◌≡◌, ◌≤◌, IfOk};
ghost use Rattle.reported_run.specs.Ranges.{AreInRange};

use crate::NAME;
use crate::line::{Settings, Telling};
use program_files::{
    CommandLine, CommandWord, FRAMES, QUANTUM, ROUNDS, TRACE, WordsError, given_words,
};
use recorded_runs::{AT_WORD, REPLAY_WORD, TOLD_BY_RECORD, replay_words};
use run_work::BUDGET;
use std::rt::Env;

/// The word that asks for each event in words.
const EXPLAIN: &str = "explain";

/// The word that asks for each event as a line of a trace.
const NOTES: &str = "notes";

/// The word that names a table of lines.
const LINES: &str = "lines";

/// What stands below the list of options in the text of `--help`.
const MORE_HELP: &str = "\
It runs programs as xv_run does: the FILEs, the rounds, the keys from standard input, what goes to
standard output, and the exit status are the same. With --budget a run that does more work is
broken off, and the exit status is 6.

With --replay it tells a record that a terminal has kept, by its programs among the FILEs, up to its
end, or with --at up to its Nth event. The record has its frames, rounds and keys itself. If init is
not gone at the end, the exit status is 4.

On standard error it tells each fault as it comes: the process, what it was about to do and why it
could not, its registers, and the calls that led there. At the end it tells of each process that
has not exited what it sleeps on and who could wake it, or which instruction is its next one.

With --notes each event is a line as in xv_run's trace; `name 3 wc` says which program process 3 runs
from there on, and `waits 3 ..` what it sleeps on. xv_picture draws these lines.

The function of an address comes from the symbol table of FILE.debug, if there is such a file, or
else of FILE itself; the label and the line of an address in assembler source from the source. The
lines of other programs are those of the table of --lines.";

const COMMAND_LINE: CommandLine = CommandLine {
    name: NAME,
    about: "Runs programs as xv_run does, and tells why processes end or wait",
    more_help: MORE_HELP,
    words: &[
        CommandWord::Number(&FRAMES),
        CommandWord::Number(&ROUNDS),
        CommandWord::Number(&QUANTUM),
        CommandWord::Number(&TRACE),
        CommandWord::Number(&BUDGET),
        CommandWord::Flag {
            name: EXPLAIN,
            help: "Tell each event in words, as it comes",
        },
        CommandWord::Flag {
            name: NOTES,
            help: "Tell each event as a line of a trace, with names, as it comes",
        },
        CommandWord::Text {
            name: LINES,
            value: "TABLE",
            help: "A file with rows PROGRAM ADDRESS LINE in decimal numbers, as ./xv --why makes it",
        },
        REPLAY_WORD,
        AT_WORD,
        CommandWord::Files,
    ],
};

// What is told of events as they come, if they are to be told in words, or as lines of a trace, which goes before.
fn telling(in_words: bool, as_notes: bool) -> Telling {
    if as_notes {
        return Telling::Notes;
    }
    if in_words {
        Telling::Words
    } else {
        Telling::Faults
    }
}

/// What the words of the command line ask for.
///
/// # Errors
///
/// Those of [`given_words`]: if a word is neither an option nor a FILE, if a number isn't in its range, if no FILE is
/// given, if a word isn't text, if help is asked for, or if the host has too little memory.
pub(crate) fn settings<R: Env + AllocGlobal>(rt: &R) -> Result<Settings, WordsError>
    ensures { IfOk result (λ s. AreInRange s) }
{
    let given = given_words(rt, &COMMAND_LINE)?;
    let frames = given.number(&FRAMES)?;
    let rounds = given.number(&ROUNDS)?;
    let quantum = given.number(&QUANTUM)?;
    let trace = given.number(&TRACE)?;
    let budget = given.number(&BUDGET)?;
    let telling = telling(given.flag(EXPLAIN), given.flag(NOTES));
    let lines = given.text(LINES)?;
    let replay = replay_words(rt, &given, &TOLD_BY_RECORD)?;
    let files = given.files()?;
    Ok(Settings {
        frames,
        rounds: u64::from(rounds),
        quantum,
        trace,
        budget,
        telling,
        lines,
        replay,
        files,
    })
}
