//! The words of the command line.
ghost use Rattle.std.specs.Prelude.{◌≡◌, ◌≤◌, ℕ, IfNone, IfOk, IfSome};
ghost use Rattle.explained_run.specs.Ranges.{AreInRange};
ghost use Rattle.explained_run.specs.Who as meant;
ghost use Rattle.xk_base.specs.declared.limits.TheConstants.{PID_MAX};

use crate::NAME;
use crate::line::Settings;
use program_files::{
    CommandLine, CommandWord, FRAMES, Given, NumberOption, QUANTUM, ROUNDS, SettingsError, TRACE,
    WordsError, given_words,
};
use recorded_runs::{AT_WORD, REPLAY_WORD, TOLD_BY_RECORD, replay_words};
use run_work::BUDGET;
use std::rt::Env;
use xk_base::Pid;
use xk_base::limits::PID_MAX;

/// The word that names a process.
const PID: NumberOption = NumberOption {
    name: "pid",
    help: "Tell of this process alone; 0: of all",
    default: "0",
    least: 0,
    most: PID_MAX,
};

/// The word that names a program.
const PROGRAM: &str = "program";

/// The word that names kernel calls.
const CALL: &str = "call";

/// The word that asks for calls that failed.
const FAILED: &str = "failed";

/// The word that names a process by its pid, or by the program that it runs.
const PROCESS: &str = "process";

/// The word that says how much of a text is shown.
const SHOWN: NumberOption = NumberOption {
    name: "shown",
    help: "Show so many bytes of each text and buffer at most: 0 to 65535",
    default: "32",
    least: 0,
    most: 65_535,
};

/// The word that names the file of the lines.
const OUTPUT: &str = "output";

/// The word that asks for the numbers of events.
const NUMBERS: &str = "numbers";

/// The word that asks for a table.
const COUNT: &str = "count";

/// What stands below the list of options in the text of `--help`.
const MORE_HELP: &str = "\
It runs programs as xv_run does: the FILEs, the rounds, the keys from standard input, what goes to
standard output, and the exit status are the same. With --budget a run that does more work is
broken off, and the exit status is 6.

With --replay it tells a record that a terminal has kept, by its programs among the FILEs, up to its
end, or with --at up to its Nth event. The record has its frames, rounds and keys itself. If init is
not gone at the end, the exit status is 4.

On standard error stands a line for each kernel call that is done, with what was passed to it and
what it answered:

  3 (wc): read(0, \"echo hi\\n\", 64) = 8

A call that waits has a line that ends with `<unfinished ..>`; once it is done, `<.. resumed>` stands
before it. Bytes are written as strings of C, 32 at most, or as many as --shown says. Of what a
process reads or is told the line has what was stored. `killed` and `fault` tell that a process is
gone without a call; xv_why tells more. With --output the lines go into a file, and all else stays
where it is.

With --count a table tells at the end how many calls each process has done, how many of them
answered less than 0, and how many instructions it has done. It stands in place of the lines, and of
processes and calls it counts those that --pid, --call and --failed leave, and with --program it has
the rows of processes that ran this program last.";

const COMMAND_LINE: CommandLine = CommandLine {
    name: NAME,
    about: "Runs programs as xv_run does, and tells their kernel calls",
    more_help: MORE_HELP,
    words: &[
        CommandWord::Number(&FRAMES),
        CommandWord::Number(&ROUNDS),
        CommandWord::Number(&QUANTUM),
        CommandWord::Number(&TRACE),
        CommandWord::Number(&BUDGET),
        CommandWord::Number(&PID),
        CommandWord::Text {
            name: PROGRAM,
            value: "NAME",
            help: "Tell only what processes do that run this program",
        },
        CommandWord::Text {
            name: PROCESS,
            value: "WHO",
            help: "As --pid, if it is a number, or else as --program",
        },
        CommandWord::Text {
            name: CALL,
            value: "NAMES",
            help: "Tell these kernel calls alone, as read,write",
        },
        CommandWord::Flag {
            name: FAILED,
            help: "Tell only calls that answered less than 0, and faults and kills",
        },
        CommandWord::Number(&SHOWN),
        CommandWord::Text {
            name: OUTPUT,
            value: "PATH",
            help: "Write the lines into this file, and not to standard error",
        },
        CommandWord::Flag {
            name: NUMBERS,
            help: "Begin each line with the number of events before it",
        },
        CommandWord::Flag {
            name: COUNT,
            help: "Count the calls of each process in place of the lines",
        },
        REPLAY_WORD,
        AT_WORD,
        CommandWord::Files,
    ],
};

// The process that is named, if any.
fn chosen_pid(number: u32) -> Option<Pid>
    requires { number ≤ PID_MAX }
    ensures { result ≡ meant.pid_of number }
{
    if number == 0 {
        return None;
    }
    Some(Pid::new(number))
}

// The bytes that are shown of each text.
fn shown_bytes(number: u32) -> u16
    requires { number ≤ 65535 }
    ensures { result ≡ number }
{
    number as u16
}

/// Which processes are asked for.
#[derive(Drop)]
struct Who {
    pid: Option<Pid>,
    program: Option<String>,
}

// The number that a text writes, if it is 0, or one that a pid may be.
fn number_in(text: &str) -> Option<u32>
    ensures number { IfSome result (meant.IsPid text.now) }
    ensures none { IfNone result ((number : ℕ) → ¬ (meant.IsPid text.now number)) }
    ensures bounded { IfSome result (λ number. number ≤ PID_MAX) }
{
    match text.parse::<u32>() {
        Ok(number) if number <= PID_MAX => Some(number),
        Ok(_) => None,
        Err(_) => None,
    }
}

// The same of a text, if there is one.
fn number_if(text: &Option<String>) -> Option<u32>
    ensures bounded { IfSome result (λ number. number ≤ PID_MAX) }
{
    match text {
        Some(text) => number_in(text.as_str()),
        None => None,
    }
}

// Which processes are asked for, if a text names one by this number, or by the program that it runs, beside what the other
// words ask for.
fn who_by(process: Option<String>, number: Option<u32>, other: Who) -> Who
    requires { IfSome number (λ n. n ≤ PID_MAX) }
    ensures pid { result.pid ≡ meant.pid_by process number other.pid }
    ensures program { result.program ≡ meant.program_by process number other.program }
{
    let Some(text) = process else {
        return other;
    };
    match number {
        Some(number) => Who {
            pid: chosen_pid(number),
            program: other.program,
        },
        None => Who {
            pid: other.pid,
            program: Some(text),
        },
    }
}

// Which processes the words ask for.
fn who_in(given: &Given) -> Result<Who, SettingsError> {
    let named = Who {
        pid: chosen_pid(given.number(&PID)?),
        program: given.text(PROGRAM)?,
    };
    let process = given.text(PROCESS)?;
    let number = number_if(&process);
    Ok(who_by(process, number, named))
}

/// What the words of the command line ask for.
///
/// # Errors
///
/// Those of [`given_words`]: if a word is neither an option nor a FILE, if a number isn't in its range, if no FILE is
/// given, if a word isn't text, if help is asked for, or if the host has too little memory.
pub(crate) fn settings<R: Env + AllocGlobal>(rt: &R) -> Result<Settings, WordsError>
    ensures { IfOk result (λ s. AreInRange s) }
{
    let given = given_words(rt, &COMMAND_LINE)?;
    let frames = given.number(&FRAMES)?;
    let rounds = given.number(&ROUNDS)?;
    let quantum = given.number(&QUANTUM)?;
    let trace = given.number(&TRACE)?;
    let budget = given.number(&BUDGET)?;
    let Who { pid, program } = who_in(&given)?;
    let calls = given.text(CALL)?;
    let failed = given.flag(FAILED);
    let numbers = given.flag(NUMBERS);
    let shown = shown_bytes(given.number(&SHOWN)?);
    let output = given.text(OUTPUT)?;
    let count = given.flag(COUNT);
    let replay = replay_words(rt, &given, &TOLD_BY_RECORD)?;
    let files = given.files()?;
    Ok(Settings {
        frames,
        rounds: u64::from(rounds),
        quantum,
        trace,
        budget,
        pid,
        program,
        calls,
        failed,
        numbers,
        shown,
        output,
        count,
        replay,
        files,
    })
}
