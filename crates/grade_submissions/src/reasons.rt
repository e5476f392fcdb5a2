//! What a run came to that isn't an exit, in a student's words.
use crate::playing::{NOTES_MAX, Played, SHOWN_MAX};
use crate::submission::Submission;
use grade_sheets::{Grouped, Standing};
use program_files::Failure;
use run_work::OverBudget;
use std::alloc::{AllocError, Global};
use xk_base::Pid;
use xv_report::text::{FaultText, WaitLine};
use xv_report::{FaultReport, ProgramLines, ProgramSource, program_name, report_at};
use xv_session::next_step;

// Whether a process runs what was handed in, as far as is known.
fn runs_submission(submission: &Submission, played: &Played, pid: Pid) -> bool {
    let Some(name) = program_name(&played.session, pid) else {
        return true;
    };
    let file = submission.file.as_str();
    name == file.strip_suffix(".s").unwrap_or(file).as_bytes()
}

// The line of what was handed in where a process stands, if it is known.
fn line_of(submission: &Submission, played: &Played, pid: Pid, pc: u64) -> Option<usize> {
    if !runs_submission(submission, played, pid) {
        return None;
    }
    match &submission.lines {
        Some(lines) => lines.line_at(pc),
        None => None,
    }
}

// The same, as a text to be put behind; empty if it isn't known.
fn line_text(
    alloc: Global,
    submission: &Submission,
    played: &Played,
    pid: Pid,
    pc: u64,
) -> Result<String, AllocError> {
    match line_of(submission, played, pid, pc) {
        Some(line) => format!(in alloc; ", line {line}"),
        None => Ok(String::new(alloc)),
    }
}

// Where a process stands.
#[derive(Clone, Copy)]
struct Place {
    pid: Pid,
    pc: u64,
}

// Where the process stands that had the last turn, if it goes on.
fn last_place(played: &Played) -> Option<Place> {
    let pid = played.kept.last?;
    let step = next_step(played.session.machine(), pid)?;
    Some(Place {
        pid,
        pc: step.regs.pc(),
    })
}

// Where a run stands that still computes: the process that had the last turn, and its pc.
fn loop_text(
    alloc: Global,
    submission: &Submission,
    played: &Played,
) -> Result<String, AllocError> {
    let runs = Grouped(played.kept.runs);
    let Some(place) = last_place(played) else {
        return format!(in alloc; "loops: {runs} Runs, and init has not ended");
    };
    let (number, pc) = (place.pid.number(), place.pc);
    let line = line_text(alloc, submission, played, place.pid, pc)?;
    format!(in alloc; "loops: {runs} Runs and process {number} still computes at pc {pc:#x}{line}")
}

// What is told of the source of what was handed in: its functions. Its line is told in words of its own.
fn functions_of(symbols: &[u8]) -> ProgramSource<'_> {
    ProgramSource {
        symbols,
        lines: ProgramLines::Unknown,
    }
}

// A fault, its registers and its callers, as text.
fn report_text<'x>(
    alloc: Global,
    report: &'x FaultReport,
    symbols: &'x [u8],
) -> Result<String, AllocError> {
    let text = FaultText {
        report,
        program: None,
        source: functions_of(symbols),
    };
    format!(in alloc; "{text}")
}

// The first line of a text.
fn first_line(text: &str) -> &str {
    match text.split_once('\n') {
        Some((first, _)) => first,
        None => text,
    }
}

// What a run came to by this fault.
fn told_fault(
    alloc: Global,
    submission: &Submission,
    played: &Played,
    report: &FaultReport,
) -> Result<String, AllocError> {
    let step = &report.fault.step;
    let code = report.fault.cause.code();
    let line = line_text(alloc, submission, played, step.pid, step.regs.pc())?;
    let text = report_text(alloc, report, submission.bytes.as_slice())?;
    let first = first_line(text.as_str());
    format!(in alloc; "fault {code}: {first}{line}")
}

// The fault of a run, as it stood before that step.
fn fault_text(
    alloc: Global,
    submission: &Submission,
    played: &Played,
) -> Result<String, Failure<'static>> {
    let Some(place) = played.kept.fault else {
        return Ok(String::from_str(alloc, "fault ")?);
    };
    let source = functions_of(submission.bytes.as_slice());
    match report_at(alloc, &played.session, place, &source)? {
        Some(report) => Ok(told_fault(alloc, submission, played, &report)?),
        None => Ok(String::from_str(alloc, "fault ")?),
    }
}

// Why process 1 doesn't go on.
fn wait_text(
    alloc: Global,
    submission: &Submission,
    played: &Played,
) -> Result<String, AllocError> {
    let line = WaitLine {
        session: &played.session,
        pid: Pid::new(1),
        source: functions_of(submission.bytes.as_slice()),
    };
    format!(in alloc; "waits: {line}")
}

// That a run waits for the console alone, which still sends.
fn flood_text(alloc: Global, played: &Played) -> Result<String, AllocError> {
    let bytes = Grouped(played.kept.shown.len() as u64);
    format!(in alloc; "floods: {bytes} bytes are shown, and the console still sends more")
}

// That the work of a run is more than its budget.
fn budget_text(alloc: Global, played: &Played) -> Result<String, AllocError> {
    let over = OverBudget {
        runs: played.kept.runs,
        budget: played.kept.budget,
    };
    format!(in alloc; "{over}")
}

// That a run made more notes, or showed more bytes, than are kept.
fn too_much_text(alloc: Global) -> Result<String, AllocError> {
    let (notes, bytes) = (Grouped(NOTES_MAX as u64), Grouped(SHOWN_MAX as u64));
    format!(in alloc; "too much: more than {notes} notes or {bytes} bytes")
}

/// What a run of this standing came to: its word, and what shows it; empty if it is right, or ended and is wrong.
///
/// # Errors
///
/// [`Failure::OutOfMemory`].
pub(crate) fn cause(
    alloc: Global,
    standing: Standing,
    submission: &Submission,
    played: &Played,
) -> Result<String, Failure<'static>> {
    match standing {
        Standing::Loops => Ok(loop_text(alloc, submission, played)?),
        Standing::Waits => Ok(wait_text(alloc, submission, played)?),
        Standing::Fault => fault_text(alloc, submission, played),
        Standing::Floods => Ok(flood_text(alloc, played)?),
        Standing::TooMuch => Ok(too_much_text(alloc)?),
        Standing::Budget => Ok(budget_text(alloc, played)?),
        Standing::Right | Standing::Wrong | Standing::Refused => Ok(String::new(alloc)),
    }
}
