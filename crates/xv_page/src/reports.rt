//! Why a process ended, and why one doesn't go on: the texts of `xv_report`.
//!
//! The host keeps the place of what is known of the programs' sources, 8 bytes that are 0 before the first one, and
//! gives it with each call. A text is laid into the host's room, if it fits, and its length is told.
ghost use Rattle.std.specs.Prelude.{◌≡◌, IfErr, IfOk, [], option_map};
ghost use Rattle.std.specs.String.{string_bytes};
ghost use Rattle.uasm_core.specs.LineTable.{table_seen};
ghost use Rattle.xv_page.specs.Booting.{held};
ghost use Rattle.xv_page.specs.Named.{both, pid_named, cause_named};
ghost use Rattle.xv_page.specs.Reasons.{IsTold};
ghost use Rattle.xv_page.specs.declared.answers.Answer.TheVariants.{Memory};
ghost use Rattle.xv_page.specs.Reports.{known, symbols_in, tables_in, IsAssembledOf, IsLinesOf, Begins, Adds, AddedTo, SourceAdded};
ghost use Rattle.xv_page.specs.Reports.{TextTold, TellsOf, ReportNow, FaultTold};

use crate::answers::{Answer, lay};
use crate::named::{cause_named, pid_named};
use std::alloc::{AllocError, Global};
use std::str;
use uasm_core::{AsmError, SourceLines, assemble_with_lines};
use xk_base::{Cause, Pid};
use xv_report::text::{FaultText, KillText, Place, RefusedText, WaitLine};
use xv_report::{
    FaultReport, Lines, Sources, call_name, calls_of, hint_of, program_name, source_of,
};
use xv_session::{Fault, Session, next_step};

/// A table of lines, and of no program more.
fn begun(alloc: Global, table: &str) -> Result<Box<Sources>, AllocError>
    ensures symbols { IfOk result (λ b. symbols_in b.value ≡ []) }
    ensures tables { IfOk result (λ b. tables_in b.value ≡ []) }
{
    let lines = Lines::of(alloc, table)?;
    let sources = Sources {
        symbols: Vec::new(alloc),
        assembled: Vec::new(alloc),
        lines,
    };
    match Box::new(alloc, sources) {
        Ok(sources) => Ok(sources),
        Err(_) => Err(AllocError),
    }
}

/// Begins what is known of the sources of a machine's programs, in place of what is there: a table of lines as
/// `xv_report` reads it, with a row `PROGRAM ADDRESS LINE` in each line. `Unknown`: the table isn't UTF-8.
#[inline(never)]
pub fn xv_page_know(alloc: Global, sources: &mut Option<Box<Sources>>, table: &[u8]) -> Answer
    ensures { Begins table.now result (known sources.old) (known sources.new) }
{
    let Ok(table) = str::from_utf8(table) else {
        return Answer::Unknown;
    };
    match begun(alloc, table) {
        Ok(fresh) => {
            *sources = Some(fresh);
            Answer::Done
        }
        Err(_) => Answer::Memory,
    }
}

/// Where the lines of a text stand in the program that is assembled of it; `None` if the text is refused.
fn assembled(alloc: Global, text: &str) -> Result<Option<SourceLines>, AllocError>
    ensures { IfOk result (λ lines. IsAssembledOf text.now (option_map table_seen lines)) }
{
    match assemble_with_lines(alloc, text) {
        Ok(made) => Ok(Some(made.lines)),
        Err(AsmError::Memory) => Err(AllocError),
        Err(AsmError::At { .. }) => Ok(None),
    }
}

/// Where the lines of a source stand in its program; `None` if there is no source, or none that can be assembled.
fn lines_of(alloc: Global, source: &[u8]) -> Result<Option<SourceLines>, AllocError>
    ensures { IfOk result (λ lines. IsLinesOf source.now (option_map table_seen lines)) }
{
    if source.is_empty() {
        return Ok(None);
    }
    match str::from_utf8(source) {
        Ok(text) => assembled(alloc, text),
        Err(_) => Ok(None),
    }
}

/// Adds what is known of one more program.
fn add(sources: &mut Sources, symbols: Vec<u8>, lines: Option<SourceLines>) -> Answer
    ensures { Adds symbols.items (option_map table_seen lines) result sources.old sources.new }
{
    let Ok(()) = sources.symbols.push(symbols) else {
        return Answer::Memory;
    };
    match sources.assembled.push(lines) {
        Ok(()) => Answer::Done,
        Err(_) => {
            sources.symbols.pop();
            Answer::Memory
        }
    }
}

/// What is known of one more program, put behind what is known of those before.
fn added(
    alloc: Global,
    sources: &mut Sources,
    symbols: &[u8],
    source: &[u8],
) -> Result<Answer, AllocError>
    ensures { AddedTo symbols.now source.now result sources.old sources.new }
{
    let symbols = Vec::from_slice(alloc, symbols)?;
    let lines = lines_of(alloc, source)?;
    Ok(add(sources, symbols, lines))
}

/// Adds what is known of the next program, in their order: the bytes of an ELF file with its symbols, none if there are
/// none, and the text that it was assembled of, none if it wasn't. If the host has too little memory, what is known is
/// as it was. `Unknown`: nothing was begun.
#[inline(never)]
pub fn xv_page_source(
    alloc: Global,
    sources: &mut Option<Box<Sources>>,
    symbols: &[u8],
    source: &[u8],
) -> Answer
    ensures { SourceAdded symbols.now source.now result (known sources.old) (known sources.new) }
{
    let Some(sources) = sources else {
        return Answer::Unknown;
    };
    match added(alloc, sources, symbols, source) {
        Ok(answer) => answer,
        Err(_) => Answer::Memory,
    }
}

/// What is known of the sources, if something is.
fn known(sources: &Option<Box<Sources>>) -> Option<&Sources>
    ensures { option_map (λ s. s.now) result ≡ known sources.now }
{
    match sources {
        Some(sources) => Some(sources),
        None => None,
    }
}

/// Lays a text into a room, and tells its length.
pub(crate) fn laid(text: Result<String, AllocError>, told: &mut u64, room: &mut [u8]) -> Answer
    ensures told { TextTold result (told.old, room.old) (told.new, room.new) }
    ensures just { IfOk text (λ text. IsTold (string_bytes text) result (told.old, room.old) (told.new, room.new)) }
    ensures none { IfErr text (λ _. (result ≡ Memory) × (told.new ≡ told.old) × (room.new ≡ room.old)) }
{
    let Ok(text) = text else {
        return Answer::Memory;
    };
    *told = text.len() as u64;
    lay(text.as_bytes(), room);
    Answer::Done
}

/// Why a process doesn't go on, as text.
fn wait_text<'a>(
    alloc: Global,
    session: &'a Session,
    sources: Option<&'a Sources>,
    pid: Pid,
) -> Result<String, AllocError> {
    let line = WaitLine {
        session,
        pid,
        source: source_of(sources, session, session.program_of(pid)),
    };
    line.to_string(alloc)
}

/// Tells in words what a process does that has not ended: on what it sleeps and who could wake it, or where it stands.
#[inline(never)]
pub fn xv_page_wait(
    alloc: Global,
    session: &Option<Box<Session>>,
    sources: &Option<Box<Sources>>,
    pid: u32,
    told: &mut u64,
    room: &mut [u8],
) -> Answer
    ensures { TellsOf (pid_named pid) (held session.now) result (told.old, room.old) (told.new, room.new) }
{
    let Some(session) = session else {
        return Answer::NotBooted;
    };
    let Some(pid) = pid_named(pid) else {
        return Answer::Unknown;
    };
    laid(wait_text(alloc, session, known(sources), pid), told, room)
}

/// A fault of the process that runs, the calls that led to it, by what is known of its program's source, and what may be
/// wrong; `None` if nobody runs.
fn report_of(
    alloc: Global,
    session: &Session,
    sources: Option<&Sources>,
    cause: Cause,
) -> Result<Option<FaultReport>, AllocError>
    ensures { IfOk result (ReportNow (option_map (λ s. s.now) sources.entry) cause session.now session.now.machine.world.turns.current) }
{
    let machine = session.machine();
    let Some(pid) = machine.current() else {
        return Ok(None);
    };
    let Some(step) = next_step(machine, pid) else {
        return Ok(None);
    };
    let source = source_of(sources, session, session.program_of(pid));
    let Some(calls) = calls_of(alloc, machine, pid, &source)? else {
        return Ok(None);
    };
    let fault = Fault { step, cause };
    let hint = hint_of(machine, &fault);
    Ok(Some(FaultReport { fault, calls, hint }))
}

/// A fault, as text.
fn fault_text<'a>(
    alloc: Global,
    session: &'a Session,
    sources: Option<&'a Sources>,
    report: &'a FaultReport,
) -> Result<String, AllocError> {
    let pid = report.fault.step.pid;
    let text = FaultText {
        report,
        program: program_name(session, pid),
        source: source_of(sources, session, session.program_of(pid)),
    };
    text.to_string(alloc)
}

/// Tells in words why the step that is next can't be made, by the cause of its fault, with the registers and the calls
/// that led to it. `Unknown`: no fault has this cause (RISC-V Privileged ISA, "scause"), or nobody runs.
#[inline(never)]
pub fn xv_page_fault(
    alloc: Global,
    session: &Option<Box<Session>>,
    sources: &Option<Box<Sources>>,
    cause: u32,
    told: &mut u64,
    room: &mut [u8],
) -> Answer
    ensures { FaultTold (known sources.now) (cause_named cause) (held session.now) result (told.old, room.old) (told.new, room.new) }
{
    let Some(session) = session else {
        return Answer::NotBooted;
    };
    let Some(cause) = cause_named(cause) else {
        return Answer::Unknown;
    };
    let report = match report_of(alloc, session, known(sources), cause) {
        Ok(Some(report)) => report,
        Ok(None) => return Answer::Unknown,
        Err(_) => return Answer::Memory,
    };
    laid(
        fault_text(alloc, session, known(sources), &report),
        told,
        room,
    )
}

/// The processes of these numbers, if there can be both.
fn both_named(first: u32, second: u32) -> Option<(Pid, Pid)>
    ensures { result ≡ both (pid_named first) (pid_named second) }
{
    let first = pid_named(first)?;
    let second = pid_named(second)?;
    Some((first, second))
}

/// An address of the program that a process runs.
fn place_of<'a>(
    session: &'a Session,
    sources: Option<&'a Sources>,
    pid: Pid,
    address: u64,
) -> Place<'a> {
    Place {
        address,
        source: source_of(sources, session, session.program_of(pid)),
    }
}

/// That a process was killed by another, at this address, as text.
fn kill_text<'a>(
    alloc: Global,
    session: &'a Session,
    sources: Option<&'a Sources>,
    pids: (Pid, Pid),
    at: u64,
) -> Result<String, AllocError> {
    let (victim, killer) = pids;
    let text = KillText {
        victim,
        program: program_name(session, victim),
        killer,
        killer_program: program_name(session, killer),
        place: place_of(session, sources, killer, at),
    };
    text.to_string(alloc)
}

/// Tells in words that a process was killed by another, by its call at this address. The host says who was killed by whom, and
/// where: it stands right after the call then.
#[inline(never)]
pub fn xv_page_kill(
    alloc: Global,
    session: &Option<Box<Session>>,
    sources: &Option<Box<Sources>>,
    victim: u32,
    killer: u32,
    at: u64,
    told: &mut u64,
    room: &mut [u8],
) -> Answer
    ensures { TellsOf (both (pid_named victim) (pid_named killer)) (held session.now) result (told.old, room.old) (told.new, room.new) }
{
    let Some(session) = session else {
        return Answer::NotBooted;
    };
    let Some(pids) = both_named(victim, killer) else {
        return Answer::Unknown;
    };
    laid(
        kill_text(alloc, session, known(sources), pids, at),
        told,
        room,
    )
}

/// That a growth was refused which a process has asked for at this address, as text.
fn refused_text<'a>(
    alloc: Global,
    session: &'a Session,
    sources: Option<&'a Sources>,
    pid: Pid,
    number: u32,
    at: u64,
) -> Result<String, AllocError> {
    let text = RefusedText {
        call: call_name(number.cast_signed()).unwrap_or("call"),
        place: place_of(session, sources, pid, at),
    };
    text.to_string(alloc)
}

/// Tells in words that a process was refused a growth: its call of this number, at this address. The host says so: it stands
/// right after the call then.
#[inline(never)]
pub fn xv_page_refused(
    alloc: Global,
    session: &Option<Box<Session>>,
    sources: &Option<Box<Sources>>,
    pid: u32,
    number: u32,
    at: u64,
    told: &mut u64,
    room: &mut [u8],
) -> Answer
    ensures { TellsOf (pid_named pid) (held session.now) result (told.old, room.old) (told.new, room.new) }
{
    let Some(session) = session else {
        return Answer::NotBooted;
    };
    let Some(pid) = pid_named(pid) else {
        return Answer::Unknown;
    };
    laid(
        refused_text(alloc, session, known(sources), pid, number, at),
        told,
        room,
    )
}
