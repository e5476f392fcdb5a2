//! The calls that led a process to where it is, as they are told.
use crate::choosing::{SeenCall, call_seen};
use std::alloc::{AllocError, Global};
use xk_base::Pid;
use xv_report::{Callers, Calls, NumberedCall, ProgramSource, Sources, calls_of, source_of};
use xv_session::Session;

/// The address of a call, which stands in the four bytes before the address to which it returns.
fn call_before(address: u64) -> u64 {
    address.wrapping_sub(4)
}

/// Writes a call's number, an address, and where that stands in the source, if it is known.
fn show_call(
    source: &ProgramSource<'_>,
    number: usize,
    address: u64,
    answer: &mut String,
) -> Result<(), AllocError> {
    let location = source.location(address);
    write!(answer, "#{number:<3} {address:>#8x}")?;
    if location.is_known() {
        writeln!(answer, "  {location}")
    } else {
        writeln!(answer)
    }
}

/// Writes the calls that are told, from the last one on.
fn show_calls(
    source: &ProgramSource<'_>,
    calls: &Calls,
    answer: &mut String,
) -> Result<(), AllocError> {
    for place in 0..calls.count() {
        if let Some(address) = calls.return_at(place) {
            show_call(source, place + 1, call_before(address), answer)?;
        }
    }
    Ok(())
}

/// What is said of calls that are guessed.
fn guess_remark(callers: &Callers) -> &'static str {
    if !callers.frames.is_empty() {
        return "(a guess, by the frame pointers)\n";
    }
    match callers.ra {
        Some(_) => "(a guess, by ra alone, which an earlier call may have left)\n",
        None => "(no caller: s0 leads to no frame, and ra to no call)\n",
    }
}

/// What is said of calls.
fn remark(calls: &Calls) -> &'static str {
    match calls {
        Calls::Known(addresses) if addresses.is_empty() => {
            "(no caller: by its table of call frames the stack holds none)\n"
        }
        Calls::Known(_) => "",
        Calls::FromRa(_) => {
            "(a guess from ra on: no table of call frames has the function of #0)\n"
        }
        Calls::Guessed(callers) => guess_remark(callers),
    }
}

/// What is told of the calls that led a process to where it is: nothing if it doesn't live.
pub(crate) fn told_calls(
    alloc: Global,
    session: &Session,
    sources: Option<&Sources>,
    pid: Pid,
) -> Result<String, AllocError> {
    let mut told = String::new(alloc);
    let source = source_of(sources, session, session.program_of(pid));
    let Some(regs) = session.machine().registers(pid) else {
        return Ok(told);
    };
    show_call(&source, 0, regs.pc(), &mut told)?;
    if let Some(calls) = calls_of(alloc, session.machine(), pid, &source)? {
        show_calls(&source, &calls, &mut told)?;
        told.push_str(remark(&calls))?;
    }
    Ok(told)
}

/// Writes the call that was made last of a process.
fn show_last(
    session: &Session,
    source: &ProgramSource<'_>,
    pid: Pid,
    answer: &mut String,
) -> Result<(), AllocError> {
    match session.machine().registers(pid) {
        Some(regs) => show_call(source, 0, regs.pc(), answer),
        None => {
            let number = pid.number();
            writeln!(
                answer,
                "no live process has the pid {number}; ps lists them"
            )
        }
    }
}

/// Writes a call that led to the last one, and whether it is a guess.
fn show_caller(
    source: &ProgramSource<'_>,
    number: usize,
    call: &NumberedCall,
    answer: &mut String,
) -> Result<(), AllocError> {
    show_call(source, number, call_before(call.pc), answer)?;
    if call.is_guess {
        answer.push_str("(a guess: bt tells by what)\n")?;
    }
    Ok(())
}

/// What is told of the call of a number of a process.
pub(crate) fn told_call(
    alloc: Global,
    session: &Session,
    sources: Option<&Sources>,
    pid: Pid,
    number: usize,
) -> Result<String, AllocError> {
    let mut told = String::new(alloc);
    let source = source_of(sources, session, session.program_of(pid));
    match call_seen(alloc, session, &source, pid, number)? {
        Some(SeenCall::Last) => show_last(session, &source, pid, &mut told)?,
        Some(SeenCall::Caller(call)) => show_caller(&source, number, &call, &mut told)?,
        None => {}
    }
    Ok(told)
}
