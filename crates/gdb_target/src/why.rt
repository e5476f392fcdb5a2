//! Why processes don't go on: what they wait for, and who could wake them; and why the last call was refused.
ghost use Rattle.std.specs.Prelude.{◌≡◌, ◌++◌, OnOk, string_bytes};
ghost use Rattle.debug_views.specs.Written.{Writes};
ghost use Rattle.gdb_target.specs.WhyText.{IsLastRefusal, IsRefusalOf, IsWhyText, refusal_text};

use call_reasons::{Reason, reason_of_last};
use std::alloc::{AllocError, Global};
use xk_base::Pid;
use xv_report::source_of;
use xv_report::text::WaitLine;
use xv_session::{Named, Session};

/// Writes the line of a live process, as `--why` tells it: what it waits for, and who could wake it; or else where it stands.
fn show_wait(session: &Session, named: &Named, lines: &mut String) -> Result<(), AllocError> {
    let line = WaitLine {
        session,
        pid: named.pid,
        source: source_of(None, session, Some(named.place)),
    };
    writeln!(lines, "{line}")
}

/// The lines of all live processes.
fn wait_lines(alloc: Global, session: &Session) -> Result<String, AllocError> {
    let mut lines = String::new(alloc);
    for named in session.names() {
        show_wait(session, named, &mut lines)?;
    }
    Ok(lines)
}

/// Writes the reason for which a process's call was refused, if there is one.
fn show_reason(pid: Pid, reason: Option<Reason>, text: &mut String) -> Result<(), AllocError>
    ensures { OnOk result (string_bytes text.new ≡ string_bytes text.old ++ refusal_text pid reason) }
{
    let Some(reason) = reason else {
        return Ok(());
    };
    let number = pid.number();
    writeln!(
        text,
        "the last call, of process {number}, was refused: {reason}"
    )
}

/// Writes why the call of this process was refused by the last event, if it was. The run is played again for it.
fn show_refusal_of(
    alloc: Global,
    session: &Session,
    pid: Option<Pid>,
    text: &mut String,
) -> Result<(), AllocError>
    ensures { OnOk result
        (Writes (string_bytes text.old) (string_bytes text.new) (IsRefusalOf session.now pid)) }
{
    let Some(pid) = pid else {
        return Ok(());
    };
    let Ok(reason) = reason_of_last(alloc, session, pid) else {
        return Err(AllocError);
    };
    show_reason(pid, reason, text)
}

/// Writes why the last call was refused, if it was, and came by the last event.
fn show_refusal(alloc: Global, session: &Session, text: &mut String) -> Result<(), AllocError>
    ensures { OnOk result
        (Writes (string_bytes text.old) (string_bytes text.new) (IsLastRefusal session.now)) }
{
    show_refusal_of(alloc, session, session.last_step(), text)
}

/// Writes what each process waits for, and why the last call was refused.
///
/// # Errors
///
/// [`AllocError`] if the host has too little memory.
pub(crate) fn show_why(
    alloc: Global,
    session: &Session,
    text: &mut String,
) -> Result<(), AllocError>
    ensures { OnOk result
        (Writes (string_bytes text.old) (string_bytes text.new) (IsWhyText session.now)) }
{
    let waits = wait_lines(alloc, session)?;
    text.push_str(waits.as_str())?;
    show_refusal(alloc, session, text)
}
