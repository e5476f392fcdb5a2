//! Why the call of a session was refused that came last.
ghost use Rattle.std.specs.Prelude.{◌≡◌, ◌-◌, IfErr, IfOk, length, option_map, slice_get};
ghost use Rattle.kernel_spec.specs.views.Words.{minus_one};
ghost use Rattle.xv_machine.specs.Events.{event_of, outcome_of};
ghost use Rattle.call_reasons.specs.Last.{IsReasonBy, IsReasonOfLast, is_refusal, reason_asked};

use crate::asked::asked_of;
use crate::reason::Reason;
use crate::telling::{is_refused, reason_of};
use std::alloc::Global;
use xk_base::Pid;
use xv_machine::{Event, Machine, Outcome};
use xv_session::{Session, SessionError};

/// What a refused call answers (the xv6 book, "Code: System calls").
pub const REFUSED: i64 = -1;

// Why what a process asks for is refused.
fn reason_asked(machine: &Machine, pid: Pid) -> Option<Reason>
    ensures { result ≡ reason_asked machine.now.world pid }
{
    let asked = asked_of(machine, pid)?;
    reason_of(machine, pid, &asked, REFUSED)
}

// Whether a call of a process was refused.
fn is_refusal(outcome: &Outcome, pid: Pid) -> bool
    ensures { result ≡ is_refusal pid (outcome_of outcome.now) }
{
    match outcome {
        Outcome::Called {
            pid: caller,
            value,
            ..
        } => caller.number() == pid.number() && is_refused(*value),
        _ => false,
    }
}

// Sends an event, and tells why the call of a process was refused by it, if it was.
fn reason_by(machine: &mut Machine, event: Event, pid: Pid) -> Option<Reason>
    ensures { IsReasonBy machine.old (event_of event) pid result }
{
    let reason = reason_asked(machine, pid);
    let outcome = machine.event(event);
    if is_refusal(&outcome, pid) {
        reason
    } else {
        None
    }
}

/// Why the call of a process was refused by a session's last event; `None` if no call of its was. The machine before it is
/// asked, so the run is played again up to there, some 300 million Runs a second.
///
/// # Errors
///
/// [`SessionError::Memory`] if the host has too little memory for a second machine.
pub fn reason_of_last(
    alloc: Global,
    session: &Session,
    pid: Pid,
) -> Result<Option<Reason>, SessionError>
    ensures told { IfOk result (IsReasonOfLast session.now pid) }
    ensures memory { IfErr result (λ e. e ≡ SessionError.Memory) }
{
    let last = session.at().saturating_sub(1);
    let Some(event) = session.event(last) else {
        return Ok(None);
    };
    let mut machine = session.machine_at(alloc, last)?;
    Ok(reason_by(&mut machine, event, pid))
}
