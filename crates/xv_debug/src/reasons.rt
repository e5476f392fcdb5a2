//! Why the call was refused that was made last.
ghost use Rattle.std.specs.Prelude.{◌≡◌, ◌++◌, OnOk, option_map, string_bytes};
ghost use Rattle.debug_views.specs.Written.{Writes};
ghost use Rattle.xv_machine.specs.Events.{outcome_of};
ghost use Rattle.xv_debug.specs.ReasonText.{IsAnswerReason, IsReasonText, IsRefusalText, no_memory, reason_line};

use call_reasons::{REFUSED, Reason, reason_of_last};
use debug_words::EVENTS_MOST;
use std::alloc::{AllocError, Global};
use xk_base::Pid;
use xv_machine::Outcome;
use xv_session::Session;

/// Writes a reason, if there is one.
fn show_line(reason: Option<Reason>, answer: &mut String) -> Result<(), AllocError>
    ensures { OnOk result (string_bytes answer.new ≡ string_bytes answer.old ++ reason_line reason) }
{
    match reason {
        Some(reason) => writeln!(answer, "refused: {reason}"),
        None => writeln!(answer, "refused"),
    }
}

/// Writes that there is too little memory to tell the reason.
fn show_no_memory(answer: &mut String) -> Result<(), AllocError>
    ensures { OnOk result (string_bytes answer.new ≡ string_bytes answer.old ++ no_memory) }
{
    answer.push_str("refused; the host has too little memory to tell why\n")
}

/// Writes why the call of a process was refused by the last event. The run is played again for it, unless it has more events
/// than a word sends.
fn show_refusal(
    alloc: Global,
    session: &Session,
    pid: Pid,
    answer: &mut String,
) -> Result<(), AllocError>
    ensures { OnOk result
        (Writes (string_bytes answer.old) (string_bytes answer.new) (IsRefusalText session.now pid)) }
{
    if session.at() > u64::from(EVENTS_MOST) {
        return answer.push_str(
            "refused; the run is too long to be played again, which tells why\n",
        );
    }
    match reason_of_last(alloc, session, pid) {
        Ok(reason) => show_line(reason, answer),
        Err(_) => show_no_memory(answer),
    }
}

/// Writes why a process got this answer by the last event, if it is a refusal.
fn show_answer(
    alloc: Global,
    session: &Session,
    pid: Pid,
    value: i64,
    answer: &mut String,
) -> Result<(), AllocError>
    ensures { OnOk result
        (Writes (string_bytes answer.old) (string_bytes answer.new) (IsAnswerReason session.now pid value)) }
{
    if value == REFUSED {
        show_refusal(alloc, session, pid, answer)
    } else {
        Ok(())
    }
}

/// Writes why the call was refused that was made last, if one was.
pub(crate) fn show_reason(
    alloc: Global,
    session: &Session,
    last: &Option<Outcome>,
    answer: &mut String,
) -> Result<(), AllocError>
    ensures { OnOk result
        (Writes (string_bytes answer.old) (string_bytes answer.new)
        (IsReasonText session.now (option_map outcome_of last.now))) }
{
    match last {
        Some(Outcome::Called { pid, value, .. }) => show_answer(
            alloc, session, *pid, *value, answer,
        ),
        _ => Ok(()),
    }
}
