//! The line of a step.
ghost use Rattle.std.specs.Prelude.{◌≡◌, OnOk};
ghost use Rattle.xk_base.specs.Access.{code_of};
ghost use Rattle.debug_views.specs.Written.{Appends};
ghost use Rattle.xv_machine.specs.Events.{outcome_of};
ghost use Rattle.explained_run.specs.Lines as meant;
ghost use Rattle.explained_run.specs.Seen.{seen_of};

use crate::choice::Choice;
use crate::seen::{Seen, show_asked};
use call_lines::{Asked, show_answer};
use kernel_calls::numbers::EXEC;
use std::alloc::{AllocError, Global};
use xk_base::{Cause, Pid};
use xv_machine::{Machine, Outcome};

// What stands before a call that has waited.
fn mark(resumed: bool) -> &'static str
    ensures { result.now ≡ meant.mark resumed }
{
    if resumed { "<.. resumed> " } else { "" }
}

// How a process has ended.
fn end_text(seen: &Seen) -> &str
    ensures { result.now ≡ meant.end_text (seen_of seen.now) }
{
    if seen.marked {
        "killed"
    } else {
        seen.call.as_str()
    }
}

// Writes what a call has answered, if there is one.
fn show_answered(
    alloc: Global,
    machine: &Machine,
    pid: Pid,
    asked: &Option<Asked>,
    value: i64,
    text: &mut String,
) -> Result<(), AllocError>
    ensures { OnOk result (Appends text.old text.new (meant.answered_text machine.now.world.state pid asked.now value)) }
{
    match asked {
        Some(asked) => show_answer(alloc, machine, pid, asked, value, text),
        None => Ok(()),
    }
}

// Writes a call that is done.
fn show_done(
    alloc: Global,
    machine: &Machine,
    pid: Pid,
    seen: &Seen,
    number: i32,
    value: i64,
    text: &mut String,
) -> Result<(), AllocError>
    ensures { OnOk result (Appends text.old text.new (meant.done_text (seen_of seen.now) machine.now.world.state pid number value)) }
{
    if number == EXEC {
        text.push_str(seen.call.as_str())
    } else {
        show_asked(
            alloc,
            machine,
            pid,
            &seen.asked,
            Some(value),
            seen.shown,
            text,
        )
    }
}

// Writes the line of a call that is done.
fn show_called(
    alloc: Global,
    machine: &Machine,
    pid: Pid,
    seen: &Seen,
    number: i32,
    value: i64,
    text: &mut String,
) -> Result<(), AllocError>
    ensures { OnOk result (Appends text.old text.new (meant.called_line (seen_of seen.now) machine.now.world.state pid number value)) }
{
    text.push_str(seen.who.as_str())?;
    text.push_str(mark(seen.resumed))?;
    show_done(alloc, machine, pid, seen, number, value, text)?;
    show_answered(alloc, machine, pid, &seen.asked, value, text)?;
    text.push_str("\n")
}

// Writes that a process waits in a call.
fn show_waiting(seen: &Seen, text: &mut String) -> Result<(), AllocError>
    ensures { OnOk result (Appends text.old text.new (meant.waiting_line (seen_of seen.now))) }
{
    text.push_str(seen.who.as_str())?;
    text.push_str(seen.call.as_str())?;
    text.push_str(" <unfinished ..>\n")
}

// Writes that a process is gone.
fn show_ended(seen: &Seen, text: &mut String) -> Result<(), AllocError>
    ensures { OnOk result (Appends text.old text.new (meant.ended_line (seen_of seen.now))) }
{
    text.push_str(seen.who.as_str())?;
    text.push_str(end_text(seen))?;
    text.push_str("\n")
}

// Writes that a process is gone by a fault.
fn show_fault(seen: &Seen, cause: Cause, text: &mut String) -> Result<(), AllocError>
    ensures { OnOk result (Appends text.old text.new (meant.fault_line (seen_of seen.now) (code_of cause))) }
{
    let code = cause.code();
    text.push_str(seen.who.as_str())?;
    write!(text, "fault {code}\n")
}

/// Writes the line of a step of a process, before which this was seen, with the memory that the machine has after it.
pub(crate) fn show_line(
    alloc: Global,
    machine: &Machine,
    pid: Pid,
    seen: &Seen,
    outcome: &Outcome,
    text: &mut String,
) -> Result<(), AllocError>
    ensures { OnOk result (Appends text.old text.new (meant.line (seen_of seen.now) machine.now.world.state pid (outcome_of outcome.now))) }
{
    match outcome {
        Outcome::Called { number, value, .. } => {
            show_called(alloc, machine, pid, seen, *number, *value, text)
        }
        Outcome::Blocked { .. } => show_waiting(seen, text),
        Outcome::Exited { .. } => show_ended(seen, text),
        Outcome::Faulted { cause, .. } => show_fault(seen, *cause, text),
        _ => Ok(()),
    }
}

/// Writes the line of a step, if it is asked for.
pub(crate) fn tell(
    alloc: Global,
    choice: &Choice,
    machine: &Machine,
    pid: Pid,
    seen: &Seen,
    outcome: &Outcome,
    text: &mut String,
) -> Result<(), AllocError>
    ensures { OnOk result (Appends text.old text.new (meant.told_of choice.now (seen_of seen.now) machine.now.world.state pid (outcome_of outcome.now))) }
{
    if choice.shows(seen, outcome) {
        show_line(alloc, machine, pid, seen, outcome, text)
    } else {
        Ok(())
    }
}
