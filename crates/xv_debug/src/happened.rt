//! What came of an event, in words.
ghost use Rattle.std.specs.Prelude.{◌≡◌, Some};
ghost use Rattle.std.specs.Fmt.{WritesOnOk};
ghost use Rattle.kernel_spec.specs.runs.Run.{Step_of};
ghost use Rattle.kernel_spec.specs.steps.Own as answers;
ghost use Rattle.xv_machine.specs.Events.{outcome_of};
ghost use Rattle.xv_debug.specs.OutcomeText.{echo_text, happened_text, pid_text, sent_text};

use crate::calls::CallShown;
use debug_words::texts::Quoted;
use std::fmt;
use xk_base::{Cause, Pid};
use xv_machine::Outcome;
use xv_report::cause_text;

/// What came of an event.
#[derive(Clone, Copy)]
pub(crate) struct Happened<'a>(pub &'a Outcome);

/// That a kernel call of a process is done.
fn show_called<W: fmt::Write>(
    pid: Pid,
    number: i32,
    value: i64,
    f: &mut fmt::Formatter<W>,
) -> fmt::Result
    ensures { WritesOnOk W.write_str_gives f.old result (happened_text (Step_of pid (answers.Called number value))) f.new }
{
    let pid = pid.number();
    let call = CallShown(number);
    write!(f, "process {pid}: {call} answers {value}")
}

/// That a process sleeps in a kernel call.
fn show_blocked<W: fmt::Write>(pid: Pid, number: i32, f: &mut fmt::Formatter<W>) -> fmt::Result
    ensures { WritesOnOk W.write_str_gives f.old result (happened_text (Step_of pid (answers.Blocked number))) f.new }
{
    let pid = pid.number();
    let call = CallShown(number);
    write!(f, "process {pid} sleeps in {call}")
}

/// That a process is gone.
fn show_exited<W: fmt::Write>(pid: Pid, status: i32, f: &mut fmt::Formatter<W>) -> fmt::Result
    ensures { WritesOnOk W.write_str_gives f.old result (happened_text (Step_of pid (answers.Exited status))) f.new }
{
    let pid = pid.number();
    write!(f, "process {pid} is gone, with status {status}")
}

/// That a process is gone by a fault.
fn show_faulted<W: fmt::Write>(pid: Pid, cause: Cause, f: &mut fmt::Formatter<W>) -> fmt::Result
    ensures { WritesOnOk W.write_str_gives f.old result (happened_text (Step_of pid (answers.Faulted cause))) f.new }
{
    let pid = pid.number();
    let text = cause_text(cause);
    write!(f, "process {pid} is gone by a fault: {text}")
}

/// That a process did an instruction, or has its turn.
fn show_pid<W: fmt::Write>(pid: Pid, does: &str, f: &mut fmt::Formatter<W>) -> fmt::Result
    ensures { WritesOnOk W.write_str_gives f.old result (pid_text pid does.now) f.new }
{
    let pid = pid.number();
    write!(f, "process {pid}{does}")
}

/// The byte that left, if there was one.
fn show_sent<W: fmt::Write>(byte: Option<u8>, f: &mut fmt::Formatter<W>) -> fmt::Result
    ensures { WritesOnOk W.write_str_gives f.old result (sent_text byte) f.new }
{
    let Some(byte) = byte else {
        return f.write_str("no byte waits to be sent");
    };
    let bytes = [byte];
    let shown = Quoted(&bytes);
    write!(f, "the byte {shown} is sent")
}

/// What the console showed for a key.
fn show_echo<W: fmt::Write>(echo: &[u8], f: &mut fmt::Formatter<W>) -> fmt::Result
    ensures { WritesOnOk W.write_str_gives f.old result (echo_text echo.now) f.new }
{
    let shown = Quoted(echo);
    write!(f, "the console shows {shown}")
}

impl<'a> fmt::Display for Happened<'a> {
    ghost output = { λ h. Some (happened_text (outcome_of h.0.now)) };

    fn fmt<W: fmt::Write>(&self, f: &mut fmt::Formatter<W>) -> fmt::Result {
        match self.0 {
            Outcome::Stepped { pid } => show_pid(*pid, " did an instruction", f),
            Outcome::Called { pid, number, value } => show_called(*pid, *number, *value, f),
            Outcome::Blocked { pid, number } => show_blocked(*pid, *number, f),
            Outcome::Exited { pid, status } => show_exited(*pid, *status, f),
            Outcome::Faulted { pid, cause } => show_faulted(*pid, *cause, f),
            Outcome::Turn { pid } => show_pid(*pid, " has its turn", f),
            Outcome::Idle => f.write_str("all processes sleep"),
            Outcome::Ticked => f.write_str("the clock counts a tick"),
            Outcome::Typed(echo) => show_echo(echo.as_slice(), f),
            Outcome::Sent(byte) => show_sent(*byte, f),
            Outcome::Halted => f.write_str("the machine has halted"),
        }
    }
}
