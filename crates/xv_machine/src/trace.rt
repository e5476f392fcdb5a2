//! The notes that a trace keeps.
ghost use Rattle.std.specs.Prelude.{◌≡◌};
ghost use Rattle.xv_machine.specs.Events.{event_of, outcome_of};
ghost use Rattle.xv_machine.specs.Notes.{key_of, note};

use crate::event::{Event, Outcome};
use std::fmt;
use xk_base::{Cause, Pid};

/// What a trace keeps of an event.
#[derive(Clone, Copy, PartialEq, Eq)]
pub enum Note {
    /// The process did one instruction.
    Stepped { pid: Pid },
    /// The process made a kernel call, which is done and answered `value`.
    Called { pid: Pid, number: i32, value: i64 },
    /// The process waits in the call of this number.
    Blocked { pid: Pid, number: i32 },
    /// The process is gone, by a call of its own or a kill.
    Exited { pid: Pid, status: i32 },
    /// The process is gone: its instruction can't be done.
    Faulted { pid: Pid, cause: Cause },
    /// The process became the current one.
    Turn { pid: Pid },
    /// No process may run.
    Idle,
    /// The clock has counted a tick.
    Ticked,
    /// The key was typed, and the console showed so many bytes for it.
    Typed { key: u8, echo: usize },
    /// The byte left, if there was one.
    Sent(Option<u8>),
    /// Nothing happened, since process 1 is gone.
    Halted,
}

// The byte of a key; 0 of any other event.
fn key_of(event: Event) -> u8
    ensures { result ≡ key_of (event_of event) }
{
    match event {
        Event::Key(byte) => byte,
        _ => 0,
    }
}

impl Note {
    // The note of an event and what came of it.
    pub(crate) fn of(event: Event, outcome: &Outcome) -> Note
        ensures { result ≡ note (event_of event) (outcome_of outcome.now) }
    {
        match outcome {
            Outcome::Stepped { pid } => Note::Stepped { pid: *pid },
            Outcome::Called { pid, number, value } => Note::Called {
                pid: *pid,
                number: *number,
                value: *value,
            },
            Outcome::Blocked { pid, number } => Note::Blocked {
                pid: *pid,
                number: *number,
            },
            Outcome::Exited { pid, status } => Note::Exited {
                pid: *pid,
                status: *status,
            },
            Outcome::Faulted { pid, cause } => Note::Faulted {
                pid: *pid,
                cause: *cause,
            },
            Outcome::Turn { pid } => Note::Turn { pid: *pid },
            Outcome::Idle => Note::Idle,
            Outcome::Ticked => Note::Ticked,
            Outcome::Typed(echo) => Note::Typed {
                key: key_of(event),
                echo: echo.len(),
            },
            Outcome::Sent(byte) => Note::Sent(*byte),
            Outcome::Halted => Note::Halted,
        }
    }
}

/// What happened to a process.
fn write_process<W: fmt::Write>(f: &mut fmt::Formatter<W>, word: &str, pid: Pid) -> fmt::Result {
    let pid = pid.number();
    write!(f, "{word} {pid}")
}

/// What happened to a process, and the number of a call, a status or a cause.
fn write_process_number<W: fmt::Write>(
    f: &mut fmt::Formatter<W>,
    word: &str,
    pid: Pid,
    number: i32,
) -> fmt::Result {
    let pid = pid.number();
    write!(f, "{word} {pid} {number}")
}

/// The note as a line of a trace, without its end: a word, then plain decimal numbers.
impl fmt::Display for Note {
    fn fmt<W: fmt::Write>(&self, f: &mut fmt::Formatter<W>) -> fmt::Result {
        match *self {
            Note::Stepped { pid } => write_process(f, "step", pid),
            Note::Called { pid, number, value } => {
                let pid = pid.number();
                write!(f, "call {pid} {number} {value}")
            }
            Note::Blocked { pid, number } => write_process_number(f, "block", pid, number),
            Note::Exited { pid, status } => write_process_number(f, "exit", pid, status),
            Note::Faulted { pid, cause } => write_process_number(
                f,
                "fault",
                pid,
                i32::from(cause.code()),
            ),
            Note::Turn { pid } => write_process(f, "turn", pid),
            Note::Idle => f.write_str("idle"),
            Note::Ticked => f.write_str("tick"),
            Note::Typed { key, echo } => write!(f, "key {key} {echo}"),
            Note::Sent(Some(byte)) => write!(f, "sent {byte}"),
            Note::Sent(None) => f.write_str("sent none"),
            Note::Halted => f.write_str("halted"),
        }
    }
}
