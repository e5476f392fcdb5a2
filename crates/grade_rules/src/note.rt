//! What happened in a run.
ghost use Rattle.std.specs.Prelude.{Some};
ghost use Rattle.grade_rules.specs.Notes.{note_text};

use crate::given::Given;
use std::fmt;

/// An event of a run, as far as rules speak of it. A process is named by its pid.
#[derive(Clone, Copy)]
pub enum Note {
    /// The process has its turn from now on.
    Turn {
        pid: u32,
    },
    /// The process's kernel call of this number, which was given this, is done, with this answer.
    Called {
        pid: u32,
        number: i32,
        value: i64,
        given: Given,
    },
    /// The process sleeps in the call of this number, which was given this.
    Blocked {
        pid: u32,
        number: i32,
        given: Given,
    },
    /// The process is gone, with this status.
    Exited {
        pid: u32,
        status: i32,
    },
    /// The process is gone by a fault, whose cause has this number in `scause`.
    Faulted {
        pid: u32,
        cause: u8,
    },
}

/// The note as a line of a trace, without its end: it doesn't tell what a call was given.
impl fmt::Display for Note {
    ghost output = { λ n. Some (note_text n) };

    fn fmt<W: fmt::Write>(&self, f: &mut fmt::Formatter<W>) -> fmt::Result {
        match *self {
            Note::Turn { pid } => write!(f, "turn {pid}"),
            Note::Called {
                pid,
                number,
                value,
                ..
            } => write!(f, "call {pid} {number} {value}"),
            Note::Blocked { pid, number, .. } => write!(f, "block {pid} {number}"),
            Note::Exited { pid, status } => write!(f, "exit {pid} {status}"),
            Note::Faulted { pid, cause } => write!(f, "fault {pid} {cause}"),
        }
    }
}
