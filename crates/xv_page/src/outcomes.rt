//! What came of events, as numbers.
ghost use Rattle.std.specs.Prelude.{◌≡◌, pos, option_map};
ghost use Rattle.xv_machine.specs.Events.{outcome_of};
ghost use Rattle.xv_page.specs.Told.{told_of, told_of_note, plain, runs_told};

use xk_base::Pid;
use xv_machine::{Note, Outcome};

/// What came of an event.
#[repr(C)]
#[derive(Clone, Copy)]
pub struct Told {
    /// 0 an instruction, 1 a call that is done, 2 a call that waits, 3 an exit, 4 a fault, 5 a turn, 6 nobody may
    /// run, 7 a tick, 8 a key, 9 a byte was sent, 10 none waited, 11 process 1 is gone.
    pub kind: u32,
    /// The process, or 0.
    pub pid: u32,
    /// The call's number, the status, the fault's code (RISC-V Privileged ISA, "scause") or the byte that was sent.
    /// In a note of the trace the byte of a key too.
    pub number: i32,
    /// How many bytes the console shows for it.
    pub shown: u64,
    /// What the call answers.
    pub value: i64,
}

impl Told {
    /// Nothing yet.
    pub(crate) fn new() -> Told
        ensures { result ≡ plain 6 0 (pos 0) }
    {
        plain(6, 0, 0)
    }
}

fn plain(kind: u32, pid: u32, number: i32) -> Told
    ensures { result ≡ plain kind pid number }
{
    Told {
        kind,
        pid,
        number,
        shown: 0,
        value: 0,
    }
}

fn of_process(kind: u32, pid: Pid, number: i32) -> Told
    ensures { result ≡ plain kind pid number }
{
    plain(kind, pid.number(), number)
}

/// An outcome as numbers.
pub(crate) fn told_of(outcome: &Outcome) -> Told
    ensures { result ≡ told_of (outcome_of outcome.now) }
{
    match outcome {
        Outcome::Stepped { pid } => of_process(0, *pid, 0),
        Outcome::Called { pid, number, value } => Told {
            kind: 1,
            pid: pid.number(),
            number: *number,
            shown: 0,
            value: *value,
        },
        Outcome::Blocked { pid, number } => of_process(2, *pid, *number),
        Outcome::Exited { pid, status } => of_process(3, *pid, *status),
        Outcome::Faulted { pid, cause } => of_process(4, *pid, i32::from(cause.code())),
        Outcome::Turn { pid } => of_process(5, *pid, 0),
        Outcome::Idle => plain(6, 0, 0),
        Outcome::Ticked => plain(7, 0, 0),
        Outcome::Typed(echo) => Told {
            kind: 8,
            pid: 0,
            number: 0,
            shown: echo.len() as u64,
            value: 0,
        },
        Outcome::Sent(Some(byte)) => Told {
            kind: 9,
            pid: 0,
            number: i32::from(*byte),
            shown: 1,
            value: 0,
        },
        Outcome::Sent(None) => plain(10, 0, 0),
        Outcome::Halted => plain(11, 0, 0),
    }
}

/// A note of the trace as numbers.
pub(crate) fn told_of_note(note: &Note) -> Told
    ensures { result ≡ told_of_note note.now }
{
    match *note {
        Note::Stepped { pid } => of_process(0, pid, 0),
        Note::Called { pid, number, value } => Told {
            kind: 1,
            pid: pid.number(),
            number,
            shown: 0,
            value,
        },
        Note::Blocked { pid, number } => of_process(2, pid, number),
        Note::Exited { pid, status } => of_process(3, pid, status),
        Note::Faulted { pid, cause } => of_process(4, pid, i32::from(cause.code())),
        Note::Turn { pid } => of_process(5, pid, 0),
        Note::Idle => plain(6, 0, 0),
        Note::Ticked => plain(7, 0, 0),
        Note::Typed { key, echo } => Told {
            kind: 8,
            pid: 0,
            number: i32::from(key),
            shown: echo as u64,
            value: 0,
        },
        Note::Sent(Some(byte)) => Told {
            kind: 9,
            pid: 0,
            number: i32::from(byte),
            shown: 1,
            value: 0,
        },
        Note::Sent(None) => plain(10, 0, 0),
        Note::Halted => plain(11, 0, 0),
    }
}

/// What a row of Runs came to.
#[repr(C)]
#[derive(Clone, Copy)]
pub struct RunsTold {
    /// How many were sent.
    pub sent: u32,
    /// 1 where a search found what it waits for.
    pub met: u32,
    /// 1 where it is told what came of the last of them; 0: none was sent, or each is a done instruction.
    pub has_last: u32,
    /// What came of the last of them.
    pub last: Told,
}

/// What so many Runs came to.
pub(crate) fn runs_told(sent: u32, met: bool, last: &Option<Outcome>) -> RunsTold
    ensures { result ≡ runs_told sent met (option_map outcome_of last.now) }
{
    match last {
        None => RunsTold {
            sent,
            met: u32::from(met),
            has_last: 0,
            last: Told::new(),
        },
        Some(outcome) => RunsTold {
            sent,
            met: u32::from(met),
            has_last: 1,
            last: told_of(outcome),
        },
    }
}
