//! What a machine is told, and what it tells.
ghost use Rattle.std.specs.Prelude.{◌≡◌};
ghost use Rattle.kernel_spec.specs.runs.Run.{Run, bytes_out};
ghost use Rattle.xv_machine.specs.Events.{outcome_of, run_outcome_of};
ghost use Rattle.xv_machine.specs.Notes.{note};

use crate::trace::Note;
use kcall_core::Echo;
use std::{fmt, slice};
use xk_base::{Cause, Pid};

/// Something that happens to a machine.
#[derive(Clone, Copy, PartialEq, Eq)]
pub enum Event {
    /// The current process makes one step; where there is none, the next process has its turn.
    Run,
    /// The timer interrupts: the clock counts one tick, sleepers on the clock wake, and nobody runs.
    Tick,
    /// The key of this byte is typed: the console takes it, and where a line is committed, those wake who
    /// wait to read one.
    Key(u8),
    /// The terminal can take a byte: the first that waits to be sent leaves, and those wake who wait for
    /// room. It is so on a halted machine too.
    Send,
}

/// What came of an event.
#[derive(PartialEq, Eq, Drop)]
pub enum Outcome {
    /// The process did one instruction.
    Stepped { pid: Pid },
    /// The process made a kernel call, which is done and answered `value`.
    Called { pid: Pid, number: i32, value: i64 },
    /// The process waits in the call of this number: it sleeps until what it waits for may have come.
    Blocked { pid: Pid, number: i32 },
    /// The process is gone, by a call of its own or a kill.
    Exited { pid: Pid, status: i32 },
    /// The process is gone: its instruction can't be done.
    Faulted { pid: Pid, cause: Cause },
    /// The process became the current one.
    Turn { pid: Pid },
    /// No process may run: all that live are asleep.
    Idle,
    /// The clock has counted a tick.
    Ticked,
    /// The console has taken a key, and shows these bytes for it, at most 384: the key's own, a backspace, a
    /// blank and a backspace for each byte that it took back, or none.
    Typed(Echo),
    /// This byte was sent, or none waited.
    Sent(Option<u8>),
    /// Process 1 is gone: nothing happened, and no process runs again.
    Halted,
}

impl Outcome {
    /// The bytes that it shows: what the console shows for a key, or the byte that was sent.
    pub fn shown(&self) -> &[u8]
        ensures { result.now ≡ bytes_out (outcome_of self.now) }
    {
        match self {
            Outcome::Typed(echo) => echo.as_slice(),
            Outcome::Sent(Some(byte)) => slice::from_ref(byte),
            _ => &[],
        }
    }
}

// What came of a Run: an outcome that no key, tick or Send has. It has no room for an echo, so it is small enough to be handed
// on by value.
#[derive(Drop)]
pub(crate) enum RunOutcome {
    Stepped { pid: Pid },
    Called { pid: Pid, number: i32, value: i64 },
    Blocked { pid: Pid, number: i32 },
    Exited { pid: Pid, status: i32 },
    Faulted { pid: Pid, cause: Cause },
    Turn { pid: Pid },
    Idle,
    Halted,
}

impl RunOutcome {
    // The same, as an event answers it.
    #[inline(always)]
    pub(crate) fn as_outcome(self) -> Outcome
        ensures { outcome_of result ≡ run_outcome_of self }
    {
        match self {
            RunOutcome::Stepped { pid } => Outcome::Stepped { pid },
            RunOutcome::Called { pid, number, value } => Outcome::Called { pid, number, value },
            RunOutcome::Blocked { pid, number } => Outcome::Blocked { pid, number },
            RunOutcome::Exited { pid, status } => Outcome::Exited { pid, status },
            RunOutcome::Faulted { pid, cause } => Outcome::Faulted { pid, cause },
            RunOutcome::Turn { pid } => Outcome::Turn { pid },
            RunOutcome::Idle => Outcome::Idle,
            RunOutcome::Halted => Outcome::Halted,
        }
    }

    // Its note.
    #[inline(always)]
    pub(crate) fn note(&self) -> Note
        ensures { result ≡ note Run (run_outcome_of self.now) }
    {
        match *self {
            RunOutcome::Stepped { pid } => Note::Stepped { pid },
            RunOutcome::Called { pid, number, value } => Note::Called { pid, number, value },
            RunOutcome::Blocked { pid, number } => Note::Blocked { pid, number },
            RunOutcome::Exited { pid, status } => Note::Exited { pid, status },
            RunOutcome::Faulted { pid, cause } => Note::Faulted { pid, cause },
            RunOutcome::Turn { pid } => Note::Turn { pid },
            RunOutcome::Idle => Note::Idle,
            RunOutcome::Halted => Note::Halted,
        }
    }
}

/// The outcome as a line, without its end: a word, then plain decimal numbers. It is that of the trace's note, but
/// for a key: an outcome doesn't know the key, and tells as `typed` how many bytes the console shows for it.
impl fmt::Display for Outcome {
    fn fmt<W: fmt::Write>(&self, f: &mut fmt::Formatter<W>) -> fmt::Result {
        if let Outcome::Typed(echo) = self {
            let count = echo.len();
            return write!(f, "typed {count}");
        }
        // The note of any other outcome is the same for each event.
        let note = Note::of(Event::Run, self);
        write!(f, "{note}")
    }
}
