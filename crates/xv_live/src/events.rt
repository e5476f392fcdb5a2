//! Events that a session is sent, and what they show on the screen.
ghost use Rattle.std.specs.Prelude.{◌≡◌, ◌<◌, ◌≤◌, [], ◌∷◌, replicate, IfErr, IfOk, OnErr, OnOk};
ghost use Rattle.kernel_spec.specs.runs.Run as runs;
ghost use Rattle.xv_machine.specs.Events.{event_of};
ghost use Rattle.xv_live.specs.Attends.{Types};
ghost use Rattle.xv_live.specs.Breaks.{Begins, BeginsWithoutKeys, IsBreak};
ghost use Rattle.xv_live.specs.Plays.{Plays};

use crate::screen::{FaultNote, Screen, Teller};
use program_files::Failure;
use xk_base::limits::SEND_BYTES;
use xv_machine::{ByteSink, ConsoleList, Event, Outcome};
use xv_session::Session;

/// Sends an event, and shows what the machine shows for it.
///
/// # Errors
///
/// [`Failure::OutOfMemory`] and [`Failure::TooManyEvents`] if the session can't keep it: then it isn't sent.
/// [`Failure::Write`] if its bytes can't be written: the session has it then.
#[tactic(auto, using(crate::proofs::Broke::session_breaks))]
pub fn send<W: ByteSink, T: Teller>(
    session: &mut Session,
    event: Event,
    screen: &mut Screen<W, T>,
) -> Result<(), Failure<'static>>
    ensures plays { OnOk result (Plays (event_of event ∷ []) session.old session.new (W.sink screen.old.sink).held (W.sink screen.new.sink).held) }
    ensures begins { OnErr result (Begins (event_of event ∷ []) session.old session.new) }
    ensures why { IfErr result IsBreak }
{
    let outcome = session.send(event)?;
    screen.show(outcome.shown())
}

/// Lets the machine send what waits to be sent, and shows it.
///
/// # Errors
///
/// As [`send`].
pub fn drain<W: ByteSink, T: Teller>(
    session: &mut Session,
    screen: &mut Screen<W, T>,
) -> Result<(), Failure<'static>>
    ensures types { OnOk result (Types [] session.old session.new (W.sink screen.old.sink).held (W.sink screen.new.sink).held) }
    ensures begins { OnErr result (BeginsWithoutKeys session.old session.new) }
    ensures why { IfErr result IsBreak }
{
    'sends: for _ in 0..SEND_BYTES {
        if session
            .machine()
            .console_byte(ConsoleList::ToSend, 0)
            .is_none()
        {
            return Ok(());
        }
        send(session, Event::Send, screen)?;
    }
    Ok(())
}

// The place of the program that the process runs whose step is next.
fn program_now(session: &Session) -> Option<usize> {
    session.program_of(session.machine().current()?)
}

// Tells what came of the last Run, if it is a fault.
fn tell_last<T: Teller>(
    session: &Session,
    program: Option<usize>,
    last: &Option<Outcome>,
    teller: &mut T,
) {
    if let Some(Outcome::Faulted { pid, cause }) = last {
        let fault = FaultNote {
            pid: *pid,
            cause: *cause,
            program,
        };
        teller.tell_fault(session, fault);
    }
}

/// Sends Runs, `most` at most, up to the first that does something else than an instruction, and tells a fault. It
/// gives how many were sent: one at least, unless `most` is 0.
///
/// # Errors
///
/// [`Failure::OutOfMemory`] and [`Failure::TooManyEvents`] if the session can't keep them: then none is sent.
#[tactic(auto, using(crate::proofs::Broke::session_breaks))]
pub fn some_runs<W: ByteSink, T: Teller>(
    session: &mut Session,
    most: u32,
    screen: &mut Screen<W, T>,
) -> Result<u32, Failure<'static>>
    ensures plays { IfOk result (λ sent. Plays (replicate sent runs.Run) session.old session.new (W.sink screen.old.sink).held (W.sink screen.new.sink).held) }
    ensures within { IfOk result (λ sent. sent ≤ most) }
    ensures some { IfOk result (λ sent. 0 < most → 0 < sent) }
    ensures still { OnErr result (session.new ≡ session.old) }
    ensures why { IfErr result IsBreak }
{
    let program = program_now(session);
    let runs = session.run(most)?;
    tell_last(session, program, &runs.last, &mut screen.teller);
    Ok(runs.sent)
}
