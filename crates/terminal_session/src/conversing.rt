//! A session from its boot to its end: attended to, or played.
ghost use Rattle.std.specs.Prelude.{◌≡◌, OnOk, IfOk, IfSome};
ghost use Rattle.xv_debug.specs.Conversations.{Converses};
ghost use Rattle.xv_live.specs.Keeps.{GoesOn, IsKept};
ghost use Rattle.xv_live.specs.Pauses.{IsPauseOf};
ghost use Rattle.xv_live.specs.Plays.{Plays, events_of_lines};
ghost use Rattle.terminal_session.specs.Statuses.{IsEndBehind, IsEndBehindPrompt, IsEndOf, asked_end, end_behind_prompt};
ghost use Rattle.terminal_session.specs.Stretches.{Lives, Stretch};
ghost use Rattle.terminal_session.specs.Tells.{Tells, outcome_status};

use crate::NAME;
use crate::ending::{End, close};
use crate::notes::Notes;
use crate::stopping::stop;
use crate::telling::record_anew;
use program_files::Failure;
use std::io::Write;
use xv_debug::{Debugger, Next, Patience};
use xv_live::{Host, Pause, Pending, Recorder, Screen, attend, play};
use xv_machine::ByteSink;
use xv_record::{Record, RecordFile};
use xv_session::Session;

// The end that was asked for: that of process 1, if it is gone.
fn asked_end(session: &Session) -> End
    ensures is { result ≡ asked_end session.now.machine.world.turns.halted }
    ensures end { IsEndOf session.now result }
{
    match session.machine().halted() {
        Some(status) => End::Halted(status),
        None => End::Asked,
    }
}

// The end after a prompt, if the machine isn't to go on.
fn end_of_prompt(session: &Session, next: Next) -> Option<End>
    ensures is { result ≡ end_behind_prompt next session.now.machine.world.turns.halted }
    ensures end { IfSome result (λ e. IsEndOf session.now e) }
{
    match next {
        Next::Ends => Some(asked_end(session)),
        Next::Continues => None,
        Next::Stays => None,
    }
}

// Stops the machine at the prompt, and tells the end that it leads to, if the machine isn't to go on.
fn prompt<F: RecordFile, H: Host + Patience, E: Write>(
    session: &mut Session,
    host: &mut H,
    debugger: &mut Debugger,
    recorder: &mut Recorder<F>,
    notes: &mut Notes<E>,
) -> Result<Option<End>, Failure<'static>>
    ensures end { IfOk result (λ e. IfSome e (λ f. IsEndOf session.new f)) }
    ensures is { IfOk result (IsEndBehindPrompt session.new.machine.world.turns.halted) }
    ensures lines { Converses H.may_end debugger.old.plan session.old session.new }
    ensures plan { debugger.new.plan ≡ debugger.old.plan }
    ensures kept { OnOk result (IsKept F.held recorder.old session.old.events → IsKept F.held recorder.new session.new.events) }
    ensures goes_on { GoesOn recorder.old recorder.new }
{
    let next = stop(session, host, debugger, recorder, notes)?;
    Ok(end_of_prompt(session, next))
}

// The end that a pause leads to. If the prompt was asked for, the machine is stopped there, and may go on.
#[tactic(auto, using(xv_debug::proofs::Conversed::no_line, xv_live::proofs::Kept::on_still))]
fn end_behind<F: RecordFile, H: Host + Patience, E: Write>(
    session: &mut Session,
    host: &mut H,
    pause: Pause,
    debugger: &mut Debugger,
    recorder: &mut Recorder<F>,
    notes: &mut Notes<E>,
) -> Result<Option<End>, Failure<'static>>
    requires { IsPauseOf session.old pause }
    ensures end { IfOk result (λ e. IfSome e (λ f. IsEndOf session.new f)) }
    ensures is { IfOk result (IsEndBehind pause session.new.machine.world.turns.halted) }
    ensures lines { Converses H.may_end debugger.old.plan session.old session.new }
    ensures plan { debugger.new.plan ≡ debugger.old.plan }
    ensures kept { OnOk result (IsKept F.held recorder.old session.old.events → IsKept F.held recorder.new session.new.events) }
    ensures goes_on { GoesOn recorder.old recorder.new }
{
    match pause {
        Pause::Halted(status) => Ok(Some(End::Halted(status))),
        Pause::End => Ok(Some(asked_end(session))),
        Pause::NoKeys => Ok(Some(End::NoKeys)),
        Pause::Debugger => prompt(session, host, debugger, recorder, notes),
    }
}

// Attends to the machine up to a pause, and then to the prompt, if that was asked for.
#[tactic(auto, using(xv_live::proofs::Kept::on_still))]
fn turn<F: RecordFile, H: Host + Patience, W: ByteSink, E: Write>(
    session: &mut Session,
    host: &mut H,
    pending: &mut Pending,
    debugger: &mut Debugger,
    recorder: &mut Recorder<F>,
    screen: &mut Screen<W, Notes<E>>,
) -> Result<Option<End>, Failure<'static>>
    ensures end { IfOk result (λ e. IfSome e (λ f. IsEndOf session.new f)) }
    ensures stretch { OnOk result (Stretch H.may_end debugger.old.plan session.old session.new (W.sink screen.old.sink).held (W.sink screen.new.sink).held) }
    ensures plan { debugger.new.plan ≡ debugger.old.plan }
    ensures kept { OnOk result (IsKept F.held recorder.old session.old.events → IsKept F.held recorder.new session.new.events) }
    ensures goes_on { GoesOn recorder.old recorder.new }
{
    host.restart()?;
    let pause = attend(session, host, pending, recorder, screen)?;
    let notes = &mut screen.teller;
    end_behind(session, host, pause, debugger, recorder, notes)
}

// Attends to the machine and to the prompt up to the end.
fn converse<F: RecordFile, H: Host + Patience, W: ByteSink, E: Write>(
    session: &mut Session,
    host: &mut H,
    debugger: &mut Debugger,
    recorder: &mut Recorder<F>,
    screen: &mut Screen<W, Notes<E>>,
) -> Result<End, Failure<'static>>
    ensures end { IfOk result (λ e. IsEndOf session.new e) }
    ensures lives { OnOk result (Lives H.may_end debugger.old.plan session.old session.new (W.sink screen.old.sink).held (W.sink screen.new.sink).held) }
    ensures kept { OnOk result (IsKept F.held recorder.old session.old.events → IsKept F.held recorder.new session.new.events) }
    ensures goes_on { GoesOn recorder.old recorder.new }
{
    let mut pending = Pending::new(screen.teller.alloc);
    'turns: for _ in 0..u64::MAX {
        if let Some(end) = turn(session, host, &mut pending, debugger, recorder, screen)? {
            return Ok(end);
        }
    }
    // (So many turns take longer than a clock counts.)
    Err(Failure::Clock)
}

// Plays a record.
fn play_to_end<W: ByteSink, E: Write>(
    session: &mut Session,
    kept: &Record,
    screen: &mut Screen<W, Notes<E>>,
) -> Result<End, Failure<'static>>
    ensures end { IfOk result (λ e. IsEndOf session.new e) }
    ensures shown { OnOk result (Plays (events_of_lines kept.now.events.items) session.old session.new (W.sink screen.old.sink).held (W.sink screen.new.sink).held) }
{
    play(session, kept.events.as_slice(), screen)?;
    match session.machine().halted() {
        Some(status) => Ok(End::Halted(status)),
        None => Ok(End::Played),
    }
}

// Tells what a session came to, and gives the exit status.
fn tell_outcome<E: Write>(
    session: &Session,
    outcome: &Result<End, Failure<'static>>,
    notes: &mut Notes<E>,
) -> u8
    ensures { result ≡ outcome_status outcome.now }
{
    match outcome {
        Ok(end) => close(session, *end, notes),
        Err(failure) => failure.close(NAME, &mut notes.errors),
    }
}

/// Attends to the machine, and to the prompt of the debugger, up to the session's end; and tells that. The recorder keeps
/// the record meanwhile, and has all of it at the end. It gives the exit status.
pub fn live<F: RecordFile, H: Host + Patience, W: ByteSink, E: Write>(
    session: &mut Session,
    host: &mut H,
    debugger: &mut Debugger,
    recorder: &mut Recorder<F>,
    screen: &mut Screen<W, Notes<E>>,
) -> u8
    ensures tells { Tells (Lives H.may_end debugger.old.plan session.old session.new (W.sink screen.old.sink).held (W.sink screen.new.sink).held) result session.new }
    // also if it failed
    ensures kept { IsKept F.held recorder.new session.new.events }
    ensures goes_on { GoesOn recorder.old recorder.new }
{
    let outcome = converse(session, host, debugger, recorder, screen);
    record_anew(session, recorder, &mut screen.teller);
    tell_outcome(session, &outcome, &mut screen.teller)
}

/// Plays a record to its end, and tells that. It gives the exit status.
pub fn replay<W: ByteSink, E: Write>(
    session: &mut Session,
    kept: &Record,
    screen: &mut Screen<W, Notes<E>>,
) -> u8
    ensures { Tells (Plays (events_of_lines kept.now.events.items) session.old session.new (W.sink screen.old.sink).held (W.sink screen.new.sink).held) result session.new }
{
    let outcome = play_to_end(session, kept, screen);
    tell_outcome(session, &outcome, &mut screen.teller)
}
