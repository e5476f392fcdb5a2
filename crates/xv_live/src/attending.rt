//! A machine that is attended to: keys go in, bytes come out, and the clock ticks.
ghost use Rattle.std.specs.Prelude.{◌≡◌, [], ◌++◌, List, OnOk, IfOk, IfSome};
ghost use Rattle.kernel_spec.specs.runs.Run as runs;
ghost use Rattle.xv_live.specs.Attends.{Types, TypesFirst, Attends};
ghost use Rattle.xv_live.specs.Keeps.{GoesOn, IsKept};
ghost use Rattle.xv_live.specs.Keys.{Looks, key_of, led_to, typed_by, waiting};
ghost use Rattle.xv_live.specs.Pauses.{IsPauseOf};
ghost use Rattle.xv_live.specs.Asks.{IsAskedOf, asked_by, led_by, led_if, pause_of};

use crate::events::{drain, send, some_runs};
use crate::host::{Host, Look};
use crate::keys::Key;
use crate::pauses::Pause;
use crate::pending::{Pending, has_room};
use crate::recorder::Recorder;
use crate::resting::{goes_on_without_keys, may_run};
use crate::screen::{Screen, Teller};
use program_files::Failure;
use xv_machine::{ByteSink, Event, Machine};
use xv_record::RecordFile;
use xv_session::Session;

/// The Runs between two looks at the keyboard: far less than a hundredth of a second.
const STRETCH: u32 = 200_000;

/// The most Runs among these that do something else than an instruction: a kernel call takes some microseconds.
const CALLS_IN_STRETCH: u32 = 1_000;

/// The most keys that are typed in one turn.
const KEYS_IN_TURN: usize = 64;

/// The most keys that are looked at in one turn: so Ctrl-C is soon seen that comes after much pasted text.
const LOOKS_IN_TURN: usize = 4_096;

/// What is asked for beside the machine.
#[derive(Clone, Copy, PartialEq, Eq)]
enum Asked {
    Nothing,
    Debugger,
    End,
    NoKeys,
}

// Does what a key asks for, or lets it wait until it is typed.
fn take_key<W: ByteSink, T: Teller>(
    session: &Session,
    byte: u8,
    pending: &mut Pending,
    screen: &mut Screen<W, T>,
) -> Result<Asked, Failure<'static>>
    ensures asked { IfOk result (λ asked. asked ≡ asked_by (key_of byte)) }
    ensures sink { W.sink screen.new.sink ≡ W.sink screen.old.sink }
    ensures waits { OnOk result (waiting pending.new ≡ waiting pending.old ++ typed_by (key_of byte)) }
{
    match Key::of(byte) {
        Key::Typed(key) => {
            pending.add(key)?;
            Ok(Asked::Nothing)
        }
        Key::Processes => {
            screen.teller.tell_processes(session);
            Ok(Asked::Nothing)
        }
        Key::Debugger => Ok(Asked::Debugger),
        Key::End => Ok(Asked::End),
    }
}

// How many bytes of the keyboard may be looked at now. A keyboard that isn't a terminal is looked at where nothing may
// run and no key waits: so each of its keys is typed when it is waited for.
fn looks_now<H: Host>(session: &Session, host: &H, pending: &Pending) -> usize {
    if host.is_terminal() {
        LOOKS_IN_TURN
    } else if pending.is_empty() && !may_run(session.machine()) {
        1
    } else {
        0
    }
}

// Looks at the keyboard, `most` bytes at most, up to one that leads away from the machine.
fn look<H: Host, W: ByteSink, T: Teller>(
    session: &Session,
    host: &mut H,
    most: usize,
    pending: &mut Pending,
    screen: &mut Screen<W, T>,
) -> Result<Asked, Failure<'static>>
    ensures asked { IfOk result (IsAskedOf session.now) }
    ensures sink { W.sink screen.new.sink ≡ W.sink screen.old.sink }
    ensures looks { IfOk result
        (λ asked. Looks (led_by asked) (H.coming host.old) (H.coming host.new)
        (waiting pending.old) (waiting pending.new)) }
{
    'looks: for _ in 0..most {
        let asked = match host.look()? {
            Look::Came(byte) => take_key(session, byte, pending, screen)?,
            Look::NoneNow => return Ok(Asked::Nothing),
            Look::Ended if goes_on_without_keys(session.machine()) => return Ok(Asked::Nothing),
            Look::Ended => return Ok(Asked::NoKeys),
        };
        let Asked::Nothing = asked else {
            return Ok(asked);
        };
    }
    Ok(Asked::Nothing)
}

// Types keys that wait, as far as the console has room.
fn type_keys<W: ByteSink, T: Teller>(
    session: &mut Session,
    pending: &mut Pending,
    screen: &mut Screen<W, T>,
) -> Result<(), Failure<'static>>
    ensures { OnOk result (TypesFirst session.old session.new (W.sink screen.old.sink).held (W.sink screen.new.sink).held (waiting pending.old) (waiting pending.new)) }
{
    'keys: for _ in 0..KEYS_IN_TURN {
        if pending.is_empty() || !has_room(session.machine()) {
            return Ok(());
        }
        let Some(key) = pending.take() else {
            return Ok(());
        };
        send(session, Event::Key(key), screen)?;
    }
    Ok(())
}

// Lets processes run for a stretch, or as long as one may.
fn work<W: ByteSink, T: Teller>(
    session: &mut Session,
    screen: &mut Screen<W, T>,
) -> Result<(), Failure<'static>>
    ensures { OnOk result (Types [] session.old session.new (W.sink screen.old.sink).held (W.sink screen.new.sink).held) }
{
    let mut left = STRETCH;
    'runs: for _ in 0..CALLS_IN_STRETCH {
        if left == 0 || !may_run(session.machine()) {
            return Ok(());
        }
        let sent = some_runs(session, left, screen)?;
        left = left.saturating_sub(sent);
    }
    Ok(())
}

// The tick, if it is due.
fn tick<H: Host, W: ByteSink, T: Teller>(
    session: &mut Session,
    host: &mut H,
    screen: &mut Screen<W, T>,
) -> Result<(), Failure<'static>>
    ensures coming { H.coming host.new ≡ H.coming host.old }
    ensures types { OnOk result (Types [] session.old session.new (W.sink screen.old.sink).held (W.sink screen.new.sink).held) }
{
    if !host.tick_is_due()? {
        return Ok(());
    }
    send(session, Event::Tick, screen)
}

// What leads away from the machine.
fn pause_for(session: &Session, asked: Asked) -> Option<Pause>
    requires { IsAskedOf session.now asked }
    ensures pause { IfSome result (λ p. IsPauseOf session.now p) }
    ensures is { result ≡ pause_of asked }
{
    match asked {
        Asked::Nothing => None,
        Asked::Debugger => Some(Pause::Debugger),
        Asked::End => Some(Pause::End),
        Asked::NoKeys => Some(Pause::NoKeys),
    }
}

// Lets the machine go on: keys, the tick, a stretch, and what is to be sent.
fn go_on<H: Host, W: ByteSink, T: Teller>(
    session: &mut Session,
    host: &mut H,
    pending: &mut Pending,
    screen: &mut Screen<W, T>,
) -> Result<(), Failure<'static>>
    ensures coming { H.coming host.new ≡ H.coming host.old }
    ensures types { OnOk result (TypesFirst session.old session.new (W.sink screen.old.sink).held (W.sink screen.new.sink).held (waiting pending.old) (waiting pending.new)) }
{
    type_keys(session, pending, screen)?;
    tick(session, host, screen)?;
    work(session, screen)?;
    drain(session, screen)
}

// Lets the record have what the session got. That it can't be written any more is told.
fn keep_record<F: RecordFile, W: ByteSink, T: Teller>(
    session: &Session,
    recorder: &mut Recorder<F>,
    screen: &mut Screen<W, T>,
)
    ensures kept { (before more : List runs.Event) → session.now.events ≡ before ++ more → IsKept F.held recorder.old before → IsKept F.held recorder.new session.now.events }
    ensures goes_on { GoesOn recorder.old recorder.new }
    ensures sink { W.sink screen.new.sink ≡ W.sink screen.old.sink }
{
    if let Err(why) = recorder.keep(session) {
        screen.teller.tell_unrecorded(why);
    }
}

// Whether nothing can be done but to wait.
fn rests(machine: &Machine, pending: &Pending) -> bool {
    !may_run(machine) && (pending.is_empty() || !has_room(machine))
}

// The pause of a machine that has halted. Where nothing can be done it rests for a moment.
fn pause_behind<H: Host>(
    session: &Session,
    host: &mut H,
    pending: &Pending,
) -> Result<Option<Pause>, Failure<'static>>
    ensures coming { H.coming host.new ≡ H.coming host.old }
    ensures pause { IfOk result (λ p. IfSome p (λ q. IsPauseOf session.now q)) }
    ensures led { IfOk result (λ p. led_if p ≡ []) }
{
    if let Some(status) = session.machine().halted() {
        return Ok(Some(Pause::Halted(status)));
    }
    if rests(session.machine(), pending) {
        host.rest()?;
    }
    Ok(None)
}

// A turn: a look at the keyboard, and then the machine goes on, and the record has it before a rest. A pause ends it.
#[tactic(auto, using(crate::proofs::Kept::on_still))]
fn turn<F: RecordFile, H: Host, W: ByteSink, T: Teller>(
    session: &mut Session,
    host: &mut H,
    pending: &mut Pending,
    recorder: &mut Recorder<F>,
    screen: &mut Screen<W, T>,
) -> Result<Option<Pause>, Failure<'static>>
    ensures pause { IfOk result (λ p. IfSome p (λ q. IsPauseOf session.new q)) }
    ensures attends { IfOk result
        (λ p. Attends (led_if p) session.old session.new (W.sink screen.old.sink).held
        (W.sink screen.new.sink).held (H.coming host.old) (H.coming host.new) (waiting pending.old)
        (waiting pending.new)) }
    ensures kept { OnOk result (IsKept F.held recorder.old session.old.events → IsKept F.held recorder.new session.new.events) }
    ensures goes_on { GoesOn recorder.old recorder.new }
{
    let most = looks_now(session, host, pending);
    let asked = look(session, host, most, pending, screen)?;
    match pause_for(session, asked) {
        Some(pause) => return Ok(Some(pause)),
        None => {}
    }
    go_on(session, host, pending, screen)?;
    keep_record(session, recorder, screen);
    pause_behind(session, host, pending)
}

/// Attends to the machine, up to a pause. The recorder keeps what the session gets, before each rest.
///
/// # Errors
///
/// Those of the host, the session and the screen. The session keeps what was sent. A record that can't be written any
/// more is told, and is no error.
pub fn attend<F: RecordFile, H: Host, W: ByteSink, T: Teller>(
    session: &mut Session,
    host: &mut H,
    pending: &mut Pending,
    recorder: &mut Recorder<F>,
    screen: &mut Screen<W, T>,
) -> Result<Pause, Failure<'static>>
    ensures pause { IfOk result (λ p. IsPauseOf session.new p) }
    // a key asked for the pause, if it is one that a key asks for, and no other key asked for any
    ensures attends { IfOk result
        (λ p. Attends (led_to p) session.old session.new (W.sink screen.old.sink).held
        (W.sink screen.new.sink).held (H.coming host.old) (H.coming host.new) (waiting pending.old)
        (waiting pending.new)) }
    // a record that was up to date is so again
    ensures kept { OnOk result (IsKept F.held recorder.old session.old.events → IsKept F.held recorder.new session.new.events) }
    ensures goes_on { GoesOn recorder.old recorder.new }
{
    'turns: for _ in 0..u64::MAX {
        match turn(session, host, pending, recorder, screen)? {
            Some(pause) => return Ok(pause),
            None => {}
        }
    }
    // (So many turns take longer than a clock counts.)
    Err(Failure::Clock)
}
