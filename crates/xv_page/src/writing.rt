//! What the host does to a session.
ghost use Rattle.std.specs.Prelude.{◌≡◌, option_map};
ghost use Rattle.xv_machine.specs.Events.{event_of};
ghost use Rattle.xv_page.specs.Booting.{held};
ghost use Rattle.xv_page.specs.Calls.{OnSession, EventSent, RunSent, Searched, StopSought, IsBack};
ghost use Rattle.xv_page.specs.Named.{event_named, condition_named};

use crate::answers::{Answer, answer_of, lay};
use crate::named::{condition_named, event_named};
use crate::outcomes::{RunsTold, Told, runs_told, told_of};
use std::alloc::Global;
use xv_machine::Event;
use xv_session::{Condition, Session};

/// Sends an event, if the host means one.
fn send(session: &mut Session, wanted: Option<Event>, told: &mut Told, room: &mut [u8]) -> Answer
    ensures { EventSent (option_map event_of wanted) (told.old, room.old) (told.new, room.new) result
        session.old session.new }
{
    let Some(event) = wanted else {
        return Answer::Unknown;
    };
    match session.send(event) {
        Ok(outcome) => {
            *told = told_of(&outcome);
            lay(outcome.shown(), room);
            Answer::Done
        }
        Err(error) => answer_of(error),
    }
}

/// Sends an event: 0 Run, 1 Tick, 2 the key of this byte, 3 Send. It tells what came of it, and lays the bytes that it
/// shows into the room, if they fit: 384 are enough for each event. `Unknown`: no event has this number, or the byte
/// of a key is none.
#[inline(never)]
pub fn xv_page_event(
    session: &mut Option<Box<Session>>,
    kind: u32,
    byte: u32,
    told: &mut Told,
    room: &mut [u8],
) -> Answer
    // What came of it is what the machine promises; it is told, and its bytes are shown.
    ensures { OnSession ((told.new ≡ told.old) × (room.new ≡ room.old))
        (EventSent (event_named kind byte) (told.old, room.old) (told.new, room.new)) result
        (held session.old) (held session.new) }
{
    match session {
        None => Answer::NotBooted,
        Some(session) => send(session, event_named(kind, byte), told, room),
    }
}

/// Sends Run, `most` times at most.
fn run(session: &mut Session, most: u32, told: &mut RunsTold) -> Answer
    ensures { RunSent most told.old told.new result session.old session.new }
{
    match session.run(most) {
        Ok(runs) => {
            *told = runs_told(runs.sent, false, &runs.last);
            Answer::Done
        }
        Err(error) => answer_of(error),
    }
}

/// Sends Run, `most` times at most: as long as an instruction is done, and once more where something else comes of
/// it.
#[inline(never)]
pub fn xv_page_run(session: &mut Option<Box<Session>>, most: u32, told: &mut RunsTold) -> Answer
    ensures { OnSession (told.new ≡ told.old) (RunSent most told.old told.new) result (held session.old)
        (held session.new) }
{
    match session {
        None => Answer::NotBooted,
        Some(session) => run(session, most, told),
    }
}

/// Sends Run, one by one, up to the first that is what is waited for, `most` times at most.
fn search(
    session: &mut Session,
    most: u32,
    wanted: Option<Condition>,
    told: &mut RunsTold,
) -> Answer
    ensures { Searched most wanted told.old told.new result session.old session.new }
{
    let Some(condition) = wanted else {
        return Answer::Unknown;
    };
    match session.until(most, condition) {
        Ok(search) => {
            *told = runs_told(search.sent, search.met, &search.last);
            Answer::Done
        }
        Err(error) => answer_of(error),
    }
}

/// Sends Run, one by one, up to the first that is what the host waits for, `most` times at most. The kinds are 0 a
/// step of the process, 1 the call of this number, 2 the process at this address, 3 a fault, 4 a store to this
/// address, 5 an exit. `Unknown`: nothing of this kind can be waited for, or the kind needs a process or a call, and
/// the number is none.
#[inline(never)]
pub fn xv_page_until(
    session: &mut Option<Box<Session>>,
    most: u32,
    kind: u32,
    pid: u32,
    number: u64,
    told: &mut RunsTold,
) -> Answer
    ensures { OnSession (told.new ≡ told.old)
        (Searched most (condition_named kind pid number) told.old told.new) result (held session.old)
        (held session.new) }
{
    match session {
        None => Answer::NotBooted,
        Some(session) => search(session, most, condition_named(kind, pid, number), told),
    }
}

/// Sends Run up to a stop.
fn run_to_stop(
    session: &mut Session,
    most: u32,
    addresses: &[u64],
    bytes: &[u64],
    told: &mut RunsTold,
) -> Answer
    ensures { StopSought most addresses.now bytes.now told.old told.new result session.old session.new }
{
    match session.run_to_stop(most, addresses, bytes) {
        Ok(went) => {
            *told = runs_told(went.sent, went.met, &went.last);
            Answer::Done
        }
        Err(error) => answer_of(error),
    }
}

/// Sends Run as long as an instruction is done and leads to no stop, and once more, `most` times at most. The process
/// that runs stands before a stop if its next instruction stands at one of the addresses, or stores to one of the bytes.
#[inline(never)]
pub fn xv_page_run_to_stop(
    session: &mut Option<Box<Session>>,
    most: u32,
    addresses: &[u64],
    bytes: &[u64],
    told: &mut RunsTold,
) -> Answer
    ensures { OnSession (told.new ≡ told.old)
        (StopSought most addresses.now bytes.now told.old told.new) result (held session.old) (held session.new) }
{
    match session {
        None => Answer::NotBooted,
        Some(session) => run_to_stop(session, most, addresses, bytes, told),
    }
}

/// Goes back to the place after so many events.
fn back(alloc: Global, session: &mut Session, place: u64) -> Answer
    ensures { IsBack place result session.old session.new }
{
    match session.back_to(alloc, place) {
        Ok(()) => Answer::Done,
        Err(error) => answer_of(error),
    }
}

/// Goes back to the place after so many events; where there were no more, it stays.
#[inline(never)]
pub fn xv_page_back(alloc: Global, session: &mut Option<Box<Session>>, place: u64) -> Answer
    ensures { OnSession (Unit {0}) (IsBack place) result (held session.old) (held session.new) }
{
    match session {
        None => Answer::NotBooted,
        Some(session) => back(alloc, session, place),
    }
}
