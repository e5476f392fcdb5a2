//! The marks at which a word stops that goes on.
ghost use Rattle.std.specs.Prelude.{◌≡◌};
ghost use Rattle.std.specs.List.{list_any};
ghost use Rattle.xv_machine.specs.Events.{outcome_of};
ghost use Rattle.xv_session.specs.Recorded.{running_of};
ghost use Rattle.xv_session.specs.Until.{is_done};
ghost use Rattle.xv_debug.specs.motion.Marks as meant;
ghost use Rattle.xv_debug.specs.motion.Marks.{is_any_due, is_at_mark, is_store_due};

use debug_words::Mark;
use xv_machine::{Machine, Outcome};
use xv_session::{Condition, Session, is_before};

/// Whether a mark waits for the store that the process which runs is about to make.
pub(crate) fn is_store_due(machine: &Machine, mark: &Mark) -> bool
    ensures { result ≡ is_store_due machine.now.world mark.now }
{
    match *mark {
        Mark::Store(address) => Condition::StoreTo(address).is_at_store(machine),
        Mark::At { .. } => false,
    }
}

/// Whether one of the marks waits for that store.
pub(crate) fn is_any_due(session: &Session, marks: &[Mark]) -> bool
    ensures { result ≡ is_any_due marks.now session.now.machine.world }
{
    let machine = session.machine();
    marks.iter().any(|mark| is_store_due(machine, mark))
}

/// Whether the process that runs runs the program at a place, and stands before the instruction at this address.
fn is_at(session: &Session, program: usize, address: u64) -> bool
    ensures { result ≡ meant.is_at program address (running_of session.now) }
{
    let Some(pid) = session.machine().current() else {
        return false;
    };
    let Some(place) = session.program_of(pid) else {
        return false;
    };
    if place != program {
        return false;
    }
    is_before(session.machine(), pid, address)
}

/// Whether the process that runs stands at a mark.
pub(crate) fn is_at_mark(session: &Session, mark: &Mark) -> bool
    ensures { result ≡ is_at_mark (running_of session.now) mark.now }
{
    match *mark {
        Mark::At { program, address } => is_at(session, program, address),
        Mark::Store(_) => false,
    }
}

/// Whether the process that runs stands at one of the marks.
fn is_at_any(session: &Session, marks: &[Mark]) -> bool
    ensures { result ≡ list_any (is_at_mark (running_of session.now)) marks.now }
{
    marks.iter().any(|mark| is_at_mark(session, mark))
}

/// Whether an instruction was done.
fn is_done(outcome: &Outcome) -> bool
    ensures { result ≡ is_done (outcome_of outcome.now) }
{
    match outcome {
        Outcome::Stepped { .. } => true,
        _ => false,
    }
}

/// Whether an event of which this came is what one of the marks waits for; before it such a store was due, or not.
pub(crate) fn meets_marks(session: &Session, marks: &[Mark], due: bool, outcome: &Outcome) -> bool
    ensures { result ≡ meant.meets_with marks.now due (outcome_of outcome.now) (running_of session.now) }
{
    (due & is_done(outcome)) | is_at_any(session, marks)
}
