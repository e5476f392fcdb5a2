//! Going back to the last Run that was what is waited for.
ghost use Rattle.std.proofs.Common.{◌∙◌, subst};
ghost use Rattle.std.specs.Prelude.{◌≡◌, ◌+◌, ◌-◌, ◌^◌, ◌≤◌, ◌<◌, IfOk, IfErr, drop, length, refl, replicate, take};
ghost use Rattle.xv_machine.specs.Events.{event_of};
ghost use Rattle.xv_session.specs.Answers.{IsUnplayedBy};
ghost use Rattle.xv_debug.specs.motion.Backwards.{GoesBackUntil, IsLast, Looked, LookedAt, LooksFrom, is_run, later};

use crate::motion::aiming::{Aim, is_due, is_met};
use crate::motion::pace::{Pace, STRETCH};
use std::alloc::Global;
use xv_machine::{Event, Machine};
use xv_session::{LooksBack, Patience, PlayError, Session, last_before_here};

/// Whether an event is a Run.
pub(crate) fn is_run(event: Event) -> bool
    ensures { result ≡ is_run (event_of event) }
{
    match event {
        Event::Run => true,
        _ => false,
    }
}

/// The place, if a Run that is what is waited for led there, and else what was found before.
fn later(hit: bool, place: u64, found: Option<u64>) -> Option<u64>
    ensures { result ≡ later hit place found }
{
    if hit { Some(place) } else { found }
}

/// Sends the machine an event, by which the run comes to a place, and tells whether it is a Run that is the aim.
fn look(machine: &mut Machine, event: Event, aim: &Aim) -> bool
    ensures { LookedAt aim.now (event_of event) machine.old machine.new result }
{
    let due = is_due(aim, machine);
    let outcome = machine.event(event);
    is_run(event) & is_met(aim, due, &outcome, machine)
}

/// Sends the machine an event so often, from a place of the run on.
fn look_often(
    machine: &mut Machine,
    event: Event,
    count: u64,
    place: u64,
    aim: &Aim,
    found: Option<u64>,
) -> Option<u64>
    requires { place + count < 2 ^ 64 }
    ensures { Looked aim.now (replicate count (event_of event)) place found machine.old machine.new result }
{
    let mut last = found;
    for done in 0..count {
        let hit = look(machine, event, aim);
        last = later(hit, place + done + 1, last);
    }
    last
}

/// So many equal events.
#[derive(Clone, Copy)]
pub(crate) struct Equal {
    pub event: Event,
    pub count: u64,
}

/// Equal events from a place on, before another one, and not more than in a stretch.
pub(crate) fn equal_from(session: &Session, place: u64, end: u64) -> Equal
    requires before { place < end }
    requires there { end ≤ length session.now.events }
    ensures some { 0 < result.count }
    ensures within { place + result.count ≤ end }
    ensures those { take result.count (drop place session.now.events) ≡ replicate result.count (event_of result.event) }
{
    let Some((event, equal)) = session.events_from(place) else {
        unreachable!();
    };
    Equal {
        event,
        count: equal.min(end - place).min(u64::from(STRETCH)),
    }
}

/// The last place before `end` to which a Run led that is the aim, from a place on.
fn last_from<P: Patience>(
    alloc: Global,
    session: &Session,
    aim: &Aim,
    begin: u64,
    end: u64,
    patience: &mut P,
) -> Result<Option<u64>, PlayError>
    requires begins { begin ≤ end }
    requires ends { end ≡ length session.now.events - 1 }
    ensures looks { IfOk result (LooksFrom aim.now begin session.now) }
    ensures unplayed { IfErr result (IsUnplayedBy P.may_end) }
{
    let mut machine = session.machine_at_within(alloc, begin, patience)?;
    let mut pace = Pace::new(u64::from(STRETCH));
    let mut place = begin;
    let mut found = None;
    'spans: while place < end {
        if pace.is_over(place - begin, patience) {
            return Err(PlayError::Broken);
        }
        let next = equal_from(session, place, end);
        found = look_often(&mut machine, next.event, next.count, place, aim, found);
        place += next.count;
    }
    Ok(found)
}

/// Who looks at the Runs of a session but the last.
#[derive(Drop)]
struct Looker<'a> {
    session: &'a Session,
}

impl<'a> LooksBack for Looker<'a> {
    type Goal = Aim;

    type Found = u64;

    type Refusal = PlayError;

    ghost places = { λ l. length l.session.now.events - 1 };

    ghost looked = { λ aim begin old new found. LooksFrom aim begin old.session.now found × (new ≡ old) };

    ghost stays = { λ old new. new ≡ old };

    ghost refuses = { λ may_end error. IsUnplayedBy may_end error };

    fn places(&self) -> u64 {
        self.session.at().saturating_sub(1)
    }

    fn look_from<P: Patience>(
        &mut self,
        alloc: Global,
        goal: &Aim,
        begin: u64,
        patience: &mut P,
    ) -> Result<Option<u64>, PlayError> {
        let end = self.places();
        last_from(alloc, self.session, goal, begin, end, patience)
    }

    ghost stays_first = { λ a. refl };

    ghost stays_on = { λ a b c first second. second ∙ first };

    ghost looked_again = { λ aim before begin a b c found vain looks. (subst (λ it. LooksFrom aim begin it.session.now found) vain.1 looks.0, looks.1 ∙ vain.1) };
}

/// The last place before here to which a Run led that is the aim.
fn last_place<P: Patience>(
    alloc: Global,
    session: &Session,
    aim: &Aim,
    patience: &mut P,
) -> Result<Option<u64>, PlayError>
    ensures last { IfOk result (IsLast aim.now session.now) }
    ensures unplayed { IfErr result (IsUnplayedBy P.may_end) }
{
    let mut looker = Looker { session };
    last_before_here(&mut looker, alloc, aim, patience)
}

/// Goes back to the last place before here to which a Run led that is the aim. The answer is how many events that took
/// back; `None` if there is no such place: nothing is changed.
///
/// # Errors
///
/// It was broken off, or the host has too little memory for a second machine: nothing is changed.
pub(crate) fn back_until<P: Patience>(
    alloc: Global,
    session: &mut Session,
    aim: &Aim,
    patience: &mut P,
) -> Result<Option<u64>, PlayError>
    ensures back { IfOk result (λ taken. GoesBackUntil aim.now taken session.old session.new) }
    ensures refused { IfErr result (λ _. session.new ≡ session.old) }
    ensures unplayed { IfErr result (IsUnplayedBy P.may_end) }
{
    let Some(place) = last_place(alloc, session, aim, patience)? else {
        return Ok(None);
    };
    let taken = session.at().saturating_sub(place);
    session.back_to_within(alloc, place, patience)?;
    Ok(Some(taken))
}
