//! Which event comes next on a way: the record's, or else the clock's; and how far the clock's round is.
ghost use Rattle.std.specs.Prelude.{◌≡◌, ◌≤◌, ◌<◌, ◌-◌, ◌||◌, ◌&&◌, [], ◌∷◌, IfOk, IfErr, IfNone, IfSome, drop, false, is_none, is_some, length, not, replicate, slice_get, take, true};
ghost use Rattle.kernel_spec.specs.runs.Run as runs;
ghost use Rattle.xv_machine.specs.Events.{event_of};
ghost use Rattle.recordings.specs.Recording.{Begins};
ghost use Rattle.xv_debug.specs.motion.Clock.{Comes, EndsQuiet, HasAhead, IsByClock, IsFar, IsHere, NoneAhead, is_key, is_tick, round_by, round_of, runs_among};
ghost use Rattle.xv_debug.specs.motion.Plan.{key_due};
ghost use Rattle.xv_debug.specs.motion.Resting.{AreAwaitingTicks, RestsBy, RestsQuiet};

use crate::motion::backwards::{Equal, equal_from, is_run};
use crate::motion::journey::Stop;
use crate::motion::plan::Plan;
use crate::motion::resting::{is_tick_awaited, rest_of};
use xv_machine::{ConsoleList, Event, Machine};
use xv_session::Session;

/// How far a round is.
#[derive(Clone, Copy)]
pub(crate) struct Round {
    /// How many Runs it has left.
    pub left: u32,
    /// Whether a key was typed in it.
    pub keyed: bool,
}

/// How far a way is.
#[derive(Clone, Copy)]
pub(crate) struct Far {
    /// How far the round is.
    pub round: Round,
    /// Whether the run is on the record.
    pub along: bool,
}

/// What comes next.
#[derive(Clone, Copy)]
pub(crate) enum Coming {
    /// So many Runs, one after another, as long as each does an instruction.
    Runs(u32),
    /// An event of another kind.
    Other(Event),
}

/// How often the count of equal events is doubled that are looked for at once.
const DOUBLINGS: u32 = 16;

/// How far a round is after an event.
pub(crate) fn round_by(plan: &Plan, round: Round, event: Event) -> Round
    ensures { result ≡ round_by plan.now.quantum round (event_of event) }
{
    match event {
        Event::Run => Round {
            left: round.left.saturating_sub(1),
            keyed: round.keyed,
        },
        Event::Tick => Round {
            left: plan.quantum(),
            keyed: false,
        },
        Event::Key(_) => Round {
            left: round.left,
            keyed: true,
        },
        Event::Send => round,
    }
}

/// Equal events up to a place, one at least.
fn equal_before(session: &Session, end: u64) -> Equal
    requires behind { 0 < end }
    requires there { end ≤ length session.now.events }
    ensures some { 0 < result.count }
    ensures within { result.count ≤ end }
    ensures those { take result.count (drop (end - result.count) session.now.events) ≡ replicate result.count (event_of result.event) }
{
    let mut found = equal_from(session, end - 1, end);
    for _ in 0..DOUBLINGS {
        let wanted = found.count.saturating_mul(2);
        if wanted > end {
            return found;
        }
        let more = equal_from(session, end - wanted, end);
        if more.count < wanted {
            return found;
        }
        found = more;
    }
    found
}

/// Whether an event is a Tick.
pub(crate) fn is_tick(event: Event) -> bool
    ensures { result ≡ is_tick (event_of event) }
{
    match event {
        Event::Tick => true,
        _ => false,
    }
}

/// Whether an event is a Key.
fn is_key(event: Event) -> bool
    ensures { result ≡ is_key (event_of event) }
{
    match event {
        Event::Key(_) => true,
        _ => false,
    }
}

/// How many Runs are left, of so many, if as many were sent as these events are.
fn left_without(left: u32, events: &Equal) -> u32
    ensures { result ≡ left - runs_among (event_of events.now.event) events.now.count }
{
    if !is_run(events.event) {
        return left;
    }
    u64::from(left).saturating_sub(events.count) as u32
}

/// How far a round is, if these events came in it too.
fn round_with(round: Round, events: &Equal) -> Round
    ensures left { result.left ≡ round.left - runs_among (event_of events.now.event) events.now.count }
    ensures keyed { result.keyed ≡ (round.keyed || is_key (event_of events.now.event)) }
{
    Round {
        left: left_without(round.left, events),
        keyed: round.keyed | is_key(events.event),
    }
}

/// How far the round is in which the run is. The events before it are looked at, from the last on, up to a Tick.
pub(crate) fn round_of(session: &Session, plan: &Plan) -> Round
    ensures { result ≡ round_of plan.now.quantum session.now.events }
{
    let mut round = Round {
        left: plan.quantum(),
        keyed: false,
    };
    let mut end = session.at();
    'events: while end > 0 {
        let before = equal_before(session, end);
        if is_tick(before.event) {
            return round;
        }
        round = round_with(round, &before);
        end -= before.count;
    }
    round
}

/// Whether a byte waits in the console.
fn byte_waits(machine: &Machine) -> bool
    ensures { result ≡ is_some (slice_get machine.now.world.state.console.to_send 0) }
{
    machine.console_byte(ConsoleList::ToSend, 0).is_some()
}

/// Whether a round may still begin with a key: none was typed in it, and the machine hasn't halted.
fn takes_key(machine: &Machine, round: Round) -> bool
    ensures { result ≡ (not round.keyed && is_none machine.now.world.turns.halted) }
{
    !round.keyed & machine.halted().is_none()
}

/// The key that is to be typed now.
#[tactic(auto, using(crate::proofs::Clocked::due_not, crate::proofs::Clocked::due_some, crate::proofs::Clocked::due_none))]
fn key_due(machine: &Machine, plan: &Plan, round: Round) -> Option<u8>
    ensures some { IfSome result (λ byte. key_due plan.now round machine.now.world ≡ runs.Key byte ∷ []) }
    ensures none { IfNone result (key_due plan.now round machine.now.world ≡ []) }
{
    if !takes_key(machine, round) {
        return None;
    }
    plan.key_of_round(machine.clock())
}

/// Whether all processes sleep, and one of them sleeps up to a tick, or a later round has a key.
#[tactic(auto, using(crate::proofs::Clocked::keys_behind, crate::proofs::Clocked::no_keys_behind))]
fn is_tick_awaited_at(stop: Stop, machine: &Machine, plan: &Plan, round: Round) -> bool
    requires quiet { machine.now.world.state.console.to_send ≡ [] }
    requires keyless { key_due plan.now round machine.now.world ≡ [] }
    requires rests { RestsBy stop machine.now.world }
    ensures some { result ≡ true → AreAwaitingTicks plan.now machine.now.world }
    ensures none { result ≡ false → RestsQuiet plan.now round stop machine.now.world }
{
    match stop {
        Stop::Asleep => plan.has_key_after(machine.clock()) || is_tick_awaited(machine),
        Stop::Done | Stop::Met | Stop::Halted | Stop::Broken | Stop::Refused(_) => false,
    }
}

/// The event that comes next by the clock, if no byte waits, and no key is due.
///
/// # Errors
///
/// None comes: the machine has halted, or all processes sleep, none of them up to a tick, and no round has a key.
fn event_without_bytes(machine: &Machine, plan: &Plan, round: Round) -> Result<Event, Stop>
    requires quiet { machine.now.world.state.console.to_send ≡ [] }
    requires keyless { key_due plan.now round machine.now.world ≡ [] }
    ensures next { IfOk result (λ event. IsByClock plan.now round machine.now.world (event_of event)) }
    ensures rests { IfErr result (λ stop. RestsQuiet plan.now round stop machine.now.world) }
{
    let Some(stop) = rest_of(machine) else {
        return Ok(if round.left == 0 {
            Event::Tick
        } else {
            Event::Run
        });
    };
    if is_tick_awaited_at(stop, machine, plan, round) {
        return Ok(Event::Tick);
    }
    Err(stop)
}

/// The event that comes next by the clock, in a round that is so far.
///
/// # Errors
///
/// None comes: the machine has halted, or all processes sleep, none of them up to a tick, and no round has a key; and no
/// byte waits.
#[tactic(auto, using(crate::proofs::Searched::waits, crate::proofs::Searched::none_waits))]
fn next_event(machine: &Machine, plan: &Plan, round: Round) -> Result<Event, Stop>
    ensures next { IfOk result (λ event. IsByClock plan.now round machine.now.world (event_of event)) }
    ensures rests { IfErr result (λ stop. RestsQuiet plan.now round stop machine.now.world) }
{
    if byte_waits(machine) {
        return Ok(Event::Send);
    }
    if let Some(byte) = key_due(machine, plan, round) {
        return Ok(Event::Key(byte));
    }
    event_without_bytes(machine, plan, round)
}

/// How far a way is that begins here.
pub(crate) fn far_of(session: &Session, plan: &Plan) -> Far
    ensures { IsFar plan.now session.now.events result }
{
    Far {
        round: round_of(session, plan),
        along: plan.is_followed(session),
    }
}

/// The same, if the run is no longer on a record that is over.
pub(crate) fn here(session: &Session, plan: &Plan, far: Far) -> Far
    requires { IsFar plan.now session.now.events far }
    ensures { IsHere plan.now session.now.events result }
{
    let place = session.at();
    let recorded = plan.recorded();
    if place < recorded {
        return far;
    }
    Far {
        round: far.round,
        along: false,
    }
}

/// What comes next by the record, which has an event for this place.
fn coming_along(session: &Session, plan: &Plan) -> Coming
    requires { HasAhead plan.now.recorded session.now.events }
    ensures { Comes plan.now session.now.events session.now.machine.world result }
{
    let next = plan.recorded_at(session.at());
    if is_run(next.event) {
        return Coming::Runs(next.count.min(u64::from(u32::MAX)) as u32);
    }
    Coming::Other(next.event)
}

/// What comes next by the clock, if the record has no event for this place.
///
/// # Errors
///
/// Those of [`next_event`].
fn coming_by_clock(session: &Session, plan: &Plan, round: Round) -> Result<Coming, Stop>
    requires apart { NoneAhead plan.now.recorded session.now.events }
    requires round { round ≡ round_of plan.now.quantum session.now.events }
    ensures comes { IfOk result (λ coming. Comes plan.now session.now.events session.now.machine.world coming) }
    ensures rests { IfErr result (λ stop. EndsQuiet plan.now session.now.events stop session.now.machine.world) }
{
    match next_event(session.machine(), plan, round) {
        Ok(event) => {
            if is_run(event) {
                return Ok(Coming::Runs(round.left));
            }
            Ok(Coming::Other(event))
        }
        Err(stop) => Err(stop),
    }
}

/// What comes next.
///
/// # Errors
///
/// Nothing does: the record has no event for this place, and the clock has none.
pub(crate) fn what_comes(session: &Session, plan: &Plan, far: Far) -> Result<Coming, Stop>
    requires { IsHere plan.now session.now.events far }
    ensures comes { IfOk result (λ coming. Comes plan.now session.now.events session.now.machine.world coming) }
    ensures rests { IfErr result (λ stop. EndsQuiet plan.now session.now.events stop session.now.machine.world) }
{
    if far.along {
        return Ok(coming_along(session, plan));
    }
    coming_by_clock(session, plan, far.round)
}
