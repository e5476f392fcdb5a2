//! Sending events by the plan, up to a Run that is what is waited for.
ghost use Rattle.std.specs.Prelude.{◌≡◌, ◌<◌, ◌≤◌, ◌-◌, ◌&&◌, ◌||◌, IfOk, IfErr, IfSome, false, length, not, option_map};
ghost use Rattle.kernel_spec.specs.runs.Run as runs;
ghost use Rattle.kernel_spec.specs.runs.Run.{bytes_out};
ghost use Rattle.xv_machine.specs.Events.{event_of, outcome_of};
ghost use Rattle.xv_session.specs.Answers.{IsReason, Sent};
ghost use Rattle.xv_session.specs.Recorded.{running_of};
ghost use Rattle.xv_debug.specs.motion.Aims as aims;
ghost use Rattle.xv_debug.specs.motion.Backwards as backwards;
ghost use Rattle.xv_debug.specs.motion.Clock.{Comes, IsFar, IsHere, IsNext, RunsCome, round_by};
ghost use Rattle.xv_debug.specs.motion.Marks as marked;
ghost use Rattle.xv_debug.specs.motion.Places.{ArePlaces};
ghost use Rattle.xv_debug.specs.motion.Reaching as reached;
ghost use Rattle.xv_debug.specs.motion.Reaching.{Goes, Reaches, met_from};
ghost use Rattle.xv_debug.specs.motion.Shown.{KeepsShown};
ghost use Rattle.xv_debug.specs.motion.Ways.{test_of};

use crate::motion::aiming::{Aim, is_due, is_met};
use crate::motion::clock::{Coming, Far, Round, far_of, here, round_by, what_comes};
use crate::motion::journey::{Journey, Stop};
use crate::motion::marks::{is_any_due, meets_marks};
use crate::motion::output::Output;
use crate::motion::pace::{Pace, STRETCH, at_once};
use crate::motion::places::{Places, places_of};
use crate::motion::plan::Plan;
use debug_words::Mark;
use xk_base::Pid;
use xv_machine::{Event, Outcome};
use xv_session::{Patience, Session, SessionError};

/// What a way goes by.
#[derive(Drop)]
pub(crate) struct Way<'a> {
    /// What the run goes on by.
    pub plan: &'a Plan,
    /// The process that ran at first. A turn of it isn't what is waited for: it stands there already.
    pub ran: Option<Pid>,
    /// What is waited for, and the marks.
    pub aim: &'a Aim,
    pub marks: &'a [Mark],
    /// Where Runs that are sent at once have to stop; `None` if each has to be looked at.
    pub places: Option<Places>,
}

/// What came of events that were sent.
#[derive(Drop)]
pub(crate) struct Went {
    /// How many.
    pub sent: u32,
    /// Whether the last of them is what is waited for.
    pub met: bool,
    /// What came of the last of them.
    pub last: Option<Outcome>,
    /// How far the way is.
    pub far: Far,
}

/// Whether a store that is waited for is the next step of the process that runs.
#[derive(Clone, Copy)]
struct Due {
    /// A store that is the aim.
    aim: bool,
    /// A store that a mark waits for.
    mark: bool,
}

/// Which stores that are waited for are due.
fn due_now(session: &Session, way: &Way<'_>) -> Due
    ensures aim { result.aim ≡ aims.is_due way.now.aim.now session.now.machine }
    ensures mark { result.mark ≡ marked.is_any_due way.now.marks.now session.now.machine.world }
{
    Due {
        aim: is_due(way.aim, session.machine()),
        mark: is_any_due(session, way.marks),
    }
}

/// Whether it gives the turn to this process.
fn is_turn_of(wanted: Option<Pid>, outcome: &Outcome) -> bool
    ensures { result ≡ reached.is_turn_of wanted (outcome_of outcome.now) }
{
    let Outcome::Turn { pid } = outcome else {
        return false;
    };
    match wanted {
        Some(wanted) => wanted.number() == pid.number(),
        None => false,
    }
}

/// Whether a Run of which this came is the aim, or meets a mark.
fn is_one(session: &Session, way: &Way<'_>, due: &Due, outcome: &Outcome) -> bool
    ensures { result ≡ (not (reached.is_turn_of way.now.ran (outcome_of outcome.now)) && (aims.meets_with way.now.aim.now due.now.aim (outcome_of outcome.now) session.now.machine || marked.meets_with way.now.marks.now due.now.mark (outcome_of outcome.now) (running_of session.now))) }
{
    !is_turn_of(way.ran, outcome)
        & (is_met(way.aim, due.aim, outcome, session.machine())
            | meets_marks(session, way.marks, due.mark, outcome))
}

/// How far a way is after an event.
fn far_by(plan: &Plan, far: Far, event: Event) -> Far
    ensures round { result.round ≡ round_by plan.now.quantum far.round (event_of event) }
    ensures along { result.along ≡ far.along }
{
    Far {
        round: round_by(plan, far.round, event),
        along: far.along,
    }
}

/// How far a way is after so many Runs.
fn far_by_runs(far: Far, sent: u32) -> Far
    ensures round { result.round ≡ record { left = far.round.left - sent; keyed = far.round.keyed } }
    ensures along { result.along ≡ far.along }
{
    Far {
        round: Round {
            left: far.round.left.saturating_sub(sent),
            keyed: far.round.keyed,
        },
        along: far.along,
    }
}

/// Sends an event, and keeps what the console shows of it.
fn send_one(
    session: &mut Session,
    event: Event,
    output: &mut Output,
) -> Result<Outcome, SessionError>
    ensures sent { IfOk result (λ o. Sent session.old (event_of event) (outcome_of o) session.new) }
    ensures shown { IfOk result (λ o. KeepsShown (bytes_out (outcome_of o)) output.old output.new) }
    ensures refused { IfErr result (λ _. session.new ≡ session.old) }
    ensures silent { IfErr result (λ _. output.new ≡ output.old) }
    ensures reason { IfErr result (λ e. IsReason e (length session.old.events)) }
{
    let outcome = session.send(event)?;
    output.add(outcome.shown());
    Ok(outcome)
}

/// Sends the next event, which is no Run: it is never what is waited for.
fn send_apart(
    session: &mut Session,
    way: &Way<'_>,
    event: Event,
    far: Far,
    output: &mut Output,
) -> Result<Went, SessionError>
    requires apart { backwards.is_run (event_of event) ≡ false }
    requires here { IsHere way.now.plan.now session.old.events far }
    requires next { IsNext way.now.plan.now session.old.events session.old.machine.world (event_of event) }
    ensures goes { IfOk result (λ w. Goes way.now.plan.now (test_of way.now) w.met w.sent (option_map outcome_of w.last) session.old session.new output.old output.new) }
    ensures far { IfOk result (λ w. IsFar way.now.plan.now session.new.events w.far) }
    ensures one { IfOk result (λ w. w.sent ≡ 1) }
    ensures refused { IfErr result (λ _. session.new ≡ session.old) }
    ensures silent { IfErr result (λ _. output.new ≡ output.old) }
    ensures reason { IfErr result (λ e. IsReason e (length session.old.events)) }
{
    let outcome = send_one(session, event, output)?;
    Ok(Went {
        sent: 1,
        met: false,
        last: Some(outcome),
        far: far_by(way.plan, far, event),
    })
}

/// Sends a Run, and looks whether it is the aim, or meets a mark.
fn run_once(
    session: &mut Session,
    way: &Way<'_>,
    far: Far,
    output: &mut Output,
) -> Result<Went, SessionError>
    requires here { IsHere way.now.plan.now session.old.events far }
    requires next { IsNext way.now.plan.now session.old.events session.old.machine.world runs.Run }
    ensures goes { IfOk result (λ w. Goes way.now.plan.now (test_of way.now) w.met w.sent (option_map outcome_of w.last) session.old session.new output.old output.new) }
    ensures far { IfOk result (λ w. IsFar way.now.plan.now session.new.events w.far) }
    ensures one { IfOk result (λ w. w.sent ≡ 1) }
    ensures refused { IfErr result (λ _. session.new ≡ session.old) }
    ensures silent { IfErr result (λ _. output.new ≡ output.old) }
    ensures reason { IfErr result (λ e. IsReason e (length session.old.events)) }
{
    let due = due_now(session, way);
    let outcome = send_one(session, Event::Run, output)?;
    let met = is_one(session, way, &due, &outcome);
    Ok(Went {
        sent: 1,
        met,
        last: Some(outcome),
        far: far_by(way.plan, far, Event::Run),
    })
}

/// Sends Runs at once, so many at most, up to one of these places, or up to one by which no instruction is done; and
/// looks whether the last is the aim, or meets a mark.
#[tactic(auto, using(crate::proofs::Searched::often_within, crate::proofs::Searched::often_forth))]
fn run_often(
    session: &mut Session,
    most: u32,
    way: &Way<'_>,
    far: Far,
    places: &Places,
    output: &mut Output,
) -> Result<Went, SessionError>
    requires some { 0 < most }
    requires here { IsHere way.now.plan.now session.old.events far }
    requires comes { RunsCome way.now.plan.now session.old.events most session.old.machine.world }
    requires places { ArePlaces way.now.aim.now way.now.marks.now places.now }
    requires aim { aims.is_due way.now.aim.now session.old.machine ≡ false }
    requires marks { marked.is_any_due way.now.marks.now session.old.machine.world ≡ false }
    ensures goes { IfOk result (λ w. Goes way.now.plan.now (test_of way.now) w.met w.sent (option_map outcome_of w.last) session.old session.new output.old output.new) }
    ensures far { IfOk result (λ w. IsFar way.now.plan.now session.new.events w.far) }
    ensures within { IfOk result (λ w. w.sent ≤ most) }
    ensures forth { IfOk result (λ w. 0 < w.sent) }
    ensures refused { IfErr result (λ _. session.new ≡ session.old) }
    ensures silent { IfErr result (λ _. output.new ≡ output.old) }
    ensures reason { IfErr result (λ e. IsReason e (length session.old.events)) }
{
    let found = session.run_to_stop(most, places.addresses.as_slice(), places.bytes.as_slice())?;
    let sent = found.sent;
    let Some(outcome) = found.last else {
        unreachable!();
    };
    output.add(outcome.shown());
    let due = Due {
        aim: false,
        mark: false,
    };
    let met = is_one(session, way, &due, &outcome);
    Ok(Went {
        sent,
        met,
        last: Some(outcome),
        far: far_by_runs(far, sent),
    })
}

/// Sends Runs, so many at most: one, if a store that is waited for is due, or if there are no places; else as many as lead
/// to none of the places.
#[tactic(auto, using(crate::proofs::Searched::one_within, crate::proofs::Searched::one_forth, crate::proofs::Along::run_comes))]
fn run_some(
    session: &mut Session,
    most: u32,
    way: &Way<'_>,
    far: Far,
    output: &mut Output,
) -> Result<Went, SessionError>
    requires some { 0 < most }
    requires places { IfSome way.now.places (ArePlaces way.now.aim.now way.now.marks.now) }
    requires here { IsHere way.now.plan.now session.old.events far }
    requires comes { RunsCome way.now.plan.now session.old.events most session.old.machine.world }
    ensures goes { IfOk result (λ w. Goes way.now.plan.now (test_of way.now) w.met w.sent (option_map outcome_of w.last) session.old session.new output.old output.new) }
    ensures far { IfOk result (λ w. IsFar way.now.plan.now session.new.events w.far) }
    ensures within { IfOk result (λ w. w.sent ≤ most) }
    ensures forth { IfOk result (λ w. 0 < w.sent) }
    ensures refused { IfErr result (λ _. session.new ≡ session.old) }
    ensures silent { IfErr result (λ _. output.new ≡ output.old) }
    ensures reason { IfErr result (λ e. IsReason e (length session.old.events)) }
{
    let Some(places) = &way.places else {
        return run_once(session, way, far, output);
    };
    let due = due_now(session, way);
    if due.aim || due.mark {
        return run_once(session, way, far, output);
    }
    run_often(session, most, way, far, places, output)
}

/// Sends what comes next: an event, or Runs, so many at most.
#[tactic(auto, using(crate::proofs::Searched::one_within, crate::proofs::Searched::one_forth, crate::proofs::Searched::part_within, crate::proofs::Along::fewer_come))]
fn send_some(
    session: &mut Session,
    most: u32,
    way: &Way<'_>,
    next: Coming,
    far: Far,
    output: &mut Output,
) -> Result<Went, SessionError>
    requires some { 0 < most }
    requires places { IfSome way.now.places (ArePlaces way.now.aim.now way.now.marks.now) }
    requires here { IsHere way.now.plan.now session.old.events far }
    requires comes { Comes way.now.plan.now session.old.events session.old.machine.world next }
    ensures goes { IfOk result (λ w. Goes way.now.plan.now (test_of way.now) w.met w.sent (option_map outcome_of w.last) session.old session.new output.old output.new) }
    ensures far { IfOk result (λ w. IsFar way.now.plan.now session.new.events w.far) }
    ensures within { IfOk result (λ w. w.sent ≤ most) }
    ensures forth { IfOk result (λ w. 0 < w.sent) }
    ensures refused { IfErr result (λ _. session.new ≡ session.old) }
    ensures silent { IfErr result (λ _. output.new ≡ output.old) }
    ensures reason { IfErr result (λ e. IsReason e (length session.old.events)) }
{
    match next {
        Coming::Runs(count) => run_some(session, most.min(count), way, far, output),
        Coming::Other(event) => send_apart(session, way, event, far, output),
    }
}

/// The way of a session from here on.
fn way_from<'a>(session: &Session, plan: &'a Plan, aim: &'a Aim, marks: &'a [Mark]) -> Way<'a>
    ensures plan { result.plan.now ≡ plan.now }
    ensures test { test_of result ≡ met_from session.now aim.now marks.now }
    ensures places { IfSome result.places (ArePlaces result.aim.now result.marks.now) }
{
    Way {
        plan,
        ran: session.machine().current(),
        aim,
        marks,
        places: places_of(aim, marks),
    }
}

/// Sends events by the plan, so many at most, up to the first Run that is the aim or meets a mark; and none more if the record
/// has no event, nobody may go on, nobody waits for a tick and no key is left, or if it is broken off. By the clock, a byte
/// that waits in the console is taken before the next Run.
#[tactic(auto, using(crate::proofs::Along::ends_quiet))]
pub(crate) fn search<P: Patience>(
    session: &mut Session,
    plan: &Plan,
    most: u32,
    aim: &Aim,
    marks: &[Mark],
    patience: &mut P,
    output: &mut Output,
) -> Journey
    ensures { Reaches P.may_end plan.now (met_from session.old aim.now marks.now) most result.stop result.sent (option_map outcome_of result.last) session.old session.new output.old output.new }
{
    let way = way_from(session, plan, aim, marks);
    let mut pace = Pace::new(u64::from(STRETCH));
    let mut far = far_of(session, plan);
    let mut sent: u32 = 0;
    let mut last = None;
    'events: while sent < most {
        far = here(session, plan, far);
        let next = match what_comes(session, plan, far) {
            Ok(next) => next,
            Err(stop) => return Journey::new(u64::from(sent), stop, last),
        };
        let done = u64::from(sent);
        if pace.is_over(done, patience) {
            return Journey::new(done, Stop::Broken, last);
        }
        let part = at_once(most - sent);
        match send_some(session, part, &way, next, far, output) {
            Ok(went) => {
                sent += went.sent;
                far = went.far;
                last = went.last;
                if went.met {
                    return Journey::new(u64::from(sent), Stop::Met, last);
                }
            }
            Err(error) => {
                return Journey::new(u64::from(sent), Stop::Refused(error), last);
            }
        }
    }
    Journey::new(u64::from(sent), Stop::Done, last)
}
