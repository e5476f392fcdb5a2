//! Going back.
ghost use Rattle.std.proofs.Common.{◌∙◌};
ghost use Rattle.std.specs.Prelude.{◌≡◌, ℕ, ◌≤◌, ◌<◌, true, None, Some, IfOk, IfSome, length, refl};
ghost use Rattle.xv_machine.specs.Events.{outcome_of};
ghost use Rattle.gdb_target.specs.Found.{IsBefore, StandsFor, trapped};
ghost use Rattle.gdb_target.specs.Choices.{choices};
ghost use Rattle.gdb_target.specs.LastHit.{GoesBackToLast, GoesForth, IsHitBefore, IsHitOf, IsLastOf, IsPointHit, IsToldBy};
ghost use Rattle.gdb_target.specs.LastHit.{Looked, LooksAt, LooksBefore, LooksFrom, later, let_run_of, looks_again, step_hit};
ghost use Rattle.gdb_target.specs.LetRun.{lets};
ghost use Rattle.gdb_target.specs.Touches.{IsByChange, watched_addresses};
ghost use Rattle.gdb_target.specs.SameRun.{beginning};
ghost use Rattle.gdb_target.specs.Standing.{Starts};

use crate::fast::rows::watched_bytes;
use crate::let_run::{LetRun, if_let};
use crate::places::{at_breakpoint, changed, if_told, is_starter, starts, watched_now};
use crate::played::is_run;
use crate::target::{Stopped, Target};
use crate::touches::{Touch, Use, told_of};
use gdb_packets::StopReason;
use std::alloc::Global;
use xk_base::Pid;
use xv_machine::Outcome;
use xv_session::{Endless, LooksBack, Patience, SessionError, last_before_here};

/// What is looked for, back in the run.
#[derive(Clone, Copy)]
pub enum Back {
    /// The last place before here at which the process was about to do an instruction.
    StepOf(Pid),
    /// The last place before here at which a process of the program, if it is let run, stood at a breakpoint, or was
    /// about to change, to read or to use bytes that are watched.
    Point(LetRun),
}

impl Back {
    /// Whom it lets run.
    pub(crate) fn let_run(&self) -> LetRun
        ensures { result ≡ let_run_of self.now }
    {
        match self {
            Back::StepOf(pid) => LetRun::Alone(*pid),
            Back::Point(let_run) => *let_run,
        }
    }
}

/// A place of the run, and the process that stops there.
#[derive(Clone, Copy)]
pub struct Hit {
    place: u64,
    pid: Pid,
    /// How it uses watched bytes by the next event, if that is why it stops.
    watched: Option<Use>,
}

/// What stood at a place, if the process was about to do an instruction there.
fn step_hit(stood: bool, place: u64, pid: Pid) -> Option<Hit>
    ensures { result ≡ step_hit stood place pid }
{
    if !stood {
        return None;
    }
    let watched = None;
    Some(Hit {
        place,
        pid,
        watched,
    })
}

/// What is told of a place at which no watched bytes are used: the process that stood at a breakpoint, if it is let run.
fn stand_hit(let_run: &LetRun, place: u64, stood: Option<Pid>) -> Option<Hit>
    ensures { IsPointHit let_run.now place stood None result }
{
    let Some(pid) = if_let(*let_run, stood) else {
        return None;
    };
    step_hit(true, place, pid)
}

/// What is told of a place: the use that the next event's instruction makes of watched bytes, or else the process that
/// stood at a breakpoint.
fn use_hit(let_run: &LetRun, place: u64, stood: Option<Pid>, touch: Option<Touch>) -> Option<Hit>
    requires { IfSome touch (λ it. lets let_run.now it.pid ≡ true) }
    ensures { IsPointHit let_run.now place stood touch result }
{
    match touch {
        Some(touch) => Some(Hit {
            place,
            pid: touch.pid,
            watched: Some(touch.how),
        }),
        None => stand_hit(let_run, place, stood),
    }
}

/// What is told of a place: a change of watched bytes by the next event, or the use that its instruction or its kernel call makes of them,
/// or else the process that stood at a breakpoint. Of processes that aren't let run nothing is told.
pub(crate) fn point_hit(
    let_run: &LetRun,
    place: u64,
    stood: Option<Pid>,
    change: Option<Touch>,
    touch: Option<Touch>,
) -> Option<Hit>
    requires change { IfSome change (λ it. IsByChange it.how) }
    requires touch { IfSome touch (λ it. lets let_run.now it.pid ≡ true) }
    ensures { IsPointHit let_run.now place stood touch result }
{
    if let Some(change) = if_told(change, *let_run) {
        return Some(Hit {
            place,
            pid: change.pid,
            watched: Some(change.how),
        });
    }
    use_hit(let_run, place, stood, touch)
}

/// The later of two: the second, if there is one.
fn later(first: Option<Hit>, second: Option<Hit>) -> Option<Hit>
    ensures { result ≡ later first second }
{
    match second {
        Some(hit) => Some(hit),
        None => first,
    }
}

/// A run looks for what stood before here on its own machine: back, and on again to where it was.
impl LooksBack for Target {
    type Goal = Back;

    type Found = Hit;

    type Refusal = SessionError;

    ghost places = { λ t. length t.run.session.events };

    ghost looked = { LooksBefore };

    ghost stays = { λ old new. (beginning new.run ≡ beginning old.run) × (choices new ≡ choices old) };

    ghost refuses = { λ may_end error. Unit {0} };

    fn places(&self) -> u64 {
        self.run.at()
    }

    fn look_from<P: Patience>(
        &mut self,
        alloc: Global,
        goal: &Back,
        begin: u64,
        _patience: &mut P,
    ) -> Result<Option<Hit>, SessionError> {
        let hit = self.last_from(alloc, goal, begin)?;
        Ok(hit)
    }

    ghost stays_first = { λ a. (refl, refl) };

    ghost stays_on = { λ a b c first second. (second.0 ∙ first.0, second.1 ∙ first.1) };

    ghost looked_again = { looks_again };
}

impl Target {
    /// Sends the next event, and tells what came of it; so many Runs at once, if nobody runs, as lie before the place
    /// `end`.
    fn send_one(&mut self, end: u64) -> Result<Outcome, SessionError>
        requires { length self.old.run.session.events < end }
        ensures forth { IfOk result (λ o. GoesForth self.old (outcome_of o) self.new) }
        ensures within { length self.new.run.session.events ≤ end }
        ensures same { beginning self.new.run ≡ beginning self.old.run }
        ensures choices { choices self.new ≡ choices self.old }
    {
        let next = self.run.next();
        if !is_run(next.event) {
            let outcome = self.run.send()?;
            return Ok(outcome);
        }
        let most = self.runs_before(next.count, end);
        let Some(outcome) = self.run.run(most)? else {
            unreachable!();
        };
        Ok(outcome)
    }

    /// Sends the next event, and tells whether the process was about to do an instruction.
    fn look_for_step(&mut self, pid: Pid, place: u64, end: u64) -> Result<Option<Hit>, SessionError>
        requires { length self.old.run.session.events < end }
        ensures within { length self.new.run.session.events ≤ end }
        ensures hit { IfOk result (λ h. IfSome h (λ found. IsHitOf (Back.StepOf pid) place found)) }
        ensures looks { IfOk result (λ h. LooksAt (Back.StepOf pid) place self.old self.new h) }
        ensures same { beginning self.new.run ≡ beginning self.old.run }
        ensures choices { choices self.new ≡ choices self.old }
    {
        let stood = is_starter(&self.run, pid);
        let _outcome = self.send_one(end)?;
        Ok(step_hit(stood, place, pid))
    }

    /// Sends the next event, and tells whether a process stood at a breakpoint before it, or by it changed or used watched
    /// bytes.
    fn look_for_point(
        &mut self,
        alloc: Global,
        let_run: LetRun,
        place: u64,
        end: u64,
    ) -> Result<Option<Hit>, SessionError>
        requires { length self.old.run.session.events < end }
        ensures within { length self.new.run.session.events ≤ end }
        ensures hit { IfOk result (λ h. IfSome h (λ found. IsHitOf (Back.Point let_run) place found)) }
        ensures looks { IfOk result (λ h. LooksAt (Back.Point let_run) place self.old self.new h) }
        ensures same { beginning self.new.run ≡ beginning self.old.run }
        ensures choices { choices self.new ≡ choices self.old }
    {
        let stood = at_breakpoint(&self.run, &self.points, self.program);
        let Ok(before) = watched_now(alloc, &self.run, &self.points, self.program) else {
            return Err(SessionError::Memory);
        };
        let ahead = self.ahead(&let_run);
        let outcome = self.send_one(end)?;
        let change = changed(&self.run, &self.points, self.program, &before);
        let touch = told_of(&self.points, &ahead, &outcome);
        Ok(point_hit(&let_run, place, stood, change, touch))
    }

    /// Sends the next event, and tells whether what is looked for stood before it, at this place.
    fn look(
        &mut self,
        alloc: Global,
        back: &Back,
        place: u64,
        end: u64,
    ) -> Result<Option<Hit>, SessionError>
        requires { length self.old.run.session.events < end }
        ensures within { length self.new.run.session.events ≤ end }
        ensures hit { IfOk result (λ h. IfSome h (λ found. IsHitOf back.now place found)) }
        ensures looks { IfOk result (λ h. LooksAt back.now place self.old self.new h) }
        ensures same { beginning self.new.run ≡ beginning self.old.run }
        ensures choices { choices self.new ≡ choices self.old }
    {
        match back {
            Back::StepOf(pid) => self.look_for_step(*pid, place, end),
            Back::Point(let_run) => self.look_for_point(alloc, *let_run, place, end),
        }
    }

    /// Sends the next event, or Runs in a row, and tells what stood last before one of them.
    fn look_on(
        &mut self,
        alloc: Global,
        back: &Back,
        bytes: &[u64],
        end: u64,
    ) -> Result<Option<Hit>, SessionError>
        requires watched { bytes.now ≡ watched_addresses self.old.points }
        requires room { length self.old.run.session.events < end }
        ensures within { length self.new.run.session.events ≤ end }
        ensures more { IfOk result (λ _. length self.old.run.session.events < length self.new.run.session.events) }
        ensures hit { IfOk result (λ h. IfSome h (λ found. IsHitBefore back.now end found)) }
        ensures looked { IfOk result (λ h. (n : ℕ) × Looked back.now n self.old self.new h) }
        ensures same { beginning self.new.run ≡ beginning self.old.run }
        ensures choices { choices self.new ≡ choices self.old }
    {
        if self.looks_at_row(back, bytes) {
            return self.look_at_row(alloc, back, bytes, end);
        }
        let place = self.run.at();
        let hit = self.look(alloc, back, place, end)?;
        Ok(hit)
    }

    /// The last place, from here on and before `end`, at which what is looked for stood. The run is then at `end`.
    fn last_hit(
        &mut self,
        alloc: Global,
        back: &Back,
        end: u64,
    ) -> Result<Option<Hit>, SessionError>
        requires { length self.old.run.session.events ≤ end }
        ensures hit { IfOk result (λ h. IfSome h (λ found. IsHitBefore back.now end found)) }
        ensures last { IfOk result (λ h. (n : ℕ) × Looked back.now n self.old self.new h) }
        ensures end { IfOk result (λ _. length self.new.run.session.events ≡ end) }
        ensures same { beginning self.new.run ≡ beginning self.old.run }
        ensures choices { choices self.new ≡ choices self.old }
    {
        let Ok(bytes) = watched_bytes(alloc, &self.points) else {
            return Err(SessionError::Memory);
        };
        let mut last = None;
        'places: while self.run.at() < end {
            let hit = self.look_on(alloc, back, bytes.as_slice(), end)?;
            last = later(last, hit);
        }
        Ok(last)
    }

    /// The last place, from this one on and before here, at which what is looked for stood. The run is then where it
    /// was.
    fn last_from(
        &mut self,
        alloc: Global,
        back: &Back,
        begin: u64,
    ) -> Result<Option<Hit>, SessionError>
        requires { begin ≤ length self.old.run.session.events }
        ensures hit { IfOk result (λ h. IfSome h (λ found. IsHitBefore back.now (length self.old.run.session.events) found)) }
        ensures last { IfOk result (λ h. LooksFrom back.now begin self.old self.new h) }
        ensures end { IfOk result
            (λ _. length self.new.run.session.events ≡ length self.old.run.session.events) }
        ensures same { beginning self.new.run ≡ beginning self.old.run }
        ensures choices { choices self.new ≡ choices self.old }
    {
        let end = self.run.at();
        self.run.back_to(alloc, begin)?;
        let hit = self.last_hit(alloc, back, end)?;
        Ok(hit)
    }

    /// The last place before here at which what is looked for stood. The run is then where it was.
    fn search(&mut self, alloc: Global, back: &Back) -> Result<Option<Hit>, SessionError>
        ensures hit { IfOk result (λ h. IfSome h (λ found. IsHitBefore back.now (length self.old.run.session.events) found)) }
        ensures last { IfOk result (λ h. IsLastOf back.now self.old self.new h) }
        ensures end { IfOk result
            (λ _. length self.new.run.session.events ≡ length self.old.run.session.events) }
        ensures same { beginning self.new.run ≡ beginning self.old.run }
        ensures choices { choices self.new ≡ choices self.old }
    {
        last_before_here(self, alloc, back, &mut Endless)
    }

    /// The process, if it does an instruction by the next event.
    fn stands_for_step(&self, wanted: Pid) -> Option<Pid>
        ensures same { IfSome result (λ pid. pid ≡ wanted) }
        ensures starts { IfSome result (λ _. Starts self.now.run wanted) }
    {
        let pid = starts(&self.run)?;
        if pid == wanted {
            return Some(pid);
        }
        None
    }

    /// The process that stands here for what was looked for, where no watched bytes were.
    fn process_here(&self, back: &Back) -> Option<Pid>
        ensures { IfSome result (λ pid. trapped self.now back.now pid) }
    {
        match back {
            Back::StepOf(pid) => self.stands_for_step(*pid),
            Back::Point(let_run) => self.standing(*let_run),
        }
    }

    /// What stands here of what was looked for, and was found here; the begin of the run, where nothing does.
    fn found(&self, back: &Back, hit: &Hit) -> Stopped
        requires { lets (let_run_of back.now) hit.now.pid ≡ true }
        ensures stands { StandsFor self.now back.now result.reason result.pid }
        ensures told { IsToldBy (Some hit.now) result }
    {
        if let Some(how) = hit.watched {
            return Stopped {
                reason: how.reason(),
                pid: hit.pid,
            };
        }
        let Some(pid) = self.process_here(back) else {
            return self.stop_here(StopReason::Begin);
        };
        Stopped {
            reason: StopReason::Trap,
            pid,
        }
    }

    /// Goes back to where what is looked for stood last, and tells what stands there; where it never did, to the
    /// place before the first event.
    ///
    /// # Errors
    ///
    /// [`SessionError::Memory`] where the host has too little memory for a second machine: the run may then stand at
    /// any of its places up to where it was.
    pub fn go_back(&mut self, alloc: Global, back: &Back) -> Result<Stopped, SessionError>
        ensures before { IfOk result (λ _. IsBefore self.old.run self.new.run) }
        ensures last { IfOk result (λ s. GoesBackToLast back.now self.old self.new s) }
        ensures stands { IfOk result (λ s. StandsFor self.new back.now s.reason s.pid) }
        ensures same { beginning self.new.run ≡ beginning self.old.run }
        ensures choices { choices self.new ≡ choices self.old }
    {
        let hit = self.search(alloc, back)?;
        self.forget_told();
        let Some(hit) = hit else {
            self.run.back_to(alloc, 0)?;
            return Ok(self.stop_here(StopReason::Begin));
        };
        self.run.back_to(alloc, hit.place)?;
        Ok(self.found(back, &hit))
    }
}
