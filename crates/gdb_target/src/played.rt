//! A run on its way.
ghost use Rattle.std.specs.Prelude.{◌≡◌, ◌⊎◌, ℕ, ◌+◌, ◌≤◌, ◌<◌, None, IfOk, IfErr, IfSome, IsSome, true, false, length, max, min};
ghost use Rattle.xv_machine.specs.Events.{event_of, outcome_of};
ghost use Rattle.gdb_target.specs.Plan.{planned_at};
ghost use Rattle.gdb_target.specs.PlayedBy.{IsPlayedBy, is_run};

use crate::outcomes::came;
use crate::plan::Plan;
use crate::rounds::Next;
use std::alloc::Global;
use xk_base::{BootError, Program};
use xv_machine::{Config, Event, Machine, Outcome};
use xv_session::{Session, SessionError};

/// Whether an event is Run.
pub(crate) fn is_run(event: Event) -> bool
    ensures { result ≡ is_run (event_of event) }
{
    match event {
        Event::Run => true,
        Event::Tick | Event::Key(_) | Event::Send => false,
    }
}

/// A session whose machine gets the events of its plan, and no other: at each place of the run the next event is
/// settled. So to go back and on again leads to the same.
#[derive(Drop)]
pub struct Played {
    pub session: Session,
    pub plan: Plan,
    ghost played: { IsPlayedBy plan session },
}

impl Played {
    ghost use Rattle.std.specs.Prelude.{map};
    ghost use Rattle.kernel_spec.specs.views.State.{named_file};
    ghost use Rattle.xv_session.specs.Answers.{IsNew};
    ghost use Rattle.gdb_target.specs.Came.{Comes};
    ghost use Rattle.xv_session.specs.Stops.{is_before_stop};
    ghost use Rattle.gdb_target.specs.Rows.{RunsToStop};
    ghost use Rattle.gdb_target.specs.SameRun.{IsBeforeEnd, IsFollowedByEnd, beginning, ended_with};
    ghost use Rattle.gdb_target.specs.Standing.{NextIsRun};

    /// A run of these programs, which stands before its first event.
    ///
    /// # Errors
    ///
    /// Those of [`Session::boot`].
    pub fn boot(
        alloc: Global,
        frames: u32,
        programs: Vec<Program>,
        plan: Plan,
    ) -> Result<Played, BootError>
        ensures new { IfOk result (λ p. IsNew frames 0 (map named_file programs.items) p.session) }
        ensures plan { IfOk result (λ p. p.plan ≡ plan) }
    {
        match Session::boot(alloc, Config { frames, trace: 0 }, programs) {
            Ok(session) => Ok(Played { session, plan }),
            Err(error) => Err(error),
        }
    }

    /// The machine, to be looked at.
    pub fn machine(&self) -> &Machine
        ensures { result.now ≡ self.now.session.machine }
    {
        self.session.machine()
    }

    /// How many events the machine has got.
    pub fn at(&self) -> u64
        ensures { result ≡ length self.now.session.events }
    {
        self.session.at()
    }

    /// What comes next, and how many of its kind.
    pub fn next(&self) -> Next
        ensures event { planned_at self.now.plan (length self.now.session.events) ≡ event_of result.event }
        ensures equal { (k : ℕ) → k < result.count → planned_at self.now.plan (length self.now.session.events + k) ≡ event_of result.event }
        ensures some { 0 < result.count }
    {
        self.plan.at(self.session.at())
    }

    /// Sends the next event, whatever it is, and tells what came of it.
    ///
    /// # Errors
    ///
    /// Those of [`Session::send`]: nothing is sent.
    pub fn send(&mut self) -> Result<Outcome, SessionError>
        ensures one { IfOk result (λ _. length self.new.session.events ≡ length self.old.session.events + 1) }
        ensures comes { IfOk result (λ o. Comes self.old self.new (outcome_of o)) }
        ensures refused { IfErr result (λ _. self.new.session ≡ self.old.session) }
        ensures same { beginning self.new ≡ beginning self.old }
    {
        let next = self.next();
        let outcome = self.session.send(next.event)?;
        Ok(outcome)
    }

    /// Sends Runs as long as the next event is one, `most` at most, as [`Session::run`] does, and tells what came of the
    /// last.
    ///
    /// # Errors
    ///
    /// Those of [`Session::run`]: nothing is sent.
    pub fn run(&mut self, most: u32) -> Result<Option<Outcome>, SessionError>
        ensures comes { IfOk result (λ o. IfSome o (λ c. Comes self.old self.new (outcome_of c))) }
        ensures more { IfOk result (λ o. IfSome o (λ _. length self.old.session.events < length self.new.session.events)) }
        ensures within { length self.new.session.events ≤ length self.old.session.events + most }
        ensures some { IfOk result (λ o. 0 < most → NextIsRun self.old → IsSome o) }
        ensures refused { IfErr result (λ _. self.new.session ≡ self.old.session) }
        ensures same { beginning self.new ≡ beginning self.old }
    {
        let next = self.next();
        if most == 0 {
            return Ok(None);
        }
        if !is_run(next.event) {
            return Ok(None);
        }
        let current = self.machine().current();
        let runs = self.session.run(most.min(next.count))?;
        let Some(outcome) = came(runs.last, current) else {
            unreachable!();
        };
        Ok(Some(outcome))
    }

    /// Whether the process that runs stands before a stop, as [`Session::run_to_stop`] means it.
    pub fn is_before_stop(&self, addresses: &[u64], bytes: &[u64]) -> bool
        ensures { result ≡ is_before_stop addresses.now bytes.now self.now.session.machine.world }
    {
        self.session.is_before_stop(addresses, bytes)
    }

    /// Sends Runs as long as the next event is one, `most` at most, up to a stop, as [`Session::run_to_stop`] does, and
    /// tells what came of the last.
    ///
    /// # Errors
    ///
    /// Those of [`Session::run_to_stop`]: nothing is sent.
    pub fn run_to_stop(
        &mut self,
        most: u32,
        addresses: &[u64],
        bytes: &[u64],
    ) -> Result<Outcome, SessionError>
        requires some { 0 < most }
        requires runs { NextIsRun self.old }
        ensures row { IfOk result (λ o. RunsToStop addresses.now bytes.now self.old (outcome_of o) self.new) }
        ensures more { IfOk result (λ _. length self.old.session.events < length self.new.session.events) }
        ensures within { length self.new.session.events ≤ length self.old.session.events + most }
        ensures refused { IfErr result (λ _. self.new.session ≡ self.old.session) }
        ensures same { beginning self.new ≡ beginning self.old }
    {
        let next = self.next();
        let found = self
            .session
            .run_to_stop(most.min(next.count), addresses, bytes)?;
        let Some(outcome) = came(found.last, None) else {
            unreachable!();
        };
        Ok(outcome)
    }

    /// Sends some of the events that come before a place: one, or Runs in a row.
    fn go_some(&mut self, place: u64) -> Result<(), SessionError>
        requires { length self.old.session.events < place }
        ensures more { IfOk result (λ _. length self.old.session.events < length self.new.session.events) }
        ensures within { length self.new.session.events ≤ place }
        ensures same { beginning self.new ≡ beginning self.old }
    {
        let next = self.next();
        if !is_run(next.event) {
            let _outcome = self.send()?;
            return Ok(());
        }
        let most = (place - self.at()).min(u64::from(u32::MAX)) as u32;
        let Some(_outcome) = self.run(most)? else {
            unreachable!();
        };
        Ok(())
    }

    /// Whether process 1 has ended. At the boot it hasn't.
    fn has_ended(&self) -> bool
        ensures ended { result ≡ true → IsSome (ended_with self.now) }
        ensures goes_on { result ≡ false → ended_with self.now ≡ None }
        ensures later { result ≡ true → 0 < length self.now.session.events }
    {
        self.session.machine().halted().is_some()
    }

    /// Goes back by one event, after which process 1 had ended.
    fn back_one(&mut self, alloc: Global) -> Result<(), SessionError>
        requires some { 0 < length self.old.session.events }
        requires ended { IsSome (ended_with self.old) }
        ensures before { IfOk result (λ _. IsFollowedByEnd self.new) }
        ensures less { IfOk result (λ _. length self.new.session.events < length self.old.session.events) }
        ensures within { length self.new.session.events ≤ length self.old.session.events }
        ensures same { beginning self.new ≡ beginning self.old }
    {
        let place = self.at().saturating_sub(1);
        self.back_to(alloc, place)?;
        Ok(())
    }

    /// If process 1 has ended, goes back to the place before the event by which it did.
    fn back_before_end(&mut self, alloc: Global) -> Result<(), SessionError>
        ensures there { IfOk result (λ _. (self.new.session ≡ self.old.session) ⊎ IsBeforeEnd self.new) }
        ensures goes_on { IfOk result (λ _. ended_with self.new ≡ None) }
        ensures within { length self.new.session.events ≤ length self.old.session.events }
        ensures same { beginning self.new ≡ beginning self.old }
    {
        'ends: while self.has_ended() {
            self.back_one(alloc)?;
        }
        Ok(())
    }

    /// Goes on to a place of the run, or up to the event by which process 1 ends before it.
    fn go_on_to(&mut self, place: u64) -> Result<(), SessionError>
        ensures there { IfOk result (λ _. (length self.new.session.events ≡ max place (length self.old.session.events)) ⊎ IsSome (ended_with self.new)) }
        ensures within { length self.new.session.events ≤ max place (length self.old.session.events) }
        ensures same { beginning self.new ≡ beginning self.old }
    {
        'events: while self.at() < place {
            self.go_some(place)?;
            if self.has_ended() {
                return Ok(());
            }
        }
        Ok(())
    }

    /// Goes on to a place of the run; but if process 1 ends before it, then only to the place before the event by which it
    /// ends, since after that nobody is left to be looked at. If the machine has got as many events or more, it stays
    /// where it is, unless process 1 has ended.
    ///
    /// # Errors
    ///
    /// Those of [`Session::send`], and of [`Played::back_to`]: it stands at some place of the run, from which it can go on.
    pub fn go_to(&mut self, alloc: Global, place: u64) -> Result<(), SessionError>
        ensures there { IfOk result (λ _. (length self.new.session.events ≡ max place (length self.old.session.events)) ⊎ IsBeforeEnd self.new) }
        ensures goes_on { IfOk result (λ _. ended_with self.new ≡ None) }
        ensures within { length self.new.session.events ≤ max place (length self.old.session.events) }
        ensures same { beginning self.new ≡ beginning self.old }
    {
        self.go_on_to(place)?;
        self.back_before_end(alloc)?;
        Ok(())
    }

    /// Goes back to a place of the run: its machine is then what it was there. If it has got fewer events, it stays
    /// where it is.
    ///
    /// # Errors
    ///
    /// [`SessionError::Memory`] if the host has too little memory for a second machine: it stays where it is.
    pub fn back_to(&mut self, alloc: Global, place: u64) -> Result<(), SessionError>
        ensures back { IfOk result (λ _. length self.new.session.events ≡ min place (length self.old.session.events)) }
        ensures refused { IfErr result (λ _. self.new.session ≡ self.old.session) }
        ensures same { beginning self.new ≡ beginning self.old }
    {
        self.session.back_to(alloc, place)?;
        Ok(())
    }
}
