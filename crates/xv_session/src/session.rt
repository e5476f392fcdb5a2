//! The session.
ghost use Rattle.std.specs.Prelude.{◌≡◌, IfOk, map};
ghost use Rattle.kernel_spec.specs.views.State.{named_file};

use crate::followed::Followed;
use crate::history::History;
use crate::names::Named;
use crate::patience::{Endless, Patience};
use crate::running::{Running, Runs};
use crate::stops::is_before_stop;
use crate::until::{Condition, Search, run_until};
use std::alloc::{AllocError, Global};
use std::marker::Model;
use thiserror::Error;
use xk_base::{BootError, Pid, Program};
use xv_machine::{Config, Event, Machine, Outcome};

/// Why a session didn't do what was asked for. It is as it was before.
#[derive(Clone, Copy, Debug, Error)]
pub enum SessionError {
    /// The host has too little memory.
    #[error("Memory")]
    Memory,
    /// It keeps [`EVENTS_MAX`](crate::EVENTS_MAX) events already.
    #[error("Full")]
    Full,
}

/// Why the events before a place weren't played again. The session is as it was before.
#[derive(Clone, Copy)]
pub enum PlayError {
    /// It was broken off.
    Broken,
    /// The host has too little memory for a second machine.
    Memory,
}

impl PlayError {
    ghost use Rattle.std.specs.Prelude.{◌≡◌, false};
    ghost use Rattle.xv_session.specs.Answers.{IsUnplayedBy};

    /// The same of a session, if nothing can be broken off.
    fn unbroken(self) -> SessionError
        requires { IsUnplayedBy false self }
        ensures { result ≡ SessionError.Memory }
    {
        match self {
            PlayError::Broken => unreachable!(),
            PlayError::Memory => SessionError::Memory,
        }
    }
}

/// A copy of a program.
fn copy_of(alloc: Global, program: &Program) -> Result<Program, AllocError>
    ensures { IfOk result (λ copy. named_file copy ≡ named_file program.now) }
{
    let name = Vec::from_slice(alloc, program.name.as_slice())?;
    let bytes = Vec::from_slice(alloc, program.bytes.as_slice())?;
    Ok(Program { name, bytes })
}

/// A copy of programs.
fn copied(alloc: Global, programs: &[Program]) -> Result<Vec<Program>, AllocError>
    ensures { IfOk result (λ copy. map named_file copy.items ≡ map named_file programs.now) }
{
    let mut copy = Vec::with_capacity(alloc, programs.len())?;
    for place in 0..programs.len() {
        let program = copy_of(alloc, &programs[place])?;
        let Ok(()) = copy.push(program) else {
            return Err(AllocError);
        };
    }
    Ok(copy)
}

/// A machine, with the events that it got since it was booted.
pub struct Session {
    config: Config,
    followed: Followed,
    history: History,
}

// By hand, so that whoever lets go of a session makes one call, and not a step for each of its parts.
impl Drop for Session {
    fn drop(self) {
        let Session {
            config: _,
            followed: _,
            history: _,
        } = self;
    }
}

impl Model for Session {
    ghost use Rattle.xv_session.specs.Recorded.{Recorded};
    ghost use Rattle.xv_session.specs.Codes.{recorded_code};

    ghost Value = { Recorded };

    ghost coded = { recorded_code };

    ghost use Rattle.xv_session.specs.Inside.{recorded, IsSessions};

    ghost view = { recorded };

    ghost invariant = { λ s. IsSessions s };
}

impl Session {
    ghost use Rattle.std.specs.Prelude.{◌≡◌, ◌<◌, ◌≤◌, [], None, IfOk, IfErr, IfSome, IsSome, length, map, option_map, slice_get, take};
    ghost use Rattle.kernel_spec.specs.views.State.{named_file, live};
    ghost use Rattle.kernel_spec.specs.runs.First.{first};
    ghost use Rattle.xv_machine.specs.Boots.{Boots};
    ghost use Rattle.xv_machine.specs.Events.{event_of, outcome_of};
    ghost use Rattle.xv_machine.specs.Instructions.{NextIsOther};
    ghost use Rattle.xv_machine.specs.Sound.{IsSoundMachine};
    ghost use Rattle.xv_session.specs.Recorded.{IsPlayed, IsLed, IsRecorded};
    ghost use Rattle.xv_session.specs.Answers.{machine_of, IsNew, Sent, RunsSent, Found, Stopped, WentBack, AreEqualFrom, EndThere, IsReason, IsUnplayedBy};
    ghost use Rattle.xv_session.specs.LastStep.{HasLast, IsLastStep};
    ghost use Rattle.xv_session.specs.Names.{place_in, AreLive};
    ghost use Rattle.xv_session.specs.Spans.{pair_of};
    ghost use Rattle.xv_session.specs.Stops.{is_before_stop};

    /// A session whose machine was just booted, and has got no event. The refusals are those of
    /// [`Machine::boot`].
    ///
    /// # Errors
    ///
    /// Those of [`Machine::boot`], in their order.
    pub fn boot(alloc: Global, config: Config, programs: Vec<Program>) -> Result<Session, BootError>
        ensures boots { Boots config.frames (machine_of result) (first config.frames config.trace (map named_file programs.items)) }
        ensures fresh { IfOk result (IsNew config.frames config.trace (map named_file programs.items)) }
    {
        match Machine::boot(alloc, config, programs) {
            Ok(machine) => Ok(Session {
                config,
                followed: Followed::new(machine),
                history: History::new(alloc),
            }),
            Err(error) => Err(error),
        }
    }

    /// Sends an event, and tells what came of it.
    ///
    /// # Errors
    ///
    /// [`SessionError::Memory`] where the host has too little memory to keep the event, and
    /// [`SessionError::Full`] where [`EVENTS_MAX`](crate::EVENTS_MAX) are kept: the event isn't sent.
    pub fn send(&mut self, event: Event) -> Result<Outcome, SessionError>
        ensures sent { IfOk result (λ o. Sent self.old (event_of event) (outcome_of o) self.new) }
        ensures refused { IfErr result (λ _. self.new ≡ self.old) }
        ensures reason { IfErr result (λ e. IsReason e (length self.old.events)) }
    {
        self.history.make_room(event)?;
        let outcome = self.followed.event(event);
        self.history.add(1);
        Ok(outcome)
    }

    /// Sends Run, `most` times at most, as [`Machine::run`] does, and tells how often it was sent.
    ///
    /// # Errors
    ///
    /// As [`send`](Session::send): nothing is sent.
    pub fn run(&mut self, most: u32) -> Result<Runs, SessionError>
        ensures sent { IfOk result (λ r. RunsSent most r.sent (option_map outcome_of r.last) self.old self.new) }
        ensures refused { IfErr result (λ _. self.new ≡ self.old) }
        ensures reason { IfErr result (λ e. IsReason e (length self.old.events)) }
    {
        self.history.make_room(Event::Run)?;
        let runs = self.followed.run(most);
        self.history.add(runs.sent);
        Ok(runs)
    }

    /// Sends Run as long as an instruction is done, `most` times at most, and tells how often it was sent. If it was sent
    /// less often, no done instruction comes of the next Run: whoever runs stands before a kernel call, before a fault, or
    /// in a call; or nobody runs.
    ///
    /// # Errors
    ///
    /// As [`send`](Session::send): nothing is sent.
    pub fn instructions(&mut self, most: u32) -> Result<u32, SessionError>
        ensures sent { IfOk result (λ made. RunsSent made made None self.old self.new) }
        ensures within { IfOk result (λ made. made ≤ most) }
        ensures stops { IfOk result (λ made. made < most → NextIsOther self.new.machine) }
        ensures refused { IfErr result (λ _. self.new ≡ self.old) }
        ensures reason { IfErr result (λ e. IsReason e (length self.old.events)) }
    {
        self.history.make_room(Event::Run)?;
        let made = self.followed.instructions(most);
        self.history.add(made);
        Ok(made)
    }

    /// Sends Run, one by one, up to the first that is what is waited for, `most` times at most. It is sent once at
    /// least, unless `most` is 0, so that a search goes on from where the last one ended.
    ///
    /// # Errors
    ///
    /// As [`send`](Session::send): nothing is sent.
    pub fn until(&mut self, most: u32, condition: Condition) -> Result<Search, SessionError>
        ensures found { IfOk result (λ s. Found condition most s.sent s.met (option_map outcome_of s.last) self.old self.new) }
        ensures refused { IfErr result (λ _. self.new ≡ self.old) }
        ensures reason { IfErr result (λ e. IsReason e (length self.old.events)) }
    {
        self.history.make_room(Event::Run)?;
        let found = run_until(&mut self.followed, most, &condition);
        self.history.add(found.sent);
        Ok(found)
    }

    /// Sends Run as long as an instruction is done and leads to no stop, and once more, `most` times at most. The process
    /// that runs stands before a stop if its next instruction stands at one of the addresses, or stores to one of the
    /// bytes. It is told whether it does so after the last Run.
    ///
    /// # Errors
    ///
    /// As [`send`](Session::send): nothing is sent.
    pub fn run_to_stop(
        &mut self,
        most: u32,
        addresses: &[u64],
        bytes: &[u64],
    ) -> Result<Search, SessionError>
        ensures stopped { IfOk result (λ s. Stopped addresses.now bytes.now most s.sent s.met (option_map outcome_of s.last) self.old self.new) }
        ensures refused { IfErr result (λ _. self.new ≡ self.old) }
        ensures reason { IfErr result (λ e. IsReason e (length self.old.events)) }
    {
        self.history.make_room(Event::Run)?;
        let found = self.followed.run_to_stop(most, addresses, bytes);
        self.history.add(found.sent);
        Ok(found)
    }

    /// Whether the process that runs stands before a stop, as [`run_to_stop`](Session::run_to_stop) means it.
    pub fn is_before_stop(&self, addresses: &[u64], bytes: &[u64]) -> bool
        ensures { result ≡ is_before_stop addresses.now bytes.now self.now.machine.world }
    {
        is_before_stop(&self.followed.running.machine, addresses, bytes)
    }

    /// How many events the machine has got since it was booted.
    pub fn at(&self) -> u64
        ensures { result ≡ length self.now.events }
    {
        self.history.len()
    }

    /// The event at a place of the run: 0 is the first; `None` where there were fewer.
    pub fn event(&self, place: u64) -> Option<Event>
        ensures { option_map event_of result ≡ slice_get self.now.events place }
    {
        match self.history.from_on(place) {
            Some((event, _)) => Some(event),
            None => None,
        }
    }

    /// The event at a place of the run, and how many events from there on are equal to it, one at least, up to another
    /// one; `None` where there were fewer. So all events are listed by a place that goes on from 0 by these counts.
    pub fn events_from(&self, place: u64) -> Option<(Event, u64)>
        ensures equal { AreEqualFrom self.now.events place (option_map pair_of result) }
        ensures all { EndThere self.now.events place (option_map pair_of result) }
    {
        self.history.from_on(place)
    }

    /// The machine as it was after the first events, so many, booted anew, with its names and whose step was last.
    fn followed_at<P: Patience>(
        &self,
        alloc: Global,
        place: u64,
        patience: &mut P,
    ) -> Result<Followed, PlayError>
        ensures led { IfOk result (λ f. IsLed self.now.frames self.now.trace self.now.programs (take place self.now.events) f.running) }
        ensures last { IfOk result (λ f. HasLast self.now.frames self.now.trace self.now.programs (take place self.now.events) f.running.machine f.last) }
        ensures unplayed { IfErr result (IsUnplayedBy P.may_end) }
    {
        let Ok(programs) = copied(alloc, self.followed.running.machine.programs()) else {
            return Err(PlayError::Memory);
        };
        let Ok(machine) = Machine::boot(alloc, self.config, programs) else {
            return Err(PlayError::Memory);
        };
        let mut followed = Followed::new(machine);
        let Ok(()) = self.history.play(&mut followed, place, patience) else {
            return Err(PlayError::Broken);
        };
        Ok(followed)
    }

    /// The machine as it was after the first events, so many, as a machine of its own; as it is, where there were no
    /// more. It is booted anew and gets these events, some 300 million Runs a second.
    ///
    /// # Errors
    ///
    /// [`SessionError::Memory`] where the host has too little memory for a second machine.
    pub fn machine_at(&self, alloc: Global, place: u64) -> Result<Machine, SessionError>
        ensures played { IfOk result (IsPlayed self.now.frames self.now.trace self.now.programs (take place self.now.events)) }
        ensures memory { IfErr result (λ e. e ≡ SessionError.Memory) }
    {
        match self.machine_at_within(alloc, place, &mut Endless) {
            Ok(machine) => Ok(machine),
            Err(error) => Err(error.unbroken()),
        }
    }

    /// As [`machine_at`](Session::machine_at), unless the patience is over before.
    ///
    /// # Errors
    ///
    /// [`PlayError::Broken`] where the patience is over, and [`PlayError::Memory`] where the host has too little memory
    /// for a second machine.
    pub fn machine_at_within<P: Patience>(
        &self,
        alloc: Global,
        place: u64,
        patience: &mut P,
    ) -> Result<Machine, PlayError>
        ensures played { IfOk result (IsPlayed self.now.frames self.now.trace self.now.programs (take place self.now.events)) }
        ensures unplayed { IfErr result (IsUnplayedBy P.may_end) }
    {
        let Followed { running, last: _ } = self.followed_at(alloc, place, patience)?;
        let Running { machine, names: _ } = running;
        Ok(machine)
    }

    /// Goes back to a place of the run: to the machine as it was after so many events; where there were no more, it
    /// stays as it is. It takes the time of these events.
    ///
    /// # Errors
    ///
    /// [`SessionError::Memory`] where the host has too little memory for a second machine: nothing is changed.
    pub fn back_to(&mut self, alloc: Global, place: u64) -> Result<(), SessionError>
        ensures back { IfOk result (λ _. WentBack place self.old self.new) }
        ensures refused { IfErr result (λ _. self.new ≡ self.old) }
        ensures memory { IfErr result (λ e. e ≡ SessionError.Memory) }
        ensures recorded { IsRecorded self.new }
    {
        match self.back_to_within(alloc, place, &mut Endless) {
            Ok(()) => Ok(()),
            Err(error) => Err(error.unbroken()),
        }
    }

    /// As [`back_to`](Session::back_to), unless the patience is over before.
    ///
    /// # Errors
    ///
    /// [`PlayError::Broken`] where the patience is over, and [`PlayError::Memory`] where the host has too little memory
    /// for a second machine: nothing is changed.
    pub fn back_to_within<P: Patience>(
        &mut self,
        alloc: Global,
        place: u64,
        patience: &mut P,
    ) -> Result<(), PlayError>
        ensures back { IfOk result (λ _. WentBack place self.old self.new) }
        ensures refused { IfErr result (λ _. self.new ≡ self.old) }
        ensures unplayed { IfErr result (IsUnplayedBy P.may_end) }
        ensures recorded { IsRecorded self.new }
    {
        let followed = self.followed_at(alloc, place, patience)?;
        self.followed = followed;
        self.history.cut(place);
        Ok(())
    }

    /// The machine, to be looked at.
    pub fn machine(&self) -> &Machine
        ensures machine { result.now ≡ self.now.machine }
        ensures recorded { IsRecorded self.now }
    {
        &self.followed.running.machine
    }

    /// The process whose step was last; `None` if no event made a step.
    pub fn last_step(&self) -> Option<Pid>
        ensures { IsLastStep self.now result }
    {
        self.followed.last
    }

    /// The place, among the machine's programs, of the program that a live process runs: process 1 runs `init`, a
    /// child what its parent ran at the fork, and an exec that is done sets it. `None` for any other pid.
    pub fn program_of(&self, pid: Pid) -> Option<usize>
        ensures place { result ≡ place_in pid self.now.names }
        ensures live { IfSome result (λ _. IsSome (live self.now.machine.world.state pid)) }
    {
        self.followed.running.names.place(pid)
    }

    /// The live processes, each with its program's place.
    pub fn names(&self) -> &[Named]
        ensures names { result.now ≡ self.now.names }
        ensures live { AreLive self.now.machine.world.state result.now }
    {
        self.followed.running.names.as_slice()
    }
}
