//! A machine that goes on, and whose step was last.
ghost use Rattle.std.specs.Prelude.{◌≡◌, ◌≤◌, ◌<◌, [], ◌∷◌, None, option_map, replicate};
ghost use Rattle.std.specs.Option.{option_or};
ghost use Rattle.kernel_spec.specs.runs.Run as runs;
ghost use Rattle.xv_machine.specs.Events.{event_of, outcome_of};
ghost use Rattle.xv_machine.specs.Instructions.{NextIsOther};
ghost use Rattle.xv_session.specs.Follows.{Follows, last_after};
ghost use Rattle.xv_session.specs.LastStep.{stepper};
ghost use Rattle.xv_session.specs.Names.{first_names};
ghost use Rattle.xv_session.specs.Steps.{Advances, IsSound, RunsMade};
ghost use Rattle.xv_session.specs.Stops.{WentOn};

use crate::running::{Running, Runs};
use crate::stops::run_to_stop;
use crate::until::Search;
use xk_base::Pid;
use xv_machine::{Event, Machine, Outcome};

/// A machine that goes on, and the process whose step was last: `None` before the first step.
#[derive(Drop)]
pub(crate) struct Followed {
    pub running: Running,
    pub last: Option<Pid>,
}

/// The process that made the step of which this came.
fn stepper(outcome: &Outcome) -> Option<Pid>
    ensures { result ≡ stepper (outcome_of outcome.now) }
{
    match outcome {
        Outcome::Stepped { pid }
        | Outcome::Called { pid, .. }
        | Outcome::Blocked { pid, .. }
        | Outcome::Exited { pid, .. }
        | Outcome::Faulted { pid, .. } => Some(*pid),
        _ => None,
    }
}

/// Whose step was last after an event of which this came.
fn last_by(outcome: &Outcome, last: Option<Pid>) -> Option<Pid>
    ensures { result ≡ option_or (stepper (outcome_of outcome.now)) last }
{
    match stepper(outcome) {
        Some(pid) => Some(pid),
        None => last,
    }
}

/// Whose step was last after so many Runs, before which this process ran.
fn last_after(sent: u32, current: Option<Pid>, last: Option<Pid>) -> Option<Pid>
    ensures { result ≡ last_after sent current last }
{
    if sent == 0 {
        return last;
    }
    match current {
        Some(pid) => Some(pid),
        None => last,
    }
}

impl Followed {
    /// A machine that was just booted.
    pub fn new(machine: Machine) -> Followed
        ensures machine { result.running.machine ≡ machine }
        ensures names { result.running.names ≡ first_names machine.world.state.programs }
        ensures last { result.last ≡ None }
    {
        Followed {
            running: Running::new(machine),
            last: None,
        }
    }

    /// What comes of an event.
    pub fn event(&mut self, event: Event) -> Outcome
        requires sound { IsSound self.old.running }
        ensures advances { Advances self.old.running (event_of event) (outcome_of result) self.new.running }
        ensures follows { Follows (event_of event ∷ []) self.old self.new }
    {
        let outcome = self.running.event(event);
        self.last = last_by(&outcome, self.last);
        outcome
    }

    /// What comes of one Run.
    pub fn run_once(&mut self) -> Outcome
        requires sound { IsSound self.old.running }
        ensures advances { Advances self.old.running runs.Run (outcome_of result) self.new.running }
        ensures follows { Follows (runs.Run ∷ []) self.old self.new }
    {
        let outcome = self.running.run_once();
        self.last = last_by(&outcome, self.last);
        outcome
    }

    /// Sends Run, `most` times at most, as [`Running::run`] does.
    pub fn run(&mut self, most: u32) -> Runs
        requires sound { IsSound self.old.running }
        ensures made { RunsMade most result.sent (option_map outcome_of result.last) self.old.running self.new.running }
        ensures within { result.sent ≤ most }
        ensures some { 0 < most → 0 < result.sent }
        ensures follows { Follows (replicate result.sent runs.Run) self.old self.new }
    {
        let current = self.running.machine.current();
        let made = self.running.run(most);
        self.last = last_after(made.sent, current, self.last);
        made
    }

    /// Sends Run as long as an instruction is done, `most` times at most, as [`Running::instructions`] does.
    pub fn instructions(&mut self, most: u32) -> u32
        requires sound { IsSound self.old.running }
        ensures made { RunsMade result result None self.old.running self.new.running }
        ensures within { result ≤ most }
        ensures stops { result < most → NextIsOther self.new.running.machine }
        ensures follows { Follows (replicate result runs.Run) self.old self.new }
    {
        let current = self.running.machine.current();
        let made = self.running.instructions(most);
        self.last = last_after(made, current, self.last);
        made
    }

    /// Sends Run up to a stop, `most` times at most, as [`run_to_stop`] does.
    pub fn run_to_stop(&mut self, most: u32, addresses: &[u64], bytes: &[u64]) -> Search
        requires sound { IsSound self.old.running }
        ensures stopped { WentOn addresses.now bytes.now most result.met (option_map outcome_of result.last) self.old.running self.new.running result.sent }
        ensures follows { Follows (replicate result.sent runs.Run) self.old self.new }
    {
        let current = self.running.machine.current();
        let found = run_to_stop(&mut self.running, most, addresses, bytes);
        self.last = last_after(found.sent, current, self.last);
        found
    }
}
