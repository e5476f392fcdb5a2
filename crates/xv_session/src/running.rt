//! A machine that goes on, with the names of its processes' programs.
ghost use Rattle.std.specs.Prelude.{◌≡◌, ◌≤◌, ◌<◌, None, IsSome, option_map};
ghost use Rattle.kernel_spec.specs.runs.Run as runs;
ghost use Rattle.xv_machine.specs.Events.{event_of, outcome_of};
ghost use Rattle.xv_machine.specs.Instructions.{NextIsOther};
ghost use Rattle.xv_session.specs.Names.{first_names};
ghost use Rattle.xv_session.specs.Steps.{Advances, IsSound, RunsMade, passed};

use crate::names::{Names, asked_for};
use xv_machine::{Event, Machine, Outcome};

/// A machine, and which program each of its live processes runs. It keeps no events.
#[derive(Drop)]
pub struct Running {
    pub machine: Machine,
    pub names: Names,
}

/// What came of Runs that were sent one after another.
#[derive(Drop)]
pub struct Runs {
    /// How many Runs were sent.
    pub sent: u32,
    /// What came of the last one; `None` where all of them are done instructions.
    pub last: Option<Outcome>,
}

/// What came of the last Run where nobody ran before it, by what the machine is then.
fn passed(machine: &Machine) -> Outcome
    ensures { outcome_of result ≡ passed machine.now.world.turns.current machine.now.world.turns.halted }
{
    if let Some(pid) = machine.current() {
        return Outcome::Turn { pid };
    }
    if machine.halted().is_some() {
        return Outcome::Halted;
    }
    Outcome::Idle
}

impl Running {
    /// A machine that was just booted.
    pub fn new(machine: Machine) -> Running
        ensures machine { result.machine ≡ machine }
        ensures names { result.names ≡ first_names machine.world.state.programs }
    {
        let names = Names::at_boot(machine.programs());
        Running { machine, names }
    }

    /// What comes of an event.
    pub fn event(&mut self, event: Event) -> Outcome
        requires sound { IsSound self.old }
        ensures { Advances self.old (event_of event) (outcome_of result) self.new }
    {
        let asked = asked_for(&self.machine, event);
        let outcome = self.machine.event(event);
        self.names.note(asked, &outcome);
        outcome
    }

    /// What comes of one Run.
    pub fn run_once(&mut self) -> Outcome
        requires sound { IsSound self.old }
        ensures { Advances self.old runs.Run (outcome_of result) self.new }
    {
        let Some(pid) = self.machine.current() else {
            return self.event(Event::Run);
        };
        // No name changes by an instruction, so nothing is asked before it.
        let made = self.machine.instructions(1);
        if made == 1 {
            return Outcome::Stepped { pid };
        }
        self.event(Event::Run)
    }

    /// Sends Run as long as an instruction is done, `most` times at most, and tells how often it was sent. So it stops
    /// before a kernel call, before a fault, and if nobody runs.
    pub fn instructions(&mut self, most: u32) -> u32
        requires sound { IsSound self.old }
        ensures made { RunsMade result result None self.old self.new }
        ensures within { result ≤ most }
        ensures stops { result < most → NextIsOther self.new.machine }
    {
        self.machine.instructions(most)
    }

    /// Sends Run where nobody runs: once where the next has its turn, and else so often.
    fn pass(&mut self, most: u32) -> Runs
        requires stopped { self.old.machine.world.turns.current ≡ None }
        requires some { 0 < most }
        ensures made { RunsMade most result.sent (option_map outcome_of result.last) self.old self.new }
        ensures within { result.sent ≤ most }
        ensures sent { 0 < result.sent }
    {
        let sent = self.machine.run(most);
        let last = passed(&self.machine);
        Runs {
            sent,
            last: Some(last),
        }
    }

    /// Sends Run to the process that runs, up to the first of which no done instruction comes.
    fn advance(&mut self, most: u32) -> Runs
        requires running { IsSome self.old.machine.world.turns.current }
        requires sound { IsSound self.old }
        requires some { 0 < most }
        ensures made { RunsMade most result.sent (option_map outcome_of result.last) self.old self.new }
        ensures within { result.sent ≤ most }
        ensures sent { 0 < result.sent }
    {
        let made = self.machine.instructions(most);
        if made == most {
            return Runs {
                sent: most,
                last: None,
            };
        }
        let last = self.event(Event::Run);
        Runs {
            sent: made + 1,
            last: Some(last),
        }
    }

    /// Sends Run, `most` times at most: as long as an instruction is done, and once more where something else
    /// comes of it. Where no process may run, before another event, all of them are sent.
    pub fn run(&mut self, most: u32) -> Runs
        requires sound { IsSound self.old }
        ensures made { RunsMade most result.sent (option_map outcome_of result.last) self.old self.new }
        ensures within { result.sent ≤ most }
        ensures some { 0 < most → 0 < result.sent }
    {
        if most == 0 {
            return Runs {
                sent: 0,
                last: None,
            };
        }
        if self.machine.current().is_none() {
            return self.pass(most);
        }
        self.advance(most)
    }
}
