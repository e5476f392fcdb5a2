//! A machine that goes on, and what is told of it.
ghost use Rattle.std.specs.Prelude.{◌≡◌, ◌≤◌, ◌<◌, ◌&&◌, true, false, Some, string_bytes};
ghost use Rattle.kernel_spec.specs.runs.Run as runs;
ghost use Rattle.xv_session.specs.Names.{AreLive};
ghost use Rattle.explained_run.specs.LiveFact.{live-prop};
ghost use Rattle.explained_run.specs.Told.{IsTold};

use crate::choice::Choice;
use crate::counts::Counts;
use crate::seen::is_marked;
use crate::stepping::tell_step;
use std::alloc::Global;
use xk_base::{BootError, Pid, Program};
use xv_machine::{Config, Event, Machine, Outcome};
use xv_session::{Running, Runs};

/// A machine that goes on, and what is told of it since its boot.
#[derive(Drop)]
pub(crate) struct Explained {
    pub alloc: Global,
    /// Which lines are asked for.
    pub choice: Choice,
    pub running: Running,
    /// How many events the machine has got, 2^64 - 1 at most.
    pub at: u64,
    pub counts: Counts,
    /// Whether there was memory for each line.
    pub complete: bool,
    /// The lines since the boot. They and the counts are those of the same events.
    pub text: String,
    ghost live: { AreLive running.machine.world.state running.names } by { live-prop running.machine.world.state running.names },
    ghost told: { ∥ IsTold choice running at complete (string_bytes text) counts.complete counts.counts.items ∥₁ },
}

// Whether both are so.
fn both(first: bool, second: bool) -> bool
    ensures { result ≡ (first && second) }
{
    first && second
}

impl Explained {
    ghost use Rattle.std.specs.Prelude.{map, [], IfOk};
    ghost use Rattle.std.specs.Io.{StartsWith};
    ghost use Rattle.kernel_spec.specs.runs.First.{first};
    ghost use Rattle.kernel_spec.specs.views.State.{named_file};
    ghost use Rattle.xv_machine.specs.Boots.{Boots};
    ghost use Rattle.xv_machine.specs.Drives.{Ran};
    ghost use Rattle.xv_machine.specs.Events.{event_of, outcome_of};
    ghost use Rattle.xv_machine.specs.Reached.{IsEvent};
    ghost use Rattle.xv_machine.specs.Sound.{IsSoundMachine};
    ghost use Rattle.xv_session.specs.Steps.{Advances};
    ghost use Rattle.explained_run.specs.Booted.{machine_of};
    ghost use Rattle.explained_run.specs.Sent.{is_run};

    /// A machine of these programs, which has got no event.
    ///
    /// # Errors
    ///
    /// Those of [`Machine::boot`].
    pub fn boot(
        alloc: Global,
        config: Config,
        programs: Vec<Program>,
        choice: Choice,
    ) -> Result<Explained, BootError>
        ensures boots { Boots config.frames (machine_of result) (first config.frames config.trace (map named_file programs.items)) }
        ensures choice { IfOk result (λ explained. explained.choice ≡ choice) }
        ensures text { IfOk result (λ explained. string_bytes explained.text ≡ []) }
    {
        match Machine::boot(alloc, config, programs) {
            Ok(machine) => Ok(Explained {
                alloc,
                choice,
                running: Running::new(machine),
                at: 0,
                counts: Counts::new(alloc),
                complete: true,
                text: String::new(alloc),
            }),
            Err(error) => Err(error),
        }
    }

    // Sends Run to the process that runs, once, and tells and counts what comes of it.
    fn step(&mut self, pid: Pid) -> Outcome
        requires current { self.old.running.machine.world.turns.current ≡ Some pid }
        requires sound { IsSoundMachine self.old.running.machine }
        ensures advances { Advances self.old.running runs.Run (outcome_of result) self.new.running }
        ensures choice { self.new.choice ≡ self.old.choice }
        ensures text { self.new.complete ≡ true → (self.old.complete ≡ true) × StartsWith (string_bytes self.new.text) (string_bytes self.old.text) }
    {
        let place = self.running.names.place(pid);
        let marked = is_marked(&self.running.machine.process(pid));
        let made = tell_step(
            self.alloc,
            &self.choice,
            self.at,
            &mut self.running,
            pid,
            &mut self.text,
        );
        self.at = self.at.saturating_add(1);
        let place = self.running.names.place(pid).or(place);
        self.counts
            .add_outcome(&self.choice, pid, place, marked, &made.outcome);
        self.complete = both(self.complete, made.is_told);
        made.outcome
    }

    /// Sends Run, `most` times at most, up to the first of which no done instruction comes, and tells what comes of it.
    /// If no process may run, all of them are sent. What is told comes after what was told before.
    pub fn run(&mut self, most: u32) -> Runs
        ensures ran { Ran most result.sent self.old.running.machine self.new.running.machine }
        ensures within { result.sent ≤ most }
        ensures some { 0 < most → 0 < result.sent }
        ensures choice { self.new.choice ≡ self.old.choice }
        ensures text { self.new.complete ≡ true → (self.old.complete ≡ true) × StartsWith (string_bytes self.new.text) (string_bytes self.old.text) }
    {
        let Some(pid) = self.running.machine.current() else {
            let runs = self.running.run(most);
            self.at = self.at.saturating_add(u64::from(runs.sent));
            return runs;
        };
        let place = self.running.names.place(pid);
        let made = self.running.machine.instructions(most);
        self.at = self.at.saturating_add(u64::from(made));
        self.counts.add_instructions(&self.choice, pid, place, made);
        if made == most {
            return Runs {
                sent: most,
                last: None,
            };
        }
        let outcome = self.step(pid);
        Runs {
            sent: made + 1,
            last: Some(outcome),
        }
    }

    /// Sends an event that isn't Run. Nothing is told of it.
    pub fn send(&mut self, event: Event) -> Outcome
        requires { is_run (event_of event) ≡ false }
        ensures event { IsEvent self.old.running.machine (event_of event) (outcome_of result) self.new.running.machine }
        ensures choice { self.new.choice ≡ self.old.choice }
        ensures text { string_bytes self.new.text ≡ string_bytes self.old.text }
        ensures complete { self.new.complete ≡ self.old.complete }
    {
        // (It says that the machine is sound.)
        let _halted = self.running.machine.halted();
        self.at = self.at.saturating_add(1);
        self.running.event(event)
    }
}
