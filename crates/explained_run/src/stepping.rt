//! A step of the process that runs, with its line.
ghost use Rattle.std.specs.Prelude.{◌≡◌, ◌++◌, true, Some, string_bytes};
ghost use Rattle.kernel_spec.specs.runs.Run as runs;
ghost use Rattle.xv_machine.specs.Events.{outcome_of};
ghost use Rattle.xv_session.specs.Steps.{Advances, IsSound};
ghost use Rattle.explained_run.specs.Chosen.{shows_process};
ghost use Rattle.explained_run.specs.Lines.{told};
ghost use Rattle.explained_run.specs.Seen.{name_in};

use crate::choice::Choice;
use crate::seen::{Seen, name_of};
use crate::telling::tell;
use std::alloc::Global;
use xk_base::Pid;
use xv_machine::{Event, Outcome};
use xv_session::Running;

/// What came of a step.
#[derive(Drop)]
pub(crate) struct Step {
    pub outcome: Outcome,
    /// Whether there was memory for its line.
    pub is_told: bool,
}

// Whether lines of a process are asked for while it runs the program that it runs now.
fn is_shown(choice: &Choice, running: &Running, pid: Pid) -> bool
    ensures { result ≡ shows_process choice.now pid (name_in running.now.machine.world running.now.names pid) }
{
    choice.shows_process(pid, name_of(running, pid))
}

/// Sends Run to the process that runs, once, after so many events, and tells what comes of it.
pub(crate) fn tell_step(
    alloc: Global,
    choice: &Choice,
    place: u64,
    running: &mut Running,
    pid: Pid,
    text: &mut String,
) -> Step
    requires current { running.old.machine.world.turns.current ≡ Some pid }
    requires sound { IsSound running.old }
    ensures advances { Advances running.old runs.Run (outcome_of result.outcome) running.new }
    ensures told { result.is_told ≡ true → string_bytes text.new ≡ string_bytes text.old ++ told choice.now place running.old.machine.world running.old.names (outcome_of result.outcome) running.new.machine.world.state }
{
    if !is_shown(choice, running, pid) {
        return Step {
            outcome: running.event(Event::Run),
            is_told: true,
        };
    }
    let seen = Seen::of(alloc, choice, place, running, pid);
    let outcome = running.event(Event::Run);
    let Ok(seen) = seen else {
        return Step {
            outcome,
            is_told: false,
        };
    };
    let told = tell(alloc, choice, &running.machine, pid, &seen, &outcome, text);
    Step {
        outcome,
        is_told: told.is_ok(),
    }
}
