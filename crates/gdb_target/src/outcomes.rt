//! What came of events.
ghost use Rattle.std.specs.Prelude.{◌≡◌, None, IfSome, IfNone, option_map};
ghost use Rattle.xv_machine.specs.Events.{outcome_of};
ghost use Rattle.gdb_target.specs.Came.{came};
ghost use Rattle.gdb_target.specs.Forth.{ends_alone, is_alone, is_meant, is_step};

use crate::let_run::LetRun;
use crate::target::Until;
use xk_base::Pid;
use xv_machine::Outcome;

/// What came of the last of some Runs: what is told of it, or else an instruction of whoever runs.
pub(crate) fn came(told: Option<Outcome>, current: Option<Pid>) -> Option<Outcome>
    ensures some { IfSome result (λ o. outcome_of o ≡ came (option_map outcome_of told) current) }
    ensures none { IfNone result ((option_map outcome_of told ≡ None) × (current ≡ None)) }
{
    match told {
        Some(outcome) => Some(outcome),
        None => match current {
            Some(pid) => Some(Outcome::Stepped { pid }),
            None => None,
        },
    }
}

/// Whether a step of this process is waited for.
fn is_meant(until: Until, pid: Pid) -> bool
    ensures { result ≡ is_meant until pid }
{
    match until {
        Until::Point => false,
        Until::AnyStep => true,
        Until::StepOf(wanted) => wanted.number() == pid.number(),
    }
}

/// Whether this came of a step that is waited for: of an instruction of the process, or of a kernel call that is over,
/// or the process is gone.
pub(crate) fn is_step_of(outcome: &Outcome, until: Until) -> bool
    ensures { result ≡ is_step until (outcome_of outcome.now) }
{
    match outcome {
        Outcome::Stepped { pid } => is_meant(until, *pid),
        Outcome::Called { pid, .. } => is_meant(until, *pid),
        Outcome::Exited { pid, .. } => is_meant(until, *pid),
        Outcome::Faulted { pid, .. } => is_meant(until, *pid),
        _ => false,
    }
}

/// Whether this is the process that is let run alone.
fn is_alone(let_run: LetRun, pid: Pid) -> bool
    ensures { result ≡ is_alone let_run pid }
{
    match let_run {
        LetRun::All => false,
        LetRun::Alone(only) => only.number() == pid.number(),
    }
}

/// Whether by this the process is gone that is let run alone.
pub(crate) fn ends_alone(outcome: &Outcome, let_run: LetRun) -> bool
    ensures { result ≡ ends_alone let_run (outcome_of outcome.now) }
{
    match outcome {
        Outcome::Exited { pid, .. } => is_alone(let_run, *pid),
        Outcome::Faulted { pid, .. } => is_alone(let_run, *pid),
        _ => false,
    }
}
