//! Runs that are sent at once: instructions of the process that runs, as far as they go on.
ghost use Rattle.std.specs.Prelude.{◌≡◌, ◌<◌, ◌≤◌, IfOk, IfErr, length, option_map};
ghost use Rattle.xv_machine.specs.Events.{outcome_of};
ghost use Rattle.xv_session.specs.Answers.{IsReason};
ghost use Rattle.xv_debug.specs.motion.Ran.{Ran, last_of};

use xk_base::Pid;
use xv_machine::{Event, Outcome};
use xv_session::{Session, SessionError};

/// Runs that were sent.
#[derive(Drop)]
pub(crate) struct Stretch {
    /// How many.
    pub sent: u32,
    /// What came of the last of them.
    pub last: Outcome,
}

/// Sends one Run.
fn turn(session: &mut Session) -> Result<Stretch, SessionError>
    ensures ran { IfOk result (λ s. Ran s.sent (Some (outcome_of s.last)) session.old session.new) }
    ensures one { IfOk result (λ s. s.sent ≡ 1) }
    ensures refused { IfErr result (λ _. session.new ≡ session.old) }
    ensures reason { IfErr result (λ e. IsReason e (length session.old.events)) }
{
    let last = session.send(Event::Run)?;
    Ok(Stretch { sent: 1, last })
}

/// What came of the last of Runs: this, if it is told; else the process did an instruction.
fn last_of(told: Option<Outcome>, pid: Pid) -> Outcome
    ensures { outcome_of result ≡ last_of pid (option_map outcome_of told) }
{
    match told {
        Some(outcome) => outcome,
        None => Outcome::Stepped { pid },
    }
}

/// Sends Runs to the process that runs, so many at most, up to the first that does something else than an instruction.
fn instructions(session: &mut Session, pid: Pid, most: u32) -> Result<Stretch, SessionError>
    requires current { session.old.machine.world.turns.current ≡ Some pid }
    requires some { 0 < most }
    ensures ran { IfOk result (λ s. Ran s.sent (Some (outcome_of s.last)) session.old session.new) }
    ensures within { IfOk result (λ s. s.sent ≤ most) }
    ensures forth { IfOk result (λ s. 0 < s.sent) }
    ensures refused { IfErr result (λ _. session.new ≡ session.old) }
    ensures reason { IfErr result (λ e. IsReason e (length session.old.events)) }
{
    let runs = session.run(most)?;
    let sent = runs.sent;
    let last = last_of(runs.last, pid);
    Ok(Stretch { sent, last })
}

/// Sends Runs, so many at most, and one at least: as far as instructions go on, or a turn if nobody runs.
///
/// # Errors
///
/// As [`Session::run`]: nothing is sent.
pub(crate) fn send_stretch(session: &mut Session, most: u32) -> Result<Stretch, SessionError>
    requires { 0 < most }
    ensures ran { IfOk result (λ s. Ran s.sent (Some (outcome_of s.last)) session.old session.new) }
    ensures within { IfOk result (λ s. s.sent ≤ most) }
    ensures forth { IfOk result (λ s. 0 < s.sent) }
    ensures refused { IfErr result (λ _. session.new ≡ session.old) }
    ensures reason { IfErr result (λ e. IsReason e (length session.old.events)) }
{
    match session.machine().current() {
        Some(pid) => instructions(session, pid, most),
        None => turn(session),
    }
}
