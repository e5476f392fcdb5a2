//! Whether anybody may run.
ghost use Rattle.std.specs.Prelude.{◌≡◌, ℕ, true, false};
ghost use Rattle.kernel_spec.specs.waking.Turns.{HasSlot};
ghost use Rattle.kernel_spec.specs.waking.Wakes.{IsRunnable};
ghost use Rattle.xv_machine.specs.Sound.{IsSoundMachine};
ghost use Rattle.xv_session.specs.Resting.{NobodyMayRun};

use xk_base::Pid;
use xk_base::limits::NPROC;
use xv_machine::{Machine, ProcessState};

/// Whether a process lives, and doesn't sleep.
#[tactic(auto, using(crate::proofs::WhoMayRun::may_run))]
fn is_runnable(machine: &Machine, pid: Pid) -> bool
    ensures some { result ≡ true → IsRunnable machine.now.world pid }
    ensures none { result ≡ false → ¬ IsRunnable machine.now.world pid }
{
    match machine.process(pid) {
        Some(ProcessState::Live { asleep, .. }) => !asleep,
        _ => false,
    }
}

/// Whether the process in a slot lives, and doesn't sleep.
fn is_slot_runnable(machine: &Machine, slot: usize) -> bool
    requires { IsSoundMachine machine.now }
    ensures some { result ≡ true → (p : ℕ) × IsRunnable machine.now.world p }
    ensures none { result ≡ false → (p : ℕ) → HasSlot machine.now.world.turns p slot → ¬ IsRunnable machine.now.world p }
{
    match machine.pid_in(slot) {
        Some(pid) => is_runnable(machine, pid),
        None => false,
    }
}

/// Whether a process lives that doesn't sleep. Else a Run is neither a step nor a turn.
pub fn is_any_runnable(machine: &Machine) -> bool
    requires { IsSoundMachine machine.now }
    ensures some { result ≡ true → (p : ℕ) × IsRunnable machine.now.world p }
    ensures none { result ≡ false → NobodyMayRun machine.now.world }
{
    for slot in 0..NPROC {
        if is_slot_runnable(machine, slot) {
            return true;
        }
    }
    false
}
