//! Whether there is anything for a machine to do.
ghost use Rattle.std.specs.Prelude.{◌≡◌, ℕ, false};
ghost use Rattle.kernel_spec.specs.waking.Turns.{HasSlot};
ghost use Rattle.xv_machine.specs.Sound.{IsSoundMachine};
ghost use Rattle.xv_live.specs.Resting.{NothingHappens, RunsDoNothing, WaitsForTicks};

use kernel_calls::numbers::SLEEP;
use xk_base::Pid;
use xk_base::limits::NPROC;
use xv_machine::{Machine, ProcessState};
use xv_session::is_any_runnable;

/// Whether Runs do something: a process runs, or may.
pub fn may_run(machine: &Machine) -> bool
    ensures rests { result ≡ false → RunsDoNothing machine.now.world }
    ensures sound { IsSoundMachine machine.now }
{
    if machine.halted().is_some() {
        return false;
    }
    if machine.current().is_some() {
        return true;
    }
    is_any_runnable(machine)
}

// Whether the process of this pid lives, and is in the kernel call sleep.
#[tactic(auto, using(crate::proofs::Waits::sleep_told))]
fn is_in_sleep(machine: &Machine, pid: Pid) -> bool
    ensures { result ≡ false → ¬ WaitsForTicks machine.now.world pid }
{
    match machine.process(pid) {
        Some(
            ProcessState::Live {
                call: Some(call),
                ..
            },
        ) => call.number == SLEEP,
        _ => false,
    }
}

// Whether the process in a slot is in the kernel call sleep.
fn is_slot_in_sleep(machine: &Machine, slot: usize) -> bool
    requires { IsSoundMachine machine.now }
    ensures { result ≡ false → (p : ℕ) → HasSlot machine.now.world.turns p slot → ¬ WaitsForTicks machine.now.world p }
{
    match machine.pid_in(slot) {
        Some(pid) => is_in_sleep(machine, pid),
        None => false,
    }
}

// Whether a process waits for the clock.
#[tactic(auto, using(crate::proofs::Waits::sleep_there))]
fn is_any_in_sleep(machine: &Machine) -> bool
    requires { IsSoundMachine machine.now }
    ensures { result ≡ false → (p : ℕ) → ¬ WaitsForTicks machine.now.world p }
{
    for slot in 0..NPROC {
        if is_slot_in_sleep(machine, slot) {
            return true;
        }
    }
    false
}

/// Whether anything happens without a key: a process runs or may, or one waits for the clock.
pub fn goes_on_without_keys(machine: &Machine) -> bool
    ensures { result ≡ false → NothingHappens machine.now.world }
{
    if may_run(machine) {
        return true;
    }
    is_any_in_sleep(machine)
}
