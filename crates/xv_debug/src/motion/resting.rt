//! Whether anybody may run, and whether anybody waits for the clock.
ghost use Rattle.std.specs.Prelude.{◌≡◌, ℕ, IfSome, IfNone, true, false};
ghost use Rattle.kernel_spec.specs.waking.Turns.{HasSlot};
ghost use Rattle.xv_machine.specs.Sound.{IsSoundMachine};
ghost use Rattle.xv_debug.specs.motion.Resting.{AwaitsTick, NobodyAwaitsTick, RestsBy, SomebodyMayGoOn};

use crate::motion::journey::Stop;
use xk_base::Pid;
use xk_base::limits::NPROC;
use xv_machine::Machine;
use xv_report::{Wait, waits_for};
use xv_session::is_any_runnable;

/// Why a Run would do nothing: the machine has halted, or all processes sleep. `None` where a Run would be a step or
/// a turn.
pub(crate) fn rest_of(machine: &Machine) -> Option<Stop>
    ensures rests { IfSome result (λ stop. RestsBy stop machine.now.world) }
    ensures goes { IfNone result (SomebodyMayGoOn machine.now.world) }
{
    if machine.current().is_some() {
        return None;
    }
    if machine.halted().is_some() {
        return Some(Stop::Halted);
    }
    if is_any_runnable(machine) {
        return None;
    }
    Some(Stop::Asleep)
}

/// Whether a process sleeps up to a tick.
fn awaits_tick(machine: &Machine, pid: Pid) -> bool
    ensures some { result ≡ true → AwaitsTick machine.now.world pid }
    ensures none { result ≡ false → ¬ AwaitsTick machine.now.world pid }
{
    match waits_for(machine, pid) {
        Some(Wait::Until { .. }) => true,
        _ => false,
    }
}

/// Whether the process in a slot sleeps up to a tick.
fn slot_awaits_tick(machine: &Machine, slot: usize) -> bool
    requires { IsSoundMachine machine.now }
    ensures some { result ≡ true → (p : ℕ) × AwaitsTick machine.now.world p }
    ensures none { result ≡ false → (p : ℕ) → HasSlot machine.now.world.turns p slot → ¬ AwaitsTick machine.now.world p }
{
    match machine.pid_in(slot) {
        Some(pid) => awaits_tick(machine, pid),
        None => false,
    }
}

/// Whether a process sleeps up to a tick.
#[tactic(auto, using(crate::proofs::Clocked::awaited_there))]
pub(crate) fn is_tick_awaited(machine: &Machine) -> bool
    ensures some { result ≡ true → (p : ℕ) × AwaitsTick machine.now.world p }
    ensures none { result ≡ false → NobodyAwaitsTick machine.now.world }
{
    // This call says that the machine is sound, so that each process has a slot.
    let _current = machine.current();
    for slot in 0..NPROC {
        if slot_awaits_tick(machine, slot) {
            return true;
        }
    }
    false
}
