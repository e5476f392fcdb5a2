//! Processes, as GDB's threads: a thread's number is its pid.
ghost use Rattle.std.specs.Prelude.{◌≡◌, ℕ, ◌+◌, Some, is_some, IsSome, IfOk, IfSome, IfNone, OnOk};
ghost use Rattle.kernel_spec.specs.views.State.{live};
ghost use Rattle.kernel_spec.specs.waking.Turns.{HasSlot};
ghost use Rattle.xv_machine.specs.Sound.{IsSoundMachine};
ghost use Rattle.gdb_target.specs.Seen.{AreLive, AreAllLive, AreLiveBelow, IsNoThread};

use std::alloc::{AllocError, Global};
use xk_base::Pid;
use xk_base::limits::{NPROC, PID_MAX};
use xv_machine::Machine;

/// Whether a process of this pid lives.
pub(crate) fn is_live(machine: &Machine, pid: Pid) -> bool
    ensures { result ≡ is_some (live machine.now.world.state pid) }
{
    machine.registers(pid).is_some()
}

/// The live process of a thread's number; `None` where no live process has it.
pub(crate) fn live_process(machine: &Machine, thread: u64) -> Option<Pid>
    ensures number { IfSome result (λ pid. pid ≡ thread) }
    ensures lives { IfSome result (λ pid. IsSome (live machine.now.world.state pid)) }
    ensures none { IfNone result (IsNoThread machine.now.world.state thread) }
{
    if thread == 0 || thread > u64::from(PID_MAX) {
        return None;
    }
    let pid = Pid::new(thread as u32);
    if is_live(machine, pid) {
        return Some(pid);
    }
    None
}

/// The process in a slot, if it lives.
fn live_in(machine: &Machine, slot: usize) -> Option<Pid>
    requires { IsSoundMachine machine.now }
    ensures lives { IfSome result (λ pid. IsSome (live machine.now.world.state pid)) }
    ensures none { IfNone result ((p : ℕ) → HasSlot machine.now.world.turns p slot → ¬ IsSome (live machine.now.world.state p)) }
{
    let Some(pid) = machine.pid_in(slot) else {
        return None;
    };
    if is_live(machine, pid) {
        return Some(pid);
    }
    None
}

/// This process, if it lives, or else one that does; `None` if none does.
pub(crate) fn live_or_other(machine: &Machine, pid: Pid) -> Option<Pid>
    ensures lives { IfSome result (λ found. IsSome (live machine.now.world.state found)) }
    ensures first { IsSome (live machine.now.world.state pid) → result ≡ Some pid }
    ensures none { IfNone result ((p : ℕ) → ¬ IsSome (live machine.now.world.state p)) }
{
    if is_live(machine, pid) {
        return Some(pid);
    }
    // This call says that the machine is sound, so that each process has a slot.
    let _current = machine.current();
    for slot in 0..NPROC {
        if let Some(other) = live_in(machine, slot) {
            return Some(other);
        }
    }
    None
}

/// Adds the process in a slot to the live processes in the slots below, if it lives.
fn push_live(list: &mut Vec<u64>, machine: &Machine, slot: usize) -> Result<(), AllocError>
    requires { IsSoundMachine machine.now }
    ensures { OnOk result (AreLiveBelow machine.now.world slot list.old.items → AreLiveBelow machine.now.world (slot + 1) list.new.items) }
{
    let Some(pid) = machine.pid_in(slot) else {
        return Ok(());
    };
    if !is_live(machine, pid) {
        return Ok(());
    }
    list.push(u64::from(pid.number()))?;
    Ok(())
}

/// The pids of the live processes, in the order of their slots.
///
/// # Errors
///
/// [`AllocError`] if the host has too little memory.
pub(crate) fn processes(alloc: Global, machine: &Machine) -> Result<Vec<u64>, AllocError>
    ensures live { IfOk result (λ list. AreLive machine.now.world.state list.items) }
    ensures all { IfOk result (λ list. AreAllLive machine.now.world.state list.items) }
{
    // This call says that the machine is sound, so that each process has a slot.
    let _current = machine.current();
    let mut list = Vec::new(alloc);
    for slot in 0..NPROC {
        push_live(&mut list, machine, slot)?;
    }
    Ok(list)
}
