//! Who could wake a sleeper.
ghost use Rattle.std.specs.Prelude.{◌+◌, ◌<◌, ◌≤◌};
ghost use Rattle.arrayvec.specs.ArrayVec.{array_vec_len};
ghost use Rattle.xk_base.specs.declared.limits.TheConstants.{NPROC};
ghost use Rattle.xv_report.specs.Wakers.{AreWakers, AreWakersBelow};

use crate::waits::{Wait, could_wake};
use arrayvec::ArrayVec;
use xk_base::Pid;
use xk_base::limits::NPROC;
use xv_machine::Machine;

/// Adds the process in a slot, if it could wake the sleeper.
fn add_waker(
    machine: &Machine,
    sleeper: Pid,
    wait: &Wait,
    slot: usize,
    found: &mut ArrayVec<u32, NPROC>,
)
    requires within { slot < NPROC }
    requires room { array_vec_len found.old ≤ slot }
    requires before { AreWakersBelow slot machine.now.world sleeper wait.now found.old.items }
    ensures fewer { array_vec_len found.new ≤ slot + 1 }
    ensures found { AreWakersBelow (slot + 1) machine.now.world sleeper wait.now found.new.items }
{
    let Some(pid) = machine.pid_in(slot) else {
        return;
    };
    if could_wake(machine, sleeper, wait, pid) {
        found.push(pid.number());
    }
}

/// The processes in the slots that could wake the sleeper.
fn wakers_in_slots(machine: &Machine, sleeper: Pid, wait: &Wait) -> ArrayVec<u32, NPROC>
    ensures { AreWakersBelow NPROC machine.now.world sleeper wait.now result.items }
{
    let mut found = ArrayVec::new();
    for slot in 0..NPROC {
        add_waker(machine, sleeper, wait, slot, &mut found);
    }
    found
}

/// The numbers of the processes that, by what they do, could bring what a sleeper waits for, rising: each for which
/// [`could_wake`] says so.
pub fn wakers(machine: &Machine, sleeper: Pid, wait: &Wait) -> ArrayVec<u32, NPROC>
    ensures { AreWakers machine.now.world sleeper wait.now result.items }
{
    let mut found = wakers_in_slots(machine, sleeper, wait);
    found.as_mut_slice().sort_unstable();
    found
}
