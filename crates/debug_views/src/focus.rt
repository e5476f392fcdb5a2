//! Processes by their pids, and the programs that they run.
ghost use Rattle.std.specs.Prelude.{◌≡◌, ℕ, ◌≤◌, IfSome};
ghost use Rattle.std.specs.Prelude.{IfNone, OnOk, is_some, option_map};
ghost use Rattle.kernel_spec.specs.views.State.{named_file, live};
ghost use Rattle.kernel_spec.specs.waking.Turns.{HasSlot};
ghost use Rattle.xv_machine.specs.Sound.{IsSoundMachine};
ghost use Rattle.debug_views.specs.Focus.{IsLeastFrom, lesser, name_in, no_process, program_in};
ghost use Rattle.debug_views.specs.Written.{Appends};

use std::alloc::AllocError;
use xk_base::limits::NPROC;
use xk_base::{Pid, Program};
use xv_machine::{Machine, ProcessState};
use xv_session::Session;

/// Whether a process of this pid lives.
pub fn lives(machine: &Machine, pid: Pid) -> bool
    ensures { result ≡ is_some (live machine.now.world.state pid) }
{
    match machine.process(pid) {
        Some(ProcessState::Live { .. }) => true,
        _ => false,
    }
}

/// The pid of the process in a slot, if it isn't below this number.
fn pid_from(machine: &Machine, slot: usize, from: u32) -> Option<Pid>
    requires { IsSoundMachine machine.now }
    ensures some { IfSome result (λ pid. HasSlot machine.now.world.turns pid slot × (from ≤ pid)) }
    ensures none { IfNone result ((p : ℕ) → from ≤ p → ¬ HasSlot machine.now.world.turns p slot) }
{
    let pid = machine.pid_in(slot)?;
    if pid.number() < from {
        return None;
    }
    Some(pid)
}

/// The lesser of two pids.
fn lesser(least: Option<Pid>, found: Option<Pid>) -> Option<Pid>
    ensures { result ≡ lesser least found }
{
    let Some(pid) = found else {
        return least;
    };
    let Some(other) = least else {
        return found;
    };
    if other.number() <= pid.number() {
        least
    } else {
        found
    }
}

/// The least pid of a process, from this number on.
pub fn least_from(machine: &Machine, from: u32) -> Option<Pid>
    ensures { IsLeastFrom machine.now.world.state from result }
{
    // (It says that the machine is sound.)
    let _running = machine.current();
    let mut least: Option<Pid> = None;
    for slot in 0..NPROC {
        let found = pid_from(machine, slot, from);
        least = lesser(least, found);
    }
    least
}

/// The program that a live process runs; `None` for any other pid.
pub fn program_of(session: &Session, pid: Pid) -> Option<&Program>
    ensures { option_map (λ program. named_file program.now) result ≡ program_in session.now pid }
{
    let place = session.program_of(pid)?;
    session.machine().programs().get(place)
}

/// The name of the program that a live process runs.
pub fn program_name(session: &Session, pid: Pid) -> Option<&[u8]>
    ensures { option_map (λ name. name.now) result ≡ name_in session.now pid }
{
    let program = program_of(session, pid)?;
    Some(program.name.as_slice())
}

/// Writes that no live process has this pid.
pub(crate) fn show_none(pid: Pid, answer: &mut String) -> Result<(), AllocError>
    ensures { OnOk result (Appends answer.old answer.new (no_process pid)) }
{
    let number = pid.number();
    writeln!(
        answer,
        "no live process has the pid {number}; ps lists them"
    )
}
