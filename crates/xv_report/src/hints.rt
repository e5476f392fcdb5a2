//! What may be wrong if a load or a store finds a page that it may not use.
ghost use Rattle.std.specs.Prelude.{◌≡◌};
ghost use Rattle.xv_report.specs.Hints as meant;
ghost use Rattle.kcall_core.specs.Observers.{rights_at};

use rv64i_core::Regs;
use xk_base::limits::{ADDRESS_END, PAGE_BYTES};
use xk_base::{Cause, Perm, Pid, Reg, Vpn};
use xv_machine::Machine;
use xv_session::{Fault, NextStep, next_step};

/// The register sp (RISC-V ABIs, "Integer Register Convention").
pub(crate) const STACK_POINTER: u8 = 2;

/// What may be wrong, beside the calls that led to a fault.
#[derive(Clone, Copy)]
pub enum Hint {
    /// The stack has grown into the guard page right below it, or into the program's text.
    FullStack,
    /// A pointer has passed the end of the program's memory, up to the guard page below the stack.
    PastTheEnd,
    /// The address lies in the first page, as that of a null pointer does. Whether the page may be read.
    NullPointer { readable: bool },
}

/// Whether user code may not use a page that is there.
fn is_closed(perm: Option<Perm>) -> bool
    ensures { result ≡ meant.is_closed perm }
{
    match perm {
        Some(perm) => !perm.rights().user,
        None => false,
    }
}

/// Whether user code may read a page.
fn may_read(perm: Option<Perm>) -> bool
    ensures { result ≡ meant.may_read perm }
{
    match perm {
        Some(perm) => perm.rights().read && perm.rights().user,
        None => false,
    }
}

/// Whether user code may read a page, and not write it.
fn is_for_reading(perm: Option<Perm>) -> bool
    ensures { result ≡ meant.is_for_reading perm }
{
    match perm {
        Some(perm) => perm.rights().user && perm.rights().read && !perm.rights().write,
        None => false,
    }
}

/// What the page of an address allows; `None` if there is no page.
fn page_rights(machine: &Machine, pid: Pid, address: u64) -> Option<Perm>
    ensures { result ≡ meant.page_rights machine.now.world.state pid address }
{
    if address < ADDRESS_END {
        machine.perm(pid, Vpn::of_address(address))
    } else {
        None
    }
}

/// From where the guard page was reached.
fn guard_hint(sp: u64, address: u64) -> Hint
    ensures { result ≡ meant.guard_hint sp address }
{
    if sp <= address {
        Hint::FullStack
    } else {
        Hint::PastTheEnd
    }
}

/// What may be wrong with an address, with this stack pointer.
fn hint_by(machine: &Machine, pid: Pid, sp: u64, address: u64) -> Option<Hint>
    ensures { let s = machine.now.world.state in result ≡ meant.hint_by (rights_at s pid 0) (meant.page_rights s pid address) sp address }
{
    if is_for_reading(page_rights(machine, pid, address)) && sp <= address {
        return Some(Hint::FullStack);
    }
    if address < PAGE_BYTES {
        return Some(Hint::NullPointer {
            readable: may_read(machine.perm(pid, Vpn::new(0))),
        });
    }
    if is_closed(page_rights(machine, pid, address)) {
        return Some(guard_hint(sp, address));
    }
    None
}

/// The stack pointer.
fn stack_pointer(regs: &Regs) -> u64
    ensures { result ≡ meant.stack_pointer regs.now }
{
    regs.read(Reg::new(STACK_POINTER))
}

/// What may be wrong if a step finds no page to load from or to store to.
fn hint_of_step(machine: &Machine, step: &NextStep) -> Option<Hint>
    ensures { result ≡ meant.hint_of_step machine.now.world.state step.now }
{
    let address = step.address?;
    hint_by(machine, step.pid, stack_pointer(&step.regs), address)
}

/// The same of the step that is next, of the process that runs.
pub(crate) fn hint_now(machine: &Machine) -> Option<Hint>
    ensures { result ≡ meant.hint_now machine.now.world.state machine.now.world.turns.current }
{
    let step = next_step(machine, machine.current()?)?;
    hint_of_step(machine, &step)
}

/// The hint for a fault of this cause, if this is the one of its step.
pub(crate) fn hint_if(cause: Cause, hint: Option<Hint>) -> Option<Hint>
    ensures { result ≡ meant.hint_if cause hint }
{
    match cause {
        Cause::LoadPageFault | Cause::StorePageFault => hint,
        _ => None,
    }
}

/// What may be wrong at a fault, by the machine as it was before that step: a full stack, a pointer that has passed the
/// end of the program's memory, or a null pointer; `None` if none of them shows.
pub fn hint_of(machine: &Machine, fault: &Fault) -> Option<Hint>
    ensures { result ≡ meant.hint_of machine.now.world.state fault.now }
{
    hint_if(fault.cause, hint_of_step(machine, &fault.step))
}
