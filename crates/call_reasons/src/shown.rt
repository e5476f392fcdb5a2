//! What a machine shows of a process that tests of calls ask.
ghost use Rattle.std.specs.Prelude.{◌≡◌, ◌<◌, ◌≤◌, ◌+◌, true, false, if◌then◌else◌, option_map, IfNone, IfSome};
ghost use Rattle.xk_base.specs.Words.{count_below};
ghost use Rattle.xk_base.specs.declared.limits.TheConstants.{ADDRESS_END, NOFILE, VPN_END};
ghost use Rattle.sv39_core.specs.Sv39.{permits};
ghost use Rattle.kernel_spec.specs.views.State.{live};
ghost use Rattle.kernel_spec.specs.views.Words.{or_zero};
ghost use Rattle.kcall_core.specs.Observers.{descriptor_of, size_of};
ghost use Rattle.xv_machine.specs.Sound.{IsSoundMachine};
ghost use Rattle.call_reasons.specs.Shown as meant;

use crate::opened::Opened;
use xk_base::limits::{ADDRESS_END, NOFILE, NPROC, VPN_END};
use xk_base::{Access, Fd, Perm, Pid, Vpn};
use xv_machine::{Descriptor, Machine, PipeCounts, Target};

// Whether it is a program's file.
fn is_program(target: &Target) -> bool
    ensures { result ≡ meant.is_program target.now }
{
    match *target {
        Target::Program { .. } => true,
        _ => false,
    }
}

// Whether a pipe that has these counts has no reader.
fn counts_no_reader(counts: Option<PipeCounts>) -> bool
    ensures { result ≡ meant.counts_no_reader counts }
{
    match counts {
        Some(counts) => counts.readers == 0,
        None => true,
    }
}

// Whether it is a pipe from which nobody can read.
fn is_on_unread(machine: &Machine, target: &Target) -> bool
    ensures { result ≡ meant.is_on_unread machine.now.world.state target.now }
{
    match *target {
        Target::Pipe { frame, .. } => counts_no_reader(machine.pipe_counts(frame)),
        _ => false,
    }
}

// What is asked of a descriptor.
fn shown_as(machine: &Machine, descriptor: &Descriptor) -> Opened
    ensures { result ≡ meant.shown_as machine.now.world.state descriptor.now }
{
    Opened {
        reads: descriptor.open_file.read,
        writes: descriptor.open_file.write,
        is_file: is_program(&descriptor.open_file.target),
        is_unread: is_on_unread(machine, &descriptor.open_file.target),
    }
}

// What is asked of a descriptor of a live process, if it is in use.
fn opened_at(machine: &Machine, pid: Pid, fd: Fd) -> Option<Opened>
    ensures { result ≡ option_map (meant.shown_as machine.now.world.state) (descriptor_of machine.now.world.state pid fd) }
{
    match machine.descriptor(pid, fd) {
        Some(descriptor) => Some(shown_as(machine, &descriptor)),
        None => None,
    }
}

/// The descriptor of a number of a live process, if it is in use.
pub(crate) fn opened(machine: &Machine, pid: Pid, number: i32) -> Option<Opened>
    ensures { result ≡ meant.opened_in machine.now.world.state pid number }
{
    if number < 0 || number as usize >= NOFILE {
        return None;
    }
    opened_at(machine, pid, Fd::new(number as u8))
}

// Whether a descriptor of a live process is free.
fn is_free(machine: &Machine, pid: Pid, number: usize) -> bool
    requires { number < NOFILE }
    ensures { result ≡ meant.is_free_in machine.now.world.state pid number }
{
    machine.descriptor(pid, Fd::new(number as u8)).is_none()
}

// 1 if it is so.
fn one_if(is_so: bool) -> u32
    ensures value { result ≡ if is_so then 1 else 0 }
    ensures few { result ≤ 1 }
{
    if is_so { 1 } else { 0 }
}

/// How many descriptors of a live process are free.
pub(crate) fn free_descriptors(machine: &Machine, pid: Pid) -> u32
    ensures { result ≡ count_below (meant.is_free_in machine.now.world.state pid) NOFILE }
{
    let mut free = 0;
    for number in 0..NOFILE {
        free += one_if(is_free(machine, pid, number));
    }
    free
}

// Whether user code may make an access to a page with these rights.
fn permits(perm: Perm, access: Access) -> bool
    ensures { result ≡ permits access perm }
{
    let rights = perm.rights();
    match access {
        Access::Fetch => rights.user && rights.execute,
        Access::Load => rights.user && rights.read,
        Access::Store => rights.user && rights.write,
    }
}

// Whether a page begins below the size of a memory.
fn is_below(page: Vpn, size: Option<u64>) -> bool
    ensures { result ≡ meant.is_below page size }
{
    match size {
        Some(size) => page.address() < size,
        None => false,
    }
}

// Whether a live process may access a page, now or once it is there.
fn reaches_page(machine: &Machine, pid: Pid, access: Access, page: Vpn) -> bool
    ensures { result ≡ meant.page_in access (live machine.now.world.state pid) page }
{
    match machine.perm(pid, page) {
        Some(perm) => permits(perm, access),
        None => is_below(page, machine.size(pid)),
    }
}

// Whether a live process may access these pages, up to the last.
fn reaches_pages(machine: &Machine, pid: Pid, access: Access, first: u32, last: u32) -> bool
    requires { last < VPN_END }
    ensures { result ≡ meant.pages_in access (live machine.now.world.state pid) first last }
{
    for number in first..last + 1 {
        if !reaches_page(machine, pid, access, Vpn::new(number)) {
            return false;
        }
    }
    true
}

// The address after so many bytes from an address on; `None` if it is beyond the last one.
fn end_of(address: u64, count: u64) -> Option<u64>
    ensures some { IfSome result (λ end. (end ≡ address + count) × (end ≤ ADDRESS_END)) }
    ensures none { IfNone result (ADDRESS_END < address + count) }
{
    let end = address.checked_add(count)?;
    if end > ADDRESS_END {
        return None;
    }
    Some(end)
}

/// Whether a live process may access all of so many bytes from an address on, now or once their absent pages are there.
pub(crate) fn reaches(machine: &Machine, pid: Pid, access: Access, address: u64, count: u64) -> bool
    ensures { result ≡ meant.reach_in access (live machine.now.world.state pid) address count }
{
    if count == 0 {
        return machine.size(pid).is_some();
    }
    let Some(end) = end_of(address, count) else {
        return false;
    };
    let first = Vpn::of_address(address);
    let last = Vpn::of_address(end - 1);
    reaches_pages(machine, pid, access, first.number(), last.number())
}

/// How many bytes the memory of a live process has; 0 for any other pid.
pub(crate) fn size(machine: &Machine, pid: Pid) -> u64
    ensures { result ≡ or_zero (size_of machine.now.world.state pid) }
{
    machine.size(pid).unwrap_or(0)
}

// Whether the process in a slot is a child of a live process.
fn is_child_in(machine: &Machine, pid: Pid, slot: usize) -> bool
    requires { IsSoundMachine machine.now }
    ensures found { result ≡ true → meant.has_child_in machine.now.world.state pid ≡ true }
    ensures none { result ≡ false → meant.HasNoChildIn machine.now.world pid slot }
{
    match machine.pid_in(slot) {
        Some(child) => machine.child_state(pid, child).is_some(),
        None => false,
    }
}

/// Whether a live process has a child.
pub(crate) fn has_child(machine: &Machine, pid: Pid) -> bool
    ensures { result ≡ meant.has_child_in machine.now.world.state pid }
{
    // (It says that the machine is sound.)
    let _running = machine.current();
    for slot in 0..NPROC {
        if is_child_in(machine, pid, slot) {
            return true;
        }
    }
    false
}

/// Whether a process has this pid.
pub(crate) fn is_pid(machine: &Machine, number: i32) -> bool
    ensures { result ≡ meant.is_pid_in machine.now.world.state number }
{
    if number < 1 {
        return false;
    }
    machine.process(Pid::new(number as u32)).is_some()
}
