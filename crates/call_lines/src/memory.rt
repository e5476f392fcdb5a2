//! What the kernel reads of a process's memory from an address on.
ghost use Rattle.std.specs.Prelude.{◌≡◌, ◌++◌, [], OnOk, IfOk};
ghost use Rattle.xk_base.specs.declared.access.Access.TheVariants.{Load};
ghost use Rattle.sv39_core.specs.Sv39.{permits};
ghost use Rattle.call_lines.specs.Memory.{address_at, address_of, bytes_from, int_at, int_of, is_below, read_at};
ghost use Rattle.call_lines.specs.Memory.{text_from};

use byteorder::{ByteOrder, LittleEndian};
use call_reasons::c_int;
use std::alloc::{AllocError, Global};
use xk_base::limits::ADDRESS_END;
use xk_base::{Perm, Pid, Vpn};
use xv_machine::Machine;

// Whether user code may read a page with these rights.
fn may_read(perm: Perm) -> bool
    ensures { result ≡ permits Load perm }
{
    let rights = perm.rights();
    rights.user && rights.read
}

// Whether a page begins below the size of a process's memory.
fn is_below(page: Vpn, size: Option<u64>) -> bool
    ensures { result ≡ is_below page size }
{
    match size {
        Some(size) => page.address() < size,
        None => false,
    }
}

/// The byte that the kernel reads at an address for a live process: the one that is there, if user code may read it; 0 in
/// an absent page. `None` elsewhere, and for any other pid.
pub(crate) fn read_at(machine: &Machine, pid: Pid, address: u64) -> Option<u8>
    ensures { result ≡ read_at machine.now.world.state pid address }
{
    if address >= ADDRESS_END {
        return None;
    }
    let page = Vpn::of_address(address);
    match machine.perm(pid, page) {
        Some(perm) => {
            if !may_read(perm) {
                return None;
            }
            machine.peek(pid, address)
        }
        None => {
            if !is_below(page, machine.size(pid)) {
                return None;
            }
            Some(0)
        }
    }
}

// Adds the bytes from an address on to others, as far as they are read, so many at most.
fn push_bytes(
    machine: &Machine,
    pid: Pid,
    address: u64,
    most: u32,
    bytes: &mut Vec<u8>,
) -> Result<(), AllocError>
    ensures { OnOk result (bytes.new.items ≡ bytes.old.items ++ bytes_from machine.now.world.state pid address most) }
{
    if most == 0 {
        return Ok(());
    }
    let Some(byte) = read_at(machine, pid, address) else {
        return Ok(());
    };
    let Ok(()) = bytes.push(byte) else {
        return Err(AllocError);
    };
    match address.checked_add(1) {
        Some(next) => push_bytes(machine, pid, next, most - 1, bytes),
        None => Ok(()),
    }
}

/// The bytes from an address on, as far as they are read, so many at most.
pub(crate) fn bytes_from(
    alloc: Global,
    machine: &Machine,
    pid: Pid,
    address: u64,
    most: u32,
) -> Result<Vec<u8>, AllocError>
    ensures { IfOk result (λ bytes. bytes.items ≡ bytes_from machine.now.world.state pid address most) }
{
    let mut bytes = Vec::new(alloc);
    push_bytes(machine, pid, address, most, &mut bytes)?;
    Ok(bytes)
}

// Adds the bytes of a text to others, up to the zero that ends it, so many at most.
fn push_text(
    machine: &Machine,
    pid: Pid,
    address: u64,
    most: u32,
    bytes: &mut Vec<u8>,
) -> Result<(), AllocError>
    ensures { OnOk result (bytes.new.items ≡ bytes.old.items ++ text_from machine.now.world.state pid address most) }
{
    if most == 0 {
        return Ok(());
    }
    let Some(byte) = read_at(machine, pid, address) else {
        return Ok(());
    };
    if byte == 0 {
        return Ok(());
    }
    let Ok(()) = bytes.push(byte) else {
        return Err(AllocError);
    };
    match address.checked_add(1) {
        Some(next) => push_text(machine, pid, next, most - 1, bytes),
        None => Ok(()),
    }
}

/// The bytes of a text, up to the zero that ends it, as far as they are read, so many at most.
pub(crate) fn text_from(
    alloc: Global,
    machine: &Machine,
    pid: Pid,
    address: u64,
    most: u32,
) -> Result<Vec<u8>, AllocError>
    ensures { IfOk result (λ bytes. bytes.items ≡ text_from machine.now.world.state pid address most) }
{
    let mut bytes = Vec::new(alloc);
    push_text(machine, pid, address, most, &mut bytes)?;
    Ok(bytes)
}

// A C int of four bytes.
fn int_of(bytes: &[u8]) -> Option<i32>
    ensures { result ≡ int_of bytes.now }
{
    if bytes.len() != 4 {
        return None;
    }
    Some(c_int(u64::from(LittleEndian::read_u32(bytes))))
}

/// The C int at an address; `None` if it isn't there.
pub(crate) fn int_at(
    alloc: Global,
    machine: &Machine,
    pid: Pid,
    address: u64,
) -> Result<Option<i32>, AllocError>
    ensures { IfOk result (λ int. int ≡ int_at machine.now.world.state pid address) }
{
    let bytes = bytes_from(alloc, machine, pid, address, 4)?;
    Ok(int_of(bytes.as_slice()))
}

// An address of eight bytes.
fn address_of(bytes: &[u8]) -> Option<u64>
    ensures { result ≡ address_of bytes.now }
{
    if bytes.len() != 8 {
        return None;
    }
    Some(LittleEndian::read_u64(bytes))
}

/// The address that stands at an address; `None` if none is there.
pub(crate) fn address_at(
    alloc: Global,
    machine: &Machine,
    pid: Pid,
    address: u64,
) -> Result<Option<u64>, AllocError>
    ensures { IfOk result (λ found. found ≡ address_at machine.now.world.state pid address) }
{
    let bytes = bytes_from(alloc, machine, pid, address, 8)?;
    Ok(address_of(bytes.as_slice()))
}
