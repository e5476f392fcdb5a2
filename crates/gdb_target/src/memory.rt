//! Registers and memory, as GDB asks for them.
ghost use Rattle.std.specs.Prelude.{◌≡◌, ◌++◌, IfOk, OnOk};
ghost use Rattle.gdb_target.specs.Seen.{held, word_bytes, bytes_below, AreTheBytes};

use rv64i_core::Regs;
use std::alloc::{AllocError, Global};
use xk_base::{Pid, Reg};
use xv_machine::Machine;

/// How many registers GDB knows: x0 to x31, and the pc.
const REGISTERS: u64 = 33;

/// The number that the pc has among them.
const PC: u64 = 32;

/// The most bytes that are told at once.
const MEMORY_MOST: u64 = 1024;

/// What the register of this number holds; `None` where there is no such register.
pub(crate) fn register(regs: &Regs, number: u64) -> Option<u64>
    ensures { result ≡ held regs.now number }
{
    if number == PC {
        return Some(regs.pc());
    }
    if number < PC {
        return Some(regs.read(Reg::new(number as u8)));
    }
    None
}

/// Adds the bytes of the register of this number, if there is one.
fn push_register(bytes: &mut Vec<u8>, regs: &Regs, number: u64) -> Result<(), AllocError>
    ensures { OnOk result (bytes.new.items ≡ bytes.old.items ++ word_bytes (held regs.now number)) }
{
    match register(regs, number) {
        Some(value) => bytes.extend_from_slice(value.to_le_bytes().as_slice()),
        None => Ok(()),
    }
}

/// The bytes of all registers, in the order of their numbers: eight each, the lowest first.
///
/// # Errors
///
/// [`AllocError`] if the host has too little memory.
#[tactic(auto, using(crate::proofs::Below::below_next))]
pub(crate) fn register_bytes(alloc: Global, regs: &Regs) -> Result<Vec<u8>, AllocError>
    ensures { IfOk result (λ bytes. bytes.items ≡ bytes_below regs.now 33) }
{
    let mut bytes = Vec::new(alloc);
    for number in 0..REGISTERS {
        push_register(&mut bytes, regs, number)?;
    }
    Ok(bytes)
}

/// The bytes of a process's memory from an address on: so many, 1,024 at most, or fewer up to the first that isn't
/// there.
///
/// # Errors
///
/// [`AllocError`] if the host has too little memory.
pub(crate) fn memory_bytes(
    alloc: Global,
    machine: &Machine,
    pid: Pid,
    address: u64,
    length: u64,
) -> Result<Vec<u8>, AllocError>
    ensures { IfOk result (λ bytes. AreTheBytes machine.now.world.state pid address length bytes.items) }
{
    let mut bytes = Vec::new(alloc);
    for place in 0..length.min(MEMORY_MOST) {
        match machine.peek(pid, address.wrapping_add(place)) {
            Some(byte) => bytes.push(byte)?,
            None => return Ok(bytes),
        }
    }
    Ok(bytes)
}
