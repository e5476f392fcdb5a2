//! The texts of a process's memory that a call names.
ghost use Rattle.std.specs.Prelude.{◌≡◌, ◌+◌, ◌<◌, ◌≤◌, ℕ, List, length, map, is_some, IfNone, IfSome, Some, None, option_copied, option_map};
ghost use Rattle.std.specs.List.{range_with_len};
ghost use Rattle.xk_base.specs.declared.limits.TheConstants.{ADDRESS_END, ARG_BYTES, MAXARG};
ghost use Rattle.kernel_spec.specs.rows.Buffers.{no_slashes};
ghost use Rattle.exec_core.specs.ArgTexts.{terminated};
ghost use Rattle.kernel_spec.specs.views.Programs.{program_named};
ghost use Rattle.kernel_spec.specs.views.State.{named_file};
ghost use Rattle.kernel_spec.specs.views.Words.{or_zero};
ghost use Rattle.kcall_core.specs.Observers as observers;
ghost use Rattle.call_reasons.specs.Shown.{facts_in};
ghost use Rattle.call_reasons.specs.Texts as meant;

use crate::shown::reaches;
use arrayvec::ArrayVec;
use byteorder::{ByteOrder, LittleEndian};
use exec_core::ArgList;
use xk_base::limits::{ARG_BYTES, MAXARG};
use xk_base::{Access, Pid, Program};
use xv_machine::Machine;

/// Bytes of a pointer.
const POINTER_BYTES: usize = 8;

// The byte at an address of a live process; 0 if no page is there.
fn byte(machine: &Machine, pid: Pid, address: u64) -> u8
    ensures { result ≡ or_zero (observers.byte_at machine.now.world.state pid address) }
{
    machine.peek(pid, address).unwrap_or(0)
}

// The byte at an address, if the process may read it.
fn byte_at(machine: &Machine, pid: Pid, address: u64) -> Option<u8>
    ensures value { result ≡ meant.byte_at (facts_in machine.now.world.state pid) address }
    ensures low { IfSome result (λ byte. address < ADDRESS_END) }
{
    if !reaches(machine, pid, Access::Load, address, 1) {
        return None;
    }
    Some(byte(machine, pid, address))
}

/// The text at an address, without its zero byte, which is among the first `limit` bytes, 4096 at most; `None` if a byte up
/// to that may not be read.
pub(crate) fn text_at(
    machine: &Machine,
    pid: Pid,
    limit: usize,
    address: u64,
) -> Option<ArrayVec<u8, ARG_BYTES>>
    requires { limit ≤ ARG_BYTES }
    ensures found { IfSome result (λ text. meant.text_at (facts_in machine.now.world.state pid) limit address ≡ Some text.items) }
    ensures none { IfNone result (meant.text_at (facts_in machine.now.world.state pid) limit address ≡ None) }
{
    let mut text: ArrayVec<u8, ARG_BYTES> = ArrayVec::new();
    for done in 0..limit {
        let at = address + done as u64;
        let Some(byte) = byte_at(machine, pid, at) else {
            return None;
        };
        if byte == 0 {
            return Some(text);
        }
        text.push(byte);
    }
    None
}

// The eight bytes from an address on.
fn pointer_bytes(machine: &Machine, pid: Pid, address: u64) -> ArrayVec<u8, POINTER_BYTES>
    requires { address + 8 ≤ ADDRESS_END }
    ensures { result.items ≡ map (facts_in machine.now.world.state pid).byte (range_with_len address 8) }
{
    let mut bytes: ArrayVec<u8, POINTER_BYTES> = ArrayVec::new();
    for place in 0..POINTER_BYTES {
        bytes.push(byte(machine, pid, address + place as u64));
    }
    bytes
}

// The pointer at an address, if the process may read it.
fn pointer_at(machine: &Machine, pid: Pid, address: u64) -> Option<u64>
    ensures value { result ≡ meant.pointer_at (facts_in machine.now.world.state pid) address }
    ensures low { IfSome result (λ pointer. address + 8 ≤ ADDRESS_END) }
{
    if !reaches(machine, pid, Access::Load, address, 8) {
        return None;
    }
    let bytes = pointer_bytes(machine, pid, address);
    Some(LittleEndian::read_u64(bytes.as_slice()))
}

// Whether a text that an argument may be stands at an address.
fn has_text(machine: &Machine, pid: Pid, address: u64) -> bool
    ensures { result ≡ is_some (meant.text_at (facts_in machine.now.world.state pid) ARG_BYTES address) }
{
    text_at(machine, pid, ARG_BYTES, address).is_some()
}

// Whether a pointer 0 stands at an address.
fn is_null_at(machine: &Machine, pid: Pid, address: u64) -> bool
    ensures { result ≡ meant.has_texts (facts_in machine.now.world.state pid) 0 ARG_BYTES address }
{
    match pointer_at(machine, pid, address) {
        Some(pointer) => pointer == 0,
        None => false,
    }
}

/// Whether a list of argument texts stands at an address.
pub(crate) fn has_texts(machine: &Machine, pid: Pid, address: u64) -> bool
    ensures { result ≡ meant.has_texts (facts_in machine.now.world.state pid) MAXARG ARG_BYTES address }
{
    for done in 0..MAXARG {
        let at = address + 8 * done as u64;
        let Some(pointer) = pointer_at(machine, pid, at) else {
            return false;
        };
        if pointer == 0 {
            return true;
        }
        if !has_text(machine, pid, pointer) {
            return false;
        }
    }
    let last = address + 8 * MAXARG as u64;
    is_null_at(machine, pid, last)
}

/// The argument texts at an address. `None` if no list of texts stands there, or if they are too long together.
pub(crate) fn args_at(machine: &Machine, pid: Pid, address: u64) -> Option<ArgList>
    ensures found { IfSome result (λ texts. meant.texts_at (facts_in machine.now.world.state pid) MAXARG ARG_BYTES address ≡ Some texts) }
    ensures none { IfNone result
        ((texts : List (List ℕ))
        → meant.texts_at (facts_in machine.now.world.state pid) MAXARG ARG_BYTES address ≡ Some texts
        → ARG_BYTES < length (terminated texts)) }
{
    let mut texts = ArgList::new();
    for done in 0..MAXARG {
        let at = address + 8 * done as u64;
        let Some(pointer) = pointer_at(machine, pid, at) else {
            return None;
        };
        if pointer == 0 {
            return Some(texts);
        }
        let Some(text) = text_at(machine, pid, ARG_BYTES, pointer) else {
            return None;
        };
        if texts.push(text.as_slice()).is_err() {
            return None;
        }
    }
    let last = address + 8 * MAXARG as u64;
    if !is_null_at(machine, pid, last) {
        return None;
    }
    Some(texts)
}

/// A path without its leading slashes.
pub(crate) fn name_in(path: &[u8]) -> &[u8]
    ensures { result.now ≡ no_slashes path.now }
{
    let Some(first) = path.iter().position(|byte| *byte != b'/') else {
        return &[];
    };
    &path[first..]
}

/// Whether a name is the console's.
pub(crate) fn is_console(name: &[u8]) -> bool
    ensures { result ≡ meant.is_console name.now }
{
    name == b"console".as_slice()
}

/// The program of a machine that has a name.
pub(crate) fn program_named<'a>(machine: &'a Machine, name: &[u8]) -> Option<&'a Program>
    ensures { option_map named_file (option_copied result) ≡ program_named name.now machine.now.world.state.programs }
{
    machine
        .programs()
        .iter()
        .find(|program| program.name.as_slice() == name)
}

/// Whether a program of a machine has a name.
pub(crate) fn is_program(machine: &Machine, name: &[u8]) -> bool
    ensures { result ≡ is_some (program_named name.now machine.now.world.state.programs) }
{
    machine
        .programs()
        .iter()
        .any(|program| program.name.as_slice() == name)
}
