//! Memory as numbers of some bytes each, and a number by itself.
ghost use Rattle.std.specs.Prelude.{◌≡◌, ◌≤◌, ◌<◌, ◌/◌, OnOk};
ghost use Rattle.debug_words.specs.Ranges.{bytes_of};
ghost use Rattle.debug_views.specs.NumberText.{first_numbers, number_behind, number_shown, number_text};
ghost use Rattle.debug_views.specs.NumberText.{numbers_head, numbers_shown, numbers_text, row_head, signed_text, value_text, word_behind};
ghost use Rattle.debug_views.specs.Focus.{name_in};
ghost use Rattle.debug_views.specs.Written.{Appends};

use crate::focus::{lives, program_name, show_none};
use crate::memory::byte_behind;
use debug_words::Size;
use debug_words::texts::{Grouped, Hexadecimal, Many, Named};
use std::alloc::AllocError;
use xk_base::Pid;
use xv_machine::Machine;
use xv_session::Session;

/// The most numbers.
const NUMBERS_MOST: u32 = 256;

/// How many bytes a number has.
fn bytes_of(size: Size) -> u32
    ensures is { result ≡ bytes_of size }
    ensures few { result ≤ 8 }
{
    match size {
        Size::Byte => 1,
        Size::Half => 2,
        Size::Word => 4,
        Size::Giant => 8,
    }
}

/// The two bytes so far behind an address, as a number.
fn half_behind(machine: &Machine, pid: Pid, address: u64, place: u32) -> Option<u64>
    requires { place ≤ 4096 }
    ensures { result ≡ number_behind Size.Half machine.now.world.state pid address place }
{
    let first = u64::from(byte_behind(machine, pid, address, place)?);
    let second = u64::from(byte_behind(machine, pid, address, place + 1)?);
    Some(first + 256 * second)
}

/// The four bytes so far behind an address, as a number.
fn word_behind(machine: &Machine, pid: Pid, address: u64, place: u32) -> Option<u32>
    requires { place ≤ 4100 }
    ensures { result ≡ word_behind machine.now.world.state pid address place }
{
    let first = u32::from(byte_behind(machine, pid, address, place)?);
    let second = u32::from(byte_behind(machine, pid, address, place + 1)?);
    let third = u32::from(byte_behind(machine, pid, address, place + 2)?);
    let fourth = u32::from(byte_behind(machine, pid, address, place + 3)?);
    Some(first + 256 * (second + 256 * (third + 256 * fourth)))
}

/// The eight bytes so far behind an address, as a number.
fn giant_behind(machine: &Machine, pid: Pid, address: u64, place: u32) -> Option<u64>
    requires { place ≤ 4096 }
    ensures { result ≡ number_behind Size.Giant machine.now.world.state pid address place }
{
    let low = u64::from(word_behind(machine, pid, address, place)?);
    let high = u64::from(word_behind(machine, pid, address, place + 4)?);
    Some(low + (1 << 32) * high)
}

/// The number of a size so far behind an address; `None` if one of its bytes isn't there.
fn number_behind(machine: &Machine, pid: Pid, address: u64, size: Size, place: u32) -> Option<u64>
    requires { place ≤ 4096 }
    ensures { result ≡ number_behind size machine.now.world.state pid address place }
{
    match size {
        Size::Byte => Some(u64::from(byte_behind(machine, pid, address, place)?)),
        Size::Half => half_behind(machine, pid, address, place),
        Size::Word => Some(u64::from(word_behind(machine, pid, address, place)?)),
        Size::Giant => giant_behind(machine, pid, address, place),
    }
}

/// Writes a number of a size, or what stands for one that isn't there.
fn show_number(number: Option<u64>, size: Size, answer: &mut String) -> Result<(), AllocError>
    ensures { OnOk result (Appends answer.old answer.new (number_shown size number)) }
{
    let Some(number) = number else {
        return answer.push_str("  --");
    };
    match size {
        Size::Byte => write!(answer, "  0x{number:02x}"),
        Size::Half => write!(answer, "  0x{number:04x}"),
        Size::Word => write!(answer, "  0x{number:08x}"),
        Size::Giant => write!(answer, "  0x{number:016x}"),
    }
}

/// How many numbers a row has.
fn row_count(size: Size) -> u32
    ensures is { result ≡ 16 / bytes_of size }
    ensures some { 0 < result }
{
    match size {
        Size::Byte => 16,
        Size::Half => 8,
        Size::Word => 4,
        Size::Giant => 2,
    }
}

/// Writes the address of a row, if one begins at a place.
fn show_row_head(
    address: u64,
    size: Size,
    place: u32,
    answer: &mut String,
) -> Result<(), AllocError>
    requires { place < 256 }
    ensures { OnOk result (Appends answer.old answer.new (row_head size address place)) }
{
    if place % row_count(size) != 0 {
        return Ok(());
    }
    let row = address.wrapping_add(u64::from(bytes_of(size) * place));
    write!(answer, "\n0x{row:010x}:")
}

/// Writes the number at a place, and before it the address of its row, if it begins one.
fn show_place(
    machine: &Machine,
    pid: Pid,
    address: u64,
    size: Size,
    place: u32,
    answer: &mut String,
) -> Result<(), AllocError>
    requires { place < 256 }
    ensures { OnOk result
        (Appends answer.old answer.new (number_text size machine.now.world.state pid address place)) }
{
    show_row_head(address, size, place, answer)?;
    let number = number_behind(machine, pid, address, size, bytes_of(size) * place);
    show_number(number, size, answer)
}

/// Writes the first numbers, so many.
fn show_first(
    machine: &Machine,
    pid: Pid,
    address: u64,
    size: Size,
    count: u32,
    answer: &mut String,
) -> Result<(), AllocError>
    requires { count ≤ 256 }
    ensures { OnOk result
        (Appends answer.old answer.new (first_numbers size machine.now.world.state pid address count)) }
{
    for place in 0..count {
        show_place(machine, pid, address, size, place, answer)?;
    }
    Ok(())
}

/// Writes how many numbers of how many bytes these are, and whose.
fn show_head(
    session: &Session,
    pid: Pid,
    size: Size,
    count: u32,
    answer: &mut String,
) -> Result<(), AllocError>
    ensures { OnOk result (Appends answer.old answer.new (numbers_head size pid count (name_in session.now pid))) }
{
    let number = pid.number();
    let name = Named(program_name(session, pid));
    let numbers = Many(u64::from(count), "number");
    let bytes = Many(u64::from(bytes_of(size)), "byte");
    write!(answer, "{numbers} of {bytes} of process {number}{name}")
}

/// Writes so many numbers of a live process's memory.
fn show_known(
    session: &Session,
    pid: Pid,
    address: u64,
    size: Size,
    count: u32,
    answer: &mut String,
) -> Result<(), AllocError>
    ensures { OnOk result (Appends answer.old answer.new (numbers_text session.now size pid address count)) }
{
    show_head(session, pid, size, count, answer)?;
    show_first(
        session.machine(),
        pid,
        address,
        size,
        count.min(NUMBERS_MOST),
        answer,
    )?;
    writeln!(answer)
}

/// Writes so many numbers of a process's memory from an address on, 256 at most, in rows of 16 bytes.
///
/// # Errors
///
/// The host has too little memory.
pub fn show_numbers(
    session: &Session,
    pid: Pid,
    address: u64,
    size: Size,
    count: u32,
    answer: &mut String,
) -> Result<(), AllocError>
    ensures { OnOk result (Appends answer.old answer.new (numbers_shown session.now size pid address count)) }
{
    if lives(session.machine(), pid) {
        show_known(session, pid, address, size, count, answer)
    } else {
        show_none(pid, answer)
    }
}

/// Writes what a number is if its first bit tells a sign.
fn show_signed(value: u64, answer: &mut String) -> Result<(), AllocError>
    ensures { OnOk result (Appends answer.old answer.new (signed_text value)) }
{
    if value < 1 << 63 {
        return answer.push_str("\n");
    }
    let below = Grouped(u64::MAX - value + 1);
    writeln!(answer, ", or -{below}")
}

/// Writes a number, hexadecimal and decimal.
///
/// # Errors
///
/// The host has too little memory.
pub fn show_value(value: u64, answer: &mut String) -> Result<(), AllocError>
    ensures { OnOk result (Appends answer.old answer.new (value_text value)) }
{
    let hexadecimal = Hexadecimal(value);
    let decimal = Grouped(value);
    write!(answer, "{hexadecimal} = {decimal}")?;
    show_signed(value, answer)
}
