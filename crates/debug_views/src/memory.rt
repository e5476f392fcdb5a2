//! Bytes of a process's memory.
ghost use Rattle.std.specs.Prelude.{◌≡◌, ◌<◌, OnOk};
ghost use Rattle.debug_views.specs.Bytes.{byte_behind};
ghost use Rattle.debug_views.specs.MemoryText.{byte_in_line, character, characters_between, characters_in_line};
ghost use Rattle.debug_views.specs.MemoryText.{digits_in_line, digits_shown, gap_at, memory_line};
ghost use Rattle.debug_views.specs.MemoryText.{memory_lines, memory_shown, memory_text};
ghost use Rattle.debug_views.specs.Written.{Appends};

use crate::focus::{lives, program_name, show_none};
use debug_words::texts::Named;
use std::alloc::AllocError;
use xk_base::Pid;
use xv_machine::Machine;
use xv_session::Session;

/// The bytes in a line.
const LINE_BYTES: u32 = 16;

/// The most lines.
const LINES_MOST: u32 = 16;

/// The byte so far behind an address; `None` where it isn't there, and behind 2^64.
pub(crate) fn byte_behind(machine: &Machine, pid: Pid, address: u64, place: u32) -> Option<u8>
    ensures { result ≡ byte_behind machine.now.world.state pid address place }
{
    machine.peek(pid, address.checked_add(u64::from(place))?)
}

/// What stands before the byte at a place of a line.
fn gap_at(place: u32) -> &'static str
    ensures { result.now ≡ gap_at place }
{
    if place % 8 == 0 { "  " } else { " " }
}

/// Writes a byte in hexadecimal digits.
fn show_digits(byte: Option<u8>, answer: &mut String) -> Result<(), AllocError>
    ensures { OnOk result (Appends answer.old answer.new (digits_shown byte)) }
{
    match byte {
        Some(byte) => write!(answer, "{byte:02x}"),
        None => answer.push_str("--"),
    }
}

/// Writes the byte at a place of a line that has so many, in hexadecimal digits.
fn show_byte(
    machine: &Machine,
    pid: Pid,
    address: u64,
    count: u32,
    place: u32,
    answer: &mut String,
) -> Result<(), AllocError>
    ensures { OnOk result
        (Appends answer.old answer.new (byte_in_line machine.now.world.state pid address count place)) }
{
    answer.push_str(gap_at(place))?;
    if place >= count {
        return answer.push_str("  ");
    }
    show_digits(byte_behind(machine, pid, address, place), answer)
}

/// Writes the bytes of a line that has so many, in hexadecimal digits.
fn show_bytes(
    machine: &Machine,
    pid: Pid,
    address: u64,
    count: u32,
    answer: &mut String,
) -> Result<(), AllocError>
    ensures { OnOk result
        (Appends answer.old answer.new (digits_in_line machine.now.world.state pid address count 16)) }
{
    for place in 0..LINE_BYTES {
        show_byte(machine, pid, address, count, place, answer)?;
    }
    Ok(())
}

/// A byte as a character: a dot if it is no visible one, a blank where no byte is.
fn character(byte: Option<u8>) -> u8
    ensures character { result ≡ character byte }
    ensures ascii { result < 128 }
{
    let Some(byte) = byte else {
        return b' ';
    };
    if byte >= 32 && byte < 127 { byte } else { b'.' }
}

/// Writes the bytes of a line as characters, so many.
fn show_characters(
    machine: &Machine,
    pid: Pid,
    address: u64,
    count: u32,
    answer: &mut String,
) -> Result<(), AllocError>
    ensures { OnOk result
        (Appends answer.old answer.new (characters_in_line machine.now.world.state pid address count)) }
{
    for place in 0..count {
        let shown = character(byte_behind(machine, pid, address, place));
        answer.push(char::from(shown))?;
    }
    Ok(())
}

/// Writes the bytes of a line as characters between two strokes, so many.
fn show_between_strokes(
    machine: &Machine,
    pid: Pid,
    address: u64,
    count: u32,
    answer: &mut String,
) -> Result<(), AllocError>
    ensures { OnOk result
        (Appends answer.old answer.new (characters_between machine.now.world.state pid address count)) }
{
    answer.push_str("  |")?;
    show_characters(machine, pid, address, count, answer)?;
    answer.push_str("|\n")
}

/// Writes a line: the bytes from an address on, so many, which may be fewer than a line has room for.
fn show_line(
    machine: &Machine,
    pid: Pid,
    address: u64,
    count: u32,
    answer: &mut String,
) -> Result<(), AllocError>
    ensures { OnOk result (Appends answer.old answer.new (memory_line machine.now.world.state pid address count)) }
{
    write!(answer, "0x{address:010x} ")?;
    show_bytes(machine, pid, address, count, answer)?;
    show_between_strokes(machine, pid, address, count, answer)
}

/// Writes so many bytes from an address on, in so many lines at most; those behind 2^64 are left out.
fn show_lines(
    machine: &Machine,
    pid: Pid,
    lines: u32,
    address: u64,
    count: u32,
    answer: &mut String,
) -> Result<(), AllocError>
    ensures { OnOk result
        (Appends answer.old answer.new (memory_lines machine.now.world.state pid lines address count)) }
{
    if lines == 0 || count == 0 {
        return Ok(());
    }
    let here = count.min(LINE_BYTES);
    show_line(machine, pid, address, here, answer)?;
    match address.checked_add(u64::from(here)) {
        Some(next) => show_lines(machine, pid, lines - 1, next, count - here, answer),
        None => Ok(()),
    }
}

/// Writes so many bytes of a live process's memory from an address on.
fn show_known(
    session: &Session,
    pid: Pid,
    from: u64,
    count: u32,
    answer: &mut String,
) -> Result<(), AllocError>
    ensures { OnOk result (Appends answer.old answer.new (memory_text session.now pid from count)) }
{
    let number = pid.number();
    let name = Named(program_name(session, pid));
    writeln!(
        answer,
        "{count} bytes of process {number}{name}, in hexadecimal; -- isn't there"
    )?;
    show_lines(session.machine(), pid, LINES_MOST, from, count, answer)
}

/// Writes so many bytes of a process's memory from an address on, 256 at most; those behind 2^64 are left out.
///
/// # Errors
///
/// The host has too little memory.
pub fn show_memory(
    session: &Session,
    pid: Pid,
    from: u64,
    count: u32,
    answer: &mut String,
) -> Result<(), AllocError>
    ensures { OnOk result (Appends answer.old answer.new (memory_shown session.now pid from count)) }
{
    if lives(session.machine(), pid) {
        show_known(session, pid, from, count, answer)
    } else {
        show_none(pid, answer)
    }
}
