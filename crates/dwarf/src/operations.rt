//! Reads the instructions of a line number program (DWARF 5, section 6.2.5).
ghost use Rattle.std.specs.Prelude.{◌≡◌, ◌≤◌, ◌<◌, ◌+◌, ◌-◌, ◌^◌, length, IfOk};
ghost use Rattle.dwarf.specs.Operations as meant;

use crate::bytes::{byte_at, double_at, half_at, signed_at, skip_numbers, unsigned_at, word_at};
use crate::fault::Fault;
use crate::line_header::LineHeader;
use crate::operation::{Decoded, Operation};

/// By how much a special opcode goes on.
#[derive(Clone, Copy)]
pub(crate) struct Advance {
    advance: u64,
    lines: i64,
}

/// By how much a special opcode goes on: by how many of the shortest instructions, and by how many lines (section
/// 6.2.5.1).
#[tactic(auto, unfolding(crate::specs::Operations::special))]
fn special(header: &LineHeader, opcode: u8, at: usize) -> Result<Advance, Fault>
    requires { header.now.opcode_base ≤ opcode }
    ensures { result ≡ meant.special header.now opcode at }
{
    if header.line_range == 0 {
        return Err(Fault::LineRange(at));
    }
    let adjusted = opcode - header.opcode_base;
    Ok(Advance {
        advance: u64::from(adjusted / header.line_range),
        lines: i64::from(header.line_base) + i64::from(adjusted % header.line_range),
    })
}

/// What a standard opcode does that no number follows, if it is one of those.
fn plain(opcode: u8) -> Option<Operation>
    ensures { result ≡ meant.plain opcode }
{
    match opcode {
        1 => Some(Operation::Copy),
        6 => Some(Operation::NegateStatement),
        7 => Some(Operation::BeginBlock),
        10 => Some(Operation::EndPrologue),
        11 => Some(Operation::BeginEpilogue),
        _ => None,
    }
}

/// What one of the standard opcodes 2, 4, 5 and 12 does with the number that follows it.
fn with_number(opcode: u8, number: u64) -> Operation
    ensures { result ≡ meant.with_number opcode number }
{
    match opcode {
        2 => Operation::AdvanceAddress(number),
        4 => Operation::SetFile(number),
        5 => Operation::SetColumn(number),
        _ => Operation::SetIsa(number),
    }
}

/// The instruction of a standard opcode that isn't known: so many numbers as the header tells follow it.
#[tactic(auto, unfolding(crate::specs::Operations::unknown))]
fn unknown(header: &LineHeader, bytes: &[u8], next: usize, opcode: u8) -> Result<Decoded, Fault>
    requires { 0 < opcode }
    ensures { result ≡ meant.unknown header.now bytes.now next opcode }
{
    if header.lengths > bytes.len() {
        return Err(Fault::Short(header.lengths));
    }
    let count = byte_at(bytes, header.lengths + usize::from(opcode) - 1)?;
    let next = skip_numbers(bytes, next, u16::from(count))?;
    Ok(Decoded {
        operation: Operation::Unknown,
        next,
    })
}

/// The instruction of a standard opcode that other than one unsigned number follows, or that isn't known.
#[tactic(auto, unfolding(crate::specs::Operations::other))]
fn other(
    header: &LineHeader,
    bytes: &[u8],
    next: usize,
    opcode: u8,
    at: usize,
) -> Result<Decoded, Fault>
    requires opcode { 0 < opcode }
    requires next { next ≤ length bytes.now }
    ensures { result ≡ meant.other header.now bytes.now next opcode at }
{
    if opcode == 3 {
        let (lines, next) = signed_at(bytes, next)?;
        let operation = Operation::AdvanceLine(lines);
        return Ok(Decoded { operation, next });
    }
    if opcode == 8 {
        let last = special(header, u8::MAX, at)?;
        let operation = Operation::AdvanceAddress(last.advance);
        return Ok(Decoded { operation, next });
    }
    if opcode == 9 {
        let count = half_at(bytes, next)?;
        let operation = Operation::AdvanceBytes(count);
        let next = next + 2;
        return Ok(Decoded { operation, next });
    }
    unknown(header, bytes, next, opcode)
}

/// The instruction of a standard opcode (section 6.2.5.2).
#[tactic(auto, unfolding(crate::specs::Operations::standard))]
fn standard(
    header: &LineHeader,
    bytes: &[u8],
    next: usize,
    opcode: u8,
    at: usize,
) -> Result<Decoded, Fault>
    requires opcode { 0 < opcode }
    requires next { next ≤ length bytes.now }
    ensures { result ≡ meant.standard header.now bytes.now next opcode at }
{
    if let Some(operation) = plain(opcode) {
        return Ok(Decoded { operation, next });
    }
    if opcode == 2 || opcode == 4 || opcode == 5 || opcode == 12 {
        let (number, next) = unsigned_at(bytes, next)?;
        let operation = with_number(opcode, number);
        return Ok(Decoded { operation, next });
    }
    other(header, bytes, next, opcode, at)
}

/// What `DW_LNE_set_address` does, whose address takes the rest of the instruction's bytes.
#[tactic(auto, unfolding(crate::specs::Operations::set_address))]
fn set_address(bytes: &[u8], operand: usize, count: usize, at: usize) -> Result<Operation, Fault>
    ensures { result ≡ meant.set_address bytes.now operand count at }
{
    if count == 8 {
        let address = double_at(bytes, operand)?;
        return Ok(Operation::SetAddress(address));
    }
    if count == 4 {
        let address = word_at(bytes, operand)?;
        return Ok(Operation::SetAddress(u64::from(address)));
    }
    Err(Fault::Address(at))
}

/// What an extended opcode does, whose operands take so many bytes.
#[tactic(auto, unfolding(crate::specs::Operations::extended_of))]
fn extended_of(
    bytes: &[u8],
    opcode: u8,
    operand: usize,
    count: usize,
    at: usize,
) -> Result<Operation, Fault>
    ensures { result ≡ meant.extended_of bytes.now opcode operand count at }
{
    if opcode == 1 {
        return Ok(Operation::EndSequence);
    }
    if opcode == 2 {
        return set_address(bytes, operand, count, at);
    }
    if opcode == 4 {
        let (discriminator, _) = unsigned_at(bytes, operand)?;
        return Ok(Operation::SetDiscriminator(discriminator));
    }
    Ok(Operation::Unknown)
}

/// The instruction of an extended opcode: a length, the opcode, and what belongs to it (section 6.2.5.3).
#[tactic(auto, unfolding(crate::specs::Operations::extended))]
fn extended(bytes: &[u8], next: usize, at: usize) -> Result<Decoded, Fault>
    ensures { result ≡ meant.extended bytes.now next at }
{
    let (length, from) = unsigned_at(bytes, next)?;
    if length == 0 || length > (bytes.len() - from) as u64 {
        return Err(Fault::Length(at));
    }
    let count = length as usize;
    let next = from + count;
    let operation = extended_of(&bytes[..next], bytes[from], from + 1, count - 1, at)?;
    Ok(Decoded { operation, next })
}

/// The instruction at a place of a line number program.
#[tactic(auto, unfolding(crate::specs::Operations::operation))]
pub(crate) fn operation_at(header: &LineHeader, bytes: &[u8], at: usize) -> Result<Decoded, Fault>
    ensures { result ≡ meant.operation header.now bytes.now at }
{
    let opcode = byte_at(bytes, at)?;
    if header.opcode_base <= opcode {
        let Advance { advance, lines } = special(header, opcode, at)?;
        let operation = Operation::Special { advance, lines };
        let next = at + 1;
        return Ok(Decoded { operation, next });
    }
    if opcode == 0 {
        return extended(bytes, at + 1, at);
    }
    standard(header, bytes, at + 1, opcode, at)
}
