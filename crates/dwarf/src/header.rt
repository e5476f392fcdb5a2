//! Reads the header of a line number program (DWARF 5, section 6.2.4, and the same section of DWARF 2 to 4).
ghost use Rattle.std.specs.Prelude.{◌≡◌, ◌≤◌, ◌<◌, ◌+◌, ◌^◌, length, IfOk};
ghost use Rattle.dwarf.specs.Headers as meant;

use crate::bytes::offset_at;
use crate::fault::Fault;
use crate::line_header::LineHeader;
use crate::unit::Unit;

/// Where the parts of a header stand.
#[derive(Clone, Copy)]
pub(crate) struct Parts {
    fields: usize,
    program: usize,
}

/// Where the fields of a header begin, after its length, and where its program begins.
#[tactic(auto, unfolding(crate::specs::Headers::find_parts))]
fn find_parts(unit: &Unit, bytes: &[u8]) -> Result<Parts, Fault>
    requires end { length bytes.now ≡ unit.now.end }
    requires body { unit.now.body ≤ unit.now.end }
    ensures value { result ≡ meant.find_parts unit.now bytes.now }
    ensures within { IfOk result (λ p. (p.fields ≤ p.program) × (p.program ≤ unit.now.end)) }
{
    let place = if unit.version == 5 {
        unit.body + 2
    } else {
        unit.body
    };
    let length = offset_at(bytes, place, unit.is_wide)?;
    let fields = place + if unit.is_wide { 8 } else { 4 };
    if length > (bytes.len() - fields) as u64 {
        return Err(Fault::Header(unit.at));
    }
    Ok(Parts {
        fields,
        program: fields + length as usize,
    })
}

/// The number of a byte in two's complement (`sbyte`).
fn signed_byte(byte: u8) -> i8
    ensures { result ≡ meant.signed_byte byte }
{
    byte.cast_signed()
}

/// Reads the header of a unit of `.debug_line`, but for its tables of directories and files.
///
/// `unit` is one of those that [`units`](crate::units) found in the section.
///
/// # Errors
///
/// The first of these that holds: [`Fault::Version`] if the version is neither 2, 3, 4 nor 5; [`Fault::Length`] if the
/// unit ends after the section; [`Fault::Short`] if it ends before its header's length does; [`Fault::Header`] if the
/// header ends after the unit, or before its own fields do; [`Fault::Operations`] if an instruction has several
/// operations (versions 4 and 5 tell); [`Fault::OpcodeBase`] if special opcodes begin at 0.
#[tactic(auto, unfolding(crate::specs::Headers::header, crate::specs::Headers::header_of))]
pub fn read_header(section: &[u8], unit: &Unit) -> Result<LineHeader, Fault>
    ensures { result ≡ meant.header section.now unit.now }
{
    if unit.version < 2 || unit.version > 5 {
        return Err(Fault::Version(unit.at));
    }
    let Some(bytes) = section.get(..unit.end) else {
        return Err(Fault::Length(unit.at));
    };
    if unit.body > unit.end {
        return Err(Fault::Length(unit.at));
    }
    let parts = find_parts(unit, bytes)?;
    header_of(unit, parts, bytes)
}

/// Reads the fields of a header that begin at a place.
#[tactic(auto, unfolding(crate::specs::Headers::header_of))]
fn header_of(unit: &Unit, parts: Parts, bytes: &[u8]) -> Result<LineHeader, Fault>
    requires ordered { parts.fields ≤ parts.program }
    requires within { parts.program ≤ length bytes.now }
    ensures { result ≡ meant.header_of unit.now parts bytes.now }
{
    let operations = if unit.version >= 4 { 1 } else { 0 };
    let fields = parts.fields + operations;
    if parts.program < fields + 5 {
        return Err(Fault::Header(unit.at));
    }
    if operations == 1 && bytes[fields] != 1 {
        return Err(Fault::Operations(unit.at));
    }
    let opcode_base = bytes[fields + 4];
    if opcode_base == 0 {
        return Err(Fault::OpcodeBase(unit.at));
    }
    let tables = fields + 4 + usize::from(opcode_base);
    if parts.program < tables {
        return Err(Fault::Header(unit.at));
    }
    Ok(LineHeader {
        version: unit.version,
        is_wide: unit.is_wide,
        instruction_bytes: bytes[parts.fields],
        is_statement: bytes[fields + 1] != 0,
        line_base: signed_byte(bytes[fields + 2]),
        line_range: bytes[fields + 3],
        opcode_base,
        lengths: fields + 5,
        tables,
        program: parts.program,
        end: unit.end,
    })
}
