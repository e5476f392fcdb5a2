//! Headers of units of `.debug_info` (DWARF 5, section 7.5.1, and the same section of version 4).
use crate::entry::InfoUnit;
use dwarf::{Fault, Unit, byte_at, offset_at};

/// Bytes of an address.
pub(crate) const ADDRESS_BYTES: u8 = 8;

/// `DW_UT_compile` and `DW_UT_partial`: the kinds of units that are read.
const READ_KINDS: [u8; 2] = [1, 3];

/// A unit of version 4: where its abbreviations begin, and the bytes of an address.
fn old_header(bytes: &[u8], unit: &Unit) -> Result<Option<InfoUnit>, Fault> {
    let place = offset_at(bytes, unit.body, unit.is_wide)?;
    let count = unit.body + if unit.is_wide { 8 } else { 4 };
    if byte_at(bytes, count)? != ADDRESS_BYTES {
        return Ok(None);
    }
    Ok(Some(InfoUnit {
        at: unit.at,
        is_wide: unit.is_wide,
        version: unit.version,
        first: count + 1,
        end: unit.end,
        abbreviations: place as usize,
        root: 0,
    }))
}

/// A unit of version 5: its kind, the bytes of an address, and where its abbreviations begin.
fn new_header(bytes: &[u8], unit: &Unit) -> Result<Option<InfoUnit>, Fault> {
    let kind = byte_at(bytes, unit.body)?;
    let count = byte_at(bytes, unit.body + 1)?;
    if !READ_KINDS.contains(&kind) || count != ADDRESS_BYTES {
        return Ok(None);
    }
    let place = offset_at(bytes, unit.body + 2, unit.is_wide)?;
    let first = unit.body + 2 + if unit.is_wide { 8 } else { 4 };
    Ok(Some(InfoUnit {
        at: unit.at,
        is_wide: unit.is_wide,
        version: unit.version,
        first,
        end: unit.end,
        abbreviations: place as usize,
        root: 0,
    }))
}

/// What the header of a unit tells; `None` if it is of another version than 4 and 5, of a kind that isn't read, or of a
/// machine whose addresses have other than 8 bytes. `bytes` are those of the section up to the unit's end.
///
/// # Errors
///
/// [`Fault::Short`] if the unit ends before its header does.
pub(crate) fn unit_header(bytes: &[u8], unit: &Unit) -> Result<Option<InfoUnit>, Fault> {
    match unit.version {
        4 => old_header(bytes, unit),
        5 => new_header(bytes, unit),
        _ => Ok(None),
    }
}
