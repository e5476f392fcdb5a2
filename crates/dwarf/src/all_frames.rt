//! The frames of all functions of a section, and the rules that hold at an address (DWARF 5, section 6.4.1).
ghost use Rattle.std.specs.Prelude.{◌≡◌, IfOk, None, map, option_map};
ghost use Rattle.dwarf.specs.AllFrames as meant;
ghost use Rattle.dwarf.specs.FrameUnits.{frame_units};

use crate::fault::LineError;
use crate::frame::{FrameRow, FrameRules};
use crate::frame_entries::{FrameUnit, frame_units};
use crate::function_frames::{FrameTable, frame_rows};
use std::alloc::{AllocError, Global};

/// The entries of a section; none if their lengths don't fill it.
fn whole_units(alloc: Global, section: &[u8]) -> Result<Vec<FrameUnit>, AllocError>
    ensures { IfOk result (λ v. v.items ≡ meant.whole_units (frame_units section.now)) }
{
    match frame_units(alloc, section) {
        Ok(units) => Ok(units),
        Err(LineError::Damaged(_)) => Ok(Vec::new(alloc)),
        Err(LineError::Memory) => Err(AllocError),
    }
}

/// The frames of an entry; `None` if it is common to several functions, or damaged.
fn table_of(
    alloc: Global,
    section: &[u8],
    unit: &FrameUnit,
) -> Result<Option<FrameTable>, AllocError>
    ensures { IfOk result (λ t. option_map meant.frames_seen t ≡ meant.table_of section.now unit.now) }
{
    if unit.is_common {
        return Ok(None);
    }
    match frame_rows(alloc, section, unit) {
        Ok(table) => Ok(Some(table)),
        Err(LineError::Damaged(_)) => Ok(None),
        Err(LineError::Memory) => Err(AllocError),
    }
}

/// The frames of the functions of these entries, in their order.
fn tables_in(
    alloc: Global,
    section: &[u8],
    units: &[FrameUnit],
) -> Result<Vec<FrameTable>, AllocError>
    ensures { IfOk result (λ v. map meant.frames_seen v.items ≡ meant.tables_in section.now units.now) }
{
    let mut tables = Vec::new(alloc);
    for unit in units {
        if let Some(table) = table_of(alloc, section, unit)? {
            tables.push(table)?;
        }
    }
    Ok(tables)
}

/// The frames of all functions of a section `.debug_frame`, in its order.
///
/// A function whose entry is damaged has none, and a section whose entries don't fill it has none at all. It takes memory
/// for the rows of all functions.
///
/// # Errors
///
/// The host has too little memory.
pub fn frame_tables(alloc: Global, section: &[u8]) -> Result<Vec<FrameTable>, AllocError>
    ensures { IfOk result (λ v. map meant.frames_seen v.items ≡ meant.tables_of section.now) }
{
    let units = whole_units(alloc, section)?;
    tables_in(alloc, section, units.as_slice())
}

/// Whether an address lies in the function.
fn has(table: &FrameTable, address: u64) -> bool
    ensures { result ≡ meant.has address (meant.frames_seen table.now) }
{
    table.from <= address && address - table.from < table.size
}

/// The rules of the last of these rows that begins at the address or before it.
fn rules_in(rows: &[FrameRow], address: u64) -> Option<FrameRules>
    ensures { result ≡ meant.rules_from address None rows.now }
{
    let mut held = None;
    for row in rows {
        if row.address > address {
            return held;
        }
        held = Some(row.rules);
    }
    held
}

/// The rules that hold at an address, by the first of these functions that has it; `None` if none has it.
///
/// `tables` are those of a program, as [`frame_tables`] makes them. It takes no memory.
pub fn rules_at(tables: &[FrameTable], address: u64) -> Option<FrameRules>
    ensures { result ≡ meant.rules_at address (map meant.frames_seen tables.now) }
{
    for table in tables {
        if has(table, address) {
            return rules_in(table.rows.as_slice(), address);
        }
    }
    None
}
