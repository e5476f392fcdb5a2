//! Reads all units of `.debug_info` (DWARF 5, section 7.5.1).
ghost use Rattle.std.specs.Prelude.{◌≡◌, [], IfOk, codes};
ghost use Rattle.elf_symbols.specs.Sections.{section_bytes};

use crate::abbreviations::{Abbreviations, abbreviations_at};
use crate::entries::add_entries;
use crate::entry::{InfoUnit, Tables};
use crate::fault::InfoError;
use crate::sections::{Sections, sections_of};
use crate::units::unit_header;
use dwarf::{Unit, units};
use std::alloc::Global;

/// All tables of abbreviations that are read have together no more than so many times the bytes of their section.
const TIMES: usize = 4;

/// Reads the abbreviations of a unit, if they aren't those that were read last. `left`: how many bytes may be read.
fn take_abbreviations(
    alloc: Global,
    section: &[u8],
    unit: &InfoUnit,
    tables: &mut Tables,
    kept: &mut Option<Abbreviations>,
    left: &mut usize,
) -> Result<(), InfoError> {
    if let Some(last) = kept {
        if last.at == unit.abbreviations {
            return Ok(());
        }
    }
    let fresh = abbreviations_at(
        alloc,
        section,
        unit.abbreviations,
        &mut tables.specifications,
    )?;
    let count = fresh.end.saturating_sub(fresh.at);
    if count > *left {
        return Err(InfoError::Abbreviations(unit.at));
    }
    *left -= count;
    *kept = Some(fresh);
    Ok(())
}

/// Adds a unit and its entries; nothing if its header isn't one that is read.
fn add_unit(
    alloc: Global,
    sections: &Sections,
    unit: &Unit,
    tables: &mut Tables,
    kept: &mut Option<Abbreviations>,
    left: &mut usize,
) -> Result<(), InfoError> {
    let Some(bytes) = sections.info.get(..unit.end) else {
        return Ok(());
    };
    let Some(header) = unit_header(bytes, unit)? else {
        return Ok(());
    };
    let unit = InfoUnit {
        root: tables.entries.len(),
        ..header
    };
    take_abbreviations(alloc, sections.abbreviations, &unit, tables, kept, left)?;
    if let Some(abbreviations) = kept {
        add_entries(bytes, tables, abbreviations, &unit)?;
    }
    tables.units.push(unit)?;
    Ok(())
}

/// Reads the tables of a program's file: an ELF-64 file, as `NAME.debug`. A file that has none gives empty ones.
///
/// It takes memory for each entry, and for each attribute of the abbreviations. Units of other versions than 4 and 5,
/// and of other kinds than `DW_UT_compile` and `DW_UT_partial`, are passed over.
///
/// # Errors
///
/// [`InfoError`] with the first fault, from left to right.
#[tactic(auto, unfolding(dwarf::specs::Units::units_from))]
pub fn read_tables(alloc: Global, file: &[u8]) -> Result<Tables, InfoError>
    ensures { section_bytes file.now (codes ".debug_info") ≡ [] → IfOk result (λ tables. tables.entries.items ≡ []) }
{
    let sections = sections_of(file);
    let found = units(alloc, sections.info)?;
    let mut tables = Tables {
        specifications: Vec::new(alloc),
        units: Vec::new(alloc),
        entries: Vec::new(alloc),
    };
    let mut kept = None;
    let mut left = sections.abbreviations.len().saturating_mul(TIMES);
    for unit in found.as_slice() {
        add_unit(alloc, &sections, unit, &mut tables, &mut kept, &mut left)?;
    }
    Ok(tables)
}
