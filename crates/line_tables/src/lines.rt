//! The rows of `.debug_line` that tell of a program's instructions (DWARF 5, section 6.2).
ghost use Rattle.std.specs.Prelude.{◌≡◌, ◌++◌, ◌∷◌, [], OnOk, if◌then◌else◌};
ghost use Rattle.dwarf.specs.Made.{IsMade};
ghost use Rattle.line_tables.specs.Lines as meant;

use crate::fact::{Fact, Told};
use crate::source::Source;
use dwarf::{FileTable, LineError, Row, Unit, file_table, read_header, rows, units};
use std::alloc::{AllocError, Global};

/// The line that a row tells, if it has one, and its source has a name.
fn source_of(files: &FileTable, row: &Row) -> Option<Source>
    ensures { result ≡ meant.source_of files.now.version files.now.files.items row.now }
{
    if row.end_sequence || row.line == 0 {
        return None;
    }
    let entry = files.file(row.file)?;
    let file = entry.name?;
    Some(Source {
        file,
        line: row.line,
    })
}

/// What a row of a unit tells.
fn told_by(files: &FileTable, row: &Row) -> Told
    ensures { result ≡ meant.told_by files.now.version files.now.files.items row.now }
{
    let fact = match source_of(files, row) {
        Some(source) => Fact::Line(source),
        None => Fact::NoLine,
    };
    Told {
        address: row.address,
        is_end: row.end_sequence,
        fact,
    }
}

/// Whether a sequence tells of instructions of the program.
fn is_told(sequence: &[Told], is_first: bool) -> bool
    ensures { result ≡ meant.is_told is_first sequence.now }
{
    let Some(first) = sequence.first() else {
        return false;
    };
    let Some(last) = sequence.last() else {
        return false;
    };
    first.address < last.address && (first.address > 0 || is_first)
}

/// Adds the rows of a sequence to those of the others, if it tells of instructions of the program.
fn add_sequence(lines: &mut Vec<Told>, sequence: &[Told]) -> Result<(), AllocError>
    ensures { OnOk result (lines.new.items ≡ meant.with_sequence lines.old.items sequence.now) }
{
    if is_told(sequence, lines.is_empty()) {
        lines.extend_from_slice(sequence)?;
    }
    Ok(())
}

/// Adds a row to its sequence, and the sequence to the others if it ends there.
fn add_row(row: Told, sequence: &mut Vec<Told>, lines: &mut Vec<Told>) -> Result<(), AllocError>
    ensures sequence { OnOk result (sequence.new.items ≡ (if row.is_end then [] else sequence.old.items ++ row ∷ [])) }
    ensures lines { OnOk result (lines.new.items
        ≡ (if row.is_end then meant.with_sequence lines.old.items (sequence.old.items ++ row ∷ [])
        else lines.old.items)) }
{
    sequence.push(row)?;
    if row.is_end {
        add_sequence(lines, sequence.as_slice())?;
        sequence.clear();
    }
    Ok(())
}

/// Adds the sequences of a unit's rows.
fn add_rows(
    alloc: Global,
    files: &FileTable,
    rows: &[Row],
    lines: &mut Vec<Told>,
) -> Result<(), AllocError>
    ensures { OnOk result (lines.new.items
        ≡ meant.with_rows files.now.version files.now.files.items rows.now lines.old.items) }
{
    let mut sequence = Vec::new(alloc);
    for row in rows {
        add_row(told_by(files, row), &mut sequence, lines)?;
    }
    Ok(())
}

/// Adds the sequences of a unit.
#[tactic(auto, unfolding(crate::specs::Lines::with_unit))]
fn add_unit(
    alloc: Global,
    section: &[u8],
    unit: &Unit,
    lines: &mut Vec<Told>,
) -> Result<(), LineError>
    ensures { meant.IsWith result lines.new.items (meant.with_unit section.now unit.now lines.old.items) }
{
    let header = read_header(section, unit)?;
    let made = rows(alloc, section, &header)?;
    let files = file_table(alloc, section, &header)?;
    add_rows(alloc, &files, made.as_slice(), lines)?;
    Ok(())
}

/// The rows of `.debug_line` that tell of a program's instructions, in the order of the table.
///
/// # Errors
///
/// As the functions of `dwarf` that it calls, the first fault.
pub(crate) fn section_lines(alloc: Global, section: &[u8]) -> Result<Vec<Told>, LineError>
    ensures { IsMade result (meant.section_lines section.now) }
{
    let found = units(alloc, section)?;
    let mut lines = Vec::new(alloc);
    for unit in found.as_slice() {
        add_unit(alloc, section, unit, &mut lines)?;
    }
    Ok(lines)
}
