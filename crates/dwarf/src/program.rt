//! Line number programs (DWARF 5, section 6.2).
ghost use Rattle.std.specs.Prelude.{◌≡◌, ◌++◌, OnOk, option_to_list};
ghost use Rattle.dwarf.specs.Made.{IsMade};
ghost use Rattle.dwarf.specs.Rows as meant;

use crate::fault::{Fault, LineError};
use crate::line_header::LineHeader;
use crate::registers::step_at;
use crate::row::Row;
use std::alloc::{AllocError, Global};

/// The rows of a unit of `.debug_line`, in the order in which its program makes them.
///
/// It takes memory for the rows, of which there are no more than bytes in the section.
///
/// # Errors
///
/// [`LineError::Damaged`] with the first fault of the program: [`Fault::Length`] if the unit ends after the section, or
/// an extended opcode after the unit, [`Fault::Short`] if the unit ends inside an instruction, [`Fault::TooLarge`],
/// [`Fault::LineRange`], [`Fault::Address`] and [`Fault::Line`] if an instruction means nothing. [`LineError::Memory`] if
/// the host has too little memory.
pub fn rows(alloc: Global, section: &[u8], header: &LineHeader) -> Result<Vec<Row>, LineError>
    ensures { IsMade result (meant.rows section.now header.now) }
{
    if section.len() < header.end {
        return Err(LineError::Damaged(Fault::Length(header.program)));
    }
    run(alloc, &section[..header.end], header)
}

/// Adds a row to the end of a list, if there is one.
fn add(rows: &mut Vec<Row>, row: Option<Row>) -> Result<(), AllocError>
    ensures { OnOk result (rows.new.items ≡ rows.old.items ++ option_to_list row) }
{
    let Some(row) = row else {
        return Ok(());
    };
    rows.push(row)?;
    Ok(())
}

/// The rows of a program that ends where the bytes end.
fn run(alloc: Global, bytes: &[u8], header: &LineHeader) -> Result<Vec<Row>, LineError>
    ensures { IsMade result (meant.program bytes.now header.now) }
{
    let mut rows = Vec::new(alloc);
    let mut registers = Row::first(header.is_statement);
    let mut at = header.program;
    for _ in 0..bytes.len() {
        if at >= bytes.len() {
            return Ok(rows);
        }
        let step = step_at(header, bytes, at, registers)?;
        add(&mut rows, step.row)?;
        registers = step.registers;
        at = step.next;
    }
    Ok(rows)
}
