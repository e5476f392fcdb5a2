//! The rows of `.debug_frame`: how calls lie on the stack (DWARF 5, section 6.4).
ghost use Rattle.std.specs.Prelude.{◌≡◌, OnOk};
ghost use Rattle.dwarf.specs.Made.{IsMade};
ghost use Rattle.line_tables.specs.Frames as meant;

use crate::fact::{Fact, Frame, FrameBase, Told};
use dwarf::{
    Base, FrameRow, FrameRules, FrameTable, FrameUnit, LineError, Rule, frame_rows, frame_units,
};
use std::alloc::{AllocError, Global};

/// So many bytes below the caller's part of the stack a register is kept; 0 if it is elsewhere, or that isn't told.
fn bytes_below(rule: Rule) -> u64
    ensures { result ≡ meant.bytes_below rule }
{
    match rule {
        Rule::AtOffset(offset) if offset < 0 => offset.unsigned_abs(),
        _ => 0,
    }
}

/// The register of this number, if frames are counted from it.
fn frame_base(register: u64) -> Option<FrameBase>
    ensures { result ≡ meant.frame_base register }
{
    match register {
        2 => Some(FrameBase::Sp),
        8 => Some(FrameBase::S0),
        _ => None,
    }
}

/// How a call lies on the stack, by the rules of a row, if they tell it.
fn frame_of(rules: FrameRules) -> Option<Frame>
    ensures { result ≡ meant.frame_of rules }
{
    let Base::Register { register, offset } = rules.base else {
        return None;
    };
    if offset < 0 {
        return None;
    }
    let base = frame_base(register)?;
    Some(Frame {
        base,
        size: offset as u64,
        ra: bytes_below(rules.ra),
        s0: bytes_below(rules.s0),
    })
}

/// What a row of a function's frames tells.
fn told_by(row: FrameRow) -> Told
    ensures { result ≡ meant.told_by row }
{
    let fact = match frame_of(row.rules) {
        Some(frame) => Fact::Framed(frame),
        None => Fact::NoFrame,
    };
    Told {
        address: row.address,
        is_end: false,
        fact,
    }
}

/// Adds what rows tell.
fn add_rows(rows: &[FrameRow], told: &mut Vec<Told>) -> Result<(), AllocError>
    ensures { OnOk result (told.new.items ≡ meant.with_rows rows.now told.old.items) }
{
    for row in rows {
        told.push(told_by(*row))?;
    }
    Ok(())
}

/// Adds what a function's frames tell, if it has instructions: after its last one nothing is known.
fn add_function(function: &FrameTable, told: &mut Vec<Told>) -> Result<(), AllocError>
    ensures { OnOk result (told.new.items
        ≡ meant.with_function function.now.from function.now.size function.now.rows.items told.old.items) }
{
    let Some(end) = function.from.checked_add(function.size) else {
        return Ok(());
    };
    if function.size == 0 {
        return Ok(());
    }
    add_rows(function.rows.as_slice(), told)?;
    told.push(Told {
        address: end,
        is_end: true,
        fact: Fact::NoFrame,
    })?;
    Ok(())
}

/// Adds what an entry tells: nothing if it is common to several functions, or if the function's frames aren't
/// understood.
#[tactic(auto, unfolding(crate::specs::Frames::with_unit))]
fn add_unit(
    alloc: Global,
    section: &[u8],
    unit: &FrameUnit,
    told: &mut Vec<Told>,
) -> Result<(), AllocError>
    ensures { OnOk result (told.new.items ≡ meant.with_unit section.now unit.now told.old.items) }
{
    if unit.is_common {
        return Ok(());
    }
    match frame_rows(alloc, section, unit) {
        Ok(function) => add_function(&function, told),
        Err(LineError::Damaged(_)) => Ok(()),
        Err(LineError::Memory) => Err(AllocError),
    }
}

/// What the rows of `.debug_frame` tell, in the order of the table. A function whose frames aren't understood tells
/// nothing.
///
/// # Errors
///
/// As [`frame_units`]: the first fault of the entries' lengths, or that the host has too little memory.
pub(crate) fn section_frames(alloc: Global, section: &[u8]) -> Result<Vec<Told>, LineError>
    ensures { IsMade result (meant.section_frames section.now) }
{
    let found = frame_units(alloc, section)?;
    let mut told = Vec::new(alloc);
    for unit in found.as_slice() {
        add_unit(alloc, section, unit, &mut told)?;
    }
    Ok(told)
}
