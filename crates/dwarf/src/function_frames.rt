//! The frames of a function (DWARF 5, section 6.4.1, "Frame Description Entry").
ghost use Rattle.dwarf.specs.Frames as meant;

use crate::bytes::double_at;
use crate::fault::{Fault, LineError};
use crate::frame::{FrameRow, FrameRules};
use crate::frame_common::{Common, common_at};
use crate::frame_entries::FrameUnit;
use crate::frame_program::run;
use crate::text::front;
use std::alloc::Global;

/// The frames of a function.
#[derive(Drop)]
pub struct FrameTable {
    /// The address of its first instruction.
    pub from: u64,
    /// How many bytes it has.
    pub size: u64,
    /// What holds from which address on, in the order of the program. The last row holds up to the function's end.
    pub rows: Vec<FrameRow>,
}

/// The rules that functions have in common.
fn common_rules(alloc: Global, section: &[u8], common: &Common) -> Result<FrameRules, LineError>
    ensures { meant.AreRules result (meant.common_rules section.now common.now) }
{
    let rules = FrameRules::unknown();
    let first = FrameRow { address: 0, rules };
    let ran = run(
        alloc,
        common,
        front(section, common.end),
        rules,
        common.from,
        first,
    )?;
    Ok(ran.state.rules)
}

/// The frames of the function that an entry of `.debug_frame` is of.
///
/// `unit` is one of those that [`frame_units`](crate::frame_units) found in the section, and isn't common to several
/// functions. It takes memory for the rows, of which there are no more than bytes in the unit, and one.
///
/// # Errors
///
/// [`LineError::Damaged`] with the first fault: [`Fault::Length`] if the unit, or the entry that it has in common with
/// others, ends after the section; [`Fault::Short`] if one of them ends inside a number; [`Fault::TooLarge`] if a number
/// has more than 64 bits; [`Fault::Version`], [`Fault::Common`] and [`Fault::Large`] if that entry isn't known;
/// [`Fault::Instruction`] and [`Fault::Stack`] if an instruction means nothing. [`LineError::Memory`] if the host has too
/// little memory.
#[tactic(auto, unfolding(crate::specs::Frames::frames_of))]
pub fn frame_rows(alloc: Global, section: &[u8], unit: &FrameUnit) -> Result<FrameTable, LineError>
    ensures { meant.IsFrameTable result (meant.frames_of section.now unit.now) }
{
    let Some(bytes) = section.get(..unit.end) else {
        return Err(LineError::Damaged(Fault::Length(unit.at)));
    };
    let from = double_at(bytes, unit.body)?;
    let size = double_at(bytes, unit.body + 8)?;
    let common = common_at(section, unit.common as usize)?;
    let rules = common_rules(alloc, section, &common)?;
    let first = FrameRow {
        address: from,
        rules,
    };
    let ran = run(alloc, &common, bytes, rules, unit.body + 16, first)?;
    let mut rows = ran.rows;
    rows.push(ran.state)?;
    Ok(FrameTable { from, size, rows })
}
