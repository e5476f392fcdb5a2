//! The entries of `.debug_frame` (DWARF 5, section 6.4.1).
ghost use Rattle.std.specs.Prelude.{◌≡◌, ◌<◌, ◌≤◌, length, IfOk};
ghost use Rattle.dwarf.specs.FrameUnits as meant;
ghost use Rattle.dwarf.specs.Made.{IsMade};

use crate::bytes::offset_at;
use crate::fault::{Fault, LineError};
use crate::frame_common::mark;
use crate::unit_list::unit_length;
use std::alloc::Global;

/// An entry of `.debug_frame`. Places are in bytes from the section's first.
#[derive(Clone, Copy)]
pub struct FrameUnit {
    /// Where it begins.
    pub at: usize,
    /// It tells what is common to several functions, and has no frames of its own.
    pub is_common: bool,
    /// Else where the entry begins that tells what is common to this function and others.
    pub common: u64,
    /// Where what follows that place begins.
    pub body: usize,
    /// Where it ends.
    pub end: usize,
}

/// The entry that begins at a place.
#[tactic(auto, unfolding(crate::specs::FrameUnits::frame_unit))]
fn frame_unit(section: &[u8], at: usize) -> Result<FrameUnit, Fault>
    ensures value { result ≡ meant.frame_unit section.now at }
    ensures within { IfOk result (λ u. (at < u.end) × (u.end ≤ length section.now)) }
{
    let found = unit_length(section, at)?;
    if found.length > (section.len() - found.from) as u64 {
        return Err(Fault::Length(at));
    }
    let end = found.from + found.length as usize;
    let common = offset_at(&section[..end], found.from, found.is_wide)?;
    Ok(FrameUnit {
        at,
        is_common: common == mark(found.is_wide),
        common,
        body: found.from + if found.is_wide { 8 } else { 4 },
        end,
    })
}

/// The entries of `.debug_frame`, from its first byte to its last.
///
/// It takes memory for one [`FrameUnit`] for each.
///
/// # Errors
///
/// [`LineError::Damaged`] with the first fault: [`Fault::Short`] if the section ends inside an entry's length, or an
/// entry inside its number; [`Fault::Length`] if an entry ends after the section, or its length is one that the standard
/// keeps for itself. [`LineError::Memory`] if the host has too little memory.
pub fn frame_units(alloc: Global, section: &[u8]) -> Result<Vec<FrameUnit>, LineError>
    ensures { IsMade result (meant.frame_units section.now) }
{
    let mut found = Vec::new(alloc);
    let mut at = 0;
    for _ in 0..section.len() {
        if at >= section.len() {
            return Ok(found);
        }
        let unit = frame_unit(section, at)?;
        at = unit.end;
        found.push(unit)?;
    }
    Ok(found)
}
