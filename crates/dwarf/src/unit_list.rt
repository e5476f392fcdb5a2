//! The units of a section (DWARF 5, sections 7.4 and 7.5).
ghost use Rattle.std.specs.Prelude.{◌≡◌, ◌≤◌, ◌<◌, ◌+◌, ◌^◌, length, IfOk};
ghost use Rattle.dwarf.specs.Made.{IsMade};
ghost use Rattle.dwarf.specs.Units as meant;

use crate::bytes::{double_at, half_at, word_at};
use crate::fault::{Fault, LineError};
use crate::unit::Unit;
use std::alloc::Global;

/// The length that says that a unit is in the 64-bit format.
const WIDE: u32 = 0xFFFF_FFFF;

/// From this number on a length isn't one: the standard keeps these numbers for itself.
const RESERVED: u32 = 0xFFFF_FFF0;

/// A unit's length, and where what it counts begins.
#[derive(Clone, Copy)]
pub(crate) struct UnitLength {
    pub is_wide: bool,
    pub length: u64,
    pub from: usize,
}

/// The length of the unit that begins at a place.
#[tactic(auto, unfolding(crate::specs::Units::unit_length))]
pub(crate) fn unit_length(section: &[u8], at: usize) -> Result<UnitLength, Fault>
    ensures value { result ≡ meant.unit_length section.now at }
    ensures within { IfOk result (λ u. (at < u.from) × (u.from ≤ length section.now)) }
{
    let first = word_at(section, at)?;
    if first == WIDE {
        let length = double_at(section, at + 4)?;
        return Ok(UnitLength {
            is_wide: true,
            length,
            from: at + 12,
        });
    }
    if first >= RESERVED {
        return Err(Fault::Length(at));
    }
    Ok(UnitLength {
        is_wide: false,
        length: u64::from(first),
        from: at + 4,
    })
}

/// The unit that begins at a place.
#[tactic(auto, unfolding(crate::specs::Units::unit_at))]
fn unit_at(section: &[u8], at: usize) -> Result<Unit, Fault>
    ensures value { result ≡ meant.unit_at section.now at }
    ensures within { IfOk result (λ u. (at < u.end) × (u.end ≤ length section.now)) }
{
    let found = unit_length(section, at)?;
    if found.length > (section.len() - found.from) as u64 {
        return Err(Fault::Length(at));
    }
    let end = found.from + found.length as usize;
    let version = half_at(&section[..end], found.from)?;
    Ok(Unit {
        at,
        is_wide: found.is_wide,
        version,
        body: found.from + 2,
        end,
    })
}

/// The units of a section, from its first byte to its last.
///
/// It takes memory for one [`Unit`] for each unit, and reads no more of a unit than its length and its version.
///
/// # Errors
///
/// [`LineError::Damaged`] with the first fault: [`Fault::Short`] if the section ends inside a unit's length or version,
/// [`Fault::Length`] if a unit ends after the section, or its length is one that the standard keeps for itself.
/// [`LineError::Memory`] if the host has too little memory.
pub fn units(alloc: Global, section: &[u8]) -> Result<Vec<Unit>, LineError>
    ensures { IsMade result (meant.units section.now) }
{
    let mut found = Vec::new(alloc);
    let mut at = 0;
    for _ in 0..section.len() {
        if at >= section.len() {
            return Ok(found);
        }
        let unit = unit_at(section, at)?;
        at = unit.end;
        found.push(unit)?;
    }
    Ok(found)
}
