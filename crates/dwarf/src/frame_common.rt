//! What the frames of several functions have in common (DWARF 5, section 6.4.1, "Common Information Entry").
ghost use Rattle.std.specs.Prelude.{◌≡◌, ◌≤◌, length};
ghost use Rattle.dwarf.specs.FrameUnits as meant;

use crate::bytes::{byte_at, offset_at, signed_at, unsigned_at};
use crate::fault::Fault;
use crate::unit_list::unit_length;

/// The longest entry that is read, in bytes: each function's frames read theirs anew.
const LONGEST: u64 = 4096;

/// The register of the return address.
const RETURN_ADDRESS: u64 = 1;

/// What the frames of several functions have in common.
#[derive(Clone, Copy)]
pub(crate) struct Common {
    /// What each advance is multiplied by (`code_alignment_factor`).
    pub code_factor: u64,
    /// What offsets of registers are multiplied by (`data_alignment_factor`).
    pub data_factor: i64,
    /// Where the instructions begin that each function's rules begin with.
    pub from: usize,
    /// Where they end.
    pub end: usize,
}

/// What stands in an entry in place of the number of another one: this entry is common to several functions.
pub(crate) fn mark(is_wide: bool) -> u64
    ensures { result ≡ meant.mark is_wide }
{
    if is_wide { u64::MAX } else { 0xFFFF_FFFF }
}

/// The place after the sizes of an address and of a segment selector, which version 4 has: 8 and 0.
#[tactic(auto, unfolding(crate::specs::FrameUnits::past_sizes))]
fn past_sizes(bytes: &[u8], version: u8, entry: usize, at: usize) -> Result<usize, Fault>
    requires { at ≤ length bytes.now }
    ensures { result ≡ meant.past_sizes bytes.now version entry at }
{
    if version == 1 || version == 3 {
        return Ok(at);
    }
    if version != 4 {
        return Err(Fault::Version(entry));
    }
    let address = byte_at(bytes, at)?;
    let segment = byte_at(bytes, at + 1)?;
    if address != 8 || segment != 0 {
        return Err(Fault::Common(entry));
    }
    Ok(at + 2)
}

/// The number of the return address's register, and the place after it: version 1 has a byte.
#[tactic(auto, unfolding(crate::specs::FrameUnits::return_register))]
fn return_register(bytes: &[u8], version: u8, at: usize) -> Result<(u64, usize), Fault>
    ensures { result ≡ meant.return_register bytes.now version at }
{
    if version == 1 {
        let register = byte_at(bytes, at)?;
        return Ok((u64::from(register), at + 1));
    }
    unsigned_at(bytes, at)
}

/// What stands after the marks of an entry, from its version on. The entry ends where the bytes end.
#[tactic(auto, unfolding(crate::specs::FrameUnits::common_of))]
fn common_of(bytes: &[u8], entry: usize, at: usize) -> Result<Common, Fault>
    ensures { result ≡ meant.common_of bytes.now entry at }
{
    let version = byte_at(bytes, at)?;
    let augmentation = byte_at(bytes, at + 1)?;
    if augmentation != 0 {
        return Err(Fault::Common(entry));
    }
    let sized = past_sizes(bytes, version, entry, at + 2)?;
    let (code, next) = unsigned_at(bytes, sized)?;
    let (units, next) = signed_at(bytes, next)?;
    let (register, from) = return_register(bytes, version, next)?;
    if register != RETURN_ADDRESS {
        return Err(Fault::Common(entry));
    }
    Ok(Common {
        code_factor: code,
        data_factor: units,
        from,
        end: bytes.len(),
    })
}

/// The entry of what is common that begins at a place.
#[tactic(auto, unfolding(crate::specs::FrameUnits::common_at))]
pub(crate) fn common_at(section: &[u8], entry: usize) -> Result<Common, Fault>
    ensures { result ≡ meant.common_at section.now entry }
{
    let found = unit_length(section, entry)?;
    if found.length > (section.len() - found.from) as u64 {
        return Err(Fault::Length(entry));
    }
    if found.length > LONGEST {
        return Err(Fault::Large(entry));
    }
    let bytes = &section[..found.from + found.length as usize];
    let id = offset_at(bytes, found.from, found.is_wide)?;
    if id != mark(found.is_wide) {
        return Err(Fault::Common(entry));
    }
    let at = found.from + if found.is_wide { 8 } else { 4 };
    common_of(bytes, entry, at)
}
