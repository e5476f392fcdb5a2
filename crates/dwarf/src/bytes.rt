//! Numbers in a table: of 1, 2, 4 or 8 bytes, and in LEB128 (DWARF 5, section 7.6). All are little-endian.
ghost use Rattle.std.specs.Prelude.{◌≡◌, ◌≤◌, ◌+◌, ◌<◌, ◌^◌, position, nat_lt, nat_le, length, IfOk, OnOk, IfSome};
ghost use Rattle.dwarf.specs.Numbers as meant;

use crate::fault::Fault;
use xk_base::file_number;

/// Whether `count` bytes from `at` on are there.
pub(crate) fn is_within(bytes: &[u8], at: usize, count: usize) -> bool
    ensures { result ≡ nat_le (at + count) (length bytes.now) }
{
    at <= bytes.len() && count <= bytes.len() - at
}

/// The byte at a place.
///
/// # Errors
///
/// [`Fault::Short`] if the bytes end before it does.
pub fn byte_at(bytes: &[u8], at: usize) -> Result<u8, Fault>
    ensures value { result ≡ meant.fixed 1 bytes.now at }
    ensures within { OnOk result (at + 1 ≤ length bytes.now) }
{
    if !is_within(bytes, at, 1) {
        return Err(Fault::Short(at));
    }
    Ok(bytes[at])
}

/// The number in the 2 bytes from a place on.
///
/// # Errors
///
/// [`Fault::Short`] if the bytes end before it does.
pub fn half_at(bytes: &[u8], at: usize) -> Result<u16, Fault>
    ensures value { result ≡ meant.fixed 2 bytes.now at }
    ensures within { OnOk result (at + 2 ≤ length bytes.now) }
{
    if !is_within(bytes, at, 2) {
        return Err(Fault::Short(at));
    }
    Ok(file_number::u16_at(bytes, at))
}

/// The number in the 4 bytes from a place on.
///
/// # Errors
///
/// [`Fault::Short`] if the bytes end before it does.
pub fn word_at(bytes: &[u8], at: usize) -> Result<u32, Fault>
    ensures value { result ≡ meant.fixed 4 bytes.now at }
    ensures within { OnOk result (at + 4 ≤ length bytes.now) }
{
    if !is_within(bytes, at, 4) {
        return Err(Fault::Short(at));
    }
    Ok(file_number::u32_at(bytes, at))
}

/// The number in the 8 bytes from a place on.
///
/// # Errors
///
/// [`Fault::Short`] if the bytes end before it does.
pub fn double_at(bytes: &[u8], at: usize) -> Result<u64, Fault>
    ensures value { result ≡ meant.fixed 8 bytes.now at }
    ensures within { OnOk result (at + 8 ≤ length bytes.now) }
{
    if !is_within(bytes, at, 8) {
        return Err(Fault::Short(at));
    }
    Ok(file_number::u64_at(bytes, at))
}

/// An offset or a length: of 8 bytes in a unit in the 64-bit format, else of 4 (section 7.4).
///
/// # Errors
///
/// [`Fault::Short`] if the bytes end before it does.
#[tactic(auto, unfolding(crate::specs::Numbers::offset))]
pub fn offset_at(bytes: &[u8], at: usize, is_wide: bool) -> Result<u64, Fault>
    ensures value { result ≡ meant.offset is_wide bytes.now at }
    ensures within { OnOk result (at + meant.offset_bytes is_wide ≤ length bytes.now) }
{
    if is_wide {
        return double_at(bytes, at);
    }
    let offset = word_at(bytes, at)?;
    Ok(u64::from(offset))
}

/// Where the first byte stands whose high bit is clear.
fn last_group(bytes: &[u8]) -> Option<usize>
    ensures first { result ≡ position (λ b. nat_lt b 128) bytes.now }
    ensures within { IfSome result (λ n. n < length bytes.now) }
{
    bytes.iter().position(|b| *b < 128)
}

/// The bytes of the number in LEB128 that begins at a place: up to the first one whose high bit is clear.
#[tactic(auto, unfolding(crate::specs::Numbers::leb_bytes))]
fn leb_bytes(bytes: &[u8], at: usize) -> Result<&[u8], Fault>
    ensures value { meant.Gives (λ written. written.now) result (meant.leb_bytes bytes.now at) }
    ensures within { IfOk result (λ written. (at + length written.now ≤ length bytes.now) × (0 < length written.now)) }
{
    let Some(rest) = bytes.get(at..) else {
        return Err(Fault::Short(at));
    };
    let Some(last) = last_group(rest) else {
        return Err(Fault::Short(at));
    };
    Ok(&rest[..last + 1])
}

/// The seven bits of a byte, each turned if the number is negative.
fn group(byte: u8, is_negative: bool) -> u8
    ensures value { result ≡ meant.group is_negative byte }
    ensures small { result < 128 }
{
    if is_negative {
        127 - byte % 128
    } else {
        byte % 128
    }
}

/// The number that groups of seven bits write, the lowest first, if it has at most 64 bits.
fn groups(written: &[u8], is_negative: bool) -> Option<u64>
    ensures { result ≡ meant.below_64 (meant.groups is_negative written.now) }
{
    let mut number: u64 = 0;
    let mut left = written.len();
    'groups: while left > 0 {
        left -= 1;
        let low = u64::from(group(written[left], is_negative));
        if number > (u64::MAX - low) / 128 {
            return None;
        }
        number = number * 128 + low;
    }
    Some(number)
}

/// An unsigned number in LEB128, and the place after it.
///
/// # Errors
///
/// [`Fault::Short`] if the bytes end before it does, and [`Fault::TooLarge`] if it has more than 64 bits.
#[tactic(auto, unfolding(crate::specs::Numbers::unsigned))]
pub fn unsigned_at(bytes: &[u8], at: usize) -> Result<(u64, usize), Fault>
    ensures value { result ≡ meant.unsigned bytes.now at }
    ensures within { IfOk result (λ x. (at < x.1) × (x.1 ≤ length bytes.now)) }
{
    let written = leb_bytes(bytes, at)?;
    let Some(number) = groups(written, false) else {
        return Err(Fault::TooLarge(at));
    };
    Ok((number, at + written.len()))
}

/// Whether a number in signed LEB128 is below 0: bit 6 of its last byte is set.
fn is_negative(written: &[u8]) -> bool
    requires { 0 < length written.now }
    ensures { result ≡ meant.is_negative written.now }
{
    written[written.len() - 1] % 128 >= 64
}

/// A signed number in LEB128, and the place after it.
///
/// # Errors
///
/// [`Fault::Short`] if the bytes end before it does, and [`Fault::TooLarge`] if it has more than 64 bits.
#[tactic(auto, unfolding(crate::specs::Numbers::signed))]
pub fn signed_at(bytes: &[u8], at: usize) -> Result<(i64, usize), Fault>
    ensures value { result ≡ meant.signed bytes.now at }
    ensures within { IfOk result (λ x. (at < x.1) × (x.1 ≤ length bytes.now)) }
{
    let written = leb_bytes(bytes, at)?;
    let is_negative = is_negative(written);
    let Some(number) = groups(written, is_negative) else {
        return Err(Fault::TooLarge(at));
    };
    if number >= 1 << 63 {
        return Err(Fault::TooLarge(at));
    }
    let next = at + written.len();
    let size = number as i64;
    if is_negative {
        Ok((-1 - size, next))
    } else {
        Ok((size, next))
    }
}

/// The place after a number in LEB128, whatever its size is.
pub(crate) fn past_number(bytes: &[u8], at: usize) -> Result<usize, Fault>
    ensures value { result ≡ meant.past_number bytes.now at }
{
    let written = leb_bytes(bytes, at)?;
    Ok(at + written.len())
}

/// The place after so many numbers in LEB128.
pub(crate) fn skip_numbers(bytes: &[u8], at: usize, count: u16) -> Result<usize, Fault>
    ensures { result ≡ meant.skipped count bytes.now at }
{
    let mut next = at;
    for _ in 0..count {
        next = past_number(bytes, next)?;
    }
    Ok(next)
}
