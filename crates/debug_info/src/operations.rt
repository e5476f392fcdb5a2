//! Operations over numbers (DWARF 5, sections 2.5.1.3 and 2.5.1.4).
use crate::sight::Sight;
use crate::spots::Spot;
use dwarf::{byte_at, unsigned_at};

/// What an operation makes of one number, and the place after it. Its own numbers begin at a place.
pub(crate) fn unary<S: Sight>(
    sight: &S,
    bytes: &[u8],
    operation: u8,
    at: usize,
    number: u64,
) -> Option<(u64, usize)> {
    match operation {
        // deref
        0x06 => Some((Spot::Memory(number).number(sight, 8)?, at)),
        // deref_size
        0x94 => {
            let count = byte_at(bytes, at).ok()?;
            let found = Spot::Memory(number).number(sight, u64::from(count))?;
            Some((found, at + 1))
        }
        // neg, not
        0x1F => Some((number.wrapping_neg(), at)),
        0x20 => Some((!number, at)),
        // plus_uconst
        0x23 => {
            let (count, next) = unsigned_at(bytes, at).ok()?;
            Some((number.wrapping_add(count), next))
        }
        _ => None,
    }
}

/// A number that is shifted by so many bits, as signed or not.
fn shifted(operation: u8, number: u64, count: u64) -> u64 {
    let bits = count.min(63) as u32;
    match operation {
        0x26 => number.cast_signed().wrapping_shr(bits).cast_unsigned(),
        _ if count > 63 => 0,
        0x24 => number.wrapping_shl(bits),
        _ => number.wrapping_shr(bits),
    }
}

/// Whether a comparison holds of two signed numbers (section 2.5.1.5).
fn compared(operation: u8, first: i64, second: i64) -> Option<bool> {
    match operation {
        0x29 => Some(first == second),
        0x2A => Some(first >= second),
        0x2B => Some(first > second),
        0x2C => Some(first <= second),
        0x2D => Some(first < second),
        0x2E => Some(first != second),
        _ => None,
    }
}

/// What an operation makes of two numbers; `None` if it isn't known.
pub(crate) fn binary(operation: u8, first: u64, second: u64) -> Option<u64> {
    match operation {
        0x1A => Some(first & second),
        0x1C => Some(first.wrapping_sub(second)),
        0x1E => Some(first.wrapping_mul(second)),
        0x21 => Some(first | second),
        0x22 => Some(first.wrapping_add(second)),
        0x24..=0x26 => Some(shifted(operation, first, second)),
        0x27 => Some(first ^ second),
        _ => {
            let holds = compared(operation, first.cast_signed(), second.cast_signed())?;
            Some(u64::from(holds))
        }
    }
}
