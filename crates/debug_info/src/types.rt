//! Types (DWARF 5, section 5).
ghost use Rattle.std.specs.Prelude.{◌≡◌};

use crate::attributes::Program;
use crate::names::{BYTE_SIZE, COUNT, ENCODING, UPPER_BOUND};
use crate::tags::{ARRAY, ATOMIC, BASE, CONSTANT, POINTER, RANGE, RESTRICT, TYPE_NAME, VOLATILE};

/// Names of types and qualifiers are followed no further than this.
const MOST_NAMES: u32 = 32;

/// The ranges of an array are sought among so many entries after its own.
pub(crate) const MOST_RANGES: usize = 32;

/// Sizes are multiplied no more often than this.
const MOST_LEVELS: u32 = 16;

/// Bytes of a pointer, if its entry doesn't tell them.
pub const POINTER_SIZE: u64 = 8;

/// A type: an entry, and of an array the number of the range that is next.
#[derive(Clone, Copy, Debug, PartialEq, Eq)]
pub struct Kind {
    pub number: usize,
    pub range: usize,
}

impl Kind {
    /// The type of an entry.
    pub fn of(number: usize) -> Kind
        ensures number { result.number ≡ number }
        ensures range { result.range ≡ 0 }
    {
        Kind { number, range: 0 }
    }
}

/// Whether a type only names or qualifies another one.
pub(crate) fn is_name(tag: u64) -> bool {
    matches!(tag, TYPE_NAME | CONSTANT | VOLATILE | RESTRICT | ATOMIC)
}

impl<'a> Program<'a> {
    /// The type that a name or a qualified type stands for; `None` if there is none.
    pub(crate) fn meant(&self, number: usize) -> Option<usize> {
        let mut at = number;
        for _ in 0..MOST_NAMES {
            if !is_name(self.entry(at)?.tag) {
                return Some(at);
            }
            at = self.kind(at)?;
        }
        None
    }

    /// The range of an array of this number, from 0 on.
    pub(crate) fn range_of(&self, array: usize, range: usize) -> Option<usize> {
        let depth = self.entry(array)?.depth;
        let mut left = range;
        for distance in 1..=MOST_RANGES {
            let number = array.checked_add(distance)?;
            let entry = self.entry(number)?;
            if entry.depth <= depth {
                return None;
            }
            if entry.tag == RANGE {
                if left == 0 {
                    return Some(number);
                }
                left -= 1;
            }
        }
        None
    }

    /// How many elements an array has; `None` if that isn't told.
    pub(crate) fn count(&self, kind: Kind) -> Option<u64> {
        let range = self.range_of(kind.number, kind.range)?;
        if let Some(count) = self.number(range, COUNT) {
            return Some(count);
        }
        let last = self.number(range, UPPER_BOUND)?;
        Some(last.wrapping_add(1))
    }

    /// The type of the elements of an array: those of an array of several ranges are arrays.
    pub(crate) fn element(&self, kind: Kind) -> Option<Kind> {
        let range = kind.range.checked_add(1)?;
        if self.range_of(kind.number, range).is_some() {
            return Some(Kind {
                number: kind.number,
                range,
            });
        }
        Some(Kind::of(self.kind(kind.number)?))
    }

    /// How many bytes a value of a type has; `None` if that isn't told.
    pub(crate) fn size(&self, kind: Kind) -> Option<u64> {
        let mut total: u64 = 1;
        let mut at = kind;
        for _ in 0..MOST_LEVELS {
            let number = self.meant(at.number)?;
            let entry = self.entry(number)?;
            if entry.tag != ARRAY {
                let otherwise = if entry.tag == POINTER {
                    Some(POINTER_SIZE)
                } else {
                    None
                };
                let own = self.number(number, BYTE_SIZE).or(otherwise)?;
                return total.checked_mul(own);
            }
            let array = Kind {
                number,
                range: at.range,
            };
            total = total.checked_mul(self.count(array)?)?;
            at = self.element(array)?;
        }
        None
    }

    /// Whether a type is one of characters of 1 byte.
    pub(crate) fn is_character(&self, kind: Kind) -> bool {
        let Some(number) = self.meant(kind.number) else {
            return false;
        };
        let is_base = self.entry(number).is_some_and(|entry| entry.tag == BASE);
        let is_small = self.number(number, BYTE_SIZE) == Some(1);
        is_base && is_small && matches!(self.number(number, ENCODING), Some(6 | 8))
    }
}
