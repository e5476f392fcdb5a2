//! Where members stand in a structure (DWARF 5, section 5.7.6, and of version 3 the same section and 5.6.6).
ghost use Rattle.std.specs.Prelude.{◌≡◌};
ghost use Rattle.debug_info.specs.Members as meant;

use crate::attributes::Program;
use crate::names::{BIT_PLACE, BIT_SIZE, BYTE_SIZE, MEMBER_PLACE, OLD_BIT_PLACE};
use crate::scalars::{BYTE_BITS, Field};
use crate::value::Value;

/// Where a member stands in its structure.
#[derive(Clone, Copy)]
pub(crate) enum MemberPlace {
    /// After so many bytes.
    Bytes(u64),
    /// In these bits.
    Bits(Field),
    /// Its entry tells it in a way that isn't read, as by an expression.
    NotRead,
}

/// How many bytes stand before a member, by the attribute that tells it: none if its entry doesn't have it; `None` if
/// that is no number.
fn bytes_before(value: Value) -> Option<u64>
    ensures { result ≡ meant.bytes_before value }
{
    match value {
        Value::Absent => Some(0),
        Value::Number(place) => Some(place),
        _ => None,
    }
}

/// How many bits stand before a field, by how version 3 tells it: in a number of so many bytes, after so many bytes, it
/// has so many bits, and begins so many below the highest one of the number. They may be negative, if the field begins
/// above that number: so all is counted in 64 bits, and wraps.
fn bits_before(bytes: u64, size: u64, below: u64, bits: u64) -> u64
    ensures { result ≡ meant.bits_before bytes size below bits }
{
    let all = bytes.wrapping_add(size).wrapping_mul(BYTE_BITS);
    all.wrapping_sub(below.wrapping_add(bits))
}

impl<'a> Program<'a> {
    /// How many bits stand in a structure before a member of so many bits.
    fn bit_place(&self, member: usize, bits: u64) -> Option<u64> {
        match self.value(member, BIT_PLACE) {
            Value::Number(place) => return Some(place),
            Value::Absent => (),
            _ => return None,
        }
        let below = self.number(member, OLD_BIT_PLACE)?;
        let size = self.number(member, BYTE_SIZE)?;
        let bytes = bytes_before(self.value(member, MEMBER_PLACE))?;
        Some(bits_before(bytes, size, below, bits))
    }

    /// The field of a member of so many bits.
    fn field_of(&self, member: usize, bits: u64) -> MemberPlace {
        match self.bit_place(member, bits) {
            Some(place) => MemberPlace::Bits(Field { place, bits }),
            None => MemberPlace::NotRead,
        }
    }

    /// Where a member stands in its structure.
    pub(crate) fn member_place(&self, member: usize) -> MemberPlace {
        match self.value(member, BIT_SIZE) {
            Value::Absent => (),
            Value::Number(bits) => return self.field_of(member, bits),
            _ => return MemberPlace::NotRead,
        }
        match bytes_before(self.value(member, MEMBER_PLACE)) {
            Some(place) => MemberPlace::Bytes(place),
            None => MemberPlace::NotRead,
        }
    }
}
