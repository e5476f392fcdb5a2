//! Numbers of so many bits, and addresses that are counted from others.
ghost use Rattle.std.specs.Prelude.{◌≡◌, ◌<◌, ◌≤◌, ◌^◌};
ghost use Rattle.debug_info.specs.Numbers as meant;

/// Bytes of the largest number.
const NUMBER_BYTES: usize = 8;

/// The value of the highest bit of a number of so many bytes: 1, 2, 4 or 8. Of other sizes that of 8.
pub(crate) fn highest_of(bytes: u64) -> u64
    ensures positive { 0 < result }
    ensures small { result ≤ 2 ^ 63 }
    ensures value { result ≡ meant.highest_of bytes }
{
    match bytes {
        1 => 0x80,
        2 => 0x8000,
        4 => 0x8000_0000,
        _ => 0x8000_0000_0000_0000,
    }
}

/// The unsigned number in the low bits of one, up to the bit of this value.
pub(crate) fn unsigned_of(number: u64, highest: u64) -> u64
    requires positive { 0 < highest }
    requires small { highest ≤ 2 ^ 63 }
    ensures { result ≡ meant.unsigned_of highest number }
{
    if highest > u64::MAX / 2 {
        return number;
    }
    number % (2 * highest)
}

/// The signed number in the low bits of one, in two's complement: the bit of this value is its sign.
pub(crate) fn signed_of(number: u64, highest: u64) -> i64
    requires positive { 0 < highest }
    requires small { highest ≤ 2 ^ 63 }
    ensures { result ≡ meant.signed_of highest number }
{
    let low = number % highest;
    if number / highest % 2 == 0 {
        low as i64
    } else {
        -1 - ((highest - 1 - low) as i64)
    }
}

/// The address so far from another one. Addresses wrap at 64 bits.
pub(crate) fn address_from(base: u64, distance: i64) -> u64
    ensures { result ≡ meant.address_from base distance }
{
    base.wrapping_add(distance.cast_unsigned())
}

/// The number in these bytes, the lowest first; `None` if they are more than 8.
pub(crate) fn number_in(bytes: &[u8]) -> Option<u64>
    ensures { result ≡ meant.number_in bytes.now }
{
    if bytes.len() > NUMBER_BYTES {
        return None;
    }
    let mut found = [0; NUMBER_BYTES];
    found[..bytes.len()].copy_from_slice(bytes);
    Some(u64::from_le_bytes(found))
}
