//! Texts of packets: numbers in them, whether they are others, and where they are cut.
ghost use Rattle.std.specs.Prelude.{◌≡◌, ◌≤◌, length, option_map};
ghost use Rattle.gdb_packets.specs.Commands as texts;
ghost use Rattle.gdb_packets.specs.Digits as meant;

use crate::digits::digit_value;

/// Two numbers, as they stand in a text.
#[derive(Clone, Copy)]
pub(crate) struct Numbers {
    pub first: u64,
    pub second: u64,
}

/// A number, with one digit more behind it; `None` from 2^64 on.
fn with_digit(number: u64, byte: u8) -> Option<u64>
    ensures { result ≡ meant.with_digit number (meant.digit_value byte) }
{
    let digit = digit_value(byte)?;
    number.checked_mul(16)?.checked_add(u64::from(digit))
}

/// The number of hexadecimal digits, of which there is at least one; `None` of any other text, and from 2^64 on.
pub(crate) fn number(digits: &[u8]) -> Option<u64>
    ensures { result ≡ meant.number digits.now }
{
    if digits.is_empty() {
        return None;
    }
    let mut number = 0u64;
    for byte in digits {
        number = with_digit(number, *byte)?;
    }
    Some(number)
}

/// Whether a text is this one.
pub(crate) fn is_text(text: &[u8], wanted: &[u8]) -> bool
    ensures { result ≡ texts.is_text text.now wanted.now }
{
    text == wanted
}

/// How many bytes stand before the first such byte of a text; all, if it has none.
fn place_of(text: &[u8], byte: u8) -> usize
    ensures place { result ≡ texts.place_of byte text.now }
    ensures within { result ≤ length text.now }
{
    for place in 0..text.len() {
        if text[place] == byte {
            return place;
        }
    }
    text.len()
}

/// What stands before the first such byte of a text; all, if it has none.
pub(crate) fn before(text: &[u8], byte: u8) -> &[u8]
    ensures { result.now ≡ texts.before byte text.now }
{
    &text[..place_of(text, byte)]
}

/// What stands behind the first such byte of a text; `None` if it has none.
pub(crate) fn behind(text: &[u8], byte: u8) -> Option<&[u8]>
    ensures { option_map (λ rest. rest.now) result ≡ texts.behind byte text.now }
{
    let place = place_of(text, byte);
    if place < text.len() {
        return Some(&text[place + 1..]);
    }
    None
}

/// Two numbers, with a comma between them.
pub(crate) fn two_numbers(text: &[u8]) -> Option<Numbers>
    ensures { result ≡ texts.two_numbers text.now }
{
    let rest = behind(text, b',')?;
    match (number(before(text, b',')), number(rest)) {
        (Some(first), Some(second)) => Some(Numbers { first, second }),
        _ => None,
    }
}
