//! Hexadecimal digits.
ghost use Rattle.std.specs.Prelude.{◌≡◌, ◌<◌, ◌++◌, OnOk};
ghost use Rattle.gdb_packets.specs.Digits as meant;
ghost use Rattle.gdb_packets.specs.Numbers.{digits, digits_in};

use std::alloc::AllocError;

/// The most digits that a number of 64 bits has.
const DIGITS: u32 = 16;

/// The digit of a number below 16, in lower case.
pub(crate) fn digit(number: u8) -> u8
    requires { number < 16 }
    ensures { result ≡ meant.digit number }
{
    if number < 10 {
        b'0' + number
    } else {
        b'a' + (number - 10)
    }
}

/// The number that a digit stands for, in lower or upper case; `None` of any other byte.
pub(crate) fn digit_value(byte: u8) -> Option<u8>
    ensures { result ≡ meant.digit_value byte }
{
    match byte {
        b'0'..=b'9' => Some(byte - b'0'),
        b'a'..=b'f' => Some(byte - b'a' + 10),
        b'A'..=b'F' => Some(byte - b'A' + 10),
        _ => None,
    }
}

/// Adds the two digits of a byte, the higher one first.
pub(crate) fn push_byte(text: &mut Vec<u8>, byte: u8) -> Result<(), AllocError>
    ensures { OnOk result (text.new.items ≡ text.old.items ++ meant.byte_digits byte) }
{
    text.extend_from_slice(&[digit(byte / 16), digit(byte % 16)])
}

/// Adds the lowest digits of a number, so many at most.
#[tactic(auto, using(crate::proofs::NumbersBack::none_more, crate::proofs::NumbersBack::one_more, crate::proofs::NumbersBack::last_more))]
fn push_digits(text: &mut Vec<u8>, number: u64, most: u32) -> Result<(), AllocError>
    ensures { OnOk result (text.new.items ≡ text.old.items ++ digits_in most number) }
{
    if most == 0 {
        return Ok(());
    }
    if number < 16 {
        text.push(digit(number as u8))?;
        return Ok(());
    }
    push_digits(text, number / 16, most - 1)?;
    text.push(digit((number % 16) as u8))?;
    Ok(())
}

/// Adds the digits of a number, the highest first.
#[tactic(auto, unfolding(crate::specs::Numbers::digits))]
pub(crate) fn push_number(text: &mut Vec<u8>, number: u64) -> Result<(), AllocError>
    ensures { OnOk result (text.new.items ≡ text.old.items ++ digits number) }
{
    push_digits(text, number, DIGITS)
}
