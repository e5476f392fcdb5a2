//! Numbers in a line.
ghost use Rattle.std.specs.Prelude.{◌≤◌, IfOk};
ghost use Rattle.debug_words.specs.Ranges.{IsBetween};

use crate::fault::WordErrorKind;

/// The number that a text writes: decimal, or hexadecimal behind `0x`.
pub(crate) fn number_of<'a>(text: &'a str) -> Result<u64, WordErrorKind<'a>> {
    let read = match text.strip_prefix("0x") {
        Some(digits) => u64::from_str_radix(digits, 16),
        None => text.parse::<u64>(),
    };
    match read {
        Ok(number) if !text.starts_with('+') && !text.starts_with("0x+") => Ok(number),
        _ => Err(WordErrorKind::NotANumber(text)),
    }
}

/// The number that a text writes, in a range.
pub(crate) fn number_in<'a>(text: &'a str, least: u64, most: u64) -> Result<u64, WordErrorKind<'a>>
    ensures { IfOk result (λ n. IsBetween least most n) }
{
    let number = number_of(text)?;
    if number < least || number > most {
        return Err(WordErrorKind::OutOfRange { text, least, most });
    }
    Ok(number)
}
