//! Characters and texts of a value, as the C language writes them.
ghost use Rattle.std.specs.Prelude.{◌≡◌, ◌<◌, true, OnOk, option_map, string_bytes};
ghost use Rattle.debug_info.specs.Texts as meant;

use crate::sight::Sight;
use crate::spots::Spot;
use std::alloc::AllocError;

/// No more characters of a text are shown.
pub(crate) const MOST_SHOWN: u64 = 200;

/// What is told in place of what isn't there.
pub(crate) const NOT_THERE: &str = "<not there>";

/// The letter that stands for a code after a backslash.
fn letter_of(byte: u8) -> Option<&'static str>
    ensures { option_map (λ letter. letter.now) result ≡ meant.letter_of byte }
{
    match byte {
        7 => Some("a"),
        8 => Some("b"),
        9 => Some("t"),
        10 => Some("n"),
        11 => Some("v"),
        12 => Some("f"),
        13 => Some("r"),
        _ => None,
    }
}

/// Whether a character is shown by itself, or after a backslash.
fn is_shown(byte: u8) -> bool
    ensures value { result ≡ meant.is_shown byte }
    ensures small { result ≡ true → byte < 128 }
{
    byte >= b' ' && byte <= b'~'
}

/// Whether a backslash stands before a character that is shown.
fn is_quoted(byte: u8, quote: u8) -> bool
    ensures { result ≡ meant.is_quoted quote byte }
{
    byte == quote || byte == b'\\'
}

/// Adds a backslash and three octal digits.
fn add_octal(text: &mut String, byte: u8) -> Result<(), AllocError>
    ensures { OnOk result (meant.Adds (meant.octal_text byte) (string_bytes text.old) (string_bytes text.new)) }
{
    let high = byte / 64;
    let middle = byte / 8 % 8;
    let low = byte % 8;
    write!(text, "\\{high}{middle}{low}")
}

/// Adds a character, with a backslash before what isn't shown by itself, and before the quote that it stands between.
#[tactic(auto, unfolding(crate::specs::Texts::character_text))]
pub(crate) fn add_character(text: &mut String, byte: u8, quote: u8) -> Result<(), AllocError>
    ensures { OnOk result
        (meant.Adds (meant.character_text quote byte) (string_bytes text.old) (string_bytes text.new)) }
{
    if let Some(letter) = letter_of(byte) {
        text.push_str("\\")?;
        return text.push_str(letter);
    }
    if !is_shown(byte) {
        return add_octal(text, byte);
    }
    if is_quoted(byte, quote) {
        text.push_str("\\")?;
        return text.push(char::from(byte));
    }
    text.push(char::from(byte))
}

/// Adds the text that begins at a place, between quotes, up to its zero byte, or so many bytes; 200 at most.
pub(crate) fn add_text<S: Sight>(
    text: &mut String,
    sight: &S,
    spot: Spot,
    most: u64,
) -> Result<(), AllocError> {
    if spot.byte(sight).is_none() {
        return text.push_str(NOT_THERE);
    }
    text.push_str("\"")?;
    for place in 0..most {
        if place >= MOST_SHOWN {
            return text.push_str("\"...");
        }
        let Some(byte) = spot.after(place).byte(sight) else {
            text.push_str("\"")?;
            return text.push_str(NOT_THERE);
        };
        if byte == 0 {
            return text.push_str("\"");
        }
        add_character(text, byte, b'"')?;
    }
    text.push_str("\"")
}
