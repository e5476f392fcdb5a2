//! The keys that a text stands for.
ghost use Rattle.std.specs.Prelude.{◌<◌, IfOk, length};

use crate::fault::WordErrorKind;
use crate::vocabulary::Keys;

/// The value of a hexadecimal digit.
fn digit(byte: u8) -> Option<u8> {
    match byte {
        b'0'..=b'9' => Some(byte - b'0'),
        b'a'..=b'f' => Some(byte - b'a' + 10),
        b'A'..=b'F' => Some(byte - b'A' + 10),
        _ => None,
    }
}

/// What has been read of a key.
#[derive(Clone, Copy)]
enum Begun {
    /// Nothing.
    Nothing,
    /// A backslash.
    Backslash,
    /// A backslash and an x.
    Hexadecimal,
    /// A backslash, an x and this digit.
    Digit(u8),
}

/// What a byte comes to.
#[derive(Clone, Copy)]
enum Read {
    /// The key is still begun.
    Begins(Begun),
    /// It is this key.
    Key(u8),
    /// It stands for no key.
    Nothing,
}

/// What a byte behind a backslash comes to.
fn escaped(byte: u8) -> Read {
    match byte {
        b'n' => Read::Key(b'\n'),
        b'b' => Read::Key(8),
        b't' => Read::Key(b'\t'),
        b's' => Read::Key(b' '),
        b'\\' => Read::Key(b'\\'),
        b'x' => Read::Begins(Begun::Hexadecimal),
        _ => Read::Nothing,
    }
}

/// The key of two hexadecimal digits.
fn key_of(high: u8, low: u8) -> u8 {
    (u32::from(high) * 16 + u32::from(low)).min(255) as u8
}

/// What a byte comes to behind what has been read.
fn comes_to(begun: Begun, byte: u8) -> Read {
    match (begun, digit(byte)) {
        (Begun::Nothing, _) if byte == b'\\' => Read::Begins(Begun::Backslash),
        (Begun::Nothing, _) => Read::Key(byte),
        (Begun::Backslash, _) => escaped(byte),
        (Begun::Hexadecimal, Some(high)) => Read::Begins(Begun::Digit(high)),
        (Begun::Digit(high), Some(low)) => Read::Key(key_of(high, low)),
        (Begun::Hexadecimal | Begun::Digit(_), None) => Read::Nothing,
    }
}

/// The keys that a text stands for.
pub(crate) fn keys_of<'a>(text: &'a str) -> Result<Keys, WordErrorKind<'a>>
    ensures { IfOk result (λ keys. 0 < length keys.items) }
{
    let mut keys = Keys::new();
    let mut begun = Begun::Nothing;
    for byte in text.as_bytes() {
        match comes_to(begun, *byte) {
            Read::Begins(more) => begun = more,
            Read::Key(key) => {
                begun = Begun::Nothing;
                let Ok(()) = keys.try_push(key) else {
                    return Err(WordErrorKind::TooManyKeys);
                };
            }
            Read::Nothing => return Err(WordErrorKind::BadEscape(text)),
        }
    }
    let Begun::Nothing = begun else {
        return Err(WordErrorKind::BadEscape(text));
    };
    if keys.is_empty() {
        return Err(WordErrorKind::Missing("TEXT"));
    }
    Ok(keys)
}
