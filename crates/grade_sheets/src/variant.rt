//! Variants of an exercise: each student has one, by their name, so that answers can't be passed on.
ghost use Rattle.std.specs.Prelude.{◌≡◌, ◌<◌, ◌%◌, min, sum};

use std::alloc::{AllocError, Global};
use toml::{Table, Value};

/// Which of so many variants a student of this name has: the sum of the name's bytes, 2^64 - 1 at most, modulo their
/// number. It counts from 0.
pub fn place_of(name: &[u8], count: u64) -> u64
    requires { 0 < count }
    ensures { result ≡ min (sum name.now) u64.MAX % count }
{
    let mut all: u64 = 0;
    for byte in name {
        all = all.saturating_add(u64::from(*byte));
    }
    all % count
}

/// The word between braces that is the whole text, as in `{frames}`.
fn word_of(text: &str) -> Option<&str> {
    text.strip_prefix("{")?.strip_suffix("}")
}

/// What the variant has under the word in braces that a text is; the value itself if it is no such text.
pub(crate) fn named_by<'a>(value: &'a Value, variant: Option<&'a Table>) -> &'a Value {
    let (Some(text), Some(variant)) = (value.as_str(), variant) else {
        return value;
    };
    match word_of(text) {
        Some(word) => variant.get(word).unwrap_or(value),
        None => value,
    }
}

// Adds what the variant has under a word, or the word in its braces.
fn add_word(
    alloc: Global,
    text: &mut String,
    word: &str,
    variant: &Table,
) -> Result<(), AllocError> {
    match variant.get(word) {
        Some(Value::String(value)) => text.push_str(value.as_str()),
        Some(Value::Integer(number)) => text.push_str(format!(in alloc; "{number}")?.as_str()),
        _ => text.push_str(format!(in alloc; "{{{word}}}")?.as_str()),
    }
}

// Adds a part of a text that stood behind an opening brace.
fn add_part(
    alloc: Global,
    text: &mut String,
    part: &str,
    variant: &Table,
) -> Result<(), AllocError> {
    match part.split_once('}') {
        Some((word, rest)) => {
            add_word(alloc, text, word, variant)?;
            text.push_str(rest)
        }
        None => {
            text.push_str("{")?;
            text.push_str(part)
        }
    }
}

/// A text, with what the variant has in place of each of its words in braces.
pub(crate) fn filled(
    alloc: Global,
    text: &str,
    variant: Option<&Table>,
) -> Result<String, AllocError> {
    let (Some((first, rest)), Some(variant)) = (text.split_once('{'), variant) else {
        return String::from_str(alloc, text);
    };
    let mut made = String::from_str(alloc, first)?;
    for part in rest.split('{') {
        add_part(alloc, &mut made, part, variant)?;
    }
    Ok(made)
}
