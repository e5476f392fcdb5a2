//! The forms in which a student may write a line: blanks, marks around it, and capitals don't count.
ghost use Rattle.std.specs.Prelude.{◌≡◌, ◌≤◌, ◌++◌, IfOk, length};
ghost use Rattle.std.specs.List.{prefix_len, suffix_len};
ghost use Rattle.grade_sheets.specs.Forms as meant;

use std::alloc::{AllocError, Global};

// Whether a byte is a blank, or a mark by which Markdown heads, stresses or quotes.
fn is_mark(byte: u8) -> bool
    ensures { result ≡ meant.is_mark byte }
{
    byte.is_ascii_whitespace()
        || byte == b'#'
        || byte == b'*'
        || byte == b'>'
        || byte == b'_'
        || byte == b'`'
}

// The same, or a mark by which it begins the item of a list.
fn is_item_mark(byte: u8) -> bool
    ensures { result ≡ meant.is_item_mark byte }
{
    is_mark(byte) || byte == b'+' || byte == b'-'
}

// A mark around a text, or one that ends a sentence or a part of one.
fn is_end_mark(byte: u8) -> bool
    ensures { result ≡ meant.is_end_mark byte }
{
    is_mark(byte) || byte == b',' || byte == b'.' || byte == b';'
}

// Whether a byte is no blank.
fn is_no_blank(byte: u8) -> bool
    ensures { result ≡ meant.is_no_blank byte }
{
    !byte.is_ascii_whitespace()
}

// How many marks stand at the beginning of a text.
fn marks_before(text: &[u8]) -> usize
    ensures value { result ≡ prefix_len meant.is_mark text.now }
    ensures within { result ≤ length text.now }
{
    text.iter().take_while(|byte| is_mark(**byte)).count()
}

// How many marks of an item stand at the beginning of a text.
fn item_marks_before(text: &[u8]) -> usize
    ensures value { result ≡ prefix_len meant.is_item_mark text.now }
    ensures within { result ≤ length text.now }
{
    text.iter().take_while(|byte| is_item_mark(**byte)).count()
}

// How many marks stand at the end of a text.
fn marks_behind(text: &[u8]) -> usize
    ensures value { result ≡ suffix_len meant.is_end_mark text.now }
    ensures within { result ≤ length text.now }
{
    text.iter()
        .rev()
        .take_while(|byte| is_end_mark(**byte))
        .count()
}

// How many bytes stand before the first blank of a text.
fn word_len(text: &[u8]) -> usize
    ensures value { result ≡ prefix_len meant.is_no_blank text.now }
    ensures within { result ≤ length text.now }
{
    text.iter().take_while(|byte| is_no_blank(**byte)).count()
}

/// A text without the marks at its beginning.
pub(crate) fn without_marks(text: &[u8]) -> &[u8]
    ensures { result.now ≡ meant.without_marks text.now }
{
    let marks = marks_before(text);
    &text[marks..]
}

// A text without the marks of an item at its beginning.
fn without_item(text: &[u8]) -> &[u8]
    ensures { result.now ≡ meant.without_item text.now }
{
    let marks = item_marks_before(text);
    &text[marks..]
}

/// A text without the marks at its end.
pub(crate) fn without_end_marks(text: &[u8]) -> &[u8]
    ensures { result.now ≡ meant.without_end_marks text.now }
{
    let marks = marks_behind(text);
    &text[..text.len() - marks]
}

/// What a line means, if it says one thing alone.
pub(crate) fn plain(line: &[u8]) -> &[u8]
    ensures { result.now ≡ meant.plain line.now }
{
    without_end_marks(without_item(line))
}

/// The first word of a text.
pub(crate) fn word_of(text: &[u8]) -> &[u8]
    ensures { result.now ≡ meant.word_of text.now }
{
    let len = word_len(text);
    &text[..len]
}

// Adds a byte, unless it is a comma.
fn add_unless_comma(kept: &mut Vec<u8>, byte: u8) -> Result<(), AllocError>
    ensures { IfOk result (λ _. kept.new.items ≡ kept.old.items ++ meant.unless_comma byte) }
{
    if byte != b',' {
        kept.push(byte)?;
    }
    Ok(())
}

/// A word without the commas in it.
///
/// # Errors
///
/// [`AllocError`] if the host has too little memory.
pub(crate) fn without_commas(alloc: Global, word: &[u8]) -> Result<Vec<u8>, AllocError>
    ensures { IfOk result (λ kept. kept.items ≡ meant.without_commas word.now) }
{
    let mut kept = Vec::new(alloc);
    for byte in word {
        add_unless_comma(&mut kept, *byte)?;
    }
    Ok(kept)
}
