//! Values by their forms (DWARF 5, section 7.5.6).
ghost use Rattle.std.specs.Prelude.{◌≡◌, ◌≤◌, ◌+◌, length};
ghost use Rattle.dwarf.specs.Files as meant;
ghost use Rattle.dwarf.specs.Numbers.{offset_bytes};

use crate::bytes::{byte_at, double_at, half_at, is_within, offset_at, unsigned_at, word_at};
use crate::entry::Text;
use crate::fault::Fault;
use crate::text::past_text;

/// `DW_FORM_data2`
const DATA_2: u64 = 0x05;

/// `DW_FORM_data4`
const DATA_4: u64 = 0x06;

/// `DW_FORM_data8`
const DATA_8: u64 = 0x07;

/// `DW_FORM_string`
const STRING: u64 = 0x08;

/// `DW_FORM_block`
const BLOCK: u64 = 0x09;

/// `DW_FORM_data1`
const DATA_1: u64 = 0x0B;

/// `DW_FORM_strp`
const STRP: u64 = 0x0E;

/// `DW_FORM_udata`
const UDATA: u64 = 0x0F;

/// `DW_FORM_data16`
const DATA_16: u64 = 0x1E;

/// `DW_FORM_line_strp`
const LINE_STRP: u64 = 0x1F;

/// What a value says.
#[derive(Clone, Copy)]
pub(crate) enum Value {
    /// A number.
    Number(u64),
    /// A text, by its place.
    Name(Text),
    /// Bytes that nothing is made of.
    Other,
}

/// A value, and the place after it.
#[derive(Clone, Copy)]
pub(crate) struct Read {
    pub value: Value,
    pub next: usize,
}

/// So many bytes, which are passed over.
fn passed(bytes: &[u8], count: u64, at: usize) -> Result<Read, Fault>
    ensures { result ≡ meant.passed bytes.now count at }
{
    let count = count as usize;
    if !is_within(bytes, at, count) {
        return Err(Fault::Short(at));
    }
    Ok(Read {
        value: Value::Other,
        next: at + count,
    })
}

/// A number, and the place after it.
fn number_read(number: u64, next: usize) -> Read
    ensures { result ≡ meant.number_read number next }
{
    Read {
        value: Value::Number(number),
        next,
    }
}

/// A number of 1, 2, 4 or 8 bytes, or in LEB128.
#[tactic(auto, unfolding(crate::specs::Files::number_value))]
fn number_value(bytes: &[u8], form: u64, at: usize) -> Result<Read, Fault>
    ensures { result ≡ meant.number_value bytes.now form at }
{
    match form {
        DATA_1 => {
            let number = byte_at(bytes, at)?;
            Ok(number_read(u64::from(number), at + 1))
        }
        DATA_2 => {
            let number = half_at(bytes, at)?;
            Ok(number_read(u64::from(number), at + 2))
        }
        DATA_4 => {
            let number = word_at(bytes, at)?;
            Ok(number_read(u64::from(number), at + 4))
        }
        DATA_8 => {
            let number = double_at(bytes, at)?;
            Ok(number_read(number, at + 8))
        }
        UDATA => {
            let (number, next) = unsigned_at(bytes, at)?;
            Ok(number_read(number, next))
        }
        _ => Err(Fault::Form(at)),
    }
}

/// A value that isn't a text.
#[tactic(auto, unfolding(crate::specs::Files::other_value))]
fn other_value(bytes: &[u8], form: u64, at: usize) -> Result<Read, Fault>
    ensures { result ≡ meant.other_value bytes.now form at }
{
    match form {
        BLOCK => {
            let (count, from) = unsigned_at(bytes, at)?;
            passed(bytes, count, from)
        }
        DATA_16 => passed(bytes, 16, at),
        _ => number_value(bytes, form, at),
    }
}

/// A text, and the place after what names it.
fn text_read(text: Text, next: usize) -> Read
    ensures { result ≡ meant.text_read text next }
{
    Read {
        value: Value::Name(text),
        next,
    }
}

/// The place after an offset: it has 8 bytes in a unit in the 64-bit format, else 4.
fn past_offset(bytes: &[u8], is_wide: bool, at: usize) -> usize
    requires { at + offset_bytes is_wide ≤ length bytes.now }
    ensures { result ≡ at + offset_bytes is_wide }
{
    at + if is_wide { 8 } else { 4 }
}

/// The value of a form that begins at a place.
#[tactic(auto, unfolding(crate::specs::Files::value))]
pub(crate) fn value_at(bytes: &[u8], is_wide: bool, form: u64, at: usize) -> Result<Read, Fault>
    ensures { result ≡ meant.value bytes.now is_wide form at }
{
    match form {
        STRING => {
            let next = past_text(bytes, at)?;
            Ok(text_read(Text::Here(at), next))
        }
        LINE_STRP => {
            let place = offset_at(bytes, at, is_wide)?;
            let next = past_offset(bytes, is_wide, at);
            Ok(text_read(Text::LineStrings(place), next))
        }
        STRP => {
            let place = offset_at(bytes, at, is_wide)?;
            let next = past_offset(bytes, is_wide, at);
            Ok(text_read(Text::Strings(place), next))
        }
        _ => other_value(bytes, form, at),
    }
}
