//! Values of attributes (DWARF 5, section 7.5.5).
use crate::entry::{InfoUnit, Specification};
use crate::form::{Layout, Meaning, layout_of, meaning_of};
use dwarf::{
    Fault, byte_at, double_at, half_at, offset_at, past_text, signed_at, unsigned_at, word_at,
};

/// Where a name stands.
#[derive(Clone, Copy)]
pub(crate) enum NamePlace {
    /// In `.debug_info` itself.
    Here(usize),
    /// In `.debug_str`.
    Strings(u64),
    /// In `.debug_line_str`.
    LineStrings(u64),
    /// In `.debug_str`, by its number in `.debug_str_offsets`.
    Number(u64),
}

/// Bytes of `.debug_info`, or of another section of locations.
#[derive(Clone, Copy)]
pub(crate) struct Span {
    /// Where they begin.
    pub from: usize,
    /// Where they end.
    pub to: usize,
}

/// What an attribute tells.
#[derive(Clone, Copy)]
pub(crate) enum Value {
    /// The entry doesn't have the attribute.
    Absent,
    /// A number; a negative one in two's complement.
    Number(u64),
    /// An address.
    Address(u64),
    /// The number of an address in `.debug_addr`.
    AddressNumber(u64),
    /// A text.
    Name(NamePlace),
    /// The entry that begins at this place.
    Entry(usize),
    /// Bytes: an expression, or a value.
    Block(Span),
    /// A place in another section.
    Place(u64),
    /// The number of a list.
    ListNumber(u64),
    /// Something that isn't read.
    Other,
}

/// The number and the bytes of a value.
#[derive(Clone, Copy)]
struct Raw {
    number: u64,
    from: usize,
    next: usize,
}

/// A value, and the place after it.
#[derive(Clone, Copy)]
pub(crate) struct Read {
    pub value: Value,
    pub next: usize,
}

/// A number of 1, 2, 3, 4 or 8 bytes, and the place after it.
fn number_at(bytes: &[u8], count: u8, at: usize) -> Result<(u64, usize), Fault> {
    match count {
        1 => {
            let number = byte_at(bytes, at)?;
            Ok((u64::from(number), at + 1))
        }
        2 => {
            let number = half_at(bytes, at)?;
            Ok((u64::from(number), at + 2))
        }
        3 => {
            let low = half_at(bytes, at)?;
            let high = byte_at(bytes, at + 2)?;
            Ok((u64::from(low) + 0x1_0000 * u64::from(high), at + 3))
        }
        4 => {
            let number = word_at(bytes, at)?;
            Ok((u64::from(number), at + 4))
        }
        _ => {
            let number = double_at(bytes, at)?;
            Ok((number, at + 8))
        }
    }
}

/// So many bytes from a place on.
fn block_at(bytes: &[u8], count: u64, at: usize) -> Result<Raw, Fault> {
    if at > bytes.len() || count > (bytes.len() - at) as u64 {
        return Err(Fault::Short(at));
    }
    Ok(Raw {
        number: count,
        from: at,
        next: at + count as usize,
    })
}

/// A number that was read, and the place after it.
fn plain(read: (u64, usize)) -> Raw {
    Raw {
        number: read.0,
        from: read.1,
        next: read.1,
    }
}

/// The number and the bytes of a value that begins at a place.
fn raw_at(bytes: &[u8], is_wide: bool, layout: Layout, at: usize) -> Result<Raw, Fault> {
    match layout {
        Layout::Nothing => Ok(plain((1, at))),
        Layout::Bytes(16) => block_at(bytes, 16, at),
        Layout::Bytes(count) => Ok(plain(number_at(bytes, count, at)?)),
        Layout::Offset => {
            let count = if is_wide { 8 } else { 4 };
            Ok(plain(number_at(bytes, count, at)?))
        }
        Layout::Unsigned => Ok(plain(unsigned_at(bytes, at)?)),
        Layout::Signed => {
            let (number, next) = signed_at(bytes, at)?;
            Ok(plain((number.cast_unsigned(), next)))
        }
        Layout::Text => Ok(Raw {
            number: 0,
            from: at,
            next: past_text(bytes, at)?,
        }),
        Layout::Block(count) => {
            let (number, from) = number_at(bytes, count, at)?;
            block_at(bytes, number, from)
        }
        Layout::LongBlock => {
            let (number, from) = unsigned_at(bytes, at)?;
            block_at(bytes, number, from)
        }
    }
}

/// The entry at a place of a unit.
fn entry_in(unit_at: usize, number: u64) -> Value {
    match unit_at.checked_add(number as usize) {
        Some(place) => Value::Entry(place),
        None => Value::Other,
    }
}

/// What a value stands for.
fn value_of(unit_at: usize, specification: Specification, raw: Raw) -> Value {
    match meaning_of(specification.form) {
        Meaning::Number => Value::Number(raw.number),
        Meaning::Constant => Value::Number(specification.constant.cast_unsigned()),
        Meaning::Address => Value::Address(raw.number),
        Meaning::AddressNumber => Value::AddressNumber(raw.number),
        Meaning::Here => Value::Name(NamePlace::Here(raw.from)),
        Meaning::Strings => Value::Name(NamePlace::Strings(raw.number)),
        Meaning::LineStrings => Value::Name(NamePlace::LineStrings(raw.number)),
        Meaning::StringNumber => Value::Name(NamePlace::Number(raw.number)),
        Meaning::InUnit => entry_in(unit_at, raw.number),
        Meaning::InSection => Value::Entry(raw.number as usize),
        Meaning::Block => Value::Block(Span {
            from: raw.from,
            to: raw.next,
        }),
        Meaning::Place => Value::Place(raw.number),
        Meaning::ListNumber => Value::ListNumber(raw.number),
        Meaning::Other => Value::Other,
    }
}

/// The value of an attribute that begins at a place.
///
/// # Errors
///
/// [`Fault::Form`] if its form isn't known; [`Fault::Short`] or [`Fault::TooLarge`] if its bytes are damaged.
pub(crate) fn value_at(
    bytes: &[u8],
    unit: &InfoUnit,
    specification: Specification,
    at: usize,
) -> Result<Read, Fault> {
    let Some(layout) = layout_of(specification.form) else {
        return Err(Fault::Form(at));
    };
    let raw = raw_at(bytes, unit.is_wide, layout, at)?;
    Ok(Read {
        value: value_of(unit.at, specification, raw),
        next: raw.next,
    })
}

impl Value {
    /// Whether the entry doesn't have the attribute.
    pub(crate) fn is_absent(&self) -> bool {
        matches!(self, Value::Absent)
    }
}
