//! Values of one number, as text (DWARF 5, sections 5.1.1 and 5.7).
ghost use Rattle.std.specs.Prelude.{◌<◌, ◌≤◌, ◌≡◌, ◌^◌, ◌-◌, OnOk, string_bytes};
ghost use Rattle.std.specs.Int.{cast_unsigned, w64};
ghost use Rattle.debug_info.specs.Texts as meant;

use crate::attributes::Program;
use crate::names::{BYTE_ORDER, CONSTANT_VALUE, ENCODING};
use crate::numbers::{highest_of, signed_of, unsigned_of};
use crate::sight::Sight;
use crate::spots::Spot;
use crate::tags::{BASE, ENUMERATION, ENUMERATOR, POINTER};
use crate::texts::{NOT_THERE, add_character};
use crate::value::Value;
use std::alloc::AllocError;

/// The names of an enumeration are sought among so many entries after its own.
const MOST_ENUMERATORS: usize = 1024;

/// What is told in place of a type that isn't understood.
pub(crate) const UNKNOWN: &str = "<unknown type>";

/// What is told of a value that the tables tell in a way that isn't read.
pub(crate) const NOT_KNOWN: &str = "<not known here>";

/// The value of the highest bit of a character.
const HIGHEST_OF_CHARACTER: u64 = 0x80;

/// A number has so many bits at most.
const NUMBER_BITS: u64 = 64;

/// `DW_ATE_signed` and `DW_ATE_unsigned` (section 7.8).
const SIGNED: u64 = 5;

const UNSIGNED: u64 = 7;

/// A byte has so many values.
const BYTE_VALUES: u64 = 256;

/// Bits of a byte.
pub(crate) const BYTE_BITS: u64 = 8;

/// `DW_END_default` and `DW_END_little` (section 7.8): the lowest byte comes first.
const LOWEST_FIRST: [u64; 2] = [0, 2];

/// What a number of a type is.
#[derive(Clone, Copy)]
pub(crate) enum Scalar {
    /// Of a base type of this encoding (`DW_ATE_..`).
    Base(u64),
    /// An address.
    Pointer,
    /// One that may have a name in an enumeration.
    Enumeration,
    /// Of a base type whose bytes stand in another order.
    Turned,
    /// Something else.
    Other,
}

/// Where a number of bits stands in a structure.
#[derive(Clone, Copy)]
pub(crate) struct Field {
    /// How many bits stand before it.
    pub place: u64,
    /// How many bits it has.
    pub bits: u64,
}

/// Whether a number of C may have so many bytes.
fn is_size(size: u64) -> bool
    ensures { result ≡ meant.is_size size }
{
    size == 1 || size == 2 || size == 4 || size == 8
}

/// Adds a character, and the quote after it.
#[tactic(auto, unfolding(crate::specs::Texts::quoted_text))]
fn add_quoted(text: &mut String, byte: u8) -> Result<(), AllocError>
    ensures { OnOk result (meant.Adds (meant.quoted_text byte) (string_bytes text.old) (string_bytes text.new)) }
{
    add_character(text, byte, b'\'')?;
    text.push_str("'")
}

/// Adds a character: its code, and how it is shown.
#[tactic(auto, unfolding(crate::specs::Texts::code_text))]
fn add_code(text: &mut String, code: i64) -> Result<(), AllocError>
    ensures { OnOk result (meant.Adds (meant.code_text code) (string_bytes text.old) (string_bytes text.new)) }
{
    let low = (code.cast_unsigned() % BYTE_VALUES) as u8;
    write!(text, "{code} '")?;
    add_quoted(text, low)
}

/// Adds a character whose bits go up to the one of this value: 8 at most.
fn add_short_code(text: &mut String, code: i64, highest: u64) -> Result<(), AllocError>
    ensures { OnOk result
        (meant.Adds (meant.short_code_text highest code) (string_bytes text.old) (string_bytes text.new)) }
{
    if highest > HIGHEST_OF_CHARACTER {
        return text.push_str(UNKNOWN);
    }
    add_code(text, code)
}

/// Adds a number of a base type: its bits go up to the one of this value.
fn add_base(text: &mut String, encoding: u64, number: u64, highest: u64) -> Result<(), AllocError>
    requires positive { 0 < highest }
    requires small { highest ≤ 2 ^ 63 }
    ensures { OnOk result
        (meant.Adds (meant.number_text encoding highest number) (string_bytes text.old) (string_bytes text.new)) }
{
    let unsigned = unsigned_of(number, highest);
    let signed = signed_of(number, highest);
    match encoding {
        // boolean
        2 if unsigned == 0 => text.push_str("false"),
        2 if unsigned == 1 => text.push_str("true"),
        2 => write!(text, "{unsigned}"),
        // float
        4 => write!(text, "bits 0x{unsigned:x}"),
        SIGNED => write!(text, "{signed}"),
        // signed_char
        6 => add_short_code(text, signed, highest),
        UNSIGNED => write!(text, "{unsigned}"),
        // unsigned_char
        8 => add_short_code(text, unsigned.cast_signed(), highest),
        _ => text.push_str(UNKNOWN),
    }
}

impl<'a> Program<'a> {
    /// What a number of a type is.
    fn scalar_of(&self, kind: usize) -> Scalar {
        let Some(entry) = self.entry(kind) else {
            return Scalar::Other;
        };
        match entry.tag {
            POINTER => Scalar::Pointer,
            ENUMERATION => Scalar::Enumeration,
            BASE => match self.value(kind, BYTE_ORDER) {
                Value::Absent => Scalar::Base(self.number(kind, ENCODING).unwrap_or(0)),
                Value::Number(order) if LOWEST_FIRST.contains(&order) => {
                    Scalar::Base(self.number(kind, ENCODING).unwrap_or(0))
                }
                _ => Scalar::Turned,
            },
            _ => Scalar::Other,
        }
    }

    /// The name that an enumeration has for a number.
    fn enumerator(&self, enumeration: usize, number: u64, highest: u64) -> Option<&'a str>
        requires positive { 0 < highest }
        requires small { highest ≤ 2 ^ 63 }
    {
        let depth = self.entry(enumeration)?.depth;
        let wanted = unsigned_of(number, highest);
        for distance in 1..=MOST_ENUMERATORS {
            let at = enumeration.checked_add(distance)?;
            let entry = self.entry(at)?;
            if entry.depth <= depth {
                return None;
            }
            let value = self
                .number(at, CONSTANT_VALUE)
                .map(|it| unsigned_of(it, highest));
            if entry.tag == ENUMERATOR && value == Some(wanted) {
                return self.name(at);
            }
        }
        None
    }

    /// Whether the numbers of an enumeration have no sign, by the type that it tells (section 5.7).
    fn is_unsigned(&self, enumeration: usize) -> bool {
        let Some(kind) = self.kind(enumeration) else {
            return false;
        };
        let Some(base) = self.meant(kind) else {
            return false;
        };
        matches!(self.number(base, ENCODING), Some(UNSIGNED | 8))
    }

    /// Adds a number of an enumeration: its name, or itself.
    fn add_name(
        &self,
        text: &mut String,
        kind: usize,
        number: u64,
        highest: u64,
    ) -> Result<(), AllocError>
        requires positive { 0 < highest }
        requires small { highest ≤ 2 ^ 63 }
    {
        match self.enumerator(kind, number, highest) {
            Some(name) => text.push_str(name),
            None if self.is_unsigned(kind) => add_base(text, UNSIGNED, number, highest),
            None => add_base(text, SIGNED, number, highest),
        }
    }

    /// Adds a number of a type that has one, whose bits go up to the one of this value.
    fn add_number(
        &self,
        text: &mut String,
        kind: usize,
        scalar: Scalar,
        number: u64,
        highest: u64,
    ) -> Result<(), AllocError>
        requires positive { 0 < highest }
        requires small { highest ≤ 2 ^ 63 }
        ensures { OnOk result
            (meant.AddsIf (meant.scalar_text scalar highest number) (string_bytes text.old) (string_bytes text.new)) }
    {
        match scalar {
            Scalar::Base(encoding) => add_base(text, encoding, number, highest),
            Scalar::Pointer => write!(text, "0x{number:x}"),
            Scalar::Enumeration => self.add_name(text, kind, number, highest),
            Scalar::Turned => text.push_str(NOT_KNOWN),
            Scalar::Other => text.push_str(UNKNOWN),
        }
    }

    /// Adds the number of so many bytes that begins at a place.
    fn add_read<S: Sight>(
        &self,
        text: &mut String,
        sight: &S,
        kind: usize,
        scalar: Scalar,
        spot: Spot,
        size: u64,
    ) -> Result<(), AllocError>
        ensures { OnOk result (meant.AddsIf (meant.value_text scalar size (S.bytes sight.now) spot)
            (string_bytes text.old) (string_bytes text.new)) }
    {
        if !is_size(size) {
            return text.push_str(NOT_KNOWN);
        }
        let Some(number) = spot.number(sight, size) else {
            return text.push_str(NOT_THERE);
        };
        self.add_number(text, kind, scalar, number, highest_of(size))
    }

    /// Adds the number of so many bits that begins after so many bits behind a place (section 5.7.6).
    fn add_field<S: Sight>(
        &self,
        text: &mut String,
        sight: &S,
        kind: usize,
        scalar: Scalar,
        spot: Spot,
        field: Field,
    ) -> Result<(), AllocError>
        ensures { OnOk result (meant.AddsIf (meant.field_text scalar field (S.bytes sight.now) spot)
            (string_bytes text.old) (string_bytes text.new)) }
    {
        let shift = field.place % BYTE_BITS;
        if field.bits == 0 || field.bits > NUMBER_BITS - shift {
            return text.push_str(NOT_KNOWN);
        }
        let first = spot.after(field.place / BYTE_BITS);
        let Some(number) = first.number(sight, (shift + field.bits + 7) / BYTE_BITS) else {
            return text.push_str(NOT_THERE);
        };
        self.add_number(text, kind, scalar, number >> shift, 1 << (field.bits - 1))
    }

    /// Adds the value of a type that has a number, of so many bytes, that begins at a place.
    pub(crate) fn add_value<S: Sight>(
        &self,
        text: &mut String,
        sight: &S,
        kind: usize,
        spot: Spot,
        size: u64,
    ) -> Result<(), AllocError> {
        self.add_read(text, sight, kind, self.scalar_of(kind), spot, size)
    }

    /// Adds the value of a type that has a number, of so many bits, in a structure that begins at a place.
    pub(crate) fn add_bits<S: Sight>(
        &self,
        text: &mut String,
        sight: &S,
        kind: usize,
        spot: Spot,
        field: Field,
    ) -> Result<(), AllocError> {
        self.add_field(text, sight, kind, self.scalar_of(kind), spot, field)
    }
}
