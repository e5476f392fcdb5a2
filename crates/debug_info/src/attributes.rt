//! What the attributes of an entry tell (DWARF 5, sections 2.2 and 7.5.4).
ghost use Rattle.std.specs.Prelude.{◌≡◌};
ghost use Rattle.debug_info.specs.Expressions as meant;
ghost use Rattle.debug_info.specs.Sections.{AreSectionsOf};

use crate::entry::{Entry, InfoUnit, Specification, Tables};
use crate::names::{ADDRESSES, NAME, ORIGIN, SPECIFICATION, STRING_OFFSETS, TYPE};
use crate::sections::{Sections, sections_of};
use crate::units::ADDRESS_BYTES;
use crate::value::{NamePlace, Value, value_at};
use dwarf::{double_at, name_at, word_at};
use std::str;

/// An entry's attribute may stand in another entry, and so on: not more often than this.
const MOST_ORIGINS: u32 = 4;

/// Bytes of a header of `.debug_addr` and of `.debug_str_offsets`, before their first number (sections 7.26 and 7.27).
const NUMBERS_HEADER: u64 = 8;

/// A search among entries halves them no more often than this.
const HALVES: u32 = 64;

/// The tables of a program, and the bytes that they were read from.
#[derive(Clone, Copy)]
pub struct Program<'a> {
    pub(crate) tables: &'a Tables,
    pub(crate) sections: Sections<'a>,
}

/// The value of an attribute among these, of which the first begins at a place.
fn value_among(
    bytes: &[u8],
    unit: &InfoUnit,
    specifications: &[Specification],
    at: usize,
    attribute: u64,
) -> Value {
    let mut next = at;
    for specification in specifications {
        let Ok(read) = value_at(bytes, unit, *specification, next) else {
            return Value::Absent;
        };
        if specification.attribute == attribute {
            return read.value;
        }
        next = read.next;
    }
    Value::Absent
}

/// The place of a number in a list of numbers of so many bytes.
pub(crate) fn place_in(base: u64, number: u64, size: u64) -> Option<usize>
    ensures { result ≡ meant.place_in base number size }
{
    let distance = number.checked_mul(size)?;
    let place = base.checked_add(distance)?;
    Some(place as usize)
}

/// The address of this number among those of a unit, which begin at a place of `.debug_addr` (section 7.27).
pub(crate) fn numbered_address(addresses: &[u8], from: u64, number: u64) -> Option<u64>
    ensures { result ≡ meant.numbered_address addresses.now from number }
{
    let place = place_in(from, number, u64::from(ADDRESS_BYTES))?;
    double_at(addresses, place).ok()
}

impl<'a> Program<'a> {
    /// The tables with the file that they were read from. Of another file they tell something else, or nothing.
    pub fn of(tables: &'a Tables, file: &'a [u8]) -> Program<'a>
        ensures tables { result.tables.now ≡ tables.now }
        ensures sections { AreSectionsOf file.now result.sections }
    {
        Program {
            tables,
            sections: sections_of(file),
        }
    }

    /// The entry of a number.
    pub(crate) fn entry(&self, number: usize) -> Option<Entry> {
        self.tables.entries.get(number).copied()
    }

    /// The unit of a number.
    pub(crate) fn unit(&self, number: usize) -> Option<InfoUnit> {
        self.tables.units.get(number).copied()
    }

    /// What an attribute of the entry itself tells.
    pub(crate) fn own(&self, entry: &Entry, attribute: u64) -> Value {
        let Some(unit) = self.unit(entry.unit) else {
            return Value::Absent;
        };
        let all = self.tables.specifications.as_slice();
        let Some(specifications) = all.get(entry.from..entry.to) else {
            return Value::Absent;
        };
        value_among(
            self.sections.info,
            &unit,
            specifications,
            entry.values,
            attribute,
        )
    }

    /// The number of the entry that begins at a place.
    fn number_of(&self, place: usize) -> Option<usize> {
        let mut low = 0;
        let mut high = self.tables.entries.len();
        for _ in 0..HALVES {
            if low >= high {
                return None;
            }
            let middle = low + (high - low) / 2;
            let entry = self.entry(middle)?;
            if entry.at == place {
                return Some(middle);
            }
            if entry.at < place {
                low = middle + 1;
            } else {
                high = middle;
            }
        }
        None
    }

    /// The number of the entry that an attribute of the entry itself names.
    fn named_entry(&self, entry: &Entry, attribute: u64) -> Option<usize> {
        match self.own(entry, attribute) {
            Value::Entry(place) => self.number_of(place),
            _ => None,
        }
    }

    /// The entry that this one completes, or of which it is an instance (sections 2.13.2 and 3.3.8.2).
    pub(crate) fn origin(&self, entry: &Entry) -> Option<usize> {
        match self.named_entry(entry, ORIGIN) {
            Some(number) => Some(number),
            None => self.named_entry(entry, SPECIFICATION),
        }
    }

    /// What an attribute of an entry tells, or of the one that it completes.
    pub(crate) fn value(&self, number: usize, attribute: u64) -> Value {
        let mut at = number;
        for _ in 0..MOST_ORIGINS {
            let Some(entry) = self.entry(at) else {
                return Value::Absent;
            };
            let found = self.own(&entry, attribute);
            if !found.is_absent() {
                return found;
            }
            let Some(next) = self.origin(&entry) else {
                return Value::Absent;
            };
            at = next;
        }
        Value::Absent
    }

    /// The number that an attribute tells.
    pub(crate) fn number(&self, number: usize, attribute: u64) -> Option<u64> {
        match self.value(number, attribute) {
            Value::Number(found) => Some(found),
            _ => None,
        }
    }

    /// The type of an entry, by its number.
    pub(crate) fn kind(&self, number: usize) -> Option<usize> {
        match self.value(number, TYPE) {
            Value::Entry(place) => self.number_of(place),
            _ => None,
        }
    }

    /// A place from which numbers or lists of a unit are counted; `otherwise` if the unit doesn't tell it.
    pub(crate) fn base(&self, unit: &InfoUnit, attribute: u64, otherwise: u64) -> u64 {
        let Some(root) = self.entry(unit.root) else {
            return otherwise;
        };
        match self.own(&root, attribute) {
            Value::Place(place) => place,
            _ => otherwise,
        }
    }

    /// Where the addresses of a unit begin in `.debug_addr`.
    pub(crate) fn addresses_from(&self, unit: &InfoUnit) -> u64 {
        self.base(unit, ADDRESSES, NUMBERS_HEADER)
    }

    /// The address of this number in `.debug_addr`.
    pub(crate) fn address_of_number(&self, unit: &InfoUnit, number: u64) -> Option<u64> {
        numbered_address(self.sections.addresses, self.addresses_from(unit), number)
    }

    /// The address that a value is.
    pub(crate) fn address(&self, unit: &InfoUnit, value: Value) -> Option<u64> {
        match value {
            Value::Address(address) => Some(address),
            Value::AddressNumber(number) => self.address_of_number(unit, number),
            _ => None,
        }
    }

    /// The number at a place, of 8 bytes in a unit in the 64-bit format, else of 4.
    fn string_place(&self, unit: &InfoUnit, number: u64) -> Option<u64> {
        let base = self.base(unit, STRING_OFFSETS, NUMBERS_HEADER);
        if unit.is_wide {
            return double_at(self.sections.string_offsets, place_in(base, number, 8)?).ok();
        }
        let place = word_at(self.sections.string_offsets, place_in(base, number, 4)?).ok()?;
        Some(u64::from(place))
    }

    /// The bytes of a name.
    fn name_bytes(&self, unit: &InfoUnit, place: NamePlace) -> Option<&'a [u8]> {
        let sections = self.sections;
        match place {
            NamePlace::Here(at) => name_at(sections.info, at).ok(),
            NamePlace::Strings(at) => name_at(sections.strings, at as usize).ok(),
            NamePlace::LineStrings(at) => name_at(sections.line_strings, at as usize).ok(),
            NamePlace::Number(number) => {
                let at = self.string_place(unit, number)?;
                name_at(sections.strings, at as usize).ok()
            }
        }
    }

    /// The name of an entry; `None` if it has none, or one that is no text, or has control characters.
    pub(crate) fn name(&self, number: usize) -> Option<&'a str> {
        let unit = self.unit(self.entry(number)?.unit)?;
        let Value::Name(place) = self.value(number, NAME) else {
            return None;
        };
        let bytes = self.name_bytes(&unit, place)?;
        if bytes.iter().any(|byte| *byte < b' ') {
            return None;
        }
        str::from_utf8(bytes).ok()
    }
}
