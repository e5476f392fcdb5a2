//! Lists of ranges and of locations: what they tell of an address (DWARF 5, sections 2.6.2 and 2.17.3).
ghost use Rattle.std.specs.Prelude.{◌≤◌, IfSome};

use crate::attributes::{Program, place_in};
use crate::entry::InfoUnit;
use crate::list_items::{Item, ListKind};
use crate::names::{LOCATION_LISTS, LOW, RANGE_LISTS};
use crate::value::{Span, Value};
use dwarf::{double_at, half_at, unsigned_at, word_at};

/// A list has no more items, or what comes after them isn't read: it may belong to each entry.
const MOST_ITEMS: u32 = 1024;

/// Bytes of the header of a table of lists, before the places of its lists (section 7.28).
const LISTS_HEADER: u64 = 12;

/// What a list of locations tells of an address.
#[derive(Clone, Copy)]
pub(crate) enum Listed {
    /// This expression.
    By(Span),
    /// Nothing: the list ends, and none of its items has the address.
    Nowhere,
    /// Something that isn't read: an item isn't understood, or there are too many.
    NotRead,
}

impl<'a> Program<'a> {
    /// The address from which those of a unit's lists are counted first.
    fn first_base(&self, unit: &InfoUnit) -> u64 {
        let Some(root) = self.entry(unit.root) else {
            return 0;
        };
        self.address(unit, self.own(&root, LOW)).unwrap_or(0)
    }

    /// Where the list of a number begins.
    fn list_of_number(&self, unit: &InfoUnit, kind: ListKind, number: u64) -> Option<usize> {
        let attribute = match kind {
            ListKind::Ranges => RANGE_LISTS,
            ListKind::Locations => LOCATION_LISTS,
        };
        let base = self.base(unit, attribute, LISTS_HEADER);
        let bytes = self.list_bytes(unit, kind);
        let distance = if unit.is_wide {
            double_at(bytes, place_in(base, number, 8)?).ok()?
        } else {
            u64::from(word_at(bytes, place_in(base, number, 4)?).ok()?)
        };
        place_in(base, distance, 1)
    }

    /// Where the list begins that a value names.
    pub(crate) fn list_place(
        &self,
        unit: &InfoUnit,
        kind: ListKind,
        value: Value,
    ) -> Option<usize> {
        match value {
            Value::Place(place) => Some(place as usize),
            Value::ListNumber(number) => self.list_of_number(unit, kind, number),
            _ => None,
        }
    }

    /// The first address of the range of a list in which this address is.
    pub(crate) fn range_with(&self, unit: &InfoUnit, at: usize, address: u64) -> Option<u64>
        ensures { IfSome result (λ low. low ≤ address) }
    {
        let mut next = at;
        let mut base = self.first_base(unit);
        for _ in 0..MOST_ITEMS {
            let read = self.item_at(unit, ListKind::Ranges, base, next)?;
            next = read.next;
            match read.item {
                Item::Addresses(from, to) if from <= address && address < to => return Some(from),
                Item::Base(from) => base = from,
                Item::End => return None,
                _ => (),
            }
        }
        None
    }

    /// What a list tells of an address. The item for all other addresses holds if no other one does.
    pub(crate) fn location_at(&self, unit: &InfoUnit, at: usize, address: u64) -> Listed {
        let bytes = self.list_bytes(unit, ListKind::Locations);
        let mut next = at;
        let mut base = self.first_base(unit);
        let mut otherwise = Listed::Nowhere;
        for _ in 0..MOST_ITEMS {
            let Some(read) = self.item_at(unit, ListKind::Locations, base, next) else {
                return Listed::NotRead;
            };
            next = read.next;
            match read.item {
                Item::End => return otherwise,
                Item::Base(from) => {
                    base = from;
                    continue;
                }
                _ => (),
            }
            let Some(expression) = expression_at(bytes, unit, next) else {
                return Listed::NotRead;
            };
            next = expression.to;
            match read.item {
                Item::Addresses(from, to) if from <= address && address < to => {
                    return Listed::By(expression);
                }
                Item::Others => otherwise = Listed::By(expression),
                _ => (),
            }
        }
        Listed::NotRead
    }
}

/// The expression of a list that begins at a place, after its length.
fn expression_at(bytes: &[u8], unit: &InfoUnit, at: usize) -> Option<Span> {
    let (count, from) = if unit.version == 4 {
        let count = half_at(bytes, at).ok()?;
        (u64::from(count), at + 2)
    } else {
        unsigned_at(bytes, at).ok()?
    };
    let to = place_in(from as u64, count, 1)?;
    if to > bytes.len() {
        return None;
    }
    Some(Span { from, to })
}
