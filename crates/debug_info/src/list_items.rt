//! Items of lists of ranges and of locations (DWARF 5, sections 2.6.2, 2.17.3, 7.25 and 7.29; version 4, sections 2.6.2
//! and 2.17.3).
use crate::attributes::Program;
use crate::entry::InfoUnit;
use dwarf::{byte_at, double_at, unsigned_at};

/// A list of which kind.
#[derive(Clone, Copy)]
pub(crate) enum ListKind {
    /// The addresses of a scope.
    Ranges,
    /// Where a variable is.
    Locations,
}

/// What an item tells.
#[derive(Clone, Copy)]
pub(crate) enum Item {
    /// The list ends.
    End,
    /// From now on addresses are counted from this one.
    Base(u64),
    /// Addresses from this one on, up to the one before the second.
    Addresses(u64, u64),
    /// All addresses that no other item has.
    Others,
}

/// An item, and the place after it.
#[derive(Clone, Copy)]
pub(crate) struct ItemRead {
    pub item: Item,
    pub next: usize,
}

/// How an item of version 5 is written (`DW_RLE_..`, `DW_LLE_..`).
#[derive(Clone, Copy)]
enum ItemForm {
    End,
    BaseNumber,
    Numbers,
    NumberLength,
    Offsets,
    Others,
    Base,
    Addresses,
    AddressLength,
}

/// The form of this number.
fn form_of(kind: ListKind, number: u8) -> Option<ItemForm> {
    let form = match (kind, number) {
        (_, 0) => ItemForm::End,
        (_, 1) => ItemForm::BaseNumber,
        (_, 2) => ItemForm::Numbers,
        (_, 3) => ItemForm::NumberLength,
        (_, 4) => ItemForm::Offsets,
        (ListKind::Ranges, 5) | (ListKind::Locations, 6) => ItemForm::Base,
        (ListKind::Ranges, 6) | (ListKind::Locations, 7) => ItemForm::Addresses,
        (ListKind::Ranges, 7) | (ListKind::Locations, 8) => ItemForm::AddressLength,
        (ListKind::Locations, 5) => ItemForm::Others,
        _ => return None,
    };
    Some(form)
}

/// So many addresses, from one on.
fn counted(from: u64, count: u64) -> Item {
    Item::Addresses(from, from.wrapping_add(count))
}

/// An item and the place after it.
fn read(item: Item, next: usize) -> Option<ItemRead> {
    Some(ItemRead { item, next })
}

impl<'a> Program<'a> {
    /// The bytes of the lists of a unit.
    pub(crate) fn list_bytes(&self, unit: &InfoUnit, kind: ListKind) -> &'a [u8] {
        match kind {
            ListKind::Ranges if unit.version == 4 => self.sections.old_ranges,
            ListKind::Ranges => self.sections.ranges,
            ListKind::Locations if unit.version == 4 => self.sections.old_locations,
            ListKind::Locations => self.sections.locations,
        }
    }

    /// An item whose addresses are numbers in `.debug_addr`.
    fn numbered_item(
        &self,
        unit: &InfoUnit,
        bytes: &[u8],
        form: ItemForm,
        at: usize,
    ) -> Option<ItemRead> {
        let (number, next) = unsigned_at(bytes, at).ok()?;
        let from = self.address_of_number(unit, number)?;
        match form {
            ItemForm::Numbers => {
                let (number, next) = unsigned_at(bytes, next).ok()?;
                let to = self.address_of_number(unit, number)?;
                read(Item::Addresses(from, to), next)
            }
            ItemForm::NumberLength => {
                let (count, next) = unsigned_at(bytes, next).ok()?;
                read(counted(from, count), next)
            }
            _ => read(Item::Base(from), next),
        }
    }

    /// An item of version 5, whose form is known, with addresses that are counted from a base.
    fn new_item(
        &self,
        unit: &InfoUnit,
        bytes: &[u8],
        form: ItemForm,
        base: u64,
        at: usize,
    ) -> Option<ItemRead> {
        match form {
            ItemForm::End => read(Item::End, at),
            ItemForm::Others => read(Item::Others, at),
            ItemForm::Offsets => {
                let (from, next) = unsigned_at(bytes, at).ok()?;
                let (to, next) = unsigned_at(bytes, next).ok()?;
                let item = Item::Addresses(base.wrapping_add(from), base.wrapping_add(to));
                read(item, next)
            }
            ItemForm::Base => {
                let from = double_at(bytes, at).ok()?;
                read(Item::Base(from), at + 8)
            }
            ItemForm::Addresses => {
                let from = double_at(bytes, at).ok()?;
                let to = double_at(bytes, at + 8).ok()?;
                read(Item::Addresses(from, to), at + 16)
            }
            ItemForm::AddressLength => {
                let from = double_at(bytes, at).ok()?;
                let (count, next) = unsigned_at(bytes, at + 8).ok()?;
                read(counted(from, count), next)
            }
            _ => self.numbered_item(unit, bytes, form, at),
        }
    }

    /// The item at a place of a list, whose addresses are counted from a base; `None` if it isn't understood.
    pub(crate) fn item_at(
        &self,
        unit: &InfoUnit,
        kind: ListKind,
        base: u64,
        at: usize,
    ) -> Option<ItemRead> {
        let bytes = self.list_bytes(unit, kind);
        if unit.version == 4 {
            return old_item(bytes, base, at);
        }
        let number = byte_at(bytes, at).ok()?;
        let form = form_of(kind, number)?;
        self.new_item(unit, bytes, form, base, at + 1)
    }
}

/// An item of version 4: two addresses. Two zeros end the list; after the largest number a base follows.
fn old_item(bytes: &[u8], base: u64, at: usize) -> Option<ItemRead> {
    let from = double_at(bytes, at).ok()?;
    let to = double_at(bytes, at + 8).ok()?;
    let item = if from == 0 && to == 0 {
        Item::End
    } else if from == u64::MAX {
        Item::Base(to)
    } else {
        Item::Addresses(base.wrapping_add(from), base.wrapping_add(to))
    };
    read(item, at + 16)
}
