//! Which addresses belong to a scope (DWARF 5, section 2.17).
ghost use Rattle.std.specs.Prelude.{◌≤◌, IfSome};

use crate::attributes::Program;
use crate::entry::{Entry, InfoUnit};
use crate::list_items::ListKind;
use crate::names::{HIGH, LOW, RANGES};
use crate::value::Value;

impl<'a> Program<'a> {
    /// The address after the last one of an entry that begins at `low`.
    pub(crate) fn high(&self, unit: &InfoUnit, entry: &Entry, low: u64) -> Option<u64> {
        match self.own(entry, HIGH) {
            Value::Number(count) => low.checked_add(count),
            other => self.address(unit, other),
        }
    }

    /// The first address of the range of an entry in which this address is; `None` if it isn't the entry's.
    pub(crate) fn start_of(&self, entry: &Entry, address: u64) -> Option<u64>
        ensures { IfSome result (λ low. low ≤ address) }
    {
        let unit = self.unit(entry.unit)?;
        let ranges = self.own(entry, RANGES);
        if let Some(at) = self.list_place(&unit, ListKind::Ranges, ranges) {
            return self.range_with(&unit, at, address);
        }
        let low = self.address(&unit, self.own(entry, LOW))?;
        let high = self.high(&unit, entry, low)?;
        if low <= address && address < high {
            Some(low)
        } else {
            None
        }
    }

    /// Whether an entry may have an address: it doesn't tell which it has, or has it.
    pub(crate) fn may_have(&self, entry: &Entry, address: u64) -> bool {
        if self.own(entry, RANGES).is_absent() && self.own(entry, HIGH).is_absent() {
            return true;
        }
        self.start_of(entry, address).is_some()
    }

    /// Whether a unit may have an address.
    pub(crate) fn unit_may_have(&self, number: usize, address: u64) -> bool {
        let Some(unit) = self.unit(number) else {
            return false;
        };
        let Some(root) = self.entry(unit.root) else {
            return false;
        };
        self.may_have(&root, address)
    }
}
