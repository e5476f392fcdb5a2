//! Which accesses pages permit, many pages at a time: the lower table in which their entries stand is looked up once.
#![tactic(auto)]

ghost use Rattle.std.specs.Prelude.{◌≡◌, ℕ, ◌+◌, ◌%◌, ◌≤◌};
ghost use Rattle.std.specs.Prelude.{◌<◌, ◌⊎◌, length, true, false};
ghost use Rattle.std.specs.FinMap.{get};
ghost use Rattle.sv39_core.specs.Sv39.{entry_at, entry_permits};
ghost use Rattle.addr_space.specs.Space.{image_of, IsSpace};
ghost use Rattle.addr_space.specs.Permits.{page_permits};

use crate::{Space, lower_table};
use phys_ram::Ram;
use sv39_core::{TABLE_ENTRIES, entry_permits, lower_index};
use xk_base::{Access, Frame, Vpn};

/// How many entries of a lower table, one after another from one on, lead to pages that permit an access; `most` at
/// most. It is inlined, so that where the access is known, so are the bits that each entry is asked for.
#[inline(always)]
fn count_permitting(ram: &Ram, table: Frame, from: usize, access: Access, most: usize) -> usize
    requires table_in { table < length ram.now }
    requires from_in { from < 512 }
    ensures few { result ≤ most }
    ensures inside { from + result ≤ 512 }
    ensures each { (k : ℕ) → k < result → entry_permits access (entry_at ram.now table (from + k)) ≡ true }
    ensures ends { result < most
        → (from + result ≡ 512)
        ⊎ (entry_permits access (entry_at ram.now table (from + result)) ≡ false) }
{
    let count = most.min(TABLE_ENTRIES - from);
    for passed in 0..count {
        if !entry_permits(ram, table, from + passed, access) {
            return passed;
        }
    }
    count
}

/// The same, by a loop of its own for each kind of access.
fn entries_permitting(ram: &Ram, table: Frame, from: usize, access: Access, most: usize) -> usize
    requires table_in { table < length ram.now }
    requires from_in { from < 512 }
    ensures few { result ≤ most }
    ensures inside { from + result ≤ 512 }
    ensures each { (k : ℕ) → k < result → entry_permits access (entry_at ram.now table (from + k)) ≡ true }
    ensures ends { result < most
        → (from + result ≡ 512)
        ⊎ (entry_permits access (entry_at ram.now table (from + result)) ≡ false) }
{
    match access {
        Access::Fetch => count_permitting(ram, table, from, Access::Fetch, most),
        Access::Load => count_permitting(ram, table, from, Access::Load, most),
        Access::Store => count_permitting(ram, table, from, Access::Store, most),
    }
}

impl Space {
    /// How many pages, one after another from a page on, permit an access to user code: `most` at most, and none
    /// behind the 512 pages whose entries stand in one table with the first one's.
    pub fn pages_permitting(&self, ram: &Ram, vpn: Vpn, access: Access, most: usize) -> usize
        requires { IsSpace ram.now self.now }
        ensures few { result ≤ most }
        ensures inside { vpn % 512 + result ≤ 512 }
        ensures each { (k : ℕ) → k < result
            → page_permits access (get (image_of ram.now self.now).pages (vpn + k)) ≡ true }
        ensures ends { result < most
            → (vpn % 512 + result ≡ 512)
            ⊎ (page_permits access (get (image_of ram.now self.now).pages (vpn + result)) ≡ false) }
    {
        let number = vpn.number() as usize;
        let Some(lower) = lower_table(ram, self.root, number) else {
            return 0;
        };
        entries_permitting(ram, lower, lower_index(number), access, most)
    }
}
