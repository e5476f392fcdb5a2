//! Which entries of its tables lead to a virtual page, as xv6's `PX`.
//!
//! A root's entries lead to upper tables, an upper table's to lower ones, and a lower table's to pages.
ghost use Rattle.std.specs.Prelude.{◌≡◌, ◌+◌, ◌*◌, ◌/◌, ◌%◌, ◌^◌, ◌<◌, ◌≤◌};

/// How many entries a table has, and so how many pages a lower table leads to.
pub const TABLE_ENTRIES: usize = 512;

/// How many pages lie below an upper table.
pub const UPPER_TABLE_PAGES: usize = TABLE_ENTRIES * TABLE_ENTRIES;

/// The entry of the root on the way to a page.
#[inline(always)]
pub fn root_index(page: usize) -> usize
    ensures { result ≡ page / 262144 }
{
    page / UPPER_TABLE_PAGES
}

/// The entry of the upper table on the way to a page.
#[inline(always)]
pub fn upper_index(page: usize) -> usize
    ensures { result ≡ page / 512 % 512 }
{
    page / TABLE_ENTRIES % TABLE_ENTRIES
}

/// The entry of the lower table that leads to a page.
#[inline(always)]
pub fn lower_index(page: usize) -> usize
    ensures { result ≡ page % 512 }
{
    page % TABLE_ENTRIES
}

/// The first page of the lower table on the way to a page.
#[inline(always)]
pub fn lower_table_start(page: usize) -> usize
    ensures value { result ≡ page / 512 * 512 }
    ensures before { result ≤ page }
{
    page / TABLE_ENTRIES * TABLE_ENTRIES
}

/// The first page behind those of the lower table on the way to a page.
#[inline(always)]
pub fn lower_table_end(page: usize) -> usize
    requires { page < 2 ^ 27 }
    ensures value { result ≡ (page / 512 + 1) * 512 }
    ensures behind { page < result }
{
    (page / TABLE_ENTRIES + 1) * TABLE_ENTRIES
}

/// The first page behind those below the upper table on the way to a page.
#[inline(always)]
pub fn upper_table_end(page: usize) -> usize
    requires { page < 2 ^ 27 }
    ensures value { result ≡ (page / 262144 + 1) * 262144 }
    ensures behind { page < result }
{
    (page / UPPER_TABLE_PAGES + 1) * UPPER_TABLE_PAGES
}
