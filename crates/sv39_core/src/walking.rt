//! The walk from a virtual address to a frame.
ghost use Rattle.std.specs.Prelude.{ℕ, ◌≡◌, ◌<◌, ◌/◌, ◌%◌, ◌^◌};
ghost use Rattle.std.specs.Prelude.{[], ◌∷◌, length, true, false, if◌then◌else◌};
ghost use Rattle.std.specs.Prelude.{Some, None, IfOk, IfSome, MatchResult, MatchOption};
ghost use Rattle.xk_base.specs.declared.access.Access.{Access};
ghost use Rattle.xk_base.specs.declared.access.Access.TheVariants.{Fetch, Load, Store};
ghost use Rattle.sv39_core.specs.Sv39.{allowed, entry_at, entry_of, entry_permits};
ghost use Rattle.sv39_core.specs.Sv39.{is_canonical, table_of, walked, page_fault};

use crate::entry::{Entry, Pte, Reached};
use crate::index::{TABLE_ENTRIES, lower_index, root_index, upper_index};
use phys_ram::Ram;
use xk_base::{Access, Cause, Frame, page_offset};

/// Entry `i`, below [`TABLE_ENTRIES`], of the table in a frame.
pub fn read_entry(ram: &Ram, table: Frame, i: usize) -> Entry
    requires table_in { table < length ram.now }
    requires entry_in { i < 512 }
    ensures { result ≡ entry_at ram.now table i }
{
    Pte::from_bits(ram.read_u64(table, i)).entry(ram.frames())
}

/// Whether entry `i`, below [`TABLE_ENTRIES`], of the table in a frame leads to a page whose rights let user code make
/// an access. A and D decide nothing here.
#[inline(always)]
pub fn entry_permits(ram: &Ram, table: Frame, i: usize, access: Access) -> bool
    requires table_in { table < length ram.now }
    requires entry_in { i < 512 }
    ensures { result ≡ entry_permits access (entry_at ram.now table i) }
{
    Pte::from_bits(ram.read_u64(table, i)).grants(access, ram.frames())
}

/// The table that entry `i`, below [`TABLE_ENTRIES`], of the table in a frame leads to; None where it leads to none.
pub fn read_table(ram: &Ram, table: Frame, i: usize) -> Option<Frame>
    requires table_in { table < length ram.now }
    requires entry_in { i < 512 }
    ensures table { result ≡ table_of (entry_at ram.now table i) }
    ensures inside { IfSome result (λ f. f < length ram.now) }
{
    Pte::from_bits(ram.read_u64(table, i)).next_table(ram.frames())
}

/// The upper table on the way to a page of a root; None where there is none.
#[inline(always)]
pub fn read_upper_table(ram: &Ram, root: Frame, page: usize) -> Option<Frame>
    requires table_in { root < length ram.now }
    requires page { page < 2 ^ 27 }
    ensures table { result ≡ table_of (entry_at ram.now root (page / 262144)) }
    ensures inside { IfSome result (λ f. f < length ram.now) }
{
    read_table(ram, root, root_index(page))
}

/// The lower table on the way to a page below an upper table; None where there is none.
#[inline(always)]
pub fn read_lower_table(ram: &Ram, upper: Frame, page: usize) -> Option<Frame>
    requires table_in { upper < length ram.now }
    ensures table { result ≡ table_of (entry_at ram.now upper (page / 512 % 512)) }
    ensures inside { IfSome result (λ f. f < length ram.now) }
{
    read_table(ram, upper, upper_index(page))
}

/// The entry of a page in a lower table.
#[inline(always)]
pub fn read_page_entry(ram: &Ram, lower: Frame, page: usize) -> Entry
    requires table_in { lower < length ram.now }
    ensures { result ≡ entry_at ram.now lower (page % 512) }
{
    read_entry(ram, lower, lower_index(page))
}

/// The three indexes of a virtual address, the root's first. None exactly where the address isn't
/// canonical: where its bits 63 to 39 don't all equal its bit 38.
pub fn split(va: u64) -> Option<[usize; 3]>
    ensures { MatchOption result (is_canonical va ≡ false) (λ is.
        (is_canonical va ≡ true) × (is ≡ va / 2 ^ 30 % 512 ∷ va / 2 ^ 21 % 512 ∷ va / 2 ^ 12 % 512 ∷ [])) }
{
    let sign = (va >> 38) % 2;
    if va >> 39 != ((1 << 25) - 1) * sign {
        return None;
    }
    Some([
        (va >> 30) as usize % TABLE_ENTRIES,
        (va >> 21) as usize % TABLE_ENTRIES,
        (va >> 12) as usize % TABLE_ENTRIES,
    ])
}

/// The last entry on the way to a virtual address through the tables below a root. None where a walk ends before it:
/// the address isn't canonical, or an entry leads to no table.
fn last_entry(ram: &Ram, root: Frame, va: u64) -> Option<Pte>
    requires { root < length ram.now }
    ensures { MatchOption result ((access : Access) → walked ram.now root va access ≡ None) (λ pte.
        (access : Access)
        → walked ram.now root va access ≡ allowed access (entry_of (length ram.now) pte) (va % 4096)) }
{
    let indexes = split(va)?;
    let upper = read_table(ram, root, indexes[0])?;
    let lower = read_table(ram, upper, indexes[1])?;
    Some(Pte::from_bits(ram.read_u64(lower, indexes[2])))
}

fn page_fault(access: Access) -> Cause
    ensures { result ≡ page_fault access }
{
    match access {
        Access::Fetch => Cause::FetchPageFault,
        Access::Load => Cause::LoadPageFault,
        Access::Store => Cause::StorePageFault,
    }
}

/// The frame, and the offset in it (below [`FRAME_BYTES`](xk_base::limits::FRAME_BYTES)), that an access to a virtual
/// address reaches through the tables below a root. Otherwise the page fault of the access's kind.
pub fn walk(ram: &Ram, root: Frame, va: u64, access: Access) -> Result<(Frame, usize), Cause>
    requires { root < length ram.now }
    ensures walked { MatchResult result (λ to. walked ram.now root va access ≡ Some (to.0, to.1))
        (λ cause. (walked ram.now root va access ≡ None) × (cause ≡ page_fault access)) }
    ensures inside { IfOk result (λ to. (to.0 < length ram.now) × (to.1 < 2 ^ 12)) }
{
    let Some(entry) = last_entry(ram, root, va) else {
        return Err(page_fault(access));
    };
    let Some(frame) = entry.reached(access, ram.frames()) else {
        return Err(page_fault(access));
    };
    Ok((frame, page_offset(va)))
}

/// The frame of the page at a virtual address, through the tables below a root, and for each kind of access
/// whether `walk` succeeds. None only where it succeeds for no kind.
pub fn reach(ram: &Ram, root: Frame, va: u64) -> Option<Reached>
    requires { root < length ram.now }
    ensures fetch { MatchOption result (walked ram.now root va Fetch ≡ None) (λ r.
        walked ram.now root va Fetch ≡ (if r.fetch then Some (r.frame, va % 4096) else None)) }
    ensures load { MatchOption result (walked ram.now root va Load ≡ None) (λ r.
        walked ram.now root va Load ≡ (if r.load then Some (r.frame, va % 4096) else None)) }
    ensures store { MatchOption result (walked ram.now root va Store ≡ None) (λ r.
        walked ram.now root va Store ≡ (if r.store then Some (r.frame, va % 4096) else None)) }
    ensures inside { IfSome result (λ r. r.frame < length ram.now) }
{
    last_entry(ram, root, va)?.page(ram.frames())
}
