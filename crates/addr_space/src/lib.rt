//! Address spaces: the memory of a process, as Sv39 page tables in RAM
//! (RISC-V Privileged ISA, "Sv39: Page-Based 39-bit Virtual-Memory System").
//!
//! A [`Space`] is the root of a tree of tables, a size, two counts and a number behind its last page; all
//! else stands in RAM. Contracts see, in this crate's `specs/`, the image that it stands for (a finite
//! map from page numbers to rights and bytes, and the size), and the frames that it owns. A space owns
//! exactly as many frames as its image's `price`: the root, each table that leads to a page, and the
//! pages. A call that takes frames refuses exactly where the price would rise by more than the free
//! frames, and then changes nothing. Each call moves frames between the free ones and its own space
//! alone, and leaves all others' bytes.
#![tactic(auto)]

ghost use Rattle.std.specs.Prelude.{◌≡◌, ℕ, ◌+◌, ◌*◌, ◌/◌, ◌%◌};
ghost use Rattle.std.specs.Prelude.{◌^◌, ◌<◌, ◌≤◌, length, Some, None, true};
ghost use Rattle.std.specs.Prelude.{IfOk, IfErr, IfSome, IfNone, IsSome, List, []};
ghost use Rattle.std.specs.Prelude.{◌-◌, option_map, false, take, drop, min};
ghost use Rattle.xk_base.specs.Frames.{copies};
ghost use Rattle.frame_list.specs.Pool.{free_in, Good};
ghost use Rattle.sv39_core.specs.Sv39.{table_at, page_entry, entry_at, table_of, walked};
ghost use Rattle.xk_base.specs.declared.access.Access.{Access};
ghost use Rattle.xk_base.specs.declared.limits.TheConstants.{SIZE_LIMIT};
ghost use Rattle.xk_base.specs.Access.{IsPerm};
ghost use Rattle.xk_base.specs.declared.access.Rights.{Rights};
ghost use Rattle.xk_base.specs.Image.{Page, price, with_page, no_pages, page_count};
ghost use Rattle.addr_space.specs.PlainPrice.{plain_price};
ghost use Rattle.addr_space.specs.Changes.{zeroed, grown, perm_of_page, shrunk, protected, overwritten};
ghost use Rattle.addr_space.specs.InPlace.{WrittenInPlace};
ghost use Rattle.xk_base.specs.Bytes.{write_image};
ghost use Rattle.addr_space.specs.Steps.{Hanging, Placing, Holds, SameImage, PageAdded};
ghost use Rattle.addr_space.specs.Steps.{missing, rise, Beside, Cleared, Freed};
ghost use Rattle.sv39_core.specs.Tree.{IsTree, page_at, pages_of, page_frames, frame_of};
ghost use Rattle.addr_space.specs.Space.{image_of, Belongs, Changed, Unchanged, Made};
ghost use Rattle.addr_space.specs.Space.{IsSpace, Usual, frames_of, SparesOthers, Isolation, Affords, IsTooDear};
ghost use Rattle.addr_space.specs.Translations.{TranslationsStay, WalksStay, WalksStayBelow, WalksStayBeside};
ghost use Rattle.frame_list.specs.Traded.{Traded};
ghost use Rattle.std.specs.FinMap.{get, len};
ghost use Rattle.sv39_core.specs.declared.entry.Entry.TheVariants.{Invalid, Leaf};

use frame_list::Pool;
use phys_ram::Ram;
use sv39_core::{
    Entry, Pte, TABLE_ENTRIES, lower_index, lower_table_end, lower_table_start, read_entry,
    read_lower_table, read_page_entry, read_table, read_upper_table, root_index, upper_index,
    upper_table_end,
};

mod absent;
mod across;
mod fast;

use xk_base::limits::VPN_END;
use xk_base::{Frame, NoFrames, Perm, Rights, Vpn, page_count};

/// The memory of a process: its pages as tables in frames of RAM, and its size in bytes.
///
/// It holds no memory of the host, and its frames are lost unless it is given back by
/// [`drop_all`](Space::drop_all).
#[derive(Drop)]
pub struct Space {
    root: Frame,
    size: u64,
    /// How many pages there are.
    pages: u32,
    /// How many tables there are, the root among them.
    tables: u32,
    /// All pages have lower numbers than this one.
    end: u32,
}

impl Space {
    /// A space without pages, of size 0. It takes one frame, for its root.
    ///
    /// Errors: `NoFrames` exactly where no frame is free.
    pub fn empty(pool: &mut Pool, ram: &mut Ram) -> Result<Space, NoFrames>
        requires good { Good pool.old ram.old }
        ensures made { IfOk result (λ space. Made pool.old ram.old pool.new ram.new space) }
        ensures belongs { IfOk result (λ space. Belongs pool.new ram.new space) }
        ensures image { IfOk result (λ space. image_of ram.new space ≡ no_pages) }
        ensures others { IfOk result (λ _. SparesOthers pool.old ram.old [] ram.new) }
        ensures refused { IfErr result (λ _.
            (length (free_in pool.old ram.old) ≡ 0) × (pool.new ≡ pool.old) × (ram.new ≡ ram.old)) }
    {
        let Some(root) = pool.take(ram) else {
            return Err(NoFrames);
        };
        Ok(Space {
            root,
            size: 0,
            pages: 0,
            tables: 1,
            end: 0,
        })
    }

    /// The frame of the root, the uppermost table: what the `satp` register names.
    pub fn root(&self) -> Frame
        ensures { result ≡ self.now.root }
    {
        self.root
    }

    /// The size in bytes. Pages may be absent below it, and present above it.
    pub fn size(&self) -> u64
        ensures { result ≡ self.now.size }
    {
        self.size
    }

    /// How many pages there are.
    pub fn pages(&self) -> u32
        ensures { (ram : List (List ℕ)) → IsSpace ram self.now → result ≡ len (pages_of ram self.now.root) }
    {
        self.pages
    }

    /// A number, [`VPN_END`] at most, below which the numbers of all pages lie: no access reaches a frame
    /// from there on.
    pub fn end(&self) -> u32
        ensures value { result ≡ min self.now.end (2 ^ 26) }
        ensures unreached { (ram : List (List ℕ)) (va : ℕ) (access : Access) → IsSpace ram self.now
            → 4096 * result ≤ va → walked ram self.now.root va access ≡ None }
    {
        self.end.min(VPN_END)
    }

    /// How many frames the space owns: its image's price. As many a [`copy`](Space::copy) takes.
    pub fn price(&self) -> u32
        requires { (ram : List (List ℕ)) × IsSpace ram self.now }
        ensures owned { (ram : List (List ℕ)) → IsSpace ram self.now
            → result ≡ length (frames_of ram self.now) }
        ensures price { (ram : List (List ℕ)) → IsSpace ram self.now → result ≡ price (image_of ram self.now) }
        ensures plain { (ram : List (List ℕ)) → IsSpace ram self.now
            → result ≡ plain_price (image_of ram self.now) }
    {
        self.tables + self.pages
    }

    /// What a page allows; none where there is no page.
    pub fn perm(&self, ram: &Ram, vpn: Vpn) -> Option<Perm>
        requires { IsSpace ram.now self.now }
        ensures { result ≡ option_map perm_of_page (get (image_of ram.now self.now).pages vpn) }
    {
        let number = vpn.number();
        if number >= self.end {
            return None; // all pages lie below
        }
        self.perm_at(ram, number as usize)
    }

    /// What a page allows, by its number.
    fn perm_at(&self, ram: &Ram, number: usize) -> Option<Perm>
        requires whole { IsSpace ram.now self.now }
        requires page { number < 2 ^ 26 }
        ensures { result ≡ option_map perm_of_page (page_at ram.now self.now.root number) }
    {
        let Entry::Leaf(_, perm, _, _) = entry_of_page(ram, self.root, number) else {
            return None;
        };
        Some(perm)
    }
}

/// The entry of a page. It stands in each of its callers, which builds of it only what it needs.
#[inline(always)]
fn entry_of_page(ram: &Ram, root: Frame, number: usize) -> Entry
    requires root_in { root < length ram.now }
    requires page { number < 2 ^ 26 }
    ensures { result ≡ page_entry ram.now root number }
{
    let Some(upper) = read_upper_table(ram, root, number) else {
        return Entry::Invalid;
    };
    let Some(lower) = read_lower_table(ram, upper, number) else {
        return Entry::Invalid;
    };
    read_page_entry(ram, lower, number)
}

/// Takes a free frame and hangs it, a table of zeros, into an entry of a table.
fn hang(pool: &mut Pool, ram: &mut Ram, table: Frame, index: usize) -> Frame
    requires good { Good pool.old ram.old }
    requires some_free { 0 < length (free_in pool.old ram.old) }
    requires table_in { table < length ram.old }
    requires entry_in { index < 512 }
    ensures { Hanging pool.old ram.old pool.new ram.new table index result }
{
    let Some(frame) = pool.take(ram) else {
        unreachable!();
    };
    ram.write_u64(table, index, Pte::table(frame).bits());
    frame
}

/// The upper table of an index, made where there is none.
fn upper_for(pool: &mut Pool, ram: &mut Ram, root: Frame, number: usize) -> Frame
    requires holds { Holds pool.old ram.old root }
    requires page { number < 2 ^ 26 }
    requires room { table_at ram.old root 1 (number / 262144) ≡ None → 0 < length (free_in pool.old ram.old) }
    ensures same { SameImage pool.old ram.old pool.new ram.new root }
    ensures beside { Beside ram.old ram.new root number }
    ensures found { table_at ram.new root 1 (number / 262144) ≡ Some result }
    ensures lowers { (p : ℕ) → table_at ram.new root 2 p ≡ table_at ram.old root 2 p }
    ensures left { length (free_in pool.old ram.old)
        ≤ length (free_in pool.new ram.new) + missing (table_at ram.old root 1 (number / 262144)) }
{
    if let Some(table) = read_upper_table(ram, root, number) {
        return table;
    }
    hang(pool, ram, root, root_index(number))
}

/// The lower table of a page, made where there is none.
fn lower_for(pool: &mut Pool, ram: &mut Ram, root: Frame, upper: Frame, number: usize) -> Frame
    requires holds { Holds pool.old ram.old root }
    requires page { number < 2 ^ 26 }
    requires upper_is { table_at ram.old root 1 (number / 262144) ≡ Some upper }
    requires room { table_at ram.old root 2 (number / 512) ≡ None → 0 < length (free_in pool.old ram.old) }
    ensures same { SameImage pool.old ram.old pool.new ram.new root }
    ensures beside { Beside ram.old ram.new root number }
    ensures found { table_at ram.new root 2 (number / 512) ≡ Some result }
    ensures left { length (free_in pool.old ram.old)
        ≤ length (free_in pool.new ram.new) + missing (table_at ram.old root 2 (number / 512)) }
{
    let _ = root.number(); // contracts alone speak of the root
    if let Some(table) = read_lower_table(ram, upper, number) {
        return table;
    }
    hang(pool, ram, upper, upper_index(number))
}

/// Takes a free frame as the page of an entry of a table.
fn place(pool: &mut Pool, ram: &mut Ram, table: Frame, index: usize, perm: Perm)
    requires good { Good pool.old ram.old }
    requires some_free { 0 < length (free_in pool.old ram.old) }
    requires table_in { table < length ram.old }
    requires entry_in { index < 512 }
    ensures allowed { IsPerm perm }
    ensures placed { (g : ℕ) × Placing pool.old ram.old pool.new ram.new table index g perm }
{
    let Some(frame) = pool.take(ram) else {
        unreachable!();
    };
    ram.write_u64(table, index, Pte::leaf(frame, perm).bits());
    let _ = perm.rights(); // it promises that the rights are sound, as the clause `allowed` says
}

/// How many frames a page would take.
fn frames_for(ram: &Ram, root: Frame, number: usize) -> u32
    requires root_in { root < length ram.now }
    requires page { number < 2 ^ 26 }
    ensures { result ≡ rise ram.now root number }
{
    let Some(upper) = read_upper_table(ram, root, number) else {
        return 3;
    };
    let Some(_) = read_lower_table(ram, upper, number) else {
        return 2;
    };
    1
}

/// Adds a page of zeros where there is none, and the tables that are missing on the way to it.
fn add_page(pool: &mut Pool, ram: &mut Ram, root: Frame, number: usize, perm: Perm)
    requires holds { Holds pool.old ram.old root }
    requires page { number < 2 ^ 26 }
    requires absent { page_at ram.old root number ≡ None }
    requires room { rise ram.old root number ≤ length (free_in pool.old ram.old) }
    ensures added { PageAdded pool.old ram.old pool.new ram.new root number perm }
    ensures beside { Beside ram.old ram.new root number }
    ensures there { (g : ℕ) × (page_entry ram.new root number ≡ Leaf g perm true true) }
{
    let upper = upper_for(pool, ram, root, number);
    let lower = lower_for(pool, ram, root, upper, number);
    place(pool, ram, lower, lower_index(number), perm);
}

impl Space {
    /// Maps a page of zeros where there is none. The size stays.
    ///
    /// Errors: `NoFrames` exactly where the image with the page costs more than the image and the free
    /// frames; then nothing is changed.
    pub fn map_zeroed(
        &mut self,
        pool: &mut Pool,
        ram: &mut Ram,
        vpn: Vpn,
        perm: Perm,
    ) -> Result<(), NoFrames>
        requires belongs { Belongs pool.old ram.old self.old }
        requires absent { get (image_of ram.old self.old).pages vpn ≡ None }
        ensures changed { IfOk result (λ _. Changed pool.old ram.old self.old pool.new ram.new self.new) }
        ensures belongs { IfOk result (λ _. Belongs pool.new ram.new self.new) }
        ensures image { IfOk result (λ _.
            image_of ram.new self.new ≡ with_page (image_of ram.old self.old) vpn (zeroed perm)) }
        ensures translations { IfOk result (λ _. TranslationsStay ram.old ram.new self.old.root) }
        ensures others { IfOk result (λ _. SparesOthers pool.old ram.old (frames_of ram.old self.old) ram.new) }
        ensures fits { IfOk result (λ _.
            Affords pool.old ram.old self.old (with_page (image_of ram.old self.old) vpn (zeroed perm))) }
        ensures refused { IfErr result (λ _.
            IsTooDear pool.old ram.old self.old (with_page (image_of ram.old self.old) vpn (zeroed perm))
            × Unchanged pool.old ram.old self.old pool.new ram.new self.new) }
    {
        let number = vpn.number() as usize;
        let needed = frames_for(ram, self.root, number);
        if pool.free() < needed {
            return Err(NoFrames);
        }
        add_page(pool, ram, self.root, number, perm);
        self.pages += 1;
        self.tables += needed - 1;
        self.end = self.end.max(number as u32 + 1);
        Ok(())
    }
}

/// Makes an entry of a table blank and gives back the frame that it led to.
fn clear(pool: &mut Pool, ram: &mut Ram, table: Frame, index: usize, frame: Frame)
    requires good { Good pool.old ram.old }
    requires table_in { table < length ram.old }
    requires table_taken { copies table (free_in pool.old ram.old) ≡ 0 }
    requires entry_in { index < 512 }
    requires frame_in { frame < length ram.old }
    requires frame_taken { copies frame (free_in pool.old ram.old) ≡ 0 }
    ensures { Cleared pool.old ram.old pool.new ram.new table index frame }
{
    ram.write_u64(table, index, 0);
    pool.give(ram, frame);
}

/// The upper table on the way to a page.
fn upper_table(ram: &Ram, root: Frame, number: usize) -> Option<Frame>
    requires root_in { root < length ram.now }
    requires page { number < 2 ^ 26 }
    ensures { result ≡ table_at ram.now root 1 (number / 262144) }
{
    read_upper_table(ram, root, number)
}

/// The lower table on the way to a page.
fn lower_table(ram: &Ram, root: Frame, number: usize) -> Option<Frame>
    requires root_in { root < length ram.now }
    requires page { number < 2 ^ 26 }
    ensures { result ≡ table_at ram.now root 2 (number / 512) }
{
    let Some(upper) = read_upper_table(ram, root, number) else {
        return None;
    };
    read_lower_table(ram, upper, number)
}

/// Whether an entry of a table leads to a page. It looks at the entry behind `from`, and then from `from`
/// down. Where pages are freed in order, the first look finds the next page to be freed, or, if that was
/// the last one, a later look finds a page that stays.
fn has_page(ram: &Ram, table: Frame, from: usize) -> bool
    requires table_in { table < length ram.now }
    requires from_in { from < 512 }
    ensures none { result ≡ false → (k : ℕ) → k < 512 → frame_of (entry_at ram.now table k) ≡ None }
    ensures some { result ≡ true
        → (k : ℕ) × (f : ℕ) × (k < 512) × (frame_of (entry_at ram.now table k) ≡ Some f) }
{
    for back in 0..TABLE_ENTRIES {
        let entry = (from + (TABLE_ENTRIES + 1) - back) % TABLE_ENTRIES;
        if let Entry::Leaf(..) = read_entry(ram, table, entry) {
            return true;
        }
    }
    false
}

/// Whether an entry of a table leads to a table, looked for as [`has_page`] does.
fn has_table(ram: &Ram, table: Frame, from: usize) -> bool
    requires table_in { table < length ram.now }
    requires from_in { from < 512 }
    ensures none { result ≡ false → (k : ℕ) → k < 512 → table_of (entry_at ram.now table k) ≡ None }
    ensures some { result ≡ true
        → (k : ℕ) × (f : ℕ) × (k < 512) × (table_of (entry_at ram.now table k) ≡ Some f) }
{
    for back in 0..TABLE_ENTRIES {
        let entry = (from + (TABLE_ENTRIES + 1) - back) % TABLE_ENTRIES;
        if let Some(_) = read_table(ram, table, entry) {
            return true;
        }
    }
    false
}

/// Frees a page, but not the tables on the way to it.
fn free_leaf(pool: &mut Pool, ram: &mut Ram, root: Frame, number: usize)
    requires holds { Holds pool.old ram.old root }
    requires page { number < 2 ^ 26 }
    requires there { (f : ℕ) × (frame_of (page_entry ram.old root number) ≡ Some f) }
    ensures freed { Freed pool.old ram.old pool.new ram.new root number 1 }
    ensures gone { page_entry ram.new root number ≡ Invalid }
    ensures pages { length (page_frames ram.old root) ≡ 1 + length (page_frames ram.new root) }
    ensures image { (u : ℕ) → (u ≡ number → ⊥) → page_at ram.new root u ≡ page_at ram.old root u }
    ensures table { IsSome (table_at ram.new root 2 (number / 512)) }
{
    let Some(lower) = lower_table(ram, root, number) else {
        unreachable!();
    };
    let Entry::Leaf(frame, ..) = read_page_entry(ram, lower, number) else {
        unreachable!();
    };
    clear(pool, ram, lower, lower_index(number), frame);
}

/// Frees the lower table on the way to a page, which leads to no page.
fn free_lower(pool: &mut Pool, ram: &mut Ram, root: Frame, number: usize)
    requires holds { Holds pool.old ram.old root }
    requires page { number < 2 ^ 26 }
    requires usual { (u : ℕ) → Usual (page_entry ram.old root u) }
    requires there { IsSome (table_at ram.old root 2 (number / 512)) }
    requires empty { (i : ℕ) → i < 512 → frame_of (page_entry ram.old root (512 * (number / 512) + i)) ≡ None }
    ensures freed { Freed pool.old ram.old pool.new ram.new root number 1 }
    ensures gone { table_at ram.new root 2 (number / 512) ≡ None }
    ensures upper { IsSome (table_at ram.new root 1 (number / 262144)) }
    ensures entries { (u : ℕ) → page_entry ram.new root u ≡ page_entry ram.old root u }
    ensures image { (u : ℕ) → page_at ram.new root u ≡ page_at ram.old root u }
{
    let Some(upper) = upper_table(ram, root, number) else {
        unreachable!();
    };
    let Some(lower) = lower_table(ram, root, number) else {
        unreachable!();
    };
    clear(pool, ram, upper, upper_index(number), lower);
}

/// Frees the upper table on the way to a page, which leads to no table.
fn free_upper(pool: &mut Pool, ram: &mut Ram, root: Frame, number: usize)
    requires holds { Holds pool.old ram.old root }
    requires page { number < 2 ^ 26 }
    requires there { IsSome (table_at ram.old root 1 (number / 262144)) }
    requires empty { (i : ℕ) → i < 512 → table_at ram.old root 2 (512 * (number / 262144) + i) ≡ None }
    ensures freed { Freed pool.old ram.old pool.new ram.new root number 1 }
    ensures gone { table_at ram.new root 1 (number / 262144) ≡ None }
    ensures lowers { (p : ℕ) → table_at ram.new root 2 p ≡ table_at ram.old root 2 p }
    ensures entries { (u : ℕ) → page_entry ram.new root u ≡ page_entry ram.old root u }
    ensures image { (u : ℕ) → page_at ram.new root u ≡ page_at ram.old root u }
{
    let Some(upper) = upper_table(ram, root, number) else {
        unreachable!();
    };
    clear(pool, ram, root, root_index(number), upper);
}

/// The least entry of a table, from one on, that leads to a page; [`TABLE_ENTRIES`] where there is none.
fn next_leaf(ram: &Ram, table: Frame, from: usize) -> usize
    requires table_in { table < length ram.now }
    requires from_in { from < 512 }
    ensures ahead { from ≤ result }
    ensures bound { result ≤ 512 }
    ensures none { (k : ℕ) → from ≤ k → k < result → frame_of (entry_at ram.now table k) ≡ None }
    ensures found { result < 512 → (f : ℕ) × (frame_of (entry_at ram.now table result) ≡ Some f) }
{
    for index in from..TABLE_ENTRIES {
        if let Entry::Leaf(..) = read_entry(ram, table, index) {
            return index;
        }
    }
    TABLE_ENTRIES
}

/// The least page from a place on. It stands in its caller, so that the entries that it reads need not be
/// read again to free or to copy the page.
#[inline(always)]
fn next_page(ram: &Ram, root: Frame, from: usize) -> Option<usize>
    requires root_in { root < length ram.now }
    requires from_in { from ≤ 2 ^ 26 }
    ensures some { IfSome result (λ v.
        (v < 2 ^ 26) × (from ≤ v) × ((f : ℕ) × (frame_of (page_entry ram.now root v) ≡ Some f))
        × ((u : ℕ) → from ≤ u → u < v → frame_of (page_entry ram.now root u) ≡ None)) }
    ensures none { IfNone result
        ((u : ℕ) → from ≤ u → u < 2 ^ 26 → frame_of (page_entry ram.now root u) ≡ None) }
{
    let mut number = from;
    'pages: while number < VPN_END as usize {
        let Some(_) = upper_table(ram, root, number) else {
            number = upper_table_end(number);
            continue 'pages;
        };
        let Some(lower) = lower_table(ram, root, number) else {
            number = lower_table_end(number);
            continue 'pages;
        };
        let index = next_leaf(ram, lower, lower_index(number));
        number = lower_table_start(number) + index;
        if index < TABLE_ENTRIES {
            return Some(number);
        }
    }
    None
}

impl Space {
    /// The least page from a number on. All pages lie below the end, so that no table is read from there on.
    #[inline(always)]
    fn page_from(&self, ram: &Ram, from: usize) -> Option<usize>
        requires whole { IsSpace ram.now self.now }
        requires from_in { from ≤ 2 ^ 26 }
        ensures some { IfSome result (λ v.
            (v < 2 ^ 26) × (from ≤ v)
            × ((f : ℕ) × (frame_of (page_entry ram.now self.now.root v) ≡ Some f))
            × ((u : ℕ) → from ≤ u → u < v → frame_of (page_entry ram.now self.now.root u) ≡ None)) }
        ensures none { IfNone result
            ((u : ℕ) → from ≤ u → u < 2 ^ 26 → frame_of (page_entry ram.now self.now.root u) ≡ None) }
    {
        if self.end as usize <= from {
            return None;
        }
        next_page(ram, self.root, from)
    }
}

impl Space {
    /// Whether the lower table on the way to a page leads to a page. Where the space has none, it isn't searched.
    fn lower_in_use(&self, ram: &Ram, number: usize) -> bool
        requires tree { IsTree ram.now self.now.root }
        requires page { number < 2 ^ 26 }
        requires there { IsSome (table_at ram.now self.now.root 2 (number / 512)) }
        requires count { self.now.pages ≡ length (page_frames ram.now self.now.root) }
        ensures used { result ≡ true
            → (i : ℕ) × (g : ℕ) × (i < 512)
            × (frame_of (page_entry ram.now self.now.root (512 * (number / 512) + i)) ≡ Some g) }
        ensures unused { result ≡ false → (i : ℕ) → i < 512
            → frame_of (page_entry ram.now self.now.root (512 * (number / 512) + i)) ≡ None }
    {
        if self.pages == 0 {
            return false;
        }
        let Some(lower) = lower_table(ram, self.root, number) else {
            unreachable!();
        };
        has_page(ram, lower, lower_index(number))
    }

    /// Whether the upper table on the way to a page leads to a table. Where the space has no page, it isn't searched.
    fn upper_in_use(&self, ram: &Ram, number: usize) -> bool
        requires tree { IsTree ram.now self.now.root }
        requires page { number < 2 ^ 26 }
        requires there { IsSome (table_at ram.now self.now.root 1 (number / 262144)) }
        requires none { self.now.pages ≡ 0 → (p : ℕ) → table_at ram.now self.now.root 2 p ≡ None }
        ensures used { result ≡ true
            → (i : ℕ) × (g : ℕ) × (i < 512)
            × (table_at ram.now self.now.root 2 (512 * (number / 262144) + i) ≡ Some g) }
        ensures unused { result ≡ false → (i : ℕ) → i < 512
            → table_at ram.now self.now.root 2 (512 * (number / 262144) + i) ≡ None }
    {
        if self.pages == 0 {
            return false;
        }
        let Some(upper) = upper_table(ram, self.root, number) else {
            unreachable!();
        };
        has_table(ram, upper, upper_index(number))
    }

    /// Frees a page, and each table that then leads to none.
    fn free_page(&mut self, pool: &mut Pool, ram: &mut Ram, number: usize)
        requires belongs { Belongs pool.old ram.old self.old }
        requires page { number < 2 ^ 26 }
        requires there { (f : ℕ) × (frame_of (page_entry ram.old self.old.root number) ≡ Some f) }
        ensures changed { Changed pool.old ram.old self.old pool.new ram.new self.new }
        ensures size { self.new.size ≡ self.old.size }
        ensures fewer { self.old.pages ≡ 1 + self.new.pages }
        ensures gone { page_entry ram.new self.old.root number ≡ Invalid }
        ensures entries { (u : ℕ) → (u ≡ number → ⊥)
            → page_entry ram.new self.old.root u ≡ page_entry ram.old self.old.root u }
        ensures others { (u : ℕ) → (u ≡ number → ⊥)
            → page_at ram.new self.old.root u ≡ page_at ram.old self.old.root u }
    {
        free_leaf(pool, ram, self.root, number);
        self.pages -= 1;
        if self.lower_in_use(ram, number) {
            return;
        }
        free_lower(pool, ram, self.root, number);
        self.tables -= 1;
        if self.upper_in_use(ram, number) {
            return;
        }
        free_upper(pool, ram, self.root, number);
        self.tables -= 1;
    }

    /// Frees each page from a place on, and each table that then maps nothing.
    fn free_from(&mut self, pool: &mut Pool, ram: &mut Ram, first: usize)
        requires belongs { Belongs pool.old ram.old self.old }
        requires first_in { first ≤ 2 ^ 26 }
        ensures changed { Changed pool.old ram.old self.old pool.new ram.new self.new }
        ensures size { self.new.size ≡ self.old.size }
        ensures entries { (u : ℕ) → u < first
            → page_entry ram.new self.old.root u ≡ page_entry ram.old self.old.root u }
        ensures below { (u : ℕ) → u < first
            → page_at ram.new self.old.root u ≡ page_at ram.old self.old.root u }
        ensures above { (u : ℕ) → first ≤ u → u < 2 ^ 26
            → frame_of (page_entry ram.new self.old.root u) ≡ None }
    {
        let mut from = first;
        'pages: while let Some(number) = self.page_from(ram, from) {
            self.free_page(pool, ram, number);
            from = number + 1;
        }
    }

    /// Makes the size smaller: frees each page from the rounded-up new size on, and each table that
    /// then leads to no page. The page that the new size ends in keeps its bytes, also those past it.
    pub fn shrink(&mut self, pool: &mut Pool, ram: &mut Ram, size: u64)
        requires belongs { Belongs pool.old ram.old self.old }
        requires less { size ≤ self.old.size }
        ensures changed { Changed pool.old ram.old self.old pool.new ram.new self.new }
        ensures belongs { Belongs pool.new ram.new self.new }
        ensures image { image_of ram.new self.new ≡ shrunk (image_of ram.old self.old) size }
        ensures walks { WalksStayBelow (4096 * page_count size) ram.old ram.new self.old.root }
        ensures others { SparesOthers pool.old ram.old (frames_of ram.old self.old) ram.new }
    {
        let first = page_count(size);
        self.free_from(pool, ram, first as usize);
        self.size = size;
        self.end = self.end.min(first);
    }

    /// Gives back all frames of the space.
    pub fn drop_all(mut self, pool: &mut Pool, ram: &mut Ram)
        requires belongs { Belongs pool.old ram.old self }
        ensures traded { Traded pool.old ram.old pool.new ram.new (frames_of ram.old self) [] }
        ensures others { SparesOthers pool.old ram.old (frames_of ram.old self) ram.new }
    {
        self.free_from(pool, ram, 0);
        pool.give(ram, self.root);
    }
}

impl Space {
    /// How many frames a growth to a size takes, up to
    /// [`SIZE_LIMIT`](xk_base::limits::SIZE_LIMIT), whatever rights the new pages get.
    pub fn price_to(&self, ram: &Ram, size: u64) -> u32
        requires whole { IsSpace ram.now self.now }
        requires more { self.now.size ≤ size }
        requires limit { size ≤ SIZE_LIMIT }
        ensures { (perm : Rights)
            → price (grown (image_of ram.now self.now) size perm)
            ≡ price (image_of ram.now self.now) + result }
    {
        let first = page_count(self.size) as usize;
        let last = page_count(size) as usize;
        self.price_between(ram, first, last)
    }

    /// Makes the size greater, up to [`SIZE_LIMIT`](xk_base::limits::SIZE_LIMIT): from the rounded-up
    /// old size up to the new one, a page of zeros with these rights comes wherever there is none. Each
    /// page that is there stays as it is.
    ///
    /// Errors: `NoFrames` exactly where the grown image costs more than the image and the free frames;
    /// then nothing is changed.
    pub fn grow(
        &mut self,
        pool: &mut Pool,
        ram: &mut Ram,
        size: u64,
        perm: Perm,
    ) -> Result<(), NoFrames>
        requires belongs { Belongs pool.old ram.old self.old }
        requires more { self.old.size ≤ size }
        requires limit { size ≤ SIZE_LIMIT }
        ensures changed { IfOk result (λ _. Changed pool.old ram.old self.old pool.new ram.new self.new) }
        ensures belongs { IfOk result (λ _. Belongs pool.new ram.new self.new) }
        ensures image { IfOk result (λ _. image_of ram.new self.new ≡ grown (image_of ram.old self.old) size perm) }
        ensures translations { IfOk result (λ _. TranslationsStay ram.old ram.new self.old.root) }
        ensures others { IfOk result (λ _. SparesOthers pool.old ram.old (frames_of ram.old self.old) ram.new) }
        ensures fits { IfOk result (λ _.
            Affords pool.old ram.old self.old (grown (image_of ram.old self.old) size perm)) }
        ensures refused { IfErr result (λ _.
            IsTooDear pool.old ram.old self.old (grown (image_of ram.old self.old) size perm)
            × Unchanged pool.old ram.old self.old pool.new ram.new self.new) }
    {
        let first = page_count(self.size) as usize;
        let last = page_count(size) as usize;
        self.fill(pool, ram, first, last, perm)?;
        self.size = size; // all its pages are there
        Ok(())
    }
}

impl Space {
    /// A new space with the same image, in frames of its own.
    ///
    /// Errors: `NoFrames` exactly where the image costs more than the free frames; then nothing is
    /// changed.
    pub fn copy(&self, pool: &mut Pool, ram: &mut Ram) -> Result<Space, NoFrames>
        requires belongs { Belongs pool.old ram.old self.now }
        ensures made { IfOk result (λ child. Made pool.old ram.old pool.new ram.new child) }
        ensures belongs { IfOk result (λ child. Belongs pool.new ram.new child) }
        ensures original { IfOk result (λ _. Belongs pool.new ram.new self.now) }
        ensures image { IfOk result (λ child. image_of ram.new child ≡ image_of ram.old self.now) }
        ensures others { IfOk result (λ _. SparesOthers pool.old ram.old [] ram.new) }
        ensures fits { IfOk result (λ _. price (image_of ram.old self.now) ≤ length (free_in pool.old ram.old)) }
        ensures refused { IfErr result (λ _.
            (length (free_in pool.old ram.old) < price (image_of ram.old self.now))
            × (pool.new ≡ pool.old) × (ram.new ≡ ram.old)) }
    {
        if pool.free() < self.price() {
            return Err(NoFrames);
        }
        let Ok(mut child) = Space::empty(pool, ram) else {
            unreachable!();
        };
        let mut from = 0;
        'pages: while let Some(number) = self.page_from(ram, from) {
            self.copy_page(pool, ram, &mut child, number);
            from = number + 1;
        }
        child.size = self.size;
        Ok(child)
    }

    /// Copies a page into another space, where there is none.
    fn copy_page(&self, pool: &mut Pool, ram: &mut Ram, child: &mut Space, number: usize)
        requires whole { IsSpace ram.old self.now }
        requires belongs { Belongs pool.old ram.old child.old }
        requires apart { (f : ℕ) → 1 ≤ copies f (frames_of ram.old self.now)
            → copies f (free_in pool.old ram.old) + copies f (frames_of ram.old child.old) ≡ 0 }
        requires page { number < 2 ^ 26 }
        requires there { (f : ℕ) × (frame_of (page_entry ram.old self.now.root number) ≡ Some f) }
        requires absent { get (image_of ram.old child.old).pages number ≡ None }
        requires room { (page : Page)
            → Affords pool.old ram.old child.old (with_page (image_of ram.old child.old) number page) }
        ensures changed { Changed pool.old ram.old child.old pool.new ram.new child.new }
        ensures image { (page : Page) → page_at ram.old self.now.root number ≡ Some page
            → image_of ram.new child.new ≡ with_page (image_of ram.old child.old) number page }
    {
        let Entry::Leaf(source, perm, ..) = entry_of_page(ram, self.root, number) else {
            unreachable!();
        };
        let Ok(()) = child.map_zeroed(pool, ram, Vpn::new(number as u32), perm) else {
            unreachable!();
        };
        let Entry::Leaf(target, ..) = entry_of_page(ram, child.root, number) else {
            unreachable!();
        };
        ram.copy_frame(source, target);
    }
}

impl Space {
    /// Takes the right U from a page, so that user code can't reach it.
    pub fn protect(&self, ram: &mut Ram, vpn: Vpn)
        requires whole { IsSpace ram.old self.now }
        requires there { (page : Page) × (get (image_of ram.old self.now).pages vpn ≡ Some page) }
        ensures changed { (pool : Pool) → Belongs pool ram.old self.now
            → Changed pool ram.old self.now pool ram.new self.now }
        ensures belongs { (pool : Pool) → Belongs pool ram.old self.now → Belongs pool ram.new self.now }
        ensures image { (page : Page) → get (image_of ram.old self.now).pages vpn ≡ Some page
            → image_of ram.new self.now ≡ with_page (image_of ram.old self.now) vpn (protected page) }
        ensures others { (pool : Pool) → Belongs pool ram.old self.now
            → SparesOthers pool ram.old (frames_of ram.old self.now) ram.new }
        ensures walks { WalksStayBeside vpn ram.old ram.new self.now.root }
    {
        let number = vpn.number() as usize;
        let Some(lower) = lower_table(ram, self.root, number) else {
            unreachable!();
        };
        let Entry::Leaf(frame, perm, ..) = read_page_entry(ram, lower, number) else {
            unreachable!();
        };
        let _ = frame.number(); // it promises the range, which no clause on the space or on RAM says
        let rights = perm.rights();
        let kept = Perm::new(Rights {
            read: rights.read,
            write: rights.write,
            execute: rights.execute,
            user: false,
        });
        ram.write_u64(lower, lower_index(number), Pte::leaf(frame, kept).bits());
    }

    /// Reads bytes of a page from place `at` on, as many as `out` holds, within the page.
    pub fn read_page(&self, ram: &Ram, vpn: Vpn, at: usize, out: &mut [u8])
        requires whole { IsSpace ram.now self.now }
        requires there { (page : Page) × (get (image_of ram.now self.now).pages vpn ≡ Some page) }
        requires fits { at + length out.old ≤ 4096 }
        ensures { (page : Page) → get (image_of ram.now self.now).pages vpn ≡ Some page
            → out.new ≡ take (length out.old) (drop at page.bytes) }
    {
        let Entry::Leaf(frame, ..) = entry_of_page(ram, self.root, vpn.number() as usize) else {
            unreachable!();
        };
        let bytes = ram.frame(frame);
        let count = out.len();
        out.copy_from_slice(&bytes[at..at + count]);
    }

    /// Writes bytes into a page from place `at` on, within the page. The others stay.
    pub fn write_page(&self, ram: &mut Ram, vpn: Vpn, at: usize, bytes: &[u8])
        requires whole { IsSpace ram.old self.now }
        requires there { (page : Page) × (get (image_of ram.old self.now).pages vpn ≡ Some page) }
        requires fits { at + length bytes.now ≤ 4096 }
        ensures changed { (pool : Pool) → Belongs pool ram.old self.now
            → Changed pool ram.old self.now pool ram.new self.now }
        ensures belongs { (pool : Pool) → Belongs pool ram.old self.now → Belongs pool ram.new self.now }
        ensures image { (page : Page) → get (image_of ram.old self.now).pages vpn ≡ Some page
            → image_of ram.new self.now
            ≡ with_page (image_of ram.old self.now) vpn (overwritten page at bytes.now) }
        ensures others { (pool : Pool) → Belongs pool ram.old self.now
            → SparesOthers pool ram.old (frames_of ram.old self.now) ram.new }
        ensures walks { WalksStay ram.old ram.new self.now.root }
        ensures written { image_of ram.new self.now
            ≡ write_image (image_of ram.old self.now) (4096 * vpn + at) bytes.now }
        ensures in_place { WrittenInPlace ram.old ram.new self.now }
    {
        let Entry::Leaf(frame, ..) = entry_of_page(ram, self.root, vpn.number() as usize) else {
            unreachable!();
        };
        let page = ram.frame_mut(frame);
        page[at..at + bytes.len()].copy_from_slice(bytes);
    }
}

/// The law of isolation, for writes of every kind: a space whose frames keep their bytes keeps its
/// tables, its image, its list of frames, and where each access leads. It does nothing.
pub fn law_of_isolation()
    ensures { Isolation }
{}
