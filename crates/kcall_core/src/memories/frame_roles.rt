//! Whose each frame of RAM is, and what for, as observers are told it.
ghost use Rattle.std.specs.Prelude.{◌≡◌, ◌≢◌, ℕ, ◌/◌, ◌^◌, ◌<◌, ◌≤◌};
ghost use Rattle.std.specs.Prelude.{true, false, length, Some, IfSome, IfNone};
ghost use Rattle.xk_base.specs.declared.limits.TheConstants.{NPROC};
ghost use Rattle.sv39_core.specs.Sv39.{entry_at, table_at};
ghost use Rattle.sv39_core.specs.Tree.{frame_of};
ghost use Rattle.addr_space.specs.Space.{IsSpace};
ghost use Rattle.kcall_core.specs.Holdings.{HasMemory};
ghost use Rattle.kcall_core.specs.Memories.{each_of, AreSound};
ghost use Rattle.kcall_core.specs.declared.memories.frame_roles.FrameRole.{FrameRole};
ghost use Rattle.kcall_core.specs.ObservedFrames.{page_frame_in, IsInTree, IsOffTheWay, IsUsedIn};

use crate::memories::Memories;
use addr_space::Space;
use phys_ram::Ram;
use sv39_core::{
    Entry, TABLE_ENTRIES, UPPER_TABLE_PAGES, read_entry, read_lower_table, read_upper_table,
    upper_table_end,
};
use xk_base::limits::NPROC;
use xk_base::{Frame, Vpn};

/// What a process has a frame for.
#[derive(Clone, Copy)]
pub enum FrameRole {
    /// Its registers lie there while it doesn't run.
    Trapframe,
    /// The first table of its memory.
    Root,
    /// The table at this place of those that the root leads to: the pages from 262,144 times the place on are below
    /// it.
    Upper(u32),
    /// The table at this place of those that lead to pages: it has the 512 pages from 512 times the place on.
    Lower(u32),
    /// The page of this number.
    Page(Vpn),
}

/// Whether an entry leads to the page in a frame.
fn leads_to(entry: &Entry, frame: Frame) -> bool
    ensures yes { result ≡ true → frame_of entry.now ≡ Some frame }
    ensures no { result ≡ false → frame_of entry.now ≢ Some frame }
{
    match entry {
        Entry::Leaf(own, ..) => own.number() == frame.number(),
        _ => false,
    }
}

/// The upper table on the way to a page.
fn upper_table(ram: &Ram, root: Frame, page: usize) -> Option<Frame>
    requires root_in { root < length ram.now }
    requires page { page < 2 ^ 26 }
    ensures table { result ≡ table_at ram.now root 1 (page / 262144) }
    ensures inside { IfSome result (λ f. f < length ram.now) }
{
    read_upper_table(ram, root, page)
}

/// The lower table on the way to a page below an upper table.
fn lower_table(ram: &Ram, root: Frame, upper: Frame, page: usize) -> Option<Frame>
    requires upper_in { upper < length ram.now }
    requires upper_is { table_at ram.now root 1 (page / 262144) ≡ Some upper }
    ensures table { result ≡ table_at ram.now root 2 (page / 512) }
    ensures inside { IfSome result (λ f. f < length ram.now) }
{
    read_lower_table(ram, upper, page)
}

/// The entry of a lower table, of the first `count`, that leads to the page in a frame.
fn page_among(ram: &Ram, table: Frame, count: usize, frame: Frame) -> Option<usize>
    requires table_in { table < length ram.now }
    requires count_in { count ≤ 512 }
    ensures some { IfSome result (λ i. (i < count) × (frame_of (entry_at ram.now table i) ≡ Some frame)) }
    ensures none { IfNone result ((i : ℕ) → i < count → frame_of (entry_at ram.now table i) ≢ Some frame) }
{
    for entry in 0..count {
        if leads_to(&read_entry(ram, table, entry), frame) {
            return Some(entry);
        }
    }
    None
}

/// The place of a frame on the way to a page below `end`: a table below the root, or the page itself. It reads the
/// entries of the tables that are there, and of a lower one only those of pages below `end`.
fn role_below(ram: &Ram, root: Frame, end: usize, frame: Frame) -> Option<FrameRole>
    requires root_in { root < length ram.now }
    requires end_in { end ≤ 2 ^ 26 }
    ensures some { IfSome result (IsInTree ram.now root frame) }
    ensures none { IfNone result ((v : ℕ) → v < end → IsOffTheWay ram.now root frame v) }
{
    let mut page = 0;
    'tables: while page < end {
        let Some(upper) = upper_table(ram, root, page) else {
            page = upper_table_end(page);
            continue 'tables;
        };
        if upper.number() == frame.number() {
            return Some(FrameRole::Upper((page / UPPER_TABLE_PAGES) as u32));
        }
        let Some(lower) = lower_table(ram, root, upper, page) else {
            page += TABLE_ENTRIES;
            continue 'tables;
        };
        if lower.number() == frame.number() {
            return Some(FrameRole::Lower((page / TABLE_ENTRIES) as u32));
        }
        if let Some(entry) = page_among(ram, lower, (end - page).min(TABLE_ENTRIES), frame) {
            return Some(FrameRole::Page(Vpn::new((page + entry) as u32)));
        }
        page += TABLE_ENTRIES;
    }
    None
}

/// What a space has a frame for; none if it hasn't got it.
fn role_in_space(ram: &Ram, space: &Space, frame: Frame) -> Option<FrameRole>
    requires { IsSpace ram.now space.now }
    ensures some { IfSome result (IsInTree ram.now space.now.root frame) }
    ensures none { IfNone result ((role : FrameRole) → ¬ IsInTree ram.now space.now.root frame role) }
{
    if space.root().number() == frame.number() {
        return Some(FrameRole::Root);
    }
    role_below(ram, space.root(), space.end() as usize, frame)
}

impl Memories {
    /// How many frames there are.
    pub fn frames(&self) -> u32
        ensures { result ≡ length self.now.ram }
    {
        self.ram.frames()
    }

    /// The frame of a page of a slot; none if there is no page.
    pub fn page_frame(&self, slot: usize, vpn: Vpn) -> Option<Frame>
        requires sound { AreSound self.now }
        requires there { HasMemory (each_of self.now) slot }
        ensures { result ≡ page_frame_in self.now slot vpn }
    {
        self.memory(slot).space.page_frame(&self.ram, vpn)
    }

    /// What the memory of a slot has a frame for; none if it hasn't got it, or there is no memory.
    pub fn frame_role(&self, slot: usize, frame: Frame) -> Option<FrameRole>
        requires sound { AreSound self.now }
        requires slot { slot < NPROC }
        ensures some { IfSome result (IsUsedIn self.now slot frame) }
        ensures none { IfNone result ((role : FrameRole) → ¬ IsUsedIn self.now slot frame role) }
    {
        let Some(memory) = &self.each[slot] else {
            return None;
        };
        if memory.trapframe.number() == frame.number() {
            return Some(FrameRole::Trapframe);
        }
        role_in_space(&self.ram, &memory.space, frame)
    }
}
