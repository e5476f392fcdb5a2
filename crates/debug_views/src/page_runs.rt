//! Pages of a process, one behind another, that are alike.
ghost use Rattle.std.specs.Prelude.{◌≡◌, ℕ, ◌+◌, ◌-◌, ◌<◌, ◌≤◌, ◌/◌, length};
ghost use Rattle.xk_base.specs.declared.limits.TheConstants.{VPN_END};
ghost use Rattle.kcall_core.specs.Observers.{rights_at};
ghost use Rattle.debug_views.specs.PageRuns.{Adds, AreRuns, AreRunsIn, IsRunFrom, kind_by};

use crate::frame_uses::next_lower;
use arrayvec::ArrayVec;
use xk_base::limits::VPN_END;
use xk_base::{Perm, Pid, Vpn};
use xv_machine::{FrameUse, Machine};

/// The entries of a table.
pub(crate) const ENTRIES: u32 = 512;

/// The most runs that are told at once.
const RUNS_MOST: usize = 14;

/// What is known of pages one behind another.
#[derive(Clone, Copy, PartialEq, Eq)]
pub(crate) enum Kind {
    /// They are there, and allow this.
    There(Perm),
    /// The process has a table for them, and no page there.
    Absent,
    /// The process has no table for them.
    NoTable,
}

/// Pages one behind another that are alike.
#[derive(Clone, Copy)]
pub(crate) struct PageRun {
    /// The number of the first.
    pub first: u32,
    pub count: u32,
    pub kind: Kind,
}

impl Default for PageRun {
    /// What fills room that no run has.
    fn default() -> PageRun {
        PageRun {
            first: 0,
            count: 0,
            kind: Kind::NoTable,
        }
    }
}

/// Pages one behind another.
pub(crate) type PageRuns = ArrayVec<PageRun, RUNS_MOST>;

/// The place of a page's lower table.
pub(crate) fn lower_of(number: u32) -> u32
    ensures { result ≡ number / 512 }
{
    number / ENTRIES
}

/// The place of a page's upper table.
pub(crate) fn upper_of(number: u32) -> u32
    ensures { result ≡ number / 512 / 512 }
{
    number / ENTRIES / ENTRIES
}

/// What is known of a page for which there is a table.
fn kind_of(machine: &Machine, pid: Pid, number: u32) -> Kind
    requires { number < VPN_END }
    ensures { result ≡ kind_by (rights_at machine.now.world.state pid number) }
{
    match machine.perm(pid, Vpn::new(number)) {
        Some(perm) => Kind::There(perm),
        None => Kind::Absent,
    }
}

/// How many pages from a number on are of this kind, one at least, up to another number.
fn alike(machine: &Machine, pid: Pid, kind: &Kind, first: u32, end: u32) -> u32
    requires first { kind.now ≡ kind_by (rights_at machine.now.world.state pid first) }
    requires some { first < end }
    requires within { end ≤ VPN_END }
    ensures some { 0 < result }
    ensures within { first + result ≤ end }
    ensures alike { (n : ℕ) → first ≤ n → n < first + result
        → kind_by (rights_at machine.now.world.state pid n) ≡ kind.now }
{
    for number in first + 1..end {
        if kind_of(machine, pid, number) != *kind {
            return number - first;
        }
    }
    end - first
}

/// The pages from a number on that are alike, of one lower table of the process, up to another number.
fn run_in_table(machine: &Machine, pid: Pid, first: u32, end: u32) -> PageRun
    requires some { first < end }
    requires within { end ≤ VPN_END }
    ensures first { result.first ≡ first }
    ensures some { 0 < result.count }
    ensures within { first + result.count ≤ end }
    ensures alike { (n : ℕ) → first ≤ n → n < first + result.count
        → kind_by (rights_at machine.now.world.state pid n) ≡ result.kind }
{
    let kind = kind_of(machine, pid, first);
    let count = alike(machine, pid, &kind, first, end);
    PageRun { first, count, kind }
}

/// The pages from a number on that have no lower table, up to another number.
fn run_without(first: u32, end: u32) -> PageRun
    requires { first < end }
    ensures { result ≡ record { first = first; count = end - first; kind = Kind.NoTable } }
{
    PageRun {
        first,
        count: end - first,
        kind: Kind::NoTable,
    }
}

/// The pages from a number on that are alike, of one table, up to another number.
fn run_from(machine: &Machine, uses: &[FrameUse], pid: Pid, first: u32, end: u32) -> PageRun
    requires some { first < end }
    requires within { end ≤ VPN_END }
    ensures { IsRunFrom machine.now.world.state uses.now pid first end result }
{
    let upper_end = (upper_of(first) + 1) * ENTRIES * ENTRIES;
    let lower_end = (lower_of(first) + 1) * ENTRIES;
    match next_lower(uses, pid, lower_of(first)) {
        Some(place) if place == lower_of(first) => run_in_table(
            machine,
            pid,
            first,
            end.min(lower_end),
        ),
        Some(place) if place < VPN_END / ENTRIES => run_without(
            first,
            end.min(upper_end).min(place * ENTRIES),
        ),
        _ => run_without(first, end.min(upper_end)),
    }
}

/// Adds the runs of pages from one number up to another, one behind another, as many as there is room for.
fn add_runs(
    machine: &Machine,
    uses: &[FrameUse],
    pid: Pid,
    room: usize,
    from: u32,
    end: u32,
    runs: &mut PageRuns,
)
    requires within { end ≤ VPN_END }
    requires room { length runs.old.items + room ≤ 14 }
    ensures { Adds runs.old.items runs.new.items (AreRunsIn machine.now.world.state uses.now pid room from end) }
{
    if room == 0 || from >= end {
        return;
    }
    let run = run_from(machine, uses, pid, from, end);
    let _kind: Kind = run.kind;
    let behind = run.first + run.count;
    runs.push(run);
    add_runs(machine, uses, pid, room - 1, behind, end, runs);
}

/// The runs of pages from one number up to another, one behind another: as many as there is room for.
pub(crate) fn runs_of(
    machine: &Machine,
    uses: &[FrameUse],
    pid: Pid,
    from: u32,
    end: u32,
) -> PageRuns
    requires { end ≤ VPN_END }
    ensures { AreRuns machine.now.world.state uses.now pid from end result.items }
{
    let mut runs = PageRuns::new();
    add_runs(machine, uses, pid, RUNS_MOST, from, end, &mut runs);
    runs
}
