//! The tables and pages of a process, as a tree (RISC-V Privileged ISA, "Sv39: Page-Based 39-bit Virtual-Memory
//! System").
ghost use Rattle.std.specs.Prelude.{◌≡◌, [], ◌+◌, ◌/◌, ◌<◌, ◌≤◌, min};
ghost use Rattle.std.specs.Prelude.{length, take, drop, All, OnOk, Some, string_bytes};
ghost use Rattle.std.specs.List.{list_any};
ghost use Rattle.xk_base.specs.declared.limits.TheConstants.{VPN_END};
ghost use Rattle.xv_machine.specs.FrameUses.{page_frame_at};
ghost use Rattle.debug_views.specs.Focus.{name_in};
ghost use Rattle.debug_views.specs.FrameText.{letter, rights_shown};
ghost use Rattle.debug_views.specs.PageRuns.{behind_runs};
ghost use Rattle.debug_views.specs.PagesText as meant;
ghost use Rattle.debug_views.specs.Written.{Writes, Appends};

use crate::focus::{program_name, show_none};
use crate::frame_uses::{Table, table_frame, uses_of};
use crate::page_runs::{Kind, PageRun, lower_of, runs_of, upper_of};
use debug_words::texts::{Hexadecimal, Many, Named};
use std::alloc::{AllocError, Global};
use std::fmt;
use xk_base::limits::{PAGE_BYTES, VPN_END};
use xk_base::{Perm, Pid, Vpn};
use xv_machine::{FrameUse, Machine};
use xv_session::Session;

/// The most frames that a line names.
const FRAMES_SHOWN: u32 = 4;

/// What a page allows, as `rwxu`.
#[derive(Clone, Copy)]
pub(crate) struct RightsShown(pub Option<Perm>);

/// A letter for what is allowed.
fn letter(allowed: bool, name: &'static str) -> &'static str
    ensures { result.now ≡ letter allowed name.now }
{
    if allowed { name } else { "-" }
}

impl fmt::Display for RightsShown {
    ghost output = { λ r. Some (rights_shown r.0) };

    fn fmt<W: fmt::Write>(&self, f: &mut fmt::Formatter<W>) -> fmt::Result {
        let Some(perm) = self.0 else {
            return f.write_str("----");
        };
        let rights = perm.rights();
        let read = letter(rights.read, "r");
        let write = letter(rights.write, "w");
        let execute = letter(rights.execute, "x");
        let user = letter(rights.user, "u");
        write!(f, "{read}{write}{execute}{user}")
    }
}

/// Where a run stands in the tree.
#[derive(Clone, Copy)]
struct Branches {
    /// It is the first of its upper table, and of its lower table.
    begins_upper: bool,
    begins_lower: bool,
    /// No run behind it is of another upper table; of another lower table of the same upper one; of its lower table.
    last_upper: bool,
    last_lower: bool,
    last: bool,
}

/// Whether two runs are of one upper table.
fn same_upper(run: &PageRun, other: &PageRun) -> bool
    ensures { result ≡ meant.same_upper run.now other.now }
{
    upper_of(other.first) == upper_of(run.first)
}

/// Whether two runs are of one lower table, or of the room of one.
fn same_lower(run: &PageRun, other: &PageRun) -> bool
    ensures { result ≡ meant.same_lower run.now other.now }
{
    lower_of(other.first) == lower_of(run.first)
}

/// Whether the other is of the same lower table, or else of another upper one.
fn no_other_lower(run: &PageRun, other: &PageRun) -> bool
    ensures { result ≡ meant.no_other_lower run.now other.now }
{
    !same_upper(run, other) | same_lower(run, other)
}

/// A run beside another.
#[derive(Clone, Copy)]
enum Beside {
    /// It is of the same upper table, or of the same lower one.
    OfUpper,
    OfLower,
    /// It is of another upper table, or of another lower one of the same upper one.
    OfOtherUpper,
    OfOtherLower,
}

/// Whether the other lies so beside a run.
fn lies(run: &PageRun, other: &PageRun, beside: Beside) -> bool
    ensures { result ≡ meant.lies run.now beside other.now }
{
    match beside {
        Beside::OfUpper => same_upper(run, other),
        Beside::OfLower => same_lower(run, other),
        Beside::OfOtherUpper => !same_upper(run, other),
        Beside::OfOtherLower => !no_other_lower(run, other),
    }
}

/// Whether one of the others lies so beside a run.
fn has_one(run: &PageRun, others: &[PageRun], beside: Beside) -> bool
    ensures { result ≡ list_any (meant.lies run.now beside) others.now }
{
    others.iter().any(|other| lies(run, other, beside))
}

/// Where a run stands in the tree, among those before it and those behind it.
fn branches_among(before: &[PageRun], behind: &[PageRun], run: &PageRun) -> Branches
    ensures { result ≡ meant.branches_among before.now behind.now run.now }
{
    Branches {
        begins_upper: !has_one(run, before, Beside::OfUpper),
        begins_lower: !has_one(run, before, Beside::OfLower),
        last_upper: !has_one(run, behind, Beside::OfOtherUpper),
        last_lower: !has_one(run, behind, Beside::OfOtherLower),
        last: !has_one(run, behind, Beside::OfLower),
    }
}

/// Where the run at a place stands in the tree of these.
fn branches_at(runs: &[PageRun], place: usize, run: &PageRun) -> Branches
    requires { place < length runs.now }
    ensures { result ≡ meant.branches_among (take place runs.now) (drop (place + 1) runs.now) run.now }
{
    let (before, _) = runs.split_at(place);
    let (_, behind) = runs.split_at(place + 1);
    branches_among(before, behind, run)
}

/// A branch of the tree.
fn branch(is_last: bool) -> &'static str
    ensures { result.now ≡ meant.branch is_last }
{
    if is_last { "└─ " } else { "├─ " }
}

/// What stands before the branches below a branch.
fn below(is_last: bool) -> &'static str
    ensures { result.now ≡ meant.below is_last }
{
    if is_last { "   " } else { "│  " }
}

/// Writes the frame of a page, if it has one.
fn show_frame(
    machine: &Machine,
    pid: Pid,
    number: u32,
    answer: &mut String,
) -> Result<(), AllocError>
    requires { number < VPN_END }
    ensures { OnOk result
        (Appends answer.old answer.new (meant.frame_text (page_frame_at machine.now.frames pid number))) }
{
    match machine.page_frame(pid, Vpn::new(number)) {
        Some(frame) => {
            let frame = frame.number();
            write!(answer, " {frame}")
        }
        None => Ok(()),
    }
}

/// Writes the frames of so many pages, from one on.
fn show_frames_from(
    machine: &Machine,
    pid: Pid,
    first: u32,
    count: u32,
    answer: &mut String,
) -> Result<(), AllocError>
    requires { first + count ≤ VPN_END }
    ensures { OnOk result (Appends answer.old answer.new (meant.frames_text machine.now.frames pid first count)) }
{
    for place in 0..count {
        show_frame(machine, pid, first + place, answer)?;
    }
    Ok(())
}

/// What stands before the frames of so many pages.
fn frames_word(count: u32) -> &'static str
    ensures { result.now ≡ meant.frames_word count }
{
    if count == 1 { "frame" } else { "frames" }
}

/// What stands behind them: two dots, if there are more pages than are named.
fn frames_end(count: u32) -> &'static str
    ensures { result.now ≡ meant.frames_end count }
{
    if count > FRAMES_SHOWN { " ..\n" } else { "\n" }
}

/// Writes the frames of the first pages of a run, and whether it has more.
fn show_frames_of(
    machine: &Machine,
    pid: Pid,
    run: &PageRun,
    answer: &mut String,
) -> Result<(), AllocError>
    requires { run.now.first + run.now.count ≤ VPN_END }
    ensures { OnOk result (Appends answer.old answer.new (meant.frames_of_text machine.now.frames pid run.now)) }
{
    let shown = run.count.min(FRAMES_SHOWN);
    answer.push_str(frames_word(run.count))?;
    show_frames_from(machine, pid, run.first, shown, answer)?;
    answer.push_str(frames_end(run.count))
}

/// What the pages of a run allow; `None` where they aren't there.
fn rights_in(kind: Kind) -> Option<Perm>
    ensures { result ≡ meant.rights_in kind }
{
    match kind {
        Kind::There(perm) => Some(perm),
        Kind::Absent | Kind::NoTable => None,
    }
}

/// Writes where the pages of a run begin, what they allow, and how many they are.
fn show_head(run: &PageRun, answer: &mut String) -> Result<(), AllocError>
    ensures { OnOk result (Appends answer.old answer.new (meant.pages_head run.now)) }
{
    let address = u64::from(run.first) * PAGE_BYTES;
    let rights = RightsShown(rights_in(run.kind));
    let count = Many(u64::from(run.count), "page");
    write!(answer, "0x{address:010x}  {rights}  {count}, ")
}

/// Writes what is known of the pages of a run.
fn show_kind(
    machine: &Machine,
    pid: Pid,
    run: &PageRun,
    answer: &mut String,
) -> Result<(), AllocError>
    requires { run.now.first + run.now.count ≤ VPN_END }
    ensures { OnOk result
        (Appends answer.old answer.new (meant.kind_text machine.now.frames pid run.now run.now.kind)) }
{
    match run.kind {
        Kind::There(_) => show_frames_of(machine, pid, run, answer),
        Kind::Absent => answer.push_str("absent\n"),
        Kind::NoTable => answer.push_str("without a table\n"),
    }
}

/// Writes where the pages of a run begin, and what is known of them.
fn show_pages_of(
    machine: &Machine,
    pid: Pid,
    run: &PageRun,
    answer: &mut String,
) -> Result<(), AllocError>
    requires { run.now.first + run.now.count ≤ VPN_END }
    ensures { OnOk result (Appends answer.old answer.new (meant.pages_text machine.now.frames pid run.now)) }
{
    show_head(run, answer)?;
    show_kind(machine, pid, run, answer)
}

/// Writes the frame of a table, if it is there, and ends the line.
fn show_table(frame: Option<usize>, answer: &mut String) -> Result<(), AllocError>
    ensures { OnOk result (Appends answer.old answer.new (meant.table_text frame)) }
{
    match frame {
        Some(frame) => writeln!(answer, "frame {frame}"),
        None => answer.push_str("not there\n"),
    }
}

/// Writes the line of the root table.
fn show_root(uses: &[FrameUse], pid: Pid, answer: &mut String) -> Result<(), AllocError>
    ensures { OnOk result (Appends answer.old answer.new (meant.root_text uses.now pid)) }
{
    answer.push_str("root table: ")?;
    show_table(table_frame(uses, pid, Table::TheRoot), answer)
}

/// Writes the line of the upper table at a place.
fn show_upper(
    uses: &[FrameUse],
    pid: Pid,
    place: u32,
    branches: &Branches,
    answer: &mut String,
) -> Result<(), AllocError>
    ensures { OnOk result (Appends answer.old answer.new (meant.upper_text uses.now pid place branches.now)) }
{
    let before = branch(branches.last_upper);
    write!(answer, "{before}upper table {place}: ")?;
    show_table(table_frame(uses, pid, Table::UpperAt(place)), answer)
}

/// Writes the line of the lower table at a place.
fn show_lower(
    uses: &[FrameUse],
    pid: Pid,
    place: u32,
    branches: &Branches,
    answer: &mut String,
) -> Result<(), AllocError>
    ensures { OnOk result (Appends answer.old answer.new (meant.lower_text uses.now pid place branches.now)) }
{
    let above = below(branches.last_upper);
    let before = branch(branches.last_lower);
    write!(answer, "{above}{before}lower table {place}: ")?;
    show_table(table_frame(uses, pid, Table::LowerAt(place)), answer)
}

/// Writes the pages of a run that has no lower table: its branch is one of the upper table.
fn show_without(
    machine: &Machine,
    pid: Pid,
    run: &PageRun,
    branches: &Branches,
    answer: &mut String,
) -> Result<(), AllocError>
    requires { run.now.first + run.now.count ≤ VPN_END }
    ensures { OnOk result
        (Appends answer.old answer.new (meant.without_text machine.now.frames pid run.now branches.now)) }
{
    let above = below(branches.last_upper);
    let before = branch(branches.last_lower);
    write!(answer, "{above}{before}")?;
    show_pages_of(machine, pid, run, answer)
}

/// Writes the pages of a run below its lower table.
fn show_below(
    machine: &Machine,
    pid: Pid,
    run: &PageRun,
    branches: &Branches,
    answer: &mut String,
) -> Result<(), AllocError>
    requires { run.now.first + run.now.count ≤ VPN_END }
    ensures { OnOk result
        (Appends answer.old answer.new (meant.below_text machine.now.frames pid run.now branches.now)) }
{
    let above = below(branches.last_upper);
    let beside = below(branches.last_lower);
    let before = branch(branches.last);
    write!(answer, "{above}{beside}{before}")?;
    show_pages_of(machine, pid, run, answer)
}

/// Writes the line of the lower table of a run, if it begins with the run.
fn show_lower_begun(
    uses: &[FrameUse],
    pid: Pid,
    run: &PageRun,
    branches: &Branches,
    answer: &mut String,
) -> Result<(), AllocError>
    ensures { OnOk result
        (Appends answer.old answer.new
        (meant.if_begins branches.now.begins_lower
        (meant.lower_text uses.now pid (run.now.first / 512) branches.now))) }
{
    if !branches.begins_lower {
        return Ok(());
    }
    show_lower(uses, pid, lower_of(run.first), branches, answer)
}

/// Writes the line of the upper table of a run, if it begins with the run.
fn show_upper_begun(
    uses: &[FrameUse],
    pid: Pid,
    run: &PageRun,
    branches: &Branches,
    answer: &mut String,
) -> Result<(), AllocError>
    ensures { OnOk result
        (Appends answer.old answer.new
        (meant.if_begins branches.now.begins_upper
        (meant.upper_text uses.now pid (run.now.first / 512 / 512) branches.now))) }
{
    if !branches.begins_upper {
        return Ok(());
    }
    show_upper(uses, pid, upper_of(run.first), branches, answer)
}

/// Writes the pages of a run, behind the lower table if it begins with them.
fn show_in_table(
    machine: &Machine,
    uses: &[FrameUse],
    pid: Pid,
    run: &PageRun,
    branches: &Branches,
    answer: &mut String,
) -> Result<(), AllocError>
    requires { run.now.first + run.now.count ≤ VPN_END }
    ensures { OnOk result
        (Appends answer.old answer.new
        (meant.in_table_text machine.now.frames uses.now pid run.now branches.now)) }
{
    show_lower_begun(uses, pid, run, branches, answer)?;
    show_below(machine, pid, run, branches, answer)
}

/// Writes a run below its upper table.
fn show_leaf(
    machine: &Machine,
    uses: &[FrameUse],
    pid: Pid,
    run: &PageRun,
    branches: &Branches,
    answer: &mut String,
) -> Result<(), AllocError>
    requires { run.now.first + run.now.count ≤ VPN_END }
    ensures { OnOk result
        (Appends answer.old answer.new
        (meant.leaf_text machine.now.frames uses.now pid run.now branches.now run.now.kind)) }
{
    match run.kind {
        Kind::NoTable => show_without(machine, pid, run, branches, answer),
        Kind::Absent | Kind::There(_) => show_in_table(machine, uses, pid, run, branches, answer),
    }
}

/// Writes the tables that begin with a run, and the run below them.
fn show_run(
    machine: &Machine,
    uses: &[FrameUse],
    pid: Pid,
    run: &PageRun,
    branches: &Branches,
    answer: &mut String,
) -> Result<(), AllocError>
    requires { run.now.first + run.now.count ≤ VPN_END }
    ensures { OnOk result
        (Appends answer.old answer.new
        (meant.run_text machine.now.frames uses.now pid run.now branches.now)) }
{
    show_upper_begun(uses, pid, run, branches, answer)?;
    show_leaf(machine, uses, pid, run, branches, answer)
}

/// Writes the runs of a process's pages.
fn show_runs(
    machine: &Machine,
    uses: &[FrameUse],
    pid: Pid,
    runs: &[PageRun],
    answer: &mut String,
) -> Result<(), AllocError>
    requires { All (λ run. run.first + run.count ≤ VPN_END) runs.now }
    ensures { OnOk result
        (Appends answer.old answer.new (meant.runs_text machine.now.frames uses.now pid [] runs.now)) }
{
    for place in 0..runs.len() {
        let run = runs[place];
        let branches = branches_at(runs, place, &run);
        show_run(machine, uses, pid, &run, &branches, answer)?;
    }
    Ok(())
}

/// The number of the page behind the last of these runs, or this one without any.
fn behind_runs(from: u32, runs: &[PageRun]) -> u32
    requires { All (λ run. run.first + run.count ≤ VPN_END) runs.now }
    ensures { result ≡ behind_runs from runs.now }
{
    match runs.last() {
        Some(run) => run.first + run.count,
        None => from,
    }
}

/// Writes where the pages go on, if there are more.
fn show_more(behind: u32, end: u32, answer: &mut String) -> Result<(), AllocError>
    ensures { OnOk result (Appends answer.old answer.new (meant.go_on_text behind end)) }
{
    if behind >= end {
        return Ok(());
    }
    let address = Hexadecimal(u64::from(behind) * PAGE_BYTES);
    writeln!(answer, "there are more: pages {address} goes on")
}

/// Writes how large the memory of a process is, which has so many pages.
fn show_size(
    session: &Session,
    pid: Pid,
    size: u64,
    pages: u32,
    answer: &mut String,
) -> Result<(), AllocError>
    ensures { OnOk result (Appends answer.old answer.new (meant.size_text pid (name_in session.now pid) size pages)) }
{
    let owner = pid.number();
    let name = Named(program_name(session, pid));
    let bytes = Many(size, "byte");
    let pages = Many(u64::from(pages), "page");
    writeln!(answer, "memory of process {owner}{name}: {bytes}, {pages}")
}

/// Writes the tables and the runs of pages of a process, from one page on up to an end.
fn show_tree(
    machine: &Machine,
    uses: &[FrameUse],
    pid: Pid,
    begin: u32,
    end: u32,
    answer: &mut String,
) -> Result<(), AllocError>
    requires { end ≤ VPN_END }
    ensures { OnOk result
        (Writes (string_bytes answer.old) (string_bytes answer.new)
        (meant.IsTreeText machine.now uses.now pid begin end)) }
{
    show_root(uses, pid, answer)?;
    let list = runs_of(machine, uses, pid, begin, end);
    let runs = list.as_slice();
    show_runs(machine, uses, pid, runs, answer)?;
    show_more(behind_runs(begin, runs), end, answer)
}

/// Writes how large the memory of a process is, then its tables and pages, from one page on up to an end.
fn show_from(
    alloc: Global,
    session: &Session,
    pid: Pid,
    begin: u32,
    end: u32,
    size: u64,
    answer: &mut String,
) -> Result<(), AllocError>
    requires { end ≤ VPN_END }
    ensures { OnOk result
        (Writes (string_bytes answer.old) (string_bytes answer.new)
        (meant.ArePagesFrom session.now pid begin end size)) }
{
    let machine = session.machine();
    show_size(session, pid, size, end, answer)?;
    let list = uses_of(alloc, machine)?;
    let uses = list.as_slice();
    show_tree(machine, uses, pid, begin, end, answer)
}

/// The number behind the last page of so many bytes.
fn pages_end(size: u64) -> u32
    ensures end { result ≡ meant.pages_end size }
    ensures within { result ≤ VPN_END }
{
    size.div_ceil(PAGE_BYTES).min(u64::from(VPN_END)) as u32
}

/// The page of an address, or the end if it lies behind that.
fn page_from(from: u64, end: u32) -> u32
    ensures { result ≡ min (from / 4096) end }
{
    (from / PAGE_BYTES).min(u64::from(end)) as u32
}

/// Writes the tables and pages of a process, from an address on.
///
/// # Errors
///
/// The host has too little memory.
pub fn show_pages(
    alloc: Global,
    session: &Session,
    pid: Pid,
    from: u64,
    answer: &mut String,
) -> Result<(), AllocError>
    ensures { OnOk result
        (Writes (string_bytes answer.old) (string_bytes answer.new)
        (meant.IsPagesText session.now pid from)) }
{
    let Some(size) = session.machine().size(pid) else {
        return show_none(pid, answer);
    };
    let end = pages_end(size);
    let begin = page_from(from, end);
    show_from(alloc, session, pid, begin, end, size, answer)
}
