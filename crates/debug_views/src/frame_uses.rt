//! What each frame of RAM is used for.
ghost use Rattle.std.specs.Prelude.{◌≡◌, IfOk, count_by, position};
ghost use Rattle.debug_views.specs.Focus.{lesser};
ghost use Rattle.debug_views.specs.FrameLists.{AreUses, IsLeastLower, is_counted, is_frame_of, is_lower_of};
ghost use Rattle.debug_views.specs.FrameLists.{is_page_of, is_pipe, is_root_of, is_table_of, is_this_table};
ghost use Rattle.debug_views.specs.FrameLists.{is_trapframe_of, is_upper_of, lower_in};

use std::alloc::{AllocError, Global};
use xk_base::limits::FRAMES_MAX;
use xk_base::{Frame, Pid};
use xv_machine::{FrameUse, Machine};

/// What each frame of RAM is used for, from frame 0 on.
///
/// # Errors
///
/// The host has too little memory for the list.
pub(crate) fn uses_of(alloc: Global, machine: &Machine) -> Result<Vec<FrameUse>, AllocError>
    ensures { IfOk result (λ uses. AreUses machine.now uses.items) }
{
    let mut uses = Vec::new(alloc);
    for number in 0..FRAMES_MAX {
        let Some(used) = machine.frame_use(Frame::new(number)) else {
            return Ok(uses);
        };
        uses.push(used)?;
    }
    Ok(uses)
}

/// Whether it is a page of the process.
fn is_page_of(used: &FrameUse, owner: Pid) -> bool
    ensures { result ≡ is_page_of owner used.now }
{
    match used {
        FrameUse::Page { pid, .. } => pid.number() == owner.number(),
        _ => false,
    }
}

/// Whether it is a table of the process.
fn is_table_of(used: &FrameUse, owner: Pid) -> bool
    ensures { result ≡ is_table_of owner used.now }
{
    match used {
        FrameUse::Root(pid) | FrameUse::Upper { pid, .. } | FrameUse::Lower { pid, .. } =>
            pid.number() == owner.number(),
        _ => false,
    }
}

/// Whether it is the trapframe of the process.
fn is_trapframe_of(used: &FrameUse, owner: Pid) -> bool
    ensures { result ≡ is_trapframe_of owner used.now }
{
    match used {
        FrameUse::Trapframe(pid) => pid.number() == owner.number(),
        _ => false,
    }
}

/// Whether it is a pipe.
fn is_pipe(used: &FrameUse) -> bool
    ensures { result ≡ is_pipe used.now }
{
    match used {
        FrameUse::Pipe => true,
        _ => false,
    }
}

/// Whether it is a page, a table or the trapframe of the process.
fn is_frame_of(used: &FrameUse, owner: Pid) -> bool
    ensures { result ≡ is_frame_of owner used.now }
{
    is_page_of(used, owner) || is_table_of(used, owner) || is_trapframe_of(used, owner)
}

/// Frames that are counted.
#[derive(Clone, Copy)]
pub(crate) enum Counted {
    /// The pages of a process.
    Pages(Pid),
    /// Its tables.
    Tables(Pid),
    /// Its trapframe.
    Trapframes(Pid),
    /// All of these.
    Frames(Pid),
    /// The pipes.
    Pipes,
}

/// Whether it is one of those that are counted.
fn is_counted(used: &FrameUse, counted: Counted) -> bool
    ensures { result ≡ is_counted counted used.now }
{
    match counted {
        Counted::Pages(owner) => is_page_of(used, owner),
        Counted::Tables(owner) => is_table_of(used, owner),
        Counted::Trapframes(owner) => is_trapframe_of(used, owner),
        Counted::Frames(owner) => is_frame_of(used, owner),
        Counted::Pipes => is_pipe(used),
    }
}

/// How many frames of these are counted.
pub(crate) fn count_of(uses: &[FrameUse], counted: Counted) -> usize
    ensures { result ≡ count_by (is_counted counted) uses.now }
{
    uses.iter().filter(|used| is_counted(used, counted)).count()
}

/// Whether it is the root table of the process.
fn is_root_of(used: &FrameUse, owner: Pid) -> bool
    ensures { result ≡ is_root_of owner used.now }
{
    match used {
        FrameUse::Root(pid) => pid.number() == owner.number(),
        _ => false,
    }
}

/// Whether it is the process's upper table at this place.
fn is_upper_of(used: &FrameUse, owner: Pid, wanted: u32) -> bool
    ensures { result ≡ is_upper_of owner wanted used.now }
{
    match used {
        FrameUse::Upper { pid, place } => (pid.number() == owner.number()) & (*place == wanted),
        _ => false,
    }
}

/// Whether it is the process's lower table at this place.
fn is_lower_of(used: &FrameUse, owner: Pid, wanted: u32) -> bool
    ensures { result ≡ is_lower_of owner wanted used.now }
{
    match used {
        FrameUse::Lower { pid, place } => (pid.number() == owner.number()) & (*place == wanted),
        _ => false,
    }
}

/// A table of a process.
#[derive(Clone, Copy)]
pub(crate) enum Table {
    TheRoot,
    /// The upper table at this place.
    UpperAt(u32),
    /// The lower table at this place.
    LowerAt(u32),
}

/// Whether it is this table of the process.
fn is_this_table(used: &FrameUse, owner: Pid, table: Table) -> bool
    ensures { result ≡ is_this_table owner table used.now }
{
    match table {
        Table::TheRoot => is_root_of(used, owner),
        Table::UpperAt(place) => is_upper_of(used, owner, place),
        Table::LowerAt(place) => is_lower_of(used, owner, place),
    }
}

/// The frame of this table of the process; `None` if it has none.
pub(crate) fn table_frame(uses: &[FrameUse], owner: Pid, table: Table) -> Option<usize>
    ensures { result ≡ position (is_this_table owner table) uses.now }
{
    uses.iter()
        .position(|used| is_this_table(used, owner, table))
}

/// The place of the process's lower table that a frame has, if it is one from this place on.
fn lower_in(used: &FrameUse, owner: Pid, from: u32) -> Option<u32>
    ensures { result ≡ lower_in owner from used.now }
{
    match used {
        FrameUse::Lower { pid, place } if pid.number() == owner.number() && *place >= from => Some(
            *place,
        ),
        _ => None,
    }
}

/// The lesser of two places.
fn lesser(least: Option<u32>, place: Option<u32>) -> Option<u32>
    ensures { result ≡ lesser least place }
{
    let Some(place) = place else {
        return least;
    };
    match least {
        Some(found) => Some(found.min(place)),
        None => Some(place),
    }
}

/// The place of the first lower table of a process, from this place on.
pub(crate) fn next_lower(uses: &[FrameUse], owner: Pid, from: u32) -> Option<u32>
    ensures { IsLeastLower uses.now owner from result }
{
    let mut least: Option<u32> = None;
    for frame in 0..uses.len() {
        least = lesser(least, lower_in(&uses[frame], owner, from));
    }
    least
}
