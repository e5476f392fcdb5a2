//! Who owns the frames of RAM.
ghost use Rattle.std.specs.Prelude.{◌≡◌, ◌++◌, OnOk, string_bytes};
ghost use Rattle.debug_views.specs.FrameText.{AreShares, IsFrameText, IsFramesText, IsSharesText};
ghost use Rattle.debug_views.specs.FrameText.{more_text, or_stroke, owner_text, page_head};
ghost use Rattle.debug_views.specs.FrameText.{share_text, shares_head, table_head, use_text};
ghost use Rattle.kcall_core.specs.declared.kernel.observers.frame_uses.FrameUse.TheVariants.{Page};
ghost use Rattle.debug_views.specs.Focus.{name_in};
ghost use Rattle.debug_views.specs.Written.{Writes, Appends};

use crate::focus::{least_from, program_name};
use crate::frame_uses::{Counted, count_of, uses_of};
use crate::pages::RightsShown;
use debug_words::texts::{Grouped, Hexadecimal, Many, Named, Plain};
use std::alloc::{AllocError, Global};
use xk_base::limits::PAGE_BYTES;
use xk_base::{Frame, Pid, Vpn};
use xv_machine::FrameUse;
use xv_session::Session;

/// The most processes that are shown at once.
const LINES_MOST: u32 = 16;

/// Writes a process, with the name of its program, and ends the line.
#[tactic(auto, unfolding(crate::specs::FrameText::owner_text))]
fn show_owner(session: &Session, pid: Pid, answer: &mut String) -> Result<(), AllocError>
    ensures { OnOk result (Appends answer.old answer.new (owner_text session.now pid)) }
{
    let number = pid.number();
    let name = Named(program_name(session, pid));
    writeln!(answer, "process {number}{name}")
}

/// Writes a table of a process, at its place.
fn show_table(
    session: &Session,
    level: &str,
    place: u32,
    pid: Pid,
    answer: &mut String,
) -> Result<(), AllocError>
    ensures { OnOk result (Appends answer.old answer.new (table_head level.now place ++ owner_text session.now pid)) }
{
    write!(answer, "{level} table {place} of ")?;
    show_owner(session, pid, answer)
}

/// Writes where a page of a process is, and what it allows.
fn show_place(session: &Session, pid: Pid, vpn: Vpn, answer: &mut String) -> Result<(), AllocError>
    ensures { OnOk result (Appends answer.old answer.new (page_head session.now pid vpn)) }
{
    let address = Hexadecimal(u64::from(vpn.number()) * PAGE_BYTES);
    let rights = RightsShown(session.machine().perm(pid, vpn));
    write!(answer, "the page at {address}, {rights}, of ")
}

/// Writes a page of a process.
fn show_page(session: &Session, pid: Pid, vpn: Vpn, answer: &mut String) -> Result<(), AllocError>
    ensures { OnOk result (Appends answer.old answer.new (use_text session.now (Page pid vpn))) }
{
    show_place(session, pid, vpn, answer)?;
    show_owner(session, pid, answer)
}

/// Writes what a frame is used for.
fn show_use(session: &Session, used: &FrameUse, answer: &mut String) -> Result<(), AllocError>
    ensures { OnOk result (Appends answer.old answer.new (use_text session.now used.now)) }
{
    match *used {
        FrameUse::Free => answer.push_str("free\n"),
        FrameUse::Pipe => answer.push_str("a pipe: pipe tells of it\n"),
        FrameUse::Trapframe(pid) => {
            answer.push_str("the trapframe of ")?;
            show_owner(session, pid, answer)
        }
        FrameUse::Root(pid) => {
            answer.push_str("the root table of ")?;
            show_owner(session, pid, answer)
        }
        FrameUse::Upper { pid, place } => show_table(session, "upper", place, pid, answer),
        FrameUse::Lower { pid, place } => show_table(session, "lower", place, pid, answer),
        FrameUse::Page { pid, vpn } => show_page(session, pid, vpn, answer),
    }
}

/// Writes what this frame is used for, if RAM has it.
fn show_frame(session: &Session, frame: Frame, answer: &mut String) -> Result<(), AllocError>
    ensures { OnOk result (Writes (string_bytes answer.old) (string_bytes answer.new) (IsFrameText session.now frame)) }
{
    let number = frame.number();
    match session.machine().frame_use(frame) {
        Some(used) => {
            write!(answer, "frame {number}: ")?;
            show_use(session, &used, answer)
        }
        None => writeln!(
            answer,
            "RAM has no frame {number}: frames tells how many there are"
        ),
    }
}

/// The name of the program that a process runs, or a stroke if it runs none.
fn name_or_stroke(session: &Session, pid: Pid) -> &[u8]
    ensures { result.now ≡ or_stroke (name_in session.now pid) }
{
    match program_name(session, pid) {
        Some(name) => name,
        None => b"-".as_slice(),
    }
}

/// Writes how many frames a process has.
fn show_share(
    session: &Session,
    uses: &[FrameUse],
    pid: Pid,
    answer: &mut String,
) -> Result<(), AllocError>
    ensures { OnOk result (Appends answer.old answer.new (share_text session.now uses.now pid)) }
{
    let number = pid.number();
    let name = Plain(name_or_stroke(session, pid));
    let pages = Grouped(count_of(uses, Counted::Pages(pid)) as u64);
    let tables = Grouped(count_of(uses, Counted::Tables(pid)) as u64);
    let trapframes = Grouped(count_of(uses, Counted::Trapframes(pid)) as u64);
    let all = Grouped(count_of(uses, Counted::Frames(pid)) as u64);
    writeln!(
        answer,
        "{number:>5} {name:<14} {pages:>7} {tables:>7} {trapframes:>10} {all:>7}"
    )
}

/// Writes which process is the next, if there are more.
fn show_more(next: Option<Pid>, answer: &mut String) -> Result<(), AllocError>
    ensures { OnOk result (Appends answer.old answer.new (more_text next)) }
{
    let Some(pid) = next else {
        return Ok(());
    };
    let number = pid.number();
    writeln!(
        answer,
        "there are more, from process {number} on: ps lists them"
    )
}

/// Writes how many frames each process has, from a pid on, of so many at most.
fn show_from(
    session: &Session,
    uses: &[FrameUse],
    lines: u32,
    from: u32,
    answer: &mut String,
) -> Result<(), AllocError>
    ensures { OnOk result
        (Writes (string_bytes answer.old) (string_bytes answer.new)
        (AreShares session.now uses.now lines from)) }
{
    let next = least_from(session.machine(), from);
    if lines == 0 {
        return show_more(next, answer);
    }
    let Some(pid) = next else {
        return Ok(());
    };
    show_share(session, uses, pid, answer)?;
    show_from(session, uses, lines - 1, pid.number() + 1, answer)
}

/// Writes how many frames there are, how many of them no process has, and the head of the lines of processes.
fn show_head(session: &Session, uses: &[FrameUse], answer: &mut String) -> Result<(), AllocError>
    ensures { OnOk result (Appends answer.old answer.new (shares_head session.now uses.now)) }
{
    let frames = Many(uses.len() as u64, "frame");
    let bytes = Grouped(PAGE_BYTES);
    let free = Grouped(u64::from(session.machine().free_frames()));
    let pipes = Grouped(count_of(uses, Counted::Pipes) as u64);
    writeln!(
        answer,
        "{frames} of {bytes} bytes: {free} are free, and pipes have {pipes}\n  pid program          pages  tables  trapframe     all"
    )
}

/// Writes who owns how many frames.
fn show_shares(alloc: Global, session: &Session, answer: &mut String) -> Result<(), AllocError>
    ensures { OnOk result (Writes (string_bytes answer.old) (string_bytes answer.new) (IsSharesText session.now)) }
{
    let list = uses_of(alloc, session.machine())?;
    let uses = list.as_slice();
    show_head(session, uses, answer)?;
    show_from(session, uses, LINES_MOST, 1, answer)
}

/// Writes who owns how many frames, or what this one is used for.
///
/// # Errors
///
/// The host has too little memory.
pub fn show_frames(
    alloc: Global,
    session: &Session,
    frame: Option<Frame>,
    answer: &mut String,
) -> Result<(), AllocError>
    ensures { OnOk result
        (Writes (string_bytes answer.old) (string_bytes answer.new) (IsFramesText session.now frame)) }
{
    match frame {
        Some(frame) => show_frame(session, frame, answer),
        None => show_shares(alloc, session, answer),
    }
}
