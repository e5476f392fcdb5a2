//! What `until line` waits for: that the process stands in another line.
ghost use Rattle.std.specs.Prelude.{◌≡◌, ◌≤◌, IfSome, IfNone, None};
ghost use Rattle.kcall_core.specs.Observers.{registers_of};
ghost use Rattle.xv_debug.specs.motion.Lines.{IsLineOf};

use crate::motion::aiming::Aim;
use xk_base::Pid;
use xv_report::text::Line;
use xv_report::{ProgramSource, Sources, source_of};
use xv_session::Session;

/// The most instructions of a line that are looked for before and after the pc.
const LINE_MOST: u32 = 1000;

/// Whether two addresses stand in the same line, as far as lines are known.
fn is_same_line(source: &ProgramSource<'_>, one: u64, other: u64) -> bool {
    match (source.location(one).line, source.location(other).line) {
        (Some(Line::Told(one)), Some(Line::Told(other))) => one == other,
        (Some(Line::Assembled { line: one, .. }), Some(Line::Assembled { line: other, .. })) => {
            one == other
        }
        _ => false,
    }
}

/// The first address of the line of an address.
fn line_begin(source: &ProgramSource<'_>, address: u64) -> u64
    ensures { result ≤ address }
{
    let mut first = address;
    for _ in 0..LINE_MOST {
        let Some(before) = first.checked_sub(4) else {
            return first;
        };
        if !is_same_line(source, address, before) {
            return first;
        }
        first = before;
    }
    first
}

/// The last address of the line of an address.
fn line_end(source: &ProgramSource<'_>, address: u64) -> u64
    ensures { address ≤ result }
{
    let mut last = address;
    for _ in 0..LINE_MOST {
        let Some(next) = last.checked_add(4) else {
            return last;
        };
        if !is_same_line(source, address, next) {
            return last;
        }
        last = next;
    }
    last
}

/// That a process stands in another line than it does; `None` if it doesn't live.
pub(crate) fn line_aim(session: &Session, sources: Option<&Sources>, pid: Pid) -> Option<Aim>
    ensures { IsLineOf (Some pid) session.now.machine.world result }
{
    let regs = session.machine().registers(pid)?;
    let source = source_of(sources, session, session.program_of(pid));
    Some(Aim::Outside {
        pid,
        first: line_begin(&source, regs.pc()),
        last: line_end(&source, regs.pc()),
    })
}
