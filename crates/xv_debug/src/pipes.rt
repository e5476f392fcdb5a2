//! The pipes.
ghost use Rattle.std.specs.Prelude.{◌≡◌, ◌++◌, ◌+◌, ◌<◌, ◌≤◌, Some, IfOk, OnOk, flat_map, string_bytes, take};
ghost use Rattle.std.specs.Fmt.{WritesOnOk};
ghost use Rattle.arrayvec.specs.ArrayVec.{array_vec_len};
ghost use Rattle.xk_base.specs.declared.limits.TheConstants.{FRAMES_MAX, NPROC};
ghost use Rattle.kcall_core.specs.ObservedPipes.{pipe_counts_of};
ghost use Rattle.debug_views.specs.Written.{Writes};
ghost use Rattle.xv_debug.specs.PipeText.{AddsHolder, AddsPipe, AreHolders, ArePipes, IsPipeText, IsPipesText, count_text, holder_behind, holders_text, oldest_text, read_end_text, write_end_text};
ghost use Rattle.xv_debug.specs.Pipes.{pipe_bytes};
ghost use Rattle.xv_report.specs.Waits.{holds_end};

use arrayvec::ArrayVec;
use debug_words::texts::{Many, Quoted};
use std::alloc::AllocError;
use std::fmt;
use xk_base::limits::{FRAMES_MAX, NPROC, PIPE_BYTES};
use xk_base::{Frame, Pid};
use xv_machine::{End, Machine, PipeCounts};
use xv_report::ends_held;
use xv_session::Session;

/// The most bytes of a pipe that are shown.
const SHOWN_MOST: usize = 32;

/// The most pipes that are shown.
const PIPES_MOST: u64 = 6;

/// Processes by their pids.
#[derive(Clone, Copy)]
struct PidsShown<'a>(&'a [u32]);

/// A pid behind others.
fn show_behind<W: fmt::Write>(pid: u32, f: &mut fmt::Formatter<W>) -> fmt::Result
    ensures { WritesOnOk W.write_str_gives f.old result (holder_behind pid) f.new }
{
    write!(f, ", {pid}")
}

/// Those behind the first.
fn show_others<W: fmt::Write>(pids: &[u32], f: &mut fmt::Formatter<W>) -> fmt::Result
    ensures { WritesOnOk W.write_str_gives f.old result (flat_map holder_behind pids.now) f.new }
{
    for pid in pids {
        show_behind(*pid, f)?;
    }
    Ok(())
}

impl<'a> fmt::Display for PidsShown<'a> {
    ghost output = { λ h. Some (holders_text h.0.now) };

    fn fmt<W: fmt::Write>(&self, f: &mut fmt::Formatter<W>) -> fmt::Result {
        let Some((first, others)) = self.0.split_first() else {
            return f.write_str("nobody");
        };
        write!(f, "{first}")?;
        show_others(others, f)
    }
}

/// Whether a process holds an end of a pipe.
fn holds(machine: &Machine, pid: Pid, pipe: Frame, end: End) -> bool
    ensures { result ≡ holds_end machine.now.world.state pid pipe end }
{
    let held = ends_held(machine, pid, pipe);
    match end {
        End::Reading => held.reads,
        End::Writing => held.writes,
    }
}

/// Adds the process in a slot, if it holds an end of a pipe.
#[tactic(auto, using(crate::proofs::HeldEnds::nobody_there, crate::proofs::HeldEnds::not_held, crate::proofs::HeldEnds::held))]
fn add_holder(
    machine: &Machine,
    pipe: Frame,
    end: End,
    slot: usize,
    pids: &mut ArrayVec<u32, NPROC>,
)
    requires within { slot < NPROC }
    requires room { array_vec_len pids.old ≤ slot }
    ensures fewer { array_vec_len pids.new ≤ slot + 1 }
    ensures adds { AddsHolder machine.now.world pipe end slot pids.old.items pids.new.items }
{
    let Some(pid) = machine.pid_in(slot) else {
        return;
    };
    if !holds(machine, pid, pipe, end) {
        return;
    }
    pids.push(pid.number());
}

/// The processes that hold an end of a pipe, by their pids.
fn holders(machine: &Machine, pipe: Frame, end: End) -> ArrayVec<u32, NPROC>
    ensures { AreHolders machine.now.world pipe end NPROC result.items }
{
    let mut pids: ArrayVec<u32, NPROC> = ArrayVec::new();
    for slot in 0..NPROC {
        add_holder(machine, pipe, end, slot, &mut pids);
    }
    pids
}

/// The oldest bytes of a pipe.
fn oldest(machine: &Machine, pipe: Frame) -> ArrayVec<u8, SHOWN_MOST>
    ensures { result.items ≡ take SHOWN_MOST (pipe_bytes machine.now.world.state pipe) }
{
    let mut bytes: ArrayVec<u8, SHOWN_MOST> = ArrayVec::new();
    for place in 0..SHOWN_MOST {
        let Some(byte) = machine.pipe_byte(pipe, place) else {
            return bytes;
        };
        bytes.push(byte);
    }
    bytes
}

/// Writes the oldest bytes of a pipe, if it has any.
fn show_oldest(bytes: &[u8], answer: &mut String) -> Result<(), AllocError>
    ensures { OnOk result (string_bytes answer.new ≡ string_bytes answer.old ++ oldest_text bytes.now) }
{
    if bytes.is_empty() {
        return Ok(());
    }
    let quoted = Quoted(bytes);
    writeln!(answer, "  the oldest: {quoted}")
}

/// Writes how many bytes a pipe has, how many descriptors are on its read end, and whose.
#[tactic(auto, unfolding(crate::specs::PipeText::read_end_text))]
fn show_read_end(
    pipe: Frame,
    counts: &PipeCounts,
    readers: &[u32],
    answer: &mut String,
) -> Result<(), AllocError>
    ensures { OnOk result (string_bytes answer.new ≡ string_bytes answer.old ++ read_end_text pipe counts.now readers.now) }
{
    let number = pipe.number();
    let bytes = Many(counts.bytes as u64, "byte");
    let descriptors = Many(counts.readers, "descriptor");
    let holders = PidsShown(readers);
    writeln!(
        answer,
        "pipe {number}, named by its frame: {bytes} of {PIPE_BYTES}\n  read end: {descriptors}, of {holders}"
    )
}

/// Writes how many descriptors are on the write end of a pipe, and whose.
#[tactic(auto, unfolding(crate::specs::PipeText::write_end_text))]
fn show_write_end(
    counts: &PipeCounts,
    writers: &[u32],
    answer: &mut String,
) -> Result<(), AllocError>
    ensures { OnOk result (string_bytes answer.new ≡ string_bytes answer.old ++ write_end_text counts.now writers.now) }
{
    let descriptors = Many(counts.writers, "descriptor");
    let holders = PidsShown(writers);
    writeln!(answer, "  write end: {descriptors}, of {holders}")
}

/// Writes what is known of a pipe.
fn show_pipe(
    machine: &Machine,
    pipe: Frame,
    counts: &PipeCounts,
    answer: &mut String,
) -> Result<(), AllocError>
    ensures { OnOk result (Writes (string_bytes answer.old) (string_bytes answer.new) (IsPipeText machine.now.world pipe counts.now)) }
{
    let readers = holders(machine, pipe, End::Reading);
    let writers = holders(machine, pipe, End::Writing);
    let bytes = oldest(machine, pipe);
    show_read_end(pipe, counts, readers.as_slice(), answer)?;
    show_write_end(counts, writers.as_slice(), answer)?;
    show_oldest(bytes.as_slice(), answer)
}

/// Writes the pipe of a frame, if there is one and it is among the first, and answers how many pipes there are so far.
fn show_if_there(
    machine: &Machine,
    pipe: Frame,
    before: u64,
    answer: &mut String,
) -> Result<u64, AllocError>
    requires { before < FRAMES_MAX }
    ensures few { IfOk result (λ count. count ≤ before + 1) }
    ensures adds { IfOk result (λ count. Writes (string_bytes answer.old) (string_bytes answer.new) (AddsPipe machine.now.world pipe (pipe_counts_of machine.now.world.state pipe) before count)) }
{
    let Some(counts) = machine.pipe_counts(pipe) else {
        return Ok(before);
    };
    if before >= PIPES_MOST {
        return Ok(before + 1);
    }
    show_pipe(machine, pipe, &counts, answer)?;
    Ok(before + 1)
}

/// Writes the first pipes, by the frames that they lie in, and answers how many pipes there are.
fn show_first(machine: &Machine, answer: &mut String) -> Result<u64, AllocError>
    ensures { IfOk result (λ count. Writes (string_bytes answer.old) (string_bytes answer.new) (ArePipes machine.now.world FRAMES_MAX count)) }
{
    let mut count: u64 = 0;
    for number in 0..FRAMES_MAX {
        count = show_if_there(machine, Frame::new(number), count, answer)?;
    }
    Ok(count)
}

/// Writes how many more pipes there are, or that there is none.
fn show_count(count: u64, answer: &mut String) -> Result<(), AllocError>
    ensures { OnOk result (string_bytes answer.new ≡ string_bytes answer.old ++ count_text count) }
{
    if count > PIPES_MOST {
        let more = Many(count - PIPES_MOST, "more pipe");
        return writeln!(answer, "and {more}: fds tells of each");
    }
    if count == 0 {
        return answer.push_str("there is no pipe\n");
    }
    Ok(())
}

/// Writes the pipes, by the frames that they lie in.
pub(crate) fn show_pipes(session: &Session, answer: &mut String) -> Result<(), AllocError>
    ensures { OnOk result (Writes (string_bytes answer.old) (string_bytes answer.new) (IsPipesText session.now.machine.world)) }
{
    let count = show_first(session.machine(), answer)?;
    show_count(count, answer)
}
