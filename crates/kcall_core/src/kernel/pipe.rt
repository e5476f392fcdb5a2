//! Pipes: they are made, read and written (xv6's `pipe.c`; the xv6 book, "Code: Pipes").
ghost use Rattle.std.specs.Prelude.{◌≡◌, ◌<◌, ◌≤◌, ◌++◌, ◌&&◌, Some, pos, true, false};
ghost use Rattle.std.specs.Prelude.{nat_lt, is_none, position, IsSome, IfSome, IfNone, None, cond, set};
ghost use Rattle.xk_base.specs.Words.{le_bytes, least_below};
ghost use Rattle.xk_base.specs.declared.limits.TheConstants.{NOFILE, NPROC, OPEN_FILES};
ghost use Rattle.file_table.specs.Named.{named_by, with_named};
ghost use Rattle.proc_table.specs.Slots.{each_changed, descriptors_at};
ghost use Rattle.kernel_spec.specs.rows.Buffers.{writable_now};
ghost use Rattle.kcall_core.specs.Memories.{free_of, pipes_of, PipeChanges};
ghost use Rattle.kernel_spec.specs.rows.Calls.{make_pipe, read, write};
ghost use Rattle.kcall_core.specs.Closings.{woken_by};
ghost use Rattle.kcall_core.specs.Kernel.{IsRunning, live_now};
ghost use Rattle.kcall_core.specs.Whole.{IsWhole};
ghost use Rattle.kcall_core.specs.Makes.{Makes, view_now, answer_of};
ghost use Rattle.kcall_core.specs.Moves.{ReadsPipe, WritesPipe};
ghost use Rattle.std.specs.FinMap.{get};
ghost use Rattle.file_table.specs.OpenFiles.{IsOpen, open_file_at, lowest_place, open_count, pipe_file, with_opened};
ghost use Rattle.file_table.specs.declared.open_file.OpenFile.{OpenFile};
ghost use Rattle.file_table.specs.declared.open_file.Target.TheVariants as on;
ghost use Rattle.kernel_spec.specs.others.Quiet.{pipe_of_target};
ghost use Rattle.kernel_spec.specs.views.PipeEnds.{count_on, parted, is_given_up};
ghost use Rattle.kcall_core.specs.Holdings.{pipe_named};
ghost use Rattle.kcall_core.specs.Memories as memory;
ghost use Rattle.kernel_spec.specs.waking.SleepsOn.{closes_wake};

use crate::call_end::CallEnd;
use crate::kernel::Kernel;
use crate::kernel::file::put_descriptor;
use crate::kernel::syscall::{left_of, next_address, with_moved};
use crate::kernel::sysfile::lowest_above;
use crate::kernel::wakeup::across;
use file_table::{End, FileId, Files, OpenFile, Target};
use hart_core::Hart;
use proc_table::{Call, Channel};
use xk_base::{Fd, Frame};

/// How many bytes the numbers of two descriptors take.
const NUMBERS_BYTES: usize = 8;

/// The numbers of two descriptors as two C ints. A descriptor's number is below [`NOFILE`](xk_base::limits::NOFILE),
/// so it is the lowest byte of its int.
fn two_numbers(read: Fd, write: Fd) -> [u8; NUMBERS_BYTES]
    ensures { result ≡ le_bytes 4 read ++ le_bytes 4 write }
{
    [read.number(), 0, 0, 0, write.number(), 0, 0, 0]
}

/// An end of the pipe in a frame.
#[derive(Clone, Copy)]
pub(crate) struct PipeEnd {
    pub(crate) frame: Frame,
    pub(crate) end: End,
}

/// The end of a pipe that an open file is, if it is one.
fn pipe_end(kind: &OpenFile) -> Option<PipeEnd>
    ensures found { IfSome result (λ e. kind.now.target ≡ on.Pipe e.frame e.end) }
    ensures none { IfNone result (pipe_of_target kind.now.target ≡ None) }
{
    match kind.target {
        Target::Console => None,
        Target::Program { .. } => None,
        Target::Pipe { frame, end } => Some(PipeEnd { frame, end }),
    }
}

/// The end of a pipe that the open file of this name is, if it is one.
pub(crate) fn pipe_end_of(files: &Files, file: FileId) -> Option<PipeEnd>
    requires { IsOpen files.now file }
    ensures found { IfSome result (λ e.
        (x : OpenFile) × (open_file_at files.now file ≡ Some x) × (x.target ≡ on.Pipe e.frame e.end)) }
    ensures none { IfNone result
        ((x : OpenFile) × (open_file_at files.now file ≡ Some x) × (pipe_of_target x.target ≡ None)) }
{
    let kind = files.kind(file);
    pipe_end(&kind)
}

impl Kernel {
    /// A free descriptor of a slot names an end of the pipe in a frame from now on.
    pub(crate) fn open_pipe_at(&mut self, slot: usize, fd: Fd, frame: Frame, end: End) -> FileId
        requires within { slot < NPROC }
        requires free { named_by (descriptors_at self.old.table slot) fd ≡ None }
        requires room { open_count self.old.files < OPEN_FILES }
        ensures place { lowest_place self.old.files ≡ Some result }
        ensures table { self.new.table ≡ record self.old.table {
          descriptors = set self.old.table.descriptors slot
              (with_named fd (Some result) (descriptors_at self.old.table slot));
        } }
        ensures files { self.new.files ≡ with_opened result (pipe_file frame end) self.old.files }
        ensures rest { self.new ≡ record self.old { table = self.new.table; files = self.new.files } }
    {
        let file = self.files.open_pipe(frame, end);
        put_descriptor(&mut self.table, slot, fd, file);
        file
    }

    /// The call pipe, which gives these descriptors. Their numbers can be stored, and a frame is free.
    fn pipe_ready(
        &mut self,
        hart: &mut Hart,
        call: &Call,
        slot: usize,
        read: Fd,
        write: Fd,
    ) -> CallEnd
        requires whole { IsWhole self.old hart.old }
        requires running { IsRunning self.old }
        requires slot { self.old.current ≡ Some slot }
        requires read { position is_none (descriptors_at self.old.table slot) ≡ Some read }
        requires write { least_below
            (λ d. nat_lt read d && is_none (named_by (descriptors_at self.old.table slot) d)) NOFILE
            ≡ Some write }
        requires there { writable_now (live_now self.old hart.old).image call.now.a0 8 ≡ true }
        requires frame { 1 ≤ free_of self.old.memories }
        ensures made { Makes self.old hart.old (make_pipe call.now (view_now self.old hart.old)) self.new hart.new }
        ensures answer { (make_pipe call.now (view_now self.old hart.old)).answer ≡ answer_of call.now.number result }
    {
        let Some(frame) = self.memories.make_pipe() else {
            unreachable!();
        };
        let numbers = two_numbers(read, write);
        self.memories.write_tested(slot, call.a0, &numbers);
        let _ = self.open_pipe_at(slot, read, frame, End::Reading);
        let _ = self.open_pipe_at(slot, write, frame, End::Writing);
        self.done(hart, 0)
    }

    /// The call pipe: the lowest free descriptor names the read end of a new pipe, the lowest above it the
    /// write end, their numbers stand at the address in the first argument as two C ints, and the answer is
    /// 0. If not all of these 8 bytes may be written, no frame is free, or fewer than two descriptors
    /// are, the answer is -1, and nothing else changes.
    pub(crate) fn pipe(&mut self, hart: &mut Hart, call: &Call) -> CallEnd
        requires whole { IsWhole self.old hart.old }
        requires running { IsRunning self.old }
        ensures made { Makes self.old hart.old (make_pipe call.now (view_now self.old hart.old)) self.new hart.new }
        ensures answer { (make_pipe call.now (view_now self.old hart.old)).answer ≡ answer_of call.now.number result }
    {
        let slot = self.running_slot();
        let Some(read) = self.table.descriptors(slot).lowest() else {
            return self.refuse(hart);
        };
        let Some(write) = lowest_above(&self.table, slot, read) else {
            return self.refuse(hart);
        };
        if !self.ready_buffer(slot, call.a0, NUMBERS_BYTES, 1) {
            return self.refuse(hart);
        }
        self.pipe_ready(hart, call, slot, read, write)
    }

    /// One step of a read from a pipe: the answer is how many bytes it took, which are all that are there
    /// but at most `n`. It waits while there is none and somebody may still write.
    pub(crate) fn read_pipe(
        &mut self,
        hart: &mut Hart,
        call: &Call,
        slot: usize,
        frame: Frame,
        n: usize,
    ) -> CallEnd
        requires whole { IsWhole self.old hart.old }
        requires running { IsRunning self.old }
        requires slot { self.old.current ≡ Some slot }
        requires unmarked { (live_now self.old hart.old).killed ≡ false }
        requires in_call { (live_now self.old hart.old).call ≡ Some call.now }
        requires row { call.now.number ≡ pos 5 }
        requires reads { ReadsPipe self.old hart.old call.now frame n }
        ensures made { Makes self.old hart.old (read call.now (view_now self.old hart.old)) self.new hart.new }
        ensures answer { (read call.now (view_now self.old hart.old)).answer ≡ answer_of call.now.number result }
    {
        if self.memories.must_wait(frame) {
            return self.block(hart, with_moved(call, 0), Channel::Bytes(frame));
        }
        let count = self.memories.pull_to(frame, slot, call.a1, n);
        self.wake(Channel::Room(frame));
        self.done(hart, count as i64)
    }

    /// One step of a write to a pipe: as many bytes as fit go in. It is done when all `n` are in, it waits
    /// for room until then, and it is refused if nobody can read any more.
    pub(crate) fn write_pipe(
        &mut self,
        hart: &mut Hart,
        call: &Call,
        slot: usize,
        frame: Frame,
        n: usize,
    ) -> CallEnd
        requires whole { IsWhole self.old hart.old }
        requires running { IsRunning self.old }
        requires slot { self.old.current ≡ Some slot }
        requires unmarked { (live_now self.old hart.old).killed ≡ false }
        requires in_call { (live_now self.old hart.old).call ≡ Some call.now }
        requires row { call.now.number ≡ pos 16 }
        requires size { n < 2147483648 }
        requires writes { WritesPipe self.old hart.old call.now frame n }
        ensures made { Makes self.old hart.old (write call.now (view_now self.old hart.old)) self.new hart.new }
        ensures answer { (write call.now (view_now self.old hart.old)).answer ≡ answer_of call.now.number result }
    {
        if self.memories.is_closed(frame, End::Reading) {
            return self.refuse(hart);
        }
        let left = left_of(call, n);
        let count = self
            .memories
            .push_from(frame, slot, next_address(call), left);
        self.wake_if(count > 0, Channel::Bytes(frame));
        let moved = call.moved + count as u32;
        if moved as usize >= n {
            return self.done(hart, n as i64);
        }
        self.block(hart, with_moved(call, moved), Channel::Room(frame))
    }

    /// One descriptor fewer is on an end of a pipe. With the last one on that end, those wake who wait at
    /// the other; with the last one of both ends, the pipe's frame is free.
    pub(crate) fn leave_pipe(&mut self, frame: Frame, end: End)
        requires sound { memory.AreSound self.old.memories }
        requires there { IsSome (get (pipes_of self.old.memories) frame) }
        requires some { 1 ≤ count_on end (pipe_named (pipes_of self.old.memories) frame) }
        ensures pipe { let left = parted (pipe_named (pipes_of self.old.memories) frame) end 1 in
            PipeChanges self.old.memories self.new.memories frame
            (cond (is_given_up left) None (Some left)) }
        ensures table { self.new.table
            ≡ each_changed
            (woken_by (closes_wake (pipes_of self.old.memories) (pipes_of self.new.memories)))
            self.old.table }
        ensures rest { self.new ≡ record self.old { memories = self.new.memories; table = self.new.table } }
    {
        if !self.memories.leave(frame, end) {
            return;
        }
        self.table.wake(across(frame, end));
    }
}
