//! The calls read, write, dup and close (xv6's `sysfile.c`; the xv6 book, "I/O and File descriptors"). Open stands
//! in `opening.rt`, pipe in `pipe.rt`.
ghost use Rattle.std.specs.Prelude.{◌≡◌, ℕ, ◌<◌, ◌&&◌, IsSome, IfSome, IfNone};
ghost use Rattle.std.specs.Prelude.{None, is_none, nat_lt, pos, ◌≢◌, Some, true};
ghost use Rattle.std.specs.Prelude.{false, take, drop, map, slice_get, length, ◌+◌};
ghost use Rattle.xk_base.specs.declared.limits.TheConstants.{NPROC, NOFILE};
ghost use Rattle.xk_base.specs.Words.{least_below};
ghost use Rattle.file_table.specs.Named.{named_by};
ghost use Rattle.proc_table.specs.Slots.{descriptors_at};
ghost use Rattle.kernel_spec.specs.rows.Calls.{close, dup, read, write, refused};
ghost use Rattle.hart_core.specs.declared.hart.Hart.{Hart};
ghost use Rattle.kernel_spec.specs.views.Words.{c_int};
ghost use Rattle.proc_table.specs.Processes.{call_of};
ghost use Rattle.kcall_core.specs.Memories.{image_at};
ghost use Rattle.kcall_core.specs.Kernel.{IsRunning, place_now, live_now};
ghost use Rattle.kcall_core.specs.Touched.{IsReady, IsUnready};
ghost use Rattle.kcall_core.specs.Whole.{IsWhole};
ghost use Rattle.kcall_core.specs.Makes.{Makes, view_now, answer_of};
ghost use Rattle.file_table.specs.declared.open_file.Target.TheVariants as on;
ghost use Rattle.kernel_spec.specs.views.State.{named_file};
ghost use Rattle.kernel_spec.specs.views.Programs.{program_bytes};
ghost use Rattle.kernel_spec.specs.rows.Buffers.{readable, writable_now};
ghost use Rattle.kcall_core.specs.Moves.{OnFile, IsAsked, allows, row_on};

use crate::call_end::CallEnd;
use crate::kernel::Kernel;
use crate::kernel::syscall::c_int;
use file_table::{End, FileId, OpenFile, Target};
use hart_core::Hart;
use proc_table::{Call, Table};
use xk_base::limits::NOFILE;
use xk_base::{Fd, Program};

/// The descriptor of this number, if it is in use in a slot.
pub(crate) fn used_descriptor(table: &Table, slot: usize, number: i32) -> Option<Fd>
    requires { slot < NPROC }
    ensures used { IfSome result (λ fd.
        (number ≡ pos fd) × (fd < NOFILE) × IsSome (named_by (descriptors_at table.now slot) fd)) }
    ensures unused { IfNone result
        ((d : ℕ) → d < NOFILE → number ≡ pos d → named_by (descriptors_at table.now slot) d ≡ None) }
{
    if number < 0 {
        return None;
    }
    if number >= NOFILE as i32 {
        return None;
    }
    let fd = Fd::new(number as u8);
    let Some(_) = table.descriptors(slot).get(fd) else {
        return None;
    };
    Some(fd)
}

/// Whether a descriptor of a slot is free, and above another one.
fn is_free_above(table: &Table, slot: usize, low: Fd, number: usize) -> bool
    requires slot { slot < NPROC }
    requires number { number < NOFILE }
    ensures { result ≡ (nat_lt low number && is_none (named_by (descriptors_at table.now slot) number)) }
{
    number > low.index() && table.descriptors(slot).get(Fd::new(number as u8)).is_none()
}

/// The lowest free descriptor of a slot above another one.
pub(crate) fn lowest_above(table: &Table, slot: usize, low: Fd) -> Option<Fd>
    requires { slot < NPROC }
    ensures { result
        ≡ least_below (λ d. nat_lt low d && is_none (named_by (descriptors_at table.now slot) d)) NOFILE }
{
    for number in 0..NOFILE {
        if is_free_above(table, slot, low, number) {
            return Some(Fd::new(number as u8));
        }
    }
    None
}

impl Kernel {
    /// The call dup: the lowest free descriptor names what the descriptor of its first argument names, and
    /// is the answer; -1 if that isn't in use, or no descriptor is free.
    pub(crate) fn dup(&mut self, hart: &mut Hart, call: &Call) -> CallEnd
        requires whole { IsWhole self.old hart.old }
        requires running { IsRunning self.old }
        ensures made { Makes self.old hart.old (dup call.now (view_now self.old hart.old)) self.new hart.new }
        ensures answer { (dup call.now (view_now self.old hart.old)).answer ≡ answer_of call.now.number result }
    {
        let slot = self.running_slot();
        let Some(fd) = used_descriptor(&self.table, slot, c_int(call.a0)) else {
            return self.done(hart, -1);
        };
        let Some(file) = self.table.descriptors(slot).get(fd) else {
            unreachable!();
        };
        let Some(new) = self.table.descriptors(slot).lowest() else {
            return self.done(hart, -1);
        };
        self.share(slot, new, file);
        self.done(hart, i64::from(new.number()))
    }

    /// The call close: the descriptor of its first argument is closed, and the answer is 0; -1 if it isn't
    /// in use.
    pub(crate) fn close(&mut self, hart: &mut Hart, call: &Call) -> CallEnd
        requires whole { IsWhole self.old hart.old }
        requires running { IsRunning self.old }
        ensures made { Makes self.old hart.old (close call.now (view_now self.old hart.old)) self.new hart.new }
        ensures answer { (close call.now (view_now self.old hart.old)).answer ≡ answer_of call.now.number result }
    {
        let slot = self.running_slot();
        let Some(fd) = used_descriptor(&self.table, slot, c_int(call.a0)) else {
            return self.done(hart, -1);
        };
        self.close_descriptor(slot, fd);
        self.done(hart, 0)
    }
}

/// How many bytes are asked for; `None` if the number is below 0.
fn byte_count(asked: i32) -> Option<usize>
    ensures some { IfSome result (λ n. (asked ≡ pos n) × (n < 2147483648)) }
    ensures none { IfNone result ((n : ℕ) → asked ≢ pos n) }
{
    if asked < 0 {
        return None;
    }
    Some(asked as usize)
}

/// What a read or a write is on: an open file, and how many bytes are asked for.
#[derive(Clone, Copy)]
pub(crate) struct Transfer {
    file: FileId,
    kind: OpenFile,
    count: usize,
}

/// Whether an open file may be read, or written.
fn allows(kind: &OpenFile, end: End) -> bool
    ensures { result ≡ allows end kind.now }
{
    match end {
        End::Reading => kind.read,
        End::Writing => kind.write,
    }
}

/// What is left of a program's file from an offset on, but at most so many bytes; no bytes if there is no
/// such program.
fn file_rest(programs: &[Program], program: usize, offset: u64, n: usize) -> &[u8]
    ensures bytes { result.now
        ≡ take n (drop offset (program_bytes (slice_get (map named_file programs.now) program))) }
    ensures range { offset + length result.now < 18446744073709551616 }
{
    let Some(program) = programs.get(program) else {
        return &[];
    };
    let bytes = program.bytes.as_slice();
    let from = bytes.len().min(offset as usize);
    let left = &bytes[from..];
    &left[..n.min(left.len())]
}

impl Kernel {
    /// What a read (from the reading end) or a write is on. The tests that the two have in common come in their rows'
    /// order: the descriptor, its mode, the number of bytes. `None` if one of them fails.
    fn transfer(&self, slot: usize, call: &Call, end: End) -> Option<Transfer>
        requires whole { (hart : Hart) × IsWhole self.now hart }
        requires slot { self.now.current ≡ Some slot }
        ensures size { IfSome result (λ asked. asked.count < 2147483648) }
        ensures allowed { IfSome result (λ asked. allows end asked.kind ≡ true) }
        ensures asked { IfSome result (λ asked.
            (hart : Hart) → IsWhole self.now hart
            → IsAsked self.now hart call.now asked.file asked.kind asked.count) }
        ensures refused { IfNone result
            ((hart : Hart) → IsWhole self.now hart
            → row_on end call.now (view_now self.now hart) ≡ refused call.now (view_now self.now hart)) }
    {
        let Some(fd) = used_descriptor(&self.table, slot, c_int(call.a0)) else {
            return None;
        };
        let Some(file) = self.table.descriptors(slot).get(fd) else {
            unreachable!();
        };
        let kind = self.files.kind(file);
        if !allows(&kind, end) {
            return None;
        }
        let Some(count) = byte_count(c_int(call.a2)) else {
            return None;
        };
        Some(Transfer { file, kind, count })
    }

    /// One step of a write to an open file that may be written. All bytes that are asked for are in the buffer.
    fn write_to(&mut self, hart: &mut Hart, call: &Call, slot: usize, asked: &Transfer) -> CallEnd
        requires whole { IsWhole self.old hart.old }
        requires running { IsRunning self.old }
        requires slot { self.old.current ≡ Some slot }
        requires unmarked { (live_now self.old hart.old).killed ≡ false }
        requires in_call { (live_now self.old hart.old).call ≡ Some call.now }
        requires row { call.now.number ≡ pos 16 }
        requires size { asked.now.count < 2147483648 }
        requires writes { asked.now.kind.write ≡ true }
        requires file { OnFile self.old hart.old call.now asked.now.file asked.now.kind
            (readable (live_now self.old hart.old).image call.now.a1) asked.now.count }
        ensures made { Makes self.old hart.old (write call.now (view_now self.old hart.old)) self.new hart.new }
        ensures answer { (write call.now (view_now self.old hart.old)).answer ≡ answer_of call.now.number result }
    {
        match asked.kind.target {
            Target::Console => self.write_terminal(hart, call, slot, asked.count),
            Target::Program { .. } => self.refuse(hart),
            Target::Pipe { frame, .. } => self.write_pipe(hart, call, slot, frame, asked.count),
        }
    }

    /// Whether user code may read all `n` bytes of the buffer of a write. If the write has moved bytes, it is so: an
    /// earlier step has tested it, and a process that waits keeps its pages.
    fn source_is_there(&self, slot: usize, call: &Call, n: usize) -> bool
        requires whole { (hart : Hart) × IsWhole self.now hart }
        requires slot { self.now.current ≡ Some slot }
        requires in_call { call_of (place_now self.now) ≡ Some call.now }
        requires row { call.now.number ≡ pos 16 }
        requires asked { c_int call.now.a2 ≡ pos n }
        ensures { result ≡ readable (image_at self.now.memories slot) call.now.a1 n }
    {
        if call.moved > 0 {
            return true;
        }
        self.memories.may_read(slot, call.a1, n)
    }

    /// One step of the call write. If there are bytes to move, the buffer is there, or the write is refused.
    pub(crate) fn write(&mut self, hart: &mut Hart, call: &Call) -> CallEnd
        requires whole { IsWhole self.old hart.old }
        requires running { IsRunning self.old }
        requires unmarked { (live_now self.old hart.old).killed ≡ false }
        requires in_call { (live_now self.old hart.old).call ≡ Some call.now }
        requires row { call.now.number ≡ pos 16 }
        ensures made { Makes self.old hart.old (write call.now (view_now self.old hart.old)) self.new hart.new }
        ensures answer { (write call.now (view_now self.old hart.old)).answer ≡ answer_of call.now.number result }
    {
        let slot = self.running_slot();
        let Some(asked) = self.transfer(slot, call, End::Writing) else {
            return self.refuse(hart);
        };
        if asked.count == 0 {
            return self.done(hart, 0);
        }
        if !self.source_is_there(slot, call, asked.count) {
            return self.refuse(hart);
        }
        self.write_to(hart, call, slot, &asked)
    }

    /// A read from a program's file, at an offset, of as many bytes at most as are asked for, for which the buffer has
    /// room: the answer is how many were left in the file.
    fn read_program(
        &mut self,
        hart: &mut Hart,
        call: &Call,
        slot: usize,
        asked: &Transfer,
        program: usize,
        offset: u64,
    ) -> CallEnd
        requires whole { IsWhole self.old hart.old }
        requires running { IsRunning self.old }
        requires slot { self.old.current ≡ Some slot }
        requires target { asked.now.kind.target ≡ on.Program program offset }
        requires size { asked.now.count < 2147483648 }
        requires reads { asked.now.kind.read ≡ true }
        requires file { OnFile self.old hart.old call.now asked.now.file asked.now.kind
            (writable_now (live_now self.old hart.old).image call.now.a1) asked.now.count }
        ensures made { Makes self.old hart.old (read call.now (view_now self.old hart.old)) self.new hart.new }
        ensures answer { (read call.now (view_now self.old hart.old)).answer ≡ answer_of call.now.number result }
    {
        let bytes = file_rest(&self.programs, program, offset, asked.count);
        let count = bytes.len();
        self.memories.write_tested(slot, call.a1, bytes);
        self.files.move_to(asked.file, offset + count as u64);
        self.done(hart, count as i64)
    }

    /// One step of a read from an open file that may be read. The buffer has room for all bytes that are asked for.
    fn read_from(&mut self, hart: &mut Hart, call: &Call, slot: usize, asked: &Transfer) -> CallEnd
        requires whole { IsWhole self.old hart.old }
        requires running { IsRunning self.old }
        requires slot { self.old.current ≡ Some slot }
        requires unmarked { (live_now self.old hart.old).killed ≡ false }
        requires in_call { (live_now self.old hart.old).call ≡ Some call.now }
        requires row { call.now.number ≡ pos 5 }
        requires size { asked.now.count < 2147483648 }
        requires reads { asked.now.kind.read ≡ true }
        requires file { OnFile self.old hart.old call.now asked.now.file asked.now.kind
            (writable_now (live_now self.old hart.old).image call.now.a1) asked.now.count }
        ensures made { Makes self.old hart.old (read call.now (view_now self.old hart.old)) self.new hart.new }
        ensures answer { (read call.now (view_now self.old hart.old)).answer ≡ answer_of call.now.number result }
    {
        match asked.kind.target {
            Target::Console => self.read_terminal(hart, call, slot, asked.count),
            Target::Program { program, offset } => {
                self.read_program(hart, call, slot, asked, program, offset)
            }
            Target::Pipe { frame, .. } => self.read_pipe(hart, call, slot, frame, asked.count),
        }
    }

    /// Whether user code may write all `n` bytes of the buffer of a read, whose absent pages come. If the read has
    /// moved bytes, it is so: an earlier step has tested it, and a process that waits keeps its pages.
    fn room_is_there(&mut self, slot: usize, call: &Call, n: usize) -> bool
        requires whole { (hart : Hart) × IsWhole self.old hart }
        requires slot { self.old.current ≡ Some slot }
        requires in_call { call_of (place_now self.old) ≡ Some call.now }
        requires row { call.now.number ≡ pos 5 }
        requires asked { c_int call.now.a2 ≡ pos n }
        ensures ready { result ≡ true → (hart : Hart) → IsWhole self.old hart
            → IsReady call.now.a1 n 0 self.old hart self.new hart }
        ensures stays { result ≡ false → self.new ≡ self.old }
        ensures unready { result ≡ false → (hart : Hart) → IsWhole self.old hart
            → IsUnready call.now.a1 n 0 self.old hart }
    {
        if call.moved > 0 {
            return true;
        }
        self.ready_buffer(slot, call.a1, n, 0)
    }

    /// One step of the call read. If there are bytes to move, the buffer is there, or the read is refused.
    pub(crate) fn read(&mut self, hart: &mut Hart, call: &Call) -> CallEnd
        requires whole { IsWhole self.old hart.old }
        requires running { IsRunning self.old }
        requires unmarked { (live_now self.old hart.old).killed ≡ false }
        requires in_call { (live_now self.old hart.old).call ≡ Some call.now }
        requires row { call.now.number ≡ pos 5 }
        ensures made { Makes self.old hart.old (read call.now (view_now self.old hart.old)) self.new hart.new }
        ensures answer { (read call.now (view_now self.old hart.old)).answer ≡ answer_of call.now.number result }
    {
        let slot = self.running_slot();
        let Some(asked) = self.transfer(slot, call, End::Reading) else {
            return self.refuse(hart);
        };
        if asked.count == 0 {
            return self.done(hart, 0);
        }
        if !self.room_is_there(slot, call, asked.count) {
            return self.refuse(hart);
        }
        self.read_from(hart, call, slot, &asked)
    }
}
