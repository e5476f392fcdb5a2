//! The console: processes read the lines that are typed, and write the bytes that the terminal is to show; the
//! terminal interrupts when a key was typed, or a byte may be sent (xv6's `console.c` and `uart.c`; the xv6 book,
//! "Code: Console input" and "Code: Console output").
ghost use Rattle.std.specs.Prelude.{◌≡◌, ℤ, ◌<◌, ◌≤◌, Some, pos, true};
ghost use Rattle.std.specs.Prelude.{false, length, Option, None, set};
ghost use Rattle.xk_base.specs.declared.limits.TheConstants.{CONSOLE_BYTES, NPROC, OPEN_FILES};
ghost use Rattle.xk_base.specs.Bytes.{image_bytes, write_image};
ghost use Rattle.hart_core.specs.declared.hart.Hart.{Hart};
ghost use Rattle.console_core.specs.Lists.{IsWithinLimits};
ghost use Rattle.kernel_spec.specs.rows.Buffers.{readable, writable_now};
ghost use Rattle.kernel_spec.specs.rows.Calls.{read, write};
ghost use Rattle.kcall_core.specs.Holdings.{HasMemory};
ghost use Rattle.kcall_core.specs.Memories.{each_of, free_of, AreSound, RunsIn};
ghost use Rattle.kcall_core.specs.Memories.{image_at, ImageChanges};
ghost use Rattle.kcall_core.specs.Kernel.{IsRunning, live_now, frame_count};
ghost use Rattle.kcall_core.specs.Whole.{IsWhole};
ghost use Rattle.kcall_core.specs.Makes.{Makes, view_now, answer_of};
ghost use Rattle.kernel_spec.specs.rows.Terminal.{next_line, without_line, room_for, with_sent};
ghost use Rattle.kcall_core.specs.Moves.{ReadsTerminal, WritesTerminal};
ghost use Rattle.kernel_spec.specs.runs.Run.{Typed, Sent, KeyHappens, SendHappens};
ghost use Rattle.kernel_spec.specs.waking.Wakes.{WakesWhereDue};
ghost use Rattle.kcall_core.specs.Machine.{world_of};
ghost use Rattle.kcall_core.specs.Starts.{HasNoProcess};
ghost use Rattle.file_table.specs.Named.{named_by, with_named};
ghost use Rattle.file_table.specs.OpenFiles.{lowest_place, open_count, console_file, with_opened};
ghost use Rattle.proc_table.specs.Slots.{descriptors_at};

use crate::call_end::CallEnd;
use crate::kernel::Kernel;
use crate::kernel::file::put_descriptor;
use crate::kernel::syscall::{left_of, next_address, with_moved};
use console_core::{Echo, Pull};
use file_table::FileId;
use hart_core::Hart;
use proc_table::{Call, Channel};
use xk_base::Fd;
use xk_base::limits::{CONSOLE_BYTES, SEND_BYTES};

/// How many bytes a step of a read asks the console for at most. The console holds one fewer, so that more room
/// would make no difference.
const LINE_ROOM: usize = CONSOLE_BYTES + 1;

impl Kernel {
    /// A free descriptor of a slot names the terminal from now on, which is opened in these modes.
    pub(crate) fn open_console_at(&mut self, slot: usize, fd: Fd, read: bool, write: bool) -> FileId
        requires within { slot < NPROC }
        requires free { named_by (descriptors_at self.old.table slot) fd ≡ None }
        requires room { open_count self.old.files < OPEN_FILES }
        ensures place { lowest_place self.old.files ≡ Some result }
        ensures table { self.new.table ≡ record self.old.table {
          descriptors = set self.old.table.descriptors slot
              (with_named fd (Some result) (descriptors_at self.old.table slot));
        } }
        ensures files { self.new.files ≡ with_opened result (console_file read write) self.old.files }
        ensures rest { self.new ≡ record self.old { table = self.new.table; files = self.new.files } }
    {
        let file = self.files.open_console(read, write);
        put_descriptor(&mut self.table, slot, fd, file);
        file
    }

    /// Takes committed bytes for a read, of which `done` bytes were taken before: at most `n`, which go to the
    /// memory of a slot.
    fn take_line(&mut self, slot: usize, address: u64, n: usize, done: usize) -> Pull
        requires sound { AreSound self.old.memories }
        requires there { HasMemory (each_of self.old.memories) slot }
        requires writable { writable_now (image_at self.old.memories slot) address n ≡ true }
        requires keys { length self.old.console.committed ≤ CONSOLE_BYTES }
        ensures count { result.taken ≡ length (next_line self.old.console done n).taken }
        ensures ended { result.ended ≡ (next_line self.old.console done n).ended }
        ensures within { result.taken ≤ n }
        ensures written { ImageChanges self.old.memories self.new.memories slot
            (write_image (image_at self.old.memories slot) address
            (next_line self.old.console done n).taken) }
        ensures free { free_of self.new.memories ≡ free_of self.old.memories }
        ensures runs { (hart : Hart) → RunsIn self.old.memories slot hart → RunsIn self.new.memories slot hart }
        ensures limits { IsWithinLimits self.new.console }
        ensures rest { self.new ≡ record self.old {
          memories = self.new.memories;
          console = without_line (next_line self.old.console done n) self.old.console;
        } }
    {
        let mut room = [0; LINE_ROOM];
        let line = &mut room[..n.min(LINE_ROOM)];
        let pull = self.console.pull_line(line, done);
        self.memories
            .write_tested(slot, address, &line[..pull.taken]);
        pull
    }

    /// One step of a read from the terminal, of at most `n` bytes in all: it takes what is typed of a line. It is
    /// done at the line's end, at Ctrl-D, and when all `n` are taken, and waits for more until then.
    pub(crate) fn read_terminal(
        &mut self,
        hart: &mut Hart,
        call: &Call,
        slot: usize,
        n: usize,
    ) -> CallEnd
        requires whole { IsWhole self.old hart.old }
        requires running { IsRunning self.old }
        requires slot { self.old.current ≡ Some slot }
        requires unmarked { (live_now self.old hart.old).killed ≡ false }
        requires in_call { (live_now self.old hart.old).call ≡ Some call.now }
        requires row { call.now.number ≡ pos 5 }
        requires size { n < 2147483648 }
        requires reads { ReadsTerminal self.old hart.old call.now n }
        ensures made { Makes self.old hart.old (read call.now (view_now self.old hart.old)) self.new hart.new }
        ensures answer { (read call.now (view_now self.old hart.old)).answer ≡ answer_of call.now.number result }
    {
        let left = left_of(call, n);
        let pull = self.take_line(slot, next_address(call), left, call.moved as usize);
        let moved = call.moved + pull.taken as u32;
        if pull.ended {
            return self.done(hart, i64::from(moved));
        }
        self.block(hart, with_moved(call, moved), Channel::Keys)
    }

    /// Bytes from the memory of a slot wait to be sent, as many of `n` as there is room for; how many they are.
    fn send_from(&mut self, slot: usize, address: u64, n: usize) -> usize
        requires sound { AreSound self.old.memories }
        requires there { HasMemory (each_of self.old.memories) slot }
        requires readable { readable (image_at self.old.memories slot) address n ≡ true }
        ensures count { result ≡ room_for self.old.console n }
        ensures limits { IsWithinLimits self.new.console }
        ensures rest { self.new ≡ record self.old {
          console = with_sent
              (image_bytes (image_at self.old.memories slot) address result)
              self.old.console;
        } }
    {
        let mut room = [0; SEND_BYTES];
        let bytes = &mut room[..n.min(self.console.room())];
        self.memories.read_tested(slot, address, bytes);
        self.console.push_out(bytes)
    }

    /// One step of a write to the terminal: as many bytes as there is room for wait to be sent. It is done when
    /// all `n` do, and waits for room until then.
    pub(crate) fn write_terminal(
        &mut self,
        hart: &mut Hart,
        call: &Call,
        slot: usize,
        n: usize,
    ) -> CallEnd
        requires whole { IsWhole self.old hart.old }
        requires running { IsRunning self.old }
        requires slot { self.old.current ≡ Some slot }
        requires unmarked { (live_now self.old hart.old).killed ≡ false }
        requires in_call { (live_now self.old hart.old).call ≡ Some call.now }
        requires row { call.now.number ≡ pos 16 }
        requires size { n < 2147483648 }
        requires writes { WritesTerminal self.old hart.old call.now n }
        ensures made { Makes self.old hart.old (write call.now (view_now self.old hart.old)) self.new hart.new }
        ensures answer { (write call.now (view_now self.old hart.old)).answer ≡ answer_of call.now.number result }
    {
        let left = left_of(call, n);
        let count = self.send_from(slot, next_address(call), left);
        let moved = call.moved + count as u32;
        if moved as usize >= n {
            return self.done(hart, n as i64);
        }
        self.block(hart, with_moved(call, moved), Channel::Sending)
    }

    /// The terminal's key of this byte is typed: the console takes it, and what it shows for it is the answer, at
    /// most [`ECHO_BYTES`](xk_base::limits::ECHO_BYTES) bytes. If committed bytes are there afterwards, those
    /// wake who wait for them.
    #[cold]
    #[inline(never)]
    pub fn key(&mut self, byte: u8) -> Echo
        ensures whole { (hart : Hart) → IsWhole self.old hart → IsWhole self.new hart }
        ensures happens { (hart : Hart) → IsWhole self.old hart
            → KeyHappens (world_of self.old hart None) None byte (Typed result.items) (world_of self.new hart None) }
        ensures wakes { (hart : Hart) → IsWhole self.old hart
            → WakesWhereDue (world_of self.old hart None) (Typed result.items) (world_of self.new hart None) }
        ensures nobody { HasNoProcess self.old → HasNoProcess self.new }
        ensures frames { frame_count self.new ≡ frame_count self.old }
    {
        let echo = self.console.key(byte);
        let is_due = self.console.committed() > 0;
        self.wake_if(is_due, Channel::Keys);
        echo
    }

    /// The terminal can take a byte: the first that waits to be sent leaves, and is the answer. Then those wake
    /// who wait for room. It is `None` if no byte waits, and then nobody waits for room.
    ///
    /// A machine whose process 1 is gone goes on sending.
    #[cold]
    #[inline(never)]
    pub fn send(&mut self) -> Option<u8>
        ensures whole { (hart : Hart) → IsWhole self.old hart → IsWhole self.new hart }
        ensures happens { (hart : Hart) (halted : Option ℤ) → IsWhole self.old hart
            → SendHappens (world_of self.old hart halted) (Sent result) (world_of self.new hart halted) }
        ensures wakes { (hart : Hart) (halted : Option ℤ) → IsWhole self.old hart
            → WakesWhereDue (world_of self.old hart halted) (Sent result) (world_of self.new hart halted) }
        ensures nobody { HasNoProcess self.old → HasNoProcess self.new }
        ensures frames { frame_count self.new ≡ frame_count self.old }
    {
        let byte = self.console.send();
        self.wake_if(byte.is_some(), Channel::Sending);
        byte
    }
}
