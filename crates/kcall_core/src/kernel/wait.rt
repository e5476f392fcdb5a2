//! The call wait (xv6's `proc.c`; the xv6 book, "Code: Wait, exit, and kill").
ghost use Rattle.std.specs.Prelude.{◌≡◌, true, false, pos, Some, nat_eq, ◌||◌, cond};
ghost use Rattle.hart_core.specs.declared.hart.Hart.{Hart};
ghost use Rattle.kernel_spec.specs.rows.Buffers.{writable_now};
ghost use Rattle.kernel_spec.specs.rows.Calls.{wait};
ghost use Rattle.kernel_spec.specs.steps.Updates.{told_image};
ghost use Rattle.kcall_core.specs.Memories.{image_at};
ghost use Rattle.kcall_core.specs.Kernel.{IsSound, IsRunning, HasImage, live_now};
ghost use Rattle.kcall_core.specs.Whole.{IsWhole};
ghost use Rattle.kcall_core.specs.Makes.{Makes, view_now, answer_of};

use crate::call_end::CallEnd;
use crate::kernel::Kernel;
use crate::kernel::syscall::with_moved;
use hart_core::Hart;
use proc_table::{Call, Channel, Reaped};

/// How many bytes a status has.
const STATUS_BYTES: usize = 4;

/// How many bytes a wait stores at the address in its first argument, if that isn't 0.
fn told_bytes(call: &Call) -> usize
    ensures { result ≡ cond (nat_eq call.now.a0 0) 0 4 }
{
    if call.a0 == 0 { 0 } else { STATUS_BYTES }
}

impl Kernel {
    /// Stores a status at an address of the process in a slot, which runs, if the address isn't 0.
    fn tell(&mut self, slot: usize, address: u64, status: i32)
        requires sound { (hart : Hart) × IsSound self.old hart }
        requires current { self.old.current ≡ Some slot }
        requires fits { (nat_eq address 0
            || writable_now (image_at self.old.memories slot) address 4)
            ≡ true }
        ensures { (hart : Hart) → IsSound self.old hart
            → HasImage self.old hart (told_image address status (live_now self.old hart).image) self.new
            hart }
    {
        if address == 0 {
            return;
        }
        let bytes = status.cast_unsigned().to_le_bytes();
        let Ok(()) = self.memories.copy_out(slot, address, &bytes) else {
            unreachable!();
        };
    }

    /// The call wait, of a process that has a child. The status can be stored.
    fn wait_ready(&mut self, hart: &mut Hart, call: &Call, slot: usize) -> CallEnd
        requires whole { IsWhole self.old hart.old }
        requires running { IsRunning self.old }
        requires slot { self.old.current ≡ Some slot }
        requires unmarked { (live_now self.old hart.old).killed ≡ false }
        requires in_call { (live_now self.old hart.old).call ≡ Some call.now }
        requires row { call.now.number ≡ pos 3 }
        requires fits { (nat_eq call.now.a0 0
            || writable_now (image_at self.old.memories slot) call.now.a0 4)
            ≡ true }
        ensures made { Makes self.old hart.old (wait call.now (view_now self.old hart.old)) self.new hart.new }
        ensures answer { (wait call.now (view_now self.old hart.old)).answer ≡ answer_of call.now.number result }
    {
        let pid = self.table.pid(slot);
        match self.table.reap(pid) {
            Reaped::NoChild => self.done(hart, -1),
            Reaped::NoneYet => self.block(hart, with_moved(call, 0), Channel::Children(pid)),
            Reaped::Gone { pid: child, status } => {
                self.tell(slot, call.a0, status);
                self.done(hart, i64::from(child.number()))
            }
        }
    }

    /// The call wait: the child of least pid among those that have ended is gone, its status stands at the
    /// address that the first argument says, if that isn't 0, and the answer is its pid. If none has
    /// ended the call waits. Without a child, or if the status can't be stored, the answer is -1,
    /// and nothing else changes.
    pub(crate) fn wait(&mut self, hart: &mut Hart, call: &Call) -> CallEnd
        requires whole { IsWhole self.old hart.old }
        requires running { IsRunning self.old }
        requires unmarked { (live_now self.old hart.old).killed ≡ false }
        requires in_call { (live_now self.old hart.old).call ≡ Some call.now }
        requires row { call.now.number ≡ pos 3 }
        ensures made { Makes self.old hart.old (wait call.now (view_now self.old hart.old)) self.new hart.new }
        ensures answer { (wait call.now (view_now self.old hart.old)).answer ≡ answer_of call.now.number result }
    {
        let slot = self.running_slot();
        let pid = self.table.pid(slot);
        if !self.table.has_child(pid) {
            return self.refuse(hart);
        }
        if !self.ready_buffer(slot, call.a0, told_bytes(call), 0) {
            return self.refuse(hart);
        }
        self.wait_ready(hart, call, slot)
    }
}
