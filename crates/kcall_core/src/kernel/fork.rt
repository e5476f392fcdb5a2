//! The call fork (xv6's `proc.c`; the xv6 book, "Processes and memory").
ghost use Rattle.std.specs.Prelude.{◌≡◌, ◌<◌, ℕ, Some, None, IfSome, IfNone};
ghost use Rattle.xk_base.specs.declared.limits.TheConstants.{NPROC};
ghost use Rattle.hart_core.specs.declared.hart.Hart.{Hart};
ghost use Rattle.file_table.specs.Named.{named_by};
ghost use Rattle.proc_table.specs.Slots.{descriptors_at};
ghost use Rattle.proc_table.specs.declared.process.Call.{Call};
ghost use Rattle.kernel_spec.specs.rows.Calls.{fork, with_a0};
ghost use Rattle.kcall_core.specs.Holdings.{HasMemory, held_at, with_saved};
ghost use Rattle.kcall_core.specs.Memories as memory;
ghost use Rattle.kcall_core.specs.Memories.{each_of, RunsIn, SlotChanges};
ghost use Rattle.kcall_core.specs.Kernel.{IsSound, IsRunning};
ghost use Rattle.kcall_core.specs.Sharings.{MayShare, IsShared};
ghost use Rattle.kcall_core.specs.Forks.{Bears, IsBarren};
ghost use Rattle.kcall_core.specs.Whole.{IsWhole};
ghost use Rattle.kcall_core.specs.Makes.{Makes, view_now, answer_of};

use crate::call_end::CallEnd;
use crate::kernel::Kernel;
use crate::kernel::registers::FIRST_ARGUMENT;
use hart_core::Hart;
use xk_base::limits::NOFILE;
use xk_base::{Fd, Pid, Reg};

/// A new process: the slot that it is in, and its pid.
#[derive(Clone, Copy)]
struct Child {
    slot: usize,
    pid: Pid,
}

impl Kernel {
    /// A child of the process in a slot, with a copy of its memory, and no descriptor yet. None if there is
    /// no slot, no pid or too few frames for it; then nothing is changed.
    fn bear(&mut self, slot: usize) -> Option<Child>
        requires sound { (hart : Hart) × IsSound self.old hart }
        requires slot { self.old.current ≡ Some slot }
        ensures born { IfSome result (λ child. Bears self.old child.slot child.pid self.new) }
        ensures refused { IfNone result (IsBarren self.old self.new) }
    {
        let parent = self.table.pid(slot);
        let place = self.table.free_slot()?;
        let Ok(()) = self.memories.fork_into(slot, place) else {
            return None;
        };
        let Ok((child, pid)) = self.table.spawn(Some(parent)) else {
            unreachable!();
        };
        Some(Child { slot: child, pid })
    }

    /// A descriptor that is in use in one slot names the same open file in another, in which it is free.
    fn hand_down(&mut self, from: usize, to: usize, fd: Fd)
        requires from { from < NPROC }
        requires to { to < NPROC }
        requires free { named_by (descriptors_at self.old.table to) fd ≡ None }
        requires may { (file : ℕ) → named_by (descriptors_at self.old.table from) fd ≡ Some file
            → MayShare self.old file }
        ensures kept { named_by (descriptors_at self.old.table from) fd ≡ None → self.new ≡ self.old }
        ensures shared { (file : ℕ) → named_by (descriptors_at self.old.table from) fd ≡ Some file
            → IsShared self.old to fd file self.new }
    {
        let Some(file) = self.table.descriptors(from).get(fd) else {
            return;
        };
        self.share(to, fd, file);
    }

    /// The child's registers are those of a hart, but for the answer, which is 0.
    fn save_child(&mut self, hart: &Hart, slot: usize)
        requires sound { memory.AreSound self.old.memories }
        requires there { HasMemory (each_of self.old.memories) slot }
        ensures saved { SlotChanges self.old.memories self.new.memories slot
            (Some (with_saved (with_a0 hart.now.regs 0) (held_at (each_of self.old.memories) slot))) }
        ensures runs { (other : Hart) → RunsIn self.old.memories slot other → RunsIn self.new.memories slot other }
        ensures rest { self.new ≡ record self.old { memories = self.new.memories } }
    {
        let mut regs = *hart.regs();
        regs.write(Reg::new(FIRST_ARGUMENT), 0);
        self.memories.save(slot, &regs);
    }

    /// The call fork: a new process is there, a copy of the one that runs, which has the same open files. The
    /// answer is its pid, and 0 to itself; -1 if there is no slot, no pid or too few frames for it.
    pub(crate) fn fork(&mut self, hart: &mut Hart) -> CallEnd
        requires whole { IsWhole self.old hart.old }
        requires running { IsRunning self.old }
        ensures made { (call : Call)
            → Makes self.old hart.old (fork call (view_now self.old hart.old)) self.new hart.new }
        ensures answer { (call : Call)
            → (fork call (view_now self.old hart.old)).answer ≡ answer_of call.number result }
    {
        let slot = self.running_slot();
        let Some(child) = self.bear(slot) else {
            return self.done(hart, -1);
        };
        for number in 0..NOFILE {
            self.hand_down(slot, child.slot, Fd::new(number as u8));
        }
        let end = self.done(hart, i64::from(child.pid.number()));
        self.save_child(hart, child.slot);
        end
    }
}
