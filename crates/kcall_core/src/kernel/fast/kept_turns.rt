//! A tick and the turn after it. If the process that ran has that turn too, its registers stay in the hart: they are
//! neither saved nor restored.
ghost use Rattle.std.specs.Prelude.{◌≡◌, ℕ, Some, None, IfSome, IfNone, true};
ghost use Rattle.hart_core.specs.declared.hart.Hart.{Hart};
ghost use Rattle.proc_table.specs.Turns as slots;
ghost use Rattle.kernel_spec.specs.runs.Run.{Ticked, TickHappens, Turn, TurnTaken};
ghost use Rattle.kernel_spec.specs.waking.Wakes.{IsNearest, IsRunnable, WakesWhereDue};
ghost use Rattle.kcall_core.specs.Kernel.{frame_count, IsStopped};
ghost use Rattle.kcall_core.specs.Machine.{resting, world_of};
ghost use Rattle.kcall_core.specs.Whole.{IsWhole};

use crate::kernel::Kernel;
use hart_core::Hart;
use proc_table::Channel;
use xk_base::Pid;

impl Kernel {
    /// The timer interrupts, as at [`tick`](Kernel::tick), but the process that ran stays in the hart.
    /// [`turn_on`](Kernel::turn_on) gives the next turn.
    pub fn tick_on(&mut self, hart: &Hart)
        requires whole { IsWhole self.old hart.now }
        ensures whole { IsWhole self.new hart.now }
        ensures happens { TickHappens (world_of self.old hart.now None) None Ticked
            (resting (world_of self.new hart.now None)) }
        ensures wakes { WakesWhereDue (world_of self.old hart.now None) Ticked
            (resting (world_of self.new hart.now None)) }
        ensures frames { frame_count self.new ≡ frame_count self.old }
    {
        self.clock = self.clock.wrapping_add(1);
        self.wake(Channel::Clock);
    }

    /// The turn after a [`tick_on`](Kernel::tick_on), as [`turn`](Kernel::turn) gives it. The process that is still in the
    /// hart is saved only if another has the turn.
    pub fn turn_on(&mut self, hart: &mut Hart) -> Option<Pid>
        requires whole { IsWhole self.old hart.old }
        ensures whole { IsWhole self.new hart.new }
        ensures turn { IfSome result (λ pid.
            TurnTaken (resting (world_of self.old hart.old None)) (Turn pid) (world_of self.new hart.new None)) }
        ensures nearest { IfSome result (λ pid.
            IsRunnable (resting (world_of self.old hart.old None)) pid
            × IsNearest (resting (world_of self.old hart.old None)) pid) }
        ensures idle { IfNone result ((p : ℕ) → ¬ IsRunnable (resting (world_of self.old hart.old None)) p) }
        ensures stays { IfNone result (world_of self.new hart.new None ≡ resting (world_of self.old hart.old None)) }
        ensures frames { frame_count self.new ≡ frame_count self.old }
    {
        if self.has_next_turn() {
            let slot = self.running_slot();
            self.table.take_turn(slot);
            return Some(self.table.pid(slot));
        }
        self.rest(hart);
        self.turn(hart)
    }

    // Whether the process in the hart has the next turn.
    fn has_next_turn(&self) -> bool
        ensures yes { result ≡ true → (slot : ℕ) × (self.now.current ≡ Some slot)
            × slots.IsNearest self.now.table.places self.now.table.last (Some slot) }
        ensures no { (slot : ℕ) → self.now.current ≡ Some slot
            → slots.IsNearest self.now.table.places self.now.table.last (Some slot) → result ≡ true }
    {
        let Some(slot) = self.current else {
            return false;
        };
        match self.table.next() {
            Some(next) => next == slot,
            None => false,
        }
    }

    // The process in the hart gives way: its registers go into its trapframe.
    fn rest(&mut self, hart: &Hart)
        requires whole { IsWhole self.old hart.now }
        ensures whole { IsWhole self.new hart.now }
        ensures stopped { IsStopped self.new }
        ensures world { world_of self.new hart.now None ≡ resting (world_of self.old hart.now None) }
        ensures frames { frame_count self.new ≡ frame_count self.old }
    {
        self.pause(hart);
    }
}
