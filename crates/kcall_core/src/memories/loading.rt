//! A planned program becomes the memory of a slot.
ghost use Rattle.std.specs.Prelude.{◌≡◌, ◌+◌, ◌<◌, ◌≤◌, Some, IfOk, IfErr};
ghost use Rattle.xk_base.specs.Image.{price};
ghost use Rattle.rv64i_core.specs.Registers.{fresh};
ghost use Rattle.kcall_core.specs.Holdings.{HasMemory, IsVacant};
ghost use Rattle.kcall_core.specs.Memories.{each_of, free_of, AreSound, RunsIn, SlotChanges, Same, ImageChanges};

use crate::memories::{Memories, Memory};
use exec_core::{Entry, ExecPlan, build};
use hart_core::Hart;
use xk_base::NoFrames;

impl Memories {
    /// Gives a vacant slot the image of a planned program, and a trapframe of zeros; tells with which
    /// registers the program starts.
    ///
    /// Errors: `NoFrames` exactly if the image's price and the trapframe exceed the free frames; then
    /// nothing is changed.
    pub fn load_into(&mut self, slot: usize, plan: ExecPlan<'_>) -> Result<Entry, NoFrames>
        requires sound { AreSound self.old }
        requires vacant { IsVacant (each_of self.old) slot }
        ensures start { IfOk result (λ start.
            start ≡ record { pc = plan.entry.pc; sp = plan.entry.sp; argc = plan.entry.argc }) }
        ensures loaded { IfOk result (λ _.
            SlotChanges self.old self.new slot
            (Some (record { image = plan.entry.image; saved = fresh 0 }))) }
        ensures fits { IfOk result (λ _. price plan.entry.image + 1 ≤ free_of self.old) }
        ensures refused { IfErr result (λ _.
            (free_of self.old < price plan.entry.image + 1) × (self.new ≡ self.old)) }
    {
        if u64::from(self.pool.free()) <= plan.price() {
            return Err(NoFrames);
        }
        self.known.root = None;
        let Some(trapframe) = self.pool.take(&mut self.ram) else {
            unreachable!();
        };
        let Ok((space, start)) = build(plan, &mut self.pool, &mut self.ram) else {
            unreachable!();
        };
        self.each[slot] = Some(Memory { space, trapframe });
        Ok(start)
    }

    /// Replaces the image of a slot by that of a planned program, and tells with which registers the
    /// program starts. The hart goes to the new tables before the old ones are given back, and keeps its
    /// registers; the trapframe stays as it is.
    ///
    /// Both images are held for a moment: the new one's frames all come from the free ones.
    ///
    /// Errors: `NoFrames` exactly if the new image's price exceeds the free frames; then nothing is
    /// changed.
    pub fn replace(
        &mut self,
        slot: usize,
        plan: ExecPlan<'_>,
        hart: &mut Hart,
    ) -> Result<Entry, NoFrames>
        requires sound { AreSound self.old }
        requires there { HasMemory (each_of self.old) slot }
        ensures start { IfOk result (λ start.
            start ≡ record { pc = plan.entry.pc; sp = plan.entry.sp; argc = plan.entry.argc }) }
        ensures replaced { IfOk result (λ _.
            ImageChanges self.old self.new slot plan.entry.image) }
        ensures fits { IfOk result (λ _. price plan.entry.image ≤ free_of self.old) }
        ensures runs { IfOk result (λ _. RunsIn self.new slot hart.new) }
        ensures regs { hart.new.regs ≡ hart.old.regs }
        ensures refused { IfErr result (λ _.
            (free_of self.old < price plan.entry.image) × Same self.old self.new × (hart.new ≡ hart.old)) }
    {
        self.known.root = None;
        let Ok((new, start)) = build(plan, &mut self.pool, &mut self.ram) else {
            return Err(NoFrames);
        };
        let Some(memory) = self.each[slot].take() else {
            unreachable!();
        };
        hart.switch(new.root());
        let Memory {
            space: old,
            trapframe,
        } = memory;
        old.drop_all(&mut self.pool, &mut self.ram);
        self.each[slot] = Some(Memory {
            space: new,
            trapframe,
        });
        Ok(start)
    }
}
