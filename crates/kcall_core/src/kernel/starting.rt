//! The first process (xv6's `userinit` of `proc.c`, and what its first program does; the xv6 book, "Code: starting
//! xv6, the first process and system call").
ghost use Rattle.std.specs.Prelude.{◌≡◌, ℕ, ◌+◌, ◌%◌, ◌≤◌, [], ◌∷◌, Some};
ghost use Rattle.std.specs.Prelude.{None, Ok, Err, IsSome, IfOk, IfErr, map};
ghost use Rattle.xk_base.specs.Image.{price};
ghost use Rattle.xk_base.specs.Loaded.{Loaded, loaded};
ghost use Rattle.rv64i_core.specs.Registers.{fresh, put};
ghost use Rattle.kernel_spec.specs.views.Words.{SP, A0, A1};
ghost use Rattle.kernel_spec.specs.views.Programs.{init_name, init_of, program_bytes};
ghost use Rattle.kernel_spec.specs.views.State.{named_file};
ghost use Rattle.kernel_spec.specs.runs.First.{within_frames};
ghost use Rattle.kcall_core.specs.Starts.{HasNoProcess, init_loaded, started_world};
ghost use Rattle.kcall_core.specs.Holdings.{IsVacant};
ghost use Rattle.kcall_core.specs.Memories as memory;
ghost use Rattle.kcall_core.specs.Memories.{each_of, free_of, SlotChanges, Same};
ghost use Rattle.kcall_core.specs.Kernel.{frame_count, state_of, IsStopped};
ghost use Rattle.kcall_core.specs.Machine.{world_of};
ghost use Rattle.kcall_core.specs.Whole.{IsWhole};

use crate::kernel::Kernel;
use crate::kernel::exec::program_named;
use crate::kernel::registers::{FIRST_ARGUMENT, SECOND_ARGUMENT, STACK_POINTER};
use crate::memories::Memories;
use exec_core::{ArgList, Entry, plan};
use hart_core::Hart;
use rv64i_core::Regs;
use xk_base::{ExecError, NoFrames, Program, Reg};

/// The registers of the first process: all 0, but for the stack pointer, the arguments and the pc.
fn first_regs(start: Entry) -> Regs
    requires { start.pc % 4 ≡ 0 }
    ensures { result ≡ put (put (put (fresh start.pc) SP start.sp) A0 start.argc) A1 start.sp }
{
    let mut regs = Regs::new(start.pc);
    regs.write(Reg::new(STACK_POINTER), start.sp);
    regs.write(Reg::new(FIRST_ARGUMENT), start.argc);
    regs.write(Reg::new(SECOND_ARGUMENT), start.sp);
    regs
}

/// The argument texts of the first process: its name alone.
fn first_args() -> ArgList
    ensures { result ≡ init_name ∷ [] }
{
    let mut args = ArgList::new();
    let Ok(()) = args.push(b"init".as_slice()) else {
        unreachable!();
    };
    args
}

/// Gives slot 0 the image of the program `init`, and a trapframe of zeros; tells with which registers the
/// program starts. A refusal changes nothing.
#[tactic(auto, unfolding(kernel_spec::specs::views::Programs::init_of))]
fn load_first(memories: &mut Memories, programs: &[Program]) -> Result<Entry, ExecError>
    requires sound { memory.AreSound memories.old }
    requires vacant { IsVacant (each_of memories.old) 0 }
    requires program { IsSome (init_of (map named_file programs.now)) }
    ensures loaded { IfOk result (λ start.
        (l : Loaded)
        × (loaded (program_bytes (init_of (map named_file programs.now))) (init_name ∷ []) ≡ Ok l)
        × (start ≡ record { pc = l.pc; sp = l.sp; argc = l.argc }) × (l.pc % 4 ≡ 0)
        × (price l.image + 1 ≤ free_of memories.old)
        × SlotChanges memories.old memories.new 0 (Some (record { image = l.image; saved = fresh 0 }))) }
    ensures refused { IfErr result (λ e.
        (within_frames (free_of memories.old)
        (loaded (program_bytes (init_of (map named_file programs.now))) (init_name ∷ []))
        ≡ Err e)
        × (memories.new ≡ memories.old)) }
{
    let Some(program) = program_named(programs, b"init".as_slice()) else {
        unreachable!();
    };
    let args = first_args();
    match plan(&program.bytes, &args) {
        Ok(plan) => match memories.load_into(0, plan) {
            Ok(start) => Ok(start),
            Err(NoFrames) => Err(ExecError::NoFrames),
        },
        Err(refusal) => Err(refusal),
    }
}

impl Kernel {
    /// Makes the first process, pid 1, of the program `init`, with its name as the one argument text. It
    /// takes slot 0, and doesn't run yet.
    ///
    /// # Errors
    ///
    /// The refusal of [`plan`], else [`ExecError::NoFrames`] exactly if the image's price and a frame
    /// for the registers exceed the free frames. Then nothing is changed.
    pub fn start(&mut self, hart: &mut Hart) -> Result<(), ExecError>
        requires whole { IsWhole self.old hart.old }
        requires nobody { HasNoProcess self.old }
        requires program { IsSome (init_of (state_of self.old hart.old).programs) }
        ensures whole { IsWhole self.new hart.new }
        ensures stopped { IsStopped self.new }
        ensures started { let s = state_of self.old hart.old in
            IfOk result (λ _.
            (l : Loaded) × (init_loaded s ≡ Ok l) × (price l.image + 1 ≤ s.free)
            × (world_of self.new hart.new None ≡ started_world l s)) }
        ensures refused { let s = state_of self.old hart.old in
            IfErr result (λ e.
            (within_frames s.free (init_loaded s) ≡ Err e) × (self.new ≡ self.old)
            × (hart.new ≡ hart.old)) }
        ensures frames { frame_count self.new ≡ frame_count self.old }
    {
        let start = load_first(&mut self.memories, &self.programs)?;
        let Ok((slot, _)) = self.table.spawn(None) else {
            unreachable!();
        };
        let regs = first_regs(start);
        *hart.regs_mut() = regs;
        self.memories.save(slot, &regs);
        Ok(())
    }
}
