//! The call exec: a process goes on with another program (xv6's `exec.c`; the xv6 book, "Code: exec").
ghost use Rattle.std.specs.Prelude.{◌≡◌, ◌%◌, ◌<◌, ◌≤◌, false, Some};
ghost use Rattle.std.specs.Prelude.{IfSome, IfNone, map, option_copied, option_map};
ghost use Rattle.xk_base.specs.Image.{price};
ghost use Rattle.xk_base.specs.Loaded.{Loaded};
ghost use Rattle.rv64i_core.specs.Registers.{put, with_pc};
ghost use Rattle.kernel_spec.specs.views.Words.{SP, A1};
ghost use Rattle.kernel_spec.specs.rows.Buffers.{no_slashes};
ghost use Rattle.kernel_spec.specs.views.Programs.{program_named};
ghost use Rattle.kernel_spec.specs.views.State.{named_file};
ghost use Rattle.kernel_spec.specs.rows.Calls.{exec};
ghost use Rattle.kernel_spec.specs.rows.Execs.{Asks};
ghost use Rattle.kcall_core.specs.Holdings.{HasMemory};
ghost use Rattle.kcall_core.specs.Memories as memory;
ghost use Rattle.kcall_core.specs.Memories.{each_of, free_of, RunsIn, Same, image_at, ImageChanges};
ghost use Rattle.kcall_core.specs.Kernel.{IsRunning, live_now};
ghost use Rattle.kcall_core.specs.Whole.{IsWhole};
ghost use Rattle.kcall_core.specs.Makes.{Makes, view_now, answer_of};

use crate::call_end::CallEnd;
use crate::kernel::Kernel;
use crate::kernel::registers::{SECOND_ARGUMENT, STACK_POINTER};
use crate::memories::Memories;
use exec_core::{ArgList, Entry, plan};
use hart_core::Hart;
use proc_table::Call;
use xk_base::limits::MAXPATH;
use xk_base::{Program, Reg};

/// A name without its leading slashes.
pub(crate) fn without_slashes(name: &[u8]) -> &[u8]
    ensures { result.now ≡ no_slashes name.now }
{
    let Some(first) = name.iter().position(|byte| *byte != b'/') else {
        return &[];
    };
    &name[first..]
}

/// The program of a name.
pub(crate) fn program_named<'a>(programs: &'a [Program], name: &[u8]) -> Option<&'a Program>
    ensures { option_map named_file (option_copied result) ≡ program_named name.now (map named_file programs.now) }
{
    programs
        .iter()
        .find(|program| program.name.as_slice() == name)
}

/// Gives a hart the registers with which a program starts. All others stay.
fn start_program(hart: &mut Hart, start: Entry)
    requires { start.pc % 4 ≡ 0 }
    ensures { hart.new ≡ record hart.old {
      regs = with_pc (put (put hart.old.regs SP start.sp) A1 start.sp) start.pc;
    } }
{
    let regs = hart.regs_mut();
    regs.write(Reg::new(STACK_POINTER), start.sp);
    regs.write(Reg::new(SECOND_ARGUMENT), start.sp);
    regs.set_pc(start.pc);
}

/// Replaces the image of a slot by the program that its process asks for, and tells with which registers
/// that starts. None if the path or one of the texts can't be read, no program has the name, its file
/// or its texts are refused, or it costs more than the free frames; then nothing is changed.
fn replace_as_asked(
    memories: &mut Memories,
    programs: &[Program],
    slot: usize,
    path: u64,
    pointers: u64,
    hart: &mut Hart,
) -> Option<Entry>
    requires sound { memory.AreSound memories.old }
    requires there { HasMemory (each_of memories.old) slot }
    ensures started { IfSome result (λ start.
        (l : Loaded)
        × Asks (map named_file programs.now) (image_at memories.old slot) path pointers
        l
        × (start ≡ record { pc = l.pc; sp = l.sp; argc = l.argc }) × (l.pc % 4 ≡ 0)
        × (price l.image ≤ free_of memories.old)
        × ImageChanges memories.old memories.new slot l.image
        × RunsIn memories.new slot hart.new) }
    ensures regs { hart.new.regs ≡ hart.old.regs }
    ensures refused { IfNone result
        (((l : Loaded)
        → Asks (map named_file programs.now) (image_at memories.old slot) path pointers
        l
        → free_of memories.old < price l.image)
        × Same memories.old memories.new × (hart.new ≡ hart.old)) }
{
    let mut name = [0; MAXPATH];
    let Ok(len) = memories.fetch_text(slot, path, &mut name) else {
        return None;
    };
    let mut args = ArgList::new();
    if !memories.fetch_args(slot, pointers, &mut args) {
        return None;
    }
    let program = program_named(programs, without_slashes(&name[..len]))?;
    let Ok(plan) = plan(&program.bytes, &args) else {
        return None;
    };
    let Ok(start) = memories.replace(slot, plan, hart) else {
        return None;
    };
    Some(start)
}

impl Kernel {
    /// The call exec: the process that runs goes on with the program that it asks for, by the addresses of
    /// a path and of pointers to texts; the answer is the number of texts. If a byte of them can't be read,
    /// the path has more than 128 bytes with its zero byte, there are more than 31 texts or the texts don't
    /// fit into the stack page, no program has the name, its file can't be loaded, or its memory costs more
    /// than the free frames, the answer is -1, and nothing else changes.
    pub(crate) fn exec(&mut self, hart: &mut Hart, call: &Call) -> CallEnd
        requires whole { IsWhole self.old hart.old }
        requires running { IsRunning self.old }
        requires unmarked { (live_now self.old hart.old).killed ≡ false }
        requires in_call { (live_now self.old hart.old).call ≡ Some call.now }
        ensures made { Makes self.old hart.old (exec call.now (view_now self.old hart.old)) self.new hart.new }
        ensures answer { (exec call.now (view_now self.old hart.old)).answer ≡ answer_of call.now.number result }
    {
        let slot = self.running_slot();
        let Some(start) = replace_as_asked(
            &mut self.memories,
            &self.programs,
            slot,
            call.a0,
            call.a1,
            hart,
        ) else {
            return self.done(hart, -1);
        };
        start_program(hart, start);
        self.done(hart, start.argc.cast_signed())
    }
}
