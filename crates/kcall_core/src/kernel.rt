//! The kernel: the processes, their memories, open files, the console and the clock.
//!
//! What a kernel and its hart stand for is one world, `world_of` of `specs/Machine.antt`. From `new` on
//! `IsWhole` of `specs/Whole.antt` is true of them before and after each step, turn and tick. Observers and
//! private calls ask for a part of it, `IsSound`, and say which state comes after. That a step of a process
//! comes to what the call table says is `Makes` of `specs/Makes.antt`.
ghost use Rattle.std.specs.Prelude.{◌≡◌, ◌≢◌, ℕ, ◌+◌, ◌<◌, Some, None, IfSome, IfNone};
ghost use Rattle.xk_base.specs.declared.limits.TheConstants.{NPROC};
ghost use Rattle.xk_base.specs.Image.{price};
ghost use Rattle.proc_table.specs.Processes.{status_of, ended};
ghost use Rattle.proc_table.specs.Slots.{place_at, changed_at, IsHeld, IsLiveAt};
ghost use Rattle.hart_core.specs.declared.hart.Hart.{Hart};
ghost use Rattle.proc_table.specs.declared.process.Process.{Process};
ghost use Rattle.rv64i_core.specs.declared.execution.Stop.TheVariants as stops;
ghost use Rattle.kernel_spec.specs.steps.Updates.{give_frames, end_process};
ghost use Rattle.kernel_spec.specs.steps.Step.{own};
ghost use Rattle.kernel_spec.specs.steps.Cases as laws;
ghost use Rattle.kernel_spec.specs.runs.Run.{Turn, TurnTaken};
ghost use Rattle.kernel_spec.specs.waking.Wakes.{IsRunnable, IsNearest};
ghost use Rattle.kcall_core.specs.Holdings.{HasMemory};
ghost use Rattle.kcall_core.specs.Memories.{each_of, RunsIn};
ghost use Rattle.kcall_core.specs.Kernel.{frame_count, IsStopped, state_of, IsSound};
ghost use Rattle.kcall_core.specs.Kernel.{IsRunning, slot_now, pid_now, live_now};
ghost use Rattle.kcall_core.specs.Machine.{world_of};
ghost use Rattle.kcall_core.specs.Starts.{HasNoProcess};
ghost use Rattle.kcall_core.specs.Whole.{IsWhole};
ghost use Rattle.kcall_core.specs.Watched.{MakesAllUnwatched};
ghost use Rattle.kcall_core.specs.Makes.{Makes, MakesInARow, Stays, StillRuns, view_now, stop_now};

mod booting;
mod console;
mod exec;
mod exit;
mod fast;
mod file;
mod fork;
mod kill;
mod observers;
mod opening;
mod page_fault;
mod pipe;
mod program_list;
mod registers;
mod sbrk;
mod starting;
mod syscall;
mod sysfile;
mod ticks;
mod wait;
mod wakeup;

use crate::memories::Memories;
use file_table::Files;
use hart_core::{Hart, Series, Watch};
pub use observers::{ChildState, Descriptor, FrameUse, ProcessState};
use proc_table::Table;
pub use program_list::first_refused;
use rv64i_core::Stop;
pub use syscall::call_number;
use xk_base::{Pid, Program};

/// The kernel of one machine.
#[derive(Drop)]
pub struct Kernel {
    /// RAM, and which frames are free or whose they are.
    memories: Memories,
    /// The processes, by slot, and their descriptors.
    table: Table,
    /// The open files of all processes.
    files: Files,
    console: console_core::Console,
    /// The program files, which are never changed: exec and open find them by name.
    programs: Vec<Program>,
    /// Ticks since boot, modulo 2^32.
    clock: u32,
    /// The slot of the process that runs.
    current: Option<usize>,
}

impl Kernel {
    /// One instruction of the process that runs. If it is an ECALL or faults, nothing that can be seen
    /// is another.
    #[inline(always)]
    pub fn step(&mut self, hart: &mut Hart) -> Stop
        requires whole { IsWhole self.old hart.old }
        requires running { IsRunning self.old }
        requires between_calls { laws.IsBetweenCalls (live_now self.old hart.old) }
        ensures stop { result ≡ stop_now self.old hart.old }
        ensures done { result ≡ stops.Next
            → Makes self.old hart.old (own (view_now self.old hart.old)) self.new hart.new }
        ensures stays { result ≢ stops.Next → Stays self.old hart.old self.new hart.new }
        ensures same { result ≢ stops.Next → StillRuns self.old hart.old self.new hart.new }
    {
        match self.memories.step(hart) {
            Stop::Fault(cause) => self.step_touching(hart, cause),
            stop => stop,
        }
    }

    /// Instructions of the process that runs, one after another, as [`step`](Kernel::step) makes each: up to the
    /// first that isn't done, `most` at most.
    pub fn steps(&mut self, hart: &mut Hart, most: u32) -> Series
        requires whole { IsWhole self.old hart.old }
        requires running { IsRunning self.old }
        requires between_calls { laws.IsBetweenCalls (live_now self.old hart.old) }
        ensures { MakesInARow most result.made result.stop self.old hart.old self.new hart.new }
    {
        let mut made = 0;
        'stretches: while made < most {
            let series = self.memories.steps(hart, most - made);
            made += series.made;
            let Stop::Fault(cause) = series.stop else {
                return Series {
                    made,
                    stop: series.stop,
                };
            };
            match self.step_touching(hart, cause) {
                Stop::Next => made += 1,
                stop => return Series { made, stop },
            }
        }
        Series {
            made,
            stop: Stop::Next,
        }
    }

    /// Instructions of the process that runs that are done on the pages that are there and use nothing that is watched,
    /// one after another, `most` at most. It tells how many it made; if they are fewer, the next one is no such.
    pub fn steps_unwatched(&mut self, hart: &mut Hart, most: u32, watch: &Watch<'_>) -> u32
        requires whole { IsWhole self.old hart.old }
        requires running { IsRunning self.old }
        requires between_calls { laws.IsBetweenCalls (live_now self.old hart.old) }
        ensures { MakesAllUnwatched watch.now.addresses.now watch.now.bytes.now most result self.old hart.old self.new hart.new }
    {
        let mut made = 0;
        'rows: while made < most {
            made += self.memories.steps_unwatched(hart, most - made, watch);
            if made == most {
                return made;
            }
            if !self.memories.step_unwatched(hart, watch) {
                return made;
            }
            made += 1;
        }
        made
    }
}

impl Kernel {
    /// The slot of the process that runs. That process is live, and has a memory.
    #[inline(always)]
    fn running_slot(&self) -> usize
        requires sound { (hart : Hart) × IsSound self.now hart }
        requires running { IsRunning self.now }
        ensures is { self.now.current ≡ Some result }
        ensures within { result < NPROC }
        ensures live { IsLiveAt self.now.table result }
        ensures held { IsHeld self.now.table result }
        ensures there { HasMemory (each_of self.now.memories) result }
    {
        let Some(slot) = self.current else {
            unreachable!();
        };
        slot
    }

    /// The process that runs stops running, and its registers go into its trapframe: the state is the same. The
    /// hart is parked: it stays with the process's tables, and forgets nothing of them.
    fn park(&mut self, hart: &Hart)
        requires sound { IsSound self.old hart.now }
        requires running { IsRunning self.old }
        ensures sound { IsSound self.new hart.now }
        ensures stopped { IsStopped self.new }
        ensures state { state_of self.new hart.now ≡ state_of self.old hart.now }
        ensures rest { self.new ≡ record self.old { memories = self.new.memories; current = None } }
        ensures frames { frame_count self.new ≡ frame_count self.old }
    {
        let slot = self.running_slot();
        self.memories.save(slot, hart.regs());
        self.current = None;
    }

    /// The process that runs stops running, as [`park`](Kernel::park) says, and the hart leaves its tables.
    fn suspend(&mut self, hart: &mut Hart)
        requires sound { IsSound self.old hart.old }
        requires running { IsRunning self.old }
        ensures sound { IsSound self.new hart.new }
        ensures stopped { IsStopped self.new }
        ensures state { state_of self.new hart.new ≡ state_of self.old hart.old }
        ensures rest { self.new ≡ record self.old { memories = self.new.memories; current = None } }
        ensures frames { frame_count self.new ≡ frame_count self.old }
    {
        self.park(hart);
        hart.leave();
    }

    /// The live process in a slot runs, and none did before: the state is the same. A hart that is parked there
    /// forgets nothing.
    fn enter(&mut self, hart: &mut Hart, slot: usize)
        requires sound { IsSound self.old hart.old }
        requires stopped { IsStopped self.old }
        requires live { (p : Process) × (place_at self.old.table slot ≡ Some p) × (status_of p ≡ None) }
        ensures sound { IsSound self.new hart.new }
        ensures runs { self.new ≡ record self.old { current = Some slot } }
        ensures state { state_of self.new hart.new ≡ state_of self.old hart.old }
        ensures kept { RunsIn self.old.memories slot hart.old → hart.new.cache ≡ hart.old.cache }
    {
        self.memories.restore(slot, hart);
        self.current = Some(slot);
    }

    /// The process that runs ends, and gives its frames back: it is a zombie from now on.
    fn end(&mut self, hart: &mut Hart, status: i32)
        requires sound { IsSound self.old hart.old }
        requires running { IsRunning self.old }
        ensures sound { IsSound self.new hart.new }
        ensures stopped { IsStopped self.new }
        ensures table { self.new.table ≡ changed_at (slot_now self.old) (ended status) self.old.table }
        ensures files { self.new.files ≡ self.old.files }
        ensures frames { frame_count self.new ≡ frame_count self.old }
        ensures state { let live = live_now self.old hart.old in
            state_of self.new hart.new
            ≡ give_frames (price live.image + 1)
            (end_process (pid_now self.old) live.parent status (state_of self.old hart.old)) }
    {
        let slot = self.running_slot();
        hart.leave();
        self.memories.give_back(slot);
        self.table.zombie(slot, status);
        self.current = None;
    }
}

impl Kernel {
    /// How many frames are free.
    pub fn free_frames(&self) -> u32
        requires { (hart : Hart) × IsSound self.now hart }
        ensures { (hart : Hart) → result ≡ (state_of self.now hart).free }
    {
        self.memories.free()
    }

    /// The turn: of the processes that may run, the one in the next slot after the slot that ran last,
    /// cyclically, runs from now on. Its pid, or `None` if no process may run. A hart that is parked at that process
    /// forgets nothing.
    #[cold]
    #[inline(never)]
    pub fn turn(&mut self, hart: &mut Hart) -> Option<Pid>
        requires whole { IsWhole self.old hart.old }
        requires stopped { IsStopped self.old }
        ensures whole { IsWhole self.new hart.new }
        ensures turn { IfSome result (λ pid.
            TurnTaken (world_of self.old hart.old None) (Turn pid) (world_of self.new hart.new None)) }
        ensures nearest { IfSome result (λ pid.
            IsRunnable (world_of self.old hart.old None) pid
            × IsNearest (world_of self.old hart.old None) pid) }
        ensures idle { IfNone result ((p : ℕ) → ¬ IsRunnable (world_of self.old hart.old None) p) }
        ensures stays { IfNone result (world_of self.new hart.new None ≡ world_of self.old hart.old None) }
        ensures nobody { HasNoProcess self.old → IfNone result (HasNoProcess self.new) }
        ensures frames { frame_count self.new ≡ frame_count self.old }
        ensures kept { (slot : ℕ) → self.new.current ≡ Some slot
            → RunsIn self.old.memories slot hart.old → hart.new.cache ≡ hart.old.cache }
    {
        let slot = self.table.next_turn()?;
        self.enter(hart, slot);
        Some(self.table.pid(slot))
    }
}
