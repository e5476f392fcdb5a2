//! What observers of a kernel are told of its processes.
ghost use Rattle.std.specs.Prelude.{◌≡◌, ℤ, Option, None, IfSome, IfNone, map, option_map, slice_get};
ghost use Rattle.console_core.specs.Lists.{list_of};
ghost use Rattle.hart_core.specs.declared.hart.Hart.{Hart};
ghost use Rattle.proc_table.specs.Slots.{IsTable};
ghost use Rattle.kernel_spec.specs.views.Words.{is_this};
ghost use Rattle.kernel_spec.specs.views.State.{live, named_file};
ghost use Rattle.kernel_spec.specs.waking.Turns.{HasSlot, IsFreeSlot};
ghost use Rattle.kcall_core.specs.ObservedPipes.{pipe_counts_of, pipe_byte_of};
ghost use Rattle.kcall_core.specs.Observers.{IsLiveIn, process_at, registers_of, size_of, byte_at};
ghost use Rattle.kcall_core.specs.Observers.{rights_at, descriptor_of, child_at, child_seen, shown};
ghost use Rattle.kcall_core.specs.Kernel.{state_of, IsSound};
ghost use Rattle.kcall_core.specs.Machine.{turns_of, world_of};
ghost use Rattle.kcall_core.specs.Whole.{IsWhole};

mod frame_uses;

use crate::kernel::Kernel;
use crate::memories::PipeCounts;
use console_core::ConsoleList;
use file_table::{FileId, OpenFile};
pub use frame_uses::FrameUse;
use hart_core::Hart;
use proc_table::Call;
use rv64i_core::Regs;
use xk_base::limits::NPROC;
use xk_base::{Fd, Frame, Perm, Pid, Program, Vpn};

/// What a process is.
#[derive(Clone, Copy)]
pub enum ProcessState {
    /// It lives.
    Live {
        /// The process that may wait for it; process 1 has none.
        parent: Option<Pid>,
        /// Whether its kill mark is set.
        marked: bool,
        /// The kernel call that it is in.
        call: Option<Call>,
        /// Whether it sleeps. A live process that doesn't sleep may run.
        asleep: bool,
    },
    /// It has ended with this status, for which its parent has not waited yet.
    Zombie {
        parent: Option<Pid>,
        status: i32,
    },
}

/// A descriptor in use.
#[derive(Clone, Copy)]
pub struct Descriptor {
    /// The open file that it names. Descriptors that name the same one share its offset.
    pub file: FileId,
    /// What the open file is on, and what may be done with it.
    pub open_file: OpenFile,
}

/// What a parent may know of a child.
#[derive(Clone, Copy)]
pub enum ChildState {
    /// It lives.
    Running,
    /// It has ended with this status, for which its parent has not waited yet.
    Status(i32),
}

impl ChildState {
    /// What a parent knows of a child that ended with this status, or with none yet.
    fn of(status: Option<i32>) -> ChildState
        ensures { shown result ≡ child_seen status }
    {
        match status {
            None => ChildState::Running,
            Some(status) => ChildState::Status(status),
        }
    }
}

/// Whether a process has this parent.
fn is_parent(parent: Option<Pid>, pid: Pid) -> bool
    ensures { result ≡ is_this pid parent }
{
    parent.is_some_and(|parent| parent.number() == pid.number())
}

impl Kernel {
    /// The slot of the live process of this pid.
    fn find_live(&self, pid: Pid) -> Option<usize>
        requires { IsTable self.now.table }
        ensures found { IfSome result (IsLiveIn self.now pid) }
        ensures none { IfNone result ((hart : Hart) → live (state_of self.now hart) pid ≡ None) }
    {
        let slot = self.table.find(pid)?;
        if self.table.status(slot).is_some() {
            return None;
        }
        Some(slot)
    }

    /// Whether the process in a slot runs.
    fn runs_in(&self, slot: usize) -> bool
        ensures { result ≡ is_this slot self.now.current }
    {
        self.current == Some(slot)
    }

    /// The pid of the process that runs, if one does.
    #[inline(always)]
    pub fn current(&self) -> Option<Pid>
        requires { (hart : Hart) × IsSound self.now hart }
        ensures { (halted : Option ℤ) → result ≡ (turns_of self.now halted).current }
    {
        let slot = self.current?;
        Some(self.table.pid(slot))
    }

    /// The pid of the process in a slot, live or not; `None` if the slot is free. Slots are numbered from 0
    /// on, and there are [`NPROC`](xk_base::limits::NPROC).
    pub fn pid_in(&self, slot: usize) -> Option<Pid>
        requires { (hart : Hart) × IsSound self.now hart }
        ensures held { (halted : Option ℤ) → IfSome result (λ pid. HasSlot (turns_of self.now halted) pid slot) }
        ensures free { (halted : Option ℤ) → IfNone result (IsFreeSlot (turns_of self.now halted) slot) }
    {
        if slot >= NPROC {
            return None;
        }
        self.table.pid_in(slot)
    }

    /// What the process of this pid is; `None` if no process has it.
    pub fn process(&self, pid: Pid) -> Option<ProcessState>
        requires { (hart : Hart) × IsSound self.now hart }
        ensures { (hart : Hart) (halted : Option ℤ) → result ≡ process_at (world_of self.now hart halted) pid }
    {
        let slot = self.table.find(pid)?;
        let parent = self.table.parent(slot);
        if let Some(status) = self.table.status(slot) {
            return Some(ProcessState::Zombie { parent, status });
        }
        Some(ProcessState::Live {
            parent,
            marked: self.table.marked(slot),
            call: self.table.progress(slot),
            asleep: self.table.asleep(slot),
        })
    }

    /// The registers of a live process; `None` for any other pid.
    pub fn registers(&self, hart: &Hart, pid: Pid) -> Option<Regs>
        requires { IsSound self.now hart.now }
        ensures { result ≡ registers_of (state_of self.now hart.now) pid }
    {
        let slot = self.find_live(pid)?;
        if self.runs_in(slot) {
            return Some(*hart.regs());
        }
        Some(self.memories.registers(slot))
    }

    /// The byte at an address of a live process, whatever its page allows. `None` for any other pid, and
    /// for an address without a page.
    pub fn peek(&self, pid: Pid, address: u64) -> Option<u8>
        requires { (hart : Hart) × IsSound self.now hart }
        ensures { (hart : Hart) → result ≡ byte_at (state_of self.now hart) pid address }
    {
        let slot = self.find_live(pid)?;
        self.memories.peek(slot, address)
    }

    /// What a page of a live process allows. `None` for any other pid, and if there is no page.
    pub fn perm(&self, pid: Pid, vpn: Vpn) -> Option<Perm>
        requires { (hart : Hart) × IsSound self.now hart }
        ensures { (hart : Hart) → result ≡ rights_at (state_of self.now hart) pid vpn }
    {
        let slot = self.find_live(pid)?;
        self.memories.perm(slot, vpn)
    }

    /// How many bytes the memory of a live process has, from address 0 on. `None` for any other pid.
    pub fn size(&self, pid: Pid) -> Option<u64>
        requires { (hart : Hart) × IsSound self.now hart }
        ensures { (hart : Hart) → result ≡ size_of (state_of self.now hart) pid }
    {
        let slot = self.find_live(pid)?;
        Some(self.memories.size(slot))
    }

    /// What a descriptor of a live process names. `None` for any other pid, and if it isn't in use.
    pub fn descriptor(&self, pid: Pid, fd: Fd) -> Option<Descriptor>
        requires { (hart : Hart) × IsWhole self.now hart }
        ensures { (hart : Hart) → result ≡ descriptor_of (state_of self.now hart) pid fd }
    {
        let slot = self.find_live(pid)?;
        let file = self.table.descriptors(slot).get(fd)?;
        Some(Descriptor {
            file,
            open_file: self.files.kind(file),
        })
    }

    /// The counts of a pipe, which is named by the frame that it lies in. `None` if none lies there.
    pub fn pipe_counts(&self, frame: Frame) -> Option<PipeCounts>
        requires { (hart : Hart) × IsSound self.now hart }
        ensures { (hart : Hart) → result ≡ pipe_counts_of (state_of self.now hart) frame }
    {
        self.memories.pipe_counts(frame)
    }

    /// The byte at a place of a pipe: 0 is the oldest. `None` if it has fewer bytes, or there is no such pipe.
    pub fn pipe_byte(&self, frame: Frame, place: usize) -> Option<u8>
        requires { (hart : Hart) × IsSound self.now hart }
        ensures { (hart : Hart) → result ≡ pipe_byte_of (state_of self.now hart) frame place }
    {
        self.memories.pipe_byte(frame, place)
    }

    /// The byte at a place of one of the console's lists: 0 is the oldest. `None` if the list is shorter.
    pub fn console_byte(&self, list: ConsoleList, place: usize) -> Option<u8>
        ensures { (hart : Hart) → result ≡ slice_get (list_of list (state_of self.now hart).console) place }
    {
        self.console.byte_of(list, place)
    }

    /// The programs that the machine was booted with.
    pub fn programs(&self) -> &[Program]
        ensures { (hart : Hart) → map named_file result.now ≡ (state_of self.now hart).programs }
    {
        self.programs.as_slice()
    }

    /// The clock: ticks since boot, modulo 2^32.
    pub fn clock(&self) -> u32
        ensures { (hart : Hart) → result ≡ (state_of self.now hart).clock }
    {
        self.clock
    }

    /// Whether a child of a live process lives, or with which status it ended. `None` if there is no
    /// such process, or no such child of it.
    pub fn child_state(&self, pid: Pid, child: Pid) -> Option<ChildState>
        requires { (hart : Hart) × IsSound self.now hart }
        ensures { (hart : Hart) → option_map shown result ≡ child_at (state_of self.now hart) pid child }
    {
        self.find_live(pid)?;
        let slot = self.table.find(child)?;
        if !is_parent(self.table.parent(slot), pid) {
            return None;
        }
        Some(ChildState::of(self.table.status(slot)))
    }
}
