//! What is told of a machine's processes, their memory and descriptors, its pipes and its console. No instruction
//! passes here.
use crate::machine::Machine;
use kcall_core::{ConsoleList, Descriptor, FrameUse, PipeCounts, ProcessState};
use xk_base::{Fd, Frame, Perm, Pid, Program, Vpn};

impl Machine {
    ghost use Rattle.std.specs.Prelude.{◌≡◌, ◌≤◌, ◌↔◌, Some, None, IfSome, IfNone, map, slice_get};
    ghost use Rattle.console_core.specs.Lists.{list_of};
    ghost use Rattle.kernel_spec.specs.views.State.{named_file};
    ghost use Rattle.kernel_spec.specs.waking.Turns.{HasSlot, IsFreeSlot};
    ghost use Rattle.kcall_core.specs.ObservedPipes.{pipe_counts_of, pipe_byte_of};
    ghost use Rattle.kcall_core.specs.Observers.{process_at, size_of, rights_at, descriptor_of};
    ghost use Rattle.kcall_core.specs.declared.kernel.observers.frame_uses.FrameUse.{FrameUse};
    ghost use Rattle.xv_machine.specs.FrameUses.{IsUsed, page_frame_at};

    /// The pid of the process in a slot, live or not; `None` where the slot is free. Slots are numbered from 0
    /// on, and there are [`NPROC`](xk_base::limits::NPROC): each process has one.
    pub fn pid_in(&self, slot: usize) -> Option<Pid>
        ensures held { IfSome result (λ pid. HasSlot self.now.world.turns pid slot) }
        ensures free { IfNone result (IsFreeSlot self.now.world.turns slot) }
    {
        self.kernel.pid_in(slot)
    }

    /// What the process of this pid is; `None` where no process has it.
    pub fn process(&self, pid: Pid) -> Option<ProcessState>
        ensures { result ≡ process_at self.now.world pid }
    {
        self.kernel.process(pid)
    }

    /// How many bytes the memory of a live process has, from address 0 on; `None` for any other pid.
    pub fn size(&self, pid: Pid) -> Option<u64>
        ensures { result ≡ size_of self.now.world.state pid }
    {
        self.kernel.size(pid)
    }

    /// What a page of a live process allows; `None` for any other pid, and where there is no page.
    pub fn perm(&self, pid: Pid, vpn: Vpn) -> Option<Perm>
        ensures { result ≡ rights_at self.now.world.state pid vpn }
    {
        self.kernel.perm(pid, vpn)
    }

    /// The frame of a page of a live process; `None` for any other pid, and where there is no page.
    pub fn page_frame(&self, pid: Pid, vpn: Vpn) -> Option<Frame>
        ensures { result ≡ page_frame_at self.now.frames pid vpn }
    {
        self.kernel.page_frame(pid, vpn)
    }

    /// What a frame of RAM is used for, and by whom; `None` exactly where RAM has no frame of this number.
    pub fn frame_use(&self, frame: Frame) -> Option<FrameUse>
        ensures told { (used : FrameUse) → (result ≡ Some used) ↔ IsUsed self.now frame used }
        ensures none { (result ≡ None) ↔ (self.now.frames.count ≤ frame) }
    {
        self.kernel.frame_use(frame)
    }

    /// What a descriptor of a live process names; `None` for any other pid, and where it isn't in use.
    pub fn descriptor(&self, pid: Pid, fd: Fd) -> Option<Descriptor>
        ensures { result ≡ descriptor_of self.now.world.state pid fd }
    {
        self.kernel.descriptor(pid, fd)
    }

    /// The counts of a pipe, which is named by the frame that it lies in; `None` where none lies there.
    pub fn pipe_counts(&self, frame: Frame) -> Option<PipeCounts>
        ensures { result ≡ pipe_counts_of self.now.world.state frame }
    {
        self.kernel.pipe_counts(frame)
    }

    /// The byte at a place of a pipe: 0 is the oldest; `None` where it has fewer bytes, or there is no such pipe.
    pub fn pipe_byte(&self, frame: Frame, place: usize) -> Option<u8>
        ensures { result ≡ pipe_byte_of self.now.world.state frame place }
    {
        self.kernel.pipe_byte(frame, place)
    }

    /// The byte at a place of one of the console's lists: 0 is the oldest; `None` where the list is shorter.
    pub fn console_byte(&self, list: ConsoleList, place: usize) -> Option<u8>
        ensures { result ≡ slice_get (list_of list self.now.world.state.console) place }
    {
        self.kernel.console_byte(list, place)
    }

    /// The programs that the machine was booted with.
    pub fn programs(&self) -> &[Program]
        ensures { map named_file result.now ≡ self.now.world.state.programs }
    {
        self.kernel.programs()
    }

    /// The clock: ticks since boot, modulo 2^32.
    pub fn clock(&self) -> u32
        ensures { result ≡ self.now.world.state.clock }
    {
        self.kernel.clock()
    }
}
