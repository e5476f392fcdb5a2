//! What the frames of RAM are used for.
ghost use Rattle.std.specs.Prelude.{◌≡◌, ℕ, ◌≤◌, ◌↔◌, IfSome, IfNone, Some, None};
ghost use Rattle.hart_core.specs.declared.hart.Hart.{Hart};
ghost use Rattle.kcall_core.specs.Kernel.{frame_count, IsSound};
ghost use Rattle.kcall_core.specs.ObservedFrames.{IsOwned, IsUsed, use_of};
ghost use Rattle.kcall_core.specs.declared.kernel.observers.frame_uses.FrameUse.{FrameUse};
ghost use Rattle.kcall_core.specs.declared.kernel.observers.frame_uses.FrameUse.TheVariants.{Page};
ghost use Rattle.kcall_core.specs.declared.memories.frame_roles.FrameRole.{FrameRole};

use crate::kernel::Kernel;
use crate::memories::FrameRole;
use xk_base::limits::NPROC;
use xk_base::{Frame, Pid, Vpn};

/// What a frame of RAM is used for, and by whom.
#[derive(Clone, Copy, PartialEq, Eq)]
pub enum FrameUse {
    /// Nobody has it.
    Free,
    /// The registers of this live process lie there while it doesn't run.
    Trapframe(Pid),
    /// It is the first table of this live process's memory.
    Root(Pid),
    /// It is the table at a place of those that the root leads to.
    Upper {
        pid: Pid,
        /// 0 to 255: the table is on the way to the 262,144 pages from 262,144 times the place on.
        place: u32,
    },
    /// It is the table at a place of those that lead to pages.
    Lower {
        pid: Pid,
        /// 0 to 131,071: the table has the entries of the 512 pages from 512 times the place on.
        place: u32,
    },
    /// It is a page of this live process.
    Page {
        pid: Pid,
        vpn: Vpn,
    },
    /// A pipe lies in it.
    Pipe,
}

impl FrameUse {
    /// A role of a process's frame, as a use of RAM.
    fn of(pid: Pid, role: FrameRole) -> FrameUse
        ensures { result ≡ use_of pid role }
    {
        match role {
            FrameRole::Trapframe => FrameUse::Trapframe(pid),
            FrameRole::Root => FrameUse::Root(pid),
            FrameRole::Upper(place) => FrameUse::Upper { pid, place },
            FrameRole::Lower(place) => FrameUse::Lower { pid, place },
            FrameRole::Page(vpn) => FrameUse::Page { pid, vpn },
        }
    }
}

impl Kernel {
    /// The process that has a frame, and what for; none if no process has it.
    fn owner(&self, frame: Frame) -> Option<(Pid, FrameRole)>
        requires { (hart : Hart) × IsSound self.now hart }
        ensures some { IfSome result (λ owner. IsOwned self.now owner.0 frame owner.1) }
        ensures none { IfNone result ((pid : ℕ) (role : FrameRole) → ¬ IsOwned self.now pid frame role) }
    {
        for slot in 0..NPROC {
            if let Some(role) = self.memories.frame_role(slot, frame) {
                return Some((self.table.pid(slot), role));
            }
        }
        None
    }

    /// What a frame is used for, and by whom. `None` exactly if RAM has no frame of this number.
    pub fn frame_use(&self, frame: Frame) -> Option<FrameUse>
        requires { (hart : Hart) × IsSound self.now hart }
        ensures told { (used : FrameUse) → (result ≡ Some used) ↔ IsUsed self.now frame used }
        ensures none { (result ≡ None) ↔ (frame_count self.now ≤ frame) }
    {
        if frame.number() >= self.memories.frames() {
            return None;
        }
        if self.memories.pipe_counts(frame).is_some() {
            return Some(FrameUse::Pipe);
        }
        let Some((pid, role)) = self.owner(frame) else {
            return Some(FrameUse::Free);
        };
        Some(FrameUse::of(pid, role))
    }

    /// The frame of a page of a live process. `None` for any other pid, and if there is no page.
    pub fn page_frame(&self, pid: Pid, vpn: Vpn) -> Option<Frame>
        requires { (hart : Hart) × IsSound self.now hart }
        ensures { (frame : ℕ) → (result ≡ Some frame) ↔ IsUsed self.now frame (Page pid vpn) }
    {
        let slot = self.find_live(pid)?;
        self.memories.page_frame(slot, vpn)
    }
}
