//! The end of a process, by the call exit, a kill or a fault (xv6's `proc.c`; the xv6 book, "Code: Wait, exit,
//! and kill").
ghost use Rattle.std.specs.Prelude.{◌≡◌, ◌≢◌, Some};
ghost use Rattle.std.specs.FinMap.{empty};
ghost use Rattle.proc_table.specs.Processes.{given, ended};
ghost use Rattle.proc_table.specs.Slots.{each_changed, changed_at};
ghost use Rattle.kernel_spec.specs.steps.Own.{Answer, gone_with};
ghost use Rattle.kernel_spec.specs.rows.Calls.{gone};
ghost use Rattle.kernel_spec.specs.steps.Updates.{gone_state, orphans};
ghost use Rattle.kcall_core.specs.Kernel.{frame_count, IsStopped, state_of, IsSound};
ghost use Rattle.kcall_core.specs.Kernel.{IsRunning, slot_now, pid_now, live_now};
ghost use Rattle.kcall_core.specs.Whole.{IsWhole};
ghost use Rattle.kcall_core.specs.Makes.{Makes, view_now};
ghost use Rattle.hart_core.specs.declared.hart.Hart.{Hart};

use crate::kernel::Kernel;
use hart_core::Hart;
use proc_table::Channel;
use xk_base::Pid;

impl Kernel {
    /// The children of a process, zombies too, become children of pid 1.
    pub(crate) fn orphan(&mut self, pid: Pid)
        ensures sound { (hart : Hart) → IsSound self.old hart → IsSound self.new hart }
        ensures state { (hart : Hart) → state_of self.new hart ≡ orphans pid (state_of self.old hart) }
        ensures current { self.new.current ≡ self.old.current }
        ensures table { self.new.table ≡ each_changed (given pid 1) self.old.table }
        ensures rest { self.new ≡ record self.old { table = self.new.table } }
        ensures pid { (hart : Hart) → IsSound self.old hart → IsRunning self.old
            → pid_now self.new ≡ pid_now self.old }
    {
        self.table.adopt(pid, Pid::new(1));
    }

    /// The process that runs ends with a status; it has no descriptor in use, and isn't its own parent. Its
    /// children go to pid 1, and its frames are free. Nobody is woken.
    fn go_closed(&mut self, hart: &mut Hart, status: i32)
        requires sound { IsSound self.old hart.old }
        requires running { IsRunning self.old }
        requires closed { (live_now self.old hart.old).descriptors ≡ empty }
        requires parent { (live_now self.old hart.old).parent ≢ Some (pid_now self.old) }
        ensures sound { IsSound self.new hart.new }
        ensures stopped { IsStopped self.new }
        ensures table { self.new.table
            ≡ changed_at (slot_now self.old) (ended status)
            (each_changed (given (pid_now self.old) 1) self.old.table) }
        ensures files { self.new.files ≡ self.old.files }
        ensures frames { frame_count self.new ≡ frame_count self.old }
        ensures state { let s = state_of self.old hart.old in
            state_of self.new hart.new
            ≡ gone_state (pid_now self.old) (live_now self.old hart.old) status s.files s }
    {
        let slot = self.running_slot();
        let pid = self.table.pid(slot);
        self.orphan(pid);
        self.end(hart, status);
    }

    /// The process that runs ends with a status: its descriptors are closed, its children go to pid 1, its
    /// frames are free, and its parent and pid 1 wake if they wait for a child.
    #[cold]
    pub fn exit(&mut self, hart: &mut Hart, status: i32)
        requires whole { IsWhole self.old hart.old }
        requires running { IsRunning self.old }
        ensures made { (answer : Answer) → gone_with answer ≡ Some status
            → Makes self.old hart.old (gone answer (view_now self.old hart.old)) self.new hart.new }
    {
        let slot = self.running_slot();
        let parent = self.table.parent(slot);
        self.close_all();
        self.go_closed(hart, status);
        self.wake_parent(parent);
        self.wake(Channel::Children(Pid::new(1)));
    }
}
