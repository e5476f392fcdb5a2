//! The call kill (xv6's `proc.c`; the xv6 book, "Code: Wait, exit, and kill").
ghost use Rattle.std.specs.Prelude.{◌≡◌};
ghost use Rattle.kcall_core.specs.Kills.{asked_pid};
ghost use Rattle.kernel_spec.specs.rows.Calls.{kill};
ghost use Rattle.kcall_core.specs.Kernel.{IsRunning};
ghost use Rattle.kcall_core.specs.Whole.{IsWhole};
ghost use Rattle.kcall_core.specs.Makes.{Makes, view_now, answer_of};

use crate::call_end::CallEnd;
use crate::kernel::Kernel;
use crate::kernel::syscall::c_int;
use hart_core::Hart;
use proc_table::Call;
use xk_base::Pid;

/// The process of this number; none has a number below 1.
fn asked_pid(asked: i32) -> Option<Pid>
    ensures { result ≡ asked_pid asked }
{
    if asked <= 0 {
        return None;
    }
    Some(Pid::new(asked as u32))
}

impl Kernel {
    /// The call kill: the kill mark of the process whose pid is its first argument is set, and it wakes,
    /// whatever it sleeps on; the answer is 0. If the pid is below 1, or no process has it, the answer
    /// is -1, and nothing else changes. A zombie stays as it is.
    pub(crate) fn kill(&mut self, hart: &mut Hart, call: &Call) -> CallEnd
        requires whole { IsWhole self.old hart.old }
        requires running { IsRunning self.old }
        ensures made { Makes self.old hart.old (kill call.now (view_now self.old hart.old)) self.new hart.new }
        ensures answer { (kill call.now (view_now self.old hart.old)).answer ≡ answer_of call.now.number result }
    {
        let Some(pid) = asked_pid(c_int(call.a0)) else {
            return self.done(hart, -1);
        };
        if !self.table.mark(pid) {
            return self.done(hart, -1);
        }
        self.done(hart, 0)
    }
}
