//! Steps that GDB makes by breakpoints.
//!
//! GDB 13 steps a thread of RISC-V forth by no packet for a step: it puts a breakpoint at each address to which the
//! thread's next instruction may lead, and lets it go on. Breakpoints stop the processes of the one program that GDB knows.
//! So if the process that GDB looks at runs another program, and a breakpoint stands where its next instruction may lead, the
//! command ends by its step.
ghost use Rattle.std.specs.Prelude.{◌≡◌, option_map};
ghost use Rattle.gdb_target.specs.Stepping as meant;

use crate::gone::address_after;
use crate::let_run::teller;
use crate::places::is_place;
use crate::points::Points;
use crate::target::{Target, Until, Way};
use xk_base::Pid;
use xv_report::jump_target;
use xv_session::{NextStep, next_step};

/// Whether a breakpoint stands at this address, if it is one.
fn is_among(points: &Points, address: Option<u64>) -> bool
    ensures { result ≡ meant.is_one points.now.breakpoints.items address }
{
    match address {
        Some(address) => points.is_breakpoint(address),
        None => false,
    }
}

/// Whether a breakpoint stands where the instruction of this step may lead: behind it, or where it jumps.
fn leads_to_breakpoint(points: &Points, step: &NextStep) -> bool
    ensures { result ≡ meant.leads_to_one points.now.breakpoints.items step.now }
{
    points.is_breakpoint(address_after(&step.regs))
        || is_among(points, jump_target(&step.regs, step.word))
}

impl Target {
    /// Whether a breakpoint stands where the next instruction of this process may lead.
    fn may_lead(&self, pid: Pid) -> bool
        ensures { result ≡ meant.may_lead self.now pid }
    {
        match next_step(self.run.machine(), pid) {
            Some(step) => leads_to_breakpoint(&self.points, &step),
            None => false,
        }
    }

    /// Whether GDB may step this process by breakpoints, though it runs another program than the one that GDB knows.
    fn is_stepped(&self, pid: Pid) -> bool
        ensures { result ≡ meant.is_stepped self.now pid }
    {
        !is_place(self.run.session.program_of(pid), self.program) && self.may_lead(pid)
    }

    /// Until a step of this process, if GDB may step it by breakpoints; or else up to a point.
    fn point_or_step(&self, pid: Pid) -> Until
        ensures { result ≡ meant.point_or_step self.now pid }
    {
        if self.is_stepped(pid) {
            return Until::StepOf(pid);
        }
        Until::Point
    }

    /// This way, but up to a step of the process that is let run alone, or else of the one that is looked at, if GDB may step
    /// it by breakpoints.
    fn as_stepped(&self, way: Way) -> Way
        ensures { result ≡ meant.as_stepped self.now way }
    {
        match way.until {
            Until::Point => Way {
                until: self.point_or_step(teller(way.let_run, self.looked_at)),
                let_run: way.let_run,
            },
            Until::StepOf(_) => way,
            Until::AnyStep => way,
        }
    }

    /// This way, as GDB may step by breakpoints, if there is one.
    pub(crate) fn stepped(&self, way: Option<Way>) -> Option<Way>
        ensures { result ≡ option_map (meant.as_stepped self.now) way }
    {
        match way {
            Some(way) => Some(self.as_stepped(way)),
            None => None,
        }
    }
}
