//! What GDB is told when the process is gone that it let run alone.
//!
//! GDB lets a thread run alone for a step over a breakpoint, to another breakpoint that it puts behind the instruction.
//! If the thread ends by that instruction, as by an `ecall` for `exit`, GDB 13 waits for the end of its step for ever. So
//! it is told that the step came there: it takes that for the step's end, lets all go on, and finds the thread gone.
ghost use Rattle.std.specs.Prelude.{◌≡◌, IfOk};
ghost use Rattle.gdb_target.specs.Gone.{HadBefore, IsStepOver, WouldCome};
ghost use Rattle.gdb_target.specs.Gone as meant;

use crate::let_run::LetRun;
use crate::points::Points;
use crate::target::Target;
use gdb_packets::{no_resumed, stepped_to};
use rv64i_core::Regs;
use std::alloc::{AllocError, Global};
use xk_base::Pid;
use xv_session::SessionError;

/// How many bytes an instruction has.
const INSTRUCTION: u64 = 4;

/// The address behind the instruction at which a process stands with these registers.
pub(crate) fn address_after(regs: &Regs) -> u64
    ensures { result ≡ meant.address_after regs.now.pc }
{
    regs.pc().wrapping_add(INSTRUCTION)
}

/// The address behind the instruction at which a process stood with these registers, if a breakpoint is there.
fn breakpoint_after(points: &Points, regs: &Regs) -> Option<u64>
    ensures { result ≡ meant.if_among points.now.breakpoints.items (meant.address_after regs.now.pc) }
{
    let next = address_after(regs);
    if points.is_breakpoint(next) {
        return Some(next);
    }
    None
}

impl Target {
    /// The registers that a process had before the last event of the run.
    fn registers_before(&self, alloc: Global, pid: Pid) -> Result<Option<Regs>, SessionError>
        ensures { IfOk result (λ registers. HadBefore self.now pid registers) }
    {
        let place = self.run.at().saturating_sub(1);
        let before = self.run.session.machine_at(alloc, place)?;
        Ok(before.registers(pid))
    }

    /// The breakpoint to which the last event's step would have led a process, if there is one.
    fn step_over_of(&self, alloc: Global, pid: Pid) -> Result<Option<u64>, SessionError>
        ensures { IfOk result (λ address. WouldCome self.now pid address) }
    {
        let Some(regs) = self.registers_before(alloc, pid)? else {
            return Ok(None);
        };
        Ok(breakpoint_after(&self.points, &regs))
    }

    /// The breakpoint to which the last event's step would have led the process that was let run alone, if it hadn't
    /// ended by it; `None` if there is no breakpoint, or if all were let run.
    ///
    /// # Errors
    ///
    /// [`SessionError::Memory`] if the host has too little memory for a second machine.
    pub(crate) fn step_over(
        &self,
        alloc: Global,
        let_run: &LetRun,
    ) -> Result<Option<u64>, SessionError>
        ensures { IfOk result (λ address. IsStepOver let_run.now self.now address) }
    {
        match let_run {
            LetRun::All => Ok(None),
            LetRun::Alone(pid) => self.step_over_of(alloc, *pid),
        }
    }
}

/// What is told of a process that was let run alone, and is gone: that its step came to this address, or else that nobody
/// is let run any more.
///
/// # Errors
///
/// [`AllocError`] if the host has too little memory.
pub(crate) fn gone_told(
    alloc: Global,
    let_run: LetRun,
    address: Option<u64>,
) -> Result<Vec<u8>, AllocError>
    ensures { IfOk result (λ text. text.items ≡ meant.gone_told let_run address) }
{
    let Some(address) = address else {
        return no_resumed(alloc);
    };
    match let_run {
        LetRun::All => no_resumed(alloc),
        LetRun::Alone(pid) => stepped_to(alloc, u64::from(pid.number()), address),
    }
}
