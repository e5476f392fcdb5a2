//! What `finish` waits for: that the process which runs is back from its function.
ghost use Rattle.std.specs.Prelude.{◌≡◌, IfOk, IfSome, option_map, slice_get};
ghost use Rattle.xv_debug.specs.motion.Finishing.{IsFinishAim, IsReturnGuessed, IsReturnTold, return_aim};

use crate::motion::aiming::{Aim, STACK_POINTER};
use rv64i_core::Regs;
use std::alloc::{AllocError, Global};
use xk_base::{Pid, Reg};
use xv_report::{Callers, Calls, ProgramSource, Sources, calls_of, source_of};
use xv_session::Session;

/// Where the function begins that has an address.
fn function_start(source: &ProgramSource<'_>, address: u64) -> Option<u64> {
    let function = source.location(address).function?;
    Some(address.wrapping_sub(function.offset))
}

/// Whether the instruction before an address lies in the function that has the pc.
fn is_inside(source: &ProgramSource<'_>, pc: u64, address: u64) -> bool {
    match (
        function_start(source, pc),
        function_start(source, address.wrapping_sub(4)),
    ) {
        (Some(here), Some(there)) => here == there,
        _ => false,
    }
}

/// Whether a function returns to the address in ra: that lies in another function, or nothing of this one is done yet. Else
/// an earlier call may have left it.
fn is_return(source: &ProgramSource<'_>, pc: u64, address: u64) -> bool {
    function_start(source, pc) == Some(pc) || !is_inside(source, pc, address)
}

/// The first of these addresses.
fn first(addresses: &[u64]) -> Option<u64>
    ensures { result ≡ slice_get addresses.now 0 }
{
    match addresses.get(0) {
        Some(address) => Some(*address),
        None => None,
    }
}

/// Where the function returns to in which a process is, by a guess: the address in ra, or else the one of its frame.
fn guessed_return(source: &ProgramSource<'_>, pc: u64, callers: &Callers) -> Option<u64>
    ensures { IsReturnGuessed callers.now result }
{
    match callers.ra {
        Some(address) if is_return(source, pc, address) => Some(address),
        _ => first(callers.frames.as_slice()),
    }
}

/// Where the function returns to in which a process is.
fn return_address(source: &ProgramSource<'_>, pc: u64, calls: &Calls) -> Option<u64>
    ensures { IsReturnTold calls.now result }
{
    match calls {
        Calls::Known(addresses) => first(addresses.as_slice()),
        Calls::FromRa(addresses) => first(addresses.as_slice()),
        Calls::Guessed(callers) => guessed_return(source, pc, callers),
    }
}

/// That a process with these registers is back at an address.
fn return_aim(pid: Pid, regs: &Regs, address: u64) -> Aim
    ensures { result ≡ return_aim pid regs.now address }
{
    Aim::Return {
        pid,
        pc: address,
        stack: regs.read(Reg::new(STACK_POINTER)),
    }
}

/// What `finish` waits for; `None` where nobody runs, and where it isn't known to which address the function returns.
pub(crate) fn finish_aim(
    alloc: Global,
    session: &Session,
    sources: Option<&Sources>,
) -> Result<Option<Aim>, AllocError>
    ensures { IfOk result (λ aim. IfSome aim (IsFinishAim (option_map (λ s. s.now) sources.entry) session.now)) }
{
    let Some(pid) = session.machine().current() else {
        return Ok(None);
    };
    let Some(regs) = session.machine().registers(pid) else {
        return Ok(None);
    };
    let source = source_of(sources, session, session.program_of(pid));
    let Some(calls) = calls_of(alloc, session.machine(), pid, &source)? else {
        return Ok(None);
    };
    match return_address(&source, regs.pc(), &calls) {
        Some(address) => Ok(Some(return_aim(pid, &regs, address))),
        None => Ok(None),
    }
}
