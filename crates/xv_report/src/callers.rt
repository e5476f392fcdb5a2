//! The calls that led a process to where it is.
ghost use Rattle.std.specs.Prelude.{◌≡◌, Some, ◌≤◌, ◌+◌, ◌%◌, ◌++◌, IfSome, IfNone, option_map};
ghost use Rattle.arrayvec.specs.ArrayVec.{array_vec_len};
ghost use Rattle.rv64i_core.specs.Registers.{reg};
ghost use Rattle.kcall_core.specs.Observers.{registers_of};
ghost use Rattle.xv_report.specs.Callers as meant;
ghost use Rattle.xv_report.specs.Callers.{double_at, is_code, is_call_at, is_call_word, caller_at, callers_from, frames_told};
ghost use Rattle.xv_report.specs.Reports.{AreCallersWith, AreCallersOf};

use arrayvec::ArrayVec;
use rv64i_core::{Instr, Regs, decode};
use xk_base::limits::{PAGE_BYTES, VPN_END};
use xk_base::{Pid, Reg, Vpn};
use xv_machine::Machine;
use xv_session::word_at;

/// The most calls that are told.
pub const CALLERS_MAX: usize = 64;

/// The registers ra and s0 (RISC-V ABIs, "Integer Register Convention").
pub(crate) const RETURN_ADDRESS: u8 = 1;

pub(crate) const FRAME_POINTER: u8 = 8;

/// What stands below the frame of a call.
#[derive(Clone, Copy)]
pub struct Caller {
    /// Where the call returns to.
    pub address: u64,
    /// The frame pointer of its caller.
    pub frame: u64,
}

/// Where the calls return to that led a process to where it is.
#[derive(Drop)]
pub struct Callers {
    /// By the program's frame pointers, from the last call on. None if s0 leads to no frame: most programs are
    /// built without frame pointers.
    pub frames: ArrayVec<u64, CALLERS_MAX>,
    /// By the register ra alone: an earlier call may have left it. None if no call stands right before it.
    pub ra: Option<u64>,
}

/// The eight bytes at an address, the first as the lowest.
pub(crate) fn double_at(machine: &Machine, pid: Pid, address: u64) -> Option<u64>
    requires { address % 8 ≡ 0 }
    ensures { result ≡ double_at machine.now.world.state pid address }
{
    let low = u64::from(word_at(machine, pid, address)?);
    let high = u64::from(word_at(machine, pid, address + 4)?);
    Some(low + (1 << 32) * high)
}

/// Whether an instruction of a process may stand at the address.
fn is_code(machine: &Machine, pid: Pid, address: u64) -> bool
    ensures { result ≡ is_code machine.now.world.state pid address }
{
    let page = address / PAGE_BYTES;
    if page >= u64::from(VPN_END) {
        return false;
    }
    match machine.perm(pid, Vpn::new(page as u32)) {
        Some(perm) => perm.rights().execute && perm.rights().user,
        None => false,
    }
}

/// Whether an instruction is a call: a JAL or a JALR that writes ra (RISC-V Unprivileged ISA, "Unconditional Jumps").
fn is_call(instr: &Instr) -> bool
    ensures { result ≡ meant.is_call (Some instr.now) }
{
    match instr {
        Instr::Jal { rd, .. } => rd.number() == RETURN_ADDRESS,
        Instr::Jalr { rd, .. } => rd.number() == RETURN_ADDRESS,
        _ => false,
    }
}

/// Whether a word spells a call.
fn is_call_word(word: Option<u32>) -> bool
    ensures { result ≡ is_call_word word }
{
    let Some(word) = word else {
        return false;
    };
    match decode(word) {
        Some(instr) => is_call(&instr),
        None => false,
    }
}

/// Whether a call of a process stands at an address.
fn is_call_at(machine: &Machine, pid: Pid, address: u64) -> bool
    requires { address % 4 ≡ 0 }
    ensures { result ≡ is_call_at machine.now.world.state pid address }
{
    is_code(machine, pid, address) && is_call_word(word_at(machine, pid, address))
}

/// Whether a call of a process stands right before the address.
pub(crate) fn is_return(machine: &Machine, pid: Pid, address: u64) -> bool
    ensures { result ≡ meant.is_return machine.now.world.state pid address }
{
    address >= 4 && address % 4 == 0 && is_call_at(machine, pid, address - 4)
}

/// Whether two numbers of eight bytes can lie below the frame pointer.
fn is_frame(frame: u64) -> bool
    ensures { result ≡ meant.is_frame frame }
{
    frame >= 16 && frame % 8 == 0
}

/// What stands below a frame of a process; `None` where nothing stands there, and where its return address is
/// none.
fn caller_at(machine: &Machine, pid: Pid, frame: u64) -> Option<Caller>
    ensures { result ≡ caller_at machine.now.world.state pid frame }
{
    if !is_frame(frame) {
        return None;
    }
    let address = double_at(machine, pid, frame - 8)?;
    let above = double_at(machine, pid, frame - 16)?;
    if !is_return(machine, pid, address) {
        return None;
    }
    Some(Caller {
        address,
        frame: above,
    })
}

/// Adds the return addresses from a frame on, so many at most.
fn follow(
    machine: &Machine,
    pid: Pid,
    frame: u64,
    most: usize,
    found: &mut ArrayVec<u64, CALLERS_MAX>,
)
    requires { array_vec_len found.old + most ≤ CALLERS_MAX }
    ensures { found.new.items ≡ found.old.items ++ callers_from most machine.now.world.state pid frame }
{
    if most == 0 {
        return;
    }
    let Some(caller) = caller_at(machine, pid, frame) else {
        return;
    };
    found.push(caller.address);
    if frame < caller.frame {
        follow(machine, pid, caller.frame, most - 1, found);
    }
}

/// The frame of the caller of a function that calls no other, and keeps only that in its frame.
fn above_leaf(machine: &Machine, pid: Pid, ra: u64, frame: u64) -> Option<u64>
    ensures { result ≡ meant.above_leaf machine.now.world.state pid ra frame }
{
    if !is_frame(frame) {
        return None;
    }
    let above = double_at(machine, pid, frame - 8)?;
    if frame < above && is_return(machine, pid, ra) && caller_at(machine, pid, above).is_some() {
        return Some(above);
    }
    None
}

/// The return addresses that the frames of a process with these registers tell.
fn frames_told(machine: &Machine, pid: Pid, regs: &Regs) -> ArrayVec<u64, CALLERS_MAX>
    ensures { result.items ≡ frames_told machine.now.world.state pid regs.now }
{
    let ra = regs.read(Reg::new(RETURN_ADDRESS));
    let frame = regs.read(Reg::new(FRAME_POINTER));
    let mut found = ArrayVec::new();
    if caller_at(machine, pid, frame).is_some() {
        follow(machine, pid, frame, CALLERS_MAX, &mut found);
        return found;
    }
    if let Some(above) = above_leaf(machine, pid, ra, frame) {
        found.push(ra);
        follow(machine, pid, above, CALLERS_MAX - 1, &mut found);
    }
    found
}

/// The return address, where it is one.
fn return_in(machine: &Machine, pid: Pid, address: u64) -> Option<u64>
    ensures { result ≡ meant.return_in machine.now.world.state pid address }
{
    if is_return(machine, pid, address) {
        Some(address)
    } else {
        None
    }
}

/// The calls that led a live process with these registers to where it is.
pub(crate) fn callers_with(machine: &Machine, pid: Pid, regs: &Regs) -> Callers
    ensures { AreCallersWith machine.now.world.state pid regs.now result }
{
    Callers {
        frames: frames_told(machine, pid, regs),
        ra: return_in(machine, pid, regs.read(Reg::new(RETURN_ADDRESS))),
    }
}

/// The calls that led a live process to where it is; `None` for any other pid.
///
/// A program that was built with frame pointers keeps, below the address in s0, where the function returns to and its
/// caller's s0 (RISC-V ABIs, "Frame Pointer Convention"). They are followed as long as each s0 is greater than the
/// one before it, what stands there lies in the process's memory, and a call stands right before the return address,
/// [`CALLERS_MAX`] at most. A function that calls no other may keep only its caller's s0. A program that keeps no frame
/// pointers has other numbers in s0, which may lead to such bytes by chance.
pub fn callers_of(machine: &Machine, pid: Pid) -> Option<Callers>
    ensures some { IfSome result (AreCallersOf machine.now.world.state pid) }
    ensures none { IfNone result (registers_of machine.now.world.state pid ≡ None) }
{
    let regs = machine.registers(pid)?;
    Some(callers_with(machine, pid, &regs))
}
