//! What a process asks of the kernel.
ghost use Rattle.std.specs.Prelude.{◌≡◌};
ghost use Rattle.kernel_spec.specs.views.Words.{c_int};
ghost use Rattle.call_reasons.specs.Asked.{asked_by_registers, asked_of, call_asked, noted};

use xk_base::{Pid, Reg};
use xv_machine::{Call, Machine, ProcessState};

/// The registers of a call's number and arguments (RISC-V Calling Conventions, "Integer Register Convention").
const FIRST_ARGUMENT: u8 = 10;

const SECOND_ARGUMENT: u8 = 11;

const THIRD_ARGUMENT: u8 = 12;

const CALL_NUMBER: u8 = 17;

/// What a process asks of the kernel: the number of the call, and what is passed to it.
#[derive(Clone, Copy)]
pub struct Asked {
    /// The call's number (xv6's `syscall.h`).
    pub number: i32,
    /// The first argument.
    pub a0: u64,
    /// The second.
    pub a1: u64,
    /// The third.
    pub a2: u64,
}

impl Asked {
    /// The call, before it has moved bytes.
    pub(crate) fn call(&self) -> Call
        ensures { result ≡ call_asked self.now }
    {
        Call {
            number: self.number,
            a0: self.a0,
            a1: self.a1,
            a2: self.a2,
            moved: 0,
            clock: 0,
        }
    }
}

/// A C int: the low 32 bits of a register, read as signed.
pub fn c_int(register: u64) -> i32
    ensures { result ≡ c_int register }
{
    ((register % (1 << 32)) as u32).cast_signed()
}

// What the kernel has noted of a call that isn't over.
fn noted(call: &Call) -> Asked
    ensures { result ≡ noted call.now }
{
    Asked {
        number: call.number,
        a0: call.a0,
        a1: call.a1,
        a2: call.a2,
    }
}

// What the registers of a live process ask for.
fn asked_by_registers(machine: &Machine, pid: Pid) -> Option<Asked>
    ensures { result ≡ asked_by_registers machine.now.world.state pid }
{
    let regs = machine.registers(pid)?;
    Some(Asked {
        number: c_int(regs.read(Reg::new(CALL_NUMBER))),
        a0: regs.read(Reg::new(FIRST_ARGUMENT)),
        a1: regs.read(Reg::new(SECOND_ARGUMENT)),
        a2: regs.read(Reg::new(THIRD_ARGUMENT)),
    })
}

/// What a live process asks for: if it is in a call, what it asked for at the call's first step; else what its registers
/// ask for, if its next instruction is ECALL. `None` for any other pid.
pub fn asked_of(machine: &Machine, pid: Pid) -> Option<Asked>
    ensures { result ≡ asked_of machine.now.world pid }
{
    match machine.process(pid) {
        Some(
            ProcessState::Live {
                call: Some(call),
                ..
            },
        ) => Some(noted(&call)),
        _ => asked_by_registers(machine, pid),
    }
}
