//! What a process is about to do, and why it could not do it.
ghost use Rattle.std.specs.Prelude.{◌≡◌, ◌%◌};
ghost use Rattle.rv64i_core.specs.Step.{data_address};
ghost use Rattle.xv_session.specs.Looking.{word_at, address_of, next_step_of, FaultTold};

use rv64i_core::{Instr, Regs, decode, extend_12};
use xk_base::{Cause, Pid};
use xv_machine::{Event, Machine, Outcome};

/// The step that a process is about to make, as it stands before it.
#[derive(Clone, Copy)]
pub struct NextStep {
    pub pid: Pid,
    /// Its registers, with the pc.
    pub regs: Regs,
    /// The four bytes at the pc, the first as the lowest; `None` where one of them isn't there.
    pub word: Option<u32>,
    /// The address that the instruction loads from or stores to; `None` where it does neither.
    pub address: Option<u64>,
}

/// A step that a process could not make, which ended it.
#[derive(Clone, Copy)]
pub struct Fault {
    /// The step, as it stood before.
    pub step: NextStep,
    /// Why it could not be made.
    pub cause: Cause,
}

/// The address that an instruction loads from or stores to.
#[tactic(auto, unfolding(rv64i_core::specs::Step::data_address))]
fn data_address(regs: &Regs, instr: &Instr) -> Option<u64>
    ensures { result ≡ data_address regs.now instr.now }
{
    match instr {
        Instr::Load { rs1, imm, .. } => Some(regs.read(*rs1).wrapping_add(extend_12(*imm))),
        Instr::Store { rs1, imm, .. } => Some(regs.read(*rs1).wrapping_add(extend_12(*imm))),
        _ => None,
    }
}

/// The address that the instruction of a word loads from or stores to.
fn address_of(regs: &Regs, word: Option<u32>) -> Option<u64>
    ensures { result ≡ address_of regs.now word }
{
    let instr = decode(word?)?;
    data_address(regs, &instr)
}

/// The four bytes at an address, the first as the lowest; `None` where one of them isn't there.
pub fn word_at(machine: &Machine, pid: Pid, address: u64) -> Option<u32>
    requires { address % 4 ≡ 0 }
    ensures { result ≡ word_at machine.now.world.state pid address }
{
    let first = u32::from(machine.peek(pid, address)?);
    let second = u32::from(machine.peek(pid, address + 1)?);
    let third = u32::from(machine.peek(pid, address + 2)?);
    let fourth = u32::from(machine.peek(pid, address + 3)?);
    Some(first + 256 * (second + 256 * (third + 256 * fourth)))
}

/// The step that a process is about to make; `None` where no live process has this pid.
pub fn next_step(machine: &Machine, pid: Pid) -> Option<NextStep>
    ensures { result ≡ next_step_of machine.now.world.state pid }
{
    let regs = machine.registers(pid)?;
    let word = word_at(machine, pid, regs.pc());
    Some(NextStep {
        pid,
        regs,
        word,
        address: address_of(&regs, word),
    })
}

/// Sends a machine one Run, and tells the fault that came of it; `None` where something else came of it.
pub fn fault_of_run(machine: &mut Machine) -> Option<Fault>
    ensures { FaultTold result machine.old machine.new }
{
    let step = match machine.current() {
        Some(pid) => next_step(machine, pid),
        None => None,
    };
    let outcome = machine.event(Event::Run);
    let Outcome::Faulted { cause, .. } = outcome else {
        return None;
    };
    Some(Fault { step: step?, cause })
}
