//! What Runs are sent for. `next` waits for the end of the process's next instruction, and of the call that it makes.
ghost use Rattle.std.specs.Prelude.{◌≡◌};
ghost use Rattle.kernel_spec.specs.runs.Run as runs;
ghost use Rattle.rv64i_core.specs.Table.{decoded};
ghost use Rattle.xv_machine.specs.Events.{outcome_of};
ghost use Rattle.kernel_spec.specs.views.Words.{is_this};
ghost use Rattle.xv_session.specs.Looking.{next_step_of};
ghost use Rattle.xv_debug.specs.motion.Aims as meant;

use rv64i_core::{Instr, Regs, decode};
use xk_base::{Pid, Reg};
use xv_machine::{Machine, Outcome};
use xv_session::{Condition, NextStep, next_step};

/// The register that keeps a return address, and the stack pointer (RISC-V Calling Conventions, "Integer Register
/// Convention").
const RETURN_ADDRESS: u8 = 1;

pub(crate) const STACK_POINTER: u8 = 2;

/// What Runs are sent for.
#[derive(Clone, Copy)]
pub enum Aim {
    /// Any event.
    Anything,
    /// No event.
    Nothing,
    /// What a search of the session waits for.
    On(Condition),
    /// An answer of the kernel to the process, or its end.
    Answer(Pid),
    /// The process stands at this address, with its stack pointer not below this one; or its end.
    Return { pid: Pid, pc: u64, stack: u64 },
    /// The process runs, and its next instruction stands before the first of these addresses, or after the last; or its
    /// end.
    Outside { pid: Pid, first: u64, last: u64 },
}

/// How an instruction leads to the next one.
#[derive(Clone, Copy)]
enum Leads {
    /// By a call of the kernel.
    Kernel,
    /// By a call of a function: a jump that keeps its return address.
    Function,
    /// As any other.
    Other,
}

/// How a jump leads on that keeps its return address in this register.
fn jump_leads(link: &Reg) -> Leads
    ensures { result ≡ meant.jump_leads link.now }
{
    if link.number() == RETURN_ADDRESS {
        Leads::Function
    } else {
        Leads::Other
    }
}

/// How an instruction leads on.
fn instruction_leads(instruction: &Instr) -> Leads
    ensures { result ≡ meant.instruction_leads instruction.now }
{
    match instruction {
        Instr::Ecall => Leads::Kernel,
        Instr::Jal { rd, .. } => jump_leads(rd),
        Instr::Jalr { rd, .. } => jump_leads(rd),
        _ => Leads::Other,
    }
}

/// How the instruction of a word leads on, where there is one.
fn word_leads(word: Option<u32>) -> Leads
    ensures { result ≡ meant.word_leads word }
{
    let Some(word) = word else {
        return Leads::Other;
    };
    match decode(word) {
        Some(instruction) => instruction_leads(&instruction),
        None => Leads::Other,
    }
}

/// What `next` waits for of a process that is about to make this step.
fn aim_of(step: &NextStep) -> Aim
    ensures { result ≡ meant.aim_of step.now }
{
    match word_leads(step.word) {
        Leads::Kernel => Aim::Answer(step.pid),
        Leads::Function => Aim::Return {
            pid: step.pid,
            pc: step.regs.pc().wrapping_add(4),
            stack: step.regs.read(Reg::new(STACK_POINTER)),
        },
        Leads::Other => Aim::On(Condition::StepOf(step.pid)),
    }
}

/// What `next` waits for: of the process that runs, the end of its instruction, and of the call that it makes; where
/// nobody runs, any event.
pub(crate) fn aim_in(machine: &Machine) -> Aim
    ensures { result ≡ meant.aim_in machine.now.world }
{
    let Some(pid) = machine.current() else {
        return Aim::Anything;
    };
    match next_step(machine, pid) {
        Some(step) => aim_of(&step),
        None => Aim::On(Condition::StepOf(pid)),
    }
}

/// The registers of the process, if it runs.
fn running_regs(machine: &Machine, pid: Pid) -> Option<Regs>
    ensures { result ≡ meant.regs_if (is_this pid machine.now.world.turns.current) machine.now.world.state pid }
{
    let current = machine.current()?;
    if current.number() != pid.number() {
        return None;
    }
    machine.registers(pid)
}

/// Whether the process runs, stands at the address, and has its stack pointer not below this one.
fn has_returned(machine: &Machine, pid: Pid, pc: u64, stack: u64) -> bool
    ensures { result ≡ meant.has_returned pid pc stack machine.now.world }
{
    match running_regs(machine, pid) {
        Some(regs) => (regs.pc() == pc) & (stack <= regs.read(Reg::new(STACK_POINTER))),
        None => false,
    }
}

/// Whether the process runs, and stands before the first of these addresses, or after the last.
fn stands_outside(machine: &Machine, pid: Pid, first: u64, last: u64) -> bool
    ensures { result ≡ meant.stands_outside pid first last machine.now.world }
{
    match running_regs(machine, pid) {
        Some(regs) => (regs.pc() < first) | (last < regs.pc()),
        None => false,
    }
}

/// Whether the outcome is the end of the process.
fn ends(outcome: &Outcome, wanted: Pid) -> bool
    ensures { result ≡ meant.ends_of wanted (outcome_of outcome.now) }
{
    match outcome {
        Outcome::Exited { pid, .. } | Outcome::Faulted { pid, .. } => {
            pid.number() == wanted.number()
        }
        _ => false,
    }
}

/// Whether the outcome is an answer of the kernel to the process, or its end.
fn is_answer(outcome: &Outcome, wanted: Pid) -> bool
    ensures { result ≡ meant.is_answer_to wanted (outcome_of outcome.now) }
{
    match outcome {
        Outcome::Called { pid, .. } | Outcome::Exited { pid, .. } | Outcome::Faulted { pid, .. } =>
            { pid.number() == wanted.number() }
        _ => false,
    }
}

/// Whether it is a store that is waited for, and the process that runs is about to make it.
pub(crate) fn is_due(aim: &Aim, machine: &Machine) -> bool
    ensures { result ≡ meant.is_due aim.now machine.now }
{
    match aim {
        Aim::On(condition) => condition.is_at_store(machine),
        _ => false,
    }
}

/// Whether an event of which this came, and which left this machine, is what is waited for; before it the store that is
/// waited for was the next step, or not.
pub(crate) fn is_met(aim: &Aim, due: bool, outcome: &Outcome, machine: &Machine) -> bool
    ensures { result ≡ meant.meets_with aim.now due (outcome_of outcome.now) machine.now }
{
    match aim {
        Aim::Anything => true,
        Aim::Nothing => false,
        Aim::On(condition) => condition.is_met(due, outcome, machine),
        Aim::Answer(pid) => is_answer(outcome, *pid),
        Aim::Return { pid, pc, stack } => {
            has_returned(machine, *pid, *pc, *stack) | ends(outcome, *pid)
        }
        Aim::Outside { pid, first, last } => {
            stands_outside(machine, *pid, *first, *last) | ends(outcome, *pid)
        }
    }
}
