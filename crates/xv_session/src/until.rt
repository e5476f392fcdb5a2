//! Running on up to what is waited for.
ghost use Rattle.std.specs.Prelude.{◌≡◌, ◌&&◌, Some, option_map, replicate};
ghost use Rattle.kernel_spec.specs.runs.Run as runs;
ghost use Rattle.xv_machine.specs.Events.{outcome_of};
ghost use Rattle.xv_session.specs.Follows.{Follows};
ghost use Rattle.xv_session.specs.Steps.{IsSound};
ghost use Rattle.kcall_core.specs.Observers.{process_at};
ghost use Rattle.xv_session.specs.Until.{makes_step, is_on_call, faults, ends, is_outside_calls, is_before, stands_at, is_done};
ghost use Rattle.xv_session.specs.Until.{instruction_in, puts_at, is_storing, store_awaited, meets_with, Searched};

use crate::followed::Followed;
use crate::looking::next_step;
use rv64i_core::{Instr, decode, store_width};
use xk_base::Pid;
use xv_machine::{Machine, Outcome, ProcessState};

/// What a search among Runs waits for.
#[derive(Clone, Copy)]
pub enum Condition {
    /// The process of this pid makes a step.
    StepOf(Pid),
    /// A step of the kernel call of this number is made: it is done, or it waits.
    Call(i32),
    /// The process of this pid runs, and stands before the instruction at this address: it is in no kernel call.
    At { pid: Pid, pc: u64 },
    /// A process is gone by a fault.
    Fault,
    /// A process is gone, by a call, a kill or a fault.
    Exit,
    /// A process stores to this address of its memory: the store is done, and one of its bytes lies there.
    StoreTo(u64),
}

/// What a search came to.
#[derive(Drop)]
pub struct Search {
    /// How many Runs were sent.
    pub sent: u32,
    /// Whether the last of them is what was waited for.
    pub met: bool,
    /// What came of the last of them; `None` where none was sent.
    pub last: Option<Outcome>,
}

/// Whether the process made a step.
fn makes_step(outcome: &Outcome, pid: Pid) -> bool
    ensures { result ≡ makes_step pid (outcome_of outcome.now) }
{
    match outcome {
        Outcome::Stepped { pid: own }
        | Outcome::Called { pid: own, .. }
        | Outcome::Blocked { pid: own, .. }
        | Outcome::Exited { pid: own, .. }
        | Outcome::Faulted { pid: own, .. } => own.number() == pid.number(),
        _ => false,
    }
}

/// Whether a step of the kernel call of this number was made.
fn is_on_call(outcome: &Outcome, wanted: i32) -> bool
    ensures { result ≡ is_on_call wanted (outcome_of outcome.now) }
{
    match outcome {
        Outcome::Called { number, .. } | Outcome::Blocked { number, .. } => *number == wanted,
        _ => false,
    }
}

/// Whether an instruction could not be done.
fn faults(outcome: &Outcome) -> bool
    ensures { result ≡ faults (outcome_of outcome.now) }
{
    match outcome {
        Outcome::Faulted { .. } => true,
        _ => false,
    }
}

/// Whether a process is gone.
fn ends(outcome: &Outcome) -> bool
    ensures { result ≡ ends (outcome_of outcome.now) }
{
    match outcome {
        Outcome::Exited { .. } | Outcome::Faulted { .. } => true,
        _ => false,
    }
}

/// Whether the process lives, and is in no kernel call.
fn is_outside_calls(machine: &Machine, pid: Pid) -> bool
    ensures { result ≡ is_outside_calls (process_at machine.now.world pid) }
{
    match machine.process(pid) {
        Some(ProcessState::Live { call: None, .. }) => true,
        _ => false,
    }
}

/// Whether the process stands before the instruction at this address: its pc is there, and it is in no kernel call,
/// whose answer it hasn't got yet.
pub fn is_before(machine: &Machine, pid: Pid, pc: u64) -> bool
    ensures { result ≡ is_before pc machine.now.world pid }
{
    match machine.registers(pid) {
        Some(regs) => regs.pc() == pc && is_outside_calls(machine, pid),
        None => false,
    }
}

/// Whether the process runs, and stands before the instruction at this address.
fn stands_at(machine: &Machine, pid: Pid, pc: u64) -> bool
    ensures { result ≡ stands_at pid pc machine.now.world }
{
    let Some(current) = machine.current() else {
        return false;
    };
    if current.number() != pid.number() {
        return false;
    }
    is_before(machine, pid, pc)
}

/// Whether an instruction was done.
pub(crate) fn is_done(outcome: &Outcome) -> bool
    ensures { result ≡ is_done (outcome_of outcome.now) }
{
    match outcome {
        Outcome::Stepped { .. } => true,
        _ => false,
    }
}

/// Whether an instruction is a store, of whose bytes, from its own address on, one lies at this one.
pub(crate) fn puts_at(address: u64, instr: Option<Instr>, own: Option<u64>) -> bool
    ensures { result ≡ puts_at address instr own }
{
    let Some(Instr::Store { op, .. }) = instr else {
        return false;
    };
    let Some(own) = own else {
        return false;
    };
    own <= address && address - own < store_width(op).bytes() as u64
}

/// The instruction that a word spells.
pub(crate) fn instruction_in(word: Option<u32>) -> Option<Instr>
    ensures { result ≡ instruction_in word }
{
    decode(word?)
}

/// Whether the process that runs is about to store to this address.
fn is_storing(address: u64, machine: &Machine) -> bool
    ensures { result ≡ is_storing address machine.now.world }
{
    let Some(pid) = machine.current() else {
        return false;
    };
    let Some(step) = next_step(machine, pid) else {
        return false;
    };
    puts_at(address, instruction_in(step.word), step.address)
}

impl Condition {
    /// Whether it waits for a store, and the process that runs is about to make it.
    pub fn is_at_store(&self, machine: &Machine) -> bool
        ensures { result ≡ store_awaited self.now machine.now }
    {
        match self {
            Condition::StoreTo(address) => is_storing(*address, machine),
            _ => false,
        }
    }

    /// Whether the event of which this came, and which left this machine, is what is waited for; before it the store
    /// that is waited for was the next step, or not.
    pub fn is_met(&self, stores: bool, outcome: &Outcome, machine: &Machine) -> bool
        ensures { result ≡ meets_with self.now stores (outcome_of outcome.now) machine.now }
    {
        match self {
            Condition::StepOf(pid) => makes_step(outcome, *pid),
            Condition::Call(number) => is_on_call(outcome, *number),
            Condition::At { pid, pc } => stands_at(machine, *pid, *pc),
            Condition::Fault => faults(outcome),
            Condition::Exit => ends(outcome),
            Condition::StoreTo(_) => stores && is_done(outcome),
        }
    }
}

/// Sends Run, one by one, up to the first that is what is waited for, `most` at most.
pub(crate) fn run_until(followed: &mut Followed, most: u32, condition: &Condition) -> Search
    requires { IsSound followed.old.running }
    ensures searched { Searched condition.now most result.met (option_map outcome_of result.last) followed.old.running followed.new.running result.sent }
    ensures follows { Follows (replicate result.sent runs.Run) followed.old followed.new }
{
    for before in 0..most {
        let stores = condition.is_at_store(&followed.running.machine);
        let outcome = followed.run_once();
        let met = condition.is_met(stores, &outcome, &followed.running.machine);
        let sent = before + 1;
        if met {
            return Search {
                sent,
                met,
                last: Some(outcome),
            };
        }
        if sent == most {
            return Search {
                sent,
                met: false,
                last: Some(outcome),
            };
        }
    }
    Search {
        sent: 0,
        met: false,
        last: None,
    }
}
