//! How watched bytes are used: by a load, by a store, by a kernel call, or by whatever changes them.
ghost use Rattle.std.specs.Prelude.{◌≡◌, Some, IfSome, false, true};
ghost use Rattle.kernel_spec.specs.steps.Own.{Called};
ghost use Rattle.rv64i_core.specs.Step as step;
ghost use Rattle.xv_machine.specs.Events.{outcome_of};
ghost use Rattle.xv_session.specs.Until.{instruction_in};
ghost use Rattle.gdb_target.specs.LetRun.{lets};
ghost use Rattle.gdb_target.specs.Touches as meant;

use crate::let_run::{LetRun, if_let};
use crate::places::{goes_on, is_place, starts};
use crate::played::Played;
use crate::points::{Points, Watched};
use crate::target::{Stopped, Target};
use gdb_packets::StopReason;
use kernel_calls::numbers::{READ, WRITE};
use rv64i_core::{Instr, LoadOp, Width, decode, store_width};
use xk_base::{Pid, Reg};
use xv_machine::Outcome;
use xv_session::{NextStep, next_step};

/// The number of the register a1, in which a kernel call has its second argument (RISC-V Calling Conventions, "Integer
/// Register Convention").
const A1: u8 = 11;

/// The bytes that an instruction or a kernel call loads or stores.
#[derive(Clone, Copy)]
pub(crate) struct Access {
    /// The address of the first of them.
    pub address: u64,
    /// How many they are.
    pub count: u64,
    /// Whether they are loaded; if not, they are stored.
    pub loads: bool,
}

/// A process that may end a kernel call by the next event.
#[derive(Clone, Copy)]
pub(crate) struct Caller {
    pub pid: Pid,
    /// The second argument of the call: of read and of write, the address of the first byte.
    pub buffer: u64,
}

/// How bytes that are watched were used, with the address from which on they are watched.
#[derive(Clone, Copy)]
pub(crate) enum Use {
    /// They became others.
    Change(u64),
    /// One of them was loaded.
    Read(u64),
    /// One of them was loaded or stored, or they became others.
    Access(u64),
}

impl Use {
    /// The reason for which its process stops.
    pub fn reason(&self) -> StopReason
        ensures { result ≡ meant.reason_of_use self.now }
    {
        match self {
            Use::Change(address) => StopReason::Watch(*address),
            Use::Read(address) => StopReason::ReadWatch(*address),
            Use::Access(address) => StopReason::AccessWatch(*address),
        }
    }
}

/// A use of bytes that are watched.
#[derive(Clone, Copy)]
pub(crate) struct Touch {
    /// The process whose bytes they are.
    pub pid: Pid,
    pub how: Use,
}

impl Touch {
    /// The stop that tells it.
    pub fn stopped(&self) -> Stopped
        ensures reason { result.reason ≡ meant.reason_of_use self.now.how }
        ensures pid { result.pid ≡ self.now.pid }
    {
        Stopped {
            reason: self.how.reason(),
            pid: self.pid,
        }
    }
}

/// How many bytes a load takes.
#[tactic(auto, unfolding(rv64i_core::specs::Instructions::load_width))]
fn load_width(op: LoadOp) -> Width
    ensures { result ≡ step.load_width op }
{
    match op {
        LoadOp::Lb | LoadOp::Lbu => Width::Byte,
        LoadOp::Lh | LoadOp::Lhu => Width::HalfWord,
        LoadOp::Lw | LoadOp::Lwu => Width::Word,
        LoadOp::Ld => Width::DoubleWord,
    }
}

/// The bytes that the instruction of a step loads or stores; `None` if it does neither.
fn access_by(step: &NextStep) -> Option<Access>
    ensures { result ≡ meant.access_by (instruction_in step.now.word) step.now.address }
{
    let instr = decode(step.word?)?;
    let address = step.address?;
    match instr {
        Instr::Load { op, .. } => Some(Access::load(address, load_width(op).bytes() as u64)),
        Instr::Store { op, .. } => Some(Access::store(address, store_width(op).bytes() as u64)),
        _ => None,
    }
}

impl Access {
    /// So many bytes that are loaded, from an address on.
    fn load(address: u64, count: u64) -> Access
        ensures { result ≡ record { address = address; count = count; loads = true } }
    {
        Access {
            address,
            count,
            loads: true,
        }
    }

    /// So many bytes that are stored, from an address on.
    fn store(address: u64, count: u64) -> Access
        ensures { result ≡ record { address = address; count = count; loads = false } }
    {
        Access {
            address,
            count,
            loads: false,
        }
    }

    /// Whether the byte at this address is one of them.
    fn has(&self, address: u64) -> bool
        ensures { result ≡ meant.has self.now address }
    {
        self.address <= address && address - self.address < self.count
    }
}

/// Whether an access has one of the bytes that are watched together.
fn is_used(access: &Access, watched: &Watched) -> bool
    ensures { result ≡ meant.is_used access.now watched.now }
{
    for place in 0..watched.length {
        if access.has(watched.address.wrapping_add(place)) {
            return true;
        }
    }
    false
}

/// Of the first of these of which one byte is used, the address from which on they are watched.
fn first_used(access: &Access, all: &[Watched]) -> Option<u64>
    ensures { result ≡ meant.first_used access.now all.now }
{
    let watched = all.iter().find(|watched| is_used(access, *watched))?;
    Some(watched.address)
}

/// The address from which on bytes are watched for reads of which a load takes one.
fn read_by(access: &Access, points: &Points) -> Option<u64>
    ensures { result ≡ meant.read_by access.now points.now }
{
    if !access.loads {
        return None;
    }
    first_used(access, points.read.as_slice())
}

/// What is told of an access: that bytes were read that are watched for reads, or else that bytes were used that are
/// watched for reads and writes.
fn use_by(access: &Access, points: &Points) -> Option<Use>
    ensures is { result ≡ meant.use_by access.now points.now }
    ensures may { IfSome result (λ how. meant.IsByInstruction how) }
{
    if let Some(address) = read_by(access, points) {
        return Some(Use::Read(address));
    }
    let address = first_used(access, points.accessed.as_slice())?;
    Some(Use::Access(address))
}

/// What may be told of the next event.
#[derive(Clone, Copy)]
pub(crate) struct Ahead {
    /// How its instruction uses watched bytes, if one is done.
    touch: Option<Touch>,
    /// Who may end a kernel call by it.
    caller: Option<Caller>,
}

/// The process, if it is one of the program.
fn of_program(run: &Played, program: usize, pid: Option<Pid>) -> Option<Pid>
    ensures { result ≡ meant.of_program run.now program pid }
{
    let pid = pid?;
    if is_place(run.session.program_of(pid), program) {
        return Some(pid);
    }
    None
}

/// The process of the program that does an instruction by the next event.
fn doer(run: &Played, program: usize) -> Option<Pid>
    ensures { result ≡ meant.doer run.now program }
{
    of_program(run, program, starts(run))
}

/// How the instruction that a process does next uses watched bytes.
fn touch_of(run: &Played, points: &Points, pid: Pid) -> Option<Touch>
    ensures is { result ≡ meant.touch_of run.now points.now (Some pid) }
    ensures may { IfSome result (λ touch. meant.IsByInstruction touch.how) }
    ensures pid { IfSome result (λ touch. touch.pid ≡ pid) }
{
    let step = next_step(run.machine(), pid)?;
    let access = access_by(&step)?;
    let how = use_by(&access, points)?;
    Some(Touch { pid, how })
}

/// This use, if it came of an instruction that was done.
fn if_done(touch: Option<Touch>, outcome: &Outcome) -> Option<Touch>
    ensures { result ≡ meant.if_done touch (outcome_of outcome.now) }
{
    match outcome {
        Outcome::Stepped { .. } => touch,
        _ => None,
    }
}

/// The bytes that a kernel call of this number has used by its end, if it has used so many.
fn buffer_of(address: u64, number: i32, count: u64) -> Option<Access>
    ensures { result ≡ meant.buffer_of address number count }
{
    if number == WRITE {
        return Some(Access::load(address, count));
    }
    if number == READ {
        return Some(Access::store(address, count));
    }
    None
}

/// The bytes that a kernel call has used that is over, and has answered this; `None` if it was refused.
fn buffer_used(address: u64, number: i32, answered: i64) -> Option<Access>
    ensures { result ≡ meant.buffer_used address number answered }
{
    if answered < 0 {
        return None;
    }
    buffer_of(address, number, answered as u64)
}

/// How a kernel call has used watched bytes that is over, and has answered this.
fn use_of_answer(points: &Points, caller: &Caller, number: i32, answered: i64) -> Option<Touch>
    ensures { result ≡ meant.use_of_answer points.now caller.now (Called number answered) }
{
    let access = buffer_used(caller.buffer, number, answered)?;
    let how = use_by(&access, points)?;
    Some(Touch {
        pid: caller.pid,
        how,
    })
}

/// How the kernel call has used watched bytes that ended by the event of which this came, if one did.
fn use_by_caller(points: &Points, caller: &Option<Caller>, outcome: &Outcome) -> Option<Touch>
    ensures { result ≡ meant.use_by_caller points.now caller.now (outcome_of outcome.now) }
{
    let Some(caller) = caller else {
        return None;
    };
    match outcome {
        Outcome::Called { number, value, .. } => use_of_answer(points, caller, *number, *value),
        _ => None,
    }
}

/// The process that makes a step by the next event.
fn mover(run: &Played) -> Option<Pid>
    ensures { result ≡ meant.mover run.now }
{
    let pid = run.machine().current()?;
    if goes_on(run) {
        return Some(pid);
    }
    None
}

/// The process, with the second argument of the call that it is in or begins; `None` if it doesn't live.
fn caller_of(run: &Played, pid: Option<Pid>) -> Option<Caller>
    ensures is { result ≡ meant.caller_of run.now pid }
    ensures pid { IfSome result (λ caller. pid ≡ Some caller.pid) }
{
    let pid = pid?;
    let regs = run.machine().registers(pid)?;
    Some(Caller {
        pid,
        buffer: regs.read(Reg::new(A1)),
    })
}

impl Target {
    /// What is told of the next event, if by it an instruction is done: how a process of the program that is let run uses
    /// watched bytes.
    fn touch_ahead(&self, let_run: LetRun) -> Option<Touch>
        ensures is { result ≡ meant.touch_ahead let_run self.now }
        ensures may { IfSome result (λ touch. meant.IsByInstruction touch.how) }
        ensures lets { IfSome result (λ touch. lets let_run touch.pid ≡ true) }
    {
        let pid = if_let(let_run, doer(&self.run, self.program))?;
        touch_of(&self.run, &self.points, pid)
    }

    /// The process of the program that is let run, and may end a kernel call by the next event.
    fn caller_ahead(&self, let_run: LetRun) -> Option<Caller>
        ensures is { result ≡ meant.caller_ahead let_run self.now }
        ensures lets { IfSome result (λ caller. lets let_run caller.pid ≡ true) }
    {
        let mover = of_program(&self.run, self.program, mover(&self.run));
        caller_of(&self.run, if_let(let_run, mover))
    }

    /// What may be told of the next event, of processes of the program that are let run.
    pub(crate) fn ahead(&self, let_run: &LetRun) -> Ahead
        ensures is { result ≡ meant.ahead let_run.now self.now }
        ensures may { IfSome result.touch (λ touch. meant.IsByInstruction touch.how) }
        ensures touch { IfSome result.touch (λ touch. lets let_run.now touch.pid ≡ true) }
        ensures caller { IfSome result.caller (λ caller. lets let_run.now caller.pid ≡ true) }
    {
        let touch = self.touch_ahead(*let_run);
        let caller = self.caller_ahead(*let_run);
        Ahead { touch, caller }
    }
}

/// What is told of the event of which this came: how its instruction used watched bytes, or the kernel call that ended by
/// it.
pub(crate) fn told_of(points: &Points, ahead: &Ahead, outcome: &Outcome) -> Option<Touch>
    ensures { result ≡ meant.told_of points.now ahead.now (outcome_of outcome.now) }
{
    match if_done(ahead.touch, outcome) {
        Some(touch) => Some(touch),
        None => use_by_caller(points, &ahead.caller, outcome),
    }
}
