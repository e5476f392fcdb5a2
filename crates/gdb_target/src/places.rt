//! What there is to see at a place of a run.
ghost use Rattle.std.specs.Prelude.{◌≡◌, Some, None, true, IfSome, IsSome, is_some};
ghost use Rattle.std.specs.List.{list_all};
ghost use Rattle.kernel_spec.specs.views.State.{live};
ghost use Rattle.kernel_spec.specs.views.Words.{is_this};
ghost use Rattle.gdb_target.specs.LetRun.{lets};
ghost use Rattle.gdb_target.specs.Standing.{Starts, StandsAt, begins, does_instruction, goes_on, is_place};
ghost use Rattle.gdb_target.specs.Standing.{stander, stands_at, starter};
ghost use Rattle.gdb_target.specs.Touches.{IsByChange};

use crate::let_run::{LetRun, lets};
use crate::played::{Played, is_run};
use crate::points::{Points, Watched};
use crate::threads::is_live;
use crate::touches::{Touch, Use};
use kcall_core::ProcessState;
use std::alloc::{AllocError, Global};
use xk_base::Pid;
use xv_machine::Machine;

/// Whether a process that is what this says does an instruction when it runs.
fn does_instruction(state: &Option<ProcessState>) -> bool
    ensures { result ≡ does_instruction state.now }
{
    match state {
        Some(
            ProcessState::Live {
                marked,
                call: None,
                ..
            },
        ) => !*marked,
        _ => false,
    }
}

/// Whether a Run lets whoever runs go on: the next event is one, and the machine hasn't halted.
pub(crate) fn goes_on(run: &Played) -> bool
    ensures { result ≡ goes_on run.now }
{
    is_run(run.next().event) && run.machine().halted().is_none()
}

/// Whether the process does an instruction by the next event, if it runs.
fn begins(run: &Played, pid: Pid) -> bool
    ensures { result ≡ begins run.now pid }
{
    goes_on(run) && does_instruction(&run.machine().process(pid))
}

/// The process that does an instruction by the next event; `None` where the next event is none of an instruction.
pub(crate) fn starts(run: &Played) -> Option<Pid>
    ensures starts { IfSome result (λ pid. Starts run.now pid) }
    ensures exact { result ≡ starter run.now }
{
    let pid = run.machine().current()?;
    if begins(run, pid) {
        return Some(pid);
    }
    None
}

/// Whether it is this process that does an instruction by the next event.
pub(crate) fn is_starter(run: &Played, wanted: Pid) -> bool
    ensures { result ≡ is_this wanted (starter run.now) }
{
    match starts(run) {
        Some(pid) => pid.number() == wanted.number(),
        None => false,
    }
}

/// Whether this is the place of the program.
pub(crate) fn is_place(place: Option<usize>, program: usize) -> bool
    ensures { result ≡ is_place program place }
{
    match place {
        Some(place) => place == program,
        None => false,
    }
}

/// Whether the process runs this program, and its pc is at a breakpoint.
fn stands_at(run: &Played, points: &Points, program: usize, pid: Pid) -> bool
    ensures { result ≡ stands_at run.now program points.now.breakpoints.items pid }
{
    let Some(regs) = run.machine().registers(pid) else {
        return false;
    };
    points.is_breakpoint(regs.pc()) && is_place(run.session.program_of(pid), program)
}

/// The process of this program that stands at a breakpoint, and does the instruction there by the next event.
#[tactic(auto, using(crate::proofs::Stood::stands_there))]
pub(crate) fn at_breakpoint(run: &Played, points: &Points, program: usize) -> Option<Pid>
    ensures stands { IfSome result (λ pid. StandsAt run.now program points.now.breakpoints.items pid) }
    ensures exact { result ≡ stander run.now program points.now.breakpoints.items }
{
    let pid = starts(run)?;
    if stands_at(run, points, program, pid) {
        return Some(pid);
    }
    None
}

/// What stood in the bytes that are watched, of a process.
#[derive(Drop)]
pub(crate) struct Glimpse {
    of: Option<Pid>,
    /// In those that are watched for changes.
    bytes: Vec<Option<u8>>,
    /// In those that are watched for reads and writes.
    accessed: Vec<Option<u8>>,
}

impl Glimpse {
    /// What stood in no bytes.
    fn nothing(alloc: Global) -> Glimpse {
        Glimpse {
            of: None,
            bytes: Vec::new(alloc),
            accessed: Vec::new(alloc),
        }
    }

    /// Whether each of the bytes is there that are watched for changes.
    pub fn is_whole(&self) -> bool
        ensures { result ≡ list_all (λ byte. is_some byte) self.now.bytes.items }
    {
        self.bytes.iter().all(|byte| byte.is_some())
    }
}

/// Adds what stands in bytes that are watched together.
fn push_bytes(
    machine: &Machine,
    pid: Pid,
    watched: &Watched,
    bytes: &mut Vec<Option<u8>>,
) -> Result<(), AllocError> {
    for place in 0..watched.length {
        bytes.push(machine.peek(pid, watched.address.wrapping_add(place)))?;
    }
    Ok(())
}

/// What stands in all of these bytes.
fn bytes_now(
    alloc: Global,
    machine: &Machine,
    pid: Pid,
    all: &[Watched],
) -> Result<Vec<Option<u8>>, AllocError> {
    let mut bytes = Vec::new(alloc);
    for watched in all {
        push_bytes(machine, pid, watched, &mut bytes)?;
    }
    Ok(bytes)
}

/// What stands in the bytes that are watched, of the process that runs; nothing where none of the program runs.
pub(crate) fn watched_now(
    alloc: Global,
    run: &Played,
    points: &Points,
    program: usize,
) -> Result<Glimpse, AllocError> {
    let machine = run.machine();
    let Some(pid) = machine.current() else {
        return Ok(Glimpse::nothing(alloc));
    };
    if points.sees_no_change() || run.session.program_of(pid) != Some(program) {
        return Ok(Glimpse::nothing(alloc));
    }
    Ok(Glimpse {
        of: Some(pid),
        bytes: bytes_now(alloc, machine, pid, points.watched())?,
        accessed: bytes_now(alloc, machine, pid, points.accessed.as_slice())?,
    })
}

/// Whether other bytes stand from an address on.
fn differs(machine: &Machine, pid: Pid, address: u64, bytes: &[Option<u8>]) -> bool {
    for place in 0..bytes.len() {
        if machine.peek(pid, address.wrapping_add(place as u64)) != bytes[place] {
            return true;
        }
    }
    false
}

/// This use, if its process is let run.
pub(crate) fn if_told(change: Option<Touch>, let_run: LetRun) -> Option<Touch>
    ensures same { IfSome result (λ told. change ≡ Some told) }
    ensures lets { IfSome result (λ told. lets let_run told.pid ≡ true) }
{
    let change = change?;
    if lets(let_run, change.pid) {
        return Some(change);
    }
    None
}

/// The first of these in which other bytes stand now, by the address from which on they are watched.
fn first_changed(
    machine: &Machine,
    pid: Pid,
    all: &[Watched],
    before: &[Option<u8>],
) -> Option<u64> {
    let mut rest = before;
    for watched in all {
        let count = watched.length.min(rest.len() as u64) as usize;
        let (bytes, others) = rest.split_at(count);
        if differs(machine, pid, watched.address, bytes) {
            return Some(watched.address);
        }
        rest = others;
    }
    None
}

/// The first change of bytes that are watched for changes, or else of those that are watched for reads and writes, of the
/// process that was glimpsed, if it lives, and the machine hasn't halted.
pub(crate) fn changed(
    run: &Played,
    points: &Points,
    program: usize,
    before: &Glimpse,
) -> Option<Touch>
    ensures goes_on { IfSome result (λ _. run.now.session.machine.world.turns.halted ≡ None) }
    ensures lives { IfSome result (λ change. IsSome (live run.now.session.machine.world.state change.pid)) }
    ensures may { IfSome result (λ change. IsByChange change.how) }
{
    let pid = before.of?;
    let machine = run.machine();
    let None = machine.halted() else {
        return None;
    };
    if !is_live(machine, pid) || run.session.program_of(pid) != Some(program) {
        return None;
    }
    if let Some(address) = first_changed(machine, pid, points.watched(), before.bytes.as_slice()) {
        return Some(Touch {
            pid,
            how: Use::Change(address),
        });
    }
    let accessed = points.accessed.as_slice();
    let address = first_changed(machine, pid, accessed, before.accessed.as_slice())?;
    Some(Touch {
        pid,
        how: Use::Access(address),
    })
}
