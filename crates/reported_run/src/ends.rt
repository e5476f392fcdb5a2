//! Calls that are told once a process ends: kills, and growths that were refused.
ghost use Rattle.std.specs.Prelude.{◌≡◌, [], true, OnOk};
ghost use Rattle.kcall_core.specs.Observers.{process_at};
ghost use Rattle.reported_run.specs.Ends as meant;

use kernel_calls::numbers::{KILL, SBRK, SBRKLAZY};
use std::alloc::{AllocFailed, Global};
use xk_base::Pid;
use xv_machine::{Machine, ProcessState};
use xv_session::{Named, Session};

/// A kernel call that was made.
#[derive(Clone, Copy)]
pub(crate) struct CallMade {
    pub pid: Pid,
    /// The place of the program that the process ran.
    pub program: Option<usize>,
    /// The number of the call.
    pub number: i32,
    /// The address of its ECALL.
    pub at: u64,
}

/// A process that was killed, and the call that did it.
#[derive(Clone, Copy)]
pub(crate) struct Kill {
    pub victim: Pid,
    pub by: CallMade,
}

/// The kills of processes that are still there, and the last growth that each process was refused.
#[derive(Drop)]
pub(crate) struct Ends {
    kills: Vec<Kill>,
    refused: Vec<CallMade>,
    /// Whether there was memory for all of them.
    complete: bool,
}

// Whether the kill mark of a live process is set.
fn is_marked(state: &Option<ProcessState>) -> bool
    ensures { result ≡ meant.is_marked state.now }
{
    match state {
        Some(ProcessState::Live { marked, .. }) => *marked,
        _ => false,
    }
}

// The first kill of a process.
fn kill_of(kills: &[Kill], pid: Pid) -> Option<Kill>
    ensures { result ≡ meant.kill_of kills.now pid }
{
    let number = pid.number();
    kills
        .iter()
        .copied()
        .find(|kill| kill.victim.number() == number)
}

// Whether a process is marked, and these kills have none of it.
fn is_newly_killed(machine: &Machine, kills: &[Kill], pid: Pid) -> bool
    ensures { result ≡ meant.is_newly_killed machine.now.world kills.now pid }
{
    is_marked(&machine.process(pid)) && kill_of(kills, pid).is_none()
}

// The first of these processes that is so.
fn newly_killed(machine: &Machine, kills: &[Kill], names: &[Named]) -> Option<Pid>
    ensures { result ≡ meant.newly_killed machine.now.world kills.now names.now }
{
    let named = names
        .iter()
        .find(|named| is_newly_killed(machine, kills, named.pid))?;
    Some(named.pid)
}

// Adds a kill by this call, if there is a victim.
fn add_kill(
    kills: &mut Vec<Kill>,
    by: &CallMade,
    victim: Option<Pid>,
) -> Result<(), AllocFailed<Kill>>
    ensures { OnOk result (kills.new.items ≡ meant.with_kill kills.old.items by.now victim) }
{
    match victim {
        Some(victim) => kills.push(Kill { victim, by: *by }),
        None => Ok(()),
    }
}

// Whether a call has killed a process.
fn is_kill(number: i32, value: i64) -> bool
    ensures { result ≡ meant.is_kill number value }
{
    number == KILL && value == 0
}

// Whether a call is one of sbrk or sbrklazy that was refused.
fn is_refused(number: i32, value: i64) -> bool
    ensures { result ≡ meant.is_refused number value }
{
    value < 0 && (number == SBRK || number == SBRKLAZY)
}

// Leaves the kills of other processes.
fn forget_kills(kills: &mut Vec<Kill>, pid: Pid)
    ensures { kills.new.items ≡ meant.other_kills pid kills.old.items }
{
    let number = pid.number();
    kills.retain(|kill| kill.victim.number() != number);
}

// Leaves the calls of other processes.
fn forget_calls(calls: &mut Vec<CallMade>, pid: Pid)
    ensures { calls.new.items ≡ meant.other_calls pid calls.old.items }
{
    let number = pid.number();
    calls.retain(|call| call.pid.number() != number);
}

// Keeps a call as the last growth that its process was refused.
fn add_refused(calls: &mut Vec<CallMade>, call: &CallMade) -> Result<(), AllocFailed<CallMade>>
    ensures { OnOk result (calls.new.items ≡ meant.with_refused calls.old.items call.now) }
{
    forget_calls(calls, call.pid);
    calls.push(*call)
}

impl Ends {
    /// None.
    pub fn new(alloc: Global) -> Ends
        ensures kills { result.kills.items ≡ [] }
        ensures refused { result.refused.items ≡ [] }
        ensures complete { result.complete ≡ true }
    {
        Ends {
            kills: Vec::new(alloc),
            refused: Vec::new(alloc),
            complete: true,
        }
    }

    /// Notes a call that was made last in a session, and its answer.
    pub fn note_call(&mut self, session: &Session, call: &CallMade, value: i64)
        ensures complete { self.new.complete ≡ true → self.old.complete ≡ true }
        ensures kills { self.new.complete ≡ true → self.new.kills.items ≡ meant.kills_after session.now call.now value self.old.kills.items }
        ensures refused { self.new.complete ≡ true → self.new.refused.items ≡ meant.refused_after call.now value self.old.refused.items }
    {
        if is_kill(call.number, value) {
            self.note_kill(session, call);
        } else if is_refused(call.number, value) {
            self.note_refused(call);
        }
    }

    // Notes a kill by this call.
    fn note_kill(&mut self, session: &Session, call: &CallMade)
        ensures complete { self.new.complete ≡ true → self.old.complete ≡ true }
        ensures kills { self.new.complete ≡ true → self.new.kills.items ≡ meant.with_kill self.old.kills.items call.now (meant.newly_killed session.now.machine.world self.old.kills.items session.now.names) }
        ensures refused { self.new.refused ≡ self.old.refused }
    {
        let victim = newly_killed(session.machine(), self.kills.as_slice(), session.names());
        if add_kill(&mut self.kills, call, victim).is_err() {
            self.complete = false;
        }
    }

    // Notes that this call was refused.
    fn note_refused(&mut self, call: &CallMade)
        ensures complete { self.new.complete ≡ true → self.old.complete ≡ true }
        ensures kills { self.new.kills ≡ self.old.kills }
        ensures refused { self.new.complete ≡ true → self.new.refused.items ≡ meant.with_refused self.old.refused.items call.now }
    {
        if add_refused(&mut self.refused, call).is_err() {
            self.complete = false;
        }
    }

    /// The kill of a process, if it was killed; `None` if there was too little memory to note all kills.
    pub fn kill_of(&self, pid: Pid) -> Option<Kill>
        ensures { result ≡ meant.if_complete self.now.complete (meant.kill_of self.now.kills.items pid) }
    {
        if self.complete {
            kill_of(self.kills.as_slice(), pid)
        } else {
            None
        }
    }

    /// The last growth that a process was refused; `None` if there was too little memory to note all of them.
    pub fn refused_of(&self, pid: Pid) -> Option<CallMade>
        ensures { result ≡ meant.if_complete self.now.complete (meant.refused_of self.now.refused.items pid) }
    {
        if self.complete {
            refused_of(self.refused.as_slice(), pid)
        } else {
            None
        }
    }

    /// A process is gone.
    pub fn forget(&mut self, pid: Pid)
        ensures kills { self.new.kills.items ≡ meant.other_kills pid self.old.kills.items }
        ensures refused { self.new.refused.items ≡ meant.other_calls pid self.old.refused.items }
        ensures complete { self.new.complete ≡ self.old.complete }
    {
        forget_kills(&mut self.kills, pid);
        forget_calls(&mut self.refused, pid);
    }
}

// The first of these calls that a process has made.
fn refused_of(calls: &[CallMade], pid: Pid) -> Option<CallMade>
    ensures { result ≡ meant.refused_of calls.now pid }
{
    let number = pid.number();
    calls
        .iter()
        .copied()
        .find(|call| call.pid.number() == number)
}
