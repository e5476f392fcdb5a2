//! Processes, and what they wait for.
use crate::names::{call_name, program_name};
use crate::sources::ProgramSource;
use crate::text::place::{Instruction, Name, Place, Who};
use crate::waits::{Wait, waits_for};
use crate::waking::wakers;
use std::fmt;
use xk_base::{Fd, Pid};
use xv_machine::{Call, Machine, ProcessState};
use xv_session::{Session, next_step};

/// Processes by their numbers: `process 2`, `processes 1, 2 and 3`.
#[derive(Clone, Copy)]
struct Listed<'a>(&'a [u32]);

impl<'a> fmt::Display for Listed<'a> {
    fn fmt<W: fmt::Write>(&self, f: &mut fmt::Formatter<W>) -> fmt::Result {
        let pids = self.0;
        f.write_str(if pids.len() == 1 {
            "process "
        } else {
            "processes "
        })?;
        for (place, pid) in pids.iter().enumerate() {
            if place > 0 {
                let last = place + 1 == pids.len();
                f.write_str(if last { " and " } else { ", " })?;
            }
            write!(f, "{pid}")?;
        }
        Ok(())
    }
}

/// The call in which a process sleeps, and on what: `read on descriptor 0, the read end of a pipe`.
#[derive(Clone, Copy)]
pub struct Asleep<'a>(pub &'a Wait);

/// A call on a descriptor, and what the descriptor is on.
fn write_on<W: fmt::Write>(
    call: &str,
    fd: Fd,
    target: &str,
    f: &mut fmt::Formatter<W>,
) -> fmt::Result {
    let fd = fd.number();
    write!(f, "{call} on descriptor {fd}, {target}")
}

impl<'a> fmt::Display for Asleep<'a> {
    fn fmt<W: fmt::Write>(&self, f: &mut fmt::Formatter<W>) -> fmt::Result {
        match *self.0 {
            Wait::Until { tick } => write!(f, "sleep, until tick {tick}"),
            Wait::Child => f.write_str("wait, for a child to end"),
            Wait::PipeBytes { fd, .. } => write_on("read", fd, "the read end of a pipe", f),
            Wait::PipeRoom { fd, .. } => write_on("write", fd, "the write end of a pipe", f),
            Wait::Keys { fd } => write_on("read", fd, "the console", f),
            Wait::Sending { fd } => write_on("write", fd, "the console", f),
        }
    }
}

/// A process: its number, its program, and what it does.
///
/// `3 wc  sleeps in read on descriptor 0, the read end of a pipe`
#[derive(Clone, Copy)]
pub struct ProcessLine<'a> {
    pub session: &'a Session,
    pub pid: Pid,
}

impl<'a> fmt::Display for ProcessLine<'a> {
    fn fmt<W: fmt::Write>(&self, f: &mut fmt::Formatter<W>) -> fmt::Result {
        let pid = self.pid.number();
        write!(f, "{pid}")?;
        if let Some(name) = program_name(self.session, self.pid) {
            let name = Name(name);
            write!(f, " {name}")?;
        }
        f.write_str("  ")?;
        write_state(self.session.machine(), self.pid, f)
    }
}

/// The call that a process is in, if it has a name.
fn write_call<W: fmt::Write>(number: i32, f: &mut fmt::Formatter<W>) -> fmt::Result {
    match call_name(number) {
        Some(name) => write!(f, ", in {name}"),
        None => Ok(()),
    }
}

/// What a live process does that doesn't sleep.
fn write_awake<W: fmt::Write>(
    runs: bool,
    marked: bool,
    call: Option<Call>,
    f: &mut fmt::Formatter<W>,
) -> fmt::Result {
    f.write_str(if runs { "runs" } else { "may run" })?;
    if marked {
        f.write_str(", and is to be killed")?;
    }
    match call {
        Some(call) => write_call(call.number, f),
        None => Ok(()),
    }
}

/// The parent of a process: `process 3, its parent,`.
#[derive(Clone, Copy)]
struct Parent(Option<Pid>);

impl fmt::Display for Parent {
    fn fmt<W: fmt::Write>(&self, f: &mut fmt::Formatter<W>) -> fmt::Result {
        match self.0 {
            Some(pid) => {
                let pid = pid.number();
                write!(f, "process {pid}, its parent,")
            }
            None => f.write_str("its parent"),
        }
    }
}

/// What a process does.
fn write_state<W: fmt::Write>(
    machine: &Machine,
    pid: Pid,
    f: &mut fmt::Formatter<W>,
) -> fmt::Result {
    if let Some(wait) = waits_for(machine, pid) {
        let asleep = Asleep(&wait);
        return write!(f, "sleeps in {asleep}");
    }
    match machine.process(pid) {
        None => f.write_str("is no process"),
        Some(ProcessState::Zombie { parent, status }) => {
            let parent = Parent(parent);
            write!(
                f,
                "has ended with status {status}, and {parent} has not waited for it"
            )
        }
        Some(ProcessState::Live { asleep: true, .. }) => f.write_str("sleeps"),
        Some(ProcessState::Live { marked, call, .. }) => {
            let runs = match machine.current() {
                Some(current) => current.number() == pid.number(),
                None => false,
            };
            write_awake(runs, marked, call, f)
        }
    }
}

/// A process that has not ended, and why it does not go on.
///
/// `process 3 (wc) sleeps in read on descriptor 0, the read end of a pipe: processes 1 and 3 can write, and 3 is the
/// reader itself`. Of one that may run its next instruction is told.
#[derive(Clone, Copy)]
pub struct WaitLine<'a> {
    pub session: &'a Session,
    pub pid: Pid,
    /// What is known of the source of its program.
    pub source: ProgramSource<'a>,
}

impl<'a> fmt::Display for WaitLine<'a> {
    fn fmt<W: fmt::Write>(&self, f: &mut fmt::Formatter<W>) -> fmt::Result {
        let who = Who {
            pid: self.pid,
            program: program_name(self.session, self.pid),
        };
        write!(f, "{who} ")?;
        let machine = self.session.machine();
        match waits_for(machine, self.pid) {
            Some(wait) => {
                let asleep = Asleep(&wait);
                write!(f, "sleeps in {asleep}")?;
                write_wakers(machine, self.pid, &wait, f)
            }
            None => {
                write_state(machine, self.pid, f)?;
                write_next(machine, self.pid, self.source, f)
            }
        }
    }
}

/// Where a live process stands that doesn't sleep.
fn write_next<W: fmt::Write>(
    machine: &Machine,
    pid: Pid,
    source: ProgramSource<'_>,
    f: &mut fmt::Formatter<W>,
) -> fmt::Result {
    let Some(step) = next_step(machine, pid) else {
        return Ok(());
    };
    let next = Instruction {
        place: Place {
            address: step.regs.pc(),
            source,
        },
        word: step.word,
    };
    write!(f, ", at {next}")
}

/// Who could wake a sleeper.
fn write_wakers<W: fmt::Write>(
    machine: &Machine,
    sleeper: Pid,
    wait: &Wait,
    f: &mut fmt::Formatter<W>,
) -> fmt::Result {
    let pids = wakers(machine, sleeper, wait);
    let pids = pids.as_slice();
    match wait {
        Wait::Until { .. } => {
            let clock = machine.clock();
            write!(f, "; the clock is at {clock}")
        }
        Wait::Keys { .. } => f.write_str(": a line of keys wakes it"),
        Wait::Sending { .. } => f.write_str(": a byte that is sent wakes it"),
        Wait::Child => write_children(pids, f),
        Wait::PipeBytes { .. } => write_holders(pids, sleeper, "write", "reader", f),
        Wait::PipeRoom { .. } => write_holders(pids, sleeper, "read", "writer", f),
    }
}

/// Which children that live a process has that waits for one.
fn write_children<W: fmt::Write>(pids: &[u32], f: &mut fmt::Formatter<W>) -> fmt::Result {
    if pids.is_empty() {
        return f.write_str(": it has no child that lives");
    }
    let listed = Listed(pids);
    let children = if pids.len() == 1 {
        "is its child"
    } else {
        "are its children"
    };
    write!(f, ": {listed} {children}")
}

/// That only the sleeper itself holds the other end of its pipe.
fn write_alone<W: fmt::Write>(
    own: u32,
    verb: &str,
    role: &str,
    f: &mut fmt::Formatter<W>,
) -> fmt::Result {
    write!(f, ": only process {own} can {verb}, the {role} itself")
}

/// Who holds the other end of the pipe on which a process sleeps.
fn write_holders<W: fmt::Write>(
    pids: &[u32],
    sleeper: Pid,
    verb: &str,
    role: &str,
    f: &mut fmt::Formatter<W>,
) -> fmt::Result {
    let own = sleeper.number();
    if pids.is_empty() {
        return write!(f, ": nobody can {verb}");
    }
    if let [only] = pids {
        if *only == own {
            return write_alone(own, verb, role, f);
        }
    }
    let listed = Listed(pids);
    write!(f, ": {listed} can {verb}")?;
    if pids.contains(&own) {
        write!(f, ", and {own} is the {role} itself")?;
    }
    Ok(())
}
