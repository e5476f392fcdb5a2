//! Variables of a program in C: the rows of `debug_info`.
//!
//! The host gives the file of the program's tables, as `NAME.debug`, and says which call of the process it asks about.
//! A text is laid into the host's room, if it fits, and its length is told.
ghost use Rattle.std.specs.Prelude.{◌≡◌};
ghost use Rattle.kcall_core.specs.Observers.{byte_at};
ghost use Rattle.xv_page.specs.Booting.{held};
ghost use Rattle.xv_page.specs.Named.{both, pid_named};
ghost use Rattle.xv_page.specs.Reports.{TellsOf};
ghost use Rattle.xv_page.specs.Variables.{scope_named, register_among, base_of};

use crate::answers::Answer;
use crate::named::pid_named;
use crate::reports::laid;
use debug_info::{
    Frame, InfoError, Program, Sight, Variable, globals, locals_at, read_tables, rows_text,
};
use std::alloc::{AllocError, Global};
use xk_base::Pid;
use xv_machine::Machine;
use xv_session::Session;

/// A call of a process that the host asks about.
#[repr(C)]
#[derive(Clone, Copy)]
pub struct CallAsked {
    /// Where it stands.
    pub address: u64,
    /// Where its caller's part of the stack begins.
    pub base: u64,
    /// 1 if that is known.
    pub has_base: u32,
}

/// A register of a call that is known: x0 to x31 by their numbers.
#[repr(C)]
#[derive(Clone, Copy)]
pub struct RegisterKnown {
    pub number: u64,
    pub value: u64,
}

/// Which variables are asked for.
#[derive(Clone, Copy)]
pub(crate) enum Scope {
    /// Those of the function of the call.
    Locals,
    /// Those of the program.
    Globals,
}

/// What is seen of a process in a call.
#[derive(Clone, Copy)]
pub(crate) struct ProcessSeen<'a> {
    machine: &'a Machine,
    pid: Pid,
    registers: &'a [RegisterKnown],
}

impl<'a> Sight for ProcessSeen<'a> {
    ghost bytes = { λ s address. byte_at s.machine.now.world.state s.pid address };

    ghost registers = { λ s number. register_among s.registers.now number };

    fn byte(&self, address: u64) -> Option<u8> {
        self.machine.peek(self.pid, address)
    }

    fn register(&self, number: u64) -> Option<u64> {
        for known in self.registers {
            if known.number == number {
                return Some(known.value);
            }
        }
        None
    }
}

/// The variables of this number: 0 those of the function, 1 those of the program.
fn scope_named(number: u32) -> Option<Scope>
    ensures { result ≡ scope_named number }
{
    match number {
        0 => Some(Scope::Locals),
        1 => Some(Scope::Globals),
        _ => None,
    }
}

/// The call that the host asks about.
fn frame_of(asked: &CallAsked) -> Frame
    ensures address { result.address ≡ asked.now.address }
    ensures base { result.base ≡ base_of asked.now.has_base asked.now.base }
{
    let base = if asked.has_base == 0 {
        None
    } else {
        Some(asked.base)
    };
    Frame {
        address: asked.address,
        base,
    }
}

/// The variables of a scope.
fn variables_of(
    alloc: Global,
    program: &Program,
    scope: Scope,
    frame: &Frame,
) -> Result<Vec<Variable>, AllocError> {
    match scope {
        Scope::Locals => locals_at(alloc, program, frame.address),
        Scope::Globals => globals(alloc, program),
    }
}

/// The rows of the variables of a scope; if the tables are refused, an exclamation mark and why.
fn rows_of(
    alloc: Global,
    seen: &ProcessSeen,
    scope: Scope,
    frame: &Frame,
    file: &[u8],
) -> Result<String, AllocError> {
    let tables = match read_tables(alloc, file) {
        Ok(tables) => tables,
        Err(InfoError::Memory) => return Err(AllocError),
        Err(error) => return format!(in alloc; "!{error}"),
    };
    let program = Program::of(&tables, file);
    let found = variables_of(alloc, &program, scope, frame)?;
    rows_text(alloc, &program, found.as_slice(), frame, seen)
}

/// The pid and the scope of these numbers.
fn asked_of(pid: u32, scope: u32) -> Option<(Pid, Scope)>
    ensures { result ≡ both (pid_named pid) (scope_named scope) }
{
    let pid = pid_named(pid)?;
    let scope = scope_named(scope)?;
    Some((pid, scope))
}

/// Tells the variables of a call of a process, a row for each, as [`rows_text`] has them, by the tables in the file of
/// its program: of scope 0 those of the call's function, of 1 those of the program. If the tables are refused, the text
/// is an exclamation mark and why. `Unknown`: the pid is none that a process can have, or there is no such scope. A pid
/// that no process has now has no memory: values that are in memory are told as not there.
#[inline(never)]
pub fn xv_page_variables(
    alloc: Global,
    session: &Option<Box<Session>>,
    pid: u32,
    scope: u32,
    asked: &CallAsked,
    registers: &[RegisterKnown],
    file: &[u8],
    told: &mut u64,
    room: &mut [u8],
) -> Answer
    ensures { TellsOf (both (pid_named pid) (scope_named scope)) (held session.now) result (told.old, room.old) (told.new, room.new) }
{
    let Some(session) = session else {
        return Answer::NotBooted;
    };
    let Some((pid, scope)) = asked_of(pid, scope) else {
        return Answer::Unknown;
    };
    let seen = ProcessSeen {
        machine: session.machine(),
        pid,
        registers,
    };
    let frame = frame_of(asked);
    laid(rows_of(alloc, &seen, scope, &frame, file), told, room)
}
