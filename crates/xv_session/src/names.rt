//! Which program each live process runs.
ghost use Rattle.std.specs.Prelude.{◌≡◌, map};
ghost use Rattle.kernel_spec.specs.rows.Buffers.{no_slashes};
ghost use Rattle.kernel_spec.specs.views.Programs.{place_of};
ghost use Rattle.kernel_spec.specs.views.State.{named_file};
ghost use Rattle.xk_base.specs.declared.limits.TheConstants.{MAXPATH};
ghost use Rattle.xv_machine.specs.Events.{event_of};
ghost use Rattle.xv_session.specs.Names.{text_in, asked_in, asked_for, child_of, gone_on_with};

use arrayvec::ArrayVec;
use kernel_calls::numbers::{EXEC, FORK};
use std::marker::Model;
use xk_base::limits::{MAXPATH, NPROC, PID_MAX};
use xk_base::{Pid, Program, Reg};
use xv_machine::{Event, Machine, Outcome};

/// A process, and the program that it runs, by its place among the programs of the machine.
#[derive(Clone, Copy, PartialEq, Eq)]
pub struct Named {
    pub pid: Pid,
    pub place: usize,
}

impl Default for Named {
    /// What fills room that no process has.
    fn default() -> Named {
        Named {
            pid: Pid::new(1),
            place: 0,
        }
    }
}

/// The register of a kernel call's first argument: a0.
const FIRST_ARGUMENT: u8 = 10;

/// A name without its leading slashes.
fn without_slashes(name: &[u8]) -> &[u8]
    ensures { result.now ≡ no_slashes name.now }
{
    let Some(first) = name.iter().position(|byte| *byte != b'/') else {
        return &[];
    };
    &name[first..]
}

/// The place of the first program with this name.
fn place_named(programs: &[Program], name: &[u8]) -> Option<usize>
    ensures { result ≡ place_of name.now (map named_file programs.now) }
{
    programs
        .iter()
        .position(|program| program.name.as_slice() == name)
}

/// The text at an address of a process: its bytes up to the first that is zero, or that isn't there.
fn text_at(machine: &Machine, pid: Pid, address: u64) -> ArrayVec<u8, MAXPATH>
    ensures { result.items ≡ text_in MAXPATH machine.now.world.state pid address }
{
    let mut text = ArrayVec::new();
    let mut at = address;
    'bytes: while text.len() < MAXPATH {
        let byte = machine.peek(pid, at).unwrap_or(0);
        if byte == 0 {
            return text;
        }
        text.push(byte);
        at = at.wrapping_add(1);
    }
    text
}

/// The place of the program that the process that runs names by its first argument.
fn asked_now(machine: &Machine) -> Option<usize>
    ensures { result ≡ asked_in machine.now.world }
{
    let pid = machine.current()?;
    let regs = machine.registers(pid)?;
    let path = text_at(machine, pid, regs.read(Reg::new(FIRST_ARGUMENT)));
    place_named(machine.programs(), without_slashes(path.as_slice()))
}

/// The place of the program that may be asked for by an event: by events other than Run none is, so nothing is read then.
pub(crate) fn asked_for(machine: &Machine, event: Event) -> Option<usize>
    ensures { result ≡ asked_for (event_of event) machine.now.world }
{
    match event {
        Event::Run => asked_now(machine),
        Event::Tick | Event::Key(_) | Event::Send => None,
    }
}

/// The child that a fork with this answer made.
fn child_of(value: i64) -> Option<Pid>
    ensures { result ≡ child_of value }
{
    if value < 1 {
        return None;
    }
    if value > i64::from(PID_MAX) {
        return None;
    }
    Some(Pid::new(value as u32))
}

/// The program that an exec with this answer went on with.
fn gone_on_with(value: i64, asked: Option<usize>) -> Option<usize>
    ensures { result ≡ gone_on_with value asked }
{
    if value < 0 { None } else { asked }
}

/// The programs of the live processes. There is room for all of them, since each has a slot of its own.
#[derive(Drop)]
pub struct Names {
    held: ArrayVec<Named, NPROC>,
}

impl Model for Names {
    ghost use Rattle.std.specs.Prelude.{List};
    ghost use Rattle.xv_session.specs.declared.names.Named.{Named};
    ghost use Rattle.xv_session.specs.NameCodes.{names_code};

    ghost Value = { List Named };

    ghost coded = { names_code };

    ghost view = { λ n. n.held.items };
}

impl Names {
    ghost use Rattle.std.specs.Prelude.{◌≡◌, ◌≤◌, length, map};
    ghost use Rattle.xk_base.specs.declared.limits.TheConstants.{NPROC};
    ghost use Rattle.kernel_spec.specs.views.State.{named_file};
    ghost use Rattle.xv_machine.specs.Events.{outcome_of};
    ghost use Rattle.xv_session.specs.Names.{place_in, without, with_place, with_child, first_names, after_call, names_after};

    /// Process 1 runs the program called `init`.
    pub fn at_boot(programs: &[Program]) -> Names
        ensures { result ≡ first_names (map named_file programs.now) }
    {
        let mut names = Names {
            held: ArrayVec::new(),
        };
        names.put(Pid::new(1), place_named(programs, b"init".as_slice()));
        names
    }

    /// The live processes, with the programs that they run.
    pub fn as_slice(&self) -> &[Named]
        ensures { result.now ≡ self.now }
    {
        self.held.as_slice()
    }

    /// The place of the program that a process runs.
    pub fn place(&self, pid: Pid) -> Option<usize>
        ensures { result ≡ place_in pid self.now }
    {
        let named = self
            .held
            .as_slice()
            .iter()
            .find(|named| named.pid.number() == pid.number())?;
        Some(named.place)
    }

    /// A process is gone.
    fn forget(&mut self, pid: Pid)
        ensures { self.new ≡ without pid self.old }
    {
        let number = pid.number();
        self.held.retain(|named| named.pid.number() != number);
    }

    /// A process runs the program at a place from now on, if it runs any.
    fn put(&mut self, pid: Pid, place: Option<usize>)
        requires { length (with_place pid place self.old) ≤ NPROC }
        ensures { self.new ≡ with_place pid place self.old }
    {
        let Some(place) = place else {
            return;
        };
        self.forget(pid);
        self.held.push(Named { pid, place });
    }

    /// A process has forked: its child runs what it runs.
    fn bear(&mut self, parent: Pid, child: Option<Pid>)
        requires { length (with_child parent child self.old) ≤ NPROC }
        ensures { self.new ≡ with_child parent child self.old }
    {
        let Some(child) = child else {
            return;
        };
        self.put(child, self.place(parent));
    }

    /// A call of a process is done.
    fn call(&mut self, asked: Option<usize>, pid: Pid, number: i32, value: i64)
        requires { length (after_call asked pid number value self.old) ≤ NPROC }
        ensures { self.new ≡ after_call asked pid number value self.old }
    {
        if number == FORK {
            self.bear(pid, child_of(value));
        } else if number == EXEC {
            self.put(pid, gone_on_with(value, asked));
        }
    }

    /// This came of an event, before which the process that runs asked for the program at this place.
    pub fn note(&mut self, asked: Option<usize>, outcome: &Outcome)
        requires { length (names_after asked (outcome_of outcome.now) self.old) ≤ NPROC }
        ensures { self.new ≡ names_after asked (outcome_of outcome.now) self.old }
    {
        match outcome {
            Outcome::Called { pid, number, value } => self.call(asked, *pid, *number, *value),
            Outcome::Exited { pid, .. } | Outcome::Faulted { pid, .. } => self.forget(*pid),
            _ => {}
        }
    }
}
