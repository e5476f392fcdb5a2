//! What the call of the process that runs was given.
ghost use Rattle.std.specs.Prelude.{◌≡◌};
ghost use Rattle.kernel_spec.specs.views.Words.{c_int};
ghost use Rattle.kcall_core.specs.Observers.{descriptor_of};
ghost use Rattle.grade_submissions.specs.Givens.{argument_of, taken, end_thing, thing_of, thing_on, target_on, target_named, target_given, byte_or_none, byte_given, given_to, nothing_given, given_in};
ghost use Rattle.grade_submissions.specs.Pipes.{made_of};

use crate::pipes::MadePipes;
use call_reasons::{Asked, asked_of, c_int};
use grade_rules::{Given, Thing};
use kernel_calls::numbers::WRITE;
use kernel_calls::{Argument, ArgumentKind, KernelCall};
use xk_base::limits::NOFILE;
use xk_base::{Fd, Pid};
use xv_machine::{Descriptor, End, Machine, Target};

// The argument of the call of a number at a place, counted from 0, if it takes one there.
fn argument_of(number: i32, place: usize) -> Option<Argument>
    ensures { result ≡ argument_of number place }
{
    let call = KernelCall::of_number(number)?;
    match call.arguments().get(place) {
        Some(argument) => Some(*argument),
        None => None,
    }
}

// What a call takes of a register: a C int, or an address; of an argument that it doesn't take, 0.
fn taken(argument: Option<Argument>, register: u64) -> i64
    ensures { result ≡ taken argument register }
{
    let Some(argument) = argument else {
        return 0;
    };
    match argument.kind() {
        ArgumentKind::Int | ArgumentKind::Descriptor => i64::from(c_int(register)),
        _ => register.cast_signed(),
    }
}

// The end of a pipe, as a thing.
fn end_thing(end: End) -> Thing
    ensures { result ≡ end_thing end }
{
    match end {
        End::Reading => Thing::ReadEnd,
        End::Writing => Thing::WriteEnd,
    }
}

// What an open file stands for, as a thing.
fn thing_of(target: &Target) -> Thing
    ensures { result ≡ thing_of target.now }
{
    match *target {
        Target::Console => Thing::Console,
        Target::Program { .. } => Thing::File,
        Target::Pipe { end, .. } => end_thing(end),
    }
}

// What is named, as a thing.
fn thing_on(target: &Option<Target>) -> Thing
    ensures { result ≡ thing_on target.now }
{
    match target {
        Some(target) => thing_of(target),
        None => Thing::Nothing,
    }
}

// What a descriptor of a live process names.
fn target_at(machine: &Machine, pid: Pid, fd: Fd) -> Option<Target>
    ensures { result ≡ target_on (descriptor_of machine.now.world.state pid fd) }
{
    match machine.descriptor(pid, fd) {
        Some(Descriptor { open_file, .. }) => Some(open_file.target),
        None => None,
    }
}

// What a number names as a descriptor of a process.
fn target_named(machine: &Machine, pid: Pid, number: i32) -> Option<Target>
    ensures { result ≡ target_named machine.now.world.state pid number }
{
    if number < 0 || number as usize >= NOFILE {
        return None;
    }
    target_at(machine, pid, Fd::new(number as u8))
}

// What the first argument of a call names, if that is a descriptor.
fn target_given(
    machine: &Machine,
    pid: Pid,
    argument: Option<Argument>,
    register: u64,
) -> Option<Target>
    ensures { result ≡ target_given machine.now.world.state pid argument register }
{
    match argument {
        Some(Argument::Descriptor) => target_named(machine, pid, c_int(register)),
        _ => None,
    }
}

// A byte as a number, or -1 without one.
fn byte_or_none(byte: Option<u8>) -> i64
    ensures { result ≡ byte_or_none byte }
{
    match byte {
        Some(byte) => i64::from(byte),
        None => -1,
    }
}

// The first byte that a write was given; -1 for any other call, and if there is no such byte.
fn byte_given(machine: &Machine, pid: Pid, call: &Asked) -> i64
    ensures { result ≡ byte_given machine.now.world.state pid call.now }
{
    if call.number == WRITE && c_int(call.a2) >= 1 {
        return byte_or_none(machine.peek(pid, call.a1));
    }
    -1
}

// What the call of a process was given.
fn given_to(machine: &Machine, pipes: &MadePipes, pid: Pid, call: &Asked) -> Given
    ensures { result ≡ given_to (made_of pipes.now) machine.now.world.state pid call.now }
{
    let first = argument_of(call.number, 0);
    let target = target_given(machine, pid, first, call.a0);
    Given {
        first: taken(first, call.a0),
        second: taken(argument_of(call.number, 1), call.a1),
        third: taken(argument_of(call.number, 2), call.a2),
        byte: byte_given(machine, pid, call),
        on: thing_on(&target),
        pipe: pipes.number_on(&target),
    }
}

/// What is told where no call is.
pub(crate) fn nothing_given() -> Given
    ensures { result ≡ nothing_given }
{
    Given {
        first: 0,
        second: 0,
        third: 0,
        byte: -1,
        on: Thing::Nothing,
        pipe: 0,
    }
}

/// What the call of the process that runs was given: of the call that it is in, or else of the one that its next
/// instruction begins, if that is an ECALL. If nobody runs, it tells of nothing. The pipes are those that the run has made.
pub(crate) fn given_now(machine: &Machine, pipes: &MadePipes) -> Given
    ensures { result ≡ given_in (made_of pipes.now) machine.now.world }
{
    let Some(pid) = machine.current() else {
        return nothing_given();
    };
    match asked_of(machine, pid) {
        Some(call) => given_to(machine, pipes, pid, &call),
        None => nothing_given(),
    }
}
