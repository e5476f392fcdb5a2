//! The calls that led a process to where it is, by their numbers: 0 is the call that was made last, 1 the one that made it,
//! and so on.
ghost use Rattle.std.specs.Prelude.{◌≡◌, ◌<◌, IfOk, length, map, slice_get};
ghost use Rattle.dwarf.specs.AllFrames.{frames_seen};
ghost use Rattle.kcall_core.specs.Observers.{registers_of};
ghost use Rattle.xv_report.specs.Numbered as meant;
ghost use Rattle.xv_report.specs.Unwound.{frames_known};

use crate::callers::{CALLERS_MAX, Callers, callers_with};
use crate::sources::ProgramSource;
use crate::unwinding::{
    Activation, Calls, caller_by, caller_in_ra, frames_known, innermost, register_of,
};
use dwarf::{FrameTable, rules_at};
use rv64i_core::Regs;
use std::alloc::{AllocError, Global};
use xk_base::Pid;
use xv_machine::Machine;

/// A function that was called and hasn't returned, as it is told by its number.
#[derive(Clone, Copy)]
pub struct NumberedCall {
    /// The address at which it goes on.
    pub pc: u64,
    /// What a table of call frames tells of it; `None` if none does.
    pub activation: Option<Activation>,
    /// Whether it is a guess that there is such a call.
    pub is_guess: bool,
}

impl NumberedCall {
    ghost use Rattle.std.specs.Prelude.{◌≡◌};
    ghost use Rattle.xv_report.specs.Numbered as meant;

    /// What it has in a register, by its DWARF number (RISC-V ABIs, "DWARF Register Numbers"); `None` if that isn't known:
    /// a function that it called may have used the register.
    pub fn register(&self, register: u64) -> Option<u64>
        ensures { result ≡ meant.register_in self.now register }
    {
        match self.activation {
            Some(activation) => register_of(&activation, register),
            None => None,
        }
    }
}

/// How many calls are guessed: as many as there are frames; without any the one in ra.
fn guessed_count(callers: &Callers) -> usize
    ensures { result ≡ length (meant.guessed_returns callers.now) }
{
    let frames = callers.frames.as_slice();
    if !frames.is_empty() {
        return frames.len();
    }
    match callers.ra {
        Some(_) => 1,
        None => 0,
    }
}

/// The address in ra, if the call in it is the first one.
fn in_ra(callers: &Callers, place: usize) -> Option<u64>
    ensures { result ≡ meant.in_ra callers.now.ra place }
{
    if place == 0 { callers.ra } else { None }
}

/// The return address of a guessed call, from the last call on.
fn guessed_return(callers: &Callers, place: usize) -> Option<u64>
    ensures { result ≡ slice_get (meant.guessed_returns callers.now) place }
{
    let frames = callers.frames.as_slice();
    if frames.is_empty() {
        return in_ra(callers, place);
    }
    frames.get(place).copied()
}

impl Calls {
    ghost use Rattle.std.specs.Prelude.{◌≡◌, length, slice_get};
    ghost use Rattle.xv_report.specs.Numbered as meant;

    /// How many calls are told.
    pub fn count(&self) -> usize
        ensures { result ≡ length (meant.returns_of self.now) }
    {
        match self {
            Calls::Known(addresses) => addresses.len(),
            Calls::FromRa(addresses) => addresses.len(),
            Calls::Guessed(callers) => guessed_count(callers),
        }
    }

    /// The address to which the call at a place returns, from the last one on; `None` if there are fewer.
    pub fn return_at(&self, place: usize) -> Option<u64>
        ensures { result ≡ slice_get (meant.returns_of self.now) place }
    {
        match self {
            Calls::Known(addresses) => addresses.as_slice().get(place).copied(),
            Calls::FromRa(addresses) => addresses.as_slice().get(place).copied(),
            Calls::Guessed(callers) => guessed_return(callers, place),
        }
    }
}

/// The call so many calls before a function's, by the rules of tables.
fn ancestor(
    machine: &Machine,
    pid: Pid,
    tables: &[FrameTable],
    function: &Activation,
    number: usize,
) -> Option<Activation>
    ensures { result ≡ meant.ancestor number (map frames_seen tables.now) machine.now.world.state pid function.now }
{
    if number == 0 {
        return Some(*function);
    }
    let Some(rules) = rules_at(tables, function.at) else {
        return None;
    };
    let Some(caller) = caller_by(machine, pid, function, &rules) else {
        return None;
    };
    ancestor(machine, pid, tables, &caller, number - 1)
}

/// A call that is told by a table, if it tells it.
fn told(activation: Option<Activation>, is_guess: bool) -> Option<NumberedCall>
    ensures { result ≡ meant.told is_guess activation }
{
    match activation {
        Some(activation) => Some(NumberedCall {
            pc: activation.pc,
            activation: Some(activation),
            is_guess,
        }),
        None => None,
    }
}

/// A call that is guessed to return to an address, if there is one.
fn guessed(address: Option<u64>) -> Option<NumberedCall>
    ensures { result ≡ meant.guessed address }
{
    match address {
        Some(address) => Some(NumberedCall {
            pc: address,
            activation: None,
            is_guess: true,
        }),
        None => None,
    }
}

/// The call at a place of those that led a process to where it is which no table of call frames tells.
fn guessed_at(machine: &Machine, pid: Pid, regs: &Regs, place: usize) -> Option<NumberedCall>
    ensures { result ≡ meant.guessed_at place machine.now.world.state pid regs.now }
{
    let callers = callers_with(machine, pid, regs);
    guessed(guessed_return(&callers, place))
}

/// The call at a place of those that led a live process with these registers to where it is, from the last one on.
fn caller_at_place(
    machine: &Machine,
    pid: Pid,
    tables: &[FrameTable],
    regs: &Regs,
    place: usize,
) -> Option<NumberedCall>
    requires { place < CALLERS_MAX }
    ensures { result ≡ meant.caller_at place (map frames_seen tables.now) machine.now.world.state pid regs.now }
{
    let function = innermost(regs);
    if rules_at(tables, function.at).is_some() {
        return told(ancestor(machine, pid, tables, &function, place + 1), false);
    }
    match caller_in_ra(machine, pid, tables, &function) {
        Some(caller) => told(ancestor(machine, pid, tables, &caller, place), true),
        None => guessed_at(machine, pid, regs, place),
    }
}

/// The call of a number of a live process with these registers.
fn numbered(
    machine: &Machine,
    pid: Pid,
    tables: &[FrameTable],
    regs: &Regs,
    number: usize,
) -> Option<NumberedCall>
    ensures { result ≡ meant.numbered number (map frames_seen tables.now) machine.now.world.state pid regs.now }
{
    if number == 0 {
        return told(Some(innermost(regs)), false);
    }
    if number > CALLERS_MAX {
        return None;
    }
    caller_at_place(machine, pid, tables, regs, number - 1)
}

/// The call of a number of a live process, by what is known of its program's source: 0 is the call that was made last,
/// and [`CALLERS_MAX`] the greatest number that may be there. `None` if there are fewer calls, and for any other pid.
///
/// Call N goes on at the address at place N - 1 of those that [`calls_of`](crate::calls_of) tells, the first of which is at
/// place 0: `calls_by_numbers` of [`laws`](crate::laws) says so. The table of call frames is read anew each time.
///
/// # Errors
///
/// The host has too little memory for the table.
pub fn call_numbered(
    alloc: Global,
    machine: &Machine,
    pid: Pid,
    source: &ProgramSource<'_>,
    number: usize,
) -> Result<Option<NumberedCall>, AllocError>
    ensures { IfOk result (λ call. call ≡ meant.call_of number (frames_known source.now.symbols.now) machine.now.world.state pid (registers_of machine.now.world.state pid)) }
{
    let Some(regs) = machine.registers(pid) else {
        return Ok(None);
    };
    let tables = frames_known(alloc, source.symbols)?;
    Ok(numbered(machine, pid, tables.as_slice(), &regs, number))
}
