//! The calls that led a process to where it is, by the table of call frames that its program's compiler left (DWARF 5,
//! section 6.4).
ghost use Rattle.std.specs.Prelude.{◌≡◌, Some, ◌≤◌, ◌+◌, ◌++◌, IfOk, IfSome, IfNone, map, option_map};
ghost use Rattle.arrayvec.specs.ArrayVec.{array_vec_len};
ghost use Rattle.dwarf.specs.AllFrames.{frames_seen};
ghost use Rattle.kcall_core.specs.Observers.{registers_of};
ghost use Rattle.xv_report.specs.Unwound as meant;
ghost use Rattle.xv_report.specs.Unwound.{frames_known};
ghost use Rattle.xv_report.specs.Reports.{AreCallsOf, AreCallsWith};

use crate::callers::{
    CALLERS_MAX, Callers, FRAME_POINTER, RETURN_ADDRESS, callers_with, double_at, is_return,
};
use crate::hints::STACK_POINTER;
use crate::sources::ProgramSource;
use arrayvec::ArrayVec;
use dwarf::{Base, FrameRules, FrameTable, Rule, frame_tables, rules_at};
use elf_symbols::section_named;
use rv64i_core::Regs;
use std::alloc::{AllocError, Global};
use xk_base::{Pid, Reg};
use xv_machine::Machine;

/// A function that was called and hasn't returned, as far as it is known.
#[derive(Clone, Copy)]
pub struct Activation {
    /// The address at which it goes on.
    pub pc: u64,
    /// The address of the instruction that it is at: of the last function that was called the next one, of others their
    /// call.
    pub at: u64,
    /// Its stack pointer.
    pub sp: u64,
    /// Its s0, if it is known.
    pub s0: Option<u64>,
    /// Its return address, if that is still in ra.
    pub ra: Option<u64>,
}

/// How the calls are told that led a process to where it is.
#[derive(Drop)]
pub enum Calls {
    /// By the table of call frames of its program, from the last call on: where each returns to.
    Known(ArrayVec<u64, CALLERS_MAX>),
    /// No table has rules for the place, but one has for the call before the address in ra: that and those before it, from
    /// the last on. It is a guess, that the function has made no frame.
    FromRa(ArrayVec<u64, CALLERS_MAX>),
    /// No table has rules for either: a guess, by frame pointers and ra.
    Guessed(Callers),
}

/// The last function that was called in a process with these registers.
pub(crate) fn innermost(regs: &Regs) -> Activation
    ensures { result ≡ meant.innermost regs.now }
{
    Activation {
        pc: regs.pc(),
        at: regs.pc(),
        sp: regs.read(Reg::new(STACK_POINTER)),
        s0: Some(regs.read(Reg::new(FRAME_POINTER))),
        ra: Some(regs.read(Reg::new(RETURN_ADDRESS))),
    }
}

/// What a function has in a register, by its DWARF number (RISC-V ABIs, "DWARF Register Numbers"), if it is known.
pub(crate) fn register_of(function: &Activation, register: u64) -> Option<u64>
    ensures { result ≡ meant.register_of function.now register }
{
    if register == u64::from(RETURN_ADDRESS) {
        function.ra
    } else if register == u64::from(STACK_POINTER) {
        Some(function.sp)
    } else if register == u64::from(FRAME_POINTER) {
        function.s0
    } else {
        None
    }
}

/// Where the part of the stack of a function's caller begins.
fn cfa_by(function: &Activation, base: Base) -> Option<u64>
    ensures { result ≡ meant.cfa_by function.now base }
{
    match base {
        Base::Register { register, offset } => {
            let address = register_of(function, register)?;
            Some(address.wrapping_add_signed(offset))
        }
        Base::Unset | Base::Other => None,
    }
}

/// The eight bytes of a register that was kept at an address.
fn kept_at(machine: &Machine, pid: Pid, address: u64) -> Option<u64>
    ensures { result ≡ meant.kept_at machine.now.world.state pid address }
{
    if address % 8 == 0 {
        double_at(machine, pid, address)
    } else {
        None
    }
}

/// What a function's caller had in a register, by its rule: `now` is what the function has there.
fn value_by(
    machine: &Machine,
    pid: Pid,
    function: &Activation,
    cfa: u64,
    now: Option<u64>,
    rule: Rule,
) -> Option<u64>
    ensures { result ≡ meant.value_by machine.now.world.state pid function.now cfa now rule }
{
    match rule {
        Rule::Unset | Rule::SameValue => now,
        Rule::AtOffset(offset) => kept_at(machine, pid, cfa.wrapping_add_signed(offset)),
        Rule::InRegister(register) => register_of(function, register),
        Rule::Undefined | Rule::Other => None,
    }
}

/// Whether the caller's part of the stack lies above the function's. While the return address is in ra the function may
/// have none.
fn is_above(function: &Activation, cfa: u64) -> bool
    ensures { result ≡ meant.is_above function.now cfa }
{
    function.sp < cfa || (function.sp == cfa && function.ra.is_some())
}

/// The caller of a function, by the rules that hold at its instruction; `None` where they don't tell it, where the memory
/// isn't there, and where no call stands before the return address.
pub(crate) fn caller_by(
    machine: &Machine,
    pid: Pid,
    function: &Activation,
    rules: &FrameRules,
) -> Option<Activation>
    ensures { result ≡ meant.caller_by machine.now.world.state pid function.now (Some rules.now) }
{
    let cfa = cfa_by(function, rules.base)?;
    if !is_above(function, cfa) {
        return None;
    }
    let address = value_by(machine, pid, function, cfa, function.ra, rules.ra)?;
    if !is_return(machine, pid, address) {
        return None;
    }
    Some(Activation {
        pc: address,
        at: address - 4,
        sp: cfa,
        s0: value_by(machine, pid, function, cfa, function.s0, rules.s0),
        ra: None,
    })
}

/// Adds the return addresses from a function on, so many at most.
fn unwind(
    machine: &Machine,
    pid: Pid,
    tables: &[FrameTable],
    function: &Activation,
    most: usize,
    found: &mut ArrayVec<u64, CALLERS_MAX>,
)
    requires { array_vec_len found.old + most ≤ CALLERS_MAX }
    ensures { found.new.items ≡ found.old.items ++ meant.unwound_from most (map frames_seen tables.now) machine.now.world.state pid function.now }
{
    if most == 0 {
        return;
    }
    let Some(rules) = rules_at(tables, function.at) else {
        return;
    };
    let Some(caller) = caller_by(machine, pid, function, &rules) else {
        return;
    };
    found.push(caller.pc);
    unwind(machine, pid, tables, &caller, most - 1, found);
}

/// The frames of all functions of a program, by the bytes of an ELF file that has its tables for debuggers; none if it has
/// none. Which they are doesn't depend on the machine.
pub(crate) fn frames_known(alloc: Global, file: &[u8]) -> Result<Vec<FrameTable>, AllocError>
    ensures { IfOk result (λ v. map frames_seen v.items ≡ frames_known file.now) }
{
    match section_named(file, b".debug_frame") {
        Some(section) => frame_tables(alloc, section),
        None => frame_tables(alloc, &[]),
    }
}

/// The rules of a function that has made no frame.
fn frameless() -> FrameRules
    ensures { result ≡ meant.frameless }
{
    FrameRules {
        base: Base::Register {
            register: u64::from(STACK_POINTER),
            offset: 0,
        },
        ra: Rule::Unset,
        s0: Rule::Unset,
    }
}

/// The caller in ra of a function that is taken to have made no frame, if a table has rules for that call.
pub(crate) fn caller_in_ra(
    machine: &Machine,
    pid: Pid,
    tables: &[FrameTable],
    function: &Activation,
) -> Option<Activation>
    ensures { result ≡ meant.caller_in_ra (map frames_seen tables.now) machine.now.world.state pid function.now }
{
    let caller = caller_by(machine, pid, function, &frameless())?;
    if rules_at(tables, caller.at).is_some() {
        Some(caller)
    } else {
        None
    }
}

/// The return addresses of the function that was called last.
fn unwound(
    machine: &Machine,
    pid: Pid,
    tables: &[FrameTable],
    function: &Activation,
) -> ArrayVec<u64, CALLERS_MAX>
    ensures { result.items ≡ meant.unwound (map frames_seen tables.now) machine.now.world.state pid function.now }
{
    let mut found = ArrayVec::new();
    unwind(machine, pid, tables, function, CALLERS_MAX, &mut found);
    found
}

/// The return address to a caller, and those from it on.
fn unwound_after(
    machine: &Machine,
    pid: Pid,
    tables: &[FrameTable],
    caller: &Activation,
) -> ArrayVec<u64, CALLERS_MAX>
    ensures { result.items ≡ meant.unwound_after (map frames_seen tables.now) machine.now.world.state pid caller.now }
{
    let mut found = ArrayVec::new();
    found.push(caller.pc);
    unwind(machine, pid, tables, caller, CALLERS_MAX - 1, &mut found);
    found
}

/// The calls that led a live process with these registers to where it is, by the frames of all functions of its program.
fn calls_with(machine: &Machine, pid: Pid, tables: &[FrameTable], regs: &Regs) -> Calls
    ensures { AreCallsWith (map frames_seen tables.now) machine.now.world.state pid regs.now result }
{
    let function = innermost(regs);
    if rules_at(tables, function.at).is_some() {
        return Calls::Known(unwound(machine, pid, tables, &function));
    }
    match caller_in_ra(machine, pid, tables, &function) {
        Some(caller) => Calls::FromRa(unwound_after(machine, pid, tables, &caller)),
        None => Calls::Guessed(callers_with(machine, pid, regs)),
    }
}

/// The calls that led a live process to where it is, by what is known of its program's source; `None` for any other pid.
///
/// If the program has a table of call frames that has rules for the process's pc, the calls are followed by the table, as
/// long as it has rules for each, each caller's part of the stack lies above the one before, what was kept lies in the
/// process's memory, and a call stands right before the return address, [`CALLERS_MAX`] at most. The table is taken as
/// true. If it has none for the pc, but for the call before the address in ra, the function is taken to have made no
/// frame. Else they are those that [`callers_of`](crate::callers_of) tells. Both are a guess. The table is read anew each
/// time.
///
/// # Errors
///
/// The host has too little memory for the table.
pub fn calls_of(
    alloc: Global,
    machine: &Machine,
    pid: Pid,
    source: &ProgramSource<'_>,
) -> Result<Option<Calls>, AllocError>
    ensures some { IfOk result (λ told. IfSome told (AreCallsOf (frames_known source.now.symbols.now) machine.now.world.state pid)) }
    ensures none { IfOk result (λ told. IfNone told (registers_of machine.now.world.state pid ≡ None)) }
{
    let Some(regs) = machine.registers(pid) else {
        return Ok(None);
    };
    let tables = frames_known(alloc, source.symbols)?;
    Ok(Some(calls_with(machine, pid, tables.as_slice(), &regs)))
}
