//! What a line asks of a program in C: variables and types, by the compiler's tables (`c_expressions`).
ghost use Rattle.std.specs.Prelude.{◌≡◌, IfOk, option_map, string_bytes};
ghost use Rattle.c_expressions.specs.Asked.{asked_in};
ghost use Rattle.kcall_core.specs.Observers.{byte_at};
ghost use Rattle.xv_debug.specs.Chosen.{address_in, registers_in};
ghost use Rattle.xv_debug.specs.ToldOfC.{IsToldIn, IsToldOf, IsToldSeen, is_of_c_alone, text_told};
ghost use Rattle.xv_debug.specs.Variables.{register_held};

use crate::choosing::{Chosen, SeenCall, call_seen};
use crate::focus::focus;
use c_expressions::{Asked, Scene, answer};
use debug_info::Sight;
use rv64i_core::Regs;
use std::alloc::{AllocError, Global};
use xk_base::{Pid, Reg};
use xv_machine::Machine;
use xv_report::{ProgramSource, Sources, source_of};
use xv_session::Session;

/// The integer registers, x0 to x31.
const REGISTERS: u64 = 32;

/// What is told of what is asked of a program in C, and in which call.
#[derive(Drop)]
pub(crate) struct ToldInCall {
    /// The call; `None` if it isn't there.
    pub call: Option<SeenCall>,
    /// `None` if nothing is told, as of what is no variable.
    pub text: Option<String>,
}

/// What is seen of a process in a call.
#[derive(Clone, Copy)]
struct ProcessSeen<'a> {
    machine: &'a Machine,
    pid: Pid,
    /// The registers of the call that was made last.
    regs: Regs,
    call: SeenCall,
}

/// What a register has, x0 to x31 by their numbers.
fn register_held(regs: &Regs, number: u64) -> Option<u64>
    ensures { result ≡ register_held regs.now number }
{
    if number < REGISTERS {
        Some(regs.read(Reg::new(number as u8)))
    } else {
        None
    }
}

/// Where a call stands.
fn address_in(regs: &Regs, call: &SeenCall) -> u64
    ensures { result ≡ address_in regs.now call.now }
{
    match call {
        SeenCall::Last => regs.pc(),
        SeenCall::Caller(call) => call.pc.saturating_sub(1),
    }
}

impl<'a> Sight for ProcessSeen<'a> {
    ghost bytes = { λ s address. byte_at s.machine.now.world.state s.pid address };

    ghost registers = { λ s number. registers_in s.regs s.call number };

    fn byte(&self, address: u64) -> Option<u8> {
        self.machine.peek(self.pid, address)
    }

    fn register(&self, number: u64) -> Option<u64> {
        match self.call {
            SeenCall::Last => register_held(&self.regs, number),
            SeenCall::Caller(call) => call.register(number),
        }
    }
}

/// What is told in a call of a live process of what is asked.
fn told_seen(
    alloc: Global,
    session: &Session,
    source: &ProgramSource<'_>,
    pid: Pid,
    call: SeenCall,
    asked: Asked,
) -> Result<Option<String>, AllocError>
    ensures { IfOk result (λ text. IsToldSeen source.now session.now pid call asked.entry (option_map string_bytes text)) }
{
    let machine = session.machine();
    let Some(regs) = machine.registers(pid) else {
        return Ok(None);
    };
    let seen = ProcessSeen {
        machine,
        pid,
        regs,
        call,
    };
    let scene = Scene {
        file: source.symbols,
        address: address_in(&regs, &call),
        sight: &seen,
    };
    let text = answer(alloc, &scene, asked)?;
    Ok(text)
}

/// What is told in a call of a process of what is asked, with the call.
fn told_in(
    alloc: Global,
    session: &Session,
    source: &ProgramSource<'_>,
    pid: Pid,
    call: Option<SeenCall>,
    asked: Asked,
) -> Result<ToldInCall, AllocError>
    ensures call { IfOk result (λ told. told.call ≡ call) }
    ensures text { IfOk result (λ told. IsToldIn source.now session.now pid call asked.entry (option_map string_bytes told.text)) }
{
    match call {
        Some(seen) => {
            let text = told_seen(alloc, session, source, pid, seen, asked)?;
            Ok(ToldInCall { call, text })
        }
        None => {
            let text = String::from_str(alloc, "the call at which words look is not there\n")?;
            Ok(ToldInCall {
                call,
                text: Some(text),
            })
        }
    }
}

/// What is told of what a line asks of the program in C that the process runs which words look at, in the call at which they
/// look; `None` if it asks nothing of one, or there is no process.
pub(crate) fn told_of_c(
    alloc: Global,
    session: &Session,
    sources: Option<&Sources>,
    chosen: &Chosen,
    line: &str,
) -> Result<Option<ToldInCall>, AllocError>
    ensures { IfOk result (IsToldOf (option_map (λ s. s.now) sources.entry) chosen.now session.now line.now) }
{
    let Some(asked) = Asked::of(line) else {
        return Ok(None);
    };
    let Some(pid) = focus(session, None) else {
        return Ok(None);
    };
    let source = source_of(sources, session, session.program_of(pid));
    let number = chosen.number_of(pid, session.at());
    let call = call_seen(alloc, session, &source, pid, number)?;
    let told = told_in(alloc, session, &source, pid, call, asked)?;
    Ok(Some(told))
}

/// The text of what is told, if anything is.
pub(crate) fn text_told(told: &Option<ToldInCall>) -> Option<&str>
    ensures { option_map (λ text. text.now) result ≡ text_told told.now }
{
    let Some(told) = told else {
        return None;
    };
    match &told.text {
        Some(text) => Some(text.as_str()),
        None => None,
    }
}

/// Whether a line asks of a call, or of a type: of what no other word tells.
pub(crate) fn is_of_c_alone(line: &str) -> bool
    ensures { result ≡ is_of_c_alone (asked_in line.now) }
{
    let Some(asked) = Asked::of(line) else {
        return false;
    };
    match asked {
        Asked::Locals | Asked::Arguments | Asked::Type(_) | Asked::Layout(_) => true,
        Asked::Value(_) | Asked::Hexadecimal(_) => false,
    }
}
