//! The registers of a process.
ghost use Rattle.std.specs.Prelude.{◌≡◌, ◌<◌, OnOk};
ghost use Rattle.debug_views.specs.RegisterText.{first_registers, gap_before, register_text};
ghost use Rattle.debug_views.specs.RegisterText.{registers_shown, registers_text};
ghost use Rattle.debug_views.specs.Focus.{name_in};
ghost use Rattle.debug_views.specs.Written.{Appends};

use crate::focus::{program_name, show_none};
use debug_words::texts::{Hexadecimal, Named};
use rv64i_core::Regs;
use std::alloc::AllocError;
use uasm_text::register_name;
use xk_base::{Pid, Reg};
use xv_session::Session;

/// What stands before a register: three stand in a row.
fn gap_before(number: u8) -> &'static str
    ensures { result.now ≡ gap_before number }
{
    if number % 3 == 1 { "\n" } else { "   " }
}

/// Writes a register, behind what stands before it.
fn show_register(regs: &Regs, number: u8, answer: &mut String) -> Result<(), AllocError>
    requires { number < 32 }
    ensures { OnOk result (Appends answer.old answer.new (register_text regs.now number)) }
{
    let gap = gap_before(number);
    let register = Reg::new(number);
    let name = register_name(register);
    let value = Hexadecimal(regs.read(register));
    write!(answer, "{gap}{name:<3} {value:>18}")
}

/// Writes x1 to x31.
#[tactic(auto, unfolding(crate::specs::RegisterText::first_registers))]
fn show_all(regs: &Regs, answer: &mut String) -> Result<(), AllocError>
    ensures { OnOk result (Appends answer.old answer.new (first_registers regs.now 31)) }
{
    for place in 0..31_u8 {
        show_register(regs, place + 1, answer)?;
    }
    Ok(())
}

/// Writes these registers of a live process.
fn show_known(
    session: &Session,
    pid: Pid,
    regs: &Regs,
    answer: &mut String,
) -> Result<(), AllocError>
    ensures { OnOk result (Appends answer.old answer.new (registers_text pid (name_in session.now pid) regs.now)) }
{
    let number = pid.number();
    let name = Named(program_name(session, pid));
    let pc = Hexadecimal(regs.pc());
    writeln!(answer, "registers of process {number}{name}")?;
    write!(answer, "pc  {pc:>18}")?;
    show_all(regs, answer)?;
    writeln!(answer)
}

/// Writes the registers of a process: the pc, then x1 to x31 in three columns.
///
/// # Errors
///
/// The host has too little memory.
pub fn show_registers(session: &Session, pid: Pid, answer: &mut String) -> Result<(), AllocError>
    ensures { OnOk result (Appends answer.old answer.new (registers_shown session.now pid)) }
{
    match session.machine().registers(pid) {
        Some(regs) => show_known(session, pid, &regs, answer),
        None => show_none(pid, answer),
    }
}
