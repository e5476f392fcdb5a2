//! Instructions of a process, as text, with the functions and lines that they stand in.
ghost use Rattle.std.specs.Prelude.{◌≡◌, ◌%◌, option_map};
ghost use Rattle.xv_debug.specs.Instructions.{instruction_text};

use rv64i_core::decode;
use std::alloc::{AllocError, Global};
use uasm_text::{InstructionText, text_at};
use xk_base::Pid;
use xv_report::{Sources, source_of};
use xv_session::{Session, word_at};

/// The text of the instruction at an address whose four bytes are these; `None` if they are none, or aren't there.
fn instruction_text(word: Option<u32>, address: u64) -> Option<InstructionText>
    ensures { option_map (λ text. text.bytes) result ≡ instruction_text address word }
{
    let instruction = decode(word?)?;
    Some(text_at(&instruction, address))
}

/// Writes what stands at an address in place of an instruction.
fn show_other(word: Option<u32>, answer: &mut String) -> Result<(), AllocError> {
    match word {
        Some(word) => writeln!(answer, "the word {word:#010x}"),
        None => writeln!(answer, "nothing"),
    }
}

/// Writes the line of the instruction at an address of a process.
fn show_instruction(
    session: &Session,
    sources: Option<&Sources>,
    pid: Pid,
    address: u64,
    mark: &str,
    answer: &mut String,
) -> Result<(), AllocError>
    requires { address % 4 ≡ 0 }
{
    let word = word_at(session.machine(), pid, address);
    write!(answer, "{mark} {address:>#8x}  ")?;
    let Some(text) = instruction_text(word, address) else {
        return show_other(word, answer);
    };
    let text = text.as_str();
    let location = source_of(sources, session, session.program_of(pid)).location(address);
    if location.is_known() {
        writeln!(answer, "{text:<28}  {location}")
    } else {
        writeln!(answer, "{text}")
    }
}

/// The mark before the instruction at an address: an arrow, if it is the next one of the process.
fn mark_at(session: &Session, pid: Pid, address: u64) -> &'static str {
    match session.machine().registers(pid) {
        Some(regs) if regs.pc() == address => "=>",
        _ => "  ",
    }
}

/// Writes the lines of so many instructions of a process from an address on, and marks the one that is next. Those behind
/// 2^64 are left out.
pub(crate) fn list(
    session: &Session,
    sources: Option<&Sources>,
    pid: Pid,
    from: u64,
    count: u32,
    answer: &mut String,
) -> Result<(), AllocError>
    requires { from % 4 ≡ 0 }
{
    let mut address = from;
    for place in 0..count {
        let _ = place;
        let mark = mark_at(session, pid, address);
        show_instruction(session, sources, pid, address, mark, answer)?;
        let Some(next) = address.checked_add(4) else {
            return Ok(());
        };
        address = next;
    }
    Ok(())
}

/// The lines of so many instructions of a process from an address on, or from the one whose four bytes have it; none if
/// it doesn't live.
pub(crate) fn listed_from(
    alloc: Global,
    session: &Session,
    sources: Option<&Sources>,
    pid: Pid,
    from: u64,
    count: u32,
) -> Result<String, AllocError> {
    let mut lines = String::new(alloc);
    list(session, sources, pid, from / 4 * 4, count, &mut lines)?;
    Ok(lines)
}
