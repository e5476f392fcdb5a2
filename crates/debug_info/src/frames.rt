//! Where the caller's part of the stack of a call begins (DWARF 5, section 6.4).
ghost use Rattle.std.specs.Prelude.{◌≡◌, IfOk, codes, map};
ghost use Rattle.dwarf.specs.AllFrames.{frames_seen, rules_at, tables_of};
ghost use Rattle.elf_symbols.specs.Sections.{section_bytes};
ghost use Rattle.debug_info.specs.Frames as meant;

use crate::numbers::address_from;
use crate::sight::{Frame, Sight};
use dwarf::{Base, FrameRules, FrameTable, frame_tables, rules_at};
use elf_symbols::section_bytes;
use std::alloc::{AllocError, Global};

/// Where the caller's part of the stack begins, by the rules that hold where a call stands; `None` if they tell it by
/// something else than a register that is known.
fn base_by<S: Sight>(sight: &S, rules: Option<FrameRules>) -> Option<u64>
    ensures { result ≡ meant.base_by (S.registers sight.now) rules }
{
    match rules?.base {
        Base::Register { register, offset } => {
            let from = sight.register(register)?;
            Some(address_from(from, offset))
        }
        Base::Unset | Base::Other => None,
    }
}

/// The section of call frames of a file; none if it has none.
fn frame_section(file: &[u8]) -> &[u8]
    ensures { result.now ≡ section_bytes file.now (codes ".debug_frame") }
{
    section_bytes(file, b".debug_frame".as_slice())
}

/// The frames of all functions of a program, by its file.
fn frames_of(alloc: Global, file: &[u8]) -> Result<Vec<FrameTable>, AllocError>
    ensures { IfOk result (λ v. map frames_seen v.items ≡ tables_of (section_bytes file.now (codes ".debug_frame"))) }
{
    let tables = frame_tables(alloc, frame_section(file))?;
    Ok(tables)
}

/// The call that stands at an address: where its caller's part of the stack begins is told by the table of call frames
/// that is in the file (`.debug_frame`), and by the registers of the call.
///
/// # Errors
///
/// The host has too little memory.
pub fn frame_at<S: Sight>(
    alloc: Global,
    file: &[u8],
    address: u64,
    sight: &S,
) -> Result<Frame, AllocError>
    ensures address { IfOk result (λ frame. frame.address ≡ address) }
    ensures base { IfOk result (λ frame. frame.base ≡
        meant.base_by (S.registers sight.now) (rules_at address (tables_of (section_bytes file.now (codes ".debug_frame"))))) }
{
    let tables = frames_of(alloc, file)?;
    let rules = rules_at(tables.as_slice(), address);
    Ok(Frame {
        address,
        base: base_by(sight, rules),
    })
}
