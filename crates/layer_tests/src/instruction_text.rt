//! Instructions as text, beside what GNU objdump shows, and what the assembler makes of it.
mod lines;

use super::checking::check;
use lines::{FIRST, LINES};
use rv64i_core::{Instr, decode};
use std::process::Abort;
use uasm_core::assemble;
use uasm_text::{target, text_at};

/// How many bytes stand in a file before its text.
const HEADERS: usize = 120;

/// What is wrong with an address for a label, and with a fence that has operands.
const REFUSED: &str = "line 1: BadOperand";

/// The fence of the language, the only one that the assembler takes.
const FENCE: u32 = 0x0FF0_000F;

/// A word, and its text.
fn row(line: &str) -> (u32, &str) {
    match line.split_once(' ') {
        Some((digits, text)) => (u32::from_str_radix(digits, 16).unwrap_or(0), text),
        None => (0, ""),
    }
}

/// Whether a word's text at an address is this one.
fn is_shown(word: u32, address: u64, text: &str) -> bool {
    match decode(word) {
        Some(instruction) => text_at(&instruction, address).as_str() == text,
        None => false,
    }
}

/// Whether the assembler takes a word's text: a target is an address there, and no label.
fn has_line(word: u32) -> bool {
    match decode(word) {
        Some(Instr::Fence { .. }) => word == FENCE,
        Some(instruction) => target(&instruction, 0).is_none(),
        None => false,
    }
}

/// What the assembler makes of a line: the digits of its bytes, or a refusal.
fn made<R: Abort + AllocGlobal>(rt: &R, line: &str) -> String {
    let made = match assemble(rt.alloc(), line) {
        Ok(file) => hex::encode(rt.alloc(), &file[HEADERS.min(file.len())..]),
        Err(refusal) => format!(in rt.alloc(); "{refusal}"),
    };
    made.expect(rt, "memory")
}

/// Whether the assembler makes a word of its text, or refuses it as it must.
fn is_made<R: Abort + AllocGlobal>(rt: &R, word: u32, text: &str) -> bool {
    let made = made(rt, text);
    if !has_line(word) {
        return made.as_str() == REFUSED;
    }
    let bytes = format!(in rt.alloc(); "{:08x}", word.swap_bytes()).expect(rt, "memory");
    made.as_str() == bytes.as_str()
}

#[test]
fn texts_are_those_of_objdump_and_assemble_to_their_words(rt: HostRuntime) {
    let mut address = FIRST;
    for line in LINES.trim().lines() {
        let (word, text) = row(line);
        check(&rt, is_shown(word, address, text), line);
        check(&rt, is_made(&rt, word, text), line);
        address = address.wrapping_add(4);
    }
}
