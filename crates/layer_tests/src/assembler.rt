//! Sources with their files and their refusals, taken from outside.
//!
//! A row of a table is `WANTED <- SOURCE`, and what has no arrow is a comment. In the source `; ` stands for the end of a
//! line, and `COUNT times: LINE` for so many equal lines.
mod gnu_words;
mod refused;
mod taken;

use super::checking::check;
use gnu_words::SPELLED;
use refused::REFUSED;
use std::alloc::Global;
use std::process::Abort;
use taken::TAKEN;
use uasm_core::{AsmError, AsmErrorKind, assemble};

/// A whole program: it opens the console and writes `hi`.
const HELLO: &str =
    "_start:\n  la a0, name\n  li a1, 1\n  li a7, 15\n  ecall\n  la a1, msg\n  li a2, 3\n  li a7, 16\n  ecall\n  li a0, 0\n  li a7, 2\n  ecall\n.data\nname: .asciz \"console\"\nmsg: .asciz \"hi\\n\"\n";

/// Its file in hexadecimal digits: headers worked by hand from the format, text and data made by GNU as, ld and objcopy.
const HELLO_FILE: &str = concat!(
    // The file header: magic, 64 bits, little-endian, version 1, then padding;
    "7f454c46", "02", "01", "01", "000000000000000000",
    // type 2 (executable), machine 243 (RISC-V), version 1, entry 0,
    "0200", "f300", "01000000", "0000000000000000",
    // program headers at 64, no section headers,
    "4000000000000000", "0000000000000000",
    // no flags, headers of 64 and 56 bytes, two program headers, no section header.
    "00000000", "4000", "3800", "0200", "0000", "0000", "0000",
    // The first program header: type 1 (load), flags R and X, file offset 176,
    "01000000", "05000000", "b000000000000000",
    // virtual and physical address 0,
    "0000000000000000", "0000000000000000",
    // 52 bytes in the file and in memory, alignment 1.
    "3400000000000000", "3400000000000000", "0100000000000000",
    // The second one: type 1, flags R and W, file offset 228,
    "01000000", "06000000", "e400000000000000",
    // virtual and physical address 4096,
    "0010000000000000", "0010000000000000",
    // 12 bytes in the file and in memory, alignment 1.
    "0c00000000000000", "0c00000000000000", "0100000000000000",
    // The instructions.
    "17150000", "13050500", "93051000", "9308f000",
    "73000000", "97150000", "938545ff", "13063000", "93080001",
    "73000000", "13050000", "93082000", "73000000",
    // The data.
    "636f6e736f6c6500", "68690a00",
);

/// How many bytes its file has.
const HELLO_LENGTH: usize = 240;

/// What is wrong with a third line that names a label which stands nowhere.
const UNKNOWN_ON_LINE_3: AsmError = AsmError::At {
    line: 3,
    kind: AsmErrorKind::UnknownLabel,
};

/// So many bytes of a file's end are compared, at most.
const END: usize = 16;

/// What stands before a separator, and what behind it.
fn parted<'a>(text: &'a str, separator: &str) -> (&'a str, &'a str) {
    match text.split_once(separator) {
        Some(parts) => parts,
        None => (text, ""),
    }
}

/// Adds a line of a source, or several equal ones.
fn push_lines<R: Abort>(rt: &R, source: &mut String, text: &str) {
    let (count, line) = match text.split_once(" times: ") {
        Some((count, line)) => (count.parse::<u32>().unwrap_or(0), line),
        None => (1, text),
    };
    for _ in 0..count {
        source.push_str(line).expect(rt, "memory");
        source.push_str("\n").expect(rt, "memory");
    }
}

/// The source of a row.
fn source_of<R: Abort + AllocGlobal>(rt: &R, text: &str) -> String {
    let mut source = String::new(rt.alloc());
    for line in text.split("; ") {
        push_lines(rt, &mut source, line);
    }
    let _end = source.pop();
    source
}

/// What comes of a source. What that promises stays out of the proofs of the tests.
fn assembled(alloc: Global, source: &str) -> Result<Vec<u8>, AsmError> {
    assemble(alloc, source)
}

/// The hexadecimal digits of a file's bytes, from one of them on.
fn digits_from<R: Abort + AllocGlobal>(rt: &R, file: &[u8], from: usize) -> String {
    hex::encode(rt.alloc(), &file[from.min(file.len())..]).expect(rt, "memory")
}

/// Whether a file has the length and the last bytes that are wanted, in hexadecimal digits.
fn is_file<R: Abort + AllocGlobal>(rt: &R, file: &[u8], wanted: &str) -> bool {
    let (length, bytes) = parted(wanted, " ");
    let end = digits_from(rt, file, file.len().saturating_sub(END));
    length.parse::<usize>().ok() == Some(file.len()) && end.as_str().ends_with(bytes)
}

/// Whether a refusal is told as it is wanted.
fn is_told<R: Abort + AllocGlobal>(rt: &R, refusal: &AsmError, wanted: &str) -> bool {
    let told = format!(in rt.alloc(); "{refusal}").expect(rt, "memory");
    told.as_str() == wanted
}

/// Whether what comes of a source is what is wanted: a file, or a refusal.
fn comes<R: Abort + AllocGlobal>(rt: &R, wanted: &str, source: &str) -> bool {
    let source = source_of(rt, source);
    match assembled(rt.alloc(), source.as_str()) {
        Ok(file) => is_file(rt, file.as_slice(), wanted),
        Err(refusal) => is_told(rt, &refusal, wanted),
    }
}

/// Makes sure that of each source of a table comes what is wanted.
fn meet_all<R: Abort + AllocGlobal>(rt: &R, table: &str) {
    for row in table.split('\n') {
        if let Some((wanted, source)) = row.split_once(" <- ") {
            check(rt, comes(rt, wanted, source), row);
        }
    }
}

#[test]
fn a_whole_program_byte_for_byte(rt: HostRuntime) {
    let file = assembled(rt.alloc(), HELLO).expect(&rt, "the file");
    let digits = digits_from(&rt, file.as_slice(), 0);
    assert!(rt; digits.as_str() == HELLO_FILE, "{digits}");
}

#[test]
fn sources_that_are_taken(rt: HostRuntime) {
    meet_all(&rt, SPELLED);
    meet_all(&rt, TAKEN);
}

#[test]
fn sources_that_are_refused(rt: HostRuntime) {
    meet_all(&rt, REFUSED);
}

/// Whether want of memory comes of a source, or a file of this length.
fn has_length(alloc: Global, source: &str, length: usize) -> bool {
    match assembled(alloc, source) {
        Ok(file) => file.len() == length,
        Err(error) => error == AsmError::Memory,
    }
}

/// Whether want of memory comes of a source, or this refusal.
fn is_refused_as(alloc: Global, source: &str, refusal: AsmError) -> bool {
    match assembled(alloc, source) {
        Ok(_) => false,
        Err(error) => error == AsmError::Memory || error == refusal,
    }
}

// checks/hostile/run.sh refuses each growth of this test in turn, until a run meets no refusal.
#[test]
fn a_growth_that_the_host_refuses_is_want_of_memory(rt: HostRuntime) {
    check(
        &rt,
        has_length(rt.alloc(), HELLO, HELLO_LENGTH),
        "a program",
    );
    let unknown = "x: nop\n.data\n.dword x, 1, nowhere";
    check(
        &rt,
        is_refused_as(rt.alloc(), unknown, UNKNOWN_ON_LINE_3),
        "an unknown label",
    );
}
