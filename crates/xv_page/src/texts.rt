//! Sources and instructions.
ghost use Rattle.std.specs.Prelude.{◌≡◌, nat_le, length, if◌then◌else◌, IfOk, Ok};
ghost use Rattle.uasm_core.specs.FileFormat.{file_of};
ghost use Rattle.uasm_core.specs.LineTable.{line_table, table_seen};
ghost use Rattle.uasm_core.specs.Views.{Stands};
ghost use Rattle.xv_page.specs.Tables.{table_kept};
ghost use Rattle.xv_page.specs.Texts.{line_of, mistake, refusal, filed, IsAssembled, IsMade};
ghost use Rattle.xv_page.specs.Told.{laid};

use crate::answers::lay;
use rv64i_core::decode;
use std::alloc::Global;
use std::str;
use uasm_core::{AsmError, AsmErrorKind, SourceLines, assemble_with_lines};
use uasm_text::text_at;

/// What the assembler made.
#[repr(C)]
#[derive(Clone, Copy)]
pub struct Assembled {
    /// 0 there is a file; 1 the host has too little memory; 2 to 6 the line has an unknown word, a bad operand, a
    /// number out of its range, a label for the second time, an unknown label; 7 the source isn't UTF-8; 8 the room
    /// is too small.
    pub kind: u32,
    /// How many bytes the file has; or the refused line, counted from 1.
    pub count: u64,
}

/// What is wrong with a line, as a number.
fn mistake(kind: AsmErrorKind) -> u32
    ensures { result ≡ mistake kind }
{
    match kind {
        AsmErrorKind::UnknownWord => 2,
        AsmErrorKind::BadOperand => 3,
        AsmErrorKind::OutOfRange => 4,
        AsmErrorKind::DuplicateLabel => 5,
        AsmErrorKind::UnknownLabel => 6,
    }
}

/// A refusal as numbers.
fn refusal(error: AsmError) -> Assembled
    ensures { result ≡ refusal error }
{
    match error {
        AsmError::Memory => Assembled { kind: 1, count: 0 },
        AsmError::At { line, kind } => Assembled {
            kind: mistake(kind),
            count: line as u64,
        },
    }
}

/// Lays a file into a room.
fn filed(file: &[u8], room: &mut [u8]) -> Assembled
    ensures told { result ≡ filed (length file.now) (length room.old) }
    ensures laid { room.new ≡ laid file.now room.old }
{
    let count = file.len() as u64;
    if lay(file, room) {
        Assembled { kind: 0, count }
    } else {
        Assembled { kind: 8, count }
    }
}

/// What the assembler makes of a text.
#[derive(Drop)]
struct Translation {
    /// The file.
    file: Vec<u8>,
    /// Where the text's lines and labels stand in it.
    table: Box<SourceLines>,
}

/// Assembles a text.
fn translated(alloc: Global, source: &str) -> Result<Translation, AsmError>
    ensures file { Stands (λ t. t.file.items) result (file_of source.now) }
    ensures table { IfOk result (λ t. line_table source.now ≡ Ok (table_seen t.table.value)) }
{
    let assembled = assemble_with_lines(alloc, source)?;
    let table = Box::new(alloc, assembled.lines)?;
    Ok(Translation {
        file: assembled.file,
        table,
    })
}

/// Assembles a text into a room, and keeps its table.
fn made(
    alloc: Global,
    source: &str,
    room: &mut [u8],
    table: &mut Option<Box<SourceLines>>,
) -> Assembled
    ensures { IsMade source.now room.old room.new (table_kept table.new) result }
{
    match translated(alloc, source) {
        Err(error) => {
            *table = None;
            refusal(error)
        }
        Ok(translation) => {
            *table = Some(translation.table);
            filed(translation.file.as_slice(), room)
        }
    }
}

/// Assembles a source of UTF-8 into the room for a file, and puts the table of its lines and labels into the host's
/// place for one, in place of the table that is there; if there is no file, there is no table afterwards.
#[inline(never)]
pub fn xv_page_assemble(
    alloc: Global,
    source: &[u8],
    room: &mut [u8],
    table: &mut Option<Box<SourceLines>>,
    answer: &mut Assembled,
)
    ensures { IsAssembled source.now room.old room.new (table_kept table.new) answer.new }
{
    match str::from_utf8(source) {
        Ok(text) => *answer = made(alloc, text, room, table),
        Err(_) => {
            *table = None;
            *answer = Assembled { kind: 7, count: 0 };
        }
    }
}

/// Writes the text of the instruction of a word at an address into a room, and tells how many bytes it has; 0 if the
/// word is no instruction, or the room is too small.
#[inline(never)]
pub fn xv_page_instruction(word: u32, address: u64, room: &mut [u8]) -> usize
    ensures told { result ≡ (if nat_le (length (line_of address word)) (length room.old) then length (line_of address word) else 0) }
    ensures laid { room.new ≡ laid (line_of address word) room.old }
{
    let Some(instruction) = decode(word) else {
        return 0;
    };
    let text = text_at(&instruction, address);
    if lay(text.as_bytes(), room) {
        text.len()
    } else {
        0
    }
}
