//! From a source to a file, and to the table of its lines.
ghost use Rattle.std.specs.Prelude.{◌≡◌, IfOk};
ghost use Rattle.uasm_core.specs.Written.{addresses, entry_of};
ghost use Rattle.std.specs.Prelude.{Ok};
ghost use Rattle.uasm_core.specs.FileFormat.{file_of};
ghost use Rattle.uasm_core.specs.LineTable.{line_table, table_seen};
ghost use Rattle.uasm_core.specs.Meaning.{Assembles, Starts};
ghost use Rattle.uasm_core.specs.Views.{Stands, places_of};

use crate::elf::elf_file;
use crate::error::AsmError;
use crate::labels::{LabelPlaces, find};
use crate::placing::place_all;
use crate::source_lines::{SourceLines, label_addresses};
use crate::spelling::spell_all;
use crate::statement::lines;
use std::alloc::Global;

/// The address of the label _start, else 0.
fn entry(labels: &LabelPlaces<'_>, text_len: u32) -> u64
    ensures { result ≡ entry_of (addresses text_len (places_of labels.now)) }
{
    match find(labels, b"_start") {
        Some(place) => place.address(text_len),
        None => 0,
    }
}

/// What the assembler makes of a source.
#[derive(Drop)]
pub struct Assembled {
    /// The ELF-64 file.
    pub file: Vec<u8>,
    /// Where the lines and labels of the source stand in the program.
    pub lines: SourceLines,
}

/// Assembles a source as [`assemble`] does, and tells where its lines and labels stand in the program.
///
/// # Errors
///
/// Those of [`assemble`].
pub fn assemble_with_lines(alloc: Global, source: &str) -> Result<Assembled, AsmError>
    // The very file, or the first refusal, unless memory ran out.
    ensures exact { Stands (λ a. a.file.items) result (file_of source.now) }

    // It loads as a program that the source means.
    ensures loads { IfOk result (λ a. Assembles source.now a.file.items) }

    // With all argument texts that fit the stack page it is loaded: text at 0, data at the page behind it, the pc at the entry.
    ensures starts { IfOk result (λ a. Starts source.now a.file.items) }

    // Each line that makes instructions, with their addresses, and each label with its address.
    ensures lines { IfOk result (λ a. line_table source.now ≡ Ok (table_seen a.lines)) }
{
    let lines = lines(alloc, source)?;
    let listing = place_all(alloc, &lines)?;
    let out = spell_all(alloc, &listing.lines, &listing.labels, listing.text_len)?;
    let entry = entry(&listing.labels, listing.text_len);
    let labels = label_addresses(alloc, &listing.lines, listing.text_len)?;
    let file = elf_file(alloc, &out, entry)?;
    let lines = SourceLines {
        code: listing.code,
        labels,
    };
    Ok(Assembled { file, lines })
}

/// Assembles a source into an ELF-64 file that loads as the program that the source means.
///
/// # Errors
///
/// `Memory` where the host has too little memory. Else `At` with the first refusal: the first pass goes by lines,
/// and in a line a duplicate label comes before an unknown word, that before a bad operand, and that before a
/// number outside its range or a file past its limit; if it finds none, the second pass goes by lines, and finds
/// unknown labels and distances outside their range.
pub fn assemble(alloc: Global, source: &str) -> Result<Vec<u8>, AsmError>
    // The very file, or the first refusal, unless memory ran out.
    ensures exact { Stands (λ v. v.items) result (file_of source.now) }

    // It loads as a program that the source means.
    ensures loads { IfOk result (λ v. Assembles source.now v.items) }

    // With all argument texts that fit the stack page it is loaded: text at 0, data at the page behind it, the pc at the entry.
    ensures starts { IfOk result (λ v. Starts source.now v.items) }
{
    match assemble_with_lines(alloc, source) {
        Ok(assembled) => Ok(assembled.file),
        Err(error) => Err(error),
    }
}
