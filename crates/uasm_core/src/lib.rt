//! A two-pass assembler for RV64I: from a source of text to an ELF-64 program file.
//!
//! The first pass reads each line and places it behind the lines before it, in text or in data. The second pass
//! spells each line's bytes, by the addresses of the labels. The language stands in `specs/`: words and registers
//! in `WordTable`, a line's parts in `Line`, what a line asks for in `Statement`, both passes in `Written`, the
//! file in `FileFormat`, and what all this means for a reader in `Meaning`.
#![tactic(auto)]

mod assembly;
mod bytes;
mod elf;
mod error;
mod labels;
mod name;
mod numeral;
mod operands;
mod parts;
mod place;
mod placing;
mod program_end;
mod scan;
mod source_lines;
mod spelling;
mod statement;
mod text;
mod words;

pub use assembly::{Assembled, assemble, assemble_with_lines};
pub use error::{AsmError, AsmErrorKind};
pub use source_lines::{CodeLine, LabelAddress, SourceLines};
