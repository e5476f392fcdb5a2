//! What a reader of a program's source needs of the tables that a compiler left in an ELF-64 file, as a text.
//!
//! [`table_text`] reads the symbol table, the lines (`.debug_line`) and the frames (`.debug_frame`) of a file of any
//! bytes, by `elf_symbols` and `dwarf`, and writes a line for each of these; all numbers are decimal:
//!
//! ```text
//! function ADDRESS BYTES NAME    a function
//! label ADDRESS BYTES NAME       a label of assembler source, up to the next function or label
//! file NAME                      the lines below are of this source
//! ADDRESS LINE                   from here on the instructions are of this line; LINE 0: no line is known
//! frame ADDRESS BASE SIZE RA S0  from here on the caller's part of the stack begins SIZE bytes above BASE, which is sp
//!                                or s0, or - if it isn't known; the return address lies RA below that, and the
//!                                caller's s0 S0; 0: in the register
//! ```
//!
//! Functions and labels stand first, then lines, then frames, each in the order of addresses. What each of them tells
//! is written in `specs`. A table that is damaged is refused by name. The text has at most 16 MiB, and the time goes by
//! the bytes of the file and of the text.
#![tactic(auto)]

mod error;
mod fact;
mod facts;
mod facts_text;
mod frames;
mod lines;
mod names;
mod names_text;
mod sections;
mod source;
mod table;
mod text;

pub use error::TableError;
pub use table::table_text;
