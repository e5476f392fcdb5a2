//! Reads DWARF debugging tables of any bytes (DWARF Debugging Information Format, versions 2 to 5).
//!
//! Of `.debug_line` [`units`] finds the units, [`read_header`] reads the header of one, [`rows`] makes the rows of its line
//! number program, and [`file_table`] reads its tables of directories and files (DWARF 5, section 6.2). [`row_at`] tells
//! which row covers an address, and [`addresses_of`] at which addresses a line begins.
//!
//! Of `.debug_frame` [`frame_units`] finds the entries, and [`frame_rows`] makes the rows of a function's frames (section
//! 6.4).
//!
//! Readers of other sections stand on the numbers and the texts of these: [`byte_at`] and what follows it.
//!
//! A table may hold anything, so each place is tested before it is read. What is damaged is refused by name, with its
//! place in the section. Each function takes time in proportion to the bytes, or the rows, that it is given.
#![tactic(auto)]

mod all_frames;
mod bytes;
mod entry;
mod entry_list;
mod fault;
mod field;
mod frame;
mod frame_change;
mod frame_common;
mod frame_entries;
mod frame_program;
mod function_frames;
mod header;
mod line_header;
mod lookup;
mod operation;
mod operations;
mod program;
mod registers;
mod row;
mod tables;
mod text;
mod unit;
mod unit_list;
mod value;

pub use all_frames::{frame_tables, rules_at};
pub use bytes::{byte_at, double_at, half_at, offset_at, signed_at, unsigned_at, word_at};
pub use entry::{Entry, Text};
pub use fault::{Fault, LineError};
pub use frame::{Base, FrameRow, FrameRules, Rule};
pub use frame_entries::{FrameUnit, frame_units};
pub use function_frames::{FrameTable, frame_rows};
pub use header::read_header;
pub use line_header::LineHeader;
pub use lookup::{addresses_of, row_at};
pub use program::rows;
pub use row::Row;
pub use tables::{FileTable, file_table};
pub use text::{name_at, past_text};
pub use unit::Unit;
pub use unit_list::units;
