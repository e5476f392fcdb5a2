//! The name of the function at an address, where it begins, the address of a name, and all names, by the symbol table of an
//! ELF-64 file.
//!
//! [`function_at`], [`function_start`], [`address_of`], [`symbol_count`] and [`symbol_name`] read the section headers of a
//! file, its first symbol table and that table's string table (ELF-64 Object File Format). A file may hold anything, so
//! each place is tested before it is read, and what isn't wholly in the file has no name. It takes no memory of the host,
//! and no more steps than there are section headers, symbols and bytes of a name.
//!
//! [`symbol_at`] gives each symbol of a table whose bytes are known. [`section_named`] and [`section_bytes`] give the
//! bytes of a section, which a reader of a compiler's tables begins with.
//!
//! What a name is found by is written in `specs/Symbols.antt`, and a section in `specs/Sections.antt`.
#![tactic(auto)]

pub mod laws;
mod section;
mod symbol;
mod table;

pub use symbol::{SYMBOL_BYTES, Symbol, symbol_at};
pub use table::{
    address_of, function_at, function_start, section_bytes, section_named, symbol_count,
    symbol_name,
};
