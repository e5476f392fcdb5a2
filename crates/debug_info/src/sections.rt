//! The sections that the tables stand in (DWARF 5, section 7.4, and of version 4 the same).
ghost use Rattle.debug_info.specs.Sections as meant;

use elf_symbols::section_bytes;

/// The bytes of the sections that tables stand in; none of one that the file doesn't have.
#[derive(Clone, Copy)]
pub(crate) struct Sections<'a> {
    /// `.debug_info`: functions, variables and types.
    pub info: &'a [u8],
    /// `.debug_abbrev`: which attributes an entry has.
    pub abbreviations: &'a [u8],
    /// `.debug_str`: names.
    pub strings: &'a [u8],
    /// `.debug_line_str`: names that the table of lines has, too.
    pub line_strings: &'a [u8],
    /// `.debug_str_offsets`: where names stand, by their numbers (version 5).
    pub string_offsets: &'a [u8],
    /// `.debug_addr`: addresses by their numbers (version 5).
    pub addresses: &'a [u8],
    /// `.debug_loclists`: where variables are (version 5).
    pub locations: &'a [u8],
    /// `.debug_loc`: the same (version 4).
    pub old_locations: &'a [u8],
    /// `.debug_rnglists`: which addresses belong to a scope (version 5).
    pub ranges: &'a [u8],
    /// `.debug_ranges`: the same (version 4).
    pub old_ranges: &'a [u8],
}

/// The sections of a program's file with its tables: an ELF-64 file, as `NAME.debug`.
pub(crate) fn sections_of(file: &[u8]) -> Sections<'_>
    ensures { meant.AreSectionsOf file.now result }
{
    Sections {
        info: section_bytes(file, b".debug_info".as_slice()),
        abbreviations: section_bytes(file, b".debug_abbrev".as_slice()),
        strings: section_bytes(file, b".debug_str".as_slice()),
        line_strings: section_bytes(file, b".debug_line_str".as_slice()),
        string_offsets: section_bytes(file, b".debug_str_offsets".as_slice()),
        addresses: section_bytes(file, b".debug_addr".as_slice()),
        locations: section_bytes(file, b".debug_loclists".as_slice()),
        old_locations: section_bytes(file, b".debug_loc".as_slice()),
        ranges: section_bytes(file, b".debug_rnglists".as_slice()),
        old_ranges: section_bytes(file, b".debug_ranges".as_slice()),
    }
}
