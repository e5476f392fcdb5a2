//! The sections of a file that tables stand in.
ghost use Rattle.std.specs.Prelude.{◌≡◌, codes};
ghost use Rattle.elf_symbols.specs.Sections.{section_bytes};

use elf_symbols::section_bytes;

/// The bytes of the sections that tables stand in; none of one that the file doesn't have.
#[derive(Clone, Copy)]
pub(crate) struct Sections<'a> {
    /// `.symtab`: the symbols.
    pub symbols: &'a [u8],
    /// `.strtab`: their names.
    pub names: &'a [u8],
    /// `.debug_line`: the lines.
    pub lines: &'a [u8],
    /// `.debug_line_str`: names of sources.
    pub line_strings: &'a [u8],
    /// `.debug_str`: other texts, among which names of sources may be.
    pub strings: &'a [u8],
    /// `.debug_frame`: the frames.
    pub frames: &'a [u8],
}

/// The sections of a file.
pub(crate) fn sections_of(file: &[u8]) -> Sections<'_>
    ensures symbols { result.symbols.now ≡ section_bytes file.now (codes ".symtab") }
    ensures names { result.names.now ≡ section_bytes file.now (codes ".strtab") }
    ensures lines { result.lines.now ≡ section_bytes file.now (codes ".debug_line") }
    ensures line_strings { result.line_strings.now ≡ section_bytes file.now (codes ".debug_line_str") }
    ensures strings { result.strings.now ≡ section_bytes file.now (codes ".debug_str") }
    ensures frames { result.frames.now ≡ section_bytes file.now (codes ".debug_frame") }
{
    Sections {
        symbols: section_bytes(file, b".symtab".as_slice()),
        names: section_bytes(file, b".strtab".as_slice()),
        lines: section_bytes(file, b".debug_line".as_slice()),
        line_strings: section_bytes(file, b".debug_line_str".as_slice()),
        strings: section_bytes(file, b".debug_str".as_slice()),
        frames: section_bytes(file, b".debug_frame".as_slice()),
    }
}
