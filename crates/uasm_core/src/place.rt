//! Places in the program.
ghost use Rattle.std.specs.Prelude.{◌≡◌, ◌<◌, ◌^◌};
ghost use Rattle.uasm_core.specs.Places.{address as address_of, base_of, header_count as headers_of, headers_len as headers_len_of};
ghost use Rattle.uasm_core.specs.declared.words.Section.TheVariants.{Data};

use crate::words::Section;
use xk_base::limits::PAGE_BYTES;

/// Bytes of the file header (ELF-64 Object File Format).
pub(crate) const FILE_HEADER_BYTES: u16 = 64;

/// Bytes of a program header (ELF-64 Object File Format).
pub(crate) const PROGRAM_HEADER_BYTES: u16 = 56;

/// Where a line stands: its section, and how many bytes of text and of data stand before it.
#[derive(Clone, Copy)]
pub(crate) struct Place {
    pub(crate) section: Section,
    pub(crate) text_len: u32,
    pub(crate) data_len: u32,
}

/// How many program headers a section of `section_len` bytes has.
pub(crate) fn header_count(section_len: u64) -> u16
    ensures { result ≡ headers_of section_len }
{
    if section_len == 0 { 0 } else { 1 }
}

/// How many bytes the headers of a file have.
pub(crate) fn headers_len(text_len: u64, data_len: u64) -> u64
    ensures { result ≡ headers_len_of text_len data_len }
{
    let headers = header_count(text_len) + header_count(data_len);
    u64::from(FILE_HEADER_BYTES + PROGRAM_HEADER_BYTES * headers)
}

/// Where data begins in a program with `text_len` bytes of text.
pub(crate) fn data_base(text_len: u64) -> u64
    requires { text_len < 2 ^ 63 }
    ensures { result ≡ base_of Data text_len }
{
    PAGE_BYTES * ((text_len + (PAGE_BYTES - 1)) / PAGE_BYTES)
}

impl Place {
    /// Its address in a program with `text_len` bytes of text.
    pub(crate) fn address(&self, text_len: u32) -> u64
        ensures { result ≡ address_of text_len self.now }
    {
        match self.section {
            Section::Text => u64::from(self.text_len),
            Section::Data => data_base(u64::from(text_len)) + u64::from(self.data_len),
        }
    }
}
