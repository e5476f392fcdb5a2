//! Reads the headers of ELF-64 program files.
//!
//! A program file is a list of bytes that starts with a *file header* of 64 bytes. Three of its
//! fields matter here: the address of the first instruction, and where and how many the *program
//! headers* are. Each program header has 56 bytes, and one of type 1 (`PT_LOAD`) asks for a
//! *segment*: a piece of memory, whose first bytes are copied from the file, and whose other bytes
//! are 0. All numbers are little-endian (ELF-64 Object File Format, "Data Representation").
//!
//! [`read_header`] reads the file header, and [`segments`] tests all program headers and then hands
//! out the segments in order. A file may hold anything, so nothing in it is believed before it was
//! tested: places and sums are computed without wrapping, and a header or a segment that sticks out
//! of the file is refused.
//!
//! For each file and each header both functions answer: they don't panic, take no memory of the
//! host, and take no more steps than there are program headers.
#![tactic(auto)]

ghost use Rattle.std.specs.Prelude.{◌≡◌, length, IfOk, IsTrue, ◌≤◌};
ghost use Rattle.xk_base.specs.ProgramFile.{is_elf, header_of, segments_of, Fit};

mod iter;
mod program_header;

pub use iter::Segments;
use program_header::{is_loaded, tested_header};
use xk_base::ExecError;
use xk_base::file_number::{u16_at, u64_at};
pub use xk_base::{Header, Segment};

/// Bytes of a file header (ELF-64 Object File Format, "ELF Header": `Elf64_Ehdr`).
const FILE_HEADER_BYTES: usize = 64;

/// The first bytes of each ELF file (`e_ident[EI_MAG0..=EI_MAG3]`).
const MAGIC: [u8; 4] = [0x7F, b'E', b'L', b'F'];

/// Where the address of the first instruction stands in the file header (`e_entry`, 8 bytes).
const ENTRY: usize = 24;

/// Where the place of the program headers stands in the file header (`e_phoff`, 8 bytes).
const PHOFF: usize = 32;

/// Where the number of program headers stands in the file header (`e_phnum`, 2 bytes).
const PHNUM: usize = 56;

/// Whether the file is long enough for a file header and begins as an ELF file does.
#[tactic(auto, unfolding(xk_base::specs::ProgramFile::is_elf))]
fn has_file_header(file: &[u8]) -> bool
    ensures value { result ≡ is_elf file.now }
    ensures long { IsTrue result → 64 ≤ length file.now }
{
    file.len() >= FILE_HEADER_BYTES && file.starts_with(&MAGIC)
}

/// Reads the file header: the address of the first instruction, and where and how many the program
/// headers are.
///
/// Nothing else of the file header is tested. What it says of the program headers is tested by
/// [`segments`].
///
/// It doesn't panic, whatever the bytes are, and takes no memory.
///
/// # Errors
///
/// [`ExecError::NotElf`] exactly where the file has fewer than 64 bytes, or doesn't begin with the
/// bytes 7F 45 4C 46.
#[tactic(auto, unfolding(xk_base::specs::ProgramFile::file_header))]
pub fn read_header(file: &[u8]) -> Result<Header, ExecError>
    ensures { result ≡ header_of file.now }
{
    if !has_file_header(file) {
        return Err(ExecError::NotElf);
    }
    Ok(Header {
        entry: u64_at(file, ENTRY),
        phoff: u64_at(file, PHOFF),
        phnum: u16_at(file, PHNUM),
    })
}

/// Tests all program headers of a file, and lists the segments that they ask for, in order: one for
/// each program header of type 1 that takes memory.
///
/// `header` is the file's, as [`read_header`] read it. With another one the answer is what it would
/// be if the file's header said so.
///
/// The segments stand one behind another, no two of them on one page, below the memory's end
/// ([`SIZE_LIMIT`](xk_base::limits::SIZE_LIMIT)), and their bytes stand in the file.
///
/// It doesn't panic, whatever the bytes are, and takes no memory.
///
/// # Errors
///
/// [`ExecError::BadSegment`] with the least number of a program header that is refused:
///
/// 1. It isn't wholly in the file. (The rules below are for those of type 1. All others are passed
///    over.)
/// 2. It has more bytes in the file than in memory. (One that then takes no memory is passed over.)
/// 3. Its first byte isn't the first of a page.
/// 4. It begins below the end of the segment before it, rounded up to a page.
/// 5. Its bytes end past the file's end.
/// 6. It ends past the memory's end, or even past the end of all addresses.
pub fn segments<'a>(file: &'a [u8], header: &Header) -> Result<Segments<'a>, ExecError>
    ensures listed { result ≡ segments_of file.now header.now }
    ensures fit { IfOk result (λ each. Fit (length file.now) 0 each) }
{
    let mut size: u64 = 0;
    for i in 0..header.phnum {
        let Some(program_header) = tested_header(file, header, i, size) else {
            return Err(ExecError::BadSegment(i));
        };
        if is_loaded(&program_header) {
            size = program_header.vaddr + program_header.memsz;
        }
    }
    Ok(Segments {
        file,
        header: *header,
        next: 0,
    })
}
