//! Program headers, and when one is refused (ELF-64 Object File Format, "Program Header Table").
ghost use Rattle.std.specs.Prelude.{◌≡◌, ◌≤◌, ◌+◌, ◌*◌, ◌^◌};
ghost use Rattle.std.specs.Prelude.{◌/◌, ◌%◌, ◌==◌, length, true};
ghost use Rattle.std.specs.Prelude.{OnSome, IfSome, Some, None, if◌then◌else◌};
ghost use Rattle.xk_base.specs.ProgramFile.{page_up, program_header, program_header_at, segment};
ghost use Rattle.xk_base.specs.ProgramFile.{is_loaded, is_misplaced, is_bad, is_refused_after};

use xk_base::file_number::{u32_at, u64_at};
use xk_base::limits::{PAGE_BYTES, SIZE_LIMIT};
use xk_base::{Header, Perm, ProgramHeader, Rights, Segment};

/// Bytes of a program header (`Elf64_Phdr`).
pub(crate) const PROGRAM_HEADER_BYTES: usize = 56;

/// Where the type stands in a program header (`p_type`, 4 bytes).
const KIND: usize = 0;

/// Where the flags stand (`p_flags`, 4 bytes).
const FLAGS: usize = 4;

/// Where the place of the segment's bytes in the file stands (`p_offset`, 8 bytes).
const OFF: usize = 8;

/// Where the address of the segment's first byte stands (`p_vaddr`, 8 bytes).
const VADDR: usize = 16;

/// Where the number of the segment's bytes in the file stands (`p_filesz`, 8 bytes).
const FILESZ: usize = 32;

/// Where the number of the segment's bytes in memory stands (`p_memsz`, 8 bytes).
const MEMSZ: usize = 40;

/// The type of a segment that is to be loaded (`PT_LOAD`).
const LOAD: u32 = 1;

/// The flag of a segment whose bytes may be executed (`PF_X`).
const EXECUTE: u32 = 1;

/// The flag of a segment whose bytes may be written (`PF_W`).
const WRITE: u32 = 2;

/// Reads the program header that begins at `at`.
#[tactic(auto, unfolding(xk_base::specs::ProgramFile::program_header))]
pub(crate) fn read_program_header(file: &[u8], at: usize) -> ProgramHeader
    requires { at + 56 ≤ length file.now }
    ensures { result ≡ program_header file.now at }
{
    ProgramHeader {
        kind: u32_at(file, at + KIND),
        flags: u32_at(file, at + FLAGS),
        off: u64_at(file, at + OFF),
        vaddr: u64_at(file, at + VADDR),
        filesz: u64_at(file, at + FILESZ),
        memsz: u64_at(file, at + MEMSZ),
    }
}

/// Whether it makes a segment: its type is 1, and it takes memory.
pub(crate) fn is_loaded(header: &ProgramHeader) -> bool
    ensures { result ≡ is_loaded header.now }
{
    header.kind == LOAD && header.memsz > 0
}

/// An address rounded up to the first of a page.
fn page_up(address: u64) -> u64
    requires { address ≤ 2 ^ 38 }
    ensures { result ≡ page_up address }
{
    PAGE_BYTES * ((address + (PAGE_BYTES - 1)) / PAGE_BYTES)
}

/// Whether it begins inside a page or below `size`, or ends past the end of the file, which has
/// `len` bytes, or past the memory's end.
fn is_misplaced(header: &ProgramHeader, len: usize, size: u64) -> bool
    requires { size ≤ 2 ^ 38 }
    ensures { result ≡ is_misplaced len size header.now }
{
    let file_end = u128::from(header.off) + u128::from(header.filesz);
    let end = u128::from(header.vaddr) + u128::from(header.memsz);
    header.vaddr % PAGE_BYTES != 0
        || header.vaddr < page_up(size)
        || file_end > len as u128
        || end > u128::from(SIZE_LIMIT)
}

/// Whether it is refused, in a file of `len` bytes, behind segments that end at `size`.
#[tactic(auto, unfolding(xk_base::specs::ProgramFile::is_bad))]
fn is_bad(header: &ProgramHeader, len: usize, size: u64) -> bool
    requires { size ≤ 2 ^ 38 }
    ensures { result ≡ is_bad len size header.now }
{
    header.kind == LOAD
        && (header.memsz < header.filesz || (header.memsz > 0 && is_misplaced(header, len, size)))
}

/// Program header `i`, unless it is refused behind segments that end at `size`.
#[tactic(auto, unfolding(xk_base::specs::ProgramFile::is_refused_after, xk_base::specs::ProgramFile::is_bad))]
pub(crate) fn tested_header(
    file: &[u8],
    header: &Header,
    i: u16,
    size: u64,
) -> Option<ProgramHeader>
    requires { size ≤ 2 ^ 38 }
    ensures value { result
        ≡ (if is_refused_after file.now header.now size i then None else Some
        (program_header_at file.now header.now i)) }
    ensures within { OnSome result (header.now.phoff + 56 * (i + 1) ≤ length file.now) }
    ensures end { IfSome result (λ h. is_loaded h ≡ true → h.vaddr + h.memsz ≤ 2 ^ 38) }
{
    let at = u128::from(header.phoff) + PROGRAM_HEADER_BYTES as u128 * u128::from(i);
    if at + PROGRAM_HEADER_BYTES as u128 > file.len() as u128 {
        return None;
    }
    let program_header = read_program_header(file, at as usize);
    if is_bad(&program_header, file.len(), size) {
        return None;
    }
    Some(program_header)
}

/// Whether the flags allow writing.
#[tactic(auto, using(crate::proofs::Flags::flag_two))]
fn may_write(flags: u32) -> bool
    ensures { result ≡ (flags / 2 % 2 == 1) }
{
    flags & WRITE != 0
}

/// Whether the flags allow executing.
#[tactic(auto, using(crate::proofs::Flags::flag_one))]
fn may_execute(flags: u32) -> bool
    ensures { result ≡ (flags % 2 == 1) }
{
    flags & EXECUTE != 0
}

/// The segment that it asks for. User code may read each segment, whatever its flags are.
pub(crate) fn segment(header: &ProgramHeader) -> Segment
    ensures { result ≡ segment header.now }
{
    Segment {
        vaddr: header.vaddr,
        memsz: header.memsz,
        perm: Perm::new(Rights {
            read: true,
            write: may_write(header.flags),
            execute: may_execute(header.flags),
            user: true,
        }),
        off: header.off as usize,
        filesz: header.filesz as usize,
    }
}
