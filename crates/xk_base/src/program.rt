//! Program files, and what their headers ask for (ELF-64 Object File Format).
use crate::access::Perm;

/// A program that a machine is given.
#[derive(Drop)]
pub struct Program {
    /// Its name, by which it is found.
    pub name: Vec<u8>,
    /// Its file.
    pub bytes: Vec<u8>,
}

/// What a loader needs of an ELF-64 file header.
#[derive(Clone, Copy)]
pub struct Header {
    /// The address of the first instruction.
    pub entry: u64,
    /// Where in the file the program headers begin.
    pub phoff: u64,
    /// How many program headers there are.
    pub phnum: u16,
}

/// A program header of an ELF-64 file: what a loader needs of it.
#[derive(Clone, Copy)]
pub struct ProgramHeader {
    /// Its type. 1 is a segment to be loaded, all others are passed over.
    pub kind: u32,
    /// Bit 0 is X, bit 1 is W, bit 2 is R.
    pub flags: u32,
    /// Where in the file the segment's bytes begin.
    pub off: u64,
    /// The address of the segment's first byte.
    pub vaddr: u64,
    /// How many bytes the segment has in the file.
    pub filesz: u64,
    /// How many bytes the segment has in memory.
    pub memsz: u64,
}

/// Memory that a program header asks for, and the bytes of the file that go there.
#[derive(Clone, Copy)]
pub struct Segment {
    /// The address of its first byte.
    pub vaddr: u64,
    /// How many bytes of memory it has.
    pub memsz: u64,
    /// The rights of its pages.
    pub perm: Perm,
    /// Where in the file its bytes begin.
    pub off: usize,
    /// How many bytes of the file it has, from its first byte on. All others are 0.
    pub filesz: usize,
}
