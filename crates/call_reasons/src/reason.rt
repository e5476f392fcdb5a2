//! Why a kernel call is refused.
ghost use Rattle.std.specs.Prelude.{Some};
ghost use Rattle.call_reasons.specs.Words.{bytes_words, reason_words};

use debug_words::texts::Hexadecimal;
use std::fmt;

/// Why a kernel call answers -1. Which test of which call tells which reason stands in `specs/Reasons.antt`.
#[derive(Clone, Copy)]
pub enum Reason {
    /// No call has this number.
    NoCall,
    /// The descriptor of this number isn't in use.
    NotOpen { descriptor: i32 },
    /// The descriptor may not be read by.
    NotForReading { descriptor: i32 },
    /// The descriptor may not be written by.
    NotForWriting { descriptor: i32 },
    /// A number that counts bytes is below 0.
    BelowZero { number: i32 },
    /// The process may not read all of so many bytes from an address on.
    NotReadable { address: u64, count: u64 },
    /// The process may not write all of so many bytes from an address on.
    NotWritable { address: u64, count: u64 },
    /// No descriptor is on the end of the pipe that is read.
    NoReader,
    /// The process has no child.
    NoChild,
    /// No process has this pid.
    NoProcess { pid: i32 },
    /// All descriptors are in use, or too few are free.
    NoDescriptor { free: u32 },
    /// Memory would have fewer than 0 bytes, or more than it can have.
    BadSize,
    /// Too few frames of RAM are free.
    NoFrames { free: u32 },
    /// No slot is left for a process, or no pid, or too few frames of RAM are free.
    NoRoom { free: u32 },
    /// No path stands at the address: a byte may not be read, or no zero byte is among the first 128.
    NoPath { address: u64 },
    /// No list of words stands at the address: a pointer or a word can't be read, or it has more than 31 words.
    NoList { address: u64 },
    /// Nothing has the name, the console or a program.
    NotNamed,
    /// No program has the name.
    NoProgram,
    /// What has the name may not be opened in this mode.
    NotInMode { mode: i32 },
    /// The program's file has fewer than 64 bytes, or doesn't begin with 7F 45 4C 46.
    NotElf,
    /// The program header of this number can't be loaded. Those before it can be.
    BadHeader { number: u16 },
    /// The words, their addresses and a pointer 0 don't fit on the stack page.
    LongWords,
}

// So many bytes from an address on.
#[derive(Clone, Copy)]
struct Bytes {
    address: u64,
    count: u64,
}

impl fmt::Display for Bytes {
    ghost output = { λ bytes. Some (bytes_words bytes.address bytes.count) };

    fn fmt<W: fmt::Write>(&self, f: &mut fmt::Formatter<W>) -> fmt::Result {
        let address = Hexadecimal(self.address);
        let count = self.count;
        if count == 1 {
            return write!(f, "the byte at {address}");
        }
        write!(f, "all {count} bytes from {address} on")
    }
}

/// The reason in words, as in `descriptor 7 isn't open`.
impl fmt::Display for Reason {
    ghost output = { λ reason. Some (reason_words reason) };

    fn fmt<W: fmt::Write>(&self, f: &mut fmt::Formatter<W>) -> fmt::Result {
        match *self {
            Reason::NoCall => f.write_str("no call has this number"),
            Reason::NotOpen { descriptor } => write!(f, "descriptor {descriptor} isn't open"),
            Reason::NotForReading { descriptor } => {
                write!(f, "descriptor {descriptor} isn't open for reading")
            }
            Reason::NotForWriting { descriptor } => {
                write!(f, "descriptor {descriptor} isn't open for writing")
            }
            Reason::BelowZero { number } => write!(f, "{number} is below 0"),
            Reason::NotReadable { address, count } => {
                let bytes = Bytes { address, count };
                write!(f, "it may not read {bytes}")
            }
            Reason::NotWritable { address, count } => {
                let bytes = Bytes { address, count };
                write!(f, "it may not write {bytes}")
            }
            Reason::NoReader => f.write_str("nobody can read from the pipe"),
            Reason::NoChild => f.write_str("it has no child"),
            Reason::NoProcess { pid } => write!(f, "no process has the pid {pid}"),
            Reason::NoDescriptor { free } => write!(f, "too few descriptors are free: {free}"),
            Reason::BadSize => f.write_str("its memory can't have such a size"),
            Reason::NoFrames { free } => write!(f, "too few frames are free: {free}"),
            Reason::NoRoom { free } => {
                write!(
                    f,
                    "no slot or pid is left for a child, or too few frames are free: {free}"
                )
            }
            Reason::NoPath { address } => {
                let address = Hexadecimal(address);
                write!(f, "no path of at most 127 bytes can be read at {address}")
            }
            Reason::NoList { address } => {
                let address = Hexadecimal(address);
                write!(f, "no list of at most 31 words can be read at {address}")
            }
            Reason::NotNamed => f.write_str("nothing has this name"),
            Reason::NoProgram => f.write_str("no program has this name"),
            Reason::NotInMode { mode } => write!(f, "it can't be opened in mode {mode}"),
            Reason::NotElf => f.write_str("its file isn't an ELF program"),
            Reason::BadHeader { number } => {
                write!(f, "program header {number} of its file can't be loaded")
            }
            Reason::LongWords => f.write_str("its words don't fit on the stack page"),
        }
    }
}
