//! Names, addresses and instructions.
use crate::sources::ProgramSource;
use rv64i_core::decode;
use std::fmt;
use uasm_text::Shown;
use xk_base::Pid;

/// A name that may hold any bytes: those that are no printable ASCII are shown as `?`.
#[derive(Clone, Copy)]
pub struct Name<'a>(pub &'a [u8]);

impl<'a> fmt::Display for Name<'a> {
    fn fmt<W: fmt::Write>(&self, f: &mut fmt::Formatter<W>) -> fmt::Result {
        for &byte in self.0 {
            match byte {
                b'!'..=b'~' => f.write_char(byte as char)?,
                _ => f.write_char('?')?,
            }
        }
        Ok(())
    }
}

/// A process: `process 3 (wc)`.
#[derive(Clone, Copy)]
pub struct Who<'a> {
    pub pid: Pid,
    /// The name of its program, where it is known.
    pub program: Option<&'a [u8]>,
}

impl<'a> fmt::Display for Who<'a> {
    fn fmt<W: fmt::Write>(&self, f: &mut fmt::Formatter<W>) -> fmt::Result {
        let pid = self.pid.number();
        write!(f, "process {pid}")?;
        let Some(program) = self.program else {
            return Ok(());
        };
        let name = Name(program);
        write!(f, " ({name})")
    }
}

/// An address of a program, with what is known of where it stands in its source: `0xfa8 <main+0x10>, wc.c:12`.
#[derive(Clone, Copy)]
pub struct Place<'a> {
    pub address: u64,
    pub source: ProgramSource<'a>,
}

impl<'a> fmt::Display for Place<'a> {
    fn fmt<W: fmt::Write>(&self, f: &mut fmt::Formatter<W>) -> fmt::Result {
        let address = self.address;
        write!(f, "{address:#x}")?;
        let location = self.source.location(address);
        if !location.is_known() {
            return Ok(());
        }
        let between = if location.function.is_some() {
            " "
        } else {
            ", "
        };
        write!(f, "{between}{location}")
    }
}

/// An instruction where it stands: `0xfa8 <main+0x10>, wc.c:12: sd a5, 0(a4)`. A word that is no instruction is shown as a
/// number, and one that isn't wholly there as `nothing`.
#[derive(Clone, Copy)]
pub struct Instruction<'a> {
    pub place: Place<'a>,
    /// The four bytes there.
    pub word: Option<u32>,
}

impl<'a> fmt::Display for Instruction<'a> {
    fn fmt<W: fmt::Write>(&self, f: &mut fmt::Formatter<W>) -> fmt::Result {
        let place = self.place;
        write!(f, "{place}: ")?;
        let Some(word) = self.word else {
            return f.write_str("nothing");
        };
        let Some(instruction) = decode(word) else {
            return write!(f, "the word {word:#010x}");
        };
        let shown = Shown {
            instruction,
            address: place.address,
        };
        write!(f, "{shown}")
    }
}
