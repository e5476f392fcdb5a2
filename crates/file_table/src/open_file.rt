//! What an open file is.
ghost use Rattle.std.specs.Prelude.{◌≡◌};
ghost use Rattle.file_table.specs.OpenFiles.{offset_of, moved_to};

use xk_base::Frame;

/// The most descriptors that may name one open file.
pub const SHARERS_MAX: u16 = 4096;

/// An end of a pipe.
#[derive(Clone, Copy, PartialEq, Eq)]
pub enum End {
    Reading,
    Writing,
}

/// What an open file stands for.
#[derive(Clone, Copy)]
pub enum Target {
    Console,
    /// A program's file, by its place in the program table, and the offset of the next byte.
    Program { program: usize, offset: u64 },
    /// An end of the pipe in a frame.
    Pipe { frame: Frame, end: End },
}

/// An open file: what it stands for, and what may be done with it.
#[derive(Clone, Copy)]
pub struct OpenFile {
    pub target: Target,
    pub read: bool,
    pub write: bool,
}

/// An open file, and how many descriptors name it: from 1 to [`SHARERS_MAX`].
#[derive(Clone, Copy)]
pub(crate) struct CountedFile {
    pub(crate) file: OpenFile,
    pub(crate) count: u16,
}

impl OpenFile {
    /// The offset of the next byte; 0 where it is no program's file.
    pub(crate) fn offset(self) -> u64
        ensures { result ≡ offset_of self }
    {
        match self.target {
            Target::Console => 0,
            Target::Program { offset, .. } => offset,
            Target::Pipe { .. } => 0,
        }
    }

    /// The open file with its next byte at the offset; itself where it is no program's file.
    pub(crate) fn moved_to(self, offset: u64) -> OpenFile
        ensures { result ≡ moved_to offset self }
    {
        match self.target {
            Target::Console => self,
            Target::Program { program, .. } => OpenFile {
                target: Target::Program { program, offset },
                ..self
            },
            Target::Pipe { .. } => self,
        }
    }
}
