//! Why a program's tables give no text.
ghost use Rattle.std.specs.Prelude.{◌≡◌};
ghost use Rattle.line_tables.specs.declared.error.TableError.TheVariants.{Memory};

use dwarf::Fault;
use std::alloc::{AllocError, AllocFailed};
use thiserror::Error;

/// Why a program's tables give no text: the first fault, of lines, then of frames, then of what is written.
#[derive(Debug, Drop, Error)]
pub enum TableError {
    /// The host has too little memory.
    #[error("Memory")]
    Memory,
    /// The table of lines is damaged; places are in bytes from the first of `.debug_line`.
    #[error("the table of lines, {0}")]
    Lines(Fault),
    /// The entries of the table of frames are damaged; places are in bytes from the first of `.debug_frame`.
    #[error("the table of frames, {0}")]
    Frames(Fault),
    /// The name of a function, a label or a source that begins here, in bytes from the first of its section, isn't one:
    /// it is empty, has more than 4095 bytes, doesn't end in its section, or has bytes that aren't shown.
    #[error("at {0}: a name that can't be read")]
    Name(u64),
    /// The text would have more than 16 MiB.
    #[error("a table of more than 16,777,216 bytes")]
    Large,
}

impl From<AllocError> for TableError {
    ghost from_gives = { λ _ e. e ≡ Memory };

    fn from(_e: AllocError) -> TableError {
        TableError::Memory
    }
}

impl<T: Drop> From<AllocFailed<T>> for TableError {
    ghost from_gives = { λ _ e. e ≡ Memory };

    fn from(_e: AllocFailed<T>) -> TableError {
        TableError::Memory
    }
}
