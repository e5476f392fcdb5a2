//! Why the programs of FILEs can't be had, or their lines.
ghost use Rattle.std.specs.Prelude.{◌≡◌};
ghost use Rattle.program_files.specs.declared.refusal.FileRefusal.TheVariants as refusals;

use std::alloc::{AllocError, AllocFailed};
use thiserror::Error;
use uasm_core::AsmError;

/// Why a FILE gives no program, or a table no lines.
#[derive(Debug, Drop, Error)]
pub enum FileRefusal<'a> {
    /// The FILE of this path can't be read.
    #[error("{0}: cannot be read")]
    CannotBeRead(&'a str),
    /// The FILE of this path has more bytes than a program may have.
    #[error("{0}: too long")]
    TooLong(&'a str),
    /// The FILE of this path is to be assembled, and isn't UTF-8.
    #[error("{0}: not text")]
    NotText(&'a str),
    /// The FILE of this path can't be assembled.
    #[error("{0}: {1}")]
    Assembly(&'a str, AsmError),
    /// No FILE has this name.
    #[error("{0}: no FILE has this name")]
    NoSuchName(&'a str),
    /// The file of this path can't be read as a table of lines.
    #[error("{0}: cannot be read as a table of lines")]
    NoTable(&'a str),
    /// The host has too little memory.
    #[error("out of memory")]
    OutOfMemory,
}

impl From<AllocError> for FileRefusal<'_> {
    ghost from_gives = { λ _ refusal. refusal ≡ refusals.OutOfMemory };

    fn from(_error: AllocError) -> Self {
        FileRefusal::OutOfMemory
    }
}

impl<T: Drop> From<AllocFailed<T>> for FileRefusal<'_> {
    ghost from_gives = { λ _ refusal. refusal ≡ refusals.OutOfMemory };

    fn from(_error: AllocFailed<T>) -> Self {
        FileRefusal::OutOfMemory
    }
}
