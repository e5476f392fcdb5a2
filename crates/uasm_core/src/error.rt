//! Why a source was refused.
ghost use Rattle.std.specs.Prelude.{◌≡◌};
ghost use Rattle.uasm_core.specs.declared.error.AsmError.TheVariants.{Memory};
ghost use Rattle.uasm_core.specs.declared.error.Refusal.TheVariants.{NoMemory, Kind};

use std::alloc::{AllocError, AllocFailed};
use thiserror::Error;

/// What is wrong with a line.
#[derive(Clone, Copy, Debug, PartialEq, Eq, Error)]
pub enum AsmErrorKind {
    /// The line has no word of the language, or one that doesn't stand in this section.
    #[error("UnknownWord")]
    UnknownWord,
    /// An operand is missing, is one too many, or hasn't the form that the word asks for.
    #[error("BadOperand")]
    BadOperand,
    /// A number or a distance is outside its range, or the file would have over 1,048,576 bytes.
    #[error("OutOfRange")]
    OutOfRange,
    /// The line's label stands on an earlier line too.
    #[error("DuplicateLabel")]
    DuplicateLabel,
    /// No line has the label that is named.
    #[error("UnknownLabel")]
    UnknownLabel,
}

/// Why a source can't be assembled.
#[derive(Clone, Copy, Debug, PartialEq, Eq, Error)]
pub enum AsmError {
    /// The host has too little memory.
    #[error("Memory")]
    Memory,
    /// The first refusal: its line, counted from 1, and what is wrong there.
    #[error("line {line}: {kind}")]
    At { line: usize, kind: AsmErrorKind },
}

impl From<AllocError> for AsmError {
    ghost from_gives = { λ _ e. e ≡ Memory };

    fn from(_: AllocError) -> AsmError {
        AsmError::Memory
    }
}

impl<T: Drop> From<AllocFailed<T>> for AsmError {
    ghost from_gives = { λ _ e. e ≡ Memory };

    fn from(_: AllocFailed<T>) -> AsmError {
        AsmError::Memory
    }
}

/// Why a line was refused, before its number is told.
#[derive(Clone, Copy)]
pub(crate) enum Refusal {
    NoMemory,
    Kind(AsmErrorKind),
}

impl From<AsmErrorKind> for Refusal {
    ghost from_gives = { λ k e. e ≡ Kind k };

    fn from(kind: AsmErrorKind) -> Refusal {
        Refusal::Kind(kind)
    }
}

impl From<AllocError> for Refusal {
    ghost from_gives = { λ _ e. e ≡ NoMemory };

    fn from(_: AllocError) -> Refusal {
        Refusal::NoMemory
    }
}

impl<T: Drop> From<AllocFailed<T>> for Refusal {
    ghost from_gives = { λ _ e. e ≡ NoMemory };

    fn from(_: AllocFailed<T>) -> Refusal {
        Refusal::NoMemory
    }
}
