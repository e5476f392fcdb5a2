//! Why something can't be done.
ghost use Rattle.std.specs.Prelude.{◌≡◌};
ghost use Rattle.xk_base.specs.declared.errors.BootError.TheVariants.{Memory, Init};

use std::alloc::AllocError;
use thiserror::Error;

/// Why a program can't be made into a process's memory.
#[derive(Clone, Copy, Debug, PartialEq, Eq, Error)]
pub enum ExecError {
    /// The file is shorter than a file header, or doesn't begin as an ELF file does.
    #[error("NotElf")]
    NotElf,
    /// The program header of this number, the least that is refused.
    #[error("BadSegment {0}")]
    BadSegment(u16),
    /// There are more argument texts than [`MAXARG`](crate::limits::MAXARG).
    #[error("TooManyArgs")]
    TooManyArgs,
    /// The argument texts don't fit.
    #[error("ArgsTooLong")]
    ArgsTooLong,
    /// Fewer frames are free than the memory costs.
    #[error("NoFrames")]
    NoFrames,
}

/// Why a machine, or a part of one, can't be made.
#[derive(Clone, Copy, Debug, PartialEq, Eq, Error)]
pub enum BootError {
    /// A number of the configuration is out of its range.
    #[error("BadConfig")]
    BadConfig,
    /// The program of this index, the least that is refused.
    #[error("BadPrograms {0}")]
    BadPrograms(usize),
    /// No program is called `init`.
    #[error("NoInit")]
    NoInit,
    /// The host has too little memory.
    #[error("Memory")]
    Memory,
    /// The program `init` can't be made into a process's memory.
    #[error("Init {0}")]
    Init(ExecError),
}

impl From<AllocError> for BootError {
    ghost from_gives = { λ _ e. e ≡ Memory };

    fn from(_e: AllocError) -> BootError {
        BootError::Memory
    }
}

impl From<ExecError> for BootError {
    ghost from_gives = { λ cause e. e ≡ Init cause };

    fn from(cause: ExecError) -> BootError {
        BootError::Init(cause)
    }
}

/// Fewer frames are free than a change costs.
#[derive(Clone, Copy, Debug, Error)]
#[error("NoFrames")]
pub struct NoFrames;

/// Bytes that the process may not reach so.
#[derive(Clone, Copy, Debug, Error)]
#[error("BadAddress")]
pub struct BadAddress;

/// No slot is free, or all pids are used up.
#[derive(Clone, Copy, Debug, PartialEq, Eq, Error)]
#[error("NoSlot")]
pub struct NoSlot;
