//! Why a debugging table can't be read.
ghost use Rattle.std.specs.Prelude.{◌≡◌};
ghost use Rattle.dwarf.specs.declared.fault.LineError.TheVariants.{Memory, Damaged};

use std::alloc::{AllocError, AllocFailed};
use thiserror::Error;

/// What is wrong with a table: the first fault, from left to right. Each has the place of what is wrong, in bytes from
/// the section's first.
#[derive(Clone, Copy, Debug, PartialEq, Eq, Error)]
pub enum Fault {
    /// The bytes end before the number or the text that begins here does.
    #[error("at {0}: the table ends in the middle")]
    Short(usize),
    /// The number that begins here has more than 64 bits.
    #[error("at {0}: a number of more than 64 bits")]
    TooLarge(usize),
    /// The length of the unit, or of the instruction, that begins here isn't one, or is more than there is.
    #[error("at {0}: a length that doesn't fit")]
    Length(usize),
    /// The unit that begins here is of a version that is neither 2, 3, 4 nor 5.
    #[error("at {0}: a version that isn't known")]
    Version(usize),
    /// The header of the unit that begins here is longer than the unit, or shorter than what stands in it.
    #[error("at {0}: a header whose length doesn't fit")]
    Header(usize),
    /// The unit that begins here is for machines with several operations in an instruction.
    #[error("at {0}: several operations in an instruction")]
    Operations(usize),
    /// The unit that begins here numbers its opcodes from 0 on.
    #[error("at {0}: special opcodes that begin at 0")]
    OpcodeBase(usize),
    /// The special opcode here has no meaning: its unit's range of lines is 0.
    #[error("at {0}: a special opcode in a unit whose range of lines is 0")]
    LineRange(usize),
    /// The address here has neither 4 nor 8 bytes.
    #[error("at {0}: an address of neither 4 nor 8 bytes")]
    Address(usize),
    /// The value here is of a form that isn't known.
    #[error("at {0}: a form that isn't known")]
    Form(usize),
    /// The entries of the list that begins here have no fields.
    #[error("at {0}: entries without fields")]
    Format(usize),
    /// The name that begins here doesn't end in its section, or has more than 4095 bytes.
    #[error("at {0}: a name that doesn't end, or is too long")]
    Name(usize),
    /// The table here has no entry of this number. No function gives this: it is for callers that look up a row's file.
    #[error("at {0}: no such directory or file")]
    Missing(usize),
    /// The entry that begins here, of what several functions' frames have in common, isn't one, or is of a form that
    /// isn't read: with an augmentation, addresses of other than 8 bytes, or another return address than ra.
    #[error("at {0}: a common entry of frames that isn't known")]
    Common(usize),
    /// The entry that begins here, of what several functions' frames have in common, has more than 4096 bytes.
    #[error("at {0}: a common entry of frames that is too long")]
    Large(usize),
    /// The instruction of a frame's program that begins here isn't known.
    #[error("at {0}: an instruction of frames that isn't known")]
    Instruction(usize),
    /// The instruction here takes rules back, and none are kept.
    #[error("at {0}: rules that were never kept")]
    Stack(usize),
    /// The instruction here leads to a line below 0, or to one of more than 64 bits.
    #[error("at {0}: a line below 0, or of more than 64 bits")]
    Line(usize),
}

/// Why rows can't be made.
#[derive(Debug, Drop, Error)]
pub enum LineError {
    /// The host has too little memory.
    #[error("Memory")]
    Memory,
    /// The table is damaged.
    #[error("{0}")]
    Damaged(Fault),
}

impl From<AllocError> for LineError {
    ghost from_gives = { λ _ e. e ≡ Memory };

    fn from(_e: AllocError) -> LineError {
        LineError::Memory
    }
}

impl<T: Drop> From<AllocFailed<T>> for LineError {
    ghost from_gives = { λ _ e. e ≡ Memory };

    fn from(_e: AllocFailed<T>) -> LineError {
        LineError::Memory
    }
}

impl From<Fault> for LineError {
    ghost from_gives = { λ fault e. e ≡ Damaged fault };

    fn from(fault: Fault) -> LineError {
        LineError::Damaged(fault)
    }
}
