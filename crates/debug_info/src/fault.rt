//! Why the tables of a program can't be read.
use dwarf::{Fault, LineError};
use std::alloc::{AllocError, AllocFailed};
use thiserror::Error;

/// Why the tables of a program can't be read. Places are in bytes from the section's first.
#[derive(Debug, Drop, Error)]
pub enum InfoError {
    /// The host has too little memory.
    #[error("Memory")]
    Memory,
    /// A number or a text of `.debug_info` or `.debug_abbrev` is damaged, or of a form that isn't known.
    #[error("{0}")]
    Damaged(Fault),
    /// The abbreviation that begins here isn't the next one: those of a table are numbered from 1 on, in their order.
    #[error("at {0}: an abbreviation that isn't the next one")]
    Order(usize),
    /// The abbreviation that begins here has more than 64 attributes.
    #[error("at {0}: an abbreviation of too many attributes")]
    Large(usize),
    /// The entry that begins here has an abbreviation that its unit doesn't have.
    #[error("at {0}: no such abbreviation")]
    Abbreviation(usize),
    /// Up to the unit that begins here, the units have asked for more abbreviations than four times those there are.
    #[error("at {0}: too many tables of abbreviations")]
    Abbreviations(usize),
}

impl From<AllocError> for InfoError {
    fn from(_e: AllocError) -> InfoError {
        InfoError::Memory
    }
}

impl<T: Drop> From<AllocFailed<T>> for InfoError {
    fn from(_e: AllocFailed<T>) -> InfoError {
        InfoError::Memory
    }
}

impl From<Fault> for InfoError {
    fn from(fault: Fault) -> InfoError {
        InfoError::Damaged(fault)
    }
}

impl From<LineError> for InfoError {
    fn from(e: LineError) -> InfoError {
        match e {
            LineError::Memory => InfoError::Memory,
            LineError::Damaged(fault) => InfoError::Damaged(fault),
        }
    }
}
