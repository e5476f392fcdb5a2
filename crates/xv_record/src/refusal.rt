//! Why a record can't be read or played.
use std::alloc::{AllocError, AllocFailed};
use thiserror::Error;

/// Why a text isn't a record.
#[derive(Clone, Copy, Debug, Error)]
pub enum RecordError {
    /// It doesn't begin as a record does.
    #[error("not a record")]
    NotARecord,
    /// The line of this number, counted from 1, is none of a record; those of events begin anew at 1.
    #[error("line {0} of its events is no event")]
    Line(u64),
    /// The line of this number, counted from 1, isn't what a record's head has there.
    #[error("line {0} is not what a record has there")]
    Head(u64),
    /// A number or a line break is written otherwise than a record has it.
    #[error("it was written otherwise than a record is")]
    Form,
    /// It ends before its events, or, if all of it is asked for, before its line `end` or behind it.
    #[error("cut short: it has no end")]
    CutShort,
    /// The host has too little memory.
    #[error("out of memory")]
    Memory,
}

/// Why a record can't be played with the files that are there.
#[derive(Debug, Drop, Error)]
pub enum RecordRefusal<'a> {
    /// No file is there for the program of this name.
    #[error("program {0}: it was recorded with a file that isn't given")]
    Missing(&'a str),
    /// The file of this name has other bytes than the one that was recorded.
    #[error("program {0}: another file than the one that was recorded")]
    Differs(&'a str),
    /// The host has too little memory.
    #[error("out of memory")]
    Memory,
}

impl From<AllocError> for RecordError {
    fn from(_error: AllocError) -> Self {
        RecordError::Memory
    }
}

impl<T: Drop> From<AllocFailed<T>> for RecordError {
    fn from(_error: AllocFailed<T>) -> Self {
        RecordError::Memory
    }
}

impl From<AllocError> for RecordRefusal<'_> {
    fn from(_error: AllocError) -> Self {
        RecordRefusal::Memory
    }
}

impl<T: Drop> From<AllocFailed<T>> for RecordRefusal<'_> {
    fn from(_error: AllocFailed<T>) -> Self {
        RecordRefusal::Memory
    }
}
