//! Why an exercise isn't read.
use std::alloc::{AllocError, AllocFailed, Global};
use thiserror::Error;

/// Why there is no exercise, or no result.
#[derive(Debug, Drop, Error)]
pub enum SheetError {
    /// What is wrong with the exercise, as text.
    #[error("{0}")]
    Text(String),
    /// The host has too little memory.
    #[error("out of memory")]
    Memory,
}

impl From<AllocError> for SheetError {
    fn from(_error: AllocError) -> Self {
        SheetError::Memory
    }
}

impl<T: Drop> From<AllocFailed<T>> for SheetError {
    fn from(_error: AllocFailed<T>) -> Self {
        SheetError::Memory
    }
}

/// A refusal with a text, if there was memory for it.
pub(crate) fn told(text: Result<String, AllocError>) -> SheetError {
    match text {
        Ok(text) => SheetError::Text(text),
        Err(_) => SheetError::Memory,
    }
}

/// A refusal with this text.
pub(crate) fn refused(alloc: Global, why: &str) -> SheetError {
    told(String::from_str(alloc, why))
}
