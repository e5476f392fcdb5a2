//! Why an expression leads nowhere.
use thiserror::Error;

/// Why a step leads nowhere.
#[derive(Clone, Copy, Debug, Error)]
pub enum Refusal {
    /// The value is no pointer to values of a known size, and no array.
    #[error("this is no pointer to a value of a known size, and no array")]
    NoPointer,
    /// The value is no structure, and no union.
    #[error("only a structure or a union has members (of what a pointer leads to they come by ->)")]
    NoRecord,
    /// The structure or the union has no member of the name.
    #[error("the structure has no such member")]
    NoMember,
    /// The member has some bits of a number, or a place that isn't known: it has no address.
    #[error("a member of some bits, or without a known place, is told with its structure only")]
    NoBytes,
    /// The pointer isn't in the memory of the process.
    #[error("the pointer isn't in the memory of the process")]
    NotThere,
    /// The value isn't in memory.
    #[error("the value isn't in memory, so it has no address")]
    NoAddress,
    /// An address is taken apart.
    #[error("an address is taken last")]
    OfAddress,
}
