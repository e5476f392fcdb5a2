//! Expressions that have been read.

/// A step from a value to a part of it, or to what it leads to.
#[derive(Clone, Copy)]
pub enum Step<'a> {
    /// The member of this name of a structure or a union.
    Member(&'a [u8]),
    /// The element of an array of this number, or so many values after the one that a pointer leads to. A negative number
    /// is in two's complement.
    Index(u64),
    /// What a pointer leads to, or an array's first element.
    Target,
    /// Its address.
    Address,
}

/// A variable's name, and the steps from it on.
#[derive(Drop)]
pub struct Expression<'a> {
    pub name: &'a [u8],
    pub steps: Vec<Step<'a>>,
}
