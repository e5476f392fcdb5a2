//! What tests of calls ask of a descriptor.

/// A descriptor in use.
#[derive(Clone, Copy)]
pub(crate) struct Opened {
    /// Whether it may be read by.
    pub reads: bool,
    /// Whether it may be written by.
    pub writes: bool,
    /// Whether it is on a program's file.
    pub is_file: bool,
    /// Whether it is on a pipe from which nobody can read.
    pub is_unread: bool,
}
