//! What a call was given.

/// What a descriptor names.
#[derive(Clone, Copy)]
pub enum Thing {
    /// Nothing: it isn't in use, or the call takes no descriptor.
    Nothing,
    Console,
    /// A file of the machine.
    File,
    /// The end of a pipe from which bytes are read.
    ReadEnd,
    /// The end of a pipe into which bytes are written.
    WriteEnd,
}

/// What a kernel call was given. An argument that the call doesn't take is 0.
#[derive(Clone, Copy)]
pub struct Given {
    /// The first argument: a C int, or an address, read as signed.
    pub first: i64,
    /// The second.
    pub second: i64,
    /// The third.
    pub third: i64,
    /// The first byte that a write was given, 0 to 255; -1 for any other call, and if there is no such byte.
    pub byte: i64,
    /// What the descriptor in the first argument names.
    pub on: Thing,
    /// Which of the run's pipes that is an end of: they are numbered from 1 on, in the order in which they were made. 0 if
    /// it is no pipe's end.
    pub pipe: u64,
}
