//! How a step of a kernel call ends.

/// How a step of a kernel call ends.
#[derive(Clone, Copy)]
pub enum CallEnd {
    /// The call is done, and a0 has this answer.
    Done(i64),
    /// The process sleeps until what it waits for may have come.
    Wait,
    /// The process has ended with this status.
    Gone(i32),
}
