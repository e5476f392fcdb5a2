//! What a process sleeps on.
use xk_base::{Frame, Pid};

/// What a process sleeps on until it is woken (the xv6 book, "Sleep and wakeup").
#[derive(Clone, Copy, PartialEq, Eq)]
pub enum Channel {
    /// The end of a child of this process.
    Children(Pid),
    /// Bytes in the pipe of this frame.
    Bytes(Frame),
    /// Room in the pipe of this frame.
    Room(Frame),
    /// A tick of the clock.
    Clock,
    /// Committed keys of the console.
    Keys,
    /// Room among the bytes that the console has to send.
    Sending,
}
