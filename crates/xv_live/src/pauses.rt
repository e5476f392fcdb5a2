//! Why a machine isn't attended to any more.

/// Why a machine isn't attended to any more.
#[derive(Clone, Copy)]
pub enum Pause {
    /// Process 1 went with this status.
    Halted(i32),
    /// The debugger was asked for.
    Debugger,
    /// The end was asked for.
    End,
    /// No key will come any more, and without one nothing happens.
    NoKeys,
}
