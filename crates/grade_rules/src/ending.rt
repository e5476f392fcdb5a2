//! How a run ended.

/// How a run ended.
#[derive(Clone, Copy, PartialEq, Eq)]
pub enum End {
    /// `init` is gone, with this status.
    Exited(i32),
    /// All its Runs are over, and at the last one no process could run.
    Waits,
    /// The same, and the console still sends what they wrote: each of the last Sends sent a byte.
    Floods,
    /// All its Runs are over, and at the last one a process could.
    Computes,
    /// It made more notes than are kept.
    TooManyNotes,
    /// It showed more bytes than are kept.
    TooMuchShown,
    /// Its budget of work is used up.
    OverBudget,
}
