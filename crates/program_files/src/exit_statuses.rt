//! The exit statuses of programs, each with a name.

/// It did what it was asked for. A run: `init` exited with 0.
pub const DONE: u8 = 0;

/// The command line is refused.
pub const WORDS_REFUSED: u8 = 1;

/// What the command line names is refused, or memory ran out.
pub const REFUSED: u8 = 2;

/// `init` exited with another status than 0.
pub const EXITED_OTHERWISE: u8 = 3;

/// The run is over, and `init` has not exited.
pub const NOT_EXITED: u8 = 4;

/// A device failed, or a file can't be written.
pub const DEVICE_FAILED: u8 = 5;

/// The run has used up its budget of work.
pub const OVER_BUDGET: u8 = 6;
