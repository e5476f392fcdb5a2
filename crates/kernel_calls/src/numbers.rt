//! The numbers of the kernel calls (xv6's `syscall.h`; `sbrklazy` is this project's own). A call's `number` is the one that
//! stands here.

/// The number of `fork`.
pub const FORK: i32 = 1;

/// The number of `exit`.
pub const EXIT: i32 = 2;

/// The number of `wait`.
pub const WAIT: i32 = 3;

/// The number of `pipe`.
pub const PIPE: i32 = 4;

/// The number of `read`.
pub const READ: i32 = 5;

/// The number of `kill`.
pub const KILL: i32 = 6;

/// The number of `exec`.
pub const EXEC: i32 = 7;

/// The number of `dup`.
pub const DUP: i32 = 10;

/// The number of `getpid`.
pub const GETPID: i32 = 11;

/// The number of `sbrk`.
pub const SBRK: i32 = 12;

/// The number of `sleep`.
pub const SLEEP: i32 = 13;

/// The number of `uptime`.
pub const UPTIME: i32 = 14;

/// The number of `open`.
pub const OPEN: i32 = 15;

/// The number of `write`.
pub const WRITE: i32 = 16;

/// The number of `close`.
pub const CLOSE: i32 = 21;

/// The number of `sbrklazy`.
pub const SBRKLAZY: i32 = 22;
