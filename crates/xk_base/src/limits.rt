//! The machine's limits, each named once.
//!
//! The names in capitals without a break (`NPROC`, `NOFILE`, `MAXPATH`, `MAXARG`) are xv6's own.
//! `NOFILE`, `OPEN_FILES` and `PIPE_BYTES` are larger than in xv6; their lines say what it has.

/// Bytes of a page, and of a frame (RISC-V Privileged ISA, Sv39; xv6's `PGSIZE`).
pub const PAGE_BYTES: u64 = 4096;

/// The same, as the length of a list of bytes.
pub const FRAME_BYTES: usize = PAGE_BYTES as usize;

/// The fewest frames that RAM may have.
pub const FRAMES_MIN: u32 = 16;

/// The most frames that RAM may have: xv6's 128 MiB.
pub const FRAMES_MAX: u32 = 32_768;

/// The address at which RAM begins.
pub const RAM_BASE: u64 = 0x8000_0000;

/// Virtual pages that a process may have are numbered below this: the lower half of Sv39's addresses.
pub const VPN_END: u32 = 0x400_0000;

/// The first address behind the last page that a process may have.
pub const ADDRESS_END: u64 = VPN_END as u64 * PAGE_BYTES;

/// The largest size of a process's memory, in bytes: where xv6 puts its trapframe page.
pub const SIZE_LIMIT: u64 = 0x3F_FFFF_E000;

/// Slots for processes.
pub const NPROC: usize = 64;

/// The greatest pid.
pub const PID_MAX: u32 = 0x7FFF_FFFF;

/// Descriptors of a process (xv6: 16).
pub const NOFILE: usize = 32;

/// Open files of all processes together (xv6's `NFILE`: 100): so many that each descriptor may have its own.
pub const OPEN_FILES: usize = NPROC * NOFILE;

/// Bytes that a pipe holds (xv6's `PIPESIZE`: 512).
pub const PIPE_BYTES: usize = 2048;

/// Bytes of a path, with its zero byte.
pub const MAXPATH: usize = 128;

/// Argument texts of a program: xv6's `MAXARG` is 32, since it counts the null pointer behind them too.
pub const MAXARG: usize = 31;

/// Bytes of all argument texts together, with their zero bytes.
pub const ARG_BYTES: usize = 4096;

/// Bytes of input that the console holds, committed or not.
pub const CONSOLE_BYTES: usize = 128;

/// The most bytes that one key makes the console show: three for each byte that it takes back.
pub const ECHO_BYTES: usize = 384;

/// Bytes that wait to be sent.
pub const SEND_BYTES: usize = 32;

/// Notes that a trace may keep.
pub const TRACE_MAX: u32 = 65_536;

/// Programs that a machine may be given.
pub const PROGRAMS_MAX: usize = 64;

/// Bytes of a program's name.
pub const NAME_MAX: usize = 14;

/// Bytes of a program file.
pub const PROGRAM_BYTES: usize = 1_048_576;
