//! Names, ranges, limits and errors that every layer of the machine shares.
//!
//! A number with a range (a pid, a frame, a register) is a type of its own, and contracts see it as
//! the plain number. Words on numbers, lists and program files that several crates' contracts cite
//! stand in this crate's `specs/`.
#![tactic(auto)]

mod access;
mod descriptor;
mod errors;
pub mod file_number;
pub mod limits;
mod page;
mod process_id;
mod program;
mod ram_frame;
mod register;
mod virtual_page;

pub use access::{Access, Cause, Perm, Rights};
pub use descriptor::Fd;
pub use errors::{BadAddress, BootError, ExecError, NoFrames, NoSlot};
pub use page::{FrameBytes, page_count, page_offset};
pub use process_id::Pid;
pub use program::{Header, Program, ProgramHeader, Segment};
pub use ram_frame::Frame;
pub use register::Reg;
pub use virtual_page::Vpn;
