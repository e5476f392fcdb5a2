//! Kernel calls as lines of text: `read(3, "echo hi\n", 64) = 8`.
//!
//! [`asked_of`] tells what a process asks for. [`show_call`] writes that with the memory that a machine
//! has: before the call, or once it is done; [`show_answer`] writes what it answered. Which bytes are written stands
//! in `specs/Line.antt`.
#![tactic(auto)]

mod line;
mod memory;
mod strings;

pub use call_reasons::{Asked, asked_of};
pub use line::{TEXTS_MOST, show_answer, show_call};
pub use strings::CString;
