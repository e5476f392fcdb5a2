//! The kernel (the xv6 book, "Operating system interfaces" and "Page tables"): the code that does what
//! `kernel_spec` says.
//!
//! `specs/` says how a [`Kernel`] and its hart stand for a state of those definitions; each of its calls is a
//! change of that state.
#![tactic(auto)]

mod call_end;
mod kernel;
pub mod laws;
mod memories;

pub use call_end::CallEnd;
pub use console_core::{ConsoleList, Echo};
pub use file_table::{End, FileId, OpenFile, Target};
pub use kernel::{
    ChildState, Descriptor, FrameUse, Kernel, ProcessState, call_number, first_refused,
};
pub use memories::PipeCounts;
pub use proc_table::Call;
