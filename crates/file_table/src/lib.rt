//! Open files, and the descriptors by which processes name them.
//!
//! [`Files`] is the one table of open files of the whole machine. Each process has a table of
//! [`Descriptors`] of its own. Several descriptors, of one process or of many, may name the same
//! open file: they then share its offset, and the table counts them.
#![tactic(auto)]

mod descriptors;
mod file_id;
mod open_file;
mod table;

pub use descriptors::Descriptors;
pub use file_id::FileId;
pub use open_file::{End, OpenFile, SHARERS_MAX, Target};
pub use table::Files;
