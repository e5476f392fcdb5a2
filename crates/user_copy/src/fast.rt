//! What is there for speed alone: nothing in this folder has a meaning of its own.
//!
//! Bytes go between a process's pages and a pipe from frame to frame. The plain way is a copy into a list and a push of
//! it, or a pull into a list and a copy of that, and what each call promises is what the plain way does.
pub(crate) mod pipes;
