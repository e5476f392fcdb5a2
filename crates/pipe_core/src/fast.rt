//! What is there for speed alone: nothing in this folder has a meaning of its own.
//!
//! [`push`](crate::push) and [`pull`](crate::pull) move bytes between a pipe and a list. Here they go between a pipe
//! and another frame, with no copy in between. What each call promises is what the plain one does with the bytes of
//! that frame.
pub(crate) mod frames;
