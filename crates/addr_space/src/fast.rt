//! What is there for speed alone: nothing in this folder has a meaning of its own.
//!
//! [`Space::perm`](crate::Space::perm) tells what one page allows. Here many pages are asked at once, and what the call
//! promises of each of them is what the plain one tells.
pub(crate) mod permitting;
