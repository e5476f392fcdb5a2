//! What is there for speed alone: nothing in this folder has a meaning of its own.
//!
//! A trace is a ring of notes. This one keeps runs of equal notes, and what each call promises is what a ring that keeps
//! note by note does.
pub(crate) mod trace_runs;
