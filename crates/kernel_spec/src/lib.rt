//! The meaning of the kernel (the xv6 book, "Operating system interfaces" and "Page tables"), as definitions in `specs/`, and
//! what follows from them. There is no code here: [`laws`] names what is proved. `kcall_core` is the code that does what
//! is said here; [README](../README.md) tells in which order to read it aloud.
#![tactic(auto)]

pub mod laws;
