//! Tests of the crates below the kernel and of the assembler, by their public calls: what no contract says, vectors from
//! outside, and what no program of `machine_tests` reaches.
//!
//! A crate that has tests is proved twice by the gate, once without them and once with them. Here nothing but tests is
//! proved, so each of them costs itself alone. Nothing stands on this crate.
#![tactic(auto)]

#[cfg(test)]
mod assembler;
#[cfg(test)]
mod base;
#[cfg(test)]
mod checking;
#[cfg(test)]
mod constructors;
#[cfg(test)]
mod free_frames;
#[cfg(test)]
mod hart;
#[cfg(test)]
mod instruction_text;
#[cfg(test)]
mod instructions;
#[cfg(test)]
mod page_tables;
#[cfg(test)]
mod spaces;
#[cfg(test)]
mod symbols;
