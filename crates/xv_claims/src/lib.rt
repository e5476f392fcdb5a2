//! What is claimed of a machine first. There is no code here: [`laws`] names what is proved.
#![tactic(auto)]

pub mod laws;
