//! Tests of the machine: stories of processes, each a text that one small interpreter plays, and tests of what a story
//! can't tell: pairs of machines, and a drive whose writer fails.
//!
//! Nothing but tests is proved here, and nothing stands on this crate, as with `layer_tests`: a crate that has tests is
//! proved twice by the gate.
#![tactic(auto)]

#[cfg(test)]
mod draft;
#[cfg(test)]
mod drives;
#[cfg(test)]
mod isolation;
#[cfg(test)]
mod scene;
#[cfg(test)]
mod stories;
#[cfg(test)]
mod story;
#[cfg(test)]
mod telling;
