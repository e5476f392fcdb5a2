//! Instructions as text, in the language of the assembler: `ld a0, 8(sp)`.
//!
//! [`text_at`] makes the line of an instruction at an address, in a buffer of its own, and [`Shown`] is the same
//! to be printed: a branch or a jump shows its target's address, as in `beq a0, a1, 0x40`. The language has labels
//! alone there, so [`Labelled`] shows an instruction with a label for its target. What it shows is read back by the
//! assembler as the same word: [`laws`].
//!
//! Which text an instruction has is written in `specs/Text.antt`.
#![tactic(auto)]

pub mod laws;
mod line;
mod names;
mod operands;
mod shown;

pub use line::{InstructionText, TEXT_BYTES, target, text_at};
pub use names::register_name;
pub use shown::{Labelled, Shown};
