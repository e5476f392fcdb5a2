//! Instructions that are printed.
ghost use Rattle.std.specs.Prelude.{◌≡◌, [], ◌++◌, Some};
ghost use Rattle.uasm_text.specs.Text as meant;

use crate::line::{text_at, text_with};
use crate::operands::Operand;
use rv64i_core::Instr;
use std::fmt;

/// An instruction at an address: a branch or a jump shows its target's address, as in `beq a0, a1, 0x40`.
#[derive(Clone, Copy)]
pub struct Shown {
    pub instruction: Instr,
    pub address: u64,
}

impl fmt::Display for Shown {
    ghost output = { λ s. Some (meant.text_at s.address s.instruction) };

    fn fmt<W: fmt::Write>(&self, f: &mut fmt::Formatter<W>) -> fmt::Result {
        f.pad(text_at(&self.instruction, self.address).as_str())
    }
}

/// An instruction with a label for the target of a branch or a jump, as in `beq a0, a1, again`. Other instructions
/// show no label.
#[derive(Clone, Copy)]
pub struct Labelled<'a> {
    pub instruction: Instr,
    pub label: &'a str,
}

/// What stands behind the text without a label: the label, if the instruction leads to a target.
fn label_behind<'a>(instruction: &Instr, label: &'a str) -> &'a str
    ensures { meant.text_with label.now instruction.now ≡ meant.text_with [] instruction.now ++ result.now }
{
    match *instruction {
        Instr::Jal { .. } | Instr::Branch { .. } => label,
        _ => "",
    }
}

impl<'a> fmt::Display for Labelled<'a> {
    ghost output = { λ s. Some (meant.text_with s.label.now s.instruction) };

    fn fmt<W: fmt::Write>(&self, f: &mut fmt::Formatter<W>) -> fmt::Result {
        let front = text_with(Operand::new(), &self.instruction);
        f.write_str(front.as_str())?;
        f.write_str(label_behind(&self.instruction, self.label))
    }
}
