//! What the assembler makes of the text of an instruction.
//!
//! No function here takes or gives anything: each stands for a claim about the definitions that the contracts of
//! this crate and of the assembler cite. The statements stand in `specs/Read.antt`.
ghost use Rattle.uasm_text.specs.Read.{LabelledIsRead, TargetIsShown, ShownIsRead, ShownIsProgram};

/// The assembler reads the text of an instruction as that instruction, or refuses it.
pub fn text_is_read_back()
    // In any source: a line with a label that stands where the instruction leads spells the instruction's word.
    ensures labelled_is_read { LabelledIsRead }

    // The address that is shown for a target is the one where that label stands.
    ensures target_is_shown { TargetIsShown }

    // A line with an address asks for the very instruction, or is refused: a branch, a jump, or another fence.
    ensures shown_is_read { ShownIsRead }

    // If it leads to no target, it is a whole source, and the program is the instruction's word.
    ensures shown_is_program { ShownIsProgram }
{}
