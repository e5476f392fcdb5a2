//! The line of an instruction.
ghost use Rattle.std.specs.Prelude.{◌≡◌, ◌≤◌, ◌*◌, [], ◌∷◌, length, map, codes, decimal as decimal_of};
ghost use Rattle.rv64i_core.specs.Instructions.{branch_table};
ghost use Rattle.rv64i_core.specs.Step.{extended};
ghost use Rattle.rv64i_core.specs.declared.instruction.Instr.TheVariants.{Fence};
ghost use Rattle.uasm_text.specs.Text as meant;

use crate::names::*;
use crate::operands::{Operand, accesses, decimal, hexadecimal, place, signed_number};
use arrayvec::ArrayString;
use rv64i_core::{BranchOp, Imm12, Imm20, Instr};
use xk_base::Reg;

/// The most bytes that a line with a target's address has, as `bgeu zero, zero, 0xffffffffffffffff` does.
pub const TEXT_BYTES: usize = 35;

/// A line with one instruction, which needs no memory of the host.
pub type InstructionText = ArrayString<TEXT_BYTES>;

/// A word, and behind it its operands.
fn line(word: &str, first: &str, others: &[&str]) -> InstructionText
    requires { length (meant.line word.now (first.now ∷ map (λ o. o.now) others.now)) ≤ TEXT_BYTES }
    ensures { result.bytes ≡ meant.line word.now (first.now ∷ map (λ o. o.now) others.now) }
{
    let mut text = alone(word);
    text.push_str(" ");
    text.push_str(first);
    for other in others {
        text.push_str(", ");
        text.push_str(*other);
    }
    text
}

/// A word without operands.
fn alone(word: &str) -> InstructionText
    requires { length word.now ≤ TEXT_BYTES }
    ensures { result.bytes ≡ word.now }
{
    let mut text = InstructionText::new();
    text.push_str(word);
    text
}

fn upper(word: &str, rd: Reg, imm: Imm20) -> InstructionText
    requires { length word.now ≤ 6 }
    ensures { result.bytes ≡ meant.line word.now (meant.register rd ∷ meant.hexadecimal imm ∷ []) }
{
    let number = hexadecimal(u64::from(imm.bits()));
    line(word, register_name(rd), &[number.as_str()])
}

fn with_registers(word: &str, rd: Reg, rs1: Reg, rs2: Reg) -> InstructionText
    requires { length word.now ≤ 6 }
    ensures { result.bytes ≡ meant.line word.now (meant.register rd ∷ meant.register rs1 ∷ meant.register rs2 ∷ []) }
{
    line(
        word,
        register_name(rd),
        &[register_name(rs1), register_name(rs2)],
    )
}

fn with_immediate(word: &str, rd: Reg, rs1: Reg, imm: Imm12) -> InstructionText
    requires { length word.now ≤ 6 }
    ensures { result.bytes ≡ meant.line word.now (meant.register rd ∷ meant.register rs1 ∷ meant.signed_number imm ∷ []) }
{
    let number = signed_number(imm);
    line(
        word,
        register_name(rd),
        &[register_name(rs1), number.as_str()],
    )
}

fn with_places(word: &str, rd: Reg, rs1: Reg, places: u8) -> InstructionText
    requires { length word.now ≤ 6 }
    ensures { result.bytes ≡ meant.line word.now (meant.register rd ∷ meant.register rs1 ∷ decimal_of places ∷ []) }
{
    let number = decimal(places);
    line(
        word,
        register_name(rd),
        &[register_name(rs1), number.as_str()],
    )
}

fn with_place(word: &str, register: Reg, imm: Imm12, base: Reg) -> InstructionText
    requires { length word.now ≤ 6 }
    ensures { result.bytes ≡ meant.line word.now (meant.register register ∷ meant.place imm base ∷ []) }
{
    let place = place(imm, base);
    line(word, register_name(register), &[place.as_str()])
}

fn fence(rd: Reg, rs1: Reg, imm: Imm12) -> InstructionText
    ensures { result.bytes ≡ meant.line (codes "fence") (meant.operands [] (Fence rd rs1 imm)) }
{
    let bits = imm.bits();
    if rd.number() == 0 && rs1.number() == 0 && bits == 0x0FF {
        return alone("fence");
    }
    let before = accesses(bits / 16 % 16);
    let behind = accesses(bits % 16);
    line("fence", before.as_str(), &[behind.as_str()])
}

/// The line of an instruction, with this text for the target of a branch or a jump.
pub(crate) fn text_with(target: Operand, instruction: &Instr) -> InstructionText
    ensures { result.bytes ≡ meant.text_with target.bytes instruction.now }
{
    let word = name(instruction);
    match *instruction {
        Instr::Lui { rd, imm } => upper(word, rd, imm),
        Instr::Auipc { rd, imm } => upper(word, rd, imm),
        Instr::Jal { rd, .. } => jump(word, rd, target),
        Instr::Jalr { rd, rs1, imm } => with_place(word, rd, imm, rs1),
        Instr::Branch { op, rs1, rs2, .. } => branch(op, rs1, rs2, target),
        Instr::Load { rd, rs1, imm, .. } => with_place(word, rd, imm, rs1),
        Instr::Store { rs1, rs2, imm, .. } => with_place(word, rs2, imm, rs1),
        Instr::OpImm { rd, rs1, imm, .. } => with_immediate(word, rd, rs1, imm),
        Instr::ShiftImm {
            rd,
            rs1,
            places,
            ..
        } => with_places(word, rd, rs1, places.places()),
        Instr::Op { rd, rs1, rs2, .. } => with_registers(word, rd, rs1, rs2),
        Instr::AddImmW { rd, rs1, imm } => with_immediate(word, rd, rs1, imm),
        Instr::ShiftImmW {
            rd,
            rs1,
            places,
            ..
        } => with_places(word, rd, rs1, places.places()),
        Instr::OpW { rd, rs1, rs2, .. } => with_registers(word, rd, rs1, rs2),
        Instr::Fence { rd, rs1, imm } => fence(rd, rs1, imm),
        Instr::Ecall => alone(word),
        Instr::Ebreak => alone(word),
    }
}

fn jump(word: &str, rd: Reg, target: Operand) -> InstructionText
    requires { length word.now ≤ 6 }
    ensures { result.bytes ≡ meant.line word.now (meant.register rd ∷ target.bytes ∷ []) }
{
    line(word, register_name(rd), &[target.as_str()])
}

fn branch(op: BranchOp, rs1: Reg, rs2: Reg, target: Operand) -> InstructionText
    ensures { result.bytes ≡ meant.line (branch_table op).name (meant.register rs1 ∷ meant.register rs2 ∷ target.bytes ∷ []) }
{
    line(
        branch_name(op),
        register_name(rs1),
        &[register_name(rs2), target.as_str()],
    )
}

/// The address to which a branch or a jump at an address leads, modulo 2^64. There is none for another instruction,
/// and none for JALR, whose target is in a register.
pub fn target(instruction: &Instr, address: u64) -> Option<u64>
    ensures { result ≡ meant.target_of address instruction.now }
{
    match *instruction {
        Instr::Jal { offset, .. } => Some(address.wrapping_add(jump_distance(offset))),
        Instr::Branch { offset, .. } => Some(address.wrapping_add(branch_distance(offset))),
        _ => None,
    }
}

/// The distance of a branch, modulo 2^64.
fn branch_distance(offset: Imm12) -> u64
    ensures { result ≡ extended 13 (offset * 2) }
{
    let bits = u64::from(offset.bits());
    ((bits << 52).cast_signed() >> 51).cast_unsigned()
}

/// The distance of a jump, modulo 2^64.
fn jump_distance(offset: Imm20) -> u64
    ensures { result ≡ extended 21 (offset * 2) }
{
    let bits = u64::from(offset.bits());
    ((bits << 44).cast_signed() >> 43).cast_unsigned()
}

/// The line of an instruction at an address: a branch or a jump shows its target's address, as in `beq a0, a1, 0x40`.
pub fn text_at(instruction: &Instr, address: u64) -> InstructionText
    ensures { result.bytes ≡ meant.text_at address instruction.now }
{
    match target(instruction, address) {
        Some(target) => text_with(hexadecimal(target), instruction),
        None => text_with(Operand::new(), instruction),
    }
}
