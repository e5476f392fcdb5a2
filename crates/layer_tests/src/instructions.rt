//! Words and their fields, and what instructions leave, beside values from outside.
ghost use Rattle.std.specs.Prelude.{◌<◌};

use super::checking::check;
use results::RESULTS;
use rv64i_core::{
    BranchOp, FlatMemory, Imm12, Imm20, ImmOp, Instr, LoadOp, RegOp, Regs, ShiftOp, Stop, StoreOp,
    UserMemory, Width, WordOp, decode, encode, execute,
};
use std::alloc::Global;
use std::process::Abort;
use std::str::SplitWhitespace;
use words::{ILLEGAL, LEGAL};
use xk_base::{BootError, Reg};

mod results;
mod words;

// The number of an instruction's name: lui auipc jal jalr, then beq bne blt bge bltu bgeu,
// lb lh lw ld lbu lhu lwu, sb sh sw sd, addi slti sltiu xori ori andi, slli srli srai,
// add sub sll slt sltu xor srl sra or and, addiw, slliw srliw sraiw, addw subw sllw srlw sraw, fence ecall ebreak.
fn name_of(instr: &Instr) -> u8 {
    match *instr {
        Instr::Lui { .. } => 0,
        Instr::Auipc { .. } => 1,
        Instr::Jal { .. } => 2,
        Instr::Jalr { .. } => 3,
        Instr::Branch { op, .. } => match op {
            BranchOp::Beq => 4,
            BranchOp::Bne => 5,
            BranchOp::Blt => 6,
            BranchOp::Bge => 7,
            BranchOp::Bltu => 8,
            BranchOp::Bgeu => 9,
        },
        Instr::Load { op, .. } => match op {
            LoadOp::Lb => 10,
            LoadOp::Lh => 11,
            LoadOp::Lw => 12,
            LoadOp::Ld => 13,
            LoadOp::Lbu => 14,
            LoadOp::Lhu => 15,
            LoadOp::Lwu => 16,
        },
        Instr::Store { op, .. } => match op {
            StoreOp::Sb => 17,
            StoreOp::Sh => 18,
            StoreOp::Sw => 19,
            StoreOp::Sd => 20,
        },
        Instr::OpImm { op, .. } => match op {
            ImmOp::Addi => 21,
            ImmOp::Slti => 22,
            ImmOp::Sltiu => 23,
            ImmOp::Xori => 24,
            ImmOp::Ori => 25,
            ImmOp::Andi => 26,
        },
        Instr::ShiftImm { op, .. } => 27 + shift_of(op),
        Instr::Op { op, .. } => match op {
            RegOp::Add => 30,
            RegOp::Sub => 31,
            RegOp::Sll => 32,
            RegOp::Slt => 33,
            RegOp::Sltu => 34,
            RegOp::Xor => 35,
            RegOp::Srl => 36,
            RegOp::Sra => 37,
            RegOp::Or => 38,
            RegOp::And => 39,
        },
        Instr::AddImmW { .. } => 40,
        Instr::ShiftImmW { op, .. } => 41 + shift_of(op),
        Instr::OpW { op, .. } => match op {
            WordOp::Addw => 44,
            WordOp::Subw => 45,
            WordOp::Sllw => 46,
            WordOp::Srlw => 47,
            WordOp::Sraw => 48,
        },
        Instr::Fence { .. } => 49,
        Instr::Ecall => 50,
        Instr::Ebreak => 51,
    }
}

fn shift_of(op: ShiftOp) -> u8
    ensures { result < 3 }
{
    match op {
        ShiftOp::Left => 0,
        ShiftOp::Right => 1,
        ShiftOp::Arithmetic => 2,
    }
}

fn signed_12(imm: Imm12) -> i64 {
    let bits = imm.bits() as i64;
    if bits < 0x800 { bits } else { bits - 0x1000 }
}

fn signed_20(imm: Imm20) -> i64 {
    let bits = imm.bits() as i64;
    if bits < 0x8_0000 {
        bits
    } else {
        bits - 0x10_0000
    }
}

// rd, rs1, rs2 and the signed immediate, in bytes for jumps; 0 where the format has none.
fn fields_of(instr: &Instr) -> (u8, u8, u8, i64) {
    match *instr {
        Instr::Lui { rd, imm } | Instr::Auipc { rd, imm } => (rd.number(), 0, 0, signed_20(imm)),
        Instr::Jal { rd, offset } => (rd.number(), 0, 0, signed_20(offset).wrapping_mul(2)),
        Instr::Jalr { rd, rs1, imm }
        | Instr::Load { rd, rs1, imm, .. }
        | Instr::OpImm { rd, rs1, imm, .. }
        | Instr::AddImmW { rd, rs1, imm }
        | Instr::Fence { rd, rs1, imm } => (rd.number(), rs1.number(), 0, signed_12(imm)),
        Instr::Branch {
            rs1,
            rs2,
            offset,
            ..
        } => (
            0,
            rs1.number(),
            rs2.number(),
            signed_12(offset).wrapping_mul(2),
        ),
        Instr::Store { rs1, rs2, imm, .. } => (0, rs1.number(), rs2.number(), signed_12(imm)),
        Instr::ShiftImm {
            rd,
            rs1,
            places,
            ..
        } => (rd.number(), rs1.number(), 0, places.places() as i64),
        Instr::ShiftImmW {
            rd,
            rs1,
            places,
            ..
        } => (rd.number(), rs1.number(), 0, places.places() as i64),
        Instr::Op { rd, rs1, rs2, .. } | Instr::OpW { rd, rs1, rs2, .. } => {
            (rd.number(), rs1.number(), rs2.number(), 0)
        }
        Instr::Ecall | Instr::Ebreak => (0, 0, 0, 0),
    }
}

// The next number of a table, in base 16.
fn number(fields: &mut SplitWhitespace<'_>) -> u64 {
    match fields.next() {
        Some(text) => u64::from_str_radix(text, 16).unwrap_or(0),
        None => 0,
    }
}

// The low 32 bits, as a word of instruction.
fn word_of(number: u64) -> u32 {
    (number & 0xffff_ffff) as u32
}

// Whether a word has the name and the fields that the line says, and is the only word that does.
fn is_legal(line: &str) -> bool {
    let mut fields = line.split_whitespace();
    let word = word_of(number(&mut fields));
    let Some(instr) = decode(word) else {
        return false;
    };
    let (rd, rs1, rs2, signed) = fields_of(&instr);
    let has_name = number(&mut fields) == u64::from(name_of(&instr));
    let has_registers = number(&mut fields) == u64::from(rd)
        && number(&mut fields) == u64::from(rs1)
        && number(&mut fields) == u64::from(rs2);
    has_name
        && has_registers
        && number(&mut fields) == signed.cast_unsigned()
        && encode(&instr) == word
}

#[test]
fn legal_words_have_their_fields(rt: HostRuntime) {
    let mut rows: u32 = 0;
    for line in LEGAL.trim().lines() {
        check(&rt, is_legal(line), line);
        rows = rows.wrapping_add(1);
    }
    check(&rt, rows == 58, "the number of words");
}

// Whether it is the number of a word that spells nothing.
fn is_illegal(text: &str) -> bool {
    match u32::from_str_radix(text, 16) {
        Ok(word) => decode(word).is_none(),
        Err(_) => false,
    }
}

#[test]
fn other_words_spell_nothing(rt: HostRuntime) {
    let mut rows: u32 = 0;
    for text in ILLEGAL.split_whitespace() {
        check(&rt, is_illegal(text), text);
        rows = rows.wrapping_add(1);
    }
    check(&rt, rows == 509, "the number of words");
}

// A row of the table: a word, x1 and x2 before it, and behind it x3, the pc, and the eight bytes at 0x200.
#[derive(Drop)]
struct Row {
    word: u32,
    x1: u64,
    x2: u64,
    x3: u64,
    pc: u64,
    eight: u64,
}

fn row_of(line: &str) -> Row {
    let mut fields = line.split_whitespace();
    Row {
        word: word_of(number(&mut fields)),
        x1: number(&mut fields),
        x2: number(&mut fields),
        x3: number(&mut fields),
        pc: number(&mut fields),
        eight: number(&mut fields),
    }
}

// A flat memory with an instruction at 0x100, and eight bytes at 0x200.
fn memory_with(alloc: Global, word: u32) -> Result<FlatMemory, BootError> {
    let mut memory = FlatMemory::new(alloc, 0x300)?;
    let _ = memory.store(0x100, Width::Word, u64::from(word));
    let _ = memory.store(0x200, Width::DoubleWord, 0x8182_8384_8586_8788);
    Ok(memory)
}

fn registers_of(row: &Row) -> Regs {
    let mut regs = Regs::new(0x100);
    regs.write(Reg::new(1), row.x1);
    regs.write(Reg::new(2), row.x2);
    regs.write(Reg::new(3), 0x5a);
    regs
}

// Whether the instruction at 0x100 leaves what the row says. x0 stays 0.
fn leaves(row: &Row, memory: &mut FlatMemory) -> bool {
    let mut regs = registers_of(row);
    let stop = execute(&mut regs, memory);
    let is_done = stop == Stop::Next && regs.pc() == row.pc;
    let is_written = regs.read(Reg::new(3)) == row.x3 && regs.read(Reg::new(0)) == 0;
    is_done && is_written && memory.load(0x200, Width::DoubleWord) == Ok(row.eight)
}

// Whether an instruction leaves what a line of the table says.
fn is_result<R: Abort + AllocGlobal>(rt: &R, line: &str) -> bool {
    let row = row_of(line);
    let mut memory = memory_with(rt.alloc(), row.word).expect(rt, "memory");
    leaves(&row, &mut memory)
}

#[test]
fn instructions_leave_the_manuals_results(rt: HostRuntime) {
    let mut rows: u32 = 0;
    for line in RESULTS.trim().lines() {
        check(&rt, is_result(&rt, line), line);
        rows = rows.wrapping_add(1);
    }
    check(&rt, rows == 289, "the number of rows");
}

// checks/hostile/run.sh refuses each growth of this test in turn, until a run meets no refusal.
#[test]
fn a_growth_that_the_host_refuses_is_want_of_memory(rt: HostRuntime) {
    if let Err(error) = memory_with(rt.alloc(), 0) {
        check(&rt, error == BootError::Memory, "the error");
    }
}
