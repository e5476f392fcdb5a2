//! What a line asks for.
ghost use Rattle.std.specs.Prelude.{◌≡◌, map, IfOk};
ghost use Rattle.std.specs.Str.Lines.{lines as lines_in};
ghost use Rattle.uasm_core.specs.Views.{Gives, Answers, parts as parts_seen};
ghost use Rattle.uasm_core.specs.Statement.{statement as statement_meant, statement_of, ranged, low_bits, alone as alone_in, li_code as li_code_in, Code, given as given_in, datum as datum_in, bit_count, GivenNumber, each, stands_in as stands, immediate_bits as immediate_bits_in, indirect_bits as indirect_bits_in};
ghost use Rattle.uasm_core.specs.declared.words.Form.TheVariants as form;
ghost use Rattle.uasm_core.specs.Views.{statement as seen, given as given_seen, datum as datum_seen};

use crate::error::{AsmErrorKind, Refusal};
use crate::name::Name;
use crate::numeral::{HALF_UPPER_UNIT, Number, UPPER_NUMBERS, UPPER_UNIT};
use crate::operands::{
    immediate, indirect, label, number, one, register, register_label, register_number, registers,
    three, two,
};
use crate::parts::{Parts, is_label};
use crate::text::text;
use crate::words::{Form, Section, Width, form_named};
use rv64i_core::{
    BranchOp, Imm12, Imm20, ImmOp, Instr, LoadOp, RegOp, Shift5, Shift6, ShiftOp, StoreOp, WordOp,
};
use std::alloc::{AllocError, Global};
use xk_base::Reg;

/// The most bytes that a `.space` asks for.
const SPACE_MAX: u64 = 65536;

/// A value of data: a number of some width, or the address of a label.
#[derive(Drop)]
pub(crate) enum Datum<'a> {
    Byte(u8),
    Word(u32),
    Dword(u64),
    Address(Name<'a>),
}

/// A line without its label.
#[derive(Drop)]
pub(crate) enum Statement<'a> {
    Empty,
    Switch(Section),
    One(Instr),
    Two(Instr, Instr),
    BranchTo(BranchOp, Reg, Reg, Name<'a>),
    JumpTo(Reg, Name<'a>),
    LoadAddress(Reg, Name<'a>),
    Values(Vec<Datum<'a>>),
    Text(Vec<u8>),
    Space(u32),
}

/// The lines of the source.
pub(crate) fn lines(alloc: Global, source: &str) -> Result<Vec<&str>, AllocError>
    ensures { IfOk result (λ v. map (λ l. l.now) v.items ≡ lines_in source.now) }
{
    source.lines().collect(alloc)
}

/// The number, where it fits twelve bits with its sign.
fn twelve_bits(number: &Number) -> Result<Imm12, AsmErrorKind>
    ensures { result ≡ ranged 2048 2047 number.now (low_bits 12 number.now) }
{
    if number.is_within(2048, 2047) {
        Ok(Imm12::new(number.low_bits(12) as u16))
    } else {
        Err(AsmErrorKind::OutOfRange)
    }
}

/// The number, where it fits twenty bits.
fn twenty_bits(number: &Number) -> Result<Imm20, AsmErrorKind>
    ensures { result ≡ ranged 0 0xFFFFF number.now (low_bits 20 number.now) }
{
    if number.is_within(0, 0xFFFFF) {
        Ok(Imm20::new(number.low_bits(20) as u32))
    } else {
        Err(AsmErrorKind::OutOfRange)
    }
}

/// The number, where it is a shift of 64 bits.
fn six_bits(number: &Number) -> Result<Shift6, AsmErrorKind>
    ensures { result ≡ ranged 0 63 number.now (low_bits 6 number.now) }
{
    if number.is_within(0, 63) {
        Ok(Shift6::new(number.low_bits(6) as u8))
    } else {
        Err(AsmErrorKind::OutOfRange)
    }
}

/// The number, where it is a shift of 32 bits.
fn five_bits(number: &Number) -> Result<Shift5, AsmErrorKind>
    ensures { result ≡ ranged 0 31 number.now (low_bits 5 number.now) }
{
    if number.is_within(0, 31) {
        Ok(Shift5::new(number.low_bits(5) as u8))
    } else {
        Err(AsmErrorKind::OutOfRange)
    }
}

/// Two registers, and a number that fits twelve bits.
fn immediate_bits(operands: &[&[u8]]) -> Result<(Reg, Reg, Imm12), AsmErrorKind>
    ensures { result ≡ immediate_bits_in (map (λ b. b.now) operands.now) }
{
    let (rd, rs1, number) = immediate(operands)?;
    Ok((rd, rs1, twelve_bits(&number)?))
}

/// A register, and a number that fits twelve bits with a register in brackets.
fn indirect_bits(operands: &[&[u8]]) -> Result<(Reg, Reg, Imm12), AsmErrorKind>
    ensures { result ≡ indirect_bits_in (map (λ b. b.now) operands.now) }
{
    let (first, base, offset) = indirect(operands)?;
    Ok((first, base, twelve_bits(&offset)?))
}

fn register_statement<'a>(op: RegOp, operands: &[&[u8]]) -> Result<Statement<'a>, Refusal>
    ensures { Answers seen result (statement_of (form.Op op) (map (λ b. b.now) operands.now)) }
{
    let (rd, rs1, rs2) = registers(operands)?;
    Ok(Statement::One(Instr::Op { op, rd, rs1, rs2 }))
}

fn register_word_statement<'a>(op: WordOp, operands: &[&[u8]]) -> Result<Statement<'a>, Refusal>
    ensures { Answers seen result (statement_of (form.OpW op) (map (λ b. b.now) operands.now)) }
{
    let (rd, rs1, rs2) = registers(operands)?;
    Ok(Statement::One(Instr::OpW { op, rd, rs1, rs2 }))
}

fn immediate_statement<'a>(op: ImmOp, operands: &[&[u8]]) -> Result<Statement<'a>, Refusal>
    ensures { Answers seen result (statement_of (form.OpImm op) (map (λ b. b.now) operands.now)) }
{
    let (rd, rs1, imm) = immediate_bits(operands)?;
    Ok(Statement::One(Instr::OpImm { op, rd, rs1, imm }))
}

fn add_word_statement<'a>(operands: &[&[u8]]) -> Result<Statement<'a>, Refusal>
    ensures { Answers seen result (statement_of form.AddImmW (map (λ b. b.now) operands.now)) }
{
    let (rd, rs1, imm) = immediate_bits(operands)?;
    Ok(Statement::One(Instr::AddImmW { rd, rs1, imm }))
}

fn shift_statement<'a>(op: ShiftOp, operands: &[&[u8]]) -> Result<Statement<'a>, Refusal>
    ensures { Answers seen result (statement_of (form.ShiftImm op) (map (λ b. b.now) operands.now)) }
{
    let (rd, rs1, number) = immediate(operands)?;
    Ok(Statement::One(Instr::ShiftImm {
        op,
        rd,
        rs1,
        places: six_bits(&number)?,
    }))
}

fn shift_word_statement<'a>(op: ShiftOp, operands: &[&[u8]]) -> Result<Statement<'a>, Refusal>
    ensures { Answers seen result (statement_of (form.ShiftImmW op) (map (λ b. b.now) operands.now)) }
{
    let (rd, rs1, number) = immediate(operands)?;
    Ok(Statement::One(Instr::ShiftImmW {
        op,
        rd,
        rs1,
        places: five_bits(&number)?,
    }))
}

fn load_statement<'a>(op: LoadOp, operands: &[&[u8]]) -> Result<Statement<'a>, Refusal>
    ensures { Answers seen result (statement_of (form.Load op) (map (λ b. b.now) operands.now)) }
{
    let (rd, rs1, imm) = indirect_bits(operands)?;
    Ok(Statement::One(Instr::Load { op, rd, rs1, imm }))
}

fn store_statement<'a>(op: StoreOp, operands: &[&[u8]]) -> Result<Statement<'a>, Refusal>
    ensures { Answers seen result (statement_of (form.Store op) (map (λ b. b.now) operands.now)) }
{
    let (rs2, rs1, imm) = indirect_bits(operands)?;
    Ok(Statement::One(Instr::Store { op, rs1, rs2, imm }))
}

fn jump_register_statement<'a>(operands: &[&[u8]]) -> Result<Statement<'a>, Refusal>
    ensures { Answers seen result (statement_of form.Jalr (map (λ b. b.now) operands.now)) }
{
    let (rd, rs1, imm) = indirect_bits(operands)?;
    Ok(Statement::One(Instr::Jalr { rd, rs1, imm }))
}

fn branch_statement<'a>(op: BranchOp, operands: &[&'a [u8]]) -> Result<Statement<'a>, Refusal>
    ensures { Answers seen result (statement_of (form.Branch op) (map (λ b. b.now) operands.now)) }
{
    let (rs1, rs2, target) = three(operands)?;
    let rs1 = register(rs1)?;
    let rs2 = register(rs2)?;
    Ok(Statement::BranchTo(op, rs1, rs2, label(target)?))
}

fn jump_statement<'a>(operands: &[&'a [u8]]) -> Result<Statement<'a>, Refusal>
    ensures { Answers seen result (statement_of form.Jal (map (λ b. b.now) operands.now)) }
{
    let (rd, target) = register_label(operands)?;
    Ok(Statement::JumpTo(rd, target))
}

fn load_upper_statement<'a>(operands: &[&[u8]]) -> Result<Statement<'a>, Refusal>
    ensures { Answers seen result (statement_of form.Lui (map (λ b. b.now) operands.now)) }
{
    let (rd, number) = register_number(operands)?;
    Ok(Statement::One(Instr::Lui {
        rd,
        imm: twenty_bits(&number)?,
    }))
}

fn add_upper_statement<'a>(operands: &[&[u8]]) -> Result<Statement<'a>, Refusal>
    ensures { Answers seen result (statement_of form.Auipc (map (λ b. b.now) operands.now)) }
{
    let (rd, number) = register_number(operands)?;
    Ok(Statement::One(Instr::Auipc {
        rd,
        imm: twenty_bits(&number)?,
    }))
}

fn fence_statement<'a>(operands: &[&[u8]]) -> Result<Statement<'a>, Refusal>
    ensures { Answers seen result (statement_of form.Fence (map (λ b. b.now) operands.now)) }
{
    alone(
        operands,
        Instr::Fence {
            rd: Reg::new(0),
            rs1: Reg::new(0),
            imm: Imm12::new(0xFF),
        },
    )
}

fn nothing_statement<'a>(operands: &[&[u8]]) -> Result<Statement<'a>, Refusal>
    ensures { Answers seen result (statement_of form.Nothing (map (λ b. b.now) operands.now)) }
{
    alone(
        operands,
        Instr::OpImm {
            op: ImmOp::Addi,
            rd: Reg::new(0),
            rs1: Reg::new(0),
            imm: Imm12::new(0),
        },
    )
}

fn return_statement<'a>(operands: &[&[u8]]) -> Result<Statement<'a>, Refusal>
    ensures { Answers seen result (statement_of form.Return (map (λ b. b.now) operands.now)) }
{
    alone(
        operands,
        Instr::Jalr {
            rd: Reg::new(0),
            rs1: Reg::new(1),
            imm: Imm12::new(0),
        },
    )
}

fn move_statement<'a>(operands: &[&[u8]]) -> Result<Statement<'a>, Refusal>
    ensures { Answers seen result (statement_of form.Move (map (λ b. b.now) operands.now)) }
{
    let (rd, rs1) = two(operands)?;
    let rd = register(rd)?;
    let rs1 = register(rs1)?;
    Ok(Statement::One(Instr::OpImm {
        op: ImmOp::Addi,
        rd,
        rs1,
        imm: Imm12::new(0),
    }))
}

fn jump_always_statement<'a>(operands: &[&'a [u8]]) -> Result<Statement<'a>, Refusal>
    ensures { Answers seen result (statement_of form.JumpAlways (map (λ b. b.now) operands.now)) }
{
    let target = label(one(operands)?)?;
    Ok(Statement::JumpTo(Reg::new(0), target))
}

fn call_statement<'a>(operands: &[&'a [u8]]) -> Result<Statement<'a>, Refusal>
    ensures { Answers seen result (statement_of form.Call (map (λ b. b.now) operands.now)) }
{
    let target = label(one(operands)?)?;
    Ok(Statement::JumpTo(Reg::new(1), target))
}

fn load_address_statement<'a>(operands: &[&'a [u8]]) -> Result<Statement<'a>, Refusal>
    ensures { Answers seen result (statement_of form.LoadAddress (map (λ b. b.now) operands.now)) }
{
    let (rd, target) = register_label(operands)?;
    Ok(Statement::LoadAddress(rd, target))
}

fn switch_statement<'a>(op: Section, operands: &[&[u8]]) -> Result<Statement<'a>, Refusal>
    ensures { Answers seen result (statement_of (form.Switch op) (map (λ b. b.now) operands.now)) }
{
    match operands {
        [] => Ok(Statement::Switch(op)),
        _ => Err(Refusal::Kind(AsmErrorKind::BadOperand)),
    }
}

fn space_statement<'a>(operands: &[&[u8]]) -> Result<Statement<'a>, Refusal>
    ensures { Answers seen result (statement_of form.Space (map (λ b. b.now) operands.now)) }
{
    let count = number(one(operands)?)?;
    if count.is_within(0, SPACE_MAX) {
        Ok(Statement::Space(count.low_bits(17) as u32))
    } else {
        Err(Refusal::Kind(AsmErrorKind::OutOfRange))
    }
}

/// Lui, and addiw where the low part isn't 0; or addi alone.
fn li_code<'a>(rd: Reg, number: &Number) -> Statement<'a>
    ensures { seen result ≡ Code (li_code_in rd number.now) }
{
    let word = number.low_bits(32);
    let upper = Imm20::new(((word + HALF_UPPER_UNIT) / UPPER_UNIT % UPPER_NUMBERS) as u32);
    let lower = (word % UPPER_UNIT) as u16;
    if number.is_within(2048, 2047) {
        Statement::One(Instr::OpImm {
            op: ImmOp::Addi,
            rd,
            rs1: Reg::new(0),
            imm: Imm12::new(number.low_bits(12) as u16),
        })
    } else if lower == 0 {
        Statement::One(Instr::Lui { rd, imm: upper })
    } else {
        Statement::Two(
            Instr::Lui { rd, imm: upper },
            Instr::AddImmW {
                rd,
                rs1: rd,
                imm: Imm12::new(lower),
            },
        )
    }
}

fn load_number_statement<'a>(operands: &[&[u8]]) -> Result<Statement<'a>, Refusal>
    ensures { Answers seen result (statement_of form.LoadNumber (map (λ b. b.now) operands.now)) }
{
    let (rd, number) = register_number(operands)?;
    if number.is_within(0x8000_0000, 0x7FFF_FFFF) {
        Ok(li_code(rd, &number))
    } else {
        Err(Refusal::Kind(AsmErrorKind::OutOfRange))
    }
}

fn text_statement<'a>(alloc: Global, operands: &[&[u8]]) -> Result<Statement<'a>, Refusal>
    ensures { Answers seen result (statement_of form.Text (map (λ b. b.now) operands.now)) }
{
    let mut bytes = text(alloc, one(operands)?)?;
    bytes.push(0)?;
    Ok(Statement::Text(bytes))
}

/// An instruction without operands.
fn alone<'a>(operands: &[&[u8]], instruction: Instr) -> Result<Statement<'a>, Refusal>
    ensures { Answers seen result (alone_in (map (λ b. b.now) operands.now) instruction) }
{
    match operands {
        [] => Ok(Statement::One(instruction)),
        _ => Err(Refusal::Kind(AsmErrorKind::BadOperand)),
    }
}

/// A value as it is given, before its range is tested.
#[derive(Drop)]
enum Given<'a> {
    Number(Number),
    Label(Name<'a>),
}

fn read_value<'a>(width: Width, bytes: &'a [u8]) -> Result<Given<'a>, AsmErrorKind>
    ensures { Gives given_seen result (given_in width bytes.now) }
{
    if matches!(width, Width::Dword) && is_label(bytes) {
        Ok(Given::Label(Name::new(bytes)))
    } else {
        Ok(Given::Number(number(bytes)?))
    }
}

fn bits(width: Width) -> u32
    ensures { result ≡ bit_count width }
{
    match width {
        Width::Byte => 8,
        Width::Word => 32,
        Width::Dword => 64,
    }
}

fn known<'a>(width: Width, number: &Number) -> Result<Datum<'a>, AsmErrorKind>
    ensures { Gives datum_seen result (datum_in width (GivenNumber number.now)) }
{
    let count = bits(width);
    let half = 1u64 << (count - 1);
    if !number.is_within(half, half + (half - 1)) {
        return Err(AsmErrorKind::OutOfRange);
    }
    let low = number.low_bits(count);
    Ok(match width {
        Width::Byte => Datum::Byte(low as u8),
        Width::Word => Datum::Word(low as u32),
        Width::Dword => Datum::Dword(low),
    })
}

fn stored_value<'a>(width: Width, given: &Given<'a>) -> Result<Datum<'a>, AsmErrorKind>
    ensures { Gives datum_seen result (datum_in width (given_seen given.now)) }
{
    match given {
        Given::Number(number) => known(width, number),
        Given::Label(label) => Ok(Datum::Address(Name::new(label.bytes()))),
    }
}

fn all_given<'a>(
    alloc: Global,
    width: Width,
    operands: &[&'a [u8]],
) -> Result<Vec<Given<'a>>, Refusal>
    ensures { Answers (λ v. map given_seen v.items) result
        (each (given_in width) (map (λ b. b.now) operands.now)) }
{
    let mut found = Vec::new(alloc);
    for operand in operands {
        found.push(read_value(width, *operand)?)?;
    }
    Ok(found)
}

fn all_data<'a>(
    alloc: Global,
    width: Width,
    values: &[Given<'a>],
) -> Result<Vec<Datum<'a>>, Refusal>
    ensures { Answers (λ v. map datum_seen v.items) result
        (each (datum_in width) (map given_seen values.now)) }
{
    let mut found = Vec::new(alloc);
    for value in values {
        found.push(stored_value(width, value)?)?;
    }
    Ok(found)
}

fn values_statement<'a>(
    alloc: Global,
    width: Width,
    operands: &[&'a [u8]],
) -> Result<Statement<'a>, Refusal>
    ensures { Answers seen result (statement_of (form.Values width) (map (λ b. b.now) operands.now)) }
{
    if operands.is_empty() {
        return Err(Refusal::Kind(AsmErrorKind::BadOperand));
    }
    let values = all_given(alloc, width, operands)?;
    Ok(Statement::Values(all_data(alloc, width, &values)?))
}

/// What a word with these operands asks for.
fn formed<'a>(alloc: Global, form: Form, operands: &[&'a [u8]]) -> Result<Statement<'a>, Refusal>
    ensures { Answers seen result (statement_of form (map (λ b. b.now) operands.now)) }
{
    match form {
        Form::Op(op) => register_statement(op, operands),
        Form::OpW(op) => register_word_statement(op, operands),
        Form::OpImm(op) => immediate_statement(op, operands),
        Form::AddImmW => add_word_statement(operands),
        Form::ShiftImm(op) => shift_statement(op, operands),
        Form::ShiftImmW(op) => shift_word_statement(op, operands),
        Form::Load(op) => load_statement(op, operands),
        Form::Store(op) => store_statement(op, operands),
        Form::Branch(op) => branch_statement(op, operands),
        Form::Jalr => jump_register_statement(operands),
        Form::Jal => jump_statement(operands),
        Form::Lui => load_upper_statement(operands),
        Form::Auipc => add_upper_statement(operands),
        Form::Fence => fence_statement(operands),
        Form::Ecall => alone(operands, Instr::Ecall),
        Form::Ebreak => alone(operands, Instr::Ebreak),
        Form::Nothing => nothing_statement(operands),
        Form::Move => move_statement(operands),
        Form::JumpAlways => jump_always_statement(operands),
        Form::Call => call_statement(operands),
        Form::Return => return_statement(operands),
        Form::LoadAddress => load_address_statement(operands),
        Form::LoadNumber => load_number_statement(operands),
        Form::Switch(to) => switch_statement(to, operands),
        Form::Values(width) => values_statement(alloc, width, operands),
        Form::Text => text_statement(alloc, operands),
        Form::Space => space_statement(operands),
    }
}

/// Whether a word stands in a section: data words in .data, instructions in .text.
fn stands_in(form: Form, section: Section) -> bool
    ensures { result ≡ stands form section }
{
    match form {
        Form::Switch(_) => true,
        Form::Values(_) | Form::Text | Form::Space => matches!(section, Section::Data),
        _ => matches!(section, Section::Text),
    }
}

/// What a line asks for.
pub(crate) fn asked<'a>(
    alloc: Global,
    section: Section,
    parts: &Parts<'a>,
) -> Result<Statement<'a>, Refusal>
    ensures { Answers seen result (statement_meant section (parts_seen parts.now)) }
{
    if parts.word.is_empty() && parts.operands.is_empty() {
        return Ok(Statement::Empty);
    }
    match form_named(parts.word) {
        Some(form) if stands_in(form, section) => formed(alloc, form, &parts.operands),
        _ => Err(Refusal::Kind(AsmErrorKind::UnknownWord)),
    }
}
