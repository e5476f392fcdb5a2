//! The second pass: the bytes of each line.
ghost use Rattle.std.specs.Prelude.{◌≡◌, ◌≤◌, ◌<◌, ◌^◌, ◌∷◌, [], ◌++◌, map, replicate, OnOk, IfOk, Ok};
ghost use Rattle.uasm_core.specs.Views.{places_of};
ghost use Rattle.uasm_core.specs.Views.{Answers};
ghost use Rattle.uasm_core.specs.Views.{Stands, seen, bytes_in};
ghost use Rattle.uasm_core.specs.Views.{statement as statement_seen, datum as datum_seen};
ghost use Rattle.uasm_core.specs.Statement.{spelled, code_bytes, put_behind, datum_bytes, address_of, from_to as distance_between, distance as distance_in, values_bytes, BranchTo, JumpTo, LoadAddress};
ghost use Rattle.uasm_core.specs.Written.{spelled_line, put_in, all_spelled, addresses};

use crate::bytes::{put_u8, put_u32, put_u64};
use crate::error::{AsmError, AsmErrorKind, Refusal};
use crate::labels::{LabelPlaces, find};
use crate::numeral::{HALF_UPPER_UNIT, Number, UPPER_NUMBERS, UPPER_UNIT};
use crate::placing::{Placed, at_line};
use crate::statement::{Datum, Statement};
use crate::words::Section;
use rv64i_core::{BranchOp, Imm12, Imm20, ImmOp, Instr, encode};
use std::alloc::{AllocError, Global};
use xk_base::Reg;

/// The bytes of both sections.
#[derive(Drop)]
pub(crate) struct Output {
    pub text: Vec<u8>,
    pub data_bytes: Vec<u8>,
}

/// The address of a label.
fn target<'a>(labels: &LabelPlaces<'a>, text_len: u32, name: &'a [u8]) -> Result<u64, AsmErrorKind>
    ensures { result ≡ address_of (addresses text_len (places_of labels.now)) name.now }
{
    match find(labels, name) {
        Some(place) => Ok(place.address(text_len)),
        None => Err(AsmErrorKind::UnknownLabel),
    }
}

/// How far it is from one address to another.
fn from_to(from: u64, to: u64) -> Number
    ensures { result ≡ distance_between from to }
{
    if from <= to {
        Number {
            negative: false,
            magnitude: u128::from(to - from),
        }
    } else {
        Number {
            negative: true,
            magnitude: u128::from(from - to),
        }
    }
}

/// The `width` bits of a distance to jump, in half words.
fn distance(width: u32, from: u64, to: u64) -> Result<u64, AsmErrorKind>
    requires { width ≤ 32 }
    ensures value { result ≡ distance_in width from to }
    ensures range { IfOk result (λ d. d < 2 ^ width) }
{
    let in_bytes = from_to(from, to);
    let most = 1u64 << width;
    if in_bytes.low_bits(1) == 0 && in_bytes.is_within(most, most - 1) {
        Ok(in_bytes.low_bits(width + 1) / 2)
    } else {
        Err(AsmErrorKind::OutOfRange)
    }
}

/// The bytes of an instruction.
fn put_code(out: &mut Vec<u8>, instruction: &Instr) -> Result<(), Refusal>
    ensures { Answers (λ _. out.new.items) result
        (put_behind out.old.items (Ok (code_bytes (instruction.now ∷ [])))) }
{
    put_u32(out, encode(instruction))?;
    Ok(())
}

/// The bytes of two instructions.
fn put_codes(out: &mut Vec<u8>, first: &Instr, second: &Instr) -> Result<(), Refusal>
    ensures { Answers (λ _. out.new.items) result
        (put_behind out.old.items (Ok (code_bytes (first.now ∷ second.now ∷ [])))) }
{
    put_code(out, first)?;
    put_code(out, second)
}

fn put_zeros(out: &mut Vec<u8>, count: u32) -> Result<(), AllocError>
    ensures { OnOk result (out.new.items ≡ out.old.items ++ replicate count 0) }
{
    for _ in 0..count {
        out.push(0)?;
    }
    Ok(())
}

fn put_datum<'a>(
    out: &mut Vec<u8>,
    labels: &LabelPlaces<'a>,
    text_len: u32,
    datum: &Datum<'a>,
) -> Result<(), Refusal>
    ensures { Answers (λ _. out.new.items) result
        (put_behind out.old.items
        (datum_bytes (addresses text_len (places_of labels.now)) (datum_seen datum.now))) }
{
    match datum {
        Datum::Byte(number) => put_u8(out, *number)?,
        Datum::Word(number) => put_u32(out, *number)?,
        Datum::Dword(number) => put_u64(out, *number)?,
        Datum::Address(label) => {
            let to = target(labels, text_len, label.bytes())?;
            put_u64(out, to)?;
        }
    }
    Ok(())
}

fn put_values<'a>(
    out: &mut Vec<u8>,
    labels: &LabelPlaces<'a>,
    text_len: u32,
    values: &[Datum<'a>],
) -> Result<(), Refusal>
    ensures { Answers (λ _. out.new.items) result
        (put_behind out.old.items
        (values_bytes (addresses text_len (places_of labels.now))
        (map datum_seen values.now))) }
{
    for value in values {
        put_datum(out, labels, text_len, value)?;
    }
    Ok(())
}

fn put_branch<'a>(
    out: &mut Vec<u8>,
    labels: &LabelPlaces<'a>,
    text_len: u32,
    at: u64,
    op: BranchOp,
    rs1: Reg,
    rs2: Reg,
    name: &'a [u8],
) -> Result<(), Refusal>
    ensures { Answers (λ _. out.new.items) result
        (put_behind out.old.items
        (spelled (addresses text_len (places_of labels.now)) at
        (BranchTo op rs1 rs2 name.now))) }
{
    let to = target(labels, text_len, name)?;
    let offset = distance(12, at, to)?;
    put_code(
        out,
        &Instr::Branch {
            op,
            rs1,
            rs2,
            offset: Imm12::new(offset as u16),
        },
    )
}

fn put_jump<'a>(
    out: &mut Vec<u8>,
    labels: &LabelPlaces<'a>,
    text_len: u32,
    at: u64,
    rd: Reg,
    name: &'a [u8],
) -> Result<(), Refusal>
    ensures { Answers (λ _. out.new.items) result
        (put_behind out.old.items
        (spelled (addresses text_len (places_of labels.now)) at (JumpTo rd name.now))) }
{
    let to = target(labels, text_len, name)?;
    let offset = distance(20, at, to)?;
    put_code(
        out,
        &Instr::Jal {
            rd,
            offset: Imm20::new(offset as u32),
        },
    )
}

fn put_address<'a>(
    out: &mut Vec<u8>,
    labels: &LabelPlaces<'a>,
    text_len: u32,
    at: u64,
    rd: Reg,
    name: &'a [u8],
) -> Result<(), Refusal>
    ensures { Answers (λ _. out.new.items) result
        (put_behind out.old.items
        (spelled (addresses text_len (places_of labels.now)) at
        (LoadAddress rd name.now))) }
{
    let to = target(labels, text_len, name)?;
    let relative = from_to(at, to).low_bits(32);
    put_codes(
        out,
        &Instr::Auipc {
            rd,
            imm: Imm20::new(((relative + HALF_UPPER_UNIT) / UPPER_UNIT % UPPER_NUMBERS) as u32),
        },
        &Instr::OpImm {
            op: ImmOp::Addi,
            rd,
            rs1: rd,
            imm: Imm12::new((relative % UPPER_UNIT) as u16),
        },
    )
}

/// The bytes of a statement at an address.
fn put_statement<'a>(
    out: &mut Vec<u8>,
    labels: &LabelPlaces<'a>,
    text_len: u32,
    at: u64,
    statement: &Statement<'a>,
) -> Result<(), Refusal>
    ensures { Answers (λ _. out.new.items) result
        (put_behind out.old.items
        (spelled (addresses text_len (places_of labels.now)) at
        (statement_seen statement.now))) }
{
    match statement {
        Statement::Empty | Statement::Switch(_) => Ok(()),
        Statement::One(instruction) => put_code(out, instruction),
        Statement::Two(first, second) => put_codes(out, first, second),
        Statement::BranchTo(op, rs1, rs2, label) => put_branch(
            out,
            labels,
            text_len,
            at,
            *op,
            *rs1,
            *rs2,
            label.bytes(),
        ),
        Statement::JumpTo(rd, label) => put_jump(out, labels, text_len, at, *rd, label.bytes()),
        Statement::LoadAddress(rd, label) => put_address(
            out,
            labels,
            text_len,
            at,
            *rd,
            label.bytes(),
        ),
        Statement::Values(values) => put_values(out, labels, text_len, values),
        Statement::Text(text) => Ok(out.extend_from_slice(text)?),
        Statement::Space(count) => Ok(put_zeros(out, *count)?),
    }
}

/// The bytes of a statement at the end of a section.
fn put_section<'a>(
    out: &mut Output,
    section: Section,
    labels: &LabelPlaces<'a>,
    text_len: u32,
    at: u64,
    statement: &Statement<'a>,
) -> Result<(), Refusal>
    ensures { Answers (λ _. bytes_in out.new) result
        (put_in section (bytes_in out.old)
        (spelled (addresses text_len (places_of labels.now)) at
        (statement_seen statement.now))) }
{
    match section {
        Section::Text => put_statement(&mut out.text, labels, text_len, at, statement),
        Section::Data => put_statement(&mut out.data_bytes, labels, text_len, at, statement),
    }
}

fn spell_line<'a>(
    out: &mut Output,
    labels: &LabelPlaces<'a>,
    text_len: u32,
    line: &Placed<'a>,
) -> Result<(), AsmError>
    ensures { Stands (λ _. bytes_in out.new) result
        (spelled_line (addresses text_len (places_of labels.now)) text_len (bytes_in out.old)
        (seen line.now)) }
{
    let at = line.place.address(text_len);
    match put_section(
        out,
        line.place.section,
        labels,
        text_len,
        at,
        &line.statement,
    ) {
        Ok(()) => Ok(()),
        Err(refusal) => Err(at_line(line.line, refusal)),
    }
}

/// The bytes of all lines.
pub(crate) fn spell_all<'a>(
    alloc: Global,
    lines: &[Placed<'a>],
    labels: &LabelPlaces<'a>,
    text_len: u32,
) -> Result<Output, AsmError>
    ensures { Stands bytes_in result (all_spelled (addresses text_len (places_of labels.now)) text_len
        (map seen lines.now)) }
{
    let mut out = Output {
        text: Vec::new(alloc),
        data_bytes: Vec::new(alloc),
    };
    for line in lines {
        spell_line(&mut out, labels, text_len, line)?;
    }
    Ok(out)
}
