//! What operands stand for.
ghost use Rattle.std.specs.Prelude.{◌≡◌, map};
ghost use Rattle.uasm_core.specs.Views.{Gives};
ghost use Rattle.uasm_core.specs.Statement.{register as register_in, number as number_in, label as label_in, registers as registers_in, immediate as immediate_in, indirect as indirect_in, register_number as register_number_in, register_label as register_label_in, one as one_of, two as two_of, three as three_of};

use crate::error::AsmErrorKind;
use crate::name::Name;
use crate::numeral::{Number, read_number};
use crate::parts::{is_label, place_parts};
use crate::words::register_named;
use xk_base::Reg;

/// The register of that name.
pub(crate) fn register(name: &[u8]) -> Result<Reg, AsmErrorKind>
    ensures { result ≡ register_in name.now }
{
    register_named(name).ok_or(AsmErrorKind::BadOperand)
}

/// The number that the bytes write.
pub(crate) fn number(bytes: &[u8]) -> Result<Number, AsmErrorKind>
    ensures { result ≡ number_in bytes.now }
{
    read_number(bytes).ok_or(AsmErrorKind::BadOperand)
}

/// The label that the bytes are, by their form.
pub(crate) fn label<'a>(bytes: &'a [u8]) -> Result<Name<'a>, AsmErrorKind>
    ensures { result ≡ label_in bytes.now }
{
    if is_label(bytes) {
        Ok(Name::new(bytes))
    } else {
        Err(AsmErrorKind::BadOperand)
    }
}

/// One operand.
pub(crate) fn one<'a>(operands: &[&'a [u8]]) -> Result<&'a [u8], AsmErrorKind>
    ensures { Gives (λ r. r.now) result (one_of (map (λ b. b.now) operands.now)) }
{
    match operands {
        [only] => Ok(*only),
        _ => Err(AsmErrorKind::BadOperand),
    }
}

/// Two operands.
pub(crate) fn two<'a>(operands: &[&'a [u8]]) -> Result<(&'a [u8], &'a [u8]), AsmErrorKind>
    ensures { Gives (λ r. (r.0.now, r.1.now)) result (two_of (map (λ b. b.now) operands.now)) }
{
    match operands {
        [first, second] => Ok((*first, *second)),
        _ => Err(AsmErrorKind::BadOperand),
    }
}

/// Three operands.
pub(crate) fn three<'a>(
    operands: &[&'a [u8]],
) -> Result<(&'a [u8], &'a [u8], &'a [u8]), AsmErrorKind>
    ensures { Gives (λ r. (r.0.now, r.1.now, r.2.now)) result (three_of (map (λ b. b.now) operands.now)) }
{
    match operands {
        [first, second, third] => Ok((*first, *second, *third)),
        _ => Err(AsmErrorKind::BadOperand),
    }
}

/// Three registers.
pub(crate) fn registers(operands: &[&[u8]]) -> Result<(Reg, Reg, Reg), AsmErrorKind>
    ensures { result ≡ registers_in (map (λ b. b.now) operands.now) }
{
    let (rd, rs1, rs2) = three(operands)?;
    Ok((register(rd)?, register(rs1)?, register(rs2)?))
}

/// Two registers and a number.
pub(crate) fn immediate(operands: &[&[u8]]) -> Result<(Reg, Reg, Number), AsmErrorKind>
    ensures { result ≡ immediate_in (map (λ b. b.now) operands.now) }
{
    let (rd, rs1, imm) = three(operands)?;
    Ok((register(rd)?, register(rs1)?, number(imm)?))
}

/// A register, and a number with a register in brackets.
pub(crate) fn indirect(operands: &[&[u8]]) -> Result<(Reg, Reg, Number), AsmErrorKind>
    ensures { result ≡ indirect_in (map (λ b. b.now) operands.now) }
{
    let (first, place) = two(operands)?;
    let first = register(first)?;
    let (offset, base) = place_parts(place)?;
    let offset = number(offset)?;
    Ok((first, register(base)?, offset))
}

/// A register and a number.
pub(crate) fn register_number(operands: &[&[u8]]) -> Result<(Reg, Number), AsmErrorKind>
    ensures { result ≡ register_number_in (map (λ b. b.now) operands.now) }
{
    let (rd, imm) = two(operands)?;
    Ok((register(rd)?, number(imm)?))
}

/// A register and a label.
pub(crate) fn register_label<'a>(operands: &[&'a [u8]]) -> Result<(Reg, Name<'a>), AsmErrorKind>
    ensures { result ≡ register_label_in (map (λ b. b.now) operands.now) }
{
    let (rd, target) = two(operands)?;
    Ok((register(rd)?, label(target)?))
}
