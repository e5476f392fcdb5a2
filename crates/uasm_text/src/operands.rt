//! The operands of a line: numbers, places in memory, and the accesses of a fence.
ghost use Rattle.std.specs.Prelude.{◌≡◌, ◌+◌, ◌≤◌, ◌<◌, ◌^◌, [], ◌∷◌, ◌++◌, false, length, decimal as decimal_of};
ghost use Rattle.std.specs.Fmt.{digits, digit_glyph};
ghost use Rattle.uasm_text.specs.Text as meant;

use crate::names::{entry, register_name};
use arrayvec::ArrayString;
use rv64i_core::Imm12;
use xk_base::Reg;

/// The longest operand, `0xffffffffffffffff`.
pub(crate) const OPERAND_BYTES: usize = 18;

pub(crate) type Operand = ArrayString<OPERAND_BYTES>;

/// The digits in all bases up to 16.
const DIGITS: [&str; 16] = [
    "0", "1", "2", "3", "4", "5", "6", "7", "8", "9", "a", "b", "c", "d", "e", "f",
];

fn digit(n: u64) -> &'static str
    requires { n < 16 }
    ensures { result.now ≡ digit_glyph false n ∷ [] }
{
    entry(&DIGITS, n as usize)
}

/// Puts the digits of a number in a base, 2 to 16, behind a text.
fn push_digits(text: &mut Operand, base: u64, n: u64)
    requires base { (2 ≤ base) × (base ≤ 16) }
    requires room { length text.old.bytes + length (digits base false n) ≤ OPERAND_BYTES }
    ensures { text.new.bytes ≡ text.old.bytes ++ digits base false n }
{
    if n < base {
        text.push_str(digit(n));
    } else {
        push_digits(text, base, n / base);
        text.push_str(digit(n % base));
    }
}

pub(crate) fn decimal(n: u8) -> Operand
    ensures text { result.bytes ≡ decimal_of n }
    ensures short { length result.bytes ≤ 3 }
{
    let mut text = Operand::new();
    push_digits(&mut text, 10, u64::from(n));
    text
}

pub(crate) fn hexadecimal(n: u64) -> Operand
    ensures text { result.bytes ≡ meant.hexadecimal n }
    ensures short { length result.bytes ≤ OPERAND_BYTES }
{
    let mut text = Operand::new();
    text.push_str("0x");
    push_digits(&mut text, 16, n);
    text
}

/// Twelve bits as a number with its sign, -2048 to 2047.
pub(crate) fn signed_number(imm: Imm12) -> Operand
    ensures text { result.bytes ≡ meant.signed_number imm }
    ensures short { length result.bytes ≤ 5 }
{
    let bits = u64::from(imm.bits());
    let mut text = Operand::new();
    if bits < 0x800 {
        push_digits(&mut text, 10, bits);
    } else {
        text.push('-');
        push_digits(&mut text, 10, 0x1000 - bits);
    }
    text
}

/// A place in memory: `8(sp)`.
pub(crate) fn place(imm: Imm12, base: Reg) -> Operand
    ensures text { result.bytes ≡ meant.place imm base }
    ensures short { length result.bytes ≤ 11 }
{
    let mut text = signed_number(imm);
    text.push('(');
    text.push_str(register_name(base));
    text.push(')');
    text
}

/// A set of accesses in four bits: `rw`, or `0` for none.
pub(crate) fn accesses(set: u16) -> Operand
    requires { set < 2 ^ 4 }
    ensures text { result.bytes ≡ meant.accesses set }
    ensures short { length result.bytes ≤ 4 }
{
    let mut text = Operand::new();
    if set == 0 {
        text.push('0');
    }
    if set / 8 == 1 {
        text.push('i');
    }
    if set / 4 % 2 == 1 {
        text.push('o');
    }
    if set / 2 % 2 == 1 {
        text.push('r');
    }
    if set % 2 == 1 {
        text.push('w');
    }
    text
}
