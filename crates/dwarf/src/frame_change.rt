//! The instructions of call frames (DWARF 5, section 6.4.2).
ghost use Rattle.std.specs.Prelude.{◌≡◌, ◌+◌, ◌<◌, ◌≤◌, length, IfOk};
ghost use Rattle.dwarf.specs.FrameChanges as meant;

use crate::bytes::{byte_at, half_at, is_within, signed_at, unsigned_at, word_at};
use crate::fault::Fault;
use crate::frame::{Base, Rule};
use crate::frame_common::Common;

/// What an instruction does.
#[derive(Clone, Copy)]
pub(crate) enum Change {
    /// What follows holds from so many bytes later on.
    Advance(u64),
    /// The CFA is another one.
    SetBase(Base),
    /// The CFA is counted from another register.
    SetBaseRegister(u64),
    /// The CFA is at another distance from its register.
    SetBaseOffset(i64),
    /// A register has another rule.
    SetRule { register: u64, rule: Rule },
    /// A register has the rule again that the functions have in common.
    Restore(u64),
    /// All rules are kept.
    Remember,
    /// The rules that were kept last are taken back.
    Recall,
    /// Nothing.
    Nothing,
}

/// What an instruction does, and the place after it.
#[derive(Clone, Copy)]
pub(crate) struct Changed {
    pub change: Change,
    pub next: usize,
}

/// An offset that is counted in units of `data_alignment_factor`, in 64 bits.
fn factored(common: &Common, count: i64) -> i64
    ensures { result ≡ meant.factored common.now count }
{
    count.wrapping_mul(common.data_factor)
}

/// By how much an instruction advances, in 64 bits.
fn advance(common: &Common, count: u64) -> Change
    ensures { result ≡ meant.advance common.now count }
{
    Change::Advance(count.wrapping_mul(common.code_factor))
}

/// A register is kept at so many units above the CFA.
fn kept(common: &Common, register: u64, count: i64) -> Change
    ensures { result ≡ meant.kept common.now register count }
{
    let rule = Rule::AtOffset(factored(common, count));
    Change::SetRule { register, rule }
}

/// A register has a rule that isn't read.
fn unread(register: u64) -> Change
    ensures { result ≡ meant.unread register }
{
    let rule = Rule::Other;
    Change::SetRule { register, rule }
}

/// The place after a block of bytes: its length, and so many bytes.
#[tactic(auto, unfolding(crate::specs::FrameChanges::past_block))]
fn past_block(bytes: &[u8], at: usize) -> Result<usize, Fault>
    ensures { result ≡ meant.past_block bytes.now at }
{
    let (count, from) = unsigned_at(bytes, at)?;
    if !is_within(bytes, from, count as usize) {
        return Err(Fault::Short(at));
    }
    Ok(from + count as usize)
}

/// What an instruction does with the one number that follows it, if it is one of those.
fn with_one(opcode: u8, number: u64) -> Option<Change>
    ensures { result ≡ meant.with_one opcode number }
{
    match opcode {
        0x06 => Some(Change::Restore(number)),
        0x07 => Some(Change::SetRule {
            register: number,
            rule: Rule::Undefined,
        }),
        0x08 => Some(Change::SetRule {
            register: number,
            rule: Rule::SameValue,
        }),
        0x0D => Some(Change::SetBaseRegister(number)),
        0x0E => Some(Change::SetBaseOffset(number.cast_signed())),
        0x2E => Some(Change::Nothing),
        _ => None,
    }
}

/// What an instruction does with a register and the number that follow it, if it is one of those.
fn with_two(common: &Common, opcode: u8, register: u64, number: u64) -> Option<Change>
    ensures { result ≡ meant.with_two common.now opcode register number }
{
    match opcode {
        0x05 => Some(kept(common, register, number.cast_signed())),
        0x09 => Some(Change::SetRule {
            register,
            rule: Rule::InRegister(number),
        }),
        0x0C => Some(Change::SetBase(Base::Register {
            register,
            offset: number.cast_signed(),
        })),
        0x14 => Some(unread(register)),
        _ => None,
    }
}

/// What an instruction does with a register and the signed number that follow it, if it is one of those.
fn with_signed(common: &Common, opcode: u8, register: u64, number: i64) -> Option<Change>
    ensures { result ≡ meant.with_signed common.now opcode register number }
{
    match opcode {
        0x11 => Some(kept(common, register, number)),
        0x12 => Some(Change::SetBase(Base::Register {
            register,
            offset: factored(common, number),
        })),
        0x15 => Some(unread(register)),
        _ => None,
    }
}

/// The instruction of an opcode that a register and a number or a block follow.
#[tactic(auto, unfolding(crate::specs::FrameChanges::of_register))]
fn of_register(common: &Common, bytes: &[u8], opcode: u8, at: usize) -> Result<Changed, Fault>
    requires { at < length bytes.now }
    ensures { result ≡ meant.of_register common.now bytes.now opcode at }
{
    let (register, from) = unsigned_at(bytes, at + 1)?;
    if let Some(change) = with_one(opcode, register) {
        return Ok(Changed { change, next: from });
    }
    if opcode == 0x10 || opcode == 0x16 {
        let next = past_block(bytes, from)?;
        let change = unread(register);
        return Ok(Changed { change, next });
    }
    if opcode == 0x11 || opcode == 0x12 || opcode == 0x15 {
        let (number, next) = signed_at(bytes, from)?;
        let Some(change) = with_signed(common, opcode, register, number) else {
            return Err(Fault::Instruction(at));
        };
        return Ok(Changed { change, next });
    }
    let (number, next) = unsigned_at(bytes, from)?;
    let Some(change) = with_two(common, opcode, register, number) else {
        return Err(Fault::Instruction(at));
    };
    Ok(Changed { change, next })
}

/// The instruction of an opcode below 0x40.
#[tactic(auto, unfolding(crate::specs::FrameChanges::of_opcode))]
fn of_opcode(common: &Common, bytes: &[u8], opcode: u8, at: usize) -> Result<Changed, Fault>
    requires { at < length bytes.now }
    ensures { result ≡ meant.of_opcode common.now bytes.now opcode at }
{
    let next = at + 1;
    match opcode {
        0x00 => Ok(Changed {
            change: Change::Nothing,
            next,
        }),
        0x02 => {
            let count = byte_at(bytes, next)?;
            let change = advance(common, u64::from(count));
            Ok(Changed {
                change,
                next: next + 1,
            })
        }
        0x03 => {
            let count = half_at(bytes, next)?;
            let change = advance(common, u64::from(count));
            Ok(Changed {
                change,
                next: next + 2,
            })
        }
        0x04 => {
            let count = word_at(bytes, next)?;
            let change = advance(common, u64::from(count));
            Ok(Changed {
                change,
                next: next + 4,
            })
        }
        0x0A => Ok(Changed {
            change: Change::Remember,
            next,
        }),
        0x0B => Ok(Changed {
            change: Change::Recall,
            next,
        }),
        0x0F => {
            let next = past_block(bytes, next)?;
            let change = Change::SetBase(Base::Other);
            Ok(Changed { change, next })
        }
        0x13 => {
            let (count, next) = signed_at(bytes, next)?;
            let change = Change::SetBaseOffset(factored(common, count));
            Ok(Changed { change, next })
        }
        _ => of_register(common, bytes, opcode, at),
    }
}

/// The instruction that begins at a place.
#[tactic(auto, unfolding(crate::specs::FrameChanges::change_at))]
pub(crate) fn change_at(common: &Common, bytes: &[u8], at: usize) -> Result<Changed, Fault>
    ensures { result ≡ meant.change_at common.now bytes.now at }
{
    let opcode = byte_at(bytes, at)?;
    let low = u64::from(opcode % 64);
    match opcode / 64 {
        0 => of_opcode(common, bytes, opcode, at),
        1 => Ok(Changed {
            change: advance(common, low),
            next: at + 1,
        }),
        2 => {
            let (count, next) = unsigned_at(bytes, at + 1)?;
            let change = kept(common, low, count.cast_signed());
            Ok(Changed { change, next })
        }
        _ => Ok(Changed {
            change: Change::Restore(low),
            next: at + 1,
        }),
    }
}
