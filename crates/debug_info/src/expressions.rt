//! Expressions: how a variable's place is found out in a call (DWARF 5, sections 2.5, 2.6 and 7.7).
ghost use Rattle.std.specs.Prelude.{◌≡◌, if◌then◌else◌, nat_eq, length, None, IfSome, IfOk};
ghost use Rattle.debug_info.specs.Expressions as meant;

use crate::attributes::{Program, numbered_address};
use crate::entry::InfoUnit;
use crate::functions::Function;
use crate::names::FRAME_BASE;
use crate::numbers::{address_from, highest_of, number_in, signed_of};
use crate::operations::{binary, unary};
use crate::places::Place;
use crate::sight::{Frame, Sight};
use crate::value::Value;
use dwarf::{byte_at, double_at, half_at, signed_at, unsigned_at, word_at};
use std::alloc::{AllocError, Global};

/// No more numbers are kept at once.
const MOST_NUMBERS: usize = 64;

/// `DW_OP_addr`
const ADDRESS: u8 = 0x03;
/// The place after `DW_OP_addr` and its address.
const ADDRESS_END: usize = 9;
/// `DW_OP_reg0`
const FIRST_REGISTER: u8 = 0x50;
/// `DW_OP_breg0`
const FIRST_BASE: u8 = 0x70;
/// `DW_OP_call_frame_cfa`
const CALL_FRAME: u8 = 0x9C;
/// `DW_OP_implicit_value`
const IMPLICIT: u8 = 0x9E;
/// `DW_OP_stack_value`
const STACK_VALUE: u8 = 0x9F;
/// `DW_OP_addrx`
const ADDRESS_NUMBER: u8 = 0xA1;
/// `DW_OP_constx`
const CONSTANT_NUMBER: u8 = 0xA2;

/// What an expression is about.
#[derive(Clone, Copy)]
pub(crate) struct Context<'a> {
    pub program: Program<'a>,
    pub unit: InfoUnit,
    pub frame: Frame,
    pub function: Option<Function>,
}

/// A number, and the place after it.
type Pushed = Option<(u64, usize)>;

/// A signed number of so many bytes, kept in two's complement.
fn signed(number: u64, bytes: u64) -> u64
    ensures { result ≡ meant.turned bytes number }
{
    signed_of(number, highest_of(bytes)).cast_unsigned()
}

/// The constant of an operation, whose bytes begin at a place (section 2.5.1.1).
fn constant(bytes: &[u8], operation: u8, at: usize) -> Pushed
    ensures { result ≡ meant.constant bytes.now operation at }
{
    match operation {
        ADDRESS => Some((double_at(bytes, at).ok()?, at + 8)),
        0x08 => Some((u64::from(byte_at(bytes, at).ok()?), at + 1)),
        0x09 => Some((signed(u64::from(byte_at(bytes, at).ok()?), 1), at + 1)),
        0x0A => Some((u64::from(half_at(bytes, at).ok()?), at + 2)),
        0x0B => Some((signed(u64::from(half_at(bytes, at).ok()?), 2), at + 2)),
        0x0C => Some((u64::from(word_at(bytes, at).ok()?), at + 4)),
        0x0D => Some((signed(u64::from(word_at(bytes, at).ok()?), 4), at + 4)),
        0x0E | 0x0F => Some((double_at(bytes, at).ok()?, at + 8)),
        0x10 => unsigned_at(bytes, at).ok(),
        0x11 => {
            let (number, next) = signed_at(bytes, at).ok()?;
            Some((number.cast_unsigned(), next))
        }
        0x30..=0x4F => Some((u64::from(operation - 0x30), at)),
        _ => None,
    }
}

/// The number so far from another one, by the signed number at a place.
#[tactic(auto, unfolding(dwarf::specs::Numbers::signed))]
fn moved(bytes: &[u8], base: u64, at: usize) -> Pushed
    ensures { result ≡ meant.moved bytes.now base at }
{
    let (distance, next) = signed_at(bytes, at).ok()?;
    Some((address_from(base, distance), next))
}

/// The frame base of a function by its expression: of one operation, that is where its caller's part of the stack
/// begins, or a register, or so far from one (section 3.3.5).
fn frame_base_by<S: Sight>(sight: &S, caller: Option<u64>, bytes: &[u8]) -> Option<u64>
    ensures { result ≡ meant.frame_base (S.registers sight.now) caller bytes.now }
{
    let operation = bytes.first().copied()?;
    match operation {
        CALL_FRAME if bytes.len() == 1 => caller,
        0x50..=0x6F if bytes.len() == 1 => sight.register(u64::from(operation - FIRST_REGISTER)),
        0x70..=0x8F => {
            let base = sight.register(u64::from(operation - FIRST_BASE))?;
            let (address, next) = moved(bytes, base, 1)?;
            at_end(bytes, next, Some(address))
        }
        _ => None,
    }
}

/// What numbers of an expression are counted from.
#[derive(Clone, Copy)]
struct Bases<'a> {
    /// The frame base of the function.
    frame: Option<u64>,
    /// Where its caller's part of the stack begins.
    caller: Option<u64>,
    /// `.debug_addr`.
    addresses: &'a [u8],
    /// Where the addresses of the unit begin there.
    from: u64,
}

impl<'a> Bases<'a> {
    /// The number that an operation gives by a register, the frame or a number of the tables (section 2.5.1.2).
    fn based<S: Sight>(&self, sight: &S, bytes: &[u8], operation: u8, at: usize) -> Pushed
        ensures { result ≡ meant.based (S.registers sight.now) self.now.frame self.now.caller
            (meant.numbered_address self.now.addresses.now self.now.from) bytes.now operation at }
    {
        match operation {
            0x70..=0x8F => {
                let base = sight.register(u64::from(operation - FIRST_BASE))?;
                moved(bytes, base, at)
            }
            // fbreg
            0x91 => moved(bytes, self.frame?, at),
            // bregx
            0x92 => {
                let (number, next) = unsigned_at(bytes, at).ok()?;
                moved(bytes, sight.register(number)?, next)
            }
            CALL_FRAME => Some((self.caller?, at)),
            ADDRESS_NUMBER | CONSTANT_NUMBER => {
                let (number, next) = unsigned_at(bytes, at).ok()?;
                let found = numbered_address(self.addresses, self.from, number)?;
                Some((found, next))
            }
            _ => constant(bytes, operation, at),
        }
    }

    /// Makes the operation at a place; gives the place after it, or `None` if it isn't understood.
    fn step<S: Sight>(
        &self,
        sight: &S,
        bytes: &[u8],
        operation: u8,
        at: usize,
        numbers: &mut Vec<u64>,
    ) -> Result<Option<usize>, AllocError> {
        if numbers.len() >= MOST_NUMBERS {
            return Ok(None);
        }
        if let Some((number, next)) = self.based(sight, bytes, operation, at) {
            numbers.push(number)?;
            return Ok(Some(next));
        }
        let Some(top) = numbers.pop() else {
            return Ok(None);
        };
        if let Some((number, next)) = unary(sight, bytes, operation, at, top) {
            numbers.push(number)?;
            return Ok(Some(next));
        }
        let Some(under) = numbers.pop() else {
            return Ok(None);
        };
        let Some(number) = binary(operation, under, top) else {
            return Ok(None);
        };
        numbers.push(number)?;
        Ok(Some(at))
    }
}

impl<'a> Context<'a> {
    /// The frame base of the function (section 3.3.5).
    fn frame_base<S: Sight>(&self, sight: &S) -> Option<u64> {
        let entry = self.program.entry(self.function?.number)?;
        let Value::Block(span) = self.program.own(&entry, FRAME_BASE) else {
            return None;
        };
        let bytes = self.program.sections.info.get(span.from..span.to)?;
        frame_base_by(sight, self.frame.base, bytes)
    }

    /// What numbers of an expression are counted from.
    fn bases<S: Sight>(&self, sight: &S) -> Bases<'a> {
        Bases {
            frame: self.frame_base(sight),
            caller: self.frame.base,
            addresses: self.program.sections.addresses,
            from: self.program.addresses_from(&self.unit),
        }
    }
}

impl<'a> Program<'a> {
    /// The address that an expression of one operation names (sections 2.5.1.1 and 2.5.1.2).
    fn named_address(&self, unit: &InfoUnit, bytes: &[u8]) -> Option<u64> {
        let (address, next) = match bytes.first().copied()? {
            ADDRESS => (double_at(bytes, 1).ok()?, ADDRESS_END),
            ADDRESS_NUMBER => {
                let (number, next) = unsigned_at(bytes, 1).ok()?;
                (self.address_of_number(unit, number)?, next)
            }
            _ => return None,
        };
        at_end(bytes, next, Some(address))
    }

    /// Whether an expression is the place of what the linker has left out. Its entry stands, with an address at which
    /// no variable is: 0, where a program's instructions begin, or the largest one.
    pub(crate) fn is_left_out(&self, unit: &InfoUnit, bytes: &[u8]) -> bool {
        matches!(self.named_address(unit, bytes), Some(0 | u64::MAX))
    }
}

/// The number in the bytes of an implicit value, if they are 8 at most.
fn implicit(bytes: &[u8]) -> Place
    ensures { result ≡ meant.implicit bytes.now }
{
    let Ok((count, from)) = unsigned_at(bytes, 1) else {
        return Place::Unknown;
    };
    let rest = &bytes[from..];
    if rest.len() as u64 != count {
        return Place::Unknown;
    }
    match number_in(rest) {
        Some(number) => Place::Value(number),
        None => Place::Unknown,
    }
}

/// The place that an expression of one operation names without any number (sections 2.6.1.1.1 to 2.6.1.1.4).
fn single(bytes: &[u8]) -> Option<Place>
    ensures { result ≡ meant.single bytes.now }
{
    let Some(operation) = bytes.first().copied() else {
        return Some(Place::OptimizedOut);
    };
    match operation {
        0x50..=0x6F if bytes.len() == 1 => {
            Some(Place::Register(u64::from(operation - FIRST_REGISTER)))
        }
        IMPLICIT => Some(implicit(bytes)),
        _ => None,
    }
}

/// The place that an expression names in a call. Of an operation that isn't understood the place isn't known.
///
/// # Errors
///
/// The host has too little memory.
pub(crate) fn evaluated<S: Sight>(
    alloc: Global,
    context: &Context,
    sight: &S,
    bytes: &[u8],
) -> Result<Place, AllocError>
    ensures { IfSome (meant.single bytes.now) (λ place. IfOk result (λ found. found ≡ place)) }
{
    if let Some(place) = single(bytes) {
        return Ok(place);
    }
    let bases = context.bases(sight);
    let mut numbers = Vec::new(alloc);
    let mut at = 0;
    for _ in 0..bytes.len() {
        let Some(operation) = bytes.get(at).copied() else {
            break;
        };
        if operation == STACK_VALUE {
            return Ok(at_end(bytes, at + 1, numbers.pop()).map_or(Place::Unknown, Place::Value));
        }
        match bases.step(sight, bytes, operation, at + 1, &mut numbers)? {
            Some(next) => at = next,
            None => return Ok(Place::Unknown),
        }
    }
    Ok(at_end(bytes, at, numbers.pop()).map_or(Place::Unknown, Place::Memory))
}

/// The number that is left, if an expression ends at this place.
fn at_end(bytes: &[u8], at: usize, number: Option<u64>) -> Option<u64>
    ensures { result ≡ (if nat_eq at (length bytes.now) then number else None) }
{
    if at == bytes.len() { number } else { None }
}
