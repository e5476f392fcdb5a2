//! Which part of a value an expression selects (C17, sections 6.5.2.1, 6.5.2.3 and 6.5.3.2).
ghost use Rattle.std.specs.Prelude.{◌≡◌};
ghost use Rattle.c_expressions.specs.Selection as meant;

use crate::expression::Step;
use crate::refusal::Refusal;
use debug_info::{Kind, Layouts, MemberRow, POINTER_SIZE, Shape, Sight, Spot};

/// What an expression is about.
#[derive(Clone, Copy)]
pub struct Subject {
    /// The type of a value.
    pub kind: Kind,
    /// Where the value begins.
    pub spot: Spot,
    /// Whether it is the value's address, in place of the value.
    pub is_address: bool,
}

/// The value of a type that begins at a place.
pub(crate) fn value_at(kind: Kind, spot: Spot) -> Subject
    ensures { result ≡ meant.value_at kind spot }
{
    Subject {
        kind,
        spot,
        is_address: false,
    }
}

/// Whether two types are the same.
fn is_same(one: Kind, other: Kind) -> bool
    ensures { result ≡ meant.is_same one other }
{
    one.number == other.number && one.range == other.range
}

/// What the values of a type are: as the first row of the type tells.
fn shape_of(layouts: &Layouts, kind: Kind) -> Shape
    ensures { result ≡ meant.shape_in kind layouts.now.types.items }
{
    let rows = layouts.types.as_slice();
    for row in rows {
        if is_same(row.kind, kind) {
            return row.shape;
        }
    }
    Shape::Plain
}

/// Whether a row is of the member of this owner and this name.
fn is_member(row: &MemberRow, owner: usize, name: &[u8]) -> bool
    ensures { result ≡ meant.is_member owner name.now row.now }
{
    row.owner == owner && row.name == name
}

/// The first member of this owner and this name.
fn member_of<'a>(layouts: &Layouts<'a>, owner: usize, name: &[u8]) -> Option<MemberRow<'a>>
    ensures { result ≡ meant.member_in owner name.now layouts.now.members.items }
{
    let rows = layouts.members.as_slice();
    for row in rows {
        if is_member(row, owner, name) {
            return Some(*row);
        }
    }
    None
}

/// Where the pointer leads that begins at a place.
fn led<S: Sight>(sight: &S, to: Kind, spot: Spot) -> Result<Subject, Refusal>
    ensures { result ≡ meant.led to (meant.pointer_at (S.bytes sight.now) spot) }
{
    match spot.number(sight, POINTER_SIZE) {
        Some(address) => Ok(value_at(to, Spot::Memory(address))),
        None => Err(Refusal::NotThere),
    }
}

/// So many values of a size after a place.
fn past(spot: Spot, size: u64, count: u64) -> Spot
    ensures { result ≡ meant.past spot size count }
{
    spot.after(size.wrapping_mul(count))
}

/// What a pointer leads to, or an array's first element.
fn target<S: Sight>(sight: &S, shape: Shape, spot: Spot) -> Result<Subject, Refusal>
    ensures { result ≡ meant.target (S.bytes sight.now) shape spot }
{
    match shape {
        Shape::Pointer { to, .. } => led(sight, to, spot),
        Shape::Array { of, .. } => Ok(value_at(of, spot)),
        Shape::Record { .. } | Shape::Plain => Err(Refusal::NoPointer),
    }
}

/// The element of an array, or the value so many after the one that a pointer leads to.
fn element<S: Sight>(sight: &S, shape: Shape, spot: Spot, number: u64) -> Result<Subject, Refusal>
    ensures { result ≡ meant.element (S.bytes sight.now) shape spot number }
{
    match shape {
        Shape::Pointer { to, size } => {
            let first = led(sight, to, spot)?;
            Ok(value_at(to, past(first.spot, size, number)))
        }
        Shape::Array { of, size } => Ok(value_at(of, past(spot, size, number))),
        Shape::Record { .. } | Shape::Plain => Err(Refusal::NoPointer),
    }
}

/// The member of a structure or a union.
fn member(layouts: &Layouts, shape: Shape, spot: Spot, name: &[u8]) -> Result<Subject, Refusal>
    ensures { result ≡ meant.member layouts.now.members.items shape spot name.now }
{
    let Shape::Record { owner } = shape else {
        return Err(Refusal::NoRecord);
    };
    match member_of(layouts, owner, name) {
        Some(row) if row.is_placeless => Err(Refusal::NoBytes),
        Some(row) => Ok(value_at(row.kind, spot.after(row.offset))),
        None => Err(Refusal::NoMember),
    }
}

/// The address of a value that is in memory.
fn addressed(subject: Subject) -> Result<Subject, Refusal>
    ensures { result ≡ meant.addressed subject }
{
    match subject.spot {
        Spot::Memory(_) => Ok(Subject {
            is_address: true,
            ..subject
        }),
        Spot::Number(..) => Err(Refusal::NoAddress),
    }
}

/// What an address leads to, by a step.
fn from_address(subject: Subject, step: &Step) -> Result<Subject, Refusal>
    ensures { result ≡ meant.from_address subject step.now }
{
    match step {
        Step::Target => Ok(value_at(subject.kind, subject.spot)),
        _ => Err(Refusal::OfAddress),
    }
}

/// What a step from a value leads to.
fn stepped<S: Sight>(
    layouts: &Layouts,
    sight: &S,
    subject: Subject,
    step: &Step,
) -> Result<Subject, Refusal>
    ensures { result ≡
        meant.stepped layouts.now.types.items layouts.now.members.items (S.bytes sight.now) subject step.now }
{
    if subject.is_address {
        return from_address(subject, step);
    }
    let shape = shape_of(layouts, subject.kind);
    let spot = subject.spot;
    match step {
        Step::Member(name) => member(layouts, shape, spot, name),
        Step::Index(number) => element(sight, shape, spot, *number),
        Step::Target => target(sight, shape, spot),
        Step::Address => addressed(subject),
    }
}

/// What some steps from a value lead to, one after another: by what the tables tell of types, and what is in memory.
///
/// # Errors
///
/// Why the first step leads nowhere that does.
pub fn selected<S: Sight>(
    layouts: &Layouts,
    sight: &S,
    subject: Subject,
    steps: &[Step],
) -> Result<Subject, Refusal>
    ensures { result ≡
        meant.selected layouts.now.types.items layouts.now.members.items (S.bytes sight.now) steps.now subject }
{
    let mut at = subject;
    for step in steps {
        match stepped(layouts, sight, at, step) {
            Ok(next) => at = next,
            Err(refusal) => return Err(refusal),
        }
    }
    Ok(at)
}
