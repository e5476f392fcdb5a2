//! Abbreviations: what an entry is of, and which attributes it has (DWARF 5, section 7.5.3).
use crate::entry::Specification;
use crate::fault::InfoError;
use dwarf::{Fault, byte_at, signed_at, unsigned_at};
use std::alloc::Global;

/// An entry has no more attributes.
const MOST_ATTRIBUTES: u32 = 64;

/// `DW_FORM_implicit_const`
const IMPLICIT_CONSTANT: u64 = 0x21;

/// What an entry is of, and which attributes it has.
#[derive(Clone, Copy)]
pub(crate) struct Abbreviation {
    /// What it is of (`DW_TAG_..`).
    pub tag: u64,
    /// Whether entries stand in it.
    pub has_children: bool,
    /// The number of its first attribute.
    pub from: usize,
    /// The number after its last attribute.
    pub to: usize,
    /// Where the next abbreviation begins.
    next: usize,
}

/// The abbreviations of a table, by their numbers from 1 on.
#[derive(Drop)]
pub(crate) struct Abbreviations {
    /// Where they begin.
    pub at: usize,
    /// Where they end.
    pub end: usize,
    pub list: Vec<Abbreviation>,
}

/// An attribute, and the place after it.
fn specification_at(bytes: &[u8], at: usize) -> Result<(Specification, usize), Fault> {
    let (attribute, next) = unsigned_at(bytes, at)?;
    let (form, next) = unsigned_at(bytes, next)?;
    let (constant, next) = if form == IMPLICIT_CONSTANT {
        signed_at(bytes, next)?
    } else {
        (0, next)
    };
    let specification = Specification {
        attribute,
        form,
        constant,
    };
    Ok((specification, next))
}

/// Adds the attributes that begin at a place, up to the pair of zeros; gives the place after it.
fn add_specifications(
    bytes: &[u8],
    at: usize,
    found: &mut Vec<Specification>,
) -> Result<usize, InfoError> {
    let mut next = at;
    for _ in 0..MOST_ATTRIBUTES + 1 {
        let (specification, after) = specification_at(bytes, next)?;
        next = after;
        if specification.attribute == 0 && specification.form == 0 {
            return Ok(next);
        }
        found.push(specification)?;
    }
    Err(InfoError::Large(at))
}

/// The abbreviation of this number, which begins at a place; `None` if the table ends there.
fn abbreviation_at(
    bytes: &[u8],
    at: usize,
    number: usize,
    found: &mut Vec<Specification>,
) -> Result<Option<Abbreviation>, InfoError> {
    let (code, next) = unsigned_at(bytes, at)?;
    if code == 0 {
        return Ok(None);
    }
    if code != number as u64 {
        return Err(InfoError::Order(at));
    }
    let (tag, next) = unsigned_at(bytes, next)?;
    let has_children = byte_at(bytes, next)? != 0;
    let from = found.len();
    let next = add_specifications(bytes, next + 1, found)?;
    Ok(Some(Abbreviation {
        tag,
        has_children,
        from,
        to: found.len(),
        next,
    }))
}

/// The abbreviations that begin at a place.
///
/// # Errors
///
/// [`InfoError::Order`] if they aren't numbered from 1 on, [`InfoError::Large`] if one has more than 64 attributes,
/// [`InfoError::Damaged`] if the section ends before they do, or a number is damaged.
pub(crate) fn abbreviations_at(
    alloc: Global,
    bytes: &[u8],
    at: usize,
    found: &mut Vec<Specification>,
) -> Result<Abbreviations, InfoError> {
    let mut list = Vec::new(alloc);
    let mut next = at;
    for number in 0..bytes.len() {
        let Some(abbreviation) = abbreviation_at(bytes, next, number + 1, found)? else {
            break;
        };
        next = abbreviation.next;
        list.push(abbreviation)?;
    }
    Ok(Abbreviations {
        at,
        end: next,
        list,
    })
}

impl Abbreviations {
    /// The abbreviation of a number.
    pub(crate) fn of(&self, number: u64) -> Option<Abbreviation> {
        let place = number.checked_sub(1)?;
        self.list.get(place as usize).copied()
    }
}
