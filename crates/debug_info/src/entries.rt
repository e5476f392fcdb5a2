//! The entries of a unit of `.debug_info` (DWARF 5, section 7.5.2).
use crate::abbreviations::{Abbreviation, Abbreviations};
use crate::entry::{Entry, InfoUnit, Specification, Tables};
use crate::fault::InfoError;
use crate::value::value_at;
use dwarf::{Fault, unsigned_at};

/// The values of an entry's attributes have no more bytes, or nothing is told of them: each is read anew for each
/// question.
const MOST_BYTES: usize = 1024;

/// What stands at a place: an entry, or the end of those that stand in another one.
#[derive(Clone, Copy)]
struct Step {
    entry: Option<Entry>,
    /// Where the next one begins.
    next: usize,
    /// In how many entries the next one stands.
    depth: usize,
}

/// The place after the values of these attributes.
fn past_values(
    bytes: &[u8],
    unit: &InfoUnit,
    specifications: &[Specification],
    at: usize,
) -> Result<usize, Fault> {
    let mut next = at;
    for specification in specifications {
        let read = value_at(bytes, unit, *specification, next)?;
        next = read.next;
    }
    Ok(next)
}

/// The number after the last attribute of an entry of which something is told: it has the first only if it is too long.
fn told_to(abbreviation: Abbreviation, from: usize, to: usize) -> usize {
    match to.checked_sub(from) {
        Some(count) if count <= MOST_BYTES => abbreviation.to,
        _ => abbreviation.from,
    }
}

/// What stands at a place of a unit, in so many entries.
fn step_at(
    bytes: &[u8],
    tables: &Tables,
    abbreviations: &Abbreviations,
    unit: &InfoUnit,
    depth: usize,
    at: usize,
) -> Result<Step, InfoError> {
    let (code, values) = unsigned_at(bytes, at)?;
    if code == 0 {
        return Ok(Step {
            entry: None,
            next: values,
            depth: depth.saturating_sub(1),
        });
    }
    let Some(abbreviation) = abbreviations.of(code) else {
        return Err(InfoError::Abbreviation(at));
    };
    let from = abbreviation.from;
    let Some(specifications) = tables.specifications.as_slice().get(from..abbreviation.to) else {
        return Err(InfoError::Abbreviation(at));
    };
    let next = past_values(bytes, unit, specifications, values)?;
    let entry = Entry {
        at,
        tag: abbreviation.tag,
        depth,
        unit: tables.units.len(),
        values,
        from,
        to: told_to(abbreviation, values, next),
    };
    let inner = usize::from(abbreviation.has_children);
    Ok(Step {
        entry: Some(entry),
        next,
        depth: depth.saturating_add(inner),
    })
}

/// Adds the entries of a unit, which is the next one. `bytes` are those of the section up to the unit's end.
///
/// # Errors
///
/// [`InfoError::Abbreviation`] if an entry's abbreviation isn't there, [`InfoError::Damaged`] if a value is damaged or
/// of a form that isn't known, [`InfoError::Memory`].
pub(crate) fn add_entries(
    bytes: &[u8],
    tables: &mut Tables,
    abbreviations: &Abbreviations,
    unit: &InfoUnit,
) -> Result<(), InfoError> {
    let mut at = unit.first;
    let mut depth = 0;
    for _ in 0..bytes.len() {
        if at >= unit.end {
            return Ok(());
        }
        let step = step_at(bytes, tables, abbreviations, unit, depth, at)?;
        at = step.next;
        depth = step.depth;
        if let Some(entry) = step.entry {
            tables.entries.push(entry)?;
        }
    }
    Ok(())
}
