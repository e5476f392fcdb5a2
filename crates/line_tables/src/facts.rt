//! What counts of the rows of a table: one fact for an address, in the order of addresses.
ghost use Rattle.std.specs.Prelude.{◌≡◌, ◌++◌, IfOk, OnOk};
ghost use Rattle.line_tables.specs.Facts as meant;
ghost use Rattle.line_tables.specs.Passes as passes;

use crate::fact::{Fact, Told, is_same_fact};
use std::alloc::{AllocError, Global};
use std::collections::BTreeMap;

/// Puts a row into a map by addresses, in place of what stands at its address, if it is of the kind that is wanted.
fn put_row(map: &mut BTreeMap<u64, Fact>, row: Told, are_ends: bool) -> Result<(), AllocError>
    ensures { OnOk result (map.new.entries ≡ passes.put_row are_ends row map.old.entries) }
{
    if row.is_end == are_ends {
        map.insert(row.address, row.fact)?;
    }
    Ok(())
}

/// Puts rows into a map by addresses: those that only end what was told, or all others.
fn put_rows(map: &mut BTreeMap<u64, Fact>, rows: &[Told], are_ends: bool) -> Result<(), AllocError>
    ensures { OnOk result (map.new.entries ≡ passes.put_rows are_ends rows.now map.old.entries) }
{
    for row in rows {
        put_row(map, *row, are_ends)?;
    }
    Ok(())
}

/// What counts of the rows of a table, in the order of addresses: for each address that a row has, what the last one
/// there tells that isn't an end.
fn by_address(alloc: Global, rows: &[Told]) -> Result<Vec<(u64, Fact)>, AllocError>
    ensures { IfOk result (λ v. v.items ≡ meant.by_address rows.now) }
{
    let mut map = BTreeMap::new(alloc);
    put_rows(&mut map, rows, true)?;
    put_rows(&mut map, rows, false)?;
    map.into_iter().collect(alloc)
}

/// Adds a fact, if the last one tells something else.
fn add_change(
    facts: &mut Vec<(u64, Fact)>,
    last: Fact,
    address: u64,
    fact: Fact,
) -> Result<(), AllocError>
    ensures { OnOk result (facts.new.items ≡ facts.old.items ++ meant.change_from last address fact) }
{
    if is_same_fact(last, fact) {
        return Ok(());
    }
    facts.push((address, fact))?;
    Ok(())
}

/// What counts of the rows of a table, without what tells nothing new; before the first row this is known.
pub(crate) fn facts_of(
    alloc: Global,
    rows: &[Told],
    known: Fact,
) -> Result<Vec<(u64, Fact)>, AllocError>
    ensures { IfOk result (λ v. v.items ≡ meant.facts_of known rows.now) }
{
    let all = by_address(alloc, rows)?;
    let mut facts = Vec::new(alloc);
    let mut last = known;
    for entry in all.as_slice() {
        add_change(&mut facts, last, entry.0, entry.1)?;
        last = entry.1;
    }
    Ok(facts)
}
