//! From an address to its row, and from a line to its addresses.
ghost use Rattle.std.specs.Prelude.{◌≡◌, IfOk};
ghost use Rattle.dwarf.specs.Lookup as meant;

use crate::row::Row;
use std::alloc::{AllocError, Global};

/// Whether a row tells of an address, if `next` is the row after it: the address isn't before the row's own, and before
/// that of the next, and no sequence ends between them.
fn covers(row: &Row, next: &Row, address: u64) -> bool
    ensures { result ≡ meant.covers address row.now next.now }
{
    !row.end_sequence && row.address <= address && address < next.address
}

/// The first row that covers an address: the row's own address isn't above it, and that of the next row of its sequence
/// is.
///
/// `rows` are those of a unit, as [`rows`](crate::rows) makes them. There is none if no sequence has the address. It
/// takes no memory.
pub fn row_at(rows: &[Row], address: u64) -> Option<Row>
    ensures { result ≡ meant.row_at address rows.now }
{
    let [first, rest @ ..] = rows else {
        return None;
    };
    let mut row = *first;
    for next in rest {
        if covers(&row, next, address) {
            return Some(row);
        }
        row = *next;
    }
    None
}

/// Whether a row tells of instructions of a line of a file.
fn is_of(row: &Row, file: u64, line: u64) -> bool
    ensures { result ≡ meant.is_of file line row.now }
{
    row.file == file && row.line == line && !row.end_sequence
}

/// The addresses at which a line of a file begins: of each run of rows of this line, the first that begins a statement.
///
/// `rows` are those of a unit, as [`rows`](crate::rows) makes them, `file` is a number as they have it, and `line` counts
/// from 1 on. The addresses are in the order of the rows. It fails if the host has too little memory.
pub fn addresses_of(
    alloc: Global,
    rows: &[Row],
    file: u64,
    line: u64,
) -> Result<Vec<u64>, AllocError>
    ensures { IfOk result (λ v. v.items ≡ meant.addresses file line rows.now) }
{
    let mut addresses = Vec::new(alloc);
    let mut is_told = false;
    for row in rows {
        let is_here = is_of(row, file, line);
        if is_here && row.is_statement && !is_told {
            addresses.push(row.address)?;
        }
        is_told = is_here && (is_told || row.is_statement);
    }
    Ok(addresses)
}
