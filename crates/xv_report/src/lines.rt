//! The lines of sources, by a table of rows.
ghost use Rattle.std.specs.Prelude.{◌≡◌, ◌+◌, ◌<◌, ◌++◌, ◌∷◌, [], OnOk, length, map, option_map, slice_get, string_bytes};
ghost use Rattle.xv_report.specs.Places.{is_after, is_told, line_told, told_of};
ghost use Rattle.xv_report.specs.Lines.{IsNearest, IsNearestBelow, begins_before};
ghost use Rattle.xv_report.specs.Locations.{IsTextOf, row_kept};

use std::alloc::{AllocError, Global};

/// A row of a table of lines: where the instructions of a line begin.
#[derive(Clone, Copy)]
struct LineRow {
    /// The place of the program among those of the machine: 0 is the first.
    program: u64,
    address: u64,
    /// The place of its text among the texts.
    text: usize,
}

/// A table of lines.
#[derive(Drop)]
pub struct Lines {
    rows: Vec<LineRow>,
    /// What is told of lines, as `wc.c:12`; empty if no line is known from an address on.
    texts: Vec<String>,
}

/// A row as it is read: two numbers, and what is told of the line.
#[derive(Clone, Copy)]
struct RowText<'a> {
    program: u64,
    address: u64,
    line: &'a str,
}

/// The row of a text `PROGRAM ADDRESS LINE`, with two decimal numbers; `None` for any other text.
fn row_of(text: &str) -> Option<RowText<'_>> {
    let (program, rest) = text.split_once(' ')?;
    let (address, line) = rest.split_once(' ')?;
    Some(RowText {
        program: program.parse::<u64>().ok()?,
        address: address.parse::<u64>().ok()?,
        line,
    })
}

/// Whether a row is of the program, and begins at the address or before it.
fn begins_before(row: &LineRow, program: u64, address: u64) -> bool
    ensures { result ≡ begins_before program address row.now }
{
    (row.program == program) & (row.address <= address)
}

/// The nearest row before an address of a program among the first ones and one more, from the nearest among the first.
fn nearer(
    rows: &[LineRow],
    nearest: Option<usize>,
    place: usize,
    program: u64,
    address: u64,
) -> Option<usize>
    requires within { place < length rows.now }
    requires so_far { IsNearestBelow place rows.now program address nearest }
    ensures { IsNearestBelow (place + 1) rows.now program address result }
{
    let row = rows[place];
    if !begins_before(&row, program, address) {
        return nearest;
    }
    let Some(best) = nearest else {
        return Some(place);
    };
    if rows[best].address <= row.address {
        Some(place)
    } else {
        nearest
    }
}

/// The place of the row that has an address of a program: of those that begin there or before it the nearest, and of
/// several of these the last.
fn nearest(rows: &[LineRow], program: u64, address: u64) -> Option<usize>
    ensures { IsNearest rows.now program address result }
{
    let mut nearest = None;
    for place in 0..rows.len() {
        nearest = nearer(rows, nearest, place, program, address);
    }
    nearest
}

/// Whether a row is of the program, and this text is told of its line.
fn is_told(texts: &[String], row: &LineRow, program: u64, text: &str) -> bool
    ensures { result ≡ is_told texts.now program text.now row.now }
{
    if row.program != program {
        return false;
    }
    match texts.get(row.text) {
        Some(told) => told.as_str() == text,
        None => false,
    }
}

/// Whether an address is above another one, or there is no other.
fn is_after(address: u64, after: Option<u64>) -> bool
    ensures { result ≡ is_after address after }
{
    match after {
        Some(other) => other < address,
        None => true,
    }
}

/// Where the first row of the program begins of which this text is told, above an address, if one is given.
fn first_told(
    rows: &[LineRow],
    texts: &[String],
    program: u64,
    text: &str,
    after: Option<u64>,
) -> Option<u64>
    ensures { result ≡ line_told texts.now program text.now after rows.now }
{
    let row = rows.iter().find(|row| is_after(row.address, after)
        && is_told(texts, row, program, text))?;
    Some(row.address)
}

impl Lines {
    /// A table that has no row.
    pub fn new(alloc: Global) -> Lines
        ensures rows { result.rows.items ≡ [] }
        ensures texts { result.texts.items ≡ [] }
    {
        Lines {
            rows: Vec::new(alloc),
            texts: Vec::new(alloc),
        }
    }

    /// The table of a text with a row `PROGRAM ADDRESS LINE` in each line: the place of a program among those of the
    /// machine, an address, both decimal, and what is told of the line to which the instructions belong from there on.
    /// A row with an empty LINE ends what is known. What is no such row is left out.
    ///
    /// # Errors
    ///
    /// The host has too little memory.
    pub fn of(alloc: Global, table: &str) -> Result<Lines, AllocError> {
        let mut lines = Lines::new(alloc);
        for text in table.lines() {
            if let Some(row) = row_of(text) {
                lines.add(alloc, &row)?;
            }
        }
        Ok(lines)
    }

    /// Adds a row.
    fn add(&mut self, alloc: Global, row: &RowText<'_>) -> Result<(), AllocError>
        ensures rows { OnOk result (self.new.rows.items ≡ self.old.rows.items ++ row_kept row.now (length self.old.texts.items) ∷ []) }
        ensures texts { OnOk result (map string_bytes self.new.texts.items ≡ map string_bytes self.old.texts.items ++ row.now.line.now ∷ []) }
    {
        let text = String::from_str(alloc, row.line)?;
        self.rows.push(LineRow {
            program: row.program,
            address: row.address,
            text: self.texts.len(),
        })?;
        self.texts.push(text)?;
        Ok(())
    }

    /// Where instructions begin of the line of the program at a place of which this is told, above an address, if one is
    /// given: the first row.
    pub(crate) fn start_after(&self, program: usize, text: &str, after: Option<u64>) -> Option<u64>
        ensures { result ≡ line_told self.now.texts.items program text.now after self.now.rows.items }
    {
        first_told(
            self.rows.as_slice(),
            self.texts.as_slice(),
            program as u64,
            text,
            after,
        )
    }

    /// How many rows there are, of all programs.
    pub(crate) fn row_count(&self) -> usize
        ensures { result ≡ length self.now.rows.items }
    {
        self.rows.len()
    }

    /// What is told of the line of the row at a place, if it is of the program at another place.
    pub(crate) fn row_text(&self, program: usize, place: usize) -> Option<&str>
        ensures { option_map (λ t. t.now) result ≡ told_of self.now.texts.items program (slice_get self.now.rows.items place) }
    {
        let row = self.rows.get(place)?;
        if row.program != program as u64 {
            return None;
        }
        Some(self.texts.get(row.text)?.as_str())
    }

    /// What is told of the line of an address of the program at a place; `None` if no line is known.
    pub(crate) fn text(&self, program: usize, address: u64) -> Option<&str>
        ensures { IsTextOf self.now program address (option_map (λ t. t.now) result) }
    {
        let place = nearest(self.rows.as_slice(), program as u64, address)?;
        let row = self.rows.get(place)?;
        let text = self.texts.get(row.text)?;
        if text.is_empty() {
            return None;
        }
        Some(text.as_str())
    }
}
