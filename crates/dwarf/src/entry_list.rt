//! Lists of directories and of files (DWARF 5, section 6.2.4, and the same section of DWARF 2 to 4).
ghost use Rattle.std.specs.Prelude.{◌≡◌};
ghost use Rattle.dwarf.specs.Files as meant;

use crate::bytes::{byte_at, past_number, unsigned_at};
use crate::entry::{Entry, Text};
use crate::fault::{Fault, LineError};
use crate::field::{Field, fields_at};
use crate::text::past_text;
use crate::value::{Value, value_at};
use std::alloc::Global;

/// Directories or files, and the place after them.
#[derive(Drop)]
pub(crate) struct EntryList {
    pub entries: Vec<Entry>,
    pub next: usize,
}

/// Whether a list of versions 2 to 4 ends here: by an empty text.
fn is_end(bytes: &[u8], at: usize) -> bool
    ensures { result ≡ meant.is_end bytes.now at }
{
    at < bytes.len() && bytes[at] == 0
}

/// The directory of versions 2 to 4 that begins at a place.
#[tactic(auto, unfolding(crate::specs::Files::old_directory))]
fn old_directory(bytes: &[u8], at: usize) -> Result<Entry, Fault>
    ensures { result ≡ meant.old_directory bytes.now at }
{
    let next = past_text(bytes, at)?;
    Ok(Entry {
        name: Some(Text::Here(at)),
        directory: 0,
        next,
    })
}

/// The file of versions 2 to 4 that begins at a place: its name, and the numbers of its directory, its time and its bytes.
#[tactic(auto, unfolding(crate::specs::Files::old_file))]
fn old_file(bytes: &[u8], at: usize) -> Result<Entry, Fault>
    ensures { result ≡ meant.old_file bytes.now at }
{
    let named = past_text(bytes, at)?;
    let (directory, placed) = unsigned_at(bytes, named)?;
    let timed = past_number(bytes, placed)?;
    let next = past_number(bytes, timed)?;
    Ok(Entry {
        name: Some(Text::Here(at)),
        directory,
        next,
    })
}

/// The directories of versions 2 to 4, from a place on.
pub(crate) fn old_directories(
    alloc: Global,
    bytes: &[u8],
    at: usize,
) -> Result<EntryList, LineError>
    ensures { meant.AreEntries result (meant.old_directories bytes.now at) }
{
    let mut entries = Vec::new(alloc);
    let mut next = at;
    for _ in 0..bytes.len() {
        if is_end(bytes, next) {
            return Ok(EntryList { entries, next });
        }
        let entry = old_directory(bytes, next)?;
        next = entry.next;
        entries.push(entry)?;
    }
    Ok(EntryList { entries, next })
}

/// The files of versions 2 to 4, from a place on.
pub(crate) fn old_files(alloc: Global, bytes: &[u8], at: usize) -> Result<EntryList, LineError>
    ensures { meant.AreEntries result (meant.old_files bytes.now at) }
{
    let mut entries = Vec::new(alloc);
    let mut next = at;
    for _ in 0..bytes.len() {
        if is_end(bytes, next) {
            return Ok(EntryList { entries, next });
        }
        let entry = old_file(bytes, next)?;
        next = entry.next;
        entries.push(entry)?;
    }
    Ok(EntryList { entries, next })
}

impl Entry {
    /// With what a field tells, whose value ends at a place.
    fn told(self, kind: u64, value: Value, next: usize) -> Entry
        ensures { result ≡ meant.told kind value next self }
    {
        match value {
            Value::Name(text) if kind == 1 => Entry {
                name: Some(text),
                next,
                ..self
            },
            Value::Number(directory) if kind == 2 => Entry {
                directory,
                next,
                ..self
            },
            _ => Entry { next, ..self },
        }
    }
}

/// An entry with one more field, whose value stands where the last one ended.
#[tactic(auto, unfolding(crate::specs::Files::with_field))]
fn with_field(bytes: &[u8], is_wide: bool, field: Field, entry: Entry) -> Result<Entry, Fault>
    ensures { result ≡ meant.with_field bytes.now is_wide field entry }
{
    let read = value_at(bytes, is_wide, field.form, entry.next)?;
    Ok(entry.told(field.kind, read.value, read.next))
}

/// The entry of these fields that begins at a place.
fn entry_at(bytes: &[u8], is_wide: bool, fields: &[Field], at: usize) -> Result<Entry, Fault>
    ensures { result ≡ meant.entry bytes.now is_wide fields.now at }
{
    let mut entry = Entry {
        name: None,
        directory: 0,
        next: at,
    };
    for field in fields {
        entry = with_field(bytes, is_wide, *field, entry)?;
    }
    Ok(entry)
}

/// So many entries of these fields, from a place on.
fn entries_at(
    alloc: Global,
    bytes: &[u8],
    is_wide: bool,
    fields: &[Field],
    count: u64,
    at: usize,
) -> Result<EntryList, LineError>
    ensures { meant.AreEntries result (meant.entries bytes.now is_wide fields.now count at) }
{
    let mut entries = Vec::new(alloc);
    let mut next = at;
    for _ in 0..count {
        let entry = entry_at(bytes, is_wide, fields, next)?;
        next = entry.next;
        entries.push(entry)?;
    }
    Ok(EntryList { entries, next })
}

/// A list of version 5: the number of fields, the fields, the number of entries, the entries.
#[tactic(auto, unfolding(crate::specs::Files::new_list))]
pub(crate) fn new_list(
    alloc: Global,
    bytes: &[u8],
    is_wide: bool,
    at: usize,
) -> Result<EntryList, LineError>
    ensures { meant.AreEntries result (meant.new_list bytes.now is_wide at) }
{
    let width = byte_at(bytes, at)?;
    let layout = fields_at(alloc, bytes, at + 1, width)?;
    let (count, next) = unsigned_at(bytes, layout.next)?;
    if width == 0 && count > 0 {
        return Err(LineError::Damaged(Fault::Format(at)));
    }
    entries_at(alloc, bytes, is_wide, layout.fields.as_slice(), count, next)
}
