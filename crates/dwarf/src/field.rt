//! The fields of which entries of version 5 are (DWARF 5, section 6.2.4.1).
ghost use Rattle.std.specs.Prelude.{◌≡◌};
ghost use Rattle.dwarf.specs.Files as meant;

use crate::bytes::unsigned_at;
use crate::fault::{Fault, LineError};
use std::alloc::Global;

/// What a field of each entry tells, and the form of its value.
#[derive(Clone, Copy)]
pub(crate) struct Field {
    /// What it tells (`DW_LNCT_path`: 1, `DW_LNCT_directory_index`: 2).
    pub kind: u64,
    /// The form of the value.
    pub form: u64,
    /// Where the field after it begins.
    pub next: usize,
}

/// The fields of a list's entries, and the place after them.
#[derive(Drop)]
pub(crate) struct FieldList {
    pub fields: Vec<Field>,
    pub next: usize,
}

/// The field that begins at a place.
#[tactic(auto, unfolding(crate::specs::Files::field))]
fn field_at(bytes: &[u8], at: usize) -> Result<Field, Fault>
    ensures { result ≡ meant.field bytes.now at }
{
    let (kind, next) = unsigned_at(bytes, at)?;
    let (form, next) = unsigned_at(bytes, next)?;
    Ok(Field { kind, form, next })
}

/// So many fields, from a place on.
pub(crate) fn fields_at(
    alloc: Global,
    bytes: &[u8],
    at: usize,
    count: u8,
) -> Result<FieldList, LineError>
    ensures { meant.AreFields result (meant.fields bytes.now count at) }
{
    let mut fields = Vec::new(alloc);
    let mut next = at;
    for _ in 0..count {
        let field = field_at(bytes, next)?;
        next = field.next;
        fields.push(field)?;
    }
    Ok(FieldList { fields, next })
}
