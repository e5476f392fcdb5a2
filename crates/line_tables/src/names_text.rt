//! The rows of functions and labels.
ghost use Rattle.std.specs.Prelude.{◌≡◌, IfOk};
ghost use Rattle.line_tables.specs.NamesText as meant;
ghost use Rattle.line_tables.specs.Texts.{IsText};
ghost use Rattle.std.specs.String.{string_bytes};

use crate::error::TableError;
use crate::names::{Named, size_at};
use crate::text::{FIRST_SHOWN, add_row, read_name};
use std::alloc::{AllocError, Global};

/// What stands before the name in the row of a function or a label.
fn words_of(alloc: Global, address: u64, size: u64, is_function: bool) -> Result<String, AllocError>
    ensures { IfOk result (λ words. string_bytes words ≡ meant.words_of address size is_function) }
{
    if is_function {
        format!(in alloc; "function {address} {size} ")
    } else {
        format!(in alloc; "label {address} {size} ")
    }
}

/// Adds the row of a function or a label, if it has bytes.
#[tactic(auto, unfolding(crate::specs::NamesText::with_name))]
fn add_name(
    alloc: Global,
    names: &[u8],
    address: u64,
    named: Named,
    after: &[(u64, Named)],
    text: &mut Vec<u8>,
) -> Result<(), TableError>
    ensures { IsText result text.new.items (meant.with_name names.now address named after.now text.old.items) }
{
    let size = size_at(address, named, after);
    if size == 0 {
        return Ok(());
    }
    let name = read_name(names, u64::from(named.name), FIRST_SHOWN + 1)?;
    let words = words_of(alloc, address, size, named.is_function)?;
    add_row(text, words.as_str(), name)
}

/// Adds the rows of functions and labels, in this order.
///
/// # Errors
///
/// [`TableError::Name`] if a name can't be read, [`TableError::Large`] if the text has more than 16 MiB,
/// [`TableError::Memory`] if the host has too little memory.
pub(crate) fn add_names(
    alloc: Global,
    names: &[u8],
    all: &[(u64, Named)],
    text: &mut Vec<u8>,
) -> Result<(), TableError>
    ensures { IsText result text.new.items (meant.with_names names.now all.now text.old.items) }
{
    let mut rest = all;
    'names: while let [first, after @ ..] = rest {
        add_name(alloc, names, first.0, first.1, after, text)?;
        rest = after;
    }
    Ok(())
}
