//! A text that is written row by row.
ghost use Rattle.std.specs.Prelude.{◌≡◌, ◌++◌, ◌∷◌, [], OnOk};
ghost use Rattle.line_tables.specs.Texts as meant;

use crate::error::TableError;
use dwarf::name_at;
use std::alloc::AllocError;

/// The most bytes that a text has: 16 MiB.
const MOST_BYTES: usize = 16_777_216;

/// The first byte that is shown: the blank.
pub(crate) const FIRST_SHOWN: u8 = 0x20;

/// A byte after it that isn't shown: it deletes.
const UNSHOWN: u8 = 0x7F;

/// Whether a byte may stand in a name: it isn't below the least one, and doesn't delete.
fn is_shown(byte: u8, least: u8) -> bool
    ensures { result ≡ meant.is_shown least byte }
{
    byte >= least && byte != UNSHOWN
}

/// Whether all bytes may stand in a name.
fn are_shown(bytes: &[u8], least: u8) -> bool
    ensures { result ≡ meant.are_shown least bytes.now }
{
    for byte in bytes {
        if !is_shown(*byte, least) {
            return false;
        }
    }
    true
}

/// Whether bytes are a name: there is one, and all of them may stand in one.
fn is_name(bytes: &[u8], least: u8) -> bool
    ensures { result ≡ meant.is_name least bytes.now }
{
    !bytes.is_empty() && are_shown(bytes, least)
}

/// The name that begins at a place of a section, none of whose bytes is below the least one.
///
/// # Errors
///
/// [`TableError::Name`] if there is none.
pub(crate) fn read_name(section: &[u8], place: u64, least: u8) -> Result<&[u8], TableError>
    ensures { meant.IsName (λ name. name.now) result (meant.name_in section.now place least) }
{
    let Ok(name) = name_at(section, place as usize) else {
        return Err(TableError::Name(place));
    };
    if is_name(name, least) {
        Ok(name)
    } else {
        Err(TableError::Name(place))
    }
}

/// Adds a row that ends in a name, and its end.
fn add_bytes(text: &mut Vec<u8>, words: &str, name: &[u8]) -> Result<(), AllocError>
    ensures { OnOk result (text.new.items ≡ text.old.items ++ words.now ++ name.now ++ 10 ∷ []) }
{
    text.extend_from_slice(words.as_bytes())?;
    text.extend_from_slice(name)?;
    text.push(b'\n')?;
    Ok(())
}

/// Adds a row to a text: its words, a name after them, and its end.
///
/// # Errors
///
/// [`TableError::Large`] if the text has more than 16 MiB then.
pub(crate) fn add_row(text: &mut Vec<u8>, words: &str, name: &[u8]) -> Result<(), TableError>
    ensures { meant.IsText result text.new.items (meant.with_row words.now name.now text.old.items) }
{
    add_bytes(text, words, name)?;
    if text.len() > MOST_BYTES {
        return Err(TableError::Large);
    }
    Ok(())
}
