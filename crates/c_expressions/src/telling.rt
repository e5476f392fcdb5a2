//! What is told of an expression, in the style of GDB (Debugging with GDB, "Examining Data").
ghost use Rattle.std.specs.Prelude.{◌≡◌, ◌∷◌, [], codes, IfOk, Some, option_map, string_bytes};
ghost use Rattle.std.specs.List.{concat};
ghost use Rattle.c_expressions.specs.Telling as meant;

use crate::finding::{Found, found_in};
use crate::refusal::Refusal;
use crate::selection::Subject;
use crate::tables::CallTables;
use debug_info::{Sight, Spot, placeless_text};
use std::alloc::{AllocError, Global};

/// The text of an address whose type has this text.
fn address_of(alloc: Global, kind: &str, spot: Spot) -> Result<String, AllocError>
    ensures { IfOk result (λ text. string_bytes text ≡ meant.address_text kind.now spot) }
{
    match spot {
        Spot::Memory(address) => {
            let text = format!(in alloc; "({kind}) 0x{address:x}")?;
            Ok(text)
        }
        Spot::Number(..) => {
            let text = format!(in alloc; "({kind})")?;
            Ok(text)
        }
    }
}

/// The text of an address: its type, and the number.
fn address_text<T: CallTables>(
    alloc: Global,
    tables: &T,
    subject: Subject,
) -> Result<String, AllocError>
    ensures { IfOk result (λ text. meant.IsAddressText (T.IsPointer tables.now) subject (string_bytes text)) }
{
    let kind = tables.pointer_text(alloc, subject.kind)?;
    let text = address_of(alloc, kind.as_str(), subject.spot)?;
    Ok(text)
}

/// The text of a value, or of an address.
fn subject_text<T: CallTables>(
    alloc: Global,
    tables: &T,
    subject: Subject,
) -> Result<String, AllocError>
    ensures { IfOk result (λ text.
        meant.IsSubjectText (T.IsValue tables.now) (T.IsPointer tables.now) subject (string_bytes text)) }
{
    if subject.is_address {
        let text = address_text(alloc, tables, subject)?;
        return Ok(text);
    }
    let text = tables.value_text(alloc, subject.kind, subject.spot)?;
    Ok(text)
}

/// The line of an expression, and of what it shows.
fn shown_line(alloc: Global, text: &str, shown: &str) -> Result<Option<String>, AllocError>
    ensures { IfOk result (λ line.
        option_map string_bytes line ≡ Some (concat (text.now ∷ codes " = " ∷ shown.now ∷ codes "\n" ∷ []))) }
{
    let line = format!(in alloc; "{text} = {shown}\n")?;
    Ok(Some(line))
}

/// The line of an expression that leads nowhere.
pub(crate) fn refused_line(
    alloc: Global,
    text: &str,
    refusal: Refusal,
) -> Result<Option<String>, AllocError>
    ensures { IfOk result (λ line. meant.IsRefusal text.now (option_map string_bytes line)) }
{
    let why = format!(in alloc; "{refusal}")?;
    let why = why.as_str();
    let line = format!(in alloc; "{text}: {why}\n")?;
    Ok(Some(line))
}

/// The number of a value, if it is one, and there.
fn number_of<T: CallTables, S: Sight>(tables: &T, sight: &S, subject: Subject) -> Option<u64>
    ensures { meant.IsNumber (T.IsNumberSize tables.now) (S.bytes sight.now) subject result }
{
    if subject.is_address {
        return None;
    }
    let size = tables.number_size(subject.kind);
    number_in(sight, subject.spot, size)
}

/// The number in so many bytes from a place on, if it is there.
fn number_in<S: Sight>(sight: &S, spot: Spot, size: Option<u64>) -> Option<u64>
    ensures { result ≡ meant.number_by (S.bytes sight.now) spot size }
{
    spot.number(sight, size?)
}

/// The text of a number in hexadecimal digits; of what is no number that of its value.
fn digits_text<T: CallTables, S: Sight>(
    alloc: Global,
    tables: &T,
    sight: &S,
    subject: Subject,
) -> Result<String, AllocError>
    ensures { IfOk result (λ text. meant.IsDigitsText
        (meant.IsSubjectText (T.IsValue tables.now) (T.IsPointer tables.now) subject)
        (T.IsNumberSize tables.now) (S.bytes sight.now) subject (string_bytes text)) }
{
    match number_of(tables, sight, subject) {
        Some(number) => {
            let text = format!(in alloc; "0x{number:x}")?;
            Ok(text)
        }
        None => {
            let text = subject_text(alloc, tables, subject)?;
            Ok(text)
        }
    }
}

/// The text of what an expression selects: a number in hexadecimal digits, or as its type says.
fn text_of<T: CallTables, S: Sight>(
    alloc: Global,
    tables: &T,
    sight: &S,
    subject: Subject,
    is_hexadecimal: bool,
) -> Result<String, AllocError>
    ensures { IfOk result (λ text. meant.IsTextOf (T.IsValue tables.now) (T.IsPointer tables.now)
        (T.IsNumberSize tables.now) (S.bytes sight.now) is_hexadecimal subject (string_bytes text)) }
{
    if is_hexadecimal {
        let text = digits_text(alloc, tables, sight, subject)?;
        return Ok(text);
    }
    let text = subject_text(alloc, tables, subject)?;
    Ok(text)
}

/// The line of what an expression is about; `None` if it is about nothing.
fn line_of<T: CallTables, S: Sight>(
    alloc: Global,
    tables: &T,
    sight: &S,
    text: &str,
    is_hexadecimal: bool,
    found: Option<Found>,
) -> Result<Option<String>, AllocError>
    ensures { IfOk result (λ line. meant.IsLineOf text.now
        (meant.IsTextOf (T.IsValue tables.now) (T.IsPointer tables.now) (T.IsNumberSize tables.now)
        (S.bytes sight.now) is_hexadecimal) found (option_map string_bytes line)) }
{
    match found {
        Some(Found::Subject(subject)) => {
            let shown = text_of(alloc, tables, sight, subject, is_hexadecimal)?;
            let line = shown_line(alloc, text, shown.as_str())?;
            Ok(line)
        }
        Some(Found::Placeless(place)) => {
            let line = shown_line(alloc, text, placeless_text(place))?;
            Ok(line)
        }
        Some(Found::Refused(refusal)) => {
            let line = refused_line(alloc, text, refusal)?;
            Ok(line)
        }
        None => Ok(None),
    }
}

/// The line of the value of an expression, in hexadecimal digits or as its type says; `None` if the text is no expression,
/// or its name is no variable's that has a type.
///
/// # Errors
///
/// The host has too little memory.
pub fn value_line<T: CallTables, S: Sight>(
    alloc: Global,
    tables: &T,
    sight: &S,
    text: &str,
    is_hexadecimal: bool,
) -> Result<Option<String>, AllocError>
    ensures { IfOk result (λ line. meant.IsLine (T.AreRows tables.now)
        (meant.IsTextOf (T.IsValue tables.now) (T.IsPointer tables.now) (T.IsNumberSize tables.now)
        (S.bytes sight.now) is_hexadecimal)
        (S.registers sight.now) (S.bytes sight.now) text.now (option_map string_bytes line)) }
{
    let rows = tables.rows(alloc)?;
    let found = found_in(alloc, &rows, sight, text)?;
    let line = line_of(alloc, tables, sight, text, is_hexadecimal, found)?;
    Ok(line)
}
