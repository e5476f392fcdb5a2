//! The files of a submission's results.
ghost use Rattle.std.specs.Prelude.{◌<◌, length};

use crate::command_line::Settings;
use crate::playing::Played;
use grade_rules::Note;
use program_files::Failure;
use std::alloc::{AllocError, Global};
use std::fs;
use std::rt::Files;

/// How many notes are written from the first on, and how many up to the last.
const NOTES_SHOWN: usize = 10_000;

/// Writes a file of the results, if there is a folder for them.
///
/// # Errors
///
/// [`Failure::Write`], and [`Failure::OutOfMemory`].
pub(crate) fn write_result<R: Files + AllocGlobal>(
    rt: &R,
    settings: &Settings,
    name: &str,
    bytes: &[u8],
) -> Result<(), Failure<'static>> {
    let Some(folder) = &settings.out else {
        return Ok(());
    };
    let folder = folder.as_str();
    let path = format!(in rt.alloc(); "{folder}/{name}")?;
    match fs::write(rt, path.as_str(), bytes) {
        Ok(()) => Ok(()),
        Err(_) => Err(Failure::Write),
    }
}

// Adds notes to a text, a line each.
fn add_notes(alloc: Global, text: &mut String, notes: &[Note]) -> Result<(), AllocError> {
    for note in notes {
        text.push_str(format!(in alloc; "{note}\n")?.as_str())?;
    }
    Ok(())
}

// Adds the first and the last ten thousand of more than twenty thousand notes, and how many are left out.
fn add_ends(alloc: Global, text: &mut String, notes: &[Note]) -> Result<(), AllocError>
    requires { 20000 < length notes.now }
{
    let (first, rest) = notes.split_at(NOTES_SHOWN);
    let (left_out, last) = rest.split_at(rest.len() - NOTES_SHOWN);
    let count = left_out.len();
    add_notes(alloc, text, first)?;
    text.push_str(format!(in alloc; "# {count} notes are left out\n")?.as_str())?;
    add_notes(alloc, text, last)
}

// The notes of a run as text. Of more than twenty thousand those in the middle are left out.
fn notes_text(alloc: Global, notes: &[Note]) -> Result<String, AllocError> {
    let mut text = String::new(alloc);
    if notes.len() <= 2 * NOTES_SHOWN {
        add_notes(alloc, &mut text, notes)?;
    } else {
        add_ends(alloc, &mut text, notes)?;
    }
    Ok(text)
}

// The trace of a run as text.
fn trace_text(alloc: Global, played: &Played) -> Result<String, AllocError> {
    let machine = played.session.machine();
    let mut text = String::new(alloc);
    for place in 0..machine.trace_len() {
        if let Some(note) = machine.trace(place) {
            text.push_str(format!(in alloc; "{note}\n")?.as_str())?;
        }
    }
    Ok(text)
}

// Writes a part of what is to be seen of the run of this number.
fn write_part<R: Files + AllocGlobal>(
    rt: &R,
    settings: &Settings,
    part: &str,
    number: usize,
    bytes: &[u8],
) -> Result<(), Failure<'static>> {
    let name = format!(in rt.alloc(); "{part}-{number}")?;
    write_result(rt, settings, name.as_str(), bytes)
}

/// Writes what is to be seen of the run of this number: what it showed, its notes, and its last events.
///
/// # Errors
///
/// [`Failure::Write`], and [`Failure::OutOfMemory`].
pub(crate) fn write_run<R: Files + AllocGlobal>(
    rt: &R,
    settings: &Settings,
    number: usize,
    played: &Played,
) -> Result<(), Failure<'static>> {
    write_part(
        rt,
        settings,
        "console",
        number,
        played.kept.shown.as_slice(),
    )?;
    let notes = notes_text(rt.alloc(), played.kept.notes.as_slice())?;
    write_part(rt, settings, "notes", number, notes.as_str().as_bytes())?;
    let trace = trace_text(rt.alloc(), played)?;
    write_part(rt, settings, "trace", number, trace.as_str().as_bytes())
}
