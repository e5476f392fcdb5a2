//! The file of an exercise: what it asks for, and what it says of files.
ghost use Rattle.std.specs.Prelude.{◌≡◌, string_bytes, IfOk};
ghost use Rattle.grade_submissions.specs.Results.{IsExerciseOf};

use crate::command_line::Settings;
use crate::disk::Disk;
use crate::host_files::{folder_of, refused, text_of};
use grade_sheets::{Exercise, Text};
use program_files::Failure;
use std::alloc::Global;
use std::io::Write;

/// An exercise that was read: of which text, and for the student of which name.
#[derive(Drop)]
pub struct ReadExercise {
    pub exercise: Exercise,
    pub text: String,
    pub student: Vec<u8>,
}

/// The exercise of a file, as a student of this name has it.
///
/// # Errors
///
/// [`Failure::Refused`] if it can't be read, is longer than 1,048,576 bytes or is no exercise, and
/// [`Failure::OutOfMemory`].
pub(crate) fn read_exercise<D: Disk>(
    alloc: Global,
    disk: &D,
    path: &str,
    name: &[u8],
) -> Result<ReadExercise, Failure<'static>>
    ensures { IfOk result (IsExerciseOf (D.reads disk.now) path.now name.now) }
{
    let text = text_of(alloc, disk, path)?;
    match Exercise::read(alloc, text.as_str(), name) {
        Ok(exercise) => Ok(ReadExercise {
            exercise,
            text,
            student: Vec::from_slice(alloc, name)?,
        }),
        Err(error) => Err(Failure::in_words(format!(in alloc; "{path}: {error}"))),
    }
}

// Shows a line.
fn show_line<W: Write>(output: &mut W, line: &str) -> Result<(), Failure<'static>> {
    match writeln!(output, "{line}") {
        Ok(()) => Ok(()),
        Err(_) => Err(Failure::Write),
    }
}

// Shows lines.
fn show_lines<W: Write>(output: &mut W, lines: &[String]) -> Result<(), Failure<'static>> {
    for line in lines {
        show_line(output, line.as_str())?;
    }
    Ok(())
}

// Shows the paths of files in a folder, a line each.
fn show_paths<W: Write>(
    alloc: Global,
    folder: &str,
    files: &[String],
    output: &mut W,
) -> Result<(), Failure<'static>> {
    for file in files {
        let path = format!(in alloc; "{folder}/{file}")?;
        show_line(output, path.as_str())?;
    }
    Ok(())
}

// Shows the paths of an exercise's own files, a line each.
fn show_inputs<W: Write>(
    alloc: Global,
    settings: &Settings,
    exercise: &Exercise,
    output: &mut W,
) -> Result<(), Failure<'static>> {
    let folder = folder_of(settings.exercise.as_str());
    show_line(output, settings.exercise.as_str())?;
    for run in &exercise.runs {
        show_paths(alloc, folder, run.with.as_slice(), output)?;
    }
    Ok(())
}

/// Shows the names of the files that may be handed in for an exercise, a line each; a name may come twice. If they are
/// asked for, the paths of the exercise's own files are shown instead.
///
/// # Errors
///
/// [`Failure::Refused`] for the exercise's file, [`Failure::OutOfMemory`], and [`Failure::Write`].
pub(crate) fn show_files<D: Disk, W: Write>(
    alloc: Global,
    disk: &D,
    settings: &Settings,
    output: &mut W,
) -> Result<(), Failure<'static>> {
    let read = read_exercise(alloc, disk, settings.exercise.as_str(), &[])?;
    if settings.inputs {
        return show_inputs(alloc, settings, &read.exercise, output);
    }
    for run in &read.exercise.runs {
        show_lines(output, run.files.as_slice())?;
    }
    Ok(())
}

// Shows what a variant has under a key.
fn show_fact<W: Write>(output: &mut W, fact: &Text) -> Result<(), Failure<'static>> {
    let (name, text) = (fact.name.as_str(), fact.text.as_str());
    match writeln!(output, "{name}: {text}") {
        Ok(()) => Ok(()),
        Err(_) => Err(Failure::Write),
    }
}

/// Shows what an exercise has for a student of this name, a line `KEY: VALUE` each.
///
/// # Errors
///
/// [`Failure::Refused`] for the exercise's file, [`Failure::OutOfMemory`], and [`Failure::Write`].
pub(crate) fn show_variant<D: Disk, W: Write>(
    alloc: Global,
    disk: &D,
    settings: &Settings,
    name: &[u8],
    output: &mut W,
) -> Result<(), Failure<'static>> {
    let read = read_exercise(alloc, disk, settings.exercise.as_str(), name)?;
    for fact in &read.exercise.variant {
        show_fact(output, fact)?;
    }
    Ok(())
}
