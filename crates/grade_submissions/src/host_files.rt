//! Small files, and their paths.
ghost use Rattle.std.specs.Prelude.{IfOk, string_bytes};
ghost use Rattle.grade_submissions.specs.Files.{IsFolderOf, IsLastPart, IsNameIn};

use crate::disk::Disk;
use program_files::Failure;
use std::alloc::Global;

/// The part of a path before its last slash.
pub(crate) fn folder_of(path: &str) -> &str
    ensures { IsFolderOf path.now result.now }
{
    match path.rsplit_once('/') {
        Some((folder, _)) => folder,
        None => ".",
    }
}

// The part of a path behind its last slash.
fn behind_slash(path: &str) -> &str
    ensures { IsNameIn path.now result.now }
{
    match path.rsplit_once('/') {
        Some((_, name)) => name,
        None => path,
    }
}

/// The part of a path behind its last slash, but for one at its end.
pub(crate) fn last_part(path: &str) -> &str
    ensures { IsLastPart path.now result.now }
{
    match path.strip_suffix('/') {
        Some(folder) => behind_slash(folder),
        None => behind_slash(path),
    }
}

/// The refusal of the file of a path.
pub(crate) fn refused(alloc: Global, path: &str, why: &str) -> Failure<'static> {
    Failure::in_words(format!(in alloc; "{path}: {why}"))
}

/// The text of a file.
///
/// # Errors
///
/// Those of [`Disk::bytes`], and [`Failure::Refused`] if it isn't UTF-8.
pub(crate) fn text_of<D: Disk>(
    alloc: Global,
    disk: &D,
    path: &str,
) -> Result<String, Failure<'static>>
    ensures { IfOk result (λ text. (D.reads disk.now).bytes path.now (string_bytes text)) }
{
    match String::from_utf8(disk.bytes(path)?) {
        Ok(text) => Ok(text),
        Err(_) => Err(refused(alloc, path, "not text")),
    }
}
