//! Tables of the lines of programs that aren't assembled here.
use crate::refusal::FileRefusal;
use std::fs;
use std::io::ErrorKind;
use std::rt::Files;

/// The text of the table of lines in the file of this path; no text if there is no path.
///
/// # Errors
///
/// [`FileRefusal::NoTable`] if the file can't be read as text, and [`FileRefusal::OutOfMemory`] if the host has too
/// little memory for it.
pub fn line_table<'a, R: Files + AllocGlobal>(
    rt: &R,
    path: &'a Option<String>,
) -> Result<String, FileRefusal<'a>> {
    let Some(path) = path else {
        return Ok(String::new(rt.alloc()));
    };
    match fs::read_to_string(rt, path.as_str()) {
        Ok(table) => Ok(table),
        Err(error) if error.kind() == ErrorKind::OutOfMemory => Err(FileRefusal::OutOfMemory),
        Err(_) => Err(FileRefusal::NoTable(path.as_str())),
    }
}
