//! Keys that stand in a file.
ghost use Rattle.std.specs.Prelude.{◌≡◌, [], None, IfErr, IfOk};
ghost use Rattle.program_files.specs.Failures.{failure_status};

use program_files::{Failure, FileRefusal};
use std::fs;
use std::io::ErrorKind;
use std::rt::Files;

// The bytes of the file of this path.
fn bytes_of<'a, R: Files + AllocGlobal>(rt: &R, path: &'a str) -> Result<Vec<u8>, Failure<'a>>
    ensures { IfErr result (λ e. failure_status e ≡ 2) }
{
    match fs::read(rt, path) {
        Ok(keys) => Ok(keys),
        Err(error) if error.kind() == ErrorKind::OutOfMemory => Err(Failure::OutOfMemory),
        Err(_) => Err(Failure::File(FileRefusal::CannotBeRead(path))),
    }
}

/// The keys of the file of a path, in the order in which they are typed; none if no path is given.
///
/// # Errors
///
/// The file can't be read, or the host has too little memory.
pub fn keys_of<'a, R: Files + AllocGlobal>(
    rt: &R,
    path: &'a Option<String>,
) -> Result<Vec<u8>, Failure<'a>>
    ensures none { IfOk result (λ keys. path.now ≡ None → keys.items ≡ []) }
    ensures refused { IfErr result (λ e. failure_status e ≡ 2) }
{
    match path {
        Some(path) => bytes_of(rt, path.as_str()),
        None => Ok(Vec::new(rt.alloc())),
    }
}
