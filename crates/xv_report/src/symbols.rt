//! The symbols that stand beside the files of programs.
ghost use Rattle.std.specs.Prelude.{◌≡◌, IfOk, length};

use std::alloc::{AllocError, Global};
use std::fs;
use std::io::Read;
use std::rt::Files;

/// The most bytes of a file with symbols that are read: 64 MiB.
const SYMBOL_BYTES: u64 = 67_108_864;

/// The bytes of a file, as far as they are read; none if it can't be read.
fn bytes_of<F: Read + Drop>(alloc: Global, file: F) -> Vec<u8> {
    let mut bytes = Vec::new(alloc);
    match file.take(SYMBOL_BYTES).read_to_end(&mut bytes) {
        Ok(_) => bytes,
        Err(_) => Vec::new(alloc),
    }
}

/// What stands for debuggers beside the file of this path, as compilers leave it: the bytes of PATH.debug; none if
/// there is no such file.
fn beside<R: Files + AllocGlobal>(rt: &R, path: &str) -> Result<Vec<u8>, AllocError> {
    let path = format!(in rt.alloc(); "{path}.debug")?;
    match fs::open(rt, path.as_str()) {
        Ok(file) => Ok(bytes_of(rt.alloc(), file)),
        Err(_) => Ok(Vec::new(rt.alloc())),
    }
}

/// What stands for debuggers beside each of these files, in their order: the bytes of PATH.debug, 64 MiB at most; none
/// if there is no such file.
///
/// # Errors
///
/// The host has too little memory.
pub(crate) fn symbols_of_files<R: Files + AllocGlobal>(
    rt: &R,
    paths: &[String],
) -> Result<Vec<Vec<u8>>, AllocError>
    ensures { IfOk result (λ symbols. length symbols.items ≡ length paths.now) }
{
    let mut symbols = Vec::new(rt.alloc());
    for path in paths {
        symbols.push(beside(rt, path.as_str())?)?;
    }
    Ok(symbols)
}
