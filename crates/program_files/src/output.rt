//! What a program writes.
ghost use Rattle.std.specs.Prelude.{◌≡◌, OnOk, IfErr};
ghost use Rattle.std.specs.Io.KnownBytes.{Appends};
ghost use Rattle.program_files.specs.declared.failure.Failure.TheVariants as failures;

use crate::failure::Failure;
use std::io::Write;

/// Writes these bytes, and flushes them.
///
/// # Errors
///
/// [`Failure::Write`].
pub fn put<W: Write>(output: &mut W, bytes: &[u8]) -> Result<(), Failure<'static>>
    ensures written { OnOk result (Appends (W.contents output.old) (W.contents output.new) bytes.now) }
    ensures failed { IfErr result (λ failure. failure ≡ failures.Write) }
{
    let Ok(()) = output.write_all(bytes) else {
        return Err(Failure::Write);
    };
    match output.flush() {
        Ok(()) => Ok(()),
        Err(_) => Err(Failure::Write),
    }
}
