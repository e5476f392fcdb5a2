//! Where the lines of kernel calls go.
ghost use Rattle.std.specs.Prelude.{◌≡◌, ℕ, List, None, Option, IfErr, IfOk};
ghost use Rattle.std.specs.Io.KnownBytes.{append_known};
ghost use Rattle.program_files.specs.Failures.{failure_status};
ghost use Rattle.explained_run.specs.Output.{GoesTo};

use program_files::Failure;
use std::fs::File;
use std::io::Write;

/// Where lines are handed on to.
pub(crate) trait Lines {
    // The bytes that were handed on to it, if it tells them.
    ghost handed: { Self → Option (List ℕ) };

    /// Takes more lines, or none.
    fn hand_on(&mut self, lines: &[u8])
        ensures { handed self.new ≡ append_known (handed self.old) lines.now };
}

/// Where lines are written. What isn't taken there is left out, so it doesn't tell what was handed on.
#[derive(Drop)]
pub(crate) enum Written<W> {
    /// Standard error.
    Errors(W),
    /// A file of the host.
    File(File),
}

// Writes lines, if there are any, so that they are there at once.
fn write_lines<W: Write>(writer: &mut W, lines: &[u8]) {
    if !lines.is_empty() {
        let _ = writer.write_all(lines);
        let _ = writer.flush();
    }
}

impl<W: Write> Lines for Written<W> {
    ghost handed = { λ _. None };

    fn hand_on(&mut self, lines: &[u8]) {
        match self {
            Written::Errors(errors) => write_lines(errors, lines),
            Written::File(file) => write_lines(file, lines),
        }
    }
}

/// Where the lines go: into the file of this path, in the place of all that it has, or to `errors` if none is named.
///
/// # Errors
///
/// [`Failure::Refused`] if the file can't be written, or [`Failure::OutOfMemory`] if there is too little memory to tell so.
pub(crate) fn written_to<W: Write + Drop>(
    rt: &HostRuntime,
    path: &Option<String>,
    errors: W,
) -> Result<Written<W>, Failure<'static>>
    ensures goes { IfOk result (GoesTo path.now errors) }
    ensures refused { IfErr result (λ e. failure_status e ≡ 2) }
{
    let Some(path) = path else {
        return Ok(Written::Errors(errors));
    };
    let path = path.as_str();
    match File::create(rt, path) {
        Ok(file) => Ok(Written::File(file)),
        Err(_) => Err(Failure::in_words(format!(in rt.alloc(); "{path}: cannot be written"))),
    }
}
