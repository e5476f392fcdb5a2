//! What stands in the record of a session before its events.
ghost use Rattle.std.specs.Prelude.{◌≡◌, map, IfOk};
ghost use Rattle.std.specs.String.{string_bytes};
ghost use Rattle.xv_record.specs.Told.{program_told, told_program};
ghost use Rattle.terminal_session.specs.Records.{head_of};

use program_files::Failure;
use std::alloc::Global;
use xk_base::Program;
use xv_record::{ProgramSum, head_text};
use xv_session::Session;

// The names, lengths and checksums of the programs.
fn sums_of(alloc: Global, programs: &[Program]) -> Result<Vec<ProgramSum>, Failure<'static>>
    ensures { IfOk result (λ sums. map told_program sums.items ≡ map program_told programs.now) }
{
    let mut sums = Vec::new(alloc);
    for program in programs {
        let Some(sum) = ProgramSum::of(alloc, program)? else {
            return Err(Failure::UnrecordableName);
        };
        sums.push(sum)?;
    }
    Ok(sums)
}

/// What stands in the record of a session before its events, if the session has so many frames.
///
/// # Errors
///
/// [`Failure::UnrecordableName`] if a program's name can't be recorded, and [`Failure::OutOfMemory`] if memory is short.
pub fn head_of(alloc: Global, session: &Session, frames: u32) -> Result<String, Failure<'static>>
    ensures { IfOk result (λ head. string_bytes head ≡ head_of frames session.now) }
{
    let programs = sums_of(alloc, session.machine().programs())?;
    let head = head_text(alloc, frames, programs.as_slice())?;
    Ok(head)
}
