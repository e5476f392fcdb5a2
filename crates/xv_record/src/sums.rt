//! The programs of a record, by their names and checksums.
ghost use Rattle.std.specs.Prelude.{◌≡◌, true, false, List, ℕ, length, map, option_copied, IfOk, IfErr, IfSome};
ghost use Rattle.std.specs.String.{string_bytes};
ghost use Rattle.sha2.specs.Sha256.{sha256};
ghost use Rattle.xv_record.specs.Chosen.{AreThere, HasBytes, IsReason, IsRefused, IsThere, named};
ghost use Rattle.xv_record.specs.Told.{IsProgramTold, program_told_of, program_told, told_program};

use crate::RecordRefusal;
use sha2::{Digest, Sha256};
use std::alloc::{AllocError, Global};
use xk_base::Program;

/// A program, by its name, its length and its checksum.
#[derive(Drop)]
pub struct ProgramSum {
    /// Text of one line.
    pub name: String,
    /// How many bytes it has.
    pub size: u64,
    /// The SHA-256 of its bytes (FIPS 180-4).
    pub sum: [u8; 32],
}

/// The SHA-256 of bytes (FIPS 180-4).
pub fn sum_of(bytes: &[u8]) -> [u8; 32]
    ensures { result ≡ sha256 bytes.now }
{
    Sha256::digest(bytes)
}

// The program of this name, if there is one.
fn named<'a>(programs: &'a [Program], name: &str) -> Option<&'a Program>
    ensures first { option_copied result ≡ named programs.now name.now }
    ensures same { IfSome result (λ p. p.now.name.items ≡ name.now) }
{
    programs
        .iter()
        .find(|program| program.name.as_slice() == name.as_bytes())
}

// Whether a program has the length and the checksum that were recorded.
fn is_recorded(program: &Program, wanted: &ProgramSum) -> bool
    ensures same { result ≡ true → HasBytes program.now (told_program wanted.now) }
    ensures other { result ≡ false → ¬ HasBytes program.now (told_program wanted.now) }
{
    if program.bytes.len() as u64 != wanted.size {
        return false;
    }
    sum_of(program.bytes.as_slice()) == wanted.sum
}

// A copy of a program.
fn copy_of(alloc: Global, program: &Program) -> Result<Program, AllocError>
    ensures { IfOk result (λ copy. program_told copy ≡ program_told program.now) }
{
    let name = Vec::from_slice(alloc, program.name.as_slice())?;
    let bytes = Vec::from_slice(alloc, program.bytes.as_slice())?;
    Ok(Program { name, bytes })
}

// A copy of the program that was recorded so.
fn found<'a>(
    alloc: Global,
    programs: &[Program],
    wanted: &'a ProgramSum,
) -> Result<Program, RecordRefusal<'a>>
    ensures same { IfOk result (λ p. program_told p ≡ told_program wanted.now) }
    ensures there { IfOk result (λ _. IsThere programs.now (told_program wanted.now)) }
    ensures reason { IfErr result (λ e. IsReason programs.now (told_program wanted.now) e) }
{
    let Some(program) = named(programs, wanted.name.as_str()) else {
        return Err(RecordRefusal::Missing(wanted.name.as_str()));
    };
    if !is_recorded(program, wanted) {
        return Err(RecordRefusal::Differs(wanted.name.as_str()));
    }
    let Ok(copy) = copy_of(alloc, program) else {
        return Err(RecordRefusal::Memory);
    };
    Ok(copy)
}

/// Those of the programs that a record names, in its order: each has the name, the length and the checksum that were
/// recorded. Others are left out, so that the machine is the one that was recorded.
///
/// # Errors
///
/// [`RecordRefusal::Missing`] and [`RecordRefusal::Differs`] with the first name whose program isn't there or has other
/// bytes, and [`RecordRefusal::Memory`].
pub fn chosen<'a>(
    alloc: Global,
    programs: &[Program],
    wanted: &'a [ProgramSum],
) -> Result<Vec<Program>, RecordRefusal<'a>>
    ensures same { IfOk result (λ list. map program_told list.items ≡ map told_program wanted.now) }
    ensures there { IfOk result (λ _. AreThere programs.now wanted.now) }
    ensures refused { IfErr result (λ e. IsRefused programs.now wanted.now e) }
{
    let mut list = Vec::new(alloc);
    for sum in wanted {
        let program = found(alloc, programs, sum)?;
        let Ok(()) = list.push(program) else {
            return Err(RecordRefusal::Memory);
        };
    }
    Ok(list)
}

impl ProgramSum {
    ghost use Rattle.std.specs.Prelude.{◌≡◌, length, IfOk, IfSome};
    ghost use Rattle.sha2.specs.Sha256.{sha256};
    ghost use Rattle.xv_record.specs.Told.{IsProgramTold, program_told_of, program_told, told_program};

    // A program by these; `None` if its name isn't one line.
    pub(crate) fn new(
        alloc: Global,
        name: &str,
        size: u64,
        sum: [u8; 32],
    ) -> Result<Option<ProgramSum>, AllocError>
        ensures told { IfOk result (λ made. IfSome made (λ s. told_program s ≡ program_told_of sum size name.now)) }
        ensures lines { IfOk result (λ made. IfSome made (λ s. IsProgramTold (told_program s))) }
    {
        if name.as_bytes().contains(&b'\n') {
            return Ok(None);
        }
        let name = String::from_str(alloc, name)?;
        Ok(Some(ProgramSum { name, size, sum }))
    }

    /// The name, the length and the checksum of a program; `None` if its name isn't text of one line.
    pub fn of(alloc: Global, program: &Program) -> Result<Option<ProgramSum>, AllocError>
        ensures told { IfOk result (λ made. IfSome made (λ s. told_program s ≡ program_told program.now)) }
        ensures lines { IfOk result (λ made. IfSome made (λ s. IsProgramTold (told_program s))) }
    {
        let Ok(name) = std::str::from_utf8(program.name.as_slice()) else {
            return Ok(None);
        };
        let sum = sum_of(program.bytes.as_slice());
        ProgramSum::new(alloc, name, program.bytes.len() as u64, sum)
    }
}
