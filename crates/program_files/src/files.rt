//! Programs from the host's files, and the lines of those that are assembled.
ghost use Rattle.std.specs.Prelude.{◌≡◌, ◌≢◌, ◌++◌, ℕ, List, IfOk, IfErr, MatchOption, MatchResult, Ok, codes, length};
ghost use Rattle.std.specs.Str.{IsUtf8};
ghost use Rattle.uasm_core.specs.FileFormat.{file_of};
ghost use Rattle.program_files.specs.declared.refusal.FileRefusal.TheVariants.{OutOfMemory};
ghost use Rattle.program_files.specs.Programs.{AreProgramsIn, HasNoProgram, IsNameIn, IsProgramIn, IsProgramOf, IsRead, IsUnassembled, IsUnmade, IsUnopened, IsUnread};

use crate::refusal::FileRefusal;
use std::alloc::Global;
use std::fs;
use std::io::{self, ErrorKind, Read};
use std::rt::Files;
use uasm_core::{AsmError, Assembled, SourceLines, assemble_with_lines};
use xk_base::Program;
use xk_base::limits::PROGRAM_BYTES;

// What a failed call on the file of this path comes to.
fn failed<'a>(error: &io::Error, path: &'a str) -> FileRefusal<'a>
    ensures { IsUnopened path.now result }
{
    match error.kind() {
        ErrorKind::OutOfMemory => FileRefusal::OutOfMemory,
        _ => FileRefusal::CannotBeRead(path),
    }
}

// The bytes of a file. Of a file that is too long, one byte more is read than a program may have.
fn read_file<'a, F: Read + Drop>(
    alloc: Global,
    file: F,
    path: &'a str,
) -> Result<Vec<u8>, FileRefusal<'a>>
    ensures read { IfOk result (λ bytes. IsRead (F.remaining file) bytes.items) }
    ensures refused { IfErr result (λ why. IsUnread path.now (F.remaining file) why) }
{
    let mut bytes = Vec::new(alloc);
    match file.take(PROGRAM_BYTES as u64 + 1).read_to_end(&mut bytes) {
        Ok(count) if count <= PROGRAM_BYTES => Ok(bytes),
        Ok(_) => Err(FileRefusal::TooLong(path)),
        Err(error) => Err(failed(&error, path)),
    }
}

/// A program, and where the lines of its source stand in it, if it was assembled.
#[derive(Drop)]
pub struct SourcedProgram {
    pub program: Program,
    pub lines: Option<SourceLines>,
}

/// Programs, and of each where the lines of its source stand in it, if it was assembled.
#[derive(Drop)]
pub struct SourcedPrograms {
    pub programs: Vec<Program>,
    pub lines: Vec<Option<SourceLines>>,
}

// What the assembler makes of a source.
fn assembled<'a>(alloc: Global, source: &[u8], path: &'a str) -> Result<Assembled, FileRefusal<'a>>
    ensures text { IfOk result (λ _. IsUtf8 source.now) }
    ensures file { IfOk result (λ made. file_of source.now ≡ Ok made.file.items) }
    ensures refused { IfErr result (IsUnassembled source.now) }
{
    let Ok(text) = std::str::from_utf8(source) else {
        return Err(FileRefusal::NotText(path));
    };
    match assemble_with_lines(alloc, text) {
        Ok(assembled) => Ok(assembled),
        Err(AsmError::Memory) => Err(FileRefusal::OutOfMemory),
        Err(error) => Err(FileRefusal::Assembly(path, error)),
    }
}

// What stands behind the last slash of a path.
fn last_part(path: &str) -> &str
    ensures { IsNameIn path.now result.now }
{
    match path.rsplit_once('/') {
        Some((_folder, name)) => name,
        None => path,
    }
}

// The name of a source without its end.
fn stem(name: &str) -> Option<&str>
    ensures { MatchOption result ((stem : List ℕ) → name.now ≢ stem ++ codes ".s") (λ stem. name.now ≡ stem.now ++ codes ".s") }
{
    name.strip_suffix(".s")
}

// A program of this name.
fn named<'a>(alloc: Global, name: &str, bytes: Vec<u8>) -> Result<Program, FileRefusal<'a>>
    ensures name { IfOk result (λ program. program.name.items ≡ name.now) }
    ensures bytes { IfOk result (λ program. program.bytes ≡ bytes) }
    ensures memory { IfErr result (λ why. why ≡ OutOfMemory) }
{
    Ok(Program {
        name: Vec::from_slice(alloc, name.as_bytes())?,
        bytes,
    })
}

/// The program of a file of these bytes, which lies under this path: it is named by the last part of the path. If that
/// ends in `.s`, the file is assembled, and the program is named without the `.s`.
pub fn program_of_bytes<'a>(
    alloc: Global,
    bytes: Vec<u8>,
    path: &'a str,
) -> Result<SourcedProgram, FileRefusal<'a>>
    ensures made { IfOk result (λ made. IsProgramOf path.now bytes.items made.program) }
    ensures refused { IfErr result (IsUnmade path.now bytes.items) }
{
    let name = last_part(path);
    let Some(stem) = stem(name) else {
        return Ok(SourcedProgram {
            program: named(alloc, name, bytes)?,
            lines: None,
        });
    };
    let made = assembled(alloc, bytes.as_slice(), path)?;
    Ok(SourcedProgram {
        program: named(alloc, stem, made.file)?,
        lines: Some(made.lines),
    })
}

/// The program of a file that was opened under this path, as [`program_of_bytes`] has it.
pub fn program<'a, F: Read + Drop>(
    alloc: Global,
    file: io::Result<F>,
    path: &'a str,
) -> Result<SourcedProgram, FileRefusal<'a>>
    ensures made { IfOk result (λ made. MatchResult file (λ f. IsProgramIn path.now (F.remaining f) made.program) (λ _. ⊥)) }
    ensures refused { IfErr result (λ why. MatchResult file (λ f. HasNoProgram path.now (F.remaining f) why) (λ _. IsUnopened path.now why)) }
{
    match file {
        Ok(file) => program_of_bytes(alloc, read_file(alloc, file, path)?, path),
        Err(error) => Err(failed(&error, path)),
    }
}

/// The programs of the files with these paths, in this order. Each file is read and assembled before the
/// next is opened, and the first refusal ends it.
pub fn programs<'a, R: Files + AllocGlobal>(
    rt: &R,
    paths: &'a [String],
) -> Result<SourcedPrograms, FileRefusal<'a>>
    ensures programs { IfOk result (λ made. length made.programs.items ≡ length paths.now) }
    ensures made { IfOk result (λ made. AreProgramsIn paths.now made.programs.items) }
    ensures lines { IfOk result (λ made. length made.lines.items ≡ length paths.now) }
{
    let mut programs = Vec::new(rt.alloc());
    let mut lines = Vec::new(rt.alloc());
    for path in paths {
        let path = path.as_str();
        let file = fs::open(rt, path);
        let made = program(rt.alloc(), file, path)?;
        programs.push(made.program)?;
        lines.push(made.lines)?;
    }
    Ok(SourcedPrograms { programs, lines })
}
