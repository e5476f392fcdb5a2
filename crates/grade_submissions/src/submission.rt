//! What was handed in, and the programs of a run.
ghost use Rattle.std.specs.Prelude.{◌≡◌, ◌≢◌, ◌==◌, ◌++◌, map, option_map, length, eqb, if◌then◌else◌, codes, string_bytes, IfOk};
ghost use Rattle.std.specs.List.{concat, find, starts_with, slice_split};
ghost use Rattle.kernel_spec.specs.views.State.{named_file};
ghost use Rattle.grade_sheets.specs.Blanks.{without_blanks};
ghost use Rattle.grade_submissions.specs.Encodings.{plain_bytes};
ghost use Rattle.program_files.specs.declared.refusal.FileRefusal.TheVariants.{OutOfMemory};
ghost use Rattle.grade_submissions.specs.Files.{path_in, text_file, programs_of, is_return, without_returns, unfit_text, no_file_text};
ghost use Rattle.grade_submissions.specs.Files.{IsFoundIn, AreFoundIn, IsTextOf, IsTakenAs, IsRefusedAs, IsReadAs, IsFoundAs, IsLookedAt, IsUnder, IsHandedIn};

use crate::disk::{Disk, Found};
use crate::encodings::plain_bytes;
use grade_sheets::Text;
use program_files::{Failure, FileRefusal, SourcedProgram, program_of_bytes};
use std::alloc::{AllocError, Global};
use uasm_core::SourceLines;
use xk_base::Program;

/// What was handed in, if it can be run.
#[derive(Drop)]
pub struct Submission {
    /// The file's name.
    pub file: String,
    /// Its bytes: without a byte order mark before them, and in UTF-8 if they were of UTF-16.
    pub bytes: Vec<u8>,
    /// Its text, without carriage returns; empty if it isn't UTF-8.
    pub text: String,
    /// Its program.
    pub program: Program,
    /// Where the lines of the source stand in the program, if it was assembled.
    pub lines: Option<SourceLines>,
}

/// What was handed in, or why it isn't run, in a student's words.
#[derive(Drop)]
pub enum HandedIn {
    File(Submission),
    Refused(String),
}

// What a refused file is told as.
fn told(alloc: Global, refusal: &FileRefusal<'_>) -> Result<String, Failure<'static>>
    ensures { IfOk result (λ _. refusal.now ≢ OutOfMemory) }
{
    match refusal {
        FileRefusal::OutOfMemory => Err(Failure::OutOfMemory),
        refusal => Ok(format!(in alloc; "{refusal}")?),
    }
}

// The refusal of a file of the exercise.
fn refusal_of(alloc: Global, refusal: &FileRefusal<'_>) -> Failure<'static> {
    match told(alloc, refusal) {
        Ok(why) => Failure::Refused(why),
        Err(failure) => failure,
    }
}

// The path of a file in a folder.
fn path_in(alloc: Global, folder: &str, file: &str) -> Result<String, AllocError>
    ensures { IfOk result (λ path. string_bytes path ≡ path_in folder.now file.now) }
{
    format!(in alloc; "{folder}/{file}")
}

// A file of this name that isn't run, and why.
fn unfit(alloc: Global, file: &str, why: &str) -> Result<String, AllocError>
    ensures { IfOk result (λ text. string_bytes text ≡ unfit_text file.now why.now) }
{
    format!(in alloc; "{file}: {why}")
}

// Whether bytes are nothing but blanks.
fn is_blank(bytes: &[u8]) -> bool
    ensures { result ≡ (length (without_blanks bytes.now) == 0) }
{
    bytes.trim_ascii().is_empty()
}

// The parts of a text between carriage returns.
fn parts_of(alloc: Global, text: &str) -> Result<Vec<&str>, AllocError>
    ensures { IfOk result (λ parts. map (λ part. part.now) parts.items ≡ slice_split is_return text.now) }
{
    text.split('\r').collect(alloc)
}

// Parts of a text, one after another.
fn joined(alloc: Global, parts: &[&str]) -> Result<String, AllocError>
    ensures { IfOk result (λ text. string_bytes text ≡ concat (map (λ part. part.now) parts.now)) }
{
    let mut text = String::new(alloc);
    for part in parts {
        text.push_str(part)?;
    }
    Ok(text)
}

// A text without carriage returns.
fn without_returns(alloc: Global, text: &str) -> Result<String, AllocError>
    ensures { IfOk result (λ plain. string_bytes plain ≡ without_returns text.now) }
{
    let parts = parts_of(alloc, text)?;
    joined(alloc, parts.as_slice())
}

// The text of bytes, without carriage returns; empty if they aren't UTF-8.
fn plain_text(alloc: Global, bytes: &[u8]) -> Result<String, AllocError>
    ensures { IfOk result (λ text. IsTextOf bytes.now (string_bytes text)) }
{
    match std::str::from_utf8(bytes) {
        Ok(text) => without_returns(alloc, text),
        Err(_) => Ok(String::new(alloc)),
    }
}

// What was handed in under this name, whose program is made of it.
fn submission_made(
    alloc: Global,
    file: &str,
    bytes: &[u8],
    made: SourcedProgram,
) -> Result<Submission, AllocError>
    ensures file { IfOk result (λ s. string_bytes s.file ≡ file.now) }
    ensures bytes { IfOk result (λ s. s.bytes.items ≡ bytes.now) }
    ensures text { IfOk result (λ s. IsTextOf bytes.now (string_bytes s.text)) }
    ensures program { IfOk result (λ s. s.program ≡ made.program) }
{
    Ok(Submission {
        file: String::from_str(alloc, file)?,
        bytes: Vec::from_slice(alloc, bytes)?,
        text: plain_text(alloc, bytes)?,
        program: made.program,
        lines: made.lines,
    })
}

// What a file of this name and these bytes is taken as. No mark stands before the bytes.
fn taken(alloc: Global, file: &str, bytes: &[u8]) -> Result<HandedIn, Failure<'static>>
    ensures { IfOk result (IsTakenAs file.now bytes.now) }
{
    if is_blank(bytes) {
        return Ok(HandedIn::Refused(unfit(alloc, file, "empty")?));
    }
    match program_of_bytes(alloc, Vec::from_slice(alloc, bytes)?, file) {
        Ok(made) => Ok(HandedIn::File(submission_made(alloc, file, bytes, made)?)),
        Err(refusal) => Ok(HandedIn::Refused(told(alloc, &refusal)?)),
    }
}

// That a file of this name isn't run, for this.
fn refused_for(alloc: Global, file: &str, why: &str) -> Result<Option<HandedIn>, Failure<'static>>
    ensures { IfOk result (IsRefusedAs (unfit_text file.now why.now)) }
{
    Ok(Some(HandedIn::Refused(unfit(alloc, file, why)?)))
}

// What is handed in under this name, if a file of these bytes lies there.
fn read_as(alloc: Global, file: &str, bytes: &[u8]) -> Result<Option<HandedIn>, Failure<'static>>
    ensures { IfOk result (IsReadAs file.now (plain_bytes bytes.now)) }
{
    match plain_bytes(alloc, bytes)? {
        Some(plain) => Ok(Some(taken(alloc, file, plain.as_slice())?)),
        None => refused_for(alloc, file, "begins as a text of UTF-16, and isn't one"),
    }
}

// What is handed in under this name, if this lies there: `None` if nothing does.
fn given(alloc: Global, file: &str, found: Found) -> Result<Option<HandedIn>, Failure<'static>>
    ensures { IfOk result (IsFoundAs file.now found) }
{
    match found {
        Found::Nothing => Ok(None),
        Found::NoFile => refused_for(alloc, file, "not a plain file"),
        Found::TooLong => refused_for(alloc, file, "too long"),
        Found::File(bytes) => read_as(alloc, file, bytes.as_slice()),
    }
}

// What a look at a folder finds under this name.
fn looked_at<D: Disk>(
    alloc: Global,
    disk: &D,
    folder: &str,
    file: &str,
) -> Result<Option<HandedIn>, Failure<'static>>
    ensures { IfOk result (IsLookedAt (D.reads disk.now) folder.now file.now) }
{
    let path = path_in(alloc, folder, file)?;
    let found = disk.find(path.as_str())?;
    given(alloc, file, found)
}

// The first line that begins so.
fn first_line<'a>(lines: &[&'a str], begin: &str) -> Option<&'a str>
    ensures { option_map (λ line. line.now) result ≡ find (λ line. starts_with eqb line begin.now) (map (λ line. line.now) lines.now) }
{
    for line in lines {
        if line.starts_with(begin) {
            return Some(line);
        }
    }
    None
}

// What was handed in under this name, if these lines say which files aren't run.
fn under_name<D: Disk>(
    alloc: Global,
    disk: &D,
    folder: &str,
    refused: &[&str],
    file: &str,
) -> Result<Option<HandedIn>, Failure<'static>>
    ensures { IfOk result (IsUnder (D.reads disk.now) (record { folder = folder.now; refused = map (λ line. line.now) refused.now }) file.now) }
{
    let begin = unfit(alloc, file, "")?;
    match first_line(refused, begin.as_str()) {
        Some(why) => Ok(Some(HandedIn::Refused(String::from_str(alloc, why)?))),
        None => looked_at(alloc, disk, folder, file),
    }
}

// What stands before the name of the file at this place.
fn joint(place: usize) -> &'static str
    ensures { result.now ≡ (if place == 0 then codes " " else codes " or ") }
{
    if place == 0 { " " } else { " or " }
}

// That none of these files is there.
fn no_file(alloc: Global, files: &[String]) -> Result<String, AllocError>
    ensures { IfOk result (λ text. string_bytes text ≡ no_file_text files.now) }
{
    let mut why = String::from_str(alloc, "no file")?;
    for (place, file) in files.iter().enumerate() {
        why.push_str(joint(place))?;
        why.push_str(file.as_str())?;
    }
    Ok(why)
}

/// What was handed in, in a folder: the first of these files that is there. It is refused if none is, and if that
/// file is no plain one, too long, empty, or can't be assembled. A line `NAME: WHY` of `refused` stands for a file of
/// that name that is there and isn't run.
///
/// # Errors
///
/// Those of [`Disk::find`], and [`Failure::OutOfMemory`].
pub(crate) fn handed_in<D: Disk>(
    alloc: Global,
    disk: &D,
    files: &[String],
    folder: &str,
    refused: &[&str],
) -> Result<HandedIn, Failure<'static>>
    ensures { IfOk result (IsHandedIn (D.reads disk.now) (record { folder = folder.now; refused = map (λ line. line.now) refused.now }) files.now) }
{
    for file in files {
        if let Some(given) = under_name(alloc, disk, folder, refused, file.as_str())? {
            return Ok(given);
        }
    }
    Ok(HandedIn::Refused(no_file(alloc, files)?))
}

// The program of a file of the exercise, whose path goes from this folder.
fn program_of_file<D: Disk>(
    alloc: Global,
    disk: &D,
    folder: &str,
    file: &str,
) -> Result<Program, Failure<'static>>
    ensures { IfOk result (IsFoundIn (D.reads disk.now) folder.now file.now) }
{
    let path = path_in(alloc, folder, file)?;
    let bytes = disk.bytes(path.as_str())?;
    match program_of_bytes(alloc, bytes, path.as_str()) {
        Ok(made) => Ok(made.program),
        Err(refusal) => Err(refusal_of(alloc, &refusal)),
    }
}

/// The programs of these files of the exercise, whose paths go from this folder.
///
/// # Errors
///
/// [`Failure::Refused`] if one can't be read or assembled, and [`Failure::OutOfMemory`].
pub(crate) fn programs_of_files<D: Disk>(
    alloc: Global,
    disk: &D,
    folder: &str,
    files: &[String],
) -> Result<Vec<Program>, Failure<'static>>
    ensures { IfOk result (λ programs. AreFoundIn (D.reads disk.now) folder.now files.now programs.items) }
{
    let mut programs = Vec::new(alloc);
    for file in files {
        programs.push(program_of_file(alloc, disk, folder, file.as_str())?)?;
    }
    Ok(programs)
}

// A text of the exercise, as a program.
fn program_of_text(alloc: Global, text: &Text) -> Result<Program, AllocError>
    ensures { IfOk result (λ program. named_file program ≡ text_file text.now) }
{
    Ok(Program {
        name: Vec::from_slice(alloc, text.name.as_str().as_bytes())?,
        bytes: Vec::from_slice(alloc, text.text.as_str().as_bytes())?,
    })
}

// Adds the texts of the exercise.
fn add_texts(alloc: Global, programs: &mut Vec<Program>, texts: &[Text]) -> Result<(), AllocError>
    ensures { IfOk result (λ _. map named_file programs.new.items ≡ map named_file programs.old.items ++ map text_file texts.now) }
{
    for text in texts {
        programs.push(program_of_text(alloc, text)?)?;
    }
    Ok(())
}

impl Submission {
    // The program that was handed in, for a run.
    fn own_program(&self, alloc: Global) -> Result<Program, AllocError>
        ensures { IfOk result (λ program. named_file program ≡ named_file self.now.program) }
    {
        Ok(Program {
            name: Vec::from_slice(alloc, self.program.name.as_slice())?,
            bytes: Vec::from_slice(alloc, self.program.bytes.as_slice())?,
        })
    }

    /// The programs of a run: these of the exercise's files, its texts, and what was handed in.
    ///
    /// # Errors
    ///
    /// [`AllocError`] if the host has too little memory.
    pub fn programs(
        &self,
        alloc: Global,
        files: Vec<Program>,
        texts: &[Text],
    ) -> Result<Vec<Program>, AllocError>
        ensures { IfOk result (λ programs. map named_file programs.items ≡ programs_of files.items texts.now self.now) }
    {
        let mut programs = files;
        add_texts(alloc, &mut programs, texts)?;
        programs.push(self.own_program(alloc)?)?;
        Ok(programs)
    }
}
