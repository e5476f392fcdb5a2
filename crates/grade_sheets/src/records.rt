//! Grades as text: a line of CSV (RFC 4180), and a test suite of JUnit's XML.
ghost use Rattle.std.specs.Prelude.{◌≡◌, ◌∷◌, [], IfOk};
ghost use Rattle.csv.specs.Records.{fields_of};
ghost use Rattle.csv.specs.Writing.{default_writer, row_text};
ghost use Rattle.grade_sheets.specs.Records.{fields_of_line, line_of};

use crate::asked::Asked;
use crate::exercise::{Exercise, Run};
use crate::grade::{Grade, RunGrade};
use crate::judging::Mark;
use crate::refusal::SheetError;
use csv::{ByteRecord, WriterBuilder};
use std::alloc::{AllocError, Global};
use std::fmt;

impl From<csv::Error> for SheetError {
    fn from(_error: csv::Error) -> Self {
        SheetError::Memory
    }
}

// A row of five fields.
fn row<'a>(
    alloc: Global,
    name: &'a [u8],
    points: &'a [u8],
    of: &'a [u8],
    standing: &'a [u8],
    reason: &'a [u8],
) -> Result<ByteRecord, AllocError>
    ensures { IfOk result (λ row. fields_of row ≡ name.now ∷ points.now ∷ of.now ∷ standing.now ∷ reason.now ∷ []) }
{
    ByteRecord::from_fields(alloc, &[name, points, of, standing, reason])
}

// The fields of a submission's line.
fn fields<'a>(alloc: Global, name: &'a [u8], grade: &'a Grade) -> Result<ByteRecord, AllocError>
    ensures { IfOk result (λ row. fields_of row ≡ fields_of_line name.now grade.now) }
{
    let (points, of) = (grade.points, grade.of);
    let points = format!(in alloc; "{points}")?;
    let of = format!(in alloc; "{of}")?;
    let word = grade.standing.word();
    row(
        alloc,
        name,
        points.as_str().as_bytes(),
        of.as_str().as_bytes(),
        word.as_bytes(),
        grade.reason.as_str().as_bytes(),
    )
}

// A row as a line.
fn row_line(alloc: Global, row: &ByteRecord) -> Result<Vec<u8>, SheetError>
    ensures { IfOk result (λ line. line.items ≡ row_text default_writer (fields_of row.now)) }
{
    let mut writer = WriterBuilder::new().from_writer(Vec::new(alloc));
    writer.write_byte_record(row)?;
    match writer.into_inner() {
        Ok(line) => Ok(line),
        Err(_) => Err(SheetError::Memory),
    }
}

/// The line of a submission of this name, which may be any bytes: the name, the points, of how many, the standing,
/// and the reason.
///
/// # Errors
///
/// [`SheetError::Memory`].
pub fn csv_line(alloc: Global, name: &[u8], grade: &Grade) -> Result<Vec<u8>, SheetError>
    ensures { IfOk result (λ line. line.items ≡ line_of name.now grade.now) }
{
    let row = fields(alloc, name, grade)?;
    row_line(alloc, &row)
}

// Writes a character of a text of XML, as an entity if it has a meaning there. What may not stand there is shown as `\x1b`.
fn write_character<W: fmt::Write>(f: &mut fmt::Formatter<W>, character: char) -> fmt::Result {
    match character {
        '&' => f.write_str("&amp;"),
        '<' => f.write_str("&lt;"),
        '>' => f.write_str("&gt;"),
        '"' => f.write_str("&quot;"),
        '\u{0}'..='\u{1f}' | '\u{7f}' | '\u{fffe}' | '\u{ffff}' => {
            let code = character as u32;
            write!(f, "\\x{code:02x}")
        }
        other => f.write_char(other),
    }
}

// A text as it stands in XML.
#[derive(Clone, Copy)]
struct Escaped<'a>(&'a str);

impl<'a> fmt::Display for Escaped<'a> {
    fn fmt<W: fmt::Write>(&self, f: &mut fmt::Formatter<W>) -> fmt::Result {
        for character in self.0.chars() {
            write_character(f, character)?;
        }
        Ok(())
    }
}

// A byte of a name that isn't UTF-8: what isn't ASCII is shown as `\xff`.
fn write_name_byte<W: fmt::Write>(f: &mut fmt::Formatter<W>, byte: u8) -> fmt::Result {
    if byte < 128 {
        write_character(f, byte as char)
    } else {
        write!(f, "\\x{byte:02x}")
    }
}

// A name of any bytes, as it stands in XML.
#[derive(Clone, Copy)]
struct Name<'a>(&'a [u8]);

impl<'a> fmt::Display for Name<'a> {
    fn fmt<W: fmt::Write>(&self, f: &mut fmt::Formatter<W>) -> fmt::Result {
        if let Ok(text) = std::str::from_utf8(self.0) {
            return Escaped(text).fmt(f);
        }
        for &byte in self.0 {
            write_name_byte(f, byte)?;
        }
        Ok(())
    }
}

// Writes how the test case of a rule ends that a run doesn't keep.
fn write_failure<W: fmt::Write>(
    f: &mut fmt::Formatter<W>,
    grade: &RunGrade,
    why: &str,
) -> fmt::Result {
    let (word, why) = (grade.standing.word(), Escaped(why));
    let cause = Escaped(grade.cause.as_str());
    write!(
        f,
        "><failure type=\"{word}\" message=\"{why}\">{cause}</failure></testcase>\n"
    )
}

// Writes the test case of a rule.
fn write_case<W: fmt::Write>(
    f: &mut fmt::Formatter<W>,
    run: &Run,
    grade: &RunGrade,
    rule: &Asked,
    mark: &Mark,
) -> fmt::Result {
    let (of, name) = (Escaped(run.name.as_str()), Escaped(rule.name.as_str()));
    write!(f, "  <testcase classname=\"{of}\" name=\"{name}\"")?;
    match &mark.why {
        Some(why) => write_failure(f, grade, why.as_str()),
        None => f.write_str("/>\n"),
    }
}

// Writes the test cases of a run, one for each rule.
fn write_run<W: fmt::Write>(f: &mut fmt::Formatter<W>, run: &Run, grade: &RunGrade) -> fmt::Result {
    for (rule, mark) in run.asked.iter().zip(grade.marks.iter()) {
        write_case(f, run, grade, rule, mark)?;
    }
    Ok(())
}

// The test cases of all runs.
#[derive(Clone, Copy)]
struct Cases<'a> {
    runs: &'a [Run],
    grades: &'a [RunGrade],
}

impl<'a> fmt::Display for Cases<'a> {
    fn fmt<W: fmt::Write>(&self, f: &mut fmt::Formatter<W>) -> fmt::Result {
        for (run, grade) in self.runs.iter().zip(self.grades.iter()) {
            write_run(f, run, grade)?;
        }
        Ok(())
    }
}

// How many marks of a run are for what it doesn't have.
fn failures_of(marks: &[Mark]) -> u64 {
    let mut failures: u64 = 0;
    for mark in marks {
        if mark.why.is_some() {
            failures = failures.saturating_add(1);
        }
    }
    failures
}

// How many marks there are of runs, and how many of them are for what a run doesn't have.
fn counts(runs: &[RunGrade]) -> (u64, u64) {
    let mut tests: u64 = 0;
    let mut failures: u64 = 0;
    for run in runs {
        tests = tests.saturating_add(run.marks.len() as u64);
        failures = failures.saturating_add(failures_of(run.marks.as_slice()));
    }
    (tests, failures)
}

/// The test suite of a submission of this name: a test case for each rule of each run.
///
/// # Errors
///
/// [`SheetError::Memory`].
pub fn xml_suite(
    alloc: Global,
    exercise: &Exercise,
    name: &[u8],
    grade: &Grade,
) -> Result<String, SheetError> {
    let (tests, failures) = counts(grade.runs.as_slice());
    let name = Name(name);
    let cases = Cases {
        runs: exercise.runs.as_slice(),
        grades: grade.runs.as_slice(),
    };
    Ok(format!(in alloc;
        "<testsuite name=\"{name}\" tests=\"{tests}\" failures=\"{failures}\">\n{cases}</testsuite>\n"
    )?)
}
