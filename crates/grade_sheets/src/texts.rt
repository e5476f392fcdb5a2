//! What is asked of texts: of what the console showed, and of what was handed in. Each function here tells why it isn't
//! there, in a student's words; `None` if it is.
ghost use Rattle.std.specs.Prelude.{◌≡◌, ◌↔◌, ◌==◌, ◌≤◌, IsTrue, is_none, IfOk, map, count_by, length, drop, eqb};
ghost use Rattle.std.specs.Char.{is_ascii_digit};
ghost use Rattle.std.specs.List.{list_any, list_all, before_first, after_first, starts_with};
ghost use Rattle.std.specs.Str.{str_eq_ignore_ascii_case};
ghost use Rattle.std.specs.Str.Iter.{HasSubslice};
ghost use Rattle.std.specs.Str.Lines.{lines};
ghost use Rattle.grade_sheets.specs.Answers.{is_colon, question_of, whole_answer, short_answer, asks, says, IsOnlyAnswer, are_digits, asks_by_number, numbered};
ghost use Rattle.grade_sheets.specs.Forms.{without_marks};
ghost use Rattle.grade_sheets.specs.Grades.{IsSaid};
ghost use Rattle.grade_sheets.specs.Numbers.{ends_line};

use crate::asked::Answer;
use crate::forms::{plain, without_commas, without_end_marks, without_marks, word_of};
use crate::judging::Seen;
use crate::quoted::Quoted;
use grade_rules::End;
use std::alloc::{AllocError, Global};
use std::fmt;

// A line in quotes, or that there is none.
#[derive(Clone, Copy)]
struct Line<'a>(Option<&'a [u8]>);

impl<'a> fmt::Display for Line<'a> {
    fn fmt<W: fmt::Write>(&self, f: &mut fmt::Formatter<W>) -> fmt::Result {
        match self.0 {
            Some(bytes) => Quoted(bytes).fmt(f),
            None => f.write_str("no such line"),
        }
    }
}

// The line of this number, counted from 1, in which two texts differ.
fn difference(
    alloc: Global,
    number: usize,
    expected: Option<&[u8]>,
    got: Option<&[u8]>,
) -> Result<String, AllocError> {
    if expected.is_none() && got.is_none() {
        return String::from_str(alloc, "no line differs");
    }
    let (expected, got) = (Line(expected), Line(got));
    format!(in alloc; "first difference in line {number}: expected {expected}, got {got}")
}

/// Whether a line ends with this byte.
pub(crate) fn ends_line(byte: &u8) -> bool
    ensures { result ≡ ends_line byte.now }
{
    *byte == b'\n'
}

// The first line in which two texts differ.
fn first_difference(alloc: Global, wanted: &[u8], shown: &[u8]) -> Result<String, AllocError> {
    let mut lines = shown.split(ends_line);
    let mut number: usize = 1;
    for expected in wanted.split(ends_line) {
        let line = lines.next();
        if line != Some(expected) {
            return difference(alloc, number, Some(expected), line);
        }
        number = number.saturating_add(1);
    }
    difference(alloc, number, None, lines.next())
}

/// Why what was shown isn't exactly this.
pub(crate) fn other_text(
    alloc: Global,
    wanted: &[u8],
    shown: &[u8],
) -> Result<Option<String>, AllocError>
    ensures { IfOk result (λ why. IsTrue (is_none why) ↔ (wanted.now ≡ shown.now)) }
{
    if wanted == shown {
        return Ok(None);
    }
    first_difference(alloc, wanted, shown).map(Some)
}

// Whether bytes begin what stands in others from a place on.
fn begins_at(part: &[u8], shown: &[u8], place: usize) -> bool
    requires { place ≤ length shown.now }
    ensures { result ≡ starts_with eqb (drop place shown.now) part.now }
{
    shown[place..].starts_with(part)
}

// Whether bytes stand somewhere in others.
fn stands_in(part: &[u8], shown: &[u8]) -> bool
    ensures { IsTrue result ↔ HasSubslice shown.now part.now }
{
    for place in 0..shown.len() {
        if begins_at(part, shown, place) {
            return true;
        }
    }
    part.is_empty()
}

/// Why bytes don't stand somewhere in what was shown.
pub(crate) fn not_shown(
    alloc: Global,
    part: &[u8],
    shown: &[u8],
) -> Result<Option<String>, AllocError>
    ensures { IfOk result (λ why. IsTrue (is_none why) ↔ HasSubslice shown.now part.now) }
{
    if stands_in(part, shown) {
        return Ok(None);
    }
    let part = Quoted(part);
    format!(in alloc; "{part} isn't shown").map(Some)
}

/// The lines of a text.
///
/// # Errors
///
/// [`AllocError`] if the host has too little memory.
pub fn lines_in(alloc: Global, text: &str) -> Result<Vec<&str>, AllocError>
    ensures { IfOk result (λ found. map (λ line. line.now) found.items ≡ lines text.now) }
{
    text.lines().collect(alloc)
}

// Whether a byte is a colon.
fn is_colon(byte: u8) -> bool
    ensures { result ≡ is_colon byte }
{
    byte == b':'
}

// Whether a line has a colon.
fn has_colon(line: &str) -> bool
    ensures { result ≡ list_any is_colon line.now }
{
    line.as_bytes().iter().any(|byte| is_colon(*byte))
}

// What stands before a line's first colon; all of it if it has none.
fn before_colon(line: &str) -> &str
    ensures { result.now ≡ before_first is_colon line.now }
{
    match line.split_once(':') {
        Some((before, _)) => before,
        None => line,
    }
}

// What stands behind a line's first colon; nothing if it has none.
fn behind_colon(line: &str) -> &str
    ensures { result.now ≡ after_first is_colon line.now }
{
    match line.split_once(':') {
        Some((_, behind)) => behind,
        None => "",
    }
}

// What a line asks.
fn question_of(line: &str) -> &[u8]
    ensures { result.now ≡ question_of line.now }
{
    plain(before_colon(line).as_bytes())
}

// What a line answers, with what may stand before its end.
fn answer_from(line: &str) -> &[u8]
    ensures { result.now ≡ without_marks (after_first is_colon line.now) }
{
    without_marks(behind_colon(line).as_bytes())
}

// Whether a line asks this question.
fn asks(question: &str, line: &str) -> bool
    ensures { result ≡ asks question.now line.now }
{
    has_colon(line) && question_of(line).eq_ignore_ascii_case(question.as_bytes())
}

// Whether all that a line answers is this.
fn is_whole_answer(answer: &str, line: &str) -> bool
    ensures { result ≡ str_eq_ignore_ascii_case (whole_answer line.now) answer.now }
{
    without_end_marks(answer_from(line)).eq_ignore_ascii_case(answer.as_bytes())
}

// Whether the first word that a line answers is this.
fn is_short_answer(alloc: Global, answer: &str, line: &str) -> Result<bool, AllocError>
    ensures { IfOk result (λ is. is ≡ str_eq_ignore_ascii_case (short_answer line.now) answer.now) }
{
    let word = without_end_marks(word_of(answer_from(line)));
    let word = without_commas(alloc, word)?;
    Ok(word.as_slice().eq_ignore_ascii_case(answer.as_bytes()))
}

// Whether a line asks this question, and has this answer.
fn says(alloc: Global, question: &str, answer: &str, line: &str) -> Result<bool, AllocError>
    ensures { IfOk result (λ is. is ≡ says question.now answer.now line.now) }
{
    let is_short = is_short_answer(alloc, answer, line)?;
    Ok(asks(question, line) && (is_whole_answer(answer, line) || is_short))
}

// How many of the lines ask this question.
fn count_asking(question: &str, lines: &[&str]) -> usize
    ensures { result ≡ count_by (asks question.now) (map (λ line. line.now) lines.now) }
{
    let mut found: usize = 0;
    for line in lines {
        if asks(question, line) {
            found += 1;
        }
    }
    found
}

// Whether a line asks this question, and has this answer.
fn has_answer(
    alloc: Global,
    question: &str,
    answer: &str,
    lines: &[&str],
) -> Result<bool, AllocError>
    ensures { IfOk result (λ has. has ≡ list_any (says question.now answer.now) (map (λ line. line.now) lines.now)) }
{
    let mut found = false;
    for line in lines {
        if says(alloc, question, answer, line)? {
            found = true;
        }
    }
    Ok(found)
}

// Whether a byte is a digit.
fn is_digit(byte: u8) -> bool
    ensures { result ≡ is_ascii_digit byte }
{
    byte.is_ascii_digit()
}

// Whether each byte is a digit.
fn has_digits_alone(bytes: &[u8]) -> bool
    ensures { result ≡ list_all is_ascii_digit bytes.now }
{
    bytes.iter().all(|byte| is_digit(*byte))
}

// Whether these bytes are digits, one or more.
fn are_digits(bytes: &[u8]) -> bool
    ensures { result ≡ are_digits bytes.now }
{
    bytes.len() > 0 && has_digits_alone(bytes)
}

// Whether a number stands in the place of a line's question.
fn asks_by_number(line: &str) -> bool
    ensures { result ≡ asks_by_number line.now }
{
    has_colon(line) && are_digits(question_of(line))
}

// How many of the lines have a number in the place of their question.
fn count_numbered(lines: &[&str]) -> usize
    ensures { result ≡ count_by asks_by_number (map (λ line. line.now) lines.now) }
{
    let mut found: usize = 0;
    for line in lines {
        if asks_by_number(line) {
            found += 1;
        }
    }
    found
}

/// Why a text has more than so many lines with a number in the place of their question.
pub(crate) fn too_numbered(
    alloc: Global,
    most: usize,
    text: &str,
) -> Result<Option<String>, AllocError>
    ensures { IfOk result (λ why. IsTrue (is_none why) ↔ (numbered text.now ≤ most)) }
{
    let lines = lines_in(alloc, text)?;
    let found = count_numbered(lines.as_slice());
    if found <= most {
        return Ok(None);
    }
    let why = format!(in alloc;
        "{found} lines have a number as their question, and {most} at most may be there"
    )?;
    Ok(Some(why))
}

// What is wrong with the lines that ask a question, of which there are so many.
fn other_answer(alloc: Global, question: &str, found: usize) -> Result<String, AllocError> {
    match found {
        0 => format!(in alloc; "there is no line `{question}:`"),
        1 => format!(in alloc; "`{question}:` has another answer"),
        _ => format!(in alloc; "`{question}:` has {found} answers, and not one"),
    }
}

// Why a text doesn't have one answer to a question, and this one.
fn not_answered(
    alloc: Global,
    question: &str,
    answer: &str,
    text: &str,
) -> Result<Option<String>, AllocError>
    ensures { IfOk result (λ why. IsTrue (is_none why) ↔ IsOnlyAnswer question.now answer.now text.now) }
{
    let lines = lines_in(alloc, text)?;
    let found = count_asking(question, lines.as_slice());
    let is_right = has_answer(alloc, question, answer, lines.as_slice())?;
    if found == 1 && is_right {
        return Ok(None);
    }
    other_answer(alloc, question, found).map(Some)
}

/// Why what was handed in doesn't have one answer to a question, and the right one. The right one isn't told.
pub(crate) fn not_said(
    alloc: Global,
    question: &str,
    answer: &Answer,
    seen: &Seen<'_>,
) -> Result<Option<String>, AllocError>
    ensures { IfOk result (λ why. IsTrue (is_none why) ↔ IsSaid question.now answer.now seen.now) }
{
    match (answer, seen.end) {
        (Answer::Text(answer), _) => not_answered(alloc, question, answer.as_str(), seen.handed_in),
        (Answer::Status, End::Exited(status)) => {
            let answer = format!(in alloc; "{status}")?;
            not_answered(alloc, question, answer.as_str(), seen.handed_in)
        }
        (Answer::Status, _) => Ok(Some(String::from_str(alloc, "init does not exit")?)),
    }
}
