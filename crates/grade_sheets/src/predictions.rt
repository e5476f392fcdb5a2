//! What is to be predicted of a run.
ghost use Rattle.std.specs.Prelude.{◌≡◌, ◌↔◌, ◌++◌, IsTrue, is_none, IfOk, map, flat_map, take, string_bytes};
ghost use Rattle.std.specs.List.{list_all};
ghost use Rattle.std.specs.Str.{str_to_ascii_lowercase};
ghost use Rattle.std.specs.Str.Lines.{lines};
ghost use Rattle.grade_rules.specs.Notes.{note_text};
ghost use Rattle.grade_sheets.specs.Forms.{plain};
ghost use Rattle.grade_sheets.specs.Predictions.{first_word, is_one_of, line_if, lines_if, begins_note, predicted, if_said, with_end, said, IsPredicted};

use crate::forms::plain;
use crate::judging::Seen;
use crate::texts::{lines_in, other_text};
use grade_rules::Note;
use std::alloc::{AllocError, Global};

// Whether a word begins a note, which is kept of the whole run.
fn begins_note(word: &String) -> bool
    ensures { result ≡ begins_note word.now }
{
    let word = word.as_str();
    word == "turn" || word == "call" || word == "block" || word == "exit" || word == "fault"
}

// Whether each of these words begins a note.
fn are_notes(words: &[String]) -> bool
    ensures { result ≡ list_all begins_note words.now }
{
    words.iter().all(begins_note)
}

// Whether a word is one of these.
fn is_one_of(word: &str, words: &[String]) -> bool
    ensures { result ≡ is_one_of word.now words.now }
{
    words.iter().any(|other| other.as_str() == word)
}

// The first word of a line.
fn first_word(line: &str) -> &str
    ensures { result.now ≡ first_word line.now }
{
    match line.split_once(' ') {
        Some((word, _)) => word,
        None => line,
    }
}

// Adds a line, if its first word is one of these.
fn add_line(lines: &mut String, words: &[String], line: &str) -> Result<(), AllocError>
    ensures { IfOk result (λ _. string_bytes lines.new ≡ string_bytes lines.old ++ line_if words.now line.now) }
{
    if is_one_of(first_word(line), words) {
        lines.push_str(line)?;
        lines.push_str("\n")?;
    }
    Ok(())
}

// The notes whose lines begin with one of these words, as lines.
fn kept_lines(alloc: Global, words: &[String], notes: &[Note]) -> Result<String, AllocError>
    ensures { IfOk result (λ text. string_bytes text ≡ lines_if words.now (map note_text notes.now)) }
{
    let mut lines = String::new(alloc);
    for note in notes {
        let line = format!(in alloc; "{note}")?;
        add_line(&mut lines, words, line.as_str())?;
    }
    Ok(lines)
}

// Those of these lines that begin with one of these words.
fn chosen_lines(alloc: Global, words: &[String], list: &[&str]) -> Result<String, AllocError>
    ensures { IfOk result (λ text. string_bytes text ≡ lines_if words.now (map (λ line. line.now) list.now)) }
{
    let mut lines = String::new(alloc);
    for line in list {
        add_line(&mut lines, words, line)?;
    }
    Ok(lines)
}

// The lines that begin with one of these words: of the notes, or of the trace if there are words of other lines.
fn predicted(alloc: Global, words: &[String], seen: &Seen<'_>) -> Result<String, AllocError>
    ensures { IfOk result (λ text. string_bytes text ≡ predicted words.now seen.now) }
{
    if are_notes(words) {
        return kept_lines(alloc, words, seen.notes);
    }
    let list = lines_in(alloc, seen.trace)?;
    chosen_lines(alloc, words, list.as_slice())
}

// Adds what a line says, if it says something.
fn add_said<'a>(said: &mut Vec<&'a [u8]>, line: &'a str) -> Result<(), AllocError>
    ensures { IfOk result (λ _. map (λ line. line.now) said.new.items ≡ map (λ line. line.now) said.old.items ++ if_said line.now) }
{
    let line = plain(line.as_bytes());
    if line.len() > 0 {
        said.push(line)?;
    }
    Ok(())
}

// What lines say, those that say something.
fn said_among<'a>(alloc: Global, list: &[&'a str]) -> Result<Vec<&'a [u8]>, AllocError>
    ensures { IfOk result (λ said. map (λ line. line.now) said.items ≡ flat_map if_said (map (λ line. line.now) list.now)) }
{
    let mut said = Vec::new(alloc);
    for line in list {
        add_said(&mut said, line)?;
    }
    Ok(said)
}

// What the lines of a text in small letters say.
fn said_lines(alloc: Global, text: &str) -> Result<Vec<&[u8]>, AllocError>
    ensures { IfOk result (λ said. map (λ line. line.now) said.items ≡ flat_map if_said (lines text.now)) }
{
    let list = lines_in(alloc, text)?;
    said_among(alloc, list.as_slice())
}

// Adds a line with its end.
fn add_with_end(text: &mut Vec<u8>, line: &[u8]) -> Result<(), AllocError>
    ensures { IfOk result (λ _. text.new.items ≡ text.old.items ++ with_end line.now) }
{
    text.extend_from_slice(line)?;
    text.push(b'\n')?;
    Ok(())
}

// Lines with their ends, one after another.
fn joined(alloc: Global, list: &[&[u8]]) -> Result<Vec<u8>, AllocError>
    ensures { IfOk result (λ text. text.items ≡ flat_map with_end (map (λ line. line.now) list.now)) }
{
    let mut text = Vec::new(alloc);
    for line in list {
        add_with_end(&mut text, line)?;
    }
    Ok(text)
}

// The first so many of lines; all of them if they are fewer.
fn first_lines<'a, 'b>(list: &'a [&'b [u8]], most: usize) -> &'a [&'b [u8]]
    ensures { result.now ≡ take most list.now }
{
    &list[..most.min(list.len())]
}

// The same, as their bytes.
#[tactic(auto, using(crate::proofs::Taken::map_take))]
fn first_of<'a, 'b>(list: &'a [&'b [u8]], most: usize) -> &'a [&'b [u8]]
    ensures { map (λ line. line.now) result.now ≡ take most (map (λ line. line.now) list.now) }
{
    first_lines(list, most)
}

// A text in small letters.
fn lowered(alloc: Global, text: &str) -> Result<String, AllocError>
    ensures { IfOk result (λ small. string_bytes small ≡ str_to_ascii_lowercase text.now) }
{
    let small = text.to_ascii_lowercase(alloc)?;
    Ok(small)
}

// What a text says in its first lines, so many at most.
fn said(alloc: Global, most: usize, text: &str) -> Result<Vec<u8>, AllocError>
    ensures { IfOk result (λ text_said. text_said.items ≡ said most text.now) }
{
    let small = lowered(alloc, text)?;
    let list = said_lines(alloc, small.as_str())?;
    let first = first_of(list.as_slice(), most);
    let text_said = joined(alloc, first)?;
    Ok(text_said)
}

/// Why a text isn't what was to be predicted, up to so many lines: its first line that differs. Capitals, marks around a
/// line and lines with nothing else don't count.
pub(crate) fn not_predicted(
    alloc: Global,
    words: &[String],
    most: usize,
    seen: &Seen<'_>,
) -> Result<Option<String>, AllocError>
    ensures { IfOk result (λ why. IsTrue (is_none why) ↔ IsPredicted words.now most seen.now) }
{
    let wanted = predicted(alloc, words, seen)?;
    let wanted = said(alloc, most, wanted.as_str())?;
    let given = said(alloc, most, seen.handed_in)?;
    other_text(alloc, wanted.as_slice(), given.as_slice())
}
