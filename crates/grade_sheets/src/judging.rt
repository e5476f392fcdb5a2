//! Whether a run has what is asked of it, and why not.
ghost use Rattle.std.specs.Prelude.{◌≡◌, ◌↔◌, ◌&&◌, IsTrue, is_none, IfOk};
ghost use Rattle.grade_rules.specs.Judged.{HoldsOf};
ghost use Rattle.grade_sheets.specs.Grades.{IsAnswered, AreAnswered, IsMarked, AreMarked};
ghost use Rattle.grade_sheets.specs.Points.{given_for};

use crate::asked::{Asked, Check};
use crate::notation::Named;
use crate::numbers::{no_rise, other_numbers};
use crate::predictions::not_predicted;
use crate::texts::{not_said, not_shown, other_text, too_numbered};
use grade_rules::{Edge, End, Judgement, Note, Pattern, Rule, count, fits_any, judge};
use std::alloc::{AllocError, Global};
use std::fmt;

/// What is known of a run.
#[derive(Clone, Copy)]
pub struct Seen<'a> {
    /// Each turn, call, sleep, exit and fault, in their order.
    pub notes: &'a [Note],
    /// What the console showed.
    pub shown: &'a [u8],
    pub end: End,
    /// The lines of the trace up to the end of `init`.
    pub trace: &'a str,
    /// The text that was handed in; empty if it is none.
    pub handed_in: &'a str,
}

/// What a run gets for something that is asked of it.
#[derive(Drop)]
pub struct Mark {
    /// The points that it gives.
    pub points: u32,
    /// Why the run doesn't have it, in a student's words: then there are no points. `None` if it has.
    pub why: Option<String>,
}

impl Mark {
    /// The points that it brings: none if the run doesn't have what is asked.
    pub fn given(&self) -> u32
        ensures { result ≡ given_for self.now }
    {
        match self.why {
            None => self.points,
            Some(_) => 0,
        }
    }
}

// How a run ended that should have ended otherwise.
fn end_text(alloc: Global, end: End, wanted: i32) -> Result<String, AllocError> {
    match end {
        End::Exited(status) => {
            format!(in alloc; "init exits with {status}, and not with {wanted}")
        }
        _ => format!(in alloc; "init does not exit"),
    }
}

// Why an exit isn't the one that is asked for.
fn other_end(alloc: Global, end: End, wanted: i32) -> Result<Option<String>, AllocError>
    ensures { IfOk result (λ why. IsTrue (is_none why) ↔ (end ≡ End.Exited wanted)) }
{
    if end == End::Exited(wanted) {
        return Ok(None);
    }
    Ok(Some(end_text(alloc, end, wanted)?))
}

// The text at a place; empty if there is none.
fn text_at(texts: &[String], place: usize) -> &str {
    match texts.get(place) {
        Some(text) => text.as_str(),
        None => "",
    }
}

// Whether the step at a place has a note anywhere.
fn is_somewhere(steps: &[Pattern], place: usize, notes: &[Note]) -> bool {
    match steps.get(place) {
        Some(pattern) => count(pattern, notes) > 0,
        None => false,
    }
}

// The step that has to stand before the one at a place, as text: that of the first edge. Empty if there is none.
fn step_before<'a>(texts: &'a [String], edges: &[Edge], place: usize) -> &'a str {
    for edge in edges {
        if edge.behind == place {
            return text_at(texts, edge.before);
        }
    }
    ""
}

// The step that has to stand behind the one at a place, as text: that of the first edge. Empty if there is none.
fn step_behind<'a>(texts: &'a [String], edges: &[Edge], place: usize) -> &'a str {
    for edge in edges {
        if edge.before == place {
            return text_at(texts, edge.behind);
        }
    }
    ""
}

// Where a step is missing, by another step; empty if there is no other.
#[derive(Clone, Copy)]
struct Beside<'a> {
    word: &'a str,
    step: &'a str,
}

impl<'a> fmt::Display for Beside<'a> {
    fn fmt<W: fmt::Write>(&self, f: &mut fmt::Formatter<W>) -> fmt::Result {
        let (word, step) = (self.word, self.step);
        if step.is_empty() {
            return Ok(());
        }
        write!(f, " {word} `{step}`")
    }
}

// Why steps can't be arranged: this one is missing.
fn missing(
    alloc: Global,
    texts: &[String],
    steps: &[Pattern],
    edges: &[Edge],
    place: usize,
    notes: &[Note],
) -> Result<String, AllocError> {
    let own = text_at(texts, place);
    let earlier = if is_somewhere(steps, place, notes) {
        step_before(texts, edges, place)
    } else {
        ""
    };
    let behind = Beside {
        word: "behind",
        step: earlier,
    };
    let before = Beside {
        word: "before",
        step: step_behind(texts, edges, place),
    };
    format!(in alloc; "`{own}` is missing{behind}{before}")
}

// How many of the notes before a place fit one of the patterns.
fn fitting_before(of: &[Pattern], place: usize, notes: &[Note]) -> usize {
    let mut fitting: usize = 0;
    for note in notes.iter().take(place) {
        if fits_any(of, *note) {
            fitting = fitting.saturating_add(1);
        }
    }
    fitting
}

// A note that isn't the one that should stand there.
fn other_note(
    alloc: Global,
    texts: &[String],
    of: &[Pattern],
    place: usize,
    notes: &[Note],
) -> Result<String, AllocError> {
    let before = fitting_before(of, place, notes);
    let number = before.saturating_add(1);
    let wanted = match text_at(texts, before) {
        "" => "no more",
        wanted => wanted,
    };
    match notes.get(place) {
        Some(note) => {
            let note = Named(*note);
            format!(in alloc; "note {number}: expected `{wanted}`, got `{note}`")
        }
        None => format!(in alloc; "note {number}: expected `{wanted}`, got no more"),
    }
}

// The note at a place; empty if there is none.
#[derive(Clone, Copy)]
struct NoteAt(Option<Note>);

impl fmt::Display for NoteAt {
    fn fmt<W: fmt::Write>(&self, f: &mut fmt::Formatter<W>) -> fmt::Result {
        match self.0 {
            Some(note) => Named(note).fmt(f),
            None => Ok(()),
        }
    }
}

// How often a note may come.
fn how_often(alloc: Global, least: usize, most: usize) -> Result<String, AllocError> {
    if least == most {
        format!(in alloc; "{least} are asked for")
    } else if most >= u32::MAX as usize {
        format!(in alloc; "{least} at least are asked for")
    } else if least == 0 {
        format!(in alloc; "{most} at most may be there")
    } else {
        format!(in alloc; "{least} to {most} are asked for")
    }
}

// That a note comes so often, which is too often or not often enough.
fn counted_text(
    alloc: Global,
    note: &str,
    least: usize,
    most: usize,
    found: usize,
) -> Result<String, AllocError> {
    let asked = how_often(alloc, least, most)?;
    format!(in alloc; "`{note}`: {asked}, and {found} are there")
}

// That the note at a place may not come.
fn unwanted_text(alloc: Global, notes: &[Note], place: usize) -> Result<String, AllocError> {
    let note = NoteAt(notes.get(place).copied());
    format!(in alloc; "`{note}` may not come")
}

// That the note at a place has no note of this text before it.
fn alone_text(
    alloc: Global,
    first: &str,
    notes: &[Note],
    place: usize,
) -> Result<String, AllocError> {
    let note = NoteAt(notes.get(place).copied());
    format!(in alloc; "`{first}` is missing before `{note}`")
}

// What shows that a rule doesn't hold, as text.
fn shows(
    alloc: Global,
    texts: &[String],
    rule: &Rule,
    judgement: Judgement,
    notes: &[Note],
) -> Result<String, AllocError> {
    match (judgement, rule) {
        (Judgement::Counted(found), Rule::Count { least, most, .. }) => {
            counted_text(alloc, text_at(texts, 0), *least, *most, found)
        }
        (Judgement::Unwanted(place), _) => unwanted_text(alloc, notes, place),
        (Judgement::Alone(place), _) => alone_text(alloc, text_at(texts, 0), notes, place),
        (Judgement::Missing(place), Rule::InOrder { steps, edges }) => {
            missing(
                alloc,
                texts,
                steps.as_slice(),
                edges.as_slice(),
                place,
                notes,
            )
        }
        (Judgement::Other(place), Rule::Exactly { of, .. }) => {
            other_note(alloc, texts, of.as_slice(), place, notes)
        }
        _ => String::from_str(alloc, "it doesn't hold"),
    }
}

// Why a rule doesn't hold of notes.
fn broken(
    alloc: Global,
    texts: &[String],
    rule: &Rule,
    notes: &[Note],
) -> Result<Option<String>, AllocError>
    ensures { IfOk result (λ why. IsTrue (is_none why) ↔ HoldsOf rule.now notes.now) }
{
    let judgement = judge(alloc, rule, notes)?;
    if judgement.holds() {
        return Ok(None);
    }
    Ok(Some(shows(alloc, texts, rule, judgement, notes)?))
}

// Why a run doesn't have what is asked of it.
fn complaint(alloc: Global, check: &Check, seen: &Seen<'_>) -> Result<Option<String>, AllocError>
    ensures { IfOk result (λ why. IsAnswered check.now seen.now (is_none why)) }
{
    match check {
        Check::Status(wanted) => other_end(alloc, seen.end, *wanted),
        Check::Shown(wanted) => other_text(alloc, wanted.as_str().as_bytes(), seen.shown),
        Check::Shows(part) => not_shown(alloc, part.as_str().as_bytes(), seen.shown),
        Check::Rise(least) => no_rise(alloc, seen.shown, *least),
        Check::Numbers(wanted) => other_numbers(alloc, seen.shown, wanted.as_slice()),
        Check::Line { question, answer } => not_said(alloc, question.as_str(), answer, seen),
        Check::Numbered(most) => too_numbered(alloc, *most, seen.handed_in),
        Check::Predicts { words, most } => not_predicted(alloc, words.as_slice(), *most, seen),
        Check::Notes { rule, texts } => broken(alloc, texts.as_slice(), rule, seen.notes),
    }
}

// The first of two reasons, if there is any.
fn earlier(first: Option<String>, second: Option<String>) -> Option<String>
    ensures { is_none result ≡ is_none first && is_none second }
{
    match first {
        Some(why) => Some(why),
        None => second,
    }
}

// The first reason why a run doesn't have all of this.
fn first_complaint(
    alloc: Global,
    checks: &[Check],
    seen: &Seen<'_>,
) -> Result<Option<String>, AllocError>
    ensures { IfOk result (λ why. AreAnswered checks.now seen.now (is_none why)) }
{
    let mut first = None;
    for check in checks {
        let why = complaint(alloc, check, seen)?;
        first = earlier(first, why);
    }
    Ok(first)
}

// What a run gets for one thing.
fn mark_for(alloc: Global, asked: &Asked, seen: &Seen<'_>) -> Result<Mark, AllocError>
    ensures { IfOk result (IsMarked asked.now seen.now) }
{
    Ok(Mark {
        points: asked.points,
        why: first_complaint(alloc, asked.checks.as_slice(), seen)?,
    })
}

/// What a run gets for each thing that is asked of it, in their order.
///
/// # Errors
///
/// [`AllocError`] if the host has too little memory.
pub fn marks(alloc: Global, asked: &[Asked], seen: &Seen<'_>) -> Result<Vec<Mark>, AllocError>
    ensures { IfOk result (λ marks. AreMarked asked.now seen.now marks.items) }
{
    let mut marks = Vec::new(alloc);
    for one in asked {
        marks.push(mark_for(alloc, one, seen)?)?;
    }
    Ok(marks)
}
