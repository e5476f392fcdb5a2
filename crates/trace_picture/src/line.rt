//! The lines of a trace, and those that tell more of a run than its trace.
ghost use Rattle.std.specs.Prelude.{◌≡◌, ◌++◌, IfOk, OnOk, [], length, option_map};
ghost use Rattle.std.specs.Str.Lines.{lines};
ghost use Rattle.trace_picture.specs.Remarks.{IsOf, IsRemark, IsToldBy, Tells, about_process, at_blank, events_of, names_of, waits_of};

use crate::note::{Note, note_of_line, number_of};
use crate::remark::{Remark, Remarks};
use std::alloc::{AllocError, Global};

/// What a line tells.
#[derive(Drop)]
pub enum Line {
    /// An event.
    Event(Note),
    /// The program that a process runs from here on, by its name: `name 3 wc`.
    Name(u32, String),
    /// What a process waits for that has fallen asleep: `waits 3 read on descriptor 0, the read end of a pipe`.
    Waits(u32, String),
    /// Nothing that a picture shows.
    Other,
}

/// What lines tell, in their order.
#[derive(Drop)]
pub struct Told {
    pub notes: Vec<Note>,
    pub remarks: Remarks,
}

// What stands before the first blank of a text, and what stands behind it.
fn at_blank(text: &str) -> Option<(&str, &str)>
    ensures { option_map (λ parts. (parts.0.now, parts.1.now)) result ≡ at_blank text.now }
{
    text.split_once(' ')
}

// A pid, and the text behind it.
fn about_process(text: &str) -> Option<(u32, &str)>
    ensures { option_map (λ parts. (parts.0, parts.1.now)) result ≡ about_process text.now }
{
    let (pid, rest) = at_blank(text)?;
    Some((number_of(pid)?, rest))
}

// What a line tells of a process, by its first word, and by the pid and the text behind it.
fn line_of_process(alloc: Global, kind: &str, pid: u32, text: &str) -> Result<Line, AllocError>
    ensures { IfOk result (IsOf kind.now pid text.now) }
{
    match kind {
        "name" => Ok(Line::Name(pid, String::from_str(alloc, text)?)),
        "waits" => Ok(Line::Waits(pid, String::from_str(alloc, text)?)),
        _ => Ok(Line::Other),
    }
}

// What a line tells that is none of a trace.
fn remark_of(alloc: Global, line: &str) -> Result<Line, AllocError>
    ensures { IfOk result (IsRemark line.now) }
{
    let Some((kind, rest)) = at_blank(line) else {
        return Ok(Line::Other);
    };
    let Some((pid, text)) = about_process(rest) else {
        return Ok(Line::Other);
    };
    line_of_process(alloc, kind, pid, text)
}

/// What a line tells. One that is none of a trace, as the closing line, tells nothing, nor do `sent none` and `halted`.
///
/// # Errors
///
/// [`AllocError`] where the host has too little memory.
pub fn line_of(alloc: Global, line: &str) -> Result<Line, AllocError>
    ensures { IfOk result (Tells line.now) }
{
    match note_of_line(alloc, line)? {
        Some(note) => Ok(Line::Event(note)),
        None => remark_of(alloc, line),
    }
}

impl Told {
    /// No line was read yet.
    fn new(alloc: Global) -> Told
        ensures notes { result.notes.items ≡ [] }
        ensures names { result.remarks.names.items ≡ [] }
        ensures waits { result.remarks.waits.items ≡ [] }
    {
        Told {
            notes: Vec::new(alloc),
            remarks: Remarks {
                names: Vec::new(alloc),
                waits: Vec::new(alloc),
            },
        }
    }

    /// Adds what the next line tells.
    fn add(&mut self, line: Line) -> Result<(), AllocError>
        ensures events { OnOk result (self.new.notes.items ≡ self.old.notes.items ++ events_of line) }
        ensures names { OnOk result (self.new.remarks.names.items ≡ self.old.remarks.names.items ++ names_of (length self.old.notes.items) line) }
        ensures waits { OnOk result (self.new.remarks.waits.items ≡ self.old.remarks.waits.items ++ waits_of (length self.old.notes.items) line) }
    {
        let place = self.notes.len();
        match line {
            Line::Event(note) => self.notes.push(note)?,
            Line::Name(pid, text) => self.remarks.names.push(Remark { place, pid, text })?,
            Line::Waits(pid, text) => self.remarks.waits.push(Remark { place, pid, text })?,
            Line::Other => {}
        }
        Ok(())
    }
}

/// What a text tells, line by line.
///
/// # Errors
///
/// [`AllocError`] where the host has too little memory.
pub fn lines_of(alloc: Global, text: &str) -> Result<Told, AllocError>
    ensures { IfOk result (IsToldBy (lines text.now)) }
{
    let mut told = Told::new(alloc);
    for line in text.lines() {
        told.add(line_of(alloc, line)?)?;
    }
    Ok(told)
}
