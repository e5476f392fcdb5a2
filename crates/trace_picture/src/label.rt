//! How processes are named in a picture.
ghost use Rattle.std.specs.Prelude.{◌≡◌, Some, flat_map, length, option_map, take};
ghost use Rattle.std.specs.Fmt.{WritesOnOk};
ghost use Rattle.std.specs.Str.{chars};
ghost use Rattle.trace_picture.specs.Names as meant;
ghost use Rattle.trace_picture.specs.Remarks.{program_at, wait_in};

use crate::chart::Chart;
use crate::remark::{Remarks, last_told};
use std::fmt::{self, Display};

/// How wide a letter of a row's name is at most, in pixels.
const LETTER: u64 = 7;

/// The most letters of a program's name that stand before a row.
const MOST_LETTERS: usize = 24;

/// How much room there is for the names of rows at least, in pixels.
const LEAST_ROOM: u64 = 90;

/// How much of that room stays free, in pixels.
const FREE: u64 = 16;

/// A text in XML: what has a meaning there is written as an entity, and what can't be shown as a dot.
#[derive(Clone, Copy)]
pub struct Text<'a>(pub &'a str);

/// A letter of a text in XML.
#[derive(Clone, Copy)]
pub struct Letter(pub char);

impl Display for Letter {
    ghost output = { λ l. Some (meant.letter_text l.0) };

    fn fmt<W: fmt::Write>(&self, f: &mut fmt::Formatter<W>) -> fmt::Result {
        write_letter(self.0, f)
    }
}

// Writes a letter of a text in XML.
fn write_letter<W: fmt::Write>(letter: char, f: &mut fmt::Formatter<W>) -> fmt::Result
    ensures { WritesOnOk W.write_str_gives f.old result (meant.letter_text letter) f.new }
{
    match letter {
        '<' => f.write_str("&lt;"),
        '>' => f.write_str("&gt;"),
        '&' => f.write_str("&amp;"),
        '\u{0}'..='\u{1f}' | '\u{7f}'..='\u{9f}' | '\u{fffe}' | '\u{ffff}' => {
            f.write_char('\u{b7}')
        }
        _ => f.write_char(letter),
    }
}

// All letters of a text in XML.
fn write_letters<W: fmt::Write>(text: &str, f: &mut fmt::Formatter<W>) -> fmt::Result
    ensures { WritesOnOk W.write_str_gives f.old result (meant.xml_text text.now) f.new }
{
    for letter in text.chars() {
        write_letter(letter, f)?;
    }
    Ok(())
}

impl<'a> Display for Text<'a> {
    ghost output = { λ t. Some (meant.xml_text t.0.now) };

    fn fmt<W: fmt::Write>(&self, f: &mut fmt::Formatter<W>) -> fmt::Result {
        write_letters(self.0, f)
    }
}

/// A process: `process 3`, or `process 3 (wc)` where its program is told.
#[derive(Clone, Copy)]
pub struct Who<'a> {
    pub pid: u32,
    pub program: Option<&'a str>,
}

// A program's name behind a pid.
fn write_program<W: fmt::Write>(program: &str, f: &mut fmt::Formatter<W>) -> fmt::Result
    ensures { WritesOnOk W.write_str_gives f.old result (meant.behind_pid program.now) f.new }
{
    let program = Text(program);
    write!(f, " ({program})")
}

impl<'a> Display for Who<'a> {
    ghost output = { λ w. Some (meant.who_text w.pid (option_map (λ p. p.now) w.program)) };

    fn fmt<W: fmt::Write>(&self, f: &mut fmt::Formatter<W>) -> fmt::Result {
        let pid = self.pid;
        write!(f, "process {pid}")?;
        match self.program {
            Some(program) => write_program(program, f),
            None => Ok(()),
        }
    }
}

/// The name of a row: `process 3`, or `3 wc` where its program is told.
#[derive(Clone, Copy)]
pub struct RowName<'a>(pub Who<'a>);

// The first letters of a program's name.
fn write_first<W: fmt::Write>(program: &str, f: &mut fmt::Formatter<W>) -> fmt::Result
    ensures { WritesOnOk W.write_str_gives f.old result (flat_map meant.letter_text (take 24 (chars program.now))) f.new }
{
    for letter in program.chars().take(MOST_LETTERS) {
        write_letter(letter, f)?;
    }
    Ok(())
}

// How many letters a text has.
fn letters_in(text: &str) -> usize
    ensures { result ≡ length (chars text.now) }
{
    text.chars().count()
}

// An ellipsis for the letters of a program's name that are left out.
fn write_rest<W: fmt::Write>(program: &str, f: &mut fmt::Formatter<W>) -> fmt::Result
    ensures { WritesOnOk W.write_str_gives f.old result (meant.rest_text program.now) f.new }
{
    if letters_in(program) <= MOST_LETTERS {
        return Ok(());
    }
    f.write_char('\u{2026}')
}

// The first letters of a program's name, and an ellipsis for those that are left out.
fn write_start<W: fmt::Write>(program: &str, f: &mut fmt::Formatter<W>) -> fmt::Result
    ensures { WritesOnOk W.write_str_gives f.old result (meant.start_text program.now) f.new }
{
    write_first(program, f)?;
    write_rest(program, f)
}

impl<'a> Display for RowName<'a> {
    ghost output = { λ n. Some (meant.row_name n.0.pid (option_map (λ p. p.now) n.0.program)) };

    fn fmt<W: fmt::Write>(&self, f: &mut fmt::Formatter<W>) -> fmt::Result {
        let who = self.0;
        let Some(program) = who.program else {
            return write!(f, "{who}");
        };
        let pid = who.pid;
        write!(f, "{pid} ")?;
        write_start(program, f)
    }
}

/// A process, with the program that it runs behind the first events, so many.
pub fn who_at<'a>(remarks: &'a Remarks, pid: u32, events: usize) -> Who<'a>
    ensures pid { result.pid ≡ pid }
    ensures program { option_map (λ p. p.now) result.program ≡ program_at remarks.now pid events }
{
    let program = match last_told(remarks.names.as_slice(), pid, events) {
        Some(remark) => Some(remark.text.as_str()),
        None => None,
    };
    Who { pid, program }
}

/// What a process waits for that sleeps from the event `first` on, up to the first `behind` events.
pub fn wait_in<'a>(remarks: &'a Remarks, pid: u32, first: usize, behind: usize) -> Option<&'a str>
    ensures { option_map (λ t. t.now) result ≡ wait_in remarks.now pid first behind }
{
    let remark = last_told(remarks.waits.as_slice(), pid, behind)?;
    if remark.place > first {
        Some(remark.text.as_str())
    } else {
        None
    }
}

// How much room the name of a program takes before a row, with the pid, in pixels.
fn name_room(program: &str) -> u64
    ensures { result ≡ meant.name_room program.now }
{
    let letters = letters_in(program).min(MOST_LETTERS) as u64;
    (letters + 4) * LETTER + FREE
}

// The room, or as much as the name of a process's program takes, if that is more.
fn room_with(room: u64, who: &Who) -> u64
    ensures { result ≡ meant.room_with room (option_map (λ p. p.now) who.now.program) }
{
    match who.program {
        Some(program) => room.max(name_room(program)),
        None => room,
    }
}

/// How much room the names of all rows take, in pixels.
pub fn names_room(chart: &Chart, remarks: &Remarks) -> u64
    ensures { result ≡ meant.names_room chart.now remarks.now }
{
    let events = chart.notes.len();
    let mut room = LEAST_ROOM;
    for row in &chart.rows {
        let who = who_at(remarks, row.pid, events);
        room = room_with(room, &who);
    }
    room
}
