//! A record that is taken from a text.
ghost use Rattle.std.specs.Prelude.{◌≡◌, ◌++◌, false, flat_map, map, IfOk, IfSome, OnOk};
ghost use Rattle.std.specs.String.{string_bytes};
ghost use Rattle.xv_record.specs.Reading.{Has, IsTaken, EndsIn, in_form, with_return};
ghost use Rattle.xv_record.specs.Told.{RecordTold, IsTold, AreProgramsTold, IsProgramTold, begun_text_of, end_text, told, told_program};
ghost use Rattle.xv_record.specs.declared.reading.Ending.{Ending};

use crate::events::{END, lines_of};
use crate::file::{Record, begun_text};
use crate::{ProgramSum, RecordError};
use hex::FromHex;
use std::alloc::{AllocError, Global};
use std::str::Lines;

const FIRST_LINE: &str = "xv record 1";

/// How a text that has a record ends.
#[derive(Clone, Copy, Debug, PartialEq, Eq)]
pub enum Ending {
    /// By the record's last line, `end`.
    Whole,
    /// Before it. What stands behind the last whole line is left out.
    Cut,
    /// By more than it, which is left out.
    Longer,
}

/// A record that was taken from a text.
#[derive(Drop)]
pub struct Taken {
    /// The record, as far as the text has it.
    pub record: Record,
    /// How the text ends.
    pub ending: Ending,
}

// The frames of a line `frames N`.
fn frames_in(line: &str) -> Option<u32> {
    line.strip_prefix("frames ")?.parse::<u32>().ok()
}

// The checksum that 64 hexadecimal digits stand for.
fn sum_in(text: &str) -> Option<[u8; 32]> {
    <[u8; 32] as FromHex>::from_hex(text).ok()
}

// The program of a line `program SUM SIZE NAME`, if it is one.
fn program_in(alloc: Global, line: &str) -> Result<Option<ProgramSum>, AllocError>
    ensures { IfOk result (λ program. IfSome program (λ p. IsProgramTold (told_program p))) }
{
    let Some(rest) = line.strip_prefix("program ") else {
        return Ok(None);
    };
    let Some((sum, rest)) = rest.split_once(' ') else {
        return Ok(None);
    };
    let Some((size, name)) = rest.split_once(' ') else {
        return Ok(None);
    };
    let (Some(sum), Ok(size)) = (sum_in(sum), size.parse::<u64>()) else {
        return Ok(None);
    };
    ProgramSum::new(alloc, name, size, sum)
}

// The program of the line of this number.
fn program_at(alloc: Global, line: &str, number: u64) -> Result<ProgramSum, RecordError>
    ensures { IfOk result (λ p. IsProgramTold (told_program p)) }
{
    match program_in(alloc, line)? {
        Some(program) => Ok(program),
        None => Err(RecordError::Head(number)),
    }
}

// The programs of the lines of a record's head, which begin at the line of this number.
fn programs_in(alloc: Global, lines: Lines<'_>, first: u64) -> Result<Vec<ProgramSum>, RecordError>
    ensures { IfOk result (λ programs. AreProgramsTold (map told_program programs.items)) }
{
    let mut programs = Vec::new(alloc);
    let mut number = first;
    for line in lines {
        let program = program_at(alloc, line, number)?;
        programs.push(program)?;
        number = number.saturating_add(1);
    }
    Ok(programs)
}

// The head of a record.
#[derive(Drop)]
struct Head {
    frames: u32,
    programs: Vec<ProgramSum>,
}

// The head of a record, from its lines.
fn head_in(alloc: Global, text: &str) -> Result<Head, RecordError>
    ensures { IfOk result (λ h. AreProgramsTold (map told_program h.programs.items)) }
{
    let mut lines = text.lines();
    if lines.next() != Some(FIRST_LINE) {
        return Err(RecordError::NotARecord);
    }
    let Some(frames) = lines.next().and_then(frames_in) else {
        return Err(RecordError::Head(2));
    };
    let programs = programs_in(alloc, lines, 3)?;
    Ok(Head { frames, programs })
}

// The parts of a record: its head, and the whole lines behind it.
fn parts_of(text: &str, returns: bool) -> Result<(&str, &str), RecordError> {
    let (events, line_end) = if returns {
        ("\r\nevents\r\n", "\r\n")
    } else {
        ("\nevents\n", "\n")
    };
    let Some((head, rest)) = text.split_once(events) else {
        return Err(if text.starts_with(FIRST_LINE) {
            RecordError::CutShort
        } else {
            RecordError::NotARecord
        });
    };
    match rest.rsplit_once(line_end) {
        Some((lines, _part)) => Ok((head, lines)),
        None => Ok((head, "")),
    }
}

// A text in the form of a file, each of whose line breaks has a return before it, or none has.
fn in_form(alloc: Global, text: &str, returns: bool) -> Result<Vec<u8>, AllocError>
    ensures { IfOk result (λ bytes. bytes.items ≡ in_form returns text.now) }
{
    if !returns {
        return Vec::from_slice(alloc, text.as_bytes());
    }
    with_returns(alloc, text.as_bytes())
}

// Bytes, each of whose line breaks has a return before it.
fn with_returns(alloc: Global, text: &[u8]) -> Result<Vec<u8>, AllocError>
    ensures { IfOk result (λ bytes. bytes.items ≡ flat_map with_return text.now) }
{
    let mut bytes = Vec::new(alloc);
    for byte in text {
        push_byte(&mut bytes, *byte)?;
    }
    Ok(bytes)
}

// Adds a byte, with a return before it, if it is a line break.
fn push_byte(bytes: &mut Vec<u8>, byte: u8) -> Result<(), AllocError>
    ensures { OnOk result (bytes.new.items ≡ bytes.old.items ++ with_return byte) }
{
    if byte == b'\n' {
        bytes.push(b'\r')?;
    }
    bytes.push(byte)?;
    Ok(())
}

// What stands in a text behind its beginning, if it begins so.
fn behind<'a>(begun: &[u8], text: &'a [u8]) -> Option<&'a [u8]>
    ensures { IfSome result (λ rest. text.now ≡ begun.now ++ rest.now) }
{
    let (front, rest) = text.split_at_checked(begun.len())?;
    if front == begun { Some(rest) } else { None }
}

// How a text ends, by what stands behind its events.
fn ending_of(alloc: Global, rest: &[u8], returns: bool) -> Result<Ending, RecordError>
    ensures { IfOk result (λ ending. EndsIn returns ending rest.now) }
{
    let end = in_form(alloc, "end\n", returns)?;
    match behind(end.as_slice(), rest) {
        Some(more) if more.is_empty() => Ok(Ending::Whole),
        Some(_) => Ok(Ending::Longer),
        None if rest.contains(&b'\n') => Err(RecordError::Form),
        None => Ok(Ending::Cut),
    }
}

// The record, if this text begins as its own.
fn kept_if_begun(
    alloc: Global,
    text: &str,
    kept: Record,
    returns: bool,
) -> Result<Taken, RecordError>
    requires { IsTold (told kept) }
    ensures { IfOk result (λ t. IsTold (told t.record) × Has returns text.now (told t.record) t.ending) }
{
    let begun = begun_text(alloc, &kept)?;
    let begun = in_form(alloc, begun.as_str(), returns)?;
    let Some(rest) = behind(begun.as_slice(), text.as_bytes()) else {
        return Err(RecordError::Form);
    };
    let ending = ending_of(alloc, rest, returns)?;
    Ok(Taken {
        record: kept,
        ending,
    })
}

/// The record of a text, as far as the text has it. Only what [`record_text`](crate::record_text) writes is taken, but
/// each line break may have a return before it, as some hosts write them.
///
/// # Errors
///
/// [`RecordError::NotARecord`] if it doesn't begin as a record does, [`RecordError::CutShort`] if it ends before its
/// events, [`RecordError::Head`] with the first line of its head that isn't right, [`RecordError::Line`] with the first
/// of its events that is none, [`RecordError::Form`] if a number or a line break is written in another way, and
/// [`RecordError::Memory`].
pub fn take_record(alloc: Global, text: &str) -> Result<Taken, RecordError>
    // the text is that of this record, whole or cut
    ensures taken { IfOk result (λ t. IsTaken text.now (told t.record) t.ending) }
    // what was written is read as the same, whole or cut
    ensures same { (wanted : RecordTold) (ending : Ending) → IsTold wanted → Has false text.now wanted ending → IfOk result (λ t. (told t.record ≡ wanted) × (t.ending ≡ ending)) }
{
    let returns = text.starts_with("xv record 1\r\n");
    let (head, events) = parts_of(text, returns)?;
    let head = head_in(alloc, head)?;
    let events = lines_of(alloc, events)?;
    let kept = Record {
        frames: head.frames,
        programs: head.programs,
        events,
    };
    kept_if_begun(alloc, text, kept, returns)
}

/// The record of a text that has it whole. It is taken as by [`take_record`].
///
/// # Errors
///
/// Those of [`take_record`], and [`RecordError::CutShort`] if the text is cut off, or goes on behind the record's end.
pub fn read_record(alloc: Global, text: &str) -> Result<Record, RecordError>
    ensures taken { IfOk result (λ r. IsTaken text.now (told r) Ending.Whole) }
    ensures same { (wanted : RecordTold) → IsTold wanted → Has false text.now wanted Ending.Whole → IfOk result (λ r. told r ≡ wanted) }
{
    let Taken { record, ending } = take_record(alloc, text)?;
    match ending {
        Ending::Whole => Ok(record),
        Ending::Cut | Ending::Longer => Err(RecordError::CutShort),
    }
}
