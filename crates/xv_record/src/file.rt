//! A whole record, as a file has it.
ghost use Rattle.std.specs.Prelude.{◌≡◌, ◌++◌, flat_map, map, IfOk, OnOk};
ghost use Rattle.std.specs.String.{string_bytes};
ghost use Rattle.xv_record.specs.Told.{told, told_program, program_text, begun_text_of, head_text_of, record_text_of};

use crate::events::{END, push_events};
use crate::{Line, ProgramSum};
use std::alloc::{AllocError, Global};
use std::fmt::Write;

/// A record.
#[derive(Drop)]
pub struct Record {
    /// Frames of RAM.
    pub frames: u32,
    /// The programs, in their order.
    pub programs: Vec<ProgramSum>,
    /// The events, in their order.
    pub events: Vec<Line>,
}

// Writes the line of a program behind a text.
fn push_program(alloc: Global, text: &mut String, program: &ProgramSum) -> Result<(), AllocError>
    ensures { OnOk result (string_bytes text.new ≡ string_bytes text.old ++ program_text (told_program program.now)) }
{
    let sum = hex::encode(alloc, program.sum.as_slice())?;
    let size = program.size;
    let name = program.name.as_str();
    writeln!(text, "program {sum} {size} {name}")
}

// Writes the lines of programs behind a text.
fn push_lines(alloc: Global, text: &mut String, programs: &[ProgramSum]) -> Result<(), AllocError>
    ensures { OnOk result (string_bytes text.new ≡ string_bytes text.old ++ flat_map (λ p. program_text (told_program p)) programs.now) }
{
    for program in programs {
        push_program(alloc, text, program)?;
    }
    Ok(())
}

// Writes the lines of programs behind a text, by what is told of them.
fn push_programs(
    alloc: Global,
    text: &mut String,
    programs: &[ProgramSum],
) -> Result<(), AllocError>
    ensures { OnOk result (string_bytes text.new ≡ string_bytes text.old ++ flat_map program_text (map told_program programs.now)) }
{
    push_lines(alloc, text, programs)?;
    Ok(())
}

/// What stands in a record's text before its events.
///
/// # Errors
///
/// The host has too little memory.
pub fn head_text(alloc: Global, frames: u32, programs: &[ProgramSum]) -> Result<String, AllocError>
    ensures { IfOk result (λ text. string_bytes text ≡ head_text_of frames (map told_program programs.now)) }
{
    let mut text = String::new(alloc);
    writeln!(&mut text, "xv record 1\nframes {frames}")?;
    push_programs(alloc, &mut text, programs)?;
    writeln!(&mut text, "events")?;
    Ok(text)
}

/// The text of a record without its last line.
pub(crate) fn begun_text(alloc: Global, kept: &Record) -> Result<String, AllocError>
    ensures { IfOk result (λ text. string_bytes text ≡ begun_text_of (told kept.now)) }
{
    let mut text = head_text(alloc, kept.frames, kept.programs.as_slice())?;
    push_events(&mut text, kept.events.as_slice())?;
    Ok(text)
}

/// The text of a record.
///
/// # Errors
///
/// The host has too little memory.
pub fn record_text(alloc: Global, kept: &Record) -> Result<String, AllocError>
    ensures { IfOk result (λ text. string_bytes text ≡ record_text_of (told kept.now)) }
{
    let mut text = begun_text(alloc, kept)?;
    writeln!(&mut text, "{END}")?;
    Ok(text)
}
