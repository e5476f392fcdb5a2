//! The whole text.
ghost use Rattle.line_tables.specs.Table as meant;
ghost use Rattle.line_tables.specs.FactsText.{source_name};
ghost use Rattle.line_tables.specs.Texts.{IsMade};

use crate::error::TableError;
use crate::fact::{Fact, Told};
use crate::facts::facts_of;
use crate::facts_text::add_facts;
use crate::frames::section_frames;
use crate::lines::section_lines;
use crate::names::{Named, names_of};
use crate::names_text::add_names;
use crate::sections::{Sections, sections_of};
use dwarf::LineError;
use std::alloc::Global;

/// The rows of the table of lines.
fn lines_in(alloc: Global, section: &[u8]) -> Result<Vec<Told>, TableError>
    ensures { IsMade result (meant.lines_in section.now) }
{
    match section_lines(alloc, section) {
        Ok(lines) => Ok(lines),
        Err(LineError::Memory) => Err(TableError::Memory),
        Err(LineError::Damaged(fault)) => Err(TableError::Lines(fault)),
    }
}

/// The rows of the table of frames.
fn frames_in(alloc: Global, section: &[u8]) -> Result<Vec<Told>, TableError>
    ensures { IsMade result (meant.frames_in section.now) }
{
    match section_frames(alloc, section) {
        Ok(frames) => Ok(frames),
        Err(LineError::Memory) => Err(TableError::Memory),
        Err(LineError::Damaged(fault)) => Err(TableError::Frames(fault)),
    }
}

/// The text of functions and labels, of lines and of frames, each in the order of addresses.
#[tactic(auto, unfolding(crate::specs::Table::written))]
fn write_text(
    alloc: Global,
    sections: &Sections,
    names: &[(u64, Named)],
    lines: &[(u64, Fact)],
    frames: &[(u64, Fact)],
) -> Result<Vec<u8>, TableError>
    ensures { IsMade result (meant.written sections.now.names.now
        (source_name sections.now.lines.now sections.now.line_strings.now sections.now.strings.now)
        names.now lines.now frames.now) }
{
    let mut text = Vec::new(alloc);
    add_names(alloc, sections.names, names, &mut text)?;
    add_facts(alloc, sections, lines, &mut text)?;
    add_facts(alloc, sections, frames, &mut text)?;
    Ok(text)
}

/// What a reader of a program's source needs of the tables of an ELF-64 file, as a text: its functions and labels, the
/// lines of its source, and how its calls lie on the stack. The page of the crate tells the form of its lines.
///
/// It reads the sections `.symtab`, `.strtab`, `.debug_line`, `.debug_line_str`, `.debug_str` and `.debug_frame`. One
/// that the file doesn't have, or not the whole of, tells nothing; so a file that is no ELF-64 file gives an empty
/// text. It takes memory for the rows of the tables, of which there are no more than bytes in the file, and for the
/// text.
///
/// # Errors
///
/// The first of these that holds: [`TableError::Lines`] if `.debug_line` is damaged, [`TableError::Frames`] if the
/// lengths of the entries of `.debug_frame` are, [`TableError::Name`] if a name can't be read, [`TableError::Large`] if
/// the text has more than 16 MiB. [`TableError::Memory`] if the host has too little memory.
#[tactic(auto, unfolding(crate::specs::Table::table_text))]
pub fn table_text(alloc: Global, file: &[u8]) -> Result<Vec<u8>, TableError>
    ensures { IsMade result (meant.table_text file.now) }
{
    let sections = sections_of(file);
    let lines = lines_in(alloc, sections.lines)?;
    let frames = frames_in(alloc, sections.frames)?;
    let names = names_of(alloc, sections.symbols)?;
    let lines = facts_of(alloc, lines.as_slice(), Fact::NoLine)?;
    let frames = facts_of(alloc, frames.as_slice(), Fact::NoFrame)?;
    write_text(
        alloc,
        &sections,
        names.as_slice(),
        lines.as_slice(),
        frames.as_slice(),
    )
}
