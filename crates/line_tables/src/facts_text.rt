//! The rows of lines and frames.
ghost use Rattle.std.specs.Prelude.{◌≡◌, IfOk};
ghost use Rattle.line_tables.specs.FactsText as meant;
ghost use Rattle.line_tables.specs.Texts.{IsName, IsText};
ghost use Rattle.std.specs.String.{string_bytes};

use crate::error::TableError;
use crate::fact::{Fact, Frame, FrameBase};
use crate::sections::Sections;
use crate::source::{Source, is_same_text};
use crate::text::{FIRST_SHOWN, add_row, read_name};
use dwarf::Text;
use std::alloc::{AllocError, Global};

/// The name of a source.
fn source_name<'a>(sections: &Sections<'a>, file: Text) -> Result<&'a [u8], TableError>
    ensures { IsName (λ name. name.now) result
        (meant.source_name sections.now.lines.now sections.now.line_strings.now sections.now.strings.now file) }
{
    match file {
        Text::Here(place) => read_name(sections.lines, place as u64, FIRST_SHOWN),
        Text::LineStrings(place) => read_name(sections.line_strings, place, FIRST_SHOWN),
        Text::Strings(place) => read_name(sections.strings, place, FIRST_SHOWN),
    }
}

/// Whether the last row of a source names this one.
fn is_told(told: Option<Text>, file: Text) -> bool
    ensures { result ≡ meant.is_told told file }
{
    match told {
        Some(last) => is_same_text(last, file),
        None => false,
    }
}

/// Adds the row of a source, if the last one is of another.
#[tactic(auto, unfolding(crate::specs::FactsText::with_source))]
fn add_source(
    sections: &Sections,
    told: Option<Text>,
    file: Text,
    text: &mut Vec<u8>,
) -> Result<(), TableError>
    ensures { IsText result text.new.items (meant.with_source
        (meant.source_name sections.now.lines.now sections.now.line_strings.now sections.now.strings.now)
        told file text.old.items) }
{
    if is_told(told, file) {
        return Ok(());
    }
    let name = source_name(sections, file)?;
    add_row(text, "file ", name)
}

/// The name of the register that frames are counted from.
fn base_name(base: FrameBase) -> &'static str
    ensures { result.now ≡ meant.base_name base }
{
    match base {
        FrameBase::Sp => "sp",
        FrameBase::S0 => "s0",
    }
}

/// The row of a frame.
fn frame_row(alloc: Global, address: u64, frame: Frame) -> Result<String, AllocError>
    ensures { IfOk result (λ row. string_bytes row ≡ meant.frame_row address frame) }
{
    let base = base_name(frame.base);
    let size = frame.size;
    let ra = frame.ra;
    let s0 = frame.s0;
    format!(in alloc; "frame {address} {base} {size} {ra} {s0}")
}

/// The row of a fact, but for its source.
fn fact_row(alloc: Global, address: u64, fact: Fact) -> Result<String, AllocError>
    ensures { IfOk result (λ row. string_bytes row ≡ meant.fact_row address fact) }
{
    match fact {
        Fact::Line(source) => {
            let line = source.line;
            format!(in alloc; "{address} {line}")
        }
        Fact::NoLine => format!(in alloc; "{address} 0"),
        Fact::Framed(frame) => frame_row(alloc, address, frame),
        Fact::NoFrame => format!(in alloc; "frame {address} - 0 0 0"),
    }
}

/// Adds the rows of a fact: that of its source, if the last one is of another, and its own.
#[tactic(auto, unfolding(crate::specs::FactsText::with_fact))]
fn add_fact(
    alloc: Global,
    sections: &Sections,
    told: Option<Text>,
    address: u64,
    fact: Fact,
    text: &mut Vec<u8>,
) -> Result<(), TableError>
    ensures { IsText result text.new.items (meant.with_fact
        (meant.source_name sections.now.lines.now sections.now.line_strings.now sections.now.strings.now)
        told address fact text.old.items) }
{
    if let Fact::Line(source) = fact {
        add_source(sections, told, source.file, text)?;
    }
    let row = fact_row(alloc, address, fact)?;
    add_row(text, row.as_str(), b"".as_slice())
}

/// The source that the last row of a source names, after the rows of a fact.
fn told_after(told: Option<Text>, fact: Fact) -> Option<Text>
    ensures { result ≡ meant.told_after told fact }
{
    match fact {
        Fact::Line(source) => Some(source.file),
        _ => told,
    }
}

/// Adds the rows of facts, in this order.
///
/// # Errors
///
/// [`TableError::Name`] if the name of a source can't be read, [`TableError::Large`] if the text has more than 16 MiB,
/// [`TableError::Memory`] if the host has too little memory.
pub(crate) fn add_facts(
    alloc: Global,
    sections: &Sections,
    facts: &[(u64, Fact)],
    text: &mut Vec<u8>,
) -> Result<(), TableError>
    ensures { IsText result text.new.items (meant.with_facts
        (meant.source_name sections.now.lines.now sections.now.line_strings.now sections.now.strings.now)
        None facts.now text.old.items) }
{
    let mut told = None;
    for entry in facts {
        add_fact(alloc, sections, told, entry.0, entry.1, text)?;
        told = told_after(told, entry.1);
    }
    Ok(())
}
