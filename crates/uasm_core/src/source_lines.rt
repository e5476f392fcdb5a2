//! Where the lines and labels of a source stand in its program.
ghost use Rattle.std.specs.Prelude.{◌≡◌, ◌++◌, map, OnOk, IfOk};
ghost use Rattle.std.specs.Option.{option_map};
ghost use Rattle.uasm_core.specs.LineTable.{code_between, label_of, labels_of, label_seen, line_in, label_before, if_before, or_else};
ghost use Rattle.uasm_core.specs.Views.{seen};

use crate::place::Place;
use crate::placing::Placed;
use std::alloc::{AllocError, Global};

/// A line of a source that makes instructions.
#[derive(Clone, Copy)]
pub struct CodeLine {
    /// Its number, counted from 1.
    pub line: usize,
    /// The address of its first instruction.
    pub start: u64,
    /// The address behind its last instruction.
    pub end: u64,
}

/// A label of a source.
#[derive(Drop)]
pub struct LabelAddress {
    pub name: Vec<u8>,
    pub address: u64,
}

/// Where the lines and labels of a source stand in its program.
#[derive(Drop)]
pub struct SourceLines {
    /// The lines that make instructions, in their order.
    pub code: Vec<CodeLine>,
    /// The labels of text and of data, in the order of their lines.
    pub labels: Vec<LabelAddress>,
}

/// Adds the line of this number, which goes from one place to another, if it makes instructions.
pub(crate) fn add_code(
    code: &mut Vec<CodeLine>,
    number: usize,
    from: &Place,
    to: &Place,
) -> Result<(), AllocError>
    ensures { OnOk result (code.new.items ≡ code.old.items ++ code_between number from.now to.now) }
{
    if from.text_len < to.text_len {
        code.push(CodeLine {
            line: number,
            start: u64::from(from.text_len),
            end: u64::from(to.text_len),
        })?;
    }
    Ok(())
}

/// Adds the label of a line, if it has one.
fn add_label(
    alloc: Global,
    labels: &mut Vec<LabelAddress>,
    line: &Placed<'_>,
    text_len: u32,
) -> Result<(), AllocError>
    ensures { OnOk result (map label_seen labels.new.items
        ≡ map label_seen labels.old.items ++ label_of text_len (seen line.now)) }
{
    if let Some(name) = line.label {
        let name = Vec::from_slice(alloc, name)?;
        let address = line.place.address(text_len);
        labels.push(LabelAddress { name, address })?;
    }
    Ok(())
}

/// The labels of lines, in a program with `text_len` bytes of text.
pub(crate) fn label_addresses(
    alloc: Global,
    lines: &[Placed<'_>],
    text_len: u32,
) -> Result<Vec<LabelAddress>, AllocError>
    ensures { IfOk result (λ v. map label_seen v.items ≡ labels_of text_len (map seen lines.now)) }
{
    let mut labels = Vec::new(alloc);
    for line in lines {
        add_label(alloc, &mut labels, line, text_len)?;
    }
    Ok(labels)
}

/// The line whose instructions stand at an address.
fn line_in(code: &[CodeLine], address: u64) -> Option<usize>
    ensures { result ≡ line_in code.now address }
{
    for row in code {
        if row.start <= address && address < row.end {
            return Some(row.line);
        }
    }
    None
}

/// A label if it stands at an address or before it, and else the one that was found before it.
fn later<'a>(
    found: Option<&'a LabelAddress>,
    label: &'a LabelAddress,
    address: u64,
) -> Option<&'a LabelAddress>
    ensures { option_map (λ l. l.now) result
        ≡ or_else (if_before address label.now) (option_map (λ l. l.now) found.entry) }
{
    if label.address <= address {
        Some(label)
    } else {
        found
    }
}

/// The last of the labels that stand at an address or before it.
fn label_before(labels: &[LabelAddress], address: u64) -> Option<&LabelAddress>
    ensures { option_map (λ l. l.now) result ≡ label_before address labels.now }
{
    let mut found = None;
    for label in labels {
        found = later(found, label, address);
    }
    found
}

impl SourceLines {
    /// The line, counted from 1, whose instructions stand at an address; `None` if none do.
    pub fn line_at(&self, address: u64) -> Option<usize>
        ensures { result ≡ line_in self.now.code.items address }
    {
        line_in(&self.code, address)
    }

    /// The last label that stands at an address or before it: at an address of text the nearest one. `None` if none
    /// stands there.
    pub fn label_before(&self, address: u64) -> Option<&LabelAddress>
        ensures { option_map (λ l. l.now) result ≡ label_before address self.now.labels.items }
    {
        label_before(&self.labels, address)
    }
}
