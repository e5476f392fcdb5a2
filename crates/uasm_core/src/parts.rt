//! The parts of a line.
ghost use Rattle.std.specs.Prelude.{◌≡◌, ◌≤◌, ◌<◌, length, map, IfOk, IfSome, ◌&&◌, ◌==◌, not};
ghost use Rattle.std.specs.Option.{option_map};
ghost use Rattle.uasm_core.specs.Views.{parts, Gives};
ghost use Rattle.uasm_core.specs.Statement.{or_bad};
ghost use Rattle.std.specs.List.{prefix_len, suffix_len, list_all};
ghost use Rattle.uasm_core.specs.Line.{is_blank as blank, is_letter as letter, is_name_byte as name_byte, is_word_byte as word_byte, is_label as label_of, without_front_blanks, trimmed, place_of, code_from, after, label_end, is_outside, pieces_from, operands_of, unlabelled, parts_of as parts_in};
ghost use Rattle.uasm_core.specs.declared.scan.Quote.TheVariants.{Outside};

use crate::error::AsmErrorKind;
use crate::scan::Quote;
use std::alloc::{AllocError, Global};

/// A space or a tab.
fn is_blank(byte: u8) -> bool
    ensures { result ≡ blank byte }
{
    byte == b' ' || byte == b'\t'
}

fn is_letter(byte: u8) -> bool
    ensures { result ≡ letter byte }
{
    (byte >= b'A' && byte <= b'Z') || (byte >= b'a' && byte <= b'z') || byte == b'_'
}

/// A byte of a label.
fn is_name_byte(byte: u8) -> bool
    ensures { result ≡ name_byte byte }
{
    is_letter(byte) || (byte >= b'0' && byte <= b'9')
}

/// A byte of a word.
fn is_word_byte(byte: u8) -> bool
    ensures { result ≡ word_byte byte }
{
    is_name_byte(byte) || byte == b'.'
}

fn has_name_bytes_only(bytes: &[u8]) -> bool
    ensures { result ≡ list_all name_byte bytes.now }
{
    bytes.iter().all(|byte| is_name_byte(*byte))
}

/// A letter or _, then letters, digits and _.
pub(crate) fn is_label(bytes: &[u8]) -> bool
    ensures { result ≡ label_of bytes.now }
{
    !bytes.is_empty() && is_letter(bytes[0]) && has_name_bytes_only(bytes)
}

/// How many bytes at the front pass a test.
fn name_len(bytes: &[u8]) -> usize
    ensures value { result ≡ prefix_len name_byte bytes.now }
    ensures within { result ≤ length bytes.now }
{
    bytes.iter().take_while(|byte| is_name_byte(**byte)).count()
}

fn word_len(bytes: &[u8]) -> usize
    ensures value { result ≡ prefix_len word_byte bytes.now }
    ensures within { result ≤ length bytes.now }
{
    bytes.iter().take_while(|byte| is_word_byte(**byte)).count()
}

fn blank_len(bytes: &[u8]) -> usize
    ensures value { result ≡ prefix_len blank bytes.now }
    ensures within { result ≤ length bytes.now }
{
    bytes.iter().take_while(|byte| is_blank(**byte)).count()
}

fn last_blank_len(bytes: &[u8]) -> usize
    ensures value { result ≡ suffix_len blank bytes.now }
    ensures within { result ≤ length bytes.now }
{
    bytes
        .iter()
        .rev()
        .take_while(|byte| is_blank(**byte))
        .count()
}

fn without_blanks(bytes: &[u8]) -> &[u8]
    ensures { result.now ≡ without_front_blanks bytes.now }
{
    let blanks = blank_len(bytes);
    &bytes[blanks..]
}

fn trim(bytes: &[u8]) -> &[u8]
    ensures { result.now ≡ trimmed bytes.now }
{
    let front = without_blanks(bytes);
    let blanks = last_blank_len(front);
    &front[..front.len() - blanks]
}

/// Where the byte behind `byte` stands, if `byte` stands at `quote`.
fn next_quote(quote: Quote, byte: u8) -> Quote
    ensures { result ≡ after quote byte }
{
    match quote {
        Quote::Outside => {
            if byte == b'"' {
                Quote::Inside
            } else {
                Quote::Outside
            }
        }
        Quote::Inside => {
            if byte == b'"' {
                Quote::Outside
            } else if byte == b'\\' {
                Quote::Escaped
            } else {
                Quote::Inside
            }
        }
        Quote::Escaped => Quote::Inside,
    }
}

/// The line without its comment.
fn code(line: &[u8]) -> &[u8]
    ensures { result.now ≡ code_from Outside line.now }
{
    let mut quote = Quote::Outside;
    for (index, byte) in line.iter().enumerate() {
        if matches!(quote, Quote::Outside) && *byte == b'#' {
            return &line[..index];
        }
        quote = next_quote(quote, *byte);
    }
    line
}

/// A comma outside texts.
fn separates(quote: Quote, byte: u8) -> bool
    ensures { result ≡ (is_outside quote && (byte == 44)) }
{
    matches!(quote, Quote::Outside) && byte == b','
}

/// The parts round the commas that stand outside texts, without the blanks round them.
fn pieces<'a>(alloc: Global, bytes: &'a [u8]) -> Result<Vec<&'a [u8]>, AllocError>
    ensures { IfOk result (λ v. map (λ b. b.now) v.items ≡ map trimmed (pieces_from Outside bytes.now)) }
{
    let mut found = Vec::new(alloc);
    let mut from = 0;
    let mut quote = Quote::Outside;
    for (index, byte) in bytes.iter().enumerate() {
        if separates(quote, *byte) {
            found.push(trim(&bytes[from..index]))?;
            from = index + 1;
        } else {
            quote = next_quote(quote, *byte);
        }
    }
    found.push(trim(&bytes[from..]))?;
    Ok(found)
}

/// The operands in the bytes behind the word.
fn operands<'a>(alloc: Global, bytes: &'a [u8]) -> Result<Vec<&'a [u8]>, AllocError>
    ensures { IfOk result (λ v. map (λ b. b.now) v.items ≡ operands_of bytes.now) }
{
    if trim(bytes).is_empty() {
        return Ok(Vec::new(alloc));
    }
    pieces(alloc, bytes)
}

/// A line's label, word and operands.
#[derive(Drop)]
pub(crate) struct Parts<'a> {
    pub label: Option<&'a [u8]>,
    pub word: &'a [u8],
    pub operands: Vec<&'a [u8]>,
}

/// The word and the operands in the bytes behind the label.
fn behind_label<'a>(
    alloc: Global,
    label: Option<&'a [u8]>,
    bytes: &'a [u8],
) -> Result<Parts<'a>, AllocError>
    ensures { IfOk result (λ p. parts p ≡ unlabelled (option_map (λ b. b.now) label.entry) bytes.now) }
{
    let code = without_blanks(bytes);
    let word_end = word_len(code);
    Ok(Parts {
        label,
        word: &code[..word_end],
        operands: operands(alloc, &code[word_end..])?,
    })
}

/// Where the label at the front ends, if there is one.
#[tactic(auto, unfolding(crate::specs::Line::label_end))]
fn label_len(code: &[u8]) -> Option<usize>
    ensures value { result ≡ label_end code.now }
    ensures within { IfSome result (λ n. n < length code.now) }
{
    let name_end = name_len(code);
    if name_end < code.len() && is_label(&code[..name_end]) && code[name_end] == b':' {
        Some(name_end)
    } else {
        None
    }
}

pub(crate) fn parts_of<'a>(alloc: Global, line: &'a [u8]) -> Result<Parts<'a>, AllocError>
    ensures { IfOk result (λ p. parts p ≡ parts_in line.now) }
{
    let code = without_blanks(code(line));
    match label_len(code) {
        Some(colon) => behind_label(alloc, Some(&code[..colon]), &code[colon + 1..]),
        None => behind_label(alloc, None, code),
    }
}

fn behind_len(bytes: &[u8]) -> usize
    ensures value { result ≡ prefix_len (λ b. not (b == 40)) bytes.now }
    ensures within { result ≤ length bytes.now }
{
    bytes.iter().take_while(|byte| **byte != b'(').count()
}

/// The parts of number(register).
pub(crate) fn place_parts<'a>(bytes: &'a [u8]) -> Result<(&'a [u8], &'a [u8]), AsmErrorKind>
    ensures { Gives (λ r. (r.0.now, r.1.now)) result (or_bad (place_of bytes.now)) }
{
    let bracket = behind_len(bytes);
    if bracket + 1 < bytes.len() && bytes[bytes.len() - 1] == b')' {
        let inner = &bytes[bracket + 1..];
        Ok((trim(&bytes[..bracket]), trim(&inner[..inner.len() - 1])))
    } else {
        Err(AsmErrorKind::BadOperand)
    }
}
