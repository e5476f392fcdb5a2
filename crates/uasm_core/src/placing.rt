//! The first pass: each line with its place.
ghost use Rattle.std.specs.Prelude.{◌≡◌, ◌≤◌, ◌<◌, ◌^◌, [], map, length, IfOk, IfSome, sum_by, IfErr, IfNone, false};
ghost use Rattle.std.specs.Option.{option_map};
ghost use Rattle.uasm_core.specs.Views.{Stands, seen, error_at};
ghost use Rattle.uasm_core.specs.Views.{places_of, with_label_of};
ghost use Rattle.uasm_core.specs.declared.error.AsmError.TheVariants as error;
ghost use Rattle.uasm_core.specs.Statement.{size_of, datum_size};
ghost use Rattle.uasm_core.specs.Views.{statement as statement_seen, datum as datum_seen};
ghost use Rattle.uasm_core.specs.Written.{placed, all_placed, behind, end_of, label_place, is_taken};
ghost use Rattle.std.specs.List.{flat_map};
ghost use Rattle.uasm_core.specs.LineTable.{code_of};
ghost use Rattle.uasm_core.specs.Places.{start, within_limit};
ghost use Rattle.xk_base.specs.declared.limits.TheConstants.{PROGRAM_BYTES};

use crate::error::{AsmError, AsmErrorKind, Refusal};
use crate::labels::{LabelPlaces, add, find, no_labels};
use crate::parts::parts_of;
use crate::place::Place;
use crate::program_end::ProgramEnd;
use crate::source_lines::{CodeLine, add_code};
use crate::statement::{Datum, Statement, asked};
use std::alloc::Global;
use xk_base::limits::PROGRAM_BYTES;

/// A line that was read.
#[derive(Drop)]
pub(crate) struct Placed<'a> {
    pub(crate) line: usize,
    pub(crate) label: Option<&'a [u8]>,
    pub(crate) place: Place,
    pub(crate) next: ProgramEnd,
    pub(crate) statement: Statement<'a>,
}

/// All lines, the places of their labels, and the length of their text.
#[derive(Drop)]
pub(crate) struct Listing<'a> {
    pub(crate) lines: Vec<Placed<'a>>,
    pub(crate) labels: LabelPlaces<'a>,
    pub(crate) text_len: u32,
    /// The lines that make instructions.
    pub(crate) code: Vec<CodeLine>,
}

fn datum_len(datum: &Datum<'_>) -> u64
    ensures value { result ≡ datum_size (datum_seen datum.now) }
    ensures range { (1 ≤ result) × (result ≤ 8) }
{
    match datum {
        Datum::Byte(_) => 1,
        Datum::Word(_) => 4,
        Datum::Dword(_) | Datum::Address(_) => 8,
    }
}

/// How many bytes these values have; none where they are more than a file may have.
#[tactic(auto, using(crate::proofs::Limit::values_long))]
fn values_len(values: &[Datum<'_>]) -> Option<u64>
    ensures value { IfSome result (λ n. (n ≡ sum_by datum_size (map datum_seen values.now)) × (n < 2 ^ 32)) }
    ensures long { IfNone result (PROGRAM_BYTES < sum_by datum_size (map datum_seen values.now)) }
{
    if values.len() > PROGRAM_BYTES {
        return None;
    }
    let mut total = 0;
    for value in values {
        total += datum_len(value);
    }
    Some(total)
}

/// How many bytes a text has; none where they are more than a file may have.
fn text_len(text: &[u8]) -> Option<u64>
    ensures value { IfSome result (λ n. (n ≡ length text.now) × (n < 2 ^ 32)) }
    ensures long { IfNone result (PROGRAM_BYTES < length text.now) }
{
    if text.len() > PROGRAM_BYTES {
        return None;
    }
    Some(text.len() as u64)
}

/// How many bytes a statement spells; none where they are more than a file may have.
fn size(statement: &Statement<'_>) -> Option<u64>
    ensures value { IfSome result (λ n. (n ≡ size_of (statement_seen statement.now)) × (n < 2 ^ 32)) }
    ensures long { IfNone result (PROGRAM_BYTES < size_of (statement_seen statement.now)) }
{
    match statement {
        Statement::Empty | Statement::Switch(_) => Some(0),
        Statement::One(_) | Statement::BranchTo(..) | Statement::JumpTo(..) => Some(4),
        Statement::Two(..) | Statement::LoadAddress(..) => Some(8),
        Statement::Values(values) => values_len(values),
        Statement::Text(text) => text_len(text),
        Statement::Space(count) => Some(u64::from(*count)),
    }
}

/// The end behind a statement, if a file may be so long.
fn end_behind(end: &ProgramEnd, statement: &Statement<'_>) -> Option<ProgramEnd>
    ensures { result ≡ within_limit (behind (statement_seen statement.now) end.now) }
{
    match statement {
        Statement::Switch(to) => Some(end.switched(*to)),
        _ => end.grown(size(statement)?),
    }
}

/// What is wrong, with the line's number.
pub(crate) fn at_line(line: usize, refusal: Refusal) -> AsmError
    ensures { result ≡ error_at line refusal }
{
    match refusal {
        Refusal::NoMemory => AsmError::Memory,
        Refusal::Kind(kind) => AsmError::At { line, kind },
    }
}

/// Whether the label stands already.
fn is_known<'a>(labels: &LabelPlaces<'a>, label: Option<&'a [u8]>) -> bool
    ensures { result ≡ is_taken (option_map (λ b. b.now) label.entry) (places_of labels.now) }
{
    match label {
        Some(name) => find(labels, name).is_some(),
        None => false,
    }
}

fn enter<'a>(
    labels: &mut LabelPlaces<'a>,
    label: Option<&'a [u8]>,
    at: Place,
) -> Result<(), AsmError>
    ensures value { IfOk result (λ _. places_of labels.new
        ≡ with_label_of (option_map (λ b. b.now) label.entry) at (places_of labels.old)) }
    ensures memory { IfErr result (λ e. e ≡ error.Memory) }
{
    match label {
        Some(name) => Ok(add(labels, name, at)?),
        None => Ok(()),
    }
}

/// Line `line`, which stands at the end of the program so far.
fn place_line<'a>(
    alloc: Global,
    labels: &mut LabelPlaces<'a>,
    line: usize,
    end: &ProgramEnd,
    source: &'a [u8],
) -> Result<Placed<'a>, AsmError>
    ensures value { Stands seen result (placed line (places_of labels.old) end.now source.now) }
    ensures fresh { IfOk result (λ p. is_taken (seen p).label (places_of labels.old) ≡ false) }
    ensures place { IfOk result (λ p. p.place ≡ end.now) }
    ensures next { IfOk result (λ p. p.next ≡ behind (seen p).statement end.now) }
    ensures labels { IfOk result (λ p. places_of labels.new
        ≡ with_label_of (seen p).label end.now (places_of labels.old)) }
{
    let parts = parts_of(alloc, source)?;
    if is_known(labels, parts.label) {
        return Err(AsmError::At {
            line,
            kind: AsmErrorKind::DuplicateLabel,
        });
    }
    let place = end.place();
    let statement = match asked(alloc, place.section, &parts) {
        Ok(statement) => statement,
        Err(refusal) => return Err(at_line(line, refusal)),
    };
    let Some(next) = end_behind(end, &statement) else {
        return Err(AsmError::At {
            line,
            kind: AsmErrorKind::OutOfRange,
        });
    };
    enter(labels, parts.label, place)?;
    Ok(Placed {
        line,
        label: parts.label,
        place,
        next,
        statement,
    })
}

/// All lines with their places, and the instructions that they make.
pub(crate) fn place_all<'a>(alloc: Global, lines: &[&'a str]) -> Result<Listing<'a>, AsmError>
    ensures value { Stands (λ v. map seen v.lines.items) result
        (all_placed (map (λ l. l.now) lines.now)) }
    ensures labels { IfOk result (λ v. places_of v.labels ≡ label_place (map seen v.lines.items)) }
    ensures text_len { IfOk result (λ v. v.text_len ≡ (end_of (map seen v.lines.items) start).text_len) }
    ensures code { IfOk result (λ v. v.code.items ≡ flat_map code_of (map seen v.lines.items)) }
{
    let mut found = Vec::new(alloc);
    let mut code = Vec::new(alloc);
    let mut labels = no_labels(alloc);
    let mut end = ProgramEnd::start();
    for (index, line) in lines.iter().enumerate() {
        let one = place_line(alloc, &mut labels, index + 1, &end, line.as_bytes())?;
        end = one.next;
        add_code(&mut code, one.line, &one.place, &end.place())?;
        found.push(one)?;
    }
    Ok(Listing {
        lines: found,
        labels,
        text_len: end.place().text_len,
        code,
    })
}
