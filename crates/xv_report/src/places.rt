//! From names and lines to addresses.
ghost use Rattle.std.specs.Prelude.{◌≡◌, IfSome, None, false, option_map, true};
ghost use Rattle.xv_report.specs.Places.{IsFurther, address_named, assembled_name, has_table, is_name, label_at, label_named, labels_in, line_begins, line_start, line_start_once, name_count, nth_name};

use crate::sources::{ProgramLines, ProgramSource};
use elf_symbols::{address_of, symbol_count, symbol_name};
use uasm_core::{CodeLine, LabelAddress};

/// The address of the first label of this name.
fn label_named(labels: &[LabelAddress], name: &[u8]) -> Option<u64>
    ensures { result ≡ label_named name.now labels.now }
{
    let label = labels.iter().find(|label| label.name.as_slice() == name)?;
    Some(label.address)
}

/// The name of the label at a place.
fn label_at(labels: &[LabelAddress], place: usize) -> Option<&[u8]>
    ensures { option_map (λ n. n.now) result ≡ label_at place labels.now }
{
    let label = labels.get(place)?;
    Some(label.name.as_slice())
}

/// Where the instructions begin of the first line that makes some and has this number, or a greater one.
fn line_start(code: &[CodeLine], number: usize) -> Option<u64>
    ensures { result ≡ line_start number code.now }
{
    let row = code.iter().find(|row| row.line >= number)?;
    Some(row.start)
}

/// Where the instructions of such a line begin, if no address is given above which: they stand together.
fn line_start_once(code: &[CodeLine], number: usize, after: Option<u64>) -> Option<u64>
    ensures { result ≡ line_start_once number after code.now }
{
    match after {
        None => line_start(code, number),
        Some(_) => None,
    }
}

/// A line of a source: `wc.c:12` is line 12 of `wc.c`.
#[derive(Clone, Copy)]
pub struct LineNamed<'a> {
    pub text: &'a str,
    pub file: &'a str,
    pub number: usize,
}

impl<'a> LineNamed<'a> {
    /// The line that a text names.
    pub fn of(text: &'a str) -> Option<LineNamed<'a>> {
        let (file, digits) = text.rsplit_once(':')?;
        let number = digits.parse::<usize>().ok()?;
        Some(LineNamed { text, file, number })
    }

    /// Whether another line is of the same file, and further down.
    fn is_before(&self, other: &LineNamed<'_>) -> bool
        ensures { result ≡ true → IsFurther self.now other.now }
    {
        (self.number < other.number) && (self.file == other.file)
    }

    /// The nearer of two lines that are further down: the one that a text names, or the one that was found before.
    fn nearer<'b>(&self, found: Option<LineNamed<'b>>, text: &'b str) -> Option<LineNamed<'b>>
        requires { IfSome found (λ line. IsFurther self.now line) }
        ensures { IfSome result (λ line. IsFurther self.now line) }
    {
        let Some(other) = LineNamed::of(text) else {
            return found;
        };
        if !self.is_before(&other) {
            return found;
        }
        match found {
            Some(line) if line.number <= other.number => found,
            _ => Some(other),
        }
    }

    /// Whether it is of the source that the program of this name was assembled of.
    fn is_of(&self, program: &[u8]) -> bool
        ensures { result ≡ is_name program.now (assembled_name self.now.file.now) }
    {
        match self.file.as_bytes().strip_suffix(b".s".as_slice()) {
            Some(name) => name == program,
            None => false,
        }
    }
}

impl<'a> ProgramSource<'a> {
    /// The program's labels: none if it wasn't assembled.
    fn labels(&self) -> &'a [LabelAddress]
        ensures { result.now ≡ labels_in self.now.lines }
    {
        match self.lines {
            ProgramLines::Source { lines, .. } => lines.labels.as_slice(),
            _ => &[],
        }
    }

    /// How many labels and symbols the program has.
    pub fn name_count(&self) -> usize
        ensures { result ≡ name_count self.now }
    {
        self.labels().len() + symbol_count(self.symbols)
    }

    /// The name at a place among those of the program: its labels come first, then the symbols, of which some have no
    /// name that stands for an address. The names at all places below [`ProgramSource::name_count`] are those that
    /// [`ProgramSource::address_named`] finds.
    pub fn nth_name(&self, place: usize) -> Option<&'a [u8]>
        ensures { option_map (λ n. n.now) result ≡ nth_name self.now place }
    {
        let labels = self.labels();
        if place < labels.len() {
            label_at(labels, place)
        } else {
            symbol_name(self.symbols, place - labels.len())
        }
    }

    /// The address of a label or a symbol of this name, if the program has one.
    pub fn address_named(&self, name: &[u8]) -> Option<u64>
        ensures { result ≡ address_named self.now name.now }
    {
        if let ProgramLines::Source { lines, .. } = self.lines {
            return match label_named(lines.labels.as_slice(), name) {
                Some(address) => Some(address),
                None => address_of(self.symbols, name),
            };
        }
        address_of(self.symbols, name)
    }

    /// Where instructions of a line begin, if it is one of the program's: at the least address, or at the first one above
    /// `after`. A compiler may put a line's instructions in several places; those of an assembler's line stand together.
    pub fn line_start(&self, line: &LineNamed<'_>, after: Option<u64>) -> Option<u64>
        ensures { result ≡ line_begins self.now.lines line.now after }
    {
        match self.lines {
            ProgramLines::Unknown => None,
            ProgramLines::Table { lines, place } => lines.start_after(place, line.text, after),
            ProgramLines::Source { lines, name } => {
                if line.is_of(name) {
                    line_start_once(lines.code.as_slice(), line.number, after)
                } else {
                    None
                }
            }
        }
    }

    /// The next line of the same file that has instructions, by a compiler's table: `None` if there is none further down.
    pub fn line_after(&self, line: &LineNamed<'_>) -> Option<LineNamed<'a>>
        ensures found { IfSome result (λ found. IsFurther line.now found) }
        ensures without { has_table self.now.lines ≡ false → result ≡ None }
    {
        let ProgramLines::Table { lines, place } = self.lines else {
            return None;
        };
        let mut found = None;
        for row in 0..lines.row_count() {
            if let Some(text) = lines.row_text(place, row) {
                found = line.nearer(found, text);
            }
        }
        found
    }
}
