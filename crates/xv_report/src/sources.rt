//! What is known of the sources of programs: their functions, and their lines.
ghost use Rattle.std.specs.Prelude.{◌≡◌, IfNone, IfOk, IfSome, None, Some, is_some, length, true, map, option_map};
ghost use Rattle.kernel_spec.specs.views.State.{named_file};
ghost use Rattle.uasm_core.specs.LineTable.{line_in};
ghost use Rattle.xv_report.specs.Locations.{AreLinesOf, IsLineBy, IsLineByTable, IsSourceBy, IsSourceOf, IsUnknown, assembled_at, beside, function_in, function_of, function_seen, label_in, line_by_source, line_seen, or_own};

use crate::lines::Lines;
use crate::symbols::symbols_of_files;
use crate::text::{Function, Line, Location};
use elf_symbols::{function_at, function_start};
use std::alloc::AllocError;
use std::rt::Files;
use uasm_core::SourceLines;
use xk_base::Program;
use xv_session::Session;

/// What is known of the sources of a machine's programs.
#[derive(Drop)]
pub struct Sources {
    /// Of each program, in their order, the bytes of an ELF file with its symbols; none if there is no such file.
    pub symbols: Vec<Vec<u8>>,
    /// Of each program, in their order, where the lines of its source stand in it, if it was assembled.
    pub assembled: Vec<Option<SourceLines>>,
    /// The lines of the other programs.
    pub lines: Lines,
}

/// The lines of a program.
#[derive(Clone, Copy)]
pub enum ProgramLines<'a> {
    /// None is known.
    Unknown,
    /// Those of a table, where the program has this place.
    Table {
        lines: &'a Lines,
        place: usize,
    },
    /// Those of the source that the program of this name was assembled of.
    Source {
        lines: &'a SourceLines,
        name: &'a [u8],
    },
}

/// What is known of the source of a program.
#[derive(Clone, Copy)]
pub struct ProgramSource<'a> {
    /// The bytes of an ELF file with the program's symbols; none where there is no such file.
    pub symbols: &'a [u8],
    pub lines: ProgramLines<'a>,
}

/// The function of an address by the symbols, if they have one.
fn function_of(symbols: &[u8], address: u64) -> Option<Function<'_>>
    ensures { option_map function_seen result ≡ function_in symbols.now address }
{
    let name = function_at(symbols, address)?;
    let start = function_start(symbols, address)?;
    Some(Function {
        name,
        offset: address.wrapping_sub(start),
    })
}

/// The label behind which an address stands, if there is one.
fn label_of(lines: &SourceLines, address: u64) -> Option<Function<'_>>
    ensures { option_map function_seen result ≡ label_in lines.now address }
{
    let label = lines.label_before(address)?;
    Some(Function {
        name: label.name.as_slice(),
        offset: address.wrapping_sub(label.address),
    })
}

/// Where an address stands in a source; `None` if no instruction of it stands there.
fn in_source<'a>(lines: &'a SourceLines, name: &'a [u8], address: u64) -> Option<Location<'a>>
    ensures none { IfNone result (line_in lines.now.code.items address ≡ None) }
    ensures there { IfSome result (λ _. is_some (line_in lines.now.code.items address) ≡ true) }
    ensures function { IfSome result (λ l. option_map function_seen l.function ≡ label_in lines.now address) }
    ensures line { IfSome result (λ l. option_map line_seen l.line ≡ line_by_source lines.now name.now address) }
{
    let line = lines.line_at(address)?;
    Some(Location {
        function: label_of(lines, address),
        line: Some(Line::Assembled {
            program: name,
            line,
        }),
    })
}

/// The line of an address by a table, if the table has one.
fn in_table<'a>(lines: &'a Lines, place: usize, address: u64) -> Option<Line<'a>>
    ensures { IsLineByTable lines.now place address (option_map line_seen result) }
{
    let text = lines.text(place, address)?;
    Some(Line::Told(text))
}

impl<'a> ProgramSource<'a> {
    /// Where an address of the program stands in it.
    pub fn location(&self, address: u64) -> Location<'a>
        ensures function { option_map function_seen result.function ≡ function_of self.now address }
        ensures line { IsLineBy self.now.lines address (option_map line_seen result.line) }
    {
        let function = function_of(self.symbols, address);
        match self.lines {
            ProgramLines::Unknown => Location {
                function,
                line: None,
            },
            ProgramLines::Table { lines, place } => Location {
                function,
                line: in_table(lines, place, address),
            },
            ProgramLines::Source { lines, name } => match in_source(lines, name, address) {
                Some(location) => location,
                None => Location {
                    function,
                    line: None,
                },
            },
        }
    }
}

impl Sources {
    /// What is known of the sources of the programs of these files: the lines of those that were assembled, what stands
    /// beside each file for debuggers (the bytes of PATH.debug), and this table of the lines of the others
    /// ([`Lines::of`]).
    ///
    /// # Errors
    ///
    /// The host has too little memory.
    pub fn of_files<R: Files + AllocGlobal>(
        rt: &R,
        paths: &[String],
        assembled: Vec<Option<SourceLines>>,
        table: &str,
    ) -> Result<Sources, AllocError>
        ensures symbols { IfOk result (λ sources. length sources.symbols.items ≡ length paths.now) }
        ensures assembled { IfOk result (λ sources. sources.assembled ≡ assembled) }
    {
        Ok(Sources {
            symbols: symbols_of_files(rt, paths)?,
            assembled,
            lines: Lines::of(rt.alloc(), table)?,
        })
    }

    /// The bytes of an ELF file that stands beside the program at a place for its symbols: none if there is no such file.
    fn symbols_beside(&self, place: usize) -> &[u8]
        ensures { result.now ≡ beside self.now place }
    {
        match self.symbols.get(place) {
            Some(bytes) => bytes.as_slice(),
            None => &[],
        }
    }

    /// The lines of the program of this name at a place.
    fn lines_of<'a>(&'a self, place: usize, name: &'a [u8]) -> ProgramLines<'a>
        ensures { AreLinesOf (assembled_at self.now place) self.now.lines place name.now result }
    {
        match self.assembled.get(place) {
            Some(Some(lines)) => ProgramLines::Source { lines, name },
            _ => ProgramLines::Table {
                lines: &self.lines,
                place,
            },
        }
    }
}

/// What stands beside a program for its symbols, or else its own bytes.
fn or_own<'a>(beside: &'a [u8], own: &'a [u8]) -> &'a [u8]
    ensures { result.now ≡ or_own beside.now own.now }
{
    if beside.is_empty() { own } else { beside }
}

/// What is known of a source of which nothing is known.
fn unknown<'a>() -> ProgramSource<'a>
    ensures { IsUnknown result }
{
    ProgramSource {
        symbols: &[],
        lines: ProgramLines::Unknown,
    }
}

/// What is known of the source of a program at a place, by what is known of all.
fn known_by<'a>(
    sources: Option<&'a Sources>,
    place: usize,
    program: &'a Program,
) -> ProgramSource<'a>
    ensures { IsSourceBy (option_map (λ s. s.now) sources.entry) place (Some (named_file program.now)) result }
{
    let own = program.bytes.as_slice();
    let Some(sources) = sources else {
        return ProgramSource {
            symbols: own,
            lines: ProgramLines::Unknown,
        };
    };
    ProgramSource {
        symbols: or_own(sources.symbols_beside(place), own),
        lines: sources.lines_of(place, program.name.as_slice()),
    }
}

/// What is known of the source of the program at a place among these.
fn source_in<'a>(
    sources: Option<&'a Sources>,
    programs: &'a [Program],
    place: Option<usize>,
) -> ProgramSource<'a>
    ensures { IsSourceOf (option_map (λ s. s.now) sources.entry) (map named_file programs.now) place result }
{
    let Some(place) = place else {
        return unknown();
    };
    match programs.get(place) {
        Some(program) => known_by(sources, place, program),
        None => unknown(),
    }
}

/// What is known of the source of the program at a place among those of a session, by what is known of all of them: its
/// symbols are those that stand beside it, or else its own.
pub fn source_of<'a>(
    sources: Option<&'a Sources>,
    session: &'a Session,
    place: Option<usize>,
) -> ProgramSource<'a>
    ensures { IsSourceOf (option_map (λ s. s.now) sources.entry) session.now.machine.world.state.programs place result }
{
    source_in(sources, session.machine().programs(), place)
}
