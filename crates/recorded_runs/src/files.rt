//! The FILEs of a record's programs, and what is known of their sources.
ghost use Rattle.std.specs.Prelude.{◌≡◌, ◌++◌, None, IfErr, IfOk, OnOk, get_or, map, option_map, string_bytes};
ghost use Rattle.program_files.specs.Failures.{failure_status};
ghost use Rattle.program_files.specs.Programs.{AreProgramsIn};
ghost use Rattle.std.specs.Option.{option_to_list};
ghost use Rattle.recorded_runs.specs.Places.{path_at, paths_at, place_of, places_of};
ghost use Rattle.recorded_runs.specs.Taken.{AreTaken, without_at};
ghost use Rattle.xv_record.specs.Chosen.{AreThere};
ghost use Rattle.xv_record.specs.Told.{program_told, told_program};

use crate::reading::recorded_programs;
use program_files::{Failure, SourcedPrograms, programs};
use std::alloc::{AllocError, Global};
use std::fmt::Write;
use uasm_core::SourceLines;
use xk_base::Program;
use xv_record::{ProgramSum, Record};

/// A record's programs, in its order, and what is known of the sources of each.
#[derive(Drop)]
pub struct RecordedFiles {
    pub programs: Vec<Program>,
    /// The path of each.
    pub paths: Vec<String>,
    /// Of each, where the lines of its source stand in it, if it was assembled.
    pub lines: Vec<Option<SourceLines>>,
    /// The rows of a table of lines that are of these programs, each with the program's place among them.
    pub table: String,
}

/// The programs of the FILEs of these paths, in this order, with the lines of those that are assembled.
///
/// # Errors
///
/// The first FILE that gives no program.
pub fn given_programs<'a>(
    rt: &HostRuntime,
    paths: &'a [String],
) -> Result<SourcedPrograms, Failure<'a>>
    ensures made { IfOk result (λ made. AreProgramsIn paths.now made.programs.items) }
    ensures refused { IfErr result (λ e. failure_status e ≡ 2) }
{
    match programs(rt, paths) {
        Ok(made) => Ok(made),
        Err(refusal) => Err(Failure::File(refusal)),
    }
}

// The place of the first program of a name.
fn place_of(programs: &[Program], name: &str) -> Option<usize>
    ensures { result ≡ place_of programs.now name.now }
{
    programs
        .iter()
        .position(|program| program.name.as_slice() == name.as_bytes())
}

// Adds a place, if there is one.
fn push_place(places: &mut Vec<usize>, place: Option<usize>) -> Result<(), AllocError>
    ensures { OnOk result (places.new.items ≡ places.old.items ++ option_to_list place) }
{
    if let Some(place) = place {
        places.push(place)?;
    }
    Ok(())
}

// The places of the programs that were recorded, in the record's order.
fn places_of(
    alloc: Global,
    programs: &[Program],
    wanted: &[ProgramSum],
) -> Result<Vec<usize>, Failure<'static>>
    ensures places { IfOk result (λ places. places.items ≡ places_of programs.now wanted.now) }
    ensures refused { IfErr result (λ e. failure_status e ≡ 2) }
{
    let mut places = Vec::new(alloc);
    for sum in wanted {
        let place = place_of(programs, sum.name.as_str());
        push_place(&mut places, place)?;
    }
    Ok(places)
}

// The path at a place, if there is one.
fn path_at(paths: &[String], place: usize) -> Option<&str>
    ensures { option_map (λ path. path.now) result ≡ path_at paths.now place }
{
    match paths.get(place) {
        Some(path) => Some(path.as_str()),
        None => None,
    }
}

// Adds a path, if there is one.
fn push_path(alloc: Global, chosen: &mut Vec<String>, path: Option<&str>) -> Result<(), AllocError>
    ensures { OnOk result (map string_bytes chosen.new.items ≡ map string_bytes chosen.old.items ++ option_to_list (option_map (λ p. p.now) path.entry)) }
{
    if let Some(path) = path {
        let path = String::from_str(alloc, path)?;
        chosen.push(path)?;
    }
    Ok(())
}

// The paths at these places.
fn paths_at(
    alloc: Global,
    paths: &[String],
    places: &[usize],
) -> Result<Vec<String>, Failure<'static>>
    ensures paths { IfOk result (λ chosen. map string_bytes chosen.items ≡ paths_at paths.now places.now) }
    ensures refused { IfErr result (λ e. failure_status e ≡ 2) }
{
    let mut chosen = Vec::new(alloc);
    for place in places {
        let path = path_at(paths, *place);
        push_path(alloc, &mut chosen, path)?;
    }
    Ok(chosen)
}

// Takes the lines at a place, if there are any.
fn take_lines(lines: &mut [Option<SourceLines>], place: usize) -> Option<SourceLines>
    ensures taken { result ≡ get_or lines.old place None }
    ensures left { lines.new ≡ without_at place lines.old }
{
    if place < lines.len() {
        lines[place].take()
    } else {
        None
    }
}

// The lines at these places, which are taken.
fn lines_at(
    alloc: Global,
    lines: &mut [Option<SourceLines>],
    places: &[usize],
) -> Result<Vec<Option<SourceLines>>, Failure<'static>>
    ensures lines { IfOk result (λ chosen. AreTaken lines.old places.now chosen.items) }
    ensures refused { IfErr result (λ e. failure_status e ≡ 2) }
{
    let mut chosen = Vec::new(alloc);
    for place in places {
        chosen.push(take_lines(lines, *place))?;
    }
    Ok(chosen)
}

// The place among these of the one that a row of a table begins with, and the rest of the row.
fn renumbered<'a>(row: &'a str, places: &[usize]) -> Option<(usize, &'a str)> {
    let (place, rest) = row.split_once(' ')?;
    let place = place.parse::<usize>().ok()?;
    let place = places.iter().position(|it| *it == place)?;
    Some((place, rest))
}

// The rows of a table of lines that are of the programs at these places, each with the place among them.
fn table_at(alloc: Global, table: &str, places: &[usize]) -> Result<String, Failure<'static>>
    ensures { IfErr result (λ e. failure_status e ≡ 2) }
{
    let mut text = String::new(alloc);
    for row in table.lines() {
        if let Some((place, rest)) = renumbered(row, places) {
            writeln!(&mut text, "{place} {rest}")?;
        }
    }
    Ok(text)
}

/// Of the programs of these FILEs those that a record names, in its order, with what is known of their sources: of each
/// the lines, and of a table of lines the rows.
///
/// # Errors
///
/// Those of [`recorded_programs`].
pub fn recorded_files(
    alloc: Global,
    paths: &[String],
    made: SourcedPrograms,
    table: &str,
    kept: &Record,
) -> Result<RecordedFiles, Failure<'static>>
    ensures programs { IfOk result (λ files. map program_told files.programs.items ≡ map told_program kept.now.programs.items) }
    ensures there { IfOk result (λ _. AreThere made.programs.items kept.now.programs.items) }
    // each path is that of the first FILE whose program has the name that was recorded
    ensures paths { IfOk result (λ files. map string_bytes files.paths.items ≡ paths_at paths.now (places_of made.programs.items kept.now.programs.items)) }
    // and so are the lines of its source
    ensures lines { IfOk result (λ files. AreTaken made.lines.items (places_of made.programs.items kept.now.programs.items) files.lines.items) }
    ensures refused { IfErr result (λ e. failure_status e ≡ 2) }
{
    let SourcedPrograms { programs, lines } = made;
    let mut lines = lines;
    let places = places_of(alloc, programs.as_slice(), kept.programs.as_slice())?;
    Ok(RecordedFiles {
        programs: recorded_programs(alloc, programs.as_slice(), kept)?,
        paths: paths_at(alloc, paths, places.as_slice())?,
        lines: lines_at(alloc, lines.as_mut_slice(), places.as_slice())?,
        table: table_at(alloc, table, places.as_slice())?,
    })
}
