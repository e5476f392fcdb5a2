//! What GDB begins with: a machine that has gone on to a place of its run.
ghost use Rattle.std.specs.Prelude.{◌≡◌, ◌++◌, [], None, IfErr, IfOk, OnOk, map, option_map, slice_get, string_bytes, unwrap_or};
ghost use Rattle.std.specs.Io.KnownBytes.{Appends};
ghost use Rattle.kernel_spec.specs.views.State.{named_file};
ghost use Rattle.recorded_runs.specs.Places.{paths_at, places_of};
ghost use Rattle.xv_live.specs.Plays.{events_of_lines};
ghost use Rattle.gdb_target.specs.Beginning.{AreKeys, Begins, IsAtBoot, IsBeginningOf, IsBegun, IsBeyond, IsBooted, IsPlaceIn, IsReplayed};
ghost use Rattle.gdb_target.specs.Beginning.{IsKnownBy, IsTakenUp, IsTargetOf, end_note, first_other, known, line_typed, note_of};

use crate::plan::Plan;
use crate::played::Played;
use crate::rounds::Rounds;
use crate::service::NAME;
use crate::service::command_line::Settings;
use crate::target::Target;
use gdb_packets::StopReason;
use program_files::{Failure, FileRefusal, SourcedPrograms, programs};
use recorded_runs::{CutError, RecordedFiles, Replay, keys_of, recorded_files, whole_record};
use recordings::RecordingError;
use std::alloc::{AllocError, Global};
use std::io::{self, Write};
use std::rt::Files;
use xk_base::Program;
use xv_record::Record;

/// A program, and its file.
#[derive(Drop)]
struct NamedFile {
    /// The place of the program among the machine's.
    program: usize,
    /// The path of its file.
    path: String,
}

/// With what a run begins, and how far it has gone when GDB begins.
#[derive(Drop)]
struct Beginning {
    frames: u32,
    programs: Vec<Program>,
    /// The program that GDB has the symbols of.
    file: NamedFile,
    plan: Plan,
    /// The place of the run at which GDB begins.
    place: u64,
}

/// The place of the first program that isn't `init`; 0 if there is none.
fn first_other(programs: &[Program]) -> usize
    ensures { result ≡ first_other programs.now }
{
    programs
        .iter()
        .position(|program| program.name.as_slice() != b"init".as_slice())
        .unwrap_or(0)
}

/// The place of the program that GDB has the symbols of: the one that was named, or else the first one that isn't
/// `init`, or `init` if there is no other.
fn chosen(programs: &[Program], name: Option<&str>) -> Option<usize>
    ensures { result ≡ known programs.now (option_map (λ n. n.now) name.entry) }
{
    match name {
        Some(name) => programs
            .iter()
            .position(|program| program.name.as_slice() == name.as_bytes()),
        None => Some(first_other(programs)),
    }
}

/// The name of the program that GDB has the symbols of, if one is given.
fn name_in(settings: &Settings) -> Option<&str>
    ensures { option_map (λ n. n.now) result ≡ option_map string_bytes settings.now.file }
{
    match &settings.file {
        Some(name) => Some(name.as_str()),
        None => None,
    }
}

/// A copy of the path at a place; an empty one if there is none.
fn path_copied(alloc: Global, paths: &[String], place: usize) -> Result<String, AllocError>
    ensures { IfOk result (λ path. string_bytes path ≡ unwrap_or (slice_get (map string_bytes paths.now) place) []) }
{
    match paths.get(place) {
        Some(path) => String::from_str(alloc, path.as_str()),
        None => Ok(String::new(alloc)),
    }
}

/// Adds a line and its end, if there is one.
fn push_line(keys: &mut Vec<u8>, line: &Option<String>) -> Result<(), AllocError>
    ensures { OnOk result (keys.new.items ≡ keys.old.items ++ line_typed line.now) }
{
    if let Some(line) = line {
        keys.extend_from_slice(line.as_bytes())?;
        keys.push(b'\n')?;
    }
    Ok(())
}

/// The keys that are typed: those of a file, and then a line.
fn keys<'a, R: Files + AllocGlobal>(rt: &R, settings: &'a Settings) -> Result<Vec<u8>, Failure<'a>>
    ensures { IfOk result (λ keys. AreKeys settings.now keys.items) }
{
    let mut keys = keys_of(rt, &settings.keys)?;
    push_line(&mut keys, &settings.line)?;
    Ok(keys)
}

/// The program that GDB has the symbols of, of these, each of which has its path at its place.
fn file_of<'a>(
    alloc: Global,
    settings: &'a Settings,
    programs: &[Program],
    paths: &[String],
) -> Result<NamedFile, Failure<'a>>
    ensures { IfOk result (λ file. IsKnownBy settings.now.file programs.now (map string_bytes paths.now) file) }
{
    let name = name_in(settings);
    let Some(program) = chosen(programs, name) else {
        return Err(Failure::File(FileRefusal::NoSuchName(name.unwrap_or(""))));
    };
    let path = path_copied(alloc, paths, program)?;
    Ok(NamedFile { program, path })
}

/// The beginning of a run in rounds, at its boot.
fn in_rounds<'a, R: Files + AllocGlobal>(
    rt: &R,
    settings: &'a Settings,
    rounds: Rounds,
) -> Result<Beginning, Failure<'a>>
    ensures { IfOk result (λ b. IsAtBoot settings.now rounds b) }
{
    let files = settings.files.as_slice();
    let programs = programs(rt, files)?.programs;
    let file = file_of(rt.alloc(), settings, programs.as_slice(), files)?;
    Ok(Beginning {
        frames: settings.frames,
        programs,
        file,
        plan: Plan::of_rounds(rt.alloc(), rounds),
        place: 0,
    })
}

/// The place of a record of so many events at which GDB begins: its end, or the one that `--at` names.
fn place_in(alloc: Global, path: &str, count: u64, at: Option<u64>) -> Result<u64, Failure<'static>>
    ensures place { IfOk result (λ place. IsPlaceIn count at place) }
    ensures refused { IfErr result (λ _. IsBeyond count at) }
{
    let Some(place) = at else {
        return Ok(count);
    };
    if place <= count {
        return Ok(place);
    }
    let why = CutError::Beyond(count);
    Err(Failure::in_words(format!(in alloc; "{path}: --at lies beyond its end: {why}")))
}

/// The plan of a record's events, after which rounds come.
fn plan_of(
    alloc: Global,
    path: &str,
    kept: &Record,
    rounds: Rounds,
) -> Result<Plan, Failure<'static>>
    ensures { IfOk result (λ plan. plan ≡ record { recorded = events_of_lines kept.now.events.items; keys = rounds.keys.items; quantum = rounds.quantum }) }
{
    match Plan::of_record(alloc, kept.events.as_slice(), rounds) {
        Ok(plan) => Ok(plan),
        Err(RecordingError::Memory) => Err(Failure::OutOfMemory),
        Err(why) => Err(Failure::in_words(format!(in alloc; "{path}: {why}"))),
    }
}

/// The beginning of a run that was recorded, and then goes on in rounds.
fn of_record<'a>(
    alloc: Global,
    settings: &'a Settings,
    made: SourcedPrograms,
    replay: &Replay<'a>,
    kept: &Record,
    rounds: Rounds,
) -> Result<Beginning, Failure<'a>>
    ensures beginning { IfOk result (λ b. IsBeginningOf kept.now replay.now.at rounds b) }
    ensures file { IfOk result
        (λ b. IsKnownBy settings.now.file b.programs.items (paths_at settings.now.files.items (places_of made.programs.items kept.now.programs.items)) b.file) }
{
    let RecordedFiles {
        programs,
        paths,
        ..
    } = recorded_files(alloc, settings.files.as_slice(), made, "", kept)?;
    let file = file_of(alloc, settings, programs.as_slice(), paths.as_slice())?;
    let plan = plan_of(alloc, replay.path, kept, rounds)?;
    let place = place_in(alloc, replay.path, plan.recorded(), replay.at)?;
    Ok(Beginning {
        frames: kept.frames,
        programs,
        file,
        plan,
        place,
    })
}

/// A run with this beginning. It has gone on to the place at which GDB begins, or to the event by which process 1 ends
/// before it.
fn begun(
    alloc: Global,
    frames: u32,
    programs: Vec<Program>,
    plan: Plan,
    place: u64,
) -> Result<Played, Failure<'static>>
    ensures { IfOk result (λ run. Begins frames (map named_file programs.items) plan place run) }
{
    let mut run = Played::boot(alloc, frames, programs, plan)?;
    run.go_to(alloc, place)?;
    Ok(run)
}

/// The target of a run, at the place at which it stands. GDB looks first at the process that runs, or at one that lives.
fn taken_up(alloc: Global, run: Played, program: usize, path: String, most: u32) -> Target
    ensures run { result.run ≡ run }
    ensures taken_up { IsTakenUp program (string_bytes path) most result }
{
    let mut target = Target::new(alloc, run, program, path, most);
    let stopped = target.stop_here(StopReason::Trap);
    target.stop_at(&stopped);
    target
}

/// The target of a run with this beginning, in which a command that goes on sends `most` events at most.
fn target_of(alloc: Global, begin: Beginning, most: u32) -> Result<Target, Failure<'static>>
    ensures { IfOk result (λ t. IsTargetOf begin most t) }
{
    let NamedFile { program, path } = begin.file;
    let run = begun(alloc, begin.frames, begin.programs, begin.plan, begin.place)?;
    Ok(taken_up(alloc, run, program, path, most))
}

/// What is said if GDB begins before the place that was asked for.
fn end_note(at: u64, place: u64) -> &'static str
    ensures { result.now ≡ end_note at place }
{
    if at < place { ", before init ends" } else { "" }
}

/// Says after how many of a record's events GDB begins, and whether that is before the place that was asked for.
fn tell_place<E: Write>(
    path: &str,
    at: u64,
    count: u64,
    place: u64,
    errors: &mut E,
) -> io::Result<()>
    ensures { OnOk result
        (Appends (E.contents errors.old) (E.contents errors.new) (note_of path.now at count (end_note at place))) }
{
    let ends = end_note(at, place);
    writeln!(
        errors,
        "{NAME}: {path}: GDB begins after {at} of its {count} events{ends}"
    )
}

/// The target of a record's run, which then goes on in rounds.
fn replayed<'a>(
    rt: &HostRuntime,
    settings: &'a Settings,
    replay: &Replay<'a>,
    rounds: Rounds,
) -> Result<Target, Failure<'a>>
    ensures { IfOk result (λ t. IsReplayed settings.now replay.now.at rounds t) }
{
    let made = programs(rt, settings.files.as_slice())?;
    let record = whole_record(rt, NAME, replay.path)?;
    let begin = of_record(rt.alloc(), settings, made, replay, &record, rounds)?;
    let place = begin.place;
    let target = target_of(rt.alloc(), begin, settings.most)?;
    let at = target.run.at();
    let count = target.run.plan.recorded();
    let _ = tell_place(replay.path, at, count, place, &mut rt.stderr());
    Ok(target)
}

/// The target of the FILEs, at their boot.
fn booted<'a, R: Files + AllocGlobal>(
    rt: &R,
    settings: &'a Settings,
    rounds: Rounds,
) -> Result<Target, Failure<'a>>
    ensures { IfOk result (λ t. IsBooted settings.now rounds t) }
{
    let begin = in_rounds(rt, settings, rounds)?;
    let target = target_of(rt.alloc(), begin, settings.most)?;
    Ok(target)
}

/// The machine of the settings, at the place at which GDB begins.
///
/// # Errors
///
/// A FILE, the record or the boot is refused, or memory ran out.
pub(crate) fn begin<'a>(
    rt: &HostRuntime,
    settings: &'a Settings,
    replay: Option<Replay<'a>>,
) -> Result<Target, Failure<'a>>
    ensures { IfOk result (λ t. IsBegun settings.now replay.entry t) }
{
    let keys = keys(rt, settings)?;
    let rounds = Rounds::new(keys, settings.quantum);
    match replay {
        Some(replay) => replayed(rt, settings, &replay, rounds),
        None => booted(rt, settings, rounds),
    }
}
