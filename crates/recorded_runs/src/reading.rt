//! A record's file, and the programs that it names.
ghost use Rattle.std.specs.Prelude.{◌≡◌, IfErr, IfOk, map};
ghost use Rattle.program_files.specs.Failures.{failure_status};
ghost use Rattle.xv_record.specs.Chosen.{AreThere};
ghost use Rattle.xv_record.specs.Told.{program_told, told_program};
ghost use Rattle.recorded_runs.specs.Cuts.{IsCutOf, IsCutOfText, IsOfText, IsTakenFromText, events_in};

use crate::cutting::{CutError, first_events};
use crate::recording::recording_of;
use crate::words::Replay;
use program_files::{Failure, FileRefusal};
use recordings::{Recording, RecordingError};
use std::alloc::Global;
use std::fs;
use std::io::{ErrorKind, Write};
use xk_base::Program;
use xv_record::{Ending, Record, RecordError, Taken, chosen, take_record};

// The file of this path isn't a record, for this reason.
fn no_record(alloc: Global, path: &str, why: RecordError) -> Failure<'static>
    ensures { failure_status result ≡ 2 }
{
    Failure::in_words(format!(in alloc; "{path}: {why}"))
}

// The record in the file of this path, as far as the file has it.
fn record_in<'a>(rt: &HostRuntime, path: &'a str) -> Result<Taken, Failure<'a>>
    ensures taken { IfOk result (λ t. IsTakenFromText t.record t.ending) }
    ensures refused { IfErr result (λ e. failure_status e ≡ 2) }
{
    let text = match fs::read_to_string(rt, path) {
        Ok(text) => text,
        Err(error) if error.kind() == ErrorKind::OutOfMemory => return Err(Failure::OutOfMemory),
        Err(error) if error.kind() == ErrorKind::InvalidData => {
            return Err(no_record(rt.alloc(), path, RecordError::NotARecord));
        }
        Err(_) => return Err(Failure::File(FileRefusal::CannotBeRead(path))),
    };
    match take_record(rt.alloc(), text.as_str()) {
        Ok(taken) => Ok(taken),
        Err(error) => Err(no_record(rt.alloc(), path, error)),
    }
}

// Says what is left out of the file of a record, if anything is, under the name of the program that plays it.
fn tell_ending<E: Write>(name: &str, path: &str, ending: Ending, errors: &mut E) {
    let _ = match ending {
        Ending::Whole => Ok(()),
        Ending::Cut => writeln!(
            errors,
            "{name}: {path}: cut off: it is played up to its last whole line"
        ),
        Ending::Longer => writeln!(
            errors,
            "{name}: {path}: what stands after its line `end` is left out"
        ),
    };
}

// The record of this path isn't cut, for this reason.
fn uncut(alloc: Global, path: &str, why: CutError) -> Failure<'static>
    ensures { failure_status result ≡ 2 }
{
    match why {
        CutError::Memory => Failure::OutOfMemory,
        CutError::Beyond(_) => {
            Failure::in_words(format!(in alloc; "{path}: --at lies beyond its end: {why}"))
        }
    }
}

/// The record in the file of this path, as far as the file has it. What is left out of it is told, under the name of the
/// program that plays it.
///
/// # Errors
///
/// The file can't be read, it isn't a record, or the host has too little memory.
pub fn whole_record<'a>(rt: &HostRuntime, name: &str, path: &'a str) -> Result<Record, Failure<'a>>
    ensures taken { IfOk result IsOfText }
    ensures refused { IfErr result (λ e. failure_status e ≡ 2) }
{
    let Taken { record, ending } = record_in(rt, path)?;
    tell_ending(name, path, ending, &mut rt.stderr());
    Ok(record)
}

/// A record up to the event that is asked for.
///
/// # Errors
///
/// It has fewer events than are asked for, or the host has too little memory.
pub fn cut_record(
    alloc: Global,
    whole: Record,
    replay: &Replay<'_>,
) -> Result<Record, Failure<'static>>
    ensures cut { IfOk result (λ part. IsCutOf replay.now.at whole part) }
    ensures refused { IfErr result (λ e. failure_status e ≡ 2) }
{
    match first_events(alloc, whole, replay.at) {
        Ok(record) => Ok(record),
        Err(why) => Err(uncut(alloc, replay.path, why)),
    }
}

/// The events of a record, each by its place; the path is the one of its file.
///
/// # Errors
///
/// It has 2^64 events or more, or the host has too little memory.
pub fn recorded_events(
    alloc: Global,
    path: &str,
    kept: &Record,
) -> Result<Recording, Failure<'static>>
    ensures events { IfOk result (λ recording. recording ≡ events_in kept.now) }
    ensures refused { IfErr result (λ e. failure_status e ≡ 2) }
{
    match recording_of(alloc, kept.events.as_slice()) {
        Ok(recording) => Ok(recording),
        Err(RecordingError::Memory) => Err(Failure::OutOfMemory),
        Err(why) => Err(Failure::in_words(format!(in alloc; "{path}: {why}"))),
    }
}

/// The record that is to be played, up to the event that is asked for. What is left out of its file is told, under the
/// name of the program that plays it.
///
/// # Errors
///
/// The file can't be read, it isn't a record, it has fewer events than are asked for, or the host has too little memory.
pub fn record_of<'a>(
    rt: &HostRuntime,
    name: &str,
    replay: &Replay<'a>,
) -> Result<Record, Failure<'a>>
    ensures cut { IfOk result (λ part. IsCutOfText replay.now.at part) }
    ensures refused { IfErr result (λ e. failure_status e ≡ 2) }
{
    let record = whole_record(rt, name, replay.path)?;
    cut_record(rt.alloc(), record, replay)
}

/// Of these programs those that a record names, in its order. Others are left out.
///
/// # Errors
///
/// The first that isn't there or differs is told, by its name.
pub fn recorded_programs(
    alloc: Global,
    programs: &[Program],
    kept: &Record,
) -> Result<Vec<Program>, Failure<'static>>
    ensures programs { IfOk result (λ list. map program_told list.items ≡ map told_program kept.now.programs.items) }
    ensures there { IfOk result (λ _. AreThere programs.now kept.now.programs.items) }
    ensures refused { IfErr result (λ e. failure_status e ≡ 2) }
{
    match chosen(alloc, programs, kept.programs.as_slice()) {
        Ok(programs) => Ok(programs),
        Err(why) => Err(Failure::in_words(format!(in alloc; "{why}"))),
    }
}
