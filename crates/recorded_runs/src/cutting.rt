//! The first events of a record.
ghost use Rattle.std.specs.Prelude.{◌≡◌, ◌<◌, ◌-◌, ◌++◌, IfErr, IfOk, OnOk, length, replicate, take};
ghost use Rattle.xv_live.specs.Plays.{events_of_line, events_of_lines};
ghost use Rattle.xv_machine.specs.Events.{event_of};
ghost use Rattle.recorded_runs.specs.Cuts.{IsCutOf, IsCutRefused};

use std::alloc::{AllocError, Global};
use thiserror::Error;
use xv_machine::Event;
use xv_record::{Line, Record};

/// Why a record isn't cut at a place.
#[derive(Clone, Copy, Debug, Error)]
pub enum CutError {
    /// The host has too little memory.
    #[error("out of memory")]
    Memory,
    /// The place lies beyond the end of the record, which has so many events.
    #[error("the record has {0} events")]
    Beyond(u64),
}

/// The first lines of a record, and how many events were wanted beside theirs.
#[derive(Drop)]
struct FirstLines {
    lines: Vec<Line>,
    left: u64,
}

/// The event that a line stands for, and how many of it.
pub fn parts_of(line: &Line) -> (Event, u64)
    ensures { events_of_line line.now ≡ replicate result.1 (event_of result.0) }
{
    match line {
        Line::Run(count) => (Event::Run, *count),
        Line::Tick(count) => (Event::Tick, *count),
        Line::Send(count) => (Event::Send, *count),
        Line::Key(byte) => (Event::Key(*byte), 1),
    }
}

// How many events a line stands for.
fn count_of(line: &Line) -> u64
    ensures { result ≡ length (events_of_line line.now) }
{
    parts_of(line).1
}

// The line of the first events of a line, so many at most.
fn first_of(line: &Line, most: u64) -> Line
    requires { 0 < most }
    ensures { events_of_line result ≡ take most (events_of_line line.now) }
{
    match line {
        Line::Run(count) => Line::Run((*count).min(most)),
        Line::Tick(count) => Line::Tick((*count).min(most)),
        Line::Send(count) => Line::Send((*count).min(most)),
        Line::Key(byte) => Line::Key(*byte),
    }
}

// Adds the line of the first events of a line, so many at most, if that has any.
fn push_first(lines: &mut Vec<Line>, line: &Line, most: u64) -> Result<(), AllocError>
    ensures { OnOk result (events_of_lines lines.new.items ≡ events_of_lines lines.old.items ++ take most (events_of_line line.now)) }
{
    if most == 0 {
        return Ok(());
    }
    lines.push(first_of(line, most))?;
    Ok(())
}

// The lines of the first events, so many at most.
fn first_lines(alloc: Global, lines: &[Line], most: u64) -> Result<FirstLines, AllocError>
    ensures lines { IfOk result (λ first. events_of_lines first.lines.items ≡ take most (events_of_lines lines.now)) }
    ensures left { IfOk result (λ first. first.left ≡ most - length (events_of_lines lines.now)) }
{
    let mut first = Vec::new(alloc);
    let mut left = most;
    for line in lines {
        push_first(&mut first, line, left)?;
        left = left.saturating_sub(count_of(line));
    }
    Ok(FirstLines { lines: first, left })
}

/// A record with the first events of this one, so many, or with all of them.
///
/// # Errors
///
/// [`CutError::Beyond`] with the number of events that the record has, if those are fewer, and [`CutError::Memory`].
pub fn first_events(alloc: Global, kept: Record, at: Option<u64>) -> Result<Record, CutError>
    ensures cut { IfOk result (λ part. IsCutOf at kept part) }
    ensures refused { IfErr result (λ e. IsCutRefused at kept e) }
{
    let Some(most) = at else {
        return Ok(kept);
    };
    let Ok(first) = first_lines(alloc, kept.events.as_slice(), most) else {
        return Err(CutError::Memory);
    };
    if first.left > 0 {
        return Err(CutError::Beyond(most - first.left));
    }
    Ok(Record {
        frames: kept.frames,
        programs: kept.programs,
        events: first.lines,
    })
}
