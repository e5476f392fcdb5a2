//! The events of a record's lines, each found by its place.
ghost use Rattle.std.specs.Prelude.{◌≡◌, ◌++◌, IfErr, IfOk, OnOk};
ghost use Rattle.xv_live.specs.Plays.{events_of_line, events_of_lines};
ghost use Rattle.recordings.specs.Recording.{IsUnfit};

use crate::cutting::parts_of;
use recordings::{Recording, RecordingError};
use std::alloc::Global;
use xv_record::Line;

// Adds the events of a line.
fn push(recording: &mut Recording, line: &Line) -> Result<(), RecordingError>
    ensures more { OnOk result (recording.new ≡ recording.old ++ events_of_line line.now) }
    ensures refused { IfErr result (λ e. IsUnfit e (recording.old ++ events_of_line line.now)) }
{
    let (event, count) = parts_of(line);
    recording.push(event, count)
}

/// The events of these lines.
///
/// # Errors
///
/// [`RecordingError::TooLong`] if there are 2^64 or more, and [`RecordingError::Memory`].
pub fn recording_of(alloc: Global, lines: &[Line]) -> Result<Recording, RecordingError>
    ensures events { IfOk result (λ r. r ≡ events_of_lines lines.now) }
    ensures refused { IfErr result (λ e. IsUnfit e (events_of_lines lines.now)) }
{
    let mut recording = Recording::none(alloc);
    for line in lines {
        push(&mut recording, line)?;
    }
    Ok(recording)
}
