//! Which events a run gets: those of a record, and then rounds.
ghost use Rattle.std.specs.Prelude.{◌≡◌, ℕ, ◌+◌, ◌<◌, ◌≤◌, [], length, IfOk, IfErr};
ghost use Rattle.gdb_target.specs.Plan.{planned_at};
ghost use Rattle.xv_live.specs.Plays.{events_of_lines};
ghost use Rattle.xv_machine.specs.Events.{event_of};
ghost use Rattle.recordings.specs.Recording.{IsUnfit, event_among};

use crate::rounds::{Next, Rounds};
use recorded_runs::recording_of;
use recordings::{Recording, RecordingError};
use std::alloc::Global;
use std::marker::Model;
use xv_record::Line;

/// The event of a record at a place, and a number of equal ones that follow one another from it on.
fn next_in(recording: &Recording, place: u64) -> Next
    requires { place < length recording.now }
    ensures equal { (k : ℕ) → k < result.count → event_among recording.now (place + k) ≡ event_of result.event }
    ensures some { 0 < result.count }
    ensures inside { place + result.count ≤ length recording.now }
{
    let (event, count) = recording.from_on(place);
    Next {
        event,
        count: count.min(u64::from(u32::MAX)) as u32,
    }
}

/// The events of a run: those of a record, one at each of the first places, and then those of rounds, as if they began
/// there. Without a record the rounds begin at the boot. So the event at each place of a run is settled from the start.
#[derive(Drop)]
pub struct Plan {
    recording: Recording,
    rounds: Rounds,
}

impl Model for Plan {
    ghost use Rattle.gdb_target.specs.Plan.{Planned};
    ghost use Rattle.gdb_target.specs.PlanCode.{planned_code};

    ghost Value = { Planned };

    ghost coded = { planned_code };

    ghost view = { λ p. record { recorded = p.recording; keys = p.rounds.keys.items; quantum = p.rounds.quantum } };
}

impl Plan {
    /// Rounds alone.
    pub fn of_rounds(alloc: Global, rounds: Rounds) -> Plan
        ensures { result ≡ record { recorded = []; keys = rounds.keys.items; quantum = rounds.quantum } }
    {
        Plan {
            recording: Recording::none(alloc),
            rounds,
        }
    }

    /// The events of a record's lines, and then rounds.
    ///
    /// # Errors
    ///
    /// [`RecordingError::TooLong`] if the lines have 2^64 events or more, and [`RecordingError::Memory`].
    pub fn of_record(alloc: Global, lines: &[Line], rounds: Rounds) -> Result<Plan, RecordingError>
        ensures plan { IfOk result (λ p. p ≡ record { recorded = events_of_lines lines.now; keys = rounds.keys.items; quantum = rounds.quantum }) }
        ensures refused { IfErr result (λ e. IsUnfit e (events_of_lines lines.now)) }
    {
        let recording = recording_of(alloc, lines)?;
        Ok(Plan { recording, rounds })
    }

    /// How many events its record has.
    pub fn recorded(&self) -> u64
        ensures { result ≡ length self.now.recorded }
    {
        self.recording.len()
    }

    /// What comes at a place of the run, 0 is the first event's, and how many equal events follow one another from
    /// there on.
    pub(crate) fn at(&self, place: u64) -> Next
        ensures equal { (k : ℕ) → k < result.count → planned_at self.now (place + k) ≡ event_of result.event }
        ensures some { 0 < result.count }
    {
        let recorded = self.recording.len();
        if place < recorded {
            return next_in(&self.recording, place);
        }
        self.rounds.at(place - recorded)
    }
}
