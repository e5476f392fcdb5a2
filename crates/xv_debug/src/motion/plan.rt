//! What a run goes on by.
ghost use Rattle.std.specs.Prelude.{◌≡◌, [], ◌∷◌, IfNone, IfSome, drop, length, nat_lt};

use crate::motion::backwards::Equal;
use crate::motion::clock::is_tick;
use recordings::{Recording, is_beginning};
use std::marker::Model;
use xv_session::Session;

/// What a run goes on by: the events of a record, as long as it has one for the place where the run is; and then rounds of
/// so many Runs, and keys that are typed, one a round, as in `xv_run`. Which event comes next is `IsNext` of
/// `specs/motion/Clock.antt`.
#[derive(Drop)]
pub struct Plan {
    recording: Option<Recording>,
    quantum: u32,
    keys: Option<Vec<u8>>,
}

impl Model for Plan {
    ghost use Rattle.xv_report.specs.Locations.{bytes_if};
    ghost use Rattle.xv_debug.specs.motion.Plan.{Planned, events_if, planned_code};

    ghost Value = { Planned };

    ghost coded = { planned_code };

    ghost view = { λ p. record { recorded = events_if p.recording; quantum = p.quantum; keys = bytes_if p.keys } };
}

impl Plan {
    ghost use Rattle.std.specs.Prelude.{◌+◌, ◌-◌, ◌<◌, ◌≤◌, ℕ, map, true, false};
    ghost use Rattle.kernel_spec.specs.runs.Run as runs;
    ghost use Rattle.kernel_spec.specs.runs.Rounds.{key_events};
    ghost use Rattle.xv_machine.specs.Events.{event_of};
    ghost use Rattle.recordings.specs.Recording.{Begins, event_among};
    ghost use Rattle.xv_debug.specs.motion.Clock.{HasAhead, NoneAhead, events_to_tick};
    ghost use Rattle.xv_debug.specs.motion.Plan.{keyless};

    /// Rounds of so many Runs, in which no key is typed.
    pub fn keyless(quantum: u32) -> Plan
        ensures { result ≡ keyless quantum }
    {
        Plan {
            recording: None,
            quantum,
            keys: None,
        }
    }

    /// Rounds of so many Runs. Each of these bytes is typed in a round of its own, the first in the first round.
    pub fn with_keys(quantum: u32, keys: Vec<u8>) -> Plan
        ensures { result ≡ record { recorded = []; quantum = quantum; keys = keys.items } }
    {
        Plan {
            recording: None,
            quantum,
            keys: Some(keys),
        }
    }

    /// The events of a record, and where that has none, rounds of so many Runs, in which no key is typed.
    pub fn along(quantum: u32, recording: Recording) -> Plan
        ensures { result ≡ record { recorded = recording; quantum = quantum; keys = [] } }
    {
        Plan {
            recording: Some(recording),
            quantum,
            keys: None,
        }
    }

    /// The Runs in each round.
    pub(crate) fn quantum(&self) -> u32
        ensures { result ≡ self.now.quantum }
    {
        self.quantum
    }

    /// Whether the record begins with the events that a run has got. If it does, it may have more, or none.
    #[tactic(auto, using(crate::proofs::Along::not_begun, crate::proofs::Along::over))]
    pub(crate) fn is_followed(&self, session: &Session) -> bool
        ensures some { result ≡ true → Begins self.now.recorded session.now.events }
        ensures none { result ≡ false → NoneAhead self.now.recorded session.now.events }
    {
        match &self.recording {
            Some(recording) => is_beginning(session, recording),
            None => false,
        }
    }

    /// Whether the record has an event for the place where a run is.
    #[tactic(auto, using(crate::proofs::Along::has_ahead, crate::proofs::Along::over))]
    pub(crate) fn has_ahead(&self, session: &Session) -> bool
        ensures some { result ≡ true → HasAhead self.now.recorded session.now.events }
        ensures none { result ≡ false → NoneAhead self.now.recorded session.now.events }
    {
        session.at() < self.recorded() && self.is_followed(session)
    }

    /// How many events the record has.
    pub(crate) fn recorded(&self) -> u64
        ensures { result ≡ length self.now.recorded }
    {
        match &self.recording {
            Some(recording) => recording.len(),
            None => 0,
        }
    }

    /// The record's event at a place, and how many equal ones follow one another from it on, one at least.
    pub(crate) fn recorded_at(&self, place: u64) -> Equal
        requires { place < length self.now.recorded }
        ensures equal { (k : ℕ) → k < result.count → event_among self.now.recorded (place + k) ≡ event_of result.event }
        ensures some { 0 < result.count }
        ensures inside { place + result.count ≤ length self.now.recorded }
    {
        let Some(recording) = &self.recording else {
            unreachable!();
        };
        let (event, count) = recording.from_on(place);
        Equal { event, count }
    }

    /// How many events the record has from a place on, up to so many Ticks, or to its end if it has fewer.
    pub(crate) fn up_to_ticks(&self, place: u64, ticks: u32) -> u64
        ensures { result ≡ events_to_tick ticks (drop place self.now.recorded) }
    {
        let recorded = self.recorded();
        let mut at = place;
        let mut left = u64::from(ticks);
        'stretches: while at < recorded && left > 0 {
            let next = self.recorded_at(at);
            if is_tick(next.event) {
                let here = left.min(next.count);
                at += here;
                left -= here;
            } else {
                at += next.count;
            }
        }
        at - place
    }

    /// The key with which the round of this number begins, 0 is the first one's; `None` if it has none.
    #[tactic(auto, using(crate::proofs::Clocked::key_if, crate::proofs::Clocked::key_if_none))]
    pub(crate) fn key_of_round(&self, round: u32) -> Option<u8>
        ensures some { IfSome result (λ byte. key_events (drop round self.now.keys) ≡ runs.Key byte ∷ []) }
        ensures none { IfNone result (key_events (drop round self.now.keys) ≡ []) }
    {
        match &self.keys {
            Some(keys) => keys.get(round as usize).copied(),
            None => None,
        }
    }

    /// Whether a round after the one of this number begins with a key.
    pub(crate) fn has_key_after(&self, round: u32) -> bool
        ensures { result ≡ nat_lt (round + 1) (length self.now.keys) }
    {
        match &self.keys {
            Some(keys) => u64::from(round) + 1 < keys.len() as u64,
            None => false,
        }
    }
}
