//! The events of a run that was recorded, each found by its place.
ghost use Rattle.std.specs.Prelude.{◌≡◌, ◌≢◌, ℕ, ◌+◌, ◌++◌, ◌≤◌, ◌<◌, length, drop, take, replicate, true, false, OnOk, OnErr, IfErr};
ghost use Rattle.xv_machine.specs.Events.{event_of};
ghost use Rattle.recordings.specs.Recording.{IsUnfit, event_among, is_same};

use std::alloc::Global;
use std::marker::Model;
use thiserror::Error;
use xv_machine::Event;

/// Why the events of a record can't be had by their places.
#[derive(Clone, Copy, Debug, Error)]
pub enum RecordingError {
    /// There are 2^64 or more.
    #[error("it has more events than a machine can get")]
    TooLong,
    /// The host has too little memory.
    #[error("out of memory")]
    Memory,
}

/// Equal events of a record, one after another.
#[derive(Clone, Copy)]
pub(crate) struct Stretch {
    pub event: Event,
    /// The place after the last of them. They begin at the end of the stretch before.
    pub end: u64,
}

/// Whether two events are the same.
fn is_same(one: Event, other: Event) -> bool
    ensures { result ≡ is_same (event_of one) (event_of other) }
{
    match (one, other) {
        (Event::Run, Event::Run) => true,
        (Event::Tick, Event::Tick) => true,
        (Event::Key(byte), Event::Key(another)) => byte == another,
        (Event::Send, Event::Send) => true,
        _ => false,
    }
}

/// The events of a record: stretches, in their order, so that the one of a place is found by halving.
#[derive(Drop)]
pub struct Recording {
    stretches: Vec<Stretch>,
    /// How many events there are.
    count: u64,
}

impl Model for Recording {
    ghost use Rattle.std.specs.Prelude.{◌≡◌, List};
    ghost use Rattle.std.specs.Coded.{coded_list};
    ghost use Rattle.kernel_spec.specs.runs.Run as runs;
    ghost use Rattle.xv_session.specs.Codes.{event_code};
    ghost use Rattle.recordings.specs.Recording.{events_from, AreInOrder, end_of};

    ghost Value = { List runs.Event };

    ghost coded = { coded_list event_code };

    ghost view = { λ r. events_from 0 r.stretches.items };

    ghost invariant = { λ r. AreInOrder 0 r.stretches.items × (r.count ≡ end_of 0 r.stretches.items) };
}

impl Recording {
    ghost use Rattle.std.specs.Prelude.{[]};

    /// No event.
    pub fn none(alloc: Global) -> Recording
        ensures { result ≡ [] }
    {
        Recording {
            stretches: Vec::new(alloc),
            count: 0,
        }
    }

    /// Adds so many equal events.
    ///
    /// # Errors
    ///
    /// [`RecordingError::TooLong`] if there were 2^64 or more then, and [`RecordingError::Memory`]. None is added.
    pub fn push(&mut self, event: Event, count: u64) -> Result<(), RecordingError>
        ensures more { OnOk result (self.new ≡ self.old ++ replicate count (event_of event)) }
        ensures refused { IfErr result (λ e. IsUnfit e (self.old ++ replicate count (event_of event))) }
        ensures same { OnErr result (self.new ≡ self.old) }
    {
        let Some(end) = self.count.checked_add(count) else {
            return Err(RecordingError::TooLong);
        };
        let Ok(()) = self.stretches.push(Stretch { event, end }) else {
            return Err(RecordingError::Memory);
        };
        self.count = end;
        Ok(())
    }

    /// How many events there are.
    pub fn len(&self) -> u64
        ensures { result ≡ length self.now }
    {
        self.count
    }

    /// The stretch in which a place lies: the first that ends after it.
    fn stretch_at(&self, place: u64) -> Stretch
        requires { place < length self.now }
        ensures equal { (n : ℕ) → place ≤ n → n < result.end → event_among self.now n ≡ event_of result.event }
        ensures after { place < result.end }
        ensures inside { result.end ≤ length self.now }
    {
        let mut low = 0;
        let mut high = self.stretches.len();
        'halves: while low < high {
            let middle = low + (high - low) / 2;
            if self.stretches[middle].end <= place {
                low = middle + 1;
            } else {
                high = middle;
            }
        }
        self.stretches[low]
    }

    /// The event at a place, and how many equal events follow one another from it on, one at least. There may be more.
    pub fn from_on(&self, place: u64) -> (Event, u64)
        requires { place < length self.now }
        ensures equal { (k : ℕ) → k < result.1 → event_among self.now (place + k) ≡ event_of result.0 }
        ensures some { 0 < result.1 }
        ensures inside { place + result.1 ≤ length self.now }
    {
        let stretch = self.stretch_at(place);
        (stretch.event, stretch.end - place)
    }

    /// Whether so many events from a place on are equal to this one.
    pub(crate) fn has(&self, place: u64, event: Event, count: u64) -> bool
        requires { place ≤ length self.now }
        ensures those { result ≡ true → take count (drop place self.now) ≡ replicate count (event_of event) }
        ensures others { result ≡ false → take count (drop place self.now) ≢ replicate count (event_of event) }
    {
        let mut at = place;
        let mut left = count;
        'stretches: while left > 0 {
            if at >= self.len() {
                return false;
            }
            let next = self.stretch_at(at);
            if !is_same(next.event, event) {
                return false;
            }
            let here = left.min(next.end - at);
            at += here;
            left -= here;
        }
        true
    }
}
