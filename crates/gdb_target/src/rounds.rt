//! Rounds, which events are planned by.
ghost use Rattle.std.specs.Prelude.{◌≡◌, ◌+◌, ◌<◌, ◌≤◌, ◌^◌, ℕ, length};
ghost use Rattle.std.specs.Option.{option_to_list};
ghost use Rattle.kernel_spec.specs.runs.Rounds.{round};
ghost use Rattle.gdb_target.specs.Rounds.{event_at};
ghost use Rattle.recordings.specs.Recording.{event_among};
ghost use Rattle.xv_machine.specs.Events.{event_of};
ghost use Rattle.xv_machine.specs.RoundParts.{events_of_parts};

use xv_machine::{Event, RoundPart, round_parts};

/// Rounds, as in `xv_run`. A byte is typed in each round, until there is none left. So the event at each place of them is
/// settled from the start.
#[derive(Drop)]
pub struct Rounds {
    /// The bytes that are typed, one a round.
    pub keys: Vec<u8>,
    /// Runs in each round.
    pub quantum: u32,
}

/// The event at a place of a run, and a number of equal ones that follow one another from it on, it among them.
#[derive(Clone, Copy)]
pub struct Next {
    pub event: Event,
    pub count: u32,
}

/// How many events parts have.
fn events_in(parts: &[RoundPart]) -> u64
    requires { length (events_of_parts parts.now) < 2 ^ 64 }
    ensures { result ≡ length (events_of_parts parts.now) }
{
    let mut count = 0;
    for part in parts {
        count += u64::from(part.count);
    }
    count
}

/// What comes after so many of the events of parts.
fn next_among(parts: &[RoundPart], within: u64) -> Next
    requires { within < length (events_of_parts parts.now) }
    ensures equal { (k : ℕ) → k < result.count → event_among (events_of_parts parts.now) (within + k) ≡ event_of result.event }
    ensures some { 0 < result.count }
    ensures inside { within + result.count ≤ length (events_of_parts parts.now) }
{
    let mut left = within;
    for part in parts {
        let count = u64::from(part.count);
        if left < count {
            return Next {
                event: part.event,
                count: (count - left) as u32,
            };
        }
        left -= count;
    }
    unreachable!()
}

/// How many events a round has.
fn round_len(key: Option<u8>, quantum: u32) -> u64
    ensures { result ≡ length (round quantum (option_to_list key)) }
{
    let parts = round_parts(key, quantum);
    events_in(&parts)
}

/// What comes in a round, after so many of its events.
fn next_in(key: Option<u8>, quantum: u32, within: u64) -> Next
    requires { within < length (round quantum (option_to_list key)) }
    ensures equal { (k : ℕ) → k < result.count → event_among (round quantum (option_to_list key)) (within + k) ≡ event_of result.event }
    ensures some { 0 < result.count }
    ensures inside { within + result.count ≤ length (round quantum (option_to_list key)) }
{
    let parts = round_parts(key, quantum);
    next_among(&parts, within)
}

impl Rounds {
    /// The rounds in which these keys are typed, with so many Runs each.
    pub fn new(keys: Vec<u8>, quantum: u32) -> Rounds
        ensures keys { result.keys.items ≡ keys.items }
        ensures quantum { result.quantum ≡ quantum }
    {
        Rounds { keys, quantum }
    }

    /// What comes at a place of the rounds, 0 is the first event's, and how many equal events follow one another from
    /// there on.
    pub(crate) fn at(&self, place: u64) -> Next
        ensures equal { (k : ℕ) → k < result.count → event_at self.now.keys.items self.now.quantum (place + k) ≡ event_of result.event }
        ensures some { 0 < result.count }
    {
        let long = round_len(Some(0), self.quantum);
        let short = round_len(None, self.quantum);
        let round = place / long;
        let keys = self.keys.len() as u64;
        if round >= keys {
            return next_in(None, self.quantum, (place - keys * long) % short);
        }
        let key = self.keys[round as usize];
        next_in(Some(key), self.quantum, place % long)
    }
}
