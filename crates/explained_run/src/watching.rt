//! A machine that plays rounds, and whose calls are written as they come.
ghost use Rattle.std.specs.Prelude.{◌≡◌, true, [], drop, string_bytes};
ghost use Rattle.xv_machine.specs.Events.{outcome_of};
ghost use Rattle.explained_run.specs.Handed.{Holds};
ghost use Rattle.explained_run.specs.Sent.{byte_sent};

use crate::choice::Asks;
use crate::explained::Explained;
use crate::lines::Lines;
use run_work::{Before, Work};
use std::marker::PhantomData;
use xv_machine::{Event, Outcome, RoundPlayer, Sends};

/// A machine that is told of, and where the lines go. These are the lines that are asked for. If there was memory for all of
/// them, just these were handed on.
#[derive(Drop)]
pub(crate) struct Watched<L: Lines, K: Asks> {
    pub explained: Explained,
    pub lines: L,
    pub work: Work,
    pub asked: PhantomData<K>,
    ghost handed: { ∥ (explained.choice ≡ K.asked) × (explained.complete ≡ true → Holds (L.handed lines) (string_bytes explained.text)) ∥₁ },
}

/// That a run is broken off: its budget is used up.
#[derive(Clone, Copy)]
pub(crate) struct Stop;

// The byte that was sent, if this came of Send.
fn byte_of(outcome: &Outcome) -> Option<u8>
    ensures { result ≡ byte_sent (outcome_of outcome.now) }
{
    match outcome {
        Outcome::Sent(byte) => *byte,
        _ => None,
    }
}

// What stands in a text from a place on.
fn rest_from(text: &[u8], place: usize) -> &[u8]
    ensures { result.now ≡ drop place text.now }
{
    text.get(place..).unwrap_or(b"")
}

impl<L: Lines, K: Asks> Watched<L, K> {
    /// A machine that was just booted, of which nothing is told yet.
    pub fn new(explained: Explained, lines: L, work: Work) -> Watched<L, K>
        requires asked { explained.choice ≡ K.asked }
        requires text { string_bytes explained.text ≡ [] }
        requires fresh { Holds (L.handed lines) [] }
        ensures explained { result.explained ≡ explained }
        ensures work { result.work ≡ work }
    {
        Watched {
            explained,
            lines,
            work,
            asked: PhantomData,
        }
    }
}

/// A [`Stop`] before Runs, if the budget is used up: then nothing is sent.
impl<L: Lines, K: Asks> RoundPlayer for Watched<L, K> {
    type Refusal = Stop;

    ghost machine = { λ w. w.explained.running.machine };

    fn play_runs(&mut self, most: u32) -> Result<u32, Stop> {
        if self.work.is_over() {
            return Err(Stop);
        }
        let before = Before::of(&self.explained.running.machine);
        let told = self.explained.text.len();
        let made = self.explained.run(most);
        self.work.add_runs(
            &self.explained.running.machine,
            &before,
            made.sent,
            &made.last,
        );
        let text = self.explained.text.as_str().as_bytes();
        self.lines.hand_on(rest_from(text, told));
        Ok(made.sent)
    }

    fn play_sends(&mut self, _most: u32) -> Result<Sends, Stop> {
        let outcome = self.explained.send(Event::Send);
        self.work.add_event();
        Ok(Sends {
            sent: 1,
            byte: byte_of(&outcome),
        })
    }

    fn play_tick(&mut self) -> Result<(), Stop> {
        self.explained.send(Event::Tick);
        self.work.add_event();
        Ok(())
    }

    // Each of these events is told.
    fn pass_tick(&mut self) -> Result<bool, Stop> {
        Ok(false)
    }

    fn play_key(&mut self, byte: u8) -> Result<Outcome, Stop> {
        self.work.add_event();
        Ok(self.explained.send(Event::Key(byte)))
    }

    fn status(&self) -> Option<i32> {
        self.explained.running.machine.halted()
    }
}
