//! When the patience is asked while events are played again.
ghost use Rattle.std.specs.Prelude.{◌≡◌, IfErr, true};

use crate::patience::Patience;

/// The most Runs that are sent before the patience is asked: they take far less than a tenth of a second.
pub(crate) const STRETCH: u32 = 1_000_000;

/// As how many Runs another event counts, and the end of Runs by a kernel call or a turn.
const RUNS_OF_A_CALL: u64 = 100;

/// It was broken off.
#[derive(Clone, Copy)]
pub(crate) struct Broken;

/// What was played since the patience was asked.
#[derive(Clone, Copy)]
pub(crate) struct Pace {
    /// Counted in Runs.
    played: u64,
}

impl Pace {
    /// Nothing was played yet.
    pub fn new() -> Pace {
        Pace { played: 0 }
    }

    /// Counts a call of the machine by which so many events were sent.
    pub fn count(&mut self, sent: u32) {
        self.played = self.played.saturating_add(RUNS_OF_A_CALL + u64::from(sent));
    }

    /// Asks the patience, if a stretch was played since it was asked.
    ///
    /// # Errors
    ///
    /// It is over.
    pub fn ask<P: Patience>(&mut self, patience: &mut P) -> Result<(), Broken>
        ensures { IfErr result (λ _. P.may_end ≡ true) }
    {
        if self.played < u64::from(STRETCH) {
            return Ok(());
        }
        self.played = 0;
        if patience.is_over() {
            return Err(Broken);
        }
        Ok(())
    }
}
