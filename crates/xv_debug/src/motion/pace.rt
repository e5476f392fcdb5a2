//! When a word that sends events asks whether it is to be broken off.
ghost use Rattle.std.specs.Prelude.{◌≡◌, ◌≤◌, ◌<◌, true, false};

use xv_session::Patience;

/// The most events that are sent before the patience is asked: by the slowest of them a word takes far less than a tenth
/// of a second.
pub(crate) const STRETCH: u32 = 100_000;

/// So many events, of so many that are left, are sent before the patience is asked.
pub(crate) fn at_once(left: u32) -> u32
    requires { 0 < left }
    ensures some { 0 < result }
    ensures within { result ≤ left }
{
    left.min(STRETCH)
}

/// When the patience is asked.
#[derive(Clone, Copy)]
pub(crate) struct Pace {
    /// After so much of the word.
    every: u64,
    /// Not before so much of it is done.
    next: u64,
}

impl Pace {
    /// It is asked each time when so much more is done.
    pub(crate) fn new(every: u64) -> Pace
        ensures { result ≡ record { every = every; next = every } }
    {
        Pace { every, next: every }
    }

    /// Whether the word is to be broken off of which so much is done.
    pub(crate) fn is_over<P: Patience>(&mut self, done: u64, patience: &mut P) -> bool
        ensures over { result ≡ true → P.may_end ≡ true }
        ensures early { done < self.old.next → result ≡ false }
    {
        if done < self.next {
            return false;
        }
        self.next = done.saturating_add(self.every);
        patience.is_over()
    }
}
