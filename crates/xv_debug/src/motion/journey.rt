//! What a word has sent, and why no more.
ghost use Rattle.std.specs.Prelude.{◌≡◌};

use xv_machine::Outcome;
use xv_session::SessionError;

/// Why a word sent no more events.
#[derive(Clone, Copy)]
pub enum Stop {
    /// It has sent all that it was to send, or may send.
    Done,
    /// What it waited for has come.
    Met,
    /// All processes sleep: a Run would be idle.
    Asleep,
    /// The machine has halted.
    Halted,
    /// It was broken off.
    Broken,
    /// The session keeps no more events.
    Refused(SessionError),
}

/// What a word has sent.
#[derive(Drop)]
pub struct Journey {
    /// How many events.
    pub sent: u64,
    pub stop: Stop,
    /// What came of the last of them; `None` where none was sent, and after rounds.
    pub last: Option<Outcome>,
}

impl Journey {
    /// So many events, why no more, and what came of the last.
    pub(crate) fn new(sent: u64, stop: Stop, last: Option<Outcome>) -> Journey
        ensures { result ≡ record { sent = sent; stop = stop; last = last } }
    {
        Journey { sent, stop, last }
    }
}
