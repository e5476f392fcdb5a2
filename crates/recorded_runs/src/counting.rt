//! Numbers of events, in the words of who plays them.
ghost use Rattle.std.specs.Prelude.{◌<◌, ◌≤◌};

/// The most events of a session that are played again to tell why calls were refused and what faults did: two seconds in
/// all. (The debugger plays no run again that has more than `EVENTS_MOST` of `debug_words`, 100,000,000.)
pub const PLAYED_AGAIN: u64 = 300_000_000;

/// How many of the events that are left are sent at once: all of them, or 2^32 - 1.
pub(crate) fn at_once(left: u64) -> u32
    ensures within { result ≤ left }
    ensures some { 0 < left → 0 < result }
{
    left.min(u64::from(u32::MAX)) as u32
}
