//! What a round is.
ghost use Rattle.std.specs.Prelude.{◌≡◌};
ghost use Rattle.std.specs.Option.{option_to_list};
ghost use Rattle.kernel_spec.specs.runs.Rounds.{key_events, round};
ghost use Rattle.xv_machine.specs.RoundParts.{events_of_part, events_of_parts};

use crate::event::Event;
use xk_base::limits::SEND_BYTES;

/// How many parts a round has.
const PARTS: usize = 4;

/// A part of a round: one event, so many times, one after another.
#[derive(Clone, Copy)]
pub struct RoundPart {
    pub event: Event,
    pub count: u32,
}

// The key of a round: once, if there is one.
fn key_part(key: Option<u8>) -> RoundPart
    ensures { events_of_part result ≡ key_events (option_to_list key) }
{
    match key {
        Some(byte) => RoundPart {
            event: Event::Key(byte),
            count: 1,
        },
        None => RoundPart {
            event: Event::Key(0),
            count: 0,
        },
    }
}

/// A round, part by part: the key, if there is one; Run, `quantum` times; Tick; and as many Sends as bytes may wait to
/// be sent. Whoever plays rounds asks here what comes. A part may have no event.
pub fn round_parts(key: Option<u8>, quantum: u32) -> [RoundPart; PARTS]
    ensures { events_of_parts result ≡ round quantum (option_to_list key) }
{
    [
        key_part(key),
        RoundPart {
            event: Event::Run,
            count: quantum,
        },
        RoundPart {
            event: Event::Tick,
            count: 1,
        },
        RoundPart {
            event: Event::Send,
            count: SEND_BYTES as u32,
        },
    ]
}
