//! Whether a record begins as a session did.
ghost use Rattle.std.specs.Prelude.{◌≡◌, true, false};
ghost use Rattle.recordings.specs.Recording.{Begins};

use crate::recording::Recording;
use xv_session::Session;

/// Whether a record begins with the events that the machine of a session has got: it has as many at least, and the first
/// of them are the same.
pub fn is_beginning(session: &Session, recording: &Recording) -> bool
    ensures some { result ≡ true → Begins recording.now session.now.events }
    ensures none { result ≡ false → ¬ (Begins recording.now session.now.events) }
{
    let whole = session.at();
    let mut place = 0;
    'rows: while place < whole {
        let Some((event, count)) = session.events_from(place) else {
            unreachable!();
        };
        if !recording.has(place, event, count) {
            return false;
        }
        place += count;
    }
    true
}
