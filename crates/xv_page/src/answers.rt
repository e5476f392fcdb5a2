//! What a call answers: whether it did what it was asked, or why not.
ghost use Rattle.std.specs.Prelude.{◌≡◌, nat_le, length};
ghost use Rattle.xv_page.specs.Told.{answer_of, laid};

use xv_session::SessionError;

/// Whether a call did what it was asked, or why not. The host gets its place: 0 is the first.
#[derive(Clone, Copy)]
pub enum Answer {
    /// The call did it.
    Done,
    /// There is no session: nothing was booted.
    NotBooted,
    /// The host has too little memory: nothing is changed.
    Memory,
    /// The session keeps all the events that it can: nothing is changed.
    Full,
    /// A number that the host passed names nothing: nothing is changed, and nothing told.
    Unknown,
}

/// The answer for a session's error.
pub(crate) fn answer_of(error: SessionError) -> Answer
    ensures { result ≡ answer_of error }
{
    match error {
        SessionError::Memory => Answer::Memory,
        SessionError::Full => Answer::Full,
    }
}

/// Lays bytes into a room, from its first byte on, and tells whether they fit. What doesn't fit isn't laid.
pub(crate) fn lay(bytes: &[u8], room: &mut [u8]) -> bool
    ensures fits { result ≡ nat_le (length bytes.now) (length room.old) }
    ensures laid { room.new ≡ laid bytes.now room.old }
{
    if bytes.len() > room.len() {
        return false;
    }
    room[..bytes.len()].copy_from_slice(bytes);
    true
}
