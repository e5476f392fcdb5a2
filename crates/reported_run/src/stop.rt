//! Why a run is broken off.
use xv_session::SessionError;

/// Why a run is broken off.
#[derive(Clone, Copy)]
pub(crate) enum Stop {
    /// The session has no room for an event.
    Session(SessionError),
    /// The budget is used up.
    OverBudget,
}

impl From<SessionError> for Stop {
    fn from(error: SessionError) -> Self {
        Stop::Session(error)
    }
}
