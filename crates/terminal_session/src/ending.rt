//! The end of a session.
ghost use Rattle.std.specs.Prelude.{◌≡◌};
ghost use Rattle.terminal_session.specs.Statuses.{end_status};

use crate::NAME;
use crate::notes::Notes;
use crate::telling::tell_waits;
use program_files::exit_statuses::NOT_EXITED;
use program_files::{show_trace, status_of_exit};
use std::io::Write;
use xv_session::Session;

/// How a session ended.
#[derive(Clone, Copy, PartialEq, Eq)]
pub enum End {
    /// Process 1 went with this status.
    Halted(i32),
    /// The end was asked for.
    Asked,
    /// No key would come any more, and nothing happened without one.
    NoKeys,
    /// The record was played to its end.
    Played,
}

impl End {
    // The exit status of a session that ended so.
    fn status(&self) -> u8
        ensures { result ≡ end_status self.now }
    {
        match self {
            End::Halted(status) => status_of_exit(*status),
            End::Asked | End::NoKeys | End::Played => NOT_EXITED,
        }
    }
}

// Writes the closing line.
fn show_end<E: Write>(end: End, errors: &mut E) {
    let _ = match end {
        End::Halted(0) => Ok(()),
        End::Halted(status) => writeln!(errors, "{NAME}: init exited with {status}"),
        End::Asked => writeln!(errors, "{NAME}: ended, and init has not exited"),
        End::NoKeys => writeln!(errors, "{NAME}: no more keys"),
        End::Played => writeln!(errors, "{NAME}: the record is over"),
    };
}

/// Tells the end of a session: the trace, then why the processes that are left don't go on, then a closing line unless
/// process 1 went with status 0. It gives the exit status: 0 and 3 as process 1 went, else 4.
pub fn close<E: Write>(session: &Session, end: End, notes: &mut Notes<E>) -> u8
    ensures { result ≡ end_status end }
{
    notes.leave_line();
    show_trace(session.machine(), &mut notes.errors);
    if !matches!(end, End::Halted(_)) {
        tell_waits(session, notes);
    }
    show_end(end, &mut notes.errors);
    end.status()
}
