//! Why a program ends early.
ghost use Rattle.std.specs.Prelude.{◌≡◌, ◌⊎◌, IfOk, OnErr};
ghost use Rattle.program_files.specs.Failures.{failure_status, failure_of_boot, failure_of_session};
ghost use Rattle.program_files.specs.declared.failure.Failure.TheVariants as failures;

use crate::exit_statuses::{DEVICE_FAILED, REFUSED};
use crate::refusal::FileRefusal;
use std::alloc::{AllocError, AllocFailed};
use std::io::Write;
use thiserror::Error;
use xk_base::BootError;
use xv_session::SessionError;

/// Why a program ends early, although the command line is right.
#[derive(Debug, Drop, Error)]
pub enum Failure<'a> {
    /// A FILE gives no program, or a table no lines.
    #[error("{0}")]
    File(FileRefusal<'a>),
    /// Something else that the command line names is refused, for this reason.
    #[error("{0}")]
    Refused(String),
    /// The machine doesn't boot.
    #[error("boot: {0}")]
    Boot(BootError),
    /// The host has too little memory.
    #[error("out of memory")]
    OutOfMemory,
    /// The session keeps all the events that it can.
    #[error("too many events")]
    TooManyEvents,
    /// Standard input can't be read.
    #[error("read fault")]
    Read,
    /// Standard output, or a file of the results, can't be written.
    #[error("write fault")]
    Write,
    /// The clock can't be read.
    #[error("clock fault")]
    Clock,
    /// The file of this path can't be made.
    #[error("{0}: cannot be written")]
    CannotBeWritten(&'a str),
    /// The record of the session can't be written.
    #[error("the record cannot be written")]
    RecordUnwritten,
    /// The record would name a program whose name isn't text of one line.
    #[error("a program's name is not text of one line, and cannot be recorded")]
    UnrecordableName,
}

impl Failure<'_> {
    /// A refusal in these words, if there was memory for them.
    pub fn in_words(why: Result<String, AllocError>) -> Failure<'static>
        ensures refused { IfOk why (λ text. result ≡ failures.Refused text) }
        ensures memory { OnErr why (result ≡ failures.OutOfMemory) }
    {
        match why {
            Ok(why) => Failure::Refused(why),
            Err(_) => Failure::OutOfMemory,
        }
    }

    /// The exit status that tells it.
    fn status(&self) -> u8
        ensures is { result ≡ failure_status self.now }
        ensures either { (result ≡ 2) ⊎ (result ≡ 5) }
    {
        match self {
            Failure::File(_)
            | Failure::Refused(_)
            | Failure::Boot(_)
            | Failure::OutOfMemory
            | Failure::TooManyEvents => REFUSED,
            Failure::Read
            | Failure::Write
            | Failure::Clock
            | Failure::CannotBeWritten(_)
            | Failure::RecordUnwritten
            | Failure::UnrecordableName => DEVICE_FAILED,
        }
    }

    /// Writes the closing line, under the name of the program, and gives the exit status. A line that can't be written
    /// is left out.
    pub fn close<E: Write>(&self, name: &str, errors: &mut E) -> u8
        ensures is { result ≡ failure_status self.now }
        ensures either { (result ≡ 2) ⊎ (result ≡ 5) }
    {
        let _ = writeln!(errors, "{name}: {self}");
        self.status()
    }
}

impl<'a> From<FileRefusal<'a>> for Failure<'a> {
    fn from(refusal: FileRefusal<'a>) -> Self {
        Failure::File(refusal)
    }
}

impl From<AllocError> for Failure<'_> {
    ghost from_gives = { λ _ failure. failure ≡ failures.OutOfMemory };

    fn from(_error: AllocError) -> Self {
        Failure::OutOfMemory
    }
}

impl<T: Drop> From<AllocFailed<T>> for Failure<'_> {
    ghost from_gives = { λ _ failure. failure ≡ failures.OutOfMemory };

    fn from(_error: AllocFailed<T>) -> Self {
        Failure::OutOfMemory
    }
}

impl From<BootError> for Failure<'_> {
    ghost from_gives = { λ error failure. failure ≡ failure_of_boot error };

    fn from(error: BootError) -> Self {
        match error {
            BootError::Memory => Failure::OutOfMemory,
            _ => Failure::Boot(error),
        }
    }
}

impl From<SessionError> for Failure<'_> {
    ghost from_gives = { λ error failure. failure ≡ failure_of_session error };

    fn from(error: SessionError) -> Self {
        match error {
            SessionError::Memory => Failure::OutOfMemory,
            SessionError::Full => Failure::TooManyEvents,
        }
    }
}
