//! The words of a command line, and why they are refused.
ghost use Rattle.program_files.specs.Statuses.{IsWordsStatus, IsPlainStatus};

use crate::exit_statuses::{DONE, WORDS_REFUSED};
use crate::failure::Failure;
use std::alloc::{AllocError, AllocFailed};
use std::env;
use std::io::{self, ErrorKind, Write};
use std::rt::Env;

/// Why words give no settings.
#[derive(Drop)]
pub enum SettingsError {
    /// The words are refused, or ask for help. The text is for the user.
    Words(clap::Error),
    /// The host has too little memory for what the words give.
    Memory,
}

/// Why a program gets no settings of its host.
#[derive(Drop)]
pub enum WordsError {
    /// The words give none.
    Settings(SettingsError),
    /// The host has too little memory for the words.
    NoWords,
}

impl SettingsError {
    /// Tells why the words of the program of this name give no settings, or shows the help that they ask for, and gives
    /// the status: 0 for help that was shown, 5 for help that `output` didn't take, and else 1. What `errors` doesn't
    /// take is left out.
    pub fn close<W: Write, E: Write>(&self, name: &str, output: &mut W, errors: &mut E) -> u8
        ensures { IsWordsStatus result }
    {
        match self {
            SettingsError::Words(text) if text.use_stderr() => {
                let _ = write!(errors, "{text}");
                WORDS_REFUSED
            }
            SettingsError::Words(text) => match show(text, output) {
                Ok(()) => DONE,
                Err(_) => Failure::Write.close(name, errors),
            },
            SettingsError::Memory => {
                let _ = Failure::OutOfMemory.close(name, errors);
                WORDS_REFUSED
            }
        }
    }
}

impl WordsError {
    /// The same of what the host's words give: the status is 2 if the host has too little memory for the words.
    pub fn close<W: Write, E: Write>(&self, name: &str, output: &mut W, errors: &mut E) -> u8
        ensures { IsPlainStatus result }
    {
        match self {
            WordsError::Settings(error) => error.close(name, output, errors),
            WordsError::NoWords => Failure::OutOfMemory.close(name, errors),
        }
    }
}

// Writes a text, and flushes it.
fn show<W: Write>(text: &clap::Error, output: &mut W) -> io::Result<()> {
    write!(output, "{text}")?;
    output.flush()
}

// Where `clap` itself gets no memory, it says so in an error of its own.
impl From<clap::Error> for SettingsError {
    fn from(error: clap::Error) -> Self {
        SettingsError::Words(error)
    }
}

impl From<AllocError> for SettingsError {
    fn from(_error: AllocError) -> Self {
        SettingsError::Memory
    }
}

impl<T: Drop> From<AllocFailed<T>> for SettingsError {
    fn from(_error: AllocFailed<T>) -> Self {
        SettingsError::Memory
    }
}

impl From<SettingsError> for WordsError {
    fn from(error: SettingsError) -> Self {
        WordsError::Settings(error)
    }
}

/// The words of the command line, the program's name first.
///
/// # Errors
///
/// `InvalidData` if a word isn't UTF-8, and `OutOfMemory` if the host has too little memory for them.
pub fn words<R: Env + AllocGlobal>(rt: &R) -> Result<Vec<String>, ErrorKind> {
    match env::args(rt) {
        Ok(words) => words
            .collect(rt.alloc())
            .map_err(|_| ErrorKind::OutOfMemory),
        Err(error) => Err(error.kind()),
    }
}
