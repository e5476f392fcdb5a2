//! Which notes are meant.
ghost use Rattle.std.specs.Prelude.{◌≡◌, map, IfOk};
ghost use Rattle.std.specs.List.{list_any};
ghost use Rattle.grade_rules.specs.Choices.{has_letter, pattern_with};
ghost use Rattle.grade_rules.specs.Patterns.{fits, fits_one_of};

use crate::asking::Asking;
use crate::note::Note;
use crate::numbers::Numbers;
use crate::pipes::Choice;
use std::alloc::{AllocError, Global};

/// Which notes are meant. All other notes are none of them.
#[derive(Clone, Copy)]
pub enum Pattern {
    /// A process has its turn.
    Turn {
        pid: Numbers,
    },
    /// A kernel call of this number, which was given this, is done, with this answer.
    Called {
        pid: Numbers,
        number: Numbers,
        answer: Numbers,
        given: Asking,
    },
    /// A process sleeps in the call of this number, which was given this.
    Blocked {
        pid: Numbers,
        number: Numbers,
        given: Asking,
    },
    /// A process is gone, with this status.
    Exited {
        pid: Numbers,
        status: Numbers,
    },
    /// A process is gone by a fault, whose cause has this number in `scause`.
    Faulted {
        pid: Numbers,
        cause: Numbers,
    },
}

// Whether the note is a turn of such a process.
fn fits_turn(who: &Numbers, note: Note) -> bool
    ensures { result ≡ fits (Pattern.Turn who.now) note }
{
    match note {
        Note::Turn { pid } => who.has(i64::from(pid)),
        _ => false,
    }
}

// Whether the note is such a call.
fn fits_call(who: &Numbers, call: &Numbers, answers: &Numbers, asking: &Asking, note: Note) -> bool
    ensures { result ≡ fits (Pattern.Called who.now call.now answers.now asking.now) note }
{
    match note {
        Note::Called {
            pid,
            number,
            value,
            given,
        } => {
            who.has(i64::from(pid))
                && call.has(i64::from(number))
                && answers.has(value)
                && asking.takes(given)
        }
        _ => false,
    }
}

// Whether the note is such a sleep.
fn fits_sleep(who: &Numbers, call: &Numbers, asking: &Asking, note: Note) -> bool
    ensures { result ≡ fits (Pattern.Blocked who.now call.now asking.now) note }
{
    match note {
        Note::Blocked { pid, number, given } => {
            who.has(i64::from(pid)) && call.has(i64::from(number)) && asking.takes(given)
        }
        _ => false,
    }
}

// Whether the note is such an exit.
fn fits_exit(who: &Numbers, ends: &Numbers, note: Note) -> bool
    ensures { result ≡ fits (Pattern.Exited who.now ends.now) note }
{
    match note {
        Note::Exited { pid, status } => who.has(i64::from(pid)) && ends.has(i64::from(status)),
        _ => false,
    }
}

// Whether the note is such a fault.
fn fits_fault(who: &Numbers, whys: &Numbers, note: Note) -> bool
    ensures { result ≡ fits (Pattern.Faulted who.now whys.now) note }
{
    match note {
        Note::Faulted { pid, cause } => who.has(i64::from(pid)) && whys.has(i64::from(cause)),
        _ => false,
    }
}

impl Pattern {
    /// Whether the note is one that is meant.
    pub fn fits(&self, note: Note) -> bool
        ensures { result ≡ fits self.now note }
    {
        match *self {
            Pattern::Turn { pid } => fits_turn(&pid, note),
            Pattern::Called {
                pid,
                number,
                answer,
                given,
            } => fits_call(&pid, &number, &answer, &given, note),
            Pattern::Blocked { pid, number, given } => fits_sleep(&pid, &number, &given, note),
            Pattern::Exited { pid, status } => fits_exit(&pid, &status, note),
            Pattern::Faulted { pid, cause } => fits_fault(&pid, &cause, note),
        }
    }

    /// Whether it names a pipe by a letter.
    pub fn has_letter(&self) -> bool
        ensures { result ≡ has_letter self.now }
    {
        match *self {
            Pattern::Called { given, .. } | Pattern::Blocked { given, .. } => {
                given.pipe.is_letter()
            }
            _ => false,
        }
    }

    /// What it says by a choice of pipes: for each letter the pipe that it stands for.
    pub fn with(&self, choice: &Choice) -> Pattern
        ensures { result ≡ pattern_with choice.now self.now }
    {
        match *self {
            Pattern::Called {
                pid,
                number,
                answer,
                given,
            } => Pattern::Called {
                pid,
                number,
                answer,
                given: given.with(choice),
            },
            Pattern::Blocked { pid, number, given } => Pattern::Blocked {
                pid,
                number,
                given: given.with(choice),
            },
            pattern => pattern,
        }
    }
}

/// Whether one of the patterns fits the note.
pub fn fits_any(patterns: &[Pattern], note: Note) -> bool
    ensures { result ≡ fits_one_of patterns.now note }
{
    patterns.iter().any(|pattern| pattern.fits(note))
}

/// Whether one of the patterns names a pipe by a letter.
pub fn has_letters(patterns: &[Pattern]) -> bool
    ensures { result ≡ list_any has_letter patterns.now }
{
    patterns.iter().any(|pattern| pattern.has_letter())
}

/// What the patterns say by a choice of pipes.
///
/// # Errors
///
/// [`AllocError`] if the host has too little memory.
pub fn patterns_with(
    alloc: Global,
    choice: &Choice,
    patterns: &[Pattern],
) -> Result<Vec<Pattern>, AllocError>
    ensures { IfOk result (λ those. those.items ≡ map (pattern_with choice.now) patterns.now) }
{
    let mut those = Vec::new(alloc);
    for pattern in patterns {
        those.push(pattern.with(choice))?;
    }
    Ok(those)
}
