//! What a process did, note by note.
ghost use Rattle.std.specs.Prelude.{◌≡◌, IfOk, ◌∷◌, [], ◌++◌};
ghost use Rattle.trace_picture.specs.Row.{after, after_call, paused, states, shown};

use crate::note::Note;
use kernel_calls::numbers::{FORK, WAIT};
use std::alloc::{AllocError, Global};

/// What a process does.
#[derive(Clone, Copy, PartialEq, Eq)]
pub enum State {
    /// It isn't there, or nothing has told of it yet.
    Absent,
    /// It waits for its turn.
    Ready,
    /// It has its turn.
    Running,
    /// It sleeps in a kernel call.
    Asleep,
    /// It is gone, and its parent has not waited for it.
    Ended,
}

/// So many events, one after another, in which a process was in one state.
#[derive(Clone, Copy)]
pub struct Phase {
    pub state: State,
    pub events: usize,
}

// What a process does where the turn of whoever runs is over.
fn paused(was: State) -> State
    ensures { result ≡ paused was }
{
    match was {
        State::Running => State::Ready,
        _ => was,
    }
}

// What a process does after another one's call has been answered.
fn after_call(pid: u32, was: State, number: i32, answer: i64) -> State
    ensures { result ≡ after_call pid was number answer }
{
    if answer != pid as i64 {
        was
    } else if number == FORK {
        State::Ready
    } else if number == WAIT {
        State::Absent
    } else {
        was
    }
}

// What the process of this pid does behind a note, where it did `was` before it.
fn after(pid: u32, was: State, note: Note) -> State
    ensures { result ≡ after pid was note }
{
    match note {
        Note::Turn(other) if other == pid => State::Running,
        Note::Turn(_) | Note::Tick => paused(was),
        Note::Step(other) if other == pid => State::Running,
        Note::Call(other, _, _) if other == pid => State::Running,
        Note::Call(_, number, answer) => after_call(pid, was, number, answer),
        Note::Block(other, _) if other == pid => State::Asleep,
        Note::Exit(other, _) if other == pid => State::Ended,
        Note::Fault(other, _) if other == pid => State::Ended,
        _ => was,
    }
}

/// What the process of this pid does, note by note, as phases of one state each.
///
/// # Errors
///
/// [`AllocError`] where the host has too little memory.
pub fn phases(alloc: Global, pid: u32, notes: &[Note]) -> Result<Vec<Phase>, AllocError>
    ensures { IfOk result (λ row. shown row.items ≡ states pid State.Absent notes.now) }
{
    let mut row = Vec::new(alloc);
    let mut last = Phase {
        state: State::Absent,
        events: 0,
    };
    for &note in notes {
        let state = after(pid, last.state, note);
        if state == last.state {
            last.events += 1;
        } else {
            row.push(last)?;
            last = Phase { state, events: 1 };
        }
    }
    row.push(last)?;
    Ok(row)
}
