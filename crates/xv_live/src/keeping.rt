//! The record of a session, kept in a file while the session goes on.
ghost use Rattle.std.specs.Prelude.{◌≡◌, ◌++◌, ◌≤◌, length, take, IfOk};
ghost use Rattle.xv_live.specs.Plays.{events_of_lines};

use crate::recording::{Stretch, stretch_of};
use std::alloc::Global;
use xv_record::{GrowError, GrowingRecord, Line, RecordFile};
use xv_session::Session;

// What is to be written of a session from a place on: the lines that won't change any more, up to which place, and
// those behind them.
#[derive(Drop)]
struct NewLines {
    over: Vec<Line>,
    place: u64,
    last: Vec<Line>,
}

// The lines of a session from a place on. Those of the last equal events may change yet, if more of them come.
fn new_lines(alloc: Global, session: &Session, from: u64) -> Result<NewLines, GrowError>
    requires { from ≤ length session.now.events }
    ensures over { IfOk result (λ new. take from session.now.events ++ events_of_lines new.over.items ≡ take new.place session.now.events) }
    ensures within { IfOk result (λ new. new.place ≤ length session.now.events) }
    ensures last { IfOk result (λ new. take new.place session.now.events ++ events_of_lines new.last.items ≡ session.now.events) }
{
    let end = session.at();
    let Ok(Stretch { lines: over, place }) = stretch_of(alloc, session, from, end.saturating_sub(1))
    else {
        return Err(GrowError::Memory);
    };
    let Ok(
        Stretch {
            lines: last,
            place: _,
        },
    ) = stretch_of(alloc, session, place, end)
    else {
        return Err(GrowError::Memory);
    };
    Ok(NewLines { over, place, last })
}

/// The record of a session in its file. After each call that did what it says the file is a whole record, and has just
/// the events that the session got (`specs/Keeps.antt`).
#[derive(Drop)]
pub struct Recording<F> {
    /// The file, and how many of its first bytes stand.
    pub growing: GrowingRecord<F>,
    /// What stands before the events: [`head_text`](xv_record::head_text).
    pub head: String,
    /// How many of the session's first events these bytes have.
    pub place: u64,
    /// How many events the file has.
    pub count: u64,
}

impl<F: RecordFile> Recording<F> {
    ghost use Rattle.std.specs.Prelude.{◌≡◌, ◌++◌, List, OnOk};
    ghost use Rattle.kernel_spec.specs.runs.Run.{Event};
    ghost use Rattle.xv_live.specs.Keeps.{IsUpTo};

    /// A record with this head, of which nothing is written yet. The file isn't touched.
    pub fn new(file: F, head: String) -> Recording<F>
        ensures head { result.head ≡ head }
    {
        Recording {
            growing: GrowingRecord::new(file),
            head,
            place: 0,
            count: 0,
        }
    }

    /// Writes all of it, in the place of all that the file has.
    ///
    /// # Errors
    ///
    /// [`GrowError::Unwritten`] if the file can't be written, and [`GrowError::Memory`] if the host has too little
    /// memory.
    pub fn write_anew(&mut self, alloc: Global, session: &Session) -> Result<(), GrowError>
        ensures keeps { OnOk result (IsUpTo F.held self.new session.now.events) }
        ensures head { self.new.head ≡ self.old.head }
    {
        let new = new_lines(alloc, session, 0)?;
        let head = self.head.as_str();
        self.growing
            .begin(alloc, head, new.over.as_slice(), new.last.as_slice())?;
        self.place = new.place;
        self.count = session.at();
        Ok(())
    }

    /// Writes what the session got since. What stood before stands, so it costs no more than what is new.
    ///
    /// # Errors
    ///
    /// Those of [`write_anew`](Recording::write_anew).
    pub fn go_on(&mut self, alloc: Global, session: &Session) -> Result<(), GrowError>
        ensures keeps { OnOk result ((before more : List Event) → session.now.events ≡ before ++ more → IsUpTo F.held self.old before → IsUpTo F.held self.new session.now.events) }
        ensures head { self.new.head ≡ self.old.head }
    {
        if session.at() == self.count {
            return Ok(());
        }
        if session.at() < self.place {
            return self.write_anew(alloc, session);
        }
        let new = new_lines(alloc, session, self.place)?;
        self.growing
            .grow(alloc, new.over.as_slice(), new.last.as_slice())?;
        self.place = new.place;
        self.count = session.at();
        Ok(())
    }
}
