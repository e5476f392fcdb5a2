//! The trace: the notes of the last events, kept as runs of equal ones.
//!
//! A process that computes leaves the same note again and again. A thousand of them are one run, and one more
//! of them only moves a count on. So notes cost next to nothing where they repeat, and what is kept is still
//! each note: contracts see the notes, and no run.
ghost use Rattle.std.specs.Prelude.{◌≡◌, ◌+◌, ◌^◌, ◌<◌, ◌≤◌, [], ◌∷◌, ◌++◌, true, IfOk, length, replicate, slice_get, take};
ghost use Rattle.circular_buffer.specs.Buffer.{buffer, keep_last};
ghost use Rattle.xv_machine.specs.fast.Written.{gap, written, AreRuns, GoesOn};

use crate::trace::Note;
use circular_buffer::HeapCircularBuffer;
use std::alloc::{AllocError, Global};
use std::marker::Model;

// A run has fewer notes than this. A trace has fewer runs than this, so that 64 bits can tell how many notes
// they have together.
const RUN_LIMIT: u64 = 0x1_0000_0000;

// Equal notes behind one another.
#[derive(Clone, Copy)]
struct Run {
    note: Note,
    // How many notes had been put before the first of these, as 64 bits count.
    begin: u64,
}

/// The notes of the last events, as many as there is room for.
// The newest run comes first. A run ends where the next one begins, and the newest where the count stands: so a
// note that equals the last one is put by counting it. The oldest runs may have notes that are kept no longer,
// and nobody looks for those. There is room for as many runs as notes, and each run has a note, so a run that
// is pushed out has none that is kept.
#[derive(Drop)]
pub(crate) struct Trace {
    runs: HeapCircularBuffer<Run>,
    // How many notes have been put, as 64 bits count.
    count: u64,
}

impl Model for Trace {
    ghost use Rattle.circular_buffer.specs.Buffer.{Buffer, buffer_code};
    ghost use Rattle.xv_machine.specs.declared.trace.Note.{Note};
    ghost use Rattle.xv_machine.specs.Codes.{note_code};

    ghost Value = { Buffer Note };

    ghost coded = { buffer_code note_code };

    ghost use Rattle.xv_machine.specs.fast.Written.{notes_of, IsTrace};

    ghost view = { notes_of };

    ghost invariant = { IsTrace };
}

// How many notes lie between two counts, of which the first is the earlier one. The count may have begun again
// at 0 in between.
#[tactic(auto, unfolding(crate::specs::fast::Written::gap))]
fn gap(from: u64, to: u64) -> u64
    ensures { result ≡ gap from to }
{
    to.wrapping_sub(from)
}

// Whether the newest run goes on with so many more of this note.
fn goes_on(runs: &HeapCircularBuffer<Run>, count: u64, note: &Note, more: u32) -> bool
    ensures { result ≡ true → GoesOn count runs.now.items note.now more }
{
    let Some(newest) = runs.front() else {
        return false;
    };
    gap(newest.begin, count) < RUN_LIMIT - u64::from(more) && newest.note == *note
}

// How many notes the newest runs have together, so many runs.
fn notes_of(runs: &HeapCircularBuffer<Run>, count: u64, newest: usize) -> u64
    requires few { length runs.now.items < 2 ^ 32 }
    requires are { AreRuns count runs.now.items }
    requires within { newest ≤ length runs.now.items }
    ensures { result ≡ length (written count (take newest runs.now.items)) }
{
    if newest == 0 {
        return 0;
    }
    match runs.get(newest - 1) {
        Some(run) => gap(run.begin, count),
        None => 0,
    }
}

// The place of the run that has the note which so many later ones follow. The runs before `low` have no more
// notes than those, and the runs before `high` have more.
fn run_before(runs: &HeapCircularBuffer<Run>, count: u64, later: u64) -> usize
    requires few { length runs.now.items < 2 ^ 32 }
    requires are { AreRuns count runs.now.items }
    requires within { later < length (written count runs.now.items) }
    ensures within { result < length runs.now.items }
    ensures from { length (written count (take result runs.now.items)) ≤ later }
    ensures to { later < length (written count (take (result + 1) runs.now.items)) }
{
    let mut low = 0;
    let mut high = runs.len();
    'halves: while low + 1 < high {
        let middle = low + (high - low) / 2;
        if notes_of(runs, count, middle) <= later {
            low = middle;
        } else {
            high = middle;
        }
    }
    low
}

impl Trace {
    /// A trace with room for so many notes, which has none yet.
    ///
    /// # Errors
    ///
    /// [`AllocError`] where the host has too little memory.
    pub(crate) fn with_capacity(alloc: Global, notes: u32) -> Result<Trace, AllocError>
        ensures { IfOk result (λ trace. trace ≡ buffer [] notes) }
    {
        let runs = HeapCircularBuffer::with_capacity(alloc, notes as usize)?;
        Ok(Trace { runs, count: 0 })
    }

    /// How many notes it keeps at most.
    #[inline(always)]
    pub(crate) fn capacity(&self) -> usize
        ensures { result ≡ self.now.capacity }
    {
        self.runs.capacity()
    }

    /// How many notes it keeps now.
    pub(crate) fn len(&self) -> usize
        ensures { result ≡ length self.now.items }
    {
        let notes = notes_of(&self.runs, self.count, self.runs.len());
        notes.min(self.capacity() as u64) as usize
    }

    /// The note at a place: 0 is the oldest. `None` where fewer notes are kept.
    pub(crate) fn get(&self, place: usize) -> Option<Note>
        ensures { result ≡ slice_get self.now.items place }
    {
        let len = self.len();
        if place >= len {
            return None;
        }
        let run = run_before(&self.runs, self.count, (len - 1 - place) as u64);
        match self.runs.get(run) {
            Some(run) => Some(run.note),
            None => None,
        }
    }

    /// Puts a note behind the others. Where there is no room, the oldest goes.
    #[inline(always)]
    pub(crate) fn push(&mut self, note: Note)
        ensures { self.new ≡ buffer (keep_last self.old.capacity (self.old.items ++ note ∷ [])) self.old.capacity }
    {
        self.push_often(&note, 1);
    }

    /// Puts a note behind the others so often. Where there is no room, the oldest go.
    #[inline(always)]
    pub(crate) fn push_often(&mut self, note: &Note, more: u32)
        ensures { self.new ≡ buffer (keep_last self.old.capacity (self.old.items ++ replicate more note.now)) self.old.capacity }
    {
        if !goes_on(&self.runs, self.count, note, more) {
            if more == 0 {
                return;
            }
            self.runs.push_front(Run {
                note: *note,
                begin: self.count,
            });
        }
        self.count = self.count.wrapping_add(u64::from(more));
    }
}
