//! The marks that are kept, at which `c` stops. How they are told, no contract says.
ghost use Rattle.std.specs.Prelude.{◌≡◌};
ghost use Rattle.std.specs.List.{list_any};
ghost use Rattle.xv_session.specs.Recorded.{running_of};
ghost use Rattle.xv_debug.specs.Kept.{is_left, is_numbered};

use crate::motion::{is_at_mark, is_store_due};
use crate::names::Known;
use crate::stores::last_store;
use arrayvec::ArrayVec;
use debug_words::texts::Plain;
use debug_words::{MARKS_MOST, Mark, Marks};
use std::alloc::{AllocError, Global};
use xv_report::source_of;
use xv_session::Session;

/// A mark that is kept.
#[derive(Clone, Copy, Default)]
pub(crate) struct Kept {
    pub number: u32,
    pub mark: Mark,
    /// Whether it is kept up to the first time that it is met.
    pub once: bool,
}

/// The marks that are kept, in the order in which they were made.
pub(crate) type KeptList = ArrayVec<Kept, MARKS_MOST>;

/// The marks that are kept, and how many were made.
#[derive(Drop)]
pub(crate) struct KeptMarks {
    kept: KeptList,
    made: u32,
}

/// Writes the name of the program at a place.
fn show_program(known: &Known<'_>, place: usize, answer: &mut String) -> Result<(), AllocError> {
    match known.session.machine().programs().get(place) {
        Some(program) => {
            let name = Plain(program.name.as_slice());
            write!(answer, " of {name}")
        }
        None => Ok(()),
    }
}

/// Writes where a mark at an address of a program is.
fn show_spot(
    known: &Known<'_>,
    program: usize,
    address: u64,
    answer: &mut String,
) -> Result<(), AllocError> {
    let location = source_of(known.sources, known.session, Some(program)).location(address);
    write!(answer, "before {address:#x}")?;
    show_program(known, program, answer)?;
    if location.is_known() {
        writeln!(answer, ", {location}")
    } else {
        writeln!(answer)
    }
}

/// Writes a mark with its number.
fn show_kept(known: &Known<'_>, kept: &Kept, answer: &mut String) -> Result<(), AllocError> {
    let number = kept.number;
    let once = if kept.once { ", once" } else { "" };
    write!(answer, "mark {number}{once}: ")?;
    match kept.mark {
        Mark::At { program, address } => show_spot(known, program, address, answer),
        Mark::Store(address) => writeln!(answer, "after a store to {address:#x}"),
    }
}

/// Whether a mark is kept any longer after a word that went on to where the session is: it isn't for once, or isn't met.
fn is_left(session: &Session, kept: &Kept) -> bool
    ensures { result ≡ is_left (running_of session.now) kept.now }
{
    !kept.once || !is_at_mark(session, &kept.mark)
}

/// Whether a mark waits for a store.
fn waits_for_store(kept: &Kept) -> bool {
    match kept.mark {
        Mark::Store(_) => true,
        Mark::At { .. } => false,
    }
}

/// Whether one of them has this number.
fn has_number(kept: &[Kept], number: u32) -> bool
    ensures { result ≡ list_any (is_numbered number) kept.now }
{
    kept.iter().any(|kept| kept.number == number)
}

impl KeptMarks {
    ghost use Rattle.std.specs.Prelude.{◌≡◌, ◌==◌, ◌∷◌, [], ◌++◌, length, true, false};
    ghost use Rattle.debug_words.specs.declared.vocabulary.TheConstants.{MARKS_MOST};
    ghost use Rattle.xv_session.specs.Recorded.{running_of};
    ghost use Rattle.xv_debug.specs.Kept.{has, kept_after, left_at, left_without, marks_of, next_mark, next_number};

    /// None yet.
    pub fn new() -> KeptMarks
        ensures { result.kept.items ≡ [] }
    {
        KeptMarks {
            kept: ArrayVec::new(),
            made: 0,
        }
    }

    /// Whether there is none.
    pub fn is_empty(&self) -> bool
        ensures { result ≡ (length self.now.kept.items == 0) }
    {
        self.kept.is_empty()
    }

    /// Keeps a mark from now on; `false` if there are as many as may be.
    fn add(&mut self, mark: Mark, once: bool) -> bool
        ensures added { result ≡ true → self.new.kept.items ≡ self.old.kept.items ++ next_mark self.old.made mark once ∷ [] }
        ensures made { result ≡ true → self.new.made ≡ next_number self.old.made }
        ensures full { result ≡ false → length self.old.kept.items ≡ MARKS_MOST }
        ensures stays { result ≡ false → self.new.kept.items ≡ self.old.kept.items }
    {
        let kept = Kept {
            number: self.made.saturating_add(1),
            mark,
            once,
        };
        let Ok(()) = self.kept.try_push(kept) else {
            return false;
        };
        self.made = kept.number;
        true
    }

    /// Keeps marks from now on, as many as there is room for. The answer tells whether these are all.
    fn add_all(&mut self, marks: &[Mark], once: bool) -> bool
        ensures { self.new.kept.items ≡ kept_after self.old marks.now once }
    {
        for mark in marks {
            if !self.add(*mark, once) {
                return false;
            }
        }
        let count = self.kept.len();
        prove!(count <= MARKS_MOST);
        true
    }

    /// Keeps marks from now on, and tells them.
    pub fn keep(
        &mut self,
        known: &Known<'_>,
        marks: &[Mark],
        once: bool,
        answer: &mut String,
    ) -> Result<(), AllocError>
        ensures { self.new.kept.items ≡ kept_after self.old marks.now once }
    {
        let before = self.kept.len();
        let are_all = self.add_all(marks, once);
        for kept in self.kept.as_slice().get(before..).unwrap_or(&[]) {
            show_kept(known, kept, answer)?;
        }
        if are_all {
            return Ok(());
        }
        answer.push_str("there are 16 marks, and no more: delete forgets them\n")
    }

    /// Writes which of them are met where the session is.
    pub(crate) fn show_met(
        &self,
        alloc: Global,
        session: &Session,
        answer: &mut String,
    ) -> Result<(), AllocError> {
        for kept in self.kept.as_slice() {
            if is_at_mark(session, &kept.mark) {
                let number = kept.number;
                writeln!(answer, "mark {number} is met")?;
            }
        }
        if self.kept.as_slice().iter().any(waits_for_store) {
            return self.show_stored(alloc, session, answer);
        }
        Ok(())
    }

    /// Writes which of them waited for the store that was done last, and what that has changed.
    fn show_stored(
        &self,
        alloc: Global,
        session: &Session,
        answer: &mut String,
    ) -> Result<(), AllocError> {
        let Some(stored) = last_store(alloc, session) else {
            return Ok(());
        };
        for kept in self.kept.as_slice() {
            if is_store_due(&stored.before, &kept.mark) {
                let number = kept.number;
                write!(answer, "mark {number} is met")?;
                stored.show(session.machine(), answer)?;
            }
        }
        Ok(())
    }

    /// Whether there is a mark of this number; of none, whether there is one.
    fn has(&self, number: Option<u32>) -> bool
        ensures { result ≡ has number self.now.kept.items }
    {
        match number {
            Some(number) => has_number(self.kept.as_slice(), number),
            None => !self.kept.is_empty(),
        }
    }

    /// Forgets the mark of this number, or all.
    fn forget(&mut self, number: Option<u32>)
        ensures { self.new.kept.items ≡ left_without number self.old.kept.items }
    {
        match number {
            Some(number) => self.kept.retain(|kept| kept.number != number),
            None => self.kept.clear(),
        }
    }

    /// Forgets the mark of this number, or all, and tells which are left.
    pub fn delete(
        &mut self,
        known: &Known<'_>,
        number: Option<u32>,
        answer: &mut String,
    ) -> Result<(), AllocError>
        ensures { self.new.kept.items ≡ left_without number self.old.kept.items }
    {
        let had = self.has(number);
        self.forget(number);
        if had {
            self.show(known, answer)
        } else {
            answer.push_str("there is no such mark: break lists them\n")
        }
    }

    /// Forgets those for once that are met where the session is.
    pub fn forget_met(&mut self, session: &Session)
        ensures { self.new.kept.items ≡ left_at (running_of session.now) self.old.kept.items }
    {
        self.kept.retain(|kept| is_left(session, kept));
    }

    /// Writes all of them.
    pub fn show(&self, known: &Known<'_>, answer: &mut String) -> Result<(), AllocError> {
        if self.kept.is_empty() {
            return answer.push_str("there is no mark at which c stops\n");
        }
        for kept in self.kept.as_slice() {
            show_kept(known, kept, answer)?;
        }
        Ok(())
    }

    /// The marks, without their numbers.
    pub fn marks(&self) -> Marks
        ensures { result.items ≡ marks_of self.now.kept.items }
    {
        let mut marks = Marks::new();
        for kept in self.kept.as_slice() {
            marks.push(kept.mark);
        }
        marks
    }
}
