//! A record's file while its session goes on: at each moment it is a whole record.
use crate::Line;
use crate::events::{END, push_events};
use std::alloc::{AllocError, Global};
use std::fmt::Write;

/// A file can't be written.
#[derive(Clone, Copy, Debug)]
pub struct Unwritten;

/// A file that a record is written into.
pub trait RecordFile: Drop {
    ghost use Rattle.std.specs.Prelude.{ℕ, List, Option, OnOk};
    ghost use Rattle.xv_record.specs.Growing.{PutBehind};

    // The bytes that it holds, if they are known.
    ghost held: { Self → Option (List ℕ) };

    /// Keeps the first bytes, so many, and puts these in the place of all others.
    ///
    /// # Errors
    ///
    /// It can't be written. What it holds then isn't told.
    fn put_behind(&mut self, kept: u64, bytes: &[u8]) -> Result<(), Unwritten>
        ensures { OnOk result (PutBehind kept bytes.now (held self.old) (held self.new)) };
}

/// Why a record doesn't grow.
#[derive(Clone, Copy, Debug)]
pub enum GrowError {
    /// Its file can't be written.
    Unwritten,
    /// The host has too little memory.
    Memory,
}

impl From<AllocError> for GrowError {
    fn from(_error: AllocError) -> Self {
        GrowError::Memory
    }
}

impl From<Unwritten> for GrowError {
    fn from(_error: Unwritten) -> Self {
        GrowError::Unwritten
    }
}

/// A record that grows in its file, of which the head and some lines of events stand, and don't change any more.
#[derive(Drop)]
pub struct GrowingRecord<F> {
    /// The file.
    pub file: F,
    /// How many of its first bytes stand.
    pub standing: u64,
}

impl<F: RecordFile> GrowingRecord<F> {
    ghost use Rattle.std.specs.Prelude.{◌≡◌, ◌++◌, ◌+◌, List, [], ℕ, length, OnErr, OnOk};
    ghost use Rattle.std.specs.String.{string_bytes};
    ghost use Rattle.xv_record.specs.Growing.{Grows, PutBehind, Stands};
    ghost use Rattle.xv_record.specs.Text.{events_text_of};
    ghost use Rattle.xv_record.specs.Told.{end_text};
    ghost use Rattle.xv_record.specs.declared.line.Line.{Line};

    /// A file in which nothing stands yet. It isn't touched.
    pub fn new(file: F) -> GrowingRecord<F>
        ensures file { result.file ≡ file }
        ensures standing { result.standing ≡ 0 }
    {
        GrowingRecord { file, standing: 0 }
    }

    // Puts a text, lines that stand from now on, lines that may change yet, and the last line behind so many bytes.
    fn put(
        &mut self,
        kept: u64,
        text: String,
        over: &[Line],
        last: &[Line],
    ) -> Result<(), GrowError>
        ensures put { OnOk result (PutBehind kept (((string_bytes text ++ events_text_of over.now) ++ events_text_of last.now) ++ end_text) (F.held self.old.file) (F.held self.new.file)) }
        ensures standing { OnOk result (self.new.standing ≡ kept + length (string_bytes text ++ events_text_of over.now)) }
        ensures refused { OnErr result (self.new.standing ≡ self.old.standing) }
    {
        let mut text = text;
        push_events(&mut text, over)?;
        let Some(standing) = kept.checked_add(text.len() as u64) else {
            return Err(GrowError::Unwritten);
        };
        push_events(&mut text, last)?;
        writeln!(&mut text, "{END}")?;
        self.file.put_behind(kept, text.as_bytes())?;
        self.standing = standing;
        Ok(())
    }

    /// Writes a head, lines that stand from now on, lines that may change yet, and the last line, in the place of all
    /// that the file has.
    ///
    /// # Errors
    ///
    /// [`GrowError::Unwritten`] and [`GrowError::Memory`]: no line more stands.
    pub fn begin(
        &mut self,
        alloc: Global,
        head: &str,
        over: &[Line],
        last: &[Line],
    ) -> Result<(), GrowError>
        ensures grows { OnOk result (Grows head.now [] over.now last.now self.new.standing (F.held self.new.file)) }
        ensures refused { OnErr result (self.new.standing ≡ self.old.standing) }
    {
        let text = String::from_str(alloc, head)?;
        self.put(0, text, over, last)?;
        Ok(())
    }

    /// Writes lines that stand from now on behind those that stand, behind them lines that may change yet, and the last
    /// line, in the place of all others.
    ///
    /// # Errors
    ///
    /// [`GrowError::Unwritten`] and [`GrowError::Memory`]: no line more stands.
    pub fn grow(&mut self, alloc: Global, over: &[Line], last: &[Line]) -> Result<(), GrowError>
        ensures refused { OnErr result (self.new.standing ≡ self.old.standing) }
        ensures grows { (head : List ℕ) (before : List Line) → Stands (F.held self.old.file) self.old.standing head before → OnOk result (Grows head before over.now last.now self.new.standing (F.held self.new.file)) }
    {
        let kept = self.standing;
        self.put(kept, String::new(alloc), over, last)?;
        Ok(())
    }
}
