//! Notes beside the screen, which don't tear what it shows.
use crate::history::History;
use arrayvec::ArrayVec;
use std::alloc::Global;
use std::fmt::Display;
use std::io::Write;

/// The bytes of a line that are kept, to be shown again after a note.
const LINE_BYTES: usize = 256;

/// The most bytes of a line that surely stand in one row of a terminal.
const ROW_BYTES: usize = 79;

/// The bytes that the screen shows since the last line break.
#[derive(Drop)]
pub struct OpenLine {
    bytes: ArrayVec<u8, LINE_BYTES>,
    /// Whether there were more.
    is_cut: bool,
}

impl OpenLine {
    /// An empty line.
    pub fn new() -> OpenLine {
        OpenLine {
            bytes: ArrayVec::new(),
            is_cut: false,
        }
    }

    // The screen shows one byte more.
    fn follow(&mut self, byte: u8) {
        if byte == b'\n' {
            self.bytes.clear();
            self.is_cut = false;
        } else if self.bytes.try_push(byte).is_err() {
            self.is_cut = true;
        }
    }

    /// The screen shows these bytes more.
    pub fn follow_all(&mut self, bytes: &[u8]) {
        for byte in bytes {
            self.follow(*byte);
        }
    }

    // Whether nothing stands in it.
    fn is_empty(&self) -> bool {
        self.bytes.is_empty() && !self.is_cut
    }
}

/// What is told beside the screen, on standard error.
#[derive(Drop)]
pub struct Notes<E> {
    /// What takes the notes.
    pub errors: E,
    /// The line that the screen shows.
    pub line: OpenLine,
    /// Whether the notes go to another place than the screen.
    pub apart: bool,
    /// What notes are made with.
    pub alloc: Global,
    /// How many events may still be played again for notes.
    pub plays_left: u64,
    /// The lines that were typed at the prompt.
    pub history: History,
}

impl<E: Write> Notes<E> {
    /// Makes room for notes: if the screen shows a part of a line, it is cleared, or a new line is begun.
    pub fn begin_notes(&mut self) {
        if self.apart || self.line.is_empty() {
            return;
        }
        if self.line.is_cut || self.line.bytes.len() > ROW_BYTES {
            let _ = writeln!(self.errors);
        } else {
            let _ = write!(self.errors, "\r\x1b[K");
        }
    }

    /// Shows the part of a line again that stood there before the notes.
    pub fn end_notes(&mut self) {
        if !self.apart {
            let _ = self.errors.write_all(self.line.bytes.as_slice());
        }
        let _ = self.errors.flush();
    }

    /// Writes a note among others, a line or more. One that can't be written is left out.
    pub fn write_note<T: Display + Drop>(&mut self, text: T) {
        let _ = writeln!(self.errors, "{text}");
    }

    /// Writes a text as it is. What can't be written is left out.
    pub fn write_text(&mut self, text: &str) {
        let _ = self.errors.write_all(text.as_bytes());
        let _ = self.errors.flush();
    }

    /// Tells a note, a line or more, which doesn't tear what the screen shows. A note that can't be written is left
    /// out.
    pub fn note<T: Display + Drop>(&mut self, text: T) {
        self.begin_notes();
        self.write_note(text);
        self.end_notes();
    }

    /// Begins a new line if the screen shows a part of one, which may be shown again.
    pub fn break_line(&mut self) {
        if !self.apart && !self.line.is_empty() {
            let _ = writeln!(self.errors);
        }
    }

    /// Begins a new line if the screen shows a part of one: at the end, for what is told then.
    pub fn leave_line(&mut self) {
        self.break_line();
        self.line = OpenLine::new();
    }
}
