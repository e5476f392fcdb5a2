//! The lines that were typed at the prompt.
ghost use Rattle.std.specs.Prelude.{◌≡◌, []};

use std::alloc::Global;

/// The most lines that are kept.
const LINES_MOST: usize = 1000;

/// The lines that were typed, the oldest first, and at which of them the arrows stand.
#[derive(Drop)]
pub struct History {
    alloc: Global,
    lines: Vec<Vec<u8>>,
    /// The place of the line that is shown; behind the last one that of the line which is typed.
    at: usize,
}

impl History {
    /// No line.
    pub fn new(alloc: Global) -> History
        ensures { result.lines.items ≡ [] }
    {
        History {
            alloc,
            lines: Vec::new(alloc),
            at: 0,
        }
    }

    // Whether a line is the last one that is kept.
    fn is_last(&self, line: &[u8]) -> bool {
        match self.lines.last() {
            Some(last) => last.as_slice() == line,
            None => false,
        }
    }

    /// A line is over: it is kept, if it isn't empty, nor the one before once more. If memory is short it isn't.
    pub fn keep(&mut self, line: &[u8]) {
        if !line.is_empty() && !self.is_last(line) && self.lines.len() < LINES_MOST {
            if let Ok(line) = Vec::from_slice(self.alloc, line) {
                let _ = self.lines.push(line);
            }
        }
        self.at = self.lines.len();
    }

    /// Goes to the line before; `None` if there is none.
    pub fn older(&mut self) -> Option<&[u8]> {
        let at = self.at.checked_sub(1)?;
        let line = self.lines.get(at)?;
        self.at = at;
        Some(line.as_slice())
    }

    /// Goes to the line after, at last to an empty one; `None` if there is none.
    pub fn newer(&mut self) -> Option<&[u8]> {
        if self.at >= self.lines.len() {
            return None;
        }
        self.at += 1;
        match self.lines.get(self.at) {
            Some(line) => Some(line.as_slice()),
            None => Some(b""),
        }
    }
}
