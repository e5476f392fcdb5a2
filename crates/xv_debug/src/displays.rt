//! What is shown again and again: lines that are obeyed after each word that moves the session (Debugging with GDB,
//! "Automatic Display"). How they are told, no contract says.

use crate::frame_words::DisplayLine;
use arrayvec::ArrayVec;
use std::alloc::AllocError;

/// The most lines that are obeyed again and again.
const DISPLAYS_MOST: usize = 20;

/// A line that is obeyed again and again.
#[derive(Clone, Copy, Default)]
pub(crate) struct Displayed {
    pub number: u32,
    pub line: DisplayLine,
}

/// Lines that are obeyed again and again, in the order in which they were given.
pub(crate) type DisplayedList = ArrayVec<Displayed, DISPLAYS_MOST>;

/// The lines that are obeyed again and again, and how many were given.
#[derive(Drop)]
pub(crate) struct KeptDisplays {
    kept: DisplayedList,
    made: u32,
}

impl KeptDisplays {
    ghost use Rattle.std.specs.Prelude.{◌≡◌, [], length, nat_lt};
    ghost use Rattle.xv_debug.specs.Displays.{kept_after, left_without, made_after};
    ghost use Rattle.xv_debug.specs.declared.displays.TheConstants.{DISPLAYS_MOST};

    /// None yet.
    pub fn new() -> KeptDisplays
        ensures { result.kept.items ≡ [] }
    {
        KeptDisplays {
            kept: ArrayVec::new(),
            made: 0,
        }
    }

    /// All of them.
    pub fn as_slice(&self) -> &[Displayed]
        ensures { result.now ≡ self.now.kept.items }
    {
        self.kept.as_slice()
    }

    /// Keeps a line from now on; `false` if there are as many as may be.
    pub fn add(&mut self, line: DisplayLine) -> bool
        ensures kept { self.new.kept.items ≡ kept_after self.old line }
        ensures room { result ≡ nat_lt (length self.old.kept.items) DISPLAYS_MOST }
        ensures made { self.new.made ≡ made_after self.old }
    {
        let number = self.made.saturating_add(1);
        let Ok(()) = self.kept.try_push(Displayed { number, line }) else {
            return false;
        };
        self.made = number;
        true
    }

    /// Forgets the line of this number, or all.
    fn forget(&mut self, number: Option<u32>)
        ensures { self.new.kept.items ≡ left_without number self.old.kept.items }
    {
        match number {
            Some(number) => self.kept.retain(|displayed| displayed.number != number),
            None => self.kept.clear(),
        }
    }

    /// Forgets the line of this number, or all; tells if there is none.
    pub fn delete(&mut self, number: Option<u32>, answer: &mut String) -> Result<(), AllocError>
        ensures { self.new.kept.items ≡ left_without number self.old.kept.items }
    {
        let count = self.kept.len();
        self.forget(number);
        if self.kept.len() < count {
            Ok(())
        } else {
            answer.push_str("there is no such display: info display lists them\n")
        }
    }
}

/// Writes which lines are obeyed again and again.
pub(crate) fn show_kept(displays: &KeptDisplays, answer: &mut String) -> Result<(), AllocError> {
    if displays.as_slice().is_empty() {
        return answer.push_str("there is no display\n");
    }
    for displayed in displays.as_slice() {
        let number = displayed.number;
        let line = displayed.line.as_str();
        writeln!(answer, "{number}: {line}")?;
    }
    Ok(())
}
