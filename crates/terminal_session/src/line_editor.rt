//! A line that is typed at the prompt, while the terminal hands over each key by itself.
ghost use Rattle.std.specs.Prelude.{◌≡◌, ◌≤◌, [], length};
ghost use Rattle.terminal_session.specs.Lines.{Edits, cut, place};

use crate::keys::Key;
use arrayvec::ArrayVec;

/// The most bytes of a line.
pub const LINE_MOST: usize = 256;

/// What a key does to the line.
#[derive(Clone, Copy)]
pub enum Edit {
    /// The key's byte stands before the cursor now.
    Adds(u8),
    /// The bytes from one place up to another are taken out, and the cursor stands there.
    Cuts { from: usize, to: usize },
    /// The cursor goes to this place.
    Moves(usize),
    /// The line before is to stand here.
    Older,
    /// The line after is to stand here.
    Newer,
    /// What was begun is to be written out.
    Completes,
    /// Nothing.
    Stays,
    /// The line is over.
    Over,
    /// The machine is to go on, without a word.
    GoesOn,
    /// The machine is to end.
    Ends,
}

/// The bytes of a line.
pub type Bytes = ArrayVec<u8, LINE_MOST>;

/// A line that is being typed.
#[derive(Drop)]
pub struct LineEditor {
    bytes: Bytes,
    /// How many bytes stand before the cursor.
    cursor: usize,
}

// Whether a byte stands between words.
fn is_blank(byte: u8) -> bool {
    byte == b' '
}

impl LineEditor {
    /// An empty line.
    pub fn new() -> LineEditor
        ensures { result.bytes.items ≡ [] }
    {
        LineEditor {
            bytes: ArrayVec::new(),
            cursor: 0,
        }
    }

    /// The line so far.
    pub fn bytes(&self) -> &[u8]
        ensures { result.now ≡ self.now.bytes.items }
    {
        self.bytes.as_slice()
    }

    /// How many of its bytes stand before the cursor.
    pub fn place(&self) -> usize
        ensures is { result ≡ place self.now.bytes.items self.now.cursor }
        ensures fits { result ≤ length self.now.bytes.items }
    {
        self.cursor.min(self.bytes.len())
    }

    /// Puts a byte before the cursor. A line that is full takes no more.
    fn add(&mut self, byte: u8) -> Edit
        ensures { Edits result (self.old.bytes.items, self.old.cursor) (self.new.bytes.items, self.new.cursor) }
    {
        let place = self.place();
        match self.bytes.try_insert(place, byte) {
            Ok(()) => {
                self.cursor = place + 1;
                Edit::Adds(byte)
            }
            Err(_) => Edit::Stays,
        }
    }

    /// Puts the cursor at a place.
    fn go(&mut self, place: usize) -> Edit
        ensures { Edits result (self.old.bytes.items, self.old.cursor) (self.new.bytes.items, self.new.cursor) }
    {
        self.cursor = place;
        Edit::Moves(place)
    }

    /// Takes out the bytes from one place up to another.
    fn cut(&mut self, from: usize, to: usize) -> Edit
        requires end { to ≤ length self.old.bytes.items }
        requires order { from ≤ to }
        ensures { Edits result (self.old.bytes.items, self.old.cursor) (self.new.bytes.items, self.new.cursor) }
    {
        let mut left = Bytes::new();
        let bytes = self.bytes.as_slice();
        let before = &bytes[..from];
        let behind = &bytes[to..];
        let (Ok(()), Ok(())) = (
            left.try_extend_from_slice(before),
            left.try_extend_from_slice(behind),
        ) else {
            return Edit::Stays;
        };
        self.bytes = left;
        self.cursor = from;
        Edit::Cuts { from, to }
    }

    /// Where the word begins that ends at a place, or before the blanks there.
    fn word_before(&self, place: usize) -> usize
        requires { place ≤ length self.now.bytes.items }
        ensures { result ≤ place }
    {
        let mut begin = place;
        let mut is_in_word = false;
        for _ in 0..place {
            let Some(&byte) = self.bytes.as_slice().get(begin.saturating_sub(1)) else {
                return begin.min(place);
            };
            if is_blank(byte) && is_in_word {
                return begin.min(place);
            }
            is_in_word = !is_blank(byte);
            begin = begin.saturating_sub(1);
        }
        begin.min(place)
    }

    /// Takes another line in place of this one.
    pub fn take_over(&mut self, line: &[u8]) {
        self.bytes.clear();
        let _ = self.bytes.try_extend_from_slice(line);
        self.cursor = self.bytes.len();
    }

    /// What was begun before the cursor.
    pub fn begun(&self) -> &[u8] {
        &self.bytes.as_slice()[..self.place()]
    }

    /// Puts these bytes before the cursor, as far as there is room.
    pub fn add_all(&mut self, bytes: &[u8]) {
        for byte in bytes {
            self.add(*byte);
        }
    }

    /// What a key does. Ctrl-D in an empty line lets the machine go on. A line that is full takes no more.
    pub fn key(&mut self, key: Key) -> Edit
        ensures { Edits result (self.old.bytes.items, self.old.cursor) (self.new.bytes.items, self.new.cursor) }
    {
        let place = self.place();
        let length = self.bytes.len();
        match key {
            Key::Byte(byte) => self.add(byte),
            Key::Left => self.go(place.saturating_sub(1)),
            Key::Right => self.go(length.min(place + 1)),
            Key::Home => self.go(0),
            Key::End => self.go(length),
            Key::Backspace => self.cut(place.saturating_sub(1), place),
            Key::Word => self.cut(self.word_before(place), place),
            Key::Before => self.cut(0, place),
            Key::Behind => self.cut(place, length),
            Key::All => self.cut(0, length),
            Key::Delete => self.cut(place, length.min(place + 1)),
            Key::DeleteOrGo if self.bytes.is_empty() => Edit::GoesOn,
            Key::DeleteOrGo => self.cut(place, length.min(place + 1)),
            Key::Up => Edit::Older,
            Key::Down => Edit::Newer,
            Key::Tab => Edit::Completes,
            Key::Enter => Edit::Over,
            Key::Quit => Edit::Ends,
        }
    }
}
