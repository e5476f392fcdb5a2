//! The keys of a line: what the bytes of a terminal mean that come one by one.

/// A key.
#[derive(Clone, Copy)]
pub enum Key {
    /// A printable byte.
    Byte(u8),
    /// An arrow, or Ctrl-B and Ctrl-F.
    Left,
    Right,
    /// An arrow, or Ctrl-P and Ctrl-N: to the line before or after.
    Up,
    Down,
    /// To the beginning (Ctrl-A) or to the end (Ctrl-E).
    Home,
    End,
    /// Takes the byte before the cursor.
    Backspace,
    /// Takes the byte at the cursor.
    Delete,
    /// Ctrl-D: the same; if the line is empty the machine goes on.
    DeleteOrGo,
    /// Ctrl-W: takes the word before the cursor.
    Word,
    /// Ctrl-U: takes all before the cursor.
    Before,
    /// Ctrl-K: takes all after the cursor.
    Behind,
    /// Ctrl-C: takes the line.
    All,
    Tab,
    Enter,
    /// Ctrl-\: the machine is to end.
    Quit,
}

/// How much of a sequence of bytes has come that stands for one key (ECMA-48, "control sequence").
#[derive(Clone, Copy)]
enum Sequence {
    /// None.
    None,
    /// Escape.
    Begun,
    /// What leads it in, and the last of its digits, if there are some.
    Open(u8),
}

/// Bytes that come one by one, as keys.
#[derive(Drop)]
pub struct Keys {
    sequence: Sequence,
}

const ESCAPE: u8 = 27;

// The key of a byte that stands for itself, if it is one.
fn plain(byte: u8) -> Option<Key> {
    match byte {
        1 => Some(Key::Home),
        2 => Some(Key::Left),
        3 => Some(Key::All),
        4 => Some(Key::DeleteOrGo),
        5 => Some(Key::End),
        6 => Some(Key::Right),
        8 | 127 => Some(Key::Backspace),
        b'\t' => Some(Key::Tab),
        b'\n' | b'\r' => Some(Key::Enter),
        11 => Some(Key::Behind),
        14 => Some(Key::Down),
        16 => Some(Key::Up),
        21 => Some(Key::Before),
        23 => Some(Key::Word),
        28 => Some(Key::Quit),
        b' '..=b'~' => Some(Key::Byte(byte)),
        _ => None,
    }
}

// The key of a sequence that ends with `~`, by its last digit.
fn numbered(digit: u8) -> Option<Key> {
    match digit {
        b'1' | b'7' => Some(Key::Home),
        b'3' => Some(Key::Delete),
        b'4' | b'8' => Some(Key::End),
        _ => None,
    }
}

// The key of a sequence that ends with this byte.
fn ended(byte: u8, digit: u8) -> Option<Key> {
    match byte {
        b'A' => Some(Key::Up),
        b'B' => Some(Key::Down),
        b'C' => Some(Key::Right),
        b'D' => Some(Key::Left),
        b'H' => Some(Key::Home),
        b'F' => Some(Key::End),
        b'~' => numbered(digit),
        _ => None,
    }
}

impl Keys {
    /// None has come.
    pub fn new() -> Keys {
        Keys {
            sequence: Sequence::None,
        }
    }

    // A byte within a sequence: the key, if it ends one.
    fn within(&mut self, byte: u8, digit: u8) -> Option<Key> {
        match byte {
            b'0'..=b'9' | b';' => {
                self.sequence = Sequence::Open(byte);
                None
            }
            _ => {
                self.sequence = Sequence::None;
                ended(byte, digit)
            }
        }
    }

    /// The next byte: the key that it is, or that it ends.
    pub fn next(&mut self, byte: u8) -> Option<Key> {
        match self.sequence {
            Sequence::None if byte == ESCAPE => {
                self.sequence = Sequence::Begun;
                None
            }
            Sequence::None => plain(byte),
            Sequence::Begun if byte == b'[' || byte == b'O' => {
                self.sequence = Sequence::Open(0);
                None
            }
            Sequence::Begun => {
                self.sequence = Sequence::None;
                plain(byte)
            }
            Sequence::Open(digit) => self.within(byte, digit),
        }
    }
}
