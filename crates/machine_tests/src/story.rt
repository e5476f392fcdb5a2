//! Stories: texts that say what a machine is made of, what happens to it, and what must come of that.
//!
//! A group of stories is one text. A line that begins with no space is a heading, and the lines below it that
//! begin with spaces belong to it. Empty lines and lines that begin with `#` say nothing. Headings are:
//!
//! - `story NAME`: the story of this name begins. What stands before the first story belongs to all of them.
//! - `define NAME`: lines of assembler, which `do NAME` in a program stands for.
//! - `frames N`: the machine has so many frames; 16 where it isn't said.
//! - `trace N`: the machine's trace keeps so many notes; none where it isn't said.
//! - `program NAME`: a program of this name, in assembler. `; ` stands for the end of a line.
//! - `file NAME TEXT`: a program of this name whose file is this text, or empty.
//! - `patch OFFSET BYTES`: the file of the program before has these bytes from this offset on.
//! - `cut LENGTH`: the file of the program before has so many bytes left. `length LENGTH`: it has so many.
//! - `each N from FIRST to LAST`: the whole story is told for each of these numbers, which a word `N` at the end of a
//!   heading stands for.
//! - `refused WHY`: no machine boots, for this reason.
//! - `events`: the machine boots, if it hasn't yet, and all of the items below come in turn.
//! - `calls`: the same, but done instructions aren't told, and are passed over.
//!
//! Items stand with `, ` between them:
//!
//! - an outcome as a line of a trace: `turn 1`, `step 1`, `call 1 4 0`, `block 1 5`, `exit 1 0`, `fault 1 13`,
//!   `idle`, `halted`. It is what comes of a Run.
//! - `tick`: it is what comes of a Tick. `tick -> OUTCOME`: this comes of a Tick.
//! - `key KEY echoes BYTES`: the console shows these bytes, or `none`, for the key of this byte. `key KEY ->
//!   OUTCOME`: this comes of the key.
//! - `sent BYTE`: the byte of this number is sent; `sent none`: no byte waits to be sent.
//! - `runs MOST SENT`: of so many Runs at most that are asked for together, so many are sent; `instructions MOST DONE`:
//!   so many are done instructions, behind which none is sent.
//! - `note PLACE LINE`: the note at this place of the trace, from 0 on and the oldest first, is this line.
//! - `free N`: so many frames are free.
//! - `status N`: the machine has halted with this status; `status none`: it hasn't halted.
//! - `current PID`: this process runs; `current none`: none does.
//! - `child PID CHILD running`, `child PID CHILD STATUS`, `child PID CHILD none`: what the process can know
//!   of this child.
//! - `register PID NAME VALUE`: a register, or `pc`; `none` where no such process lives.
//! - `bytes PID ADDRESS BYTES`: the bytes from an address on; `none` where there is no page.
//! - `zeros PID ADDRESS COUNT`: so many bytes from an address on are 0.
//!
//! `COUNT times: ` before items, or before assembler, stands for so many of them in turn; `N from FIRST to
//! LAST: ` before items for them once for each of these numbers, which each `N` stands for. Numbers are decimal, or
//! hexadecimal behind `0x`; bytes are hexadecimal.
use std::process::Abort;

/// Where a story is read.
#[derive(Drop)]
pub(super) struct Place<'a> {
    pub(super) story: &'a str,
    pub(super) line: usize,
}

impl Place<'_> {
    /// Fails, since something isn't as the story says, or isn't readable.
    pub(super) fn fail<R: Abort>(&self, rt: &R, text: &str) -> ! {
        let Place { story, line } = self;
        panic!(rt; "{story}, line {line}: {text} can't be so")
    }

    /// The number that a word spells.
    pub(super) fn number<R: Abort>(&self, rt: &R, word: &str) -> u64 {
        match number(word) {
            Some(number) => number,
            None => self.fail(rt, word),
        }
    }

    /// The number that a word spells, where it fits into 32 bits.
    pub(super) fn short_number<R: Abort>(&self, rt: &R, word: &str) -> u32 {
        match u32::try_from(self.number(rt, word)) {
            Ok(number) => number,
            Err(_) => self.fail(rt, word),
        }
    }

    /// The byte that two hexadecimal digits spell.
    pub(super) fn byte<R: Abort>(&self, rt: &R, word: &str) -> u8 {
        match u8::from_str_radix(word, 16) {
            Ok(byte) => byte,
            Err(_) => self.fail(rt, word),
        }
    }

    /// How often a line is told.
    pub(super) fn repetition<'a, R: Abort>(&self, rt: &R, line: &'a str) -> Repeated<'a> {
        if let Some(numbered) = rest_behind(line, "N from ") {
            return self.numbered(rt, numbered);
        }
        match line.split_once(" times: ") {
            Some((count, text)) => Repeated {
                first: 1,
                last: self.number(rt, count),
                text,
            },
            None => Repeated {
                first: 1,
                last: 1,
                text: line,
            },
        }
    }

    /// The numbers of `FIRST to LAST: TEXT`, and the text.
    pub(super) fn numbered<'a, R: Abort>(&self, rt: &R, line: &'a str) -> Repeated<'a> {
        let (range, text) = parted(line, ": ");
        let (first, last) = parted(range, " to ");
        Repeated {
            first: self.number(rt, first),
            last: self.number(rt, last),
            text,
        }
    }
}

/// The number that a word spells, if it does: a number below 0 stands for itself and 2^64.
pub(super) fn number(word: &str) -> Option<u64> {
    if let Some(digits) = rest_behind(word, "0x") {
        return u64::from_str_radix(digits, 16).ok();
    }
    match rest_behind(word, "-") {
        Some(digits) => Some(digits.parse::<u64>().ok()?.wrapping_neg()),
        None => word.parse::<u64>().ok(),
    }
}

/// A text in which another text stands in each place of a mark.
pub(super) fn replaced<R: Abort + AllocGlobal>(
    rt: &R,
    text: &str,
    mark: &str,
    other: &str,
) -> String {
    text.replace(rt.alloc(), mark, other).expect(rt, "memory")
}

/// Adds a text to another.
pub(super) fn push<R: Abort>(rt: &R, text: &mut String, more: &str) {
    text.push_str(more).expect(rt, "memory");
}

/// What stands behind the beginning of a text, if it begins so.
pub(super) fn rest_behind<'a>(text: &'a str, beginning: &str) -> Option<&'a str> {
    text.strip_prefix(beginning)
}

/// What stands before the first place of a separator, and what behind it.
pub(super) fn parted<'a>(text: &'a str, separator: &str) -> (&'a str, &'a str) {
    match text.split_once(separator) {
        Some(parts) => parts,
        None => (text, ""),
    }
}

/// The first word of a text, and what stands behind the space behind it.
pub(super) fn first_word(text: &str) -> (&str, &str) {
    parted(text, " ")
}

/// The first line of a text.
pub(super) fn first_line(text: &str) -> &str {
    parted(text, "\n").0
}

/// A text that is told once for each number from the first to the last.
#[derive(Drop)]
pub(super) struct Repeated<'a> {
    pub(super) first: u64,
    pub(super) last: u64,
    pub(super) text: &'a str,
}

/// Whether a line is a heading.
pub(super) fn is_heading(line: &str) -> bool {
    !matches!(line.as_bytes().first(), None | Some(b' ' | b'#'))
}

/// Whether a line says nothing.
pub(super) fn is_silent(line: &str) -> bool {
    matches!(line.trim().as_bytes().first(), None | Some(b'#'))
}

/// What stands behind the word of the first heading that begins with it, if there is one. The word stands between an
/// end of a line and a space.
pub(super) fn heading<'a>(story: &'a str, word: &str) -> Option<&'a str> {
    match story.split_once(word) {
        Some((_, behind)) => Some(first_line(behind)),
        None => None,
    }
}

/// What an item asks for.
#[derive(Clone, Copy)]
pub(super) enum Asks {
    Free,
    Status,
    Current,
    Key,
    Runs,
    Instructions,
    Note,
    Bytes,
    Child,
    Register,
    Zeros,
    Sent,
    Tick,
    /// What comes of a Run.
    Run,
}

// The words that ask.
static WORDS: [&str; 13] = [
    "free",
    "status",
    "current",
    "key",
    "runs",
    "instructions",
    "note",
    "bytes",
    "child",
    "register",
    "zeros",
    "sent",
    "tick",
];

// What each of them asks for.
static ASKS: [Asks; 13] = [
    Asks::Free,
    Asks::Status,
    Asks::Current,
    Asks::Key,
    Asks::Runs,
    Asks::Instructions,
    Asks::Note,
    Asks::Bytes,
    Asks::Child,
    Asks::Register,
    Asks::Zeros,
    Asks::Sent,
    Asks::Tick,
];

impl Asks {
    // What an item with this first word asks for.
    fn of(word: &str) -> Asks {
        for index in 0..13usize {
            if WORDS[index] == word {
                return ASKS[index];
            }
        }
        Asks::Run
    }

    // How many words stand before what an item wants to hear. Where the item itself is what it wants to hear, none
    // does.
    fn words_before(self, first: &str, second: &str) -> usize {
        if first == "->" {
            return 2;
        }
        if second == "->" {
            return 3;
        }
        match self {
            Asks::Free | Asks::Status | Asks::Current => 1,
            Asks::Key | Asks::Runs | Asks::Instructions | Asks::Note | Asks::Bytes => 2,
            Asks::Child | Asks::Register | Asks::Zeros => 3,
            Asks::Sent | Asks::Tick | Asks::Run => 0,
        }
    }
}

// What stands behind the first words of a text, three at most.
fn behind_words(text: &str, count: usize) -> &str {
    if count == 0 {
        return text;
    }
    let (_, rest) = first_word(text);
    if count == 1 {
        return rest;
    }
    let (_, behind) = first_word(rest);
    if count == 2 {
        return behind;
    }
    first_word(behind).1
}

/// An item: what it asks for, the two words behind that, and what it wants to hear.
#[derive(Drop)]
pub(super) struct Item<'a> {
    pub(super) asks: Asks,
    pub(super) first: &'a str,
    pub(super) second: &'a str,
    pub(super) wanted: &'a str,
}

impl Item<'_> {
    /// The item that a text is.
    pub(super) fn of(item: &str) -> Item<'_> {
        let (word, rest) = first_word(item);
        let (first, behind) = first_word(rest);
        let (second, _) = first_word(behind);
        let asks = Asks::of(word);
        Item {
            asks,
            first,
            second,
            wanted: behind_words(item, asks.words_before(first, second)),
        }
    }

    /// Whether it wants to hear this. Numbers may be spelled otherwise.
    pub(super) fn wants(&self, told: &str) -> bool {
        if told == self.wanted {
            return true;
        }
        match number(told) {
            Some(told) => number(self.wanted) == Some(told),
            None => false,
        }
    }
}
