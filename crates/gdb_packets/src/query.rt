//! What general queries ask for (GDB manual, "General Query Packets").
ghost use Rattle.std.specs.Prelude.{◌≡◌};
ghost use Rattle.gdb_packets.specs.Commands as meant;

use crate::command::{Command, parse_thread};
use crate::packet_text::{before, behind, is_text, two_numbers};

/// A document that a part is read of (`qXfer`).
#[derive(Clone, Copy)]
pub enum Document {
    /// `features`, annex `target.xml`: the registers.
    Registers,
    /// `exec-file`: the path of the program's file.
    File,
}

/// What a word of GDB's `monitor` asks for, which GDB hands on as it is (`qRcmd`).
#[derive(Clone, Copy)]
pub enum View {
    /// `pages`: the page table of the process that is looked at.
    Pages,
    /// `fds`: its descriptors.
    Descriptors,
    /// `frames`: who owns how many frames of RAM.
    Frames,
    /// `console`: the bytes that the console keeps.
    Console,
    /// `events`: the last events of the run.
    Events,
    /// `why`: what each process waits for, who could wake it, and why the last call was refused.
    Why,
    /// `help`: which words there are. Any other word asks for it too.
    Help,
}

/// The word of `monitor` that these hexadecimal digits stand for, two for each letter.
fn view_of(digits: &[u8]) -> View
    ensures { result ≡ meant.view_of digits.now }
{
    if is_text(digits, b"7061676573") {
        View::Pages
    } else if is_text(digits, b"666473") {
        View::Descriptors
    } else if is_text(digits, b"6672616d6573") {
        View::Frames
    } else if is_text(digits, b"636f6e736f6c65") {
        View::Console
    } else if is_text(digits, b"6576656e7473") {
        View::Events
    } else if is_text(digits, b"776879") {
        View::Why
    } else {
        View::Help
    }
}

/// The request for a part of a document: its offset and its length.
fn part(document: Document, text: &[u8]) -> Command
    ensures { result ≡ meant.part document (meant.two_numbers text.now) }
{
    match two_numbers(text) {
        Some(numbers) => Command::Part {
            document,
            offset: numbers.first,
            length: numbers.second,
        },
        None => Command::Malformed,
    }
}

/// The request for a part of the path of the program's file: a process, if one is named, and then the part.
fn file_part(text: &[u8]) -> Command
    ensures { result ≡ meant.file_part (meant.behind 58 text.now) }
{
    match behind(text, b':') {
        Some(text) => part(Document::File, text),
        None => Command::Malformed,
    }
}

/// A thread in words.
fn thread_info(text: &[u8]) -> Command
    ensures { result ≡ meant.thread_info (meant.thread_of text.now) }
{
    match parse_thread(text) {
        Some(thread) => Command::ThreadInfo(thread),
        None => Command::Malformed,
    }
}

/// A query that has something behind its name.
fn long_query(text: &[u8]) -> Command
    ensures { result ≡ meant.long_query text.now }
{
    if let Some(rest) = text.strip_prefix(b"ThreadExtraInfo,".as_slice()) {
        return thread_info(rest);
    }
    if let Some(rest) = text.strip_prefix(b"Xfer:features:read:target.xml:".as_slice()) {
        return part(Document::Registers, rest);
    }
    if let Some(rest) = text.strip_prefix(b"Xfer:exec-file:read:".as_slice()) {
        return file_part(rest);
    }
    if let Some(rest) = text.strip_prefix(b"Rcmd,".as_slice()) {
        return Command::Monitor(view_of(rest));
    }
    Command::Unknown
}

/// What a query asks for: the payload behind its `q`.
pub(crate) fn query(text: &[u8]) -> Command
    ensures { result ≡ meant.query text.now }
{
    let name = before(text, b':');
    if is_text(name, b"Supported") {
        Command::Supported
    } else if is_text(name, b"Attached") {
        Command::Attached
    } else if is_text(name, b"C") {
        Command::CurrentThread
    } else if is_text(name, b"fThreadInfo") {
        Command::FirstThreads
    } else if is_text(name, b"sThreadInfo") {
        Command::MoreThreads
    } else if is_text(name, b"Offsets") {
        Command::Offsets
    } else {
        long_query(text)
    }
}
