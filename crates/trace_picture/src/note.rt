//! The lines of a trace, as far as a picture shows them. `specs/Notes.antt` has their format.
ghost use Rattle.std.specs.Prelude.{◌≡◌, IfOk, map};
ghost use Rattle.trace_picture.specs.Notes as meant;

use std::alloc::{AllocError, Global};

/// What a line of a trace tells. A process is named by its pid.
#[derive(Clone, Copy)]
pub enum Note {
    /// The process has its turn from now on.
    Turn(u32),
    /// The process did an instruction.
    Step(u32),
    /// The process's call of this number is done, with this answer.
    Call(u32, i32, i64),
    /// The process sleeps in the call of this number.
    Block(u32, i32),
    /// The process is gone, with this status.
    Exit(u32, i32),
    /// The process is gone, by a fault of this cause.
    Fault(u32, u32),
    /// No process may run.
    Idle,
    /// The clock ticked, and the turn has ended.
    Tick,
    /// This byte was typed.
    Key(u8),
    /// This byte was sent.
    Sent(u8),
}

/// The number without a sign that a word is, in 32 bits; a plus may stand before it.
pub fn number_of(word: &str) -> Option<u32>
    ensures { result ≡ meant.unsigned 32 word.now }
{
    match word.parse::<u32>() {
        Ok(number) => Some(number),
        Err(_) => None,
    }
}

// The byte that a word is.
fn byte_of(word: &str) -> Option<u8>
    ensures { result ≡ meant.unsigned 8 word.now }
{
    match word.parse::<u8>() {
        Ok(byte) => Some(byte),
        Err(_) => None,
    }
}

// The number with a sign that a word is, in 32 bits.
fn signed_of(word: &str) -> Option<i32>
    ensures { result ≡ meant.signed 32 word.now }
{
    match word.parse::<i32>() {
        Ok(number) => Some(number),
        Err(_) => None,
    }
}

// The answer of a call that a word is: a number with a sign, in 64 bits.
fn answer_of(word: &str) -> Option<i64>
    ensures { result ≡ meant.signed 64 word.now }
{
    match word.parse::<i64>() {
        Ok(answer) => Some(answer),
        Err(_) => None,
    }
}

// The note of a line of one word.
fn note_of_one(kind: &str) -> Option<Note>
    ensures { result ≡ meant.note_of_one kind.now }
{
    match kind {
        "idle" => Some(Note::Idle),
        "tick" => Some(Note::Tick),
        _ => None,
    }
}

// The note of a line of two words.
fn note_of_two(kind: &str, word: &str) -> Option<Note>
    ensures { result ≡ meant.note_of_two kind.now word.now }
{
    match kind {
        "turn" => Some(Note::Turn(number_of(word)?)),
        "step" => Some(Note::Step(number_of(word)?)),
        "sent" => Some(Note::Sent(byte_of(word)?)),
        _ => None,
    }
}

// The note of a line of three words about a process.
fn note_of_process(kind: &str, pid: u32, word: &str) -> Option<Note>
    ensures { result ≡ meant.note_of_process kind.now pid word.now }
{
    match kind {
        "block" => Some(Note::Block(pid, signed_of(word)?)),
        "exit" => Some(Note::Exit(pid, signed_of(word)?)),
        "fault" => Some(Note::Fault(pid, number_of(word)?)),
        _ => None,
    }
}

// The note of a key: the byte that was typed, and how many bytes its echo has.
fn note_of_key(byte: &str, echo: &str) -> Option<Note>
    ensures { result ≡ meant.note_of_key byte.now echo.now }
{
    let _echo = number_of(echo)?;
    Some(Note::Key(byte_of(byte)?))
}

// The note of a line of three words.
fn note_of_three(kind: &str, first: &str, second: &str) -> Option<Note>
    ensures { result ≡ meant.note_of_three kind.now first.now second.now }
{
    if kind == "key" {
        return note_of_key(first, second);
    }
    note_of_process(kind, number_of(first)?, second)
}

// The note of a call that is done.
fn note_of_call(pid: &str, number: &str, answer: &str) -> Option<Note>
    ensures { result ≡ meant.note_of_call pid.now number.now answer.now }
{
    Some(Note::Call(number_of(pid)?, signed_of(number)?, answer_of(answer)?))
}

// The note of a line of four words.
fn note_of_four(kind: &str, first: &str, second: &str, third: &str) -> Option<Note>
    ensures { result ≡ meant.note_of_four kind.now first.now second.now third.now }
{
    match kind {
        "call" => note_of_call(first, second, third),
        _ => None,
    }
}

// The note of a line of these words.
fn note_of_words(words: &[&str]) -> Option<Note>
    ensures { result ≡ meant.note_of_words (map (λ word. word.now) words.now) }
{
    match words {
        [kind] => note_of_one(kind),
        [kind, word] => note_of_two(kind, word),
        [kind, first, second] => note_of_three(kind, first, second),
        [kind, first, second, third] => note_of_four(kind, first, second, third),
        _ => None,
    }
}

// The words of a line.
fn words_of(alloc: Global, line: &str) -> Result<Vec<&str>, AllocError>
    ensures { IfOk result (λ words. map (λ word. word.now) words.items ≡ meant.words line.now) }
{
    line.split(' ').collect(alloc)
}

/// The note of a line. `None` for one that shows nothing, as `sent none` and `halted`, and for a line that is
/// none of a trace, as the closing line.
///
/// # Errors
///
/// [`AllocError`] if the host has too little memory.
pub fn note_of_line(alloc: Global, line: &str) -> Result<Option<Note>, AllocError>
    ensures told { IfOk result (λ note. note ≡ meant.note_of_line line.now) }
{
    let words = words_of(alloc, line)?;
    Ok(note_of_words(words.as_slice()))
}
