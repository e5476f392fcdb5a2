//! Patterns as text: a line of a trace, with `*`, `!1`, `>=2`, `3..9` or `13|15` in place of a number, and what a call was
//! given: `call 1 read 0 given read-end@a * >0`.
ghost use Rattle.std.specs.Prelude.{◌≡◌, ◌<◌, ◌+◌, codes, slice_get, IfOk, IfNone, IfSome, true, false, map, drop, option_map};
ghost use Rattle.std.specs.List.{list_any, position};
ghost use Rattle.std.specs.Char.{is_ascii_alphabetic};
ghost use Rattle.grade_sheets.specs.Notation as meant;

use grade_rules::{Asking, Letter, Note, Numbers, Pattern, Pipes, Thing, Things};
use kernel_calls::KernelCall;
use std::alloc::{AllocError, Global};
use std::fmt;

/// The most words behind `given`.
const WORDS_GIVEN: usize = 4;

// The name of the kernel call of a number, if it is one's.
fn call_name(number: i32) -> Option<&'static str> {
    let call = KernelCall::of_number(number)?;
    Some(call.name())
}

// What stands behind a mark, which is a character of ASCII, if a word begins with it.
fn behind_mark(word: &str, mark: char) -> Option<&str>
    requires { mark < 128 }
    ensures found { IfSome result (λ rest. (meant.begins_with mark word.now ≡ true) × (rest.now ≡ drop 1 word.now)) }
    ensures none { IfNone result (meant.begins_with mark word.now ≡ false) }
{
    word.strip_prefix(mark)
}

// What stands before the first of such marks in a word, and behind it, if there is one.
fn around_mark(word: &str, mark: char) -> Option<(&str, &str)>
    requires { mark < 128 }
    ensures found { IfSome result (λ parts. (meant.has_mark mark word.now ≡ true) × (parts.0.now ≡ meant.before_mark mark word.now) × (parts.1.now ≡ meant.after_mark mark word.now)) }
    ensures none { IfNone result (meant.has_mark mark word.now ≡ false) }
{
    word.split_once(mark)
}

// The number that a word is.
fn integer(word: &str) -> Option<i64>
    ensures { result ≡ meant.integer_of word.now }
{
    match word.parse::<i64>() {
        Ok(number) => Some(number),
        Err(_) => None,
    }
}

// The number that a word is, or that of the kernel call whose name it is.
fn number_named(word: &str) -> Option<i64>
    ensures { result ≡ meant.number_named word.now }
{
    match KernelCall::of_name(word) {
        Some(call) => Some(i64::from(call.number())),
        None => integer(word),
    }
}

// From a number to another, both with them.
fn within(least: i64, most: i64) -> Numbers
    ensures { result ≡ Numbers.Within least most }
{
    Numbers::Within { least, most }
}

// The numbers from one to another, both words; `rest` is what stands behind the first dot.
fn interval(least: &str, rest: &str) -> Option<Numbers>
    ensures { result ≡ meant.interval_of least.now rest.now }
{
    let most = integer(behind_mark(rest, '.')?)?;
    let least = integer(least)?;
    if least <= most {
        Some(within(least, most))
    } else {
        None
    }
}

// The numbers of two words that each stand for one.
fn either(one: &str, other: &str) -> Option<Numbers>
    ensures { result ≡ meant.either_if (meant.number_named one.now) (meant.number_named other.now) }
{
    Some(Numbers::Either(number_named(one)?, number_named(other)?))
}

// The numbers above the one that a word is.
fn above(word: &str) -> Option<Numbers>
    ensures { result ≡ meant.above_if (meant.integer_of word.now) }
{
    let below = integer(word)?;
    if below < i64::MAX {
        Some(within(below + 1, i64::MAX))
    } else {
        None
    }
}

// The numbers below the one that a word is.
fn below(word: &str) -> Option<Numbers>
    ensures { result ≡ meant.below_if (meant.integer_of word.now) }
{
    let above = integer(word)?;
    if i64::MIN < above {
        Some(within(i64::MIN, above - 1))
    } else {
        None
    }
}

// The numbers that lie so, by what stands behind `>`.
fn greater(bound: &str) -> Option<Numbers>
    ensures { result ≡ meant.greater_of bound.now }
{
    match behind_mark(bound, '=') {
        Some(least) => Some(within(integer(least)?, i64::MAX)),
        None => above(bound),
    }
}

// The numbers that lie so, by what stands behind `<`.
fn less(bound: &str) -> Option<Numbers>
    ensures { result ≡ meant.less_of bound.now }
{
    match behind_mark(bound, '=') {
        Some(most) => Some(within(i64::MIN, integer(most)?)),
        None => below(bound),
    }
}

// Each number but that of a word.
fn all_but(word: &str) -> Option<Numbers>
    ensures { result ≡ meant.not_if (meant.number_named word.now) }
{
    Some(Numbers::Not(number_named(word)?))
}

// The number of a word alone.
fn only(word: &str) -> Option<Numbers>
    ensures { result ≡ meant.only_if (meant.number_named word.now) }
{
    let number = number_named(word)?;
    Some(within(number, number))
}

// The numbers that a word stands for.
#[tactic(auto, unfolding(crate::specs::Notation::numbers_of))]
fn numbers(word: &str) -> Option<Numbers>
    ensures { result ≡ meant.numbers_of word.now }
{
    if word == "*" {
        return Some(Numbers::Any);
    }
    if let Some(other) = behind_mark(word, '!') {
        return all_but(other);
    }
    if let Some((least, rest)) = around_mark(word, '.') {
        return interval(least, rest);
    }
    if let Some((one, other)) = around_mark(word, '|') {
        return either(one, other);
    }
    if let Some(bound) = behind_mark(word, '>') {
        return greater(bound);
    }
    if let Some(bound) = behind_mark(word, '<') {
        return less(bound);
    }
    only(word)
}

// The end of a pipe of a word.
fn end(word: &str) -> Option<Thing>
    ensures { result ≡ meant.end_of word.now }
{
    match word {
        "read-end" => Some(Thing::ReadEnd),
        "write-end" => Some(Thing::WriteEnd),
        _ => None,
    }
}

// The thing of a word.
fn thing(word: &str) -> Option<Thing>
    ensures { result ≡ meant.thing_of word.now }
{
    match word {
        "nothing" => Some(Thing::Nothing),
        "console" => Some(Thing::Console),
        "file" => Some(Thing::File),
        _ => end(word),
    }
}

// The things that a word stands for.
fn things(word: &str) -> Option<Things>
    ensures { result ≡ meant.things_of word.now }
{
    match behind_mark(word, '!') {
        Some(other) => Some(Things::Not(thing(other)?)),
        None => Some(Things::Only(thing(word)?)),
    }
}

// Whether a byte is a letter.
fn is_letter(byte: u8) -> bool
    ensures { result ≡ is_ascii_alphabetic byte }
{
    byte.is_ascii_alphabetic()
}

// Whether a word has a letter.
fn has_letter(word: &str) -> bool
    ensures { result ≡ list_any is_ascii_alphabetic word.now }
{
    word.as_bytes().iter().any(|byte| is_letter(*byte))
}

// The numbers that a word without letters stands for: an argument is no kernel call.
fn argument(word: &str) -> Option<Numbers>
    ensures { result ≡ meant.argument_of word.now }
{
    if has_letter(word) {
        return None;
    }
    numbers(word)
}

// The numbers of an argument that may be left out: then each.
fn argument_if_any(words: &[&str], place: usize) -> Option<Numbers>
    ensures { result ≡ meant.argument_if (slice_get (map (λ word. word.now) words.now) place) }
{
    match words.get(place) {
        Some(word) => argument(word),
        None => Some(Numbers::Any),
    }
}

/// What the first argument of a call has to be.
#[derive(Clone, Copy)]
struct First {
    numbers: Numbers,
    /// What the descriptor has to name that it is.
    on: Things,
    /// Of which pipe that has to be an end.
    pipe: Pipes,
}

// The pipe of the number that a word is, from 1 on.
fn numbered(word: &str) -> Option<Pipes>
    ensures { result ≡ meant.numbered (meant.integer_of word.now) }
{
    let number = integer(word)?;
    if number < 1 {
        return None;
    }
    Some(Pipes::Only(number.unsigned_abs()))
}

// The pipe that a word means.
fn pipe(word: &str) -> Option<Pipes>
    ensures { result ≡ meant.pipe_of word.now }
{
    match word {
        "a" => Some(Pipes::Called(Letter::A)),
        "b" => Some(Pipes::Called(Letter::B)),
        "c" => Some(Pipes::Called(Letter::C)),
        _ => numbered(word),
    }
}

// An end of a pipe, by the words before the mark and behind it.
fn end_on(thing: &str, which: &str) -> Option<First>
    ensures { result ≡ meant.end_on (meant.end_of thing.now) (meant.pipe_of which.now) }
{
    Some(First {
        numbers: Numbers::Any,
        on: Things::Only(end(thing)?),
        pipe: pipe(which)?,
    })
}

// Things, or numbers, that a word without the mark stands for.
fn first_on(word: &str) -> Option<First>
    ensures { result ≡ meant.first_on (meant.things_of word.now) (meant.argument_of word.now) }
{
    if let Some(on) = things(word) {
        return Some(First {
            numbers: Numbers::Any,
            on,
            pipe: Pipes::Any,
        });
    }
    Some(First {
        numbers: argument(word)?,
        on: Things::Any,
        pipe: Pipes::Any,
    })
}

// What the first argument has to be, by its word: an end of one pipe, things, or numbers.
fn first_of(word: &str) -> Option<First>
    ensures { result ≡ meant.first_of (Some word.now) }
{
    match around_mark(word, '@') {
        Some((thing, which)) => end_on(thing, which),
        None => first_on(word),
    }
}

// What the first of these words stands for as an argument.
fn first_argument(words: &[&str]) -> Option<First>
    ensures { result ≡ meant.first_of (slice_get (map (λ word. word.now) words.now) 0) }
{
    match words.get(0) {
        Some(word) => first_of(word),
        None => None,
    }
}

// What a call has to be given, by the words behind `given`: its arguments, and the first byte of a write.
fn asking(words: &[&str]) -> Option<Asking>
    ensures { result ≡ meant.asking_of (map (λ word. word.now) words.now) }
{
    if words.len() > WORDS_GIVEN {
        return None;
    }
    let first = first_argument(words)?;
    Some(Asking {
        first: first.numbers,
        second: argument_if_any(words, 1)?,
        third: argument_if_any(words, 2)?,
        byte: argument_if_any(words, 3)?,
        on: first.on,
        pipe: first.pipe,
    })
}

// The pattern of a line of a kind and one number.
fn pattern_of_one(kind: &str, who: Numbers) -> Option<Pattern>
    ensures { result ≡ meant.pattern_of_one kind.now who }
{
    if kind == "turn" {
        Some(Pattern::Turn { pid: who })
    } else {
        None
    }
}

// The pattern of a line of a kind and two numbers.
fn pattern_of_two(kind: &str, who: Numbers, what: Numbers) -> Option<Pattern>
    ensures { result ≡ meant.pattern_of_two kind.now who what }
{
    match kind {
        "block" => Some(Pattern::Blocked {
            pid: who,
            number: what,
            given: Asking::ANYTHING,
        }),
        "exit" => Some(Pattern::Exited {
            pid: who,
            status: what,
        }),
        "fault" => Some(Pattern::Faulted {
            pid: who,
            cause: what,
        }),
        _ => None,
    }
}

// The pattern of a line of a kind and three numbers.
fn pattern_of_three(kind: &str, who: Numbers, call: Numbers, answers: Numbers) -> Option<Pattern>
    ensures { result ≡ meant.pattern_of_three kind.now who call answers }
{
    if kind == "call" {
        Some(Pattern::Called {
            pid: who,
            number: call,
            answer: answers,
            given: Asking::ANYTHING,
        })
    } else {
        None
    }
}

// The pattern of a line, whatever a call was given.
fn pattern_of_line(words: &[&str]) -> Option<Pattern>
    ensures { result ≡ meant.pattern_of_line (map (λ word. word.now) words.now) }
{
    match words {
        [kind, who] => pattern_of_one(kind, numbers(who)?),
        [kind, who, what] => pattern_of_two(kind, numbers(who)?, numbers(what)?),
        [kind, who, call, answers] => {
            pattern_of_three(kind, numbers(who)?, numbers(call)?, numbers(answers)?)
        }
        _ => None,
    }
}

// The pattern of calls that were given this, of one of any calls.
fn with_asking(pattern: Pattern, given: Asking) -> Option<Pattern>
    ensures { result ≡ meant.with_asking pattern given }
{
    match pattern {
        Pattern::Called {
            pid,
            number,
            answer,
            ..
        } => Some(Pattern::Called {
            pid,
            number,
            answer,
            given,
        }),
        Pattern::Blocked { pid, number, .. } => Some(Pattern::Blocked { pid, number, given }),
        _ => None,
    }
}

// The pattern of a line, and of what its call has to be given.
fn pattern_of_both(line: &[&str], given: &[&str]) -> Option<Pattern>
    ensures { result ≡ meant.with_both (meant.pattern_of_line (map (λ word. word.now) line.now)) (meant.asking_of (map (λ word. word.now) given.now)) }
{
    with_asking(pattern_of_line(line)?, asking(given)?)
}

// Whether a word is `given`.
fn is_given(word: &str) -> bool
    ensures { result ≡ meant.is_word (codes "given") word.now }
{
    word == "given"
}

// The place of the first word `given`, if there is one.
fn place_of_given(words: &[&str]) -> Option<usize>
    ensures { result ≡ position (λ word. meant.is_word (codes "given") word.now) words.now }
{
    words.iter().position(|word| is_given(word))
}

// The pattern of words.
fn pattern_of_words(words: &[&str]) -> Option<Pattern>
    ensures { result ≡ meant.pattern_of_words (map (λ word. word.now) words.now) }
{
    match place_of_given(words) {
        Some(place) => pattern_of_both(&words[..place], &words[place + 1..]),
        None => pattern_of_line(words),
    }
}

// The words of a text.
fn words_of(alloc: Global, text: &str) -> Result<Vec<&str>, AllocError>
    ensures { IfOk result (λ words. map (λ word. word.now) words.items ≡ meant.words text.now) }
{
    text.split(' ').collect(alloc)
}

/// The pattern that a text stands for: the words of a line of a trace, of the kinds `turn`, `call`, `block`, `exit` and
/// `fault`, with a blank between them. In place of a number may stand `*` for each, `!N` for each but N, `>N`, `>=N`,
/// `<N`, `<=N`, `N..M` for those from N to M, `N|M` for one of the two, and the name of a kernel call for its number.
///
/// Behind a `call` or a `block` may stand `given`, and what the call has to be given: its three arguments, and the first
/// byte of a write; those at the end may be left out. In place of the first may stand what that descriptor names: `nothing`,
/// `console`, `file`, `read-end` or `write-end`, or `!` and one of them for all else. `read-end@2` is that of the second pipe
/// that was made in the run, `read-end@a` of the one that the rule calls `a`. `None` for any other text.
///
/// # Errors
///
/// [`AllocError`] if the host has too little memory.
pub fn pattern(alloc: Global, text: &str) -> Result<Option<Pattern>, AllocError>
    ensures told { IfOk result (λ found. found ≡ meant.pattern_of text.now) }
{
    let words = words_of(alloc, text)?;
    Ok(pattern_of_words(words.as_slice()))
}

// The name of the kernel call of a note, if it is one's.
fn name_of(note: Note) -> Option<&'static str> {
    match note {
        Note::Called { number, .. } => call_name(number),
        Note::Blocked { number, .. } => call_name(number),
        _ => None,
    }
}

/// A note as an exercise has it: the line of a trace, with the name of the call for its number.
#[derive(Clone, Copy)]
pub struct Named(pub Note);

impl fmt::Display for Named {
    fn fmt<W: fmt::Write>(&self, f: &mut fmt::Formatter<W>) -> fmt::Result {
        let Some(name) = name_of(self.0) else {
            return self.0.fmt(f);
        };
        match self.0 {
            Note::Called { pid, value, .. } => write!(f, "call {pid} {name} {value}"),
            Note::Blocked { pid, .. } => write!(f, "block {pid} {name}"),
            note => note.fmt(f),
        }
    }
}
