//! What a command line says of a record that is to be played.
ghost use Rattle.std.specs.Prelude.{◌≡◌, ◌≤◌, IfErr, IfOk, IfSome, Some, length, option_map, string_bytes};
ghost use Rattle.program_files.specs.Given.{text_of};
ghost use Rattle.recorded_runs.specs.Asked as meant;
ghost use Rattle.recorded_runs.specs.Asked.{AreGiven, IsGivenSomehow, IsWantOfMemory};

use program_files::exit_statuses::WORDS_REFUSED;
use program_files::{
    CommandWord, FRAMES, Given, NumberOption, QUANTUM, ROUNDS, SettingsError, WordsError, words,
};
use std::io::Write;
use std::rt::Env;
use thiserror::Error;

const REPLAY: &str = "replay";

const AT: &str = "at";

/// `--replay`: the path of a record.
pub const REPLAY_WORD: CommandWord = CommandWord::Text {
    name: REPLAY,
    value: "PATH",
    help: "Play the record of this file, which a terminal has kept",
};

/// `--at`: how many of the record's events are played.
pub const AT_WORD: CommandWord = CommandWord::Text {
    name: AT,
    value: "N",
    help: "Play the first N events of the record alone",
};

/// The options of a run in rounds that a record tells itself, so that they can't stand beside it.
pub const TOLD_BY_RECORD: [&NumberOption; 3] = [&FRAMES, &ROUNDS, &QUANTUM];

/// What the words of a command line say of a record.
#[derive(Drop)]
pub struct ReplayWords {
    /// The path of the record.
    pub path: Option<String>,
    /// How many events are to be played, as it was written.
    pub at: Option<String>,
    /// The name of an option that is given, and doesn't go with a record.
    pub beside: Option<&'static str>,
}

/// A record that is to be played.
#[derive(Clone, Copy)]
pub struct Replay<'a> {
    /// The path of its file.
    pub path: &'a str,
    /// How many of its events are played; all if `None`.
    pub at: Option<u64>,
}

/// Why words about a record are refused.
#[derive(Clone, Copy, Debug, Error)]
pub enum ReplayRefusal<'a> {
    /// There is no record that `--at` could be a place in.
    #[error("--at N goes with --replay PATH: it is a place in a record")]
    NoRecord,
    /// This is no number of events.
    #[error("--at {0}: it takes a number of events, 0 to 18446744073709551615")]
    NoNumber(&'a str),
    /// The option of this name doesn't go with a record.
    #[error("--{0} doesn't go with --replay: the record tells it")]
    Beside(&'static str),
}

impl ReplayRefusal<'_> {
    /// Tells the refusal, under the name of the program, and gives the exit status. A line that can't be written is left
    /// out.
    pub fn close<E: Write>(&self, name: &str, errors: &mut E) -> u8
        ensures { result ≡ 1 }
    {
        let _ = writeln!(errors, "{name}: {self}");
        WORDS_REFUSED
    }
}

// What stands in a text after this beginning, if it begins so.
fn after<'a>(text: &'a [u8], beginning: &[u8]) -> Option<&'a [u8]>
    ensures { option_map (λ rest. rest.now) result ≡ meant.after text.now beginning.now }
{
    match text.strip_prefix(beginning) {
        Some(rest) => Some(rest),
        None => None,
    }
}

// Whether an option's name ends before this: nothing, or `=`.
fn ends_name(rest: &[u8]) -> bool
    ensures { result ≡ meant.ends_name (Some rest.now) }
{
    match rest.first() {
        Some(byte) => *byte == b'=',
        None => true,
    }
}

// Whether a text begins with this name, and the name ends there.
fn is_named(text: &[u8], name: &str) -> bool
    ensures { result ≡ meant.is_named (Some text.now) name.now }
{
    match after(text, name.as_bytes()) {
        Some(rest) => ends_name(rest),
        None => false,
    }
}

// Whether a word is the option of this name, alone or with its value.
fn is_option(word: &str, name: &str) -> bool
    ensures { result ≡ meant.is_option word.now name.now }
{
    match after(word.as_bytes(), b"--") {
        Some(text) => is_named(text, name),
        None => false,
    }
}

// The name of the first of these options that a word is.
fn option_of(word: &str, options: &[&'static NumberOption]) -> Option<&'static str>
    ensures { option_map (λ name. name.now) result ≡ meant.option_of word.now options.now }
{
    let option = options.iter().find(|option| is_option(word, option.name))?;
    Some(option.name)
}

// Whether behind a word there are no options.
fn is_end(word: &str) -> bool
    ensures { result ≡ meant.is_end word.now }
{
    word == "--"
}

// The place of the first `--` among words.
fn end_place(words: &[String]) -> Option<usize>
    ensures place { result ≡ meant.end_place words.now }
    ensures bound { IfSome result (λ place. place ≤ length words.now) }
{
    words.iter().position(|word| is_end(word.as_str()))
}

// The words before the first `--`.
fn before_end(words: &[String]) -> &[String]
    ensures { result.now ≡ meant.before_end words.now }
{
    match end_place(words) {
        Some(place) => &words[..place],
        None => words,
    }
}

// Whether a word is one of these options.
fn is_any(word: &str, options: &[&'static NumberOption]) -> bool
    ensures { result ≡ meant.is_any word.now options.now }
{
    option_of(word, options).is_some()
}

// The first of these words that is one of these options.
fn option_word<'a>(words: &'a [String], options: &[&'static NumberOption]) -> Option<&'a String>
    ensures { option_map (λ word. word.now) result ≡ meant.option_word words.now options.now }
{
    words.iter().find(|word| is_any(word.as_str(), options))
}

// The name of the option that the first of these words is that is one.
fn option_in(words: &[String], options: &[&'static NumberOption]) -> Option<&'static str>
    ensures { option_map (λ name. name.now) result ≡ meant.option_in words.now options.now }
{
    match option_word(words, options) {
        Some(word) => option_of(word.as_str(), options),
        None => None,
    }
}

// The text of an option, if it is given.
fn text_of(given: &Given, name: &str) -> Result<Option<String>, WordsError>
    ensures text { IfOk result (λ text. option_map (λ t. string_bytes t) text ≡ text_of given.now.words.items name.now) }
    ensures refused { IfErr result IsWantOfMemory }
{
    match given.text(name) {
        Ok(text) => Ok(text),
        Err(_) => Err(WordsError::Settings(SettingsError::Memory)),
    }
}

// What all words of a command line, and what they give, say of a record.
fn said_of(
    all: &[String],
    given: &Given,
    others: &[&'static NumberOption],
) -> Result<ReplayWords, WordsError>
    ensures given { IfOk result (λ asked. AreGiven all.now given.now.words.items others.now asked) }
    ensures refused { IfErr result IsWantOfMemory }
{
    Ok(ReplayWords {
        path: text_of(given, REPLAY)?,
        at: text_of(given, AT)?,
        beside: option_in(before_end(all), others),
    })
}

/// What the words of a command line say of a record, beside which these options can't be given. That the words are those
/// of the host no contract tells: it is tested (`checks/words`).
///
/// # Errors
///
/// The host has too little memory.
pub fn replay_words<R: Env + AllocGlobal>(
    rt: &R,
    given: &Given,
    others: &[&'static NumberOption],
) -> Result<ReplayWords, WordsError>
    ensures given { IfOk result (IsGivenSomehow given.now.words.items others.now) }
    ensures refused { IfErr result IsWantOfMemory }
{
    let Ok(all) = words(rt) else {
        return Err(WordsError::NoWords);
    };
    said_of(all.as_slice(), given, others)
}

impl ReplayWords {
    ghost use Rattle.recorded_runs.specs.Asked.{IsAsked, IsRefused};

    /// The record that is to be played, if there is one.
    ///
    /// # Errors
    ///
    /// The words don't go together, or have no number of events.
    pub fn replay(&self) -> Result<Option<Replay<'_>>, ReplayRefusal<'_>>
        ensures asked { IfOk result (λ r. IsAsked self.now r) }
        ensures refused { IfErr result (λ e. IsRefused self.now e) }
    {
        let Some(path) = &self.path else {
            return match self.at {
                Some(_) => Err(ReplayRefusal::NoRecord),
                None => Ok(None),
            };
        };
        if let Some(name) = self.beside {
            return Err(ReplayRefusal::Beside(name));
        }
        let path = path.as_str();
        let Some(at) = &self.at else {
            return Ok(Some(Replay { path, at: None }));
        };
        match at.parse::<u64>() {
            Ok(at) => Ok(Some(Replay { path, at: Some(at) })),
            Err(_) => Err(ReplayRefusal::NoNumber(at.as_str())),
        }
    }
}
