//! Why a line is no word.
use crate::topics::Topic;
use std::fmt::{self, Display};

/// What is wrong with a line.
#[derive(Clone, Copy)]
pub enum WordErrorKind<'a> {
    /// It begins with no word of the debugger's.
    Unknown(&'a str),
    /// This is no number, and no name that is known.
    NotANumber(&'a str),
    /// This number isn't in its range.
    OutOfRange {
        text: &'a str,
        least: u64,
        most: u64,
    },
    /// Something is missing.
    Missing(&'static str),
    /// This is one word too many.
    TooMuch(&'a str),
    /// This is none of the things that may stand here.
    NotThis {
        text: &'a str,
        wanted: &'static str,
    },
    /// A backslash with nothing that it can stand for.
    BadEscape(&'a str),
    /// There are more keys than a word types.
    TooManyKeys,
}

/// Why a line isn't obeyed. It changes nothing.
#[derive(Clone, Copy)]
pub struct WordError<'a> {
    pub kind: WordErrorKind<'a>,
    /// The word that the line begins with, if there is one.
    pub topic: Option<Topic>,
}

impl<'a> WordErrorKind<'a> {
    /// What is told of a text, before it and behind it, with the quotes around it.
    fn around(self) -> (&'static str, &'static str) {
        match self {
            WordErrorKind::Unknown(_) => ("there is no word \"", "\""),
            WordErrorKind::NotANumber(_) => ("\"", "\" is no number, and no name that is known"),
            WordErrorKind::TooMuch(_) => ("\"", "\" is too much"),
            WordErrorKind::Missing(_) => ("", " is missing"),
            _ => ("\"", "\" stands for no key: \\n \\b \\t \\s \\\\ \\xHH do"),
        }
    }
}

/// Writes that a number isn't in its range.
fn write_out_of_range<W: fmt::Write>(
    text: &str,
    least: u64,
    most: u64,
    f: &mut fmt::Formatter<W>,
) -> fmt::Result {
    write!(f, "{text} isn't in the range {least} to {most}")
}

/// Writes a text, and what is told of it.
fn write_around<W: fmt::Write>(
    text: &str,
    around: (&str, &str),
    f: &mut fmt::Formatter<W>,
) -> fmt::Result {
    let (before, behind) = around;
    write!(f, "{before}{text}{behind}")
}

/// Writes that a text stands where something else is wanted.
fn write_not_this<W: fmt::Write>(
    text: &str,
    wanted: &str,
    f: &mut fmt::Formatter<W>,
) -> fmt::Result {
    write!(f, "\"{text}\" stands where {wanted} is wanted")
}

impl<'a> fmt::Display for WordErrorKind<'a> {
    fn fmt<W: fmt::Write>(&self, f: &mut fmt::Formatter<W>) -> fmt::Result {
        let kind = *self;
        match kind {
            WordErrorKind::Unknown(text)
            | WordErrorKind::NotANumber(text)
            | WordErrorKind::TooMuch(text)
            | WordErrorKind::Missing(text)
            | WordErrorKind::BadEscape(text) => write_around(text, kind.around(), f),
            WordErrorKind::OutOfRange { text, least, most } => {
                write_out_of_range(text, least, most, f)
            }
            WordErrorKind::NotThis { text, wanted } => write_not_this(text, wanted, f),
            WordErrorKind::TooManyKeys => f.write_str("more than 128 keys"),
        }
    }
}

/// What is wrong, and what is allowed.
impl<'a> fmt::Display for WordError<'a> {
    fn fmt<W: fmt::Write>(&self, f: &mut fmt::Formatter<W>) -> fmt::Result {
        self.kind.fmt(f)?;
        match self.topic {
            None => f.write_str(": help lists the words"),
            Some(topic) => write_usage(topic, f),
        }
    }
}

/// Writes how a word is written.
fn write_usage<W: fmt::Write>(topic: Topic, f: &mut fmt::Formatter<W>) -> fmt::Result {
    let usage = topic.usage();
    let name = topic.name();
    write!(f, "\nit is: {usage}; help {name} tells more")
}
