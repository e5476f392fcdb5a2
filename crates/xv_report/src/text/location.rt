//! Where addresses stand in the sources of programs.
ghost use Rattle.std.specs.Prelude.{◌≡◌, ◌||◌, is_some};

use crate::text::place::Name;
use std::fmt;

/// A function or a label, and how far behind its beginning an address stands.
#[derive(Clone, Copy)]
pub struct Function<'a> {
    pub name: &'a [u8],
    pub offset: u64,
}

/// A line of a source.
#[derive(Clone, Copy)]
pub enum Line<'a> {
    /// As a table tells it: `wc.c:12`.
    Told(&'a str),
    /// Of the source that the program of this name was assembled of: `wc.s:12`. Lines count from 1.
    Assembled { program: &'a [u8], line: usize },
}

impl<'a> fmt::Display for Line<'a> {
    fn fmt<W: fmt::Write>(&self, f: &mut fmt::Formatter<W>) -> fmt::Result {
        match *self {
            Line::Told(text) => f.write_str(text),
            Line::Assembled { program, line } => {
                let name = Name(program);
                write!(f, "{name}.s:{line}")
            }
        }
    }
}

/// Where an address stands in its program's source, as far as that is known: `<main+0x10>, wc.c:12`.
#[derive(Clone, Copy)]
pub struct Location<'a> {
    pub function: Option<Function<'a>>,
    pub line: Option<Line<'a>>,
}

impl<'a> Location<'a> {
    /// Whether its function or its line is known.
    pub fn is_known(&self) -> bool
        ensures { result ≡ (is_some self.now.function || is_some self.now.line) }
    {
        self.function.is_some() || self.line.is_some()
    }
}

impl<'a> fmt::Display for Location<'a> {
    fn fmt<W: fmt::Write>(&self, f: &mut fmt::Formatter<W>) -> fmt::Result {
        if let Some(function) = &self.function {
            let name = Name(function.name);
            let offset = function.offset;
            let end = if self.line.is_some() { ", " } else { "" };
            write!(f, "<{name}+{offset:#x}>{end}")?;
        }
        match &self.line {
            Some(line) => write!(f, "{line}"),
            None => Ok(()),
        }
    }
}
