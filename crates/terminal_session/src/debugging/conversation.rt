//! Lines that are read, and their answers.
use crate::stopping::PROMPT;
use program_files::{Failure, put};
use std::alloc::{AllocError, Global};
use std::io::{BufRead, Write};
use xv_debug::{Debugger, Endless, Next};
use xv_session::Session;

/// What a person is told first.
const GREETING: &str = "The machine is booted, and stands still. help lists the words.\n";

/// The bytes of a line as text, without the line's end. A byte that is no printable character is read as `?`.
fn text_of(alloc: Global, bytes: &[u8]) -> Result<String, AllocError> {
    let mut text = String::new(alloc);
    for byte in bytes {
        match *byte {
            b'\n' | b'\r' => {}
            b'\t' => text.push('\t')?,
            32..=126 => text.push(char::from(*byte))?,
            _ => text.push('?')?,
        }
    }
    Ok(text)
}

/// The next line, without its end; `None` at the end of the input.
fn next_line<R: BufRead>(alloc: Global, input: &mut R) -> Result<Option<String>, Failure<'static>> {
    let mut bytes = Vec::new(alloc);
    match input.read_until(b'\n', &mut bytes) {
        Ok(0) => Ok(None),
        Ok(_) => Ok(Some(text_of(alloc, bytes.as_slice())?)),
        Err(_) => Err(Failure::Read),
    }
}

/// Writes a text, if a person reads it.
fn show<W: Write>(prompt: bool, text: &str, output: &mut W) -> Result<(), Failure<'static>> {
    if prompt {
        put(output, text.as_bytes())
    } else {
        Ok(())
    }
}

/// Writes a line again that was read, if no prompt stands before it.
fn repeat<W: Write>(prompt: bool, line: &str, output: &mut W) -> Result<(), Failure<'static>> {
    if prompt {
        return Ok(());
    }
    put(output, b"> ")?;
    put(output, line.as_bytes())?;
    put(output, b"\n")
}

/// A conversation: a session, and the debugger that looks into it.
#[derive(Drop)]
pub(crate) struct Conversation {
    pub session: Session,
    pub debugger: Debugger,
    /// Whether a prompt is written before each line is read, and the line isn't written again.
    pub prompt: bool,
}

impl Conversation {
    ghost use Rattle.std.specs.Prelude.{◌≡◌, false};
    ghost use Rattle.xv_debug.specs.Conversations.{Converses, MovesByWord};

    /// Does what a line says, and writes the answer.
    #[tactic(auto, using(xv_debug::proofs::Conversed::obeyed, xv_debug::proofs::Conversed::unanswered))]
    fn answer<W: Write>(
        &mut self,
        alloc: Global,
        line: &str,
        output: &mut W,
    ) -> Result<Next, Failure<'static>>
        ensures moves { MovesByWord false self.old.debugger.plan self.old.session self.new.session }
        ensures plan { self.new.debugger.plan ≡ self.old.debugger.plan }
    {
        let mut text = String::new(alloc);
        let next = self
            .debugger
            .obey(alloc, &mut self.session, line, &mut Endless, &mut text)?;
        put(output, text.as_str().as_bytes())?;
        Ok(next)
    }

    /// Reads a line, and does what it says. The result tells whether there may be another.
    fn exchange<R: BufRead, W: Write>(
        &mut self,
        alloc: Global,
        input: &mut R,
        output: &mut W,
    ) -> Result<bool, Failure<'static>>
        ensures moves { MovesByWord false self.old.debugger.plan self.old.session self.new.session }
        ensures plan { self.new.debugger.plan ≡ self.old.debugger.plan }
    {
        show(self.prompt, PROMPT, output)?;
        let Some(line) = next_line(alloc, input)? else {
            show(self.prompt, "\n", output)?;
            return Ok(false);
        };
        repeat(self.prompt, line.as_str(), output)?;
        let next = self.answer(alloc, line.as_str(), output)?;
        Ok(next == Next::Stays)
    }

    /// Does what lines say, up to the end of the input, or up to a word that ends it.
    ///
    /// # Errors
    ///
    /// The input or the output failed, or the host has too little memory for an answer.
    #[tactic(auto, using(xv_debug::proofs::Conversed::no_line, xv_debug::proofs::Conversed::one_more))]
    pub(crate) fn converse<R: BufRead, W: Write>(
        &mut self,
        alloc: Global,
        input: &mut R,
        output: &mut W,
    ) -> Result<(), Failure<'static>>
        ensures lines { Converses false self.old.debugger.plan self.old.session self.new.session }
        ensures plan { self.new.debugger.plan ≡ self.old.debugger.plan }
    {
        show(self.prompt, GREETING, output)?;
        for _ in 0..u64::MAX {
            if !self.exchange(alloc, input, output)? {
                return Ok(());
            }
        }
        Ok(())
    }
}
