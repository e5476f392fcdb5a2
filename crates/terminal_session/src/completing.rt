//! What Tab writes out at the prompt: the debugger's words, and after them the goals of `until`, the names of programs, and
//! those of their labels and symbols.
use debug_words::{Topic, show_help};
use std::alloc::{AllocError, Global};
use std::str;
use xv_debug::Debugger;
use xv_report::ProgramSource;
use xv_session::Session;

/// What is known of how a word goes on that was begun.
#[derive(Drop)]
struct Rest {
    /// The bytes that each word has which begins so.
    common: String,
    /// How many there are. (It may count one again that came before, if there are others.)
    count: usize,
}

// How many characters of two texts are alike, from their beginnings on.
fn alike(one: &str, other: &str) -> usize {
    let mut count = 0;
    for (a, b) in one.as_bytes().iter().zip(other.as_bytes().iter()) {
        if *a != *b {
            return count;
        }
        count = count.saturating_add(1);
    }
    count
}

// Whether all bytes of a name are printable, and none is a blank. A file may hold others, which no prompt shows.
fn can_be_typed(name: &[u8]) -> bool {
    name.iter().all(|byte| byte.is_ascii_graphic())
}

impl Rest {
    // Another word: if it begins so, what it has in common with those before is left.
    fn add(&mut self, alloc: Global, begun: &str, word: &str) -> Result<(), AllocError> {
        let Some(rest) = word.strip_prefix(begun) else {
            return Ok(());
        };
        if self.count == 1 && rest == self.common.as_str() {
            return Ok(());
        }
        let kept = if self.count == 0 {
            rest
        } else {
            rest.get(..alike(rest, self.common.as_str())).unwrap_or("")
        };
        self.common = String::from_str(alloc, kept)?;
        self.count = self.count.saturating_add(1);
        Ok(())
    }

    // Words at the heads of lines, but for one with a form.
    fn add_heads(&mut self, alloc: Global, begun: &str, text: &str) -> Result<(), AllocError> {
        for line in text.split('\n') {
            let word = line.split_whitespace().next().unwrap_or("");
            if !word.contains('/') {
                self.add(alloc, begun, word)?;
            }
        }
        Ok(())
    }

    // The goals that help tells of `until`: what stands behind that word in a line.
    fn add_goals(&mut self, alloc: Global, begun: &str, text: &str) -> Result<(), AllocError> {
        for line in text.split('\n') {
            if let Some(behind) = line.strip_prefix("until ") {
                let goal = behind.split_whitespace().next().unwrap_or("");
                let goal = goal.strip_prefix('[').unwrap_or(goal);
                self.add(alloc, begun, goal.strip_suffix(']').unwrap_or(goal))?;
            }
        }
        Ok(())
    }

    // The labels and symbols of a program, as far as they can be typed. (What begins with `$` is read as a register.)
    fn add_names(
        &mut self,
        alloc: Global,
        begun: &str,
        source: &ProgramSource<'_>,
    ) -> Result<(), AllocError> {
        for place in 0..source.name_count() {
            let name = source.nth_name(place).unwrap_or(b"");
            if can_be_typed(name) && !name.starts_with(b"$") {
                self.add(alloc, begun, str::from_utf8(name).unwrap_or(""))?;
            }
        }
        Ok(())
    }

    // The name of a program, alone and with a colon, behind which its labels and symbols stand.
    fn add_program(
        &mut self,
        alloc: Global,
        begun: &str,
        name: &str,
        source: &ProgramSource<'_>,
    ) -> Result<(), AllocError> {
        let with_colon = format!(in alloc; "{name}:")?;
        self.add(alloc, begun, name)?;
        self.add(alloc, begun, with_colon.as_str())?;
        match begun.strip_prefix(with_colon.as_str()) {
            Some(behind) => self.add_names(alloc, behind, source),
            None => Ok(()),
        }
    }

    // The names of programs.
    fn add_programs(
        &mut self,
        alloc: Global,
        begun: &str,
        session: &Session,
        debugger: &Debugger,
    ) -> Result<(), AllocError> {
        for (place, program) in session.machine().programs().iter().enumerate() {
            if let Ok(name) = str::from_utf8(program.name.as_slice()) {
                let source = debugger.source(session, Some(place));
                self.add_program(alloc, begun, name, &source)?;
            }
        }
        Ok(())
    }
}

// A name, without the `&` or `*` that may stand before it.
fn without_sign(word: &str) -> &str {
    let word = word.strip_prefix('&').unwrap_or(word);
    word.strip_prefix('*').unwrap_or(word)
}

// How a word goes on that was begun, at the head of a line or behind other words.
fn found(
    alloc: Global,
    session: &Session,
    debugger: &Debugger,
    begun: &str,
    is_first: bool,
) -> Result<Rest, AllocError> {
    let mut rest = Rest {
        common: String::new(alloc),
        count: 0,
    };
    let mut text = String::new(alloc);
    if is_first {
        show_help(None, &mut text)?;
        rest.add_heads(alloc, begun, text.as_str())?;
    } else {
        show_help(Some(Topic::Until), &mut text)?;
        rest.add_goals(alloc, begun, text.as_str())?;
        let name = without_sign(begun);
        rest.add_programs(alloc, name, session, debugger)?;
        rest.add_names(alloc, name, &debugger.source_looked_at(session))?;
    }
    Ok(rest)
}

/// What is left of the word that a line ends with, as far as it is one alone; with a blank, if there is no other.
pub fn rest_of_word(
    alloc: Global,
    session: &Session,
    debugger: &Debugger,
    line: &[u8],
) -> Result<String, AllocError> {
    let line = str::from_utf8(line).unwrap_or("");
    let (before, begun) = line.rsplit_once(' ').unwrap_or(("", line));
    let mut rest = found(alloc, session, debugger, begun, before.trim().is_empty())?;
    if rest.count == 1 {
        rest.common.push(' ')?;
    }
    Ok(rest.common)
}
