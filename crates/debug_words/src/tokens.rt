//! The words of a line, one behind another.
ghost use Rattle.std.specs.Prelude.{◌≡◌, IfErr, IfOk, option_map};
ghost use Rattle.debug_words.specs.Tokens.{IsTooMuch, word_at};

use crate::fault::WordErrorKind;

/// The most words that a line may have.
const TOKENS_MOST: usize = 8;

/// The words of a line: the first ones, as many as any line may have, and one more.
#[derive(Clone, Copy)]
pub(crate) struct Tokens<'a> {
    tokens: [&'a str; TOKENS_MOST],
    count: usize,
}

impl<'a> Tokens<'a> {
    /// Those of a line.
    pub(crate) fn of(line: &'a str) -> Tokens<'a> {
        let mut tokens = [""; TOKENS_MOST];
        let mut count: usize = 0;
        for token in line.split_whitespace() {
            if count < TOKENS_MOST {
                tokens[count] = token;
                count += 1;
            }
        }
        Tokens { tokens, count }
    }

    /// The one at a place; `None` where there are fewer.
    pub fn get(&self, place: usize) -> Option<&'a str>
        ensures { option_map (λ w. w.now) result ≡ word_at self.now place }
    {
        if place < self.count && place < TOKENS_MOST {
            Some(self.tokens[place])
        } else {
            None
        }
    }

    /// That there is none at a place.
    pub fn end(&self, place: usize) -> Result<(), WordErrorKind<'a>>
        ensures none { IfOk result (λ _. word_at self.now place ≡ None) }
        ensures told { IfErr result (IsTooMuch (word_at self.now place)) }
    {
        match self.get(place) {
            None => Ok(()),
            Some(token) => Err(WordErrorKind::TooMuch(token)),
        }
    }
}
