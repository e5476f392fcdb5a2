//! What the words of a command line give.
ghost use Rattle.std.specs.Prelude.{◌≡◌, ◌≤◌, ◌<◌, IfOk, option_map, string_bytes, vec_len};
ghost use Rattle.program_files.specs.Given.{first_of, is_set, text_of, texts_of, word_of};

use crate::arguments::{SettingsError, WordsError, words};
use crate::command_line::{CommandLine, FILE};
use crate::options::NumberOption;
use clap::error::ErrorKind as ClapErrorKind;
use std::alloc::{AllocError, Global};
use std::convert::AsStr;
use std::io::ErrorKind;
use std::rt::Env;

// What the words give for one of a command line's words.
#[derive(Drop)]
struct GivenWord {
    name: &'static str,
    texts: Vec<String>,
}

/// What the words of a command line give.
#[derive(Drop)]
pub struct Given {
    alloc: Global,
    line: &'static CommandLine,
    words: Vec<GivenWord>,
}

// A copy of each of these texts.
fn copies<S: AsStr>(alloc: Global, texts: &[S]) -> Result<Vec<String>, AllocError> {
    let mut copies = Vec::new(alloc);
    for text in texts {
        copies.push(String::from_str(alloc, text.as_str())?)?;
    }
    Ok(copies)
}

// What is given for the word of this name.
fn word_of<'a>(words: &'a [GivenWord], name: &str) -> Option<&'a GivenWord>
    ensures { option_map (λ word. word.now) result ≡ word_of words.now name.now }
{
    words.iter().find(|word| word.name == name)
}

// The first of these texts.
fn first_of(texts: &[String]) -> Option<&str>
    ensures { option_map (λ text. text.now) result ≡ first_of texts.now }
{
    match texts.first() {
        Some(text) => Some(text.as_str()),
        None => None,
    }
}

impl Given {
    /// Reads the words of a command line, the program's name first.
    ///
    /// # Errors
    ///
    /// [`SettingsError::Words`] if a word has no place in the command line, if a number isn't in its range, if a word that
    /// has to be there is missing, if help is asked for, or if `clap` gets no memory: the error's text says which.
    /// [`SettingsError::Memory`] if the host has too little memory for what the words give.
    pub fn read<S: AsStr>(
        alloc: Global,
        line: &'static CommandLine,
        words: &[S],
    ) -> Result<Given, SettingsError> {
        let mut command = line.command(alloc)?;
        let matches = command.try_get_matches_from_mut(words)?;
        let mut given = Vec::new(alloc);
        for word in line.words {
            let texts = matches.get_strs(word.name()).unwrap_or(&[]);
            given.push(GivenWord {
                name: word.name(),
                texts: copies(alloc, texts)?,
            })?;
        }
        Ok(Given {
            alloc,
            line,
            words: given,
        })
    }

    // The texts that are given for the word of this name.
    fn texts(&self, name: &str) -> &[String]
        ensures { result.now ≡ texts_of self.now.words.items name.now }
    {
        match word_of(self.words.as_slice(), name) {
            Some(word) => word.texts.as_slice(),
            None => &[],
        }
    }

    // The first text that is given for the word of this name.
    fn first(&self, name: &str) -> Option<&str>
        ensures { option_map (λ text. text.now) result ≡ text_of self.now.words.items name.now }
    {
        first_of(self.texts(name))
    }

    /// The number of an option. It lies in its range.
    ///
    /// # Errors
    ///
    /// [`SettingsError::Words`] if it doesn't, or if the option isn't one of the command line's.
    pub fn number(&self, option: &NumberOption) -> Result<u32, SettingsError>
        ensures { IfOk result (λ n. (option.now.least ≤ n) × (n ≤ option.now.most)) }
    {
        let number = match self.first(option.name) {
            Some(text) => text.parse::<u32>().ok(),
            None => None,
        };
        match number {
            Some(n) if option.least <= n && n <= option.most => Ok(n),
            _ => Err(
                self.line.refused(
                    self.alloc,
                    ClapErrorKind::ValueValidation,
                    "the number is not in its range",
                ),
            ),
        }
    }

    /// The text of an option or of a word, if it is given.
    ///
    /// # Errors
    ///
    /// [`SettingsError::Memory`] if the host has too little memory for it.
    pub fn text(&self, name: &str) -> Result<Option<String>, SettingsError>
        ensures { IfOk result (λ text. option_map (λ t. string_bytes t) text ≡ text_of self.now.words.items name.now) }
    {
        match self.first(name) {
            Some(text) => Ok(Some(String::from_str(self.alloc, text)?)),
            None => Ok(None),
        }
    }

    /// Whether an option without a value is given.
    pub fn flag(&self, name: &str) -> bool
        ensures { result ≡ is_set (text_of self.now.words.items name.now) }
    {
        match self.first(name) {
            Some(text) => text == "true",
            None => false,
        }
    }

    /// The path of each FILE, of which there is at least one.
    ///
    /// # Errors
    ///
    /// [`SettingsError::Words`] if there is none, and [`SettingsError::Memory`] if the host has too little memory for the
    /// paths.
    pub fn files(&self) -> Result<Vec<String>, SettingsError>
        ensures { IfOk result (λ paths. 0 < vec_len paths) }
    {
        let paths = copies(self.alloc, self.texts(FILE))?;
        if paths.is_empty() {
            return Err(
                self.line.refused(
                    self.alloc,
                    ClapErrorKind::MissingRequiredArgument,
                    "no FILE is given",
                ),
            );
        }
        Ok(paths)
    }
}

/// The words of the host's command line, the program's name first.
///
/// # Errors
///
/// [`SettingsError::Words`] if a word isn't UTF-8, and [`WordsError::NoWords`] if the host has too little memory for the
/// words.
pub fn host_words<R: Env + AllocGlobal>(
    rt: &R,
    line: &'static CommandLine,
) -> Result<Vec<String>, WordsError> {
    match words(rt) {
        Ok(words) => Ok(words),
        Err(ErrorKind::InvalidData) => {
            let refusal = line.refused(
                rt.alloc(),
                ClapErrorKind::Format,
                "a word is not UTF-8 text",
            );
            Err(WordsError::Settings(refusal))
        }
        Err(_) => Err(WordsError::NoWords),
    }
}

/// What the words of the host's command line give.
///
/// # Errors
///
/// Those of [`host_words`] and of [`Given::read`].
pub fn given_words<R: Env + AllocGlobal>(
    rt: &R,
    line: &'static CommandLine,
) -> Result<Given, WordsError> {
    let words = host_words(rt, line)?;
    Ok(Given::read(rt.alloc(), line, words.as_slice())?)
}
