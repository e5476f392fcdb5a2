//! A program's command line, as data, and as `clap` is told of it.
use crate::arguments::SettingsError;
use crate::options::NumberOption;
use clap::error::ErrorKind;
use clap::{Arg, ArgAction, Command};
use std::alloc::Global;

/// What a program's command line may have, and what `--help` says of it.
pub struct CommandLine {
    /// The program's name.
    pub name: &'static str,
    /// What the program does.
    pub about: &'static str,
    /// What stands below the list of options in the text of `--help`.
    pub more_help: &'static str,
    /// The words that it may have, in the order in which `--help` shows them.
    pub words: &'static [CommandWord],
}

/// A word of a command line, or an option with its value.
pub enum CommandWord {
    /// An option that takes a number.
    Number(&'static NumberOption),
    /// An option that takes a text. `--help` calls the text by `value`.
    Text {
        name: &'static str,
        value: &'static str,
        help: &'static str,
    },
    /// An option without a value.
    Flag {
        name: &'static str,
        help: &'static str,
    },
    /// A word that has to be given.
    Needed {
        name: &'static str,
        help: &'static str,
    },
    /// A word that may be given, behind those that have to be.
    Optional {
        name: &'static str,
        help: &'static str,
    },
    /// The FILEs, of which there is one at least.
    Files,
}

/// The name of the FILEs.
pub(crate) const FILE: &str = "FILE";

const FILE_HELP: &str = "A program, or a file for programs to read";

// An option of this name, without its two hyphens.
fn option<'a>(alloc: Global, name: &'a str, help: &'a str) -> Arg<'a> {
    Arg::new(alloc, name).long(name).help(help)
}

// An option that takes a number, which lies in its range.
fn number_option<'a>(alloc: Global, number: &'a NumberOption) -> Arg<'a> {
    let range = i64::from(number.least)..=i64::from(number.most);
    option(alloc, number.name, number.help)
        .value_name("N")
        .value_parser(clap::value_parser!(u32).range(range))
        .default_value(number.default)
}

impl CommandWord {
    /// The name by which its values are asked for.
    pub(crate) fn name(&self) -> &'static str {
        match self {
            CommandWord::Number(number) => number.name,
            CommandWord::Text { name, .. }
            | CommandWord::Flag { name, .. }
            | CommandWord::Needed { name, .. }
            | CommandWord::Optional { name, .. } => name,
            CommandWord::Files => FILE,
        }
    }

    // The word, as `clap` is told of it.
    fn argument(&'static self, alloc: Global) -> Arg<'static> {
        match self {
            CommandWord::Number(number) => number_option(alloc, number),
            CommandWord::Text { name, value, help } => option(alloc, name, help).value_name(value),
            CommandWord::Flag { name, help } => {
                option(alloc, name, help).action(ArgAction::SetTrue)
            }
            CommandWord::Needed { name, help } => Arg::new(alloc, name).required(true).help(help),
            CommandWord::Optional { name, help } => Arg::new(alloc, name).help(help),
            CommandWord::Files => Arg::new(alloc, FILE)
                .required(true)
                .num_args(1..)
                .help(FILE_HELP),
        }
    }
}

impl CommandLine {
    /// The command line, as `clap` is told of it.
    pub(crate) fn command<'a>(&'static self, alloc: Global) -> Result<Command<'a>, clap::Error> {
        let mut arguments = Vec::new(alloc);
        for word in self.words {
            arguments.push(word.argument(alloc))?;
        }
        let command = Command::new(alloc, self.name)
            .about(self.about)
            .after_help(self.more_help)
            .args(arguments)?;
        Ok(command)
    }

    /// The refusal of a command line, in the form of those that `clap` makes.
    pub(crate) fn refused(
        &'static self,
        alloc: Global,
        kind: ErrorKind,
        message: &str,
    ) -> SettingsError {
        let mut command = match self.command(alloc) {
            Ok(command) => command,
            Err(error) => return SettingsError::Words(error),
        };
        match command.error(kind, message) {
            Ok(error) => SettingsError::Words(error),
            Err(error) => SettingsError::Words(clap::Error::from(error)),
        }
    }
}
