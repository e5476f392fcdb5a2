//! The words of the command line.
use crate::NAME;
use program_files::{CommandLine, CommandWord, Given, SettingsError};
use std::alloc::Global;
use std::convert::AsStr;

/// What the words of a command line ask for: paths.
#[derive(Drop)]
pub struct Settings {
    /// The exercise's file.
    pub exercise: String,
    /// The folder of what was handed in; without it the names of the exercise's files are told.
    pub submission: Option<String>,
    /// The file whose bytes are the submission's name, if it isn't the folder's.
    pub name: Option<String>,
    /// The file that says, in lines `NAME: WHY`, which files aren't run.
    pub refused: Option<String>,
    /// The folder for the results.
    pub out: Option<String>,
    /// Whether the exercise's own files are told.
    pub inputs: bool,
    /// Whether the variant of the submission's student is told.
    pub variant: bool,
}

/// What stands below the list of options in the text of `--help`.
const MORE_HELP: &str = "\
The EXERCISE is a file of TOML, and SUBMISSION a folder. One line of CSV goes to standard output:
the submission's name, its points, of how many, what it comes to, and why.

Without a SUBMISSION the names of the files that may be handed in are shown, a line each. With --variant
the submission isn't read, and need not be there: its name says which variant its student has.

With --out these files are written into that folder, with N from 1 for each run:
  result.csv    the line of CSV
  result.xml    a test suite of JUnit's XML
  console-N     what the run showed
  notes-N       its turns, calls, sleeps, exits and faults
  trace-N       the last 4096 events, as xv_run shows them

Exit status:
  0  there is a result
  1  the command line is refused
  2  the EXERCISE or one of its files is refused, the host can't read the SUBMISSION, or memory ran out
  5  a file or standard output can't be written";

const COMMAND_LINE: CommandLine = CommandLine {
    name: NAME,
    about: "Grades a program by a run on a RISC-V machine that has the kernel of xv6",
    more_help: MORE_HELP,
    words: &[
        CommandWord::Text {
            name: "name",
            value: "PATH",
            help: "A file whose bytes are the submission's name",
        },
        CommandWord::Text {
            name: "refused",
            value: "PATH",
            help: "A file with lines NAME: WHY, for files that are not run",
        },
        CommandWord::Text {
            name: "out",
            value: "PATH",
            help: "The folder for the results",
        },
        CommandWord::Flag {
            name: "inputs",
            help: "Shows the paths of the exercise's own files, and nothing else",
        },
        CommandWord::Flag {
            name: "variant",
            help: "Shows what the exercise has for a student of the submission's name, and nothing else",
        },
        CommandWord::Needed {
            name: "EXERCISE",
            help: "A file of TOML",
        },
        CommandWord::Optional {
            name: "SUBMISSION",
            help: "The folder of what was handed in",
        },
    ],
};

// The text of a word that has to be given.
fn needed(alloc: Global, given: &Given, name: &str) -> Result<String, SettingsError> {
    match given.text(name)? {
        Some(text) => Ok(text),
        None => Ok(String::new(alloc)),
    }
}

/// Reads the words of a command line, the program's name first.
///
/// # Errors
///
/// Those of [`Given::read`].
pub(crate) fn read_settings<S: AsStr>(
    alloc: Global,
    words: &[S],
) -> Result<Settings, SettingsError> {
    let given = Given::read(alloc, &COMMAND_LINE, words)?;
    Ok(Settings {
        exercise: needed(alloc, &given, "EXERCISE")?,
        submission: given.text("SUBMISSION")?,
        name: given.text("name")?,
        refused: given.text("refused")?,
        out: given.text("out")?,
        inputs: given.flag("inputs"),
        variant: given.flag("variant"),
    })
}
