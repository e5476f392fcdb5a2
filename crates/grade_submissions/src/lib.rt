//! Grades what a student handed in: runs it on the machine, and asks of the run what the exercise asks. The program that
//! does it is `xv_grade`.
//!
//! `play` of `playing.rt` boots a machine and plays the rounds of a plan, each with the next key. It keeps a note of each
//! turn, call, sleep, exit and fault, and the bytes that the console showed. With a call and a sleep stands what the call
//! was given, as the machine had it before that step (`givens.rt`, `specs/Givens.antt`), and of a pipe's end of which pipe it is
//! (`pipes.rt`, `specs/Pipes.antt`). That these are the notes and the
//! bytes of just the events that the machine got, and that these events are those of the plan, is `IsRunOf` in
//! `specs/Plays.antt`. What is handed in, and when it isn't run, is `IsHandedIn` in `specs/Files.antt`. That a line is
//! that of the submission, the exercise and the runs, is `IsLineShown` in `specs/Results.antt`.
#![tactic(auto)]

ghost use Rattle.program_files.specs.Statuses.{IsPlainStatus};

mod command_line;
mod disk;
mod encodings;
mod exercise_file;
mod givens;
mod grading;
mod host_files;
mod pipes;
mod playing;
mod reasons;
mod results;
mod submission;

pub use command_line::Settings;
use command_line::read_settings;
pub use disk::{Disk, Found};
use exercise_file::{show_files, show_variant};
pub use grading::grade_submission;
use grading::name_of;
use program_files::Failure;
use program_files::exit_statuses::{DONE, WORDS_REFUSED};
use std::io::Write;
use std::rt::Env;

/// The program's name.
pub const NAME: &str = "xv_grade";

/// What the settings ask for: the results of a submission, or the names of an exercise's files.
fn grade(rt: &HostRuntime, settings: &Settings) -> Result<(), Failure<'static>> {
    match &settings.submission {
        Some(folder) if settings.variant => {
            let name = name_of(rt.alloc(), rt, settings, folder.as_str())?;
            show_variant(rt.alloc(), rt, settings, name.as_slice(), &mut rt.stdout())
        }
        Some(folder) => grade_submission(rt, rt, settings, folder.as_str(), &mut rt.stdout()),
        None => show_files(rt.alloc(), rt, settings, &mut rt.stdout()),
    }
}

/// Grades the submission that the words of a command line name, or shows what they ask for of an exercise, and gives the
/// exit status.
pub fn grade_by_words<W: Env + AllocGlobal>(rt: &HostRuntime, words: &W) -> u8
    ensures { IsPlainStatus result }
{
    let Ok(words) = program_files::words(words) else {
        let _ = writeln!(rt.stderr(), "{NAME}: a word is not UTF-8 text");
        return WORDS_REFUSED;
    };
    let settings = match read_settings(rt.alloc(), words.as_slice()) {
        Ok(settings) => settings,
        Err(error) => return error.close(NAME, &mut rt.stdout(), &mut rt.stderr()),
    };
    match grade(rt, &settings) {
        Ok(()) => DONE,
        Err(failure) => failure.close(NAME, &mut rt.stderr()),
    }
}
