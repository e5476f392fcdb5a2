//! A submission, from its folder to its results.
ghost use Rattle.std.specs.Prelude.{◌≡◌, IfOk, OnOk, map, string_bytes};
ghost use Rattle.grade_sheets.specs.Standings.{IsUngraded};
ghost use Rattle.grade_submissions.specs.Files.{IsNameOf, IsShownAs, AreRefusedBy};
ghost use Rattle.grade_submissions.specs.Results.{plan_of, places_in, IsSeenOf, IsGradeOf, IsResultWith, IsRun, IsResultFor, AreResultsOf, IsWholeGrade, IsLineShown};

use crate::command_line::Settings;
use crate::disk::Disk;
use crate::exercise_file::read_exercise;
use crate::host_files::{folder_of, last_part, text_of};
use crate::playing::{Plan, Played, play};
use crate::reasons::cause;
use crate::results::{write_result, write_run};
use crate::submission::{HandedIn, Submission, handed_in, programs_of_files};
use grade_sheets::{
    Exercise, Grade, Run, RunGrade, Seen, csv_line, graded, lines_in, ungraded, xml_suite,
};
use program_files::{Failure, put};
use std::alloc::{AllocError, Global};
use std::io::Write;
use std::rt::Files;
use xk_base::{BootError, Program};
use xv_machine::{Config, Note as Event};

/// The most events that a trace keeps.
const TRACE: u32 = 4_096;

/// The submission's name, which may be any bytes: those of the file that the settings name, or the last part of its path.
///
/// # Errors
///
/// [`Failure::Refused`] if that file can't be read, and [`Failure::OutOfMemory`].
pub(crate) fn name_of<D: Disk>(
    alloc: Global,
    disk: &D,
    settings: &Settings,
    folder: &str,
) -> Result<Vec<u8>, Failure<'static>>
    ensures { IfOk result (λ name. IsNameOf (D.reads disk.now) settings.now.name folder.now name.items) }
{
    match &settings.name {
        Some(path) => disk.bytes(path.as_str()),
        None => Ok(Vec::from_slice(alloc, last_part(folder).as_bytes())?),
    }
}

// Adds a byte of a name that isn't UTF-8.
fn add_byte(alloc: Global, shown: &mut String, byte: u8) -> Result<(), AllocError> {
    if byte < 128 {
        shown.push(byte as char)
    } else {
        shown.push_str(format!(in alloc; "\\x{byte:02x}")?.as_str())
    }
}

// A name as text: in one that isn't UTF-8, what isn't ASCII is shown as `\xff`.
fn shown_name(alloc: Global, name: &[u8]) -> Result<String, AllocError>
    ensures { IfOk result (λ shown. IsShownAs name.now (string_bytes shown)) }
{
    if let Ok(text) = std::str::from_utf8(name) {
        return String::from_str(alloc, text);
    }
    let mut shown = String::new(alloc);
    for &byte in name {
        add_byte(alloc, &mut shown, byte)?;
    }
    Ok(shown)
}

// The lines that say why files aren't to be run.
fn refused_before<D: Disk>(
    alloc: Global,
    disk: &D,
    settings: &Settings,
) -> Result<String, Failure<'static>>
    ensures { IfOk result (λ text. AreRefusedBy (D.reads disk.now) settings.now.refused (string_bytes text)) }
{
    match &settings.refused {
        Some(path) => text_of(alloc, disk, path.as_str()),
        None => Ok(String::new(alloc)),
    }
}

// Adds the line of an event. That nothing was sent is no line.
fn add_event(alloc: Global, lines: &mut String, event: Event) -> Result<(), AllocError> {
    if !matches!(event, Event::Sent(None)) {
        lines.push_str(format!(in alloc; "{event}\n")?.as_str())?;
    }
    Ok(())
}

// The lines of the trace up to the end of `init`.
fn lines_to_the_end(alloc: Global, played: &Played) -> Result<String, AllocError> {
    let machine = played.session.machine();
    let mut lines = String::new(alloc);
    for place in 0..machine.trace_len() {
        match machine.trace(place) {
            None | Some(Event::Halted) => break,
            Some(event) => add_event(alloc, &mut lines, event)?,
        }
    }
    Ok(lines)
}

// What is known of a run that was made.
fn seen_of<'a>(played: &'a Played, trace: &'a str, handed_in: &'a str) -> Seen<'a>
    ensures { IsSeenOf played.now handed_in.now result }
{
    Seen {
        notes: played.kept.notes.as_slice(),
        shown: played.kept.shown.as_slice(),
        end: played.end(),
        trace,
        handed_in,
    }
}

// The grade of a run that was made.
fn run_grade(
    alloc: Global,
    run: &Run,
    submission: &Submission,
    played: &Played,
) -> Result<RunGrade, Failure<'static>>
    ensures { IfOk result (IsGradeOf run.now submission.now played.now) }
{
    let trace = lines_to_the_end(alloc, played)?;
    let seen = seen_of(played, trace.as_str(), submission.text.as_str());
    let mut grade = graded(alloc, run.asked.as_slice(), &seen)?;
    grade.cause = cause(alloc, grade.standing, submission, played)?;
    Ok(grade)
}

// How a run is played: in as many rounds as hold its most Runs.
fn plan_of(run: &Run) -> Plan
    ensures { result ≡ plan_of run.now }
{
    let quantum = u64::from(run.quantum.max(1));
    let rounds = run.most_runs.div_ceil(quantum).min(u64::from(u32::MAX));
    Plan {
        rounds: rounds as u32,
        quantum: run.quantum,
        budget: run.budget,
    }
}

// Writes what a run showed, which has this number, and grades it.
fn made_run<R: Files + AllocGlobal>(
    rt: &R,
    settings: &Settings,
    submission: &Submission,
    run: &Run,
    number: usize,
    played: &Played,
) -> Result<RunGrade, Failure<'static>>
    ensures { IfOk result (IsGradeOf run.now submission.now played.now) }
{
    write_run(rt, settings, number, played)?;
    run_grade(rt.alloc(), run, submission, played)
}

// The grade of a run whose machine didn't boot.
fn refused_run(alloc: Global, run: &Run, error: &BootError) -> Result<RunGrade, Failure<'static>>
    ensures { IfOk result (IsUngraded run.now.asked.items) }
{
    let why = format!(in alloc; "boot: {error}")?;
    Ok(ungraded(alloc, run.asked.as_slice(), why)?)
}

// What a run gives for what was handed in, with these programs of the exercise. It has this number.
fn played_run<R: Files + AllocGlobal>(
    rt: &R,
    settings: &Settings,
    submission: &Submission,
    run: &Run,
    files: Vec<Program>,
    number: usize,
) -> Result<RunGrade, Failure<'static>>
    ensures { IfOk result (IsResultWith run.now files.items submission.now) }
{
    let alloc = rt.alloc();
    let programs = submission.programs(alloc, files, run.texts.as_slice())?;
    let config = Config {
        frames: run.frames,
        trace: TRACE,
    };
    let keys = run.keys.as_str().as_bytes();
    match play(alloc, config, plan_of(run), programs, keys)? {
        Ok(played) => made_run(rt, settings, submission, run, number, &played),
        Err(error) => refused_run(alloc, run, &error),
    }
}

// Runs a submission once, and grades the run, which has this number.
fn one_run<R: Files + AllocGlobal, D: Disk>(
    rt: &R,
    disk: &D,
    settings: &Settings,
    submission: &Submission,
    run: &Run,
    exercise_folder: &str,
    number: usize,
) -> Result<RunGrade, Failure<'static>>
    ensures { IfOk result (IsRun (D.reads disk.now) exercise_folder.now run.now submission.now) }
{
    let files = programs_of_files(rt.alloc(), disk, exercise_folder, run.with.as_slice())?;
    played_run(rt, settings, submission, run, files, number)
}

// What the run of this number gives, for what was handed in.
fn run_result<R: Files + AllocGlobal, D: Disk>(
    rt: &R,
    disk: &D,
    settings: &Settings,
    handed_in: HandedIn,
    run: &Run,
    exercise_folder: &str,
    number: usize,
) -> Result<RunGrade, Failure<'static>>
    ensures { IfOk result (IsResultFor (D.reads disk.now) exercise_folder.now run.now handed_in) }
{
    match handed_in {
        HandedIn::File(submission) => {
            one_run(
                rt,
                disk,
                settings,
                &submission,
                run,
                exercise_folder,
                number,
            )
        }
        HandedIn::Refused(why) => Ok(ungraded(rt.alloc(), run.asked.as_slice(), why)?),
    }
}

// What each run gives, if these lines say which files aren't run.
fn run_results<R: Files + AllocGlobal, D: Disk>(
    rt: &R,
    disk: &D,
    settings: &Settings,
    runs: &[Run],
    exercise_folder: &str,
    folder: &str,
    refused: &[&str],
) -> Result<Vec<RunGrade>, Failure<'static>>
    ensures { IfOk result (λ grades. AreResultsOf (D.reads disk.now)
        (record { exercise = exercise_folder.now; handing = record { folder = folder.now; refused = map (λ line. line.now) refused.now } }) runs.now grades.items) }
{
    let mut grades = Vec::new(rt.alloc());
    for run in runs {
        let number = grades.len().saturating_add(1);
        let handed_in = handed_in(rt.alloc(), disk, run.files.as_slice(), folder, refused)?;
        grades.push(run_result(rt, disk, settings, handed_in, run, exercise_folder, number)?)?;
    }
    Ok(grades)
}

// The grade of a submission's runs, if this text says which files aren't run.
fn whole_grade<R: Files + AllocGlobal, D: Disk>(
    rt: &R,
    disk: &D,
    settings: &Settings,
    exercise: &Exercise,
    exercise_folder: &str,
    folder: &str,
    refused: &str,
) -> Result<Grade, Failure<'static>>
    ensures { IfOk result (IsWholeGrade (D.reads disk.now) (places_in exercise_folder.now folder.now refused.now) exercise.now) }
{
    let lines = lines_in(rt.alloc(), refused)?;
    let runs = run_results(
        rt,
        disk,
        settings,
        exercise.runs.as_slice(),
        exercise_folder,
        folder,
        lines.as_slice(),
    )?;
    Ok(Grade::of(rt.alloc(), exercise, runs)?)
}

// Writes the test suite of a submission of this name.
fn write_suite<R: Files + AllocGlobal>(
    rt: &R,
    settings: &Settings,
    exercise: &Exercise,
    name: &[u8],
    grade: &Grade,
) -> Result<(), Failure<'static>> {
    let Ok(suite) = xml_suite(rt.alloc(), exercise, name, grade) else {
        return Err(Failure::OutOfMemory);
    };
    write_result(rt, settings, "result.xml", suite.as_str().as_bytes())
}

/// Grades a submission, writes its results, and shows its line of CSV.
///
/// # Errors
///
/// [`Failure::Refused`] for the exercise's files and those of the settings, [`Failure::OutOfMemory`], and
/// [`Failure::Write`] for results that can't be written.
pub fn grade_submission<R: Files + AllocGlobal, D: Disk, W: Write>(
    rt: &R,
    disk: &D,
    settings: &Settings,
    folder: &str,
    output: &mut W,
) -> Result<(), Failure<'static>>
    ensures { OnOk result (IsLineShown (D.reads disk.now) settings.now folder.now (W.contents output.old) (W.contents output.new)) }
{
    let alloc = rt.alloc();
    let exercise = settings.exercise.as_str();
    let own_name = name_of(alloc, disk, settings, folder)?;
    let read = read_exercise(alloc, disk, exercise, own_name.as_slice())?;
    let refused = refused_before(alloc, disk, settings)?;
    let grade = whole_grade(
        rt,
        disk,
        settings,
        &read.exercise,
        folder_of(exercise),
        folder,
        refused.as_str(),
    )?;
    let shown = shown_name(alloc, own_name.as_slice())?;
    let name = shown.as_str().as_bytes();
    let Ok(line) = csv_line(alloc, name, &grade) else {
        return Err(Failure::OutOfMemory);
    };
    write_suite(rt, settings, &read.exercise, name, &grade)?;
    write_result(rt, settings, "result.csv", line.as_slice())?;
    put(output, line.as_slice())?;
    Ok(())
}
