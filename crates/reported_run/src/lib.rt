//! A run of programs that is told as it goes, from the words of the command line to the exit status. The program that
//! has it is `xv_why`.
//!
//! The command line, the rounds, the keys, what goes to standard output and the exit status are those of `xv_run`. On
//! standard error it tells each fault as it comes, with the calls that led there, and at the end what each process
//! sleeps on that has not exited, and who could wake it; with `--explain` each event in words, with `--notes` each as a line
//! for `xv_picture`.
#![tactic(auto)]

ghost use Rattle.std.specs.Prelude.{◌≡◌, IfErr, IfOk};
ghost use Rattle.program_files.specs.Failures.{failure_status};
ghost use Rattle.program_files.specs.Programs.{AreProgramsIn};
ghost use Rattle.recorded_runs.specs.Statuses.{IsStatusOfReplay};
ghost use Rattle.run_work.specs.Runs.{IsRunStatus, IsStatusOfRun};
ghost use Rattle.reported_run.specs.Asked.{IsStatusOf, IsStatusOfWords, config_of, plan_of};

mod command_line;
mod ends;
mod letters;
mod line;
mod replaying;
mod running;
mod stop;
mod teller;
mod watching;

use crate::command_line::settings;
use crate::replaying::replay_with;
use crate::running::run_with;
use crate::teller::Teller;
pub use line::Settings;
use program_files::{Failure, line_table};
use recorded_runs::{RecordedFiles, Replay, given_programs, record_of, recorded_files};
use run_work::{Work, budget_of};
use std::rt::Env;
use xk_base::Program;
use xv_machine::{Config, Counted, RunPlan};
use xv_report::Sources;

/// The program's name.
pub const NAME: &str = "xv_why";

/// The programs of a run, and what is known of their sources.
#[derive(Drop)]
struct KnownPrograms {
    programs: Vec<Program>,
    sources: Sources,
}

/// The text of the table of lines in the file of this path, if there is one.
fn given_table<'a>(rt: &HostRuntime, path: &'a Option<String>) -> Result<String, Failure<'a>>
    ensures { IfErr result (λ e. failure_status e ≡ 2) }
{
    match line_table(rt, path) {
        Ok(table) => Ok(table),
        Err(refusal) => Err(Failure::File(refusal)),
    }
}

/// The programs that the settings name, and what is known of their sources.
fn known_programs<'a>(
    rt: &HostRuntime,
    settings: &'a Settings,
) -> Result<KnownPrograms, Failure<'a>>
    ensures programs { IfOk result (λ known. AreProgramsIn settings.now.files.items known.programs.items) }
    ensures refused { IfErr result (λ e. failure_status e ≡ 2) }
{
    let files = settings.files.as_slice();
    let made = given_programs(rt, files)?;
    let table = given_table(rt, &settings.lines)?;
    Ok(KnownPrograms {
        programs: made.programs,
        sources: Sources::of_files(rt, files, made.lines, table.as_str())?,
    })
}

/// Runs these programs, and gives the exit status.
fn run(rt: &HostRuntime, settings: &Settings, known: KnownPrograms) -> u8
    requires { AreProgramsIn settings.now.files.items known.programs.items }
    ensures status { IsRunStatus result }
    ensures says { IsStatusOfRun result (config_of settings.now) (plan_of settings.now) settings.now.files.items }
{
    let config = Config {
        frames: settings.frames,
        trace: settings.trace,
    };
    let plan = RunPlan {
        rounds: settings.rounds,
        quantum: settings.quantum,
    };
    let mut keys = Counted::new(rt.stdin());
    let mut sink = Counted::new(rt.stdout());
    let teller = Teller::new(rt.alloc(), rt.stderr(), known.sources, settings.telling);
    run_with(
        rt.alloc(),
        config,
        plan,
        Work::new(budget_of(settings.budget)),
        known.programs,
        &mut keys,
        &mut sink,
        teller,
    )
}

/// Plays a record with the programs that the settings name, and gives the exit status.
fn replay<'a>(
    rt: &HostRuntime,
    settings: &'a Settings,
    asked: Replay<'a>,
) -> Result<u8, Failure<'a>>
    ensures status { IfOk result (λ status. IsRunStatus status) }
    ensures says { IfOk result (λ status. IsStatusOfReplay status settings.now.trace asked.entry settings.now.files.items) }
    ensures refused { IfErr result (λ e. failure_status e ≡ 2) }
{
    let given = settings.files.as_slice();
    let made = given_programs(rt, given)?;
    let table = given_table(rt, &settings.lines)?;
    let record = record_of(rt, NAME, &asked)?;
    let files = recorded_files(rt.alloc(), given, made, table.as_str(), &record)?;
    let RecordedFiles {
        programs,
        paths,
        lines,
        table,
    } = files;
    let sources = Sources::of_files(rt, paths.as_slice(), lines, table.as_str())?;
    let mut sink = Counted::new(rt.stdout());
    let teller = Teller::new(rt.alloc(), rt.stderr(), sources, settings.telling);
    Ok(replay_with(
        rt.alloc(),
        settings.trace,
        Work::new(budget_of(settings.budget)),
        programs,
        &record,
        &mut sink,
        teller,
    ))
}

/// Plays a record, if it and its programs can be had, and gives the exit status.
fn replay_files<'a>(rt: &HostRuntime, settings: &'a Settings, asked: Replay<'a>) -> u8
    ensures status { IsRunStatus result }
    ensures says { IsStatusOfReplay result settings.now.trace asked.entry settings.now.files.items }
{
    match replay(rt, settings, asked) {
        Ok(status) => status,
        Err(failure) => failure.close(NAME, &mut rt.stderr()),
    }
}

/// Tells the run that the settings ask for, and gives the exit status.
fn tell_asked(rt: &HostRuntime, settings: &Settings) -> u8
    ensures status { IsRunStatus result }
    ensures asked { IsStatusOf settings.now result }
{
    match settings.replay.replay() {
        Ok(Some(asked)) => replay_files(rt, settings, asked),
        Ok(None) => run_files(rt, settings),
        Err(refusal) => refusal.close(NAME, &mut rt.stderr()),
    }
}

/// Runs the programs that the settings name, if they can be had, and gives the exit status.
fn run_files(rt: &HostRuntime, settings: &Settings) -> u8
    ensures status { IsRunStatus result }
    ensures says { IsStatusOfRun result (config_of settings.now) (plan_of settings.now) settings.now.files.items }
{
    match known_programs(rt, settings) {
        Ok(known) => run(rt, settings, known),
        Err(failure) => failure.close(NAME, &mut rt.stderr()),
    }
}

/// Runs the programs that the words of a command line name, tells the run as it goes, and gives the exit status.
pub fn run_and_tell<W: Env + AllocGlobal>(rt: &HostRuntime, words: &W) -> u8
    ensures status { IsRunStatus result }
    ensures asked { IsStatusOfWords result }
{
    match settings(words) {
        Ok(settings) => tell_asked(rt, &settings),
        Err(error) => error.close(NAME, &mut rt.stdout(), &mut rt.stderr()),
    }
}
