//! A run: from the words of the command line to the closing line.
ghost use Rattle.std.specs.Prelude.{◌≡◌, ◌≢◌, [], true, IfErr, IfOk, OnErr, map};
ghost use Rattle.kernel_spec.specs.views.State.{named_file};
ghost use Rattle.program_files.specs.Failures.{failure_status};
ghost use Rattle.program_files.specs.Statuses.{status_of};
ghost use Rattle.run_work.specs.Runs.{IsRunStatus, IsStatusOfRun};
ghost use Rattle.xv_machine.specs.Meaning.{Meaning};
ghost use Rattle.explained_run.specs.Asked.{IsStatusOf, IsStatusOfWords, config_of, plan_of};
ghost use Rattle.explained_run.specs.Handed.{Holds};
ghost use Rattle.explained_run.specs.Handing.{RunTold, SaysTold};

use crate::NAME;
use crate::asking::{check_program, choice_of};
use crate::choice::{Asks, Choice};
use crate::command_line::settings;
use crate::explained::Explained;
use crate::line::Settings;
use crate::lines::{Lines, written_to};
use crate::replaying::replay_chosen;
use crate::table::write_counts;
use crate::watching::{Stop, Watched};
use program_files::{Failure, close_run, show_trace};
use recorded_runs::given_programs;
use run_work::{Work, budget_of, close_over_budget};
use std::alloc::Global;
use std::io::Write;
use std::marker::Brand;
use std::rt::Env;
use xk_base::Program;
use xv_machine::{
    ByteSink, Config, Counted, DriveEnd, DriveError, KeySource, RunPlan, play_rounds,
};

/// A run that is over.
#[derive(Drop)]
pub(crate) struct Ended<L> {
    /// The status to exit with.
    pub status: u8,
    /// Where its lines went.
    pub lines: L,
}

// Shows the table of a machine's calls, its trace and the closing line, and gives the exit status: 2 if there was too
// little memory for the lines, and 6 if the budget is used up.
fn close<E: Write>(
    explained: &Explained,
    work: &Work,
    played: Result<Result<DriveEnd, DriveError>, Stop>,
    errors: &mut E,
) -> u8
    ensures complete { result ≢ 2 → explained.now.complete ≡ true }
    ensures over { result ≢ 2 → OnErr played (result ≡ 6) }
    ensures ended { result ≢ 2 → IfOk played (λ end. result ≡ status_of end) }
{
    write_counts(explained, errors);
    show_trace(&explained.running.machine, errors);
    if !explained.complete {
        return Failure::OutOfMemory.close(NAME, errors);
    }
    match played {
        Ok(end) => close_run(NAME, end, errors),
        Err(Stop) => close_over_budget(NAME, work, errors),
    }
}

// Lets a machine that has booted play rounds by the plan, and tells its calls. What is told at the end goes to
// `errors`.
fn watch_to_end<R: KeySource, W: ByteSink, L: Lines + Drop, E: Write, K: Asks>(
    mut watched: Watched<L, K>,
    plan: RunPlan,
    keys: &mut R,
    sink: &mut W,
    errors: &mut E,
) -> Ended<L>
    ensures { result.status ≢ 2 → (ended : Meaning) × RunTold K.asked result.status plan watched.explained.running.machine ended
        (record { source = R.source keys.old; failed_reads = R.failures keys.old; sink = W.sink sink.old; failed_writes = W.failures sink.old })
        (record { source = R.source keys.new; failed_reads = R.failures keys.new; sink = W.sink sink.new; failed_writes = W.failures sink.new })
        (L.handed result.lines) }
{
    let played = play_rounds(&mut watched, plan, keys, sink);
    let status = close(&watched.explained, &watched.work, played, errors);
    let Watched { lines, .. } = watched;
    Ended { status, lines }
}

/// Boots a machine of these programs, and lets it play rounds by the plan: keys come from `keys`, and the console's bytes
/// go to `sink`. The lines of its calls go to `lines`, if any are asked for; the table of them, and at the end the trace
/// and one closing line if `init` hasn't exited with 0, to `errors`. What can't be written there is left out.
///
/// It gives the status to exit with: 0 if `init` exited with 0, 2 if the machine didn't boot or the host's memory ran
/// out, 3 if `init` exited with another status, 4 if the rounds are over, 5 if `keys` or `sink` failed, and 6 if the
/// budget of `work` is used up.
pub(crate) fn run_with<R: KeySource, W: ByteSink, L: Lines + Drop, E: Write + Drop>(
    alloc: Global,
    config: Config,
    plan: RunPlan,
    work: Work,
    programs: Vec<Program>,
    choice: Choice,
    keys: &mut R,
    sink: &mut W,
    lines: L,
    errors: E,
) -> Ended<L>
    requires { Holds (L.handed lines) [] }
    ensures { SaysTold choice result.status config plan (map named_file programs.items)
        (record { source = R.source keys.old; failed_reads = R.failures keys.old; sink = W.sink sink.old; failed_writes = W.failures sink.old })
        (record { source = R.source keys.new; failed_reads = R.failures keys.new; sink = W.sink sink.new; failed_writes = W.failures sink.new })
        (L.handed result.lines) }
{
    run_as::<R, W, L, E, Brand>(
        alloc, config, plan, work, programs, choice, keys, sink, lines, errors,
    )
}

// The same, of what the type K stands for.
fn run_as<R: KeySource, W: ByteSink, L: Lines + Drop, E: Write + Drop, K: Asks>(
    alloc: Global,
    config: Config,
    plan: RunPlan,
    work: Work,
    programs: Vec<Program>,
    choice: Choice,
    keys: &mut R,
    sink: &mut W,
    lines: L,
    mut errors: E,
) -> Ended<L>
    requires fresh { Holds (L.handed lines) [] }
    requires asked { choice ≡ K.asked }
    ensures { SaysTold K.asked result.status config plan (map named_file programs.items)
        (record { source = R.source keys.old; failed_reads = R.failures keys.old; sink = W.sink sink.old; failed_writes = W.failures sink.old })
        (record { source = R.source keys.new; failed_reads = R.failures keys.new; sink = W.sink sink.new; failed_writes = W.failures sink.new })
        (L.handed result.lines) }
{
    match Explained::boot(alloc, config, programs, choice) {
        Ok(explained) => {
            let watched = Watched::<L, K>::new(explained, lines, work);
            watch_to_end(watched, plan, keys, sink, &mut errors)
        }
        Err(error) => Ended {
            status: Failure::from(error).close(NAME, &mut errors),
            lines,
        },
    }
}

// Runs the programs that the settings name, and gives the exit status.
fn run<'a>(rt: &HostRuntime, settings: &'a Settings, choice: Choice) -> Result<u8, Failure<'a>>
    ensures status { IfOk result (λ status. IsRunStatus status) }
    ensures says { IfOk result (λ status. IsStatusOfRun status (config_of settings.now) (plan_of settings.now) settings.now.files.items) }
    ensures refused { IfErr result (λ e. failure_status e ≡ 2) }
{
    let made = given_programs(rt, settings.files.as_slice())?;
    check_program(rt.alloc(), &choice, made.programs.as_slice())?;
    let config = Config {
        frames: settings.frames,
        trace: settings.trace,
    };
    let plan = RunPlan {
        rounds: settings.rounds,
        quantum: settings.quantum,
    };
    let lines = written_to(rt, &settings.output, rt.stderr())?;
    let mut keys = Counted::new(rt.stdin());
    let mut sink = Counted::new(rt.stdout());
    let ended = run_with(
        rt.alloc(),
        config,
        plan,
        Work::new(budget_of(settings.budget)),
        made.programs,
        choice,
        &mut keys,
        &mut sink,
        lines,
        rt.stderr(),
    );
    Ok(ended.status)
}

// Runs the programs that the settings name, and gives the exit status, also if they can't be had.
fn run_chosen(rt: &HostRuntime, settings: &Settings, choice: Choice) -> u8
    ensures status { IsRunStatus result }
    ensures says { IsStatusOfRun result (config_of settings.now) (plan_of settings.now) settings.now.files.items }
{
    match run(rt, settings, choice) {
        Ok(status) => status,
        Err(failure) => failure.close(NAME, &mut rt.stderr()),
    }
}

// Tells the run of the settings, or the record that they name, and gives the exit status.
fn tell_asked(rt: &HostRuntime, settings: &Settings, choice: Choice) -> u8
    ensures status { IsRunStatus result }
    ensures asked { IsStatusOf settings.now result }
{
    match settings.replay.replay() {
        Ok(Some(asked)) => replay_chosen(rt, settings, choice, asked),
        Ok(None) => run_chosen(rt, settings, choice),
        Err(refusal) => refusal.close(NAME, &mut rt.stderr()),
    }
}

/// Runs the programs that the words of a command line name, tells their calls as they come, and gives the exit status.
pub fn explain_by_words<W: Env + AllocGlobal>(rt: &HostRuntime, words: &W) -> u8
    ensures status { IsRunStatus result }
    ensures asked { IsStatusOfWords result }
{
    match settings(words) {
        Ok(settings) => match choice_of(rt.alloc(), &settings) {
            Ok(choice) => tell_asked(rt, &settings, choice),
            Err(refusal) => refusal.close(&mut rt.stderr()),
        },
        Err(error) => error.close(NAME, &mut rt.stdout(), &mut rt.stderr()),
    }
}
