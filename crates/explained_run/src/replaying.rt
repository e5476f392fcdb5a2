//! A record that is told: from its file to the closing line.
ghost use Rattle.std.specs.Prelude.{◌≡◌, ◌≢◌, [], true, IfErr, IfOk, OnErr, map};
ghost use Rattle.kernel_spec.specs.views.State.{named_file};
ghost use Rattle.program_files.specs.Failures.{failure_status};
ghost use Rattle.xv_record.specs.Told.{program_told, told_program};
ghost use Rattle.run_work.specs.Runs.{IsRunStatus};
ghost use Rattle.recorded_runs.specs.Cuts.{events_in};
ghost use Rattle.recorded_runs.specs.Replays.{status_of};
ghost use Rattle.xv_machine.specs.Meaning.{Meaning};
ghost use Rattle.recorded_runs.specs.Statuses.{IsStatusOfReplay};
ghost use Rattle.explained_run.specs.Handed.{Holds};
ghost use Rattle.explained_run.specs.Handing.{ReplayTold, SaysReplayTold};

use crate::NAME;
use crate::asking::check_program;
use crate::choice::{Asks, Choice};
use crate::explained::Explained;
use crate::line::Settings;
use crate::lines::{Lines, written_to};
use crate::running::Ended;
use crate::table::write_counts;
use crate::watching::{Stop, Watched};
use program_files::{Failure, show_trace};
use recorded_runs::{
    RecordEnd, Replay, close_record, given_programs, play_record, record_of, recorded_programs,
};
use run_work::{Work, budget_of, close_over_budget};
use std::alloc::Global;
use std::io::Write;
use std::marker::Brand;
use xk_base::Program;
use xv_machine::{ByteSink, Config, Counted, DeviceFault};
use xv_record::Record;

// Shows the table of a machine's calls, its trace and the closing line of a record that was played, and gives the exit
// status: 2 if there was too little memory for the lines, and 6 if the budget is used up.
fn close_played<E: Write>(
    explained: &Explained,
    work: &Work,
    played: Result<Result<RecordEnd, DeviceFault>, Stop>,
    errors: &mut E,
) -> u8
    ensures complete { result ≢ 2 → explained.now.complete ≡ true }
    ensures over { result ≢ 2 → OnErr played (result ≡ 6) }
    ensures ended { result ≢ 2 → IfOk played (λ end. result ≡ status_of end) }
{
    write_counts(explained, errors);
    show_trace(&explained.running.machine, errors);
    if !explained.complete {
        return Failure::OutOfMemory.close(NAME, errors);
    }
    match played {
        Ok(end) => close_record(NAME, end, errors),
        Err(Stop) => close_over_budget(NAME, work, errors),
    }
}

// Lets a machine that has booted play a record, and tells its calls. What is told at the end goes to `errors`.
fn watch_record<W: ByteSink, L: Lines + Drop, E: Write, K: Asks>(
    mut watched: Watched<L, K>,
    kept: &Record,
    sink: &mut W,
    errors: &mut E,
) -> Ended<L>
    ensures { result.status ≢ 2 → (ended : Meaning) × ReplayTold K.asked result.status (events_in kept.now) watched.explained.running.machine ended
        (record { sink = W.sink sink.old; failed_writes = W.failures sink.old })
        (record { sink = W.sink sink.new; failed_writes = W.failures sink.new })
        (L.handed result.lines) }
{
    let played = play_record(&mut watched, kept.events.as_slice(), sink);
    let status = close_played(&watched.explained, &watched.work, played, errors);
    let Watched { lines, .. } = watched;
    Ended { status, lines }
}

/// Boots the machine that was recorded, and lets it play the record: the console's bytes go to `sink`, and the lines of its
/// calls to `lines`, as by [`run_with`](crate::running::run_with).
///
/// It gives the status to exit with: 0 if `init` exited with 0, 2 if the machine didn't boot or the host's memory ran
/// out, 3 if `init` exited with another status, 4 if the record is over and `init` isn't gone, 5 if `sink` failed, and 6
/// if the budget of `work` is used up.
pub(crate) fn replay_with<W: ByteSink, L: Lines + Drop, E: Write + Drop>(
    alloc: Global,
    trace: u32,
    work: Work,
    programs: Vec<Program>,
    kept: &Record,
    choice: Choice,
    sink: &mut W,
    lines: L,
    errors: E,
) -> Ended<L>
    requires fresh { Holds (L.handed lines) [] }
    requires recorded { map program_told programs.items ≡ map told_program kept.now.programs.items }
    ensures { SaysReplayTold choice result.status kept.now.frames trace (map named_file programs.items) (events_in kept.now)
        (record { sink = W.sink sink.old; failed_writes = W.failures sink.old })
        (record { sink = W.sink sink.new; failed_writes = W.failures sink.new })
        (L.handed result.lines) }
{
    replay_as::<W, L, E, Brand>(
        alloc, trace, work, programs, kept, choice, sink, lines, errors,
    )
}

// The same, of what the type K stands for.
fn replay_as<W: ByteSink, L: Lines + Drop, E: Write + Drop, K: Asks>(
    alloc: Global,
    trace: u32,
    work: Work,
    programs: Vec<Program>,
    kept: &Record,
    choice: Choice,
    sink: &mut W,
    lines: L,
    mut errors: E,
) -> Ended<L>
    requires fresh { Holds (L.handed lines) [] }
    requires recorded { map program_told programs.items ≡ map told_program kept.now.programs.items }
    requires asked { choice ≡ K.asked }
    ensures { SaysReplayTold K.asked result.status kept.now.frames trace (map named_file programs.items) (events_in kept.now)
        (record { sink = W.sink sink.old; failed_writes = W.failures sink.old })
        (record { sink = W.sink sink.new; failed_writes = W.failures sink.new })
        (L.handed result.lines) }
{
    let config = Config {
        frames: kept.frames,
        trace,
    };
    match Explained::boot(alloc, config, programs, choice) {
        Ok(explained) => {
            let watched = Watched::<L, K>::new(explained, lines, work);
            watch_record(watched, kept, sink, &mut errors)
        }
        Err(error) => Ended {
            status: Failure::from(error).close(NAME, &mut errors),
            lines,
        },
    }
}

// Plays a record with the programs that the settings name, and gives the exit status.
fn replay<'a>(
    rt: &HostRuntime,
    settings: &'a Settings,
    choice: Choice,
    asked: Replay<'a>,
) -> Result<u8, Failure<'a>>
    ensures status { IfOk result (λ status. IsRunStatus status) }
    ensures says { IfOk result (λ status. IsStatusOfReplay status settings.now.trace asked.entry settings.now.files.items) }
    ensures refused { IfErr result (λ e. failure_status e ≡ 2) }
{
    let made = given_programs(rt, settings.files.as_slice())?;
    check_program(rt.alloc(), &choice, made.programs.as_slice())?;
    let record = record_of(rt, NAME, &asked)?;
    let chosen = recorded_programs(rt.alloc(), made.programs.as_slice(), &record)?;
    let lines = written_to(rt, &settings.output, rt.stderr())?;
    let mut sink = Counted::new(rt.stdout());
    let ended = replay_with(
        rt.alloc(),
        settings.trace,
        Work::new(budget_of(settings.budget)),
        chosen,
        &record,
        choice,
        &mut sink,
        lines,
        rt.stderr(),
    );
    Ok(ended.status)
}

/// Plays a record, and gives the exit status, also if it or its programs can't be had.
pub(crate) fn replay_chosen<'a>(
    rt: &HostRuntime,
    settings: &'a Settings,
    choice: Choice,
    asked: Replay<'a>,
) -> u8
    ensures status { IsRunStatus result }
    ensures says { IsStatusOfReplay result settings.now.trace asked.entry settings.now.files.items }
{
    match replay(rt, settings, choice, asked) {
        Ok(status) => status,
        Err(failure) => failure.close(NAME, &mut rt.stderr()),
    }
}
