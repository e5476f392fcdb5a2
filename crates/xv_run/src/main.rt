//! Runs programs on the machine.
//!
//! The command line names the programs' files, of which one is `init`, and says how long to run. Keys come
//! from standard input, and what the console shows goes to standard output. What ends the run is told by
//! the exit status and by one line on standard error.
#![tactic(auto)]

ghost use Rattle.std.specs.Prelude.{IfOk};
ghost use Rattle.xv_run.specs.Ranges.{AreInRange};
ghost use Rattle.xv_run.specs.Runs.{IsStatusOf, IsStatusOfWords};

mod command_line;
mod line;
mod running;

use crate::command_line::{COMMAND_LINE, settings};
use crate::line::Settings;
use crate::running::run_with;
use program_files::{Failure, WordsError, host_words, programs};
use std::process::ExitCode;
use xv_machine::{Config, Counted, RunPlan};

/// The program's name.
const NAME: &str = "xv_run";

// Runs the programs that the settings name.
fn run(rt: &HostRuntime, settings: &Settings) -> u8
    ensures { IsStatusOf settings.now result }
{
    let config = Config {
        frames: settings.frames,
        trace: settings.trace,
    };
    let plan = RunPlan {
        rounds: settings.rounds,
        quantum: settings.quantum,
    };
    match programs(rt, settings.files.as_slice()) {
        Ok(made) => {
            let mut keys = Counted::new(rt.stdin());
            let mut sink = Counted::new(rt.stdout());
            run_with(
                rt.alloc(),
                config,
                plan,
                made.programs,
                &mut keys,
                &mut sink,
                &mut rt.stderr(),
            )
        }
        Err(refusal) => Failure::File(refusal).close(NAME, &mut rt.stderr()),
    }
}

// What the words ask for.
fn asked(rt: &HostRuntime) -> Result<Settings, WordsError>
    ensures { IfOk result (λ s. AreInRange s) }
{
    let words = host_words(rt, &COMMAND_LINE)?;
    Ok(settings(rt.alloc(), words.as_slice())?)
}

// Runs what the words ask for, and gives the exit status.
fn run_by_words(rt: &HostRuntime) -> u8
    ensures { IsStatusOfWords result }
{
    match asked(rt) {
        Ok(settings) => run(rt, &settings),
        Err(error) => error.close(NAME, &mut rt.stdout(), &mut rt.stderr()),
    }
}

fn main(rt: HostRuntime) -> ExitCode {
    ExitCode::from(run_by_words(&rt))
}
