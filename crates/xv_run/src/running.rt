//! A run: from boot to the closing line.
ghost use Rattle.std.specs.Prelude.{◌≡◌, map};
ghost use Rattle.kernel_spec.specs.views.State.{named_file};
ghost use Rattle.program_files.specs.Statuses.{Tells};
ghost use Rattle.xv_run.specs.Runs.{Says};

use crate::NAME;
use program_files::{Failure, close_run, show_trace};
use std::alloc::Global;
use std::io::Write;
use xk_base::Program;
use xv_machine::{ByteSink, Config, KeySource, Machine, RunPlan, drive};

// Drives a machine that has booted by the plan, shows its trace and the closing line, and gives the exit
// status.
fn drive_to_end<R: KeySource, W: ByteSink, E: Write>(
    machine: &mut Machine,
    plan: RunPlan,
    keys: &mut R,
    sink: &mut W,
    errors: &mut E,
) -> u8
    ensures { Tells result plan machine.old
        (record { source = R.source keys.old; failed_reads = R.failures keys.old; sink = W.sink sink.old; failed_writes = W.failures sink.old })
        (record { source = R.source keys.new; failed_reads = R.failures keys.new; sink = W.sink sink.new; failed_writes = W.failures sink.new }) }
{
    let end = drive(machine, plan, keys, sink);
    show_trace(machine, errors);
    close_run(NAME, end, errors)
}

/// Boots a machine of these programs, and drives it by the plan: keys come from `keys`, and the console's
/// bytes go to `sink`. At the end it writes the trace to `errors`, a line a note, and one closing line if
/// `init` hasn't exited with 0. What `errors` doesn't take is left out.
///
/// It gives the status to exit with: 0 if `init` exited with 0, 2 if the machine didn't boot, 3 if `init`
/// exited with another status, 4 if the rounds are over, 5 if `keys` or `sink` failed.
pub fn run_with<R: KeySource, W: ByteSink, E: Write>(
    alloc: Global,
    config: Config,
    plan: RunPlan,
    programs: Vec<Program>,
    keys: &mut R,
    sink: &mut W,
    errors: &mut E,
) -> u8
    ensures { Says result config plan (map named_file programs.items)
        (record { source = R.source keys.old; failed_reads = R.failures keys.old; sink = W.sink sink.old; failed_writes = W.failures sink.old })
        (record { source = R.source keys.new; failed_reads = R.failures keys.new; sink = W.sink sink.new; failed_writes = W.failures sink.new }) }
{
    match Machine::boot(alloc, config, programs) {
        Ok(mut machine) => drive_to_end(&mut machine, plan, keys, sink, errors),
        Err(error) => Failure::from(error).close(NAME, errors),
    }
}
