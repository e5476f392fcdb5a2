//! A run: from boot to the closing line.
ghost use Rattle.std.specs.Prelude.{◌≡◌, ◌≢◌, map};
ghost use Rattle.kernel_spec.specs.views.State.{named_file};
ghost use Rattle.reported_run.specs.Known.{known_of, nothing_known};
ghost use Rattle.run_work.specs.Runs.{EndsSo, Says};

use crate::teller::Teller;
use crate::watching::Watched;
use program_files::Failure;
use run_work::Work;
use std::alloc::Global;
use std::io::Write;
use xk_base::Program;
use xv_machine::{ByteSink, Config, KeySource, RunPlan, play_rounds};
use xv_session::Session;

// Lets a session's machine that has booted play rounds by the plan, tells what is left to tell, shows its trace and the
// closing line, and gives the exit status: 2 if the host's memory ran out, and 6 if the budget is used up.
fn watch_to_end<R: KeySource, W: ByteSink, E: Write>(
    watched: &mut Watched<E>,
    plan: RunPlan,
    keys: &mut R,
    sink: &mut W,
) -> u8
    ensures { result ≢ 2 → EndsSo result plan watched.old.session.machine watched.new.session.machine
        (record { source = R.source keys.old; failed_reads = R.failures keys.old; sink = W.sink sink.old; failed_writes = W.failures sink.old })
        (record { source = R.source keys.new; failed_reads = R.failures keys.new; sink = W.sink sink.new; failed_writes = W.failures sink.new }) }
{
    let played = play_rounds(watched, plan, keys, sink);
    watched.teller.close(&watched.session);
    watched.teller.show_trace(&watched.session);
    watched.teller.tell_waits(&watched.session);
    match played {
        Ok(end) => watched.teller.say_end(end),
        Err(stop) => watched.teller.say_stop(&stop, &watched.work),
    }
}

/// Boots a session of these programs, and lets its machine play rounds by the plan: keys come from `keys`, and the
/// console's bytes go to `sink`. What comes of the events is told by `teller`; at the end the trace, a line a note, why
/// each process that has not exited doesn't go on, and one closing line if `init` hasn't exited with 0. What can't be
/// told is left out.
///
/// It gives the status to exit with: 0 if `init` exited with 0, 2 if the machine didn't boot or the host's memory ran
/// out, 3 if `init` exited with another status, 4 if the rounds are over, 5 if `keys` or `sink` failed, and 6 if the
/// budget of `work` is used up.
pub(crate) fn run_with<R: KeySource, W: ByteSink, E: Write + Drop>(
    alloc: Global,
    config: Config,
    plan: RunPlan,
    work: Work,
    programs: Vec<Program>,
    keys: &mut R,
    sink: &mut W,
    mut teller: Teller<E>,
) -> u8
    requires { known_of teller.ends ≡ nothing_known }
    ensures { Says result config plan (map named_file programs.items)
        (record { source = R.source keys.old; failed_reads = R.failures keys.old; sink = W.sink sink.old; failed_writes = W.failures sink.old })
        (record { source = R.source keys.new; failed_reads = R.failures keys.new; sink = W.sink sink.new; failed_writes = W.failures sink.new }) }
{
    match Session::boot(alloc, config, programs) {
        Ok(session) => {
            teller.note_names(&session);
            let mut watched = Watched::new(session, teller, work);
            watch_to_end(&mut watched, plan, keys, sink)
        }
        Err(error) => teller.say_failure(&Failure::from(error)),
    }
}
