//! A record that is told: from boot to the closing line.
ghost use Rattle.std.specs.Prelude.{◌≡◌, ◌≢◌, map};
ghost use Rattle.kernel_spec.specs.views.State.{named_file};
ghost use Rattle.xv_record.specs.Told.{program_told, told_program};
ghost use Rattle.recorded_runs.specs.Cuts.{events_in};
ghost use Rattle.recorded_runs.specs.Replays.{SaysReplay, TellsReplay};
ghost use Rattle.reported_run.specs.Known.{known_of, nothing_known};

use crate::teller::Teller;
use crate::watching::Watched;
use program_files::Failure;
use recorded_runs::play_record;
use run_work::Work;
use std::alloc::Global;
use std::io::Write;
use xk_base::Program;
use xv_machine::{ByteSink, Config};
use xv_record::Record;
use xv_session::Session;

// Lets a session's machine that has booted play a record, tells what is left to tell, shows its trace and the closing
// line, and gives the exit status: 2 if the host's memory ran out, and 6 if the budget is used up.
fn watch_record<W: ByteSink, E: Write>(watched: &mut Watched<E>, kept: &Record, sink: &mut W) -> u8
    ensures { result ≢ 2 → TellsReplay result (events_in kept.now) watched.old.session.machine watched.new.session.machine
        (record { sink = W.sink sink.old; failed_writes = W.failures sink.old })
        (record { sink = W.sink sink.new; failed_writes = W.failures sink.new }) }
{
    let played = play_record(watched, kept.events.as_slice(), sink);
    watched.teller.close(&watched.session);
    watched.teller.show_trace(&watched.session);
    watched.teller.tell_waits(&watched.session);
    match played {
        Ok(end) => watched.teller.say_record_end(end),
        Err(stop) => watched.teller.say_stop(&stop, &watched.work),
    }
}

/// Boots a session of the machine that was recorded, and lets it play the record: the console's bytes go to `sink`, and what
/// comes of the events is told by `teller`, as by [`run_with`](crate::running::run_with).
///
/// It gives the status to exit with: 0 if `init` exited with 0, 2 if the machine didn't boot or the host's memory ran
/// out, 3 if `init` exited with another status, 4 if the record is over and `init` isn't gone, 5 if `sink` failed, and 6
/// if the budget of `work` is used up.
pub(crate) fn replay_with<W: ByteSink, E: Write + Drop>(
    alloc: Global,
    trace: u32,
    work: Work,
    programs: Vec<Program>,
    kept: &Record,
    sink: &mut W,
    mut teller: Teller<E>,
) -> u8
    requires unknown { known_of teller.ends ≡ nothing_known }
    requires recorded { map program_told programs.items ≡ map told_program kept.now.programs.items }
    ensures { SaysReplay result kept.now.frames trace (map named_file programs.items) (events_in kept.now)
        (record { sink = W.sink sink.old; failed_writes = W.failures sink.old })
        (record { sink = W.sink sink.new; failed_writes = W.failures sink.new }) }
{
    let config = Config {
        frames: kept.frames,
        trace,
    };
    match Session::boot(alloc, config, programs) {
        Ok(session) => {
            teller.note_names(&session);
            let mut watched = Watched::new(session, teller, work);
            watch_record(&mut watched, kept, sink)
        }
        Err(error) => teller.say_failure(&Failure::from(error)),
    }
}
