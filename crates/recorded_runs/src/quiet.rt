//! A record that leads a session on, and of which nothing is shown.
ghost use Rattle.std.specs.Prelude.{OnOk};
ghost use Rattle.xv_live.specs.Plays.{events_of_lines};
ghost use Rattle.recorded_runs.specs.Led.{IsLedBy};

use program_files::Failure;
use xv_live::{FaultNote, Screen, Teller, play};
use xv_machine::{ByteSink, DeviceFault};
use xv_record::{GrowError, Line};
use xv_session::Session;

/// Nobody looks.
#[derive(Clone, Copy)]
struct Nobody;

/// It keeps none of the bytes.
impl ByteSink for Nobody {
    ghost use Rattle.std.specs.Prelude.{None};

    ghost sink = { λ _. record { held = None; calls = None } };

    ghost failures = { λ _. 0 };

    fn write_out(&mut self, _bytes: &[u8]) -> Result<(), DeviceFault> {
        Ok(())
    }
}

impl Teller for Nobody {
    fn follow(&mut self, _bytes: &[u8]) {}

    fn tell_fault(&mut self, _session: &Session, _fault: FaultNote) {}

    fn tell_processes(&mut self, _session: &Session) {}

    fn tell_unrecorded(&mut self, _why: GrowError) {}
}

/// Sends a session the events of lines, and shows nothing.
///
/// # Errors
///
/// [`Failure::OutOfMemory`] and [`Failure::TooManyEvents`] if the session can't keep an event: the events before it are
/// sent.
pub fn play_quietly(session: &mut Session, lines: &[Line]) -> Result<(), Failure<'static>>
    ensures { OnOk result (IsLedBy (events_of_lines lines.now) session.old session.new) }
{
    let mut screen = Screen {
        sink: Nobody,
        teller: Nobody,
    };
    play(session, lines, &mut screen)
}
