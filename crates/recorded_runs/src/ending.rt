//! How a record that is played ends.
ghost use Rattle.std.specs.Prelude.{◌≡◌};
ghost use Rattle.recorded_runs.specs.Replays.{status_of};

use program_files::exit_statuses::NOT_EXITED;
use program_files::{Failure, status_of_exit};
use std::io::Write;
use xv_machine::DeviceFault;

/// What a record that was played to its end has come to.
#[derive(Clone, Copy, PartialEq, Eq)]
pub enum RecordEnd {
    /// Process 1 has gone with this status.
    Halted(i32),
    /// The record is over, and process 1 isn't gone.
    Over,
}

/// Writes the closing line of a record that ended so, under the name of the program that played it, and gives the exit
/// status: 0, and no line, if `init` exited with 0; 3 if it exited with another status; 4 if the record is over; 5 if
/// the sink failed. A line that can't be written is left out.
pub fn close_record<E: Write>(name: &str, end: Result<RecordEnd, DeviceFault>, errors: &mut E) -> u8
    ensures { result ≡ status_of end }
{
    match end {
        Ok(RecordEnd::Halted(status)) => {
            if status != 0 {
                let _ = writeln!(errors, "{name}: init exited with {status}");
            }
            status_of_exit(status)
        }
        Ok(RecordEnd::Over) => {
            let _ = writeln!(errors, "{name}: the record is over");
            NOT_EXITED
        }
        Err(DeviceFault) => Failure::Write.close(name, errors),
    }
}
