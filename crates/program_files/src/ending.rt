//! What is told at the end of a run.
ghost use Rattle.std.specs.Prelude.{◌≡◌};
ghost use Rattle.program_files.specs.Statuses.{exit_status, status_of};

use crate::exit_statuses::{DONE, EXITED_OTHERWISE, NOT_EXITED};
use crate::failure::Failure;
use std::io::Write;
use xv_machine::{DriveEnd, DriveError, Machine};

/// Writes the notes that the machine keeps, oldest first. Lines that can't be written are left out.
pub fn show_trace<E: Write>(machine: &Machine, errors: &mut E) {
    for place in 0..machine.trace_len() {
        if let Some(note) = machine.trace(place) {
            let _ = writeln!(errors, "{note}");
        }
    }
}

/// The exit status of a run in which `init` exited with this status: 0 if that is 0, and else 3.
pub fn status_of_exit(status: i32) -> u8
    ensures { result ≡ exit_status status }
{
    if status == 0 { DONE } else { EXITED_OTHERWISE }
}

/// Writes the closing line of a run that ended so, under the name of the program that made it, and gives the exit
/// status: 0, and no line, if `init` exited with 0; 3 if it exited with another status; 4 if the rounds are over; 5 if
/// a device failed. A line that can't be written is left out.
pub fn close_run<E: Write>(name: &str, end: Result<DriveEnd, DriveError>, errors: &mut E) -> u8
    ensures { result ≡ status_of end }
{
    match end {
        Ok(DriveEnd::Halted(status)) => {
            if status != 0 {
                let _ = writeln!(errors, "{name}: init exited with {status}");
            }
            status_of_exit(status)
        }
        Ok(DriveEnd::RoundsOver) => {
            let _ = writeln!(errors, "{name}: rounds over");
            NOT_EXITED
        }
        Err(DriveError::Read) => Failure::Read.close(name, errors),
        Err(DriveError::Write) => Failure::Write.close(name, errors),
    }
}
