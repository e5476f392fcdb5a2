//! The service for GDB, from the words of the command line to the exit status. The program that has it is `xv_gdb`.
//!
//! It runs programs on the machine, and answers GDB's remote serial protocol on standard input and output
//! (GDB manual, appendix "GDB Remote Serial Protocol").
//!
//! The machine gets the events of a record, if one is played, and then of rounds, as in `xv_run`, so that the event at
//! each place of the run is settled before it is sent. To go back is to boot anew and to send the events up to an earlier place; to go on from there
//! sends the same events again. What GDB sees of registers and memory is the machine's, and nothing that it asks for
//! changes it.
ghost use Rattle.program_files.specs.Statuses.{IsPlainStatus};

mod beginning;
mod command_line;
mod link;
mod serving;

use crate::service::beginning::begin;
use crate::service::command_line::{Settings, read_settings};
use crate::service::serving::Service;
use program_files::Failure;
use program_files::exit_statuses::DONE;
use recorded_runs::Replay;
use std::rt::Env;

/// The name under which the program tells what is wrong.
const NAME: &str = "xv_gdb";

/// Serves GDB by a machine of the settings, until it goes.
fn serve<'a>(
    rt: &HostRuntime,
    settings: &'a Settings,
    replay: Option<Replay<'a>>,
) -> Result<(), Failure<'a>> {
    let target = begin(rt, settings, replay)?;
    let mut service = Service::new(rt.alloc(), target);
    service.serve(&mut rt.stdin(), &mut rt.stdout())
}

/// Does what the settings say, and gives the exit status.
fn serve_to_end(rt: &HostRuntime, settings: &Settings) -> u8
    ensures { IsPlainStatus result }
{
    let replay = match settings.replay.replay() {
        Ok(replay) => replay,
        Err(refusal) => return refusal.close(NAME, &mut rt.stderr()),
    };
    match serve(rt, settings, replay) {
        Ok(()) => DONE,
        Err(failure) => failure.close(NAME, &mut rt.stderr()),
    }
}

/// Serves GDB by the programs that the words of a command line name, and gives the exit status.
pub fn serve_gdb<W: Env + AllocGlobal>(rt: &HostRuntime, words: &W) -> u8
    ensures { IsPlainStatus result }
{
    match read_settings(words) {
        Ok(settings) => serve_to_end(rt, &settings),
        Err(error) => error.close(NAME, &mut rt.stdout(), &mut rt.stderr()),
    }
}
