//! A step that a process could not make, with the calls that led to it, and what may be wrong.
ghost use Rattle.std.specs.Prelude.{◌≡◌, IfErr, IfOk, option_map};
ghost use Rattle.xv_machine.specs.Events.{event_of};
ghost use Rattle.xv_report.specs.Reports.{AreCallsNow, Reported, ReportedAt, is_run};
ghost use Rattle.xv_report.specs.Unwound.{frames_known};

use crate::hints::{Hint, hint_if, hint_now};
use crate::sources::ProgramSource;
use crate::unwinding::{Calls, calls_of};
use std::alloc::{AllocError, Global};
use xv_machine::{Event, Machine};
use xv_session::{Fault, Session, SessionError, fault_of_run};

/// A step that a process could not make, which ended it, the calls that led to it, and what may be wrong.
#[derive(Drop)]
pub struct FaultReport {
    /// The step, as it stood before, and why it could not be made.
    pub fault: Fault,
    /// The calls that led to it, as the process's memory had them before the step: after it that is gone.
    pub calls: Calls,
    /// What may be wrong, by the pages that the process had before the step.
    pub hint: Option<Hint>,
}

/// The calls that led the process that runs to where it is, by what is known of its program's source.
fn calls_now(
    alloc: Global,
    machine: &Machine,
    source: &ProgramSource<'_>,
) -> Result<Option<Calls>, AllocError>
    ensures { IfOk result (AreCallsNow (frames_known source.now.symbols.now) machine.now.world.state machine.now.world.turns.current) }
{
    let Some(pid) = machine.current() else {
        return Ok(None);
    };
    calls_of(alloc, machine, pid, source)
}

/// Sends a machine one Run, and tells the fault that came of it, all of the machine as it was before; `None` if
/// something else came of it. `source` is what is known of the source of the program of the process that runs.
///
/// # Errors
///
/// The host has too little memory for the program's table of call frames: nothing was sent then.
pub fn report_of_run(
    alloc: Global,
    machine: &mut Machine,
    source: &ProgramSource<'_>,
) -> Result<Option<FaultReport>, AllocError>
    ensures told { IfOk result (λ told. Reported (frames_known source.now.symbols.now) told machine.old machine.new) }
    ensures failed { IfErr result (λ _. machine.new ≡ machine.old) }
{
    let calls = calls_now(alloc, machine, source)?;
    let hint = hint_now(machine);
    let Some(fault) = fault_of_run(machine) else {
        return Ok(None);
    };
    let Some(told) = calls else {
        return Ok(None);
    };
    Ok(Some(FaultReport {
        fault,
        calls: told,
        hint: hint_if(fault.cause, hint),
    }))
}

/// Whether an event is a Run.
fn is_run(event: &Option<Event>) -> bool
    ensures { result ≡ is_run (option_map event_of event.now) }
{
    match event {
        Some(Event::Run) => true,
        Some(Event::Tick) | Some(Event::Key(_)) | Some(Event::Send) | None => false,
    }
}

/// Tells the fault that came of a session's event at a place, 0 for the first, from its run played again up to there;
/// `None` if something else came of it, and if there were fewer events. The session stays as it is. It takes the time
/// of the events before. `source` is what is known of the source of the program of the process that ran then.
///
/// # Errors
///
/// [`SessionError::Memory`] if the host has too little memory for a second machine, or for the program's table of call
/// frames.
pub fn report_at(
    alloc: Global,
    session: &Session,
    place: u64,
    source: &ProgramSource<'_>,
) -> Result<Option<FaultReport>, SessionError>
    ensures { IfOk result (ReportedAt (frames_known source.now.symbols.now) session.now place) }
{
    if !is_run(&session.event(place)) {
        return Ok(None);
    }
    let mut machine = session.machine_at(alloc, place)?;
    match report_of_run(alloc, &mut machine, source) {
        Ok(told) => Ok(told),
        Err(AllocError) => Err(SessionError::Memory),
    }
}
