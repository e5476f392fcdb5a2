//! The word that plays rounds.
ghost use Rattle.std.specs.Prelude.{◌≡◌, ◌-◌, [], IfOk, IfErr, length, replicate, true};
ghost use Rattle.kernel_spec.specs.runs.Rounds.{round};
ghost use Rattle.xv_machine.specs.Events.{event_of, outcome_of};
ghost use Rattle.xv_machine.specs.RoundParts.{events_of_parts};
ghost use Rattle.xv_session.specs.Until.{faults};
ghost use Rattle.xv_debug.specs.motion.Rounds.{PlaysPart, PlaysTelling, RoundsLeave};

use crate::motion::journey::{Journey, Stop};
use crate::motion::output::Output;
use crate::motion::pace::Pace;
use xv_machine::{Event, Outcome, RoundPart, round_parts};
use xv_session::{Patience, Session, SessionError};

/// The rounds that are played before the patience is asked: about as many events as in a stretch of other words.
const ROUNDS_AT_ONCE: u64 = 100;

/// Whether an outcome is a fault.
fn is_fault(outcome: &Outcome) -> bool
    ensures { result ≡ faults (outcome_of outcome.now) }
{
    match outcome {
        Outcome::Faulted { .. } => true,
        _ => false,
    }
}

/// Sends an event so many times. The answer tells whether a process faulted.
fn play_part(
    session: &mut Session,
    event: Event,
    count: u32,
    output: &mut Output,
) -> Result<bool, SessionError>
    ensures played { IfOk result (λ faulted. PlaysTelling (replicate count (event_of event)) faulted session.old session.new output.old output.new) }
    ensures part { IfErr result (λ _. PlaysPart (replicate count (event_of event)) session.old session.new output.old output.new) }
{
    let mut faulted = false;
    for sent in 0..count {
        let _ = sent;
        match session.send(event) {
            Ok(outcome) => {
                output.add(outcome.shown());
                faulted = faulted | is_fault(&outcome);
            }
            Err(error) => return Err(error),
        }
    }
    Ok(faulted)
}

/// Plays parts, one after another. The answer tells whether a process faulted.
fn play_parts(
    session: &mut Session,
    parts: &[RoundPart],
    output: &mut Output,
) -> Result<bool, SessionError>
    ensures played { IfOk result (λ faulted. PlaysTelling (events_of_parts parts.now) faulted session.old session.new output.old output.new) }
    ensures part { IfErr result (λ _. PlaysPart (events_of_parts parts.now) session.old session.new output.old output.new) }
{
    let mut faulted = false;
    for part in parts {
        match play_part(session, part.event, part.count, output) {
            Ok(now) => faulted = faulted | now,
            Err(error) => return Err(error),
        }
    }
    Ok(faulted)
}

/// Plays a round without a key. The answer tells whether a process faulted.
fn play_round(
    session: &mut Session,
    quantum: u32,
    output: &mut Output,
) -> Result<bool, SessionError>
    ensures played { IfOk result (λ faulted. PlaysTelling (round quantum []) faulted session.old session.new output.old output.new) }
    ensures part { IfErr result (λ _. PlaysPart (round quantum []) session.old session.new output.old output.new) }
{
    let parts = round_parts(None, quantum);
    play_parts(session, &parts, output)
}

/// Plays so many rounds, and none more after a round in which a process faulted, if the machine has halted, or if it is
/// broken off.
pub(crate) fn play_rounds<P: Patience>(
    session: &mut Session,
    quantum: u32,
    most: u32,
    patience: &mut P,
    output: &mut Output,
) -> Journey
    ensures played { RoundsLeave P.may_end quantum most result.stop session.old session.new output.old output.new }
    ensures sent { result.sent ≡ length session.new.events - length session.old.events }
{
    let begin = session.at();
    let mut pace = Pace::new(ROUNDS_AT_ONCE);
    for count in 0..most {
        if session.machine().halted().is_some() {
            return arrived(session, begin, Stop::Halted);
        }
        if pace.is_over(u64::from(count), patience) {
            return arrived(session, begin, Stop::Broken);
        }
        match play_round(session, quantum, output) {
            Ok(false) => {}
            Ok(true) => return arrived(session, begin, Stop::Met),
            Err(error) => return arrived(session, begin, Stop::Refused(error)),
        }
    }
    arrived(session, begin, Stop::Done)
}

/// The journey of a session from a place of its run to where it is.
fn arrived(session: &Session, begin: u64, stop: Stop) -> Journey
    ensures sent { result.sent ≡ length session.now.events - begin }
    ensures stop { result.stop ≡ stop }
{
    Journey::new(session.at().saturating_sub(begin), stop, None)
}
