//! Words that send Ticks, Sends or keys, and the word that goes back.
ghost use Rattle.std.specs.Prelude.{◌≡◌, ◌≢◌, ◌≤◌, ◌<◌, ◌-◌, IfOk, IfErr, length, map, min, option_map, replicate, take, true};
ghost use Rattle.kernel_spec.specs.runs.Run as runs;
ghost use Rattle.xv_machine.specs.Events.{event_of, outcome_of};
ghost use Rattle.xv_session.specs.Answers.{IsUnplayedBy, WentBack};
ghost use Rattle.xv_debug.specs.motion.Sent.{Sends};
ghost use Rattle.xv_debug.specs.motion.Reaching.{IsRefusal, IsRefusedBy};

use crate::motion::journey::{Journey, Stop};
use crate::motion::output::Output;
use crate::motion::pace::{Pace, STRETCH};
use std::alloc::Global;
use xv_machine::Event;
use xv_session::{Patience, PlayError, Session};

/// Sends an event so many times, or fewer if it is broken off, and keeps what the console shows of it.
pub(crate) fn send_often<P: Patience>(
    session: &mut Session,
    event: Event,
    count: u32,
    patience: &mut P,
    output: &mut Output,
) -> Journey
    ensures sent { Sends (replicate result.sent (event_of event)) (option_map outcome_of result.last) session.old session.new output.old output.new }
    ensures within { result.sent ≤ count }
    ensures all { result.stop ≡ Stop.Done → result.sent ≡ count }
    ensures broken { result.stop ≡ Stop.Broken → P.may_end ≡ true }
    ensures fewer { result.stop ≡ Stop.Broken → result.sent < count }
    ensures refused { IsRefusal result.stop }
    ensures reason { IsRefusedBy result.stop session.new }
{
    let mut pace = Pace::new(u64::from(STRETCH));
    let mut last = None;
    for sent in 0..count {
        let far = u64::from(sent);
        if pace.is_over(far, patience) {
            return Journey::new(far, Stop::Broken, last);
        }
        match session.send(event) {
            Ok(outcome) => {
                output.add(outcome.shown());
                last = Some(outcome);
            }
            Err(error) => {
                return Journey::new(u64::from(sent), Stop::Refused(error), last);
            }
        }
    }
    Journey::new(u64::from(count), Stop::Done, last)
}

/// Types these keys, and keeps what the console shows of them. They are too few to be broken off.
pub(crate) fn type_keys(session: &mut Session, keys: &[u8], output: &mut Output) -> Journey
    ensures sent { Sends (map runs.Key (take result.sent keys.now)) (option_map outcome_of result.last) session.old session.new output.old output.new }
    ensures within { result.sent ≤ length keys.now }
    ensures all { result.stop ≡ Stop.Done → result.sent ≡ length keys.now }
    ensures unbroken { result.stop ≢ Stop.Broken }
    ensures refused { IsRefusal result.stop }
    ensures reason { IsRefusedBy result.stop session.new }
{
    let mut last = None;
    for place in 0..keys.len() {
        match session.send(Event::Key(keys[place])) {
            Ok(outcome) => {
                output.add(outcome.shown());
                last = Some(outcome);
            }
            Err(error) => {
                return Journey::new(place as u64, Stop::Refused(error), last);
            }
        }
    }
    Journey::new(keys.len() as u64, Stop::Done, last)
}

/// Takes the last events back, so many, or all where there were fewer. The answer is how many they were.
///
/// # Errors
///
/// It was broken off, or the host has too little memory for a second machine: nothing is changed.
pub(crate) fn go_back<P: Patience>(
    alloc: Global,
    session: &mut Session,
    count: u64,
    patience: &mut P,
) -> Result<u64, PlayError>
    ensures back { IfOk result (λ _. WentBack (length session.old.events - count) session.old session.new) }
    ensures count { IfOk result (λ taken. taken ≡ min count (length session.old.events)) }
    ensures refused { IfErr result (λ _. session.new ≡ session.old) }
    ensures unplayed { IfErr result (IsUnplayedBy P.may_end) }
{
    let all = session.at();
    session.back_to_within(alloc, all.saturating_sub(count), patience)?;
    Ok(count.min(all))
}
