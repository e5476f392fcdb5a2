//! The word that sends so many Runs, and none where nobody may run.
ghost use Rattle.std.specs.Prelude.{◌≡◌, ◌≢◌, ◌≤◌, ◌<◌, true, option_map};
ghost use Rattle.xv_machine.specs.Events.{outcome_of};
ghost use Rattle.xv_debug.specs.motion.Ran.{Ran};
ghost use Rattle.xv_debug.specs.motion.Reaching.{IsRefusedBy};
ghost use Rattle.xv_debug.specs.motion.Resting.{RestsIf};

use crate::motion::journey::{Journey, Stop};
use crate::motion::pace::{Pace, STRETCH, at_once};
use crate::motion::resting::rest_of;
use crate::motion::stretches::send_stretch;
use xv_session::{Patience, Session};

/// Sends so many Runs, and none more if nobody may run, or if it is broken off. Instructions that follow one another are sent at once, since
/// nothing is waited for among them.
#[tactic(auto, using(crate::proofs::Stretched::rest_unmet))]
pub(crate) fn step<P: Patience>(session: &mut Session, count: u32, patience: &mut P) -> Journey
    ensures ran { Ran result.sent (option_map outcome_of result.last) session.old session.new }
    ensures within { result.sent ≤ count }
    ensures all { result.stop ≡ Stop.Done → result.sent ≡ count }
    ensures unmet { result.stop ≢ Stop.Met }
    ensures broken { result.stop ≡ Stop.Broken → P.may_end ≡ true }
    ensures fewer { result.stop ≡ Stop.Broken → result.sent < count }
    ensures rests { RestsIf result.stop session.new.machine.world }
    ensures refused { IsRefusedBy result.stop session.new }
{
    let mut pace = Pace::new(u64::from(STRETCH));
    let mut sent: u32 = 0;
    let mut last = None;
    'runs: while sent < count {
        if let Some(stop) = rest_of(session.machine()) {
            return Journey::new(u64::from(sent), stop, last);
        }
        let far = u64::from(sent);
        if pace.is_over(far, patience) {
            return Journey::new(far, Stop::Broken, last);
        }
        match send_stretch(session, at_once(count - sent)) {
            Ok(runs) => {
                sent += runs.sent;
                last = Some(runs.last);
            }
            Err(error) => {
                return Journey::new(u64::from(sent), Stop::Refused(error), last);
            }
        }
    }
    Journey::new(u64::from(sent), Stop::Done, last)
}
