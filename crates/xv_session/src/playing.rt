//! Events that are sent again.
ghost use Rattle.std.specs.Prelude.{◌≡◌, ◌-◌, IfOk, IfErr, replicate, take, length, true};
ghost use Rattle.kernel_spec.specs.runs.Run as runs;
ghost use Rattle.xv_machine.specs.Events.{event_of};
ghost use Rattle.xv_session.specs.Steps.{IsSound};
ghost use Rattle.xv_session.specs.Follows.{Follows};
ghost use Rattle.xv_session.specs.Spans.{all_events};

use crate::followed::Followed;
use crate::history::Span;
use crate::pace::{Broken, Pace, STRETCH};
use crate::patience::Patience;
use xv_machine::Event;

/// Sends Run so many times.
///
/// # Errors
///
/// It was broken off.
fn send_runs<P: Patience>(
    followed: &mut Followed,
    count: u64,
    pace: &mut Pace,
    patience: &mut P,
) -> Result<(), Broken>
    requires { IsSound followed.old.running }
    ensures goes { IfOk result (λ _. Follows (replicate count runs.Run) followed.old followed.new) }
    ensures sound { IfOk result (λ _. IsSound followed.new.running) }
    ensures broken { IfErr result (λ _. P.may_end ≡ true) }
{
    let mut left = count;
    'runs: while left > 0 {
        pace.ask(patience)?;
        let most = left.min(u64::from(STRETCH)) as u32;
        let sent = followed.run(most).sent;
        pace.count(sent);
        left -= u64::from(sent);
    }
    Ok(())
}

/// Sends an event so many times.
///
/// # Errors
///
/// It was broken off.
fn send_often<P: Patience>(
    followed: &mut Followed,
    event: Event,
    count: u64,
    pace: &mut Pace,
    patience: &mut P,
) -> Result<(), Broken>
    requires { IsSound followed.old.running }
    ensures goes { IfOk result (λ _. Follows (replicate count (event_of event)) followed.old followed.new) }
    ensures sound { IfOk result (λ _. IsSound followed.new.running) }
    ensures broken { IfErr result (λ _. P.may_end ≡ true) }
{
    let mut left = count;
    'sends: while left > 0 {
        pace.ask(patience)?;
        followed.event(event);
        pace.count(1);
        left -= 1;
    }
    Ok(())
}

/// Sends an event so many times: Runs as many at once as a machine makes.
///
/// # Errors
///
/// It was broken off.
pub(crate) fn play<P: Patience>(
    followed: &mut Followed,
    event: Event,
    count: u64,
    pace: &mut Pace,
    patience: &mut P,
) -> Result<(), Broken>
    requires { IsSound followed.old.running }
    ensures goes { IfOk result (λ _. Follows (replicate count (event_of event)) followed.old followed.new) }
    ensures sound { IfOk result (λ _. IsSound followed.new.running) }
    ensures broken { IfErr result (λ _. P.may_end ≡ true) }
{
    match event {
        Event::Run => send_runs(followed, count, pace, patience),
        Event::Tick | Event::Key(_) | Event::Send => {
            send_often(followed, event, count, pace, patience)
        }
    }
}

/// Sends the first events of spans, so many at most. The answer is how many there were too few.
///
/// # Errors
///
/// It was broken off.
pub(crate) fn play_first<P: Patience>(
    followed: &mut Followed,
    spans: &[Span],
    most: u64,
    pace: &mut Pace,
    patience: &mut P,
) -> Result<u64, Broken>
    requires { IsSound followed.old.running }
    ensures left { IfOk result (λ left. left ≡ most - length (all_events spans.now)) }
    ensures goes { IfOk result (λ _. Follows (take most (all_events spans.now)) followed.old followed.new) }
    ensures sound { IfOk result (λ _. IsSound followed.new.running) }
    ensures broken { IfErr result (λ _. P.may_end ≡ true) }
{
    let mut left = most;
    for place in 0..spans.len() {
        let span = spans[place];
        let count = span.count.min(left);
        play(followed, span.event, count, pace, patience)?;
        left -= count;
    }
    Ok(left)
}
