//! A session that plays rounds, and tells what comes of its events as they come, until its budget is used up.
ghost use Rattle.std.specs.Prelude.{◌≡◌, ◌≢◌, [], true, IfOk, IfErr};
ghost use Rattle.kernel_spec.specs.runs.Run as runs;
ghost use Rattle.xv_machine.specs.Events.{event_of, outcome_of};
ghost use Rattle.xv_machine.specs.Reached.{IsEvent};
ghost use Rattle.reported_run.specs.Known.{IsKnown, known_of, nothing_known};
ghost use Rattle.reported_run.specs.Sent.{byte_sent};

use crate::stop::Stop;
use crate::teller::{Teller, running_now};
use run_work::{Before, Work};
use std::io::Write;
use xv_machine::{Event, Outcome, RoundPlayer, Sends};
use xv_session::Session;

/// A session, and who tells of its events. What is known of kills and of refused growths is what the session's events since
/// its boot give, if there was memory for it.
#[derive(Drop)]
pub(crate) struct Watched<E> {
    pub session: Session,
    pub teller: Teller<E>,
    pub work: Work,
    ghost known: { ∥ (teller.ends.complete ≡ true → IsKnown session (known_of teller.ends)) ∥₁ },
}

// The byte that was sent, if this came of Send.
fn byte_of(outcome: &Outcome) -> Option<u8>
    ensures { result ≡ byte_sent (outcome_of outcome.now) }
{
    match outcome {
        Outcome::Sent(byte) => *byte,
        _ => None,
    }
}

impl<E: Write> Watched<E> {
    /// A session that has just booted, of which nothing is told yet.
    pub fn new(session: Session, teller: Teller<E>, work: Work) -> Watched<E>
        requires fresh { session.events ≡ [] }
        requires unknown { known_of teller.ends ≡ nothing_known }
        ensures { result.session ≡ session }
    {
        Watched {
            session,
            teller,
            work,
        }
    }

    // Sends an event other than Run, and tells what comes of it.
    fn send(&mut self, event: Event) -> Result<Outcome, Stop>
        requires { event_of event ≢ runs.Run }
        ensures sent { IfOk result (λ outcome. IsEvent self.old.session.machine (event_of event) (outcome_of outcome) self.new.session.machine) }
        ensures refused { IfErr result (λ _. self.new.session.machine ≡ self.old.session.machine) }
    {
        let outcome = self.session.send(event)?;
        self.work.add_event();
        self.teller.tell_event(&self.session, event, &outcome);
        Ok(outcome)
    }
}

/// A [`Stop`] if the session has no room for an event, or, before Runs, if the budget is used up: then nothing is sent.
impl<E: Write> RoundPlayer for Watched<E> {
    type Refusal = Stop;

    ghost machine = { λ w. w.session.machine };

    fn play_runs(&mut self, most: u32) -> Result<u32, Stop> {
        if self.work.is_over() {
            return Err(Stop::OverBudget);
        }
        let runner = running_now(&self.session);
        let before = Before::of(self.session.machine());
        let made = self.session.run(most)?;
        self.work
            .add_runs(self.session.machine(), &before, made.sent, &made.last);
        self.teller.tell_runs(&self.session, &runner, &made);
        Ok(made.sent)
    }

    // One at a time: each is told.
    fn play_sends(&mut self, _most: u32) -> Result<Sends, Stop> {
        let outcome = self.send(Event::Send)?;
        Ok(Sends {
            sent: 1,
            byte: byte_of(&outcome),
        })
    }

    fn play_tick(&mut self) -> Result<(), Stop> {
        self.send(Event::Tick)?;
        Ok(())
    }

    // Each of these events is told.
    fn pass_tick(&mut self) -> Result<bool, Stop> {
        Ok(false)
    }

    fn play_key(&mut self, byte: u8) -> Result<Outcome, Stop> {
        self.send(Event::Key(byte))
    }

    fn status(&self) -> Option<i32> {
        self.session.machine().halted()
    }
}
