//! Who plays rounds: a machine, or whoever has one and looks on.
ghost use Rattle.std.specs.Prelude.{◌≡◌, ◌<◌, ◌≤◌, IfOk, IfErr, true, false};
ghost use Rattle.kernel_spec.specs.runs.Run as runs;
ghost use Rattle.xv_machine.specs.Drives.{PassesTick, Ran, SendsMade};
ghost use Rattle.xv_machine.specs.Events.{outcome_of};
ghost use Rattle.xv_machine.specs.Meaning.{Meaning};
ghost use Rattle.xv_machine.specs.Reached.{IsEvent, TakesEvent};
ghost use Rattle.xv_machine.specs.Sound.{IsSoundMachine};

use crate::event::{Event, Outcome};
use crate::machine::Machine;
use std::convert::Infallible;

/// Sends that were sent one after another. Only the last of them may have sent a byte.
#[derive(Clone, Copy)]
pub struct Sends {
    /// How many.
    pub sent: u32,
    /// The byte that the last one sent.
    pub byte: Option<u8>,
}

/// Who plays rounds. It has a machine, and sends it events.
pub trait RoundPlayer {
    /// Why it doesn't send an event. Its machine then stays as it was.
    type Refusal: Drop;

    // The machine that it has.
    ghost machine: { Self → Meaning };

    /// Sends Run, `most` times at most, and tells how many times: at least once, unless `most` is 0.
    ///
    /// # Errors
    ///
    /// Its refusal: then nothing is sent.
    fn play_runs(&mut self, most: u32) -> Result<u32, Self::Refusal>
        ensures ran { IfOk result (λ sent. Ran most sent (machine self.old) (machine self.new)) }
        ensures within { IfOk result (λ sent. sent ≤ most) }
        ensures some { IfOk result (λ sent. 0 < most → 0 < sent) }
        ensures refused { IfErr result (λ _. machine self.new ≡ machine self.old) };

    /// Sends Send, `most` times at most, up to the first that sends a byte.
    ///
    /// # Errors
    ///
    /// Its refusal: then nothing is sent.
    fn play_sends(&mut self, most: u32) -> Result<Sends, Self::Refusal>
        requires { 0 < most }
        ensures made { IfOk result (λ sends. SendsMade sends.sent sends.byte (machine self.old) (machine self.new)) }
        ensures within { IfOk result (λ sends. sends.sent ≤ most) }
        ensures refused { IfErr result (λ _. machine self.new ≡ machine self.old) };

    /// Sends Tick. It shows no byte.
    ///
    /// # Errors
    ///
    /// Its refusal: then nothing is sent.
    fn play_tick(&mut self) -> Result<(), Self::Refusal>
        ensures ticked { IfOk result (λ _. TakesEvent (machine self.old) runs.Tick (machine self.new)) }
        ensures refused { IfErr result (λ _. machine self.new ≡ machine self.old) };

    /// Ends a round and begins the next one, if it can do so faster than event by event: sends Tick, then Send as often as
    /// a round does, at which no byte leaves, and then Run. Else it sends nothing. It tells whether it sent them.
    ///
    /// # Errors
    ///
    /// Its refusal: then nothing is sent.
    fn pass_tick(&mut self) -> Result<bool, Self::Refusal>
        ensures passed { IfOk result (λ done. done ≡ true → PassesTick (machine self.old) (machine self.new)) }
        ensures stays { IfOk result (λ done. done ≡ false → machine self.new ≡ machine self.old) }
        ensures refused { IfErr result (λ _. machine self.new ≡ machine self.old) };

    /// Types a key, and gives what came of it.
    ///
    /// # Errors
    ///
    /// Its refusal: then nothing is sent.
    fn play_key(&mut self, byte: u8) -> Result<Outcome, Self::Refusal>
        ensures typed { IfOk result (λ outcome. IsEvent (machine self.old) (runs.Key byte) (outcome_of outcome) (machine self.new)) }
        ensures refused { IfErr result (λ _. machine self.new ≡ machine self.old) };

    /// The status with which process 1 went; `None` while it is there.
    fn status(&self) -> Option<i32>
        ensures status { result ≡ (machine self.now).world.turns.halted }
        ensures sound { IsSoundMachine (machine self.now) };
}

impl RoundPlayer for Machine {
    type Refusal = Infallible;

    ghost machine = { λ m. m };

    #[inline(always)]
    fn play_runs(&mut self, most: u32) -> Result<u32, Infallible> {
        Ok(self.run(most))
    }

    #[inline(always)]
    fn play_sends(&mut self, most: u32) -> Result<Sends, Infallible> {
        match self.send(most) {
            Some(byte) => Ok(Sends {
                sent: 1,
                byte: Some(byte),
            }),
            None => Ok(Sends {
                sent: most,
                byte: None,
            }),
        }
    }

    #[inline(always)]
    fn play_tick(&mut self) -> Result<(), Infallible> {
        self.send_tick();
        Ok(())
    }

    #[inline(always)]
    fn pass_tick(&mut self) -> Result<bool, Infallible> {
        Ok(self.pass_over_tick())
    }

    #[inline(always)]
    fn play_key(&mut self, byte: u8) -> Result<Outcome, Infallible> {
        Ok(self.event(Event::Key(byte)))
    }

    #[inline(always)]
    fn status(&self) -> Option<i32> {
        self.halted()
    }
}
