//! The end of a round and the first Run of the next one. If the process that ran has the next turn too, it is neither saved
//! nor restored.
ghost use Rattle.std.specs.Prelude.{◌≡◌, [], IsSome, true, false};
ghost use Rattle.xv_machine.specs.Drives.{PassesTick};
ghost use Rattle.xv_machine.specs.Events.{run_outcome_of};
ghost use Rattle.xv_machine.specs.Stretches.{TicksAndTurns};

use crate::event::RunOutcome;
use crate::machine::Machine;
use crate::trace::Note;
use kcall_core::ConsoleList;
use xk_base::limits::SEND_BYTES;

impl Machine {
    /// Sends Tick, as many Sends as a round has, and Run, if a process runs and no byte waits to be sent. Else it sends
    /// nothing. It tells whether it sent them.
    pub(crate) fn pass_over_tick(&mut self) -> bool
        ensures passed { result ≡ true → PassesTick self.old self.new }
        ensures stays { result ≡ false → self.new ≡ self.old }
        ensures sends { IsSome self.old.world.turns.current → self.old.world.state.console.to_send ≡ [] → result ≡ true }
    {
        if self.current().is_none() || self.has_to_send() {
            return false;
        }
        let outcome = self.tick_and_turn();
        self.keep(Note::Ticked);
        self.keep_often(Note::Sent(None), SEND_BYTES as u32);
        self.keep(outcome.note());
        true
    }

    // Whether a byte waits to be sent.
    #[inline(always)]
    fn has_to_send(&self) -> bool
        ensures no { result ≡ false → self.now.world.state.console.to_send ≡ [] }
        ensures yes { self.now.world.state.console.to_send ≡ [] → result ≡ false }
    {
        self.console_byte(ConsoleList::ToSend, 0).is_some()
    }

    // The clock counts a tick, nothing is sent, and the next has its turn; the trace keeps no note yet.
    #[inline(always)]
    fn tick_and_turn(&mut self) -> RunOutcome
        requires running { IsSome self.old.world.turns.current }
        requires nothing_waits { self.old.world.state.console.to_send ≡ [] }
        ensures { TicksAndTurns (run_outcome_of result) self.old self.new }
    {
        self.kernel.tick_on(&self.hart);
        let Some(pid) = self.kernel.turn_on(&mut self.hart) else {
            return RunOutcome::Idle;
        };
        RunOutcome::Turn { pid }
    }
}
