//! Sleepers wake (xv6's `wakeup` of `proc.c`; the xv6 book, "Code: Sleep and wakeup"), by a channel that they sleep on.
//! Two wake-ups stand elsewhere: `leave_pipe` of `pipe.rt`, in the middle of a close, and the mark of a kill, which
//! wakes the process that it is set on.
ghost use Rattle.std.specs.Prelude.{◌≡◌};
ghost use Rattle.hart_core.specs.declared.hart.Hart.{Hart};
ghost use Rattle.proc_table.specs.Processes.{woken};
ghost use Rattle.proc_table.specs.Slots.{each_changed};
ghost use Rattle.kcall_core.specs.Closings.{parent_woken, across, woken_by, wakes_if};
ghost use Rattle.kcall_core.specs.Kernel.{state_of, IsSound};

use crate::kernel::Kernel;
use file_table::End;
use proc_table::Channel;
use xk_base::{Frame, Pid};

/// What those sleep on who wait at the other end of a pipe.
pub(crate) fn across(frame: Frame, end: End) -> Channel
    ensures { result ≡ across frame end }
{
    match end {
        End::Reading => Channel::Room(frame),
        End::Writing => Channel::Bytes(frame),
    }
}

impl Kernel {
    /// The processes that sleep on a channel wake. Who sleeps is no part of the state.
    pub(crate) fn wake(&mut self, channel: Channel)
        ensures sound { (hart : Hart) → IsSound self.old hart → IsSound self.new hart }
        ensures state { (hart : Hart) → state_of self.new hart ≡ state_of self.old hart }
        ensures table { self.new.table ≡ each_changed (woken channel) self.old.table }
        ensures rest { self.new ≡ record self.old { table = self.new.table } }
    {
        self.table.wake(channel);
    }

    /// The parent of a process that ends wakes if it waits for a child.
    pub(crate) fn wake_parent(&mut self, parent: Option<Pid>)
        ensures sound { (hart : Hart) → IsSound self.old hart → IsSound self.new hart }
        ensures state { (hart : Hart) → state_of self.new hart ≡ state_of self.old hart }
        ensures table { self.new.table ≡ parent_woken parent self.old.table }
        ensures rest { self.new ≡ record self.old { table = self.new.table } }
    {
        let Some(parent) = parent else {
            return;
        };
        self.wake(Channel::Children(parent));
    }

    /// All who sleep on a channel wake, if that is due.
    pub(crate) fn wake_if(&mut self, is_due: bool, channel: Channel)
        ensures sound { (hart : Hart) → IsSound self.old hart → IsSound self.new hart }
        ensures table { self.new.table ≡ each_changed (woken_by (wakes_if is_due channel)) self.old.table }
        ensures rest { self.new ≡ record self.old { table = self.new.table } }
    {
        if !is_due {
            return;
        }
        self.wake(channel);
    }
}
