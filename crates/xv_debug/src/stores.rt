//! What a store has changed for which a mark waits. How it is told, no contract says.
use debug_words::EVENTS_MOST;
use rv64i_core::{Instr, Width, decode, store_width};
use std::alloc::{AllocError, Global};
use xk_base::Pid;
use xv_machine::Machine;
use xv_session::{Session, next_step};

/// A store that was done by the last event, with the machine before it.
#[derive(Drop)]
pub(crate) struct Stored {
    pub before: Machine,
    pid: Pid,
    address: u64,
    width: Width,
}

/// The number of this width at an address of a process, the lowest byte first. An absent page has zeros.
fn number_at(machine: &Machine, pid: Pid, address: u64, width: Width) -> u64 {
    let mut bytes = [0; 8];
    for place in 0..8_u8 {
        let byte = machine.peek(pid, address.wrapping_add(u64::from(place)));
        bytes[usize::from(place)] = byte.unwrap_or(0);
    }
    width.read(&bytes, 0)
}

/// The store that the process was about to make which ran in the machine before, if it was done in the machine after it.
fn store_between(before: Machine, after: &Machine) -> Option<Stored> {
    let pid = before.current()?;
    let step = next_step(&before, pid)?;
    let Some(Instr::Store { op, .. }) = decode(step.word?) else {
        return None;
    };
    if after.registers(pid)?.pc() != step.regs.pc().wrapping_add(4) {
        return None;
    }
    Some(Stored {
        before,
        pid,
        address: step.address?,
        width: store_width(op),
    })
}

/// The store that was done by a session's last event, if it was one. The run is played again for it, unless it has more
/// events than a word sends.
pub(crate) fn last_store(alloc: Global, session: &Session) -> Option<Stored> {
    let at = session.at();
    if at == 0 || at > u64::from(EVENTS_MOST) {
        return None;
    }
    let Ok(before) = session.machine_at(alloc, at - 1) else {
        return None;
    };
    store_between(before, session.machine())
}

impl Stored {
    /// Writes what the bytes were, and what they are.
    pub(crate) fn show(&self, after: &Machine, answer: &mut String) -> Result<(), AllocError> {
        let count = self.width.bytes();
        let address = self.address;
        let was = number_at(&self.before, self.pid, address, self.width);
        let is = number_at(after, self.pid, address, self.width);
        let bytes = if count == 1 { "byte" } else { "bytes" };
        writeln!(
            answer,
            ": {count} {bytes} at {address:#x}, before {was:#x}, now {is:#x}"
        )
    }
}
