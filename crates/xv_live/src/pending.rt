//! Keys that were typed and that the machine hasn't got yet.
ghost use Rattle.std.specs.Prelude.{◌≡◌, ◌<◌, ◌↔◌, IsTrue, length, min};
ghost use Rattle.console_core.specs.Lists.{held_bytes, list_of};

use program_files::Failure;
use std::alloc::Global;
use std::collections::VecDeque;
use xk_base::limits::CONSOLE_BYTES;
use xv_machine::{ConsoleList, Machine};

// How many bytes one of the console's lists holds, as far as [`CONSOLE_BYTES`].
fn held(machine: &Machine, list: ConsoleList) -> usize
    ensures { result ≡ min (length (list_of list machine.now.world.state.console)) CONSOLE_BYTES }
{
    'bytes: for place in 0..CONSOLE_BYTES {
        if machine.console_byte(list, place).is_none() {
            return place;
        }
    }
    CONSOLE_BYTES
}

/// Whether the console has room for a typed byte. One that has none drops it.
pub fn has_room(machine: &Machine) -> bool
    ensures { IsTrue result ↔ (held_bytes machine.now.world.state.console < CONSOLE_BYTES) }
{
    held(machine, ConsoleList::Committed) + held(machine, ConsoleList::Uncommitted) < CONSOLE_BYTES
}

/// Keys that wait for room in the console, the oldest first.
#[derive(Drop)]
pub struct Pending {
    pub(crate) keys: VecDeque<u8>,
}

impl Pending {
    ghost use Rattle.std.specs.Prelude.{◌≡◌, [], ◌∷◌, ◌++◌, OnOk, OnErr, option_to_list};
    ghost use Rattle.xv_live.specs.Keys.{waiting};

    /// None.
    pub fn new(alloc: Global) -> Pending
        ensures { waiting result ≡ [] }
    {
        Pending {
            keys: VecDeque::new(alloc),
        }
    }

    /// Whether none waits.
    pub(crate) fn is_empty(&self) -> bool {
        self.keys.is_empty()
    }

    /// Adds a key behind those that wait.
    pub(crate) fn add(&mut self, key: u8) -> Result<(), Failure<'static>>
        ensures { OnOk result (waiting self.new ≡ waiting self.old ++ key ∷ []) }
    {
        self.keys.push_back(key)?;
        Ok(())
    }

    /// Takes the oldest.
    pub(crate) fn take(&mut self) -> Option<u8>
        ensures { waiting self.old ≡ option_to_list result ++ waiting self.new }
    {
        self.keys.pop_front()
    }
}
