//! A console's three rings of bytes.
ghost use Rattle.std.specs.Prelude.{◌≡◌, ◌==◌, false, ◌+◌, ◌-◌, ◌<◌};
ghost use Rattle.std.specs.Prelude.{◌≤◌, ◌∷◌, ◌++◌, [], min, IfOk};
ghost use Rattle.std.specs.Prelude.{IfErr, IfSome, length, take, drop, slice_get};
ghost use Rattle.xk_base.specs.declared.limits.TheConstants.{CONSOLE_BYTES, SEND_BYTES};
ghost use Rattle.xk_base.specs.declared.errors.BootError.TheVariants.{Memory};
ghost use Rattle.console_core.specs.Lists.{IsWithinLimits, empty_console, held_bytes, list_of};
ghost use Rattle.console_core.specs.Keys.{ends_line, line, line_by, with_byte};
ghost use Rattle.console_core.specs.Reads.{line_length, pulled};
ghost use Rattle.console_core.specs.declared.keys.Key.TheVariants.{Erase, Kill};

use crate::keys::{CTRL_D, Echo, Key, NEW_LINE, wipes};
use circular_buffer::HeapCircularBuffer;
use std::alloc::Global;
use std::marker::Model;
use xk_base::BootError;
use xk_base::limits::{CONSOLE_BYTES, SEND_BYTES};

/// What a step of a read took.
#[derive(Clone, Copy)]
pub struct Pull {
    /// How many bytes it put into the buffer.
    pub taken: usize,
    /// Whether the read is over. If not, it waits until more bytes are committed.
    pub ended: bool,
}

/// One of a console's three lists of bytes, each from the oldest byte on.
#[derive(Clone, Copy)]
pub enum ConsoleList {
    /// Bytes typed that a read may take.
    Committed,
    /// Bytes typed that may still be taken back.
    Uncommitted,
    /// Bytes written that wait to be sent.
    ToSend,
}

/// A console.
///
/// It makes all its room when it is made. At most
/// [`CONSOLE_BYTES`](xk_base::limits::CONSOLE_BYTES) typed bytes and
/// [`SEND_BYTES`](xk_base::limits::SEND_BYTES) bytes to send are held.
#[derive(Drop)]
pub struct Console {
    committed: HeapCircularBuffer<u8>,
    uncommitted: HeapCircularBuffer<u8>,
    to_send: HeapCircularBuffer<u8>,
}

impl Model for Console {
    ghost use Rattle.std.specs.Prelude.{◌≡◌};
    ghost use Rattle.xk_base.specs.declared.limits.TheConstants.{CONSOLE_BYTES, SEND_BYTES};
    ghost use Rattle.console_core.specs.Lists.{Console as Lists, IsWithinLimits};

    ghost Value = { Lists };

    ghost view = { λ c. record {
      committed = c.committed.items;
      uncommitted = c.uncommitted.items;
      to_send = c.to_send.items;
    } };

    ghost invariant = { λ c. IsWithinLimits record {
      committed = c.committed.items;
      uncommitted = c.uncommitted.items;
      to_send = c.to_send.items;
    }
        × (c.committed.capacity ≡ CONSOLE_BYTES) × (c.uncommitted.capacity ≡ CONSOLE_BYTES)
        × (c.to_send.capacity ≡ SEND_BYTES) };
}

impl Console {
    /// A console with nothing typed and nothing to send.
    ///
    /// # Errors
    ///
    /// [`BootError::Memory`] where the host refuses the memory of one of the three rings.
    pub fn new(alloc: Global) -> Result<Console, BootError>
        ensures ok { IfOk result (λ c. c ≡ empty_console) }
        ensures err { IfErr result (λ e. e ≡ Memory) }
    {
        Ok(Console {
            committed: HeapCircularBuffer::with_capacity(alloc, CONSOLE_BYTES)?,
            uncommitted: HeapCircularBuffer::with_capacity(alloc, CONSOLE_BYTES)?,
            to_send: HeapCircularBuffer::with_capacity(alloc, SEND_BYTES)?,
        })
    }

    /// How many bytes are committed: so many may be read.
    pub fn committed(&self) -> usize
        ensures value { result ≡ length self.now.committed }
        ensures limits { IsWithinLimits self.now }
    {
        self.committed.len()
    }

    /// How many more bytes may wait to be sent.
    pub fn room(&self) -> usize
        ensures value { result + length self.now.to_send ≡ SEND_BYTES }
        ensures limits { IsWithinLimits self.now }
    {
        SEND_BYTES - self.to_send.len()
    }

    /// The byte at a place of one of the lists: 0 is the oldest. `None` where the list is shorter.
    pub fn byte_of(&self, list: ConsoleList, place: usize) -> Option<u8>
        ensures { result ≡ slice_get (list_of list self.now) place }
    {
        match list {
            ConsoleList::Committed => self.committed.get(place).copied(),
            ConsoleList::Uncommitted => self.uncommitted.get(place).copied(),
            ConsoleList::ToSend => self.to_send.get(place).copied(),
        }
    }

    /// Takes out the first byte to send, if there is one.
    pub fn send(&mut self) -> Option<u8>
        ensures byte { result ≡ slice_get self.old.to_send 0 }
        ensures after { self.new ≡ record self.old { to_send = drop 1 self.old.to_send } }
        ensures limits { IsWithinLimits self.new }
    {
        self.to_send.pop_front()
    }

    /// Appends as many of the bytes, from the first on, as there is room for to those that wait to
    /// be sent, and tells how many they are.
    pub fn push_out(&mut self, bytes: &[u8]) -> usize
        ensures count { result ≡ min (length bytes.now) (SEND_BYTES - length self.old.to_send) }
        ensures after { self.new ≡ record self.old { to_send = self.old.to_send ++ take result bytes.now } }
        ensures limits { IsWithinLimits self.new }
    {
        self.to_send.fill_from_slice(bytes)
    }

    /// Takes a key, and tells what the console shows for it.
    pub fn key(&mut self, key: u8) -> Echo
        ensures after { self.new ≡ (line self.old key).0 }
        ensures echo { result.items ≡ (line self.old key).1 }
        ensures limits { IsWithinLimits self.new }
    {
        let held = self.held();
        match Key::of(key) {
            Key::Erase => self.erase(),
            Key::Kill => self.kill(),
            Key::Typed(byte) if held < CONSOLE_BYTES => self.type_byte(byte),
            Key::Ignored | Key::Typed(_) => Echo::new(),
        }
    }

    /// Takes committed bytes for a read of which `done` bytes were taken before, into `buf`, the
    /// rest of the read's buffer.
    ///
    /// The read is over after byte 10, where the buffer is full, and before byte 4 (Ctrl-D).
    /// Byte 4 stays for the next read, but where it is the first of all bytes of this read: it is
    /// taken then, and none are read. Bytes of the buffer beyond those taken stay.
    pub fn pull_line(&mut self, buf: &mut [u8], done: usize) -> Pull
        ensures count { result.taken ≡ length (pulled (done == 0) (length buf.old) self.old.committed).taken }
        ensures ended { result.ended ≡ (pulled (done == 0) (length buf.old) self.old.committed).ended }
        ensures bytes { buf.new
            ≡ (pulled (done == 0) (length buf.old) self.old.committed).taken
            ++ drop result.taken buf.old }
        ensures after { self.new ≡ record self.old {
          committed = (pulled (done == 0) (length buf.old) self.old.committed).left;
        } }

        // The kernel puts a read to sleep where it isn't over: nothing is left that could wake it.
        ensures waits { result.ended ≡ false → self.new.committed ≡ [] }
        ensures within { result.taken ≤ length buf.old }
        ensures limits { IsWithinLimits self.new }
    {
        let end = self.line_length();
        match self.byte(end) {
            _ if buf.len() <= end => self.take(buf, buf.len(), true),
            None => self.take(buf, end, false),
            Some(NEW_LINE) => self.take(buf, end + 1, true),
            Some(_ctrl_d) if done == 0 && end == 0 => {
                self.committed.pop_front();
                Pull {
                    taken: 0,
                    ended: true,
                }
            }
            Some(_ctrl_d) => self.take(buf, end, true),
        }
    }

    // How many committed bytes stand before the first that ends a read.
    fn line_length(&self) -> usize
        ensures value { result ≡ line_length self.now.committed }
        ensures within { result ≤ length self.now.committed }
    {
        self.committed
            .iter()
            .position(|byte| *byte == CTRL_D || *byte == NEW_LINE)
            .unwrap_or(self.committed())
    }

    // The committed byte at a place.
    fn byte(&self, place: usize) -> Option<u8>
        ensures byte { result ≡ slice_get self.now.committed place }
        ensures within { IfSome result (λ _. place < length self.now.committed) }
    {
        self.committed.get(place).copied()
    }

    // Moves so many committed bytes to the front of a buffer.
    fn take(&mut self, buf: &mut [u8], count: usize, ended: bool) -> Pull
        requires there { count ≤ length self.old.committed }
        requires fits { count ≤ length buf.old }
        ensures pull { result ≡ record { taken = count; ended = ended } }
        ensures bytes { buf.new ≡ take count self.old.committed ++ drop count buf.old }
        ensures after { self.new ≡ record self.old { committed = drop count self.old.committed } }
    {
        self.committed.read_into(&mut buf[..count]);
        Pull {
            taken: count,
            ended,
        }
    }

    // How many typed bytes are held.
    fn held(&self) -> usize
        ensures value { result ≡ held_bytes self.now }
        ensures limits { IsWithinLimits self.now }
    {
        self.committed() + self.uncommitted.len()
    }

    // Takes back the last uncommitted byte.
    fn erase(&mut self) -> Echo
        ensures after { self.new ≡ (line_by self.old Erase).0 }
        ensures echo { result.items ≡ (line_by self.old Erase).1 }
        ensures limits { IsWithinLimits self.new }
    {
        if self.uncommitted.is_empty() {
            return Echo::new();
        }
        self.uncommitted.pop_back();
        wipes(1)
    }

    // Takes back all uncommitted bytes.
    fn kill(&mut self) -> Echo
        ensures after { self.new ≡ (line_by self.old Kill).0 }
        ensures echo { result.items ≡ (line_by self.old Kill).1 }
        ensures limits { IsWithinLimits self.new }
    {
        let count = self.uncommitted.len();
        self.uncommitted.clear();
        wipes(count)
    }

    // Appends a byte, which commits the line where it ends it.
    fn type_byte(&mut self, byte: u8) -> Echo
        requires { held_bytes self.old < CONSOLE_BYTES }
        ensures after { self.new ≡ with_byte self.old byte }
        ensures echo { result.items ≡ byte ∷ [] }
        ensures limits { IsWithinLimits self.new }
    {
        let ends_line = self.ends_line(byte);
        self.append(byte);
        if ends_line {
            self.commit();
        }
        let mut echo = Echo::new();
        echo.push(byte);
        echo
    }

    // Whether a byte, once it is appended, ends the line.
    fn ends_line(&self, byte: u8) -> bool
        ensures { result ≡ ends_line self.now byte }
    {
        byte == NEW_LINE || byte == CTRL_D || self.held() + 1 == CONSOLE_BYTES
    }

    // Appends an uncommitted byte.
    fn append(&mut self, byte: u8)
        requires { held_bytes self.old < CONSOLE_BYTES }
        ensures after { self.new ≡ record self.old { uncommitted = self.old.uncommitted ++ byte ∷ [] } }
        ensures limits { IsWithinLimits self.new }
    {
        self.uncommitted.push_back(byte);
    }

    // Commits all uncommitted bytes.
    fn commit(&mut self)
        ensures after { self.new ≡ record self.old {
          committed = self.old.committed ++ self.old.uncommitted;
          uncommitted = [];
        } }
        ensures limits { IsWithinLimits self.new }
    {
        let (front, back) = self.uncommitted.as_slices();
        self.committed.fill_from_slice(front);
        self.committed.fill_from_slice(back);
        self.uncommitted.clear();
    }
}
