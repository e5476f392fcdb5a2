//! The keyboard and the clock.
ghost use Rattle.std.specs.Prelude.{◌≡◌, [], IfOk, true};
ghost use Rattle.std.specs.Io.KnownBytes.{Consumes, prepend_known};
ghost use Rattle.xv_live.specs.Keys.{bytes_in};

use program_files::Failure;
use std::alloc::Global;
use std::collections::VecDeque;
use std::io::{ErrorKind, Read};
use std::thread;
use std::time::{Clock, Duration};
use xv_debug::Patience;
use xv_live::{Host, Key, Look};

/// The longest rest, in milliseconds, if a key that is typed meanwhile is only seen after it.
const REST_MILLIS: u64 = 10;

/// The same, if a key ends a rest.
const WOKEN_REST_MILLIS: u64 = 1_000;

/// The most bytes that are looked at when a word of the debugger asks whether it is to be broken off.
const LOOKS_AT_ONCE: usize = 4_096;

/// A reader as the keyboard, and the host's clock.
#[derive(Drop)]
pub struct Desk<R, C> {
    keyboard: R,
    /// Bytes that were typed while a word of the debugger ran, the oldest first: they are the next ones.
    ahead: VecDeque<u8>,
    clock: C,
    /// Whether the keyboard is a terminal that answers at once: then no byte isn't the end.
    terminal: bool,
    /// The longest rest.
    rest: Duration,
    /// The time of a tick.
    tick: Duration,
    /// When the next tick is due.
    next: Duration,
}

// The longest rest of a host of which a key ends a rest, or doesn't.
fn longest_rest(woken: bool) -> Duration {
    Duration::from_millis(if woken {
        WOKEN_REST_MILLIS
    } else {
        REST_MILLIS
    })
}

impl<R: Read, C: Clock> Desk<R, C> {
    /// A desk with a keyboard and a clock. If the keyboard is a terminal, its reads answer at once, and no byte isn't
    /// the end. If the host says that a key ends a rest, rests are long. The first tick is due at once, unless the clock is
    /// begun anew.
    pub fn new(
        alloc: Global,
        keyboard: R,
        clock: C,
        terminal: bool,
        woken: bool,
        tick: Duration,
    ) -> Self
        ensures keyboard { result.keyboard ≡ keyboard }
        ensures ahead { result.ahead.items ≡ [] }
        ensures clock { result.clock ≡ clock }
        ensures terminal { result.terminal ≡ terminal }
        ensures tick { result.tick ≡ tick }
    {
        Desk {
            keyboard,
            ahead: VecDeque::new(alloc),
            clock,
            terminal,
            rest: longest_rest(woken),
            tick,
            next: Duration::ZERO,
        }
    }

    // The next byte of the keyboard, behind those that were read ahead.
    fn read(&mut self) -> Result<Look, Failure<'static>>
        ensures look { IfOk result (λ l. Consumes (R.remaining self.old.keyboard) (R.remaining self.new.keyboard) (bytes_in l)) }
        ensures ahead { self.new.ahead.items ≡ self.old.ahead.items }
    {
        let mut byte = [0];
        match self.keyboard.read(&mut byte) {
            Ok(0) if self.terminal => Ok(Look::NoneNow),
            Ok(0) => Ok(Look::Ended),
            Ok(_) => Ok(Look::Came(byte[0])),
            Err(error) if error.kind() == ErrorKind::Interrupted => Ok(Look::NoneNow),
            Err(error) if error.kind() == ErrorKind::WouldBlock => Ok(Look::NoneNow),
            Err(_) => Err(Failure::Read),
        }
    }

    // Whether a byte breaks off the word that runs. Ctrl-C is used up by that, and any other byte is the next line's.
    fn breaks_off(&mut self, byte: u8) -> bool {
        match Key::of(byte) {
            Key::Debugger => true,
            Key::End => {
                let _ = self.ahead.push_back(byte);
                true
            }
            // (Without memory for it the byte is lost, and the word is broken off.)
            _ => self.ahead.push_back(byte).is_err(),
        }
    }

    // What the clock shows.
    fn now(&self) -> Result<Duration, Failure<'static>> {
        match self.clock.monotonic() {
            Ok(time) => Ok(time),
            Err(_) => Err(Failure::Clock),
        }
    }

    // A tick after this time.
    fn tick_behind(&self, time: Duration) -> Duration {
        time.checked_add(self.tick).unwrap_or(Duration::MAX)
    }
}

/// A read that was interrupted counts as none now.
impl<R: Read, C: Clock> Host for Desk<R, C> {
    ghost coming = { λ d. prepend_known d.ahead.items (R.remaining d.keyboard) };

    fn is_terminal(&self) -> bool {
        self.terminal
    }

    fn look(&mut self) -> Result<Look, Failure<'static>> {
        match self.ahead.pop_front() {
            Some(byte) => Ok(Look::Came(byte)),
            None => self.read(),
        }
    }

    fn tick_is_due(&mut self) -> Result<bool, Failure<'static>> {
        let now = self.now()?;
        if now < self.next {
            return Ok(false);
        }
        // Ticks that were missed by much, as of a host that slept, are left out.
        let behind = self.tick_behind(self.next);
        self.next = if behind < now {
            self.tick_behind(now)
        } else {
            behind
        };
        Ok(true)
    }

    fn rest(&mut self) -> Result<(), Failure<'static>> {
        let now = self.now()?;
        let left = self.next.checked_sub(now).unwrap_or(Duration::ZERO);
        thread::sleep(&self.clock, left.min(self.rest));
        Ok(())
    }

    fn doze(&mut self) {
        thread::sleep(&self.clock, self.rest);
    }

    fn restart(&mut self) -> Result<(), Failure<'static>> {
        self.next = self.tick_behind(self.now()?);
        Ok(())
    }
}

/// Ctrl-C ends it at a terminal, and so does Ctrl-\, which the next line gets. A look at another keyboard waits for a key,
/// so there it never ends.
impl<R: Read, C: Clock> Patience for Desk<R, C> {
    ghost may_end = { true };

    fn is_over(&mut self) -> bool {
        if !self.terminal {
            return false;
        }
        'looks: for _ in 0..LOOKS_AT_ONCE {
            let Ok(Look::Came(byte)) = self.read() else {
                return false;
            };
            if self.breaks_off(byte) {
                return true;
            }
        }
        false
    }
}
