//! The keyboard and the clock, as the loop sees them.
ghost use Rattle.std.specs.Prelude.{◌≡◌, List, Option, ℕ, IfOk};
ghost use Rattle.std.specs.Io.KnownBytes.{Consumes};
ghost use Rattle.xv_live.specs.Keys.{bytes_in};

use program_files::Failure;

/// What a look at the keyboard comes to.
#[derive(Clone, Copy)]
pub enum Look {
    /// This byte was typed.
    Came(u8),
    /// None was typed now.
    NoneNow,
    /// None will be typed any more.
    Ended,
}

/// The keyboard and the clock, as the loop sees them.
pub trait Host {
    // The bytes that are still to come from the keyboard, if they are known.
    ghost coming: { Self → Option (List ℕ) };

    /// Whether a look at the keyboard answers at once. One that doesn't waits for a key.
    fn is_terminal(&self) -> bool;

    /// The next byte that was typed.
    ///
    /// # Errors
    ///
    /// [`Failure::Read`] if the keyboard can't be read.
    fn look(&mut self) -> Result<Look, Failure<'static>>
        ensures { IfOk result (λ l. Consumes (coming self.old) (coming self.new) (bytes_in l)) };

    /// Whether the time for a tick has come since the last one that was told.
    ///
    /// # Errors
    ///
    /// [`Failure::Clock`] if the clock can't be read.
    fn tick_is_due(&mut self) -> Result<bool, Failure<'static>>
        ensures { coming self.new ≡ coming self.old };

    /// Rests for a moment, at most up to the next tick.
    ///
    /// # Errors
    ///
    /// As [`tick_is_due`](Host::tick_is_due).
    fn rest(&mut self) -> Result<(), Failure<'static>>
        ensures { coming self.new ≡ coming self.old };

    /// Waits for a moment, while the machine is stopped: a second at most.
    fn doze(&mut self)
        ensures { coming self.new ≡ coming self.old };

    /// Lets the clock begin anew: the next tick is due a whole tick from now.
    ///
    /// # Errors
    ///
    /// As [`tick_is_due`](Host::tick_is_due).
    fn restart(&mut self) -> Result<(), Failure<'static>>
        ensures { coming self.new ≡ coming self.old };
}
