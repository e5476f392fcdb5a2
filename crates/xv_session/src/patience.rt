//! How long whoever waits for an answer will wait.
ghost use Rattle.std.specs.Prelude.{◌≡◌, Bool, true, false};

/// The patience of whoever waits for an answer. When it is over, what runs for the answer is broken off.
pub trait Patience {
    // Whether it may ever be over.
    ghost may_end: { Bool };

    /// Whether it is over. It is asked after each stretch of events, if more are to be sent.
    fn is_over(&mut self) -> bool
        ensures { result ≡ true → may_end ≡ true };
}

/// A patience that is never over.
#[derive(Clone, Copy)]
pub struct Endless;

impl Patience for Endless {
    ghost may_end = { false };

    fn is_over(&mut self) -> bool {
        false
    }
}
