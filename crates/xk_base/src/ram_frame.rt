//! A frame of RAM, by its number.
ghost use Rattle.std.specs.Prelude.{◌≡◌, ◌<◌};
ghost use Rattle.xk_base.specs.declared.limits.TheConstants.{FRAMES_MAX};

use std::marker::Model;

/// A frame of RAM, by its number: frame 0 begins at [`RAM_BASE`](crate::limits::RAM_BASE).
#[derive(Clone, Copy, PartialEq, Eq)]
pub struct Frame {
    number: u32,
}

impl Model for Frame {
    ghost use Rattle.std.specs.Prelude.{ℕ, ◌<◌};
    ghost use Rattle.xk_base.specs.declared.limits.TheConstants.{FRAMES_MAX};

    ghost Value = { ℕ };

    ghost view = { λ f. f.number };

    ghost invariant = { λ f. f.number < FRAMES_MAX };

    ghost inverse = { λ n. record { number = n } };
}

impl Frame {
    /// The frame of this number, below [`FRAMES_MAX`](crate::limits::FRAMES_MAX).
    pub fn new(number: u32) -> Frame
        requires { number < FRAMES_MAX }
        ensures { result ≡ number }
    {
        Frame { number }
    }

    /// Its number.
    pub fn number(self) -> u32
        ensures value { result ≡ self }
        ensures range { self < FRAMES_MAX }
    {
        self.number
    }

    /// Its number, as an index.
    pub fn index(self) -> usize
        ensures value { result ≡ self }
        ensures range { self < FRAMES_MAX }
    {
        self.number as usize
    }
}
