//! A descriptor of a process, by its number.
ghost use Rattle.std.specs.Prelude.{◌≡◌, ◌<◌};
ghost use Rattle.xk_base.specs.declared.limits.TheConstants.{NOFILE};

use std::marker::Model;

/// A descriptor of a process, from 0 up to, but not including, [`NOFILE`](crate::limits::NOFILE).
#[derive(Clone, Copy)]
pub struct Fd {
    number: u8,
}

impl Model for Fd {
    ghost use Rattle.std.specs.Prelude.{ℕ, ◌<◌};
    ghost use Rattle.xk_base.specs.declared.limits.TheConstants.{NOFILE};

    ghost Value = { ℕ };

    ghost view = { λ d. d.number };

    ghost invariant = { λ d. d.number < NOFILE };

    ghost inverse = { λ n. record { number = n } };
}

impl Fd {
    /// The descriptor of this number.
    pub fn new(number: u8) -> Fd
        requires { number < NOFILE }
        ensures { result ≡ number }
    {
        Fd { number }
    }

    /// Its number.
    pub fn number(self) -> u8
        ensures value { result ≡ self }
        ensures range { self < NOFILE }
    {
        self.number
    }

    /// Its number, as an index.
    pub fn index(self) -> usize
        ensures value { result ≡ self }
        ensures range { self < NOFILE }
    {
        self.number as usize
    }
}
