//! A process, by its number.
ghost use Rattle.std.specs.Prelude.{◌≡◌, ◌≤◌};
ghost use Rattle.xk_base.specs.declared.limits.TheConstants.{PID_MAX};

use std::marker::Model;

/// The number of a process, from 1 to [`PID_MAX`](crate::limits::PID_MAX).
#[derive(Clone, Copy, Debug, PartialEq, Eq)]
pub struct Pid {
    number: u32,
}

impl Model for Pid {
    ghost use Rattle.std.specs.Prelude.{ℕ, ◌≤◌};
    ghost use Rattle.xk_base.specs.declared.limits.TheConstants.{PID_MAX};

    ghost Value = { ℕ };

    ghost view = { λ p. p.number };

    ghost invariant = { λ p. (1 ≤ p.number) × (p.number ≤ PID_MAX) };

    ghost inverse = { λ n. record { number = n } };
}

impl Pid {
    /// The process of this number.
    pub fn new(number: u32) -> Pid
        requires positive { 1 ≤ number }
        requires bounded { number ≤ PID_MAX }
        ensures { result ≡ number }
    {
        Pid { number }
    }

    /// Its number.
    pub fn number(self) -> u32
        ensures value { result ≡ self }
        ensures positive { 1 ≤ self }
        ensures bounded { self ≤ PID_MAX }
    {
        self.number
    }
}
