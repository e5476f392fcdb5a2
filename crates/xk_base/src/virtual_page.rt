//! A page of virtual memory, by its number.
ghost use Rattle.std.specs.Prelude.{◌≡◌, ◌<◌, ◌*◌, ◌/◌};
ghost use Rattle.xk_base.specs.declared.limits.TheConstants.{VPN_END};

use crate::limits::{ADDRESS_END, PAGE_BYTES};
use std::marker::Model;

/// A virtual page, by its number: the address of its first byte divided by [`PAGE_BYTES`].
#[derive(Clone, Copy, PartialEq, Eq)]
pub struct Vpn {
    number: u32,
}

impl Model for Vpn {
    ghost use Rattle.std.specs.Prelude.{ℕ, ◌<◌};
    ghost use Rattle.xk_base.specs.declared.limits.TheConstants.{VPN_END};

    ghost Value = { ℕ };

    ghost view = { λ v. v.number };

    ghost invariant = { λ v. v.number < VPN_END };

    ghost inverse = { λ n. record { number = n } };
}

impl Vpn {
    /// The page of this number, below [`VPN_END`](crate::limits::VPN_END).
    pub fn new(number: u32) -> Vpn
        requires { number < VPN_END }
        ensures { result ≡ number }
    {
        Vpn { number }
    }

    /// The page in which an address lies, below [`ADDRESS_END`].
    #[inline(always)]
    pub fn of_address(address: u64) -> Vpn
        requires { address < ADDRESS_END }
        ensures { result ≡ address / 4096 }
    {
        Vpn {
            number: (address / PAGE_BYTES) as u32,
        }
    }

    /// The address of its first byte.
    #[inline(always)]
    pub fn address(self) -> u64
        ensures value { result ≡ 4096 * self }
        ensures range { result < ADDRESS_END }
    {
        u64::from(self.number) * PAGE_BYTES
    }

    /// Its number.
    pub fn number(self) -> u32
        ensures value { result ≡ self }
        ensures range { self < VPN_END }
    {
        self.number
    }
}
