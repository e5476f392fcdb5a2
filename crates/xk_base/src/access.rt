//! Kinds of access to memory, what a page allows, and why an instruction can't go on.
ghost use Rattle.std.specs.Prelude.{◌≡◌};
ghost use Rattle.xk_base.specs.Access.{IsPerm, code_of, data_rights, right_for};

use std::marker::Model;

/// What an instruction does at an address.
#[derive(Clone, Copy)]
pub enum Access {
    Fetch,
    Load,
    Store,
}

/// The rights R, W, X and U, each given or not.
#[derive(Clone, Copy, PartialEq, Eq)]
pub struct Rights {
    pub read: bool,
    pub write: bool,
    pub execute: bool,
    /// Whether user code has the other three.
    pub user: bool,
}

impl Rights {
    /// Whether the right that an access needs is given: X, R or W. Whether it is user code's, U says.
    #[inline(always)]
    pub fn allow(self, access: Access) -> bool
        ensures { result ≡ right_for access self }
    {
        match access {
            Access::Fetch => self.execute,
            Access::Load => self.read,
            Access::Store => self.write,
        }
    }
}

/// The rights of a page: R or X is among them, and W only with R
/// (RISC-V Privileged ISA, Sv39: the other combinations name no leaf, or are reserved).
#[derive(Clone, Copy, PartialEq, Eq)]
pub struct Perm {
    rights: Rights,
}

impl Model for Perm {
    ghost use Rattle.xk_base.specs.declared.access.Rights.{Rights};

    ghost Value = { Rights };

    ghost use Rattle.xk_base.specs.Access.{IsPerm};

    ghost view = { λ p. p.rights };

    ghost invariant = { λ p. IsPerm p.rights };

    ghost inverse = { λ r. record { rights = r } };
}

impl Perm {
    /// A page's rights.
    pub fn new(rights: Rights) -> Perm
        requires { IsPerm rights }
        ensures { result ≡ rights }
    {
        Perm { rights }
    }

    /// What user code may do with its data, and with its stack: read and write.
    pub fn data() -> Perm
        ensures { result ≡ data_rights }
    {
        Perm {
            rights: Rights {
                read: true,
                write: true,
                execute: false,
                user: true,
            },
        }
    }

    /// Each of the rights.
    pub fn rights(self) -> Rights
        ensures value { result ≡ self }
        ensures sound { IsPerm self }
    {
        self.rights
    }
}

/// Why an instruction can't go on (RISC-V Privileged ISA, "Supervisor Cause Register").
///
/// An environment call from user mode, cause 8, is no fault and isn't among them.
#[derive(Clone, Copy, Debug, PartialEq, Eq)]
pub enum Cause {
    TargetMisaligned,
    IllegalInstruction,
    Breakpoint,
    LoadMisaligned,
    StoreMisaligned,
    FetchPageFault,
    LoadPageFault,
    StorePageFault,
}

impl Cause {
    /// The cause's number in the `scause` register.
    pub fn code(self) -> u8
        ensures { result ≡ code_of self }
    {
        match self {
            Cause::TargetMisaligned => 0,
            Cause::IllegalInstruction => 2,
            Cause::Breakpoint => 3,
            Cause::LoadMisaligned => 4,
            Cause::StoreMisaligned => 6,
            Cause::FetchPageFault => 12,
            Cause::LoadPageFault => 13,
            Cause::StorePageFault => 15,
        }
    }
}
