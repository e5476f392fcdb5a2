//! Rows of call frame information (DWARF 5, section 6.4.1).

/// Where the part of the stack of a function's caller begins: the canonical frame address, CFA.
#[derive(Clone, Copy, Debug, PartialEq, Eq)]
pub enum Base {
    /// So many bytes above what a register has, by the register's DWARF number: 2 is sp, 8 is s0.
    Register { register: u64, offset: i64 },
    /// Not told yet.
    Unset,
    /// By an expression, which isn't read.
    Other,
}

/// Where a caller's value of a register is.
#[derive(Clone, Copy, Debug, PartialEq, Eq)]
pub enum Rule {
    /// The table doesn't tell it: what a call keeps by the calling convention is still there, and so is the return address
    /// in its register.
    Unset,
    /// It is lost.
    Undefined,
    /// Still in the register.
    SameValue,
    /// In memory, so many bytes above the CFA.
    AtOffset(i64),
    /// In another register.
    InRegister(u64),
    /// By another rule, which isn't read.
    Other,
}

/// The rules that hold at an instruction.
#[derive(Clone, Copy, Debug, PartialEq, Eq)]
pub struct FrameRules {
    /// The CFA.
    pub base: Base,
    /// The return address (ra, register 1).
    pub ra: Rule,
    /// The caller's s0 (register 8).
    pub s0: Rule,
}

/// Rules, and the address of the first instruction at which they hold.
#[derive(Clone, Copy, Debug, PartialEq, Eq)]
pub struct FrameRow {
    /// The address.
    pub address: u64,
    /// What holds from there on.
    pub rules: FrameRules,
}
