//! The registers that calls use, by their numbers (RISC-V calling convention).

/// The stack pointer, sp.
pub(crate) const STACK_POINTER: u8 = 2;

/// The first argument, and the answer, a0.
pub(crate) const FIRST_ARGUMENT: u8 = 10;

/// The second argument, a1.
pub(crate) const SECOND_ARGUMENT: u8 = 11;

/// The third argument, a2.
pub(crate) const THIRD_ARGUMENT: u8 = 12;

/// The number of a call, a7.
pub(crate) const CALL_NUMBER: u8 = 17;
