//! What is known of the instructions from an address on.
ghost use Rattle.std.specs.Prelude.{◌≡◌};
ghost use Rattle.line_tables.specs.Facts as meant;

use crate::source::{Source, is_same_text};

/// The register that a function's frame is counted from.
#[derive(Clone, Copy)]
pub(crate) enum FrameBase {
    /// The stack pointer, sp.
    Sp,
    /// The frame pointer, s0.
    S0,
}

/// How a function's call lies on the stack.
#[derive(Clone, Copy)]
pub(crate) struct Frame {
    /// The register that the caller's part of the stack is counted from.
    pub base: FrameBase,
    /// So many bytes above it the caller's part begins.
    pub size: u64,
    /// So many bytes below the caller's part the return address lies; 0 if it is still in its register, or isn't told.
    pub ra: u64,
    /// The same of the caller's s0.
    pub s0: u64,
}

/// What is known from an address on.
#[derive(Clone, Copy)]
pub(crate) enum Fact {
    /// The instructions are of this line.
    Line(Source),
    /// No line is known.
    NoLine,
    /// A call lies so on the stack.
    Framed(Frame),
    /// How a call lies on the stack isn't known.
    NoFrame,
}

/// What a row of a table tells.
#[derive(Clone, Copy)]
pub(crate) struct Told {
    /// The address of the first instruction that it tells of.
    pub address: u64,
    /// It only ends what the rows before it told: at its address any other row counts.
    pub is_end: bool,
    /// What it tells.
    pub fact: Fact,
}

/// Whether two frames are counted from the same register.
fn is_same_base(one: FrameBase, other: FrameBase) -> bool
    ensures { result ≡ meant.is_same_base one other }
{
    match (one, other) {
        (FrameBase::Sp, FrameBase::Sp) => true,
        (FrameBase::S0, FrameBase::S0) => true,
        _ => false,
    }
}

/// Whether two frames are the same.
fn is_same_frame(one: Frame, other: Frame) -> bool
    ensures { result ≡ meant.is_same_frame one other }
{
    is_same_base(one.base, other.base)
        && one.size == other.size
        && one.ra == other.ra
        && one.s0 == other.s0
}

/// Whether two facts tell the same.
pub(crate) fn is_same_fact(one: Fact, other: Fact) -> bool
    ensures { result ≡ meant.is_same_fact one other }
{
    match (one, other) {
        (Fact::Line(a), Fact::Line(b)) => is_same_text(a.file, b.file) && a.line == b.line,
        (Fact::NoLine, Fact::NoLine) => true,
        (Fact::Framed(a), Fact::Framed(b)) => is_same_frame(a, b),
        (Fact::NoFrame, Fact::NoFrame) => true,
        _ => false,
    }
}
