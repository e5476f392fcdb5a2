//! What a caller sees of a process: the bytes of its memory, and the registers of a call.
ghost use Rattle.std.specs.Prelude.{◌≡◌, ℕ, Option};

/// Where bytes and registers are read. What isn't there is `None`.
pub trait Sight {
    /// The bytes of memory, by their addresses.
    ghost bytes: { Self → ℕ → Option ℕ };

    /// The registers of the call, by their numbers.
    ghost registers: { Self → ℕ → Option ℕ };

    /// The byte of memory at an address.
    fn byte(&self, address: u64) -> Option<u8>
        ensures { result ≡ bytes self.now address };

    /// A register of the call, by its number (RISC-V DWARF Specification, "DWARF register numbers"): 0 to 31 are x0 to
    /// x31.
    fn register(&self, number: u64) -> Option<u64>
        ensures { result ≡ registers self.now number };
}

/// A call that is looked at.
#[derive(Clone, Copy)]
pub struct Frame {
    /// Where it stands: the address of its next instruction; if it has made a call, that of the last byte of the call,
    /// since what a register holds may be lost from there on.
    pub address: u64,
    /// Where its caller's part of the stack begins (the CFA: DWARF 5, section 6.4), if that is known.
    pub base: Option<u64>,
}
