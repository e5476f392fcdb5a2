//! What the console shows while a word is obeyed.
ghost use Rattle.std.specs.Prelude.{◌≤◌, length};

use circular_buffer::HeapCircularBuffer;
use std::alloc::{AllocError, Global};

/// The most bytes that are kept.
const KEPT: usize = 512;

/// The bytes that the console shows: the last ones, and how many there were.
#[derive(Drop)]
pub struct Output {
    /// The last of them, 512 at most.
    pub last: HeapCircularBuffer<u8>,
    /// How many there were.
    pub count: u64,
    ghost fits: { length last.items ≤ last.capacity },
}

impl Output {
    ghost use Rattle.std.specs.Prelude.{◌≡◌, [], IfOk};
    ghost use Rattle.circular_buffer.specs.Buffer.{buffer};
    ghost use Rattle.xv_debug.specs.motion.Shown.{KeepsShown};

    /// None yet.
    ///
    /// # Errors
    ///
    /// The host has too little memory.
    pub(crate) fn new(alloc: Global) -> Result<Output, AllocError>
        ensures kept { IfOk result (λ output. output.last ≡ buffer [] KEPT) }
        ensures none { IfOk result (λ output. output.count ≡ 0) }
    {
        let last = HeapCircularBuffer::with_capacity(alloc, KEPT)?;
        Ok(Output { last, count: 0 })
    }

    /// These came after the others.
    pub(crate) fn add(&mut self, shown: &[u8])
        ensures { KeepsShown shown.now self.old self.new }
    {
        for place in 0..shown.len() {
            self.last.push_back(shown[place]);
            self.count = self.count.saturating_add(1);
        }
    }
}
