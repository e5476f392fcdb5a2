//! What the kernel reads from a process's memory, and what it writes to it.
//!
//! It reads where user code may read, or may do so once the page is touched: an absent page reads as zeros, and none
//! comes. It writes where user code may write: `readable`, `writable_now`, `text_at` and `pointer_at` of
//! `specs/Buffers.antt`.
ghost use Rattle.std.specs.Prelude.{◌≡◌, ◌+◌, ◌^◌, ◌<◌, ◌≤◌, true, false};
ghost use Rattle.std.specs.Prelude.{length, take, drop, Some, None, IfOk, IfErr};
ghost use Rattle.xk_base.specs.Bytes.{image_bytes, write_image};
ghost use Rattle.kernel_spec.specs.rows.Buffers.{readable, writable_now, text_at, pointer_at};
ghost use Rattle.kcall_core.specs.Holdings.{HasMemory};
ghost use Rattle.kcall_core.specs.Memories.{each_of, free_of, AreSound, RunsIn, Same};
ghost use Rattle.kcall_core.specs.Memories.{image_at, ImageChanges};
ghost use Rattle.hart_core.specs.declared.hart.Hart.{Hart};

use crate::memories::{Memories, memory_in};
use xk_base::{Access, BadAddress};

impl Memories {
    /// Whether user code may read all of so many bytes from an address on, now or once their absent pages are there.
    pub fn may_read(&self, slot: usize, address: u64, len: usize) -> bool
        requires sound { AreSound self.now }
        requires there { HasMemory (each_of self.now) slot }
        ensures { result ≡ readable (image_at self.now slot) address len }
    {
        let memory = self.memory(slot);
        user_copy::check_range_lazily(&memory.space, &self.ram, address, len, Access::Load).is_ok()
    }

    /// Whether user code may write all of so many bytes from an address on.
    pub fn may_write(&self, slot: usize, address: u64, len: usize) -> bool
        requires sound { AreSound self.now }
        requires there { HasMemory (each_of self.now) slot }
        ensures { result ≡ writable_now (image_at self.now slot) address len }
    {
        let memory = self.memory(slot);
        user_copy::check_range(&memory.space, &self.ram, address, len, Access::Store).is_ok()
    }

    /// Copies bytes from the memory of a slot, as many as `out` holds. User code may read all of them, which
    /// was tested before: each page is walked to once.
    pub fn read_tested(&self, slot: usize, address: u64, out: &mut [u8])
        requires sound { AreSound self.now }
        requires there { HasMemory (each_of self.now) slot }
        requires readable { readable (image_at self.now slot) address (length out.old) ≡ true }
        ensures { out.new ≡ image_bytes (image_at self.now slot) address (length out.old) }
    {
        self.memory(slot).space.read_across(&self.ram, address, out);
    }

    /// Copies bytes to the memory of a slot. User code may write all of them, which was tested before: each
    /// page is walked to once. What a hart keeps of the slot's translations stays true, and as many frames
    /// are free as before.
    pub fn write_tested(&mut self, slot: usize, address: u64, bytes: &[u8])
        requires sound { AreSound self.old }
        requires there { HasMemory (each_of self.old) slot }
        requires writable { writable_now (image_at self.old slot) address (length bytes.now) ≡ true }
        ensures written { ImageChanges self.old self.new slot (write_image (image_at self.old slot) address bytes.now) }
        ensures free { free_of self.new ≡ free_of self.old }
        ensures runs { (hart : Hart) → RunsIn self.old slot hart → RunsIn self.new slot hart }
    {
        let memory = memory_in(&self.each, slot);
        self.known.root = None;
        memory.space.write_across(&mut self.ram, address, bytes);
    }

    /// Copies bytes to the memory of a slot. What a hart keeps of the slot's translations stays true, and
    /// as many frames are free as before.
    ///
    /// Errors: `BadAddress` exactly if user code may not write one of them; then nothing is changed.
    pub fn copy_out(&mut self, slot: usize, address: u64, bytes: &[u8]) -> Result<(), BadAddress>
        requires sound { AreSound self.old }
        requires there { HasMemory (each_of self.old) slot }
        ensures fine { IfOk result (λ _.
            writable_now (image_at self.old slot) address (length bytes.now) ≡ true) }
        ensures written { IfOk result (λ _.
            ImageChanges self.old self.new slot (write_image (image_at self.old slot) address bytes.now)) }
        ensures free { free_of self.new ≡ free_of self.old }
        ensures runs { (hart : Hart) → RunsIn self.old slot hart → RunsIn self.new slot hart }
        ensures refused { IfErr result (λ _.
            (writable_now (image_at self.old slot) address (length bytes.now) ≡ false)
            × Same self.old self.new) }
    {
        let memory = memory_in(&self.each, slot);
        self.known.root = None;
        user_copy::copy_out(&memory.space, &mut self.ram, address, bytes)
    }

    /// The number in eight bytes of the memory of a slot, little-endian. If it answers, the bytes end at
    /// or below 2^38.
    ///
    /// Errors: `BadAddress` exactly if user code may not read one of them.
    pub fn fetch_u64(&self, slot: usize, address: u64) -> Result<u64, BadAddress>
        requires sound { AreSound self.now }
        requires there { HasMemory (each_of self.now) slot }
        ensures low { IfOk result (λ _. address + 8 ≤ 2 ^ 38) }
        ensures number { IfOk result (λ n. pointer_at (image_at self.now slot) address ≡ Some n) }
        ensures refused { IfErr result (λ _. pointer_at (image_at self.now slot) address ≡ None) }
    {
        user_copy::fetch_u64_lazily(&self.memory(slot).space, &self.ram, address)
    }

    /// Copies a text from the memory of a slot to the front of `text`, without its zero byte, and tells how
    /// many bytes it has. With its zero byte it has at most as many as `text`, whose rest stays.
    ///
    /// Errors: `BadAddress` exactly if there is no such text that user code may read; then `text` is as
    /// it was.
    pub fn fetch_text(
        &self,
        slot: usize,
        address: u64,
        text: &mut [u8],
    ) -> Result<usize, BadAddress>
        requires sound { AreSound self.now }
        requires there { HasMemory (each_of self.now) slot }
        ensures short { IfOk result (λ n. n < length text.old) }
        ensures found { IfOk result (λ n.
            text_at (length text.old) (image_at self.now slot) address
            ≡ Some (take n text.new)) }
        ensures rest { IfOk result (λ n. drop n text.new ≡ drop n text.old) }
        ensures refused { IfErr result (λ _.
            (text_at (length text.old) (image_at self.now slot) address ≡ None)
            × (text.new ≡ text.old)) }
    {
        user_copy::fetch_text_lazily(&self.memory(slot).space, &self.ram, address, text)
    }
}
