//! Pages of the processes that are absent: below the size, and not there (the xv6 book, "Page tables").
ghost use Rattle.std.specs.Prelude.{◌≡◌, ◌+◌, ◌/◌, ◌<◌, ◌≤◌, true, false, Some, IfSome, IfNone};
ghost use Rattle.xk_base.specs.Image.{price};
ghost use Rattle.xk_base.specs.declared.limits.TheConstants.{SIZE_LIMIT};
ghost use Rattle.addr_space.specs.Absent.{is_absent, bring, grown_lazily, pages_at, brought};
ghost use Rattle.hart_core.specs.declared.hart.Hart.{Hart};
ghost use Rattle.kernel_spec.specs.rows.Buffers.{writable};
ghost use Rattle.kcall_core.specs.Holdings.{HasMemory};
ghost use Rattle.kcall_core.specs.Memories.{each_of, free_of, AreSound, RunsIn};
ghost use Rattle.kcall_core.specs.Memories.{image_at, ImageChanges};

use crate::memories::Memories;
use xk_base::limits::ADDRESS_END;
use xk_base::{Access, Perm, Vpn};

impl Memories {
    /// Whether user code may write all of so many bytes from an address on, once their absent pages are there.
    pub fn may_write_touching(&self, slot: usize, address: u64, len: usize) -> bool
        requires sound { AreSound self.now }
        requires there { HasMemory (each_of self.now) slot }
        ensures { result ≡ writable (image_at self.now slot) address len }
    {
        let memory = self.memory(slot);
        user_copy::check_range_lazily(&memory.space, &self.ram, address, len, Access::Store).is_ok()
    }

    /// The page of an address, if it is absent in a slot.
    pub fn absent_page(&self, slot: usize, address: u64) -> Option<Vpn>
        requires sound { AreSound self.now }
        requires there { HasMemory (each_of self.now) slot }
        ensures absent { IfSome result (λ vpn.
            (vpn ≡ address / 4096)
            × (is_absent (image_at self.now slot) (address / 4096) ≡ true)) }
        ensures present { IfNone result (is_absent (image_at self.now slot) (address / 4096) ≡ false) }
    {
        let memory = self.memory(slot);
        if address >= ADDRESS_END {
            return None;
        }
        let vpn = Vpn::of_address(address);
        if !memory.space.absent(&self.ram, vpn) {
            return None;
        }
        Some(vpn)
    }

    /// An absent page of a slot comes, with zeros, if its frames are free; the answer is whether they are. If they
    /// aren't, nothing is changed.
    ///
    /// What a hart keeps of the slot's translations stays true.
    pub fn bring_page(&mut self, slot: usize, vpn: Vpn) -> bool
        requires sound { AreSound self.old }
        requires there { HasMemory (each_of self.old) slot }
        requires absent { is_absent (image_at self.old slot) vpn ≡ true }
        ensures brought { result ≡ true
            → ImageChanges self.old self.new slot (bring vpn (image_at self.old slot)) }
        ensures runs { (hart : Hart) → RunsIn self.old slot hart → RunsIn self.new slot hart }
        ensures refused { result ≡ false
            → let image = image_at self.old slot in
            (price image + free_of self.old < price (bring vpn image)) × (self.new ≡ self.old) }
    {
        let Some(mut memory) = self.each[slot].take() else {
            unreachable!();
        };
        let came = memory
            .space
            .map_zeroed(&mut self.pool, &mut self.ram, vpn, Perm::data());
        self.each[slot] = Some(memory);
        let is_there = came.is_ok();
        if !is_there {
            return false;
        }
        self.known.root = None;
        true
    }

    /// The absent pages in which one of so many bytes from an address on lies come, with zeros. They come if
    /// so many frames are free that `spare` are left; the answer is whether they do. Else nothing is changed.
    ///
    /// What a hart keeps of the slot's translations stays true.
    pub fn touch(&mut self, slot: usize, address: u64, len: usize, spare: u32) -> bool
        requires sound { AreSound self.old }
        requires there { HasMemory (each_of self.old) slot }
        ensures touched { result ≡ true
            → ImageChanges self.old self.new slot (brought (pages_at address len) (image_at self.old slot)) }
        ensures runs { (hart : Hart) → RunsIn self.old slot hart → RunsIn self.new slot hart }
        ensures fits { result ≡ true
            → let image = image_at self.old slot in
            price (brought (pages_at address len) image) + spare ≤ price image + free_of self.old }
        ensures refused { result ≡ false
            → let image = image_at self.old slot in
            (price image + free_of self.old < price (brought (pages_at address len) image) + spare)
            × (self.new ≡ self.old) }
    {
        let price = self.memory(slot).space.touch_price(&self.ram, address, len);
        if u64::from(self.pool.free()) < u64::from(price) + u64::from(spare) {
            return false;
        }
        self.bring(slot, address, len);
        true
    }

    /// The same, if so many frames are free.
    fn bring(&mut self, slot: usize, address: u64, len: usize)
        requires sound { AreSound self.old }
        requires there { HasMemory (each_of self.old) slot }
        requires fits { let image = image_at self.old slot in
            price (brought (pages_at address len) image) ≤ price image + free_of self.old }
        ensures touched { ImageChanges self.old self.new slot
            (brought (pages_at address len) (image_at self.old slot)) }
        ensures runs { (hart : Hart) → RunsIn self.old slot hart → RunsIn self.new slot hart }
    {
        let Some(mut memory) = self.each[slot].take() else {
            unreachable!();
        };
        self.known.root = None;
        let Ok(()) = memory
            .space
            .touch(&mut self.pool, &mut self.ram, address, len)
        else {
            unreachable!();
        };
        self.each[slot] = Some(memory);
    }

    /// Makes the size of the image of a slot greater, and adds no page. What a hart keeps of the slot's
    /// translations stays true.
    pub fn grow_lazily(&mut self, slot: usize, size: u64)
        requires sound { AreSound self.old }
        requires there { HasMemory (each_of self.old) slot }
        requires more { (image_at self.old slot).size ≤ size }
        requires limit { size ≤ SIZE_LIMIT }
        ensures grown { ImageChanges self.old self.new slot (grown_lazily (image_at self.old slot) size) }
        ensures runs { (hart : Hart) → RunsIn self.old slot hart → RunsIn self.new slot hart }
    {
        let Some(mut memory) = self.each[slot].take() else {
            unreachable!();
        };
        memory.space.grow_lazily(size);
        self.each[slot] = Some(memory);
    }
}
