//! The call sbrk: the memory of a process grows and shrinks (the xv6 book, "Code: sbrk").
ghost use Rattle.std.specs.Prelude.{◌≡◌, ◌≤◌, true, false, Some, IfSome};
ghost use Rattle.xk_base.specs.declared.limits.TheConstants.{SIZE_LIMIT};
ghost use Rattle.kernel_spec.specs.rows.Buffers.{grown};
ghost use Rattle.kernel_spec.specs.rows.Calls.{sbrk, sbrklazy};
ghost use Rattle.kcall_core.specs.Kernel.{IsRunning, IsSound, IsTooDear, HasImage, live_now};
ghost use Rattle.kernel_spec.specs.rows.Sizes.{resized, resized_lazily, at_size};
ghost use Rattle.kcall_core.specs.Whole.{IsWhole};
ghost use Rattle.kcall_core.specs.Makes.{Makes, view_now, answer_of};

use crate::call_end::CallEnd;
use crate::kernel::Kernel;
use crate::kernel::syscall::c_int;
use hart_core::Hart;
use proc_table::Call;
use xk_base::Perm;
use xk_base::limits::SIZE_LIMIT;

/// The size after a call of sbrk; `None` if it would be below 0 or above the limit.
fn resized(size: u64, n: i32) -> Option<u64>
    requires { size ≤ SIZE_LIMIT }
    ensures value { result ≡ resized size n }
    ensures limit { IfSome result (λ new. new ≤ SIZE_LIMIT) }
{
    if n < 0 {
        return size.checked_sub(u64::from(n.unsigned_abs()));
    }
    let new = size + n as u64;
    if new > SIZE_LIMIT { None } else { Some(new) }
}

/// The size after a call of sbrklazy; `None` if it would be smaller, or above the limit.
fn resized_lazily(size: u64, n: i32) -> Option<u64>
    requires { size ≤ SIZE_LIMIT }
    ensures value { result ≡ resized_lazily size n }
    ensures limits { IfSome result (λ new. (size ≤ new) × (new ≤ SIZE_LIMIT)) }
{
    if n < 0 {
        return None;
    }
    let new = size + n as u64;
    if new > SIZE_LIMIT { None } else { Some(new) }
}

impl Kernel {
    /// The image of the process that runs becomes greater, by pages of zeros, or smaller. The answer is
    /// whether it did. It doesn't if the greater image costs more than the one that is there and the
    /// free frames; then nothing is changed.
    fn resize(&mut self, hart: &mut Hart, size: u64) -> bool
        requires sound { IsSound self.old hart.old }
        requires running { IsRunning self.old }
        requires limit { size ≤ SIZE_LIMIT }
        ensures resized { result ≡ true
            → HasImage self.old hart.old (at_size (live_now self.old hart.old).image size) self.new
            hart.new }
        ensures refused { result ≡ false
            → let image = (live_now self.old hart.old).image in
            (image.size ≤ size) × IsTooDear self.old image (grown image size)
            × HasImage self.old hart.old image self.new hart.new }
    {
        let slot = self.running_slot();
        if size < self.memories.size(slot) {
            self.memories.shrink(slot, size, hart);
            return true;
        }
        self.memories.grow(slot, size, Perm::data()).is_ok()
    }

    /// The call sbrk: the image of the process that runs grows by `n` bytes, its first argument, or
    /// shrinks by `-n`; the answer is the size that it had. If the size would be below 0 or above
    /// [`SIZE_LIMIT`](xk_base::limits::SIZE_LIMIT), or the image would cost more than the one that is there
    /// and the free frames, the answer is -1, and nothing else changes.
    pub(crate) fn sbrk(&mut self, hart: &mut Hart, call: &Call) -> CallEnd
        requires whole { IsWhole self.old hart.old }
        requires running { IsRunning self.old }
        requires unmarked { (live_now self.old hart.old).killed ≡ false }
        requires in_call { (live_now self.old hart.old).call ≡ Some call.now }
        ensures made { Makes self.old hart.old (sbrk call.now (view_now self.old hart.old)) self.new hart.new }
        ensures answer { (sbrk call.now (view_now self.old hart.old)).answer ≡ answer_of call.now.number result }
    {
        let slot = self.running_slot();
        let old = self.memories.size(slot);
        let Some(size) = resized(old, c_int(call.a0)) else {
            return self.done(hart, -1);
        };
        if !self.resize(hart, size) {
            return self.done(hart, -1);
        }
        self.done(hart, old.cast_signed())
    }

    /// The call sbrklazy: the size of the process that runs grows by `n` bytes, its first argument, and no page
    /// comes: the new ones are absent until they are touched. The answer is the size that it had. If `n` is below
    /// 0, or the size would be above [`SIZE_LIMIT`](xk_base::limits::SIZE_LIMIT), the answer is -1, and nothing else
    /// changes.
    pub(crate) fn sbrklazy(&mut self, hart: &mut Hart, call: &Call) -> CallEnd
        requires whole { IsWhole self.old hart.old }
        requires running { IsRunning self.old }
        ensures made { Makes self.old hart.old (sbrklazy call.now (view_now self.old hart.old)) self.new hart.new }
        ensures answer { (sbrklazy call.now (view_now self.old hart.old)).answer ≡ answer_of call.now.number result }
    {
        let slot = self.running_slot();
        let old = self.memories.size(slot);
        let Some(size) = resized_lazily(old, c_int(call.a0)) else {
            return self.refuse(hart);
        };
        self.memories.grow_lazily(slot, size);
        self.done(hart, old.cast_signed())
    }
}
