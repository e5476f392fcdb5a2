//! Pages that come when they are touched: by a load or a store, which faults, and by the buffer of a call (xv6's
//! `vmfault` of `vm.c`; the xv6 book, "Traps and system calls": page-fault exceptions).
ghost use Rattle.std.specs.Prelude.{◌≡◌, ◌⊎◌, ◌/◌, true, false, Some, None, ◌≢◌};
ghost use Rattle.addr_space.specs.Absent.{is_absent, pages_at};
ghost use Rattle.hart_core.specs.declared.hart.Hart.{Hart};
ghost use Rattle.kcall_core.specs.Kernel.{IsRunning, live_now};
ghost use Rattle.kcall_core.specs.Makes.{view_now, Makes, stop_now};
ghost use Rattle.kernel_spec.specs.rows.Touches.{touch};
ghost use Rattle.kcall_core.specs.Touched.{IsReady, IsTouched, IsUnready, HasFaulted};
ghost use Rattle.kcall_core.specs.Whole.{IsWhole};
ghost use Rattle.rv64i_core.specs.Step.{is_data_page_fault};
ghost use Rattle.rv64i_core.specs.declared.execution.Stop.TheVariants as stops;
ghost use Rattle.kernel_spec.specs.steps.Step.{own};
ghost use Rattle.kernel_spec.specs.steps.Cases as laws;

use crate::kernel::Kernel;
use hart_core::Hart;
use rv64i_core::Stop;
use xk_base::Cause;

/// Whether it is a page fault of a load or a store, and not of a fetch.
fn is_data_page_fault(cause: Cause) -> bool
    ensures { result ≡ is_data_page_fault cause }
{
    match cause {
        Cause::LoadPageFault | Cause::StorePageFault => true,
        _ => false,
    }
}

impl Kernel {
    /// An instruction of the process that runs has faulted, and nothing that can be seen is another. If it is a
    /// load or a store on an absent page, and the page's frames are free, the page comes, and it is done.
    #[cold]
    #[inline(never)]
    pub(crate) fn step_touching(&mut self, hart: &mut Hart, cause: Cause) -> Stop
        requires whole { IsWhole self.old hart.old }
        requires running { IsRunning self.old }
        requires between_calls { laws.IsBetweenCalls (live_now self.old hart.old) }
        requires faulted { HasFaulted cause self.old hart.old }
        ensures stop { result ≡ stop_now self.old hart.old }
        ensures done { result ≡ stops.Next
            → Makes self.old hart.old (own (view_now self.old hart.old)) self.new hart.new }
        ensures running { result ≡ stops.Next → IsRunning self.new }
        ensures between_calls { result ≡ stops.Next → laws.IsBetweenCalls (live_now self.new hart.new) }
        ensures stays { result ≢ stops.Next → (self.new ≡ self.old) × (hart.new ≡ hart.old) }
    {
        if !is_data_page_fault(cause) {
            return Stop::Fault(cause);
        }
        if !self.touch_page(hart.fault_address()) {
            return Stop::Fault(cause);
        }
        self.memories.step_again(hart)
    }

    /// Whether the page of an address is absent in the process that runs, and its frames are free. Then it comes.
    pub(crate) fn touch_page(&mut self, address: u64) -> bool
        requires whole { (hart : Hart) × IsWhole self.old hart }
        requires running { IsRunning self.old }
        ensures touched { result ≡ true → (hart : Hart) → IsWhole self.old hart
            → IsTouched (pages_at address 1) self.old hart self.new hart }
        ensures absent { result ≡ true → (hart : Hart) → IsWhole self.old hart
            → is_absent (live_now self.old hart).image (address / 4096) ≡ true }
        ensures stays { result ≡ false → self.new ≡ self.old }
        ensures refused { result ≡ false → (hart : Hart) → IsWhole self.old hart
            → (is_absent (live_now self.old hart).image (address / 4096) ≡ false)
            ⊎ (touch (pages_at address 1) (view_now self.old hart) ≡ None) }
    {
        let slot = self.running_slot();
        let Some(vpn) = self.memories.absent_page(slot, address) else {
            return false;
        };
        self.memories.bring_page(slot, vpn)
    }

    /// Whether user code may write all of the buffer of so many bytes at an address, in the slot of the process that
    /// runs, and at least `spare` frames are free beside it. Then its absent pages come; else nothing is changed.
    pub(crate) fn ready_buffer(&mut self, slot: usize, address: u64, len: usize, spare: u32) -> bool
        requires whole { (hart : Hart) × IsWhole self.old hart }
        requires slot { self.old.current ≡ Some slot }
        ensures ready { result ≡ true → (hart : Hart) → IsWhole self.old hart
            → IsReady address len spare self.old hart self.new hart }
        ensures stays { result ≡ false → self.new ≡ self.old }
        ensures unready { result ≡ false → (hart : Hart) → IsWhole self.old hart
            → IsUnready address len spare self.old hart }
    {
        if self.memories.may_write(slot, address, len) {
            if self.memories.free() < spare {
                return false;
            }
            return true;
        }
        self.touch_buffer(slot, address, len, spare)
    }

    /// The same of a buffer that user code may not write as it stands.
    #[cold]
    fn touch_buffer(&mut self, slot: usize, address: u64, len: usize, spare: u32) -> bool
        requires whole { (hart : Hart) × IsWhole self.old hart }
        requires slot { self.old.current ≡ Some slot }
        ensures ready { result ≡ true → (hart : Hart) → IsWhole self.old hart
            → IsReady address len spare self.old hart self.new hart }
        ensures stays { result ≡ false → self.new ≡ self.old }
        ensures unready { result ≡ false → (hart : Hart) → IsWhole self.old hart
            → IsUnready address len spare self.old hart }
    {
        if !self.memories.may_write_touching(slot, address, len) {
            return false;
        }
        self.memories.touch(slot, address, len, spare)
    }
}
