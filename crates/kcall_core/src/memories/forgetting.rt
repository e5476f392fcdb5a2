//! Which pages a hart forgets once they are gone from its tables.
ghost use Rattle.std.specs.Prelude.{◌≡◌, ℕ, ◌+◌, ◌^◌, ◌<◌, ◌≤◌, List, Some};
ghost use Rattle.hart_core.specs.Translations.{Fits, FitsBut, kept_frame};
ghost use Rattle.kcall_core.specs.Memories.{is_between};

use hart_core::Hart;
use xk_base::{Frame, Vpn};

/// So many pages are forgotten one by one; if there may be more, all are forgotten at once.
const FORGOTTEN_ONE_BY_ONE: u32 = 64;

/// A hart forgets the pages from `first` on, which are gone from its tables; all of them lay below `end`. It
/// forgets them one by one if `end` is at most 64 pages behind `first`, and else forgets all pages.
pub(crate) fn forget_from(hart: &mut Hart, root: Frame, first: u32, end: u32)
    requires first_in { first ≤ 2 ^ 26 }
    requires end_in { end ≤ 2 ^ 26 }
    requires root { hart.old.root ≡ Some root }
    ensures regs { hart.new.regs ≡ hart.old.regs }
    ensures root { hart.new.root ≡ Some root }
    ensures fits { (ram : List (List ℕ)) → FitsBut ram root hart.old.cache (is_between first end)
        → Fits ram root hart.new.cache }
    ensures kept { end ≤ first + 64 → (page : ℕ) → page < first
        → kept_frame hart.new.cache page ≡ kept_frame hart.old.cache page }
{
    if first + FORGOTTEN_ONE_BY_ONE < end {
        hart.leave();
        hart.switch(root);
        return;
    }
    for page in first..end {
        hart.forget(Vpn::new(page));
    }
}
