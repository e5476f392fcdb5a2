//! Looking back along a run, for the last place before here at which something holds.
ghost use Rattle.std.specs.Prelude.{◌≡◌, ◌≤◌, ℕ, Bool, Option, None, IfOk, IfErr};
ghost use Rattle.xv_session.specs.LastFound.{IsLast};

use crate::patience::Patience;
use std::alloc::Global;

/// How many places are looked at first.
const FIRST_WINDOW: u64 = 1024;

/// How many times as many each time.
const WINDOW_GROWTH: u64 = 16;

/// How often, before all places are looked at.
const WINDOWS: u32 = 16;

/// Who looks at the places of a run that lie before here.
pub trait LooksBack {
    /// What is looked for.
    type Goal;
    /// What is told of a place at which it was found.
    type Found: Drop;
    /// Why it isn't looked for.
    type Refusal: Drop;

    // How many places lie before here.
    ghost places: { Self → ℕ };

    // All places before here were looked at, from one on, and this is what was found last among them.
    ghost looked: { Self.Goal → (begin : ℕ) → (old : Self) → (new : Self) → Option Self.Found → Type 0 };

    // What stays the same, whatever is looked for.
    ghost stays: { (old : Self) → (new : Self) → Type 0 };

    // Why it may not be looked for, if a patience may end, or doesn't.
    ghost refuses: { (may_end : Bool) → Self.Refusal → Type 0 };

    /// How many places lie before here.
    fn places(&self) -> u64
        ensures { result ≡ places self.now };

    /// Looks at all places before here, from one on, and tells what was found last among them.
    ///
    /// # Errors
    ///
    /// Its refusal.
    fn look_from<P: Patience>(
        &mut self,
        alloc: Global,
        goal: &Self::Goal,
        begin: u64,
        patience: &mut P,
    ) -> Result<Option<Self::Found>, Self::Refusal>
        requires { begin ≤ places self.old }
        ensures looked { IfOk result (λ found. looked goal.now begin self.old self.new found) }
        ensures stays { stays self.old self.new }
        ensures refused { IfErr result (λ refusal. refuses P.may_end refusal) };

    // Where nothing was looked for, all stays; and what stays twice, stays.
    ghost stays_first: { (a : Self) → stays a a };

    ghost stays_on: { (a : Self) → (b : Self) → (c : Self) → stays a b → stays b c → stays a c };

    // What is looked for once more, where nothing was found, is looked for before the same place.
    ghost looked_again: { (goal : Self.Goal) → (before : ℕ) → (begin : ℕ) → (a : Self) → (b : Self) → (c : Self) → (found : Option Self.Found) → looked goal before a b None → looked goal begin b c found → looked goal begin a c found };
}

/// Looks for the last place before here at which something holds: from ever further back on, at last from the run's
/// first place.
///
/// # Errors
///
/// The first refusal.
pub fn last_before_here<L: LooksBack, P: Patience>(
    looker: &mut L,
    alloc: Global,
    goal: &L::Goal,
    patience: &mut P,
) -> Result<Option<L::Found>, L::Refusal>
    ensures last { IfOk result (λ found. IsLast (L.looked goal.now) looker.old looker.new found) }
    ensures stays { L.stays looker.old looker.new }
    ensures refused { IfErr result (λ refusal. L.refuses P.may_end refusal) }
{
    let mut window = FIRST_WINDOW;
    'windows: for _ in 0..WINDOWS {
        let begin = looker.places().saturating_sub(window);
        let found = looker.look_from(alloc, goal, begin, patience)?;
        if found.is_some() {
            return Ok(found);
        }
        if begin == 0 {
            return Ok(found);
        }
        window = window.saturating_mul(WINDOW_GROWTH);
    }
    looker.look_from(alloc, goal, 0, patience)
}
