//! Whether notes are these, in this order, and no others.
ghost use Rattle.std.specs.Prelude.{◌≡◌, filter, true, false, MatchOption};
ghost use Rattle.grade_rules.specs.Patterns.{fits_one_of};
ghost use Rattle.grade_rules.specs.Judged.{IsOther};
ghost use Rattle.grade_rules.specs.Rules.{are_these};

use crate::note::Note;
use crate::pattern::{Pattern, fits_any};

/// Among the notes that one of the patterns `of` fits, the place of the first that `wanted` doesn't have there, the
/// notes' number if too few are there; `None` if they are as `wanted` says, one by one.
pub fn first_other(of: &[Pattern], wanted: &[Pattern], notes: &[Note]) -> Option<usize>
    ensures { MatchOption result (are_these wanted.now (filter (fits_one_of of.now) notes.now) ≡ true)
        (λ place. (are_these wanted.now (filter (fits_one_of of.now) notes.now) ≡ false)
        × IsOther of.now wanted.now notes.now place) }
{
    let mut done: usize = 0;
    for (place, note) in notes.iter().enumerate() {
        if fits_any(of, *note) {
            if done >= wanted.len() || !wanted[done].fits(*note) {
                return Some(place);
            }
            done += 1;
        }
    }
    if done < wanted.len() {
        return Some(notes.len());
    }
    None
}
