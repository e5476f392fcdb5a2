//! How often notes stand there, and which are there that may not be.
ghost use Rattle.std.specs.Prelude.{◌≡◌, take, count_by, MatchOption};
ghost use Rattle.grade_rules.specs.Patterns.{fits};
ghost use Rattle.grade_rules.specs.Rules.{IsNoneOf, IsOneAt, IsEachBehind, IsBefore, StandsAt};

use crate::note::Note;
use crate::pattern::{Pattern, fits_any};

/// How many of the notes the pattern fits.
pub fn count(pattern: &Pattern, notes: &[Note]) -> usize
    ensures { result ≡ count_by (fits pattern.now) notes.now }
{
    notes.iter().filter(|note| pattern.fits(**note)).count()
}

/// The place of the first note that one of the patterns fits; `None` if none fits any.
pub fn first_of(patterns: &[Pattern], notes: &[Note]) -> Option<usize>
    ensures { MatchOption result (IsNoneOf patterns.now notes.now)
        (λ place. IsOneAt patterns.now notes.now place × IsNoneOf patterns.now (take place notes.now)) }
{
    for (place, note) in notes.iter().enumerate() {
        if fits_any(patterns, *note) {
            return Some(place);
        }
    }
    None
}

/// The place of the first note that `next` fits, and before which stands none that `first` fits; `None` if each
/// has one before it.
pub fn first_alone(first: &Pattern, next: &Pattern, notes: &[Note]) -> Option<usize>
    ensures { MatchOption result (IsEachBehind first.now next.now notes.now)
        (λ place. StandsAt next.now notes.now place × (¬ (IsBefore first.now notes.now place))) }
{
    let mut seen = false;
    for (place, note) in notes.iter().enumerate() {
        if !seen && next.fits(*note) {
            return Some(place);
        }
        seen = seen || first.fits(*note);
    }
    None
}
