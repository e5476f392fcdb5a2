//! Sums of points.
ghost use Rattle.std.specs.Prelude.{◌≡◌, min, sum_by};
ghost use Rattle.grade_sheets.specs.Points.{given_for, asked_for};

use crate::asked::Asked;
use crate::judging::Mark;

/// The points of all that a run has, 2^64 - 1 at most.
pub fn points(marks: &[Mark]) -> u64
    ensures { result ≡ min (sum_by given_for marks.now) u64.MAX }
{
    let mut sum: u64 = 0;
    for mark in marks {
        sum = sum.saturating_add(u64::from(mark.given()));
    }
    sum
}

/// The points of all that is asked of a run, 2^64 - 1 at most.
pub fn points_asked(asked: &[Asked]) -> u64
    ensures { result ≡ min (sum_by asked_for asked.now) u64.MAX }
{
    let mut sum: u64 = 0;
    for one in asked {
        sum = sum.saturating_add(u64::from(one.points));
    }
    sum
}
