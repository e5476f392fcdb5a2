//! Exercises as files, and what a run comes to by one.
//!
//! An exercise is a file of TOML, read by [`Exercise::read`]: how a program is run, and what is asked of the run.
//! [`graded`] tells of each thing that is asked whether a run has it, and why not, and [`Grade::of`] what a submission's
//! runs come to. What they promise is written in `specs/Grades.antt`, over the rules of `grade_rules`. [`csv_line`] and
//! [`xml_suite`] are the results as text; these, and the reasons, are tested.
#![tactic(auto)]

mod asked;
mod exercise;
mod forms;
mod grade;
mod judging;
mod keys;
mod notation;
mod numbers;
mod predictions;
mod quoted;
mod records;
mod refusal;
mod sums;
mod texts;
mod variant;

pub use asked::{Answer, Asked, Check};
pub use exercise::{Exercise, Run, Text};
pub use grade::{Grade, RunGrade, Standing, graded, ungraded};
pub use judging::{Mark, Seen, marks};
pub use quoted::{Grouped, Quoted};
pub use records::{csv_line, xml_suite};
pub use refusal::SheetError;
pub use sums::{points, points_asked};
pub use texts::lines_in;
pub use variant::place_of;
