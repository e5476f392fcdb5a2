//! What a run comes to, and what a submission does.
ghost use Rattle.std.specs.Prelude.{◌≡◌, false, min, is_none, IfOk, IfSome, option_map, string_bytes};
ghost use Rattle.std.specs.List.{list_all, list_any};
ghost use Rattle.grade_sheets.specs.Points.{points_of_run, points_of_runs, points_of_exercise};
ghost use Rattle.grade_sheets.specs.Standings.{is_fault, check_may_fault, may_fault, is_on_faults, names_faults, has, standing_of, first_standing, first_refusal, IsGraded, IsUngraded};
ghost use Rattle.grade_sheets.specs.Records.{word_of};

use crate::asked::{Asked, Check};
use crate::exercise::{Exercise, Run};
use crate::judging::{Mark, Seen, marks};
use crate::sums::{points, points_asked};
use grade_rules::{End, Note, Pattern, Rule};
use std::alloc::{AllocError, Global};

/// What a submission, or one of its runs, comes to.
#[derive(Clone, Copy, PartialEq, Eq)]
pub enum Standing {
    /// It has all that is asked for.
    Right,
    /// It ends, and doesn't have all that is asked for.
    Wrong,
    /// A process ended by a fault that isn't asked for.
    Fault,
    /// It still computes when all Runs are over.
    Loops,
    /// All its processes sleep when all Runs are over.
    Waits,
    /// They do, and the console still sends what they wrote.
    Floods,
    /// It made more notes, or showed more bytes, than are kept.
    TooMuch,
    /// It used up its budget of work.
    Budget,
    /// It can't be run.
    Refused,
}

impl Standing {
    /// The word for it.
    pub fn word(self) -> &'static str
        ensures { result.now ≡ word_of self }
    {
        match self {
            Standing::Right => "right",
            Standing::Wrong => "wrong",
            Standing::Fault => "fault",
            Standing::Loops => "loops",
            Standing::Waits => "waits",
            Standing::Floods => "floods",
            Standing::TooMuch => "too much",
            Standing::Budget => "budget",
            Standing::Refused => "refused",
        }
    }
}

/// What a run gave.
#[derive(Drop)]
pub struct RunGrade {
    /// A mark for each thing that is asked of the run, in their order.
    pub marks: Vec<Mark>,
    pub standing: Standing,
    /// What the run came to, in a student's words, if that isn't an exit; empty else.
    pub cause: String,
}

/// What a submission gave.
#[derive(Drop)]
pub struct Grade {
    pub standing: Standing,
    pub points: u64,
    /// The points of all that is asked.
    pub of: u64,
    /// Why it isn't right; empty if it is.
    pub reason: String,
    pub runs: Vec<RunGrade>,
}

// Whether a note is a fault.
fn is_fault(note: &Note) -> bool
    ensures { result ≡ is_fault note.now }
{
    match *note {
        Note::Faulted { .. } => true,
        _ => false,
    }
}

// Whether a pattern is one of faults.
fn is_on_faults(pattern: &Pattern) -> bool
    ensures { result ≡ is_on_faults pattern.now }
{
    match *pattern {
        Pattern::Faulted { .. } => true,
        _ => false,
    }
}

// Whether one of the patterns is one of faults.
fn are_on_faults(patterns: &[Pattern]) -> bool
    ensures { result ≡ list_any is_on_faults patterns.now }
{
    patterns.iter().any(is_on_faults)
}

// Whether a rule asks for faults.
fn names_faults(rule: &Rule) -> bool
    ensures { result ≡ names_faults rule.now }
{
    match rule {
        Rule::Count { pattern, .. } => is_on_faults(pattern),
        Rule::InOrder { steps, .. } => are_on_faults(steps.as_slice()),
        Rule::Exactly { wanted, .. } => are_on_faults(wanted.as_slice()),
        _ => false,
    }
}

// Whether a run that has this may have faults: a rule asks for them, or the programs aren't the student's.
fn check_may_fault(check: &Check) -> bool
    ensures { result ≡ check_may_fault check.now }
{
    match check {
        Check::Notes { rule, .. } => names_faults(rule),
        Check::Line { .. } => true,
        Check::Numbered(_) => true,
        Check::Predicts { .. } => true,
        _ => false,
    }
}

// Whether a run that has all of this may have faults.
fn checks_may_fault(checks: &[Check]) -> bool
    ensures { result ≡ list_any check_may_fault checks.now }
{
    checks.iter().any(check_may_fault)
}

// Whether a run that has what is asked may have faults.
fn may_fault(asked: &Asked) -> bool
    ensures { result ≡ may_fault asked.now }
{
    checks_may_fault(asked.checks.as_slice())
}

// Whether a run has what a mark is for.
fn has(mark: &Mark) -> bool
    ensures { result ≡ has mark.now }
{
    mark.why.is_none()
}

// Whether a run has all that the marks are for.
fn is_right(marks: &[Mark]) -> bool
    ensures { result ≡ list_all has marks.now }
{
    marks.iter().all(has)
}

// Whether a run may have faults that has all that is asked.
fn any_may_fault(asked: &[Asked]) -> bool
    ensures { result ≡ list_any may_fault asked.now }
{
    asked.iter().any(may_fault)
}

// Whether a note is there of a fault.
fn has_faults(notes: &[Note]) -> bool
    ensures { result ≡ list_any is_fault notes.now }
{
    notes.iter().any(is_fault)
}

// What a run comes to that has all that is asked, or not.
fn standing_after(is_right: bool, may_fault: bool, faulted: bool, end: End) -> Standing
    ensures { result ≡ standing_of is_right may_fault faulted end }
{
    if is_right {
        return Standing::Right;
    }
    match end {
        End::TooManyNotes => Standing::TooMuch,
        End::TooMuchShown => Standing::TooMuch,
        End::OverBudget => Standing::Budget,
        End::Computes => Standing::Loops,
        End::Waits => Standing::Waits,
        End::Floods => Standing::Floods,
        End::Exited(_) => {
            if faulted && !may_fault {
                Standing::Fault
            } else {
                Standing::Wrong
            }
        }
    }
}

/// What a run gives by what is asked of it. What it came to is left empty.
///
/// # Errors
///
/// [`AllocError`] if the host has too little memory.
pub fn graded(alloc: Global, asked: &[Asked], seen: &Seen<'_>) -> Result<RunGrade, AllocError>
    ensures { IfOk result (IsGraded asked.now seen.now) }
{
    let given = marks(alloc, asked, seen)?;
    let right = is_right(given.as_slice());
    let allowed = any_may_fault(asked);
    let faulted = has_faults(seen.notes);
    Ok(RunGrade {
        marks: given,
        standing: standing_after(right, allowed, faulted, seen.end),
        cause: String::new(alloc),
    })
}

// The mark for what is asked of a run that can't be made.
fn unmet(alloc: Global, asked: &Asked) -> Result<Mark, AllocError>
    ensures points { IfOk result (λ mark. mark.points ≡ asked.now.points) }
    ensures why { IfOk result (λ mark. is_none mark.why ≡ false) }
{
    Ok(Mark {
        points: asked.points,
        why: Some(String::from_str(alloc, "it can't be run")?),
    })
}

/// What a run gives that can't be made, and why it can't: no points.
///
/// # Errors
///
/// [`AllocError`] if the host has too little memory.
pub fn ungraded(alloc: Global, asked: &[Asked], why: String) -> Result<RunGrade, AllocError>
    ensures refused { IfOk result (IsUngraded asked.now) }
    ensures points { IfOk result (λ g. points_of_run g ≡ 0) }
    ensures cause { IfOk result (λ g. g.cause ≡ why) }
{
    let mut marks = Vec::new(alloc);
    for one in asked {
        marks.push(unmet(alloc, one)?)?;
    }
    Ok(RunGrade {
        marks,
        standing: Standing::Refused,
        cause: why,
    })
}

// That a run doesn't have what is called so, and why.
fn lack(alloc: Global, name: &str, why: &str) -> Result<String, AllocError> {
    format!(in alloc; "{name}: {why}")
}

// The first thing that a run doesn't have, as text; empty if it has all.
fn first_why(alloc: Global, run: &Run, grade: &RunGrade) -> Result<String, AllocError> {
    for (asked, mark) in run.asked.iter().zip(grade.marks.iter()) {
        if let Some(why) = &mark.why {
            return lack(alloc, asked.name.as_str(), why.as_str());
        }
    }
    Ok(String::new(alloc))
}

// Why a run that was made isn't right, as text; empty if it is.
fn reason(alloc: Global, run: &Run, grade: &RunGrade) -> Result<String, AllocError> {
    let cause = grade.cause.as_str();
    let why = first_why(alloc, run, grade)?;
    if cause.is_empty() {
        return Ok(why);
    }
    let why = why.as_str();
    format!(in alloc; "{cause}; {why}")
}

// Why the first run that isn't right isn't, as text; empty if all are.
fn first_reason(alloc: Global, runs: &[Run], grades: &[RunGrade]) -> Result<String, AllocError> {
    for (run, grade) in runs.iter().zip(grades.iter()) {
        if grade.standing != Standing::Right {
            return reason(alloc, run, grade);
        }
    }
    Ok(String::new(alloc))
}

// Why the first run that isn't right couldn't be made, if it couldn't.
fn first_refusal(runs: &[RunGrade]) -> Option<&str>
    ensures { option_map (λ cause. cause.now) result ≡ first_refusal runs.now }
{
    for run in runs {
        match run.standing {
            Standing::Right => {}
            Standing::Refused => return Some(run.cause.as_str()),
            _ => return None,
        }
    }
    None
}

// What is told of runs: why the first that isn't right couldn't be made, or what it lacks.
fn told_reason(alloc: Global, runs: &[Run], grades: &[RunGrade]) -> Result<String, AllocError>
    ensures { IfOk result (λ text. IfSome (first_refusal grades.now) (λ cause. string_bytes text ≡ cause)) }
{
    match first_refusal(grades) {
        Some(cause) => String::from_str(alloc, cause),
        None => first_reason(alloc, runs, grades),
    }
}

// What the first run comes to that isn't right.
fn first_standing(runs: &[RunGrade]) -> Standing
    ensures { result ≡ first_standing runs.now }
{
    for run in runs {
        if run.standing != Standing::Right {
            return run.standing;
        }
    }
    Standing::Right
}

// The points of runs, 2^64 - 1 at most.
fn points_of_runs(runs: &[RunGrade]) -> u64
    ensures { result ≡ min (points_of_runs runs.now) u64.MAX }
{
    let mut all: u64 = 0;
    for run in runs {
        all = all.saturating_add(points(run.marks.as_slice()));
    }
    all
}

// The points of all that is asked of runs, 2^64 - 1 at most.
fn points_of_exercise(runs: &[Run]) -> u64
    ensures { result ≡ min (points_of_exercise runs.now) u64.MAX }
{
    let mut all: u64 = 0;
    for run in runs {
        all = all.saturating_add(points_asked(run.asked.as_slice()));
    }
    all
}

impl Grade {
    /// What a submission gives whose runs gave this, one for each run of the exercise.
    ///
    /// # Errors
    ///
    /// [`AllocError`] if the host has too little memory.
    pub fn of(alloc: Global, exercise: &Exercise, runs: Vec<RunGrade>) -> Result<Grade, AllocError>
        ensures runs { IfOk result (λ g. g.runs ≡ runs) }
        ensures standing { IfOk result (λ g. g.standing ≡ first_standing runs.items) }
        ensures points { IfOk result (λ g. g.points ≡ min (points_of_runs runs.items) u64.MAX) }
        ensures reason { IfOk result (λ g. IfSome (first_refusal runs.items) (λ cause. string_bytes g.reason ≡ cause)) }
        ensures asked { IfOk result (λ g. g.of ≡ min (points_of_exercise exercise.now.runs.items) u64.MAX) }
    {
        let reason = told_reason(alloc, exercise.runs.as_slice(), runs.as_slice())?;
        Ok(Grade {
            standing: first_standing(runs.as_slice()),
            points: points_of_runs(runs.as_slice()),
            of: points_of_exercise(exercise.runs.as_slice()),
            reason,
            runs,
        })
    }
}
