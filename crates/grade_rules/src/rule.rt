//! Rules, and whether they hold.
ghost use Rattle.std.specs.Prelude.{◌≡◌, ◌⊎◌, ℕ, true, false, count_by, filter, take, IfOk, MatchOption};
ghost use Rattle.grade_rules.specs.Choices.{is_choice, names_letters, pattern_with};
ghost use Rattle.grade_rules.specs.Patterns.{fits, fits_one_of};
ghost use Rattle.grade_rules.specs.Rules.{IsNoneOf, IsOneAt, are_these};
ghost use Rattle.grade_rules.specs.Judged.{all_with, IsOther, OrderTold, HoldsBy, HoldsOf, IsJudgedBy, IsOfAChoice, IsJudged, is_holding};

use crate::counting::{count, first_alone, first_of};
use crate::note::Note;
use crate::order::{Edge, Order, arrange};
use crate::pattern::{Pattern, has_letters, patterns_with};
use crate::pipes::{Choice, FIRST_PIPES};
use crate::sequence::first_other;
use std::alloc::{AllocError, Global};

/// What is asked of the notes of a run.
#[derive(Drop)]
pub enum Rule {
    /// The pattern fits at least and at most so many notes.
    Count {
        pattern: Pattern,
        least: usize,
        most: usize,
    },
    /// None of the patterns fits a note.
    NoneOf {
        patterns: Vec<Pattern>,
    },
    /// Before each note that `next` fits stands one that `first` fits.
    Before {
        first: Pattern,
        next: Pattern,
    },
    /// Each step has a note that it fits, and the notes stand in the order that the edges say.
    InOrder {
        steps: Vec<Pattern>,
        edges: Vec<Edge>,
    },
    /// The notes that one of the patterns `of` fits are those that `wanted` says, in this order, and no others.
    Exactly {
        of: Vec<Pattern>,
        wanted: Vec<Pattern>,
    },
}

/// Whether a rule holds of notes, and what shows that it doesn't.
#[derive(Clone, Copy)]
pub enum Judgement {
    /// It holds.
    Holds,
    /// So many notes are there: too few, or too many.
    Counted(usize),
    /// The note at this place is one that may not be there.
    Unwanted(usize),
    /// The note at this place has none before it that it needs.
    Alone(usize),
    /// For this step there is no note behind those of the steps before it.
    Missing(usize),
    /// The note at this place isn't the one that should stand there; the notes' number if one is missing at the end.
    Other(usize),
}

impl Judgement {
    /// Whether it says that the rule holds.
    pub fn holds(self) -> bool
        ensures { result ≡ is_holding self }
    {
        match self {
            Judgement::Holds => true,
            _ => false,
        }
    }

    // How many steps it says are there, if it says that one is missing.
    fn steps_there(self) -> usize {
        match self {
            Judgement::Missing(step) => step,
            _ => 0,
        }
    }
}

impl Rule {
    /// Whether it names pipes by letters.
    pub fn names_letters(&self) -> bool
        ensures { result ≡ names_letters self.now }
    {
        match self {
            Rule::Count { pattern, .. } => pattern.has_letter(),
            Rule::NoneOf { patterns } => has_letters(patterns.as_slice()),
            Rule::Before { first, next } => first.has_letter() || next.has_letter(),
            Rule::InOrder { steps, .. } => has_letters(steps.as_slice()),
            Rule::Exactly { of, wanted } => {
                has_letters(of.as_slice()) || has_letters(wanted.as_slice())
            }
        }
    }
}

// How many notes the pattern fits, if its letter stands for one of these pipes.
fn count_with(choice: &Choice, pattern: &Pattern, notes: &[Note]) -> usize
    ensures { result ≡ count_by (fits (pattern_with choice.now pattern.now)) notes.now }
{
    count(&pattern.with(choice), notes)
}

// The place of the first note that one of the patterns fits, if their letters stand for these pipes.
fn first_of_with(
    alloc: Global,
    choice: &Choice,
    patterns: &[Pattern],
    notes: &[Note],
) -> Result<Option<usize>, AllocError>
    ensures { IfOk result (λ found. MatchOption found (IsNoneOf (all_with choice.now patterns.now) notes.now)
        (λ place. IsOneAt (all_with choice.now patterns.now) notes.now place × IsNoneOf (all_with choice.now patterns.now) (take place notes.now))) }
{
    let patterns = patterns_with(alloc, choice, patterns)?;
    Ok(first_of(patterns.as_slice(), notes))
}

// A note for each step, if their letters stand for these pipes.
fn arrange_with(
    alloc: Global,
    choice: &Choice,
    steps: &[Pattern],
    edges: &[Edge],
    notes: &[Note],
) -> Result<Order, AllocError>
    ensures { IfOk result (OrderTold (all_with choice.now steps.now) edges.now notes.now) }
{
    let steps = patterns_with(alloc, choice, steps)?;
    arrange(alloc, steps.as_slice(), edges, notes)
}

// The place of the first note that isn't as wanted, if the letters stand for these pipes.
fn first_other_with(
    alloc: Global,
    choice: &Choice,
    of: &[Pattern],
    wanted: &[Pattern],
    notes: &[Note],
) -> Result<Option<usize>, AllocError>
    ensures { IfOk result (λ found. MatchOption found (are_these (all_with choice.now wanted.now) (filter (fits_one_of (all_with choice.now of.now)) notes.now) ≡ true)
        (λ place. (are_these (all_with choice.now wanted.now) (filter (fits_one_of (all_with choice.now of.now)) notes.now) ≡ false)
        × IsOther (all_with choice.now of.now) (all_with choice.now wanted.now) notes.now place)) }
{
    let of = patterns_with(alloc, choice, of)?;
    let wanted = patterns_with(alloc, choice, wanted)?;
    Ok(first_other(of.as_slice(), wanted.as_slice(), notes))
}

// Tells whether a rule holds of notes, if its letters stand for these pipes.
fn judge_by(
    alloc: Global,
    choice: &Choice,
    rule: &Rule,
    notes: &[Note],
) -> Result<Judgement, AllocError>
    ensures { IfOk result (IsJudgedBy choice.now rule.now notes.now) }
{
    match rule {
        Rule::Count {
            pattern,
            least,
            most,
        } => {
            let found = count_with(choice, pattern, notes);
            if *least <= found && found <= *most {
                return Ok(Judgement::Holds);
            }
            Ok(Judgement::Counted(found))
        }
        Rule::NoneOf { patterns } => {
            match first_of_with(alloc, choice, patterns.as_slice(), notes)? {
                Some(place) => Ok(Judgement::Unwanted(place)),
                None => Ok(Judgement::Holds),
            }
        }
        Rule::Before { first, next } => {
            match first_alone(&first.with(choice), &next.with(choice), notes) {
                Some(place) => Ok(Judgement::Alone(place)),
                None => Ok(Judgement::Holds),
            }
        }
        Rule::InOrder { steps, edges } => {
            match arrange_with(alloc, choice, steps.as_slice(), edges.as_slice(), notes)? {
                Order::Arranged(_) => Ok(Judgement::Holds),
                Order::Missing(step) => Ok(Judgement::Missing(step)),
            }
        }
        Rule::Exactly { of, wanted } => {
            match first_other_with(alloc, choice, of.as_slice(), wanted.as_slice(), notes)? {
                Some(place) => Ok(Judgement::Other(place)),
                None => Ok(Judgement::Holds),
            }
        }
    }
}

// The better of two judgements of one rule: the second if it says that the rule holds, or that more steps are there.
fn better(one: Judgement, other: Judgement) -> Judgement
    ensures which { (result ≡ one) ⊎ (result ≡ other) }
    ensures holds { is_holding result ≡ false → is_holding other ≡ false }
{
    if other.holds() || one.steps_there() < other.steps_there() {
        other
    } else {
        one
    }
}

// The better of a judgement and one by a choice, if that may be made.
fn with_choice(
    alloc: Global,
    choice: &Choice,
    rule: &Rule,
    notes: &[Note],
    before: Judgement,
) -> Result<Judgement, AllocError>
    requires { IsOfAChoice rule.now notes.now before }
    ensures of { IfOk result (IsOfAChoice rule.now notes.now) }
    ensures tried { IfOk result (λ judgement. is_holding judgement ≡ false → is_choice choice.now ≡ true → ¬ (HoldsBy choice.now rule.now notes.now)) }
{
    if !choice.is_choice() {
        return Ok(before);
    }
    Ok(better(before, judge_by(alloc, choice, rule, notes)?))
}

// Tries each of the first pipes for c, beside those of a and b, as long as the rule doesn't hold.
fn try_each_c(
    alloc: Global,
    a: u64,
    b: u64,
    rule: &Rule,
    notes: &[Note],
    before: Judgement,
) -> Result<Judgement, AllocError>
    requires { IsOfAChoice rule.now notes.now before }
    ensures of { IfOk result (IsOfAChoice rule.now notes.now) }
    ensures tried { IfOk result (λ judgement. is_holding judgement ≡ false → (c : ℕ) → is_choice (record { a = a; b = b; c = c }) ≡ true → ¬ (HoldsBy (record { a = a; b = b; c = c }) rule.now notes.now)) }
{
    let mut best = before;
    for place in 0..FIRST_PIPES {
        let choice = Choice { a, b, c: place + 1 };
        best = with_choice(alloc, &choice, rule, notes, best)?;
        if best.holds() {
            return Ok(best);
        }
    }
    Ok(best)
}

// Tries each of the first pipes for b, beside that of a, as long as the rule doesn't hold.
fn try_each_b(
    alloc: Global,
    a: u64,
    rule: &Rule,
    notes: &[Note],
    before: Judgement,
) -> Result<Judgement, AllocError>
    requires { IsOfAChoice rule.now notes.now before }
    ensures of { IfOk result (IsOfAChoice rule.now notes.now) }
    ensures tried { IfOk result (λ judgement. is_holding judgement ≡ false → (b c : ℕ) → is_choice (record { a = a; b = b; c = c }) ≡ true → ¬ (HoldsBy (record { a = a; b = b; c = c }) rule.now notes.now)) }
{
    let mut best = before;
    for place in 0..FIRST_PIPES {
        best = try_each_c(alloc, a, place + 1, rule, notes, best)?;
        if best.holds() {
            return Ok(best);
        }
    }
    Ok(best)
}

// Tries each of the first pipes for a, and others for b and c, as long as the rule doesn't hold.
fn try_each(
    alloc: Global,
    rule: &Rule,
    notes: &[Note],
    before: Judgement,
) -> Result<Judgement, AllocError>
    requires { IsOfAChoice rule.now notes.now before }
    ensures of { IfOk result (IsOfAChoice rule.now notes.now) }
    ensures tried { IfOk result (λ judgement. is_holding judgement ≡ false → ¬ (HoldsOf rule.now notes.now)) }
{
    let mut best = before;
    for place in 0..FIRST_PIPES {
        best = try_each_b(alloc, place + 1, rule, notes, best)?;
        if best.holds() {
            return Ok(best);
        }
    }
    Ok(best)
}

/// Tells whether a rule holds of notes: by some choice of pipes for its letters. If it doesn't, it says what shows that by
/// one of the choices, of those that miss a step by one that misses the latest.
///
/// # Errors
///
/// [`AllocError`] if the host has too little memory.
pub fn judge(alloc: Global, rule: &Rule, notes: &[Note]) -> Result<Judgement, AllocError>
    ensures { IfOk result (IsJudged rule.now notes.now) }
{
    let first = judge_by(alloc, &Choice::FIRST, rule, notes)?;
    if first.holds() {
        return Ok(first);
    }
    if !rule.names_letters() {
        return Ok(first);
    }
    let best = try_each(alloc, rule, notes, first)?;
    Ok(best)
}
