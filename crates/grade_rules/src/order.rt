//! Steps in a partial order.
ghost use Rattle.std.specs.Prelude.{◌<◌, ◌≤◌, ℕ, length, slice_index, MatchOption, IfOk};
ghost use Rattle.grade_rules.specs.Rules.{StandsAt, IsBehind};
ghost use Rattle.grade_rules.specs.Judged.{OrderTold};

use crate::note::Note;
use crate::pattern::Pattern;
use std::alloc::{AllocError, Global};

/// That the note of one step stands before the note of another. The steps are named by their places, from 0 on, and
/// the first must have the lower one: an edge that says otherwise says nothing.
#[derive(Clone, Copy)]
pub struct Edge {
    pub before: usize,
    pub behind: usize,
}

/// Whether steps stand in the notes.
#[derive(Drop)]
pub enum Order {
    /// They do: the place of each step's note.
    Arranged(Vec<usize>),
    /// The steps before this one do, and with this one they don't.
    Missing(usize),
}

// The place of the first note from a place on that the pattern fits.
fn first_from(pattern: &Pattern, notes: &[Note], start: usize) -> Option<usize>
    ensures { MatchOption result ((k : ℕ) → start ≤ k → ¬ (StandsAt pattern.now notes.now k)) (λ place.
        (start ≤ place) × StandsAt pattern.now notes.now place
        × ((k : ℕ) → start ≤ k → k < place → ¬ (StandsAt pattern.now notes.now k))) }
{
    for (place, note) in notes.iter().enumerate() {
        if start <= place && pattern.fits(*note) {
            return Some(place);
        }
    }
    None
}

// The first place that is behind those of the steps that have to stand before the step at the end of `places`.
fn start_behind(edges: &[Edge], places: &[usize], limit: usize) -> usize
    requires { (k : ℕ) → k < length places.now → slice_index places.now k < limit }
    ensures behind { IsBehind edges.now places.now result }
    ensures least { (other : ℕ) → IsBehind edges.now places.now other → result ≤ other }
{
    let mut start: usize = 0;
    for edge in edges {
        if edge.behind == places.len() && edge.before < places.len() {
            start = start.max(places[edge.before] + 1);
        }
    }
    start
}

/// Looks for a note for each step, so that the notes stand as the edges say. Two steps with no edge between them
/// may share a note.
///
/// # Errors
///
/// [`AllocError`] if the host has too little memory.
pub fn arrange(
    alloc: Global,
    steps: &[Pattern],
    edges: &[Edge],
    notes: &[Note],
) -> Result<Order, AllocError>
    ensures { IfOk result (OrderTold steps.now edges.now notes.now) }
{
    let mut places = Vec::new(alloc);
    for step in steps {
        let start = start_behind(edges, places.as_slice(), notes.len());
        let Some(place) = first_from(step, notes, start) else {
            return Ok(Order::Missing(places.len()));
        };
        places.push(place)?;
    }
    Ok(Order::Arranged(places))
}
