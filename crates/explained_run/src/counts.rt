//! How many calls and instructions each process has done.
ghost use Rattle.std.specs.Prelude.{◌≡◌, [], true, nat_eq, position, replicate, OnOk, option_map, slice_get};
ghost use Rattle.xv_machine.specs.Events.{outcome_of};
ghost use Rattle.explained_run.specs.Counts as meant;

use crate::choice::Choice;
use kernel_calls::numbers::EXIT;
use std::alloc::{AllocFailed, Global};
use xk_base::Pid;
use xv_machine::Outcome;

/// What a process has done.
#[derive(Clone, Copy)]
pub(crate) struct Count {
    pub pid: Pid,
    /// The place of the program that it ran last.
    pub program: Option<usize>,
    /// Calls that have answered, and exit, as far as they are asked for.
    pub calls: u64,
    /// Those that have answered less than 0.
    pub failed: u64,
    /// Instructions that are no call.
    pub instructions: u64,
}

/// What the processes of a run have done, in the order in which they first ran.
#[derive(Drop)]
pub(crate) struct Counts {
    counts: Vec<Count>,
    /// Whether there was memory for all of them.
    complete: bool,
}

// A process that has done nothing.
fn nothing(pid: Pid, program: Option<usize>) -> Count
    ensures { result ≡ meant.row pid program 0 0 0 }
{
    Count {
        pid,
        program,
        calls: 0,
        failed: 0,
        instructions: 0,
    }
}

// The row of this place.
fn row_at(counts: &[Count], place: usize) -> Option<Count>
    ensures { result ≡ slice_get counts.now place }
{
    counts.get(place).copied()
}

// The place of the first row of a process.
fn place_of(counts: &[Count], pid: Pid) -> Option<usize>
    ensures { result ≡ position (λ count. nat_eq count.pid pid) counts.now }
{
    let number = pid.number();
    counts.iter().position(|count| count.pid.number() == number)
}

// A row, once its process has done more.
fn both(before: &Count, more: &Count) -> Count
    ensures { result ≡ meant.both before.now more.now }
{
    Count {
        pid: before.pid,
        program: more.program.or(before.program),
        calls: before.calls.saturating_add(more.calls),
        failed: before.failed.saturating_add(more.failed),
        instructions: before.instructions.saturating_add(more.instructions),
    }
}

// A row that may be there, once its process has done more.
fn with_more(before: &Option<Count>, more: &Count) -> Count
    ensures { result ≡ meant.with_more before.now more.now }
{
    match before {
        Some(before) => both(before, more),
        None => *more,
    }
}

// Adds what a process has done.
fn add(counts: &mut Vec<Count>, more: &Count) -> Result<(), AllocFailed<Count>>
    ensures { OnOk result (counts.new.items ≡ meant.added counts.old.items more.now) }
{
    let Some(place) = place_of(counts.as_slice(), more.pid) else {
        return counts.push(*more);
    };
    let row = row_at(counts.as_slice(), place);
    counts[place] = with_more(&row, more);
    Ok(())
}

// Whether a call has failed, as a number.
fn failed_of(value: i64) -> u64
    ensures { result ≡ meant.failed_of value }
{
    if value < 0 { 1 } else { 0 }
}

// Whether a process ends by the call exit, as a number.
fn exits_of(is_marked: bool) -> u64
    ensures { result ≡ meant.exits_of is_marked }
{
    if is_marked { 0 } else { 1 }
}

// A number of calls, if they are asked for.
fn if_asked(is_asked: bool, number: u64) -> u64
    ensures { result ≡ meant.if_asked is_asked number }
{
    if is_asked { number } else { 0 }
}

// What a process has done if this came of its step, of calls those that are asked for.
fn done_by(
    choice: &Choice,
    pid: Pid,
    program: Option<usize>,
    is_marked: bool,
    outcome: &Outcome,
) -> Count
    ensures { result ≡ meant.done_by choice.now pid program is_marked (outcome_of outcome.now) }
{
    let mut count = nothing(pid, program);
    match outcome {
        Outcome::Called { number, value, .. } => {
            let is_asked = choice.shows_answer(*number, *value);
            count.calls = if_asked(is_asked, 1);
            count.failed = if_asked(is_asked, failed_of(*value));
        }
        Outcome::Exited { .. } => {
            count.calls = if_asked(choice.shows_unfailed(EXIT), exits_of(is_marked));
        }
        Outcome::Stepped { .. } => count.instructions = 1,
        _ => {}
    }
    count
}

impl Counts {
    /// Nothing is done.
    pub fn new(alloc: Global) -> Counts
        ensures counts { result.counts.items ≡ [] }
        ensures complete { result.complete ≡ true }
    {
        Counts {
            counts: Vec::new(alloc),
            complete: true,
        }
    }

    /// What each process has done; `None` if there was too little memory.
    pub fn all(&self) -> Option<&[Count]>
        ensures { option_map (λ counts. counts.now) result ≡ meant.if_complete self.now.complete self.now.counts.items }
    {
        if self.complete {
            Some(self.counts.as_slice())
        } else {
            None
        }
    }

    // Adds what a process has done, if it is asked for.
    fn add(&mut self, choice: &Choice, more: &Count)
        ensures counts { self.new.complete ≡ true → self.new.counts.items ≡ meant.counted choice.now self.old.counts.items more.now }
        ensures complete { self.new.complete ≡ true → self.old.complete ≡ true }
    {
        if !choice.is_process(more.pid) {
            return;
        }
        if add(&mut self.counts, more).is_err() {
            self.complete = false;
        }
    }

    /// A process has done so many instructions, one after another.
    pub fn add_instructions(&mut self, choice: &Choice, pid: Pid, program: Option<usize>, made: u32)
        ensures counts { self.new.complete ≡ true → self.new.counts.items ≡ meant.tallied choice.now self.old.counts.items (replicate made (meant.row pid program 0 0 1)) }
        ensures complete { self.new.complete ≡ true → self.old.complete ≡ true }
    {
        if made == 0 {
            return;
        }
        let mut count = nothing(pid, program);
        count.instructions = u64::from(made);
        self.add(choice, &count);
    }

    /// This came of a step of a process, whose program this is, and which was marked before or not.
    pub fn add_outcome(
        &mut self,
        choice: &Choice,
        pid: Pid,
        program: Option<usize>,
        is_marked: bool,
        outcome: &Outcome,
    )
        ensures counts { self.new.complete ≡ true → self.new.counts.items ≡ meant.counted choice.now self.old.counts.items (meant.done_by choice.now pid program is_marked (outcome_of outcome.now)) }
        ensures complete { self.new.complete ≡ true → self.old.complete ≡ true }
    {
        let count = done_by(choice, pid, program, is_marked, outcome);
        self.add(choice, &count);
    }
}
