//! Numbers that stand alone in lines, and whether they rise.
ghost use Rattle.std.specs.Prelude.{◌≡◌, ◌↔◌, ◌+◌, ◌<◌, ◌≤◌, ◌++◌, ℕ, IsTrue, is_none, IfOk, MatchOption, map, flat_map, length, slice_index};
ghost use Rattle.std.specs.List.{slice_split};
ghost use Rattle.std.specs.Option.{option_to_list};
ghost use Rattle.std.specs.Str.Parse.{without_leading_plus};
ghost use Rattle.grade_sheets.specs.Blanks.{without_blanks};
ghost use Rattle.grade_sheets.specs.Numbers.{ends_line, number_of, number_in, if_number, numbers_in, AreRising};

use crate::texts::ends_line;
use std::alloc::{AllocError, Global};

// A line without the blanks around it.
fn without_blanks(line: &[u8]) -> &[u8]
    ensures { result.now ≡ without_blanks line.now }
{
    line.trim_ascii()
}

// The number that a text is, which may have a plus before it.
fn number_of(text: &str) -> Option<u64>
    ensures { result ≡ number_of (without_leading_plus text.now) }
{
    match text.parse::<u64>() {
        Ok(number) => Some(number),
        Err(_) => None,
    }
}

// The number that stands alone in a line.
fn number_in(line: &[u8]) -> Option<u64>
    ensures { result ≡ number_in line.now }
{
    match std::str::from_utf8(without_blanks(line)) {
        Ok(text) => number_of(text),
        Err(_) => None,
    }
}

// The lines of bytes.
fn lines_of(alloc: Global, shown: &[u8]) -> Result<Vec<&[u8]>, AllocError>
    ensures { IfOk result (λ lines. map (λ line. line.now) lines.items ≡ slice_split ends_line shown.now) }
{
    shown.split(ends_line).collect(alloc)
}

// Adds a number, if there is one.
fn add_number(numbers: &mut Vec<u64>, number: Option<u64>) -> Result<(), AllocError>
    ensures { IfOk result (λ _. numbers.new.items ≡ numbers.old.items ++ option_to_list number) }
{
    if let Some(number) = number {
        numbers.push(number)?;
    }
    Ok(())
}

// The numbers that stand alone in these lines.
fn numbers_of(alloc: Global, lines: &[&[u8]]) -> Result<Vec<u64>, AllocError>
    ensures { IfOk result (λ numbers. numbers.items ≡ flat_map if_number (map (λ line. line.now) lines.now)) }
{
    let mut numbers = Vec::new(alloc);
    for line in lines {
        add_number(&mut numbers, number_in(line))?;
    }
    Ok(numbers)
}

// The numbers that stand alone in lines.
fn numbers_in(alloc: Global, shown: &[u8]) -> Result<Vec<u64>, AllocError>
    ensures { IfOk result (λ numbers. numbers.items ≡ numbers_in shown.now) }
{
    let lines = lines_of(alloc, shown)?;
    numbers_of(alloc, lines.as_slice())
}

// Whether a number is at least so much above an earlier one.
fn is_above(number: u64, earlier: u64, least: u64) -> bool
    ensures { IsTrue result ↔ (earlier + least ≤ number) }
{
    number >= earlier && number - earlier >= least
}

// The place of the first number that isn't so much above the one before it.
fn first_low(numbers: &[u64], least: u64) -> Option<usize>
    ensures { MatchOption result
        ((k : ℕ) → k + 1 < length numbers.now → slice_index numbers.now k + least ≤ slice_index numbers.now (k + 1))
        (λ place. (place + 1 < length numbers.now) × (¬ (slice_index numbers.now place + least ≤ slice_index numbers.now (place + 1)))) }
{
    for (place, number) in numbers.iter().enumerate() {
        if place > 0 && !is_above(*number, numbers[place - 1], least) {
            return Some(place - 1);
        }
    }
    None
}

// That a number is too low after an earlier one.
fn too_low(alloc: Global, number: u64, earlier: u64, least: u64) -> Result<String, AllocError> {
    format!(in alloc;
        "the number {number} is shown behind {earlier}, and should be {least} above it at least"
    )
}

// That there are too few lines with a number alone.
fn too_few(alloc: Global, found: usize) -> Result<String, AllocError> {
    format!(in alloc; "{found} lines with a number alone are shown, and not two at least")
}

/// Why the numbers that stand alone in lines don't rise by so much each time, or aren't two at least.
pub(crate) fn no_rise(alloc: Global, shown: &[u8], least: u64) -> Result<Option<String>, AllocError>
    ensures { IfOk result (λ why. IsTrue (is_none why) ↔ AreRising least (numbers_in shown.now)) }
{
    let numbers = numbers_in(alloc, shown)?;
    let numbers = numbers.as_slice();
    if numbers.len() < 2 {
        return too_few(alloc, numbers.len()).map(Some);
    }
    match first_low(numbers, least) {
        Some(place) => too_low(alloc, numbers[place + 1], numbers[place], least).map(Some),
        None => Ok(None),
    }
}

// That the numbers that stand alone in lines are others: so many are shown, and so many are asked for.
fn other_count(alloc: Global, found: usize, wanted: usize) -> Result<String, AllocError> {
    format!(in alloc; "{found} lines with a number alone are shown, and {wanted} are asked for")
}

// That the number at a place, counted from 1, is another one.
fn other_number(alloc: Global, place: usize, wanted: u64, got: u64) -> Result<String, AllocError> {
    format!(in alloc; "number {place} is {got}, and should be {wanted}")
}

// What is wrong with numbers that should be others.
fn other_text(alloc: Global, wanted: &[u64], numbers: &[u64]) -> Result<String, AllocError> {
    let mut place: usize = 0;
    for (wanted, got) in wanted.iter().zip(numbers) {
        place = place.saturating_add(1);
        if wanted != got {
            return other_number(alloc, place, *wanted, *got);
        }
    }
    other_count(alloc, numbers.len(), wanted.len())
}

/// Why the numbers that stand alone in lines aren't these.
pub(crate) fn other_numbers(
    alloc: Global,
    shown: &[u8],
    wanted: &[u64],
) -> Result<Option<String>, AllocError>
    ensures { IfOk result (λ why. IsTrue (is_none why) ↔ (wanted.now ≡ numbers_in shown.now)) }
{
    let numbers = numbers_in(alloc, shown)?;
    if wanted == numbers.as_slice() {
        return Ok(None);
    }
    other_text(alloc, wanted, numbers.as_slice()).map(Some)
}
