//! The events that the machine got, and the notes that its trace keeps.
ghost use Rattle.std.specs.Prelude.{◌≡◌, [], Some, OnOk, length, option_map, string_bytes};
ghost use Rattle.xv_machine.specs.Events.{event_of};
ghost use Rattle.xv_session.specs.Answers.{AreEqualFrom};
ghost use Rattle.debug_views.specs.declared.history.Equal.{Equal};
ghost use Rattle.debug_views.specs.EventText.{AreAlike, AreEvents, IsEventsText, equal_text, event_text};
ghost use Rattle.debug_views.specs.EventText.{first_place, more_events, no_notes};
ghost use Rattle.debug_views.specs.Written.{Writes, Appends};

use debug_words::texts::{Grouped, Many, Quoted};
use std::alloc::AllocError;
use std::fmt;
use xv_machine::Event;
use xv_session::Session;

/// The most lines of events that are shown.
const LINES_MOST: u32 = 20;

/// The most parts of equal events that are joined in a line.
const JOINS_MOST: u32 = 10_000;

/// The events of a round of `run`.
const ROUND_EVENTS: u64 = 1033;

/// An event.
#[derive(Clone, Copy)]
struct EventShown(Event);

impl fmt::Display for EventShown {
    ghost output = { λ e. Some (event_text (event_of e.0)) };

    fn fmt<W: fmt::Write>(&self, f: &mut fmt::Formatter<W>) -> fmt::Result {
        match self.0 {
            Event::Run => f.write_str("Run"),
            Event::Tick => f.write_str("Tick"),
            Event::Send => f.write_str("Send"),
            Event::Key(byte) => {
                let bytes = [byte];
                let key = Quoted(&bytes);
                write!(f, "Key {key}")
            }
        }
    }
}

/// Equal events, one behind another.
#[derive(Clone, Copy)]
struct Equal {
    event: Event,
    count: u64,
}

/// How many events from a place on are equal to this one, and are kept together.
fn alike_from(session: &Session, place: u64, event: Event) -> u64
    ensures { AreAlike session.now.events place (event_of event) result }
{
    match session.events_from(place) {
        Some((next, count)) if next == event => count,
        _ => 0,
    }
}

/// Equal events from a place on, with those right behind them that are equal too: where a word went back, they are kept
/// apart.
fn joined(session: &Session, place: u64, equal: Equal) -> Equal
    requires { AreEqualFrom session.now.events place (Some (event_of equal.event, equal.count)) }
    ensures { AreEqualFrom session.now.events place (Some (event_of result.event, result.count)) }
{
    let _all = session.at();
    let mut count = equal.count;
    for joins in 0..JOINS_MOST {
        let _ = joins;
        let more = alike_from(session, place.saturating_add(count), equal.event);
        if more == 0 {
            return Equal {
                event: equal.event,
                count,
            };
        }
        count = count.saturating_add(more);
    }
    Equal {
        event: equal.event,
        count,
    }
}

/// The events from a place on that are equal to the one there, if there is one.
fn equal_from(session: &Session, place: u64) -> Option<Equal>
    ensures { AreEqualFrom session.now.events place (option_map (λ (e : Equal). (event_of e.event, e.count)) result) }
{
    match session.events_from(place) {
        Some((event, count)) => Some(joined(session, place, Equal { event, count })),
        None => None,
    }
}

/// Writes the line of events that are equal: the place of the first, how many they are, and which.
fn show_equal(place: u64, equal: &Equal, answer: &mut String) -> Result<(), AllocError>
    ensures { OnOk result
        (Appends answer.old answer.new (equal_text place equal.now.count (event_of equal.now.event))) }
{
    let begin = Grouped(place);
    let times = Grouped(equal.count);
    let shown = EventShown(equal.event);
    writeln!(answer, "{begin:>15}  {times:>11} {shown}")
}

/// Writes the place from which on there are more of all events, if there are.
fn show_more(all: u64, place: u64, answer: &mut String) -> Result<(), AllocError>
    ensures { OnOk result (Appends answer.old answer.new (more_events all place)) }
{
    if place >= all {
        return Ok(());
    }
    writeln!(answer, "there are more: events {place} goes on")
}

/// Writes lines of events that are equal, from a place on, so many at most.
fn show_from(
    session: &Session,
    lines: u32,
    place: u64,
    answer: &mut String,
) -> Result<(), AllocError>
    ensures { OnOk result
        (Writes (string_bytes answer.old) (string_bytes answer.new)
        (AreEvents session.now.events lines place)) }
{
    let all = session.at();
    if lines == 0 {
        return show_more(all, place, answer);
    }
    let Some(equal) = equal_from(session, place) else {
        return Ok(());
    };
    show_equal(place, &equal, answer)?;
    show_from(
        session,
        lines - 1,
        place.saturating_add(equal.count),
        answer,
    )
}

/// The place that is asked for; without one, that from which on there are as many events as a round has.
fn first_place(session: &Session, from: Option<u64>) -> u64
    ensures { result ≡ first_place (length session.now.events) from }
{
    match from {
        Some(place) => place,
        None => session.at().saturating_sub(ROUND_EVENTS),
    }
}

/// Writes the events from a place on; without one, those of the last round.
///
/// # Errors
///
/// The host has too little memory.
pub fn show_events(
    session: &Session,
    from: Option<u64>,
    answer: &mut String,
) -> Result<(), AllocError>
    ensures { OnOk result (Writes (string_bytes answer.old) (string_bytes answer.new) (IsEventsText session.now from)) }
{
    let many = Many(session.at(), "event");
    writeln!(
        answer,
        "{many} since the boot; 0 is the place of the first\n  from place on    so many"
    )?;
    show_from(session, LINES_MOST, first_place(session, from), answer)
}

/// Writes the last notes of the machine's trace, so many at most.
///
/// # Errors
///
/// The host has too little memory.
pub fn show_trace(session: &Session, count: u32, answer: &mut String) -> Result<(), AllocError>
    ensures { session.now.machine.notes ≡ []
        → OnOk result (Appends answer.old answer.new no_notes) }
{
    let machine = session.machine();
    let kept = machine.trace_len();
    if kept == 0 {
        return answer.push_str("the trace has no notes: --trace N lets it keep the last N\n");
    }
    let first = kept.saturating_sub(count as usize);
    for place in first..kept {
        if let Some(note) = machine.trace(place) {
            writeln!(answer, "{note}")?;
        }
    }
    Ok(())
}
