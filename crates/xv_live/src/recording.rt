//! The events of a session as the lines of a record.
ghost use Rattle.std.specs.Prelude.{◌≡◌, ◌++◌, ◌+◌, ◌<◌, ◌≤◌, length, take, drop, replicate, OnOk, IfOk, IfSome, IfNone};
ghost use Rattle.kernel_spec.specs.runs.Run as runs;
ghost use Rattle.xv_machine.specs.Events.{event_of};
ghost use Rattle.xv_live.specs.Plays.{events_of_line, events_of_lines};

use program_files::Failure;
use std::alloc::Global;
use xv_machine::Event;
use xv_record::Line;
use xv_session::Session;

// So many lines of a key.
fn push_keys(lines: &mut Vec<Line>, byte: u8, count: u64) -> Result<(), Failure<'static>>
    ensures { OnOk result (events_of_lines lines.new.items ≡ events_of_lines lines.old.items ++ replicate count (runs.Key byte)) }
{
    'keys: for made in 0..count {
        lines.push(Line::Key(byte))?;
    }
    Ok(())
}

// One line more.
fn push_line(lines: &mut Vec<Line>, line: Line) -> Result<(), Failure<'static>>
    ensures { OnOk result (events_of_lines lines.new.items ≡ events_of_lines lines.old.items ++ events_of_line line) }
{
    lines.push(line)?;
    Ok(())
}

// The line of so many equal events. A key's lines are as many.
fn push_span(lines: &mut Vec<Line>, event: Event, count: u64) -> Result<(), Failure<'static>>
    ensures { OnOk result (events_of_lines lines.new.items ≡ events_of_lines lines.old.items ++ replicate count (event_of event)) }
{
    match event {
        Event::Run => push_line(lines, Line::Run(count)),
        Event::Tick => push_line(lines, Line::Tick(count)),
        Event::Send => push_line(lines, Line::Send(count)),
        Event::Key(byte) => push_keys(lines, byte, count),
    }
}

// Equal events, one behind another.
#[derive(Clone, Copy)]
struct Span {
    event: Event,
    count: u64,
}

// The events from a place on that are equal to the one there, if there is one.
fn span_at(session: &Session, place: u64) -> Option<Span>
    ensures those { IfSome result (λ s. take s.count (drop place session.now.events) ≡ replicate s.count (event_of s.event)) }
    ensures some { IfSome result (λ s. 0 < s.count) }
    ensures none { IfNone result (length session.now.events ≤ place) }
{
    match session.events_from(place) {
        Some((event, count)) => Some(Span { event, count }),
        None => None,
    }
}

// The same, if none of them stands at the place `end` or behind it.
fn span_before(session: &Session, place: u64, end: u64) -> Option<Span>
    requires { place ≤ length session.now.events }
    ensures those { IfSome result (λ s. take s.count (drop place session.now.events) ≡ replicate s.count (event_of s.event)) }
    ensures some { IfSome result (λ s. 0 < s.count) }
    ensures before { IfSome result (λ s. place + s.count ≤ end) }
    ensures none { length session.now.events ≤ end → IfNone result (length session.now.events ≤ place) }
{
    let span = span_at(session, place)?;
    if span.count <= end.saturating_sub(place) {
        Some(span)
    } else {
        None
    }
}

/// Lines of events, and the place behind these events in the session.
#[derive(Drop)]
pub(crate) struct Stretch {
    pub lines: Vec<Line>,
    pub place: u64,
}

/// The events of a session from a place on, up to the place `end`. If the event there is equal to those before it, they
/// are left out too, since one line stands for all of them.
///
/// # Errors
///
/// [`Failure::OutOfMemory`].
pub(crate) fn stretch_of(
    alloc: Global,
    session: &Session,
    from: u64,
    end: u64,
) -> Result<Stretch, Failure<'static>>
    requires { from ≤ length session.now.events }
    ensures lines { IfOk result (λ s. take from session.now.events ++ events_of_lines s.lines.items ≡ take s.place session.now.events) }
    ensures within { IfOk result (λ s. s.place ≤ length session.now.events) }
    ensures all { length session.now.events ≤ end → IfOk result (λ s. s.place ≡ length session.now.events) }
{
    let mut lines = Vec::new(alloc);
    let mut place = from;
    'spans: while place < end {
        let Some(span) = span_before(session, place, end) else {
            break;
        };
        push_span(&mut lines, span.event, span.count)?;
        place = place.saturating_add(span.count);
    }
    Ok(Stretch { lines, place })
}
