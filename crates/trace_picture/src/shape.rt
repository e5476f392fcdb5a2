//! What a picture shows of a chart: names, bars, marks and lines, in the order in which they are drawn.
ghost use Rattle.std.specs.Prelude.{◌≡◌, ◌∷◌, [], List, OnOk, Option};
ghost use Rattle.std.specs.List.{count_by};
ghost use Rattle.trace_picture.specs.Shapes.{Draws, all_at, bar, bars, behind, birth, child_of, event_shapes, is_shown, is_tick, mark_of, marked, row_shapes, shapes_of, tick_at, ticks_shapes};

use crate::chart::{Chart, Row, newborn};
use crate::note::Note;
use crate::row::{Phase, State};
use std::io;

/// With more ticks than these they aren't drawn.
const MOST_TICKS: usize = 300;

/// What a mark on a bar stands for.
#[derive(Clone, Copy)]
pub enum Mark {
    /// A call of this number that is done, with its answer.
    Answered(i32, i64),
    /// A call of this number, in which the process sleeps.
    Waits(i32),
    /// The process is gone, with this status.
    Exit(i32),
    /// The process is gone, by a fault of this cause.
    Fault(u32),
}

/// A mark, and the process on whose bar it stands.
#[derive(Clone, Copy)]
pub struct MarkOf {
    pub pid: u32,
    pub mark: Mark,
}

/// A part of a picture. A row is named by its place among the rows, and an event by its place in the trace.
#[derive(Clone, Copy)]
pub enum Shape {
    /// A tick of the clock.
    Tick(usize),
    /// The name of a row's process.
    Name {
        row: usize,
        pid: u32,
    },
    /// A part of a row's bar, from an event up to another: what the process did then.
    Bar {
        row: usize,
        pid: u32,
        first: usize,
        behind: usize,
        state: State,
    },
    /// From a parent's bar to that of the child that it made.
    Birth {
        event: usize,
        parent: usize,
        child: usize,
    },
    /// A mark on a row's bar.
    Mark {
        event: usize,
        row: usize,
        mark: Mark,
    },
}

/// What can be drawn on.
pub trait Canvas {
    ghost use Rattle.trace_picture.specs.declared.shape.Shape.{Shape};

    // What is drawn on it, if it tells that.
    ghost drawn: { Self → Option (List Shape) };

    /// Draws a part of a picture, over what is drawn.
    ///
    /// # Errors
    ///
    /// If it can't be drawn: then no more is told.
    fn draw(&mut self, shape: Shape) -> io::Result<()>
        ensures { OnOk result (Draws (drawn self.old) (drawn self.new) (shape ∷ [])) };
}

// Whether the clock ticked.
fn is_tick(note: Note) -> bool
    ensures { result ≡ is_tick note }
{
    matches!(note, Note::Tick)
}

// How often the clock ticked.
fn ticks(notes: &[Note]) -> usize
    ensures { result ≡ count_by is_tick notes.now }
{
    notes.iter().filter(|note| is_tick(**note)).count()
}

// Draws the tick of an event, if it is one.
fn draw_tick<C: Canvas>(event: usize, note: Note, canvas: &mut C) -> io::Result<()>
    ensures { OnOk result (Draws (C.drawn canvas.old) (C.drawn canvas.new) (tick_at event note)) }
{
    if is_tick(note) {
        return canvas.draw(Shape::Tick(event));
    }
    Ok(())
}

// Draws the ticks of all events.
fn draw_all_ticks<C: Canvas>(notes: &[Note], canvas: &mut C) -> io::Result<()>
    ensures { OnOk result (Draws (C.drawn canvas.old) (C.drawn canvas.new) (all_at tick_at 0 notes.now)) }
{
    for (event, note) in notes.iter().enumerate() {
        draw_tick(event, *note, canvas)?;
    }
    Ok(())
}

// Draws the ticks, if there aren't too many.
fn draw_ticks<C: Canvas>(notes: &[Note], canvas: &mut C) -> io::Result<()>
    ensures { OnOk result (Draws (C.drawn canvas.old) (C.drawn canvas.new) (ticks_shapes notes.now)) }
{
    if ticks(notes) > MOST_TICKS {
        return Ok(());
    }
    draw_all_ticks(notes, canvas)
}

// The event up to which a phase goes that begins with this one.
fn behind(first: usize, phase: &Phase) -> usize
    ensures { result ≡ behind first phase.now }
{
    first.saturating_add(phase.events)
}

// Whether a phase is shown: that of a process that is there, and of some events.
fn is_shown(phase: &Phase) -> bool
    ensures { result ≡ is_shown phase.now }
{
    match phase.state {
        State::Absent => false,
        _ => phase.events > 0,
    }
}

// Draws a part of the bar of a row's process, from the event `first` on, if it is shown.
fn draw_phase<C: Canvas>(
    row: usize,
    pid: u32,
    first: usize,
    phase: &Phase,
    canvas: &mut C,
) -> io::Result<()>
    ensures { OnOk result (Draws (C.drawn canvas.old) (C.drawn canvas.new) (bar row pid first phase.now)) }
{
    if !is_shown(phase) {
        return Ok(());
    }
    canvas.draw(Shape::Bar {
        row,
        pid,
        first,
        behind: behind(first, phase),
        state: phase.state,
    })
}

// Draws the bar of a row's process.
fn draw_bar<C: Canvas>(row: usize, pid: u32, phases: &[Phase], canvas: &mut C) -> io::Result<()>
    ensures { OnOk result (Draws (C.drawn canvas.old) (C.drawn canvas.new) (bars row pid 0 phases.now)) }
{
    let mut first: usize = 0;
    for phase in phases {
        draw_phase(row, pid, first, phase, canvas)?;
        first = behind(first, phase);
    }
    Ok(())
}

// Draws the name and the bar of a row's process.
fn draw_row<C: Canvas>(place: usize, row: &Row, canvas: &mut C) -> io::Result<()>
    ensures { OnOk result (Draws (C.drawn canvas.old) (C.drawn canvas.new) (row_shapes place row.now)) }
{
    canvas.draw(Shape::Name {
        row: place,
        pid: row.pid,
    })?;
    draw_bar(place, row.pid, row.phases.as_slice(), canvas)
}

// Draws the name and the bar of each process, from the first row on.
fn draw_rows<C: Canvas>(rows: &[Row], canvas: &mut C) -> io::Result<()>
    ensures { OnOk result (Draws (C.drawn canvas.old) (C.drawn canvas.new) (all_at row_shapes 0 rows.now)) }
{
    for (place, row) in rows.iter().enumerate() {
        draw_row(place, row, canvas)?;
    }
    Ok(())
}

// The mark of an event.
fn mark_of(note: Note) -> Option<MarkOf>
    ensures { result ≡ mark_of note }
{
    match note {
        Note::Call(pid, number, answer) => Some(MarkOf {
            pid,
            mark: Mark::Answered(number, answer),
        }),
        Note::Block(pid, number) => Some(MarkOf {
            pid,
            mark: Mark::Waits(number),
        }),
        Note::Exit(pid, status) => Some(MarkOf {
            pid,
            mark: Mark::Exit(status),
        }),
        Note::Fault(pid, cause) => Some(MarkOf {
            pid,
            mark: Mark::Fault(cause),
        }),
        _ => None,
    }
}

// The place of the row of the child that an event made.
fn child_of(chart: &Chart, note: Note) -> Option<usize>
    ensures { result ≡ child_of chart.now note }
{
    match newborn(note) {
        Some(child) => chart.place_of(child),
        None => None,
    }
}

// Draws the line from a parent's bar to that of the child that an event made, if it made one.
fn draw_birth<C: Canvas>(
    event: usize,
    parent: usize,
    child: Option<usize>,
    canvas: &mut C,
) -> io::Result<()>
    ensures { OnOk result (Draws (C.drawn canvas.old) (C.drawn canvas.new) (birth event parent child)) }
{
    match child {
        Some(child) => canvas.draw(Shape::Birth {
            event,
            parent,
            child,
        }),
        None => Ok(()),
    }
}

// Draws the mark of an event on the bar of a row, and a birth before it.
fn draw_mark<C: Canvas>(
    chart: &Chart,
    event: usize,
    note: Note,
    row: usize,
    mark: Mark,
    canvas: &mut C,
) -> io::Result<()>
    ensures { OnOk result (Draws (C.drawn canvas.old) (C.drawn canvas.new) (marked chart.now event note row mark)) }
{
    draw_birth(event, row, child_of(chart, note), canvas)?;
    canvas.draw(Shape::Mark { event, row, mark })
}

// Draws what stands on the bars for an event.
fn draw_event<C: Canvas>(chart: &Chart, event: usize, note: Note, canvas: &mut C) -> io::Result<()>
    ensures { OnOk result (Draws (C.drawn canvas.old) (C.drawn canvas.new) (event_shapes chart.now event note)) }
{
    let Some(found) = mark_of(note) else {
        return Ok(());
    };
    match chart.place_of(found.pid) {
        Some(row) => draw_mark(chart, event, note, row, found.mark, canvas),
        None => Ok(()),
    }
}

// Draws what stands on the bars, event by event.
fn draw_events<C: Canvas>(chart: &Chart, notes: &[Note], canvas: &mut C) -> io::Result<()>
    ensures { OnOk result (Draws (C.drawn canvas.old) (C.drawn canvas.new) (all_at (event_shapes chart.now) 0 notes.now)) }
{
    for (event, note) in notes.iter().enumerate() {
        draw_event(chart, event, *note, canvas)?;
    }
    Ok(())
}

/// Draws a chart: the ticks, then each row with its bar, then what stands on the bars, event by event.
///
/// # Errors
///
/// That of the canvas.
pub fn draw_chart<C: Canvas>(chart: &Chart, canvas: &mut C) -> io::Result<()>
    ensures { OnOk result (Draws (C.drawn canvas.old) (C.drawn canvas.new) (shapes_of chart.now)) }
{
    draw_ticks(chart.notes.as_slice(), canvas)?;
    draw_rows(chart.rows.as_slice(), canvas)?;
    draw_events(chart, chart.notes.as_slice(), canvas)
}
