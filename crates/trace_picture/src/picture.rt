//! The picture of a chart, in SVG (Scalable Vector Graphics 1.1). Its whole text stands in `specs/Svg.antt`.
ghost use Rattle.std.specs.Prelude.{◌≡◌, ◌++◌, ◌-◌, ◌∷◌, [], codes, length, map, IfOk, OnOk, Some, option_map, flat_map};
ghost use Rattle.std.specs.Fmt.{WritesOnOk, signed_decimal};
ghost use Rattle.std.specs.Io.KnownBytes.{Appends};
ghost use Rattle.std.specs.String.{string_bytes};
ghost use Rattle.kernel_calls.specs.Table.{call_at};
ghost use Rattle.trace_picture.specs.Drawing.{Moves};
ghost use Rattle.trace_picture.specs.Remarks.{program_at};
ghost use Rattle.trace_picture.specs.Shapes.{Draws, shapes_of};
ghost use Rattle.trace_picture.specs.Svg as meant;

use crate::chart::Chart;
use crate::label::{Letter, RowName, Text, Who, names_room, wait_in, who_at};
use crate::note::Note;
use crate::remark::Remarks;
use crate::row::State;
use crate::shape::{Canvas, Mark, Shape, draw_chart};
use kernel_calls::KernelCall;
use std::alloc::{AllocError, Global};
use std::fmt::{self, Display, Write};
use std::io;

/// How wide the bars of a whole trace are, in pixels.
const WIDTH: u64 = 1_200;

/// How wide the ground is right of the bars, in pixels: the last number of an event stands there, and the word of a fault.
const RIGHT: u64 = 80;

/// How far behind its mark the word of a fault begins, in hundredths of a pixel.
const BEHIND_MARK: u64 = 600;

/// Where the first row begins, in pixels.
const TOP: u64 = 44;

/// How high a row is, in pixels.
const ROW: u64 = 20;

/// How high a bar is, in pixels.
const BAR: u64 = 12;

/// How much room a letter of the console takes, in hundredths of a pixel.
const LETTER: u64 = 700;

/// How many bytes of a picture are made at least before they are written.
const PART: usize = 65_536;

/// How far the meanings of two colours stand from one another, in pixels.
const MEANING: u64 = 90;

// A length in hundredths of a pixel.
#[derive(Clone, Copy)]
struct Length(u64);

impl Display for Length {
    ghost output = { λ l. Some (meant.pixels l.0) };

    fn fmt<W: fmt::Write>(&self, f: &mut fmt::Formatter<W>) -> fmt::Result {
        let whole = self.0 / 100;
        let tenths = self.0 / 10 % 10;
        let hundredths = self.0 % 10;
        write!(f, "{whole}.{tenths}{hundredths}")
    }
}

// A length, in pixels or in hundredths of them.
#[derive(Clone, Copy)]
enum Measure {
    Pixels(u64),
    Hundredths(Length),
}

impl Display for Measure {
    ghost output = { λ m. Some (meant.measure_text m) };

    fn fmt<W: fmt::Write>(&self, f: &mut fmt::Formatter<W>) -> fmt::Result {
        match *self {
            Measure::Pixels(pixels) => write!(f, "{pixels}"),
            Measure::Hundredths(length) => write!(f, "{length}"),
        }
    }
}

// Where the events of a trace stand.
#[derive(Clone, Copy)]
struct Axis {
    // Where the bars begin, in pixels.
    left: u64,
    // How many events there are.
    events: usize,
}

impl Axis {
    // Where the bars of the first `event` events end.
    fn across(self, event: usize) -> Length
        ensures { result.0 ≡ meant.across self.left self.events event }
    {
        let all = (self.events as u64).max(1);
        let width = (event as u64).saturating_mul(WIDTH * 100) / all;
        Length(width.saturating_add(self.left.saturating_mul(100)))
    }
}

// The upper edge of the row at this place.
fn row_top(place: usize) -> u64
    ensures { result ≡ meant.row_top place }
{
    ROW.saturating_mul(place as u64).saturating_add(TOP)
}

// The middle of the bar of the row at this place.
fn row_middle(place: usize) -> u64
    ensures { result ≡ meant.row_middle place }
{
    row_top(place).saturating_add(BAR / 2)
}

// The word for a state, which names its colour too.
fn word(state: State) -> &'static str
    ensures { result.now ≡ meant.word state }
{
    match state {
        State::Absent => "absent",
        State::Ready => "ready",
        State::Running => "running",
        State::Asleep => "asleep",
        State::Ended => "ended",
    }
}

// The name of a kernel call.
fn call_name(number: i32) -> &'static str
    ensures { result.now ≡ meant.call_name (call_at number) }
{
    match KernelCall::of_number(number) {
        Some(call) => call.name(),
        None => "unknown",
    }
}

// A part of the text.
fn push(text: &mut String, part: &str) -> Result<(), AllocError>
    ensures { OnOk result (string_bytes text.new ≡ string_bytes text.old ++ part.now) }
{
    write!(text, "{part}")
}

// How large the picture is.
fn push_size(text: &mut String, width: u64, height: u64) -> Result<(), AllocError>
    ensures { OnOk result (string_bytes text.new ≡ string_bytes text.old ++ meant.size_text width height) }
{
    write!(text, " width=\"{width}\" height=\"{height}\"")
}

// What stands between the size of the picture and that of its ground: the colours, by the words that the picture's parts
// have as their classes.
fn push_style(text: &mut String) -> Result<(), AllocError>
    ensures { OnOk result (string_bytes text.new ≡ string_bytes text.old ++ meant.style_text) }
{
    push(
        text,
        " font-family=\"sans-serif\" font-size=\"11\">\n<style>\n",
    )?;
    push_bar_colours(text)?;
    push_mark_colours(text)?;
    push(text, "</style>\n<rect")
}

// The colours of bars.
fn push_bar_colours(text: &mut String) -> Result<(), AllocError>
    ensures { OnOk result (string_bytes text.new ≡ string_bytes text.old ++ meant.bar_colours) }
{
    push(
        text,
        ".running { fill: #2563c9 } .ready { fill: #c4d7f5 }\n",
    )?;
    push(text, ".asleep { fill: #f3c969 } .ended { fill: #b9b9b9 }\n")
}

// The colours of ticks, births and marks.
fn push_mark_colours(text: &mut String) -> Result<(), AllocError>
    ensures { OnOk result (string_bytes text.new ≡ string_bytes text.old ++ meant.mark_colours) }
{
    push(
        text,
        ".tick { stroke: #e4e4e4 } .birth { stroke: #2e8b57; stroke-width: 1.5 }\n",
    )?;
    push(
        text,
        ".call { fill: #10294f } .exit { fill: #4a4a4a } .fault { fill: #c0392b }\n",
    )
}

// How large the picture is, behind its first word.
fn push_opened(text: &mut String, width: u64, height: u64) -> Result<(), AllocError>
    ensures { OnOk result (string_bytes text.new ≡ string_bytes text.old ++ meant.picture_opened width height) }
{
    push(text, "<svg xmlns=\"http://www.w3.org/2000/svg\"")?;
    push_size(text, width, height)
}

// How large the ground is, and its colour.
fn push_ground(text: &mut String, width: u64, height: u64) -> Result<(), AllocError>
    ensures { OnOk result (string_bytes text.new ≡ string_bytes text.old ++ meant.ground_text width height) }
{
    push_size(text, width, height)?;
    push(text, " fill=\"white\"/>\n")
}

// The head of the picture.
fn push_head(text: &mut String, width: u64, height: u64) -> Result<(), AllocError>
    ensures { OnOk result (string_bytes text.new ≡ string_bytes text.old ++ meant.head_text width height) }
{
    push_opened(text, width, height)?;
    push_style(text)?;
    push_ground(text, width, height)
}

// A text, from this place on, up to what it shows.
fn open_text(text: &mut String, left: Measure, base: u64) -> Result<(), AllocError>
    ensures { OnOk result (string_bytes text.new ≡ string_bytes text.old ++ meant.text_opened (meant.measure_text left) base) }
{
    write!(text, "<text x=\"{left}\" y=\"{base}\">")
}

// The end of a text.
fn close_text(text: &mut String) -> Result<(), AllocError>
    ensures { OnOk result (string_bytes text.new ≡ string_bytes text.old ++ meant.text_closed) }
{
    push(text, "</text>\n")
}

// A word, from this place on.
fn push_word(text: &mut String, left: u64, base: u64, word: &str) -> Result<(), AllocError>
    ensures { OnOk result (string_bytes text.new ≡ string_bytes text.old ++ meant.text_at (meant.measure_text (Measure.Pixels left)) base word.now) }
{
    open_text(text, Measure::Pixels(left), base)?;
    push(text, word)?;
    close_text(text)
}

// A bar of this colour, from this place on, up to what stands in it.
fn open_bar(
    text: &mut String,
    class: &str,
    left: Measure,
    top: u64,
    width: Measure,
) -> Result<(), AllocError>
    ensures { OnOk result (string_bytes text.new ≡ string_bytes text.old ++ meant.bar_opened class.now (meant.measure_text left) top (meant.measure_text width)) }
{
    write!(
        text,
        "<rect class=\"{class}\" x=\"{left}\" y=\"{top}\" width=\"{width}\" height=\"12\""
    )
}

// A line of this colour, from top to bottom.
fn push_line(
    text: &mut String,
    class: &str,
    x: Length,
    top: u64,
    bottom: u64,
) -> Result<(), AllocError>
    ensures { OnOk result (string_bytes text.new ≡ string_bytes text.old ++ meant.line_text class.now x.0 top bottom) }
{
    writeln!(
        text,
        "<line class=\"{class}\" x1=\"{x}\" y1=\"{top}\" x2=\"{x}\" y2=\"{bottom}\"/>"
    )
}

// What a colour means, from this place on.
fn push_meaning(text: &mut String, class: &str, left: u64) -> Result<(), AllocError>
    ensures { OnOk result (string_bytes text.new ≡ string_bytes text.old ++ meant.meaning_text class.now left) }
{
    open_bar(text, class, Measure::Pixels(left), 10, Measure::Pixels(BAR))?;
    push(text, "/>\n")?;
    push_word(text, left.saturating_add(16), 20, class)
}

// What these colours mean, one after another.
fn push_meanings(text: &mut String, classes: &[&str], left: u64) -> Result<(), AllocError>
    ensures { OnOk result (string_bytes text.new ≡ string_bytes text.old ++ meant.meanings left (map (λ c. c.now) classes.now)) }
{
    let mut place = left;
    for class in classes {
        push_meaning(text, class, place)?;
        place = place.saturating_add(MEANING);
    }
    Ok(())
}

// What the colours mean.
fn push_legend(text: &mut String, left: u64) -> Result<(), AllocError>
    ensures { OnOk result (string_bytes text.new ≡ string_bytes text.old ++ meant.legend_text left) }
{
    let classes = [
        "running", "ready", "asleep", "ended", "call", "exit", "fault",
    ];
    push_meanings(text, &classes, left)
}

// What a process waits for that sleeps: ` in read on descriptor 0`; nothing where it isn't told.
#[derive(Clone, Copy)]
struct Wait<'a>(Option<&'a str>);

impl<'a> Display for Wait<'a> {
    ghost output = { λ w. Some (meant.wait_text (option_map (λ t. t.now) w.0)) };

    fn fmt<W: fmt::Write>(&self, f: &mut fmt::Formatter<W>) -> fmt::Result {
        let Some(wait) = self.0 else {
            return Ok(());
        };
        let wait = Text(wait);
        write!(f, " in {wait}")
    }
}

// A part of a bar.
#[derive(Clone, Copy)]
struct Bar {
    pid: u32,
    // The first event, and how many events there are up to its end.
    first: usize,
    behind: usize,
    state: State,
}

// What a process waits for in a part of its bar, if it sleeps there.
fn wait_of<'a>(remarks: &'a Remarks, bar: Bar) -> Wait<'a>
    ensures { meant.wait_text (option_map (λ t. t.now) result.0) ≡ meant.waits_text remarks.now bar.state bar.pid bar.first bar.behind }
{
    Wait(match bar.state {
        State::Asleep => wait_in(remarks, bar.pid, bar.first, bar.behind),
        _ => None,
    })
}

// What a process did in a part of its bar: what shows under the pointer.
fn push_title(text: &mut String, remarks: &Remarks, bar: Bar) -> Result<(), AllocError>
    ensures { OnOk result (string_bytes text.new ≡ string_bytes text.old ++ meant.bar_title remarks.now bar.pid bar.first bar.behind bar.state) }
{
    let who = who_at(remarks, bar.pid, bar.behind);
    let word = word(bar.state);
    let wait = wait_of(remarks, bar);
    let first = bar.first;
    let last = bar.behind.saturating_sub(1);
    writeln!(
        text,
        "><title>{who}: {word}{wait}, events {first} to {last}</title></rect>"
    )
}

// Where a picture has what: what lines tell of its processes, where its events stand, and up to where its rows go.
#[derive(Clone, Copy)]
struct Plan<'a> {
    remarks: &'a Remarks,
    axis: Axis,
    bottom: u64,
}

// How wide a part of a bar is.
fn width_of(axis: Axis, bar: Bar) -> Length
    ensures { result.0 ≡ meant.across axis.left axis.events bar.behind - meant.across axis.left axis.events bar.first }
{
    let begin = axis.across(bar.first).0;
    Length(axis.across(bar.behind).0.saturating_sub(begin))
}

// A part of the bar of the row at this place, up to its text.
fn open_part(text: &mut String, plan: &Plan, row: usize, bar: Bar) -> Result<(), AllocError>
    ensures { OnOk result (string_bytes text.new ≡ string_bytes text.old ++ meant.part_opened plan.now.axis.left plan.now.axis.events row bar.first bar.behind bar.state) }
{
    let left = Measure::Hundredths(plan.axis.across(bar.first));
    let width = Measure::Hundredths(width_of(plan.axis, bar));
    open_bar(text, word(bar.state), left, row_top(row), width)
}

// A part of the bar of the row at this place; its text shows under the pointer.
fn push_bar(text: &mut String, plan: &Plan, row: usize, bar: Bar) -> Result<(), AllocError>
    ensures { OnOk result (string_bytes text.new ≡ string_bytes text.old ++ meant.shape_text plan.now.remarks.now plan.now.axis.left plan.now.axis.events plan.now.bottom (Shape.Bar row bar.pid bar.first bar.behind bar.state)) }
{
    open_part(text, plan, row, bar)?;
    push_title(text, plan.remarks, bar)
}

// The name of a process, before its row.
fn push_name(text: &mut String, plan: &Plan, row: usize, pid: u32) -> Result<(), AllocError>
    ensures { OnOk result (string_bytes text.new ≡ string_bytes text.old ++ meant.shape_text plan.now.remarks.now plan.now.axis.left plan.now.axis.events plan.now.bottom (Shape.Name row pid)) }
{
    let base = row_top(row).saturating_add(10);
    let name = RowName(who_at(plan.remarks, pid, plan.axis.events));
    open_text(text, Measure::Pixels(8), base)?;
    write!(text, "{name}")?;
    close_text(text)
}

// A part of a picture.
fn push_shape(text: &mut String, plan: &Plan, shape: Shape) -> Result<(), AllocError>
    ensures { OnOk result (string_bytes text.new ≡ string_bytes text.old ++ meant.shape_text plan.now.remarks.now plan.now.axis.left plan.now.axis.events plan.now.bottom shape) }
{
    match shape {
        Shape::Tick(event) => push_line(text, "tick", plan.axis.across(event), TOP, plan.bottom),
        Shape::Name { row, pid } => push_name(text, plan, row, pid),
        Shape::Bar {
            row,
            pid,
            first,
            behind,
            state,
        } => {
            let bar = Bar {
                pid,
                first,
                behind,
                state,
            };
            push_bar(text, plan, row, bar)
        }
        Shape::Birth {
            event,
            parent,
            child,
        } => {
            let x = plan.axis.across(event);
            push_line(text, "birth", x, row_middle(parent), row_middle(child))
        }
        Shape::Mark { event, row, mark } => push_mark(text, plan.axis.across(event), row, mark),
    }
}

// A list of what is drawn.
#[derive(Drop)]
struct Drawn(Vec<Shape>);

impl Canvas for Drawn {
    ghost drawn = { λ d. Some d.0.items };

    fn draw(&mut self, shape: Shape) -> io::Result<()> {
        self.0.push(shape)?;
        Ok(())
    }
}

impl Mark {
    // The word for the mark's colour.
    fn class(self) -> &'static str
        ensures { result.now ≡ meant.mark_class self }
    {
        match self {
            Mark::Answered(_, _) | Mark::Waits(_) => "call",
            Mark::Exit(_) => "exit",
            Mark::Fault(_) => "fault",
        }
    }

    // How wide the mark is, in pixels.
    fn width(self) -> u64
        ensures { result ≡ meant.mark_width self }
    {
        match self {
            Mark::Answered(_, _) | Mark::Waits(_) => 1,
            Mark::Exit(_) | Mark::Fault(_) => 4,
        }
    }
}

// The name of a kernel call, and its number.
fn write_call<W: fmt::Write>(number: i32, f: &mut fmt::Formatter<W>) -> fmt::Result
    ensures { WritesOnOk W.write_str_gives f.old result (meant.call_text number) f.new }
{
    let name = call_name(number);
    write!(f, "{name} (call {number})")
}

// A number, and what stands before it.
fn write_number<W: fmt::Write>(text: &str, number: i64, f: &mut fmt::Formatter<W>) -> fmt::Result
    ensures { WritesOnOk W.write_str_gives f.old result (text.now ++ signed_decimal number) f.new }
{
    write!(f, "{text}{number}")
}

impl Display for Mark {
    ghost output = { λ m. Some (meant.mark_title m) };

    fn fmt<W: fmt::Write>(&self, f: &mut fmt::Formatter<W>) -> fmt::Result {
        match *self {
            Mark::Answered(number, answer) => {
                write_call(number, f)?;
                write_number(" answers ", answer, f)
            }
            Mark::Waits(number) => {
                write_call(number, f)?;
                f.write_str(" waits")
            }
            Mark::Exit(status) => write_number("exit with status ", i64::from(status), f),
            Mark::Fault(cause) => write_number("fault of cause ", i64::from(cause), f),
        }
    }
}

// The word of a fault, with its cause, behind its mark.
fn push_fault(text: &mut String, x: Length, row: usize, cause: u32) -> Result<(), AllocError>
    ensures { OnOk result (string_bytes text.new ≡ string_bytes text.old ++ meant.fault_text x.0 row cause) }
{
    let left = Length(x.0.saturating_add(BEHIND_MARK));
    let base = row_top(row).saturating_add(10);
    writeln!(
        text,
        "<text class=\"fault\" x=\"{left}\" y=\"{base}\">fault {cause}</text>"
    )
}

// The word of a mark, if it is a fault.
fn push_fault_word(text: &mut String, x: Length, row: usize, mark: Mark) -> Result<(), AllocError>
    ensures { OnOk result (string_bytes text.new ≡ string_bytes text.old ++ meant.fault_word x.0 row mark) }
{
    match mark {
        Mark::Fault(cause) => push_fault(text, x, row, cause),
        Mark::Answered(_, _) => Ok(()),
        Mark::Waits(_) => Ok(()),
        Mark::Exit(_) => Ok(()),
    }
}

// The text of a mark, which shows under the pointer.
fn push_mark_title(text: &mut String, mark: Mark) -> Result<(), AllocError>
    ensures { OnOk result (string_bytes text.new ≡ string_bytes text.old ++ meant.mark_titled mark) }
{
    writeln!(text, "><title>{mark}</title></rect>")
}

// A mark on the bar of the row at this place, up to its text.
fn open_mark(text: &mut String, x: Length, row: usize, mark: Mark) -> Result<(), AllocError>
    ensures { OnOk result (string_bytes text.new ≡ string_bytes text.old ++ meant.mark_opened x.0 row mark) }
{
    let left = Measure::Hundredths(x);
    let width = Measure::Pixels(mark.width());
    open_bar(text, mark.class(), left, row_top(row), width)
}

// A mark on the bar of the row at this place; its text shows under the pointer, and that of a fault beside it.
fn push_mark(text: &mut String, x: Length, row: usize, mark: Mark) -> Result<(), AllocError>
    ensures { OnOk result (string_bytes text.new ≡ string_bytes text.old ++ meant.mark_text x.0 row mark) }
{
    open_mark(text, x, row, mark)?;
    push_mark_title(text, mark)?;
    push_fault_word(text, x, row, mark)
}

// The letter that shows a byte of the console.
fn letter_of(byte: u8) -> char
    ensures { result ≡ meant.letter_of byte }
{
    match byte {
        b'\n' => '\u{23ce}',
        b' '..=b'~' => byte as char,
        _ => '\u{b7}',
    }
}

// A letter of the console, from this place on.
fn push_letter(text: &mut String, x: Length, base: u64, letter: char) -> Result<(), AllocError>
    ensures { OnOk result (string_bytes text.new ≡ string_bytes text.old ++ meant.console_letter x.0 base letter) }
{
    let letter = Letter(letter);
    writeln!(
        text,
        "<text x=\"{x}\" y=\"{base}\" font-family=\"monospace\">{letter}</text>"
    )
}

// A byte of the console, from this place on.
fn push_byte(text: &mut String, x: Length, base: u64, byte: u8) -> Result<(), AllocError>
    ensures { OnOk result (string_bytes text.new ≡ string_bytes text.old ++ meant.byte_text x.0 base byte) }
{
    push_letter(text, x, base, letter_of(byte))
}

// Which bytes of the console a line shows.
#[derive(Clone, Copy)]
enum Console {
    // Those that were sent.
    SentBytes,
    // Those that were typed.
    TypedBytes,
}

impl Console {
    // The name of the line.
    fn name(self) -> &'static str
        ensures { result.now ≡ meant.console_name self }
    {
        match self {
            Console::SentBytes => "sent",
            Console::TypedBytes => "typed",
        }
    }

    // The byte that an event shows in the line.
    fn byte_in(self, note: Note) -> Option<u8>
        ensures { result ≡ meant.byte_in self note }
    {
        match (self, note) {
            (Console::SentBytes, Note::Sent(byte)) => Some(byte),
            (Console::TypedBytes, Note::Key(byte)) => Some(byte),
            _ => None,
        }
    }
}

// Shows the byte of an event, if it has one, from `free` on at the earliest. From where on there is room after it.
fn push_event_byte(
    text: &mut String,
    axis: Axis,
    base: u64,
    event: usize,
    free: u64,
    byte: Option<u8>,
) -> Result<u64, AllocError>
    ensures text { OnOk result (string_bytes text.new ≡ string_bytes text.old ++ meant.byte_shown axis.left axis.events base event free byte) }
    ensures free { IfOk result (λ after. after ≡ meant.free_after axis.left axis.events event free byte) }
{
    let Some(byte) = byte else {
        return Ok(free);
    };
    let x = Length(axis.across(event).0.max(free));
    push_byte(text, x, base, byte)?;
    Ok(x.0.saturating_add(LETTER))
}

// The bytes of a line, each at its event. If there is no room for a letter, it is put behind the one before it, and it is
// left out if that is behind the right edge.
fn push_bytes(
    text: &mut String,
    line: Console,
    axis: Axis,
    base: u64,
    notes: &[Note],
) -> Result<(), AllocError>
    ensures { OnOk result (string_bytes text.new ≡ string_bytes text.old ++ meant.bytes_shown line axis.left axis.events base notes.now) }
{
    let right = axis.left.saturating_add(WIDTH).saturating_mul(100);
    let mut free: u64 = 0;
    for (event, &note) in notes.iter().enumerate() {
        if free > right {
            return Ok(());
        }
        free = push_event_byte(text, axis, base, event, free, line.byte_in(note))?;
    }
    Ok(())
}

// A line of the bytes that were typed, or sent.
fn push_console(
    text: &mut String,
    line: Console,
    chart: &Chart,
    axis: Axis,
    base: u64,
) -> Result<(), AllocError>
    requires { axis.events ≡ length chart.now.notes.items }
    ensures { OnOk result (string_bytes text.new ≡ string_bytes text.old ++ meant.bytes_text line chart.now axis.left base) }
{
    push_word(text, 8, base, line.name())?;
    push_bytes(text, line, axis, base, chart.notes.as_slice())
}

// The number of an event, so many quarters of the trace from its begin.
fn push_number(text: &mut String, axis: Axis, base: u64, quarter: usize) -> Result<(), AllocError>
    ensures { OnOk result (string_bytes text.new ≡ string_bytes text.old ++ meant.number_text axis.left axis.events base quarter) }
{
    let event = axis.events.saturating_mul(quarter) / 4;
    open_text(text, Measure::Hundredths(axis.across(event)), base)?;
    write!(text, "{event}")?;
    close_text(text)
}

// The numbers of events, so many quarters of the trace from its begin each.
fn push_quarters(
    text: &mut String,
    axis: Axis,
    base: u64,
    quarters: &[usize],
) -> Result<(), AllocError>
    ensures { OnOk result (string_bytes text.new ≡ string_bytes text.old ++ flat_map (meant.number_text axis.left axis.events base) quarters.now) }
{
    for quarter in quarters {
        push_number(text, axis, base, *quarter)?;
    }
    Ok(())
}

// The numbers of five events under the bars.
fn push_numbers(text: &mut String, axis: Axis, base: u64) -> Result<(), AllocError>
    ensures { OnOk result (string_bytes text.new ≡ string_bytes text.old ++ meant.numbers_text axis.left axis.events base) }
{
    push_word(text, 8, base, "event")?;
    push_quarters(text, axis, base, &[0, 1, 2, 3, 4])
}

// What stands below the bars: the bytes that were sent and typed, and the numbers of events.
fn push_below(text: &mut String, chart: &Chart, axis: Axis, bottom: u64) -> Result<(), AllocError>
    requires { axis.events ≡ length chart.now.notes.items }
    ensures { OnOk result (string_bytes text.new ≡ string_bytes text.old ++ meant.below_text chart.now axis.left bottom) }
{
    push_console(
        text,
        Console::SentBytes,
        chart,
        axis,
        bottom.saturating_add(16),
    )?;
    push_console(
        text,
        Console::TypedBytes,
        chart,
        axis,
        bottom.saturating_add(34),
    )?;
    push_numbers(text, axis, bottom.saturating_add(54))
}

// The head of a picture, and what its colours mean.
fn push_begin(text: &mut String, axis: Axis, bottom: u64) -> Result<(), AllocError>
    ensures { OnOk result (string_bytes text.new ≡ string_bytes text.old ++ meant.begin_text axis.left bottom) }
{
    let width = axis.left.saturating_add(WIDTH + RIGHT);
    push_head(text, width, bottom.saturating_add(70))?;
    push_legend(text, axis.left)
}

// What stands below the bars, and the end of a picture.
fn push_end(text: &mut String, chart: &Chart, axis: Axis, bottom: u64) -> Result<(), AllocError>
    requires { axis.events ≡ length chart.now.notes.items }
    ensures { OnOk result (string_bytes text.new ≡ string_bytes text.old ++ meant.end_text chart.now axis.left bottom) }
{
    push_below(text, chart, axis, bottom)?;
    push(text, "</svg>\n")
}

// What a picture shows of a chart, between its legend and what stands below the rows.
fn shapes_of(alloc: Global, chart: &Chart) -> io::Result<Vec<Shape>>
    ensures { IfOk result (λ shapes. shapes.items ≡ shapes_of chart.now) }
{
    let mut drawn = Drawn(Vec::new(alloc));
    draw_chart(chart, &mut drawn)?;
    Ok(drawn.0)
}

// Writes what was made of a picture, and begins the next part.
fn put<W: io::Write>(part: &mut String, output: &mut W) -> io::Result<()>
    ensures written { OnOk result (Appends (W.contents output.old) (W.contents output.new) (string_bytes part.old)) }
    ensures empty { OnOk result (string_bytes part.new ≡ []) }
{
    output.write_all(part.as_bytes())?;
    part.clear();
    Ok(())
}

// The same, if it is long enough to be written.
fn put_if_long<W: io::Write>(part: &mut String, output: &mut W) -> io::Result<()>
    ensures { OnOk result (Moves (W.contents output.old) (W.contents output.new) (string_bytes part.old) (string_bytes part.new)) }
{
    if part.len() < PART {
        return Ok(());
    }
    put(part, output)
}

// Makes the parts of a picture, in this order, and writes them as they become long enough.
fn put_shapes<W: io::Write>(
    part: &mut String,
    plan: &Plan,
    shapes: &[Shape],
    output: &mut W,
) -> io::Result<()>
    ensures { OnOk result (Moves (W.contents output.old) (W.contents output.new)
        (string_bytes part.old ++ flat_map (meant.shape_text plan.now.remarks.now plan.now.axis.left plan.now.axis.events plan.now.bottom) shapes.now)
        (string_bytes part.new)) }
{
    for shape in shapes {
        push_shape(part, plan, *shape)?;
        put_if_long(part, output)?;
    }
    Ok(())
}

// Writes the picture of a chart, whose shapes are these.
fn put_picture<W: io::Write>(
    alloc: Global,
    plan: &Plan,
    chart: &Chart,
    shapes: &[Shape],
    output: &mut W,
) -> io::Result<()>
    requires { plan.now.axis.events ≡ length chart.now.notes.items }
    ensures { OnOk result (Appends (W.contents output.old) (W.contents output.new)
        (meant.picture_by chart.now plan.now.remarks.now plan.now.axis.left plan.now.axis.events plan.now.bottom shapes.now)) }
{
    let mut part = String::new(alloc);
    push_begin(&mut part, plan.axis, plan.bottom)?;
    put_shapes(&mut part, plan, shapes, output)?;
    push_end(&mut part, chart, plan.axis, plan.bottom)?;
    put(&mut part, output)
}

/// Writes the picture of a chart: a row for each process, in the order of their pids, with its bar and its
/// marks; below them the bytes that were sent and typed, and the numbers of events. A row has the name of its
/// process's last program, and a sleeper's bar what it waits for, if `remarks` tell them. The text isn't kept: it is
/// written in parts of some 64 KiB.
///
/// # Errors
///
/// The host has too little memory, or the output takes no more. Some of the picture may be written then.
#[tactic(auto, unfolding(crate::specs::Svg::picture_of))]
pub fn write_picture<W: io::Write>(
    alloc: Global,
    chart: &Chart,
    remarks: &Remarks,
    output: &mut W,
) -> io::Result<()>
    ensures { OnOk result (Appends (W.contents output.old) (W.contents output.new) (meant.picture_of chart.now remarks.now)) }
{
    let shapes = shapes_of(alloc, chart)?;
    let axis = Axis {
        left: names_room(chart, remarks),
        events: chart.notes.len(),
    };
    let plan = Plan {
        remarks,
        axis,
        bottom: row_top(chart.rows.len()),
    };
    put_picture(alloc, &plan, chart, shapes.as_slice(), output)
}
