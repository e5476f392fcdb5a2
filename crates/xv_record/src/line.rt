//! A line of events.
ghost use Rattle.std.specs.Prelude.{◌≡◌, ◌++◌, OnOk, IfSome};
ghost use Rattle.std.specs.String.{string_bytes};
ghost use Rattle.xv_record.specs.Text.{line_text, IsLine};

use std::alloc::AllocError;
use std::fmt::Write;

/// Events that come one behind another, as a line of a record has them.
#[derive(Clone, Copy)]
pub enum Line {
    /// So many Runs.
    Run(u64),
    /// So many ticks of the clock.
    Tick(u64),
    /// So many bytes that the terminal may take.
    Send(u64),
    /// The key of this byte.
    Key(u8),
}

/// Writes the line behind a text.
pub(crate) fn push_line(text: &mut String, line: &Line) -> Result<(), AllocError>
    ensures { OnOk result (string_bytes text.new ≡ string_bytes text.old ++ line_text line.now) }
{
    match line {
        Line::Run(count) => writeln!(text, "run {count}"),
        Line::Tick(count) => writeln!(text, "tick {count}"),
        Line::Send(count) => writeln!(text, "send {count}"),
        Line::Key(byte) => writeln!(text, "key {byte}"),
    }
}

/// The line of a text without its line break, if the text is one.
pub(crate) fn line_of(text: &str) -> Option<Line>
    ensures { IfSome result IsLine }
{
    let (word, number) = text.split_once(' ')?;
    let number = number.parse::<u64>().ok()?;
    match word {
        "run" => Some(Line::Run(number)),
        "tick" => Some(Line::Tick(number)),
        "send" => Some(Line::Send(number)),
        "key" => Some(Line::Key(u8::try_from(number).ok()?)),
        _ => None,
    }
}
