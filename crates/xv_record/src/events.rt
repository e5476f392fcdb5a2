//! The events of a record, as text.
ghost use Rattle.std.specs.Prelude.{◌≡◌, ◌++◌, IfOk, OnOk};
ghost use Rattle.std.specs.String.{string_bytes};
ghost use Rattle.xv_record.specs.Text.{events_text_of, AreLines};

use crate::RecordError;
use crate::line::{Line, line_of, push_line};
use std::alloc::{AllocError, Global};

/// The line that ends the events of a record.
pub(crate) const END: &str = "end";

/// Writes events behind a text, a line each.
pub(crate) fn push_events(text: &mut String, lines: &[Line]) -> Result<(), AllocError>
    ensures { OnOk result (string_bytes text.new ≡ string_bytes text.old ++ events_text_of lines.now) }
{
    for line in lines {
        push_line(text, line)?;
    }
    Ok(())
}

/// The events of a text, up to its line `end` or to its end. A number in another form is read too.
///
/// # Errors
///
/// [`RecordError::Line`] with the number of the first line that is none, and [`RecordError::Memory`].
pub(crate) fn lines_of(alloc: Global, text: &str) -> Result<Vec<Line>, RecordError>
    ensures { IfOk result (λ lines. AreLines lines.items) }
{
    let mut lines = Vec::new(alloc);
    let mut number = 1u64;
    for part in text.lines() {
        if part == END {
            return Ok(lines);
        }
        let Some(line) = line_of(part) else {
            return Err(RecordError::Line(number));
        };
        lines.push(line)?;
        number = number.saturating_add(1);
    }
    Ok(lines)
}
