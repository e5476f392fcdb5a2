//! Pictures of traces, which show what processes did. The program that draws them is `xv_picture`.
//!
//! A row stands for a process. Its bar shows, event by event, whether the process ran, waited for its turn,
//! slept, or had ended and was still to be waited for. Lines that tell more than a trace, as `xv_why --notes` writes them,
//! give the rows the names of programs, and the bars of sleepers what they wait for.
#![tactic(auto)]

ghost use Rattle.std.specs.Prelude.{OnOk, Some};
ghost use Rattle.trace_picture.specs.Drawing.{Draws};

mod chart;
mod label;
mod line;
mod note;
mod picture;
mod remark;
mod row;
mod shape;

use crate::chart::Chart;
use crate::line::{Told, lines_of};
use crate::picture::write_picture;
use std::alloc::Global;
use std::io::{self, Read, Write};

// Writes the picture of a text.
fn draw_text<W: Write>(alloc: Global, text: &str, output: &mut W) -> io::Result<()>
    ensures { OnOk result (Draws (Some text.now) (W.contents output.old) (W.contents output.new)) }
{
    let Told { notes, remarks } = lines_of(alloc, text)?;
    let chart = Chart::of(alloc, notes)?;
    write_picture(alloc, &chart, &remarks, output)
}

/// Reads a trace, and writes a picture of it, in SVG.
///
/// # Errors
///
/// Those of the two streams, and that the host has too little memory. The picture is written as it is made, so some of it
/// may be written then.
pub fn draw_trace<R: Read + Drop, W: Write>(
    alloc: Global,
    trace: R,
    output: &mut W,
) -> io::Result<()>
    ensures { OnOk result (Draws (R.remaining trace) (W.contents output.old) (W.contents output.new)) }
{
    let text = io::read_to_string(alloc, trace)?;
    draw_text(alloc, text.as_str(), output)?;
    output.flush()
}
