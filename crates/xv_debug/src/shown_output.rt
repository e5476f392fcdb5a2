//! What the console showed while a word was obeyed.
ghost use Rattle.std.specs.Prelude.{◌≡◌, ◌++◌, ◌<◌, [], true, if◌then◌else◌, codes, OnOk, string_bytes};
ghost use Rattle.xv_debug.specs.OutputText.{behind_bars, byte_shown, output_text, with_bar};

use crate::motion::Output;
use circular_buffer::HeapCircularBuffer;
use debug_words::texts::Many;
use std::alloc::AllocError;

/// A byte as a terminal shows it; a dot where that is no visible character.
fn shown(byte: u8) -> u8
    ensures byte { result ≡ byte_shown byte }
    ensures ascii { result < 128 }
{
    if byte == b'\n' {
        return b'\n';
    }
    if byte >= 32 && byte <= 126 {
        byte
    } else {
        b'.'
    }
}

/// What stands before a byte that begins a line, or not.
fn bar(begins: bool) -> &'static str
    ensures { result.now ≡ (if begins then codes "| " else []) }
{
    if begins { "| " } else { "" }
}

/// Writes a byte, behind a bar if it begins a line.
fn show_byte(begins: bool, byte: u8, answer: &mut String) -> Result<(), AllocError>
    ensures { OnOk result (string_bytes answer.new ≡ string_bytes answer.old ++ with_bar begins byte) }
{
    answer.push_str(bar(begins))?;
    answer.push(char::from(shown(byte)))
}

/// Writes bytes with a bar before each line.
fn show_bytes(bytes: &HeapCircularBuffer<u8>, answer: &mut String) -> Result<(), AllocError>
    ensures { OnOk result (string_bytes answer.new ≡ string_bytes answer.old ++ behind_bars true bytes.now.items) }
{
    let mut begins = true;
    for place in 0..bytes.len() {
        let Some(byte) = bytes.get(place) else {
            unreachable!();
        };
        show_byte(begins, *byte, answer)?;
        begins = *byte == b'\n';
    }
    if begins { Ok(()) } else { writeln!(answer) }
}

/// Writes what was shown, each line of it behind a bar, if there is anything.
pub(crate) fn show_output(output: &Output, answer: &mut String) -> Result<(), AllocError>
    ensures { OnOk result (string_bytes answer.new ≡ string_bytes answer.old ++ output_text output.now) }
{
    let count = output.count;
    if count == 0 {
        return Ok(());
    }
    let many = Many(count, "byte");
    writeln!(answer, "the console shows {many}:")?;
    show_bytes(&output.last, answer)
}
