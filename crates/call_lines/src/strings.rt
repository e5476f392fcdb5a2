//! Bytes as strings of C.
ghost use Rattle.std.specs.Prelude.{◌≡◌, Some, flat_map, take};
ghost use Rattle.std.specs.Fmt.{WritesOnOk};
ghost use Rattle.call_lines.specs.Strings as meant;

use std::fmt;

/// Bytes between quotes, as C writes a string: so many of them at most, and dots behind if there are more.
#[derive(Clone, Copy)]
pub struct CString<'a> {
    pub bytes: &'a [u8],
    pub most: usize,
}

// One byte of them.
fn show_byte<W: fmt::Write>(byte: u8, f: &mut fmt::Formatter<W>) -> fmt::Result
    ensures { WritesOnOk W.write_str_gives f.old result (meant.escaped byte) f.new }
{
    match byte {
        b'\n' => f.write_str("\\n"),
        b'\t' => f.write_str("\\t"),
        b'\r' => f.write_str("\\r"),
        b'"' => f.write_str("\\\""),
        b'\\' => f.write_str("\\\\"),
        32..=126 => f.write_char(char::from(byte)),
        _ => write!(f, "\\{byte:03o}"),
    }
}

// The bytes, one behind another.
fn show_bytes<W: fmt::Write>(bytes: &[u8], f: &mut fmt::Formatter<W>) -> fmt::Result
    ensures { WritesOnOk W.write_str_gives f.old result (flat_map meant.escaped bytes.now) f.new }
{
    for byte in bytes {
        show_byte(*byte, f)?;
    }
    Ok(())
}

// Those that are shown.
fn shown(bytes: &[u8], most: usize) -> &[u8]
    ensures { result.now ≡ take most bytes.now }
{
    if bytes.len() > most {
        &bytes[..most]
    } else {
        bytes
    }
}

// What stands behind them.
fn ending(bytes: &[u8], most: usize) -> &'static str
    ensures { result.now ≡ meant.ending most bytes.now }
{
    if bytes.len() > most { "\"..." } else { "\"" }
}

impl<'a> fmt::Display for CString<'a> {
    ghost output = { λ s. Some (meant.c_string s.most s.bytes.now) };

    fn fmt<W: fmt::Write>(&self, f: &mut fmt::Formatter<W>) -> fmt::Result {
        f.write_str("\"")?;
        show_bytes(shown(self.bytes, self.most), f)?;
        f.write_str(ending(self.bytes, self.most))
    }
}
