//! Bytes and numbers as text.
use std::fmt;

/// How many bytes of a line are shown.
const LINE_BYTES: usize = 60;

/// Bytes in quotes, sixty at most: what isn't printable ASCII is shown as `\x1b`.
#[derive(Clone, Copy)]
pub struct Quoted<'a>(pub &'a [u8]);

// Writes a byte: what isn't printable ASCII as `\x1b`.
fn write_byte<W: fmt::Write>(f: &mut fmt::Formatter<W>, byte: u8) -> fmt::Result {
    match byte {
        b'"' => f.write_str("\\\""),
        b'\\' => f.write_str("\\\\"),
        b'\n' => f.write_str("\\n"),
        b'\t' => f.write_str("\\t"),
        b' '..=b'~' => f.write_char(byte as char),
        _ => write!(f, "\\x{byte:02x}"),
    }
}

// Writes the first sixty bytes.
fn write_bytes<W: fmt::Write>(f: &mut fmt::Formatter<W>, bytes: &[u8]) -> fmt::Result {
    for &byte in bytes.iter().take(LINE_BYTES) {
        write_byte(f, byte)?;
    }
    Ok(())
}

impl<'a> fmt::Display for Quoted<'a> {
    fn fmt<W: fmt::Write>(&self, f: &mut fmt::Formatter<W>) -> fmt::Result {
        let end = if self.0.len() > LINE_BYTES {
            "..\""
        } else {
            "\""
        };
        f.write_char('"')?;
        write_bytes(f, self.0)?;
        f.write_str(end)
    }
}

/// A number with a comma before each three of its digits: `1,000,000`.
#[derive(Clone, Copy)]
pub struct Grouped(pub u64);

// Writes numbers of three digits, each behind a comma.
fn write_groups<W: fmt::Write>(f: &mut fmt::Formatter<W>, groups: &[u64]) -> fmt::Result {
    for group in groups {
        write!(f, ",{group:03}")?;
    }
    Ok(())
}

impl fmt::Display for Grouped {
    fn fmt<W: fmt::Write>(&self, f: &mut fmt::Formatter<W>) -> fmt::Result {
        let number = self.0;
        let (thousands, rest) = (number / 1_000, number % 1_000);
        let (millions, thousand) = (thousands / 1_000, thousands % 1_000);
        let (billions, million) = (millions / 1_000, millions % 1_000);
        let groups = [million, thousand, rest];
        let (first, behind) = if billions > 0 {
            (billions, &groups[..])
        } else if millions > 0 {
            (million, &groups[1..])
        } else if thousands > 0 {
            (thousand, &groups[2..])
        } else {
            (rest, &groups[3..])
        };
        write!(f, "{first}")?;
        write_groups(f, behind)
    }
}
