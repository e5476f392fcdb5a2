//! Numbers, bytes and names as they are shown. Which bytes are written stands in `specs/Texts.antt`.
ghost use Rattle.std.specs.Prelude.{◌≡◌, ◌++◌, ◌<◌, Some, IfOk, OnOk, flat_map, option_map};
ghost use Rattle.std.specs.Fmt.{AppendsText, WritesOnOk, styled_text};
ghost use Rattle.debug_words.specs.Texts as meant;

use arrayvec::ArrayString;
use std::fmt::{self, Display, Write};

/// The most characters of a number with commas, and of a thing that is counted.
const COUNT_CHARACTERS: usize = 48;

/// The most thousands that a number of 64 bits has: 2^64 is less than 1000^7.
const THOUSANDS: u8 = 6;

/// The most characters of a program's name that are shown.
const NAME_CHARACTERS: usize = 14;

/// The text of a number, or of a thing that is counted.
type CountText = ArrayString<COUNT_CHARACTERS>;

/// Puts a value's text behind another.
///
/// # Errors
///
/// There is too little room.
fn append<D: Display + Drop>(text: &mut CountText, value: D) -> fmt::Result
    ensures { OnOk result (AppendsText text.old.bytes text.new.bytes (D.output value)) }
{
    text.write(value)
}

/// Puts a number of so many thousands at most behind a text, with a comma at each.
fn push_grouped(text: &mut CountText, thousands: u8, number: u64) -> fmt::Result
    ensures { OnOk result (text.new.bytes ≡ text.old.bytes ++ meant.grouped_by thousands number) }
{
    if thousands == 0 || number < 1000 {
        return append(text, number);
    }
    push_grouped(text, thousands - 1, number / 1000)?;
    let last = number % 1000;
    append(text, format_args!(",{last:03}"))
}

/// A number with a comma at each thousand, as in 1,234,567.
#[derive(Clone, Copy)]
pub struct Grouped(pub u64);

impl Grouped {
    /// Its digits and commas.
    fn text(self) -> Result<CountText, fmt::Error>
        ensures { IfOk result (λ text. text.bytes ≡ meant.grouped self.0) }
    {
        let mut text = CountText::new();
        push_grouped(&mut text, THOUSANDS, self.0)?;
        Ok(text)
    }
}

impl fmt::Display for Grouped {
    ghost output = { λ n. Some (meant.grouped n.0) };

    ghost styled_output = { λ n s. Some (styled_text s (meant.grouped n.0)) };

    fn fmt<W: fmt::Write>(&self, f: &mut fmt::Formatter<W>) -> fmt::Result {
        f.pad(self.text()?.as_str())
    }
}

/// A number as `0x` and its hexadecimal digits.
#[derive(Clone, Copy)]
pub struct Hexadecimal(pub u64);

impl Hexadecimal {
    /// Its digits, and what stands before them.
    fn text(self) -> Result<CountText, fmt::Error>
        ensures { IfOk result (λ text. text.bytes ≡ meant.hexadecimal self.0) }
    {
        let number = self.0;
        let mut text = CountText::new();
        append(&mut text, format_args!("0x{number:x}"))?;
        Ok(text)
    }
}

impl fmt::Display for Hexadecimal {
    ghost output = { λ n. Some (meant.hexadecimal n.0) };

    ghost styled_output = { λ n s. Some (styled_text s (meant.hexadecimal n.0)) };

    fn fmt<W: fmt::Write>(&self, f: &mut fmt::Formatter<W>) -> fmt::Result {
        f.pad(self.text()?.as_str())
    }
}

/// So many of a thing: `1 event`, `2,000 events`.
#[derive(Clone, Copy)]
pub struct Many(pub u64, pub &'static str);

/// What stands behind a thing of which there are so many.
fn plural(count: u64) -> &'static str
    ensures { result.now ≡ meant.plural count }
{
    if count == 1 { "" } else { "s" }
}

impl Many {
    /// The number and the thing.
    fn text(self) -> Result<CountText, fmt::Error>
        ensures { IfOk result (λ text. text.bytes ≡ meant.many self.0 self.1.now) }
    {
        let thing = self.1;
        let ending = plural(self.0);
        let mut text = CountText::new();
        push_grouped(&mut text, THOUSANDS, self.0)?;
        append(&mut text, format_args!(" {thing}{ending}"))?;
        Ok(text)
    }
}

impl fmt::Display for Many {
    ghost output = { λ m. Some (meant.many m.0 m.1.now) };

    ghost styled_output = { λ m s. Some (styled_text s (meant.many m.0 m.1.now)) };

    fn fmt<W: fmt::Write>(&self, f: &mut fmt::Formatter<W>) -> fmt::Result {
        f.pad(self.text()?.as_str())
    }
}

/// Bytes between quotes, those that are no visible character by what `key` reads.
#[derive(Clone, Copy)]
pub struct Quoted<'a>(pub &'a [u8]);

/// One byte of them.
fn show_byte<W: fmt::Write>(byte: u8, f: &mut fmt::Formatter<W>) -> fmt::Result
    ensures { WritesOnOk W.write_str_gives f.old result (meant.quoted_byte byte) f.new }
{
    match byte {
        b'\n' => f.write_str("\\n"),
        b'\t' => f.write_str("\\t"),
        8 => f.write_str("\\b"),
        b'\\' => f.write_str("\\\\"),
        b'"' => f.write_str("\\x22"),
        32..=126 => f.write_char(char::from(byte)),
        _ => write!(f, "\\x{byte:02x}"),
    }
}

/// The bytes, one behind another.
fn show_bytes<W: fmt::Write>(bytes: &[u8], f: &mut fmt::Formatter<W>) -> fmt::Result
    ensures { WritesOnOk W.write_str_gives f.old result (flat_map meant.quoted_byte bytes.now) f.new }
{
    for byte in bytes {
        show_byte(*byte, f)?;
    }
    Ok(())
}

impl<'a> fmt::Display for Quoted<'a> {
    ghost output = { λ q. Some (meant.quoted q.0.now) };

    fn fmt<W: fmt::Write>(&self, f: &mut fmt::Formatter<W>) -> fmt::Result {
        f.write_str("\"")?;
        show_bytes(self.0, f)?;
        f.write_str("\"")
    }
}

/// A byte that is a visible character; else a dot.
fn visible(byte: u8) -> u8
    ensures byte { result ≡ meant.visible byte }
    ensures ascii { result < 128 }
{
    if byte > 32 && byte < 127 { byte } else { b'.' }
}

/// The characters of a name: a dot for a byte that is no visible character.
fn name_text(name: &[u8]) -> ArrayString<NAME_CHARACTERS>
    ensures { result.bytes ≡ meant.name_shown name.now }
{
    let mut text = ArrayString::new();
    for place in 0..name.len().min(NAME_CHARACTERS) {
        text.push(char::from(visible(name[place])));
    }
    text
}

/// The name of a program behind a pid, as in ` (sh)`; nothing where there is none.
#[derive(Clone, Copy)]
pub struct Named<'a>(pub Option<&'a [u8]>);

impl<'a> fmt::Display for Named<'a> {
    ghost output = { λ n. Some (meant.named (option_map (λ name. name.now) n.0)) };

    fn fmt<W: fmt::Write>(&self, f: &mut fmt::Formatter<W>) -> fmt::Result {
        let Some(name) = self.0 else {
            return Ok(());
        };
        let text = name_text(name);
        write!(f, " ({text})")
    }
}

/// The name of a program alone.
#[derive(Clone, Copy)]
pub struct Plain<'a>(pub &'a [u8]);

impl<'a> fmt::Display for Plain<'a> {
    ghost output = { λ n. Some (meant.name_shown n.0.now) };

    ghost styled_output = { λ n s. Some (styled_text s (meant.name_shown n.0.now)) };

    fn fmt<W: fmt::Write>(&self, f: &mut fmt::Formatter<W>) -> fmt::Result {
        f.pad(name_text(self.0).as_str())
    }
}
