//! The text of a file, whatever its encoding.
ghost use Rattle.std.specs.Prelude.{◌≡◌, ◌%◌, length, IfOk, option_map};
ghost use Rattle.grade_submissions.specs.Encodings.{unit, units_of, order_of, without_mark, plain_bytes};

use std::alloc::{AllocError, Global};

/// Which of the two bytes of a unit of UTF-16 comes first.
#[derive(Clone, Copy)]
pub enum ByteOrder {
    /// The low one.
    Little,
    /// The high one.
    Big,
}

// The order that the byte order mark of UTF-16 says that bytes begin with, if they begin with one.
fn order_of(bytes: &[u8]) -> Option<ByteOrder>
    ensures { result ≡ order_of bytes.now }
{
    if bytes.starts_with(&[0xff, 0xfe]) {
        return Some(ByteOrder::Little);
    }
    if bytes.starts_with(&[0xfe, 0xff]) {
        return Some(ByteOrder::Big);
    }
    None
}

// Bytes without the byte order mark of UTF-8 that an editor may have put before them.
fn without_mark(bytes: &[u8]) -> &[u8]
    ensures { result.now ≡ without_mark bytes.now }
{
    if bytes.starts_with(&[0xef, 0xbb, 0xbf]) {
        return &bytes[3..];
    }
    bytes
}

// The unit of two bytes.
fn unit(order: ByteOrder, first: u8, second: u8) -> u16
    ensures { result ≡ unit order first second }
{
    match order {
        ByteOrder::Little => u16::from(second) * 256 + u16::from(first),
        ByteOrder::Big => u16::from(first) * 256 + u16::from(second),
    }
}

// The units of bytes, two of them each.
fn units_of(alloc: Global, order: ByteOrder, bytes: &[u8]) -> Result<Vec<u16>, AllocError>
    requires { length bytes.now % 2 ≡ 0 }
    ensures { IfOk result (λ units. units.items ≡ units_of order bytes.now) }
{
    let mut units = Vec::new(alloc);
    for place in 0..bytes.len() / 2 {
        units.push(unit(order, bytes[2 * place], bytes[2 * place + 1]))?;
    }
    Ok(units)
}

/// The bytes of a file in UTF-8, if they are text, and without a byte order mark: those of UTF-16 with its mark are put into
/// UTF-8, and all others stay as they are. `None` if bytes begin as UTF-16, and aren't.
pub(crate) fn plain_bytes(alloc: Global, bytes: &[u8]) -> Result<Option<Vec<u8>>, AllocError>
    ensures { IfOk result (λ plain. option_map (λ those. those.items) plain ≡ plain_bytes bytes.now) }
{
    let Some(order) = order_of(bytes) else {
        return Ok(Some(Vec::from_slice(alloc, without_mark(bytes))?));
    };
    if bytes.len() % 2 != 0 {
        return Ok(None);
    }
    let units = units_of(alloc, order, &bytes[2..])?;
    match String::from_utf16(alloc, units.as_slice())? {
        Ok(text) => Ok(Some(Vec::from_slice(alloc, text.as_str().as_bytes())?)),
        Err(_) => Ok(None),
    }
}
