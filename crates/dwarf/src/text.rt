//! Texts in debugging tables: each ends before a zero byte (DWARF 5, section 7.5.5, "string").
ghost use Rattle.std.specs.Prelude.{◌≡◌, ◌≤◌, ◌<◌, ◌==◌, length, take, position, IfOk, IfSome};
ghost use Rattle.dwarf.specs.Numbers.{Gives};
ghost use Rattle.dwarf.specs.Texts as meant;

use crate::fault::Fault;

/// The longest name of a file, with its zero byte (POSIX, `PATH_MAX`).
const NAME_BYTES: usize = 4096;

/// Where the first zero byte stands.
fn zero_in(bytes: &[u8]) -> Option<usize>
    ensures first { result ≡ position (λ b. b == 0) bytes.now }
    ensures within { IfSome result (λ n. n < length bytes.now) }
{
    bytes.iter().position(|b| *b == 0)
}

/// The place after the text that begins at a place, and after its zero byte.
///
/// # Errors
///
/// [`Fault::Short`] if the bytes end before the text does.
#[tactic(auto, unfolding(crate::specs::Texts::past_text))]
pub fn past_text(bytes: &[u8], at: usize) -> Result<usize, Fault>
    ensures value { result ≡ meant.past_text bytes.now at }
    ensures within { IfOk result (λ next. (at < next) × (next ≤ length bytes.now)) }
{
    let Some(rest) = bytes.get(at..) else {
        return Err(Fault::Short(at));
    };
    let Some(count) = zero_in(rest) else {
        return Err(Fault::Short(at));
    };
    Ok(at + count + 1)
}

/// At most so many bytes, from the first on.
pub(crate) fn front(bytes: &[u8], most: usize) -> &[u8]
    ensures value { result.now ≡ take most bytes.now }
    ensures within { length result.now ≤ length bytes.now }
{
    if bytes.len() > most {
        &bytes[..most]
    } else {
        bytes
    }
}

/// The name that begins at a place of a section of texts, without its zero byte. It reads at most 4096 bytes.
///
/// # Errors
///
/// [`Fault::Name`] if the section ends before the name does, or the name has more than 4095 bytes.
#[tactic(auto, unfolding(crate::specs::Texts::name_at))]
pub fn name_at(bytes: &[u8], at: usize) -> Result<&[u8], Fault>
    ensures { Gives (λ name. name.now) result (meant.name_at bytes.now at) }
{
    if at > bytes.len() {
        return Err(Fault::Name(at));
    }
    let rest = &bytes[at..];
    let Some(count) = zero_in(front(rest, NAME_BYTES)) else {
        return Err(Fault::Name(at));
    };
    Ok(&rest[..count])
}
