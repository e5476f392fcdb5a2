//! Forms in which memory is shown, as gdb's word `x` has them.
ghost use Rattle.std.specs.Prelude.{◌≡◌, ◌≤◌, IfOk, IfSome};
ghost use Rattle.debug_words.specs.Ranges.{IsFormInRange, UpTo, bytes_of};

use crate::fault::WordErrorKind;
use crate::vocabulary::{BYTES_MOST, LISTED_MOST, Size};

/// How memory is shown.
#[derive(Clone, Copy)]
pub(crate) enum Form {
    /// So many numbers of this size.
    Numbers { count: u32, size: Size },
    /// So many instructions.
    Instructions { count: u32 },
}

/// What the letters of a form ask for.
#[derive(Clone, Copy)]
struct Letters {
    size: Size,
    /// Whether it is instructions that are asked for.
    are_instructions: bool,
}

/// How many bytes a number has.
pub(crate) fn bytes_of(size: Size) -> u32
    ensures { result ≡ bytes_of size }
{
    match size {
        Size::Byte => 1,
        Size::Half => 2,
        Size::Word => 4,
        Size::Giant => 8,
    }
}

/// These letters and one more; `None` if it is none.
fn with_letter(letters: Letters, letter: char) -> Option<Letters> {
    let size = match letter {
        'b' => Size::Byte,
        'h' => Size::Half,
        'w' => Size::Word,
        'g' => Size::Giant,
        'x' => letters.size,
        'i' => {
            return Some(Letters {
                are_instructions: true,
                ..letters
            });
        }
        _ => return None,
    };
    Some(Letters { size, ..letters })
}

/// What letters ask for; words of four bytes, if they name no size. `None` if one of them is none.
fn letters_of(text: &str) -> Option<Letters> {
    let mut letters = Letters {
        size: Size::Word,
        are_instructions: false,
    };
    for letter in text.chars() {
        letters = with_letter(letters, letter)?;
    }
    Some(letters)
}

/// The number that digits write, 1 at least and at most this; 1 if there are none.
fn count_in(digits: &str, most: u32) -> Option<u32>
    requires { 1 ≤ most }
    ensures { IfSome result (λ n. UpTo most n) }
{
    if digits.is_empty() {
        return Some(1);
    }
    let count = digits.parse::<u32>().ok()?;
    if count == 0 || count > most {
        return None;
    }
    Some(count)
}

/// So many numbers of a size, as a form.
fn numbers_in(digits: &str, size: Size) -> Option<Form>
    ensures { IfSome result IsFormInRange }
{
    let count = count_in(digits, BYTES_MOST / bytes_of(size))?;
    Some(Form::Numbers { count, size })
}

/// So many instructions, as a form.
fn instructions_in(digits: &str) -> Option<Form>
    ensures { IfSome result IsFormInRange }
{
    let count = count_in(digits, LISTED_MOST)?;
    Some(Form::Instructions { count })
}

/// The form of digits and of what letters ask for.
fn form_in(digits: &str, letters: &str) -> Option<Form>
    ensures { IfSome result IsFormInRange }
{
    let letters = letters_of(letters)?;
    if letters.are_instructions {
        instructions_in(digits)
    } else {
        numbers_in(digits, letters.size)
    }
}

/// The form that a text writes: how many, then letters.
pub(crate) fn form_of<'a>(text: &'a str) -> Result<Form, WordErrorKind<'a>>
    ensures { IfOk result IsFormInRange }
{
    let letters = text.trim_start_matches(|c: char| c.is_ascii_digit());
    let digits = text.strip_suffix(letters).unwrap_or("");
    match form_in(digits, letters) {
        Some(form) => Ok(form),
        None => Err(WordErrorKind::NotThis {
            text,
            wanted: "a form as 8gx, 16b or 4i, of 256 bytes or 100 instructions at most,",
        }),
    }
}
