//! What a debugger's line asks of a program in C.
ghost use Rattle.std.specs.Prelude.{◌≡◌, option_map};
ghost use Rattle.std.specs.Str.{trim};
ghost use Rattle.c_expressions.specs.Asked as meant;

/// What a line asks of a program in C.
#[derive(Clone, Copy)]
pub enum Asked<'a> {
    /// The value of an expression.
    Value(&'a str),
    /// The same, as a hexadecimal number.
    Hexadecimal(&'a str),
    /// The local variables.
    Locals,
    /// The arguments.
    Arguments,
    /// The type of an expression, or a type by its name.
    Type(&'a str),
    /// The same, with all that it has.
    Layout(&'a str),
}

/// The word before the first blank of a line, and the text behind that.
pub fn parted(line: &str) -> (&str, &str)
    ensures word { result.0.now ≡ meant.word_of line.now }
    ensures rest { result.1.now ≡ meant.rest_of line.now }
{
    match line.split_once(' ') {
        Some(parts) => parts,
        None => (line, ""),
    }
}

/// A text behind a word, if there is one.
fn behind(text: &str) -> Option<&str>
    ensures { option_map (λ it. it.now) result ≡ meant.behind text.now }
{
    let text = text.trim();
    if text.is_empty() { None } else { Some(text) }
}

/// What `info` and a text behind it ask.
fn info(text: &str) -> Option<Asked<'_>>
    ensures { option_map meant.seen result ≡ meant.info (trim text.now) }
{
    match text.trim() {
        "locals" => Some(Asked::Locals),
        "args" => Some(Asked::Arguments),
        _ => None,
    }
}

/// What a word asks, with the text behind it.
fn asked_by<'a>(word: &str, rest: &'a str) -> Option<Asked<'a>>
    ensures { option_map meant.seen result ≡ meant.asked_by word.now rest.now }
{
    match word {
        "print" | "p" | "inspect" => Some(Asked::Value(behind(rest)?)),
        "print/x" | "p/x" => Some(Asked::Hexadecimal(behind(rest)?)),
        "whatis" => Some(Asked::Type(behind(rest)?)),
        "ptype" => Some(Asked::Layout(behind(rest)?)),
        "info" => info(rest),
        _ => None,
    }
}

impl<'a> Asked<'a> {
    /// What a line asks; `None` if it begins with no such word, or something else stands behind it.
    pub fn of(line: &'a str) -> Option<Asked<'a>>
        ensures { option_map meant.seen result ≡ meant.asked_in line.now }
    {
        let (word, rest) = parted(line.trim());
        asked_by(word, rest)
    }
}
