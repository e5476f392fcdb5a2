//! Places in sources.
ghost use Rattle.std.specs.Prelude.{◌≡◌};
ghost use Rattle.line_tables.specs.Facts as meant;

use dwarf::Text;

/// A line of a source.
#[derive(Clone, Copy)]
pub(crate) struct Source {
    /// Where the source's name stands.
    pub file: Text,
    /// The line, from 1 on.
    pub line: u64,
}

/// Whether two names stand at the same place.
pub(crate) fn is_same_text(one: Text, other: Text) -> bool
    ensures { result ≡ meant.is_same_text one other }
{
    match (one, other) {
        (Text::Here(a), Text::Here(b)) => a == b,
        (Text::LineStrings(a), Text::LineStrings(b)) => a == b,
        (Text::Strings(a), Text::Strings(b)) => a == b,
        _ => false,
    }
}
