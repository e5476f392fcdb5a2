//! Which numbers are meant.
ghost use Rattle.std.specs.Prelude.{◌≡◌};
ghost use Rattle.grade_rules.specs.Numbers.{has};

/// Which numbers may stand in a place of a note.
#[derive(Clone, Copy)]
pub enum Numbers {
    /// Each number.
    Any,
    /// From the least to the most, both with it.
    Within { least: i64, most: i64 },
    /// One or the other.
    Either(i64, i64),
    /// Each number but this one.
    Not(i64),
}

impl Numbers {
    /// Whether the number is one of them.
    pub fn has(&self, number: i64) -> bool
        ensures { result ≡ has self.now number }
    {
        match *self {
            Numbers::Any => true,
            Numbers::Within { least, most } => least <= number && number <= most,
            Numbers::Either(one, other) => number == one || number == other,
            Numbers::Not(other) => number != other,
        }
    }
}
