//! What is kept of the tables: units, entries, and which attributes they have (DWARF 5, sections 2.1 and 7.5).
ghost use Rattle.std.specs.Prelude.{◌≡◌, nat_lt};

/// An attribute of entries, as an abbreviation tells it (section 7.5.3).
#[derive(Clone, Copy)]
pub(crate) struct Specification {
    /// What it tells (`DW_AT_..`).
    pub attribute: u64,
    /// How its value is written (`DW_FORM_..`).
    pub form: u64,
    /// The value itself, if its form is `DW_FORM_implicit_const`.
    pub constant: i64,
}

/// A unit of `.debug_info` (section 7.5.1). Places are in bytes from the section's first.
#[derive(Clone, Copy)]
pub(crate) struct InfoUnit {
    /// Where it begins: places within the unit are counted from here.
    pub at: usize,
    /// It is in the 64-bit format: its offsets have 8 bytes, not 4.
    pub is_wide: bool,
    /// The version of its tables: 4 or 5.
    pub version: u16,
    /// Where its first entry begins.
    pub first: usize,
    /// Where it ends.
    pub end: usize,
    /// Where its abbreviations begin, in `.debug_abbrev`.
    pub abbreviations: usize,
    /// The number of its first entry, which tells of all of it.
    pub root: usize,
}

/// An entry of `.debug_info` (section 7.5.2).
#[derive(Clone, Copy)]
pub(crate) struct Entry {
    /// Where it begins.
    pub at: usize,
    /// What it is of (`DW_TAG_..`).
    pub tag: u64,
    /// How many entries it stands in.
    pub depth: usize,
    /// The number of its unit.
    pub unit: usize,
    /// Where its first attribute's value begins.
    pub values: usize,
    /// The number of its first attribute.
    pub from: usize,
    /// The number after its last attribute.
    pub to: usize,
}

impl Entry {
    /// Whether its attributes are read. Each entry of a variable has some.
    pub(crate) fn is_told(&self) -> bool
        ensures { result ≡ nat_lt self.now.from self.now.to }
    {
        self.from < self.to
    }
}

/// The entries of a program's tables, in their order. An entry's own entries stand after it, one deeper.
#[derive(Drop)]
pub struct Tables {
    pub(crate) specifications: Vec<Specification>,
    pub(crate) units: Vec<InfoUnit>,
    pub(crate) entries: Vec<Entry>,
}
