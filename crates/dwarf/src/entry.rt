//! Entries of the tables of directories and files (DWARF 5, section 6.2.4.1).

/// Where a name stands.
#[derive(Clone, Copy, Debug, PartialEq, Eq)]
pub enum Text {
    /// In `.debug_line` itself, from this byte on.
    Here(usize),
    /// In `.debug_line_str`, from this byte on.
    LineStrings(u64),
    /// In `.debug_str`, from this byte on.
    Strings(u64),
}

/// A directory or a file of a unit.
#[derive(Clone, Copy, Debug, PartialEq, Eq)]
pub struct Entry {
    /// Its name, if the table tells it.
    pub name: Option<Text>,
    /// The number of a file's directory in the table of directories; 0 if it isn't told.
    pub directory: u64,
    /// Where the entry after it begins.
    pub next: usize,
}
