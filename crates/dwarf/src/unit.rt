//! A unit of a section (DWARF 5, section 7.4 and 7.5).
/// Where a unit of a section stands, and of which version it is. Places are in bytes from the section's first.
#[derive(Clone, Copy)]
pub struct Unit {
    /// Where it begins.
    pub at: usize,
    /// It is in the 64-bit format: its offsets have 8 bytes, not 4.
    pub is_wide: bool,
    /// The version of its table.
    pub version: u16,
    /// Where the bytes after the version begin.
    pub body: usize,
    /// Where it ends.
    pub end: usize,
}
