//! The header of a line number program (DWARF 5, section 6.2.4).
/// What the header of a line number program says. Places are in bytes from the first of `.debug_line`.
#[derive(Clone, Copy)]
pub struct LineHeader {
    /// The version of the table, from 2 to 5.
    pub version: u16,
    /// It is in the 64-bit format: its offsets have 8 bytes, not 4.
    pub is_wide: bool,
    /// The bytes of the shortest instruction of the machine (`minimum_instruction_length`).
    pub instruction_bytes: u8,
    /// Whether a row begins a statement if nothing else is said (`default_is_stmt`).
    pub is_statement: bool,
    /// The least number of lines by which a special opcode goes on (`line_base`).
    pub line_base: i8,
    /// How many numbers of lines special opcodes have (`line_range`).
    pub line_range: u8,
    /// The first special opcode (`opcode_base`).
    pub opcode_base: u8,
    /// Where the list of how many numbers follow each standard opcode begins (`standard_opcode_lengths`).
    pub lengths: usize,
    /// Where the tables of directories and files begin.
    pub tables: usize,
    /// Where the program begins, after the header.
    pub program: usize,
    /// Where the program ends.
    pub end: usize,
}
