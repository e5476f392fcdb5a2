//! Rows of a line number table (DWARF 5, section 6.2.2).

/// A row: the registers of the line number machine as they are when the row is made.
#[derive(Clone, Copy, Debug, PartialEq, Eq)]
pub struct Row {
    /// The address of an instruction.
    pub address: u64,
    /// The number of its source file in the tables of the unit: from 1 on, in version 5 from 0 on.
    pub file: u64,
    /// Its line in the source, from 1 on; 0 if it belongs to no line.
    pub line: u64,
    /// Its column in the source, from 1 on; 0 if it isn't told.
    pub column: u64,
    /// It is a good place to stop at, if a program is to stop at this line (`is_stmt`).
    pub is_statement: bool,
    /// It begins a block that is entered only here.
    pub basic_block: bool,
    /// The address is the first after the sequence: the row tells of no instruction.
    pub end_sequence: bool,
    /// Here a function is to be stopped at, after its prologue.
    pub prologue_end: bool,
    /// Here the function's epilogue begins.
    pub epilogue_begin: bool,
    /// The instruction set: what numbers mean is the machine's.
    pub isa: u64,
    /// Which of the blocks of one line it belongs to.
    pub discriminator: u64,
}
