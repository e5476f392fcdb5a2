//! What an instruction of a line number program does (DWARF 5, section 6.2.5).

/// An instruction of a line number program.
#[derive(Clone, Copy)]
pub(crate) enum Operation {
    /// A special opcode: it advances address and line, and makes a row.
    Special { advance: u64, lines: i64 },
    /// `DW_LNS_copy`: it makes a row.
    Copy,
    /// `DW_LNS_advance_pc` and `DW_LNS_const_add_pc`: by so many of the shortest instructions.
    AdvanceAddress(u64),
    /// `DW_LNS_advance_line`
    AdvanceLine(i64),
    /// `DW_LNS_set_file`
    SetFile(u64),
    /// `DW_LNS_set_column`
    SetColumn(u64),
    /// `DW_LNS_negate_stmt`
    NegateStatement,
    /// `DW_LNS_set_basic_block`
    BeginBlock,
    /// `DW_LNS_fixed_advance_pc`: by so many bytes.
    AdvanceBytes(u16),
    /// `DW_LNS_set_prologue_end`
    EndPrologue,
    /// `DW_LNS_set_epilogue_begin`
    BeginEpilogue,
    /// `DW_LNS_set_isa`
    SetIsa(u64),
    /// `DW_LNE_end_sequence`: it makes a row, and a new sequence begins.
    EndSequence,
    /// `DW_LNE_set_address`
    SetAddress(u64),
    /// `DW_LNE_set_discriminator`
    SetDiscriminator(u64),
    /// An opcode that isn't known, or `DW_LNE_define_file`, which changes no row: it is passed over.
    Unknown,
}

/// An instruction, and the place after it.
#[derive(Clone, Copy)]
pub(crate) struct Decoded {
    pub operation: Operation,
    pub next: usize,
}
