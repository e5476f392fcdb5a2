//! The table of instructions: a row for each (RISC-V Unprivileged ISA, "RV32/64G Instruction Set Listings"), as
//! `specs/Instructions.antt` has it. What an instruction makes is in `values`.
//!
//! A macro holds the rows of a format, and hands them to the macro that is named first: decoder, encoder, assembler and
//! disassembler each name one that makes of the rows what they need, as `branch_rows!([with_funct3](funct3))`. Where
//! more macros of rows are named in between, the last one is given the rows of all, one format behind another.

/// Bits 0 to 6 of a word, by its format.
pub(crate) mod opcode {
    pub const LUI: u32 = 0b0110111;

    pub const AUIPC: u32 = 0b0010111;

    pub const JAL: u32 = 0b1101111;

    pub const JALR: u32 = 0b1100111;

    pub const BRANCH: u32 = 0b1100011;

    pub const LOAD: u32 = 0b0000011;

    pub const STORE: u32 = 0b0100011;

    pub const OP_IMM: u32 = 0b0010011;

    pub const OP: u32 = 0b0110011;

    pub const OP_IMM_32: u32 = 0b0011011;

    pub const OP_32: u32 = 0b0111011;

    pub const MISC_MEM: u32 = 0b0001111;

    pub const SYSTEM: u32 = 0b1110011;
}

/// The word of ECALL.
pub(crate) const ECALL: u32 = 0x0000_0073;

/// The word of EBREAK.
pub(crate) const EBREAK: u32 = 0x0010_0073;

/// `rd, rs1, rs2`: name, funct3, funct7.
#[macro_export]
macro_rules! reg_rows {
    ([$then:ident $($others:ident)*] $($given:tt)*) => {
        $then! { [$($others)*] $($given)* { Op RegOp
            Add "add" 0 0x00,
            Sub "sub" 0 0x20,
            Sll "sll" 1 0x00,
            Slt "slt" 2 0x00,
            Sltu "sltu" 3 0x00,
            Xor "xor" 4 0x00,
            Srl "srl" 5 0x00,
            Sra "sra" 5 0x20,
            Or "or" 6 0x00,
            And "and" 7 0x00,
        } }
    };
}

/// `rd, rs1, rs2`, of their low 32 bits: name, funct3, funct7.
#[macro_export]
macro_rules! reg_w_rows {
    ([$then:ident $($others:ident)*] $($given:tt)*) => {
        $then! { [$($others)*] $($given)* { OpW WordOp
            Addw "addw" 0 0x00,
            Subw "subw" 0 0x20,
            Sllw "sllw" 1 0x00,
            Srlw "srlw" 5 0x00,
            Sraw "sraw" 5 0x20,
        } }
    };
}

/// `rd, rs1, number`: name, funct3.
#[macro_export]
macro_rules! imm_rows {
    ([$then:ident $($others:ident)*] $($given:tt)*) => {
        $then! { [$($others)*] $($given)* { OpImm ImmOp
            Addi "addi" 0,
            Slti "slti" 2,
            Sltiu "sltiu" 3,
            Xori "xori" 4,
            Ori "ori" 6,
            Andi "andi" 7,
        } }
    };
}

/// `rd, rs1, places`: name, funct3, and the six bits above the places.
#[macro_export]
macro_rules! shift_rows {
    ([$then:ident $($others:ident)*] $($given:tt)*) => {
        $then! { [$($others)*] $($given)* { ShiftImm ShiftOp
            Left "slli" 1 0x00,
            Right "srli" 5 0x00,
            Arithmetic "srai" 5 0x10,
        } }
    };
}

/// `rd, rs1, places`, of the low 32 bits: name, funct3, and the seven bits above the places.
#[macro_export]
macro_rules! shift_w_rows {
    ([$then:ident $($others:ident)*] $($given:tt)*) => {
        $then! { [$($others)*] $($given)* { ShiftImmW ShiftOp
            Left "slliw" 1 0x00,
            Right "srliw" 5 0x00,
            Arithmetic "sraiw" 5 0x20,
        } }
    };
}

/// `rd, number(rs1)`: name, funct3.
#[macro_export]
macro_rules! load_rows {
    ([$then:ident $($others:ident)*] $($given:tt)*) => {
        $then! { [$($others)*] $($given)* { Load LoadOp
            Lb "lb" 0,
            Lh "lh" 1,
            Lw "lw" 2,
            Ld "ld" 3,
            Lbu "lbu" 4,
            Lhu "lhu" 5,
            Lwu "lwu" 6,
        } }
    };
}

/// `rs2, number(rs1)`: name, funct3.
#[macro_export]
macro_rules! store_rows {
    ([$then:ident $($others:ident)*] $($given:tt)*) => {
        $then! { [$($others)*] $($given)* { Store StoreOp
            Sb "sb" 0,
            Sh "sh" 1,
            Sw "sw" 2,
            Sd "sd" 3,
        } }
    };
}

/// `rs1, rs2, label`: name, funct3.
#[macro_export]
macro_rules! branch_rows {
    ([$then:ident $($others:ident)*] $($given:tt)*) => {
        $then! { [$($others)*] $($given)* { Branch BranchOp
            Beq "beq" 0,
            Bne "bne" 1,
            Blt "blt" 4,
            Bge "bge" 5,
            Bltu "bltu" 6,
            Bgeu "bgeu" 7,
        } }
    };
}

/// The instructions without others of their kind, with their operands: name.
#[macro_export]
macro_rules! single_rows {
    ([$then:ident $($others:ident)*] $($given:tt)*) => {
        $then! { [$($others)*] $($given)* (
            Lui "lui",
            Auipc "auipc",
            Jal "jal",
            Jalr "jalr",
            AddImmW "addiw",
            Fence "fence",
            Ecall "ecall",
            Ebreak "ebreak",
        ) }
    };
}

// The operation with this funct3.
macro_rules! with_funct3 {
    ([] ($key:expr) { $format:ident $ops:ident $($op:ident $name:literal $funct3:literal,)* }) => {
        match $key {
            $($funct3 => Some($ops::$op),)*
            _ => None,
        }
    };
}

// The operation with this funct3 and these high bits.
macro_rules! with_both {
    ([] ($key:expr, $high_key:expr) { $format:ident $ops:ident $($op:ident $name:literal $funct3:literal $high:literal,)* }) => {
        match ($high_key, $key) {
            $(($high, $funct3) => Some($ops::$op),)*
            _ => None,
        }
    };
}

// The funct3 of an operation.
macro_rules! funct3_of {
    ([] ($of:expr) { $format:ident $ops:ident $($op:ident $name:literal $funct3:literal,)* }) => {
        match $of {
            $($ops::$op => $funct3,)*
        }
    };
}

// Its funct3 and its high bits.
macro_rules! both_of {
    ([] ($of:expr) { $format:ident $ops:ident $($op:ident $name:literal $funct3:literal $high:literal,)* }) => {
        match $of {
            $($ops::$op => ($funct3, $high),)*
        }
    };
}

pub(crate) use both_of;
pub(crate) use funct3_of;
pub(crate) use with_both;
pub(crate) use with_funct3;
