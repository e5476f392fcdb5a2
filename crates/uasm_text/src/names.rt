//! The names of registers, and those of instructions, from the rows of their table.
ghost use Rattle.std.specs.Prelude.{◌≡◌, ◌≤◌, ◌<◌, [], length, map, slice_index_or};
ghost use Rattle.rv64i_core.specs.Instructions.{branch_table, load_table, store_table, imm_table, shift_table, shift_w_table, reg_table, reg_w_table};
ghost use Rattle.uasm_text.specs.Text as meant;

use rv64i_core::{
    BranchOp, ImmOp, Instr, LoadOp, RegOp, ShiftOp, StoreOp, WordOp, branch_rows, imm_rows,
    load_rows, reg_rows, reg_w_rows, shift_rows, shift_w_rows, single_rows, store_rows,
};
use xk_base::Reg;

/// The names of x0 to x31, in their order.
const REGISTER_NAMES: [&str; 32] = [
    "zero", "ra", "sp", "gp", "tp", "t0", "t1", "t2", "s0", "s1", "a0", "a1", "a2", "a3", "a4",
    "a5", "a6", "a7", "s2", "s3", "s4", "s5", "s6", "s7", "s8", "s9", "s10", "s11", "t3", "t4",
    "t5", "t6",
];

/// The text at an index of a table.
pub(crate) fn entry(table: &[&'static str], index: usize) -> &'static str
    requires { index < length table.now }
    ensures { result.now ≡ slice_index_or (map (λ n. n.now) table.now) index [] }
{
    table[index]
}

/// The name of a register by its use, as `a0` for x10 (RISC-V ABIs, "Integer Register Convention").
#[tactic(auto, unfolding(crate::specs::Text::register))]
pub fn register_name(register: Reg) -> &'static str
    ensures name { result.now ≡ meant.register register }
    ensures short { length result.now ≤ 4 }
{
    entry(&REGISTER_NAMES, usize::from(register.number()))
}

// The name of an operation.
macro_rules! name_of {
    ([] ($of:expr) { $format:ident $ops:ident $($op:ident $name:literal $($code:literal)*,)* }) => {
        match $of {
            $($ops::$op => $name,)*
        }
    };
}

pub(crate) fn branch_name(op: BranchOp) -> &'static str
    ensures name { result.now ≡ (branch_table op).name }
    ensures short { length result.now ≤ 4 }
{
    branch_rows!([name_of](op))
}

fn load_name(op: LoadOp) -> &'static str
    ensures name { result.now ≡ (load_table op).name }
    ensures short { length result.now ≤ 5 }
{
    load_rows!([name_of](op))
}

fn store_name(op: StoreOp) -> &'static str
    ensures name { result.now ≡ (store_table op).name }
    ensures short { length result.now ≤ 5 }
{
    store_rows!([name_of](op))
}

fn imm_name(op: ImmOp) -> &'static str
    ensures name { result.now ≡ (imm_table op).name }
    ensures short { length result.now ≤ 5 }
{
    imm_rows!([name_of](op))
}

/// The name of a shift of 64 bits.
fn shift_name(op: ShiftOp) -> &'static str
    ensures name { result.now ≡ (shift_table op).name }
    ensures short { length result.now ≤ 5 }
{
    shift_rows!([name_of](op))
}

/// The name of a shift of 32 bits.
fn shift_w_name(op: ShiftOp) -> &'static str
    ensures name { result.now ≡ (shift_w_table op).name }
    ensures short { length result.now ≤ 5 }
{
    shift_w_rows!([name_of](op))
}

fn reg_name(op: RegOp) -> &'static str
    ensures name { result.now ≡ (reg_table op).name }
    ensures short { length result.now ≤ 5 }
{
    reg_rows!([name_of](op))
}

fn reg_w_name(op: WordOp) -> &'static str
    ensures name { result.now ≡ (reg_w_table op).name }
    ensures short { length result.now ≤ 5 }
{
    reg_w_rows!([name_of](op))
}

// The name of an instruction: that of its operation, or its own.
macro_rules! name_of_each {
    ([] ($of:expr) ($($single:ident $name:literal,)*)) => {
        match $of {
            Instr::Op { op, .. } => reg_name(op),
            Instr::OpW { op, .. } => reg_w_name(op),
            Instr::OpImm { op, .. } => imm_name(op),
            Instr::ShiftImm { op, .. } => shift_name(op),
            Instr::ShiftImmW { op, .. } => shift_w_name(op),
            Instr::Load { op, .. } => load_name(op),
            Instr::Store { op, .. } => store_name(op),
            Instr::Branch { op, .. } => branch_name(op),
            $(Instr::$single { .. } => $name,)*
        }
    };
}

/// The name of an instruction.
pub(crate) fn name(instruction: &Instr) -> &'static str
    ensures name { result.now ≡ meant.name instruction.now }
    ensures short { length result.now ≤ 6 }
{
    single_rows!([name_of_each](*instruction))
}
