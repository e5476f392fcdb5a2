//! The instructions of RV64I: their words, the registers, and what an instruction does over any memory.
//!
//! The base set alone, as the RISC-V Unprivileged ISA has it (chapters "RV32I Base Integer Instruction Set"
//! and "RV64I Base Integer Instruction Set"). [`decode`] and [`encode`] go between words and [`Instr`],
//! [`execute`] makes one instruction over a [`UserMemory`], and [`FlatMemory`] is the plainest of those.
//! The folder `fast` is there to save time alone, and what it promises is what [`execute`] promises:
//! [`execute_cached`] keeps what words do in a [`DecodeCache`]. [`act`] does a [`PageAction`], which a word of a page was
//! made into, without a fetch and without a pc, as far as the memory is open.
//! What an instruction means is written in `specs/`: the table of instructions in `Instructions`, the fields of a word in
//! `Layout`, its words in `Table`, memory in `Memory`, registers in `Registers`, and the function `instr` in `Step`.
//! The code's table is `src/table.rt`; the assembler and the disassembler take the names from there.
#![tactic(auto)]

mod access_width;
mod decoding;
mod encoding;
mod execution;
mod fast;
mod flat_memory;
mod instruction;
mod layout;
mod operands;
mod registers;
mod table;
mod user_memory;
mod values;

pub use access_width::Width;
pub use decoding::decode;
pub use encoding::encode;
pub use execution::{Stop, execute};
pub use fast::acting::{Onward, act};
pub use fast::decode_cache::DecodeCache;
pub use fast::open_memory::OpenMemory;
pub use fast::page_action::PageAction;
pub use fast::performing::execute_cached;
pub use flat_memory::FlatMemory;
pub use instruction::{BranchOp, ImmOp, Instr, LoadOp, RegOp, ShiftOp, StoreOp, WordOp};
pub use operands::{Imm12, Imm20, Shift5, Shift6};
pub use registers::Regs;
pub use user_memory::UserMemory;
pub use values::{extend_12, store_width};
