//! The words of the language, and the names of the registers.
ghost use Rattle.std.specs.Prelude.{◌≡◌, map};
ghost use Rattle.uasm_core.specs.Line.{looked_up as entry_of, form_of, register_of};

use rv64i_core::{
    BranchOp, ImmOp, LoadOp, RegOp, ShiftOp, StoreOp, WordOp, branch_rows, imm_rows, load_rows,
    reg_rows, reg_w_rows, shift_rows, shift_w_rows, single_rows, store_rows,
};
use xk_base::Reg;

/// A section of the program.
#[derive(Clone, Copy)]
pub(crate) enum Section {
    Text,
    Data,
}

/// How wide the values of `.byte`, `.word` and `.dword` are.
#[derive(Clone, Copy)]
pub(crate) enum Width {
    Byte,
    Word,
    Dword,
}

/// What a word asks for, and so which operands it takes: an instruction by its format, or what the language adds.
#[derive(Clone, Copy)]
pub(crate) enum Form {
    Op(RegOp),
    OpW(WordOp),
    OpImm(ImmOp),
    ShiftImm(ShiftOp),
    ShiftImmW(ShiftOp),
    Load(LoadOp),
    Store(StoreOp),
    Branch(BranchOp),
    Lui,
    Auipc,
    Jal,
    Jalr,
    AddImmW,
    Fence,
    Ecall,
    Ebreak,
    Nothing,
    Move,
    JumpAlways,
    Call,
    Return,
    LoadAddress,
    LoadNumber,
    Switch(Section),
    Values(Width),
    Text,
    Space,
}

// The words of all instructions, of their rows, and the words that the language adds.
macro_rules! words {
    ([] $({ $format:ident $ops:ident $($op:ident $name:literal $($code:literal)*,)* })* ( $($single:ident $single_name:literal,)* )) => {
        [
            $($(($name, Form::$format($ops::$op)),)*)*
            $(($single_name, Form::$single),)*
            ("nop", Form::Nothing),
            ("mv", Form::Move),
            ("j", Form::JumpAlways),
            ("call", Form::Call),
            ("ret", Form::Return),
            ("la", Form::LoadAddress),
            ("li", Form::LoadNumber),
            (".text", Form::Switch(Section::Text)),
            (".data", Form::Switch(Section::Data)),
            (".byte", Form::Values(Width::Byte)),
            (".word", Form::Values(Width::Word)),
            (".dword", Form::Values(Width::Dword)),
            (".asciz", Form::Text),
            (".space", Form::Space),
        ]
    };
}

/// Each word with its form.
const WORDS: [(&str, Form); 66] = reg_rows!([
    reg_w_rows imm_rows shift_rows shift_w_rows load_rows store_rows branch_rows single_rows words
]);

/// Each name of a register with its number.
const REGISTERS: [(&str, u8); 65] = [
    ("x0", 0),
    ("x1", 1),
    ("x2", 2),
    ("x3", 3),
    ("x4", 4),
    ("x5", 5),
    ("x6", 6),
    ("x7", 7),
    ("x8", 8),
    ("x9", 9),
    ("x10", 10),
    ("x11", 11),
    ("x12", 12),
    ("x13", 13),
    ("x14", 14),
    ("x15", 15),
    ("x16", 16),
    ("x17", 17),
    ("x18", 18),
    ("x19", 19),
    ("x20", 20),
    ("x21", 21),
    ("x22", 22),
    ("x23", 23),
    ("x24", 24),
    ("x25", 25),
    ("x26", 26),
    ("x27", 27),
    ("x28", 28),
    ("x29", 29),
    ("x30", 30),
    ("x31", 31),
    ("zero", 0),
    ("ra", 1),
    ("sp", 2),
    ("gp", 3),
    ("tp", 4),
    ("t0", 5),
    ("t1", 6),
    ("t2", 7),
    ("s0", 8),
    ("s1", 9),
    ("a0", 10),
    ("a1", 11),
    ("a2", 12),
    ("a3", 13),
    ("a4", 14),
    ("a5", 15),
    ("a6", 16),
    ("a7", 17),
    ("s2", 18),
    ("s3", 19),
    ("s4", 20),
    ("s5", 21),
    ("s6", 22),
    ("s7", 23),
    ("s8", 24),
    ("s9", 25),
    ("s10", 26),
    ("s11", 27),
    ("t3", 28),
    ("t4", 29),
    ("t5", 30),
    ("t6", 31),
    ("fp", 8),
];

/// What a table has beside a name.
fn looked_up<T: Copy>(table: &[(&str, T)], name: &[u8]) -> Option<T>
    ensures { result ≡ entry_of (map (λ e. (e.0.now, e.1)) table.now) name.now }
{
    for entry in table {
        if entry.0.as_bytes() == name {
            return Some(entry.1);
        }
    }
    None
}

/// The form of a word, if the language has that word.
#[tactic(auto, unfolding(crate::specs::Line::form_of))]
pub(crate) fn form_named(word: &[u8]) -> Option<Form>
    ensures { result ≡ form_of word.now }
{
    looked_up(&WORDS, word)
}

/// The number of the register of that name.
#[tactic(auto, unfolding(crate::specs::Line::register_of))]
pub(crate) fn register_named(name: &[u8]) -> Option<Reg>
    ensures { result ≡ register_of name.now }
{
    let number = looked_up(&REGISTERS, name)?;
    Some(Reg::new(number))
}
