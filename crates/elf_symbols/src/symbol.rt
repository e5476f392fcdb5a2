//! Symbols and their names (ELF-64 Object File Format, "Symbol Table": `Elf64_Sym`, and "String Table").
ghost use Rattle.std.specs.Prelude.{◌≡◌, ◌≤◌, ◌+◌, ◌*◌, ◌<◌};
ghost use Rattle.std.specs.Prelude.{◌==◌, length, position, option_map, IfSome, Some};
ghost use Rattle.elf_symbols.specs.Symbols as meant;

use crate::section::Section;
use xk_base::file_number::{u16_at, u32_at, u64_at};

/// Bytes of a symbol in a symbol table.
pub const SYMBOL_BYTES: usize = 24;

/// Where the type and the binding stand in a symbol (`st_info`, 1 byte): the type is the low half.
const INFO: usize = 4;

/// Where the number of its section stands (`st_shndx`, 2 bytes).
const SECTION: usize = 6;

/// Where the address stands (`st_value`, 8 bytes).
const VALUE: usize = 8;

/// Where the number of bytes stands (`st_size`, 8 bytes).
const SIZE: usize = 16;

/// The type of a function (`STT_FUNC`).
const FUNCTION: u8 = 2;

/// The type of what has none that is told (`STT_NOTYPE`).
const UNTYPED: u8 = 0;

/// The binding of what is known in its own source alone (`STB_LOCAL`): the high half.
const LOCAL: u8 = 0;

/// The types of what has an address: none is told, data, a function (`STT_NOTYPE`, `STT_OBJECT`, `STT_FUNC`).
const PLACED_LAST: u8 = FUNCTION;

/// What a symbol says.
#[derive(Clone, Copy)]
pub struct Symbol {
    /// Where its name begins in the string table of the symbols, in bytes.
    pub name: u32,
    info: u8,
    /// The number of the section in which it stands (`st_shndx`).
    pub section: u16,
    /// Its address, if it stands for one.
    pub value: u64,
    /// How many bytes it has; 0 if none are told.
    pub size: u64,
}

/// The symbol that begins at `at`, in bytes from the first of a file or of a symbol table.
#[tactic(auto, unfolding(crate::specs::Symbols::symbol_at))]
pub fn symbol_at(file: &[u8], at: usize) -> Symbol
    requires { at + 24 ≤ length file.now }
    ensures { result ≡ meant.symbol_at file.now at }
{
    Symbol {
        name: u32_at(file, at),
        info: file[at + INFO],
        section: u16_at(file, at + SECTION),
        value: u64_at(file, at + VALUE),
        size: u64_at(file, at + SIZE),
    }
}

impl Symbol {
    /// Whether it is a function whose range has the address.
    fn covers(&self, address: u64) -> bool
        ensures { result ≡ meant.covers address self.now }
    {
        self.info % 16 == FUNCTION
            && self.value <= address
            && u128::from(address) < u128::from(self.value) + u128::from(self.size)
    }

    /// Whether it is a function (`STT_FUNC`).
    pub fn is_function(&self) -> bool
        ensures { result ≡ meant.is_function self.now }
    {
        self.info % 16 == FUNCTION
    }

    /// Whether no type of it is told (`STT_NOTYPE`): so are the labels of assembler source.
    pub fn is_untyped(&self) -> bool
        ensures { result ≡ meant.is_untyped self.now }
    {
        self.info % 16 == UNTYPED
    }

    /// Whether it is known in its own source alone (`STB_LOCAL`).
    pub fn is_local(&self) -> bool
        ensures { result ≡ meant.is_local self.now }
    {
        self.info / 16 == LOCAL
    }
}

/// Whether a symbol stands for an address, and has this name in a string table.
fn is_named(file: &[u8], strings: &Section, symbol: &Symbol, name: &[u8]) -> bool
    requires { strings.now.off + strings.now.size ≤ length file.now }
    ensures { result ≡ meant.is_named file.now strings.now name.now symbol.now }
{
    if symbol.info % 16 > PLACED_LAST {
        return false;
    }
    match name_at(file, strings, symbol.name) {
        Some(own) => own == name,
        None => false,
    }
}

/// The first symbol of a table that stands for an address and has this name.
pub(crate) fn first_named(
    file: &[u8],
    table: &Section,
    strings: &Section,
    name: &[u8],
) -> Option<Symbol>
    requires symbols { table.now.off + table.now.size ≤ length file.now }
    requires names { strings.now.off + strings.now.size ≤ length file.now }
    ensures { result ≡ meant.first_named file.now table.now strings.now name.now }
{
    let count = table.size as usize / SYMBOL_BYTES;
    for i in 0..count {
        let symbol = symbol_at(file, table.off as usize + SYMBOL_BYTES * i);
        if is_named(file, strings, &symbol, name) {
            return Some(symbol);
        }
    }
    None
}

/// The first symbol of a table whose function has the address.
pub(crate) fn first_function(file: &[u8], table: &Section, address: u64) -> Option<Symbol>
    requires { table.now.off + table.now.size ≤ length file.now }
    ensures { result ≡ meant.first_function file.now table.now address }
{
    let count = table.size as usize / SYMBOL_BYTES;
    for i in 0..count {
        let symbol = symbol_at(file, table.off as usize + SYMBOL_BYTES * i);
        if symbol.covers(address) {
            return Some(symbol);
        }
    }
    None
}

/// The name of the symbol of this number in a table, if it stands for an address.
pub(crate) fn nth_name<'a>(
    file: &'a [u8],
    table: &Section,
    strings: &Section,
    number: usize,
) -> Option<&'a [u8]>
    requires symbols { table.now.off + table.now.size ≤ length file.now }
    requires names { strings.now.off + strings.now.size ≤ length file.now }
    ensures { option_map (λ n. n.now) result ≡ meant.nth_name file.now table.now strings.now number }
{
    if number >= table.size as usize / SYMBOL_BYTES {
        return None;
    }
    let symbol = symbol_at(file, table.off as usize + SYMBOL_BYTES * number);
    if symbol.info % 16 > PLACED_LAST {
        return None;
    }
    name_at(file, strings, symbol.name)
}

/// Where the first zero byte stands.
fn zero_byte(bytes: &[u8]) -> Option<usize>
    ensures first { result ≡ position (λ b. b == 0) bytes.now }
    ensures within { IfSome result (λ n. n < length bytes.now) }
{
    bytes.iter().position(|b| *b == 0)
}

/// The name that begins at `at` in a string table, up to the zero byte.
pub(crate) fn name_at<'a>(file: &'a [u8], strings: &Section, at: u32) -> Option<&'a [u8]>
    requires { strings.now.off + strings.now.size ≤ length file.now }
    ensures { option_map (λ n. n.now) result ≡ meant.name_at file.now strings.now at }
{
    let off = strings.off as usize;
    let bytes = &file[off..off + strings.size as usize];
    let rest = bytes.get(at as usize..)?;
    let end = zero_byte(rest)?;
    Some(&rest[..end])
}
