//! From an address to the name of its function.
ghost use Rattle.std.specs.Prelude.{◌≡◌, ◌≤◌, ◌+◌, ◌*◌, length};
ghost use Rattle.std.specs.Prelude.{true, false, option_map, MatchOption, IsTrue};
ghost use Rattle.xk_base.specs.ProgramFile.{is_elf as elf};
ghost use Rattle.elf_symbols.specs.Symbols as meant;
ghost use Rattle.elf_symbols.specs.Sections as named;

use crate::section::{STRING_TABLE, Section, bytes_named, read_section, symbol_table};
use crate::symbol::{SYMBOL_BYTES, first_function, first_named, name_at, nth_name};
use xk_base::file_number::{u16_at, u64_at};

/// Bytes of a file header (ELF-64 Object File Format, "ELF Header": `Elf64_Ehdr`).
const FILE_HEADER_BYTES: usize = 64;

/// The first bytes of each ELF file (`e_ident[EI_MAG0..=EI_MAG3]`).
const MAGIC: [u8; 4] = [0x7F, b'E', b'L', b'F'];

/// Where the place of the section headers stands in the file header (`e_shoff`, 8 bytes).
const SHOFF: usize = 40;

/// Where the number of section headers stands in the file header (`e_shnum`, 2 bytes).
const SHNUM: usize = 60;

/// Where the number of the section that holds the names of sections stands (`e_shstrndx`, 2 bytes).
const SHSTRNDX: usize = 62;

/// Where the section headers of a file begin, how many there are, and which of the sections holds the names of all.
#[derive(Clone, Copy)]
struct Headers {
    place: usize,
    count: u16,
    names: u16,
}

/// Whether the file is long enough for a file header and begins as an ELF file does.
#[tactic(auto, unfolding(xk_base::specs::ProgramFile::is_elf))]
fn is_elf(file: &[u8]) -> bool
    ensures value { result ≡ elf file.now }
    ensures long { IsTrue result → 64 ≤ length file.now }
{
    file.len() >= FILE_HEADER_BYTES && file.starts_with(&MAGIC)
}

/// The section headers of a file, if they are wholly in it.
fn read_headers(file: &[u8]) -> Option<Headers>
    ensures { MatchOption result (meant.has_sections file.now ≡ false) (λ h.
        (meant.has_sections file.now ≡ true) × (h.place ≡ meant.sections_place file.now)
        × (h.count ≡ meant.section_count file.now) × (h.names ≡ named.names_number file.now)) }
{
    if !is_elf(file) {
        return None;
    }
    let place = u64_at(file, SHOFF);
    let count = u16_at(file, SHNUM);
    if u128::from(place) + 64 * u128::from(count) > file.len() as u128 {
        return None;
    }
    Some(Headers {
        place: place as usize,
        count,
        names: u16_at(file, SHSTRNDX),
    })
}

/// The name of the function that has the address, by a symbol table and its string table.
fn function_by<'a>(
    file: &'a [u8],
    table: &Section,
    strings: &Section,
    address: u64,
) -> Option<&'a [u8]>
    ensures { option_map (λ n. n.now) result ≡ meant.function_by file.now table.now strings.now address }
{
    if !table.is_within(file) || !strings.is_within(file) || strings.kind != STRING_TABLE {
        return None;
    }
    let symbol = first_function(file, table, address)?;
    name_at(file, strings, symbol.name)
}

/// The address of the first instruction of the function that has the address, by a symbol table.
fn start_by(file: &[u8], table: &Section, address: u64) -> Option<u64>
    ensures { result ≡ meant.start_by file.now table.now address }
{
    if !table.is_within(file) {
        return None;
    }
    let symbol = first_function(file, table, address)?;
    Some(symbol.value)
}

/// The address of the symbol of this name, by a symbol table and its string table.
fn address_by(file: &[u8], table: &Section, strings: &Section, name: &[u8]) -> Option<u64>
    ensures { result ≡ meant.address_by file.now table.now strings.now name.now }
{
    if !table.is_within(file) || !strings.is_within(file) || strings.kind != STRING_TABLE {
        return None;
    }
    let symbol = first_named(file, table, strings, name)?;
    Some(symbol.value)
}

/// The name of the symbol of this number, by a symbol table and its string table, if it stands for an address.
fn name_by<'a>(
    file: &'a [u8],
    table: &Section,
    strings: &Section,
    number: usize,
) -> Option<&'a [u8]>
    ensures { option_map (λ n. n.now) result ≡ meant.name_by file.now table.now strings.now number }
{
    if !table.is_within(file) || !strings.is_within(file) || strings.kind != STRING_TABLE {
        return None;
    }
    nth_name(file, table, strings, number)
}

/// How many symbols the file's first symbol table has: none if the file has no symbol table, or if its section headers or
/// that table aren't wholly in the file.
pub fn symbol_count(file: &[u8]) -> usize
    ensures { result ≡ meant.symbol_count file.now }
{
    let Some(headers) = read_headers(file) else {
        return 0;
    };
    let Some(table) = symbol_table(file, headers.place, headers.count) else {
        return 0;
    };
    if table.is_within(file) {
        table.size as usize / SYMBOL_BYTES
    } else {
        0
    }
}

/// The bytes of the first section that has this name, as `.debug_line`.
///
/// There are none if no section has the name, if its bytes stand in no file (`SHT_NOBITS`) or are compressed
/// (`SHF_COMPRESSED`), and if the section headers, the section or the names of sections aren't wholly in the file. It
/// doesn't panic, whatever the bytes are, and takes no memory.
pub fn section_named<'a>(file: &'a [u8], name: &[u8]) -> Option<&'a [u8]>
    ensures { option_map (λ b. b.now) result ≡ named.section_named file.now name.now }
{
    let headers = read_headers(file)?;
    if headers.names >= headers.count {
        return None;
    }
    let names = read_section(file, headers.place, headers.names);
    bytes_named(file, headers.place, headers.count, &names, name)
}

/// The bytes of the first section that has this name, and no bytes if [`section_named`] gives none: a table that isn't
/// there tells nothing.
pub fn section_bytes<'a>(file: &'a [u8], name: &[u8]) -> &'a [u8]
    ensures { result.now ≡ named.section_bytes file.now name.now }
{
    match section_named(file, name) {
        Some(bytes) => bytes,
        None => b"".as_slice(),
    }
}

/// The name of the symbol of this number, counted from 0, in the file's first symbol table, if the symbol is a function,
/// data or of no type that is told. The names of all numbers below [`symbol_count`] are those of which [`address_of`] knows
/// an address.
///
/// There is none if there are no more symbols, and if the file has no symbol table, or its section headers, that table or
/// its string table aren't wholly in the file. It doesn't panic, whatever the bytes are, and takes no memory.
pub fn symbol_name(file: &[u8], number: usize) -> Option<&[u8]>
    ensures { option_map (λ n. n.now) result ≡ meant.symbol_name file.now number }
{
    let headers = read_headers(file)?;
    let table = symbol_table(file, headers.place, headers.count)?;
    if table.link >= u32::from(headers.count) {
        return None;
    }
    let strings = read_section(file, headers.place, table.link as u16);
    name_by(file, &table, &strings, number)
}

/// The address of a name: the value of the first symbol, in the file's first symbol table, that has the name and is a
/// function, data or of no type that is told.
///
/// There is none if no symbol has the name, and if the file has no symbol table, or its section headers, that table or
/// its string table aren't wholly in the file. It doesn't panic, whatever the bytes are, and takes no memory.
pub fn address_of(file: &[u8], name: &[u8]) -> Option<u64>
    ensures { result ≡ meant.address_of file.now name.now }
{
    let headers = read_headers(file)?;
    let table = symbol_table(file, headers.place, headers.count)?;
    if table.link >= u32::from(headers.count) {
        return None;
    }
    let strings = read_section(file, headers.place, table.link as u16);
    address_by(file, &table, &strings, name)
}

/// The address at which the function at an address begins: that of the first function, in the file's first symbol
/// table, whose range [value, value + size) has the address. It is the function that [`function_at`] names.
///
/// There is none if no function has the address, and if the file has no symbol table, or its section headers or that
/// table aren't wholly in the file. Names aren't read. It doesn't panic, whatever the bytes are, and takes no memory.
pub fn function_start(file: &[u8], address: u64) -> Option<u64>
    ensures { result ≡ meant.function_start file.now address }
{
    let headers = read_headers(file)?;
    let table = symbol_table(file, headers.place, headers.count)?;
    start_by(file, &table, address)
}

/// The name of the function at an address: of the first function, in the file's first symbol table, whose range
/// [value, value + size) has the address. The name is as the file has it, without its zero byte, and need not be text.
///
/// There is none if no function has the address, and if the file has no symbol table, or one of these isn't wholly in
/// the file: its section headers, the symbol table, its string table, the name up to its zero byte. It doesn't panic,
/// whatever the bytes are, and takes no memory.
pub fn function_at(file: &[u8], address: u64) -> Option<&[u8]>
    ensures { option_map (λ n. n.now) result ≡ meant.function_at file.now address }
{
    let headers = read_headers(file)?;
    let table = symbol_table(file, headers.place, headers.count)?;
    if table.link >= u32::from(headers.count) {
        return None;
    }
    let strings = read_section(file, headers.place, table.link as u16);
    function_by(file, &table, &strings, address)
}
