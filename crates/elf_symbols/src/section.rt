//! Sections (ELF-64 Object File Format, "Sections": `Elf64_Shdr`).
ghost use Rattle.std.specs.Prelude.{◌≡◌, ◌≤◌, ◌+◌, ◌*◌, length, true, option_map};
ghost use Rattle.elf_symbols.specs.Symbols as meant;
ghost use Rattle.elf_symbols.specs.Sections as named;

use crate::symbol::name_at;
use xk_base::file_number::{u32_at, u64_at};

/// Bytes of a section header.
const SECTION_HEADER_BYTES: usize = 64;

/// Where the place of the name in the names of sections stands in a section header (`sh_name`, 4 bytes).
const NAME: usize = 0;

/// Where the type stands (`sh_type`, 4 bytes).
const KIND: usize = 4;

/// Where the flags stand (`sh_flags`, 8 bytes).
const FLAGS: usize = 8;

/// Where the place of the section's bytes in the file stands (`sh_offset`, 8 bytes).
const OFF: usize = 24;

/// Where the number of its bytes stands (`sh_size`, 8 bytes).
const SIZE: usize = 32;

/// Where the number of a section that belongs to it stands (`sh_link`, 4 bytes).
const LINK: usize = 40;

/// The type of a symbol table (`SHT_SYMTAB`).
const SYMBOL_TABLE: u32 = 2;

/// The type of a string table (`SHT_STRTAB`).
pub(crate) const STRING_TABLE: u32 = 3;

/// The type of a section whose bytes stand in no file (`SHT_NOBITS`).
const NO_BYTES: u32 = 8;

/// The flag of a section whose bytes are compressed (`SHF_COMPRESSED`).
const COMPRESSED: u64 = 0x800;

/// What a section header says.
#[derive(Clone, Copy)]
pub(crate) struct Section {
    pub name: u32,
    pub kind: u32,
    pub flags: u64,
    pub off: u64,
    pub size: u64,
    pub link: u32,
}

/// Section `k` of those whose headers begin at `place`.
#[tactic(auto, unfolding(crate::specs::Symbols::section_at))]
pub(crate) fn read_section(file: &[u8], place: usize, k: u16) -> Section
    requires { place + 64 * (k + 1) ≤ length file.now }
    ensures { result ≡ meant.section file.now place k }
{
    let at = place + SECTION_HEADER_BYTES * usize::from(k);
    Section {
        name: u32_at(file, at + NAME),
        kind: u32_at(file, at + KIND),
        flags: u64_at(file, at + FLAGS),
        off: u64_at(file, at + OFF),
        size: u64_at(file, at + SIZE),
        link: u32_at(file, at + LINK),
    }
}

/// The first of `count` sections that is a symbol table.
pub(crate) fn symbol_table(file: &[u8], place: usize, count: u16) -> Option<Section>
    requires { place + 64 * count ≤ length file.now }
    ensures { result ≡ meant.symbol_table file.now place count }
{
    for k in 0..count {
        let found = read_section(file, place, k);
        if found.kind == SYMBOL_TABLE {
            return Some(found);
        }
    }
    None
}

impl Section {
    /// Whether its bytes are in the file.
    pub(crate) fn is_within(&self, file: &[u8]) -> bool
        ensures { result ≡ meant.is_within file.now self.now }
    {
        u128::from(self.off) + u128::from(self.size) <= file.len() as u128
    }

    /// Whether its bytes stand in the file as they are.
    fn has_bytes(&self, file: &[u8]) -> bool
        ensures value { result ≡ named.has_bytes file.now self.now }
        ensures within { result ≡ true → self.now.off + self.now.size ≤ length file.now }
    {
        self.kind != NO_BYTES && self.flags / COMPRESSED % 2 == 0 && self.is_within(file)
    }

    /// Its bytes, if they stand in the file as they are.
    fn bytes<'a>(&self, file: &'a [u8]) -> Option<&'a [u8]>
        ensures { option_map (λ b. b.now) result ≡ named.bytes_of file.now self.now }
    {
        if !self.has_bytes(file) {
            return None;
        }
        let off = self.off as usize;
        Some(&file[off..off + self.size as usize])
    }
}

/// Whether section `k` has this name, by the section that holds the names of sections.
fn is_of_name(file: &[u8], place: usize, names: &Section, name: &[u8], k: u16) -> bool
    requires header { place + 64 * (k + 1) ≤ length file.now }
    requires names { names.now.off + names.now.size ≤ length file.now }
    ensures { result ≡ named.is_of_name file.now place names.now name.now k }
{
    let at = read_section(file, place, k).name;
    match name_at(file, names, at) {
        Some(own) => own == name,
        None => false,
    }
}

/// The first of `count` sections that has this name.
pub(crate) fn first_of_name(
    file: &[u8],
    place: usize,
    count: u16,
    names: &Section,
    name: &[u8],
) -> Option<Section>
    requires headers { place + 64 * count ≤ length file.now }
    requires names { names.now.off + names.now.size ≤ length file.now }
    ensures { result ≡ named.first_of_name file.now place count names.now name.now }
{
    for k in 0..count {
        if is_of_name(file, place, names, name, k) {
            return Some(read_section(file, place, k));
        }
    }
    None
}

/// The bytes of the first of `count` sections that has this name.
pub(crate) fn bytes_named<'a>(
    file: &'a [u8],
    place: usize,
    count: u16,
    names: &Section,
    name: &[u8],
) -> Option<&'a [u8]>
    requires { place + 64 * count ≤ length file.now }
    ensures { option_map (λ b. b.now) result ≡ named.bytes_named file.now place count names.now name.now }
{
    if !names.is_within(file) || names.kind != STRING_TABLE {
        return None;
    }
    first_of_name(file, place, count, names, name)?.bytes(file)
}
