//! Names of functions, by the symbol table of a file made by hand (ELF-64 Object File Format) and read by GNU readelf.
use super::checking::check;
use elf_symbols::function_at;

/// In hexadecimal digits a file header, four symbols behind the empty one, their names, and four section headers, of which the third is that
/// of the symbols (at 64, 120 bytes) and the fourth that of the names (at 184, 18 bytes).
///
/// The symbols, as readelf lists them: the object `data` at 0x10 with 64 bytes, and the functions `main` at 0x10 with 32,
/// `helper` at 0x30 with 8, and `main` at 0x34 with 16.
const FILE: &str =
    "7f454c460201010000000000000000000200f3000100000010000000000000000000000000000000d000000000000000\
    000000004000380000004000040003000000000000000000000000000000000000000000000000000d00000011000100\
    100000000000000040000000000000000100000012000100100000000000000020000000000000000600000012000100\
    30000000000000000800000000000000010000001200010034000000000000001000000000000000006d61696e006865\
    6c7065720064617461000000000000000000000000000000000000000000000000000000000000000000000000000000\
    000000000000000000000000000000000000000000000000000000000000000000000000010000000600000000000000\
    000000000000000000000000000000000000000000000000000000000000000001000000000000000000000000000000\
    000000000200000000000000000000000000000000000000400000000000000078000000000000000300000001000000\
    08000000000000001800000000000000000000000300000000000000000000000000000000000000b800000000000000\
    1200000000000000000000000000000001000000000000000000000000000000";

/// Whether the name at an address is this one, or none if it is empty.
fn is_named(file: &[u8], address: u64, name: &str) -> bool {
    match function_at(file, address) {
        Some(found) => found == name.as_bytes(),
        None => name.is_empty(),
    }
}

#[test]
fn the_first_function_with_the_address_is_told(rt: HostRuntime) {
    let file = hex::decode(rt.alloc(), FILE).expect(&rt, "the digits");
    for (case, address, name) in [
        ("0F", 0x0F, ""),
        ("10", 0x10, "main"),
        ("2F", 0x2F, "main"),
        ("30", 0x30, "helper"),
        ("37", 0x37, "helper"),
        ("38", 0x38, "main"),
        ("43", 0x43, "main"),
        ("44", 0x44, ""),
        ("the last address", u64::MAX, ""),
    ] {
        check(&rt, is_named(file.as_slice(), address, name), case);
    }
}
