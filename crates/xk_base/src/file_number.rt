//! Numbers in a program file, the lowest byte first (ELF-64 Object File Format, "Data Representation").
#![tactic(auto, using(crate::proofs::Numbers::little_numbers))]

ghost use Rattle.std.specs.Prelude.{◌≡◌, ◌≤◌, ◌+◌, length};
ghost use Rattle.xk_base.specs.ProgramFile.{number_at};

use byteorder::{ByteOrder, LittleEndian};

/// The number in the 2 bytes from `at` on.
pub fn u16_at(file: &[u8], at: usize) -> u16
    requires { at + 2 ≤ length file.now }
    ensures { result ≡ number_at 2 file.now at }
{
    LittleEndian::read_u16(&file[at..])
}

/// The number in the 4 bytes from `at` on.
pub fn u32_at(file: &[u8], at: usize) -> u32
    requires { at + 4 ≤ length file.now }
    ensures { result ≡ number_at 4 file.now at }
{
    LittleEndian::read_u32(&file[at..])
}

/// The number in the 8 bytes from `at` on.
pub fn u64_at(file: &[u8], at: usize) -> u64
    requires { at + 8 ≤ length file.now }
    ensures { result ≡ number_at 8 file.now at }
{
    LittleEndian::read_u64(&file[at..])
}
