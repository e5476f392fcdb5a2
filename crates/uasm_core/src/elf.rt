//! The ELF-64 file of a program (ELF-64 Object File Format).
ghost use Rattle.std.specs.Prelude.{◌≡◌, ◌++◌, ◌<◌, ◌^◌, OnOk, IfOk, length};
ghost use Rattle.uasm_core.specs.FileFormat as format;
ghost use Rattle.uasm_core.specs.FileFormat.{elf_of};
ghost use Rattle.xk_base.specs.Words.{le_bytes};

use crate::bytes::{put_u16, put_u32, put_u64};
use crate::place::{FILE_HEADER_BYTES, PROGRAM_HEADER_BYTES, data_base, header_count, headers_len};
use crate::spelling::Output;
use std::alloc::{AllocError, Global};

/// 7F and the letters ELF, 64 bits, lowest byte first, version 1, and zeros.
const IDENTIFICATION: [u8; 16] = [0x7F, b'E', b'L', b'F', 2, 1, 1, 0, 0, 0, 0, 0, 0, 0, 0, 0];

/// The type of a file that can be run.
const EXECUTABLE_FILE: u16 = 2;

/// The number of RISC-V among the machines.
const MACHINE_RISC_V: u16 = 243;

/// The version of the format.
const CURRENT_VERSION: u32 = 1;

/// The type of a segment that is to be loaded.
const TO_BE_LOADED: u32 = 1;

/// Flags of text: read (bit 2) and execute (bit 0).
const TEXT_FLAGS: u32 = 0b101;

/// Flags of data: read (bit 2) and write (bit 1).
const DATA_FLAGS: u32 = 0b110;

/// The file header of a program that begins at `entry` and has `phnum` program headers.
fn file_header(alloc: Global, entry: u64, phnum: u16) -> Result<Vec<u8>, AllocError>
    ensures { IfOk result (λ v. v.items ≡ format.file_header entry phnum) }
{
    let mut file = Vec::new(alloc);
    file.extend_from_slice(&IDENTIFICATION)?;
    put_u16(&mut file, EXECUTABLE_FILE)?;
    put_u16(&mut file, MACHINE_RISC_V)?;
    put_u32(&mut file, CURRENT_VERSION)?;
    put_u64(&mut file, entry)?;
    put_u64(&mut file, u64::from(FILE_HEADER_BYTES))?;
    put_u64(&mut file, 0)?;
    put_u32(&mut file, 0)?;
    put_u16(&mut file, FILE_HEADER_BYTES)?;
    put_u16(&mut file, PROGRAM_HEADER_BYTES)?;
    put_u16(&mut file, phnum)?;
    put_u16(&mut file, 0)?;
    put_u16(&mut file, 0)?;
    put_u16(&mut file, 0)?;
    Ok(file)
}

/// Where a segment's bytes stand in the file and in memory, and how many they are.
#[derive(Clone, Copy)]
struct Extent {
    off: u64,
    vaddr: u64,
    size: u64,
}

/// A segment's header: type, flags, place in the file, virtual and physical address, size in the file and in
/// memory, and alignment.
fn put_segment_header(file: &mut Vec<u8>, flags: u32, extent: &Extent) -> Result<(), AllocError>
    ensures { OnOk result (file.new.items ≡ file.old.items
        ++ le_bytes 4 format.to_be_loaded ++ le_bytes 4 flags
        ++ le_bytes 8 extent.now.off ++ le_bytes 8 extent.now.vaddr ++ le_bytes 8 extent.now.vaddr
        ++ le_bytes 8 extent.now.size ++ le_bytes 8 extent.now.size ++ le_bytes 8 1) }
{
    put_u32(file, TO_BE_LOADED)?;
    put_u32(file, flags)?;
    put_u64(file, extent.off)?;
    put_u64(file, extent.vaddr)?;
    put_u64(file, extent.vaddr)?;
    put_u64(file, extent.size)?;
    put_u64(file, extent.size)?;
    put_u64(file, 1)
}

/// The header of a segment, if it has bytes.
fn put_program_header(file: &mut Vec<u8>, flags: u32, extent: &Extent) -> Result<(), AllocError>
    ensures { OnOk result (file.new.items ≡ file.old.items
        ++ format.program_header flags extent.now.off extent.now.vaddr extent.now.size) }
{
    if extent.size == 0 {
        return Ok(());
    }
    put_segment_header(file, flags, extent)?;
    Ok(())
}

/// The file: headers, text and data.
pub(crate) fn elf_file(alloc: Global, out: &Output, entry: u64) -> Result<Vec<u8>, AllocError>
    requires { (length out.now.text.items < 2 ^ 32) × (length out.now.data_bytes.items < 2 ^ 32) }
    ensures { IfOk result (λ v. v.items ≡ elf_of (record {
      text = out.now.text.items;
      data_bytes = out.now.data_bytes.items;
      entry = entry;
    })) }
{
    let text_len = out.text.len() as u64;
    let data_len = out.data_bytes.len() as u64;
    let off = headers_len(text_len, data_len);
    let text = Extent {
        off,
        vaddr: 0,
        size: text_len,
    };
    let data = Extent {
        off: off + text_len,
        vaddr: data_base(text_len),
        size: data_len,
    };
    let mut file = file_header(
        alloc,
        entry,
        header_count(text_len) + header_count(data_len),
    )?;
    put_program_header(&mut file, TEXT_FLAGS, &text)?;
    put_program_header(&mut file, DATA_FLAGS, &data)?;
    file.extend_from_slice(&out.text)?;
    file.extend_from_slice(&out.data_bytes)?;
    Ok(file)
}
