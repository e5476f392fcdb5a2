//! Finds out whether a program can be loaded, and how.
ghost use Rattle.std.specs.Prelude.{◌≡◌, ◌+◌, ◌*◌, ◌/◌, ◌^◌, ◌<◌, ◌≤◌, ℕ, length};
ghost use Rattle.xk_base.specs.declared.limits.TheConstants.{SIZE_LIMIT, MAXARG};
ghost use Rattle.xk_base.specs.Loaded.{end_after, down, loaded};
ghost use Rattle.exec_core.specs.ArgTexts.{lowest_by};
ghost use Rattle.exec_core.specs.Plans.{Within};

use crate::arg_list::ArgList;
use elf_image::{Segments, read_header, segments};
use std::marker::Model;
use xk_base::limits::PAGE_BYTES;
use xk_base::{ExecError, page_count};

/// What a program starts with: its registers besides those that stay as they were.
#[derive(Clone, Copy)]
pub struct Entry {
    /// The address of the first instruction, a multiple of 4.
    pub pc: u64,
    /// The stack pointer, a multiple of 16, where the addresses of the texts lie (also in register a1).
    pub sp: u64,
    /// How many texts there are (register a0).
    pub argc: u64,
}

/// A program that can be loaded, if there are frames enough.
///
/// It borrows the file and the texts, and copies nothing of them. Contracts see it as the program in
/// memory: its image, its pc, its stack pointer and the number of its texts.
#[derive(Drop)]
pub struct ExecPlan<'a> {
    pub(crate) file: &'a [u8],
    pub(crate) segments: Segments<'a>,
    /// The number of the guard page, the first one behind the segments.
    pub(crate) guard: u64,
    pub(crate) args: &'a ArgList,
    pub(crate) start: Entry,
}

impl<'a> Model for ExecPlan<'a> {
    ghost use Rattle.xk_base.specs.Loaded.{Loaded, program_image};
    ghost use Rattle.xk_base.specs.Codes.{loaded_code};
    ghost use Rattle.exec_core.specs.Plans.{IsPlan};

    ghost Value = { Loaded };

    ghost coded = { loaded_code };

    ghost view = { λ p. record {
      image = program_image p.file.now p.segments p.args.now;
      pc = p.start.pc;
      sp = p.start.sp;
      argc = p.start.argc;
    } };

    ghost invariant = { λ p. IsPlan p.file.now p.segments p.guard p.args.now p.start.sp };
}

/// Where the last of the segments ends.
fn end_of(segments: Segments<'_>) -> u64
    requires { Within segments }
    ensures end { result ≡ end_after 0 segments.entry }
    ensures limit { result ≤ SIZE_LIMIT }
{
    let mut end = 0;
    for segment in segments {
        end = segment.vaddr + segment.memsz;
    }
    end
}

/// So many bytes below an address, and from there down to a multiple of 16.
fn down(address: u64, bytes: u64) -> u64
    ensures { result ≡ down address bytes }
{
    16 * (address.saturating_sub(bytes) / 16)
}

/// Where a text of so many bytes lies, with its zero byte, below an address.
pub(crate) fn text_place(top: u64, length: usize) -> u64
    ensures { result ≡ down top (length + 1) }
{
    down(top.saturating_sub(1), length as u64)
}

/// The stack pointer, where texts of these lengths lie below `top`.
fn stack_pointer(lengths: &[usize], top: u64) -> u64
    requires { length lengths.now ≤ MAXARG }
    ensures { result ≡ down (lowest_by top lengths.now) (8 * (length lengths.now + 1)) }
{
    let mut place = top;
    for length in lengths {
        place = text_place(place, *length);
    }
    down(place, 8 * (lengths.len() as u64 + 1))
}

/// Reads a program file and finds out whether it can be loaded with these texts.
///
/// # Errors
///
/// In this order:
///
/// 1. [`ExecError::NotElf`] where the file isn't an ELF file ([`read_header`]).
/// 2. [`ExecError::BadSegment`] with the least number of a program header that is refused
///    ([`segments`]).
/// 3. [`ExecError::ArgsTooLong`] where the texts, their addresses and a null pointer don't fit into the
///    stack page, which has 4,096 bytes.
pub fn plan<'a>(file: &'a [u8], args: &'a ArgList) -> Result<ExecPlan<'a>, ExecError>
    ensures { result ≡ loaded file.now args.now }
{
    let header = read_header(file)?;
    let end = end_of(segments(file, &header)?);
    let guard = page_count(end) as u64;
    let (lengths, _) = args.parts();
    let sp = stack_pointer(lengths, PAGE_BYTES * (guard + 2));
    if sp < PAGE_BYTES * (guard + 1) {
        return Err(ExecError::ArgsTooLong);
    }
    Ok(ExecPlan {
        file,
        segments: segments(file, &header)?,
        guard,
        args,
        start: Entry {
            pc: 4 * (header.entry / 4),
            sp,
            argc: lengths.len() as u64,
        },
    })
}
