//! The bits of entries, and walks through three tables.

use super::checking::check;
use phys_ram::Ram;
use std::alloc::Global;
use std::process::Abort;
use sv39_core::{Pte, split, walk};
use xk_base::{Access, BootError, Frame, Perm, Rights};

/// Page 5 of the last table, with R, W, U, A and D; the same without D, and without A.
const USED: u64 = 0x2000_0CD7;

const CLEAN: u64 = 0x2000_0C57;

const UNUSED: u64 = 0x2000_0C97;

/// The first address that isn't canonical.
const PAST_THE_LOWER_HALF: u64 = 0x40_0000_0000;

/// Sixteen frames: a root in frame 0, tables in frames 1 and 2, and this entry of the last for page 5.
fn three_tables(alloc: Global, leaf: u64) -> Result<Ram, BootError> {
    let mut ram = Ram::new(alloc, 16)?;
    ram.write_u64(Frame::new(0), 0, 0x2000_0401);
    ram.write_u64(Frame::new(1), 0, 0x2000_0801);
    ram.write_u64(Frame::new(2), 5, leaf);
    Ok(ram)
}

/// Whether a walk leads to byte 16 of frame 3.
fn reaches_frame_3<R: Abort + AllocGlobal>(rt: &R, leaf: u64, va: u64, access: Access) -> bool {
    let ram = three_tables(rt.alloc(), leaf).expect(rt, "memory");
    match walk(&ram, Frame::new(0), va, access) {
        Ok((frame, offset)) => frame == Frame::new(3) && offset == 16,
        Err(_) => false,
    }
}

#[test]
fn a_page_is_reached_as_its_entry_says(rt: HostRuntime) {
    for (case, leaf, va, access, is_reached) in [
        ("load", USED, 0x5010, Access::Load, true),
        ("store", USED, 0x5010, Access::Store, true),
        ("fetch", USED, 0x5010, Access::Fetch, false),
        ("page 6", USED, 0x6010, Access::Load, false),
        (
            "upper half",
            USED,
            0x5010 + PAST_THE_LOWER_HALF,
            Access::Load,
            false,
        ),
        ("load without D", CLEAN, 0x5010, Access::Load, true),
        ("store without D", CLEAN, 0x5010, Access::Store, false),
        ("load without A", UNUSED, 0x5010, Access::Load, false),
    ] {
        check(
            &rt,
            reaches_frame_3(&rt, leaf, va, access) == is_reached,
            case,
        );
    }
}

/// Whether an address has these indices.
fn has_indices(va: u64, indices: [usize; 3]) -> bool {
    split(va) == Some(indices)
}

#[test]
fn an_address_that_is_not_canonical_has_no_indices(rt: HostRuntime) {
    check(
        &rt,
        split(PAST_THE_LOWER_HALF).is_none(),
        "past the lower half",
    );
    check(
        &rt,
        has_indices(PAST_THE_LOWER_HALF - 1, [255, 511, 511]),
        "its last",
    );
    check(
        &rt,
        has_indices(0xFFFF_FFC0_0000_0000, [256, 0, 0]),
        "the upper half",
    );
}

/// The entry of a page in frame 0, to be read and either written or run.
fn leaf_of_frame_0(write: bool) -> Pte {
    let perm = Perm::new(Rights {
        read: true,
        write,
        execute: !write,
        user: true,
    });
    Pte::leaf(Frame::new(0), perm)
}

/// Whether these bits stand so in RAM, as bytes: the lowest, and then those of all leaves of frame 0.
fn is_stored<R: Abort + AllocGlobal>(rt: &R, bits: u64, low: u8) -> bool {
    let mut ram = Ram::new(rt.alloc(), 16).expect(rt, "memory");
    ram.write_u64(Frame::new(15), 0, Pte::from_bits(bits).bits());
    ram.frame(Frame::new(15))
        .starts_with(&[low, 0, 0, 0x20, 0, 0, 0, 0])
}

#[test]
fn leaves_of_frame_0_have_their_bits(rt: HostRuntime) {
    check(
        &rt,
        leaf_of_frame_0(true).bits() == 0x2000_00D7,
        "a leaf that may be written",
    );
    check(&rt, is_stored(&rt, 0x2000_00D7, 0xD7), "its bytes");
    check(
        &rt,
        leaf_of_frame_0(false).bits() == 0x2000_00DB,
        "a leaf that may be run",
    );
    check(&rt, is_stored(&rt, 0x2000_00DB, 0xDB), "its bytes");
    check(
        &rt,
        Pte::table(Frame::new(1)).bits() == 0x2000_0401,
        "a table",
    );
}
