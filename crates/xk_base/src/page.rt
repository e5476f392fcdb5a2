//! Pages of virtual memory: how many so many bytes take, and places in them.
ghost use Rattle.std.specs.Prelude.{◌≡◌, ◌<◌, ◌≤◌, ◌%◌};
ghost use Rattle.xk_base.specs.Image.{page_count};

use crate::limits::{ADDRESS_END, FRAME_BYTES, PAGE_BYTES, VPN_END};

/// The bytes of a frame, and of a page.
pub type FrameBytes = [u8; FRAME_BYTES];

/// How many pages so many bytes take, [`ADDRESS_END`] at most: as xv6's `PGROUNDUP`, in pages.
#[inline(always)]
pub fn page_count(bytes: u64) -> u32
    requires { bytes ≤ ADDRESS_END }
    ensures value { result ≡ page_count bytes }
    ensures few { result ≤ VPN_END }
{
    ((bytes + (PAGE_BYTES - 1)) / PAGE_BYTES) as u32
}

/// How far behind the first byte of its page an address lies, below [`FRAME_BYTES`]: what xv6's `PGROUNDDOWN` cuts off.
#[inline(always)]
pub fn page_offset(address: u64) -> usize
    ensures value { result ≡ address % 4096 }
    ensures inside { result < FRAME_BYTES }
{
    (address % PAGE_BYTES) as usize
}
