//! Bytes between a process's pages and a pipe, from frame to frame.
//!
//! Neither call tests whether the process may reach the bytes: its caller has tested the range.
ghost use Rattle.std.specs.Prelude.{◌≡◌, ℕ, ◌+◌, ◌*◌, ◌^◌, ◌<◌, ◌≤◌, length, take, drop};
ghost use Rattle.xk_base.specs.declared.limits.TheConstants.{PIPE_BYTES};
ghost use Rattle.xk_base.specs.Frames.{copies};
ghost use Rattle.xk_base.specs.Bytes.{HasPage, IsMapped, image_bytes, write_image};
ghost use Rattle.frame_list.specs.declared.Pool.{Pool};
ghost use Rattle.addr_space.specs.Space.{image_of, frames_of, Belongs, Changed, IsSpace};
ghost use Rattle.addr_space.specs.InPlace.{WrittenInPlace};
ghost use Rattle.pipe_core.specs.Pipe.{Becomes, IsPipe, pipe_in, with_more};

use addr_space::Space;
use phys_ram::Ram;
use xk_base::limits::FRAME_BYTES;
use xk_base::{Frame, Vpn, page_offset};

/// Appends `size` bytes of a page to a pipe, from place `at` on, within the page: zeros where the page isn't
/// there.
fn push_page(space: &Space, ram: &mut Ram, pipe: Frame, page: Vpn, at: usize, size: usize)
    requires whole { IsSpace ram.old space.now }
    requires pipe { IsPipe ram.old pipe }
    requires apart { copies pipe (frames_of ram.old space.now) ≡ 0 }
    requires inside { at < 4096 }
    requires fits { at + size ≤ 4096 }
    requires room { length (pipe_in ram.old pipe).bytes + size ≤ PIPE_BYTES }
    ensures { Becomes ram.old ram.new pipe
        (with_more (image_bytes (image_of ram.old space.now) (4096 * page + at) size)
        (pipe_in ram.old pipe)) }
{
    match space.page_frame(ram, page) {
        Some(from) => pipe_core::push_part(ram, pipe, from, at, size),
        None => pipe_core::push_zeros(ram, pipe, size),
    }
}

/// Appends `size` bytes of a process to a pipe, from an address on, whatever the pages' rights: zeros where no
/// page is there. The pipe has room for them, and all of them lie below the last page's end.
pub fn push_to_pipe(space: &Space, ram: &mut Ram, pipe: Frame, address: u64, size: usize)
    requires whole { IsSpace ram.old space.now }
    requires pipe { IsPipe ram.old pipe }
    requires apart { copies pipe (frames_of ram.old space.now) ≡ 0 }
    requires inside { (k : ℕ) → k < size → address + k < 2 ^ 38 }
    requires room { length (pipe_in ram.old pipe).bytes + size ≤ PIPE_BYTES }
    ensures { Becomes ram.old ram.new pipe
        (with_more (image_bytes (image_of ram.old space.now) address size) (pipe_in ram.old pipe)) }
{
    let mut done = 0;
    'parts: while done < size {
        let place = address + done as u64;
        let at = page_offset(place);
        let part = (FRAME_BYTES - at).min(size - done);
        let page = Vpn::of_address(place);
        push_page(space, ram, pipe, page, at, part);
        done += part;
    }
}

/// Copies `size` of the bytes of a pipe, from number `skip` on, the oldest being number 0, into a page that is
/// there, from place `at` on, within the page.
fn fill_page(
    space: &Space,
    ram: &mut Ram,
    pipe: Frame,
    skip: usize,
    page: Vpn,
    at: usize,
    size: usize,
)
    requires whole { IsSpace ram.old space.now }
    requires pipe { IsPipe ram.old pipe }
    requires apart { copies pipe (frames_of ram.old space.now) ≡ 0 }
    requires there { HasPage (image_of ram.old space.now) page }
    requires fits { at + size ≤ 4096 }
    requires bytes { skip + size ≤ length (pipe_in ram.old pipe).bytes }
    ensures image { image_of ram.new space.now
        ≡ write_image (image_of ram.old space.now) (4096 * page + at)
        (take size (drop skip (pipe_in ram.old pipe).bytes)) }
    ensures in_place { WrittenInPlace ram.old ram.new space.now }
    ensures changed { (pool : Pool) → Belongs pool ram.old space.now
        → Changed pool ram.old space.now pool ram.new space.now }
{
    let Some(to) = space.page_frame(ram, page) else {
        unreachable!();
    };
    pipe_core::copy_bytes(ram, pipe, skip, to, at, size);
}

/// Copies the `size` oldest bytes of a pipe to a process, from an address on, whatever the pages' rights. Each
/// of them goes to a page that is there. The pipe stays, and so do all other bytes of the process, its
/// rights, its size, and its frames and tables.
pub fn copy_from_pipe(space: &Space, ram: &mut Ram, pipe: Frame, address: u64, size: usize)
    requires whole { IsSpace ram.old space.now }
    requires pipe { IsPipe ram.old pipe }
    requires apart { copies pipe (frames_of ram.old space.now) ≡ 0 }
    requires there { IsMapped (image_of ram.old space.now) address size }
    requires bytes { size ≤ length (pipe_in ram.old pipe).bytes }
    ensures image { image_of ram.new space.now
        ≡ write_image (image_of ram.old space.now) address (take size (pipe_in ram.old pipe).bytes) }
    ensures in_place { WrittenInPlace ram.old ram.new space.now }
    ensures changed { (pool : Pool) → Belongs pool ram.old space.now
        → Changed pool ram.old space.now pool ram.new space.now }
{
    let mut done = 0;
    'parts: while done < size {
        let place = address + done as u64;
        let at = page_offset(place);
        let part = (FRAME_BYTES - at).min(size - done);
        let page = Vpn::of_address(place);
        fill_page(space, ram, pipe, done, page, at, part);
        done += part;
    }
}
