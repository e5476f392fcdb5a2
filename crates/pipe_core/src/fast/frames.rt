//! Bytes between a pipe and other frames: from frame to frame, with no copy in between.
ghost use Rattle.std.specs.Prelude.{◌≡◌, ◌≢◌, ◌+◌, ◌<◌, ◌≤◌};
ghost use Rattle.std.specs.Prelude.{length, set, take, drop, replicate};
ghost use Rattle.xk_base.specs.declared.limits.TheConstants.{PIPE_BYTES};
ghost use Rattle.phys_ram.specs.Ram.{frame_at, with_bytes};
ghost use Rattle.pipe_core.specs.Pipe.{Becomes, IsPipe, pipe_in, with_more, without_first};

use crate::{COUNT, OLDEST, RING, len};
use phys_ram::Ram;
use xk_base::Frame;
use xk_base::limits::PIPE_BYTES;

// Copies `count` bytes of one frame over those of another, as `Ram::copy_part` does. Mostly there are none: what goes into a
// pipe, or comes out of it, seldom lies across its ring's end.
fn copy_rest(ram: &mut Ram, from: Frame, start: usize, to: Frame, at: usize, count: usize)
    requires from_in { from < length ram.old }
    requires to_in { to < length ram.old }
    requires apart { from ≢ to }
    requires start_in { start + count ≤ 4096 }
    requires at_in { at + count ≤ 4096 }
    ensures { ram.new ≡ set ram.old to (with_bytes at (take count (drop start (frame_at ram.old from))) (frame_at ram.old to)) }
{
    if count == 0 {
        return;
    }
    ram.copy_part(from, start, to, at, count);
}

/// Appends `size` bytes of another frame, from byte `at` on. There is room for them.
#[tactic(auto, using(crate::proofs::Changes::bytes_fit))]
pub fn push_part(ram: &mut Ram, frame: Frame, from: Frame, at: usize, size: usize)
    requires pipe { IsPipe ram.old frame }
    requires from_in { from < length ram.old }
    requires apart { from ≢ frame }
    requires at_in { at + size ≤ 4096 }
    requires room { length (pipe_in ram.old frame).bytes + size ≤ PIPE_BYTES }
    ensures whole { length (frame_at ram.old from) ≡ 4096 }
    ensures pushed { Becomes ram.old ram.new frame
        (with_more (take size (drop at (frame_at ram.old from))) (pipe_in ram.old frame)) }
{
    let oldest = ram.read_u64(frame, OLDEST) as usize;
    let count = len(ram, frame);
    let place = (oldest + count) % PIPE_BYTES;
    let before = size.min(PIPE_BYTES - place);
    ram.copy_part(from, at, frame, RING + place, before);
    copy_rest(ram, from, at + before, frame, RING, size - before);
    ram.write_u64(frame, COUNT, (count + size) as u64);
}

/// Appends `size` zeros. There is room for them.
#[tactic(auto, using(crate::proofs::Changes::bytes_fit))]
pub fn push_zeros(ram: &mut Ram, frame: Frame, size: usize)
    requires pipe { IsPipe ram.old frame }
    requires room { length (pipe_in ram.old frame).bytes + size ≤ PIPE_BYTES }
    ensures { Becomes ram.old ram.new frame (with_more (replicate size 0) (pipe_in ram.old frame)) }
{
    let oldest = ram.read_u64(frame, OLDEST) as usize;
    let count = len(ram, frame);
    let place = (oldest + count) % PIPE_BYTES;
    let before = size.min(PIPE_BYTES - place);
    ram.clear_part(frame, RING + place, before);
    ram.clear_part(frame, RING, size - before);
    ram.write_u64(frame, COUNT, (count + size) as u64);
}

/// Copies `size` of the bytes of a pipe, from number `skip` on, the oldest being number 0, over those of
/// another frame, from byte `at` on. The pipe stays, and so do all other bytes.
#[tactic(auto, using(crate::proofs::Changes::bytes_fit))]
pub fn copy_bytes(ram: &mut Ram, frame: Frame, skip: usize, to: Frame, at: usize, size: usize)
    requires pipe { IsPipe ram.old frame }
    requires to_in { to < length ram.old }
    requires apart { to ≢ frame }
    requires at_in { at + size ≤ 4096 }
    requires there { skip + size ≤ length (pipe_in ram.old frame).bytes }
    ensures whole { length (frame_at ram.old to) ≡ 4096 }
    ensures copied { ram.new
        ≡ set ram.old to
        (with_bytes at (take size (drop skip (pipe_in ram.old frame).bytes)) (frame_at ram.old to)) }
{
    let oldest = ram.read_u64(frame, OLDEST) as usize;
    let place = (oldest + skip) % PIPE_BYTES;
    let before = size.min(PIPE_BYTES - place);
    ram.copy_part(frame, RING + place, to, at, before);
    copy_rest(ram, frame, RING, to, at + before, size - before);
}

/// Takes out the `size` oldest bytes, which are there.
pub fn drop_first(ram: &mut Ram, frame: Frame, size: usize)
    requires pipe { IsPipe ram.old frame }
    requires there { size ≤ length (pipe_in ram.old frame).bytes }
    ensures { Becomes ram.old ram.new frame (without_first size (pipe_in ram.old frame)) }
{
    let oldest = ram.read_u64(frame, OLDEST) as usize;
    let count = len(ram, frame);
    ram.write_u64(frame, OLDEST, ((oldest + size) % PIPE_BYTES) as u64);
    ram.write_u64(frame, COUNT, (count - size) as u64);
}
