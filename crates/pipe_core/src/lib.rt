//! Pipes, each in a frame of RAM (the xv6 book, "Code: Pipes").
//!
//! The frame begins with four numbers of eight bytes, little-endian: how many descriptors are on the
//! read end, how many on the write end, the place of the oldest byte, and how many bytes there are.
//! From byte 32 on stands a ring of [`PIPE_BYTES`](xk_base::limits::PIPE_BYTES) places.
//!
//! Contracts see a pipe as the list of its bytes and the two counts, `pipe_in` of `specs/Pipe.antt`.
//! Each call that changes one says what the pipe `Becomes`: no other frame changes. A frame is made
//! a pipe by [`make`], and stays one until something else is written into it.
#![tactic(auto)]

ghost use Rattle.std.specs.Prelude.{◌≡◌, ◌+◌, ◌-◌, ◌<◌, ◌≤◌, ◌++◌};
ghost use Rattle.std.specs.Prelude.{length, take, drop, min, slice_get};
ghost use Rattle.xk_base.specs.declared.limits.TheConstants.{PIPE_BYTES};
ghost use Rattle.pipe_core.specs.declared.TheConstants.{END_COUNT_MAX};
ghost use Rattle.pipe_core.specs.Pipe.{Becomes, IsPipe, IsPlaced, new_pipe, pipe_in, ring_byte};
ghost use Rattle.pipe_core.specs.Pipe.{values_below, with_more, with_readers, with_writers, without_first};

mod fast;

pub use fast::frames::{copy_bytes, drop_first, push_part, push_zeros};
use phys_ram::Ram;
use xk_base::limits::PIPE_BYTES;
use xk_base::{Frame, FrameBytes};

/// The most descriptors that may be on one end of a pipe: more than all processes have together.
pub const END_COUNT_MAX: u64 = 4096;

// The words of the frame.
const READERS: usize = 0;

const WRITERS: usize = 1;

const OLDEST: usize = 2;

const COUNT: usize = 3;

// The byte of the frame at which the ring begins.
const RING: usize = 32;

/// Makes a frame an empty pipe with one descriptor on each end, whatever it held before.
pub fn make(ram: &mut Ram, frame: Frame)
    requires { frame < length ram.old }
    ensures { Becomes ram.old ram.new frame new_pipe }
{
    ram.write_u64(frame, READERS, 1);
    ram.write_u64(frame, WRITERS, 1);
    ram.write_u64(frame, OLDEST, 0);
    ram.write_u64(frame, COUNT, 0);
}

/// How many bytes are in the pipe.
#[tactic(auto, using(crate::proofs::Values::length_values), unfolding(crate::specs::Pipe::pipe_in))]
pub fn len(ram: &Ram, frame: Frame) -> usize
    requires { IsPipe ram.now frame }
    ensures value { result ≡ length (pipe_in ram.now frame).bytes }
    ensures range { result ≤ PIPE_BYTES }
{
    ram.read_u64(frame, COUNT) as usize
}

/// How many descriptors are on the read end.
#[tactic(auto, unfolding(crate::specs::Pipe::pipe_in))]
pub fn readers(ram: &Ram, frame: Frame) -> u64
    requires { IsPipe ram.now frame }
    ensures value { result ≡ (pipe_in ram.now frame).readers }
    ensures range { result ≤ END_COUNT_MAX }
{
    ram.read_u64(frame, READERS)
}

/// How many descriptors are on the write end.
#[tactic(auto, unfolding(crate::specs::Pipe::pipe_in))]
pub fn writers(ram: &Ram, frame: Frame) -> u64
    requires { IsPipe ram.now frame }
    ensures value { result ≡ (pipe_in ram.now frame).writers }
    ensures range { result ≤ END_COUNT_MAX }
{
    ram.read_u64(frame, WRITERS)
}

/// The byte at a place of the pipe: 0 is the oldest. `None` where it has fewer bytes.
pub fn byte(ram: &Ram, frame: Frame, place: usize) -> Option<u8>
    requires { IsPipe ram.now frame }
    ensures { result ≡ slice_get (pipe_in ram.now frame).bytes place }
{
    if place >= len(ram, frame) {
        return None;
    }
    let oldest = ram.read_u64(frame, OLDEST) as usize;
    Some(ram.frame(frame)[RING + (oldest + place) % PIPE_BYTES])
}

/// One descriptor more on the read end.
pub fn add_reader(ram: &mut Ram, frame: Frame)
    requires pipe { IsPipe ram.old frame }
    requires fits { (pipe_in ram.old frame).readers < END_COUNT_MAX }
    ensures { let pipe = pipe_in ram.old frame in Becomes ram.old ram.new frame (with_readers (pipe.readers + 1) pipe) }
{
    let count = readers(ram, frame);
    ram.write_u64(frame, READERS, count + 1);
}

/// One descriptor more on the write end.
pub fn add_writer(ram: &mut Ram, frame: Frame)
    requires pipe { IsPipe ram.old frame }
    requires fits { (pipe_in ram.old frame).writers < END_COUNT_MAX }
    ensures { let pipe = pipe_in ram.old frame in Becomes ram.old ram.new frame (with_writers (pipe.writers + 1) pipe) }
{
    let count = writers(ram, frame);
    ram.write_u64(frame, WRITERS, count + 1);
}

/// One descriptor fewer on the read end. The bytes stay, also where it was the last.
pub fn drop_reader(ram: &mut Ram, frame: Frame)
    requires pipe { IsPipe ram.old frame }
    requires some { 1 ≤ (pipe_in ram.old frame).readers }
    ensures { let pipe = pipe_in ram.old frame in Becomes ram.old ram.new frame (with_readers (pipe.readers - 1) pipe) }
{
    let count = readers(ram, frame);
    ram.write_u64(frame, READERS, count - 1);
}

/// One descriptor fewer on the write end. The bytes stay, also where it was the last.
pub fn drop_writer(ram: &mut Ram, frame: Frame)
    requires pipe { IsPipe ram.old frame }
    requires some { 1 ≤ (pipe_in ram.old frame).writers }
    ensures { let pipe = pipe_in ram.old frame in Becomes ram.old ram.new frame (with_writers (pipe.writers - 1) pipe) }
{
    let count = writers(ram, frame);
    ram.write_u64(frame, WRITERS, count - 1);
}

/// Appends as many of the bytes, from the first on, as there is room for, and tells how many they are.
#[tactic(auto, unfolding(crate::specs::Pipe::pipe_in))]
pub fn push(ram: &mut Ram, frame: Frame, bytes: &[u8]) -> usize
    requires { IsPipe ram.old frame }
    ensures count { result ≡ min (length bytes.now) (PIPE_BYTES - length (pipe_in ram.old frame).bytes) }
    ensures pipe { Becomes ram.old ram.new frame (with_more (take result bytes.now) (pipe_in ram.old frame)) }
{
    let oldest = ram.read_u64(frame, OLDEST) as usize;
    let count = len(ram, frame);
    let moved = bytes.len().min(PIPE_BYTES - count);
    put_bytes(
        ram.frame_mut(frame),
        (oldest + count) % PIPE_BYTES,
        &bytes[..moved],
    );
    ram.write_u64(frame, COUNT, (count + moved) as u64);
    moved
}

/// Takes out as many of the oldest bytes as there are and as the buffer holds, puts them at the
/// buffer's front, and tells how many they are. The rest of the buffer stays.
#[tactic(auto, unfolding(crate::specs::Pipe::pipe_in))]
pub fn pull(ram: &mut Ram, frame: Frame, bytes: &mut [u8]) -> usize
    requires { IsPipe ram.old frame }
    ensures count { result ≡ min (length bytes.old) (length (pipe_in ram.old frame).bytes) }
    ensures bytes { bytes.new ≡ take result (pipe_in ram.old frame).bytes ++ drop result bytes.old }
    ensures pipe { Becomes ram.old ram.new frame (without_first result (pipe_in ram.old frame)) }
{
    let oldest = ram.read_u64(frame, OLDEST) as usize;
    let count = len(ram, frame);
    let moved = bytes.len().min(count);
    get_bytes(ram.frame(frame), oldest, &mut bytes[..moved]);
    ram.write_u64(frame, OLDEST, ((oldest + moved) % PIPE_BYTES) as u64);
    ram.write_u64(frame, COUNT, (count - moved) as u64);
    moved
}

// Copies bytes into the ring of a frame, from a place on: first up to the ring's end, then from its start on.
fn put_bytes(frame: &mut FrameBytes, from: usize, bytes: &[u8])
    requires from { from < PIPE_BYTES }
    requires fits { length bytes.now ≤ PIPE_BYTES }
    ensures { IsPlaced frame.old frame.new from bytes.now }
{
    let (before, after) = bytes.split_at(bytes.len().min(PIPE_BYTES - from));
    let start = RING + from;
    frame[start..start + before.len()].copy_from_slice(before);
    frame[RING..RING + after.len()].copy_from_slice(after);
}

// Copies bytes out of the ring of a frame, from a place on: first up to the ring's end, then from its start on.
fn get_bytes(frame: &FrameBytes, from: usize, bytes: &mut [u8])
    requires from { from < PIPE_BYTES }
    requires fits { length bytes.old ≤ PIPE_BYTES }
    ensures { bytes.new ≡ values_below (length bytes.old) (ring_byte frame.now from) }
{
    let before = bytes.len().min(PIPE_BYTES - from);
    let after = bytes.len() - before;
    let start = RING + from;
    bytes[..before].copy_from_slice(&frame[start..start + before]);
    bytes[before..].copy_from_slice(&frame[RING..RING + after]);
}
