//! RAM: a list of frames of [`PAGE_BYTES`](xk_base::limits::PAGE_BYTES) bytes.
//!
//! Contracts see RAM as the list of its frames, and a frame as the list of its bytes. Each call that
//! writes changes one frame, or one word of it, and says that all others stay.
//! The frame of number 0 is the physical page at [`RAM_BASE`](xk_base::limits::RAM_BASE), and the others follow
//! behind it.
#![tactic(auto)]

ghost use Rattle.std.specs.Prelude.{◌≡◌, ◌≢◌, ◌+◌, ◌*◌, ◌<◌, ◌≤◌, length};
ghost use Rattle.std.specs.Prelude.{ℕ, set, take, drop, replicate, IfOk, IfErr};
ghost use Rattle.std.specs.List.{flat_map};
ghost use Rattle.phys_ram.specs.Ram.{frame_at, word_at, with_bytes, zero_frame, IsFrameCount, IsRefused, WordWritten};

use byteorder::{ByteOrder, LittleEndian};
use std::alloc::Global;
use std::marker::Model;
use xk_base::limits::{FRAME_BYTES, FRAMES_MAX, FRAMES_MIN};
use xk_base::{BootError, Frame, FrameBytes};

/// The machine's memory.
#[derive(Drop)]
pub struct Ram {
    frames: Vec<FrameBytes>,
}

impl Model for Ram {
    ghost use Rattle.std.specs.Prelude.{List, ℕ, length};
    ghost use Rattle.phys_ram.specs.Ram.{IsFrameCount};

    ghost Value = { List (List ℕ) };

    ghost view = { λ r. r.frames.items };

    ghost invariant = { λ r. IsFrameCount (length r.frames.items) };
}

/// Copies `count` bytes of one frame, from byte `start` on, over those of another, from byte `at` on.
fn copy_bytes(from: &FrameBytes, start: usize, to: &mut FrameBytes, at: usize, count: usize)
    requires start_in { start + count ≤ 4096 }
    requires at_in { at + count ≤ 4096 }
    ensures whole { (length from.now ≡ 4096) × (length to.old ≡ 4096) }
    ensures copied { to.new ≡ with_bytes at (take count (drop start from.now)) to.old }
{
    to[at..at + count].copy_from_slice(&from[start..start + count]);
}

impl Ram {
    ghost use Rattle.std.specs.Borrow.{sem};
    ghost use Rattle.phys_ram.specs.Lending.{LendsFrame};

    /// RAM of `count` frames of zeros. All of it is asked of the host at once.
    ///
    /// Errors: `BadConfig` exactly where `count` is not in
    /// [`FRAMES_MIN`](xk_base::limits::FRAMES_MIN)..=[`FRAMES_MAX`](xk_base::limits::FRAMES_MAX),
    /// else `Memory` where the host has too little memory.
    pub fn new(alloc: Global, count: u32) -> Result<Ram, BootError>
        ensures zeros { IfOk result (λ ram. ram ≡ replicate count zero_frame) }
        ensures range { IfOk result (λ _. IsFrameCount count) }
        ensures refused { IfErr result (IsRefused count) }
    {
        if count < FRAMES_MIN || count > FRAMES_MAX {
            return Err(BootError::BadConfig);
        }
        let frames = vec![in alloc; [0; FRAME_BYTES]; count as usize]?;
        Ok(Ram { frames })
    }

    /// How many frames there are.
    pub fn frames(&self) -> u32
        ensures value { result ≡ length self.now }
        ensures range { IsFrameCount result }
    {
        self.frames.len() as u32
    }

    /// The bytes of a frame.
    pub fn frame(&self, frame: Frame) -> &FrameBytes
        requires { frame < length self.now }
        ensures { result.now ≡ frame_at self.now frame }
    {
        &self.frames[frame.index()]
    }

    /// The bytes of a frame, to be written. All other frames stay.
    pub fn frame_mut(&mut self, frame: Frame) -> &mut FrameBytes
        requires { frame < length self.old }
        ensures* writes_back { sem 𝓛 (LendsFrame self.entry frame result) }
        ensures value { result.now ≡ frame_at self.old frame }
    {
        &mut self.frames[frame.index()]
    }

    /// The bytes of all frames, one frame after another. Those of this frame stand from
    /// [`PAGE_BYTES`](xk_base::limits::PAGE_BYTES)` * frame` on.
    #[inline(always)]
    pub fn bytes_around(&self, frame: Frame) -> &[u8]
        requires { frame < length self.now }
        ensures all { result.now ≡ flat_map (λ bytes. bytes) self.now }
        ensures inside { 4096 * frame + 4096 ≤ length result.now }
        ensures long { length (frame_at self.now frame) ≡ 4096 }
        ensures here { (at count : ℕ) → at + count ≤ 4096
            → take count (drop (4096 * frame + at) result.now) ≡ take count (drop at (frame_at self.now frame)) }
    {
        let _before = self.frames[..frame.index()].as_flattened();
        let _here: &[u8] = self.frame(frame);
        self.frames.as_flattened()
    }

    /// Word `word` of a frame, below 512, little-endian, in its eight bytes from byte `8 * word` on.
    pub fn read_u64(&self, frame: Frame, word: usize) -> u64
        requires frame_in { frame < length self.now }
        requires word_in { word < 512 }
        ensures { result ≡ word_at self.now frame word }
    {
        LittleEndian::read_u64(&self.frame(frame)[8 * word..])
    }

    /// Writes a number, little-endian, into word `word` of a frame, below 512. Nothing else changes.
    pub fn write_u64(&mut self, frame: Frame, word: usize, number: u64)
        requires frame_in { frame < length self.old }
        requires word_in { word < 512 }
        ensures { WordWritten self.old self.new frame word number }
    {
        LittleEndian::write_u64(&mut self.frame_mut(frame)[8 * word..8 * word + 8], number);
    }

    /// Copies all bytes of the frame `from` into the frame `to`. All other frames stay.
    pub fn copy_frame(&mut self, from: Frame, to: Frame)
        requires from_in { from < length self.old }
        requires to_in { to < length self.old }
        ensures { self.new ≡ set self.old to (frame_at self.old from) }
    {
        let from = from.index();
        self.frames.copy_within(from..from + 1, to.index());
    }

    /// Copies `count` bytes of the frame `from`, from byte `start` on, over those of another frame `to`, from
    /// byte `at` on. All other bytes stay.
    pub fn copy_part(&mut self, from: Frame, start: usize, to: Frame, at: usize, count: usize)
        requires from_in { from < length self.old }
        requires to_in { to < length self.old }
        requires apart { from ≢ to }
        requires start_in { start + count ≤ 4096 }
        requires at_in { at + count ≤ 4096 }
        ensures whole { (length (frame_at self.old from) ≡ 4096) × (length (frame_at self.old to) ≡ 4096) }
        ensures copied { self.new
            ≡ set self.old to
            (with_bytes at (take count (drop start (frame_at self.old from))) (frame_at self.old to)) }
    {
        let source = from.index();
        let target = to.index();
        if source < target {
            let (low, high) = self.frames.split_at_mut(target);
            copy_bytes(&low[source], start, &mut high[0], at, count);
        } else {
            let (low, high) = self.frames.split_at_mut(source);
            copy_bytes(&high[0], start, &mut low[target], at, count);
        }
    }

    /// Makes `count` bytes of a frame 0, from byte `at` on. All other bytes stay.
    pub fn clear_part(&mut self, frame: Frame, at: usize, count: usize)
        requires frame_in { frame < length self.old }
        requires at_in { at + count ≤ 4096 }
        ensures whole { length (frame_at self.old frame) ≡ 4096 }
        ensures cleared { self.new
            ≡ set self.old frame (with_bytes at (replicate count 0) (frame_at self.old frame)) }
    {
        self.frame_mut(frame)[at..at + count].fill(0);
    }

    /// Makes all bytes of a frame 0. All other frames stay.
    pub fn zero_frame(&mut self, frame: Frame)
        requires { frame < length self.old }
        ensures { self.new ≡ set self.old frame zero_frame }
    {
        self.frame_mut(frame).fill(0);
    }
}
