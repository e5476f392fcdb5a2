//! The pipes: their frames, how many descriptors are on each end, and the bytes between them and processes.
ghost use Rattle.std.specs.Prelude.{◌≡◌, ◌<◌, ◌≤◌, IsSome, None, Some, cond, is_some, nat_eq};
ghost use Rattle.std.specs.Prelude.{option_map, ◌+◌, take, length, true, not, IfSome, IfNone};
ghost use Rattle.std.specs.FinMap.{get};
ghost use Rattle.pipe_core.specs.declared.TheConstants.{END_COUNT_MAX};
ghost use Rattle.kernel_spec.specs.views.PipeEnds.{count_on, joined, parted, is_given_up, there, fit, has_bytes};
ghost use Rattle.kcall_core.specs.Holdings.{pipe_named, held_at, HasMemory, with_image};
ghost use Rattle.kcall_core.specs.Memories.{pipes_of, AreSound, PipeChanges, each_of};
ghost use Rattle.kcall_core.specs.Memories.{free_of, RunsIn, SlotChanges, Same, image_at};
ghost use Rattle.kcall_core.specs.ObservedPipes.{counts_of, byte_of_pipe};
ghost use Rattle.xk_base.specs.declared.limits.TheConstants.{PIPE_BYTES};
ghost use Rattle.xk_base.specs.Bytes.{image_bytes, write_image};
ghost use Rattle.pipe_core.specs.Pipe.{with_more, without_first, new_pipe};
ghost use Rattle.kernel_spec.specs.rows.Buffers.{readable, writable_now};
ghost use Rattle.hart_core.specs.declared.hart.Hart.{Hart};
ghost use Rattle.kcall_core.specs.Moves.{Moves};

use crate::memories::{Memories, memory_in};
use file_table::End;
use xk_base::Frame;
use xk_base::limits::PIPE_BYTES;

/// How many descriptors are on each end of a pipe, and how many bytes are in it.
#[derive(Clone, Copy)]
pub struct PipeCounts {
    pub readers: u64,
    pub writers: u64,
    pub bytes: usize,
}

impl Memories {
    /// Makes a frame an empty pipe with one descriptor on each end; the frame names the pipe. None exactly
    /// if no frame is free.
    pub fn make_pipe(&mut self) -> Option<Frame>
        requires { AreSound self.old }
        ensures new { IfSome result (λ f. get (pipes_of self.old) f ≡ None) }
        ensures made { IfSome result (λ f. PipeChanges self.old self.new f (Some new_pipe)) }
        ensures refused { IfNone result ((free_of self.old ≡ 0) × Same self.old self.new) }
    {
        self.known.root = None;
        let frame = self.pool.take(&mut self.ram)?;
        pipe_core::make(&mut self.ram, frame);
        self.pipes[frame.index()] = true;
        Some(frame)
    }

    /// Gives back the frame of a pipe.
    pub fn drop_pipe(&mut self, frame: Frame)
        requires sound { AreSound self.old }
        requires there { IsSome (get (pipes_of self.old) frame) }
        ensures { PipeChanges self.old self.new frame None }
    {
        self.pipes[frame.index()] = false;
        self.known.root = None;
        self.pool.give(&mut self.ram, frame);
    }

    /// Whether a frame keeps a pipe.
    fn keeps_pipe(&self, frame: Frame) -> bool
        ensures { result ≡ is_some (get (pipes_of self.now) frame) }
    {
        let index = frame.index();
        if index >= self.pipes.len() {
            return false;
        }
        self.pipes[index]
    }

    /// The counts of the pipe in a frame; none if it keeps no pipe.
    pub fn pipe_counts(&self, frame: Frame) -> Option<PipeCounts>
        requires { AreSound self.now }
        ensures { result ≡ option_map counts_of (get (pipes_of self.now) frame) }
    {
        if !self.keeps_pipe(frame) {
            return None;
        }
        Some(PipeCounts {
            readers: self.readers(frame),
            writers: self.writers(frame),
            bytes: self.count(frame),
        })
    }

    /// The byte at a place of the pipe in a frame: 0 is the oldest. None if it has fewer bytes, or the frame
    /// keeps no pipe.
    pub fn pipe_byte(&self, frame: Frame, place: usize) -> Option<u8>
        requires { AreSound self.now }
        ensures { result ≡ byte_of_pipe place (get (pipes_of self.now) frame) }
    {
        if !self.keeps_pipe(frame) {
            return None;
        }
        pipe_core::byte(&self.ram, frame, place)
    }

    /// How many descriptors are on the read end of a pipe.
    pub fn readers(&self, frame: Frame) -> u64
        requires sound { AreSound self.now }
        requires there { IsSome (get (pipes_of self.now) frame) }
        ensures { result ≡ (pipe_named (pipes_of self.now) frame).readers }
    {
        pipe_core::readers(&self.ram, frame)
    }

    /// How many descriptors are on the write end of a pipe.
    pub fn writers(&self, frame: Frame) -> u64
        requires sound { AreSound self.now }
        requires there { IsSome (get (pipes_of self.now) frame) }
        ensures { result ≡ (pipe_named (pipes_of self.now) frame).writers }
    {
        pipe_core::writers(&self.ram, frame)
    }

    /// Whether no descriptor is on a pipe.
    fn is_given_up(&self, frame: Frame) -> bool
        requires sound { AreSound self.now }
        requires there { IsSome (get (pipes_of self.now) frame) }
        ensures { result ≡ is_given_up (pipe_named (pipes_of self.now) frame) }
    {
        self.readers(frame) == 0 && self.writers(frame) == 0
    }

    /// Whether no descriptor is on an end of a pipe.
    pub fn is_closed(&self, frame: Frame, end: End) -> bool
        requires sound { AreSound self.now }
        requires there { IsSome (get (pipes_of self.now) frame) }
        ensures { result ≡ nat_eq (count_on end (pipe_named (pipes_of self.now) frame)) 0 }
    {
        match end {
            End::Reading => self.readers(frame) == 0,
            End::Writing => self.writers(frame) == 0,
        }
    }

    /// One descriptor more is on an end of a pipe.
    pub fn join(&mut self, frame: Frame, end: End)
        requires sound { AreSound self.old }
        requires there { IsSome (get (pipes_of self.old) frame) }
        requires room { count_on end (pipe_named (pipes_of self.old) frame) < END_COUNT_MAX }
        ensures { PipeChanges self.old self.new frame (Some (joined (pipe_named (pipes_of self.old) frame) end 1)) }
    {
        self.known.root = None;
        match end {
            End::Reading => pipe_core::add_reader(&mut self.ram, frame),
            End::Writing => pipe_core::add_writer(&mut self.ram, frame),
        }
    }

    /// One descriptor fewer is on an end of a pipe. The pipe stays, also if nobody is on it any more.
    fn part(&mut self, frame: Frame, end: End)
        requires sound { AreSound self.old }
        requires there { IsSome (get (pipes_of self.old) frame) }
        requires some { 1 ≤ count_on end (pipe_named (pipes_of self.old) frame) }
        ensures { PipeChanges self.old self.new frame (Some (parted (pipe_named (pipes_of self.old) frame) end 1)) }
    {
        self.known.root = None;
        match end {
            End::Reading => pipe_core::drop_reader(&mut self.ram, frame),
            End::Writing => pipe_core::drop_writer(&mut self.ram, frame),
        }
    }

    /// One descriptor fewer is on an end of a pipe, whose frame is given back with the last descriptor of
    /// both ends. The answer is whether none is left on that end.
    pub fn leave(&mut self, frame: Frame, end: End) -> bool
        requires sound { AreSound self.old }
        requires there { IsSome (get (pipes_of self.old) frame) }
        requires some { 1 ≤ count_on end (pipe_named (pipes_of self.old) frame) }
        ensures last { result ≡ nat_eq (count_on end (parted (pipe_named (pipes_of self.old) frame) end 1)) 0 }
        ensures pipe { let left = parted (pipe_named (pipes_of self.old) frame) end 1 in
            PipeChanges self.old self.new frame (cond (is_given_up left) None (Some left)) }
    {
        self.part(frame, end);
        let last = self.is_closed(frame, end);
        if !self.is_given_up(frame) {
            return last;
        }
        self.drop_pipe(frame);
        last
    }

    /// Whether a pipe is empty, and somebody may still write to it.
    pub fn must_wait(&self, frame: Frame) -> bool
        requires sound { AreSound self.now }
        requires pipe { IsSome (get (pipes_of self.now) frame) }
        ensures { result ≡ not (has_bytes (pipe_named (pipes_of self.now) frame)) }
    {
        self.count(frame) == 0 && self.writers(frame) > 0
    }

    /// How many bytes are in a pipe.
    pub(crate) fn count(&self, frame: Frame) -> usize
        requires sound { AreSound self.now }
        requires pipe { IsSome (get (pipes_of self.now) frame) }
        ensures value { result ≡ length (pipe_named (pipes_of self.now) frame).bytes }
        ensures range { result ≤ PIPE_BYTES }
    {
        pipe_core::len(&self.ram, frame)
    }

    /// Appends bytes from the memory of a slot, where user code may read them, to a pipe that has room for
    /// them. They go from frame to frame.
    fn push_tested(&mut self, frame: Frame, slot: usize, address: u64, count: usize)
        requires sound { AreSound self.old }
        requires pipe { IsSome (get (pipes_of self.old) frame) }
        requires there { HasMemory (each_of self.old) slot }
        requires room { length (pipe_named (pipes_of self.old) frame).bytes + count ≤ PIPE_BYTES }
        requires readable { readable (image_at self.old slot) address count ≡ true }
        ensures { PipeChanges self.old self.new frame
            (Some
            (with_more (image_bytes (image_at self.old slot) address count)
            (pipe_named (pipes_of self.old) frame))) }
    {
        let memory = memory_in(&self.each, slot);
        self.known.root = None;
        user_copy::push_to_pipe(&memory.space, &mut self.ram, frame, address, count);
    }

    /// Appends bytes from the memory of a slot to a pipe, as many of n as fit, and tells how many they are.
    pub fn push_from(&mut self, frame: Frame, slot: usize, address: u64, n: usize) -> usize
        requires sound { AreSound self.old }
        requires pipe { IsSome (get (pipes_of self.old) frame) }
        requires there { HasMemory (each_of self.old) slot }
        requires readable { readable (image_at self.old slot) address n ≡ true }
        ensures count { result ≡ fit (pipe_named (pipes_of self.old) frame) n }
        ensures range { result ≤ PIPE_BYTES }
        ensures moved { PipeChanges self.old self.new frame
            (Some
            (with_more (image_bytes (image_at self.old slot) address result)
            (pipe_named (pipes_of self.old) frame))) }
    {
        let count = n.min(PIPE_BYTES - self.count(frame));
        self.push_tested(frame, slot, address, count);
        count
    }

    /// Copies the oldest bytes of a pipe, which are there, to the memory of a slot, where user code may write
    /// them. They go from frame to frame, and the pipe stays.
    fn copy_oldest(&mut self, frame: Frame, slot: usize, address: u64, count: usize)
        requires sound { AreSound self.old }
        requires pipe { IsSome (get (pipes_of self.old) frame) }
        requires there { HasMemory (each_of self.old) slot }
        requires bytes { count ≤ length (pipe_named (pipes_of self.old) frame).bytes }
        requires writable { writable_now (image_at self.old slot) address count ≡ true }
        ensures written { let held = held_at (each_of self.old) slot in
            SlotChanges self.old self.new slot
            (Some
            (with_image
            (write_image held.image address (take count (pipe_named (pipes_of self.old) frame).bytes))
            held)) }
        ensures free { free_of self.new ≡ free_of self.old }
        ensures runs { (hart : Hart) → RunsIn self.old slot hart → RunsIn self.new slot hart }
    {
        let memory = memory_in(&self.each, slot);
        self.known.root = None;
        user_copy::copy_from_pipe(&memory.space, &mut self.ram, frame, address, count);
    }

    /// Takes the oldest bytes out of a pipe, which are there.
    fn drop_oldest(&mut self, frame: Frame, count: usize)
        requires sound { AreSound self.old }
        requires pipe { IsSome (get (pipes_of self.old) frame) }
        requires bytes { count ≤ length (pipe_named (pipes_of self.old) frame).bytes }
        ensures { PipeChanges self.old self.new frame
            (Some (without_first count (pipe_named (pipes_of self.old) frame))) }
    {
        self.known.root = None;
        pipe_core::drop_first(&mut self.ram, frame, count);
    }

    /// Takes the oldest bytes out of a pipe, as many as there are but at most n, puts them into the memory of
    /// a slot, and tells how many they are.
    pub fn pull_to(&mut self, frame: Frame, slot: usize, address: u64, n: usize) -> usize
        requires sound { AreSound self.old }
        requires pipe { IsSome (get (pipes_of self.old) frame) }
        requires there { HasMemory (each_of self.old) slot }
        requires writable { writable_now (image_at self.old slot) address n ≡ true }
        ensures count { result ≡ there (pipe_named (pipes_of self.old) frame) n }
        ensures range { result ≤ PIPE_BYTES }
        ensures moved { let pipe = pipe_named (pipes_of self.old) frame in
            let image = image_at self.old slot in
            Moves self.old self.new slot (write_image image address (take result pipe.bytes)) frame
            (without_first result pipe) }
    {
        let count = n.min(self.count(frame));
        self.copy_oldest(frame, slot, address, count);
        self.drop_oldest(frame, count);
        count
    }
}
