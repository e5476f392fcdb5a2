//! The free frames of RAM.
//!
//! A pool and the RAM that it is of are spoken of together: `free_in pool ram` lists the free frames,
//! and `Good pool ram` says that they are frames of this RAM, each free once. Both hold on to what was
//! free through every write to a frame that isn't.
#![tactic(auto)]

ghost use Rattle.std.specs.Prelude.{◌≡◌, ℕ, ◌<◌, ◌≤◌, List, []};
ghost use Rattle.std.specs.Prelude.{length, IsOk, IfOk, IfErr, IfSome, IfNone};
ghost use Rattle.xk_base.specs.declared.limits.TheConstants.{FRAMES_MAX};
ghost use Rattle.xk_base.specs.declared.errors.BootError.TheVariants.{Memory};
ghost use Rattle.xk_base.specs.Frames.{copies};
ghost use Rattle.frame_list.specs.Pool.{free_in, link, Good};
ghost use Rattle.frame_list.specs.Traded.{Taken, Given, Untouched};

use phys_ram::Ram;
use std::alloc::Global;
use xk_base::{BootError, Frame};

/// The free frames of RAM, as a list that runs through them: the first 8 bytes of a free frame hold the
/// next one's number + 1, or 0 in the last.
#[derive(Drop)]
pub struct Pool {
    first: Option<Frame>,
    count: u32,
}

/// The word that leads to the next free frame.
fn link_to(next: Option<Frame>) -> u64
    ensures { link result ≡ next }
{
    match next {
        None => 0,
        Some(frame) => u64::from(frame.number()) + 1,
    }
}

/// The free frame that a word leads to.
fn linked(word: u64) -> Option<Frame>
    requires { word ≤ FRAMES_MAX }
    ensures { result ≡ link word }
{
    match word {
        0 => None,
        after => Some(Frame::new((after - 1) as u32)),
    }
}

impl Pool {
    /// A pool in which every frame of RAM is free. What the frames hold is left open.
    ///
    /// It takes no memory of the host, so it always answers `Ok`.
    pub fn new(_alloc: Global, ram: &mut Ram) -> Result<Pool, BootError>
        ensures made { IsOk result }
        ensures good { IfOk result (λ pool. Good pool ram.new) }
        ensures all_free { IfOk result (λ pool.
            (f : ℕ) → f < length ram.new → copies f (free_in pool ram.new) ≡ 1) }
        ensures frames { length ram.new ≡ length ram.old }
        ensures refused { IfErr result (λ error. (error ≡ Memory) × (ram.new ≡ ram.old)) }
    {
        let n = ram.frames();
        let mut pool = Pool {
            first: None,
            count: 0,
        };
        for number in 0..n {
            pool.give(ram, Frame::new(number));
        }
        Ok(pool)
    }

    /// Takes a free frame and makes it zeros. None exactly where no frame is free.
    pub fn take(&mut self, ram: &mut Ram) -> Option<Frame>
        requires { Good self.old ram.old }
        ensures none { IfNone result
            ((free_in self.old ram.old ≡ []) × Untouched self.old ram.old self.new ram.new) }
        ensures taken { IfSome result (Taken self.old ram.old self.new ram.new) }
    {
        let f = self.first?;
        let rest = linked(ram.read_u64(f, 0));
        *self = Pool {
            first: rest,
            count: self.count - 1,
        };
        ram.zero_frame(f);
        Some(f)
    }

    /// Gives back a frame that isn't free. What it holds is open from then on.
    pub fn give(&mut self, ram: &mut Ram, f: Frame)
        requires good { Good self.old ram.old }
        requires inside { f < length ram.old }
        requires not_free { copies f (free_in self.old ram.old) ≡ 0 }
        ensures { Given self.old ram.old self.new ram.new f }
    {
        ram.write_u64(f, 0, link_to(self.first));
        *self = Pool {
            first: Some(f),
            count: self.count + 1,
        };
    }

    /// How many frames are free.
    pub fn free(&self) -> u32
        ensures { (ram : List (List ℕ)) → Good self.now ram → result ≡ length (free_in self.now ram) }
    {
        self.count
    }
}
