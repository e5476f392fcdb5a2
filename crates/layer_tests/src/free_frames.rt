//! All frames of a small RAM, taken and given back.
ghost use Rattle.std.specs.Prelude.{◌<◌, ◌≢◌};

use super::checking::check;
use frame_list::Pool;
use phys_ram::Ram;
use std::alloc::Global;
use std::marker::Model;
use xk_base::{BootError, Frame};

/// The free frames of a RAM of 16. What they promise stays out of the proofs of the tests.
#[derive(Drop)]
struct Scene {
    ram: Ram,
    pool: Pool,
}

impl Model for Scene {
    ghost use Rattle.std.specs.Prelude.{◌≡◌, length};
    ghost use Rattle.frame_list.specs.Pool.{Good};

    ghost Value = { Unit {0} };

    ghost view = { λ _. tt };

    ghost invariant = { λ scene. (length scene.ram ≡ 16) × Good scene.pool scene.ram };
}

impl Scene {
    /// All frames are free.
    fn new(alloc: Global) -> Result<Scene, BootError> {
        let mut ram = Ram::new(alloc, 16)?;
        let pool = Pool::new(alloc, &mut ram)?;
        Ok(Scene { ram, pool })
    }

    fn take(&mut self) -> Option<Frame> {
        self.pool.take(&mut self.ram)
    }

    /// Takes a frame: whether it is this one.
    fn takes(&mut self, frame: Frame) -> bool {
        match self.take() {
            Some(taken) => taken == frame,
            None => false,
        }
    }

    /// Gives back two frames, if none is free.
    fn give_both(&mut self, first: Frame, second: Frame) -> bool
        requires first { first < 16 }
        requires second { second < 16 }
        requires apart { second ≢ first }
    {
        let None = self.pool.take(&mut self.ram) else {
            return false;
        };
        self.pool.give(&mut self.ram, first);
        self.pool.give(&mut self.ram, second);
        true
    }

    /// Takes frames, sixteen in all: whether there are so many, and no more.
    fn takes_sixteen(&mut self) -> bool {
        for _ in 0..16 {
            if self.take().is_none() {
                return false;
            }
        }
        self.take().is_none()
    }

    /// Whether a frame's first eight bytes are this number.
    fn links_to(&self, frame: Frame, number: u8) -> bool
        requires { frame < 16 }
    {
        self.ram
            .frame(frame)
            .starts_with(&[number, 0, 0, 0, 0, 0, 0, 0])
    }
}

#[test]
fn sixteen_frames_are_taken_and_two_given_back(rt: HostRuntime) {
    let mut scene = Scene::new(rt.alloc()).expect(&rt, "memory");
    check(&rt, scene.takes_sixteen(), "sixteen are free");
    let (three, nine) = (Frame::new(3), Frame::new(9));
    check(&rt, scene.give_both(three, nine), "none is free");
    check(&rt, scene.links_to(nine, 4), "9 links to 3");
    check(&rt, scene.links_to(three, 0), "3 links to none");
    check(&rt, scene.takes(nine), "9 comes first");
    check(&rt, scene.takes(three), "3 comes next");
    check(&rt, scene.links_to(nine, 0), "9 is cleared");
}
