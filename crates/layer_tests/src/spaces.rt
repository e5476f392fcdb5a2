//! A process's memory, from its first frame to its last.
ghost use Rattle.sv39_core.specs.Tree.{IsTree};

use super::checking::check;
use addr_space::Space;
use frame_list::Pool;
use phys_ram::Ram;
use std::alloc::Global;
use std::marker::Model;
use user_copy::copy_in;
use xk_base::limits::SIZE_LIMIT;
use xk_base::{Frame, NoFrames, Perm, Rights, Vpn};

/// A space, the RAM that it lies in, and the free frames. What a space promises stays out of the proofs of the tests.
#[derive(Drop)]
pub(super) struct Scene {
    ram: Ram,
    pool: Pool,
    space: Space,
}

impl Model for Scene {
    ghost use Rattle.addr_space.specs.Space.{Belongs};

    ghost Value = { Unit {0} };

    ghost view = { λ _. tt };

    ghost invariant = { λ scene. Belongs scene.pool scene.ram scene.space };
}

impl Scene {
    /// A space without a page, in a RAM of 128 frames, if there is memory for it.
    pub(super) fn new(alloc: Global) -> Option<Scene> {
        let mut ram = Ram::new(alloc, 128).ok()?;
        let mut pool = Pool::new(alloc, &mut ram).ok()?;
        let space = Space::empty(&mut pool, &mut ram).ok()?;
        Some(Scene { ram, pool, space })
    }

    /// How many frames a growth takes, if it is one.
    fn price_to(&self, size: u64) -> Option<u32> {
        if size < self.space.size() || size > SIZE_LIMIT {
            return None;
        }
        Some(self.space.price_to(&self.ram, size))
    }

    /// Grows by pages that may be read, written and executed: whether it can.
    pub(super) fn grow(&mut self, size: u64) -> bool {
        if size < self.space.size() || size > SIZE_LIMIT {
            return false;
        }
        let perm = Perm::new(Rights {
            read: true,
            write: true,
            execute: true,
            user: true,
        });
        match self.space.grow(&mut self.pool, &mut self.ram, size, perm) {
            Ok(()) => true,
            Err(NoFrames) => false,
        }
    }

    /// Writes over the first bytes of page 1: whether it is there, and has room.
    pub(super) fn write(&mut self, bytes: &[u8]) -> bool {
        let vpn = Vpn::new(1);
        let Some(_) = self.space.perm(&self.ram, vpn) else {
            return false;
        };
        if bytes.len() > 4096 {
            return false;
        }
        self.space.write_page(&mut self.ram, vpn, 0, bytes);
        true
    }

    /// Reads four bytes over four nines: whether it can, and what is there then.
    fn read(&self, address: u64) -> (bool, [u8; 4]) {
        let mut bytes = [9; 4];
        let is_read = copy_in(&self.space, &self.ram, address, &mut bytes).is_ok();
        (is_read, bytes)
    }

    /// The RAM, and the root of its tables.
    pub(super) fn tables(self) -> (Ram, Frame)
        ensures { IsTree result.0 result.1 }
    {
        let Scene { ram, space, .. } = self;
        let root = space.root();
        (ram, root)
    }

    /// Gives back all frames: how many are free then.
    fn given_back(self) -> u32 {
        let Scene {
            mut ram,
            mut pool,
            space,
        } = self;
        space.drop_all(&mut pool, &mut ram);
        pool.free()
    }
}

#[test]
fn a_space_grows_is_written_to_and_given_back(rt: HostRuntime) {
    let mut scene = Scene::new(rt.alloc()).expect(&rt, "memory");
    check(
        &rt,
        scene.price_to(12_288) == Some(5),
        "the price of three pages",
    );
    check(&rt, scene.grow(12_288), "three pages fit");
    check(&rt, scene.write(&[7, 8, 9]), "page 1 is there");
    check(
        &rt,
        scene.read(0x0FFE) == (true, [0, 0, 7, 8]),
        "bytes of two pages",
    );
    check(
        &rt,
        scene.read(0x2FFE) == (false, [9, 9, 9, 9]),
        "bytes behind the end",
    );
    check(&rt, scene.given_back() == 128, "all frames are free");
}
