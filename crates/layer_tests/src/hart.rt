//! A hart over the tables of a space: its trapframe, its `satp`, and the translations that it keeps.
ghost use Rattle.std.specs.Prelude.{◌≡◌, ◌<◌, length, Some};
ghost use Rattle.sv39_core.specs.Tree.{IsTree};
ghost use Rattle.hart_core.specs.Translations.{Fits};

use super::checking::check;
use super::spaces;
use hart_core::Hart;
use phys_ram::Ram;
use rv64i_core::Stop;
use std::process::Abort;
use xk_base::{Frame, Reg, Vpn};

/// How much memory 68 pages have.
const SIZE: u64 = 68 * 4096;

/// The first address of page 1.
const TEXT: u64 = 4096;

/// A hart, and the RAM in which its tables lie.
#[derive(Drop)]
struct Scene {
    hart: Hart,
    ram: Ram,
    root: Frame,
    ghost used: { hart.root ≡ Some root },
    ghost tree: { IsTree ram root },
    ghost fits: { Fits ram root hart.cache },
}

impl Scene {
    /// A hart that uses the tables below a root.
    fn over(ram: Ram, root: Frame) -> Scene
        requires { IsTree ram root }
    {
        let mut hart = Hart::new();
        hart.switch(root);
        Scene { hart, ram, root }
    }

    /// Pages 0 to 67, of which page 1 begins with this word, and a hart that uses their tables.
    fn new<R: Abort + AllocGlobal>(rt: &R, word: u32) -> Scene {
        let mut space = spaces::Scene::new(rt.alloc()).expect(rt, "memory");
        check(rt, space.grow(SIZE), "the pages fit");
        check(rt, space.write(&word.to_le_bytes()), "page 1 is there");
        let (ram, root) = space.tables();
        Scene::over(ram, root)
    }

    /// Makes the instruction at the begin of page 1, with a number in a0: whether it is done.
    #[tactic(auto, using(hart_core::proofs::Caches::fits_hart, hart_core::proofs::Caches::fits_root))]
    fn steps_with(&mut self, a0: u64) -> bool {
        let regs = self.hart.regs_mut();
        regs.set_pc(TEXT);
        regs.write(Reg::new(10), a0);
        self.hart.step(&mut self.ram) == Stop::Next
    }

    fn keeps(&self, page: Vpn) -> bool {
        self.hart.cached(page).is_some()
    }

    fn forget(&mut self, page: Vpn) {
        self.hart.forget(page);
    }
}

#[test]
fn a_page_that_was_loaded_from_is_kept_until_another_takes_its_place(rt: HostRuntime) {
    // ld a1, 0(a0)
    let mut scene = Scene::new(&rt, 0x0005_3583);
    let (third, other) = (Vpn::new(3), Vpn::new(67));
    check(&rt, !scene.keeps(third), "page 3 isn't kept yet");
    check(&rt, scene.steps_with(0x3000), "a load of page 3");
    check(&rt, scene.keeps(third), "page 3 is kept");
    check(&rt, scene.steps_with(0x43000), "a load of page 67");
    check(&rt, scene.keeps(other), "page 67 is kept");
    check(&rt, !scene.keeps(third), "page 3 is no longer kept");
    scene.forget(other);
    check(&rt, !scene.keeps(other), "page 67 is forgotten");
    check(&rt, scene.keeps(Vpn::new(1)), "page 1 is kept");
}

#[test]
fn satp_names_mode_8_and_the_page_of_the_root(rt: HostRuntime) {
    let mut hart = Hart::new();
    check(&rt, hart.satp() == 0, "no root");
    hart.switch(Frame::new(1));
    check(&rt, hart.satp() == 0x8000_0000_0008_0001, "frame 1");
}

/// Whether a trapframe has the pc at 0 and x5 at 40, and gives them back.
fn is_saved(ram: &mut Ram) -> bool
    requires { 3 < length ram.old }
{
    let trapframe = Frame::new(3);
    let mut hart = Hart::new();
    let regs = hart.regs_mut();
    regs.set_pc(0x100);
    regs.write(Reg::new(5), 7);
    hart.save(ram, trapframe);
    let bytes = ram.frame(trapframe);
    let is_there = bytes[..8] == [0, 1, 0, 0, 0, 0, 0, 0]
        && bytes[40..48] == [7, 0, 0, 0, 0, 0, 0, 0];
    let mut other = Hart::new();
    other.restore(ram, trapframe);
    is_there && other.regs() == hart.regs()
}

#[test]
fn a_trapframe_holds_the_pc_first_and_then_the_registers(rt: HostRuntime) {
    let mut ram = Ram::new(rt.alloc(), 16).expect(&rt, "memory");
    check(&rt, is_saved(&mut ram), "the trapframe");
}
