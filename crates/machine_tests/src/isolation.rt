//! Pairs of machines: what a process meets is the same, whatever another process does beside it.
use super::scene::Scene;
use super::stories::isolation::{GONE_ON, STORIES};
use super::telling::{tell, told};
use std::process::Abort;
use xk_base::Pid;

// Process 2 has the same bytes in both machines from an address on, and the same addresses have a page.
fn same_bytes(rt: &impl Abort, here: &Scene, there: &Scene, from: u64, count: u64) {
    let second = Pid::new(2);
    for n in 0..count {
        let address = from.wrapping_add(n);
        assert!(rt; here.same_byte(there, second, address), "at {address}");
    }
}

// The same comes of each of 1,000 Runs in both machines. After each of them process 2 has the same registers, and
// the same bytes in the place where it stores: six Runs store 8 bytes, from 0x2010 on.
fn same_runs(rt: &impl Abort, here: &mut Scene, there: &mut Scene) {
    let second = Pid::new(2);
    for run in 0..1000u64 {
        assert!(rt; here.run() == there.run(), "run {run}");
        assert!(rt; here.same_registers(there, second), "run {run}");
        let stored = (run / 6 * 8).wrapping_add(0x2000);
        same_bytes(rt, here, there, stored, 32);
    }
}

// Process 2 goes on in the same way in the machines of these two stories.
fn goes_on_alike<R: Abort + AllocGlobal>(rt: &R, one: &str, other: &str) {
    let mut here = told(rt, STORIES, one);
    let mut there = told(rt, STORIES, other);
    same_runs(rt, &mut here, &mut there);
    // All of its pages lie below 0x3000.
    same_bytes(rt, &here, &there, 0, 0x3001);
    tell(rt, &mut there, other, GONE_ON);
}

#[test]
fn pages_and_a_pipe_of_another_change_nothing(rt: HostRuntime) {
    goes_on_alike(
        &rt,
        "process 3 has no pages and no pipe yet",
        "process 3 has pages and a pipe",
    );
}

#[test]
fn open_files_of_another_change_nothing(rt: HostRuntime) {
    goes_on_alike(
        &rt,
        "process 3 has no open files yet",
        "process 3 has open files",
    );
}
