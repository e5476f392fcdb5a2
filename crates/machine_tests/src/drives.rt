//! A machine that is driven, and whose writer fails. What comes of other drives is told of the program that is made of
//! this call, in `checks/words`.
use super::scene::Scene;
use super::telling::{tell, told};
use std::io::{self, ErrorKind, Write};
use std::process::Abort;
use xv_machine::{Counted, DriveError, RunPlan, drive};

const NAME: &str = "a process opens the console, writes to it, and exits";

const HI: &str = "
story a process opens the console, writes to it, and exits
program init
    la a0, name; li a1, 1; li a7, 15; ecall
    la a1, text; li a2, 3; li a7, 16; ecall
    li a0, 0; li a7, 2; ecall
    .data; name: .asciz \"console\"; text: .asciz \"hi.\"
";

const NEXT_BYTE: &str = "
events
    sent 105
";

// A writer that takes all bytes, and can't be flushed.
#[derive(Drop)]
struct Unflushed;

impl Write for Unflushed {
    fn write(&mut self, bytes: &[u8]) -> io::Result<usize> {
        Ok(bytes.len())
    }

    fn flush(&mut self) -> io::Result<()> {
        Err(io::Error::from(ErrorKind::BrokenPipe))
    }
}

// Drives a machine for five rounds of four Runs: a turn and three instructions. A write fails.
fn fail_to_flush(rt: &impl Abort, scene: &mut Scene) {
    let plan = RunPlan {
        rounds: 5,
        quantum: 4,
    };
    let mut keys = Counted::new(b"".as_slice());
    let mut sink = Counted::new(Unflushed);
    let end = drive(&mut scene.machine, plan, &mut keys, &mut sink);
    assert!(rt; end == Err(DriveError::Write));
}

// The first byte is taken, and not flushed.
#[test]
fn a_failed_write_ends_a_drive_behind_its_event(rt: HostRuntime) {
    let mut scene = told(&rt, HI, NAME);
    fail_to_flush(&rt, &mut scene);
    tell(&rt, &mut scene, NAME, NEXT_BYTE);
}
