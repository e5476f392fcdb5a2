//! What takes memory of the host is made once.
use super::checking::check;
use console_core::Console;
use file_table::Files;
use phys_ram::Ram;
use proc_table::Table;
use rv64i_core::{FlatMemory, UserMemory, Width};
use std::alloc::Global;
use std::process::Abort;
use xk_base::{BootError, Cause, Pid};

/// Whether a RAM of so many frames is refused as a bad configuration.
fn is_refused(alloc: Global, frames: u32) -> bool {
    matches!(Ram::new(alloc, frames), Err(BootError::BadConfig))
}

/// Whether there is a RAM of so many frames.
fn is_made(alloc: Global, frames: u32) -> bool {
    Ram::new(alloc, frames).is_ok()
}

/// Whether a flat memory of 12 bytes ends with its last byte.
fn has_12_bytes<R: Abort + AllocGlobal>(rt: &R) -> bool {
    let mut memory = FlatMemory::new(rt.alloc(), 12).expect(rt, "memory");
    let is_there = memory.store(8, Width::Word, 7) == Ok(())
        && memory.load(8, Width::Byte) == Ok(7);
    is_there && memory.load(12, Width::Byte) == Err(Cause::LoadPageFault)
}

/// Whether no file is open in a new table.
fn has_no_files<R: Abort + AllocGlobal>(rt: &R) -> bool {
    Files::new(rt.alloc()).expect(rt, "memory").in_use() == 0
}

/// Whether no key waits at a new console, and it takes 32 bytes.
fn has_no_keys<R: Abort + AllocGlobal>(rt: &R) -> bool {
    let console = Console::new(rt.alloc()).expect(rt, "memory");
    console.committed() == 0 && console.room() == 32
}

/// Whether a table that begins with a pid gives it to its first process, and has none for the next one.
fn ends_with<R: Abort + AllocGlobal>(rt: &R, pid: Pid) -> bool {
    let mut table = Table::new(rt.alloc(), pid).expect(rt, "memory");
    match table.spawn(None) {
        Ok((_, first)) => first == pid && table.spawn(Some(first)).is_err(),
        Err(_) => false,
    }
}

#[test]
fn what_takes_memory_of_the_host_is_made(rt: HostRuntime) {
    check(&rt, is_refused(rt.alloc(), 15), "15 frames");
    check(&rt, is_made(rt.alloc(), 16), "16 frames");
    check(&rt, has_12_bytes(&rt), "12 bytes");
    check(&rt, has_no_files(&rt), "files");
    check(&rt, has_no_keys(&rt), "keys");
    check(&rt, ends_with(&rt, Pid::new(2_147_483_647)), "the last pid");
}
