//! What is told of a machine, as numbers.
ghost use Rattle.std.specs.Prelude.{◌≡◌, Some};
ghost use Rattle.xv_page.specs.Told.{word_told, alive, with_call, gone, number_of};
ghost use Rattle.xv_page.specs.Told.{process_told, no_descriptor, end_kind, on_target, descriptor_told};
ghost use Rattle.xv_page.specs.Told.{pipe_told, rights_told, use_of, use_told};

use xk_base::{Perm, Pid};
use xv_machine::{Call, Descriptor, End, FrameUse, PipeCounts, ProcessState, Target};

/// A number, or none.
#[repr(C)]
#[derive(Clone, Copy)]
pub struct Word {
    /// 1 where there is one.
    pub there: u32,
    pub value: u64,
}

/// How a machine stands.
#[repr(C)]
#[derive(Clone, Copy)]
pub struct Facts {
    /// How many events it has got since it was booted.
    pub at: u64,
    /// Frames of RAM that are free.
    pub free: u32,
    /// The pid of the current process, or 0.
    pub current: u32,
    /// 1 once process 1 is gone.
    pub halted: u32,
    /// The status with which it went.
    pub status: i32,
    /// Ticks since boot, modulo 2^32.
    pub clock: u32,
    /// How many notes the trace keeps.
    pub notes: u64,
}

/// What a process is.
#[repr(C)]
#[derive(Clone, Copy)]
pub struct ProcessTold {
    /// 0 no process has this pid, 1 it lives, 2 it has ended, and its parent has not waited for it yet.
    pub kind: u32,
    /// The process that may wait for it; 0: none.
    pub parent: u32,
    /// 1 where its kill mark is set.
    pub marked: u32,
    /// 1 where it sleeps.
    pub asleep: u32,
    /// 1 where it is in a kernel call.
    pub in_call: u32,
    /// The call's number.
    pub number: i32,
    /// The call's arguments.
    pub a0: u64,
    pub a1: u64,
    pub a2: u64,
    /// How many bytes the call has moved.
    pub moved: u32,
    /// The clock when the call began.
    pub since: u32,
    /// The status with which it ended.
    pub status: i32,
}

/// What a descriptor names.
#[repr(C)]
#[derive(Clone, Copy)]
pub struct DescriptorTold {
    /// 0 nothing, 1 the console, 2 a program's file, 3 the reading end of a pipe, 4 the writing end.
    pub kind: u32,
    /// 1 where it may be read.
    pub read: u32,
    /// 1 where it may be written.
    pub write: u32,
    /// The frame of the pipe.
    pub frame: u32,
    /// The program, by its place in the list that the machine was booted with.
    pub program: u64,
    /// The offset of the next byte.
    pub offset: u64,
}

/// How a pipe stands.
#[repr(C)]
#[derive(Clone, Copy)]
pub struct PipeTold {
    /// 1 where the frame keeps a pipe.
    pub there: u32,
    /// How many descriptors are on its reading end.
    pub readers: u64,
    /// How many descriptors are on its writing end.
    pub writers: u64,
    /// How many bytes are in it.
    pub bytes: u64,
}

/// A number, if there is one.
pub(crate) fn word_told(value: Option<u64>) -> Word
    ensures { result ≡ word_told value }
{
    match value {
        None => Word { there: 0, value: 0 },
        Some(value) => Word { there: 1, value },
    }
}

/// A process's pid, if there is one, or 0.
pub(crate) fn number_of(pid: Option<Pid>) -> u32
    ensures { result ≡ number_of pid }
{
    match pid {
        None => 0,
        Some(pid) => pid.number(),
    }
}

/// A process in a call, or in none.
fn alive(parent: Option<Pid>, marked: bool, call: Option<Call>, asleep: bool) -> ProcessTold
    ensures { result ≡ with_call (alive parent marked asleep) call }
{
    let told = ProcessTold {
        kind: 1,
        parent: number_of(parent),
        marked: u32::from(marked),
        asleep: u32::from(asleep),
        in_call: 0,
        number: 0,
        a0: 0,
        a1: 0,
        a2: 0,
        moved: 0,
        since: 0,
        status: 0,
    };
    match call {
        None => told,
        Some(call) => ProcessTold {
            in_call: 1,
            number: call.number,
            a0: call.a0,
            a1: call.a1,
            a2: call.a2,
            moved: call.moved,
            since: call.clock,
            ..told
        },
    }
}

/// One that has ended, or none.
fn gone(kind: u32, parent: u32, status: i32) -> ProcessTold
    ensures { result ≡ gone kind parent status }
{
    ProcessTold {
        kind,
        parent,
        marked: 0,
        asleep: 0,
        in_call: 0,
        number: 0,
        a0: 0,
        a1: 0,
        a2: 0,
        moved: 0,
        since: 0,
        status,
    }
}

/// What a process is.
pub(crate) fn process_told(state: Option<ProcessState>) -> ProcessTold
    ensures { result ≡ process_told state }
{
    match state {
        None => gone(0, 0, 0),
        Some(
            ProcessState::Live {
                parent,
                marked,
                call,
                asleep,
            },
        ) => alive(parent, marked, call, asleep),
        Some(ProcessState::Zombie { parent, status }) => gone(2, number_of(parent), status),
    }
}

/// No descriptor.
fn no_descriptor() -> DescriptorTold
    ensures { result ≡ no_descriptor }
{
    DescriptorTold {
        kind: 0,
        read: 0,
        write: 0,
        frame: 0,
        program: 0,
        offset: 0,
    }
}

/// The kind of an end of a pipe.
fn end_kind(end: End) -> u32
    ensures { result ≡ end_kind end }
{
    match end {
        End::Reading => 3,
        End::Writing => 4,
    }
}

/// What an open file stands for.
fn on_target(told: DescriptorTold, target: &Target) -> DescriptorTold
    ensures { result ≡ on_target told target.now }
{
    match target {
        Target::Console => DescriptorTold { kind: 1, ..told },
        Target::Program { program, offset } => DescriptorTold {
            kind: 2,
            program: *program as u64,
            offset: *offset,
            ..told
        },
        Target::Pipe { frame, end } => DescriptorTold {
            kind: end_kind(*end),
            frame: frame.number(),
            ..told
        },
    }
}

/// What a descriptor in use names.
fn opened(descriptor: &Descriptor) -> DescriptorTold
    ensures { result ≡ descriptor_told (Some descriptor.now) }
{
    let file = &descriptor.open_file;
    let told = DescriptorTold {
        read: u32::from(file.read),
        write: u32::from(file.write),
        ..no_descriptor()
    };
    on_target(told, &file.target)
}

/// What a descriptor names.
pub(crate) fn descriptor_told(descriptor: Option<Descriptor>) -> DescriptorTold
    ensures { result ≡ descriptor_told descriptor }
{
    match descriptor {
        None => no_descriptor(),
        Some(descriptor) => opened(&descriptor),
    }
}

/// How a pipe stands.
pub(crate) fn pipe_told(counts: Option<PipeCounts>) -> PipeTold
    ensures { result ≡ pipe_told counts }
{
    match counts {
        None => PipeTold {
            there: 0,
            readers: 0,
            writers: 0,
            bytes: 0,
        },
        Some(counts) => PipeTold {
            there: 1,
            readers: counts.readers,
            writers: counts.writers,
            bytes: counts.bytes as u64,
        },
    }
}

/// What a page allows, as the lowest five bits of its entry (RISC-V Privileged ISA, "Sv39: Virtual Address
/// Translation"): V, that it is there, then R, W, X and U.
pub(crate) fn rights_told(perm: Option<Perm>) -> u32
    ensures { result ≡ rights_told perm }
{
    match perm {
        None => 0,
        Some(perm) => {
            let rights = perm.rights();
            1 + 2 * u32::from(rights.read)
                + 4 * u32::from(rights.write)
                + 8 * u32::from(rights.execute)
                + 16 * u32::from(rights.user)
        }
    }
}

/// What a frame of RAM is used for.
#[repr(C)]
#[derive(Clone, Copy)]
pub struct UseTold {
    /// 0 there is no such frame, 1 it is free, 2 a trapframe, 3 a page table's root, 4 a table of the middle level, 5 a
    /// table of the last level, 6 a page of a process, 7 a pipe.
    pub kind: u32,
    /// The process, or 0.
    pub pid: u32,
    /// The page's number, or the table's place.
    pub place: u32,
}

fn use_of(kind: u32, pid: u32, place: u32) -> UseTold
    ensures { result ≡ use_of kind pid place }
{
    UseTold { kind, pid, place }
}

/// What a frame of RAM is used for.
fn used_as(used: &FrameUse) -> UseTold
    ensures { result ≡ use_told (Some used.now) }
{
    match used {
        FrameUse::Free => use_of(1, 0, 0),
        FrameUse::Trapframe(pid) => use_of(2, pid.number(), 0),
        FrameUse::Root(pid) => use_of(3, pid.number(), 0),
        FrameUse::Upper { pid, place } => use_of(4, pid.number(), *place),
        FrameUse::Lower { pid, place } => use_of(5, pid.number(), *place),
        FrameUse::Page { pid, vpn } => use_of(6, pid.number(), vpn.number()),
        FrameUse::Pipe => use_of(7, 0, 0),
    }
}

/// What a frame is used for, if there is such a frame.
pub(crate) fn use_told(used: Option<FrameUse>) -> UseTold
    ensures { result ≡ use_told used }
{
    match used {
        None => use_of(0, 0, 0),
        Some(used) => used_as(&used),
    }
}
