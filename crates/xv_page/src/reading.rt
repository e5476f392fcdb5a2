//! What is told of a session. No call here changes it.
//!
//! Each call answers whether there is a session (`NotBooted`), and whether the numbers that it was given name something
//! (`Unknown`): if not, nothing is told.
ghost use Rattle.std.specs.Prelude.{◌≡◌, ◌<◌, slice_get};
ghost use Rattle.console_core.specs.Lists.{list_of};
ghost use Rattle.kcall_core.specs.ObservedPipes.{pipe_counts_of, pipe_byte_of};
ghost use Rattle.kcall_core.specs.Observers.{process_at, registers_of, byte_at, size_of, rights_at, descriptor_of};
ghost use Rattle.xv_session.specs.Looking.{next_step_of};
ghost use Rattle.xv_machine.specs.FrameUses.{page_frame_at};
ghost use Rattle.xv_session.specs.Names.{place_in};
ghost use Rattle.xv_page.specs.Booting.{held};
ghost use Rattle.xv_page.specs.Named.{pid_named, page_named, descriptor_named, frame_named};
ghost use Rattle.xv_page.specs.Named.{register_named, slot_named, list_named, both};
ghost use Rattle.xv_page.specs.Told.{facts_of, word_told, process_told, descriptor_told};
ghost use Rattle.xv_page.specs.Told.{pipe_told, rights_told, register_in, address_in};
ghost use Rattle.xv_page.specs.Observed.{IsSlotTold, IsUseTold, FactsTold, NoteTold, Reads};

use crate::answers::Answer;
use crate::named::{
    descriptor_named, frame_named, list_named, page_named, pid_named, register_named, slot_named,
};
use crate::outcomes::{Told, told_of_note};
use crate::views::{
    DescriptorTold, Facts, PipeTold, ProcessTold, UseTold, Word, descriptor_told, number_of,
    pipe_told, process_told, rights_told, use_told, word_told,
};
use xk_base::{Fd, Frame, Pid, Reg, Vpn};
use xv_machine::{ConsoleList, Machine};
use xv_session::{Session, next_step};

/// How the machine stands, and how many events it has got.
fn facts_of(session: &Session) -> Facts
    ensures { result ≡ facts_of session.now }
{
    let machine = session.machine();
    let halted = machine.halted();
    Facts {
        at: session.at(),
        free: machine.free_frames(),
        current: number_of(machine.current()),
        halted: u32::from(halted.is_some()),
        status: halted.unwrap_or(0),
        clock: machine.clock(),
        notes: machine.trace_len() as u64,
    }
}

/// Tells how the machine stands.
#[inline(never)]
pub fn xv_page_facts(session: &Option<Box<Session>>, facts: &mut Facts) -> Answer
    ensures { FactsTold (held session.now) result facts.old facts.new }
{
    let Some(session) = session else {
        return Answer::NotBooted;
    };
    *facts = facts_of(session);
    Answer::Done
}

fn slot_of(machine: &Machine, slot: usize) -> Word
    ensures { IsSlotTold machine.now slot result }
{
    match machine.pid_in(slot) {
        None => word_told(None),
        Some(pid) => word_told(Some(u64::from(pid.number()))),
    }
}

/// Tells the pid of the process in a slot of the process table, live or not.
#[inline(never)]
pub fn xv_page_slot(session: &Option<Box<Session>>, slot: u32, told: &mut Word) -> Answer
    ensures { Reads (slot_named slot) (λ s slot told. IsSlotTold s.machine slot told) (held session.now)
        result told.old told.new }
{
    let Some(session) = session else {
        return Answer::NotBooted;
    };
    let Some(slot) = slot_named(slot) else {
        return Answer::Unknown;
    };
    *told = slot_of(session.machine(), slot);
    Answer::Done
}

/// Tells what the process of this pid is.
#[inline(never)]
pub fn xv_page_process(session: &Option<Box<Session>>, pid: u32, told: &mut ProcessTold) -> Answer
    ensures { Reads (pid_named pid) (λ s pid told. told ≡ process_told (process_at s.machine.world pid))
        (held session.now) result told.old told.new }
{
    let Some(session) = session else {
        return Answer::NotBooted;
    };
    let Some(pid) = pid_named(pid) else {
        return Answer::Unknown;
    };
    *told = process_told(session.machine().process(pid));
    Answer::Done
}

/// Tells how many bytes the memory of a live process has, from address 0 on.
#[inline(never)]
pub fn xv_page_size(session: &Option<Box<Session>>, pid: u32, told: &mut Word) -> Answer
    ensures { Reads (pid_named pid) (λ s pid told. told ≡ word_told (size_of s.machine.world.state pid))
        (held session.now) result told.old told.new }
{
    let Some(session) = session else {
        return Answer::NotBooted;
    };
    let Some(pid) = pid_named(pid) else {
        return Answer::Unknown;
    };
    *told = word_told(session.machine().size(pid));
    Answer::Done
}

fn register_of(machine: &Machine, pid: Pid, register: u8) -> Word
    requires { register < 32 }
    ensures { result ≡ word_told (register_in register (registers_of machine.now.world.state pid)) }
{
    let Some(regs) = machine.registers(pid) else {
        return word_told(None);
    };
    if register == 0 {
        return word_told(Some(regs.pc()));
    }
    word_told(Some(regs.read(Reg::new(register))))
}

/// Tells a register of a live process: 0 is its pc, and 1 to 31 are x1 to x31.
#[inline(never)]
pub fn xv_page_register(
    session: &Option<Box<Session>>,
    pid: u32,
    register: u32,
    told: &mut Word,
) -> Answer
    ensures { Reads (both (pid_named pid) (register_named register))
        (λ s it told. told ≡ word_told (register_in it.1 (registers_of s.machine.world.state it.0)))
        (held session.now) result told.old told.new }
{
    let Some(session) = session else {
        return Answer::NotBooted;
    };
    let Some(pid) = pid_named(pid) else {
        return Answer::Unknown;
    };
    let Some(register) = register_named(register) else {
        return Answer::Unknown;
    };
    *told = register_of(session.machine(), pid, register);
    Answer::Done
}

fn byte_of(machine: &Machine, pid: Pid, address: u64) -> Word
    ensures { result ≡ word_told (byte_at machine.now.world.state pid address) }
{
    match machine.peek(pid, address) {
        None => word_told(None),
        Some(byte) => word_told(Some(u64::from(byte))),
    }
}

/// Tells the byte at an address of a live process, whatever its page allows.
#[inline(never)]
pub fn xv_page_byte(
    session: &Option<Box<Session>>,
    pid: u32,
    address: u64,
    told: &mut Word,
) -> Answer
    ensures { Reads (pid_named pid)
        (λ s pid told. told ≡ word_told (byte_at s.machine.world.state pid address)) (held session.now)
        result told.old told.new }
{
    let Some(session) = session else {
        return Answer::NotBooted;
    };
    let Some(pid) = pid_named(pid) else {
        return Answer::Unknown;
    };
    *told = byte_of(session.machine(), pid, address);
    Answer::Done
}

/// Tells what a page of a live process allows, as the lowest five bits of its entry (RISC-V Privileged ISA, "Sv39:
/// Virtual Address Translation"): V, that it is there, then R, W, X and U. 0: it isn't there.
#[inline(never)]
pub fn xv_page_rights(session: &Option<Box<Session>>, pid: u32, page: u32, told: &mut u32) -> Answer
    ensures { Reads (both (pid_named pid) (page_named page))
        (λ s it told. told ≡ rights_told (rights_at s.machine.world.state it.0 it.1)) (held session.now)
        result told.old told.new }
{
    let Some(session) = session else {
        return Answer::NotBooted;
    };
    let Some(pid) = pid_named(pid) else {
        return Answer::Unknown;
    };
    let Some(page) = page_named(page) else {
        return Answer::Unknown;
    };
    *told = rights_told(session.machine().perm(pid, page));
    Answer::Done
}

/// Tells what a descriptor of a live process names.
#[inline(never)]
pub fn xv_page_descriptor(
    session: &Option<Box<Session>>,
    pid: u32,
    fd: u32,
    told: &mut DescriptorTold,
) -> Answer
    ensures { Reads (both (pid_named pid) (descriptor_named fd))
        (λ s it told. told ≡ descriptor_told (descriptor_of s.machine.world.state it.0 it.1))
        (held session.now) result told.old told.new }
{
    let Some(session) = session else {
        return Answer::NotBooted;
    };
    let Some(pid) = pid_named(pid) else {
        return Answer::Unknown;
    };
    let Some(fd) = descriptor_named(fd) else {
        return Answer::Unknown;
    };
    *told = descriptor_told(session.machine().descriptor(pid, fd));
    Answer::Done
}

/// Tells how the pipe in a frame stands.
#[inline(never)]
pub fn xv_page_pipe(session: &Option<Box<Session>>, frame: u32, told: &mut PipeTold) -> Answer
    ensures { Reads (frame_named frame)
        (λ s frame told. told ≡ pipe_told (pipe_counts_of s.machine.world.state frame))
        (held session.now) result told.old told.new }
{
    let Some(session) = session else {
        return Answer::NotBooted;
    };
    let Some(frame) = frame_named(frame) else {
        return Answer::Unknown;
    };
    *told = pipe_told(session.machine().pipe_counts(frame));
    Answer::Done
}

fn pipe_byte_of(machine: &Machine, frame: Frame, place: usize) -> Word
    ensures { result ≡ word_told (pipe_byte_of machine.now.world.state frame place) }
{
    match machine.pipe_byte(frame, place) {
        None => word_told(None),
        Some(byte) => word_told(Some(u64::from(byte))),
    }
}

/// Tells the byte at a place of the pipe in a frame: 0 is the oldest.
#[inline(never)]
pub fn xv_page_pipe_byte(
    session: &Option<Box<Session>>,
    frame: u32,
    place: usize,
    told: &mut Word,
) -> Answer
    ensures { Reads (frame_named frame)
        (λ s frame told. told ≡ word_told (pipe_byte_of s.machine.world.state frame place))
        (held session.now) result told.old told.new }
{
    let Some(session) = session else {
        return Answer::NotBooted;
    };
    let Some(frame) = frame_named(frame) else {
        return Answer::Unknown;
    };
    *told = pipe_byte_of(session.machine(), frame, place);
    Answer::Done
}

fn console_byte_of(machine: &Machine, list: ConsoleList, place: usize) -> Word
    ensures { result ≡ word_told (slice_get (list_of list machine.now.world.state.console) place) }
{
    match machine.console_byte(list, place) {
        None => word_told(None),
        Some(byte) => word_told(Some(u64::from(byte))),
    }
}

/// Tells the byte at a place of one of the console's lists, of which 0 is the oldest: of list 0 what was typed and may
/// be read, of 1 what may still be taken back, of 2 what waits to be sent.
#[inline(never)]
pub fn xv_page_console(
    session: &Option<Box<Session>>,
    list: u32,
    place: usize,
    told: &mut Word,
) -> Answer
    ensures { Reads (list_named list)
        (λ s list told. told ≡ word_told (slice_get (list_of list s.machine.world.state.console) place))
        (held session.now) result told.old told.new }
{
    let Some(session) = session else {
        return Answer::NotBooted;
    };
    let Some(list) = list_named(list) else {
        return Answer::Unknown;
    };
    *told = console_byte_of(session.machine(), list, place);
    Answer::Done
}

fn address_of(machine: &Machine, pid: Pid) -> Word
    ensures { result ≡ word_told (address_in (next_step_of machine.now.world.state pid)) }
{
    match next_step(machine, pid) {
        None => word_told(None),
        Some(step) => word_told(step.address),
    }
}

/// Tells the address that the next instruction of a live process loads from or stores to.
#[inline(never)]
pub fn xv_page_address(session: &Option<Box<Session>>, pid: u32, told: &mut Word) -> Answer
    ensures { Reads (pid_named pid)
        (λ s pid told. told ≡ word_told (address_in (next_step_of s.machine.world.state pid)))
        (held session.now) result told.old told.new }
{
    let Some(session) = session else {
        return Answer::NotBooted;
    };
    let Some(pid) = pid_named(pid) else {
        return Answer::Unknown;
    };
    *told = address_of(session.machine(), pid);
    Answer::Done
}

/// Tells a note of the trace, by its place: 0 is the oldest. `Unknown`: there is none at this place.
#[inline(never)]
pub fn xv_page_note(session: &Option<Box<Session>>, place: usize, told: &mut Told) -> Answer
    ensures { NoteTold place told.old told.new result (held session.now) }
{
    let Some(session) = session else {
        return Answer::NotBooted;
    };
    let Some(note) = session.machine().trace(place) else {
        return Answer::Unknown;
    };
    *told = told_of_note(&note);
    Answer::Done
}

fn program_of(session: &Session, pid: Pid) -> Word
    ensures { result ≡ word_told (place_in pid session.now.names) }
{
    match session.program_of(pid) {
        None => word_told(None),
        Some(place) => word_told(Some(place as u64)),
    }
}

/// Tells which program a live process runs, by its place in the list that the machine was booted with.
#[inline(never)]
pub fn xv_page_program(session: &Option<Box<Session>>, pid: u32, told: &mut Word) -> Answer
    ensures { Reads (pid_named pid) (λ s pid told. told ≡ word_told (place_in pid s.names))
        (held session.now) result told.old told.new }
{
    let Some(session) = session else {
        return Answer::NotBooted;
    };
    let Some(pid) = pid_named(pid) else {
        return Answer::Unknown;
    };
    *told = program_of(session, pid);
    Answer::Done
}

fn frame_of(machine: &Machine, pid: Pid, page: Vpn) -> Word
    ensures { result ≡ word_told (page_frame_at machine.now.frames pid page) }
{
    match machine.page_frame(pid, page) {
        None => word_told(None),
        Some(frame) => word_told(Some(u64::from(frame.number()))),
    }
}

/// Tells the frame of a page of a live process.
#[inline(never)]
pub fn xv_page_frame(session: &Option<Box<Session>>, pid: u32, page: u32, told: &mut Word) -> Answer
    ensures { Reads (both (pid_named pid) (page_named page))
        (λ s it told. told ≡ word_told (page_frame_at s.machine.frames it.0 it.1)) (held session.now)
        result told.old told.new }
{
    let Some(session) = session else {
        return Answer::NotBooted;
    };
    let Some(pid) = pid_named(pid) else {
        return Answer::Unknown;
    };
    let Some(page) = page_named(page) else {
        return Answer::Unknown;
    };
    *told = frame_of(session.machine(), pid, page);
    Answer::Done
}

fn use_of(machine: &Machine, frame: Frame) -> UseTold
    ensures { IsUseTold machine.now frame result }
{
    use_told(machine.frame_use(frame))
}

/// Tells what a frame of RAM is used for.
#[inline(never)]
pub fn xv_page_use(session: &Option<Box<Session>>, frame: u32, told: &mut UseTold) -> Answer
    ensures { Reads (frame_named frame) (λ s frame told. IsUseTold s.machine frame told)
        (held session.now) result told.old told.new }
{
    let Some(session) = session else {
        return Answer::NotBooted;
    };
    let Some(frame) = frame_named(frame) else {
        return Answer::Unknown;
    };
    *told = use_of(session.machine(), frame);
    Answer::Done
}
