//! Numbers of the host as names of the machine's parts. A number that names nothing is none, and never a default.
ghost use Rattle.std.specs.Prelude.{◌≡◌, ◌<◌, IfSome, option_map};
ghost use Rattle.xv_machine.specs.Events.{event_of};
ghost use Rattle.xv_page.specs.Named.{pid_named, page_named, descriptor_named, frame_named};
ghost use Rattle.xv_page.specs.Named.{register_named, slot_named, list_named, key_named};
ghost use Rattle.xv_page.specs.Named.{event_named, call_named, cause_named, condition_named};

use xk_base::limits::{FRAMES_MAX, NOFILE, NPROC, PID_MAX, VPN_END};
use xk_base::{Cause, Fd, Frame, Pid, Vpn};
use xv_machine::{ConsoleList, Event};
use xv_session::Condition;

/// The process of this number, if there can be one.
pub(crate) fn pid_named(number: u32) -> Option<Pid>
    ensures { result ≡ pid_named number }
{
    if (number == 0) | (number > PID_MAX) {
        return None;
    }
    Some(Pid::new(number))
}

/// The page of this number, if there can be one.
pub(crate) fn page_named(number: u32) -> Option<Vpn>
    ensures { result ≡ page_named number }
{
    if number < VPN_END {
        Some(Vpn::new(number))
    } else {
        None
    }
}

/// The descriptor of this number, if there can be one.
pub(crate) fn descriptor_named(number: u32) -> Option<Fd>
    ensures { result ≡ descriptor_named number }
{
    if number < NOFILE as u32 {
        Some(Fd::new(number as u8))
    } else {
        None
    }
}

/// The frame of this number, if there can be one.
pub(crate) fn frame_named(number: u32) -> Option<Frame>
    ensures { result ≡ frame_named number }
{
    if number < FRAMES_MAX {
        Some(Frame::new(number))
    } else {
        None
    }
}

/// The register of this number, 0 for the pc, if there is one.
pub(crate) fn register_named(number: u32) -> Option<u8>
    ensures named { result ≡ register_named number }
    ensures range { IfSome result (λ register. register < 32) }
{
    if number < 32 {
        Some(number as u8)
    } else {
        None
    }
}

/// The slot of the process table of this number, if there is one.
pub(crate) fn slot_named(number: u32) -> Option<usize>
    ensures { result ≡ slot_named number }
{
    if (number as usize) < NPROC {
        Some(number as usize)
    } else {
        None
    }
}

/// The list of the console that the host means: 0 what was typed and may be read, 1 what may still be taken back, 2
/// what waits to be sent.
pub(crate) fn list_named(number: u32) -> Option<ConsoleList>
    ensures { result ≡ list_named number }
{
    match number {
        0 => Some(ConsoleList::Committed),
        1 => Some(ConsoleList::Uncommitted),
        2 => Some(ConsoleList::ToSend),
        _ => None,
    }
}

/// The key of this byte, if the number is a byte.
fn key_named(number: u32) -> Option<Event>
    ensures { option_map event_of result ≡ key_named number }
{
    if number < 256 {
        Some(Event::Key(number as u8))
    } else {
        None
    }
}

/// The event that the host means: 0 Run, 1 Tick, 2 the key of this byte, 3 Send.
pub(crate) fn event_named(kind: u32, byte: u32) -> Option<Event>
    ensures { option_map event_of result ≡ event_named kind byte }
{
    match kind {
        0 => Some(Event::Run),
        1 => Some(Event::Tick),
        2 => key_named(byte),
        3 => Some(Event::Send),
        _ => None,
    }
}

/// The greatest number that a kernel call can have: the call's number is an `int`.
const CALL_MAX: u64 = 2_147_483_647;

/// The kernel call of this number, if there can be one.
fn call_named(number: u64) -> Option<Condition>
    ensures { result ≡ call_named number }
{
    if number > CALL_MAX {
        return None;
    }
    Some(Condition::Call(number as i32))
}

/// What the host waits for: 0 a step of the process, 1 the call of this number, 2 the process at this address, 3 a
/// fault, 4 a store to this address, 5 an exit. 0 and 2 need a pid, and 1 a number that a call can have.
pub(crate) fn condition_named(kind: u32, pid: u32, number: u64) -> Option<Condition>
    ensures { result ≡ condition_named kind pid number }
{
    match kind {
        0 => Some(Condition::StepOf(pid_named(pid)?)),
        1 => call_named(number),
        2 => Some(Condition::At {
            pid: pid_named(pid)?,
            pc: number,
        }),
        3 => Some(Condition::Fault),
        4 => Some(Condition::StoreTo(number)),
        5 => Some(Condition::Exit),
        _ => None,
    }
}

/// The cause of a fault that has this number (RISC-V Privileged ISA, "scause"), if one has.
pub(crate) fn cause_named(code: u32) -> Option<Cause>
    ensures { result ≡ cause_named code }
{
    match code {
        0 => Some(Cause::TargetMisaligned),
        2 => Some(Cause::IllegalInstruction),
        3 => Some(Cause::Breakpoint),
        4 => Some(Cause::LoadMisaligned),
        6 => Some(Cause::StoreMisaligned),
        12 => Some(Cause::FetchPageFault),
        13 => Some(Cause::LoadPageFault),
        15 => Some(Cause::StorePageFault),
        _ => None,
    }
}
