//! What a sleeper waits for, and who could wake it.
ghost use Rattle.std.specs.Prelude.{◌≡◌, ℕ, Some};
ghost use Rattle.file_table.specs.declared.open_file.End.TheVariants.{Reading, Writing};
ghost use Rattle.kernel_spec.specs.others.Quiet.{file_at};
ghost use Rattle.kernel_spec.specs.steps.Updates.{end_of};
ghost use Rattle.kernel_spec.specs.views.Words.{c_int};
ghost use Rattle.kernel_spec.specs.waking.Conditions.{target_at, read_waits_for, write_waits_for, sleep_waits_for};
ghost use Rattle.kernel_spec.specs.views.Processes.{Live};
ghost use Rattle.kernel_spec.specs.views.State.{live};
ghost use Rattle.xv_report.specs.Waits as meant;
ghost use Rattle.xv_report.specs.Waits.{told_on, wait_of, descriptor_in, descriptor_of_call, wait_in_this};

use kernel_calls::numbers::{READ, SLEEP, WAIT, WRITE};
use xk_base::limits::NOFILE;
use xk_base::{Fd, Frame, Pid};
use xv_machine::{Call, ChildState, End, Machine, ProcessState, Target};

/// What a process that sleeps waits for.
#[derive(Clone, Copy)]
pub enum Wait {
    /// The clock, up to this tick, modulo 2^32.
    Until { tick: u32 },
    /// The end of a child.
    Child,
    /// Bytes in the pipe of this frame, which it reads by this descriptor.
    PipeBytes { fd: Fd, pipe: Frame },
    /// Room in the pipe of this frame, which it writes by this descriptor.
    PipeRoom { fd: Fd, pipe: Frame },
    /// A line of keys from the console, which it reads by this descriptor.
    Keys { fd: Fd },
    /// Room among the bytes that the console has to send, which it writes by this descriptor.
    Sending { fd: Fd },
}

/// A C int: the low 32 bits of a register, read as signed.
fn c_int(register: u64) -> i32
    ensures { result ≡ c_int register }
{
    ((register % (1 << 32)) as u32).cast_signed()
}

/// The descriptor of this number.
fn descriptor_in(number: i32) -> Option<Fd>
    ensures { result ≡ descriptor_in number }
{
    if number < 0 || number as usize >= NOFILE {
        return None;
    }
    Some(Fd::new(number as u8))
}

/// What a descriptor of a live process is on.
fn target_of(machine: &Machine, pid: Pid, fd: Fd) -> Option<Target>
    ensures { let s = machine.now.world.state in result ≡ end_of s (file_at s pid fd) }
{
    let descriptor = machine.descriptor(pid, fd)?;
    Some(descriptor.open_file.target)
}

/// What a read by a descriptor on this waits for.
fn read_wait(fd: Fd, target: &Target) -> Option<Wait>
    ensures { result ≡ told_on fd (read_waits_for (Some target.now)) }
{
    match *target {
        Target::Console => Some(Wait::Keys { fd }),
        Target::Program { .. } => None,
        Target::Pipe { frame, .. } => Some(Wait::PipeBytes { fd, pipe: frame }),
    }
}

/// What a write by a descriptor on this waits for.
fn write_wait(fd: Fd, target: &Target) -> Option<Wait>
    ensures { result ≡ told_on fd (write_waits_for (Some target.now)) }
{
    match *target {
        Target::Console => Some(Wait::Sending { fd }),
        Target::Program { .. } => None,
        Target::Pipe { frame, .. } => Some(Wait::PipeRoom { fd, pipe: frame }),
    }
}

/// What a sleep waits for.
fn sleep_wait(call: &Call) -> Option<Wait>
    ensures { (d : ℕ) → result ≡ told_on d (sleep_waits_for call.now (c_int call.now.a0)) }
{
    let ticks = c_int(call.a0);
    if ticks < 0 {
        return None;
    }
    Some(Wait::Until {
        tick: call.clock.wrapping_add(ticks as u32),
    })
}

/// What a live process that is in this read waits for.
fn read_in_call(machine: &Machine, pid: Pid, call: &Call) -> Option<Wait>
    ensures { (l : Live) → live machine.now.world.state pid ≡ Some l → result ≡ told_on (descriptor_of_call (Some call.now)) (read_waits_for (target_at machine.now.world.state l (c_int call.now.a0))) }
{
    let fd = descriptor_in(c_int(call.a0))?;
    let target = target_of(machine, pid, fd)?;
    read_wait(fd, &target)
}

/// What a live process that is in this write waits for.
fn write_in_call(machine: &Machine, pid: Pid, call: &Call) -> Option<Wait>
    ensures { (l : Live) → live machine.now.world.state pid ≡ Some l → result ≡ told_on (descriptor_of_call (Some call.now)) (write_waits_for (target_at machine.now.world.state l (c_int call.now.a0))) }
{
    let fd = descriptor_in(c_int(call.a0))?;
    let target = target_of(machine, pid, fd)?;
    write_wait(fd, &target)
}

/// What a live process that is in this call waits for.
fn wait_in_call(machine: &Machine, pid: Pid, call: &Call) -> Option<Wait>
    ensures { (l : Live) → live machine.now.world.state pid ≡ Some l → result ≡ wait_in_this machine.now.world.state pid l call.now }
{
    match call.number {
        WAIT => Some(Wait::Child),
        READ => read_in_call(machine, pid, call),
        SLEEP => sleep_wait(call),
        WRITE => write_in_call(machine, pid, call),
        _ => None,
    }
}

/// What a process that sleeps waits for; `None` where no live process has this pid, and where it doesn't sleep.
pub fn waits_for(machine: &Machine, pid: Pid) -> Option<Wait>
    ensures { result ≡ wait_of machine.now.world pid }
{
    let ProcessState::Live { call, asleep, .. } = machine.process(pid)? else {
        return None;
    };
    if !asleep {
        return None;
    }
    wait_in_call(machine, pid, &call?)
}

/// Which ends of a pipe a process holds.
#[derive(Clone, Copy)]
pub struct EndsHeld {
    /// A descriptor of it is on the end that is read.
    pub reads: bool,
    /// A descriptor of it is on the end that is written.
    pub writes: bool,
}

/// Whether they are the same end.
fn same_end(one: End, other: End) -> bool
    ensures { result ≡ meant.same_end one other }
{
    match one {
        End::Reading => match other {
            End::Reading => true,
            End::Writing => false,
        },
        End::Writing => match other {
            End::Reading => false,
            End::Writing => true,
        },
    }
}

/// Whether it is this end of the pipe of a frame.
fn is_end_at(pipe: Frame, wanted: End, target: &Target) -> bool
    ensures { result ≡ meant.is_end_at pipe wanted target.now }
{
    match *target {
        Target::Console => false,
        Target::Program { .. } => false,
        Target::Pipe { frame, end } => frame.number() == pipe.number() && same_end(end, wanted),
    }
}

/// Whether this descriptor of a live process is on this end of a pipe.
fn is_on_end(machine: &Machine, pid: Pid, pipe: Frame, end: End, fd: Fd) -> bool
    ensures { let s = machine.now.world.state in result ≡ meant.is_end pipe end (end_of s (file_at s pid fd)) }
{
    let Some(target) = target_of(machine, pid, fd) else {
        return false;
    };
    is_end_at(pipe, end, &target)
}

/// Whether a descriptor of a live process is on this end of a pipe.
fn holds_end(machine: &Machine, pid: Pid, pipe: Frame, end: End) -> bool
    ensures { result ≡ meant.holds_end machine.now.world.state pid pipe end }
{
    for number in 0..NOFILE {
        if is_on_end(machine, pid, pipe, end, Fd::new(number as u8)) {
            return true;
        }
    }
    false
}

/// Which ends of the pipe of a frame a live process holds; none where no live process has this pid, and where no pipe
/// lies in the frame.
pub fn ends_held(machine: &Machine, pid: Pid, pipe: Frame) -> EndsHeld
    ensures reads { result.reads ≡ meant.holds_end machine.now.world.state pid pipe Reading }
    ensures writes { result.writes ≡ meant.holds_end machine.now.world.state pid pipe Writing }
{
    EndsHeld {
        reads: holds_end(machine, pid, pipe, End::Reading),
        writes: holds_end(machine, pid, pipe, End::Writing),
    }
}

/// Whether a process is a live child of a live process.
fn is_live_child(machine: &Machine, parent: Pid, child: Pid) -> bool
    ensures { result ≡ meant.is_live_child machine.now.world.state parent child }
{
    match machine.child_state(parent, child) {
        Some(ChildState::Running) => true,
        _ => false,
    }
}

/// Whether a process, by what it does, could bring what a sleeper waits for: it holds the other end of the pipe, or it
/// is a child that lives. A sleeper can hold the other end itself. (Any process can also kill it.)
pub fn could_wake(machine: &Machine, sleeper: Pid, wait: &Wait, other: Pid) -> bool
    ensures { result ≡ meant.could_wake machine.now.world.state sleeper wait.now other }
{
    match *wait {
        Wait::Child => is_live_child(machine, sleeper, other),
        Wait::PipeBytes { pipe, .. } => holds_end(machine, other, pipe, End::Writing),
        Wait::PipeRoom { pipe, .. } => holds_end(machine, other, pipe, End::Reading),
        Wait::Until { .. } | Wait::Keys { .. } | Wait::Sending { .. } => false,
    }
}
