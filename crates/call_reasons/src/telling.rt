//! The reason of an answer, by what a machine shows.
ghost use Rattle.std.specs.Prelude.{◌≡◌, ◌==◌, ◌&&◌, not, nat_lt, true, IfNone, IfSome, None, Some};
ghost use Rattle.std.specs.Ordering.{int_eq};
ghost use Rattle.kernel_calls.specs.Table.{call_at};
ghost use Rattle.kernel_spec.specs.rows.Calls.{row_of};
ghost use Rattle.kernel_spec.specs.views.State.{live};
ghost use Rattle.kernel_spec.specs.views.Words.{c_int, minus_one, or_zero};
ghost use Rattle.kcall_core.specs.Observers.{size_of};
ghost use Rattle.xk_base.specs.declared.access.Access.TheVariants.{Store};
ghost use Rattle.xk_base.specs.declared.limits.TheConstants.{ARG_BYTES, MAXARG, MAXPATH};
ghost use Rattle.call_reasons.specs.Asked.{call_asked};
ghost use Rattle.call_reasons.specs.Facts.{file_named};
ghost use Rattle.call_reasons.specs.Loading.{load_error};
ghost use Rattle.call_reasons.specs.Reasons as meant;
ghost use Rattle.call_reasons.specs.Shown.{facts_in, opened_in, reach_in, reason_in};
ghost use Rattle.call_reasons.specs.Texts.{has_texts, is_named, text_at, texts_at};
ghost use Rattle.call_reasons.specs.declared.reason.Reason.TheVariants.{NoFrames};

use crate::asked::{Asked, c_int};
use crate::last::REFUSED;
use crate::loading::{error_with, error_with_long};
use crate::opened::Opened;
use crate::reason::Reason;
use crate::shown::{free_descriptors, has_child, is_pid, opened, reaches, size};
use crate::texts::{args_at, has_texts, is_console, is_program, name_in, program_named, text_at};
use arrayvec::ArrayVec;
use kernel_calls::KernelCall;
use xk_base::limits::{ARG_BYTES, MAXPATH, SIZE_LIMIT};
use xk_base::{Access, ExecError, Pid};
use xv_machine::{Call, Machine};

// Whether what has a name may be opened in a mode.
fn opens_in(name: &[u8], mode: i32) -> bool
    ensures { result ≡ meant.opens_in name.now mode }
{
    if mode < 0 {
        return false;
    }
    if is_console(name) {
        return mode <= 2;
    }
    mode == 0
}

/// A process of a machine, and a call of its that was refused.
#[derive(Clone, Copy)]
struct Refused<'a> {
    machine: &'a Machine,
    pid: Pid,
    call: &'a Call,
}

// The call of this number.
fn call_of(call: &Call) -> Option<KernelCall>
    ensures { result ≡ call_at call.now.number }
{
    KernelCall::of_number(call.number)
}

// Whether an argument is below 0.
fn is_below_zero(register: u64) -> bool
    ensures { result ≡ meant.is_below_zero (c_int register) }
{
    c_int(register) < 0
}

// A number of bytes, as a C int has it.
fn count_in(number: i32) -> u64
    ensures { result ≡ meant.at_least_zero number }
{
    if number < 0 { 0 } else { number as u64 }
}

// A number of bytes, as an argument has it.
fn count_of(register: u64) -> u64
    ensures { result ≡ meant.at_least_zero (c_int register) }
{
    count_in(c_int(register))
}

// Whether it is none.
fn is_zero(count: u64) -> bool
    ensures { result ≡ (count == 0) }
{
    count == 0
}

// Whether there are fewer descriptors than these.
fn are_fewer(free: u32, least: u32) -> bool
    ensures { result ≡ nat_lt free least }
{
    free < least
}

// Whether there is no descriptor.
fn is_none_free(free: u32) -> bool
    ensures { result ≡ (free == 0) }
{
    free == 0
}

// Whether memory of so many bytes would be none, or too much, after a change by so many.
fn is_bad_size(size: u64, change: i32) -> bool
    ensures { result ≡ meant.is_bad_size (meant.size_after size change) }
{
    match size.checked_add_signed(i64::from(change)) {
        Some(size) => size > SIZE_LIMIT,
        None => true,
    }
}

/// Whether a call is refused that answers this.
pub(crate) fn is_refused(value: i64) -> bool
    ensures { result ≡ int_eq value minus_one }
{
    value == REFUSED
}

impl<'a> Refused<'a> {
    // Too few frames are free.
    fn no_frames(&self) -> Reason
        ensures { result ≡ NoFrames self.now.machine.now.world.state.free }
    {
        Reason::NoFrames {
            free: self.machine.free_frames(),
        }
    }

    // The descriptor that the first argument names.
    fn opened(&self) -> Option<Opened>
        ensures { result ≡ opened_in self.now.machine.now.world.state self.now.pid (c_int self.now.call.now.a0) }
    {
        opened(self.machine, self.pid, c_int(self.call.a0))
    }

    // Whether memory would be none, or too much.
    fn has_bad_size(&self) -> bool
        ensures { result ≡ meant.is_bad_size (meant.size_after (or_zero (size_of self.now.machine.now.world.state self.now.pid)) (c_int self.now.call.now.a0)) }
    {
        is_bad_size(size(self.machine, self.pid), c_int(self.call.a0))
    }

    // Whether a status is to be stored where it can't be.
    fn lacks_place(&self) -> bool
        ensures { result ≡ (not (self.now.call.now.a0 == 0) && not (reach_in Store (live self.now.machine.now.world.state self.now.pid) self.now.call.now.a0 4)) }
    {
        if is_zero(self.call.a0) {
            return false;
        }
        !reaches(self.machine, self.pid, Access::Store, self.call.a0, 4)
    }

    fn of_wait(&self) -> Reason
        ensures { Some result ≡ meant.first (meant.of_wait self.now.call.now (facts_in self.now.machine.now.world.state self.now.pid) true) }
    {
        if self.lacks_place() {
            return Reason::NotWritable {
                address: self.call.a0,
                count: 4,
            };
        }
        if !has_child(self.machine, self.pid) {
            return Reason::NoChild;
        }
        self.no_frames()
    }

    fn of_pipe(&self) -> Reason
        ensures { Some result ≡ meant.first (meant.of_pipe self.now.call.now (facts_in self.now.machine.now.world.state self.now.pid) true) }
    {
        let address = self.call.a0;
        if !reaches(self.machine, self.pid, Access::Store, address, 8) {
            return Reason::NotWritable { address, count: 8 };
        }
        let free = free_descriptors(self.machine, self.pid);
        if are_fewer(free, 2) {
            return Reason::NoDescriptor { free };
        }
        self.no_frames()
    }

    fn of_read(&self) -> Reason
        ensures { Some result ≡ meant.first (meant.of_read self.now.call.now (facts_in self.now.machine.now.world.state self.now.pid) true) }
    {
        let descriptor = c_int(self.call.a0);
        let Some(opened) = self.opened() else {
            return Reason::NotOpen { descriptor };
        };
        if !opened.reads {
            return Reason::NotForReading { descriptor };
        }
        if is_below_zero(self.call.a2) {
            let number = c_int(self.call.a2);
            return Reason::BelowZero { number };
        }
        let address = self.call.a1;
        let count = count_of(self.call.a2);
        if !reaches(self.machine, self.pid, Access::Store, address, count) {
            return Reason::NotWritable { address, count };
        }
        self.no_frames()
    }

    fn of_kill(&self) -> Option<Reason>
        ensures { result ≡ meant.first (meant.of_kill self.now.call.now (facts_in self.now.machine.now.world.state self.now.pid) true) }
    {
        let pid = c_int(self.call.a0);
        if is_pid(self.machine, pid) {
            return None;
        }
        Some(Reason::NoProcess { pid })
    }

    // The path that the first argument names.
    fn path(&self) -> Option<ArrayVec<u8, ARG_BYTES>>
        ensures found { IfSome result (λ path. text_at (facts_in self.now.machine.now.world.state self.now.pid) MAXPATH self.now.call.now.a0 ≡ Some path.items) }
        ensures none { IfNone result (text_at (facts_in self.now.machine.now.world.state self.now.pid) MAXPATH self.now.call.now.a0 ≡ None) }
    {
        text_at(self.machine, self.pid, MAXPATH, self.call.a0)
    }

    // Why the program of a name can't be loaded with the texts that the second argument names.
    fn load_error(&self, name: &[u8]) -> Option<ExecError>
        requires { has_texts (facts_in self.now.machine.now.world.state self.now.pid) MAXARG ARG_BYTES self.now.call.now.a1 ≡ true }
        ensures { result
            ≡ load_error (file_named name.now self.now.machine.now.world.state.programs)
            (texts_at (facts_in self.now.machine.now.world.state self.now.pid) MAXARG ARG_BYTES self.now.call.now.a1) }
    {
        let Some(program) = program_named(self.machine, name) else {
            return None;
        };
        match args_at(self.machine, self.pid, self.call.a1) {
            Some(args) => error_with(&program.bytes, &args),
            None => Some(error_with_long(&program.bytes)),
        }
    }

    // The reason of a program that can't be loaded, or costs too much.
    fn of_loading(&self, error: Option<ExecError>) -> Reason
        ensures { Some result ≡ meant.first (meant.of_loading self.now.call.now (facts_in self.now.machine.now.world.state self.now.pid) true error) }
    {
        match error {
            Some(ExecError::NotElf) => Reason::NotElf,
            Some(ExecError::BadSegment(number)) => Reason::BadHeader { number },
            Some(ExecError::ArgsTooLong) => Reason::LongWords,
            Some(ExecError::TooManyArgs) => self.no_frames(),
            Some(ExecError::NoFrames) => self.no_frames(),
            None => self.no_frames(),
        }
    }

    fn of_exec(&self) -> Reason
        ensures { Some result ≡ meant.first (meant.of_exec self.now.call.now (facts_in self.now.machine.now.world.state self.now.pid) true) }
    {
        let Some(path) = self.path() else {
            return Reason::NoPath {
                address: self.call.a0,
            };
        };
        if !has_texts(self.machine, self.pid, self.call.a1) {
            return Reason::NoList {
                address: self.call.a1,
            };
        }
        let name = name_in(path.as_slice());
        if !is_program(self.machine, name) {
            return Reason::NoProgram;
        }
        self.of_loading(self.load_error(name))
    }

    fn of_dup(&self) -> Option<Reason>
        ensures { result ≡ meant.first (meant.of_dup self.now.call.now (facts_in self.now.machine.now.world.state self.now.pid) true) }
    {
        let Some(_) = self.opened() else {
            let descriptor = c_int(self.call.a0);
            return Some(Reason::NotOpen { descriptor });
        };
        let free = free_descriptors(self.machine, self.pid);
        if is_none_free(free) {
            return Some(Reason::NoDescriptor { free });
        }
        None
    }

    fn of_sbrk(&self) -> Reason
        ensures { Some result ≡ meant.first (meant.of_sbrk self.now.call.now (facts_in self.now.machine.now.world.state self.now.pid) true) }
    {
        if self.has_bad_size() {
            return Reason::BadSize;
        }
        self.no_frames()
    }

    // Whether the console has a name, or a program.
    fn is_named(&self, name: &[u8]) -> bool
        ensures { result ≡ is_named (facts_in self.now.machine.now.world.state self.now.pid) name.now }
    {
        if is_console(name) {
            return true;
        }
        is_program(self.machine, name)
    }

    fn of_open(&self) -> Option<Reason>
        ensures { result ≡ meant.first (meant.of_open self.now.call.now (facts_in self.now.machine.now.world.state self.now.pid) true) }
    {
        let Some(path) = self.path() else {
            let address = self.call.a0;
            return Some(Reason::NoPath { address });
        };
        let name = name_in(path.as_slice());
        if !self.is_named(name) {
            return Some(Reason::NotNamed);
        }
        let mode = c_int(self.call.a1);
        if !opens_in(name, mode) {
            return Some(Reason::NotInMode { mode });
        }
        let free = free_descriptors(self.machine, self.pid);
        if is_none_free(free) {
            return Some(Reason::NoDescriptor { free });
        }
        None
    }

    fn of_write(&self) -> Option<Reason>
        ensures { result ≡ meant.first (meant.of_write self.now.call.now (facts_in self.now.machine.now.world.state self.now.pid) true) }
    {
        let descriptor = c_int(self.call.a0);
        let Some(opened) = self.opened() else {
            return Some(Reason::NotOpen { descriptor });
        };
        if !opened.writes {
            return Some(Reason::NotForWriting { descriptor });
        }
        if is_below_zero(self.call.a2) {
            let number = c_int(self.call.a2);
            return Some(Reason::BelowZero { number });
        }
        let address = self.call.a1;
        let count = count_of(self.call.a2);
        if !reaches(self.machine, self.pid, Access::Load, address, count) {
            return Some(Reason::NotReadable { address, count });
        }
        if is_zero(count) {
            return None;
        }
        if opened.is_file {
            return Some(Reason::NotForWriting { descriptor });
        }
        if opened.is_unread {
            return Some(Reason::NoReader);
        }
        None
    }

    fn of_close(&self) -> Option<Reason>
        ensures { result ≡ meant.first (meant.of_close self.now.call.now (facts_in self.now.machine.now.world.state self.now.pid) true) }
    {
        match self.opened() {
            Some(_) => None,
            None => Some(Reason::NotOpen {
                descriptor: c_int(self.call.a0),
            }),
        }
    }

    fn of_sbrklazy(&self) -> Option<Reason>
        ensures { result ≡ meant.first (meant.of_sbrklazy self.now.call.now (facts_in self.now.machine.now.world.state self.now.pid) true) }
    {
        if is_below_zero(self.call.a0) {
            let number = c_int(self.call.a0);
            return Some(Reason::BelowZero { number });
        }
        if self.has_bad_size() {
            return Some(Reason::BadSize);
        }
        None
    }

    // The first test that holds, by the call.
    fn reason(&self) -> Option<Reason>
        ensures { result ≡ meant.reason_by (row_of self.now.call.now.number) self.now.call.now (facts_in self.now.machine.now.world.state self.now.pid) (λ r. true) }
    {
        let Some(call) = call_of(self.call) else {
            return Some(Reason::NoCall);
        };
        match call {
            KernelCall::Fork => Some(Reason::NoRoom {
                free: self.machine.free_frames(),
            }),
            KernelCall::Wait => Some(self.of_wait()),
            KernelCall::Pipe => Some(self.of_pipe()),
            KernelCall::Read => Some(self.of_read()),
            KernelCall::Kill => self.of_kill(),
            KernelCall::Exec => Some(self.of_exec()),
            KernelCall::Dup => self.of_dup(),
            KernelCall::Sbrk => Some(self.of_sbrk()),
            KernelCall::Open => self.of_open(),
            KernelCall::Write => self.of_write(),
            KernelCall::Close => self.of_close(),
            KernelCall::Sbrklazy => self.of_sbrklazy(),
            KernelCall::Exit => None,
            KernelCall::Getpid => None,
            KernelCall::Sleep => None,
            KernelCall::Uptime => None,
        }
    }
}

// Why a call of a live process was refused; `None` of a call that never is, and for any other pid.
fn reason_of_refused(machine: &Machine, pid: Pid, call: &Call) -> Option<Reason>
    ensures { result ≡ reason_in machine.now.world.state pid call.now minus_one }
{
    match machine.size(pid) {
        Some(_) => {
            let refused = Refused { machine, pid, call };
            refused.reason()
        }
        None => None,
    }
}

// Why a call of a live process has answered so, by the machine before it or right after it; `None` if it wasn't
// refused, and for any other pid.
fn reason_told(machine: &Machine, pid: Pid, call: &Call, value: i64) -> Option<Reason>
    ensures { result ≡ reason_in machine.now.world.state pid call.now value }
{
    if is_refused(value) {
        reason_of_refused(machine, pid, call)
    } else {
        None
    }
}

/// Why a process has got this answer to what it asks for, by the machine before the answer or right after it; `None` if it
/// wasn't refused, and for any other pid.
pub fn reason_of(machine: &Machine, pid: Pid, asked: &Asked, value: i64) -> Option<Reason>
    ensures { result ≡ reason_in machine.now.world.state pid (call_asked asked.now) value }
{
    reason_told(machine, pid, &asked.call(), value)
}
