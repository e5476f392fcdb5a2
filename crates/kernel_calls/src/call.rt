//! The calls.
ghost use Rattle.std.specs.Prelude.{◌≡◌, pos};
ghost use Rattle.kernel_calls.specs.Table.{entry_of, call_at, call_named};

use crate::argument::Argument;
use crate::numbers;

/// A kernel call.
#[derive(Clone, Copy)]
pub enum KernelCall {
    Fork,
    Exit,
    Wait,
    Pipe,
    Read,
    Kill,
    Exec,
    Dup,
    Getpid,
    Sbrk,
    Sleep,
    Uptime,
    Open,
    Write,
    Close,
    Sbrklazy,
}

/// All calls, in the order of their numbers.
pub const CALLS: [KernelCall; 16] = [
    KernelCall::Fork,
    KernelCall::Exit,
    KernelCall::Wait,
    KernelCall::Pipe,
    KernelCall::Read,
    KernelCall::Kill,
    KernelCall::Exec,
    KernelCall::Dup,
    KernelCall::Getpid,
    KernelCall::Sbrk,
    KernelCall::Sleep,
    KernelCall::Uptime,
    KernelCall::Open,
    KernelCall::Write,
    KernelCall::Close,
    KernelCall::Sbrklazy,
];

impl KernelCall {
    /// Its number.
    pub fn number(self) -> i32
        ensures { result ≡ pos (entry_of self).number }
    {
        match self {
            KernelCall::Fork => numbers::FORK,
            KernelCall::Exit => numbers::EXIT,
            KernelCall::Wait => numbers::WAIT,
            KernelCall::Pipe => numbers::PIPE,
            KernelCall::Read => numbers::READ,
            KernelCall::Kill => numbers::KILL,
            KernelCall::Exec => numbers::EXEC,
            KernelCall::Dup => numbers::DUP,
            KernelCall::Getpid => numbers::GETPID,
            KernelCall::Sbrk => numbers::SBRK,
            KernelCall::Sleep => numbers::SLEEP,
            KernelCall::Uptime => numbers::UPTIME,
            KernelCall::Open => numbers::OPEN,
            KernelCall::Write => numbers::WRITE,
            KernelCall::Close => numbers::CLOSE,
            KernelCall::Sbrklazy => numbers::SBRKLAZY,
        }
    }

    /// Its name.
    pub fn name(self) -> &'static str
        ensures { result.now ≡ (entry_of self).name }
    {
        match self {
            KernelCall::Fork => "fork",
            KernelCall::Exit => "exit",
            KernelCall::Wait => "wait",
            KernelCall::Pipe => "pipe",
            KernelCall::Read => "read",
            KernelCall::Kill => "kill",
            KernelCall::Exec => "exec",
            KernelCall::Dup => "dup",
            KernelCall::Getpid => "getpid",
            KernelCall::Sbrk => "sbrk",
            KernelCall::Sleep => "sleep",
            KernelCall::Uptime => "uptime",
            KernelCall::Open => "open",
            KernelCall::Write => "write",
            KernelCall::Close => "close",
            KernelCall::Sbrklazy => "sbrklazy",
        }
    }

    /// Its arguments, from the first on.
    pub fn arguments(self) -> &'static [Argument]
        ensures { result.now ≡ (entry_of self).arguments }
    {
        match self {
            KernelCall::Fork | KernelCall::Getpid | KernelCall::Uptime => &[],
            KernelCall::Exit => &[Argument::ExitStatus],
            KernelCall::Wait => &[Argument::ChildStatus],
            KernelCall::Pipe => &[Argument::Ends],
            KernelCall::Read | KernelCall::Write => {
                &[Argument::Descriptor, Argument::Buffer, Argument::Count]
            }
            KernelCall::Kill => &[Argument::Pid],
            KernelCall::Exec => &[Argument::File, Argument::Words],
            KernelCall::Dup | KernelCall::Close => &[Argument::Descriptor],
            KernelCall::Sbrk | KernelCall::Sleep | KernelCall::Sbrklazy => &[Argument::Count],
            KernelCall::Open => &[Argument::File, Argument::Flags],
        }
    }

    /// The call of a number; `None` for a number that no call has.
    #[tactic(auto, unfolding(crate::specs::Table::call_at))]
    pub fn of_number(number: i32) -> Option<KernelCall>
        ensures { result ≡ call_at number }
    {
        let call = match number {
            numbers::FORK => KernelCall::Fork,
            numbers::EXIT => KernelCall::Exit,
            numbers::WAIT => KernelCall::Wait,
            numbers::PIPE => KernelCall::Pipe,
            numbers::READ => KernelCall::Read,
            numbers::KILL => KernelCall::Kill,
            numbers::EXEC => KernelCall::Exec,
            numbers::DUP => KernelCall::Dup,
            numbers::GETPID => KernelCall::Getpid,
            numbers::SBRK => KernelCall::Sbrk,
            numbers::SLEEP => KernelCall::Sleep,
            numbers::UPTIME => KernelCall::Uptime,
            numbers::OPEN => KernelCall::Open,
            numbers::WRITE => KernelCall::Write,
            numbers::CLOSE => KernelCall::Close,
            numbers::SBRKLAZY => KernelCall::Sbrklazy,
            _ => return None,
        };
        Some(call)
    }

    /// The call of a name; `None` for a text that is no call's name.
    #[tactic(auto, unfolding(crate::specs::Table::call_named))]
    pub fn of_name(name: &str) -> Option<KernelCall>
        ensures { result ≡ call_named name.now }
    {
        CALLS.iter().copied().find(|call| call.name() == name)
    }
}
