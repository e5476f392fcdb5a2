//! What is answered to each command after which the machine is where it was.
ghost use Rattle.std.specs.Prelude.{◌≡◌, IfOk, IfSome, IsSome};
ghost use Rattle.kernel_spec.specs.views.State.{live};
ghost use Rattle.gdb_packets.specs.Answers.{refusal};
ghost use Rattle.gdb_target.specs.Chosen as chooses;
ghost use Rattle.gdb_target.specs.Told as meant;

use crate::documents::REGISTERS;
use crate::let_run::LetRun;
use crate::memory::{memory_bytes, register, register_bytes};
use crate::points::WATCHED_MOST;
use crate::target::{Target, Until, Way};
use crate::threads::{is_live, live_process, processes};
use crate::words::described;
use gdb_packets::{
    Command, Document, Point, Resume, Thread, current_thread, hex_bytes, part, refusal, stop_reply,
    thread_list,
};
use rv64i_core::Regs;
use std::alloc::{AllocError, Global};
use xk_base::Pid;

/// What is understood: so many bytes (in hexadecimal digits) of a packet, and the optional parts.
const SUPPORTED: &[u8] = b"PacketSize=fa0;QStartNoAckMode+;vContSupported+;qXfer:features:read+;\
qXfer:exec-file:read+;ReverseStep+;ReverseContinue+;no-resumed+";

/// Nothing changes the machine.
const NO_CHANGE: u8 = 1;

/// No process has this number, or no register.
const NO_SUCH: u8 = 3;

/// No byte is there.
const NO_MEMORY: u8 = 14;

/// The text of a command isn't right.
const MALFORMED: u8 = 22;

fn text(alloc: Global, bytes: &[u8]) -> Result<Vec<u8>, AllocError>
    ensures { IfOk result (λ text. text.items ≡ bytes.now) }
{
    Vec::from_slice(alloc, bytes)
}

/// The refusal of a command that names a process that doesn't live.
pub fn no_such_process(alloc: Global) -> Result<Vec<u8>, AllocError>
    ensures { IfOk result (λ text. text.items ≡ refusal 3) }
{
    refusal(alloc, NO_SUCH)
}

/// The refusal of a packet that is damaged, or of a command whose text isn't right.
pub fn malformed(alloc: Global) -> Result<Vec<u8>, AllocError>
    ensures { IfOk result (λ text. text.items ≡ refusal 22) }
{
    refusal(alloc, MALFORMED)
}

/// All registers, or a refusal.
fn tell_registers(alloc: Global, regs: &Option<Regs>) -> Result<Vec<u8>, AllocError>
    ensures { IfOk result (λ text. text.items ≡ meant.registers_told regs.now) }
{
    match regs {
        Some(regs) => {
            let bytes = register_bytes(alloc, regs)?;
            hex_bytes(alloc, bytes.as_slice())
        }
        None => refusal(alloc, NO_SUCH),
    }
}

/// The value of a register, or a refusal.
fn tell_value(alloc: Global, value: Option<u64>) -> Result<Vec<u8>, AllocError>
    ensures { IfOk result (λ text. text.items ≡ meant.value_told value) }
{
    match value {
        Some(value) => hex_bytes(alloc, value.to_le_bytes().as_slice()),
        None => refusal(alloc, NO_SUCH),
    }
}

/// The register of a number, or a refusal.
fn tell_register(alloc: Global, number: u64, regs: &Option<Regs>) -> Result<Vec<u8>, AllocError>
    ensures { IfOk result (λ text. text.items ≡ meant.register_told number regs.now) }
{
    match regs {
        Some(regs) => tell_value(alloc, register(regs, number)),
        None => refusal(alloc, NO_SUCH),
    }
}

/// Bytes of memory; a refusal where none is there, although some are asked for.
fn tell_bytes(alloc: Global, size: u64, bytes: &[u8]) -> Result<Vec<u8>, AllocError>
    ensures { IfOk result (λ text. text.items ≡ meant.bytes_told size bytes.now) }
{
    if bytes.is_empty() && size != 0 {
        return refusal(alloc, NO_MEMORY);
    }
    hex_bytes(alloc, bytes)
}

/// Whether a point watches too many bytes.
fn is_too_long(point: Point, length: u64) -> bool
    ensures { result ≡ chooses.is_too_long point length }
{
    match point {
        Point::Breakpoint => false,
        Point::Watchpoint | Point::ReadWatchpoint | Point::AccessWatchpoint => {
            length > WATCHED_MOST
        }
    }
}

/// Until a step of this process, if there is one.
fn step_of(pid: Option<Pid>) -> Option<Until>
    ensures { result ≡ chooses.step_of pid }
{
    match pid {
        Some(pid) => Some(Until::StepOf(pid)),
        None => None,
    }
}

/// How a command goes on until this, and lets these run, if there are both.
fn both(until: Option<Until>, let_run: Option<LetRun>) -> Option<Way>
    ensures { result ≡ chooses.both until let_run }
{
    let until = until?;
    let let_run = let_run?;
    Some(Way { until, let_run })
}

/// This process alone, if there is one.
fn alone(pid: Option<Pid>) -> Option<LetRun>
    ensures { result ≡ chooses.alone pid }
{
    match pid {
        Some(pid) => Some(LetRun::Alone(pid)),
        None => None,
    }
}

/// The process that a choice of a thread lets run alone: none, where no thread is named.
fn runner(thread: Thread, pid: Pid) -> Option<Pid>
    ensures { result ≡ chooses.runner thread pid }
{
    match thread {
        Thread::All => None,
        Thread::Any => None,
        Thread::One(_) => Some(pid),
    }
}

impl Target {
    /// Bytes of the memory of the process that is looked at.
    fn tell_memory(&self, alloc: Global, address: u64, size: u64) -> Result<Vec<u8>, AllocError>
        ensures { IfOk result (λ text. meant.MemoryIsTold (meant.state_of self.now) self.now.looked_at address size text.items) }
    {
        let bytes = memory_bytes(alloc, self.run.machine(), self.looked_at, address, size)?;
        tell_bytes(alloc, size, bytes.as_slice())
    }

    /// The live processes.
    fn tell_threads(&self, alloc: Global) -> Result<Vec<u8>, AllocError>
        ensures { IfOk result (λ text. meant.ThreadsAreTold (meant.state_of self.now) text.items) }
    {
        let pids = processes(alloc, self.run.machine())?;
        thread_list(alloc, pids.as_slice())
    }

    /// Whether a thread lives.
    fn tell_life(&self, alloc: Global, thread: Thread) -> Result<Vec<u8>, AllocError>
        ensures { IfOk result (λ text. meant.LifeIsTold (meant.state_of self.now) thread text.items) }
    {
        let Thread::One(number) = thread else {
            return text(alloc, b"OK");
        };
        match live_process(self.run.machine(), number) {
            Some(_pid) => text(alloc, b"OK"),
            None => refusal(alloc, NO_SUCH),
        }
    }

    /// A thread in words.
    fn tell_words(&self, alloc: Global, thread: Thread) -> Result<Vec<u8>, AllocError> {
        let Thread::One(number) = thread else {
            return refusal(alloc, NO_SUCH);
        };
        match live_process(self.run.machine(), number) {
            Some(pid) => {
                let words = described(alloc, &self.run.session, pid)?;
                hex_bytes(alloc, words.as_slice())
            }
            None => refusal(alloc, NO_SUCH),
        }
    }

    /// A part of a document.
    fn tell_part(
        &self,
        alloc: Global,
        document: Document,
        offset: u64,
        size: u64,
    ) -> Result<Vec<u8>, AllocError>
        ensures { IfOk result (λ text. meant.IsTold self.now (Command.Part document offset size) text.items) }
    {
        match document {
            Document::Registers => part(alloc, REGISTERS.as_bytes(), offset, size),
            Document::File => part(alloc, self.path.as_bytes(), offset, size),
        }
    }

    /// The process that a choice of a thread means: the one that stopped, where none is named; `None` where the one
    /// that is named doesn't live.
    fn meant_by(&self, thread: Thread) -> Option<Pid>
        ensures { chooses.IsMeant self.now thread result }
    {
        match thread {
            Thread::All | Thread::Any => Some(self.stopped.pid),
            Thread::One(number) => live_process(self.run.machine(), number),
        }
    }

    /// This process, if it lives.
    fn if_live(&self, pid: Pid) -> Option<Pid>
        ensures lives { IfSome result (λ found. IsSome (live (meant.state_of self.now) found)) }
        ensures is { result ≡ chooses.if_live self.now pid }
    {
        if is_live(self.run.machine(), pid) {
            Some(pid)
        } else {
            None
        }
    }

    /// The process that steps if a command names none: the one that was chosen to run alone, or else the one that is
    /// looked at; `None` where it doesn't live.
    fn chosen_for_steps(&self) -> Option<Pid>
        ensures lives { IfSome result (λ pid. IsSome (live (meant.state_of self.now) pid)) }
        ensures is { result ≡ chooses.chosen_for_steps self.now }
    {
        match self.resumed {
            Some(pid) => self.if_live(pid),
            None => self.if_live(self.looked_at),
        }
    }

    /// The process that a step of a thread means: the one that was chosen for it, where none is named; `None` where it
    /// doesn't live.
    pub fn steps(&self, thread: Thread) -> Option<Pid>
        ensures lives { IfSome result (λ pid. IsSome (live (meant.state_of self.now) pid)) }
        ensures means { chooses.IsStepped self.now thread result }
    {
        match thread {
            Thread::All | Thread::Any => self.chosen_for_steps(),
            Thread::One(number) => live_process(self.run.machine(), number),
        }
    }

    /// Until when a command goes on; `None` if the process that is to step doesn't live.
    pub fn until(&self, resume: Resume) -> Option<Until>
        ensures { chooses.IsUntil self.now resume result }
    {
        match resume {
            Resume::Continue => Some(Until::Point),
            Resume::Step(Thread::All) => Some(Until::AnyStep),
            Resume::Step(Thread::Any) => step_of(self.steps(Thread::Any)),
            Resume::Step(Thread::One(number)) => step_of(self.steps(Thread::One(number))),
        }
    }

    /// Whom a command lets run that names no process: the one that was chosen to run alone, or else all; `None` where
    /// that one doesn't live.
    pub fn chosen_to_run(&self) -> Option<LetRun>
        ensures { result ≡ chooses.chosen_to_run self.now }
    {
        match self.resumed {
            Some(pid) => alone(self.if_live(pid)),
            None => Some(LetRun::All),
        }
    }

    /// Whom a command lets run; `None` where the process that it names doesn't live.
    fn let_run(&self, thread: Thread) -> Option<LetRun>
        ensures { chooses.IsLetRun self.now thread result }
    {
        match thread {
            Thread::All => Some(LetRun::All),
            Thread::Any => self.chosen_to_run(),
            Thread::One(number) => alone(live_process(self.run.machine(), number)),
        }
    }

    /// How a command goes on; `None` if a process that it names doesn't live.
    pub fn way(&self, how: Resume, runs: Thread) -> Option<Way>
        ensures { chooses.IsWay self.now how runs result }
    {
        self.stepped(both(self.until(how), self.let_run(runs)))
    }

    /// Chooses a process, for commands that go on, or for those that look.
    fn choose_process(&mut self, thread: Thread, pid: Pid, resumes: bool)
        ensures { self.new ≡ chooses.chosen thread resumes pid self.old }
    {
        if resumes {
            self.resumed = runner(thread, pid);
        } else {
            self.looked_at = pid;
        }
    }

    /// Chooses a thread, for commands that go on, or for those that look.
    fn choose(
        &mut self,
        alloc: Global,
        thread: Thread,
        resumes: bool,
    ) -> Result<Vec<u8>, AllocError>
        ensures run { self.new.run ≡ self.old.run }
        ensures chosen { IfOk result
            (λ text. chooses.Chooses self.old (Command.Choose thread resumes) self.new text.items) }
    {
        let Some(pid) = self.meant_by(thread) else {
            return refusal(alloc, NO_SUCH);
        };
        self.choose_process(thread, pid, resumes);
        text(alloc, b"OK")
    }

    /// Puts a point.
    fn insert(
        &mut self,
        alloc: Global,
        point: Point,
        address: u64,
        length: u64,
    ) -> Result<Vec<u8>, AllocError>
        ensures run { self.new.run ≡ self.old.run }
        ensures chosen { IfOk result
            (λ text. chooses.IsInserted point address length self.old self.new text.items) }
    {
        if is_too_long(point, length) {
            return refusal(alloc, MALFORMED);
        }
        self.points.insert(point, address, length)?;
        text(alloc, b"OK")
    }

    /// Takes a point away.
    fn remove(
        &mut self,
        alloc: Global,
        point: Point,
        address: u64,
        length: u64,
    ) -> Result<Vec<u8>, AllocError>
        ensures run { self.new.run ≡ self.old.run }
        ensures chosen { IfOk result
            (λ text. chooses.Chooses self.old (Command.Remove point address length) self.new text.items) }
    {
        self.points.remove(point, address, length);
        text(alloc, b"OK")
    }

    /// The answer to a command that changes neither the machine nor what GDB has chosen.
    fn look_up(&self, alloc: Global, command: Command) -> Result<Vec<u8>, AllocError>
        ensures { IfOk result (λ text. meant.IsTold self.now command text.items) }
    {
        match command {
            Command::Reason => stop_reply(alloc, self.stopped.stop()),
            Command::Registers => {
                tell_registers(alloc, &self.run.machine().registers(self.looked_at))
            }
            Command::Register(number) => {
                tell_register(alloc, number, &self.run.machine().registers(self.looked_at))
            }
            Command::Memory { address, length } => self.tell_memory(alloc, address, length),
            Command::Change => refusal(alloc, NO_CHANGE),
            Command::IsAlive(thread) => self.tell_life(alloc, thread),
            Command::CurrentThread => current_thread(alloc, u64::from(self.stopped.pid.number())),
            Command::FirstThreads => self.tell_threads(alloc),
            Command::MoreThreads => text(alloc, b"l"),
            Command::Part {
                document,
                offset,
                length,
            } => self.tell_part(alloc, document, offset, length),
            Command::Monitor(view) => self.tell_view(alloc, view),
            Command::Malformed => refusal(alloc, MALFORMED),
            Command::ThreadInfo(thread) => self.tell_words(alloc, thread),
            Command::ResumeKinds => text(alloc, b"vCont;c;C;s;S"),
            Command::Supported => text(alloc, SUPPORTED),
            Command::Offsets => text(alloc, b"Text=0;Data=0;Bss=0"),
            Command::Attached => text(alloc, b"1"),
            Command::NoAcks | Command::Detach | Command::Extended | Command::EndProgram => {
                text(alloc, b"OK")
            }
            _ => text(alloc, b""),
        }
    }

    /// The answer to a command after which the machine is where it was. What isn't understood is answered by
    /// nothing, as the protocol wants it; what would change registers or memory is refused.
    ///
    /// # Errors
    ///
    /// [`AllocError`] if the host has too little memory.
    pub fn answer(&mut self, alloc: Global, command: Command) -> Result<Vec<u8>, AllocError>
        ensures told { IfOk result (λ text. meant.IsTold self.old command text.items) }
        ensures run { self.new.run ≡ self.old.run }
        ensures chosen { IfOk result (λ text. chooses.Chooses self.old command self.new text.items) }
    {
        match command {
            Command::Choose { thread, resumes } => self.choose(alloc, thread, resumes),
            Command::Insert {
                point,
                address,
                length,
            } => self.insert(alloc, point, address, length),
            Command::Remove {
                point,
                address,
                length,
            } => self.remove(alloc, point, address, length),
            _ => self.look_up(alloc, command),
        }
    }
}
