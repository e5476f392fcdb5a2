//! What a packet asks for (GDB manual, "Packets").
ghost use Rattle.std.specs.Prelude.{◌≡◌, true, false};
ghost use Rattle.gdb_packets.specs.Commands as meant;
ghost use Rattle.gdb_packets.specs.Digits as digits;

use crate::packet_text::{before, behind, is_text, number, two_numbers};
use crate::query::{Document, View, query};

/// Which threads are meant.
#[derive(Clone, Copy)]
pub enum Thread {
    /// `-1`.
    All,
    /// `0`: whichever it is.
    Any,
    /// The one of this number.
    One(u64),
}

/// How the program goes on.
#[derive(Clone, Copy)]
pub enum Resume {
    /// Until something stops it.
    Continue,
    /// Until a thread has done an instruction. `Any` is the one that was chosen by [`Command::Choose`].
    Step(Thread),
}

/// What the program stops at.
#[derive(Clone, Copy)]
pub enum Point {
    /// An instruction that is about to be done (types 0 and 1).
    Breakpoint,
    /// Bytes that became others (type 2).
    Watchpoint,
    /// Bytes of which one was read (type 3).
    ReadWatchpoint,
    /// Bytes of which one was read or written (type 4).
    AccessWatchpoint,
}

/// What is asked for.
#[derive(Clone, Copy)]
pub enum Command {
    /// `?`: why the program stands.
    Reason,
    /// `g`: all registers of the thread that was chosen.
    Registers,
    /// `p`: the register of this number.
    Register(u64),
    /// `m`: so many bytes from an address on.
    Memory {
        address: u64,
        length: u64,
    },
    /// `G`, `P`, `M`, `X`: to change registers or memory.
    Change,
    /// `vCont?`: how the program may go on.
    ResumeKinds,
    /// `vCont`, `c`, `s`, `C`, `S`: to go on. `runs` is let run, and no other thread: `Any` is the one that was chosen by
    /// [`Command::Choose`], or all if none was.
    Resume {
        how: Resume,
        runs: Thread,
    },
    /// `bs`: back to before the last instruction.
    ReverseStep,
    /// `bc`: back to the last place that stops the program.
    ReverseContinue,
    /// `Z`: to stop at this point.
    Insert {
        point: Point,
        address: u64,
        length: u64,
    },
    /// `z`: to stop there no more.
    Remove {
        point: Point,
        address: u64,
        length: u64,
    },
    /// `Hg`, `Hc`: which thread the next commands mean; `resumes` is set for those that go on (`Hc`).
    Choose {
        thread: Thread,
        resumes: bool,
    },
    /// `T`: whether the thread lives.
    IsAlive(Thread),
    /// `qC`: the current thread.
    CurrentThread,
    /// `qfThreadInfo`: the threads, the first part of them.
    FirstThreads,
    /// `qsThreadInfo`: the next part of them.
    MoreThreads,
    /// `qThreadExtraInfo`: a thread in words.
    ThreadInfo(Thread),
    /// `qSupported`: what is understood.
    Supported,
    /// `qXfer`: so many bytes of a document, from an offset on.
    Part {
        document: Document,
        offset: u64,
        length: u64,
    },
    /// `qRcmd`: what a word of `monitor` asks for.
    Monitor(View),
    /// `qOffsets`: how far the program's sections were moved.
    Offsets,
    /// `qAttached`: whether the program was there before.
    Attached,
    /// `QStartNoAckMode`: no acknowledgement from now on.
    NoAcks,
    /// `k`: the end of the program.
    Kill,
    /// `!`: from now on the program may be begun anew, and GDB stays at its end.
    Extended,
    /// `vKill`: the end of the program, after which GDB stays.
    EndProgram,
    /// `vRun`: the program is begun anew.
    Restart,
    /// `D`: the end of the debugging.
    Detach,
    /// One of these, whose text isn't right.
    Malformed,
    /// Nothing that is understood.
    Unknown,
}

/// The threads that a text names.
pub(crate) fn parse_thread(text: &[u8]) -> Option<Thread>
    ensures { result ≡ meant.thread_of text.now }
{
    if is_text(text, b"-1") {
        return Some(Thread::All);
    }
    match number(text) {
        Some(0) => Some(Thread::Any),
        Some(number) => Some(Thread::One(number)),
        None => None,
    }
}

/// What `p` asks for.
fn register(text: &[u8]) -> Command
    ensures { result ≡ meant.register (digits.number text.now) }
{
    match number(text) {
        Some(place) => Command::Register(place),
        None => Command::Malformed,
    }
}

/// What `m` asks for.
fn memory(text: &[u8]) -> Command
    ensures { result ≡ meant.memory (meant.two_numbers text.now) }
{
    match two_numbers(text) {
        Some(numbers) => Command::Memory {
            address: numbers.first,
            length: numbers.second,
        },
        None => Command::Malformed,
    }
}

/// What `T` asks for.
fn is_alive(text: &[u8]) -> Command
    ensures { result ≡ meant.is_alive (meant.thread_of text.now) }
{
    match parse_thread(text) {
        Some(thread) => Command::IsAlive(thread),
        None => Command::Malformed,
    }
}

/// The choice of a thread.
fn chosen(text: &[u8], resumes: bool) -> Command
    ensures { result ≡ meant.chosen resumes (meant.thread_of text.now) }
{
    match parse_thread(text) {
        Some(thread) => Command::Choose { thread, resumes },
        None => Command::Malformed,
    }
}

/// What `H` asks for.
fn choose(text: &[u8]) -> Command
    ensures { result ≡ meant.choose text.now }
{
    let Some((operation, text)) = text.split_first() else {
        return Command::Malformed;
    };
    match *operation {
        b'c' => chosen(text, true),
        b'g' => chosen(text, false),
        _ => Command::Malformed,
    }
}

/// To go on, as was chosen by `Hc`.
fn as_chosen(how: Resume) -> Command
    ensures { result ≡ meant.as_chosen how }
{
    Command::Resume {
        how,
        runs: Thread::Any,
    }
}

/// What `c` and `s` ask for: to go on elsewhere, at an address, would change a register.
fn resume_here(text: &[u8], resume: Resume) -> Command
    ensures { result ≡ meant.resume_here text.now resume }
{
    if text.is_empty() {
        as_chosen(resume)
    } else {
        Command::Change
    }
}

/// What `C` and `S` ask for: no signal can be given to a process, so it is left out.
fn resume_by_signal(text: &[u8], resume: Resume) -> Command
    ensures { result ≡ meant.by_signal (digits.number text.now) resume }
{
    match number(text) {
        Some(_signal) => as_chosen(resume),
        None => Command::Change,
    }
}

/// The threads that an action of `vCont` is for: all, if it names none.
fn action_thread(action: &[u8]) -> Option<Thread>
    ensures { result ≡ meant.acting (meant.behind 58 action.now) }
{
    match behind(action, b':') {
        Some(text) => parse_thread(text),
        None => Some(Thread::All),
    }
}

/// The threads that `vCont` lets run, whose first action is for these: if there are more actions, all.
fn let_run(text: &[u8], thread: Thread) -> Thread
    ensures { result ≡ meant.let_run (meant.behind 59 text.now) thread }
{
    match behind(text, b';') {
        Some(_others) => Thread::All,
        None => thread,
    }
}

/// What the first action of `vCont` asks for. If there are others, they say that other threads go on.
fn action(text: &[u8]) -> Command
    ensures { result ≡ meant.action text.now }
{
    let first = before(text, b';');
    let Some((kind, _thread)) = first.split_first() else {
        return Command::Malformed;
    };
    let Some(thread) = action_thread(first) else {
        return Command::Malformed;
    };
    let runs = let_run(text, thread);
    match *kind {
        b'c' | b'C' => Command::Resume {
            how: Resume::Continue,
            runs,
        },
        b's' | b'S' => Command::Resume {
            how: Resume::Step(thread),
            runs,
        },
        _ => Command::Malformed,
    }
}

/// What a packet asks for by which the program ends or begins anew, and GDB stays.
fn anew(text: &[u8]) -> Command
    ensures { result ≡ meant.anew text.now }
{
    if let Some(_pid) = text.strip_prefix(b"Kill;".as_slice()) {
        return Command::EndProgram;
    }
    match text.strip_prefix(b"Run;".as_slice()) {
        Some(_file) => Command::Restart,
        None => Command::Unknown,
    }
}

/// What a packet asks for that begins with `v`.
fn long_named(text: &[u8]) -> Command
    ensures { result ≡ meant.long_named text.now }
{
    if is_text(text, b"Cont?") {
        return Command::ResumeKinds;
    }
    match text.strip_prefix(b"Cont;".as_slice()) {
        Some(actions) => action(actions),
        None => anew(text),
    }
}

/// The point that a type stands for.
fn point_of(kind: &[u8]) -> Option<Point>
    ensures { result ≡ meant.point_of kind.now }
{
    if is_text(kind, b"0") | is_text(kind, b"1") {
        Some(Point::Breakpoint)
    } else if is_text(kind, b"2") {
        Some(Point::Watchpoint)
    } else if is_text(kind, b"3") {
        Some(Point::ReadWatchpoint)
    } else if is_text(kind, b"4") {
        Some(Point::AccessWatchpoint)
    } else {
        None
    }
}

/// What `Z` and `z` ask for.
fn parse_point(text: &[u8], inserts: bool) -> Command
    ensures { result ≡ meant.point inserts text.now }
{
    let Some(place) = behind(text, b',') else {
        return Command::Malformed;
    };
    let Some(numbers) = two_numbers(place) else {
        return Command::Malformed;
    };
    let Some(point) = point_of(before(text, b',')) else {
        return Command::Unknown;
    };
    let address = numbers.first;
    let length = numbers.second;
    if inserts {
        Command::Insert {
            point,
            address,
            length,
        }
    } else {
        Command::Remove {
            point,
            address,
            length,
        }
    }
}

/// What a packet asks for that begins with `b`.
fn backwards(text: &[u8]) -> Command
    ensures { result ≡ meant.backwards text.now }
{
    if is_text(text, b"s") {
        Command::ReverseStep
    } else if is_text(text, b"c") {
        Command::ReverseContinue
    } else {
        Command::Unknown
    }
}

/// What `Q` asks for.
fn setting(text: &[u8]) -> Command
    ensures { result ≡ meant.setting text.now }
{
    if is_text(text, b"StartNoAckMode") {
        Command::NoAcks
    } else {
        Command::Unknown
    }
}

/// What a packet asks for by which the program goes on or back.
fn going(name: u8, text: &[u8]) -> Command
    ensures { result ≡ meant.going name text.now }
{
    match name {
        b'v' => long_named(text),
        b'c' => resume_here(text, Resume::Continue),
        b's' => resume_here(text, Resume::Step(Thread::Any)),
        b'C' => resume_by_signal(text, Resume::Continue),
        b'S' => resume_by_signal(text, Resume::Step(Thread::Any)),
        b'b' => backwards(text),
        _ => Command::Unknown,
    }
}

/// What a packet asks for that shows no registers or memory, and would change none.
fn other(name: u8, text: &[u8]) -> Command
    ensures { result ≡ meant.others name text.now }
{
    match name {
        b'Z' => parse_point(text, true),
        b'z' => parse_point(text, false),
        b'H' => choose(text),
        b'T' => is_alive(text),
        b'q' => query(text),
        b'Q' => setting(text),
        b'k' => Command::Kill,
        b'!' => Command::Extended,
        b'D' => Command::Detach,
        _ => going(name, text),
    }
}

/// What a packet asks for, by its payload. Any payload is answered: one that isn't understood is
/// [`Command::Unknown`], and one whose text isn't right is [`Command::Malformed`].
pub fn parse(payload: &[u8]) -> Command
    ensures { result ≡ meant.asked payload.now }
{
    let Some((name, text)) = payload.split_first() else {
        return Command::Unknown;
    };
    match *name {
        b'?' => Command::Reason,
        b'g' => Command::Registers,
        b'p' => register(text),
        b'm' => memory(text),
        b'G' | b'P' | b'M' | b'X' => Command::Change,
        _ => other(*name, text),
    }
}
