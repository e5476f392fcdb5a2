//! Which of the calls that led a process to where it is words look at (Debugging with GDB, "Selecting a Frame").
ghost use Rattle.std.specs.Prelude.{◌≡◌, ◌++◌, IfOk, OnOk, length, option_map, string_bytes};
ghost use Rattle.kernel_spec.specs.views.Words.{is_this};
ghost use Rattle.xv_debug.specs.Chosen as meant;
ghost use Rattle.xv_debug.specs.Chosen.{IsChosenAfter, IsLast, IsSeenCall};

use crate::callers::told_call;
use crate::focus::focus;
use crate::frame_words::Choice;
use crate::looks::show_nobody;
use std::alloc::{AllocError, Global};
use xk_base::Pid;
use xv_report::{Calls, NumberedCall, ProgramSource, Sources, call_numbered, calls_of, source_of};
use xv_session::Session;

/// A call that was chosen.
#[derive(Clone, Copy)]
pub(crate) struct Chosen {
    /// The process of which it is; `None` if none was chosen.
    pid: Option<Pid>,
    /// After how many events it was chosen.
    at: u64,
    /// Its number in `bt`.
    number: usize,
}

/// A call that is looked at.
#[derive(Clone, Copy)]
pub(crate) enum SeenCall {
    /// The one that was made last.
    Last,
    /// One that led to it.
    Caller(NumberedCall),
}

/// Why another call isn't looked at.
#[derive(Clone, Copy)]
enum Unreached {
    /// It is the first one already.
    Initial,
    /// It is the last one already.
    Bottom,
    /// There is none of this number.
    Level(u32),
}

/// Whether it is this process.
fn is_this(pid: Pid, other: Option<Pid>) -> bool
    ensures { result ≡ is_this pid other }
{
    match other {
        Some(other) => other.number() == pid.number(),
        None => false,
    }
}

impl Chosen {
    ghost use Rattle.std.specs.Prelude.{◌≡◌, Some};
    ghost use Rattle.xv_debug.specs.Chosen as meant;

    /// None: words look at the call that was made last.
    pub fn none() -> Chosen
        ensures { result ≡ meant.none }
    {
        Chosen {
            pid: None,
            at: 0,
            number: 0,
        }
    }

    /// The number of the call of a process at which words look after so many events: the one that was chosen, if it is of
    /// this process, and no event came since; else the last one.
    pub fn number_of(&self, pid: Pid, at: u64) -> usize
        ensures { result ≡ meant.number_of self.now pid at }
    {
        if is_this(pid, self.pid) && self.at == at {
            self.number
        } else {
            0
        }
    }

    /// What is left of it after a word before which there were so many events, and after which there are so many: none, if
    /// some came or were taken back.
    pub fn left(self, before: u64, after: u64) -> Chosen
        ensures { result ≡ meant.left before after self }
    {
        if before == after {
            self
        } else {
            Chosen::none()
        }
    }
}

/// How many calls a word goes up or down.
fn steps(count: Option<u32>) -> usize
    ensures { result ≡ meant.steps count }
{
    match count {
        Some(count) => count as usize,
        None => 1,
    }
}

/// The call of a level, if there is one; else the one that is looked at.
fn at_level(level: Option<u32>, last: usize, now: usize) -> usize
    ensures { result ≡ meant.at_level level last now }
{
    let Some(level) = level else {
        return now;
    };
    let level = level as usize;
    if level <= last { level } else { now }
}

/// The number of the call at which words look after a word, by that of the first call and of the one now.
fn number_after(choice: Choice, last: usize, now: usize) -> usize
    ensures { result ≡ meant.number_after choice last now }
{
    match choice {
        Choice::Up { count } => now + steps(count).min(last.saturating_sub(now)),
        Choice::Down { count } => now.saturating_sub(steps(count)),
        Choice::Frame { number } => at_level(number, last, now),
    }
}

/// Why a word without a number goes no further, if it stands at an end.
fn at_end(count: Option<u32>, is_end: bool, why: Unreached) -> Option<Unreached>
    ensures { result ≡ meant.at_end count is_end why }
{
    if count.is_some() {
        return None;
    }
    if is_end { Some(why) } else { None }
}

/// Why there is no call of a level, if there is none.
fn no_level(level: Option<u32>, last: usize) -> Option<Unreached>
    ensures { result ≡ meant.no_level level last }
{
    let level = level?;
    if last < level as usize {
        Some(Unreached::Level(level))
    } else {
        None
    }
}

/// Why a word leads to no other call, if it doesn't.
fn why_unreached(choice: Choice, last: usize, now: usize) -> Option<Unreached>
    ensures { result ≡ meant.unreached choice last now }
{
    match choice {
        Choice::Up { count } => at_end(count, last <= now, Unreached::Initial),
        Choice::Down { count } => at_end(count, now == 0, Unreached::Bottom),
        Choice::Frame { number } => no_level(number, last),
    }
}

/// Why a word leads to no other call of a process, if that lives; of another something else is told.
fn if_live(session: &Session, pid: Pid, why: Option<Unreached>) -> Option<Unreached> {
    let _regs = session.machine().registers(pid)?;
    why
}

/// Writes that there is no call of a level.
fn show_no_level(level: u32, answer: &mut String) -> Result<(), AllocError>
    ensures { OnOk result (string_bytes answer.new ≡ string_bytes answer.old ++ meant.no_level_text level) }
{
    writeln!(answer, "No frame at level {level}.")
}

/// Writes why a word leads to no other call, as gdb does.
fn show_unreached(why: Unreached, answer: &mut String) -> Result<(), AllocError>
    ensures { OnOk result (string_bytes answer.new ≡ string_bytes answer.old ++ meant.unreached_text why) }
{
    match why {
        Unreached::Initial => answer.push_str("Initial frame selected; you can't go up.\n"),
        Unreached::Bottom => {
            answer.push_str("Bottom (innermost) frame selected; you can't go down.\n")
        }
        Unreached::Level(level) => show_no_level(level, answer),
    }
}

/// The number of the first of these calls; 0 if none are told.
fn first_number(calls: &Option<Calls>) -> usize
    ensures { result ≡ meant.first_number calls.now }
{
    match calls {
        Some(calls) => calls.count(),
        None => 0,
    }
}

/// The number of the first of the calls that led a process to where it is: how many `bt` tells, but for call 0.
fn last_number(
    alloc: Global,
    session: &Session,
    sources: Option<&Sources>,
    pid: Pid,
) -> Result<usize, AllocError>
    ensures { IfOk result (IsLast (option_map (λ s. s.now) sources.entry) session.now pid) }
{
    let source = source_of(sources, session, session.program_of(pid));
    let calls = calls_of(alloc, session.machine(), pid, &source)?;
    Ok(first_number(&calls))
}

/// The call of a number of a process, by what is known of its program's source; `None` if it isn't there.
pub(crate) fn call_seen(
    alloc: Global,
    session: &Session,
    source: &ProgramSource<'_>,
    pid: Pid,
    number: usize,
) -> Result<Option<SeenCall>, AllocError>
    ensures { IfOk result (IsSeenCall source.now session.now pid number) }
{
    if number == 0 {
        return Ok(Some(SeenCall::Last));
    }
    match call_numbered(alloc, session.machine(), pid, source, number)? {
        Some(call) => Ok(Some(SeenCall::Caller(call))),
        None => Ok(None),
    }
}

/// Chooses the call at which words look from now on, and tells it, or why it is no other one.
pub(crate) fn choose(
    alloc: Global,
    session: &Session,
    sources: Option<&Sources>,
    choice: Choice,
    chosen: &mut Chosen,
    answer: &mut String,
) -> Result<(), AllocError>
    ensures { OnOk result (IsChosenAfter (option_map (λ s. s.now) sources.entry) choice session.now chosen.old chosen.new) }
{
    let Some(pid) = focus(session, None) else {
        return show_nobody(answer);
    };
    let last = last_number(alloc, session, sources, pid)?;
    let now = chosen.number_of(pid, session.at());
    let number = number_after(choice, last, now);
    *chosen = Chosen {
        pid: Some(pid),
        at: session.at(),
        number,
    };
    if let Some(why) = if_live(session, pid, why_unreached(choice, last, now)) {
        show_unreached(why, answer)?;
        return Ok(());
    }
    let told = told_call(alloc, session, sources, pid, number)?;
    answer.push_str(told.as_str())?;
    Ok(())
}
