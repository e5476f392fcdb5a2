//! The processes: who runs, who sleeps, and on what.
ghost use Rattle.std.specs.Prelude.{◌≡◌, ◌++◌, Some, OnOk, string_bytes};
ghost use Rattle.std.specs.Fmt.{WritesOnOk};
ghost use Rattle.kernel_spec.specs.views.Words.{is_this, or_zero};
ghost use Rattle.kcall_core.specs.Observers.{process_at, size_of};
ghost use Rattle.xv_report.specs.Waits.{wait_of};
ghost use Rattle.debug_views.specs.Focus.{name_in};
ghost use Rattle.debug_views.specs.Written.{Writes};
ghost use Rattle.xv_debug.specs.ProcessText.{AreLines, IsProcessesText, awake_text, awake_word, doing_text, in_call, line_text, live_text, mark_text, marked_text, more_text, or_stroke, parent_in, place_text};
ghost use Rattle.xv_debug.specs.WhereText.{IsFocusText, IsGoingText, IsProcessText, IsThereText, IsWhereText, halted_text, if_nobody, no_process, process_head};

use crate::calls::CallShown;
use crate::instruction::list;
use crate::waits::WaitShown;
use debug_views::{least_from, program_name};
use debug_words::texts::{Grouped, Many, Named, Plain};
use std::alloc::{AllocError, Global};
use std::fmt;
use xk_base::Pid;
use xv_machine::{Call, Machine, ProcessState};
use xv_report::{Sources, waits_for};
use xv_session::Session;

/// The most processes that are shown at once.
const LINES_MOST: u32 = 20;

/// What a process does, in a few words.
#[derive(Clone, Copy)]
pub(crate) struct Doing<'a> {
    pub machine: &'a Machine,
    pub pid: Pid,
}

/// The call that a process is in, if it is in one.
fn show_call<W: fmt::Write>(call: Option<Call>, f: &mut fmt::Formatter<W>) -> fmt::Result
    ensures { WritesOnOk W.write_str_gives f.old result (in_call call) f.new }
{
    let Some(call) = call else {
        return Ok(());
    };
    let call = CallShown(call.number);
    write!(f, ", in {call}")
}

/// Whether it runs or may run.
fn awake_word(runs: bool) -> &'static str
    ensures { result.now ≡ awake_word runs }
{
    if runs { "runs" } else { "may run" }
}

/// What a live process does that doesn't sleep.
fn show_awake<W: fmt::Write>(
    runs: bool,
    call: Option<Call>,
    f: &mut fmt::Formatter<W>,
) -> fmt::Result
    ensures { WritesOnOk W.write_str_gives f.old result (awake_text runs call) f.new }
{
    f.write_str(awake_word(runs))?;
    show_call(call, f)
}

/// Whether it is this process that runs.
fn is_current(machine: &Machine, pid: Pid) -> bool
    ensures { result ≡ is_this pid machine.now.world.turns.current }
{
    match machine.current() {
        Some(current) => current.number() == pid.number(),
        None => false,
    }
}

/// What a live process does.
fn show_live<W: fmt::Write>(
    machine: &Machine,
    pid: Pid,
    call: Option<Call>,
    f: &mut fmt::Formatter<W>,
) -> fmt::Result
    ensures { WritesOnOk W.write_str_gives f.old result (live_text (is_this pid machine.now.world.turns.current) call (wait_of machine.now.world pid)) f.new }
{
    match waits_for(machine, pid) {
        Some(wait) => {
            let wait = WaitShown(&wait);
            write!(f, "sleeps in {wait}")
        }
        None => show_awake(is_current(machine, pid), call, f),
    }
}

impl<'a> fmt::Display for Doing<'a> {
    ghost output = { λ d. Some (doing_text d.machine.now.world d.pid) };

    fn fmt<W: fmt::Write>(&self, f: &mut fmt::Formatter<W>) -> fmt::Result {
        match self.machine.process(self.pid) {
            None => f.write_str("is none"),
            Some(ProcessState::Zombie { status, .. }) => {
                write!(f, "is a zombie, of status {status}")
            }
            Some(ProcessState::Live { call, .. }) => show_live(self.machine, self.pid, call, f),
        }
    }
}

/// Writes where the run is: how many events there were, and the clock.
fn show_place(session: &Session, answer: &mut String) -> Result<(), AllocError>
    ensures { OnOk result (string_bytes answer.new ≡ string_bytes answer.old ++ place_text session.now) }
{
    let at = Grouped(session.at());
    let ticks = Many(u64::from(session.machine().clock()), "tick");
    write!(answer, "at {at}, {ticks}: ")
}

/// Writes that no process has this pid.
fn show_no_process(pid: Pid, answer: &mut String) -> Result<(), AllocError>
    ensures { OnOk result (string_bytes answer.new ≡ string_bytes answer.old ++ no_process pid) }
{
    let number = pid.number();
    writeln!(answer, "no process has the pid {number}; ps lists them")
}

/// Writes a process, its program, and what it does.
#[tactic(auto, unfolding(crate::specs::WhereText::process_head))]
fn show_head(session: &Session, pid: Pid, answer: &mut String) -> Result<(), AllocError>
    ensures { OnOk result (string_bytes answer.new ≡ string_bytes answer.old ++ process_head session.now pid) }
{
    let machine = session.machine();
    let number = pid.number();
    let name = Named(program_name(session, pid));
    let doing = Doing { machine, pid };
    writeln!(answer, "process {number}{name} {doing}")
}

/// The lines of so many instructions of a process from its pc on; none if it doesn't live.
fn listed(
    alloc: Global,
    session: &Session,
    sources: Option<&Sources>,
    pid: Pid,
    count: u32,
) -> Result<String, AllocError> {
    let mut lines = String::new(alloc);
    if let Some(regs) = session.machine().registers(pid) {
        list(session, sources, pid, regs.pc(), count, &mut lines)?;
    }
    Ok(lines)
}

/// The same of the process that a word looks at; none if there is none.
fn listed_of(
    alloc: Global,
    session: &Session,
    sources: Option<&Sources>,
    focus: &Option<Pid>,
    count: u32,
) -> Result<String, AllocError> {
    match focus {
        Some(pid) => listed(alloc, session, sources, *pid, count),
        None => Ok(String::new(alloc)),
    }
}

/// Writes what a process does that is there, and what else is told of it.
fn show_there(
    session: &Session,
    pid: Pid,
    told: &str,
    answer: &mut String,
) -> Result<(), AllocError>
    ensures { OnOk result
        (Writes (string_bytes answer.old) (string_bytes answer.new) (IsThereText session.now pid)) }
{
    show_head(session, pid, answer)?;
    answer.push_str(told)
}

/// Writes what a process does, and what else is told of it, if it is there.
pub(crate) fn show_process(
    session: &Session,
    pid: Pid,
    told: &str,
    answer: &mut String,
) -> Result<(), AllocError>
    ensures { OnOk result
        (Writes (string_bytes answer.old) (string_bytes answer.new)
        (IsProcessText session.now pid (process_at session.now.machine.world pid))) }
{
    match session.machine().process(pid) {
        Some(_state) => show_there(session, pid, told, answer),
        None => show_no_process(pid, answer),
    }
}

/// Writes what the process does that a word looks at, if there is one, and what else is told of it.
fn show_looked_at(
    session: &Session,
    focus: Option<Pid>,
    told: &str,
    answer: &mut String,
) -> Result<(), AllocError>
    ensures { OnOk result
        (Writes (string_bytes answer.old) (string_bytes answer.new) (IsFocusText session.now focus)) }
{
    match focus {
        Some(pid) => show_process(session, pid, told, answer),
        None => answer.push_str("there is no process\n"),
    }
}

/// What stands before it if nobody runs.
fn if_nobody(current: Option<Pid>) -> &'static str
    ensures { result.now ≡ if_nobody current }
{
    match current {
        Some(_pid) => "",
        None => "nobody runs; ",
    }
}

/// Writes whether nobody runs, and what the process does that a word looks at.
fn show_going(
    session: &Session,
    focus: Option<Pid>,
    told: &str,
    answer: &mut String,
) -> Result<(), AllocError>
    ensures { OnOk result
        (Writes (string_bytes answer.old) (string_bytes answer.new) (IsGoingText session.now focus)) }
{
    answer.push_str(if_nobody(session.machine().current()))?;
    show_looked_at(session, focus, told, answer)
}

/// Writes that the machine has halted.
fn show_halted(status: i32, answer: &mut String) -> Result<(), AllocError>
    ensures { OnOk result (string_bytes answer.new ≡ string_bytes answer.old ++ halted_text status) }
{
    writeln!(answer, "the machine has halted, with status {status}")
}

/// Writes where the run is, what the process does that a word looks at, and what else is told of it.
fn show_at(
    session: &Session,
    focus: Option<Pid>,
    told: &str,
    answer: &mut String,
) -> Result<(), AllocError>
    ensures { OnOk result
        (Writes (string_bytes answer.old) (string_bytes answer.new) (IsWhereText session.now focus)) }
{
    show_place(session, answer)?;
    match session.machine().halted() {
        Some(status) => show_halted(status, answer),
        None => show_going(session, focus, told, answer),
    }
}

/// Writes where the run is, what the process does that a word looks at, and so many instructions from its pc on.
pub(crate) fn show_where(
    alloc: Global,
    session: &Session,
    sources: Option<&Sources>,
    focus: Option<Pid>,
    count: u32,
    answer: &mut String,
) -> Result<(), AllocError>
    ensures { OnOk result
        (Writes (string_bytes answer.old) (string_bytes answer.new) (IsWhereText session.now focus)) }
{
    let told = listed_of(alloc, session, sources, &focus, count)?;
    show_at(session, focus, told.as_str(), answer)
}

/// The pid of a parent; 0 if there is none.
fn or_zero(parent: Option<Pid>) -> u32
    ensures { result ≡ or_zero parent }
{
    match parent {
        Some(parent) => parent.number(),
        None => 0,
    }
}

/// The pid of a process's parent; 0 if it has none.
fn parent_number(machine: &Machine, pid: Pid) -> u32
    ensures { result ≡ parent_in (process_at machine.now.world pid) }
{
    match machine.process(pid) {
        Some(ProcessState::Live { parent, .. }) => or_zero(parent),
        Some(ProcessState::Zombie { parent, .. }) => or_zero(parent),
        None => 0,
    }
}

/// A mark by kill, if there is one.
fn mark_text(marked: bool) -> &'static str
    ensures { result.now ≡ mark_text marked }
{
    if marked { ", marked by kill" } else { "" }
}

/// What is told of a process that is marked by kill.
fn marked_text(machine: &Machine, pid: Pid) -> &'static str
    ensures { result.now ≡ marked_text (process_at machine.now.world pid) }
{
    match machine.process(pid) {
        Some(ProcessState::Live { marked, .. }) => mark_text(marked),
        Some(ProcessState::Zombie { .. }) => "",
        None => "",
    }
}

/// The name of the program that a process runs, or a stroke if it runs none.
fn name_or_stroke(session: &Session, pid: Pid) -> &[u8]
    ensures { result.now ≡ or_stroke (name_in session.now pid) }
{
    match program_name(session, pid) {
        Some(name) => name,
        None => b"-".as_slice(),
    }
}

/// How many bytes the memory of a process has: none if it doesn't live.
fn size_of(machine: &Machine, pid: Pid) -> u64
    ensures { result ≡ or_zero (size_of machine.now.world.state pid) }
{
    match machine.size(pid) {
        Some(size) => size,
        None => 0,
    }
}

/// Writes the line of a process.
fn show_line(session: &Session, pid: Pid, answer: &mut String) -> Result<(), AllocError>
    ensures { OnOk result (string_bytes answer.new ≡ string_bytes answer.old ++ line_text session.now pid) }
{
    let machine = session.machine();
    let number = pid.number();
    let parent = parent_number(machine, pid);
    let kib = Grouped(size_of(machine, pid) / 1024);
    let name = Plain(name_or_stroke(session, pid));
    let doing = Doing { machine, pid };
    let marked = marked_text(machine, pid);
    writeln!(
        answer,
        "{number:>5} {parent:>6} {kib:>9}  {name:<14} {doing}{marked}"
    )
}

/// Writes which process is the next, if there are more.
fn show_more(next: Option<Pid>, answer: &mut String) -> Result<(), AllocError>
    ensures { OnOk result (string_bytes answer.new ≡ string_bytes answer.old ++ more_text next) }
{
    let Some(pid) = next else {
        return Ok(());
    };
    let number = pid.number();
    writeln!(answer, "there are more: ps {number} goes on")
}

/// Writes the processes from a pid on, so many at most.
fn show_from(
    session: &Session,
    lines: u32,
    from: u32,
    answer: &mut String,
) -> Result<(), AllocError>
    ensures { OnOk result (Writes (string_bytes answer.old) (string_bytes answer.new) (AreLines session.now lines from)) }
{
    let next = least_from(session.machine(), from);
    if lines == 0 {
        return show_more(next, answer);
    }
    let Some(pid) = next else {
        return Ok(());
    };
    show_line(session, pid, answer)?;
    show_from(session, lines - 1, pid.number() + 1, answer)
}

/// Writes the processes, from a pid on.
pub(crate) fn show_processes(
    session: &Session,
    from: u32,
    answer: &mut String,
) -> Result<(), AllocError>
    ensures { OnOk result (Writes (string_bytes answer.old) (string_bytes answer.new) (IsProcessesText session.now from)) }
{
    answer.push_str("  pid parent  size/KiB  program        what it does\n")?;
    show_from(session, LINES_MOST, from, answer)
}
