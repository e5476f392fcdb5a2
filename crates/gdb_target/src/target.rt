//! What GDB debugs: a machine that goes on by its plan.
ghost use Rattle.std.specs.Prelude.{◌≡◌, ◌⊎◌, ◌+◌, ◌≤◌, ◌<◌, None, Some, false, true, IfOk, IfSome, IsSome, length, max};
ghost use Rattle.kernel_spec.specs.views.State.{live};
ghost use Rattle.xv_machine.specs.Events.{outcome_of};
ghost use Rattle.gdb_target.specs.Before as meant;
ghost use Rattle.gdb_target.specs.Beginning.{IsFresh};
ghost use Rattle.gdb_target.specs.Choices.{IsAlive, StopsAt, choices};
ghost use Rattle.gdb_target.specs.Forth.{Goes, GoesBy, IsEndOf, IsJudged, IsStepper, IsUnseen, IsUsedOrJudged, Stands};
ghost use Rattle.gdb_target.specs.Forth.{current_of, end_of, goes_on, halted_of, is_reached, looks_at_each, or_shows, shows, standing};
ghost use Rattle.gdb_target.specs.LetRun.{lets, teller};
ghost use Rattle.gdb_target.specs.Plan.{planned_at};
ghost use Rattle.gdb_target.specs.PlayedBy.{is_run};
ghost use Rattle.gdb_target.specs.Touches.{watched_addresses};
ghost use Rattle.gdb_target.specs.SameRun.{beginning};
ghost use Rattle.gdb_target.specs.Standing.{NextIsRun, StandsAt};
ghost use Rattle.gdb_target.specs.Told.{state_of};

use crate::fast::rows::watched_bytes;
use crate::let_run::{LetRun, if_let, lets, teller};
use crate::outcomes::{ends_alone, is_step_of};
use crate::places::{at_breakpoint, changed, if_told, watched_now};
use crate::played::{Played, is_run};
use crate::points::Points;
use crate::threads::live_or_other;
use crate::touches::{Touch, told_of};
use gdb_packets::{Stop, StopReason};
use std::alloc::Global;
use xk_base::{Cause, Pid};
use xv_machine::Outcome;
use xv_session::SessionError;

/// How many bytes of the console are told at once.
const SHOWN_MOST: usize = 512;

/// A stop of a process, and why it stopped.
#[derive(Clone, Copy)]
pub struct Stopped {
    pub reason: StopReason,
    pub pid: Pid,
}

impl Stopped {
    /// As GDB is told of it: a thread's number is its pid.
    pub fn stop(&self) -> Stop
        ensures { result ≡ record { reason = self.now.reason; thread = self.now.pid } }
    {
        Stop {
            reason: self.reason,
            thread: u64::from(self.pid.number()),
        }
    }
}

/// A machine, and what GDB has chosen of it.
#[derive(Drop)]
pub struct Target {
    pub run: Played,
    pub points: Points,
    /// The place of the program that GDB knows, among the machine's programs.
    pub program: usize,
    /// The path of its file.
    pub path: String,
    /// The process whose registers and memory are asked for.
    pub looked_at: Pid,
    /// The process that `Hc` chose to run alone, if it chose one.
    pub resumed: Option<Pid>,
    /// The most events of one command that goes on.
    pub most: u32,
    /// The last stop.
    pub stopped: Stopped,
    /// Whether an interrupt came since the last stop.
    pub interrupted: bool,
    /// Bytes of the console that aren't told yet.
    pub shown: Vec<u8>,
    /// The place up to which the console's bytes were noted: they are told once.
    noted: u64,
    /// The place at which a fault or the end was told, which isn't told there again.
    told: Option<u64>,
}

/// What ends a command that goes on, beside a point, a fault and the end.
#[derive(Clone, Copy)]
pub enum Until {
    /// Nothing.
    Point,
    /// An instruction of this process.
    StepOf(Pid),
    /// An instruction of whatever process.
    AnyStep,
}

/// How a command goes on.
#[derive(Clone, Copy)]
pub struct Way {
    pub until: Until,
    pub let_run: LetRun,
}

/// A command that goes on.
#[derive(Clone, Copy)]
pub struct Going {
    pub way: Way,
    /// The place of the run after which it sends no event.
    pub end: u64,
    /// The place at which a fault or the end was told, and is let happen now.
    pub passes: Option<u64>,
}

/// Why it pauses.
#[derive(Clone, Copy)]
pub enum Pause {
    /// The console shows bytes; then it goes on.
    Shows,
    Stopped(Stopped),
    /// The process that was let run alone is gone.
    Gone,
    /// Process 1 is gone, with this status, and all that the console has to show is shown.
    Ended(i32),
}

/// Why a process stops that has this fault.
fn reason_of(cause: Cause) -> StopReason
    ensures { result ≡ meant.reason_of cause }
{
    match cause {
        Cause::Breakpoint => StopReason::Trap,
        Cause::IllegalInstruction => StopReason::Illegal,
        Cause::TargetMisaligned | Cause::LoadMisaligned | Cause::StoreMisaligned => {
            StopReason::Misaligned
        }
        Cause::FetchPageFault | Cause::LoadPageFault | Cause::StorePageFault => {
            StopReason::Segmentation
        }
    }
}

/// The stop that is told before the end of this process, if it is process 1.
fn end_told(let_run: LetRun, pid: Pid) -> Option<Stopped>
    ensures { result ≡ meant.end_told let_run pid }
{
    if pid.number() == 1 {
        return Some(Stopped {
            reason: StopReason::End,
            pid: teller(let_run, pid),
        });
    }
    None
}

/// The stop that is told before a fault of this process: the fault, if the process is let run.
fn fault_told(let_run: &LetRun, pid: Pid, cause: Cause) -> Option<Stopped>
    ensures { result ≡ meant.fault_told let_run.now pid cause }
{
    if lets(*let_run, pid) {
        return Some(Stopped {
            reason: reason_of(cause),
            pid,
        });
    }
    end_told(*let_run, pid)
}

/// The stop that is told before this comes: a fault of a process that is let run, and the end of process 1.
fn told_before(let_run: LetRun, outcome: &Outcome) -> Option<Stopped>
    ensures { result ≡ meant.told_before let_run (outcome_of outcome.now) }
{
    match outcome {
        Outcome::Faulted { pid, cause } => fault_told(&let_run, *pid, *cause),
        Outcome::Exited { pid, .. } => end_told(let_run, *pid),
        _ => None,
    }
}

/// This pause, or one that tells what the console shows.
fn or_shows(pause: Option<Pause>, shows: bool) -> Option<Pause>
    ensures { result ≡ or_shows pause shows }
{
    match pause {
        Some(pause) => Some(pause),
        None => { if shows { Some(Pause::Shows) } else { None } }
    }
}

impl Target {
    /// A machine, at the place at which GDB begins. What the console showed before isn't told, unless the run begins anew.
    /// A command that goes on sends `most` events at most.
    pub fn new(alloc: Global, run: Played, program: usize, path: String, most: u32) -> Target
        ensures run { result.run ≡ run }
        ensures program { result.program ≡ program }
        ensures path { result.path ≡ path }
        ensures most { result.most ≡ most }
        ensures reason { result.stopped.reason ≡ StopReason.Trap }
        ensures pid { result.stopped.pid ≡ 1 }
        ensures looked_at { result.looked_at ≡ 1 }
        ensures fresh { IsFresh result }
    {
        let first = Pid::new(1);
        let noted = run.at();
        Target {
            run,
            points: Points::new(alloc),
            program,
            path,
            looked_at: first,
            resumed: None,
            most,
            stopped: Stopped {
                reason: StopReason::Trap,
                pid: first,
            },
            interrupted: false,
            shown: Vec::new(alloc),
            noted,
            told: None,
        }
    }

    /// A command that goes on from here, by so many events as one may send.
    pub fn going(&mut self, way: Way) -> Going
        ensures way { result.way ≡ way }
        ensures end { result.end ≡ end_of self.old }
        ensures rest { self.new ≡ record self.old { told = None } }
    {
        let passes = self.told.take();
        Going {
            way,
            end: self.run.at().saturating_add(u64::from(self.most)),
            passes,
        }
    }

    /// A stop for this reason of the process that runs, or else of the one that stopped last, or of one that lives.
    pub fn stop_here(&self, reason: StopReason) -> Stopped
        ensures { result.reason ≡ reason }
    {
        let pid = match self.run.machine().current() {
            Some(pid) => pid,
            None => self.alive(self.stopped.pid),
        };
        Stopped { reason, pid }
    }

    /// This process, if it lives, or else one that does; this one, if none is left.
    fn alive(&self, pid: Pid) -> Pid
        ensures lives { IsAlive (state_of self.now) result }
        ensures same { IsSome (live (state_of self.now) pid) → result ≡ pid }
    {
        match live_or_other(self.run.machine(), pid) {
            Some(other) => other,
            None => pid,
        }
    }

    /// A stop for this reason of the process that is let run alone; or, if all are, as [`Target::stop_here`] says.
    pub fn stop_of_run(&self, let_run: LetRun, reason: StopReason) -> Stopped
        ensures reason { result.reason ≡ reason }
        ensures lets { lets let_run result.pid ≡ true }
    {
        let here = self.stop_here(reason);
        Stopped {
            reason,
            pid: teller(let_run, here.pid),
        }
    }

    /// From now on this is the last stop, and its process is the one that is looked at. If it is gone, one that lives
    /// takes its place.
    pub fn stop_at(&mut self, stopped: &Stopped)
        ensures { StopsAt self.old stopped.now.reason stopped.now.pid self.new }
    {
        let pid = self.alive(stopped.pid);
        self.stopped = Stopped {
            reason: stopped.reason,
            pid,
        };
        self.looked_at = pid;
    }

    /// Whether an interrupt came since the last stop; from now on none did.
    pub fn take_interrupt(&mut self) -> bool
        ensures came { result ≡ self.old.interrupted }
        ensures rest { self.new ≡ record self.old { interrupted = false } }
    {
        let came = self.interrupted;
        self.interrupted = false;
        came
    }

    /// The console's bytes that aren't told yet; from now on they are.
    pub fn take_shown(&mut self, alloc: Global) -> Vec<u8>
        ensures shown { result ≡ self.old.shown }
        ensures rest { self.new ≡ record self.old { shown = self.new.shown } }
    {
        std::mem::replace(&mut self.shown, Vec::new(alloc))
    }

    /// The run begins anew. What the console shows is told once more.
    pub fn reboot(&mut self, alloc: Global) -> Result<(), SessionError>
        ensures boot { IfOk result (λ _. length self.new.run.session.events ≡ 0) }
        ensures same { beginning self.new.run ≡ beginning self.old.run }
        ensures choices { choices self.new ≡ choices self.old }
    {
        self.run.back_to(alloc, 0)?;
        self.noted = 0;
        self.told = None;
        Ok(())
    }

    /// A fault or the end that was told may be told again.
    pub(crate) fn forget_told(&mut self)
        ensures run { self.new.run ≡ self.old.run }
        ensures choices { choices self.new ≡ choices self.old }
    {
        self.told = None;
    }

    /// Goes back by one event, of which this came, to tell of it before it happens; if that was done, it tells what stands
    /// here.
    fn before_last(
        &mut self,
        alloc: Global,
        going: &Going,
        stopped: Stopped,
        outcome: &Outcome,
    ) -> Result<Option<Pause>, SessionError>
        ensures within { length self.new.run.session.events ≤ length self.old.run.session.events }
        ensures judged { IfOk result (λ p. IsJudged going.now.way (Some stopped) (outcome_of outcome.now) self.old p self.new) }
        ensures same { beginning self.new.run ≡ beginning self.old.run }
        ensures choices { choices self.new ≡ choices self.old }
    {
        let place = self.run.at().saturating_sub(1);
        if going.passes == Some(place) {
            return Ok(self.stands(going.way, outcome));
        }
        self.run.back_to(alloc, place)?;
        self.told = Some(place);
        Ok(Some(Pause::Stopped(stopped)))
    }

    /// Notes what the console shows, and tells whether it is to be told now.
    fn note(&mut self, bytes: &[u8]) -> Result<bool, SessionError>
        ensures run { self.new.run ≡ self.old.run }
        ensures choices { choices self.new ≡ choices self.old }
    {
        let Ok(()) = self.shown.extend_from_slice(bytes) else {
            return Err(SessionError::Memory);
        };
        Ok(bytes.last() == Some(&b'\n') || self.shown.len() >= SHOWN_MOST)
    }

    /// Notes what the console shows by the event at this place, unless it was noted; tells whether it is to be told now.
    fn note_once(&mut self, place: u64, bytes: &[u8]) -> Result<bool, SessionError>
        ensures run { self.new.run ≡ self.old.run }
        ensures choices { choices self.new ≡ choices self.old }
    {
        if place < self.noted {
            return Ok(false);
        }
        self.noted = place.saturating_add(1);
        self.note(bytes)
    }

    /// The status of process 1, if it is gone, and this came of a Send, and no byte was left to send.
    fn ended(&self, outcome: &Outcome) -> Option<i32>
        ensures { IfSome result (λ status. IsEndOf (outcome_of outcome.now) status self.now) }
    {
        match outcome {
            Outcome::Sent(None) => self.run.machine().halted(),
            _ => None,
        }
    }

    /// Sends an event that isn't Run, and notes what the console shows. If process 1 is gone, it ends once no byte
    /// waits to be sent.
    fn send_other(&mut self, going: &Going) -> Result<Option<Pause>, SessionError>
        requires { is_run (planned_at self.old.run.plan (length self.old.run.session.events)) ≡ false }
        ensures within { length self.new.run.session.events ≤ length self.old.run.session.events + 1 }
        ensures more { IfOk result (λ _. length self.old.run.session.events < length self.new.run.session.events) }
        ensures goes { IfOk result (λ p. Goes going.now.way self.old p self.new) }
        ensures same { beginning self.new.run ≡ beginning self.old.run }
        ensures choices { choices self.new ≡ choices self.old }
    {
        let place = self.run.at();
        let outcome = self.run.send()?;
        let shows = self.note_once(place, outcome.shown())?;
        if let Some(status) = self.ended(&outcome) {
            return Ok(Some(Pause::Ended(status)));
        }
        let pause = self.stands(going.way, &outcome);
        Ok(or_shows(pause, shows))
    }

    /// What stops the program after Runs of which this came last.
    pub(crate) fn judged(
        &mut self,
        alloc: Global,
        going: &Going,
        outcome: &Outcome,
    ) -> Result<Option<Pause>, SessionError>
        ensures within { length self.new.run.session.events ≤ length self.old.run.session.events }
        ensures judged { IfOk result
            (λ p. IsJudged going.now.way (meant.told_before going.now.way.let_run (outcome_of outcome.now)) (outcome_of outcome.now) self.old p self.new) }
        ensures same { beginning self.new.run ≡ beginning self.old.run }
        ensures choices { choices self.new ≡ choices self.old }
    {
        match told_before(going.way.let_run, outcome) {
            Some(stopped) => self.before_last(alloc, going, stopped, outcome),
            None => Ok(self.stands(going.way, outcome)),
        }
    }

    /// What stops the program after Runs of which this came last: the use that its instruction or its kernel call made of
    /// watched bytes, or else what [`Target::judged`] tells.
    fn used_or_judged(
        &mut self,
        alloc: Global,
        going: &Going,
        used: &Option<Touch>,
        outcome: &Outcome,
    ) -> Result<Option<Pause>, SessionError>
        ensures within { length self.new.run.session.events ≤ length self.old.run.session.events }
        ensures judged { IfOk result
            (λ p. IsUsedOrJudged going.now.way used.now (outcome_of outcome.now) self.old p self.new) }
        ensures same { beginning self.new.run ≡ beginning self.old.run }
        ensures choices { choices self.new ≡ choices self.old }
    {
        match used {
            Some(touch) => Ok(Some(Pause::Stopped(touch.stopped()))),
            None => self.judged(alloc, going, outcome),
        }
    }

    /// The process that stands at a breakpoint, if it is let run.
    pub(crate) fn standing(&self, let_run: LetRun) -> Option<Pid>
        ensures is { result ≡ standing let_run self.now }
        ensures stands { IfSome result (λ pid. StandsAt self.now.run self.now.program self.now.points.breakpoints.items pid × (lets let_run pid ≡ true)) }
    {
        if_let(
            let_run,
            at_breakpoint(&self.run, &self.points, self.program),
        )
    }

    /// The process that did a step: the one whose step was waited for, or else the one that runs.
    fn stepper(&self, until: Until) -> Pid
        ensures { IsStepper until result }
    {
        match until {
            Until::StepOf(pid) => pid,
            Until::Point => self.stop_here(StopReason::Trap).pid,
            Until::AnyStep => self.stop_here(StopReason::Trap).pid,
        }
    }

    /// Whether it is so, and the machine hasn't halted.
    fn is_reached(&self, done: bool) -> bool
        ensures { result ≡ is_reached done self.now }
    {
        done && self.run.machine().halted().is_none()
    }

    /// What stops the program here, after this came: that the process is gone that is let run alone; a step that is done;
    /// or a process that stands at a breakpoint. A machine that has halted stops for nothing: it goes on until all is shown.
    fn stands(&self, way: Way, outcome: &Outcome) -> Option<Pause>
        ensures { Stands way (outcome_of outcome.now) self.now result }
    {
        if self.is_reached(ends_alone(outcome, way.let_run)) {
            return Some(Pause::Gone);
        }
        if self.is_reached(is_step_of(outcome, way.until)) {
            return Some(Pause::Stopped(Stopped {
                reason: StopReason::Trap,
                pid: teller(way.let_run, self.stepper(way.until)),
            }));
        }
        let Some(pid) = self.standing(way.let_run) else {
            return None;
        };
        Some(Pause::Stopped(Stopped {
            reason: StopReason::Trap,
            pid,
        }))
    }

    /// So many Runs, or those before the place `end`.
    pub(crate) fn all_before(&self, count: u32, end: u64) -> u32
        requires some { 0 < count }
        requires room { length self.now.run.session.events < end }
        ensures some { 0 < result }
        ensures within { length self.now.run.session.events + result ≤ end }
    {
        u64::from(count).min(end - self.run.at()) as u32
    }

    /// How many Runs are sent at once, of so many, before the place `end`: one, if somebody runs.
    pub(crate) fn runs_before(&self, count: u32, end: u64) -> u32
        requires some { 0 < count }
        requires room { length self.now.run.session.events < end }
        ensures some { 0 < result }
        ensures within { length self.now.run.session.events + result ≤ end }
        ensures single { (result ≡ 1) ⊎ (current_of self.now ≡ None) }
    {
        match self.run.machine().current() {
            Some(_pid) => 1,
            None => self.all_before(count, end),
        }
    }

    /// Whether each place is looked at at which somebody runs.
    fn looks_at_each(&self, until: Until) -> bool
        ensures { result ≡ looks_at_each until self.now.points }
    {
        match until {
            Until::Point => !self.points.is_empty(),
            Until::StepOf(_) => true,
            Until::AnyStep => true,
        }
    }

    /// How many Runs are sent at once, of so many: one, if the place after it is to be looked at.
    fn runs_at_once(&self, going: &Going, count: u32) -> u32
        requires some { 0 < count }
        requires room { length self.now.run.session.events < going.now.end }
        ensures some { 0 < result }
        ensures within { length self.now.run.session.events + result ≤ going.now.end }
        ensures single { (result ≡ 1) ⊎ IsUnseen going.now.way.until self.now }
    {
        if self.looks_at_each(going.way.until) {
            return self.runs_before(count, going.end);
        }
        self.all_before(count, going.end)
    }

    /// Sends Runs, so many at most, up to one that stops the program.
    fn send_runs(
        &mut self,
        alloc: Global,
        going: &Going,
        most: u32,
    ) -> Result<Option<Pause>, SessionError>
        requires some { 0 < most }
        requires runs { NextIsRun self.old.run }
        requires single { (most ≡ 1) ⊎ IsUnseen going.now.way.until self.old }
        ensures within { length self.new.run.session.events ≤ length self.old.run.session.events + most }
        ensures more { IfOk result (λ p. goes_on p ≡ true → length self.old.run.session.events < length self.new.run.session.events) }
        ensures goes { IfOk result (λ p. Goes going.now.way self.old p self.new) }
        ensures same { beginning self.new.run ≡ beginning self.old.run }
        ensures choices { choices self.new ≡ choices self.old }
    {
        let Ok(before) = watched_now(alloc, &self.run, &self.points, self.program) else {
            return Err(SessionError::Memory);
        };
        let ahead = self.ahead(&going.way.let_run);
        let Some(outcome) = self.run.run(most)? else {
            unreachable!();
        };
        let change = changed(&self.run, &self.points, self.program, &before);
        if let Some(change) = if_told(change, going.way.let_run) {
            return Ok(Some(Pause::Stopped(change.stopped())));
        }
        let used = told_of(&self.points, &ahead, &outcome);
        self.used_or_judged(alloc, going, &used, &outcome)
    }

    /// Sends the next event, or so many Runs.
    fn send_next(
        &mut self,
        alloc: Global,
        going: &Going,
        bytes: &[u64],
    ) -> Result<Option<Pause>, SessionError>
        requires watched { bytes.now ≡ watched_addresses self.old.points }
        requires room { length self.old.run.session.events < going.now.end }
        ensures within { length self.new.run.session.events ≤ going.now.end }
        ensures more { IfOk result (λ p. goes_on p ≡ true → length self.old.run.session.events < length self.new.run.session.events) }
        ensures goes { IfOk result (λ p. GoesBy going.now.way self.old p self.new) }
        ensures same { beginning self.new.run ≡ beginning self.old.run }
        ensures choices { choices self.new ≡ choices self.old }
    {
        let next = self.run.next();
        if !is_run(next.event) {
            return self.send_other(going);
        }
        if self.starts_row(going.way.until, bytes) {
            return self.send_row(alloc, going, bytes);
        }
        let most = self.runs_at_once(going, next.count);
        self.send_runs(alloc, going, most)
    }

    /// Goes on until it pauses. No event is sent after the end of the command; `None` if it has come so far, and
    /// nothing paused it.
    ///
    /// # Errors
    ///
    /// [`SessionError`] if the host has too little memory, or the session keeps as many events as it can: it
    /// stands at a place of the same run, from which it can go on.
    pub fn go(&mut self, alloc: Global, going: &Going) -> Result<Option<Pause>, SessionError>
        ensures within { length self.new.run.session.events ≤ max (length self.old.run.session.events) going.now.end }
        ensures over { IfOk result (λ p. p ≡ None → going.now.end ≤ length self.new.run.session.events) }
        ensures shown { IfOk result (λ p. shows p ≡ true → length self.old.run.session.events < length self.new.run.session.events) }
        ensures goes { IfOk result (λ p. GoesBy going.now.way self.old p self.new) }
        ensures same { beginning self.new.run ≡ beginning self.old.run }
        ensures choices { choices self.new ≡ choices self.old }
    {
        let Ok(bytes) = watched_bytes(alloc, &self.points) else {
            return Err(SessionError::Memory);
        };
        'events: while self.run.at() < going.end {
            let pause = self.send_next(alloc, going, bytes.as_slice())?;
            let Some(pause) = pause else {
                continue;
            };
            return Ok(Some(pause));
        }
        Ok(None)
    }
}
