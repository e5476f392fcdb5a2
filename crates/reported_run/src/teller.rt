//! What is told of a run while it goes on, and at its end.
ghost use Rattle.std.specs.Prelude.{◌≡◌, [], true, false, option_map, IfSome, Some};
ghost use Rattle.call_reasons.specs.Last.{IsReasonOfLast};
ghost use Rattle.kcall_core.specs.Observers.{registers_of};
ghost use Rattle.program_files.specs.Failures.{failure_status};
ghost use Rattle.program_files.specs.Statuses.{status_of};
ghost use Rattle.xv_machine.specs.Events.{outcome_of};
ghost use Rattle.reported_run.specs.Known.{known_of, learned, learned_by, runner_place, with_call};
ghost use Rattle.recorded_runs.specs.Replays as replays;
ghost use Rattle.reported_run.specs.Stops.{stop_status};

use crate::NAME;
use crate::ends::{CallMade, Ends, Kill};
use crate::letters::{Key, Letter};
use crate::line::Telling;
use crate::stop::Stop;
use call_reasons::{REFUSED, Reason, reason_of_last};
use program_files::{Failure, close_run, show_trace};
use recorded_runs::{PLAYED_AGAIN, RecordEnd, close_record};
use run_work::{Work, close_over_budget};
use std::alloc::Global;
use std::io::Write;
use xk_base::Pid;
use xk_base::limits::NPROC;
use xv_machine::{DeviceFault, DriveEnd, DriveError, Event, Outcome};
use xv_report::text::{Asleep, FaultText, KillText, Name, Place, RefusedText, WaitLine, Who};
use xv_report::{
    FaultReport, Hint, Sources, call_name, cause_text, report_at, source_of, waits_for,
};
use xv_session::{Named, Runs, Session};

/// The process that runs, as it is before Runs are sent: behind them it may be gone.
#[derive(Clone, Copy)]
pub(crate) struct Runner {
    /// `None` if none runs.
    pid: Option<Pid>,
    /// The place of its program.
    program: Option<usize>,
}

/// Tells of a run. What can't be written is left out, so no contract says what is told.
#[derive(Drop)]
pub(crate) struct Teller<E> {
    alloc: Global,
    errors: E,
    /// What is known of the sources of the programs.
    sources: Sources,
    /// What is told of events as they come.
    telling: Telling,
    /// Which program each process runs, as it was told last by lines of a trace.
    named: Vec<Named>,
    /// Done instructions that aren't told yet, and whose they are.
    steps: u64,
    stepper: Runner,
    /// Runs in which nobody may run that aren't told yet.
    idles: u64,
    /// Whether it is told that the machine has halted.
    halted: bool,
    /// Kills and refused growths, which may be told of later ends.
    ends: Ends,
    /// How many events may still be played again.
    plays_left: u64,
}

/// The process that runs.
pub(crate) fn running_now(session: &Session) -> Runner
    ensures { result.program ≡ runner_place session.now }
{
    let pid = session.machine().current();
    let program = match pid {
        Some(pid) => session.program_of(pid),
        None => None,
    };
    Runner { pid, program }
}

/// A process, with the program of this place.
fn who<'a>(session: &'a Session, pid: Pid, program: Option<usize>) -> Who<'a> {
    let name = match program {
        Some(place) => match session.machine().programs().get(place) {
            Some(program) => Some(program.name.as_slice()),
            None => None,
        },
        None => None,
    };
    Who { pid, program: name }
}

/// Where a call was made.
fn place_of<'a>(sources: &'a Sources, session: &'a Session, call: &CallMade) -> Place<'a> {
    Place {
        address: call.at,
        source: source_of(Some(sources), session, call.program),
    }
}

/// A fault, as text; `None` if there is no memory for it.
fn fault_text<'a>(
    alloc: Global,
    report: &'a FaultReport,
    sources: &'a Sources,
    session: &'a Session,
    program: Option<usize>,
) -> Option<String> {
    let text = FaultText {
        report,
        program: who(session, report.fault.step.pid, program).program,
        source: source_of(Some(sources), session, program),
    };
    text.to_string(alloc).ok()
}

/// That a process was killed, as text; `None` if there is no memory for it.
fn kill_text<'a>(
    alloc: Global,
    sources: &'a Sources,
    session: &'a Session,
    kill: &Kill,
    program: Option<usize>,
) -> Option<String> {
    let by = kill.by;
    let text = KillText {
        victim: kill.victim,
        program: who(session, kill.victim, program).program,
        killer: by.pid,
        killer_program: who(session, by.pid, by.program).program,
        place: place_of(sources, session, &by),
    };
    text.to_string(alloc).ok()
}

/// That a growth was refused, as text; `None` if there is no memory for it.
fn refused_text<'a>(
    alloc: Global,
    sources: &'a Sources,
    session: &'a Session,
    refused: &CallMade,
) -> Option<String> {
    let text = RefusedText {
        call: call_name(refused.number).unwrap_or("call"),
        place: place_of(sources, session, refused),
    };
    text.to_string(alloc).ok()
}

/// Why a live process doesn't go on, as text; `None` if there is no memory for it.
fn wait_text<'a>(
    alloc: Global,
    sources: &'a Sources,
    session: &'a Session,
    pid: Pid,
) -> Option<String> {
    let line = WaitLine {
        session,
        pid,
        source: source_of(Some(sources), session, session.program_of(pid)),
    };
    line.to_string(alloc).ok()
}

impl<E: Write> Teller<E> {
    /// Nothing is told yet.
    pub fn new(alloc: Global, errors: E, sources: Sources, telling: Telling) -> Teller<E>
        ensures telling { result.telling ≡ telling }
        ensures steps { result.steps ≡ 0 }
        ensures idles { result.idles ≡ 0 }
        ensures halted { result.halted ≡ false }
        ensures kills { result.ends.kills.items ≡ [] }
        ensures refused { result.ends.refused.items ≡ [] }
        ensures complete { result.ends.complete ≡ true }
    {
        Teller {
            alloc,
            errors,
            sources,
            telling,
            named: Vec::new(alloc),
            steps: 0,
            stepper: Runner {
                pid: None,
                program: None,
            },
            idles: 0,
            halted: false,
            ends: Ends::new(alloc),
            plays_left: PLAYED_AGAIN,
        }
    }

    /// Tells what came of Runs.
    pub fn tell_runs(&mut self, session: &Session, runner: &Runner, runs: &Runs)
        ensures ends { self.new.ends.complete ≡ true → known_of self.new.ends ≡ learned session.now runner.now.program (option_map outcome_of runs.now.last) (known_of self.old.ends) }
        ensures complete { self.new.ends.complete ≡ true → self.old.ends.complete ≡ true }
    {
        match self.telling {
            Telling::Faults => {}
            Telling::Words => self.explain_runs(session, runner, runs),
            Telling::Notes => self.note_runs(session, runner, runs),
        }
        if let Some(last) = &runs.last {
            self.tell_end(session, runner, last);
        }
    }

    /// Notes a call that may be told later, or tells why a process is gone, if it is by a fault or a kill.
    fn tell_end(&mut self, session: &Session, runner: &Runner, last: &Outcome)
        ensures ends { self.new.ends.complete ≡ true → known_of self.new.ends ≡ learned_by session.now runner.now.program (outcome_of last.now) (known_of self.old.ends) }
        ensures complete { self.new.ends.complete ≡ true → self.old.ends.complete ≡ true }
    {
        match last {
            Outcome::Called { pid, number, value } => {
                self.note_call(session, runner, *pid, *number, *value)
            }
            Outcome::Faulted { pid, .. } => {
                self.tell_fault(session, *pid, runner);
                self.ends.forget(*pid);
            }
            Outcome::Exited { pid, .. } => {
                self.tell_kill(session, *pid, runner);
                self.ends.forget(*pid);
            }
            _ => {}
        }
    }

    /// Notes the call of the last event.
    fn note_call(&mut self, session: &Session, runner: &Runner, pid: Pid, number: i32, value: i64)
        ensures ends { self.new.ends.complete ≡ true → known_of self.new.ends ≡ with_call session.now pid runner.now.program number value (registers_of session.now.machine.world.state pid) (known_of self.old.ends) }
        ensures complete { self.new.ends.complete ≡ true → self.old.ends.complete ≡ true }
    {
        let Some(regs) = session.machine().registers(pid) else {
            return;
        };
        let call = CallMade {
            pid,
            program: runner.program,
            number,
            at: regs.pc().wrapping_sub(4),
        };
        self.ends.note_call(session, &call, value);
    }

    /// Tells who has killed a process that is gone, if it was killed.
    fn tell_kill(&mut self, session: &Session, pid: Pid, runner: &Runner)
        ensures ends { self.new.ends ≡ self.old.ends }
    {
        let Some(kill) = self.ends.kill_of(pid) else {
            return;
        };
        let text = kill_text(self.alloc, &self.sources, session, &kill, runner.program);
        if let Some(text) = text {
            let _ = writeln!(self.errors, "{text}");
        }
    }

    /// Tells the fault of the last event.
    fn tell_fault(&mut self, session: &Session, pid: Pid, runner: &Runner)
        ensures ends { self.new.ends ≡ self.old.ends }
    {
        let place = session.at().saturating_sub(1);
        let source = source_of(Some(&self.sources), session, runner.program);
        if let Ok(Some(report)) = report_at(self.alloc, session, place, &source) {
            let text = fault_text(self.alloc, &report, &self.sources, session, runner.program);
            if let Some(text) = text {
                let _ = writeln!(self.errors, "{text}");
                self.tell_refused(session, pid, runner, report.hint);
                return;
            }
        }
        let who = who(session, pid, runner.program);
        let _ = writeln!(self.errors, "{who}: a fault, and no memory to tell it");
    }

    /// Tells the growth that a process was refused, if its fault is one of a null pointer.
    fn tell_refused(&mut self, session: &Session, pid: Pid, runner: &Runner, hint: Option<Hint>)
        ensures ends { self.new.ends ≡ self.old.ends }
    {
        let Some(Hint::NullPointer { .. }) = hint else {
            return;
        };
        let Some(refused) = self.ends.refused_of(pid) else {
            return;
        };
        if refused.program != runner.program {
            return;
        }
        if let Some(text) = refused_text(self.alloc, &self.sources, session, &refused) {
            let _ = writeln!(self.errors, "  {text}");
        }
    }

    /// Tells in words what came of Runs.
    fn explain_runs(&mut self, session: &Session, runner: &Runner, runs: &Runs)
        ensures ends { self.new.ends ≡ self.old.ends }
    {
        let Some(last) = &runs.last else {
            self.add_steps(runner, runs.sent);
            return;
        };
        match last {
            Outcome::Idle => {
                self.close_steps(session);
                self.idles = self.idles.saturating_add(u64::from(runs.sent));
            }
            Outcome::Halted => self.say_halted(session),
            _ => {
                self.add_steps(runner, runs.sent.saturating_sub(1));
                self.explain(session, runner, last);
            }
        }
    }

    /// Counts done instructions.
    fn add_steps(&mut self, runner: &Runner, count: u32)
        ensures ends { self.new.ends ≡ self.old.ends }
    {
        if count == 0 {
            return;
        }
        self.close_idles();
        self.stepper = Runner {
            pid: runner.pid,
            program: runner.program,
        };
        self.steps = self.steps.saturating_add(u64::from(count));
    }

    /// Tells the done instructions that were counted.
    fn close_steps(&mut self, session: &Session)
        ensures ends { self.new.ends ≡ self.old.ends }
    {
        if self.steps == 0 {
            return;
        }
        if let Some(pid) = self.stepper.pid {
            let who = who(session, pid, self.stepper.program);
            let steps = self.steps;
            let _ = if steps == 1 {
                writeln!(self.errors, "{who} does an instruction")
            } else {
                writeln!(self.errors, "{who} does {steps} instructions")
            };
        }
        self.steps = 0;
    }

    /// Tells the Runs in which nobody could run.
    fn close_idles(&mut self)
        ensures ends { self.new.ends ≡ self.old.ends }
    {
        if self.idles == 0 {
            return;
        }
        let idles = self.idles;
        let _ = if idles == 1 {
            writeln!(self.errors, "nobody may run")
        } else {
            writeln!(self.errors, "nobody may run, in {idles} Runs")
        };
        self.idles = 0;
    }

    /// Tells all that was counted.
    pub fn close(&mut self, session: &Session)
        ensures ends { self.new.ends ≡ self.old.ends }
    {
        self.close_steps(session);
        self.close_idles();
    }

    /// Why the call of a process was refused by the last event. None is told if too many events were played again for
    /// reasons, or if the host has too little memory.
    fn reason(&mut self, session: &Session, pid: Pid) -> Option<Reason>
        ensures ends { self.new.ends ≡ self.old.ends }
        ensures reason { IfSome result (λ reason. IsReasonOfLast session.now pid (Some reason)) }
    {
        if session.at() > self.plays_left {
            return None;
        }
        self.plays_left -= session.at();
        match reason_of_last(self.alloc, session, pid) {
            Ok(reason) => reason,
            Err(_) => None,
        }
    }

    /// Tells why the call of a process was refused by the last event, if that is known.
    fn explain_refusal(&mut self, session: &Session, pid: Pid)
        ensures ends { self.new.ends ≡ self.old.ends }
    {
        if let Some(reason) = self.reason(session, pid) {
            let _ = write!(self.errors, " ({reason})");
        }
    }

    /// Tells in words what a call has answered, and why it was refused if it was.
    fn explain_call(&mut self, session: &Session, pid: Pid, number: i32, value: i64)
        ensures ends { self.new.ends ≡ self.old.ends }
    {
        let who = who(session, pid, session.program_of(pid));
        let _ = match call_name(number) {
            Some(name) => write!(self.errors, "{who}: {name} answers {value}"),
            None => write!(self.errors, "{who}: call {number} answers {value}"),
        };
        if value == REFUSED {
            self.explain_refusal(session, pid);
        }
        let _ = writeln!(self.errors);
    }

    /// Tells what came of a Run, but a done instruction, in words.
    fn explain(&mut self, session: &Session, runner: &Runner, outcome: &Outcome)
        ensures ends { self.new.ends ≡ self.old.ends }
    {
        self.close(session);
        let before = runner.program;
        match outcome {
            Outcome::Turn { pid } => {
                let who = who(session, *pid, session.program_of(*pid));
                let _ = writeln!(self.errors, "{who} has its turn");
            }
            Outcome::Called { pid, number, value } => {
                self.explain_call(session, *pid, *number, *value)
            }
            Outcome::Blocked { pid, .. } => {
                let who = who(session, *pid, session.program_of(*pid));
                let _ = match waits_for(session.machine(), *pid) {
                    Some(wait) => {
                        let asleep = Asleep(&wait);
                        writeln!(self.errors, "{who} waits in {asleep}")
                    }
                    None => writeln!(self.errors, "{who} waits"),
                };
            }
            Outcome::Exited { pid, status } => {
                let who = who(session, *pid, before);
                let _ = writeln!(self.errors, "{who} is gone, with status {status}");
            }
            Outcome::Faulted { pid, cause } => {
                let who = who(session, *pid, before);
                let reason = cause_text(*cause);
                let _ = writeln!(self.errors, "{who} is gone by a fault: {reason}");
            }
            _ => {}
        }
    }

    /// Tells once that the machine has halted.
    fn say_halted(&mut self, session: &Session)
        ensures ends { self.new.ends ≡ self.old.ends }
    {
        self.close(session);
        if !self.halted {
            let _ = writeln!(self.errors, "the machine has halted");
        }
        self.halted = true;
    }

    /// Tells what came of an event other than Run.
    pub fn tell_event(&mut self, session: &Session, event: Event, outcome: &Outcome)
        ensures ends { self.new.ends ≡ self.old.ends }
    {
        match self.telling {
            Telling::Faults => {}
            Telling::Words => self.explain_event(session, event, outcome),
            Telling::Notes => self.note_event(event, outcome),
        }
    }

    /// Writes which programs live processes run that were not told yet, each in a line: `name 3 wc`.
    pub fn note_names(&mut self, session: &Session)
        ensures ends { self.new.ends ≡ self.old.ends }
    {
        if self.telling != Telling::Notes {
            return;
        }
        let now = session.names();
        for named in now {
            if !self.named.contains(named) {
                let pid = named.pid.number();
                if let Some(program) = session.machine().programs().get(named.place) {
                    let name = Name(program.name.as_slice());
                    let _ = writeln!(self.errors, "name {pid} {name}");
                }
            }
        }
        if let Ok(named) = Vec::from_slice(self.alloc, now) {
            self.named = named;
        }
    }

    /// Writes what came of Runs, each in the trace's line.
    fn note_runs(&mut self, session: &Session, runner: &Runner, runs: &Runs)
        ensures ends { self.new.ends ≡ self.old.ends }
    {
        let Some(last) = &runs.last else {
            self.note_steps(runner, runs.sent);
            return;
        };
        match last {
            // (Nobody could run before any of them.)
            Outcome::Idle | Outcome::Halted => {
                for _ in 0..runs.sent {
                    let _ = writeln!(self.errors, "{last}");
                }
            }
            _ => {
                self.note_steps(runner, runs.sent.saturating_sub(1));
                let _ = writeln!(self.errors, "{last}");
                self.note_more(session, last);
            }
        }
    }

    /// Writes done instructions, a line each.
    fn note_steps(&mut self, runner: &Runner, count: u32)
        ensures ends { self.new.ends ≡ self.old.ends }
    {
        let Some(pid) = runner.pid else {
            return;
        };
        let pid = pid.number();
        for _ in 0..count {
            let _ = writeln!(self.errors, "step {pid}");
        }
    }

    /// Writes what a trace's line doesn't hold: the names that a call has changed, and what a process waits for that has
    /// fallen asleep: `waits 3 read on descriptor 0, the read end of a pipe`.
    fn note_more(&mut self, session: &Session, outcome: &Outcome)
        ensures ends { self.new.ends ≡ self.old.ends }
    {
        match outcome {
            Outcome::Called { .. } => self.note_names(session),
            Outcome::Blocked { pid, .. } => {
                if let Some(wait) = waits_for(session.machine(), *pid) {
                    let pid = pid.number();
                    let asleep = Asleep(&wait);
                    let _ = writeln!(self.errors, "waits {pid} {asleep}");
                }
            }
            _ => {}
        }
    }

    /// Writes what came of an event other than Run, in the trace's line.
    fn note_event(&mut self, event: Event, outcome: &Outcome)
        ensures ends { self.new.ends ≡ self.old.ends }
    {
        let _ = match (event, outcome) {
            (Event::Key(key), Outcome::Typed(echo)) => {
                let echo = echo.len();
                writeln!(self.errors, "key {key} {echo}")
            }
            _ => writeln!(self.errors, "{outcome}"),
        };
    }

    /// Tells in words what came of an event other than Run.
    fn explain_event(&mut self, session: &Session, event: Event, outcome: &Outcome)
        ensures ends { self.new.ends ≡ self.old.ends }
    {
        match outcome {
            Outcome::Ticked => {
                self.close(session);
                let _ = writeln!(self.errors, "-- a tick");
            }
            Outcome::Typed(echo) => {
                self.close(session);
                let Event::Key(key) = event else {
                    return;
                };
                let key = Key(key);
                let _ = if echo.is_empty() {
                    writeln!(self.errors, "{key} is typed, and nothing is shown")
                } else {
                    writeln!(self.errors, "{key} is typed")
                };
            }
            Outcome::Sent(Some(byte)) => {
                self.close(session);
                let byte = Letter(*byte);
                let _ = writeln!(self.errors, "{byte} is sent to the terminal");
            }
            Outcome::Halted => self.say_halted(session),
            _ => {}
        }
    }

    /// Writes the notes that the machine keeps, the oldest first.
    pub fn show_trace(&mut self, session: &Session)
        ensures ends { self.new.ends ≡ self.old.ends }
    {
        show_trace(session.machine(), &mut self.errors);
    }

    /// Tells of each process that has not ended why it doesn't go on; if the machine has halted, of none.
    pub fn tell_waits(&mut self, session: &Session)
        ensures ends { self.new.ends ≡ self.old.ends }
    {
        if session.machine().halted().is_some() {
            return;
        }
        for slot in 0..NPROC {
            if let Some(pid) = session.machine().pid_in(slot) {
                self.tell_wait(session, pid);
            }
        }
    }

    /// Tells why a process doesn't go on, or that it has ended and its parent hasn't waited for it.
    fn tell_wait(&mut self, session: &Session, pid: Pid)
        ensures ends { self.new.ends ≡ self.old.ends }
    {
        if let Some(text) = wait_text(self.alloc, &self.sources, session, pid) {
            let _ = writeln!(self.errors, "{text}");
        }
    }

    /// Writes the closing line of a run that ended so, and gives the exit status.
    pub fn say_end(&mut self, end: Result<DriveEnd, DriveError>) -> u8
        ensures status { result ≡ status_of end }
        ensures ends { self.new.ends ≡ self.old.ends }
    {
        close_run(NAME, end, &mut self.errors)
    }

    /// Writes the closing line of a record that was played and ended so, and gives the exit status.
    pub fn say_record_end(&mut self, end: Result<RecordEnd, DeviceFault>) -> u8
        ensures status { result ≡ replays.status_of end }
        ensures ends { self.new.ends ≡ self.old.ends }
    {
        close_record(NAME, end, &mut self.errors)
    }

    /// Writes the closing line of a run that was broken off, and gives the exit status.
    pub fn say_stop(&mut self, stop: &Stop, work: &Work) -> u8
        ensures status { result ≡ stop_status stop.now }
        ensures ends { self.new.ends ≡ self.old.ends }
    {
        match stop {
            Stop::Session(error) => self.say_failure(&Failure::from(*error)),
            Stop::OverBudget => close_over_budget(NAME, work, &mut self.errors),
        }
    }

    /// Writes the closing line of a run that ended early, or that has not begun, and gives the exit status.
    pub fn say_failure(&mut self, failure: &Failure<'_>) -> u8
        ensures status { result ≡ failure_status failure.now }
        ensures ends { self.new.ends ≡ self.old.ends }
    {
        failure.close(NAME, &mut self.errors)
    }
}
