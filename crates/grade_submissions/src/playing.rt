//! A run of what was handed in: what happened, and what was shown.
ghost use Rattle.std.specs.Prelude.{◌≡◌, ◌+◌, ◌*◌, ◌<◌, ◌≤◌, ◌^◌, ◌++◌, ◌∷◌, [], None, ◌||◌, map, option_map, replicate, slice_get, is_some, IfOk};
ghost use Rattle.std.specs.Option.{option_to_list};
ghost use Rattle.kernel_spec.specs.runs.Run as run_events;
ghost use Rattle.kernel_spec.specs.runs.Rounds.{round};
ghost use Rattle.kernel_spec.specs.views.State.{named_file};
ghost use Rattle.xv_machine.specs.Events.{event_of, outcome_of};
ghost use Rattle.xv_machine.specs.RoundParts.{events_of_parts};
ghost use Rattle.xv_session.specs.Recorded.{IsRecorded};
ghost use Rattle.grade_submissions.specs.Plays.{note_with, all_of, passed_notes, nothing, runs_in, runs_among, told_of, told_with, told_runs, last_after, idle_after, sending_after};
ghost use Rattle.grade_submissions.specs.Plays.{is_full, is_over, PlaysOn, PlaysFirst, IsPlayed, end_of, fault_after, fault_behind, AreInstructions, WorksOff, LastWorksOff};
ghost use Rattle.grade_submissions.specs.Pipes.{made_of, none_made, pipes_after};
ghost use Rattle.run_work.specs.Work.{with_more};

use crate::givens::{given_now, nothing_given};
use crate::pipes::MadePipes;
use grade_rules::{End, Given, Note};
use run_work::{Before, cost_of};
use std::alloc::Global;
use xk_base::{BootError, Pid, Program};
use xv_machine::{Config, Event, Machine, Outcome, RoundPart, round_parts};
use xv_session::{Session, SessionError};

/// The most notes that are kept of a run.
pub const NOTES_MAX: usize = 1_000_000;

/// The most bytes that are kept of what a run shows.
pub const SHOWN_MAX: usize = 1_048_576;

/// How a run is driven.
#[derive(Clone, Copy)]
pub struct Plan {
    /// The most rounds.
    pub rounds: u32,
    /// Runs in each round.
    pub quantum: u32,
    /// The most work.
    pub budget: u64,
}

/// What is kept of a run, event by event.
#[derive(Drop)]
pub struct Kept {
    /// Each turn, call, sleep, exit and fault, in their order.
    pub notes: Vec<Note>,
    /// What the console showed.
    pub shown: Vec<u8>,
    /// How many Runs were sent.
    pub runs: u64,
    /// The process that had the last turn.
    pub last: Option<Pid>,
    /// Whether no process could run at the last Run.
    pub idle: bool,
    /// Whether the last Send sent a byte.
    pub sending: bool,
    /// The work that was done, 2^64 - 1 at most, and how much of it may be done.
    pub work: u64,
    pub budget: u64,
    /// The place of the event that was a fault: that of process 1, if there is one, or else the first.
    pub fault: Option<u64>,
    /// The pipes that were made.
    pub pipes: MadePipes,
}

/// A run.
#[derive(Drop)]
pub struct Played {
    pub session: Session,
    pub kept: Kept,
}

// The note of what came of an event, if it is a turn, a call that was given this, a sleep in one, an exit or a fault.
fn note_with(given: Given, outcome: &Outcome) -> Option<Note>
    ensures { result ≡ note_with given (outcome_of outcome.now) }
{
    match outcome {
        Outcome::Called { pid, number, value } => Some(Note::Called {
            pid: pid.number(),
            number: *number,
            value: *value,
            given,
        }),
        Outcome::Blocked { pid, number } => Some(Note::Blocked {
            pid: pid.number(),
            number: *number,
            given,
        }),
        Outcome::Exited { pid, status } => Some(Note::Exited {
            pid: pid.number(),
            status: *status,
        }),
        Outcome::Faulted { pid, cause } => Some(Note::Faulted {
            pid: pid.number(),
            cause: cause.code(),
        }),
        Outcome::Turn { pid } => Some(Note::Turn { pid: pid.number() }),
        _ => None,
    }
}

// Adds a note, if there is one.
fn add_note(notes: &mut Vec<Note>, note: Option<Note>) -> Result<(), SessionError>
    ensures { IfOk result (λ _. notes.new.items ≡ notes.old.items ++ all_of note) }
{
    let Some(note) = note else {
        return Ok(());
    };
    let Ok(()) = notes.push(note) else {
        return Err(SessionError::Memory);
    };
    Ok(())
}

// Adds bytes that were shown.
fn add_bytes(shown: &mut Vec<u8>, bytes: &[u8]) -> Result<(), SessionError>
    ensures { IfOk result (λ _. shown.new.items ≡ shown.old.items ++ bytes.now) }
{
    match shown.extend_from_slice(bytes) {
        Ok(()) => Ok(()),
        Err(_) => Err(SessionError::Memory),
    }
}

// The process whose turn it was, behind what came of an event.
fn last_after(before: Option<Pid>, outcome: &Outcome) -> Option<Pid>
    ensures { result ≡ last_after before (outcome_of outcome.now) }
{
    match outcome {
        Outcome::Turn { pid } => Some(*pid),
        _ => before,
    }
}

// Whether no process could run at the last Run, behind so many Runs, of the last of which this came.
#[tactic(auto, using(crate::proofs::Telling::idle_none, crate::proofs::Telling::idle_some))]
fn idle_after(before: bool, sent: u32, outcome: &Outcome) -> bool
    ensures { result ≡ idle_after before sent (outcome_of outcome.now) }
{
    if sent == 0 {
        return before;
    }
    match outcome {
        Outcome::Idle => true,
        _ => false,
    }
}

// Whether the last Send sent a byte, behind what came of an event.
fn sending_after(before: bool, outcome: &Outcome) -> bool
    ensures { result ≡ sending_after before (outcome_of outcome.now) }
{
    match outcome {
        Outcome::Sent(byte) => byte.is_some(),
        _ => before,
    }
}

// The place of the fault that is told, behind what came of the event at a place.
fn fault_after(before: Option<u64>, place: u64, outcome: &Outcome) -> Option<u64>
    ensures { result ≡ fault_after before place (outcome_of outcome.now) }
{
    match outcome {
        Outcome::Faulted { pid, .. } if before.is_none() || pid.number() == 1 => Some(place),
        _ => before,
    }
}

impl Kept {
    // Nothing yet, of a run that may do so much work.
    fn new(alloc: Global, budget: u64) -> Kept
        ensures told { told_of result ≡ nothing }
        ensures notes { result.notes.items ≡ [] }
        ensures budget { result.budget ≡ budget }
        ensures work { result.work ≡ 0 }
        ensures fault { result.fault ≡ None }
        ensures pipes { made_of result.pipes ≡ none_made }
    {
        Kept {
            notes: Vec::new(alloc),
            shown: Vec::new(alloc),
            runs: 0,
            last: None,
            idle: false,
            sending: false,
            work: 0,
            budget,
            fault: None,
            pipes: MadePipes::none(alloc),
        }
    }

    // Whether there are more notes than are kept, or more work is done than may be.
    fn is_full(&self) -> bool
        ensures { result ≡ is_full self.now }
    {
        self.notes.len() > NOTES_MAX || self.work > self.budget
    }

    // Whether it is full, or more bytes were shown than are kept.
    fn is_over(&self) -> bool
        ensures { result ≡ is_over self.now }
    {
        self.is_full() || self.shown.len() > SHOWN_MAX
    }

    // Adds work that was done.
    fn add_work(&mut self, cost: u64)
        ensures told { told_of self.new ≡ told_of self.old }
        ensures notes { self.new.notes.items ≡ self.old.notes.items }
        ensures budget { self.new.budget ≡ self.old.budget }
        ensures work { self.new.work ≡ with_more self.old.work cost }
        ensures fault { self.new.fault ≡ self.old.fault }
        ensures pipes { made_of self.new.pipes ≡ made_of self.old.pipes }
    {
        self.work = self.work.saturating_add(cost);
    }

    // Keeps what came of the event at a place, behind so many Runs, but for its note.
    fn keep(&mut self, sent: u32, place: u64, outcome: &Outcome) -> Result<(), SessionError>
        requires { self.old.runs + sent < 2 ^ 64 }
        ensures told { IfOk result (λ _. told_of self.new ≡ told_with (told_of self.old) sent (outcome_of outcome.now)) }
        ensures notes { self.new.notes.items ≡ self.old.notes.items }
        ensures budget { IfOk result (λ _. self.new.budget ≡ self.old.budget) }
        ensures work { IfOk result (λ _. self.new.work ≡ self.old.work) }
        ensures fault { IfOk result (λ _. self.new.fault ≡ fault_after self.old.fault place (outcome_of outcome.now)) }
        ensures pipes { made_of self.new.pipes ≡ made_of self.old.pipes }
    {
        add_bytes(&mut self.shown, outcome.shown())?;
        self.runs += u64::from(sent);
        self.last = last_after(self.last, outcome);
        self.idle = idle_after(self.idle, sent, outcome);
        self.sending = sending_after(self.sending, outcome);
        self.fault = fault_after(self.fault, place, outcome);
        Ok(())
    }

    // Keeps that so many instructions are done.
    fn keep_done(&mut self, sent: u32)
        requires { self.old.runs + sent < 2 ^ 64 }
        ensures told { told_of self.new ≡ told_runs (told_of self.old) sent None }
        ensures notes { self.new.notes.items ≡ self.old.notes.items }
        ensures budget { self.new.budget ≡ self.old.budget }
        ensures work { self.new.work ≡ self.old.work }
        ensures fault { self.new.fault ≡ self.old.fault }
        ensures pipes { made_of self.new.pipes ≡ made_of self.old.pipes }
    {
        self.runs += u64::from(sent);
        self.idle = false;
    }

    // Keeps what came of an event, with the note of a call that was given this.
    fn keep_noted(
        &mut self,
        given: Given,
        sent: u32,
        place: u64,
        outcome: &Outcome,
    ) -> Result<(), SessionError>
        requires { self.old.runs + sent < 2 ^ 64 }
        ensures told { IfOk result (λ _. told_of self.new ≡ told_with (told_of self.old) sent (outcome_of outcome.now)) }
        ensures notes { IfOk result (λ _. self.new.notes.items ≡ self.old.notes.items ++ all_of (note_with given (outcome_of outcome.now))) }
        ensures budget { IfOk result (λ _. self.new.budget ≡ self.old.budget) }
        ensures work { IfOk result (λ _. self.new.work ≡ self.old.work) }
        ensures fault { IfOk result (λ _. self.new.fault ≡ fault_after self.old.fault place (outcome_of outcome.now)) }
        ensures pipes { made_of self.new.pipes ≡ made_of self.old.pipes }
    {
        add_note(&mut self.notes, note_with(given, outcome))?;
        self.keep(sent, place, outcome)?;
        Ok(())
    }

    // Keeps the pipe that a call has made, if it was one of `pipe` that answered 0: of the machine as it is after it.
    fn keep_pipe(
        &mut self,
        machine: &Machine,
        given: &Given,
        outcome: &Outcome,
    ) -> Result<(), SessionError>
        ensures told { IfOk result (λ _. told_of self.new ≡ told_of self.old) }
        ensures notes { IfOk result (λ _. self.new.notes.items ≡ self.old.notes.items) }
        ensures budget { IfOk result (λ _. self.new.budget ≡ self.old.budget) }
        ensures work { IfOk result (λ _. self.new.work ≡ self.old.work) }
        ensures fault { IfOk result (λ _. self.new.fault ≡ self.old.fault) }
        ensures pipes { IfOk result (λ _. made_of self.new.pipes ≡ pipes_after given.now machine.now.world (outcome_of outcome.now) (made_of self.old.pipes)) }
    {
        self.pipes.keep(machine, given, outcome)
    }

    // Keeps what came of Runs that were sent at once as nobody ran; the last one of them was the event at a place.
    fn keep_runs(
        &mut self,
        sent: u32,
        place: u64,
        last: &Option<Outcome>,
    ) -> Result<(), SessionError>
        requires { self.old.runs + sent < 2 ^ 64 }
        ensures told { IfOk result (λ _. told_of self.new ≡ told_runs (told_of self.old) sent (option_map outcome_of last.now)) }
        ensures notes { IfOk result (λ _. self.new.notes.items ≡ self.old.notes.items ++ passed_notes (option_map outcome_of last.now)) }
        ensures budget { IfOk result (λ _. self.new.budget ≡ self.old.budget) }
        ensures work { IfOk result (λ _. self.new.work ≡ self.old.work) }
        ensures fault { IfOk result (λ _. self.new.fault ≡ fault_behind self.old.fault place (option_map outcome_of last.now)) }
        ensures pipes { made_of self.new.pipes ≡ made_of self.old.pipes }
    {
        match last {
            Some(outcome) => self.keep_noted(nothing_given(), sent, place, outcome),
            None => {
                self.keep_done(sent);
                Ok(())
            }
        }
    }
}

impl Played {
    // Sends Run as long as an instruction is done, so many times at most, and tells how often.
    fn go_on(&mut self, most: u32) -> Result<u32, SessionError>
        requires room { self.old.kept.runs + most < 2 ^ 64 }
        ensures plays { IfOk result (λ sent. PlaysOn (replicate sent run_events.Run) self.old self.new) }
        ensures within { IfOk result (λ sent. sent ≤ most) }
        ensures runs { IfOk result (λ sent. self.new.kept.runs ≡ self.old.kept.runs + sent) }
        ensures work { IfOk result (λ _. self.new.kept.work ≡ self.old.kept.work) }
        ensures done { IfOk result (λ sent. AreInstructions sent self.old.session.machine.world self.new.session.machine.world) }
    {
        let sent = self.session.instructions(most)?;
        if sent == 0 {
            return Ok(0);
        }
        self.kept.keep_done(sent);
        Ok(sent)
    }

    // Sends Run once, behind so many others that were sent since `before`. What a call was given, is told of the machine as
    // it is before.
    fn step(&mut self, sent: u32, before: &Before) -> Result<(), SessionError>
        requires room { self.old.kept.runs + 1 < 2 ^ 64 }
        requires few { sent + 1 < 2 ^ 32 }
        ensures plays { IfOk result (λ _. PlaysOn (run_events.Run ∷ []) self.old self.new) }
        ensures runs { IfOk result (λ _. self.new.kept.runs ≡ self.old.kept.runs + 1) }
        ensures work { IfOk result (λ _. LastWorksOff (sent + 1) before.now self.old self.new) }
    {
        let given = given_now(self.session.machine(), &self.kept.pipes);
        let outcome = self.session.send(Event::Run)?;
        let place = self.session.at().saturating_sub(1);
        self.kept.keep_noted(given, 1, place, &outcome)?;
        self.kept
            .keep_pipe(self.session.machine(), &given, &outcome)?;
        let last = Some(outcome);
        let cost = cost_of(self.session.machine(), before, sent + 1, &last);
        self.kept.add_work(cost);
        Ok(())
    }

    // Lets the process that runs go on: sends Run up to the first of which no done instruction comes, so many times at most.
    fn run_process(&mut self, most: u32) -> Result<u32, SessionError>
        requires some { 0 < most }
        requires room { self.old.kept.runs + most < 2 ^ 64 }
        ensures plays { IfOk result (λ sent. PlaysOn (replicate sent run_events.Run) self.old self.new) }
        ensures some { IfOk result (λ sent. 0 < sent) }
        ensures within { IfOk result (λ sent. sent ≤ most) }
        ensures runs { IfOk result (λ sent. self.new.kept.runs ≡ self.old.kept.runs + sent) }
        ensures work { IfOk result (λ sent. WorksOff sent self.old self.new) }
    {
        let before = Before::of(self.session.machine());
        let sent = self.go_on(most)?;
        if sent < most {
            self.step(sent, &before)?;
            return Ok(sent + 1);
        }
        let cost = cost_of(self.session.machine(), &before, sent, &None);
        self.kept.add_work(cost);
        Ok(sent)
    }

    // Sends Run as nobody runs: once if somebody's turn comes, and else so many times.
    fn pass(&mut self, most: u32) -> Result<u32, SessionError>
        requires some { 0 < most }
        requires room { self.old.kept.runs + most < 2 ^ 64 }
        requires nobody { self.old.session.machine.world.turns.current ≡ None }
        ensures plays { IfOk result (λ sent. PlaysOn (replicate sent run_events.Run) self.old self.new) }
        ensures some { IfOk result (λ sent. 0 < sent) }
        ensures within { IfOk result (λ sent. sent ≤ most) }
        ensures runs { IfOk result (λ sent. self.new.kept.runs ≡ self.old.kept.runs + sent) }
        ensures work { IfOk result (λ sent. WorksOff sent self.old self.new) }
    {
        let before = Before::of(self.session.machine());
        let runs = self.session.run(most)?;
        let place = self.session.at().saturating_sub(1);
        self.kept.keep_runs(runs.sent, place, &runs.last)?;
        let cost = cost_of(self.session.machine(), &before, runs.sent, &runs.last);
        self.kept.add_work(cost);
        Ok(runs.sent)
    }

    // Sends Run so many times at most, and tells how often.
    fn run(&mut self, most: u32) -> Result<u32, SessionError>
        requires some { 0 < most }
        requires room { self.old.kept.runs + most < 2 ^ 64 }
        ensures plays { IfOk result (λ sent. PlaysOn (replicate sent run_events.Run) self.old self.new) }
        ensures some { IfOk result (λ sent. 0 < sent) }
        ensures within { IfOk result (λ sent. sent ≤ most) }
        ensures runs { IfOk result (λ sent. self.new.kept.runs ≡ self.old.kept.runs + sent) }
        ensures work { IfOk result (λ sent. WorksOff sent self.old self.new) }
    {
        match self.session.machine().current() {
            Some(_) => self.run_process(most),
            None => self.pass(most),
        }
    }

    // Sends Run so many times, unless the run is full before.
    fn run_often(&mut self, count: u32) -> Result<(), SessionError>
        requires { self.old.kept.runs + count < 2 ^ 64 }
        ensures plays { IfOk result (λ _. PlaysFirst (replicate count run_events.Run) self.old self.new) }
        ensures runs { IfOk result (λ _. self.new.kept.runs ≤ self.old.kept.runs + count) }
    {
        let mut left = count;
        'runs: while left > 0 {
            if self.kept.is_full() {
                return Ok(());
            }
            left -= self.run(left)?;
        }
        Ok(())
    }

    // Sends an event that isn't Run.
    fn show(&mut self, event: Event) -> Result<(), SessionError>
        requires other { runs_in (event_of event) ≡ 0 }
        requires room { self.old.kept.runs < 2 ^ 64 }
        ensures plays { IfOk result (λ _. PlaysOn (event_of event ∷ []) self.old self.new) }
        ensures runs { IfOk result (λ _. self.new.kept.runs ≡ self.old.kept.runs) }
        ensures work { IfOk result (λ _. self.new.kept.work ≡ with_more self.old.kept.work 1) }
    {
        let outcome = self.session.send(event)?;
        let place = self.session.at().saturating_sub(1);
        self.kept.keep(0, place, &outcome)?;
        self.kept.add_work(1);
        Ok(())
    }

    // Sends an event that isn't Run, so often.
    fn show_often(&mut self, event: Event, count: u32) -> Result<(), SessionError>
        requires other { runs_in (event_of event) ≡ 0 }
        requires room { self.old.kept.runs < 2 ^ 64 }
        ensures plays { IfOk result (λ _. PlaysFirst (replicate count (event_of event)) self.old self.new) }
        ensures runs { IfOk result (λ _. self.new.kept.runs ≡ self.old.kept.runs) }
    {
        for sent in 0..count {
            self.show(event)?;
        }
        Ok(())
    }

    // Plays an event of a round so many times: of its Runs as many as go before the run is full.
    fn play_part(&mut self, event: Event, count: u32) -> Result<(), SessionError>
        requires { self.old.kept.runs + count * runs_in (event_of event) < 2 ^ 64 }
        ensures plays { IfOk result (λ _. PlaysFirst (replicate count (event_of event)) self.old self.new) }
        ensures runs { IfOk result (λ _. self.new.kept.runs ≤ self.old.kept.runs + count * runs_in (event_of event)) }
    {
        match event {
            Event::Run => self.run_often(count),
            Event::Tick | Event::Send | Event::Key(_) => self.show_often(event, count),
        }
    }

    // Plays parts, one after another, as long as the run isn't full.
    fn play_parts(&mut self, parts: &[RoundPart]) -> Result<(), SessionError>
        requires { self.old.kept.runs + runs_among (events_of_parts parts.now) < 2 ^ 64 }
        ensures plays { IfOk result (λ _. PlaysFirst (events_of_parts parts.now) self.old self.new) }
        ensures runs { IfOk result (λ _. self.new.kept.runs ≤ self.old.kept.runs + runs_among (events_of_parts parts.now)) }
    {
        for part in parts {
            if self.kept.is_full() {
                return Ok(());
            }
            self.play_part(part.event, part.count)?;
        }
        Ok(())
    }

    // A round, unless the run is full before its end.
    fn play_round(&mut self, quantum: u32, key: Option<u8>) -> Result<(), SessionError>
        requires { self.old.kept.runs + quantum < 2 ^ 64 }
        ensures plays { IfOk result (λ _. PlaysFirst (round quantum (option_to_list key)) self.old self.new) }
        ensures runs { IfOk result (λ _. self.new.kept.runs ≤ self.old.kept.runs + quantum) }
    {
        let parts = round_parts(key, quantum);
        self.play_parts(&parts)
    }

    /// How the run ended.
    pub fn end(&self) -> End
        ensures { result ≡ end_of self.now.session.machine.world.turns.halted self.now.kept }
    {
        if let Some(status) = self.session.machine().halted() {
            return End::Exited(status);
        }
        if self.kept.notes.len() > NOTES_MAX {
            return End::TooManyNotes;
        }
        if self.kept.shown.len() > SHOWN_MAX {
            return End::TooMuchShown;
        }
        if self.kept.work > self.kept.budget {
            return End::OverBudget;
        }
        match (self.kept.idle, self.kept.sending) {
            (true, true) => End::Floods,
            (true, false) => End::Waits,
            (false, _) => End::Computes,
        }
    }

    // Whether no further round is played: `init` has ended, or the run is over.
    fn is_ended(&self) -> bool
        ensures { result ≡ (is_some self.now.session.machine.world.turns.halted || is_over self.now.kept) }
    {
        self.session.machine().halted().is_some() || self.kept.is_over()
    }
}

// A run in which nothing has happened yet, and which may do so much work.
fn begin(alloc: Global, session: Session, budget: u64) -> Played
    ensures session { result.session ≡ session }
    ensures kept { told_of result.kept ≡ nothing }
    ensures notes { result.kept.notes.items ≡ [] }
    ensures fault { result.kept.fault ≡ None }
    ensures pipes { made_of result.kept.pipes ≡ none_made }
    ensures budget { result.kept.budget ≡ budget }
    ensures work { result.kept.work ≡ 0 }
    ensures recorded { IsRecorded session }
{
    // That its events lead to where it is, is known once it is looked at.
    let _machine = session.machine();
    Played {
        session,
        kept: Kept::new(alloc, budget),
    }
}

// The key at a place, if there is one.
fn key_at(keys: &[u8], place: usize) -> Option<u8>
    ensures { result ≡ slice_get keys.now place }
{
    match keys.get(place) {
        Some(key) => Some(*key),
        None => None,
    }
}

/// Boots a machine of these programs, and plays the rounds of a plan, up to the end of `init`, or until too much is noted,
/// shown or done. A byte of the keys is typed in each round, until there is none left. A boot that is refused is no error:
/// its refusal is the result.
///
/// # Errors
///
/// [`SessionError`].
pub(crate) fn play(
    alloc: Global,
    config: Config,
    plan: Plan,
    programs: Vec<Program>,
    keys: &[u8],
) -> Result<Result<Played, BootError>, SessionError>
    ensures { IfOk result (IsPlayed config.frames config.trace (map named_file programs.items) plan keys.now) }
{
    let session = match Session::boot(alloc, config, programs) {
        Ok(session) => session,
        Err(BootError::Memory) => return Err(SessionError::Memory),
        Err(error) => return Ok(Err(error)),
    };
    let mut played = begin(alloc, session, plan.budget);
    for round in 0..plan.rounds {
        if played.is_ended() {
            return Ok(Ok(played));
        }
        let key = key_at(keys, round as usize);
        played.play_round(plan.quantum, key)?;
    }
    Ok(Ok(played))
}
