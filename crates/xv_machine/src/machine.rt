//! The machine: how it is booted, what it makes of events, and what is told of it.
ghost use Rattle.std.specs.Prelude.{◌≡◌, ℕ, ◌∷◌, ◌++◌, [], None, Err, is_some, map, option_map, replicate};
ghost use Rattle.xk_base.specs.declared.errors.BootError.TheVariants.{BadPrograms};
ghost use Rattle.circular_buffer.specs.Buffer.{buffer, keep_last};
ghost use Rattle.xv_machine.specs.declared.trace.Note.TheVariants.{Stepped};
ghost use Rattle.kernel_spec.specs.views.State.{named_file};
ghost use Rattle.kernel_spec.specs.views.Programs.{first_bad, init_of};
ghost use Rattle.kernel_spec.specs.runs.First.{unless_refused, first_init};
ghost use Rattle.kernel_spec.specs.waking.Wakes.{is_turn};
ghost use Rattle.xv_machine.specs.Events.{run_outcome_of, halted_by};
ghost use Rattle.kernel_spec.specs.runs.Run as runs;
ghost use Rattle.xv_machine.specs.Notes.{note, ticked};

mod fast;
mod observers;

use crate::event::{Event, Outcome, RunOutcome};
use crate::fast::trace_runs::Trace;
use crate::step::{StepsMade, advance, instructions, instructions_unwatched, step};
use crate::trace::Note;
use hart_core::{Hart, Watch};
use kcall_core::{ChildState, Kernel, first_refused};
use rv64i_core::Regs;
use std::alloc::Global;
use std::marker::Model;
use xk_base::limits::{FRAMES_MAX, FRAMES_MIN, TRACE_MAX};
use xk_base::{BootError, Pid, Program};

/// The numbers that a machine is made with.
#[derive(Clone, Copy)]
pub struct Config {
    /// Frames of RAM, 16 to 32,768.
    pub frames: u32,
    /// Notes that the trace keeps, at most 65,536: those of the last events. 0 keeps none.
    pub trace: u32,
}

impl Config {
    ghost use Rattle.std.specs.Prelude.{◌||◌, nat_lt};
    ghost use Rattle.xk_base.specs.declared.limits.TheConstants.{TRACE_MAX};
    ghost use Rattle.kernel_spec.specs.views.NewKernel.{are_refused};

    // Whether a number is out of its range.
    fn is_refused(&self) -> bool
        ensures { result ≡ (are_refused self.now.frames || nat_lt TRACE_MAX self.now.trace) }
    {
        (self.frames < FRAMES_MIN) | (self.frames > FRAMES_MAX) | (self.trace > TRACE_MAX)
    }
}

// Whether a program is called `init`.
fn has_init(programs: &[Program]) -> bool
    ensures { result ≡ is_some (init_of (map named_file programs.now)) }
{
    programs
        .iter()
        .find(|program| program.name.as_slice() == b"init".as_slice())
        .is_some()
}

// Why there is no machine of programs of which none is called `init`.
fn without_init(programs: &[Program]) -> BootError
    requires { init_of (map named_file programs.now) ≡ None }
    ensures { let ps = map named_file programs.now in (frames : ℕ) → unless_refused (option_map BadPrograms (first_bad ps)) (first_init frames ps (init_of ps)) ≡ Err result }
{
    match first_refused(programs) {
        Some(index) => BootError::BadPrograms(index),
        None => BootError::NoInit,
    }
}

// The status with which process 1 goes, where it does.
#[inline(always)]
fn halted_by(outcome: &RunOutcome) -> Option<i32>
    ensures { result ≡ halted_by outcome.now }
{
    match *outcome {
        RunOutcome::Exited { pid, status } if pid.number() == 1 => Some(status),
        RunOutcome::Faulted { pid, .. } if pid.number() == 1 => Some(-1),
        _ => None,
    }
}

// Puts a note behind the others of a trace.
#[cold]
#[inline(never)]
fn push(trace: &mut Trace, note: Note)
    ensures { trace.new ≡ buffer (keep_last trace.old.capacity (trace.old.items ++ note ∷ [])) trace.old.capacity }
{
    trace.push(note);
}

// The note of a Tick that the clock has counted, or of one after the end of process 1.
fn tick_note(is_counted: bool) -> Note
    ensures { result ≡ note runs.Tick (ticked is_counted) }
{
    if is_counted {
        Note::Ticked
    } else {
        Note::Halted
    }
}

// Puts the note of a done instruction behind the others of a trace. It isn't inlined, so that the way of an
// instruction in a machine without a trace doesn't hold it.
#[inline(never)]
fn push_step(trace: &mut Trace, pid: Pid)
    ensures { trace.new ≡ buffer (keep_last trace.old.capacity (trace.old.items ++ Stepped pid ∷ [])) trace.old.capacity }
{
    trace.push(Note::Stepped { pid });
}

// Puts a note behind the others of a trace so often.
#[inline(never)]
fn push_often(trace: &mut Trace, note: &Note, count: u32)
    ensures { trace.new ≡ buffer (keep_last trace.old.capacity (trace.old.items ++ replicate count note.now)) trace.old.capacity }
{
    trace.push_often(note, count);
}

// Whether it is a turn.
#[inline(always)]
fn is_turn(outcome: &RunOutcome) -> bool
    ensures { result ≡ is_turn (run_outcome_of outcome.now) }
{
    match outcome {
        RunOutcome::Turn { .. } => true,
        _ => false,
    }
}

/// A machine: a kernel, the hart that runs its processes, and a trace of what they did.
pub struct Machine {
    kernel: Kernel,
    hart: Hart,
    /// The status with which process 1 went, after which nothing runs.
    halted: Option<i32>,
    /// The notes of the last events.
    trace: Trace,
}

// By hand, so that whoever lets go of a machine makes one call, and not a step for each of its 28 parts.
impl Drop for Machine {
    fn drop(self) {
        let Machine {
            kernel: _,
            hart: _,
            halted: _,
            trace: _,
        } = self;
    }
}

impl Model for Machine {
    ghost use Rattle.xv_machine.specs.Meaning.{Meaning};
    ghost use Rattle.xv_machine.specs.Codes.{meaning_code};

    ghost Value = { Meaning };

    ghost coded = { meaning_code };

    ghost use Rattle.xv_machine.specs.Machine.{meaning_of, IsMachine};

    ghost view = { meaning_of };

    ghost invariant = { IsMachine };
}

impl Machine {
    ghost use Rattle.std.specs.Prelude.{◌≡◌, ◌<◌, ◌≤◌, true, [], ◌∷◌, ◌++◌, Some, None, IfOk, is_some, length, map, option_map, replicate, slice_get};
    ghost use Rattle.kernel_spec.specs.views.State.{named_file};
    ghost use Rattle.hart_core.specs.declared.hart.Hart.{Hart};
    ghost use Rattle.kernel_spec.specs.views.Programs.{init_of};
    ghost use Rattle.kernel_spec.specs.views.Words.{or_zero};
    ghost use Rattle.kcall_core.specs.Starts.{IsBlank};
    ghost use Rattle.kcall_core.specs.Kernel as kernels;
    ghost use Rattle.kcall_core.specs.Whole.{IsWhole};
    ghost use Rattle.kernel_spec.specs.runs.First.{first, first_init};
    ghost use Rattle.kernel_spec.specs.runs.Run as runs;
    ghost use Rattle.kernel_spec.specs.waking.Wakes.{Promised, IsPromised};
    ghost use Rattle.kcall_core.specs.Observers.{registers_of, byte_at, child_at, shown};
    ghost use Rattle.circular_buffer.specs.Buffer.{keep_last};
    ghost use Rattle.xv_machine.specs.Boots.{Boots, HasEmptyTrace};
    ghost use Rattle.xv_machine.specs.Drives.{Goes, Ran, done_by};
    ghost use Rattle.xv_machine.specs.Events.{event_of, outcome_of, run_outcome_of};
    ghost use Rattle.xv_machine.specs.Instructions.{NextIsOther, RunsUnwatched, AreUnwatched, noted};
    ghost use Rattle.xv_machine.specs.Machine.{SameTrace};
    ghost use Rattle.xv_machine.specs.Notes.{note, ticked};
    ghost use Rattle.xv_machine.specs.declared.trace.Note.TheVariants.{Stepped};
    ghost use Rattle.xv_machine.specs.Reached.{IsEvent, TakesEvent};
    ghost use Rattle.xv_machine.specs.Sound.{IsSoundMachine};
    ghost use Rattle.xv_machine.specs.Steps.{runs_made, IsEnd};
    ghost use Rattle.xv_machine.specs.Stretches.{sends};

    /// A machine with one process, process 1 of the program called `init`, which waits for its first turn.
    ///
    /// # Errors
    ///
    /// The first that stands of these: [`BootError::BadConfig`] where a number of the configuration is
    /// out of its range; [`BootError::BadPrograms`] of the least program that is refused: one that has
    /// 64 before it, or a name that is empty, longer than 14 bytes, holds a slash or a zero byte, is
    /// `console` or an earlier one's, or a file of more than 1,048,576 bytes; [`BootError::NoInit`] where
    /// no program is called `init`; [`BootError::Memory`] where the host has too little memory;
    /// [`BootError::Init`] with the refusal of `init`'s file, or with `NoFrames` where the price of its
    /// image and 1 are more than the frames.
    pub fn boot(alloc: Global, config: Config, programs: Vec<Program>) -> Result<Machine, BootError>
        ensures boots { Boots config.frames result (first config.frames config.trace (map named_file programs.items)) }
        ensures sound { IfOk result IsSoundMachine }
        ensures trace { IfOk result (HasEmptyTrace config.trace) }
    {
        if config.is_refused() {
            return Err(BootError::BadConfig);
        }
        if !has_init(&programs) {
            return Err(without_init(&programs));
        }
        match Kernel::new(alloc, config.frames, programs) {
            Ok(kernel) => Machine::with_trace(alloc, config.trace, kernel),
            Err(error) => Err(error),
        }
    }

    // A machine with this kernel, which has no process yet, and a trace of so many notes.
    fn with_trace(alloc: Global, notes: u32, kernel: Kernel) -> Result<Machine, BootError>
        requires blank { IsBlank kernel }
        requires whole { (hart : Hart) → kernels.IsIdle hart → IsWhole kernel hart }
        requires program { is_some (init_of (map named_file kernel.programs.items)) ≡ true }
        ensures boots { let programs = map named_file kernel.programs.items in Boots (length kernel.memories.ram) result (first_init (length kernel.memories.ram) programs (init_of programs)) }
        ensures sound { IfOk result IsSoundMachine }
        ensures trace { IfOk result (HasEmptyTrace notes) }
    {
        match Trace::with_capacity(alloc, notes) {
            Ok(trace) => Machine::start(alloc, kernel, trace),
            Err(_) => Err(BootError::Memory),
        }
    }

    // A machine with this kernel, which has no process yet, and this trace, which has no note yet.
    fn start(alloc: Global, mut kernel: Kernel, trace: Trace) -> Result<Machine, BootError>
        requires blank { IsBlank kernel }
        requires whole { (hart : Hart) → kernels.IsIdle hart → IsWhole kernel hart }
        requires program { is_some (init_of (map named_file kernel.programs.items)) ≡ true }
        requires empty { trace.items ≡ [] }
        ensures boots { let programs = map named_file kernel.programs.items in Boots (length kernel.memories.ram) result (first_init (length kernel.memories.ram) programs (init_of programs)) }
        ensures sound { IfOk result IsSoundMachine }
        ensures trace { IfOk result (HasEmptyTrace trace.capacity) }
    {
        let mut hart = Hart::with_room(alloc);
        match kernel.start(&mut hart) {
            Ok(()) => Ok(Machine {
                kernel,
                hart,
                halted: None,
                trace,
            }),
            Err(refusal) => Err(BootError::Init(refusal)),
        }
    }

    /// What comes of an event. The trace keeps a note of it, where it has room for any.
    // An outcome is large, since it has room for an echo: 400 bytes. So each call on the way that answers one is
    // inlined: the room for its answer would be cleared before each event. And a done instruction's outcome is
    // written anew, since it would be copied.
    #[inline(always)]
    pub fn event(&mut self, event: Event) -> Outcome
        ensures { IsEvent self.old (event_of event) (outcome_of result) self.new }
    {
        let outcome = self.take(event);
        if let Outcome::Stepped { pid } = outcome {
            self.keep_step(pid);
            return Outcome::Stepped { pid };
        }
        self.keep(Note::of(event, &outcome));
        outcome
    }

    // What comes of an event, before the trace keeps a note of it.
    #[inline(always)]
    fn take(&mut self, event: Event) -> Outcome
        ensures promised { Promised self.old.world (event_of event) (outcome_of result) self.new.world }
        ensures frames { self.new.frames.count ≡ self.old.frames.count }
        ensures trace { SameTrace self.old self.new }
    {
        match event {
            Event::Run => self.run_once().as_outcome(),
            Event::Tick => self.tick(),
            Event::Key(byte) => self.key(byte),
            Event::Send => Outcome::Sent(self.take_byte()),
        }
    }

    // The trace keeps a note of a done instruction, where it has room for any.
    #[inline(always)]
    fn keep_step(&mut self, pid: Pid)
        ensures kept { self.new ≡ record self.old { notes = keep_last self.old.room (self.old.notes ++ Stepped pid ∷ []) } }
        ensures sound { IsSoundMachine self.new }
    {
        if self.trace.capacity() == 0 {
            return;
        }
        push_step(&mut self.trace, pid);
    }

    // The trace keeps the note so often, where it has room for any.
    #[inline(always)]
    fn keep_often(&mut self, note: Note, count: u32)
        ensures kept { self.new ≡ record self.old { notes = keep_last self.old.room (self.old.notes ++ replicate count note) } }
        ensures sound { IsSoundMachine self.new }
    {
        if self.trace.capacity() == 0 {
            return;
        }
        push_often(&mut self.trace, &note, count);
    }

    // The trace keeps the note, where it has room for any.
    #[inline(always)]
    fn keep(&mut self, note: Note)
        ensures kept { self.new ≡ record self.old { notes = keep_last self.old.room (self.old.notes ++ note ∷ []) } }
        ensures sound { IsSoundMachine self.new }
    {
        if self.trace.capacity() == 0 {
            return;
        }
        push(&mut self.trace, note);
    }

    // The process that runs makes a step; where none runs, the next has its turn.
    #[inline(always)]
    fn run_once(&mut self) -> RunOutcome
        ensures promised { Promised self.old.world runs.Run (run_outcome_of result) self.new.world }
        ensures frames { self.new.frames.count ≡ self.old.frames.count }
        ensures trace { SameTrace self.old self.new }
    {
        let Some(pid) = self.kernel.current() else {
            return self.turn();
        };
        let outcome = step(&mut self.kernel, &mut self.hart, pid);
        if let RunOutcome::Stepped { pid: done } = outcome {
            // The status stays: there is none while a process runs.
            return RunOutcome::Stepped { pid: done };
        }
        self.halted = halted_by(&outcome);
        outcome
    }

    // The next process has its turn, unless process 1 is gone.
    #[inline(always)]
    fn turn(&mut self) -> RunOutcome
        requires stopped { self.old.world.turns.current ≡ None }
        ensures promised { Promised self.old.world runs.Run (run_outcome_of result) self.new.world }
        ensures frames { self.new.frames.count ≡ self.old.frames.count }
        ensures trace { SameTrace self.old self.new }
    {
        if self.halted.is_some() {
            return RunOutcome::Halted;
        }
        let Some(pid) = self.kernel.turn(&mut self.hart) else {
            return RunOutcome::Idle;
        };
        RunOutcome::Turn { pid }
    }

    /// Sends Run, `most` times at most: as long as an instruction is done, and once more where something else
    /// comes of it. Where no process may run, before another event, all of them are sent. It tells how many were
    /// sent, at least one unless `most` is 0. The trace keeps a note of each.
    #[inline(always)]
    pub fn run(&mut self, most: u32) -> u32
        ensures ran { Ran most result self.old self.new }
        ensures within { result ≤ most }
        ensures some { 0 < most → 0 < result }
    {
        // (It also says that the machine is sound, which is promised of a call that sends nothing.)
        let current = self.current();
        if most == 0 {
            return 0;
        }
        let Some(pid) = current else {
            return self.pass(most);
        };
        self.run_steps(pid, most)
    }

    // Sends Run where nobody runs: once where the next has its turn, and else so often.
    #[inline(always)]
    fn pass(&mut self, most: u32) -> u32
        requires stopped { self.old.world.turns.current ≡ None }
        requires some { 0 < most }
        ensures ran { Ran most result self.old self.new }
        ensures within { result ≤ most }
        ensures sent { 0 < result }
    {
        let outcome = self.turn();
        let note = outcome.note();
        if is_turn(&outcome) {
            self.keep(note);
            return 1;
        }
        self.keep_often(note, most);
        most
    }

    // Sends Run to the process that runs, up to the first of which no done instruction comes.
    #[inline(always)]
    fn run_steps(&mut self, pid: Pid, most: u32) -> u32
        requires current { self.old.world.turns.current ≡ Some pid }
        requires some { 0 < most }
        ensures ran { Ran most result self.old self.new }
        ensures within { result ≤ most }
        ensures sent { 0 < result }
    {
        let StepsMade { made, end } = self.advance(pid, most);
        self.keep_often(Note::Stepped { pid }, made);
        let Some(outcome) = end else {
            return made;
        };
        self.keep(outcome.note());
        made + 1
    }

    // The process that runs makes these steps, of which the trace keeps no note yet.
    #[inline(always)]
    fn advance(&mut self, pid: Pid, most: u32) -> StepsMade
        requires current { self.old.world.turns.current ≡ Some pid }
        requires some { 0 < most }
        ensures run { IsPromised self.old.world (runs_made pid result.made result.end) self.new.world }
        ensures end { IsEnd most result.made result.end }
        ensures frames { self.new.frames.count ≡ self.old.frames.count }
        ensures trace { SameTrace self.old self.new }
    {
        let StepsMade { made, end } = advance(&mut self.kernel, &mut self.hart, pid, most);
        let Some(last) = end else {
            return StepsMade { made, end: None };
        };
        self.halted = halted_by(&last);
        StepsMade {
            made,
            end: Some(last),
        }
    }

    /// Sends Run as long as the next step of the current process is a done instruction, `most` times at most. So it
    /// stops before a kernel call, before a fault, and before a step of a process that is marked or in a call; where
    /// nobody runs it sends nothing. It tells how many were sent. The trace keeps a note of each.
    #[inline(always)]
    pub fn instructions(&mut self, most: u32) -> u32
        ensures goes { Goes self.old (replicate result (done_by (or_zero self.old.world.turns.current))) self.new }
        ensures within { result ≤ most }
        ensures stops { result < most → NextIsOther self.new }
    {
        let Some(pid) = self.current() else {
            return 0;
        };
        let made = self.make_instructions(pid, most);
        self.keep_often(Note::Stepped { pid }, made);
        made
    }

    /// Sends Run as long as a done instruction comes of it that uses nothing that is watched, and for which no page comes,
    /// `most` times at most. It tells how many were sent. The trace keeps a note of each.
    pub fn instructions_unwatched(&mut self, most: u32, watch: &Watch<'_>) -> u32
        ensures made { AreUnwatched watch.now.addresses.now watch.now.bytes.now (or_zero self.old.world.turns.current) result self.old self.new }
        ensures within { result ≤ most }
        ensures stops { result < most → ¬ RunsUnwatched watch.now.addresses.now watch.now.bytes.now self.new.world }
    {
        let Some(pid) = self.current() else {
            return 0;
        };
        let made = self.make_unwatched(pid, most, watch);
        self.keep_often(Note::Stepped { pid }, made);
        made
    }

    // The process that runs does these instructions, of which the trace keeps no note yet.
    #[inline(always)]
    fn make_unwatched(&mut self, pid: Pid, most: u32, watch: &Watch<'_>) -> u32
        requires current { self.old.world.turns.current ≡ Some pid }
        ensures made { AreUnwatched watch.now.addresses.now watch.now.bytes.now pid result self.old (noted pid result self.new) }
        ensures within { result ≤ most }
        ensures stops { result < most → ¬ RunsUnwatched watch.now.addresses.now watch.now.bytes.now self.new.world }
    {
        instructions_unwatched(&mut self.kernel, &mut self.hart, most, watch)
    }

    // The process that runs does these instructions, of which the trace keeps no note yet.
    #[inline(always)]
    fn make_instructions(&mut self, pid: Pid, most: u32) -> u32
        requires current { self.old.world.turns.current ≡ Some pid }
        ensures run { IsPromised self.old.world (replicate result (done_by pid)) self.new.world }
        ensures within { result ≤ most }
        ensures stops { result < most → NextIsOther self.new }
        ensures frames { self.new.frames.count ≡ self.old.frames.count }
        ensures trace { SameTrace self.old self.new }
    {
        instructions(&mut self.kernel, &mut self.hart, most)
    }

    // The clock counts a tick, unless process 1 is gone. It tells whether it did.
    #[inline(always)]
    fn count_tick(&mut self) -> bool
        ensures promised { Promised self.old.world runs.Tick (ticked result) self.new.world }
        ensures frames { self.new.frames.count ≡ self.old.frames.count }
        ensures trace { SameTrace self.old self.new }
    {
        if self.halted.is_some() {
            return false;
        }
        self.kernel.tick(&mut self.hart);
        true
    }

    // What comes of a Tick.
    #[inline(always)]
    fn tick(&mut self) -> Outcome
        ensures promised { Promised self.old.world runs.Tick (outcome_of result) self.new.world }
        ensures frames { self.new.frames.count ≡ self.old.frames.count }
        ensures trace { SameTrace self.old self.new }
    {
        if self.count_tick() {
            return Outcome::Ticked;
        }
        Outcome::Halted
    }

    // Sends Tick. No outcome is made, which would have room for an echo, and be cleared and copied.
    pub(crate) fn send_tick(&mut self)
        ensures { TakesEvent self.old runs.Tick self.new }
    {
        let is_counted = self.count_tick();
        self.keep(tick_note(is_counted));
    }

    // The console takes a key, unless process 1 is gone.
    #[inline(always)]
    fn key(&mut self, byte: u8) -> Outcome
        ensures promised { Promised self.old.world (runs.Key byte) (outcome_of result) self.new.world }
        ensures frames { self.new.frames.count ≡ self.old.frames.count }
        ensures trace { SameTrace self.old self.new }
    {
        if self.halted.is_some() {
            return Outcome::Halted;
        }
        let echo = self.kernel.key(byte);
        Outcome::Typed(echo)
    }

    // The first byte that waits to be sent leaves, also where process 1 is gone.
    #[inline(always)]
    fn take_byte(&mut self) -> Option<u8>
        ensures promised { Promised self.old.world runs.Send (runs.Sent result) self.new.world }
        ensures frames { self.new.frames.count ≡ self.old.frames.count }
        ensures trace { SameTrace self.old self.new }
    {
        self.kernel.send()
    }

    // Sends Send: once where a byte leaves, which it answers, and else so often, since then no byte waits. No
    // outcome is made, which would have room for an echo.
    pub(crate) fn send(&mut self, most: u32) -> Option<u8>
        requires some { 0 < most }
        ensures goes { Goes self.old (sends most result) self.new }
    {
        let byte = self.take_byte();
        if byte.is_none() {
            self.keep_often(Note::Sent(None), most);
            return None;
        }
        self.keep(Note::Sent(byte));
        byte
    }

    /// The registers of a live process; `None` for any other pid.
    pub fn registers(&self, pid: Pid) -> Option<Regs>
        ensures { result ≡ registers_of self.now.world.state pid }
    {
        self.kernel.registers(&self.hart, pid)
    }

    /// The byte at an address of a live process's memory, whatever its page allows; `None` for any other
    /// pid, and where there is no page.
    pub fn peek(&self, pid: Pid, address: u64) -> Option<u8>
        ensures { result ≡ byte_at self.now.world.state pid address }
    {
        self.kernel.peek(pid, address)
    }

    /// Whether a child of a live process lives, or with which status it ended; `None` where there is no
    /// such process, or no such child of it.
    pub fn child_state(&self, pid: Pid, child: Pid) -> Option<ChildState>
        ensures { option_map shown result ≡ child_at self.now.world.state pid child }
    {
        self.kernel.child_state(pid, child)
    }

    /// How many frames of RAM are free.
    pub fn free_frames(&self) -> u32
        ensures { result ≡ self.now.world.state.free }
    {
        self.kernel.free_frames()
    }

    /// The pid of the current process; `None` where none runs.
    #[inline(always)]
    pub fn current(&self) -> Option<Pid>
        ensures pid { result ≡ self.now.world.turns.current }
        ensures sound { IsSoundMachine self.now }
    {
        self.kernel.current()
    }

    /// The status with which process 1 went; `None` while it is there.
    pub fn halted(&self) -> Option<i32>
        ensures status { result ≡ self.now.world.turns.halted }
        ensures sound { IsSoundMachine self.now }
    {
        self.halted
    }

    /// How many notes the trace keeps now.
    pub fn trace_len(&self) -> usize
        ensures { result ≡ length self.now.notes }
    {
        self.trace.len()
    }

    /// A note of the trace, by its place: 0 is the oldest. `None` where fewer notes are kept.
    pub fn trace(&self, place: usize) -> Option<Note>
        ensures { result ≡ slice_get self.now.notes place }
    {
        self.trace.get(place)
    }
}
