//! Machines that stories ask.
use super::draft::Draft;
use super::story::{Asks, Item, Place, first_word, push};
use std::fmt::{Display, Write};
use std::process::Abort;
use xk_base::limits::PID_MAX;
use xk_base::{BootError, Pid, Reg};
use xv_machine::{ChildState, Config, Event, Machine, Outcome};

// The process of this number.
fn process<R: Abort>(rt: &R, place: &Place<'_>, word: &str) -> Pid {
    let number = place.short_number(rt, word);
    if number == 0 || number > PID_MAX {
        place.fail(rt, word);
    }
    Pid::new(number)
}

#[rattlefmt::skip]
const REGISTERS: [&str; 32] = [
    "zero", "ra", "sp", "gp", "tp", "t0", "t1", "t2", "s0", "s1", "a0", "a1", "a2", "a3", "a4", "a5",
    "a6", "a7", "s2", "s3", "s4", "s5", "s6", "s7", "s8", "s9", "s10", "s11", "t3", "t4", "t5", "t6",
];

// The register of this name.
fn register<R: Abort>(rt: &R, place: &Place<'_>, name: &str) -> Reg {
    for index in 0..32u8 {
        if REGISTERS[usize::from(index)] == name {
            return Reg::new(index);
        }
    }
    place.fail(rt, name)
}

/// A value as a text.
pub(super) fn as_text<R: Abort + AllocGlobal, D: Display>(rt: &R, value: &D) -> String {
    format!(in rt.alloc(); "{value}").expect(rt, "memory")
}

// A value as a text, or `none`.
fn text_or_none<R: Abort + AllocGlobal, D: Display>(rt: &R, value: &Option<D>) -> String {
    match value {
        Some(value) => as_text(rt, value),
        None => as_text(rt, &"none"),
    }
}

// Adds two hexadecimal digits to a text, or `none`.
fn push_byte<R: Abort + AllocGlobal>(rt: &R, told: &mut String, byte: Option<u8>) {
    match byte {
        Some(byte) => write!(told, " {byte:02X}").expect(rt, "memory"),
        None => push(rt, told, " none"),
    }
}

// The bytes that a key makes the console show.
fn bytes_of<R: Abort + AllocGlobal>(rt: &R, bytes: &[u8]) -> String {
    if bytes.is_empty() {
        return as_text(rt, &"echoes none");
    }
    let mut told = as_text(rt, &"echoes");
    for byte in bytes {
        push_byte(rt, &mut told, Some(*byte));
    }
    told
}

/// Which outcomes a story tells.
#[derive(Drop)]
pub(super) enum Pace {
    /// None.
    Untold,
    /// All of them.
    Events,
    /// All but done instructions.
    Calls,
}

impl Pace {
    /// How the items below this heading are told.
    pub(super) fn of(heading: &str) -> Pace {
        match heading {
            "events" => Pace::Events,
            "calls" => Pace::Calls,
            _ => Pace::Untold,
        }
    }

    /// Whether outcomes are told at all.
    pub(super) fn is_told(&self) -> bool {
        !matches!(self, Pace::Untold)
    }
}

/// A machine. No method has a contract: what a machine promises stays out of the proofs of the tests.
pub(super) struct Scene {
    pub(super) machine: Machine,
}

// By hand, so that the proof of a function that lets go of a machine has one step for that, and not one for each part.
impl Drop for Scene {
    fn drop(self) {
        let Scene { machine: _ } = self;
    }
}

impl Scene {
    /// The machine of a draft.
    pub(super) fn new<R: AllocGlobal>(rt: &R, draft: Draft) -> Result<Scene, BootError> {
        let Draft {
            frames,
            trace,
            programs,
        } = draft;
        let machine = Machine::boot(rt.alloc(), Config { frames, trace }, programs)?;
        Ok(Scene { machine })
    }

    /// What comes of a Run.
    pub(super) fn run(&mut self) -> Outcome {
        self.machine.event(Event::Run)
    }

    // Lets the machine run to the next outcome that is no done instruction.
    fn run_on(&mut self) -> Outcome {
        for _ in 0..10_000 {
            let outcome = self.run();
            if !matches!(outcome, Outcome::Stepped { .. }) {
                return outcome;
            }
        }
        self.run()
    }

    // What comes of an event.
    fn event<R: Abort + AllocGlobal>(&mut self, rt: &R, event: Event) -> String {
        as_text(rt, &self.machine.event(event))
    }

    // What comes of the next Runs.
    fn next<R: Abort + AllocGlobal>(&mut self, rt: &R, pace: &Pace) -> String {
        match pace {
            Pace::Calls => as_text(rt, &self.run_on()),
            _ => self.event(rt, Event::Run),
        }
    }

    // What the console shows for a key, or what else comes of it.
    fn echoes<R: Abort + AllocGlobal>(&mut self, rt: &R, key: u8) -> String {
        match self.machine.event(Event::Key(key)) {
            Outcome::Typed(echo) => bytes_of(rt, echo.as_slice()),
            outcome => as_text(rt, &outcome),
        }
    }

    fn current(&self) -> Option<u32> {
        match self.machine.current() {
            Some(pid) => Some(pid.number()),
            None => None,
        }
    }

    fn child<R: Abort + AllocGlobal>(&self, rt: &R, pid: Pid, child: Pid) -> String {
        match self.machine.child_state(pid, child) {
            Some(ChildState::Running) => as_text(rt, &"running"),
            Some(ChildState::Status(status)) => as_text(rt, &status),
            None => as_text(rt, &"none"),
        }
    }

    // What a register holds, or the pc.
    fn register<R: Abort>(&self, rt: &R, place: &Place<'_>, item: &Item<'_>) -> Option<u64> {
        match self.machine.registers(process(rt, place, item.first)) {
            Some(registers) if item.second == "pc" => Some(registers.pc()),
            Some(registers) => Some(registers.read(register(rt, place, item.second))),
            None => None,
        }
    }

    // An address, and as many bytes from there on as an item has behind it.
    fn bytes<R: Abort + AllocGlobal>(
        &self,
        rt: &R,
        place: &Place<'_>,
        pid: Pid,
        wanted: &str,
    ) -> String {
        let (address, bytes) = first_word(wanted);
        let mut at = place.number(rt, address);
        let mut told = as_text(rt, &address);
        for _ in bytes.split(' ') {
            push_byte(rt, &mut told, self.machine.peek(pid, at));
            at = at.wrapping_add(1);
        }
        told
    }

    // How many bytes from an address on are 0, up to so many.
    fn zeros_from(&self, pid: Pid, address: u64, most: u64) -> u64 {
        for count in 0..most {
            if self.machine.peek(pid, address.wrapping_add(count)) != Some(0) {
                return count;
            }
        }
        most
    }

    // The same, where an item asks for so many.
    fn zeros<R: Abort>(&self, rt: &R, place: &Place<'_>, item: &Item<'_>) -> u64 {
        let pid = process(rt, place, item.first);
        let address = place.number(rt, item.second);
        self.zeros_from(pid, address, place.number(rt, item.wanted))
    }

    // What is so, where an item asks for that.
    fn fact<R: Abort + AllocGlobal>(
        &self,
        rt: &R,
        place: &Place<'_>,
        item: &Item<'_>,
    ) -> Option<String> {
        let first = item.first;
        let told = match item.asks {
            Asks::Note => text_or_none(
                rt,
                &self.machine.trace(place.short_number(rt, first) as usize),
            ),
            Asks::Free => as_text(rt, &self.machine.free_frames()),
            Asks::Status => text_or_none(rt, &self.machine.halted()),
            Asks::Current => text_or_none(rt, &self.current()),
            Asks::Child => self.child(
                rt,
                process(rt, place, first),
                process(rt, place, item.second),
            ),
            Asks::Register => text_or_none(rt, &self.register(rt, place, item)),
            Asks::Bytes => self.bytes(rt, place, process(rt, place, first), item.wanted),
            Asks::Zeros => as_text(rt, &self.zeros(rt, place, item)),
            _ => return None,
        };
        Some(told)
    }

    // What comes of an event.
    fn outcome<R: Abort + AllocGlobal>(
        &mut self,
        rt: &R,
        place: &Place<'_>,
        item: &Item<'_>,
        pace: &Pace,
    ) -> String {
        let first = item.first;
        match item.asks {
            Asks::Key if item.second == "echoes" => self.echoes(rt, place.byte(rt, first)),
            Asks::Key => self.event(rt, Event::Key(place.byte(rt, first))),
            Asks::Sent => self.event(rt, Event::Send),
            Asks::Tick => self.event(rt, Event::Tick),
            Asks::Runs => as_text(rt, &self.machine.run(place.short_number(rt, first))),
            Asks::Instructions => as_text(
                rt,
                &self.machine.instructions(place.short_number(rt, first)),
            ),
            _ => self.next(rt, pace),
        }
    }

    /// What is so, or what comes of an event, as an item wants to know.
    pub(super) fn told<R: Abort + AllocGlobal>(
        &mut self,
        rt: &R,
        place: &Place<'_>,
        item: &Item<'_>,
        pace: &Pace,
    ) -> String {
        match self.fact(rt, place, item) {
            Some(told) => told,
            None => self.outcome(rt, place, item, pace),
        }
    }

    /// Tells whether a process has the same registers and pc here as in another machine.
    pub(super) fn same_registers(&self, other: &Scene, pid: Pid) -> bool {
        self.machine.registers(pid) == other.machine.registers(pid)
    }

    /// Tells whether a process has the same byte at an address here as in another machine.
    pub(super) fn same_byte(&self, other: &Scene, pid: Pid, address: u64) -> bool {
        self.machine.peek(pid, address) == other.machine.peek(pid, address)
    }
}
