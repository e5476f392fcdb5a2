//! What is told of the processes, beside what the machine sends.
ghost use Rattle.xv_live.specs.Keeps.{GoesOn, IsKept};

use crate::NAME;
use crate::notes::Notes;
use program_files::Failure;
use std::alloc::Global;
use std::fmt;
use std::io::Write;
use xk_base::Pid;
use xk_base::limits::NPROC;
use xv_live::{FaultNote, Recorder, Teller};
use xv_machine::Machine;
use xv_record::{GrowError, RecordFile};
use xv_report::text::{FaultText, Name, ProcessLine, WaitLine};
use xv_report::{cause_text, report_at, source_of};
use xv_session::Session;

/// The most events of a session that are played again to tell its faults with their instructions: a second in all.
pub const PLAYED_AGAIN: u64 = 300_000_000;

// The process of the least pid that is above this one.
fn process_above(machine: &Machine, number: u32) -> Option<Pid> {
    let mut least: Option<Pid> = None;
    for slot in 0..NPROC {
        if let Some(pid) = machine.pid_in(slot) {
            let is_less = match least {
                Some(other) => pid.number() < other.number(),
                None => true,
            };
            if pid.number() > number && is_less {
                least = Some(pid);
            }
        }
    }
    least
}

/// Tells the processes, a line each, by rising pids: pid, name, state, and what it waits for.
pub fn tell_all<E: Write>(session: &Session, notes: &mut Notes<E>) {
    let mut above = 0;
    for _ in 0..NPROC {
        let Some(pid) = process_above(session.machine(), above) else {
            break;
        };
        notes.write_note(ProcessLine { session, pid });
        above = pid.number();
    }
}

/// Tells why each process doesn't go on that hasn't ended, a line each, by rising pids.
pub fn tell_waits<E: Write>(session: &Session, notes: &mut Notes<E>) {
    let mut above = 0;
    for _ in 0..NPROC {
        let Some(pid) = process_above(session.machine(), above) else {
            break;
        };
        let source = source_of(None, session, session.program_of(pid));
        notes.write_note(WaitLine {
            session,
            pid,
            source,
        });
        above = pid.number();
    }
}

// A fault of which no more is known than its cause.
#[derive(Drop)]
struct ShortFault<'a> {
    session: &'a Session,
    fault: FaultNote,
}

impl fmt::Display for ShortFault<'_> {
    fn fmt<W: fmt::Write>(&self, f: &mut fmt::Formatter<W>) -> fmt::Result {
        let pid = self.fault.pid.number();
        let reason = cause_text(self.fault.cause);
        write!(f, "process {pid}")?;
        if let Some(place) = self.fault.program {
            if let Some(program) = self.session.machine().programs().get(place) {
                let name = Name(program.name.as_slice());
                write!(f, " ({name})")?;
            }
        }
        write!(f, ": {reason}")
    }
}

// That a record can't be written any more, and why.
#[derive(Drop)]
struct Unrecorded(Failure<'static>);

impl fmt::Display for Unrecorded {
    fn fmt<W: fmt::Write>(&self, f: &mut fmt::Formatter<W>) -> fmt::Result {
        let why = &self.0;
        write!(f, "{NAME}: {why}; the machine goes on without it")
    }
}

// The first line of a text.
#[derive(Drop)]
struct FirstLine<'a>(&'a str);

impl fmt::Display for FirstLine<'_> {
    fn fmt<W: fmt::Write>(&self, f: &mut fmt::Formatter<W>) -> fmt::Result {
        match self.0.split_once('\n') {
            Some((line, _rest)) => f.write_str(line),
            None => f.write_str(self.0),
        }
    }
}

// The fault as a line, with the instruction, from the run played again up to there; none if that takes too long or too
// much memory.
fn long_line(
    session: &Session,
    alloc: Global,
    place: Option<usize>,
    plays_left: &mut u64,
) -> Option<String> {
    let before = session.at().checked_sub(1)?;
    *plays_left = plays_left.checked_sub(before)?;
    let source = source_of(None, session, place);
    let report = report_at(alloc, session, before, &source).ok()??;
    let program = session.machine().programs().get(place?)?;
    let text = FaultText {
        report: &report,
        program: Some(program.name.as_slice()),
        source,
    };
    text.to_string(alloc).ok()
}

// Tells a fault in a line: with the instruction as long as the plays that are left for that suffice, else by its cause
// alone.
fn tell_one<E: Write>(session: &Session, fault: FaultNote, notes: &mut Notes<E>) {
    match long_line(session, notes.alloc, fault.program, &mut notes.plays_left) {
        Some(line) => notes.note(FirstLine(line.as_str())),
        None => notes.note(ShortFault { session, fault }),
    }
}

/// Writes all of a record anew, if one is kept. That it can't be written any more is told.
pub fn record_anew<F: RecordFile, E: Write>(
    session: &Session,
    recorder: &mut Recorder<F>,
    notes: &mut Notes<E>,
)
    ensures kept { IsKept F.held recorder.new session.now.events }
    ensures goes_on { GoesOn recorder.old recorder.new }
{
    if let Err(why) = recorder.keep_anew(session) {
        notes.tell_unrecorded(why);
    }
}

impl<E: Write> Teller for Notes<E> {
    fn follow(&mut self, bytes: &[u8]) {
        self.line.follow_all(bytes);
    }

    fn tell_fault(&mut self, session: &Session, fault: FaultNote) {
        tell_one(session, fault, self);
    }

    fn tell_processes(&mut self, session: &Session) {
        self.begin_notes();
        tell_all(session, self);
        self.end_notes();
    }

    fn tell_unrecorded(&mut self, why: GrowError) {
        let failure = match why {
            GrowError::Unwritten => Failure::RecordUnwritten,
            GrowError::Memory => Failure::OutOfMemory,
        };
        self.note(Unrecorded(failure));
    }
}
