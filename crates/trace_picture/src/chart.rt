//! A trace by processes.
ghost use Rattle.std.specs.Prelude.{◌≡◌, ◌++◌, ◌==◌, position, IfOk, OnOk, All};
ghost use Rattle.std.specs.Option.{option_to_list};
ghost use Rattle.trace_picture.specs.Row.{actor, answered_pid, newborn, AreNamed, IsRowOf, pids_of};

use crate::note::Note;
use crate::row::{Phase, phases};
use kernel_calls::numbers::FORK;
use std::alloc::{AllocError, Global};

/// What one process did.
#[derive(Drop)]
pub struct Row {
    /// The process.
    pub pid: u32,
    /// The states of the process, event by event of the whole trace.
    pub phases: Vec<Phase>,
}

/// What a trace tells, by processes.
#[derive(Drop)]
pub struct Chart {
    /// The notes of the whole trace, in its order.
    pub notes: Vec<Note>,
    /// A row for each process that the trace names, in the order of their pids.
    pub rows: Vec<Row>,
}

// The process whose event it was.
fn actor(note: Note) -> Option<u32>
    ensures { result ≡ actor note }
{
    match note {
        Note::Turn(pid) | Note::Step(pid) | Note::Call(pid, _, _) => Some(pid),
        Note::Block(pid, _) | Note::Exit(pid, _) | Note::Fault(pid, _) => Some(pid),
        _ => None,
    }
}

// The pid that an answer is: a number from 1 on, in 32 bits.
fn answered_pid(answer: i64) -> Option<u32>
    ensures { result ≡ answered_pid answer }
{
    if answer <= 0 {
        return None;
    }
    u32::try_from(answer).ok()
}

/// The process that the event made, if it is a fork that was answered with a pid.
pub fn newborn(note: Note) -> Option<u32>
    ensures { result ≡ newborn note }
{
    match note {
        Note::Call(_, FORK, answer) => answered_pid(answer),
        _ => None,
    }
}

// Adds a pid to a list, where there is one.
fn add_pid(pids: &mut Vec<u32>, pid: Option<u32>) -> Result<(), AllocError>
    ensures { OnOk result (pids.new.items ≡ pids.old.items ++ option_to_list pid) }
{
    if let Some(pid) = pid {
        pids.push(pid)?;
    }
    Ok(())
}

// The pids that the notes name, from the least on, each once.
fn pids(alloc: Global, notes: &[Note]) -> Result<Vec<u32>, AllocError>
    ensures { IfOk result (λ pids. AreNamed notes.now pids.items) }
{
    let mut pids = Vec::new(alloc);
    for &note in notes {
        add_pid(&mut pids, actor(note))?;
        add_pid(&mut pids, newborn(note))?;
    }
    pids.sort_unstable();
    pids.dedup();
    Ok(pids)
}

// The row of a process.
fn row_of(alloc: Global, pid: u32, notes: &[Note]) -> Result<Row, AllocError>
    ensures shows { IfOk result (λ row. IsRowOf row notes.now) }
    ensures of { IfOk result (λ row. row.pid ≡ pid) }
{
    Ok(Row {
        pid,
        phases: phases(alloc, pid, notes)?,
    })
}

impl Chart {
    /// The chart of these notes.
    ///
    /// # Errors
    ///
    /// [`AllocError`] where the host has too little memory.
    pub fn of(alloc: Global, notes: Vec<Note>) -> Result<Chart, AllocError>
        ensures kept { IfOk result (λ chart. chart.notes.items ≡ notes.items) }
        ensures rows { IfOk result (λ chart. All (λ row. IsRowOf row notes.items) chart.rows.items) }
        ensures named { IfOk result (λ chart. AreNamed notes.items (pids_of chart.rows.items)) }
    {
        let mut rows = Vec::new(alloc);
        let pids = pids(alloc, notes.as_slice())?;
        for &pid in pids.as_slice() {
            rows.push(row_of(alloc, pid, notes.as_slice())?)?;
        }
        Ok(Chart { notes, rows })
    }

    /// The place of the row of a process; `None` where it has no row.
    pub fn place_of(&self, pid: u32) -> Option<usize>
        ensures { result ≡ position (λ row. row.pid == pid) self.now.rows.items }
    {
        self.rows.iter().position(|row| row.pid == pid)
    }
}
