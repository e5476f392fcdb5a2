//! What is seen of a process right before a step of its.
ghost use Rattle.std.specs.Prelude.{◌≡◌, None, OnOk, IfOk, option_map};
ghost use Rattle.debug_views.specs.Written.{Appends};
ghost use Rattle.kcall_core.specs.Observers.{process_at};
ghost use Rattle.explained_run.specs.Seen.{asked_text, before, is_in_call, is_marked, name_in, number_text, seen_of, who_text};

use crate::choice::Choice;
use call_lines::{Asked, asked_of, show_call};
use debug_words::texts::Named;
use std::alloc::{AllocError, Global};
use xk_base::Pid;
use xv_machine::{Machine, ProcessState};
use xv_session::Running;

/// What is seen of a process right before a step of its that is no done instruction.
#[derive(Drop)]
pub(crate) struct Seen {
    /// Its pid, and its program: `3 (wc): `; before it the number of events, if that is asked for.
    pub who: String,
    /// What it asks for, if its step is one of a call.
    pub asked: Option<Asked>,
    /// That call as text, with the memory before the step.
    pub call: String,
    /// Whether it is in a call: the step isn't the call's first.
    pub resumed: bool,
    /// Whether its kill mark is set, so that it ends by this step.
    pub marked: bool,
    /// How many bytes of each text and buffer are shown at most.
    pub shown: u16,
}

/// The name of the program that a process runs.
pub(crate) fn name_of(running: &Running, pid: Pid) -> Option<&[u8]>
    ensures { option_map (λ name. name.now) result ≡ name_in running.now.machine.world running.now.names pid }
{
    let place = running.names.place(pid)?;
    let program = running.machine.programs().get(place)?;
    Some(program.name.as_slice())
}

// Writes how many events there were before, if lines begin with that.
fn show_number(numbers: bool, place: u64, text: &mut String) -> Result<(), AllocError>
    ensures { OnOk result (Appends text.old text.new (number_text numbers place)) }
{
    if numbers {
        write!(text, "{place} ")
    } else {
        Ok(())
    }
}

// Writes the pid of a process, and its program.
fn show_who(
    numbers: bool,
    place: u64,
    running: &Running,
    pid: Pid,
    text: &mut String,
) -> Result<(), AllocError>
    ensures { OnOk result (Appends text.old text.new (who_text numbers place running.now.machine.world running.now.names pid)) }
{
    show_number(numbers, place, text)?;
    let number = pid.number();
    let name = Named(name_of(running, pid));
    write!(text, "{number}{name}: ")
}

/// Writes a call, if there is one.
pub(crate) fn show_asked(
    alloc: Global,
    machine: &Machine,
    pid: Pid,
    asked: &Option<Asked>,
    answered: Option<i64>,
    shown: u16,
    text: &mut String,
) -> Result<(), AllocError>
    ensures { OnOk result (Appends text.old text.new (asked_text shown machine.now.world.state pid asked.now answered)) }
{
    match asked {
        Some(asked) => show_call(alloc, machine, pid, asked, answered, shown, text),
        None => Ok(()),
    }
}

// Whether a process is in a call.
fn is_in_call(state: &Option<ProcessState>) -> bool
    ensures { result ≡ is_in_call state.now }
{
    match state {
        Some(ProcessState::Live { call, .. }) => call.is_some(),
        _ => false,
    }
}

/// Whether the kill mark of a process is set.
pub(crate) fn is_marked(state: &Option<ProcessState>) -> bool
    ensures { result ≡ is_marked state.now }
{
    match state {
        Some(ProcessState::Live { marked, .. }) => *marked,
        _ => false,
    }
}

impl Seen {
    /// What is seen of a process now, after so many events, as far as it is asked for.
    pub(crate) fn of(
        alloc: Global,
        choice: &Choice,
        place: u64,
        running: &Running,
        pid: Pid,
    ) -> Result<Seen, AllocError>
        ensures { IfOk result (λ s. seen_of s ≡ before choice.now.numbers choice.now.shown place running.now.machine.world running.now.names pid) }
    {
        let mut who = String::new(alloc);
        show_who(choice.numbers, place, running, pid, &mut who)?;
        let asked = asked_of(&running.machine, pid);
        let mut call = String::new(alloc);
        show_asked(
            alloc,
            &running.machine,
            pid,
            &asked,
            None,
            choice.shown,
            &mut call,
        )?;
        let state = running.machine.process(pid);
        Ok(Seen {
            who,
            asked,
            call,
            resumed: is_in_call(&state),
            marked: is_marked(&state),
            shown: choice.shown,
        })
    }
}
