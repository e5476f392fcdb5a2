//! Processes in words.
use kcall_core::ProcessState;
use kernel_calls::KernelCall;
use std::alloc::{AllocError, Global};
use xk_base::Pid;
use xv_machine::Machine;
use xv_session::Session;

/// The name of a kernel call.
fn call_name(number: i32) -> &'static str {
    match KernelCall::of_number(number) {
        Some(call) => call.name(),
        None => "a call",
    }
}

/// What a process does that is what this says.
fn state_in_words(
    alloc: Global,
    state: &Option<ProcessState>,
    runs: bool,
) -> Result<String, AllocError> {
    match state {
        Some(
            ProcessState::Live {
                call: Some(call),
                asleep,
                ..
            },
        ) => {
            let does = if *asleep { "sleeps in" } else { "goes on with" };
            let name = call_name(call.number);
            format!(in alloc; "{does} {name}")
        }
        Some(ProcessState::Live { marked: true, .. }) => String::from_str(alloc, "is to be killed"),
        _ => String::from_str(alloc, if runs { "runs" } else { "may run" }),
    }
}

/// The name of the program that a process runs.
fn program_name(session: &Session, pid: Pid) -> &[u8] {
    let Some(place) = session.program_of(pid) else {
        return b"?";
    };
    match session.machine().programs().get(place) {
        Some(program) => program.name.as_slice(),
        None => b"?",
    }
}

/// A live process in words: the name of its program, and what it does.
pub(crate) fn described(alloc: Global, session: &Session, pid: Pid) -> Result<Vec<u8>, AllocError> {
    let machine: &Machine = session.machine();
    let mut text = Vec::from_slice(alloc, program_name(session, pid))?;
    let runs = machine.current() == Some(pid);
    let state = state_in_words(alloc, &machine.process(pid), runs)?;
    text.push(b' ')?;
    text.extend_from_slice(state.as_bytes())?;
    Ok(text)
}
