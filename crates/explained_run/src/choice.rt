//! Which lines are asked for.
ghost use Rattle.std.specs.Prelude.{◌≡◌, option_map};
ghost use Rattle.xv_machine.specs.Events.{outcome_of};
ghost use Rattle.explained_run.specs.Chosen as meant;
ghost use Rattle.explained_run.specs.Seen.{seen_of};

use crate::seen::Seen;
use kernel_calls::KernelCall;
use kernel_calls::numbers::EXIT;
use std::marker::Brand;
use xk_base::Pid;
use xv_machine::Outcome;

/// Which lines are asked for.
#[derive(Drop)]
pub struct Choice {
    /// Lines are written at all.
    pub lines: bool,
    /// Those of this process alone.
    pub pid: Option<Pid>,
    /// Those of processes while they run the program of this name alone.
    pub program: Option<String>,
    /// Those of these calls alone.
    pub calls: Option<Vec<KernelCall>>,
    /// Those of calls that have failed, and of what ends a process.
    pub failed: bool,
    /// Each begins with the number of events before its own.
    pub numbers: bool,
    /// So many bytes of each text and buffer are shown at most.
    pub shown: u16,
}

/// Stands for what a run was asked for. So the type of who plays it says which lines these are.
pub(crate) trait Asks {
    ghost use Rattle.explained_run.specs.declared.choice.Choice.{Choice};

    ghost asked: { Choice };
}

impl Asks for Brand {
    ghost use Rattle.explained_run.specs.Chosen.{no_line};

    ghost asked = { no_line };
}

// Whether a program has this name; one that isn't known has none.
fn has_name(asked: &str, name: Option<&[u8]>) -> bool
    ensures { result ≡ meant.has_name asked.now (option_map (λ name. name.now) name.entry) }
{
    match name {
        Some(name) => name == asked.as_bytes(),
        None => false,
    }
}

// Whether one of these calls has this number.
fn is_of(calls: &[KernelCall], number: i32) -> bool
    ensures { result ≡ meant.is_of calls.now number }
{
    calls.iter().any(|call| call.number() == number)
}

impl Choice {
    /// Whether it is a process that is asked for.
    pub(crate) fn is_process(&self, pid: Pid) -> bool
        ensures { result ≡ meant.is_process self.now.pid pid }
    {
        match self.pid {
            Some(chosen) => chosen.number() == pid.number(),
            None => true,
        }
    }

    /// Whether the program of this name is asked for.
    pub(crate) fn is_program(&self, name: Option<&[u8]>) -> bool
        ensures { result ≡ meant.is_program self.now.program (option_map (λ name. name.now) name.entry) }
    {
        match &self.program {
            Some(asked) => has_name(asked.as_str(), name),
            None => true,
        }
    }

    /// Whether lines of a process are asked for while it runs the program of this name.
    pub(crate) fn shows_process(&self, pid: Pid, program: Option<&[u8]>) -> bool
        ensures { result ≡ meant.shows_process self.now pid (option_map (λ name. name.now) program.entry) }
    {
        self.lines && self.is_process(pid) && self.is_program(program)
    }

    // Whether lines of a call are asked for.
    fn shows_call(&self, number: i32) -> bool
        ensures { result ≡ meant.shows_call self.now number }
    {
        match &self.calls {
            Some(calls) => is_of(calls.as_slice(), number),
            None => true,
        }
    }

    /// Whether calls of this number are asked for that haven't failed.
    pub(crate) fn shows_unfailed(&self, number: i32) -> bool
        ensures { result ≡ meant.shows_unfailed self.now number }
    {
        !self.failed && self.shows_call(number)
    }

    /// Whether a call with this answer is asked for.
    pub(crate) fn shows_answer(&self, number: i32, value: i64) -> bool
        ensures { result ≡ meant.shows_answer self.now number value }
    {
        if value < 0 {
            self.shows_call(number)
        } else {
            self.shows_unfailed(number)
        }
    }

    // Whether it is told that a process is gone without the call exit.
    fn shows_ends(&self) -> bool
        ensures { result ≡ meant.shows_ends self.now }
    {
        self.calls.is_none()
    }

    /// Whether what came of a step is told.
    pub(crate) fn shows(&self, seen: &Seen, outcome: &Outcome) -> bool
        ensures { result ≡ meant.shows self.now (seen_of seen.now) (outcome_of outcome.now) }
    {
        match outcome {
            Outcome::Called { number, value, .. } => self.shows_answer(*number, *value),
            Outcome::Blocked { number, .. } => !seen.resumed && self.shows_unfailed(*number),
            Outcome::Exited { .. } if seen.marked => self.shows_ends(),
            Outcome::Exited { .. } => self.shows_unfailed(EXIT),
            Outcome::Faulted { .. } => self.shows_ends(),
            _ => false,
        }
    }
}
