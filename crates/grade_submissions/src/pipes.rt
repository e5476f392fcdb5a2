//! The pipes of a run, by numbers.
ghost use Rattle.std.specs.Prelude.{◌≡◌, IfOk};
ghost use Rattle.kcall_core.specs.Observers.{descriptor_of};
ghost use Rattle.xv_machine.specs.Events.{outcome_of};
ghost use Rattle.grade_submissions.specs.Pipes.{frame_of, frame_on, frame_made, made_of, none_made, number_in, number_on, with_pipe, pipes_after};

use grade_rules::Given;
use kernel_calls::numbers::PIPE;
use std::alloc::Global;
use std::collections::BTreeMap;
use xk_base::limits::NOFILE;
use xk_base::{Fd, Frame, Pid};
use xv_machine::{Descriptor, Machine, Outcome, Target};
use xv_session::SessionError;

/// The pipes that a run has made, numbered from 1 on in the order in which they were made.
#[derive(Drop)]
pub struct MadePipes {
    /// How many there were, 2^64 - 1 at most.
    pub made: u64,
    /// Of each frame in which a pipe lay, by its number: the number of the last one.
    pub latest: BTreeMap<u32, u64>,
}

// The frame of a pipe of which this is an end.
fn frame_of(target: &Target) -> Option<Frame>
    ensures { result ≡ frame_of target.now }
{
    match *target {
        Target::Pipe { frame, .. } => Some(frame),
        _ => None,
    }
}

// The frame of the pipe of which a descriptor of a live process names an end.
fn frame_on(machine: &Machine, pid: Pid, fd: Fd) -> Option<Frame>
    ensures { result ≡ frame_on (descriptor_of machine.now.world.state pid fd) }
{
    match machine.descriptor(pid, fd) {
        Some(Descriptor { open_file, .. }) => frame_of(&open_file.target),
        None => None,
    }
}

// The frame of the pipe that a call of `pipe` has made: the call has written the number of its read end to where it was told.
fn frame_made(machine: &Machine, pid: Pid, given: &Given) -> Option<Frame>
    ensures { result ≡ frame_made machine.now.world.state pid given.now }
{
    let number = machine.peek(pid, given.first.cast_unsigned())?;
    if usize::from(number) >= NOFILE {
        return None;
    }
    frame_on(machine, pid, Fd::new(number))
}

impl MadePipes {
    /// None yet.
    pub(crate) fn none(alloc: Global) -> MadePipes
        ensures { made_of result ≡ none_made }
    {
        MadePipes {
            made: 0,
            latest: BTreeMap::new(alloc),
        }
    }

    /// The number of the pipe that lies in a frame; 0 if none was made there.
    fn number_in(&self, frame: Frame) -> u64
        ensures { result ≡ number_in (made_of self.now) frame }
    {
        match self.latest.get(&frame.number()) {
            Some(number) => *number,
            None => 0,
        }
    }

    /// The number of the pipe of which this is an end; 0 if it is none.
    pub(crate) fn number_on(&self, target: &Option<Target>) -> u64
        ensures { result ≡ number_on (made_of self.now) target.now }
    {
        let Some(target) = target else {
            return 0;
        };
        match frame_of(target) {
            Some(frame) => self.number_in(frame),
            None => 0,
        }
    }

    // One more, in this frame.
    fn add(&mut self, frame: Option<Frame>) -> Result<(), SessionError>
        ensures { IfOk result (λ _. made_of self.new ≡ with_pipe frame (made_of self.old)) }
    {
        let Some(frame) = frame else {
            return Ok(());
        };
        let number = self.made.saturating_add(1);
        let Ok(_) = self.latest.insert(frame.number(), number) else {
            return Err(SessionError::Memory);
        };
        self.made = number;
        Ok(())
    }

    /// Adds a pipe if what came of an event is a call of `pipe` that answered 0. The call was given this, and the machine is
    /// as it is after it.
    pub(crate) fn keep(
        &mut self,
        machine: &Machine,
        given: &Given,
        outcome: &Outcome,
    ) -> Result<(), SessionError>
        ensures { IfOk result (λ _. made_of self.new ≡ pipes_after given.now machine.now.world (outcome_of outcome.now) (made_of self.old)) }
    {
        match *outcome {
            Outcome::Called {
                pid,
                number: PIPE,
                value: 0,
            } => self.add(frame_made(machine, pid, given)),
            _ => Ok(()),
        }
    }
}
