//! What stands of a machine over whole runs: from boot, over every list of events.
//!
//! No function here takes or gives anything: each stands for a claim, whose clauses are proved of the
//! definitions that the contracts of [`Machine::boot`](crate::Machine::boot),
//! [`Machine::event`](crate::Machine::event), [`Machine::run`](crate::Machine::run) and [`drive`](crate::drive)
//! cite. So they are the steps from what one call promises to what is so of a whole run. The statements stand
//! in `specs/Reached.antt`.
ghost use Rattle.xv_machine.specs.Reached.{EventsGo, BootReaches, ReachesOn, ReachedIsRun, StepsAreOwn, TwoMachines, NoByteIsShown, TurnsCome, ReachedIsSound};

/// A machine that was booted, and then got events, by `event`, by `run` or by `drive`, in whatever order.
pub fn machine_runs()
    // Events that are each made by `event` lead as a whole from machine to machine, as those of `run` and of a drive do.
    ensures events_go { EventsGo }

    // A machine that was booted is reached without an event.
    ensures boot_reaches { BootReaches }

    // What a reached machine goes to is reached by all of the events.
    ensures reaches_on { ReachesOn }

    // The events of a reached machine are a run from the first world, in which each event is as promised.
    ensures reached_is_run { ReachedIsRun }

    // A reached machine is sound, and has the frames that it was booted with: none is lost.
    ensures reached_is_sound { ReachedIsSound }

    // A process that may run, and doesn't run, has its turn after at most 63 turns of others.
    ensures turns_come { TurnsCome }
{}

/// Processes of a machine are kept apart.
pub fn processes_are_apart()
    // A step answers as `own` of what its process sees, and `seen` is all that others see of it.
    ensures steps_are_own { StepsAreOwn }

    // In two machines a process that sees the same, and the same of what is shared as each of its steps begins,
    // does and sees the same, whatever else the machines hold, and whatever events they get.
    ensures two_machines { TwoMachines }

    // Each byte of a process's memory was there at boot, or was put there by a step of its own, or of one from
    // which its memory came by forks.
    ensures no_byte_is_shown { NoByteIsShown }
{}
