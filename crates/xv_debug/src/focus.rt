//! Which process the words look at.
ghost use Rattle.std.specs.Prelude.{◌≡◌};
ghost use Rattle.xv_debug.specs.Focus.{IsFocus, IsLastOrLeast, IsProgramLookedAt, IsRunningOr, IsUsual, lives_in, place_of};

use debug_views::{least_from, lives};
use xk_base::Pid;
use xv_machine::Machine;
use xv_session::Session;

/// The process whose step was last, if it lives, or else the one of the least pid.
fn last_or_least(machine: &Machine, last: Option<Pid>) -> Option<Pid>
    ensures { IsLastOrLeast (lives_in machine.now.world.state last) last machine.now.world.state result }
{
    let Some(pid) = last else {
        return least_from(machine, 1);
    };
    if lives(machine, pid) {
        Some(pid)
    } else {
        least_from(machine, 1)
    }
}

/// The process that runs, or else the one whose step was last, if it lives, or else the one of the least pid.
fn running_or(machine: &Machine, last: Option<Pid>) -> Option<Pid>
    ensures { IsRunningOr machine.now.world.turns.current last machine.now.world.state result }
{
    match machine.current() {
        Some(pid) => Some(pid),
        None => last_or_least(machine, last),
    }
}

/// The process that a word looks at which names none.
fn usual(session: &Session) -> Option<Pid>
    ensures { IsUsual session.now result }
{
    running_or(session.machine(), session.last_step())
}

/// The process that a word looks at: the one that it names; else the one that runs; else the one whose step was last,
/// if it lives; else the one of the least pid.
pub(crate) fn focus(session: &Session, named: Option<Pid>) -> Option<Pid>
    ensures { IsFocus named session.now result }
{
    match named {
        Some(pid) => Some(pid),
        None => usual(session),
    }
}

/// The place of the program that a process runs.
pub(crate) fn place_of(session: &Session, pid: Option<Pid>) -> Option<usize>
    ensures { result ≡ place_of session.now pid }
{
    session.program_of(pid?)
}

/// The place of the program that the process runs which a word looks at.
pub(crate) fn program_looked_at(session: &Session) -> Option<usize>
    ensures { IsProgramLookedAt session.now result }
{
    place_of(session, focus(session, None))
}
