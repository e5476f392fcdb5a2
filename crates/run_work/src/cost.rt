//! What Runs cost.
ghost use Rattle.std.specs.Prelude.{◌≡◌, option_map};
ghost use Rattle.kcall_core.specs.Observers.{size_of};
ghost use Rattle.xv_machine.specs.Events.{outcome_of};
ghost use Rattle.run_work.specs.Work as meant;

use kernel_calls::numbers::{EXEC, READ, SBRK, SBRKLAZY, WRITE};
use xk_base::Pid;
use xk_base::limits::PAGE_BYTES;
use xv_machine::{Machine, Outcome};

/// What a page costs that is cleared or copied: as much as so many instructions.
pub const PAGE_COST: u64 = 256;

/// What is seen of a machine before Runs are sent.
#[derive(Clone, Copy)]
pub struct Before {
    /// How many frames are free.
    pub free: u32,
    /// The size of the process that runs; `None` if none runs.
    pub size: Option<u64>,
}

impl Before {
    /// What is seen of a machine now.
    #[inline]
    pub fn of(machine: &Machine) -> Before
        ensures free { result.free ≡ machine.now.world.state.free }
        ensures size { result.size ≡ meant.size_now (size_of machine.now.world.state) machine.now.world.turns.current }
    {
        let size = match machine.current() {
            Some(pid) => machine.size(pid),
            None => None,
        };
        Before {
            free: machine.free_frames(),
            size,
        }
    }
}

// How many pages so many bytes take.
fn pages_of(bytes: u64) -> u64
    ensures { result ≡ meant.pages_of bytes }
{
    bytes.div_ceil(PAGE_BYTES)
}

// The pages of a process of this size.
fn pages_in(size: Option<u64>) -> u64
    ensures { result ≡ meant.pages_in size }
{
    match size {
        Some(bytes) => pages_of(bytes),
        None => 0,
    }
}

// The pages that a call copied or made, beside those that it took from the free frames or gave back.
fn call_pages(number: i32, value: i64, size: Option<u64>) -> u64
    ensures { result ≡ meant.call_pages number value size }
{
    if number == READ || number == WRITE {
        pages_of(value.unsigned_abs())
    } else if number == EXEC {
        pages_in(size)
    } else {
        0
    }
}

// The same of what came of the last Run.
fn last_pages(machine: &Machine, last: &Option<Outcome>) -> u64
    ensures { result ≡ meant.last_pages (size_of machine.now.world.state) (option_map outcome_of last.now) }
{
    match last {
        Some(Outcome::Called { pid, number, value }) => {
            call_pages(*number, *value, machine.size(*pid))
        }
        _ => 0,
    }
}

// The pages that a call gave back that answered so.
fn given_by_call(number: i32, value: i64, before: Option<u64>, size: Option<u64>) -> u64
    ensures { result ≡ meant.given_by_call number value before size }
{
    if value < 0 {
        0
    } else if number == EXEC {
        pages_in(before)
    } else if number == SBRK || number == SBRKLAZY {
        pages_of(value.unsigned_abs()).saturating_sub(pages_in(size))
    } else {
        0
    }
}

// The pages that the last Run may have given back.
fn given_back(machine: &Machine, before: Option<u64>, last: &Option<Outcome>) -> u64
    ensures { result ≡ meant.given_back before (size_of machine.now.world.state) (option_map outcome_of last.now) }
{
    match last {
        Some(Outcome::Called { pid, number, value }) => {
            given_by_call(*number, *value, before, machine.size(*pid))
        }
        Some(Outcome::Exited { .. }) | Some(Outcome::Faulted { .. }) => pages_in(before),
        _ => 0,
    }
}

// The pages that came and went again, so that the free frames don't show them.
fn unseen(sent: u32, given: u64) -> u64
    ensures { result ≡ meant.unseen sent given }
{
    u64::from(sent.saturating_sub(1)).min(given)
}

// The pages that came or went by so many Runs.
fn moved(machine: &Machine, before: &Before, sent: u32, last: &Option<Outcome>) -> u64
    ensures { result ≡ meant.moved before.now sent machine.now.world.state.free (size_of machine.now.world.state) (option_map outcome_of last.now) }
{
    let seen = u64::from(before.free.abs_diff(machine.free_frames()));
    seen + 2 * unseen(sent, given_back(machine, before.size, last))
}

/// The work of Runs that were sent one after another, so many, before which a machine was seen so, and of the last of
/// which this came, unless all are done instructions: one for each Run, and 256 for each page that is cleared or copied;
/// 2^64 - 1 at most.
pub fn cost_of(machine: &Machine, before: &Before, sent: u32, last: &Option<Outcome>) -> u64
    ensures { result ≡ meant.cost before.now sent machine.now.world.state.free (size_of machine.now.world.state) (option_map outcome_of last.now) }
{
    moved(machine, before, sent, last)
        .saturating_add(last_pages(machine, last))
        .saturating_mul(PAGE_COST)
        .saturating_add(u64::from(sent))
}
