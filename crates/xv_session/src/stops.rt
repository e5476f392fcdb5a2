//! Running on up to a stop.
ghost use Rattle.std.specs.Prelude.{◌≡◌, ◌≤◌, ◌<◌, ◌&&◌, not, option_map};
ghost use Rattle.std.specs.List.{list_any};
ghost use Rattle.rv64i_core.specs.declared.instruction.Instr.{Instr};
ghost use Rattle.xv_machine.specs.Events.{outcome_of};
ghost use Rattle.xv_session.specs.Steps.{IsSound};
ghost use Rattle.xv_session.specs.Until.{instruction_in, is_done, puts_at};
ghost use Rattle.xv_session.specs.Stops.{is_at_one, puts_at_one, stores_to_one, is_before_stop, WentOn, MadeRow};

use crate::looking::next_step;
use crate::running::Running;
use crate::until::{Search, instruction_in, is_done, puts_at};
use hart_core::Watch;
use rv64i_core::Instr;
use xk_base::Pid;
use xv_machine::{Machine, Outcome};

/// Whether the process is live, and its next instruction stands at one of these addresses.
fn is_at_one(machine: &Machine, pid: Pid, addresses: &[u64]) -> bool
    ensures { result ≡ is_at_one addresses.now machine.now.world.state pid }
{
    match machine.registers(pid) {
        Some(regs) => addresses.contains(&regs.pc()),
        None => false,
    }
}

/// Whether an instruction is a store, of whose bytes, from its own address on, one lies at one of these addresses.
fn puts_at_one(bytes: &[u64], instr: &Option<Instr>, own: &Option<u64>) -> bool
    ensures { result ≡ puts_at_one bytes.now instr.now own.now }
{
    bytes.iter().any(|byte| puts_at(*byte, *instr, *own))
}

/// Whether the process is live, and about to store to one of these addresses.
fn stores_to_one(machine: &Machine, pid: Pid, bytes: &[u64]) -> bool
    ensures { result ≡ stores_to_one bytes.now machine.now.world.state pid }
{
    let Some(step) = next_step(machine, pid) else {
        return false;
    };
    puts_at_one(bytes, &instruction_in(step.word), &step.address)
}

/// Whether the process that runs stands before a stop: its next instruction stands at one of the addresses, or stores
/// to one of the bytes.
pub(crate) fn is_before_stop(machine: &Machine, addresses: &[u64], bytes: &[u64]) -> bool
    ensures { result ≡ is_before_stop addresses.now bytes.now machine.now.world }
{
    let Some(pid) = machine.current() else {
        return false;
    };
    if is_at_one(machine, pid, addresses) {
        return true;
    }
    if bytes.is_empty() {
        return false;
    }
    stores_to_one(machine, pid, bytes)
}

/// Whether the process that runs stands before a stop, by what is watched.
fn is_before_watched(machine: &Machine, watch: &Watch<'_>) -> bool
    ensures { result ≡ is_before_stop watch.now.addresses.now watch.now.bytes.now machine.now.world }
{
    is_before_stop(machine, watch.addresses(), watch.bytes())
}

/// Whether Run is to be sent again: a done instruction came of the last one, and it led to no stop.
fn goes_on(last: &Outcome, met: bool) -> bool
    ensures { result ≡ (not met && is_done (outcome_of last.now)) }
{
    if met {
        return false;
    }
    is_done(last)
}

/// What came of Runs in a row, one at least.
#[derive(Drop)]
struct Row {
    sent: u32,
    // What came of the last one.
    last: Outcome,
    // Whether it led to a stop.
    met: bool,
}

/// Sends Run once. If it is to be sent again, sends it in a row, as long as an instruction is done that uses nothing that
/// is watched: `most` times at most in all. So none but the last leads to a stop.
fn run_row(running: &mut Running, most: u32, watch: &Watch<'_>) -> Row
    requires sound { IsSound running.old }
    requires some { 0 < most }
    ensures made { MadeRow watch.now.addresses.now watch.now.bytes.now result.met (outcome_of result.last) running.old running.new result.sent }
    ensures some { 0 < result.sent }
    ensures within { result.sent ≤ most }
{
    let last = running.run_once();
    let met = is_before_watched(&running.machine, watch);
    if !goes_on(&last, met) {
        return Row { sent: 1, last, met };
    }
    let made = running.machine.instructions_unwatched(most - 1, watch);
    let met_at_end = is_before_watched(&running.machine, watch);
    // The same came of each: an instruction was done, of the same process.
    Row {
        sent: made + 1,
        last,
        met: met_at_end,
    }
}

/// Sends Run as long as an instruction is done and leads to no stop, and once more, `most` times at most.
pub(crate) fn run_to_stop(
    running: &mut Running,
    most: u32,
    addresses: &[u64],
    bytes: &[u64],
) -> Search
    requires { IsSound running.old }
    ensures { WentOn addresses.now bytes.now most result.met (option_map outcome_of result.last) running.old running.new result.sent }
{
    let watch = Watch::over(addresses, bytes);
    let mut sent = 0;
    'runs: while sent < most {
        let row = run_row(running, most - sent, &watch);
        sent += row.sent;
        if !goes_on(&row.last, row.met) {
            return Search {
                sent,
                met: row.met,
                last: Some(row.last),
            };
        }
        if sent == most {
            return Search {
                sent,
                met: false,
                last: Some(row.last),
            };
        }
    }
    Search {
        sent: 0,
        met: false,
        last: None,
    }
}
