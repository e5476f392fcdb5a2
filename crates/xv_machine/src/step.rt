//! Steps of the process that runs.
ghost use Rattle.std.specs.Prelude.{◌≡◌, ◌≢◌, ℕ, ◌<◌, true, false, IsSome};
ghost use Rattle.kernel_spec.specs.steps.Step.{own};
ghost use Rattle.kernel_spec.specs.steps.Cases as laws;
ghost use Rattle.kernel_spec.specs.runs.Run.{Step_of};
ghost use Rattle.kernel_spec.specs.steps.Own.{Stepped};
ghost use Rattle.kernel_spec.specs.views.State.{live};
ghost use Rattle.kcall_core.specs.Kernel.{state_of, IsSound, IsRunning, pid_now, live_now};
ghost use Rattle.kcall_core.specs.Whole.{IsWhole};
ghost use Rattle.kcall_core.specs.Makes.{Makes, view_now, stop_now, answer_of};
ghost use Rattle.kcall_core.specs.Watched.{MakesAllUnwatched};
ghost use Rattle.rv64i_core.specs.declared.execution.Stop.TheVariants as stops;
ghost use Rattle.xv_machine.specs.Events.{run_outcome_of};
ghost use Rattle.xv_machine.specs.Instructions.{Instructed};
ghost use Rattle.xv_machine.specs.Steps.{IsBusy, Advanced};

use crate::event::RunOutcome;
use hart_core::{Hart, Series, Watch};
use kcall_core::{CallEnd, Kernel, call_number};
use rv64i_core::Stop;
use xk_base::Pid;

/// The outcome of a step in which a call of this number ends so.
fn call_outcome(pid: Pid, number: i32, end: CallEnd) -> RunOutcome
    ensures { run_outcome_of result ≡ Step_of pid (answer_of number end) }
{
    match end {
        CallEnd::Done(value) => RunOutcome::Called { pid, number, value },
        CallEnd::Wait => RunOutcome::Blocked { pid, number },
        CallEnd::Gone(status) => RunOutcome::Exited { pid, status },
    }
}

/// Whether the process that runs is marked, or in a call: then its step is no instruction.
#[inline(always)]
fn is_busy(kernel: &Kernel) -> bool
    requires sound { (hart : Hart) × IsSound kernel.now hart }
    requires running { IsRunning kernel.now }
    ensures busy { (hart : Hart) → result ≡ true → IsBusy (live_now kernel.now hart) }
    ensures free { (hart : Hart) → result ≡ false → laws.IsBetweenCalls (live_now kernel.now hart) }
{
    if kernel.marked() {
        return true;
    }
    kernel.in_call().is_some()
}

/// A step of a process that is marked, which ends it, or that is in a call, which goes on.
#[inline(always)]
fn go_on(kernel: &mut Kernel, hart: &mut Hart, pid: Pid) -> RunOutcome
    requires whole { IsWhole kernel.old hart.old }
    requires running { IsRunning kernel.old }
    requires pid { pid ≡ pid_now kernel.old }
    requires busy { IsBusy (live_now kernel.old hart.old) }
    ensures made { Makes kernel.old hart.old (own (view_now kernel.old hart.old)) kernel.new hart.new }
    ensures answer { run_outcome_of result ≡ Step_of pid (own (view_now kernel.old hart.old)).answer }
    ensures other { (p : ℕ) → run_outcome_of result ≢ Step_of p Stepped }
{
    if kernel.marked() {
        kernel.exit(hart, -1);
        return RunOutcome::Exited { pid, status: -1 };
    }
    let Some(number) = kernel.in_call() else {
        unreachable!();
    };
    let end = kernel.resume(hart);
    call_outcome(pid, number, end)
}

/// What comes of an instruction that isn't done, for this reason: a call to the kernel begins, or the process
/// ends.
#[inline(always)]
fn trap(kernel: &mut Kernel, hart: &mut Hart, pid: Pid, stop: Stop) -> RunOutcome
    requires whole { IsWhole kernel.old hart.old }
    requires running { IsRunning kernel.old }
    requires between_calls { laws.IsBetweenCalls (live_now kernel.old hart.old) }
    requires pid { pid ≡ pid_now kernel.old }
    requires stop { stop ≡ stop_now kernel.old hart.old }
    requires undone { stop ≢ stops.Next }
    ensures made { Makes kernel.old hart.old (own (view_now kernel.old hart.old)) kernel.new hart.new }
    ensures answer { run_outcome_of result ≡ Step_of pid (own (view_now kernel.old hart.old)).answer }
    ensures other { (p : ℕ) → run_outcome_of result ≢ Step_of p Stepped }
{
    match stop {
        Stop::Next => unreachable!(),
        Stop::Ecall => {
            let number = call_number(hart);
            let end = kernel.call(hart);
            call_outcome(pid, number, end)
        }
        Stop::Fault(cause) => {
            kernel.exit(hart, -1);
            RunOutcome::Faulted { pid, cause }
        }
    }
}

/// The instruction at the pc.
#[inline(always)]
fn instruction(kernel: &mut Kernel, hart: &mut Hart, pid: Pid) -> RunOutcome
    requires whole { IsWhole kernel.old hart.old }
    requires running { IsRunning kernel.old }
    requires between_calls { laws.IsBetweenCalls (live_now kernel.old hart.old) }
    requires pid { pid ≡ pid_now kernel.old }
    ensures made { Makes kernel.old hart.old (own (view_now kernel.old hart.old)) kernel.new hart.new }
    ensures answer { run_outcome_of result ≡ Step_of pid (own (view_now kernel.old hart.old)).answer }
{
    match kernel.step(hart) {
        Stop::Next => RunOutcome::Stepped { pid },
        Stop::Ecall => trap(kernel, hart, pid, Stop::Ecall),
        Stop::Fault(cause) => trap(kernel, hart, pid, Stop::Fault(cause)),
    }
}

/// One step of the process that runs: it ends where it is marked, goes on with the call that it is in,
/// and does the instruction at the pc where it is in none.
#[inline(always)]
pub(crate) fn step(kernel: &mut Kernel, hart: &mut Hart, pid: Pid) -> RunOutcome
    requires whole { IsWhole kernel.old hart.old }
    requires running { IsRunning kernel.old }
    requires pid { pid ≡ pid_now kernel.old }
    ensures made { Makes kernel.old hart.old (own (view_now kernel.old hart.old)) kernel.new hart.new }
    ensures answer { run_outcome_of result ≡ Step_of pid (own (view_now kernel.old hart.old)).answer }
{
    if is_busy(kernel) {
        return go_on(kernel, hart, pid);
    }
    instruction(kernel, hart, pid)
}

/// How many instructions were done, one after another, and the outcome of the step behind them, if it was
/// something else.
#[derive(Drop)]
pub(crate) struct StepsMade {
    pub(crate) made: u32,
    pub(crate) end: Option<RunOutcome>,
}

/// Steps of the process that runs, up to the first that is no done instruction, `most` at most.
#[inline(always)]
pub(crate) fn advance(kernel: &mut Kernel, hart: &mut Hart, pid: Pid, most: u32) -> StepsMade
    requires whole { IsWhole kernel.old hart.old }
    requires running { IsRunning kernel.old }
    requires pid { pid ≡ pid_now kernel.old }
    requires first { IsSome (live (state_of kernel.old hart.old) 1) }
    requires some { 0 < most }
    ensures { Advanced kernel.old hart.old most result.made result.end kernel.new hart.new }
{
    if is_busy(kernel) {
        let outcome = go_on(kernel, hart, pid);
        return StepsMade {
            made: 0,
            end: Some(outcome),
        };
    }
    let Series { made, stop } = kernel.steps(hart, most);
    match stop {
        Stop::Next => StepsMade { made, end: None },
        Stop::Ecall => {
            let outcome = trap(kernel, hart, pid, Stop::Ecall);
            StepsMade {
                made,
                end: Some(outcome),
            }
        }
        Stop::Fault(cause) => {
            let outcome = trap(kernel, hart, pid, Stop::Fault(cause));
            StepsMade {
                made,
                end: Some(outcome),
            }
        }
    }
}

/// Instructions of the process that runs, up to the first step that is no done instruction, `most` at most. That step
/// isn't made. How many were done.
#[inline(always)]
pub(crate) fn instructions(kernel: &mut Kernel, hart: &mut Hart, most: u32) -> u32
    requires whole { IsWhole kernel.old hart.old }
    requires running { IsRunning kernel.old }
    requires first { IsSome (live (state_of kernel.old hart.old) 1) }
    ensures { Instructed kernel.old hart.old most result kernel.new hart.new }
{
    if is_busy(kernel) {
        return 0;
    }
    kernel.steps(hart, most).made
}

/// Instructions of the process that runs that are done and use nothing that is watched, one after another, `most` at
/// most. How many were done.
#[inline(always)]
pub(crate) fn instructions_unwatched(
    kernel: &mut Kernel,
    hart: &mut Hart,
    most: u32,
    watch: &Watch<'_>,
) -> u32
    requires whole { IsWhole kernel.old hart.old }
    requires running { IsRunning kernel.old }
    ensures { MakesAllUnwatched watch.now.addresses.now watch.now.bytes.now most result kernel.old hart.old kernel.new hart.new }
{
    if is_busy(kernel) {
        return 0;
    }
    kernel.steps_unwatched(hart, most, watch)
}
