//! Kernel calls of the process that runs (the xv6 book, "Code: Calling system calls").
//!
//! A call begins at its ECALL and is in progress from then on, until it is done. If it has to wait it
//! stays in progress, and goes on by the same row of the call table when its process runs again.
ghost use Rattle.std.specs.Prelude.{◌≡◌, ◌+◌, ◌-◌, ◌%◌, ◌^◌, pos};
ghost use Rattle.std.specs.Prelude.{false, None, Some, IsSome, option_map};
ghost use Rattle.rv64i_core.specs.Registers.{reg, with_pc, after};
ghost use Rattle.rv64i_core.specs.Step.{Ecall};
ghost use Rattle.hart_core.specs.declared.hart.Hart.{Hart};
ghost use Rattle.proc_table.specs.Processes as process;
ghost use Rattle.proc_table.specs.Slots.{changed_at};
ghost use Rattle.proc_table.specs.declared.process.Call.{Call};
ghost use Rattle.kernel_spec.specs.steps.Instruction.{next_instruction};
ghost use Rattle.kernel_spec.specs.views.Words.{A0, A1, A2, A7, c_int, word, minus_one};
ghost use Rattle.kernel_spec.specs.rows.Calls.{with_a0, perform, getpid, refused};
ghost use Rattle.kernel_spec.specs.steps.Step.{own, call_in, call_begun};
ghost use Rattle.kernel_spec.specs.steps.Cases as laws;
ghost use Rattle.kernel_spec.specs.steps.Cases.{begun_live, begun_state};
ghost use Rattle.kernel_spec.specs.steps.Updates.{own_state, with_answer, in_call};
ghost use Rattle.kcall_core.specs.Kernel.{frame_count, state_of, IsSound, IsRunning};
ghost use Rattle.kcall_core.specs.Kernel.{IsStopped, slot_now, pid_now, live_now};
ghost use Rattle.kcall_core.specs.Whole.{IsWhole};
ghost use Rattle.kcall_core.specs.Makes.{Makes, view_now, answer_of};
ghost use Rattle.kcall_core.specs.declared.call_end.CallEnd.TheVariants.{Done, Wait};

use crate::call_end::CallEnd;
use crate::kernel::Kernel;
use crate::kernel::registers::{CALL_NUMBER, FIRST_ARGUMENT, SECOND_ARGUMENT, THIRD_ARGUMENT};
use hart_core::Hart;
use proc_table::{Call, Channel};
use xk_base::Reg;

// The numbers of the calls, as in xv6's `syscall.h`.
const FORK: i32 = 1;

const EXIT: i32 = 2;

const WAIT: i32 = 3;

const PIPE: i32 = 4;

const READ: i32 = 5;

const KILL: i32 = 6;

const EXEC: i32 = 7;

const DUP: i32 = 10;

const GETPID: i32 = 11;

const SBRK: i32 = 12;

const SLEEP: i32 = 13;

const UPTIME: i32 = 14;

const OPEN: i32 = 15;

const WRITE: i32 = 16;

const CLOSE: i32 = 21;

/// This project's own.
const SBRKLAZY: i32 = 22;

/// A hart goes past its ECALL.
fn pass_call(hart: &mut Hart)
    ensures { hart.new ≡ record hart.old { regs = with_pc hart.old.regs (after hart.old.regs) } }
{
    let next = hart.regs().pc().wrapping_add(4);
    hart.regs_mut().set_pc(next);
}

/// Puts the answer of a call into a0. Tables and translations stay.
fn put_answer(hart: &mut Hart, value: u64)
    ensures { hart.new ≡ record hart.old { regs = with_a0 hart.old.regs value } }
{
    hart.regs_mut().write(Reg::new(FIRST_ARGUMENT), value);
}

/// A C int: the low 32 bits of a register, read as signed.
pub(crate) fn c_int(register: u64) -> i32
    ensures { result ≡ c_int register }
{
    ((register % (1 << 32)) as u32).cast_signed()
}

/// The number of the call that an ECALL at the pc asks for: a7, read as a C int (RISC-V calling convention).
pub fn call_number(hart: &Hart) -> i32
    ensures { result ≡ c_int (reg hart.now.regs A7) }
{
    c_int(hart.regs().read(Reg::new(CALL_NUMBER)))
}

/// The call that a process asks for: its number is in a7, its arguments in a0 to a2.
fn asked_call(hart: &Hart, clock: u32) -> Call
    ensures { result ≡ record {
      number = c_int (reg hart.now.regs A7);
      a0 = reg hart.now.regs A0;
      a1 = reg hart.now.regs A1;
      a2 = reg hart.now.regs A2;
      moved = 0;
      clock = clock;
    } }
{
    let regs = hart.regs();
    Call {
        number: call_number(hart),
        a0: regs.read(Reg::new(FIRST_ARGUMENT)),
        a1: regs.read(Reg::new(SECOND_ARGUMENT)),
        a2: regs.read(Reg::new(THIRD_ARGUMENT)),
        moved: 0,
        clock,
    }
}

/// The call, once it has moved so many bytes.
pub(crate) fn with_moved(call: &Call, moved: u32) -> Call
    ensures { result ≡ record call.now { moved = moved } }
{
    Call { moved, ..*call }
}

/// How many of a call's `n` bytes it hasn't moved yet.
pub(crate) fn left_of(call: &Call, n: usize) -> usize
    ensures { result ≡ n - call.now.moved }
{
    n.saturating_sub(call.moved as usize)
}

/// The address of the next byte that a call moves, whose buffer is at its second argument.
pub(crate) fn next_address(call: &Call) -> u64
    ensures { result ≡ (call.now.a1 + call.now.moved) % 2 ^ 64 }
{
    call.a1.wrapping_add(u64::from(call.moved))
}

impl Kernel {
    /// The call that the ECALL at the pc asks for. The process goes past it, and the call is in progress.
    fn begin(&mut self, hart: &mut Hart) -> Call
        requires whole { IsWhole self.old hart.old }
        requires running { IsRunning self.old }
        ensures whole { IsWhole self.new hart.new }
        ensures call { result ≡ call_begun (view_now self.old hart.old) }
        ensures kernel { self.new ≡ record self.old {
          table = changed_at (slot_now self.old) (process.in_call (Some result)) self.old.table;
        } }
        ensures live { live_now self.new hart.new
            ≡ begun_live (state_of self.old hart.old) (pid_now self.old) (live_now self.old hart.old) }
        ensures state { state_of self.new hart.new
            ≡ begun_state (pid_now self.old) (live_now self.old hart.old) (state_of self.old hart.old) }
    {
        let slot = self.running_slot();
        let call = asked_call(hart, self.clock);
        pass_call(hart);
        self.table.set_progress(slot, Some(call));
        call
    }

    /// The call in progress is done, and a0 takes its answer.
    pub(crate) fn done(&mut self, hart: &mut Hart, value: i64) -> CallEnd
        requires sound { IsSound self.old hart.old }
        requires running { IsRunning self.old }
        ensures sound { IsSound self.new hart.new }
        ensures end { result ≡ Done value }
        ensures kernel { self.new ≡ record self.old {
          table = changed_at (slot_now self.old) (process.in_call None) self.old.table;
        } }
        ensures hart { hart.new ≡ record hart.old { regs = with_a0 hart.old.regs (word value) } }
        ensures state { state_of self.new hart.new
            ≡ own_state (pid_now self.old) (with_answer value (live_now self.old hart.old))
            (state_of self.old hart.old) }
    {
        let slot = self.running_slot();
        self.table.set_progress(slot, None);
        put_answer(hart, value.cast_unsigned());
        CallEnd::Done(value)
    }

    /// The process that runs sleeps on a channel, in this call.
    pub(crate) fn block(&mut self, hart: &mut Hart, call: Call, channel: Channel) -> CallEnd
        requires sound { IsSound self.old hart.old }
        requires running { IsRunning self.old }
        ensures sound { IsSound self.new hart.new }
        ensures end { result ≡ Wait }
        ensures stopped { IsStopped self.new }
        ensures table { self.new.table
            ≡ changed_at (slot_now self.old) (process.asleep channel)
            (changed_at (slot_now self.old) (process.in_call (Some call)) self.old.table) }
        ensures files { self.new.files ≡ self.old.files }
        ensures frames { frame_count self.new ≡ frame_count self.old }
        ensures state { state_of self.new hart.new
            ≡ own_state (pid_now self.old) (in_call call (live_now self.old hart.old))
            (state_of self.old hart.old) }
    {
        let slot = self.running_slot();
        self.table.set_progress(slot, Some(call));
        self.table.sleep(slot, channel);
        self.suspend(hart);
        CallEnd::Wait
    }

    /// A call is refused: the answer is -1, and nothing else changes.
    pub(crate) fn refuse(&mut self, hart: &mut Hart) -> CallEnd
        requires whole { IsWhole self.old hart.old }
        requires running { IsRunning self.old }
        ensures made { (call : Call)
            → Makes self.old hart.old (refused call (view_now self.old hart.old)) self.new hart.new }
        ensures end { result ≡ Done minus_one }
    {
        self.done(hart, -1)
    }

    /// The call getpid: the answer is the pid of the process that runs.
    fn getpid(&mut self, hart: &mut Hart) -> CallEnd
        requires whole { IsWhole self.old hart.old }
        requires running { IsRunning self.old }
        ensures made { (call : Call)
            → Makes self.old hart.old (getpid call (view_now self.old hart.old)) self.new hart.new }
        ensures end { result ≡ Done (pos (pid_now self.old)) }
    {
        let slot = self.running_slot();
        let pid = self.table.pid(slot);
        self.done(hart, i64::from(pid.number()))
    }

    /// One step of the call in progress, by its row of the call table.
    fn perform(&mut self, hart: &mut Hart, call: &Call) -> CallEnd
        requires whole { IsWhole self.old hart.old }
        requires running { IsRunning self.old }
        requires unmarked { (live_now self.old hart.old).killed ≡ false }
        requires in_call { (live_now self.old hart.old).call ≡ Some call.now }
        ensures made { Makes self.old hart.old (perform call.now (view_now self.old hart.old)) self.new hart.new }
        ensures answer { (perform call.now (view_now self.old hart.old)).answer ≡ answer_of call.now.number result }
    {
        match call.number {
            FORK => self.fork(hart),
            EXIT => {
                let status = c_int(call.a0);
                self.exit(hart, status);
                CallEnd::Gone(status)
            }
            WAIT => self.wait(hart, call),
            PIPE => self.pipe(hart, call),
            READ => self.read(hart, call),
            KILL => self.kill(hart, call),
            EXEC => self.exec(hart, call),
            DUP => self.dup(hart, call),
            GETPID => self.getpid(hart),
            SBRK => self.sbrk(hart, call),
            SLEEP => self.sleep(hart, call),
            UPTIME => self.uptime(hart),
            OPEN => self.open_file(hart, call),
            WRITE => self.write(hart, call),
            CLOSE => self.close(hart, call),
            SBRKLAZY => self.sbrklazy(hart, call),
            _ => self.refuse(hart),
        }
    }

    /// The call that the ECALL at the pc of the process that runs begins, and its first step.
    #[cold]
    pub fn call(&mut self, hart: &mut Hart) -> CallEnd
        requires whole { IsWhole self.old hart.old }
        requires running { IsRunning self.old }
        requires between_calls { laws.IsBetweenCalls (live_now self.old hart.old) }
        requires ecall { let live = live_now self.old hart.old in next_instruction live.regs live.image ≡ Ecall }
        ensures made { Makes self.old hart.old (own (view_now self.old hart.old)) self.new hart.new }
        ensures answer { let v = view_now self.old hart.old in (own v).answer ≡ answer_of (call_in v).number result }
    {
        let call = self.begin(hart);
        self.perform(hart, &call)
    }

    /// Whether the kill mark of the process that runs is set.
    #[inline(always)]
    pub fn marked(&self) -> bool
        requires sound { (hart : Hart) × IsSound self.now hart }
        requires running { IsRunning self.now }
        ensures { (hart : Hart) → result ≡ (live_now self.now hart).killed }
    {
        let slot = self.running_slot();
        self.table.marked(slot)
    }

    /// The number of the call that the process that runs is in; `None` if it is in none.
    #[inline(always)]
    pub fn in_call(&self) -> Option<i32>
        requires sound { (hart : Hart) × IsSound self.now hart }
        requires running { IsRunning self.now }
        ensures { (hart : Hart)
            → result ≡ option_map (λ (call : Call). call.number) (live_now self.now hart).call }
    {
        let slot = self.running_slot();
        let call = self.table.progress(slot)?;
        Some(call.number)
    }

    /// One more step of the call that the process that runs is in.
    #[cold]
    pub fn resume(&mut self, hart: &mut Hart) -> CallEnd
        requires whole { IsWhole self.old hart.old }
        requires running { IsRunning self.old }
        requires unmarked { (live_now self.old hart.old).killed ≡ false }
        requires in_call { IsSome (live_now self.old hart.old).call }
        ensures made { Makes self.old hart.old (own (view_now self.old hart.old)) self.new hart.new }
        ensures answer { let v = view_now self.old hart.old in (own v).answer ≡ answer_of (call_in v).number result }
    {
        let slot = self.running_slot();
        let Some(call) = self.table.progress(slot) else {
            unreachable!();
        };
        self.perform(hart, &call)
    }
}
