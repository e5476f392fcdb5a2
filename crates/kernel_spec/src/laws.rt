//! The laws of the kernel's definitions, each as a clause of a function with an empty body.
//!
//! The definitions stand in `specs/` and know no code: the state of the kernel, what a process sees
//! of it (its view), what one step of it comes to as a function of that view (`own`), what every
//! other process sees of the step (`seen`), and runs of the machine. A law says what follows from
//! them. No function here takes or gives anything, and none does anything when it is called: each
//! stands for one claim, and its clauses are the laws that the claim is made of.
ghost use Rattle.kernel_spec.specs.laws.ConditionLaws.{ConditionsSuffice, ReadyIsOpen, OpensAlone, OpensNothing, OpensPipe, OpensMarked, OpensReaped, OpensForked, OpensGone, OpensTick, OpensConsole, WaitsStay};
ghost use Rattle.kernel_spec.specs.laws.FirstLaws.{FirstWell, FirstSlots};
ghost use Rattle.kernel_spec.specs.laws.RowLaws.{InstructionLaw, EcallLaw, ResumeLaw, EndLaw, TouchLaw, AnswerLaw, WaitingLaw, ExecLaw, ForkLaw, GoneLaw, ReapLaw, KillLaw, PipeReadLaw, PipeWriteLaw, FileReadLaw, OpenLaw, PipeLaw, DupLaw, DupPipeLaw, CloseLaw, ClosePipeLaw, WellForked, WellGone, WellReaped, WellAlone, WellPiped, WellMoved, WellMarked, WritesTakeNothing, StoresTakeNothing, WellOpened, WellDup, WellDupPipe, WellClosed, WellClosedPipe, WellMadePipe, WellOutside};
ghost use Rattle.kernel_spec.specs.laws.Replays.{EventIsDetermined, RunIsDetermined, ReplayIsTheSame, FirstIsOrderly, StaysOrderly};
ghost use Rattle.kernel_spec.specs.laws.RoundLaws.{RoundsThenPlan, StopsThenPlan, RoundsFollowRounds, PlanGoesByRounds, CutEndsInRound};
ghost use Rattle.kernel_spec.specs.laws.StepLaws.{RefusalsChangeNothing, InCallWhereBlocked, BlockedIsInCall};
ghost use Rattle.kernel_spec.specs.laws.WakeLaws.{PromisedRunsJoin, PromisedRunsSplit, PromisedIsRun, NoLostWakeUp, NeverLost, ReadyMayRun, FallsAsleepByItself, StaysRunnable, SlotsStay, WaitsAtMost, TurnComes, ComesNearer, IsNear, BlocksUnready};
ghost use Rattle.kernel_spec.specs.laws.Worlds.{TwoWorlds, SameStep, SharedIsApart, RunsAreCut, PidsAreGiven, OnlyWaitersAreInCalls, OnlyBrokenWritesFailLate, RunsJoin, RunsSplit, Isolated, OthersKeep, OutsideSteps, HaltedStays, UnreadyWaits, NoOldByte, OnlyStoresChangeBytes, StoresWhereUserMay, StoresTheseBytes, EachByteIsOfItsOwn, NoOldPipe, NoOldChild, EachByteHasItsSource};

/// What a process does and sees follows from what it saw and from what is shared with it, whatever else the
/// machine holds.
pub fn two_worlds()
    // Each of its steps has the same outcome, and it sees the same before and after it.
    ensures two_worlds { TwoWorlds }

    // One step has the same outcome and leaves the same view, and a process that it makes has the same
    // first view.
    ensures same_step { SameStep }

    // What is shared of a view tells nothing of the rest of it.
    ensures shared_is_apart { SharedIsApart }

    // Any run is cut at the steps of a process that is live as it begins, so that this speaks of any two runs.
    ensures runs_are_cut { RunsAreCut }

    // From boot on each live process has a pid that was given, as the cut of a run asks.
    ensures pids_are_given { PidsAreGiven }
{}

/// Runs of the machine, and runs in which each event is promised.
pub fn runs()
    // A run that goes on where another ended makes one run with it.
    ensures runs_join { RunsJoin }

    // A part of a run from its head on is a run, and so is the rest.
    ensures runs_split { RunsSplit }

    // Promised runs join too.
    ensures promised_runs_join { PromisedRunsJoin }

    // And they are split so.
    ensures promised_runs_split { PromisedRunsSplit }

    // A promised run is a run.
    ensures promised_is_run { PromisedIsRun }

    // On a halted machine nothing changes, but that a byte may be sent.
    ensures halted_stays { HaltedStays }
{}

/// The same events once more: a run is determined by its first world and its events.
pub fn replays()
    // In two worlds that can't be told apart the same event gives the same outcome, and leaves two that can't be
    // told apart.
    ensures event_is_determined { EventIsDetermined }

    // So do the same events, one after another.
    ensures run_is_determined { RunIsDetermined }

    // From boot, the same events give the same outcomes, and show each process the same.
    ensures replay_is_the_same { ReplayIsTheSame }

    // What this asks of a world is so after boot.
    ensures first_is_orderly { FirstIsOrderly }

    // And it stays so.
    ensures stays_orderly { StaysOrderly }
{}

/// The rounds that a driver of the machine plays.
pub fn plans()
    // So many rounds, and a plan for the rest, are a plan.
    ensures rounds_then_plan { RoundsThenPlan }

    // What is played before a round that can't begin, since its key can't be read, and a plan for the rest, are a
    // plan.
    ensures stops_then_plan { StopsThenPlan }

    // Rounds behind rounds are rounds.
    ensures rounds_follow_rounds { RoundsFollowRounds }

    // A plan goes round by round: nothing is played where no round may begin, and else a round, behind which a
    // plan has one round fewer.
    ensures plan_goes_by_rounds { PlanGoesByRounds }

    // A plan that is cut off behind an event is whole rounds, and of one more the events up to that one.
    ensures cut_ends_in_round { CutEndsInRound }
{}

/// What a step leaves to its process and to all others, and what every other event leaves.
pub fn isolated()
    // From boot on, each step of a process is `own` of what it sees, `seen` is all that others see of it,
    // and the state holds what `own` leaves.
    ensures isolated { Isolated }

    // An event that is no step of a process leaves its view but for what is shared.
    ensures others_keep { OthersKeep }

    // A tick changes the clock in every view, a key and a byte that is sent the console, a turn nothing.
    ensures outside_steps { OutsideSteps }
{}

/// No byte that another process left in a frame is shown.
pub fn no_old_byte()
    // After an exec that succeeded the image is that of the program that it named; after any other step
    // each byte of a new page is 0 that the step doesn't store there itself.
    ensures no_old_byte { NoOldByte }

    // In a page that stays no byte changes that the step doesn't store, but by an exec that succeeded.
    ensures only_stores_change_bytes { OnlyStoresChangeBytes }

    // And it stores only where user code may store, or may do so once the page is touched.
    ensures stores_where_user_may { StoresWhereUserMay }

    // And each byte that it stores is the one that its source has there: an instruction's store, a status, the
    // numbers of a pipe, or the console, the file or the pipe that it reads.
    ensures stores_these_bytes { StoresTheseBytes }

    // So after every step but such an exec each byte of the process's memory is one that the step stored,
    // the one that stood there before, or a 0 in a page that wasn't there.
    ensures each_byte_is_of_its_own { EachByteIsOfItsOwn }

    // Over a whole run: each byte of a live process's memory stood in a process's memory as the run began, or was
    // put there by a step of its own, or of a process from which its memory came by forks. There it stands since.
    ensures each_byte_has_its_source { EachByteHasItsSource }

    // A pipe that a process sees for the first time is empty.
    ensures no_old_pipe { NoOldPipe }

    // The image of a new process is its parent's.
    ensures no_old_child { NoOldChild }
{}

/// No wake-up is lost.
pub fn never_lost()
    // From boot on, no ready process ever sleeps, where each event keeps what is promised.
    ensures never_lost { NeverLost }

    // Where the sleepers that are due wake, no ready process sleeps after the event.
    ensures no_lost_wake_up { NoLostWakeUp }

    // A process falls asleep only by its own step, which answers that it waits.
    ensures falls_asleep_by_itself { FallsAsleepByItself }

    // So whoever is ready may run.
    ensures ready_may_run { ReadyMayRun }

    // A process that a step puts to sleep could not go on.
    ensures blocks_unready { BlocksUnready }

    // A process that waits and isn't ready waits again at its step, which changes nothing.
    ensures unready_waits { UnreadyWaits }
{}

/// Whoever may run has its turn.
pub fn turn_comes()
    // From boot on, whoever is ready, or may run, has its turn after at most 63 turns of others.
    ensures turn_comes { TurnComes }

    // While a process that may run waits for its turn, no more turns of others are given than its slot is
    // away.
    ensures waits_at_most { WaitsAtMost }

    // A process that may run, and doesn't run now, may run after any event.
    ensures stays_runnable { StaysRunnable }

    // The turn of one process brings each other one that may run nearer to its own.
    ensures comes_nearer { ComesNearer }

    // A turn is never further away than 63 slots.
    ensures is_near { IsNear }
{}

/// Slots.
pub fn slots_stay()
    // Each process keeps a slot of its own.
    ensures slots_stay { SlotsStay }

    // Process 1 has the only slot after boot.
    ensures first_slots { FirstSlots }
{}

/// Who has to wake, told by what sleepers wait for.
pub fn wakes_suffice()
    // A process is ready exactly where it is marked, or what it waits for has come.
    ensures ready_is_open { ReadyIsOpen }

    // Waking whoever waits for what has come, and the newly marked, is waking where it is due.
    ensures conditions_suffice { ConditionsSuffice }
{}

/// What each update may make come, and so who may have to wake; nobody else has to.
pub fn opens()
    // Rows that change only their process, the console and the free frames: only what the console gives may
    // come.
    ensures opens_alone { OpensAlone }

    // Rows that leave console and pipes: nothing comes.
    ensures opens_nothing { OpensNothing }

    // Rows on one pipe: only its bytes and its room.
    ensures opens_pipe { OpensPipe }

    // A mark: nothing (the marked process is ready by its mark).
    ensures opens_marked { OpensMarked }

    // A wait that takes a zombie: only what the waiting process itself waited for.
    ensures opens_reaped { OpensReaped }

    // A new process: nothing.
    ensures opens_forked { OpensForked }

    // The end of a process: the children of its parent and of process 1, and the pipes that it was on.
    ensures opens_gone { OpensGone }

    // A tick: only ticks.
    ensures opens_tick { OpensTick }

    // A key, or a byte that is sent: only what the console gives.
    ensures opens_console { OpensConsole }

    // After each of these updates everybody but the process that stepped waits for what it waited for, and
    // is marked where it was.
    ensures waits_stay { WaitsStay }
{}

/// What a step begins with.
pub fn steps()
    // An instruction that is done.
    ensures instruction { InstructionLaw }

    // An ECALL begins a call, and its row is done in the same step.
    ensures ecall { EcallLaw }

    // A call in progress goes on by its row.
    ensures resume { ResumeLaw }

    // A marked process ends, and so does one that faults.
    ensures end { EndLaw }

    // Absent pages come: the process sees them, they take frames, and the step from there on changes the state
    // as it would from before.
    ensures touch { TouchLaw }
{}

/// What the answer of a step tells of what the step leaves.
pub fn answers()
    // A call that answers -1 changes a0 and the pc alone.
    ensures refusals_change_nothing { RefusalsChangeNothing }

    // A call that has waited is never refused, but for a write to a pipe that nobody reads any more.
    ensures only_broken_writes_fail_late { OnlyBrokenWritesFailLate }

    // A call is in progress after a step exactly where the step's answer is that it waits.
    ensures in_call_where_blocked { InCallWhereBlocked }

    // It is the call that the step was on: wait, read, sleep or write.
    ensures blocked_is_in_call { BlockedIsInCall }

    // So from boot on no other call is in progress.
    ensures only_waiters_are_in_calls { OnlyWaitersAreInCalls }
{}

/// What each row of the call table does to the state: the state after the step is an update of the state
/// before.
pub fn rows()
    // A call that is done and changes only its process, the console and the free frames.
    ensures answer { AnswerLaw }

    // A call that waits.
    ensures waiting { WaitingLaw }

    // Call 7, exec, that succeeds.
    ensures exec { ExecLaw }

    // Call 1, fork, that succeeds.
    ensures fork { ForkLaw }

    // Call 2, exit; a fault; a kill.
    ensures gone { GoneLaw }

    // Call 3, wait, that takes a zombie.
    ensures reap { ReapLaw }

    // Call 6, kill, that marks.
    ensures kill { KillLaw }

    // Call 5, read, from a pipe.
    ensures pipe_read { PipeReadLaw }

    // Call 16, write, to a pipe.
    ensures pipe_write { PipeWriteLaw }

    // Call 5, read, from a program's file.
    ensures file_read { FileReadLaw }

    // Call 15, open, that succeeds.
    ensures open { OpenLaw }

    // Call 4, pipe, that succeeds.
    ensures pipe { PipeLaw }

    // Call 10, dup, of a descriptor on the console or a program's file.
    ensures dup { DupLaw }

    // Call 10, dup, of a descriptor on a pipe.
    ensures dup_pipe { DupPipeLaw }

    // Call 21, close, of a descriptor on the console or a program's file.
    ensures close { CloseLaw }

    // Call 21, close, of a descriptor on a pipe.
    ensures close_pipe { ClosePipeLaw }
{}

/// Well-formed states stay so.
pub fn well_formed()
    // The state after boot is well-formed.
    ensures first_well { FirstWell }

    // Fork keeps a state well-formed.
    ensures well_forked { WellForked }

    // So does the end of a process.
    ensures well_gone { WellGone }

    // So does a wait that takes a zombie.
    ensures well_reaped { WellReaped }

    // So does a step that changes only its process, the console and the free frames.
    ensures well_alone { WellAlone }

    // So does a pipe that gets other bytes.
    ensures well_piped { WellPiped }

    // So does a program's file that gets another offset.
    ensures well_moved { WellMoved }

    // So does a mark.
    ensures well_marked { WellMarked }

    // Writing to memory takes no frame.
    ensures writes_take_nothing { WritesTakeNothing }

    // Nor does a store.
    ensures stores_take_nothing { StoresTakeNothing }

    // Open keeps a state well-formed.
    ensures well_opened { WellOpened }

    // So does dup of a descriptor on the console or a program's file.
    ensures well_dup { WellDup }

    // So does dup of a descriptor on a pipe.
    ensures well_dup_pipe { WellDupPipe }

    // So does close of a descriptor on the console or a program's file.
    ensures well_closed { WellClosed }

    // So does close of a descriptor on a pipe.
    ensures well_closed_pipe { WellClosedPipe }

    // So does pipe.
    ensures well_made_pipe { WellMadePipe }

    // Ticks, keys and bytes that are sent keep a state well-formed.
    ensures well_outside { WellOutside }
{}
