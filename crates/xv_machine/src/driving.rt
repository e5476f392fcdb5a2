//! Rounds, played between a source of keys and a sink of bytes: by a machine that is driven, or by whoever has one.
ghost use Rattle.std.specs.Prelude.{◌≡◌, ◌≢◌, ◌≤◌, ◌∷◌, [], true, false, if◌then◌else◌, OnOk, OnErr, IfOk, IfErr, replicate};
ghost use Rattle.std.specs.Option.{option_to_list};
ghost use Rattle.std.specs.Io.KnownBytes.{Appends};
ghost use Rattle.kernel_spec.specs.runs.Run as runs;
ghost use Rattle.kernel_spec.specs.runs.Run.{bytes_out};
ghost use Rattle.kernel_spec.specs.runs.Rounds.{round};
ghost use Rattle.xv_machine.specs.Devices.{one_more, failed, Asked, Calls, OneFailed};
ghost use Rattle.xv_machine.specs.Drives.{Done, StoppedByRead, StoppedByWrite, StoppedByPlayer, IsEndOf, OnRead, OnWrite, call_of};
ghost use Rattle.xv_machine.specs.Events.{event_of};
ghost use Rattle.xv_machine.specs.RoundParts.{events_of_parts};
ghost use Rattle.xv_machine.specs.Sound.{IsSoundMachine};
ghost use Rattle.xv_machine.specs.Stretches.{Plays, PlayedFirst, PlayedOnFirst, PlaysOn, FailsSo, RanOver, RanOverFirst, Silent, SilentFirst, TakesKey};

use crate::devices::{ByteSink, DeviceFault, KeySource};
use crate::event::Event;
use crate::machine::Machine;
use crate::parts::{RoundPart, round_parts};
use crate::player::RoundPlayer;
use std::slice;
use thiserror::Error;
use xk_base::limits::SEND_BYTES;

/// How long a machine is driven.
#[derive(Clone, Copy)]
pub struct RunPlan {
    /// How many rounds are played, unless the machine halts before.
    pub rounds: u64,
    /// How many times a round sends Run.
    pub quantum: u32,
}

/// Why no further round began.
#[derive(Clone, Copy, PartialEq, Eq)]
pub enum DriveEnd {
    /// Process 1 went with this status.
    Halted(i32),
    /// All rounds of the plan were played.
    RoundsOver,
}

/// The device that failed.
#[derive(Clone, Copy, Debug, PartialEq, Eq, Error)]
pub enum DriveError {
    /// The next key couldn't be read. All rounds before are played.
    #[error("a read failed")]
    Read,
    /// The bytes of the last event couldn't be written. How many of them were isn't known.
    #[error("a write failed")]
    Write,
}

/// Whether all bytes were written.
type Written = Result<(), DeviceFault>;

/// A round that was played.
#[derive(Drop)]
struct Played {
    // How many others were played before it, over whose ends the player passed. None of them showed a byte.
    passed: u64,
    written: Written,
}

// Writes the bytes at once, where there are any.
fn write_some<W: ByteSink>(sink: &mut W, bytes: &[u8]) -> Written
    ensures bytes { OnOk result (Appends (W.sink sink.old).held (W.sink sink.new).held bytes.now) }
    ensures call { OnOk result (Calls (W.sink sink.old).calls (W.sink sink.new).calls (call_of bytes.now)) }
    ensures failed_call { OnErr result (Calls (W.sink sink.old).calls (W.sink sink.new).calls (failed bytes.now ∷ [])) }
    ensures some { OnErr result (bytes.now ≢ []) }
    ensures ok { OnOk result (W.failures sink.new ≡ W.failures sink.old) }
    ensures err { OnErr result (W.failures sink.new ≡ one_more (W.failures sink.old)) }
{
    if bytes.is_empty() {
        return Ok(());
    }
    sink.write_out(bytes)
}

// Types a key, and writes what the console shows for it.
fn type_key<P: RoundPlayer, W: ByteSink>(
    player: &mut P,
    byte: u8,
    sink: &mut W,
) -> Result<Written, P::Refusal>
    requires { IsSoundMachine (P.machine player.old) }
    ensures plays { IfOk result (λ w. Plays w (runs.Key byte ∷ []) (P.machine player.old) (P.machine player.new) (W.sink sink.old) (W.sink sink.new)) }
    ensures failures { IfOk result (λ w. FailsSo w (W.failures sink.old) (W.failures sink.new)) }
    ensures refused { IfErr result (λ _. PlayedFirst (runs.Key byte ∷ []) (P.machine player.old) (P.machine player.new) (W.sink sink.old) (W.sink sink.new)) }
    ensures none_failed { IfErr result (λ _. W.failures sink.new ≡ W.failures sink.old) }
{
    let outcome = player.play_key(byte)?;
    Ok(write_some(sink, outcome.shown()))
}

// Types a key so many times.
#[inline(never)]
fn type_often<P: RoundPlayer, W: ByteSink>(
    player: &mut P,
    byte: u8,
    count: u32,
    sink: &mut W,
) -> Result<Written, P::Refusal>
    requires { IsSoundMachine (P.machine player.old) }
    ensures plays { IfOk result (λ w. Plays w (replicate count (runs.Key byte)) (P.machine player.old) (P.machine player.new) (W.sink sink.old) (W.sink sink.new)) }
    ensures failures { IfOk result (λ w. FailsSo w (W.failures sink.old) (W.failures sink.new)) }
    ensures refused { IfErr result (λ _. PlayedFirst (replicate count (runs.Key byte)) (P.machine player.old) (P.machine player.new) (W.sink sink.old) (W.sink sink.new)) }
    ensures none_failed { IfErr result (λ _. W.failures sink.new ≡ W.failures sink.old) }
{
    for typed in 0..count {
        let written = type_key(player, byte, sink)?;
        let Ok(()) = written else {
            return Ok(Err(DeviceFault));
        };
    }
    Ok(Ok(()))
}

// Sends Tick so many times, which shows no byte.
#[inline(never)]
fn tick_often<P: RoundPlayer>(player: &mut P, count: u32) -> Result<(), P::Refusal>
    requires { IsSoundMachine (P.machine player.old) }
    ensures sent { IfOk result (λ _. Silent (replicate count runs.Tick) (P.machine player.old) (P.machine player.new)) }
    ensures refused { IfErr result (λ _. SilentFirst (replicate count runs.Tick) (P.machine player.old) (P.machine player.new)) }
{
    for ticked in 0..count {
        player.play_tick()?;
    }
    Ok(())
}

// Sends Run so many times, which shows no byte.
#[inline(never)]
fn run_often<P: RoundPlayer>(player: &mut P, count: u32) -> Result<(), P::Refusal>
    requires { IsSoundMachine (P.machine player.old) }
    ensures sent { IfOk result (λ _. Silent (replicate count runs.Run) (P.machine player.old) (P.machine player.new)) }
    ensures refused { IfErr result (λ _. SilentFirst (replicate count runs.Run) (P.machine player.old) (P.machine player.new)) }
{
    let mut left = count;
    'runs: while left > 0 {
        let sent = player.play_runs(left)?;
        left -= sent;
    }
    Ok(())
}

// The byte that was sent, if there was one.
fn sent_bytes(byte: &Option<u8>) -> &[u8]
    ensures { result.now ≡ bytes_out (runs.Sent byte.now) }
{
    match byte {
        Some(byte) => slice::from_ref(byte),
        None => &[],
    }
}

// Lets the terminal take so many bytes, and writes each at once.
#[inline(never)]
fn send_often<P: RoundPlayer, W: ByteSink>(
    player: &mut P,
    count: u32,
    sink: &mut W,
) -> Result<Written, P::Refusal>
    requires { IsSoundMachine (P.machine player.old) }
    ensures plays { IfOk result (λ w. Plays w (replicate count runs.Send) (P.machine player.old) (P.machine player.new) (W.sink sink.old) (W.sink sink.new)) }
    ensures failures { IfOk result (λ w. FailsSo w (W.failures sink.old) (W.failures sink.new)) }
    ensures refused { IfErr result (λ _. PlayedFirst (replicate count runs.Send) (P.machine player.old) (P.machine player.new) (W.sink sink.old) (W.sink sink.new)) }
    ensures none_failed { IfErr result (λ _. W.failures sink.new ≡ W.failures sink.old) }
{
    let mut left = count;
    'sends: while left > 0 {
        let sends = player.play_sends(left)?;
        let written = write_some(sink, sent_bytes(&sends.byte));
        let Ok(()) = written else {
            return Ok(Err(DeviceFault));
        };
        left -= sends.sent;
    }
    Ok(Ok(()))
}

// What it calls is never inlined: the loop over parts, with a whole machine in it, would look for each of the machine's
// fields anew in each round.
/// Lets a player play an event so many times, Runs and Sends as many at once as it makes. What a key or a Send shows is
/// written at once.
///
/// The inner result is an `Err` if the bytes of an event can't be written: the machine stands after that event.
///
/// # Errors
///
/// The player's refusal: the events before the one that it refused are sent, and what they show is written.
pub fn play_times<P: RoundPlayer, W: ByteSink>(
    player: &mut P,
    event: Event,
    count: u32,
    sink: &mut W,
) -> Result<Result<(), DeviceFault>, P::Refusal>
    requires { IsSoundMachine (P.machine player.old) }
    ensures plays { IfOk result (λ w. Plays w (replicate count (event_of event)) (P.machine player.old) (P.machine player.new) (W.sink sink.old) (W.sink sink.new)) }
    ensures failures { IfOk result (λ w. FailsSo w (W.failures sink.old) (W.failures sink.new)) }
    ensures refused { IfErr result (λ _. PlayedFirst (replicate count (event_of event)) (P.machine player.old) (P.machine player.new) (W.sink sink.old) (W.sink sink.new)) }
    ensures none_failed { IfErr result (λ _. W.failures sink.new ≡ W.failures sink.old) }
{
    if count == 0 {
        return Ok(Ok(()));
    }
    match event {
        Event::Run => {
            run_often(player, count)?;
            Ok(Ok(()))
        }
        Event::Tick => {
            tick_often(player, count)?;
            Ok(Ok(()))
        }
        Event::Send => send_often(player, count, sink),
        Event::Key(byte) => type_often(player, byte, count, sink),
    }
}

// Plays the parts of a round, one after another.
fn play_parts<P: RoundPlayer, W: ByteSink>(
    player: &mut P,
    parts: &[RoundPart],
    sink: &mut W,
) -> Result<Written, P::Refusal>
    requires { IsSoundMachine (P.machine player.old) }
    ensures plays { IfOk result (λ w. Plays w (events_of_parts parts.now) (P.machine player.old) (P.machine player.new) (W.sink sink.old) (W.sink sink.new)) }
    ensures failures { IfOk result (λ w. FailsSo w (W.failures sink.old) (W.failures sink.new)) }
    ensures refused { IfErr result (λ _. PlayedFirst (events_of_parts parts.now) (P.machine player.old) (P.machine player.new) (W.sink sink.old) (W.sink sink.new)) }
    ensures none_failed { IfErr result (λ _. W.failures sink.new ≡ W.failures sink.old) }
{
    for part in parts {
        let written = play_times(player, part.event, part.count, sink)?;
        let Ok(()) = written else {
            return Ok(Err(DeviceFault));
        };
    }
    Ok(Ok(()))
}

// A round whose key is typed.
fn play_keyed_round<P: RoundPlayer, W: ByteSink>(
    player: &mut P,
    key: u8,
    quantum: u32,
    sink: &mut W,
) -> Result<Written, P::Refusal>
    requires { IsSoundMachine (P.machine player.old) }
    ensures plays { IfOk result (λ w. Plays w (round quantum (key ∷ [])) (P.machine player.old) (P.machine player.new) (W.sink sink.old) (W.sink sink.new)) }
    ensures failures { IfOk result (λ w. FailsSo w (W.failures sink.old) (W.failures sink.new)) }
    ensures refused { IfErr result (λ _. PlayedFirst (round quantum (key ∷ [])) (P.machine player.old) (P.machine player.new) (W.sink sink.old) (W.sink sink.new)) }
    ensures none_failed { IfErr result (λ _. W.failures sink.new ≡ W.failures sink.old) }
{
    let parts = round_parts(Some(key), quantum);
    play_parts(player, &parts, sink)
}

// Sends the Runs of a round. If the player then passes over the tick to the next round, it sends the Runs of that one too, and
// so on, `more` times at most. How often the player passed.
#[inline(never)]
fn run_over_ticks<P: RoundPlayer>(
    player: &mut P,
    quantum: u32,
    more: u64,
) -> Result<u64, P::Refusal>
    requires { IsSoundMachine (P.machine player.old) }
    ensures ran { IfOk result (λ passed. RanOver passed quantum (P.machine player.old) (P.machine player.new)) }
    ensures within { IfOk result (λ passed. passed ≤ more) }
    ensures refused { IfErr result (λ _. RanOverFirst more quantum (P.machine player.old) (P.machine player.new)) }
{
    run_often(player, quantum)?;
    if quantum == 0 {
        return Ok(0);
    }
    for passed in 0..more {
        if !player.pass_tick()? {
            return Ok(passed);
        }
        run_often(player, quantum - 1)?;
    }
    Ok(more)
}

// Rounds in which no key is typed: as many as the player passes over, `more` at most, and one to its end.
fn play_on<P: RoundPlayer, W: ByteSink>(
    player: &mut P,
    quantum: u32,
    more: u64,
    sink: &mut W,
) -> Result<Played, P::Refusal>
    requires { IsSoundMachine (P.machine player.old) }
    ensures plays { IfOk result (λ p. PlaysOn p.passed p.written quantum [] (P.machine player.old) (P.machine player.new) (W.sink sink.old) (W.sink sink.new)) }
    ensures within { IfOk result (λ p. p.passed ≤ more) }
    ensures failures { IfOk result (λ p. FailsSo p.written (W.failures sink.old) (W.failures sink.new)) }
    ensures refused { IfErr result (λ _. PlayedOnFirst more quantum [] (P.machine player.old) (P.machine player.new) (W.sink sink.old) (W.sink sink.new)) }
    ensures none_failed { IfErr result (λ _. W.failures sink.new ≡ W.failures sink.old) }
{
    let passed = run_over_ticks(player, quantum, more)?;
    tick_often(player, 1)?;
    let written = send_often(player, SEND_BYTES as u32, sink)?;
    Ok(Played { passed, written })
}

// One round. If no key is typed, the player may pass over others before it, `more` at most.
fn play_round<P: RoundPlayer, W: ByteSink>(
    player: &mut P,
    key: Option<u8>,
    quantum: u32,
    more: u64,
    sink: &mut W,
) -> Result<Played, P::Refusal>
    requires { IsSoundMachine (P.machine player.old) }
    ensures plays { IfOk result (λ p. PlaysOn p.passed p.written quantum (option_to_list key) (P.machine player.old) (P.machine player.new) (W.sink sink.old) (W.sink sink.new)) }
    ensures within { IfOk result (λ p. p.passed ≤ more) }
    ensures failures { IfOk result (λ p. FailsSo p.written (W.failures sink.old) (W.failures sink.new)) }
    ensures refused { IfErr result (λ _. PlayedOnFirst more quantum (option_to_list key) (P.machine player.old) (P.machine player.new) (W.sink sink.old) (W.sink sink.new)) }
    ensures none_failed { IfErr result (λ _. W.failures sink.new ≡ W.failures sink.old) }
{
    let Some(byte) = key else {
        return play_on(player, quantum, more, sink);
    };
    let written = play_keyed_round(player, byte, quantum, sink)?;
    Ok(Played { passed: 0, written })
}

// The next key; none where the source was at its end before.
fn take_key<R: KeySource>(at_end: bool, keys: &mut R) -> Result<Option<u8>, DeviceFault>
    ensures key { IfOk result (λ key. TakesKey at_end (R.source keys.old).left key (R.source keys.new).left) }
    ensures call { Asked (R.source keys.old).asked (R.source keys.new).asked (if at_end then 0 else 1) }
    ensures reads { OnErr result (at_end ≡ false) }
    ensures ok { OnOk result (R.failures keys.new ≡ R.failures keys.old) }
    ensures err { OnErr result (R.failures keys.new ≡ one_more (R.failures keys.old)) }
{
    if at_end {
        return Ok(None);
    }
    keys.next_key()
}

// Of so many rounds those of which it is known that no key is typed in them: all, after the source was at its end.
fn rounds_without_key(at_end: bool, rounds: u64) -> u64
    ensures none { at_end ≡ false → result ≡ 0 }
    ensures all { at_end ≡ true → result ≡ rounds }
    ensures within { result ≤ rounds }
{
    if at_end { rounds } else { 0 }
}

/// Lets a player play rounds, as [`drive`] drives a machine: the same events are sent, the same bytes are written and
/// the same keys are read.
///
/// The inner result is that of `drive`.
///
/// # Errors
///
/// The player's refusal: the events before the one that it refused are sent, and what they show is written. The key of
/// the round that is broken off is read.
pub fn play_rounds<P: RoundPlayer, R: KeySource, W: ByteSink>(
    player: &mut P,
    plan: RunPlan,
    keys: &mut R,
    sink: &mut W,
) -> Result<Result<DriveEnd, DriveError>, P::Refusal>
    ensures done { IfOk result (λ end. OnOk end (Done plan (R.source keys.old) (R.source keys.new) (P.machine player.old) (P.machine player.new) (W.sink sink.old) (W.sink sink.new))) }
    ensures end { IfOk result (λ end. IfOk end (λ e. IsEndOf e (P.machine player.new))) }
    ensures none_failed { IfOk result (λ end. OnOk end ((R.failures keys.new ≡ R.failures keys.old) × (W.failures sink.new ≡ W.failures sink.old))) }
    ensures read { IfOk result (λ end. IfErr end (λ e. OnRead e (StoppedByRead plan (R.source keys.old) (R.source keys.new) (P.machine player.old) (P.machine player.new) (W.sink sink.old) (W.sink sink.new)))) }
    ensures read_failed { IfOk result (λ end. IfErr end (λ e. OnRead e (OneFailed (R.failures keys.old) (R.failures keys.new) (W.failures sink.old) (W.failures sink.new)))) }
    ensures write { IfOk result (λ end. IfErr end (λ e. OnWrite e (StoppedByWrite plan (R.source keys.old) (R.source keys.new) (P.machine player.old) (P.machine player.new) (W.sink sink.old) (W.sink sink.new)))) }
    ensures write_failed { IfOk result (λ end. IfErr end (λ e. OnWrite e (OneFailed (W.failures sink.old) (W.failures sink.new) (R.failures keys.old) (R.failures keys.new)))) }
    ensures refused { IfErr result (λ _. StoppedByPlayer plan (R.source keys.old) (R.source keys.new) (P.machine player.old) (P.machine player.new) (W.sink sink.old) (W.sink sink.new)) }
    ensures refused_failures { IfErr result (λ _. (R.failures keys.new ≡ R.failures keys.old) × (W.failures sink.new ≡ W.failures sink.old)) }
{
    let mut at_end = false;
    let mut halted = player.status();
    let mut count = 0;
    'rounds: while count < plan.rounds {
        if let Some(status) = halted {
            return Ok(Ok(DriveEnd::Halted(status)));
        }
        let more = rounds_without_key(at_end, plan.rounds - count - 1);
        let Ok(key) = take_key(at_end, keys) else {
            return Ok(Err(DriveError::Read));
        };
        at_end = key.is_none();
        let played = play_round(player, key, plan.quantum, more, sink)?;
        let Ok(()) = played.written else {
            return Ok(Err(DriveError::Write));
        };
        count += 1 + played.passed;
        halted = player.status();
    }
    match halted {
        Some(status) => Ok(Ok(DriveEnd::Halted(status))),
        None => Ok(Ok(DriveEnd::RoundsOver)),
    }
}

/// Drives the machine in rounds.
///
/// A round types the next key, if the source gives one, sends Run `plan.quantum` times and Tick once,
/// and then Send 32 times. A round that has begun is finished, even where the machine halts in it. No
/// round begins on a halted machine, nor behind `plan.rounds` rounds. Once the source has given no key,
/// it isn't read again. What a key or a Send shows is written at once.
///
/// # Errors
///
/// [`DriveError::Read`] where the key of a round can't be read: the rounds before are played, and what
/// they show is written. [`DriveError::Write`] where the bytes of an event can't be written: the machine
/// stands after that event, and how many of its bytes were written isn't known.
pub fn drive<R: KeySource, W: ByteSink>(
    machine: &mut Machine,
    plan: RunPlan,
    keys: &mut R,
    sink: &mut W,
) -> Result<DriveEnd, DriveError>
    ensures done { OnOk result (Done plan (R.source keys.old) (R.source keys.new) machine.old machine.new (W.sink sink.old) (W.sink sink.new)) }
    ensures end { IfOk result (λ end. IsEndOf end machine.new) }
    ensures none_failed { OnOk result ((R.failures keys.new ≡ R.failures keys.old) × (W.failures sink.new ≡ W.failures sink.old)) }
    ensures read { IfErr result (λ e. OnRead e (StoppedByRead plan (R.source keys.old) (R.source keys.new) machine.old machine.new (W.sink sink.old) (W.sink sink.new))) }
    ensures read_failed { IfErr result (λ e. OnRead e (OneFailed (R.failures keys.old) (R.failures keys.new) (W.failures sink.old) (W.failures sink.new))) }
    ensures write { IfErr result (λ e. OnWrite e (StoppedByWrite plan (R.source keys.old) (R.source keys.new) machine.old machine.new (W.sink sink.old) (W.sink sink.new))) }
    ensures write_failed { IfErr result (λ e. OnWrite e (OneFailed (W.failures sink.old) (W.failures sink.new) (R.failures keys.old) (R.failures keys.new))) }
    ensures sound { IsSoundMachine machine.new }
    ensures frames { machine.new.frames.count ≡ machine.old.frames.count }
{
    match play_rounds(machine, plan, keys, sink) {
        Ok(end) => end,
        Err(never) => match never {},
    }
}
