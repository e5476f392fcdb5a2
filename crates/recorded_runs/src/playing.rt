//! The events of a record, played by whoever has a machine.
ghost use Rattle.std.specs.Prelude.{◌≡◌, OnOk, OnErr, IfOk, IfErr, replicate};
ghost use Rattle.xv_live.specs.Plays.{events_of_line, events_of_lines};
ghost use Rattle.xv_machine.specs.Events.{event_of};
ghost use Rattle.xv_machine.specs.Sound.{IsSoundMachine};
ghost use Rattle.xv_machine.specs.Stretches.{BrokeOff, FailsSo, Played, PlayedFirst, Plays};
ghost use Rattle.recorded_runs.specs.Replays.{CountsFailure, IsEndOf};

use crate::counting::at_once;
use crate::ending::RecordEnd;
use xv_machine::{ByteSink, DeviceFault, Event, RoundPlayer, play_times};
use xv_record::Line;

/// Whether all bytes were written.
type Written = Result<(), DeviceFault>;

// Lets a player play an event so many times.
fn play_often<P: RoundPlayer, W: ByteSink>(
    player: &mut P,
    event: Event,
    count: u64,
    sink: &mut W,
) -> Result<Written, P::Refusal>
    requires { IsSoundMachine (P.machine player.old) }
    ensures plays { IfOk result (λ w. Plays w (replicate count (event_of event)) (P.machine player.old) (P.machine player.new) (W.sink sink.old) (W.sink sink.new)) }
    ensures failures { IfOk result (λ w. FailsSo w (W.failures sink.old) (W.failures sink.new)) }
    ensures refused { IfErr result (λ _. PlayedFirst (replicate count (event_of event)) (P.machine player.old) (P.machine player.new) (W.sink sink.old) (W.sink sink.new)) }
    ensures none_failed { IfErr result (λ _. W.failures sink.new ≡ W.failures sink.old) }
{
    let mut left = count;
    'parts: while left > 0 {
        let now = at_once(left);
        let written = play_times(player, event, now, sink)?;
        let Ok(()) = written else {
            return Ok(Err(DeviceFault));
        };
        left -= u64::from(now);
    }
    Ok(Ok(()))
}

// Plays the events of a line.
fn play_line<P: RoundPlayer, W: ByteSink>(
    player: &mut P,
    line: &Line,
    sink: &mut W,
) -> Result<Written, P::Refusal>
    requires { IsSoundMachine (P.machine player.old) }
    ensures plays { IfOk result (λ w. Plays w (events_of_line line.now) (P.machine player.old) (P.machine player.new) (W.sink sink.old) (W.sink sink.new)) }
    ensures failures { IfOk result (λ w. FailsSo w (W.failures sink.old) (W.failures sink.new)) }
    ensures refused { IfErr result (λ _. PlayedFirst (events_of_line line.now) (P.machine player.old) (P.machine player.new) (W.sink sink.old) (W.sink sink.new)) }
    ensures none_failed { IfErr result (λ _. W.failures sink.new ≡ W.failures sink.old) }
{
    match line {
        Line::Run(count) => play_often(player, Event::Run, *count, sink),
        Line::Tick(count) => play_often(player, Event::Tick, *count, sink),
        Line::Send(count) => play_often(player, Event::Send, *count, sink),
        Line::Key(byte) => play_often(player, Event::Key(*byte), 1, sink),
    }
}

/// Lets a player play the lines of a record: its machine gets just their events, in order, and the sink just what these
/// show.
///
/// The inner result is an `Err` if the bytes of an event can't be written: the machine stands after that event.
///
/// # Errors
///
/// The player's refusal: the events before the one that it refused are sent, and what they show is written.
pub fn play_lines<P: RoundPlayer, W: ByteSink>(
    player: &mut P,
    lines: &[Line],
    sink: &mut W,
) -> Result<Result<(), DeviceFault>, P::Refusal>
    requires { IsSoundMachine (P.machine player.old) }
    ensures plays { IfOk result (λ w. Plays w (events_of_lines lines.now) (P.machine player.old) (P.machine player.new) (W.sink sink.old) (W.sink sink.new)) }
    ensures failures { IfOk result (λ w. FailsSo w (W.failures sink.old) (W.failures sink.new)) }
    ensures refused { IfErr result (λ _. PlayedFirst (events_of_lines lines.now) (P.machine player.old) (P.machine player.new) (W.sink sink.old) (W.sink sink.new)) }
    ensures none_failed { IfErr result (λ _. W.failures sink.new ≡ W.failures sink.old) }
{
    for line in lines {
        let written = play_line(player, line, sink)?;
        let Ok(()) = written else {
            return Ok(Err(DeviceFault));
        };
    }
    Ok(Ok(()))
}

// What a player's record has come to.
fn end_of<P: RoundPlayer>(player: &P) -> RecordEnd
    ensures { IsEndOf result (P.machine player.now) }
{
    match player.status() {
        Some(status) => RecordEnd::Halted(status),
        None => RecordEnd::Over,
    }
}

/// Lets a player play the lines of a record as [`play_lines`] does, and tells what that came to.
///
/// The inner result is an `Err` if the bytes of an event can't be written: the machine stands after that event.
///
/// # Errors
///
/// The player's refusal: the events before the one that it refused are sent, and what they show is written.
pub fn play_record<P: RoundPlayer, W: ByteSink>(
    player: &mut P,
    lines: &[Line],
    sink: &mut W,
) -> Result<Result<RecordEnd, DeviceFault>, P::Refusal>
    ensures played { IfOk result (λ end. OnOk end (Played (events_of_lines lines.now) (P.machine player.old) (P.machine player.new) (W.sink sink.old) (W.sink sink.new))) }
    ensures end { IfOk result (λ end. IfOk end (λ e. IsEndOf e (P.machine player.new))) }
    ensures broke { IfOk result (λ end. OnErr end (BrokeOff (events_of_lines lines.now) (P.machine player.old) (P.machine player.new) (W.sink sink.old) (W.sink sink.new))) }
    ensures failures { IfOk result (λ end. CountsFailure end (W.failures sink.old) (W.failures sink.new)) }
    ensures refused { IfErr result (λ _. PlayedFirst (events_of_lines lines.now) (P.machine player.old) (P.machine player.new) (W.sink sink.old) (W.sink sink.new)) }
    ensures none_failed { IfErr result (λ _. W.failures sink.new ≡ W.failures sink.old) }
{
    // Whoever tells its status has a sound machine.
    let _ = player.status();
    match play_lines(player, lines, sink)? {
        Ok(()) => Ok(Ok(end_of(player))),
        Err(fault) => Ok(Err(fault)),
    }
}
