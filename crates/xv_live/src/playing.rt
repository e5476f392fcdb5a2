//! A record that is played.
ghost use Rattle.std.specs.Prelude.{replicate, IfErr, OnErr, OnOk};
ghost use Rattle.kernel_spec.specs.runs.Run as runs;
ghost use Rattle.xv_machine.specs.Events.{event_of};
ghost use Rattle.xv_live.specs.Breaks.{Begins, IsBreak};
ghost use Rattle.xv_live.specs.Plays.{Plays, events_of_line, events_of_lines};

use crate::events::{send, some_runs};
use crate::screen::{Screen, Teller};
use program_files::Failure;
use xv_machine::{ByteSink, Event};
use xv_record::Line;
use xv_session::Session;

// Sends so many Runs, and shows nothing, but tells faults.
fn play_runs<W: ByteSink, T: Teller>(
    session: &mut Session,
    count: u64,
    screen: &mut Screen<W, T>,
) -> Result<(), Failure<'static>>
    ensures plays { OnOk result (Plays (replicate count runs.Run) session.old session.new (W.sink screen.old.sink).held (W.sink screen.new.sink).held) }
    ensures begins { OnErr result (Begins (replicate count runs.Run) session.old session.new) }
    ensures why { IfErr result IsBreak }
{
    let mut left = count;
    'runs: while left > 0 {
        let most = left.min(u64::from(u32::MAX)) as u32;
        let sent = some_runs(session, most, screen)?;
        left -= u64::from(sent);
    }
    Ok(())
}

// Sends an event so often, and shows what the machine shows for it.
fn play_often<W: ByteSink, T: Teller>(
    session: &mut Session,
    event: Event,
    count: u64,
    screen: &mut Screen<W, T>,
) -> Result<(), Failure<'static>>
    ensures plays { OnOk result (Plays (replicate count (event_of event)) session.old session.new (W.sink screen.old.sink).held (W.sink screen.new.sink).held) }
    ensures begins { OnErr result (Begins (replicate count (event_of event)) session.old session.new) }
    ensures why { IfErr result IsBreak }
{
    let mut left = count;
    'sends: while left > 0 {
        send(session, event, screen)?;
        left -= 1;
    }
    Ok(())
}

// Plays a line of a record.
fn play_line<W: ByteSink, T: Teller>(
    session: &mut Session,
    line: &Line,
    screen: &mut Screen<W, T>,
) -> Result<(), Failure<'static>>
    ensures plays { OnOk result (Plays (events_of_line line.now) session.old session.new (W.sink screen.old.sink).held (W.sink screen.new.sink).held) }
    ensures begins { OnErr result (Begins (events_of_line line.now) session.old session.new) }
    ensures why { IfErr result IsBreak }
{
    match line {
        Line::Run(count) => play_runs(session, *count, screen),
        Line::Tick(count) => play_often(session, Event::Tick, *count, screen),
        Line::Send(count) => play_often(session, Event::Send, *count, screen),
        Line::Key(byte) => send(session, Event::Key(*byte), screen),
    }
}

/// Plays the events of a record, and shows what the machine shows for them.
///
/// # Errors
///
/// As [`send`](crate::events::send): the session has the events before, and no other.
pub fn play<W: ByteSink, T: Teller>(
    session: &mut Session,
    lines: &[Line],
    screen: &mut Screen<W, T>,
) -> Result<(), Failure<'static>>
    ensures plays { OnOk result (Plays (events_of_lines lines.now) session.old session.new (W.sink screen.old.sink).held (W.sink screen.new.sink).held) }
    ensures begins { OnErr result (Begins (events_of_lines lines.now) session.old session.new) }
    ensures why { IfErr result IsBreak }
{
    for line in lines {
        play_line(session, line, screen)?;
    }
    Ok(())
}
