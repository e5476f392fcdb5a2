//! A session, from the files to its end.
use crate::NAME;
use crate::conversing::{live, replay};
use crate::first_screen::FirstScreen;
use crate::history::History;
use crate::host::Desk;
use crate::line::Settings;
use crate::notes::{Notes, OpenLine};
use crate::record_file::{HostFile, open_record};
use crate::recording::head_of;
use crate::telling::PLAYED_AGAIN;
use program_files::exit_statuses::DEVICE_FAILED;
use program_files::{Failure, line_table, programs};
use recorded_runs::{Replay, record_of, recorded_programs};
use std::alloc::Global;
use std::io::Write;
use std::time::Duration;
use xk_base::{BootError, Program};
use xv_debug::Debugger;
use xv_live::{Recorder, Screen, Teller};
use xv_machine::{ByteSink, Config, Counted};
use xv_record::Record;
use xv_report::Sources;
use xv_session::Session;

// A session of programs that was just booted.
fn boot(
    alloc: Global,
    frames: u32,
    trace: u32,
    programs: Vec<Program>,
) -> Result<Session, BootError> {
    Session::boot(alloc, Config { frames, trace }, programs)
}

// The file that the record is kept in, if there is to be one.
fn record_file<'a>(
    rt: &HostRuntime,
    settings: &'a Settings,
) -> Result<Option<HostFile>, Failure<'a>> {
    let Some(path) = &settings.record else {
        return Ok(None);
    };
    Ok(Some(open_record(rt, path.as_str(), settings.overwrite)?))
}

// Attends to a session at the keyboard up to its end, which is told. A terminal is told first what there is to type.
fn attend_to<W: ByteSink, E: Write>(
    rt: &HostRuntime,
    session: &mut Session,
    debugger: &mut Debugger,
    settings: &Settings,
    recorder: &mut Recorder<HostFile>,
    screen: &mut Screen<W, Notes<E>>,
) -> u8 {
    if settings.terminal && !settings.apart {
        let programs = session.machine().programs();
        screen.teller.write_note(FirstScreen { programs });
    }
    let tick = Duration::from_millis(u64::from(settings.tick));
    let mut desk = Desk::new(
        rt.alloc(),
        rt.stdin(),
        rt,
        settings.terminal,
        settings.woken,
        tick,
    );
    live(session, &mut desk, debugger, recorder, screen)
}

// Begins to keep a session's record in a file, if there is one.
fn begin_recording<E: Write>(
    session: &Session,
    file: Option<HostFile>,
    frames: u32,
    notes: &mut Notes<E>,
) -> Result<Recorder<HostFile>, Failure<'static>> {
    let mut recorder = Recorder::none(notes.alloc);
    let Some(file) = file else {
        return Ok(recorder);
    };
    let head = head_of(notes.alloc, session, frames)?;
    if let Err(why) = recorder.begin(file, head, session) {
        notes.tell_unrecorded(why);
    }
    Ok(recorder)
}

// The exit status of a session: that of its end, or that its record couldn't be written.
fn status_with(status: u8, recorder: &Recorder<HostFile>) -> u8 {
    match recorder.failure {
        Some(_) => DEVICE_FAILED,
        None => status,
    }
}

// A session that has booted, up to its end, which is told. Its record is kept meanwhile; that of a session that plays a
// record is written at its end.
fn go_through<'a>(
    rt: &HostRuntime,
    session: &mut Session,
    debugger: &mut Debugger,
    settings: &'a Settings,
    record: Option<&Record>,
) -> Result<u8, Failure<'a>> {
    let file = record_file(rt, settings)?;
    let notes = Notes {
        errors: rt.stderr(),
        line: OpenLine::new(),
        apart: settings.apart,
        alloc: rt.alloc(),
        plays_left: PLAYED_AGAIN,
        history: History::new(rt.alloc()),
    };
    let mut screen = Screen {
        sink: Counted::new(rt.stdout()),
        teller: notes,
    };
    let Some(record) = record else {
        let mut recorder = begin_recording(session, file, settings.frames, &mut screen.teller)?;
        let status = attend_to(rt, session, debugger, settings, &mut recorder, &mut screen);
        return Ok(status_with(status, &recorder));
    };
    let status = replay(session, record, &mut screen);
    let recorder = begin_recording(session, file, record.frames, &mut screen.teller)?;
    Ok(status_with(status, &recorder))
}

// Boots the machine that the settings ask for, and attends to it, or plays the record that is asked for.
fn begin<'a>(
    rt: &HostRuntime,
    settings: &'a Settings,
    asked: Option<Replay<'a>>,
) -> Result<u8, Failure<'a>> {
    let files = settings.files.as_slice();
    let made = programs(rt, files)?;
    let Some(asked) = asked else {
        let table = line_table(rt, &settings.lines)?;
        let sources = Sources::of_files(rt, files, made.lines, table.as_str())?;
        let mut debugger = Debugger::with_sources(sources);
        let mut session = boot(rt.alloc(), settings.frames, settings.trace, made.programs)?;
        return go_through(rt, &mut session, &mut debugger, settings, None);
    };
    let record = record_of(rt, NAME, &asked)?;
    begin_record(rt, settings, made.programs.as_slice(), &record)
}

// Boots the machine that was recorded, and plays its record.
fn begin_record<'a>(
    rt: &HostRuntime,
    settings: &'a Settings,
    programs: &[Program],
    record: &Record,
) -> Result<u8, Failure<'a>> {
    let programs = recorded_programs(rt.alloc(), programs, record)?;
    let mut session = boot(rt.alloc(), record.frames, settings.trace, programs)?;
    go_through(
        rt,
        &mut session,
        &mut Debugger::new(),
        settings,
        Some(record),
    )
}

/// Does what the settings ask for, and gives the exit status.
pub fn run(rt: &HostRuntime, settings: &Settings) -> u8 {
    let asked = match settings.replay.replay() {
        Ok(asked) => asked,
        Err(refusal) => return refusal.close(NAME, &mut rt.stderr()),
    };
    match begin(rt, settings, asked) {
        Ok(status) => status,
        Err(failure) => failure.close(NAME, &mut rt.stderr()),
    }
}
