//! The debugger alone, from the words of the command line to the exit status. The program that has it is `xv_debugger`.
//! It boots a machine of the programs that the command line names, reads words from standard input, a line each, and
//! writes their answers to standard output.
//!
//! What a word does to the machine is promised by `xv_debug`, and that nothing else is done to it by `Converses` of its
//! `specs/Conversations.antt`. The answers' text is compared with stored sessions (`checks/debugger`).
ghost use Rattle.std.specs.Prelude.{◌≡◌, [], IfOk, map};
ghost use Rattle.program_files.specs.Statuses.{IsPlainStatus};
ghost use Rattle.xv_record.specs.Told.{program_told, told_program};
ghost use Rattle.terminal_session.specs.Begun.{IsBegunBy, IsFollowed, IsFollowedIf, IsOfRecord};
ghost use Rattle.terminal_session.specs.DebugSettings.{IsPlanOf};

mod command_line;
mod conversation;
mod keys;

use crate::debugging::command_line::{Settings, read_settings};
use crate::debugging::conversation::Conversation;
use program_files::exit_statuses::DONE;
use program_files::{Failure, line_table, programs, put};
use recorded_runs::{
    RecordedFiles, Replay, cut_record, keys_of, play_quietly, recorded_events, recorded_files,
    whole_record,
};
use recordings::Recording;
use std::alloc::Global;
use std::io::Write;
use std::rt::Env;
use xk_base::Program;
use xv_debug::{Debugger, Plan};
use xv_machine::Config;
use xv_record::Record;
use xv_report::Sources;
use xv_session::Session;

/// The name under which the program tells what is wrong.
const NAME: &str = "xv_debugger";

/// A record on which the run is.
#[derive(Drop)]
pub(crate) struct FollowedRecord {
    /// Its first events, which are sent before the first word.
    pub kept: Record,
    /// All of its events.
    pub events: Recording,
}

/// By what the run goes on without a record.
fn plan_of<'a>(rt: &HostRuntime, settings: &'a Settings) -> Result<Plan, Failure<'a>>
    ensures plan { IfOk result (IsPlanOf settings.now) }
    ensures none { IfOk result (λ plan. plan.recorded ≡ []) }
{
    let keys = keys_of(rt, &settings.keys)?;
    Ok(Plan::with_keys(settings.quantum, keys))
}

/// A conversation about a machine of the settings, which has got no event yet.
fn begun_anew<'a>(rt: &HostRuntime, settings: &'a Settings) -> Result<Conversation, Failure<'a>>
    ensures plan { IfOk result (λ c. IsPlanOf settings.now c.debugger.plan) }
    ensures none { IfOk result (λ c. c.debugger.plan.recorded ≡ []) }
    ensures events { IfOk result (λ c. c.session.events ≡ []) }
{
    let plan = plan_of(rt, settings)?;
    let files = settings.files.as_slice();
    let made = programs(rt, files)?;
    let table = line_table(rt, &settings.lines)?;
    let sources = Sources::of_files(rt, files, made.lines, table.as_str())?;
    let config = Config {
        frames: settings.frames,
        trace: settings.trace,
    };
    let session = Session::boot(rt.alloc(), config, made.programs)?;
    Ok(Conversation {
        session,
        debugger: Debugger::alone(sources, plan),
        prompt: settings.prompt,
    })
}

/// A session of the machine that was recorded, which has got just the events of the record.
fn led(
    alloc: Global,
    trace: u32,
    programs: Vec<Program>,
    kept: &Record,
) -> Result<Session, Failure<'static>>
    requires { map program_told programs.items ≡ map told_program kept.now.programs.items }
    ensures { IfOk result (IsOfRecord kept.now) }
{
    let config = Config {
        frames: kept.frames,
        trace,
    };
    let mut session = Session::boot(alloc, config, programs)?;
    play_quietly(&mut session, kept.events.as_slice())?;
    Ok(session)
}

/// A conversation about the machine that was recorded, which has got just the first events of the record, and goes on by
/// the others.
fn begun_by<'a>(
    rt: &HostRuntime,
    settings: &'a Settings,
    followed: FollowedRecord,
) -> Result<Conversation, Failure<'a>>
    ensures plan { IfOk result (λ c. IsPlanOf settings.now c.debugger.plan) }
    ensures along { IfOk result (λ c. c.debugger.plan.recorded ≡ followed.events) }
    ensures led { IfOk result (λ c. IsOfRecord followed.kept c.session) }
{
    let FollowedRecord { kept, events } = followed;
    let given = settings.files.as_slice();
    let made = programs(rt, given)?;
    let table = line_table(rt, &settings.lines)?;
    let files = recorded_files(rt.alloc(), given, made, table.as_str(), &kept)?;
    let RecordedFiles {
        programs,
        paths,
        lines,
        table,
    } = files;
    let sources = Sources::of_files(rt, paths.as_slice(), lines, table.as_str())?;
    let session = led(rt.alloc(), settings.trace, programs, &kept)?;
    Ok(Conversation {
        session,
        debugger: Debugger::alone(sources, Plan::along(settings.quantum, events)),
        prompt: settings.prompt,
    })
}

/// A conversation about a machine of the settings that has got no event yet; or, if a record is given, about the machine
/// that was recorded, which has got just the record's first events, and goes on by the others.
fn begun<'a>(
    rt: &HostRuntime,
    settings: &'a Settings,
    followed: Option<FollowedRecord>,
) -> Result<Conversation, Failure<'a>>
    ensures plan { IfOk result (λ c. IsPlanOf settings.now c.debugger.plan) }
    ensures begun { IfOk result (λ c. IsBegunBy followed c.debugger.plan c.session) }
{
    match followed {
        Some(followed) => begun_by(rt, settings, followed),
        None => begun_anew(rt, settings),
    }
}

/// A record that is asked for: its events up to the one that `--at` names, and all of them.
fn followed_record<'a>(rt: &HostRuntime, asked: &Replay<'a>) -> Result<FollowedRecord, Failure<'a>>
    ensures { IfOk result (IsFollowed asked.now.at) }
{
    let whole = whole_record(rt, NAME, asked.path)?;
    let events = recorded_events(rt.alloc(), asked.path, &whole)?;
    let kept = cut_record(rt.alloc(), whole, asked)?;
    Ok(FollowedRecord { kept, events })
}

/// The record that is asked for, if one is.
fn record_asked<'a>(
    rt: &HostRuntime,
    asked: Option<Replay<'a>>,
) -> Result<Option<FollowedRecord>, Failure<'a>>
    ensures { IfOk result (λ followed. IsFollowedIf asked.entry followed) }
{
    match asked {
        Some(asked) => Ok(Some(followed_record(rt, &asked)?)),
        None => Ok(None),
    }
}

/// Tells how many events of a record are played, if one is.
fn tell_played<W: Write>(
    alloc: Global,
    session: &Session,
    path: &Option<String>,
    output: &mut W,
) -> Result<(), Failure<'static>> {
    let Some(path) = path else {
        return Ok(());
    };
    let (events, path) = (session.at(), path.as_str());
    let text = format!(in alloc;
        "{events} events of {path} are played: the machine stands after them.\n"
    )?;
    put(output, text.as_str().as_bytes())
}

/// Boots a machine of the settings, and does what the words of standard input say.
fn converse<'a>(
    rt: &HostRuntime,
    settings: &'a Settings,
    asked: Option<Replay<'a>>,
) -> Result<(), Failure<'a>> {
    let record = record_asked(rt, asked)?;
    let mut conversation = begun(rt, settings, record)?;
    tell_played(
        rt.alloc(),
        &conversation.session,
        &settings.replay.path,
        &mut rt.stdout(),
    )?;
    conversation.converse(rt.alloc(), &mut rt.stdin().reader(), &mut rt.stdout())
}

/// Does what the settings say, and gives the exit status.
fn debug(rt: &HostRuntime, settings: &Settings) -> u8
    ensures { IsPlainStatus result }
{
    let asked = match settings.replay.replay() {
        Ok(asked) => asked,
        Err(refusal) => return refusal.close(NAME, &mut rt.stderr()),
    };
    match converse(rt, settings, asked) {
        Ok(()) => DONE,
        Err(failure) => failure.close(NAME, &mut rt.stderr()),
    }
}

/// Debugs the programs that the words of a command line name, by the words of standard input, and gives the exit status.
pub fn debug_by_words<W: Env + AllocGlobal>(rt: &HostRuntime, words: &W) -> u8
    ensures { IsPlainStatus result }
{
    match read_settings(words) {
        Ok(settings) => debug(rt, &settings),
        Err(error) => error.close(NAME, &mut rt.stdout(), &mut rt.stderr()),
    }
}
