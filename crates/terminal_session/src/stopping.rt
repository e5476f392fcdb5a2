//! The prompt at which the machine is stopped, and the debugger is asked.
ghost use Rattle.std.specs.Prelude.{◌≡◌, OnOk};
ghost use Rattle.xv_debug.specs.Conversations.{Converses, MovesByWord};
ghost use Rattle.xv_live.specs.Keeps.{GoesOn, IsKept};

use crate::completing::rest_of_word;
use crate::history::History;
use crate::keys::{Key, Keys};
use crate::line_editor::{Edit, LineEditor};
use crate::notes::Notes;
use crate::telling::{record_anew, tell_waits};
use program_files::Failure;
use std::alloc::Global;
use std::io::Write;
use xv_debug::{Debugger, Next, Patience};
use xv_live::{Host, Look, Recorder};
use xv_record::RecordFile;
use xv_session::Session;

/// What stands before a line that is typed at the prompt.
pub(crate) const PROMPT: &str = "(xv) ";

/// What is said when it opens.
const WELCOME: &str = "the machine is stopped: `c` goes on, `help` tells the words, `quit` ends it";

/// What comes after a line.
enum Line {
    /// It was typed.
    Typed,
    /// The machine is to go on.
    GoesOn,
    /// The machine is to end.
    Ends,
}

// Moves the cursor so many places to the left.
fn step_left<E: Write>(count: usize, notes: &mut E) {
    for _ in 0..count {
        let _ = notes.write_all(b"\x08");
    }
}

// Shows the line from a place on, at which the cursor stands, up to its end, and puts the cursor at its own place.
fn show_from<E: Write>(editor: &LineEditor, place: usize, notes: &mut E) {
    let behind = editor.bytes().get(place..).unwrap_or(b"");
    let _ = notes.write_all(behind);
    let _ = notes.write_all(b"\x1b[K");
    step_left(editor.bytes().len().saturating_sub(editor.place()), notes);
}

// Shows the whole line, if the cursor stands so many places behind its beginning.
fn show_line<E: Write>(editor: &LineEditor, before: usize, notes: &mut E) {
    step_left(before, notes);
    show_from(editor, 0, notes);
}

// Shows that the cursor has gone from one place to another.
fn show_move<E: Write>(editor: &LineEditor, before: usize, notes: &mut E) {
    let place = editor.place();
    step_left(before.saturating_sub(place), notes);
    let passed = editor.bytes().get(before..place).unwrap_or(b"");
    let _ = notes.write_all(passed);
}

// Shows what a key did to the line, in which the cursor stood at a place before it.
fn show_edit<E: Write>(edit: Edit, editor: &LineEditor, before: usize, notes: &mut E) {
    match edit {
        Edit::Adds(_) if editor.place() == editor.bytes().len() => {
            let _ = notes.write_all(editor.bytes().get(before..).unwrap_or(b""));
        }
        Edit::Adds(_) => show_from(editor, before, notes),
        Edit::Cuts { from, to } if from == to => {}
        Edit::Cuts { from, .. } => {
            step_left(before.saturating_sub(from), notes);
            show_from(editor, from, notes);
        }
        Edit::Moves(_) => show_move(editor, before, notes),
        Edit::Over | Edit::GoesOn | Edit::Ends => {
            show_move(editor, before, notes);
            let _ = notes.write_all(b"\n");
        }
        Edit::Older | Edit::Newer | Edit::Completes => show_line(editor, before, notes),
        Edit::Stays => {}
    }
    let _ = notes.flush();
}

// Puts a line that was typed before or after in place of this one, if the key asks for it.
fn recall(edit: Edit, editor: &mut LineEditor, history: &mut History) {
    let line = match edit {
        Edit::Older => history.older(),
        Edit::Newer => history.newer(),
        _ => None,
    };
    if let Some(line) = line {
        editor.take_over(line);
    }
}

// Writes out what was begun, if the key asks for it. Without memory nothing is written out.
fn complete(
    edit: Edit,
    editor: &mut LineEditor,
    session: &Session,
    debugger: &Debugger,
    alloc: Global,
) {
    if let Edit::Completes = edit {
        if let Ok(rest) = rest_of_word(alloc, session, debugger, editor.begun()) {
            editor.add_all(rest.as_bytes());
        }
    }
}

// What a key does to the line, and shows.
fn take_key<E: Write>(
    session: &Session,
    debugger: &Debugger,
    editor: &mut LineEditor,
    key: Key,
    notes: &mut Notes<E>,
) -> Edit {
    let before = editor.place();
    let edit = editor.key(key);
    recall(edit, editor, &mut notes.history);
    complete(edit, editor, session, debugger, notes.alloc);
    show_edit(edit, editor, before, &mut notes.errors);
    edit
}

// Reads a line of the keyboard. At its end the machine ends, since nobody is there to let it go on.
fn read_line<H: Host, E: Write>(
    session: &Session,
    debugger: &Debugger,
    host: &mut H,
    editor: &mut LineEditor,
    notes: &mut Notes<E>,
) -> Result<Line, Failure<'static>> {
    let mut keys = Keys::new();
    for _ in 0..u64::MAX {
        let byte = match host.look()? {
            Look::Came(byte) => byte,
            Look::NoneNow => {
                host.doze();
                continue;
            }
            Look::Ended => return Ok(Line::Ends),
        };
        let Some(key) = keys.next(byte) else {
            continue;
        };
        match take_key(session, debugger, editor, key, notes) {
            Edit::Over => return Ok(Line::Typed),
            Edit::GoesOn => return Ok(Line::GoesOn),
            Edit::Ends => return Ok(Line::Ends),
            _ => {}
        }
    }
    Ok(Line::Ends)
}

// Does what a line says, and writes the answer. The patience may end it.
#[tactic(auto, using(xv_debug::proofs::Conversed::obeyed, xv_debug::proofs::Conversed::unanswered))]
fn answer<P: Patience, E: Write>(
    session: &mut Session,
    line: &[u8],
    debugger: &mut Debugger,
    patience: &mut P,
    notes: &mut Notes<E>,
) -> Result<Next, Failure<'static>>
    ensures moves { MovesByWord P.may_end debugger.old.plan session.old session.new }
    ensures plan { debugger.new.plan ≡ debugger.old.plan }
{
    let Ok(line) = std::str::from_utf8(line) else {
        return Ok(Next::Stays);
    };
    let mut text = String::new(notes.alloc);
    let next = debugger.obey(notes.alloc, session, line, patience, &mut text)?;
    notes.write_text(text.as_str());
    Ok(next)
}

// A line at the prompt, and what comes after it.
fn exchange<H: Host + Patience, E: Write>(
    session: &mut Session,
    host: &mut H,
    debugger: &mut Debugger,
    notes: &mut Notes<E>,
) -> Result<Next, Failure<'static>>
    ensures moves { MovesByWord H.may_end debugger.old.plan session.old session.new }
    ensures plan { debugger.new.plan ≡ debugger.old.plan }
{
    notes.write_text(PROMPT);
    let mut editor = LineEditor::new();
    let line = read_line(session, debugger, host, &mut editor, notes)?;
    notes.history.keep(editor.bytes());
    match line {
        Line::Typed => answer(session, editor.bytes(), debugger, host, notes),
        Line::GoesOn => Ok(Next::Continues),
        Line::Ends => Ok(Next::Ends),
    }
}

/// Stops the machine at the prompt, up to a word that lets it go on or ends it. The first lines tell why each process
/// doesn't go on. The lines that are typed are the debugger's. Ctrl-C breaks off a word that runs. After each line the
/// record is that of the session.
///
/// # Errors
///
/// That of the keyboard; [`Failure::OutOfMemory`] if there is too little for an answer.
#[tactic(auto, using(xv_debug::proofs::Conversed::no_line, xv_debug::proofs::Conversed::one_more, xv_live::proofs::Kept::on_still, xv_live::proofs::Kept::on_join))]
pub fn stop<F: RecordFile, H: Host + Patience, E: Write>(
    session: &mut Session,
    host: &mut H,
    debugger: &mut Debugger,
    recorder: &mut Recorder<F>,
    notes: &mut Notes<E>,
) -> Result<Next, Failure<'static>>
    ensures lines { Converses H.may_end debugger.old.plan session.old session.new }
    ensures plan { debugger.new.plan ≡ debugger.old.plan }
    ensures kept { OnOk result (IsKept F.held recorder.old session.old.events → IsKept F.held recorder.new session.new.events) }
    ensures goes_on { GoesOn recorder.old recorder.new }
{
    notes.break_line();
    notes.write_note(WELCOME);
    tell_waits(session, notes);
    'lines: for _ in 0..u64::MAX {
        let next = exchange(session, host, debugger, notes)?;
        record_anew(session, recorder, notes);
        if next != Next::Stays {
            notes.end_notes();
            return Ok(next);
        }
    }
    Ok(Next::Ends)
}
