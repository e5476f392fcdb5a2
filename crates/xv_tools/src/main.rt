//! The programs around the machine, in one file: `xv_debugger`, `xv_explain`, `xv_gdb`, `xv_grade`, `xv_lines`,
//! `xv_picture`, `xv_terminal` and `xv_why`.
//!
//! It is the one by whose name it is called (as in a release). Called by another name, as `xv_tools`, it
//! is the one that its first word names. What each of them does is a library's, which is proved once. To prove a
//! program means to read all modules below it, so one program costs what each of the eight would cost.
#![tactic(auto)]

mod behind;
mod lines;
mod tool;

use crate::behind::Behind;
use crate::lines::tell_lines;
use crate::tool::{NAMES, Tool};
use explained_run::explain_by_words;
use gdb_target::serve_gdb;
use grade_submissions::grade_by_words;
use program_files::exit_statuses::DONE;
use reported_run::run_and_tell;
use std::io::{self, Write};
use std::process::ExitCode;
use std::rt::Env;
use terminal_session::{debug_by_words, run_at_terminal};
use trace_picture::draw_trace;

/// The exit status of a picture that isn't drawn.
const NOT_DRAWN: u8 = 1;

// Draws the trace on standard input, and gives the exit status.
fn draw(rt: &HostRuntime) -> u8 {
    match draw_trace(rt.alloc(), rt.stdin(), &mut rt.stdout()) {
        Ok(()) => DONE,
        Err(error) => {
            let _ = writeln!(rt.stderr(), "xv_picture: {error}");
            NOT_DRAWN
        }
    }
}

// Uses a program as the words of this command line say, and gives the exit status.
fn use_tool<W: Env + AllocGlobal>(rt: &HostRuntime, words: &W, tool: Tool) -> u8 {
    match tool {
        Tool::Debugger => debug_by_words(rt, words),
        Tool::Explain => explain_by_words(rt, words),
        Tool::Gdb => serve_gdb(rt, words),
        Tool::Grade => grade_by_words(rt, words),
        Tool::Lines => tell_lines(rt),
        Tool::Picture => draw(rt),
        Tool::Terminal => run_at_terminal(rt, words),
        Tool::Why => run_and_tell(rt, words),
    }
}

// Whether help is asked for.
fn is_help(rt: &HostRuntime) -> bool {
    let mut room = [0; 8];
    match rt.arg(1, &mut room) {
        Ok(length) => matches!(str::from_utf8(&room[..length]), Ok("--help")),
        Err(_) => false,
    }
}

// Tells by which names this program is called.
fn tell<W: Write>(output: &mut W) -> io::Result<()> {
    writeln!(
        output,
        "xv_tools is called by the name of one of its programs, or its first word is that name:"
    )?;
    writeln!(output, "{NAMES}")?;
    output.flush()
}

fn main(rt: HostRuntime) -> ExitCode {
    if let Some(tool) = Tool::of_word(&rt, 0) {
        return ExitCode::from(use_tool(&rt, &rt, tool));
    }
    if let Some(tool) = Tool::of_word(&rt, 1) {
        return ExitCode::from(use_tool(&rt, &Behind(&rt), tool));
    }
    if !is_help(&rt) {
        let _ = tell(&mut rt.stderr());
        return ExitCode::FAILURE;
    }
    match tell(&mut rt.stdout()) {
        Ok(()) => ExitCode::SUCCESS,
        Err(_) => ExitCode::FAILURE,
    }
}
