//! The programs that are here, by their names.
use std::rt::Env;

/// A program around the machine.
#[derive(Clone, Copy)]
pub(crate) enum Tool {
    /// `xv_debugger`: looks into a run, forth and back.
    Debugger,
    /// `xv_explain`: tells the kernel calls of a run.
    Explain,
    /// `xv_gdb`: serves GDB.
    Gdb,
    /// `xv_grade`: grades what a student handed in.
    Grade,
    /// `xv_lines`: writes what a reader of a program's source needs of its tables.
    Lines,
    /// `xv_picture`: draws a trace.
    Picture,
    /// `xv_terminal`: the machine for people at a terminal.
    Terminal,
    /// `xv_why`: tells why processes end or wait.
    Why,
}

/// The names, in the order of the alphabet.
pub(crate) const NAMES: &str =
    "xv_debugger, xv_explain, xv_gdb, xv_grade, xv_lines, xv_picture, xv_terminal, xv_why";

/// The longest path of a program, in bytes. A host's paths have 4,095 at most.
const PATH_BYTES: usize = 4096;

impl Tool {
    /// The program of this name.
    fn named(name: &str) -> Option<Tool> {
        match name {
            "xv_debugger" => Some(Tool::Debugger),
            "xv_explain" => Some(Tool::Explain),
            "xv_gdb" => Some(Tool::Gdb),
            "xv_grade" => Some(Tool::Grade),
            "xv_lines" => Some(Tool::Lines),
            "xv_picture" => Some(Tool::Picture),
            "xv_terminal" => Some(Tool::Terminal),
            "xv_why" => Some(Tool::Why),
            _ => None,
        }
    }

    /// The program that a word of the host's command line names, which may be a path of it.
    pub(crate) fn of_word<R: Env>(rt: &R, place: usize) -> Option<Tool> {
        let mut room = [0; PATH_BYTES];
        let length = rt.arg(place, &mut room).ok()?;
        let name = room[..length].rsplit(|byte| *byte == b'/').next()?;
        Tool::named(str::from_utf8(name).ok()?)
    }
}
