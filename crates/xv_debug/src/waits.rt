//! What a sleeper waits for, in a few words.
ghost use Rattle.std.specs.Prelude.{Some};
ghost use Rattle.std.specs.Fmt.{WritesOnOk};
ghost use Rattle.xv_debug.specs.ProcessText.{in_pipe_text, on_text, wait_text};

use std::fmt;
use xk_base::{Fd, Frame};
use xv_report::Wait;

/// The call in which a process sleeps, and what it waits for: `read of fd 0: bytes in the pipe of frame 31`.
#[derive(Clone, Copy)]
pub(crate) struct WaitShown<'a>(pub &'a Wait);

/// A call on a descriptor, and what it waits for.
fn show_on<W: fmt::Write>(
    call: &str,
    fd: Fd,
    awaited: &str,
    f: &mut fmt::Formatter<W>,
) -> fmt::Result
    ensures { WritesOnOk W.write_str_gives f.old result (on_text call.now fd awaited.now) f.new }
{
    let fd = fd.number();
    write!(f, "{call} fd {fd}, for {awaited}")
}

/// A call on a descriptor, and what it waits for in a pipe.
fn show_in_pipe<W: fmt::Write>(
    call: &str,
    fd: Fd,
    awaited: &str,
    pipe: Frame,
    f: &mut fmt::Formatter<W>,
) -> fmt::Result
    ensures { WritesOnOk W.write_str_gives f.old result (in_pipe_text call.now fd awaited.now pipe) f.new }
{
    show_on(call, fd, awaited, f)?;
    let pipe = pipe.number();
    write!(f, " in pipe {pipe}")
}

impl<'a> fmt::Display for WaitShown<'a> {
    ghost output = { λ w. Some (wait_text w.0.now) };

    fn fmt<W: fmt::Write>(&self, f: &mut fmt::Formatter<W>) -> fmt::Result {
        match *self.0 {
            Wait::Until { tick } => write!(f, "sleep, until tick {tick}"),
            Wait::Child => f.write_str("wait, for a child to end"),
            Wait::Keys { fd } => show_on("read of", fd, "a line of keys", f),
            Wait::Sending { fd } => show_on("write to", fd, "room in the console", f),
            Wait::PipeBytes { fd, pipe } => show_in_pipe("read of", fd, "bytes", pipe, f),
            Wait::PipeRoom { fd, pipe } => show_in_pipe("write to", fd, "room", pipe, f),
        }
    }
}
