//! What GDB's `monitor` shows: views of the debugger, of the process that is looked at.
ghost use Rattle.std.specs.Prelude.{◌≡◌, IfOk, OnOk, string_bytes};
ghost use Rattle.debug_views.specs.Written.{Writes};
ghost use Rattle.gdb_target.specs.Told.{IsView, ViewIsTold};

use crate::target::Target;
use crate::why::show_why;
use debug_views::{show_console, show_descriptors, show_events, show_frames, show_pages};
use gdb_packets::{View, hex_bytes};
use std::alloc::{AllocError, Global};

/// What `monitor help` shows.
const MONITOR_HELP: &str = "\
monitor pages    the page table of the process of the thread that is chosen
monitor fds      its descriptors
monitor frames   who owns how many frames of RAM
monitor console  the bytes that the console keeps
monitor events   the last events of the run
monitor why      what each process waits for, who could wake it, and why the last call was refused
The processes are told by: info threads
";

impl Target {
    /// Adds what a view shows.
    fn show_view(&self, alloc: Global, view: View, text: &mut String) -> Result<(), AllocError>
        ensures { OnOk result (Writes (string_bytes text.old) (string_bytes text.new) (IsView self.now view)) }
    {
        let session = &self.run.session;
        match view {
            View::Pages => show_pages(alloc, session, self.looked_at, 0, text),
            View::Descriptors => show_descriptors(session, self.looked_at, text),
            View::Frames => show_frames(alloc, session, None, text),
            View::Console => show_console(session, text),
            View::Events => show_events(session, None, text),
            View::Why => show_why(alloc, session, text),
            View::Help => text.push_str(MONITOR_HELP),
        }
    }

    /// What a view shows, in hexadecimal digits.
    pub(crate) fn tell_view(&self, alloc: Global, view: View) -> Result<Vec<u8>, AllocError>
        ensures { IfOk result (λ text. ViewIsTold self.now view text.items) }
    {
        let mut shown = String::new(alloc);
        self.show_view(alloc, view, &mut shown)?;
        hex_bytes(alloc, shown.as_bytes())
    }
}
