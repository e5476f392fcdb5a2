//! The call open (xv6's `sysfile.c`; the xv6 book, "I/O and File descriptors").
ghost use Rattle.std.specs.Prelude.{◌≡◌, ◌<◌, Some, None, map, set};
ghost use Rattle.xk_base.specs.declared.limits.TheConstants.{NPROC, OPEN_FILES};
ghost use Rattle.hart_core.specs.declared.hart.Hart.{Hart};
ghost use Rattle.file_table.specs.Named.{named_by, with_named};
ghost use Rattle.file_table.specs.OpenFiles.{lowest_place, open_count, with_opened};
ghost use Rattle.proc_table.specs.Slots.{descriptors_at};
ghost use Rattle.kernel_spec.specs.views.State.{named_file};
ghost use Rattle.kernel_spec.specs.views.Programs.{place_of};
ghost use Rattle.kernel_spec.specs.views.View.{Shown_terminal, Shown_file};
ghost use Rattle.kernel_spec.specs.rows.Calls.{open_file};
ghost use Rattle.kcall_core.specs.Opens.{asked_in, name_asked, asked, file_asked};
ghost use Rattle.kcall_core.specs.Memories.{image_at};
ghost use Rattle.kcall_core.specs.Kernel.{IsRunning};
ghost use Rattle.kcall_core.specs.Whole.{IsWhole};
ghost use Rattle.kcall_core.specs.Makes.{Makes, view_now, answer_of};

use crate::call_end::CallEnd;
use crate::kernel::Kernel;
use crate::kernel::exec::without_slashes;
use crate::kernel::syscall::c_int;
use file_table::FileId;
use hart_core::Hart;
use proc_table::Call;
use xk_base::limits::MAXPATH;
use xk_base::{Fd, Program};

/// The place of the program of a name.
fn place_named(programs: &[Program], name: &[u8]) -> Option<usize>
    ensures { result ≡ place_of name.now (map named_file programs.now) }
{
    programs
        .iter()
        .position(|program| program.name.as_slice() == name)
}

/// What a process asks to open.
#[derive(Clone, Copy)]
pub(crate) enum Asked {
    /// The terminal, to be read, to be written, or both.
    Terminal { read: bool, write: bool },
    /// The file of the program in this place, to be read from its first byte on.
    Program { place: usize },
}

/// The terminal, by the mode of an open: 0 to read, 1 to write, 2 to do both.
fn terminal_asked(mode: i32) -> Option<Asked>
    ensures { result ≡ asked_in mode Shown_terminal }
{
    if mode < 0 {
        return None;
    }
    if mode <= 2 {
        return Some(Asked::Terminal {
            read: mode != 1,
            write: mode != 0,
        });
    }
    None
}

/// A program's file, by the mode of an open: 0 alone, for it can only be read.
fn program_asked(place: usize, mode: i32) -> Option<Asked>
    ensures { result ≡ asked_in mode (Shown_file place 0) }
{
    if mode != 0 {
        return None;
    }
    Some(Asked::Program { place })
}

/// What a name and a mode ask for; `None` if no program has the name, or it may not be opened so.
fn name_asked(programs: &[Program], name: &[u8], mode: i32) -> Option<Asked>
    ensures { result ≡ name_asked (map named_file programs.now) mode name.now }
{
    if name == b"console".as_slice() {
        return terminal_asked(mode);
    }
    let place = place_named(programs, name)?;
    program_asked(place, mode)
}

impl Kernel {
    /// What the process in a slot, which runs, asks to open: the address of a path is in the call's first
    /// argument, the mode in its second. `None` if a byte of the path can't be read, it has more than 128
    /// bytes with its zero byte, nothing has the name, or it may not be opened in the mode.
    fn asked(&self, slot: usize, call: &Call) -> Option<Asked>
        requires whole { (hart : Hart) × IsWhole self.now hart }
        requires slot { self.now.current ≡ Some slot }
        ensures { result
            ≡ asked (map named_file self.now.programs.items)
            (image_at self.now.memories slot) call.now }
    {
        let mut text = [0; MAXPATH];
        let Ok(len) = self.memories.fetch_text(slot, call.a0, &mut text) else {
            return None;
        };
        name_asked(
            &self.programs,
            without_slashes(&text[..len]),
            c_int(call.a1),
        )
    }

    /// A free descriptor of a slot names from now on what is asked for, which is opened.
    fn open_at(&mut self, slot: usize, fd: Fd, asked: &Asked) -> FileId
        requires within { slot < NPROC }
        requires free { named_by (descriptors_at self.old.table slot) fd ≡ None }
        requires room { open_count self.old.files < OPEN_FILES }
        ensures place { lowest_place self.old.files ≡ Some result }
        ensures table { self.new.table ≡ record self.old.table {
          descriptors = set self.old.table.descriptors slot
              (with_named fd (Some result) (descriptors_at self.old.table slot));
        } }
        ensures files { self.new.files ≡ with_opened result (file_asked asked.now) self.old.files }
        ensures rest { self.new ≡ record self.old { table = self.new.table; files = self.new.files } }
    {
        match *asked {
            Asked::Terminal { read, write } => self.open_console_at(slot, fd, read, write),
            Asked::Program { place } => self.open_program_at(slot, fd, place),
        }
    }

    /// The call open: the lowest free descriptor names what the path at the address in the first argument says,
    /// the terminal or a program's file from its first byte on, and is the answer. The mode is in the second
    /// argument. If there is no such name, it may not be opened in the mode, or no descriptor is free, the
    /// answer is -1, and nothing else changes.
    pub(crate) fn open_file(&mut self, hart: &mut Hart, call: &Call) -> CallEnd
        requires whole { IsWhole self.old hart.old }
        requires running { IsRunning self.old }
        ensures made { Makes self.old hart.old (open_file call.now (view_now self.old hart.old)) self.new hart.new }
        ensures answer { (open_file call.now (view_now self.old hart.old)).answer ≡ answer_of call.now.number result }
    {
        let slot = self.running_slot();
        let Some(asked) = self.asked(slot, call) else {
            return self.refuse(hart);
        };
        let Some(fd) = self.table.descriptors(slot).lowest() else {
            return self.refuse(hart);
        };
        let _ = self.open_at(slot, fd, &asked);
        self.done(hart, i64::from(fd.number()))
    }
}
