//! Descriptors come to name open files, and are closed (xv6's `file.c`; the xv6 book, "I/O and File descriptors").
ghost use Rattle.std.specs.Prelude.{◌≡◌, ◌<◌, IsSome, Some, None, set};
ghost use Rattle.xk_base.specs.declared.limits.TheConstants.{NPROC, OPEN_FILES};
ghost use Rattle.hart_core.specs.declared.hart.Hart.{Hart};
ghost use Rattle.file_table.specs.Named.{named_by, with_named};
ghost use Rattle.file_table.specs.OpenFiles.{entry_at, open_file_at, lowest_place, open_count};
ghost use Rattle.file_table.specs.OpenFiles.{program_file, with_opened, with_sharer};
ghost use Rattle.file_table.specs.declared.open_file.OpenFile.{OpenFile};
ghost use Rattle.proc_table.specs.Slots.{descriptors_at};
ghost use Rattle.kcall_core.specs.Sharings.{Joins, MayShare};
ghost use Rattle.kcall_core.specs.Closings.{IsClosing, Closes, ClosesFrom};

use crate::kernel::Kernel;
use crate::kernel::pipe::pipe_end_of;
use file_table::FileId;
use proc_table::Table;
use xk_base::Fd;
use xk_base::limits::NOFILE;

/// A descriptor of a slot, which is free, names an open file from now on.
pub(crate) fn put_descriptor(table: &mut Table, slot: usize, fd: Fd, file: FileId)
    requires within { slot < NPROC }
    requires free { named_by (descriptors_at table.old slot) fd ≡ None }
    ensures { table.new ≡ record table.old {
      descriptors = set table.old.descriptors slot
          (with_named fd (Some file) (descriptors_at table.old slot));
    } }
{
    table.descriptors_mut(slot).put(fd, file);
}

/// A descriptor of a slot, which is in use, names nothing from now on; the open file that it named.
fn take_descriptor(table: &mut Table, slot: usize, fd: Fd) -> FileId
    requires within { slot < NPROC }
    requires used { IsSome (named_by (descriptors_at table.old slot) fd) }
    ensures file { named_by (descriptors_at table.old slot) fd ≡ Some result }
    ensures table { table.new ≡ record table.old {
      descriptors = set table.old.descriptors slot
          (with_named fd None (descriptors_at table.old slot));
    } }
{
    table.descriptors_mut(slot).take(fd)
}

impl Kernel {
    /// A free descriptor of a slot names an open file, which counts one more; so does the end of a pipe that
    /// it is.
    pub(crate) fn share(&mut self, slot: usize, fd: Fd, file: FileId)
        requires may { MayShare self.old file }
        requires within { slot < NPROC }
        requires free { named_by (descriptors_at self.old.table slot) fd ≡ None }
        requires open { IsSome (entry_at self.old.files file) }
        ensures table { self.new.table ≡ record self.old.table {
          descriptors = set self.old.table.descriptors slot
              (with_named fd (Some file) (descriptors_at self.old.table slot));
        } }
        ensures files { self.new.files ≡ with_sharer file self.old.files }
        ensures memories { (x : OpenFile) → open_file_at self.old.files file ≡ Some x
            → Joins x.target self.old.memories self.new.memories }
        ensures rest { self.new ≡ record self.old {
          table = self.new.table;
          files = self.new.files;
          memories = self.new.memories;
        } }
    {
        let pipe = pipe_end_of(&self.files, file);
        put_descriptor(&mut self.table, slot, fd, file);
        self.files.share(file);
        let Some(at) = pipe else {
            return;
        };
        self.memories.join(at.frame, at.end);
    }

    /// A free descriptor of a slot names a program's file from now on, which is opened to be read from its
    /// first byte on.
    pub(crate) fn open_program_at(&mut self, slot: usize, fd: Fd, program: usize) -> FileId
        requires within { slot < NPROC }
        requires free { named_by (descriptors_at self.old.table slot) fd ≡ None }
        requires room { open_count self.old.files < OPEN_FILES }
        ensures place { lowest_place self.old.files ≡ Some result }
        ensures table { self.new.table ≡ record self.old.table {
          descriptors = set self.old.table.descriptors slot
              (with_named fd (Some result) (descriptors_at self.old.table slot));
        } }
        ensures files { self.new.files ≡ with_opened result (program_file program) self.old.files }
        ensures rest { self.new ≡ record self.old { table = self.new.table; files = self.new.files } }
    {
        let file = self.files.open_program(program);
        put_descriptor(&mut self.table, slot, fd, file);
        file
    }

    /// A descriptor of the process that runs, which is in use, is closed: its open file counts one fewer,
    /// and is given up with the last one. The end of a pipe that it was on counts one fewer too.
    pub(crate) fn close_descriptor(&mut self, slot: usize, fd: Fd)
        requires closing { (hart : Hart) × IsClosing self.old hart }
        requires slot { self.old.current ≡ Some slot }
        requires used { IsSome (named_by (descriptors_at self.old.table slot) fd) }
        ensures { (hart : Hart) → IsClosing self.old hart → Closes self.old hart fd self.new }
    {
        let file = take_descriptor(&mut self.table, slot, fd);
        let pipe = pipe_end_of(&self.files, file);
        let _ = self.files.close(file);
        let Some(at) = pipe else {
            return;
        };
        self.leave_pipe(at.frame, at.end);
    }

    /// A descriptor of the process that runs is closed, if it is in use.
    fn close_if_used(&mut self, slot: usize, fd: Fd)
        requires closing { (hart : Hart) × IsClosing self.old hart }
        requires slot { self.old.current ≡ Some slot }
        ensures { (hart : Hart) → IsClosing self.old hart → Closes self.old hart fd self.new }
    {
        let Some(_) = self.table.descriptors(slot).get(fd) else {
            return;
        };
        self.close_descriptor(slot, fd);
    }

    /// All descriptors of the process that runs are closed, the highest first.
    pub(crate) fn close_all(&mut self)
        requires { (hart : Hart) × IsClosing self.old hart }
        ensures { (hart : Hart) → IsClosing self.old hart → ClosesFrom self.old hart 0 self.new }
    {
        let slot = self.running_slot();
        for closed in 0..NOFILE {
            self.close_if_used(slot, Fd::new((NOFILE - 1 - closed) as u8));
        }
    }
}
