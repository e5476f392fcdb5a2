//! The table of open files.
ghost use Rattle.std.specs.Prelude.{◌≡◌, ◌<◌, ◌≤◌, length, Option, Some, None};
ghost use Rattle.std.specs.Prelude.{option_map, IfSome, IfOk, IfErr, position, is_none};
ghost use Rattle.std.specs.Option.{ForSome};
ghost use Rattle.xk_base.specs.declared.limits.TheConstants.{OPEN_FILES};
ghost use Rattle.xk_base.specs.declared.errors.BootError.TheVariants.{Memory};
ghost use Rattle.file_table.specs.declared.open_file.TheConstants.{SHARERS_MAX};

use crate::file_id::FileId;
use crate::open_file::{CountedFile, End, OpenFile, Target};
use std::alloc::Global;
use std::marker::Model;
use xk_base::limits::OPEN_FILES;
use xk_base::{BootError, Frame};

/// The open files of all processes, each with the number of descriptors that name it.
///
/// At most [`OPEN_FILES`](xk_base::limits::OPEN_FILES) are open.
#[derive(Drop)]
pub struct Files {
    places: Vec<Option<CountedFile>>,
}

impl Model for Files {
    ghost use Rattle.std.specs.Prelude.{List, Option};
    ghost use Rattle.file_table.specs.declared.open_file.CountedFile.{CountedFile};

    ghost Value = { List (Option CountedFile) };

    ghost use Rattle.file_table.specs.OpenFiles.{IsTable};

    ghost view = { λ f. f.places.items };

    ghost invariant = { λ f. IsTable f.places.items };
}

/// The lowest place without an open file.
fn free_place(places: &[Option<CountedFile>]) -> Option<usize>
    ensures value { result ≡ position is_none places.now }
    ensures within { IfSome result (λ place. place < length places.now) }
{
    places.iter().position(|place| place.is_none())
}

impl Files {
    ghost use Rattle.file_table.specs.OpenFiles.{IsTable, IsOpen, none_open, open_count};
    ghost use Rattle.file_table.specs.OpenFiles.{lowest_place, with_opened, console_file, program_file};
    ghost use Rattle.file_table.specs.OpenFiles.{pipe_file, open_file_at, count_at, offset_of};
    ghost use Rattle.file_table.specs.OpenFiles.{with_sharer, with_offset, without_sharer, entry_at};
    ghost use Rattle.file_table.specs.OpenFiles.{is_last};

    /// A table without an open file.
    ///
    /// # Errors
    /// `Memory` where the host has too little memory.
    pub fn new(alloc: Global) -> Result<Files, BootError>
        ensures made { IfOk result (λ files. files ≡ none_open) }
        ensures refused { IfErr result (λ e. e ≡ Memory) }
    {
        // (The borrow checker has to see the types of an entry's parts.)
        let _: Option<(OpenFile, Target, Frame)> = None;
        let mut places = Vec::with_capacity(alloc, OPEN_FILES)?;
        for n in 0..OPEN_FILES {
            let Ok(()) = places.push(None) else {
                return Err(BootError::Memory);
            };
        }
        Ok(Files { places })
    }

    /// How many files are open, from 0 to [`OPEN_FILES`](xk_base::limits::OPEN_FILES).
    pub fn in_use(&self) -> usize
        ensures value { result ≡ open_count self.now }
        ensures range { result ≤ OPEN_FILES }
        ensures in_order { IsTable self.now }
    {
        self.places.iter().filter(|place| place.is_some()).count()
    }

    /// Opens the console, with these modes.
    ///
    /// This and the other two ways to open take the lowest place that is free. One descriptor is
    /// counted.
    pub fn open_console(&mut self, read: bool, write: bool) -> FileId
        requires { open_count self.old < OPEN_FILES }
        ensures place { lowest_place self.old ≡ Some result }
        ensures after { self.new ≡ with_opened result (console_file read write) self.old }
    {
        self.open(OpenFile {
            target: Target::Console,
            read,
            write,
        })
    }

    /// Opens a program's file, by its place in the program table, to be read from its first byte on.
    pub fn open_program(&mut self, program: usize) -> FileId
        requires { open_count self.old < OPEN_FILES }
        ensures place { lowest_place self.old ≡ Some result }
        ensures after { self.new ≡ with_opened result (program_file program) self.old }
    {
        self.open(OpenFile {
            target: Target::Program { program, offset: 0 },
            read: true,
            write: false,
        })
    }

    /// Opens one end of the pipe in a frame: the read end to be read, the write end to be written.
    pub fn open_pipe(&mut self, frame: Frame, end: End) -> FileId
        requires { open_count self.old < OPEN_FILES }
        ensures place { lowest_place self.old ≡ Some result }
        ensures after { self.new ≡ with_opened result (pipe_file frame end) self.old }
    {
        let (read, write) = match end {
            End::Reading => (true, false),
            End::Writing => (false, true),
        };
        self.open(OpenFile {
            target: Target::Pipe { frame, end },
            read,
            write,
        })
    }

    /// What the open file stands for, and what may be done with it.
    pub fn kind(&self, file: FileId) -> OpenFile
        requires { IsOpen self.now file }
        ensures { open_file_at self.now file ≡ Some result }
    {
        self.entry(file).file
    }

    /// The offset of the next byte; 0 where the open file is no program's.
    pub fn offset(&self, file: FileId) -> u64
        requires { IsOpen self.now file }
        ensures { option_map offset_of (open_file_at self.now file) ≡ Some result }
    {
        self.entry(file).file.offset()
    }

    /// The next byte of a program's file is the one at the offset; any other open file stays as it is.
    pub fn move_to(&mut self, file: FileId, offset: u64)
        requires { IsOpen self.old file }
        ensures { self.new ≡ with_offset file offset self.old }
    {
        let entry = self.entry(file);
        self.places[file.index()] = Some(CountedFile {
            file: entry.file.moved_to(offset),
            ..entry
        });
    }

    /// One descriptor more names the open file, which fewer than 4,096 name.
    pub fn share(&mut self, file: FileId)
        requires there { IsOpen self.old file }
        requires room { ForSome (count_at self.old file) (λ count. count < SHARERS_MAX) }
        ensures { self.new ≡ with_sharer file self.old }
    {
        let entry = self.entry(file);
        self.places[file.index()] = Some(CountedFile {
            count: entry.count + 1,
            ..entry
        });
    }

    /// One descriptor fewer names the open file. Whether it was the last one: then the file is open
    /// no more, and its place is free.
    pub fn close(&mut self, file: FileId) -> bool
        requires { IsOpen self.old file }
        ensures last { option_map is_last (entry_at self.old file) ≡ Some result }
        ensures after { self.new ≡ without_sharer file self.old }
    {
        let entry = self.entry(file);
        if entry.count == 1 {
            self.places[file.index()] = None;
            return true;
        }
        self.places[file.index()] = Some(CountedFile {
            count: entry.count - 1,
            ..entry
        });
        false
    }

    /// The open file with its count.
    fn entry(&self, file: FileId) -> CountedFile
        requires { IsOpen self.now file }
        ensures value { entry_at self.now file ≡ Some result }
        ensures counted { (1 ≤ result.count) × (result.count ≤ SHARERS_MAX) }
    {
        let Some(entry) = self.places[file.index()] else {
            unreachable!();
        };
        entry
    }

    /// Opens a file in the lowest place that is free.
    fn open(&mut self, file: OpenFile) -> FileId
        requires { open_count self.old < OPEN_FILES }
        ensures place { lowest_place self.old ≡ Some result }
        ensures after { self.new ≡ with_opened result file self.old }
    {
        let Some(place) = free_place(self.places.as_slice()) else {
            unreachable!();
        };
        self.places[place] = Some(CountedFile { file, count: 1 });
        FileId::at(place)
    }
}
