//! A process's descriptors.
ghost use Rattle.std.specs.Prelude.{◌≡◌, ◌<◌, Some, None, IsSome, IfSome, length, position, is_none};
ghost use Rattle.file_table.specs.Named.{named_by, none_named, lowest_unused, with_named};

use crate::file_id::FileId;
use arrayvec::ArrayVec;
use std::marker::Model;
use xk_base::Fd;
use xk_base::limits::NOFILE;

/// A process's descriptors: for each number the open file that it names, if it is in use.
#[derive(Drop)]
pub struct Descriptors {
    files: ArrayVec<Option<FileId>, NOFILE>,
}

impl Model for Descriptors {
    ghost use Rattle.std.specs.Prelude.{◌≡◌, ℕ, List, Option, length};
    ghost use Rattle.xk_base.specs.declared.limits.TheConstants.{NOFILE};

    ghost Value = { List (Option ℕ) };

    ghost view = { λ d. d.files.items };

    ghost invariant = { λ d. length d.files.items ≡ NOFILE };
}

/// The lowest number that names nothing.
fn free_number(files: &[Option<FileId>]) -> Option<usize>
    ensures value { result ≡ position is_none files.now }
    ensures within { IfSome result (λ number. number < length files.now) }
{
    files.iter().position(|file| file.is_none())
}

impl Descriptors {
    /// None is in use.
    pub fn new() -> Self
        ensures { result ≡ none_named }
    {
        Descriptors {
            files: ArrayVec::from_array_in((), [None; NOFILE]),
        }
    }

    /// The lowest descriptor that isn't in use; `None` where all are.
    pub fn lowest(&self) -> Option<Fd>
        ensures { result ≡ lowest_unused self.now }
    {
        let number = free_number(self.files.as_slice())?;
        Some(Fd::new(number as u8))
    }

    /// The open file that the descriptor names; `None` where it isn't in use.
    pub fn get(&self, fd: Fd) -> Option<FileId>
        ensures { result ≡ named_by self.now fd }
    {
        self.files.as_slice()[fd.index()]
    }

    /// From now on the descriptor, which isn't in use, names the open file.
    pub fn put(&mut self, fd: Fd, file: FileId)
        requires free { named_by self.old fd ≡ None }
        ensures { self.new ≡ with_named fd (Some file) self.old }
    {
        self.files.as_mut_slice()[fd.index()] = Some(file);
    }

    /// From now on the descriptor, which is in use, names nothing; the open file that it named.
    pub fn take(&mut self, fd: Fd) -> FileId
        requires { IsSome (named_by self.old fd) }
        ensures file { named_by self.old fd ≡ Some result }
        ensures after { self.new ≡ with_named fd None self.old }
    {
        let Some(file) = self.get(fd) else {
            unreachable!();
        };
        self.files.as_mut_slice()[fd.index()] = None;
        file
    }
}
