//! Breakpoints and watchpoints.
ghost use Rattle.std.specs.Prelude.{◌≡◌, [], ◌==◌, ◌&&◌, OnOk, length};
ghost use Rattle.std.specs.List.{list_any};
ghost use Rattle.gdb_target.specs.Chosen.{IsPut, IsTaken, is_same};
ghost use Rattle.gdb_target.specs.Chosen.{with_breakpoint, with_watched, without_breakpoint, without_watched};
ghost use Rattle.gdb_target.specs.Forth.{is_bare};
ghost use Rattle.gdb_target.specs.Touches.{watches_uses};

use gdb_packets::Point;
use std::alloc::{AllocError, Global};

/// Bytes that are watched: so many from an address on.
#[derive(Clone, Copy, PartialEq, Eq)]
pub struct Watched {
    pub address: u64,
    pub length: u64,
}

/// The most bytes that one watchpoint watches.
pub(crate) const WATCHED_MOST: u64 = 1024;

/// What stops the processes of the program that GDB knows.
#[derive(Drop)]
pub struct Points {
    /// The addresses of instructions that are about to be done.
    pub breakpoints: Vec<u64>,
    /// Bytes that become others.
    pub watched: Vec<Watched>,
    /// Bytes of which one is read.
    pub read: Vec<Watched>,
    /// Bytes of which one is read or written.
    pub accessed: Vec<Watched>,
}

/// Whether these bytes are among those that are watched.
fn has_same(list: &[Watched], watched: &Watched) -> bool
    ensures { result ≡ list_any (λ w. is_same w watched.now) list.now }
{
    list.contains(watched)
}

/// Adds bytes that are watched, unless they are there.
fn insert_into(list: &mut Vec<Watched>, watched: Watched) -> Result<(), AllocError>
    ensures { OnOk result (list.new.items ≡ with_watched watched list.old.items) }
{
    if has_same(list.as_slice(), &watched) {
        return Ok(());
    }
    list.push(watched)?;
    Ok(())
}

/// Takes bytes that are watched away, if they are there.
fn remove_from(list: &mut Vec<Watched>, taken: Watched)
    ensures { list.new.items ≡ without_watched taken list.old.items }
{
    list.retain(|watched| *watched != taken);
}

impl Points {
    /// None.
    pub fn new(alloc: Global) -> Points
        ensures breakpoints { result.breakpoints.items ≡ [] }
        ensures watched { result.watched.items ≡ [] }
        ensures read { result.read.items ≡ [] }
        ensures accessed { result.accessed.items ≡ [] }
    {
        Points {
            breakpoints: Vec::new(alloc),
            watched: Vec::new(alloc),
            read: Vec::new(alloc),
            accessed: Vec::new(alloc),
        }
    }

    /// Whether there is none.
    pub fn is_empty(&self) -> bool
        ensures { result ≡ is_bare self.now }
    {
        self.breakpoints.is_empty() && self.watched.is_empty() && !self.watches_uses()
    }

    /// Whether bytes are watched for reads, or for reads and writes.
    pub fn watches_uses(&self) -> bool
        ensures { result ≡ watches_uses self.now }
    {
        !(self.read.is_empty() && self.accessed.is_empty())
    }

    /// Whether a breakpoint is at this address.
    pub fn is_breakpoint(&self, pc: u64) -> bool
        ensures { result ≡ list_any (λ a. a == pc) self.now.breakpoints.items }
    {
        self.breakpoints.as_slice().contains(&pc)
    }

    /// Whether no bytes are watched whose changes are told.
    pub(crate) fn sees_no_change(&self) -> bool {
        self.watched.is_empty() && self.accessed.is_empty()
    }

    /// The bytes that are watched for changes.
    pub fn watched(&self) -> &[Watched]
        ensures { result.now ≡ self.now.watched.items }
    {
        self.watched.as_slice()
    }

    /// Adds a breakpoint, unless it is there.
    fn insert_breakpoint(&mut self, address: u64) -> Result<(), AllocError>
        ensures put { OnOk result
            (self.new.breakpoints.items ≡ with_breakpoint address self.old.breakpoints.items) }
        ensures others { self.new ≡ record self.old { breakpoints = self.new.breakpoints } }
    {
        if self.is_breakpoint(address) {
            return Ok(());
        }
        self.breakpoints.push(address)?;
        Ok(())
    }

    /// Adds a point; one that is there already stays the only one of its kind.
    ///
    /// # Errors
    ///
    /// [`AllocError`] if the host has too little memory.
    pub fn insert(&mut self, point: Point, address: u64, length: u64) -> Result<(), AllocError>
        ensures { OnOk result (IsPut point address length self.old self.new) }
    {
        match point {
            Point::Breakpoint => self.insert_breakpoint(address),
            Point::Watchpoint => insert_into(&mut self.watched, Watched { address, length }),
            Point::ReadWatchpoint => insert_into(&mut self.read, Watched { address, length }),
            Point::AccessWatchpoint => insert_into(&mut self.accessed, Watched { address, length }),
        }
    }

    /// Takes a breakpoint away, if it is there.
    fn remove_breakpoint(&mut self, address: u64)
        ensures taken { self.new.breakpoints.items ≡ without_breakpoint address self.old.breakpoints.items }
        ensures others { self.new ≡ record self.old { breakpoints = self.new.breakpoints } }
    {
        self.breakpoints.retain(|at| *at != address);
    }

    /// Takes a point away, if it is there.
    pub fn remove(&mut self, point: Point, address: u64, length: u64)
        ensures { IsTaken point address length self.old self.new }
    {
        match point {
            Point::Breakpoint => self.remove_breakpoint(address),
            Point::Watchpoint => remove_from(&mut self.watched, Watched { address, length }),
            Point::ReadWatchpoint => remove_from(&mut self.read, Watched { address, length }),
            Point::AccessWatchpoint => remove_from(&mut self.accessed, Watched { address, length }),
        }
    }
}
