//! What lies under paths.
ghost use Rattle.std.specs.Prelude.{IfOk};
ghost use Rattle.grade_submissions.specs.Disks.{Reads, reads_anything};

use crate::host_files::refused;
use program_files::Failure;
use std::fs;
use std::io::{self, ErrorKind};
use xk_base::limits::PROGRAM_BYTES;

/// The most bytes of a file that is read here.
const FILE_BYTES: u64 = 1_048_576;

/// What lies under a path. A link isn't followed.
#[derive(Drop)]
pub enum Found {
    /// Nothing.
    Nothing,
    /// No plain file: a folder, a link or a device.
    NoFile,
    /// A plain file with more bytes than a program may have.
    TooLong,
    /// A plain file of these bytes.
    File(Vec<u8>),
}

/// Where files lie.
pub trait Disk {
    // What it gives if it is read.
    ghost reads: { Self → Reads };

    /// What lies under a path.
    ///
    /// # Errors
    ///
    /// [`Failure::Refused`] if that can't be told, and [`Failure::OutOfMemory`].
    fn find(&self, path: &str) -> Result<Found, Failure<'static>>
        ensures { IfOk result (λ found. (reads self.now).found path.now found) };

    /// The bytes of a file; if its path is a link, of the file to which it leads.
    ///
    /// # Errors
    ///
    /// [`Failure::Refused`] if it can't be read or has more than 1,048,576 bytes, and [`Failure::OutOfMemory`].
    fn bytes(&self, path: &str) -> Result<Vec<u8>, Failure<'static>>
        ensures { IfOk result (λ bytes. (reads self.now).bytes path.now bytes.items) };
}

// What a call on the file of a path comes to that failed.
fn failed(rt: &HostRuntime, path: &str, error: &io::Error) -> Failure<'static> {
    match error.kind() {
        ErrorKind::OutOfMemory => Failure::OutOfMemory,
        _ => refused(rt.alloc(), path, "cannot be read"),
    }
}

// The bytes of the file of a path.
fn read(rt: &HostRuntime, path: &str) -> Result<Vec<u8>, Failure<'static>> {
    match fs::read(rt, path) {
        Ok(bytes) => Ok(bytes),
        Err(error) => Err(failed(rt, path, &error)),
    }
}

/// The host's files. No contract says what they are.
impl Disk for HostRuntime {
    ghost reads = { λ _. reads_anything };

    fn find(&self, path: &str) -> Result<Found, Failure<'static>> {
        match fs::symlink_metadata(self, path) {
            Ok(found) if !found.is_file() => Ok(Found::NoFile),
            Ok(found) if found.len() > PROGRAM_BYTES as u64 => Ok(Found::TooLong),
            Ok(_) => Ok(Found::File(read(self, path)?)),
            Err(error) if error.kind() == ErrorKind::NotFound => Ok(Found::Nothing),
            Err(error) => Err(failed(self, path, &error)),
        }
    }

    fn bytes(&self, path: &str) -> Result<Vec<u8>, Failure<'static>> {
        match fs::metadata(self, path) {
            Ok(found) if found.len() <= FILE_BYTES => read(self, path),
            Ok(_) => Err(refused(self.alloc(), path, "too long")),
            Err(error) => Err(failed(self, path, &error)),
        }
    }
}
