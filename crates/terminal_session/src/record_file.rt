//! The file of a session's record, on the host.
ghost use Rattle.std.specs.Prelude.{◌≡◌, None, false, IfOk};

use program_files::Failure;
use std::fs::{File, OpenFile};
use std::io::{self, Seek, SeekFrom, Write};
use xv_record::{RecordFile, Unwritten};

/// A file of the host that a record is written into.
#[derive(Drop)]
pub struct HostFile {
    file: File,
    /// How many bytes it has.
    size: u64,
}

/// The file of this path, which is made if it isn't there. One that has bytes is taken only if it may be written over;
/// it isn't touched yet.
///
/// # Errors
///
/// [`Failure::CannotBeWritten`] if it can't be opened, or if it is a pipe, which has no places; and
/// [`Failure::Refused`] if it has bytes that may not be written over.
pub fn open_record<'a>(
    rt: &HostRuntime,
    path: &'a str,
    may_overwrite: bool,
) -> Result<HostFile, Failure<'a>>
    // one that has bytes isn't taken, unless it may be written over
    ensures { may_overwrite ≡ false → IfOk result (λ f. f.size ≡ 0) }
{
    let mut options = File::options();
    options.write(true).create(true);
    let Ok(mut file) = options.open(rt, path) else {
        return Err(Failure::CannotBeWritten(path));
    };
    match file.seek(SeekFrom::End(0)) {
        Ok(size) if size == 0 || may_overwrite => Ok(HostFile { file, size }),
        Ok(_) => Err(Failure::in_words(format!(in rt.alloc();
            "{path}: is there: --overwrite writes over it"
        ))),
        Err(_) => Err(Failure::CannotBeWritten(path)),
    }
}

impl HostFile {
    // Puts bytes into the place of all but the first. As long as there are no fewer of them than before, each byte that
    // was the same stays: whoever ends the program in between finds the old text or the new one.
    fn put(&mut self, kept: u64, bytes: &[u8]) -> io::Result<()> {
        self.file.seek(SeekFrom::Start(kept))?;
        self.file.write_all(bytes)?;
        let end = kept.saturating_add(bytes.len() as u64);
        if end < self.size {
            self.file.set_len(end)?;
        }
        self.size = end;
        Ok(())
    }
}

/// Nobody knows what a file of the host holds. Of one that can't be written the first bytes are left, so that they are
/// a record that is cut off.
impl RecordFile for HostFile {
    ghost held = { λ _. None };

    fn put_behind(&mut self, kept: u64, bytes: &[u8]) -> Result<(), Unwritten> {
        if self.put(kept, bytes).is_ok() {
            return Ok(());
        }
        let _ = self.file.set_len(kept);
        Err(Unwritten)
    }
}
