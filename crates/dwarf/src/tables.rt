//! The tables of directories and files of a unit (DWARF 5, section 6.2.4, and the same section of DWARF 2 to 4).
ghost use Rattle.std.specs.Prelude.{◌≡◌};
ghost use Rattle.dwarf.specs.Files as meant;

use crate::entry::Entry;
use crate::entry_list::{new_list, old_directories, old_files};
use crate::fault::{Fault, LineError};
use crate::line_header::LineHeader;
use crate::text::past_text;
use std::alloc::Global;

/// The directories and the files of a unit.
#[derive(Drop)]
pub struct FileTable {
    /// The version of the unit's table.
    pub version: u16,
    /// The directories. In version 5 the first is that in which the compiler ran, in the others that one isn't among them.
    pub directories: Vec<Entry>,
    /// The files.
    pub files: Vec<Entry>,
}

/// The tables of versions 2 to 4.
fn old_tables(alloc: Global, bytes: &[u8], header: &LineHeader) -> Result<FileTable, LineError>
    ensures { meant.AreTables header.now.version result (meant.old_tables bytes.now header.now.tables) }
{
    let directories = old_directories(alloc, bytes, header.tables)?;
    let next = past_text(bytes, directories.next)?;
    let files = old_files(alloc, bytes, next)?;
    Ok(FileTable {
        version: header.version,
        directories: directories.entries,
        files: files.entries,
    })
}

/// The tables of version 5.
fn new_tables(alloc: Global, bytes: &[u8], header: &LineHeader) -> Result<FileTable, LineError>
    ensures { meant.AreTables header.now.version result (meant.new_tables bytes.now header.now.is_wide header.now.tables) }
{
    let directories = new_list(alloc, bytes, header.is_wide, header.tables)?;
    let files = new_list(alloc, bytes, header.is_wide, directories.next)?;
    Ok(FileTable {
        version: header.version,
        directories: directories.entries,
        files: files.entries,
    })
}

/// The directories and the files of a unit of `.debug_line`.
///
/// It takes memory for one [`Entry`] for each, of which there are no more than bytes in the header.
///
/// # Errors
///
/// [`LineError::Damaged`] with the first fault: [`Fault::Length`] if the header ends after the section, [`Fault::Short`]
/// if the tables don't end in it, [`Fault::TooLarge`] if a number has more than 64 bits, [`Fault::Form`] if a value is of
/// a form that isn't known, [`Fault::Format`] if a list has entries without fields. [`LineError::Memory`] if the host has
/// too little memory.
#[tactic(auto, unfolding(crate::specs::Files::tables))]
pub fn file_table(
    alloc: Global,
    section: &[u8],
    header: &LineHeader,
) -> Result<FileTable, LineError>
    ensures { meant.AreTables header.now.version result (meant.tables section.now header.now) }
{
    if section.len() < header.program {
        return Err(LineError::Damaged(Fault::Length(header.tables)));
    }
    let bytes = &section[..header.program];
    if header.version == 5 {
        new_tables(alloc, bytes, header)
    } else {
        old_tables(alloc, bytes, header)
    }
}

impl FileTable {
    /// Where the file of a row's number stands in the table of files.
    pub fn place_of(&self, number: u64) -> Option<u64>
        ensures { result ≡ meant.place_of self.now.version number }
    {
        if self.version == 5 {
            return Some(number);
        }
        number.checked_sub(1)
    }

    /// The file of a row's number: version 5 counts from 0 on, the others from 1 on. There is none if the table has none of
    /// this number.
    pub fn file(&self, number: u64) -> Option<Entry>
        ensures { result ≡ meant.file_of self.now.version self.now.files.items number }
    {
        let place = self.place_of(number)?;
        self.files.get(place as usize).copied()
    }
}
