//! Where the lines and labels of a source stand in its program.
//!
//! The host keeps the place of a table, 8 bytes that are 0 before the first one, and gives it with each call.
ghost use Rattle.std.specs.Prelude.{◌≡◌, None, option_map};
ghost use Rattle.uasm_core.specs.LineTable.{label_seen};
ghost use Rattle.xv_page.specs.Tables.{table_kept, line_told, label_told, line_at, label_at, RowTold, NamedRowTold};
ghost use Rattle.xv_page.specs.Told.{laid};

use crate::answers::{Answer, lay};
use uasm_core::{CodeLine, LabelAddress, SourceLines};

/// A line of a source that makes instructions.
#[repr(C)]
#[derive(Clone, Copy)]
pub struct LineTold {
    /// Its number, counted from 1.
    pub line: u64,
    /// The address of its first instruction.
    pub start: u64,
    /// The address behind its last instruction.
    pub end: u64,
}

/// A label of a source.
#[repr(C)]
#[derive(Clone, Copy)]
pub struct LabelTold {
    pub address: u64,
    /// How many bytes its name has.
    pub length: u64,
}

/// A line as numbers.
pub(crate) fn line_told(line: &CodeLine) -> LineTold
    ensures { result ≡ line_told line.now }
{
    LineTold {
        line: line.line as u64,
        start: line.start,
        end: line.end,
    }
}

/// Tells a line of the source by its place among those that make instructions. `Unknown`: there is none at this place,
/// or no table.
#[inline(never)]
pub fn xv_page_line(table: &Option<Box<SourceLines>>, place: usize, told: &mut LineTold) -> Answer
    ensures { RowTold (option_map line_told (line_at (table_kept table.now) place)) told.old told.new result }
{
    let Some(table) = table else {
        return Answer::Unknown;
    };
    let Some(line) = table.code.get(place) else {
        return Answer::Unknown;
    };
    *told = line_told(line);
    Answer::Done
}

/// A label, and its name in a room.
fn named(label: &LabelAddress, told: &mut LabelTold, room: &mut [u8])
    ensures told { told.new ≡ (label_told (label_seen label.now)).0 }
    ensures laid { room.new ≡ laid (label_told (label_seen label.now)).1 room.old }
{
    let name = label.name.as_slice();
    *told = LabelTold {
        address: label.address,
        length: name.len() as u64,
    };
    lay(name, room);
}

/// Tells a label of the source by its place among them, in the order of their lines, and lays its name into the room,
/// if it fits. `Unknown`: there is none at this place, or no table.
#[inline(never)]
pub fn xv_page_label(
    table: &Option<Box<SourceLines>>,
    place: usize,
    told: &mut LabelTold,
    room: &mut [u8],
) -> Answer
    ensures { NamedRowTold (option_map label_told (label_at (table_kept table.now) place)) (told.old, room.old) (told.new, room.new) result }
{
    let Some(table) = table else {
        return Answer::Unknown;
    };
    let Some(label) = table.labels.get(place) else {
        return Answer::Unknown;
    };
    named(label, told, room);
    Answer::Done
}

/// Gives the table's memory back.
#[inline(never)]
pub fn xv_page_forget(table: &mut Option<Box<SourceLines>>)
    ensures { table.new ≡ None }
{
    *table = None;
}
