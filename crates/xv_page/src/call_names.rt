//! The kernel calls by their numbers and names.
ghost use Rattle.std.specs.Prelude.{◌≡◌, slice_get, option_map};
ghost use Rattle.kernel_calls.specs.Table.{calls};
ghost use Rattle.xv_page.specs.Tables.{call_told, NamedRowTold};
ghost use Rattle.xv_page.specs.Told.{laid};

use crate::answers::{Answer, lay};
use kernel_calls::{CALLS, KernelCall};

/// A kernel call.
#[repr(C)]
#[derive(Clone, Copy)]
pub struct CallTold {
    pub number: i32,
    /// How many bytes its name has.
    pub length: u64,
}

/// A call, and its name in a room.
fn named(call: KernelCall, told: &mut CallTold, room: &mut [u8])
    ensures told { told.new ≡ (call_told call).0 }
    ensures laid { room.new ≡ laid (call_told call).1 room.old }
{
    let name = call.name();
    *told = CallTold {
        number: call.number(),
        length: name.len() as u64,
    };
    lay(name.as_bytes(), room);
}

/// Tells a kernel call by its place in their list, which goes by their numbers, and lays its name into the room, if it
/// fits. `Unknown`: there is none at this place.
#[inline(never)]
pub fn xv_page_call(place: usize, told: &mut CallTold, room: &mut [u8]) -> Answer
    ensures { NamedRowTold (option_map call_told (slice_get calls place)) (told.old, room.old) (told.new, room.new) result }
{
    let Some(call) = CALLS.get(place) else {
        return Answer::Unknown;
    };
    named(*call, told, room);
    Answer::Done
}
