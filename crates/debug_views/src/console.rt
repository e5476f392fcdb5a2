//! The bytes that the console holds.
ghost use Rattle.std.specs.Prelude.{◌≡◌, OnOk, take};
ghost use Rattle.console_core.specs.Lists.{list_of};
ghost use Rattle.debug_views.specs.ConsoleText.{behind_number, console_text, list_text, room_text};
ghost use Rattle.debug_views.specs.Written.{Appends};

use arrayvec::ArrayVec;
use debug_words::texts::{Grouped, Many, Quoted};
use std::alloc::AllocError;
use xk_base::limits::{CONSOLE_BYTES, SEND_BYTES};
use xv_machine::{ConsoleList, Machine};
use xv_session::Session;

/// The most bytes of a list that are shown.
const SHOWN_MOST: usize = 128;

/// The bytes of a list of the console: all, since no list has more.
fn bytes_of(machine: &Machine, list: ConsoleList) -> ArrayVec<u8, SHOWN_MOST>
    ensures { result.items ≡ take SHOWN_MOST (list_of list machine.now.world.state.console) }
{
    let mut bytes: ArrayVec<u8, SHOWN_MOST> = ArrayVec::new();
    for place in 0..SHOWN_MOST {
        let Some(byte) = machine.console_byte(list, place) else {
            return bytes;
        };
        bytes.push(byte);
    }
    bytes
}

/// Writes bytes behind how many they are, if there are any.
fn show_bytes(bytes: &[u8], answer: &mut String) -> Result<(), AllocError>
    ensures { OnOk result (Appends answer.old answer.new (behind_number bytes.now)) }
{
    if bytes.is_empty() {
        return Ok(());
    }
    let quoted = Quoted(bytes);
    write!(answer, " {quoted}")
}

/// Writes one list of the console: what it is, how many bytes it has, and these.
#[tactic(auto, unfolding(crate::specs::ConsoleText::list_text))]
fn show_list(
    machine: &Machine,
    list: ConsoleList,
    what: &str,
    answer: &mut String,
) -> Result<(), AllocError>
    ensures { OnOk result
        (Appends answer.old answer.new
        (list_text what.now (take SHOWN_MOST (list_of list machine.now.world.state.console)))) }
{
    let bytes = bytes_of(machine, list);
    let many = Many(bytes.len() as u64, "byte");
    write!(answer, "{what}: {many}")?;
    show_bytes(bytes.as_slice(), answer)?;
    writeln!(answer)
}

/// Writes for how many bytes there is room.
fn show_room(answer: &mut String) -> Result<(), AllocError>
    ensures { OnOk result (Appends answer.old answer.new room_text) }
{
    let typed = Grouped(CONSOLE_BYTES as u64);
    let waiting = Grouped(SEND_BYTES as u64);
    writeln!(
        answer,
        "There is room for {typed} typed bytes and {waiting} that wait."
    )
}

/// Writes the console's lists.
///
/// # Errors
///
/// The host has too little memory.
pub fn show_console(session: &Session, answer: &mut String) -> Result<(), AllocError>
    ensures { OnOk result (Appends answer.old answer.new (console_text session.now.machine.world.state.console)) }
{
    let machine = session.machine();
    show_list(
        machine,
        ConsoleList::Uncommitted,
        "typed, and may be taken back",
        answer,
    )?;
    show_list(
        machine,
        ConsoleList::Committed,
        "typed lines that a read may take",
        answer,
    )?;
    show_list(
        machine,
        ConsoleList::ToSend,
        "written, and wait to be sent",
        answer,
    )?;
    show_room(answer)
}
