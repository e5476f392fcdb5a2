//! Keys, and what the console shows for them.
ghost use Rattle.std.specs.Prelude.{◌≡◌, ◌≤◌};
ghost use Rattle.xk_base.specs.declared.limits.TheConstants.{CONSOLE_BYTES};
ghost use Rattle.console_core.specs.Keys.{meaning_of, wipes};

use arrayvec::ArrayVec;
use xk_base::limits::ECHO_BYTES;

// Ctrl-D: the end of the input.
pub(crate) const CTRL_D: u8 = 4;

const BACKSPACE: u8 = 8;

// The byte that ends a line.
pub(crate) const NEW_LINE: u8 = 10;

const ENTER: u8 = 13;

const CTRL_P: u8 = 16;

const CTRL_U: u8 = 21;

const BLANK: u8 = 32;

const DELETE: u8 = 127;

/// What a key makes the console show.
pub type Echo = ArrayVec<u8, ECHO_BYTES>;

// What a key means.
#[derive(Clone, Copy)]
pub(crate) enum Key {
    Ignored,
    // Takes back the last byte of the line.
    Erase,
    // Takes back the whole line.
    Kill,
    Typed(u8),
}

impl Key {
    // What the key of this byte means.
    pub(crate) fn of(byte: u8) -> Key
        ensures { result ≡ meaning_of byte }
    {
        match byte {
            // Ctrl-P lists the processes in xv6, and does nothing here.
            0 | CTRL_P => Key::Ignored,
            BACKSPACE | DELETE => Key::Erase,
            CTRL_U => Key::Kill,
            ENTER => Key::Typed(NEW_LINE),
            _ => Key::Typed(byte),
        }
    }
}

// What takes so many bytes off a terminal.
pub(crate) fn wipes(count: usize) -> Echo
    requires { count ≤ CONSOLE_BYTES }
    ensures { result.items ≡ wipes count }
{
    let mut echo = Echo::new();
    for wiped in 0..count {
        echo.push(BACKSPACE);
        echo.push(BLANK);
        echo.push(BACKSPACE);
    }
    echo
}
