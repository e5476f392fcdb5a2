//! What a key of the keyboard asks for.
ghost use Rattle.std.specs.Prelude.{◌≡◌};
ghost use Rattle.xv_live.specs.Keys.{key_of};

/// What a key of the keyboard asks for.
#[derive(Clone, Copy)]
pub enum Key {
    /// The machine is to get it.
    Typed(u8),
    /// Ctrl-C: the machine stops, and the debugger opens.
    Debugger,
    /// Ctrl-P: the processes are told.
    Processes,
    /// Ctrl-\: the machine ends.
    End,
}

/// The byte of Ctrl-C.
pub const CTRL_C: u8 = 3;
/// The byte of Ctrl-P.
pub const CTRL_P: u8 = 16;
/// The byte of Ctrl-\.
pub const CTRL_BACKSLASH: u8 = 28;

impl Key {
    /// What the key of this byte asks for.
    pub fn of(byte: u8) -> Key
        ensures { result ≡ key_of byte }
    {
        if byte == CTRL_C {
            return Key::Debugger;
        }
        if byte == CTRL_P {
            return Key::Processes;
        }
        if byte == CTRL_BACKSLASH {
            return Key::End;
        }
        Key::Typed(byte)
    }
}
