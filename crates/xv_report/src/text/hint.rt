//! What may be wrong at a fault, and who has killed a process.
use crate::hints::Hint;
use crate::text::place::{Name, Place, Who};
use std::fmt;
use xk_base::Pid;

/// What is told of an address in the first page, which may be read or not.
fn null_line(readable: bool) -> &'static str {
    if readable {
        "\n  a null pointer, it seems: the text lies at 0, so only a store through it faults"
    } else {
        "\n  a null pointer, it seems: nothing lies at 0"
    }
}

/// What may be wrong, in a line below a fault; nothing for a full stack, which the fault's first line tells.
#[derive(Clone, Copy)]
pub(crate) struct HintLine<'a> {
    pub hint: Option<Hint>,
    /// The function that begins at the address of the load or the store, if that isn't 0 and one does.
    pub function: Option<&'a [u8]>,
}

impl<'a> fmt::Display for HintLine<'a> {
    fn fmt<W: fmt::Write>(&self, f: &mut fmt::Formatter<W>) -> fmt::Result {
        match self.hint {
            Some(Hint::NullPointer { readable }) => match self.function {
                Some(name) => {
                    let name = Name(name);
                    write!(f, "\n  a pointer to the function {name}, which is no data")
                }
                None => f.write_str(null_line(readable)),
            },
            Some(Hint::PastTheEnd) => f.write_str(
                "\n  the page below the stack is closed: a pointer has passed the end of the program's memory",
            ),
            Some(Hint::FullStack) | None => Ok(()),
        }
    }
}

/// A process that was killed: `process 3 (sleep) was killed by process 4 (kill), at 0x28 <main+0x28>, kill.c:9`.
#[derive(Clone, Copy)]
pub struct KillText<'a> {
    pub victim: Pid,
    /// The name of its program, if it is known.
    pub program: Option<&'a [u8]>,
    pub killer: Pid,
    /// The name of the killer's program, if it is known.
    pub killer_program: Option<&'a [u8]>,
    /// The place of the killer's call.
    pub place: Place<'a>,
}

impl<'a> fmt::Display for KillText<'a> {
    fn fmt<W: fmt::Write>(&self, f: &mut fmt::Formatter<W>) -> fmt::Result {
        let victim = Who {
            pid: self.victim,
            program: self.program,
        };
        let killer = Who {
            pid: self.killer,
            program: self.killer_program,
        };
        let place = self.place;
        write!(f, "{victim} was killed by {killer}, at {place}")
    }
}

/// A growth that a process was refused: `its sbrk at 0x6c <malloc+0x40>, malloc.c:31 was refused before: ..`.
#[derive(Clone, Copy)]
pub struct RefusedText<'a> {
    /// The name of the call.
    pub call: &'a str,
    pub place: Place<'a>,
}

impl<'a> fmt::Display for RefusedText<'a> {
    fn fmt<W: fmt::Write>(&self, f: &mut fmt::Formatter<W>) -> fmt::Result {
        let call = self.call;
        let place = self.place;
        write!(
            f,
            "its {call} at {place} was refused before: it may not have looked at the answer, -1"
        )
    }
}
