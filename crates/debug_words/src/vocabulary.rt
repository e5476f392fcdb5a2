//! What a line asks for.
use crate::names::SPOTS_MOST;
use crate::topics::Topic;
use arrayvec::ArrayVec;
use xk_base::{Frame, Pid};

/// The most events that a word sends.
pub const EVENTS_MOST: u32 = 100_000_000;

/// The most rounds that a word plays. A round has at most 1,033 events.
pub const ROUNDS_MOST: u32 = 90_000;

/// The most Ticks or Sends that a word sends.
pub const OFTEN_MOST: u32 = 1_000_000;

/// The most bytes of memory that a word shows.
pub const BYTES_MOST: u32 = 256;

/// The most keys that a word types.
pub const KEYS_MOST: usize = 128;

/// The most notes of the trace that a word shows.
pub const NOTES_MOST: u32 = 100;

/// The most instructions that a word lists.
pub const LISTED_MOST: u32 = 100;

/// The most marks that are kept.
pub const MARKS_MOST: usize = 16;

/// The bytes of keys.
pub type Keys = ArrayVec<u8, KEYS_MOST>;

/// What a run that goes on stops at.
#[derive(Clone, Copy)]
pub enum Mark {
    /// A process that runs the program at this place runs, and its next instruction stands at this address.
    At { program: usize, address: u64 },
    /// An instruction has stored to this address, of whatever process.
    Store(u64),
}

// What a list of marks has in places that are free.
impl Default for Mark {
    fn default() -> Mark {
        Mark::Store(0)
    }
}

/// Marks, in the order in which they were made.
pub type Marks = ArrayVec<Mark, MARKS_MOST>;

/// The marks that a word asks for: one for each place of what it names.
pub type AskedMarks = ArrayVec<Mark, SPOTS_MOST>;

/// How many bytes a number has that is shown of memory.
#[derive(Clone, Copy)]
pub enum Size {
    Byte,
    Half,
    Word,
    Giant,
}

/// What a search among Runs waits for.
#[derive(Clone, Copy)]
pub enum Goal {
    /// A step of the kernel call of this number.
    Call(i32),
    /// The process runs, and its next instruction stands at this address; without a pid the process that words look at.
    Pc { address: u64, pid: Option<Pid> },
    /// An instruction has stored to this address.
    Store(u64),
    /// A process is gone by a fault.
    Fault,
    /// A process is gone.
    Exit,
    /// The process that words look at stands in another line of its source.
    Line,
}

/// What a line asks for.
#[derive(Drop)]
pub enum Word {
    /// Nothing: the line is empty, or begins with `#`.
    Nothing,
    /// So many Runs: 1 to [`EVENTS_MOST`].
    Step {
        count: u32,
    },
    /// An instruction, over the call that it makes.
    Next,
    /// Back by so many events: 1 at least.
    Back {
        count: u64,
    },
    /// Back to the place after so many events.
    Goto {
        place: u64,
    },
    /// Runs, up to the first that is the goal.
    Until(Goal),
    /// Back to the last Run that was the goal.
    BackUntil(Goal),
    /// So many rounds: 1 to [`ROUNDS_MOST`].
    Run {
        rounds: u32,
    },
    /// So many Ticks: 1 to [`OFTEN_MOST`].
    Tick {
        count: u32,
    },
    /// These keys: one at least.
    Key(Keys),
    /// So many Sends: 1 to [`OFTEN_MOST`].
    Send {
        count: u32,
    },
    /// Who runs, and the instructions from its pc on.
    Where {
        pid: Option<Pid>,
    },
    Registers {
        pid: Option<Pid>,
    },
    /// So many bytes of memory, 1 to [`BYTES_MOST`], from this address on, or after those that were shown last.
    Memory {
        address: Option<u64>,
        count: u32,
        pid: Option<Pid>,
    },
    /// The tables and pages, from this address on.
    Pages {
        from: u64,
        pid: Option<Pid>,
    },
    /// Who owns how many frames; or who owns this one.
    Frames {
        frame: Option<Frame>,
    },
    /// The processes from this pid on.
    Processes {
        from: u32,
    },
    Descriptors {
        pid: Option<Pid>,
    },
    Pipe,
    Console,
    At,
    /// The events from this place on; those of the last round without one.
    Events {
        from: Option<u64>,
    },
    /// So many notes of the trace: 1 to [`NOTES_MOST`].
    Trace {
        count: u32,
    },
    /// The calls that led the process to where it is.
    Callers {
        pid: Option<Pid>,
    },
    /// So many instructions, 1 to [`LISTED_MOST`], from this address on.
    Listing {
        from: u64,
        count: u32,
        pid: Option<Pid>,
    },
    /// So many numbers of memory, of this many bytes each, from this address on; [`BYTES_MOST`] bytes at most.
    Numbers {
        from: u64,
        count: u32,
        size: Size,
        pid: Option<Pid>,
    },
    /// What this number is.
    Value(u64),
    /// The marks that are kept.
    Marks,
    /// Marks that are kept from now on, as many as there is room for; each up to the first time that it is met, if they are
    /// for once.
    Mark {
        marks: AskedMarks,
        once: bool,
    },
    /// No mark of this number is kept any more, or none at all.
    Delete {
        number: Option<u32>,
    },
    /// Runs, up to the first that meets one of these marks, or by which a process is gone by a fault.
    ToMark(Marks),
    /// Runs, up to the end of the function in which the process is.
    Finish,
    Help {
        topic: Option<Topic>,
    },
    Continue,
    Quit,
}
