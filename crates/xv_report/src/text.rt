//! What is told, as text.
//!
//! Each type here is printed by its `Display`, without a line's end behind it. The texts are compared with stored
//! reports (`checks/why`), and no contract speaks of them. A program's name is bytes, as the machine has it: what isn't
//! printable is shown as `?`.
mod fault;
mod hint;
mod location;
mod place;
mod process;

pub use fault::FaultText;
pub use hint::{KillText, RefusedText};
pub use location::{Function, Line, Location};
pub use place::{Instruction, Name, Place, Who};
pub use process::{Asleep, ProcessLine, WaitLine};
