//! The stories, group by group.
mod boots;
mod calls;
mod console;
mod exec;
mod faults;
mod files;
pub(super) mod isolation;
mod kills;
mod lazy;
mod memory;
mod pipes;
mod processes;
mod refusals;
mod stretches;
mod traces;
mod waits;

use super::telling::tell_all;

// The first story that isn't as it was told is named by its message, and so is the line.
#[test]
fn stories_are_as_they_are_told(rt: HostRuntime) {
    tell_all(&rt, boots::STORIES);
    tell_all(&rt, calls::STORIES);
    tell_all(&rt, console::STORIES);
    tell_all(&rt, exec::STORIES);
    tell_all(&rt, faults::STORIES);
    tell_all(&rt, files::STORIES);
    tell_all(&rt, kills::STORIES);
    tell_all(&rt, lazy::STORIES);
    tell_all(&rt, memory::STORIES);
    tell_all(&rt, pipes::STORIES);
    tell_all(&rt, processes::STORIES);
    tell_all(&rt, refusals::STORIES);
    tell_all(&rt, refusals::A_NAME_WITH_A_ZERO_BYTE);
    tell_all(&rt, stretches::STORIES);
    tell_all(&rt, traces::STORIES);
    tell_all(&rt, waits::STORIES);
}
