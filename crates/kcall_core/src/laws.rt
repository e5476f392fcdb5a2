//! What was proved of the kernel's fields, each as a clause of a function with an empty body.
ghost use Rattle.kcall_core.specs.Room.{WholeHasRoom};

/// What the kernel's code counts has bounds.
pub fn bounds()
    // Between two calls of the kernel each open file and each end of a pipe may count one descriptor more, and
    // if a process has a free descriptor, a file more may be opened.
    ensures { WholeHasRoom }
{}
