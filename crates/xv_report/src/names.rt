//! Names of programs and of kernel calls.
ghost use Rattle.std.specs.Prelude.{◌≡◌, map, option_map};
ghost use Rattle.kernel_spec.specs.rows.Calls.{row_of};
ghost use Rattle.kernel_spec.specs.views.State.{named_file};
ghost use Rattle.xv_report.specs.Names.{name_at, name_of, call_word};

use kernel_calls::KernelCall;
use xk_base::{Pid, Program};
use xv_session::Session;

/// The name of the program at a place.
fn name_at(programs: &[Program], place: usize) -> Option<&[u8]>
    ensures { option_map (λ n. n.now) result ≡ name_at (map named_file programs.now) place }
{
    let program = programs.get(place)?;
    Some(program.name.as_slice())
}

/// The name of the program that a live process runs: that of `init` for process 1, its parent's at the fork for a
/// child, and that of the last exec that was done; `None` where no live process has this pid.
pub fn program_name(session: &Session, pid: Pid) -> Option<&[u8]>
    ensures { option_map (λ n. n.now) result ≡ name_of session.now pid }
{
    let place = session.program_of(pid)?;
    name_at(session.machine().programs(), place)
}

/// The name of the kernel call of a number (xv6's `syscall.h`; `sbrklazy` is this project's own); `None` for a number
/// that no call has.
pub fn call_name(number: i32) -> Option<&'static str>
    ensures { option_map (λ n. n.now) result ≡ option_map call_word (row_of number) }
{
    let call = KernelCall::of_number(number)?;
    Some(call.name())
}
