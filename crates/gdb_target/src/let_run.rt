//! Whom GDB lets run, and whose stops it is told meanwhile.
ghost use Rattle.std.specs.Prelude.{◌≡◌, Some, true, IfSome};
ghost use Rattle.gdb_target.specs.LetRun as meant;

use xk_base::Pid;

/// Whom GDB lets run. The machine is one run, in which each process goes on when the kernel gives it its turn: this says
/// whose stops are told. The others pass theirs.
#[derive(Clone, Copy)]
pub enum LetRun {
    /// All processes.
    All,
    /// This process, and no other.
    Alone(Pid),
}

/// Whether the stops of this process are told.
pub(crate) fn lets(let_run: LetRun, pid: Pid) -> bool
    ensures { result ≡ meant.lets let_run pid }
{
    match let_run {
        LetRun::All => true,
        LetRun::Alone(only) => only.number() == pid.number(),
    }
}

/// This process, if its stops are told.
pub(crate) fn if_let(let_run: LetRun, pid: Option<Pid>) -> Option<Pid>
    ensures is { result ≡ meant.if_let let_run pid }
    ensures lets { IfSome result (λ p. meant.lets let_run p ≡ true) }
    ensures same { IfSome result (λ p. pid ≡ Some p) }
{
    let pid = pid?;
    if lets(let_run, pid) {
        return Some(pid);
    }
    None
}

/// Of whom is told what concerns the run as a whole: the process that was let run alone, or else this one.
pub(crate) fn teller(let_run: LetRun, pid: Pid) -> Pid
    ensures is { result ≡ meant.teller let_run pid }
    ensures lets { meant.lets let_run result ≡ true }
{
    match let_run {
        LetRun::All => pid,
        LetRun::Alone(only) => only,
    }
}
