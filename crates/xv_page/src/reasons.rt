//! Why a kernel call was refused.
ghost use Rattle.std.specs.Prelude.{◌≡◌, IfOk};
ghost use Rattle.std.specs.String.{string_bytes};
ghost use Rattle.call_reasons.specs.Words.{reason_words};
ghost use Rattle.xv_page.specs.Booting.{held};
ghost use Rattle.xv_page.specs.Named.{pid_named};
ghost use Rattle.xv_page.specs.Reasons.{ReasonTold, RefusalTold, asked};

use crate::answers::Answer;
use crate::named::pid_named;
use crate::reports::laid;
use call_reasons::{Asked, REFUSED, Reason, reason_of};
use std::alloc::{AllocError, Global};
use xv_session::Session;

// A reason in words.
fn words_of(alloc: Global, reason: Reason) -> Result<String, AllocError>
    ensures { IfOk result (λ text. string_bytes text ≡ reason_words reason) }
{
    reason.to_string(alloc)
}

// A reason is told in words, if there is one.
fn reason_laid(alloc: Global, reason: Option<Reason>, told: &mut u64, room: &mut [u8]) -> Answer
    ensures { ReasonTold reason result (told.old, room.old) (told.new, room.new) }
{
    let Some(reason) = reason else {
        return Answer::Unknown;
    };
    laid(words_of(alloc, reason), told, room)
}

/// Tells in words why a call of a process is refused: the call of this number, to which these words were passed. The
/// machine stands before the call's answer, or right after it. `Unknown`: there is no such process, or the call isn't
/// refused.
#[inline(never)]
pub fn xv_page_reason(
    alloc: Global,
    session: &Option<Box<Session>>,
    pid: u32,
    number: i32,
    a0: u64,
    a1: u64,
    a2: u64,
    told: &mut u64,
    room: &mut [u8],
) -> Answer
    ensures { RefusalTold (pid_named pid) (asked number a0 a1 a2) (held session.now) result (told.old, room.old) (told.new, room.new) }
{
    let Some(session) = session else {
        return Answer::NotBooted;
    };
    let Some(pid) = pid_named(pid) else {
        return Answer::Unknown;
    };
    let asked = Asked { number, a0, a1, a2 };
    let reason = reason_of(session.machine(), pid, &asked, REFUSED);
    reason_laid(alloc, reason, told, room)
}
