//! What a word writes of the process that it looks at.
ghost use Rattle.std.specs.Prelude.{◌≡◌, ◌++◌, OnOk, string_bytes};
ghost use Rattle.debug_views.specs.DescriptorText.{descriptors_shown};
ghost use Rattle.debug_views.specs.NumberText.{numbers_shown};
ghost use Rattle.debug_views.specs.PagesText.{IsPagesText};
ghost use Rattle.debug_views.specs.RegisterText.{registers_shown};
ghost use Rattle.debug_views.specs.Written.{Writes};
ghost use Rattle.xv_debug.specs.LookText.{IsOfFocus};
ghost use Rattle.xv_debug.specs.WhereText.{nobody};

use crate::focus::focus;
use debug_views::{show_descriptors, show_numbers, show_pages, show_registers};
use debug_words::Size;
use std::alloc::{AllocError, Global};
use xk_base::Pid;
use xv_session::Session;

/// Writes that there is no process.
pub(crate) fn show_nobody(answer: &mut String) -> Result<(), AllocError>
    ensures { OnOk result (string_bytes answer.new ≡ string_bytes answer.old ++ nobody) }
{
    answer.push_str("there is no process\n")
}

/// Writes the registers of the process that a word looks at.
pub(crate) fn show_registers_of(
    session: &Session,
    named: Option<Pid>,
    answer: &mut String,
) -> Result<(), AllocError>
    ensures { OnOk result
        (Writes (string_bytes answer.old) (string_bytes answer.new)
        (IsOfFocus session.now named (λ p text. text ≡ registers_shown session.now p))) }
{
    match focus(session, named) {
        Some(pid) => show_registers(session, pid, answer),
        None => show_nobody(answer),
    }
}

/// Writes the descriptors of the process that a word looks at.
pub(crate) fn show_descriptors_of(
    session: &Session,
    named: Option<Pid>,
    answer: &mut String,
) -> Result<(), AllocError>
    ensures { OnOk result
        (Writes (string_bytes answer.old) (string_bytes answer.new)
        (IsOfFocus session.now named (λ p text. text ≡ descriptors_shown session.now p))) }
{
    match focus(session, named) {
        Some(pid) => show_descriptors(session, pid, answer),
        None => show_nobody(answer),
    }
}

/// Writes the tables and pages of the process that a word looks at, from an address on.
pub(crate) fn show_pages_of(
    alloc: Global,
    session: &Session,
    named: Option<Pid>,
    from: u64,
    answer: &mut String,
) -> Result<(), AllocError>
    ensures { OnOk result
        (Writes (string_bytes answer.old) (string_bytes answer.new)
        (IsOfFocus session.now named (λ p. IsPagesText session.now p from))) }
{
    match focus(session, named) {
        Some(pid) => show_pages(alloc, session, pid, from, answer),
        None => show_nobody(answer),
    }
}

/// Writes so many numbers of the process that a word looks at, from an address on.
pub(crate) fn show_numbers_of(
    session: &Session,
    named: Option<Pid>,
    from: u64,
    size: Size,
    count: u32,
    answer: &mut String,
) -> Result<(), AllocError>
    ensures { OnOk result
        (Writes (string_bytes answer.old) (string_bytes answer.new)
        (IsOfFocus session.now named (λ p text. text ≡ numbers_shown session.now size p from count))) }
{
    match focus(session, named) {
        Some(pid) => show_numbers(session, pid, from, size, count, answer),
        None => show_nobody(answer),
    }
}
