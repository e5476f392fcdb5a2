//! How the host boots a session.
ghost use Rattle.std.specs.Prelude.{◌≡◌, None, [], ◌∷◌, IfOk, map};
ghost use Rattle.kernel_spec.specs.runs.First.{first};
ghost use Rattle.kernel_spec.specs.views.State.{named_file};
ghost use Rattle.xv_machine.specs.Boots.{Boots};
ghost use Rattle.xv_session.specs.Answers.{machine_of, IsNew};
ghost use Rattle.xv_page.specs.Booting.{boxed, files_of, held, boot_told, refusal};
ghost use Rattle.xv_page.specs.Booting.{exec_refusal, AddedTo, IsBoxed, IsBooted};

use crate::answers::Answer;
use std::alloc::{AllocError, Global};
use xk_base::{BootError, ExecError, Program};
use xv_machine::Config;
use xv_session::Session;

/// Why there is no machine.
#[repr(C)]
#[derive(Clone, Copy)]
pub struct BootTold {
    /// 0 there is one, 1 a number is out of its range, 2 a program is refused, 3 none is called init, 4 the host has
    /// too little memory, 5 init's file can't be loaded.
    pub kind: u32,
    /// Why init's file can't be loaded: 1 it is no ELF file, 2 and 3 its argument texts are too many or too long, 4
    /// there are too few frames, 5 a segment is refused. 0 else.
    pub cause: u32,
    /// The place of the refused program, or the number of the refused segment's header. 0 else.
    pub place: u64,
}

/// A refusal of this kind.
fn refusal(kind: u32, cause: u32, place: u64) -> BootTold
    ensures { result ≡ refusal kind cause place }
{
    BootTold { kind, cause, place }
}

/// Why init's file can't be loaded.
fn exec_refusal(error: ExecError) -> BootTold
    ensures { result ≡ exec_refusal error }
{
    match error {
        ExecError::NotElf => refusal(5, 1, 0),
        ExecError::TooManyArgs => refusal(5, 2, 0),
        ExecError::ArgsTooLong => refusal(5, 3, 0),
        ExecError::NoFrames => refusal(5, 4, 0),
        ExecError::BadSegment(index) => refusal(5, 5, u64::from(index)),
    }
}

/// Why there is no machine.
fn boot_told(error: BootError) -> BootTold
    ensures { result ≡ boot_told error }
{
    match error {
        BootError::BadConfig => refusal(1, 0, 0),
        BootError::BadPrograms(index) => refusal(2, 0, index as u64),
        BootError::NoInit => refusal(3, 0, 0),
        BootError::Memory => refusal(4, 0, 0),
        BootError::Init(cause) => exec_refusal(cause),
    }
}

/// A program of a name and a file.
fn program(alloc: Global, name: &[u8], bytes: &[u8]) -> Result<Program, AllocError>
    ensures { IfOk result (λ p. named_file p ≡ record { name = name.now; bytes = bytes.now }) }
{
    let name = Vec::from_slice(alloc, name)?;
    let bytes = Vec::from_slice(alloc, bytes)?;
    Ok(Program { name, bytes })
}

/// A list of one program.
fn list_of(alloc: Global, program: Program) -> Result<Box<Vec<Program>>, AllocError>
    ensures { IfOk result (λ list. list.value.items ≡ program ∷ []) }
{
    let mut list = Vec::with_capacity(alloc, 1)?;
    let Ok(()) = list.push(program) else {
        return Err(AllocError);
    };
    match Box::new(alloc, list) {
        Ok(list) => Ok(list),
        Err(_) => Err(AllocError),
    }
}

/// Puts a program behind those of the list.
fn put(alloc: Global, programs: &mut Option<Box<Vec<Program>>>, program: Program) -> Answer
    ensures { AddedTo (named_file program) result (files_of programs.old) (files_of programs.new) }
{
    let Some(list) = programs else {
        return match list_of(alloc, program) {
            Ok(list) => {
                *programs = Some(list);
                Answer::Done
            }
            Err(_) => Answer::Memory,
        };
    };
    match list.push(program) {
        Ok(()) => Answer::Done,
        Err(_) => Answer::Memory,
    }
}

/// Adds a program to the list with which the next machine is booted. Where the host has too little memory for it,
/// the list is as it was.
#[inline(never)]
pub fn xv_page_add(
    alloc: Global,
    programs: &mut Option<Box<Vec<Program>>>,
    name: &[u8],
    bytes: &[u8],
) -> Answer
    ensures { AddedTo (record { name = name.now; bytes = bytes.now }) result (files_of programs.old)
        (files_of programs.new) }
{
    match program(alloc, name, bytes) {
        Ok(program) => put(alloc, programs, program),
        Err(_) => Answer::Memory,
    }
}

/// The list of programs, which is empty afterwards.
fn taken(alloc: Global, programs: &mut Option<Box<Vec<Program>>>) -> Vec<Program>
    ensures list { map named_file result.items ≡ files_of programs.old }
    ensures taken { programs.new ≡ None }
{
    match programs.take() {
        None => Vec::new(alloc),
        Some(list) => Box::into_inner(list),
    }
}

/// A session in a box of its own.
fn in_box(alloc: Global, session: Session) -> Result<Box<Session>, BootError>
    ensures { IsBoxed session result }
{
    match Box::new(alloc, session) {
        Ok(session) => Ok(session),
        Err(_) => Err(BootError::Memory),
    }
}

/// A session of a machine that was just booted, in a box of its own.
fn booted(alloc: Global, config: Config, programs: Vec<Program>) -> Result<Box<Session>, BootError>
    ensures boots { Boots config.frames (machine_of (boxed result))
        (first config.frames config.trace (map named_file programs.items)) }
    ensures fresh { IfOk result (λ b. IsNew config.frames config.trace (map named_file programs.items) b.value) }
{
    match Session::boot(alloc, config, programs) {
        Ok(session) => in_box(alloc, session),
        Err(error) => Err(error),
    }
}

/// Boots a machine of the programs that were added, in place of the session that is there, and tells why there is
/// none. Where it is refused, the session stays as it was. The list of programs is empty afterwards, always.
#[inline(never)]
pub fn xv_page_boot(
    alloc: Global,
    session: &mut Option<Box<Session>>,
    programs: &mut Option<Box<Vec<Program>>>,
    frames: u32,
    trace: u32,
    told: &mut BootTold,
)
    ensures booted { IsBooted frames trace (files_of programs.old) told.new (held session.old) (held session.new) }
    ensures taken { programs.new ≡ None }
{
    let list = taken(alloc, programs);
    match booted(alloc, Config { frames, trace }, list) {
        Ok(fresh) => {
            *session = Some(fresh);
            *told = refusal(0, 0, 0);
        }
        Err(error) => *told = boot_told(error),
    }
}

/// Gives the session's memory back.
#[inline(never)]
pub fn xv_page_drop(session: &mut Option<Box<Session>>)
    ensures { session.new ≡ None }
{
    *session = None;
}
