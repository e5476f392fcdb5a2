//! The descriptors of a process.
ghost use Rattle.std.specs.Prelude.{◌≡◌, OnOk};
ghost use Rattle.debug_views.specs.DescriptorText.{descriptor_text, descriptor_told, descriptors_shown};
ghost use Rattle.debug_views.specs.DescriptorText.{descriptors_text, end_name, end_text};
ghost use Rattle.debug_views.specs.DescriptorText.{file_name, file_text, first_descriptors};
ghost use Rattle.debug_views.specs.DescriptorText.{rights_text, sharing_text, target_text};
ghost use Rattle.debug_views.specs.Sharing.{first_with, names_file};
ghost use Rattle.kcall_core.specs.Observers.{descriptor_of};
ghost use Rattle.debug_views.specs.Written.{Appends};

use crate::focus::{lives, program_name, show_none};
use debug_words::texts::{Grouped, Named, Plain};
use std::alloc::AllocError;
use xk_base::limits::NOFILE;
use xk_base::{Fd, Frame, Pid};
use xv_machine::{Descriptor, End, FileId, Machine, OpenFile, Target};
use xv_session::Session;

/// The name of a program's file, or a mark if there is none at its place.
fn file_name(machine: &Machine, program: usize) -> &[u8]
    ensures { result.now ≡ file_name machine.now.world.state.programs program }
{
    match machine.programs().get(program) {
        Some(program) => program.name.as_slice(),
        None => b"?".as_slice(),
    }
}

/// The name of an end of a pipe.
fn end_name(end: End) -> &'static str
    ensures { result.now ≡ end_name end }
{
    match end {
        End::Reading => "read",
        End::Writing => "write",
    }
}

/// Writes a program's file, and which of its bytes is the next.
fn show_file(name: &[u8], offset: u64, answer: &mut String) -> Result<(), AllocError>
    ensures { OnOk result (Appends answer.old answer.new (file_text name.now offset)) }
{
    let name = Plain(name);
    let offset = Grouped(offset);
    write!(answer, "file {name}, next byte {offset}")
}

/// Writes an end of a pipe, which lies in a frame.
fn show_end(end: End, frame: Frame, answer: &mut String) -> Result<(), AllocError>
    ensures { OnOk result (Appends answer.old answer.new (end_text end frame)) }
{
    let end = end_name(end);
    let frame = frame.number();
    write!(answer, "{end} end of pipe {frame}")
}

/// Writes what an open file is on.
fn show_target(machine: &Machine, target: Target, answer: &mut String) -> Result<(), AllocError>
    ensures { OnOk result (Appends answer.old answer.new (target_text machine.now.world.state.programs target)) }
{
    match target {
        Target::Console => answer.push_str("console"),
        Target::Program { program, offset } => {
            show_file(file_name(machine, program), offset, answer)
        }
        Target::Pipe { frame, end } => show_end(end, frame, answer),
    }
}

/// What may be done with an open file.
fn rights_of(open_file: &OpenFile) -> &'static str
    ensures { result.now ≡ rights_text open_file.now }
{
    match (open_file.read, open_file.write) {
        (true, true) => "rw",
        (true, false) => "r-",
        (false, true) => "-w",
        (false, false) => "--",
    }
}

/// Whether a descriptor of a process is on this open file.
fn names(machine: &Machine, pid: Pid, fd: Fd, file: FileId) -> bool
    ensures { result ≡ names_file machine.now.world.state pid file fd }
{
    match machine.descriptor(pid, fd) {
        Some(descriptor) => descriptor.file == file,
        None => false,
    }
}

/// The first descriptor of a process on this open file.
fn first_on(machine: &Machine, pid: Pid, file: FileId) -> Option<Fd>
    ensures { result ≡ first_with machine.now.world.state pid file }
{
    for number in 0..NOFILE {
        let fd = Fd::new(number as u8);
        if names(machine, pid, fd, file) {
            return Some(fd);
        }
    }
    None
}

/// Writes the first descriptor that shares an open file with this one, if it is another.
fn show_sharing(fd: Fd, first: Option<Fd>, answer: &mut String) -> Result<(), AllocError>
    ensures { OnOk result (Appends answer.old answer.new (sharing_text fd first)) }
{
    let Some(first) = first else {
        return answer.push_str("\n");
    };
    let first = first.number();
    if first < fd.number() {
        writeln!(answer, "; the open file of fd {first}")
    } else {
        answer.push_str("\n")
    }
}

/// Writes the line of a descriptor.
fn show_descriptor(
    machine: &Machine,
    pid: Pid,
    fd: Fd,
    descriptor: &Descriptor,
    answer: &mut String,
) -> Result<(), AllocError>
    ensures { OnOk result
        (Appends answer.old answer.new (descriptor_text machine.now.world.state pid fd descriptor.now)) }
{
    let number = fd.number();
    let rights = rights_of(&descriptor.open_file);
    write!(answer, "{number:>4}  {rights}   ")?;
    show_target(machine, descriptor.open_file.target, answer)?;
    show_sharing(fd, first_on(machine, pid, descriptor.file), answer)
}

/// Writes the line of a descriptor, if it is in use.
fn show_if_used(machine: &Machine, pid: Pid, fd: Fd, answer: &mut String) -> Result<(), AllocError>
    ensures { OnOk result
        (Appends answer.old answer.new
        (descriptor_told machine.now.world.state pid fd (descriptor_of machine.now.world.state pid fd))) }
{
    match machine.descriptor(pid, fd) {
        Some(descriptor) => show_descriptor(machine, pid, fd, &descriptor, answer),
        None => Ok(()),
    }
}

/// Writes the lines of all descriptors of a process.
#[tactic(auto, unfolding(crate::specs::DescriptorText::first_descriptors))]
fn show_all(machine: &Machine, pid: Pid, answer: &mut String) -> Result<(), AllocError>
    ensures { OnOk result (Appends answer.old answer.new (first_descriptors machine.now.world.state pid NOFILE)) }
{
    for number in 0..NOFILE {
        show_if_used(machine, pid, Fd::new(number as u8), answer)?;
    }
    Ok(())
}

/// Writes the descriptors of a live process.
fn show_known(session: &Session, pid: Pid, answer: &mut String) -> Result<(), AllocError>
    ensures { OnOk result (Appends answer.old answer.new (descriptors_text session.now pid)) }
{
    let owner = pid.number();
    let name = Named(program_name(session, pid));
    writeln!(
        answer,
        "descriptors of process {owner}{name}; r: it may be read, w: written\n  fd  may  on"
    )?;
    show_all(session.machine(), pid, answer)
}

/// Writes the descriptors of a process that are in use.
///
/// # Errors
///
/// The host has too little memory.
pub fn show_descriptors(session: &Session, pid: Pid, answer: &mut String) -> Result<(), AllocError>
    ensures { OnOk result (Appends answer.old answer.new (descriptors_shown session.now pid)) }
{
    if lives(session.machine(), pid) {
        show_known(session, pid, answer)
    } else {
        show_none(pid, answer)
    }
}
