//! Which programs a kernel may be made with.
ghost use Rattle.std.specs.Prelude.{◌≡◌, ◌<◌, length, map};
ghost use Rattle.kernel_spec.specs.views.State.{named_file};
ghost use Rattle.kernel_spec.specs.views.Programs.{has_slash_or_zero, is_bad_name, same_name};
ghost use Rattle.kernel_spec.specs.views.Programs.{is_earlier_name, is_bad_program, first_bad};

use xk_base::Program;
use xk_base::limits::{NAME_MAX, PROGRAM_BYTES, PROGRAMS_MAX};

/// Whether a name holds a slash or a zero byte.
fn holds_slash_or_zero(name: &[u8]) -> bool
    ensures { result ≡ has_slash_or_zero name.now }
{
    name.iter().any(|byte| *byte == b'/' || *byte == 0)
}

/// Whether a name is empty, longer than [`NAME_MAX`] bytes, holds a slash or a zero byte, or is the console's.
fn is_refused_name(name: &[u8]) -> bool
    ensures { result ≡ is_bad_name name.now }
{
    name.is_empty()
        || name.len() > NAME_MAX
        || holds_slash_or_zero(name)
        || name == b"console".as_slice()
}

/// Whether programs `i` and `k` have the same name.
fn have_one_name(programs: &[Program], i: usize, k: usize) -> bool
    requires first { i < length programs.now }
    requires second { k < length programs.now }
    ensures { result ≡ same_name (map named_file programs.now) i k }
{
    programs[i].name.as_slice() == programs[k].name.as_slice()
}

/// Whether an earlier program has the name of program `i`.
fn has_earlier_name(programs: &[Program], i: usize) -> bool
    requires { i < length programs.now }
    ensures { result ≡ is_earlier_name (map named_file programs.now) i }
{
    for k in 0..i {
        if have_one_name(programs, i, k) {
            return true;
        }
    }
    false
}

/// Whether program `i` is refused: there are [`PROGRAMS_MAX`] before it, its name is refused or an earlier one's, or
/// its file has more than [`PROGRAM_BYTES`] bytes.
#[tactic(auto, unfolding(kernel_spec::specs::views::Programs::is_bad_program))]
fn is_refused(programs: &[Program], i: usize) -> bool
    requires { i < length programs.now }
    ensures { result ≡ is_bad_program (map named_file programs.now) i }
{
    let program = &programs[i];
    i >= PROGRAMS_MAX
        || is_refused_name(program.name.as_slice())
        || has_earlier_name(programs, i)
        || program.bytes.len() > PROGRAM_BYTES
}

/// The least index of a program that no kernel is made with: one that has 64 before it, or a name that is
/// empty, longer than 14 bytes, holds a slash or a zero byte, is `console` or an earlier one's, or a file of
/// more than 1,048,576 bytes. It takes no memory of the host.
pub fn first_refused(programs: &[Program]) -> Option<usize>
    ensures { result ≡ first_bad (map named_file programs.now) }
{
    for i in 0..programs.len() {
        if is_refused(programs, i) {
            return Some(i);
        }
    }
    None
}
