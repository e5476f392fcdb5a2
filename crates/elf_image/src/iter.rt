//! The segments of a file, one by one.
ghost use Rattle.std.specs.Prelude.{◌≡◌, ◌≤◌, ◌+◌, ◌*◌, ◌-◌};
ghost use Rattle.std.specs.Prelude.{◌<◌, ◌∷◌, [], length, MatchOption};
ghost use Rattle.std.specs.Iterator.{YieldsFirst, item_count};
ghost use Rattle.xk_base.specs.ProgramFile.{segments_from};

use crate::program_header::{PROGRAM_HEADER_BYTES, is_loaded, read_program_header, segment};
use std::marker::Model;
use xk_base::{Header, Segment};

/// The segments of a program file that are left, in the order of the file's program headers.
///
/// [`segments`](crate::segments) makes it, once it has tested all headers. Contracts see it as the
/// list of the segments that are left.
#[derive(Drop)]
pub struct Segments<'a> {
    pub(crate) file: &'a [u8],
    pub(crate) header: Header,
    pub(crate) next: u16,
}

impl<'a> Model for Segments<'a> {
    ghost use Rattle.std.specs.Prelude.{List, ◌-◌, ◌+◌, ◌*◌, ◌<◌, ◌≤◌, length};
    ghost use Rattle.xk_base.specs.declared.program.Segment.{Segment};
    ghost use Rattle.xk_base.specs.ProgramFile.{segments_from};

    ghost Value = { List Segment };

    ghost view = { λ s. segments_from s.file.now s.header s.next (s.header.phnum - s.next) };

    ghost invariant = { λ s. s.next < s.header.phnum → s.header.phoff + 56 * s.header.phnum ≤ length s.file.now };
}

impl Iterator for Segments<'_> {
    type Item = Segment;

    ghost next_gives = { YieldsFirst (λ s. s) };

    ghost remaining = { item_count (λ s. s) };

    /// The first segment that is left, or `None` where none is.
    fn next(&mut self) -> Option<Segment> {
        let (segment, next) = first_segment(self.file, &self.header, self.next);
        self.next = next;
        segment
    }
}

/// The first segment from program header `from` on, and the number of the header after it.
fn first_segment(file: &[u8], header: &Header, from: u16) -> (Option<Segment>, u16)
    requires { from < header.now.phnum → header.now.phoff + 56 * header.now.phnum ≤ length file.now }
    ensures found { MatchOption result.0
        ((segments_from file.now header.now from (header.now.phnum - from) ≡ [])
        × (header.now.phnum ≤ result.1))
        (λ s. segments_from file.now header.now from (header.now.phnum - from)
        ≡ s ∷ segments_from file.now header.now result.1 (header.now.phnum - result.1)) }
    ensures later { from ≤ result.1 }
{
    for i in from..header.phnum {
        let at = header.phoff as usize + PROGRAM_HEADER_BYTES * usize::from(i);
        let program_header = read_program_header(file, at);
        if is_loaded(&program_header) {
            return (Some(segment(&program_header)), i + 1);
        }
    }
    (None, from.max(header.phnum))
}
