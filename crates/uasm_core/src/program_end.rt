//! Where a program ends, as far as it was read.
ghost use Rattle.std.specs.Prelude.{◌≡◌, ◌<◌, ◌^◌, false};
ghost use Rattle.uasm_core.specs.Places.{start as first, grown as grown_by, is_past_limit, within_limit};

use crate::place::{Place, headers_len};
use crate::words::Section;
use std::marker::Model;
use xk_base::limits::PROGRAM_BYTES;

/// The place behind the lines that were read: the next line stands there.
/// A file whose sections end there is no longer than a program file may be.
#[derive(Clone, Copy)]
pub(crate) struct ProgramEnd {
    place: Place,
}

impl Model for ProgramEnd {
    ghost use Rattle.std.specs.Prelude.{◌≤◌};
    ghost use Rattle.xk_base.specs.declared.limits.TheConstants.{PROGRAM_BYTES};
    ghost use Rattle.uasm_core.specs.declared.place.Place.{Place};
    ghost use Rattle.uasm_core.specs.Places.{file_len};

    ghost Value = { Place };

    ghost view = { λ e. e.place };

    ghost invariant = { λ e. file_len e.place ≤ PROGRAM_BYTES };

    ghost inverse = { λ p. record { place = p } };
}

impl ProgramEnd {
    /// Where the first line stands.
    pub(crate) fn start() -> ProgramEnd
        ensures { result ≡ first }
    {
        ProgramEnd {
            place: Place {
                section: Section::Text,
                text_len: 0,
                data_len: 0,
            },
        }
    }

    /// The place.
    pub(crate) fn place(&self) -> Place
        ensures { result ≡ self.now }
    {
        self.place
    }

    /// The same, with another section in force.
    pub(crate) fn switched(&self, to: Section) -> ProgramEnd
        ensures value { result ≡ record self.now { section = to } }
        ensures short { is_past_limit result ≡ false }
    {
        ProgramEnd {
            place: Place {
                section: to,
                ..self.place
            },
        }
    }

    /// The end behind `count` bytes more, if the file isn't longer than a program file may be then.
    pub(crate) fn grown(&self, count: u64) -> Option<ProgramEnd>
        requires { count < 2 ^ 32 }
        ensures { result ≡ within_limit (grown_by self.now.section count self.now) }
    {
        let mut text_len = u64::from(self.place.text_len);
        let mut data_len = u64::from(self.place.data_len);
        match self.place.section {
            Section::Text => text_len += count,
            Section::Data => data_len += count,
        }
        if headers_len(text_len, data_len) + text_len + data_len > PROGRAM_BYTES as u64 {
            return None;
        }
        let place = Place {
            section: self.place.section,
            text_len: text_len as u32,
            data_len: data_len as u32,
        };
        Some(ProgramEnd { place })
    }
}
