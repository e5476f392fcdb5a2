//! The name of an open file.
ghost use Rattle.std.specs.Prelude.{◌≡◌, ◌<◌};
ghost use Rattle.xk_base.specs.declared.limits.TheConstants.{OPEN_FILES};

use std::marker::Model;

/// Names an open file: its place in the table of open files.
///
/// Two descriptors share an open file exactly where they hold equal names.
#[derive(Clone, Copy, PartialEq, Eq)]
pub struct FileId {
    place: u16,
}

impl Model for FileId {
    ghost use Rattle.std.specs.Prelude.{ℕ, ◌<◌};
    ghost use Rattle.xk_base.specs.declared.limits.TheConstants.{OPEN_FILES};

    ghost Value = { ℕ };

    ghost view = { λ f. f.place };

    ghost invariant = { λ f. f.place < OPEN_FILES };

    ghost inverse = { λ n. record { place = n } };
}

impl FileId {
    /// The open file in this place.
    pub(crate) fn at(place: usize) -> FileId
        requires { place < OPEN_FILES }
        ensures { result ≡ place }
    {
        FileId {
            place: place as u16,
        }
    }

    /// Its place.
    pub(crate) fn index(self) -> usize
        ensures value { result ≡ self }
        ensures range { self < OPEN_FILES }
    {
        self.place as usize
    }
}
