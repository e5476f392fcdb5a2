//! Kernel calls by their names.
ghost use Rattle.std.specs.Prelude.{Some};
ghost use Rattle.xv_debug.specs.OutcomeText.{call_text};

use std::fmt;
use xv_report::call_name;

/// The name of a kernel call, or its number.
#[derive(Clone, Copy)]
pub(crate) struct CallShown(pub i32);

impl fmt::Display for CallShown {
    ghost output = { λ c. Some (call_text c.0) };

    fn fmt<W: fmt::Write>(&self, f: &mut fmt::Formatter<W>) -> fmt::Result {
        match call_name(self.0) {
            Some(name) => f.write_str(name),
            None => {
                let number = self.0;
                write!(f, "call {number}")
            }
        }
    }
}
