//! The function that has an address (DWARF 5, section 3.3).
ghost use Rattle.std.specs.Prelude.{◌≤◌, IfSome};

use crate::attributes::Program;
use crate::tags::FUNCTION;

/// A function of a program.
#[derive(Clone, Copy)]
pub(crate) struct Function {
    pub(crate) number: usize,
    /// Its first address, or that of the part of it that has the address which was asked for.
    pub low: u64,
}

impl<'a> Program<'a> {
    /// The function of an entry, if it is one that has the address.
    fn function_of(&self, number: usize, address: u64) -> Option<Function>
        ensures { IfSome result (λ found. found.low ≤ address) }
    {
        let entry = self.entry(number)?;
        if entry.tag != FUNCTION {
            return None;
        }
        let low = self.start_of(&entry, address)?;
        if !self.unit_may_have(entry.unit, address) {
            return None;
        }
        Some(Function { number, low })
    }
}

/// The function that has an address: of several that begin last the first. A linker that leaves functions out lets
/// their entries stand, as if they began at 0: they are passed over if another one has the address, or their unit
/// doesn't.
pub(crate) fn function_at(program: &Program, address: u64) -> Option<Function>
    ensures { IfSome result (λ found. found.low ≤ address) }
{
    let mut found: Option<Function> = None;
    for number in 0..program.tables.entries.len() {
        if let Some(function) = program.function_of(number, address) {
            if found.is_none_or(|last| last.low < function.low) {
                found = Some(function);
            }
        }
    }
    found
}

/// Whether a function of the tables has an address.
pub fn has_function(program: &Program, address: u64) -> bool {
    function_at(program, address).is_some()
}
