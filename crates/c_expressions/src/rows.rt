//! What the compiler's tables tell of a call, as plain rows.
use debug_info::{Kind, Layouts, Place, Role};

/// A variable.
#[derive(Clone, Copy)]
pub struct VariableRow<'a> {
    /// Its name; empty if it has none.
    pub name: &'a [u8],
    /// Its type, if the tables tell it.
    pub kind: Option<Kind>,
    /// Where it is in the call.
    pub place: Place,
    /// What it is.
    pub role: Role,
}

/// What the tables tell of a call.
#[derive(Drop)]
pub struct Rows<'a> {
    /// The file that has the tables.
    pub file: &'a [u8],
    /// Where the call stands: its variables in scope are those of this address.
    pub address: u64,
    /// The variables in scope: those of inner blocks stand after those of outer ones.
    pub locals: Vec<VariableRow<'a>>,
    /// The program's variables.
    pub globals: Vec<VariableRow<'a>>,
    /// What its types are made of.
    pub layouts: Layouts<'a>,
}
