//! Variables as rows of text.
ghost use Rattle.std.specs.Prelude.{◌≡◌, [], IfOk, string_bytes};

use crate::attributes::Program;
use crate::places::{Place, place_at};
use crate::printing::value_text;
use crate::sight::{Frame, Sight};
use crate::type_names::type_text;
use crate::variables::{Role, Variable, inlined_name, name_of};
use std::alloc::{AllocError, Global};

/// The word of a role.
fn word_of(role: Role) -> &'static str {
    match role {
        Role::Argument => "argument",
        Role::Local => "local",
        Role::Global => "global",
    }
}

/// Adds the row of a variable.
fn add_row<S: Sight>(
    alloc: Global,
    program: &Program,
    variable: &Variable,
    frame: &Frame,
    sight: &S,
    text: &mut String,
) -> Result<(), AllocError> {
    let role = word_of(variable.role);
    let inlined = inlined_name(program, variable).unwrap_or("");
    let name = name_of(program, variable).unwrap_or("?");
    let kind = type_text(alloc, program, variable)?;
    let place = place_at(alloc, program, variable, frame, sight)?;
    let value = value_text(alloc, program, variable, place, sight)?;
    let kind = kind.as_str();
    let value = value.as_str();
    write!(text, "{role}\t{inlined}\t{name}\t{kind}\t")?;
    if let Place::Memory(address) = place {
        write!(text, "{address:#x}")?;
    }
    writeln!(text, "\t{value}")
}

/// The rows of variables in a call, a line for each: its role, the inlined function in which it is, its name, its type,
/// its address if it is in memory, and its value, with tabs between them.
///
/// # Errors
///
/// The host has too little memory.
pub fn rows_text<S: Sight>(
    alloc: Global,
    program: &Program,
    variables: &[Variable],
    frame: &Frame,
    sight: &S,
) -> Result<String, AllocError>
    ensures { variables.now ≡ [] → IfOk result (λ text. string_bytes text ≡ []) }
{
    let mut text = String::new(alloc);
    for variable in variables {
        add_row(alloc, program, variable, frame, sight, &mut text)?;
    }
    Ok(text)
}
