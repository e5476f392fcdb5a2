//! What an expression is about in a call of a program.
ghost use Rattle.std.specs.Prelude.{◌≡◌, IfErr, IfOk, map, slice_get};
ghost use Rattle.c_expressions.specs.Finding as meant;
ghost use Rattle.c_expressions.specs.ReadErrors.{Refuses};
ghost use Rattle.c_expressions.specs.Written.{IsExpressionText, IsNoExpressionText};
ghost use Rattle.c_expressions.specs.Scopes.{IsInnermostOf, IsVariable, name_of};

use crate::expression::{Expression, Step};
use crate::parser::{ReadError, expression_of};
use crate::refusal::Refusal;
use crate::rows::{Rows, VariableRow};
use crate::scope::innermost;
use crate::selection::{Subject, selected};
use crate::tokens::tokens_of;
use debug_info::{Kind, Layouts, Place, Sight};
use std::alloc::{AllocError, Global};

/// What an expression is about.
#[derive(Clone, Copy)]
pub enum Found {
    /// A value, or an address.
    Subject(Subject),
    /// A variable that has no bytes.
    Placeless(Place),
    /// A step leads nowhere.
    Refused(Refusal),
}

/// The names of variables, in their order.
fn names_of<'a>(alloc: Global, rows: &[VariableRow<'a>]) -> Result<Vec<&'a [u8]>, AllocError>
    ensures { IfOk result (λ names. names.items ≡ map name_of rows.now) }
{
    let mut names = Vec::new(alloc);
    for row in rows {
        names.push(row.name)?;
    }
    Ok(names)
}

/// The variable at a place.
fn row_at<'a>(rows: &[VariableRow<'a>], place: usize) -> Option<VariableRow<'a>>
    ensures { result ≡ slice_get rows.now place }
{
    rows.get(place).copied()
}

/// The innermost of these variables that has the name: inner ones stand after outer ones.
fn innermost_of<'a>(
    alloc: Global,
    rows: &[VariableRow<'a>],
    name: &[u8],
) -> Result<Option<VariableRow<'a>>, AllocError>
    ensures { IfOk result (IsInnermostOf rows.now name.now) }
{
    let names = names_of(alloc, rows)?;
    let names = names.as_slice();
    match innermost(names, name, names.len()) {
        Some(place) => Ok(row_at(rows, place)),
        None => Ok(None),
    }
}

/// The variable of a name: the innermost one that is in scope, or else one of the program.
pub(crate) fn variable_named<'a>(
    alloc: Global,
    rows: &Rows<'a>,
    name: &[u8],
) -> Result<Option<VariableRow<'a>>, AllocError>
    ensures { IfOk result (IsVariable rows.now.locals.items rows.now.globals.items name.now) }
{
    let local = innermost_of(alloc, rows.locals.as_slice(), name)?;
    if let Some(row) = local {
        return Ok(Some(row));
    }
    let other = innermost_of(alloc, rows.globals.as_slice(), name)?;
    Ok(other)
}

/// What some steps lead to from a variable of a type that is at a place.
pub(crate) fn found_from<S: Sight>(
    layouts: &Layouts,
    sight: &S,
    kind: Kind,
    place: Place,
    steps: &[Step],
) -> Found
    ensures { result ≡ meant.found_from layouts.now.types.items layouts.now.members.items
        (S.registers sight.now) (S.bytes sight.now) kind place steps.now }
{
    let Some(spot) = place.spot(sight) else {
        return Found::Placeless(place);
    };
    let subject = Subject {
        kind,
        spot,
        is_address: false,
    };
    match selected(layouts, sight, subject, steps) {
        Ok(subject) => Found::Subject(subject),
        Err(refusal) => Found::Refused(refusal),
    }
}

/// What some steps lead to from a variable; `None` if there is none, or none that has a type.
fn found_of<S: Sight>(
    layouts: &Layouts,
    sight: &S,
    variable: Option<VariableRow>,
    steps: &[Step],
) -> Option<Found>
    ensures { result ≡ meant.found_of layouts.now.types.items layouts.now.members.items
        (S.registers sight.now) (S.bytes sight.now) steps.now variable.entry }
{
    let row = variable?;
    let kind = row.kind?;
    Some(found_from(layouts, sight, kind, row.place, steps))
}

/// What an expression is about; `None` if its name is no variable's that has a type.
fn expression_found<S: Sight>(
    alloc: Global,
    rows: &Rows,
    sight: &S,
    expression: &Expression,
) -> Result<Option<Found>, AllocError>
    ensures { IfOk result (meant.IsFound rows.now (S.registers sight.now) (S.bytes sight.now)
        expression.now.name.now expression.now.steps.items) }
{
    let variable = variable_named(alloc, rows, expression.name)?;
    let steps = expression.steps.as_slice();
    Ok(found_of(&rows.layouts, sight, variable, steps))
}

/// The expression that a text is.
fn read_expression(alloc: Global, text: &str) -> Result<Expression<'_>, ReadError>
    ensures is { IfOk result (λ e. IsExpressionText text.now e.name e.steps.items) }
    ensures refused { IfErr result (Refuses (IsNoExpressionText text.now)) }
{
    let tokens = tokens_of(alloc, text)?;
    match expression_of(alloc, tokens.as_slice()) {
        Ok(expression) => Ok(expression),
        Err(error) => Err(error),
    }
}

/// What the expression of a text is about; `None` if it is none, or its name is no variable's that has a type.
pub(crate) fn found_in<S: Sight>(
    alloc: Global,
    rows: &Rows,
    sight: &S,
    text: &str,
) -> Result<Option<Found>, AllocError>
    ensures { IfOk result (meant.IsFoundIn rows.now (S.registers sight.now) (S.bytes sight.now) text.now) }
{
    match read_expression(alloc, text) {
        Ok(expression) => {
            let about = expression_found(alloc, rows, sight, &expression)?;
            Ok(about)
        }
        Err(ReadError::NoExpression) => Ok(None),
        Err(ReadError::Memory) => Err(AllocError),
    }
}
