//! Reads expressions of C (C17, sections 6.5.1 to 6.5.3): a name; `e.name`, `e->name` and `e[number]`; `*e` and `&e`; and
//! brackets around each. What stands behind binds tighter than what stands before.
ghost use Rattle.std.specs.Prelude.{◌≡◌, ◌≤◌, ◌<◌, ◌++◌, ◌∷◌, [], false, length, IfErr, IfNone, IfOk, IfSome, None};
ghost use Rattle.c_expressions.specs.Grammar.{IsBehind, IsExpressionOf, IsNoExpression, IsRead};
ghost use Rattle.c_expressions.specs.ReadErrors.{Refuses};
ghost use Rattle.c_expressions.specs.Reading as reads;
ghost use Rattle.c_expressions.specs.Reading.{IsReading, IsTail};
ghost use Rattle.c_expressions.specs.Behind.{steps_behind, written};
ghost use Rattle.c_expressions.specs.declared.tokens.Token.TheVariants.{Close, Name, Number, Right};
ghost use Rattle.c_expressions.specs.declared.parser.ReadError.TheVariants as errors;

use crate::expression::{Expression, Step};
use crate::tokens::Token;
use std::alloc::{AllocError, Global};

/// Signs before an expression and brackets around it are no more than this, and so are the steps that stand behind it.
const MOST_DEPTH: usize = 64;

/// Why a text is no expression.
#[derive(Clone, Copy)]
pub enum ReadError {
    /// It is none.
    NoExpression,
    /// The host has too little memory.
    Memory,
}

impl From<AllocError> for ReadError {
    ghost from_gives = { λ _ error. error ≡ errors.Memory };

    fn from(_: AllocError) -> ReadError {
        ReadError::Memory
    }
}

/// Adds a step.
fn add<'a>(steps: &mut Vec<Step<'a>>, step: Step<'a>) -> Result<(), ReadError>
    ensures added { IfOk result (λ _. steps.new.items ≡ steps.old.items ++ step.entry ∷ []) }
    ensures refused { IfErr result (Refuses ⊥) }
{
    match steps.push(step) {
        Ok(()) => Ok(()),
        Err(_) => Err(ReadError::Memory),
    }
}

/// What may stand behind an expression.
#[derive(Clone, Copy)]
enum Behind<'a> {
    /// `.name`
    Member(&'a [u8]),
    /// `->name`
    Arrow(&'a [u8]),
    /// `[number]`
    Element(u64),
}

/// The first token, and the others.
fn parted<'a, 't>(tokens: &'t [Token<'a>]) -> Option<(Token<'a>, &'t [Token<'a>])>
    ensures some { IfSome result (λ p. tokens.now ≡ p.0 ∷ p.1.now) }
    ensures none { IfNone result (tokens.now ≡ []) }
{
    let (first, rest) = tokens.split_first()?;
    Some((*first, rest))
}

/// The name that is first, and the tokens after it.
fn named<'a, 't>(tokens: &'t [Token<'a>]) -> Option<(&'a [u8], &'t [Token<'a>])>
    ensures some { IfSome result (λ n. tokens.now ≡ Name n.0 ∷ n.1.now) }
    ensures none { IfNone result (reads.begins_name tokens.now ≡ false) }
{
    let (first, rest) = parted(tokens)?;
    match first {
        Token::Name(name) => Some((name, rest)),
        _ => None,
    }
}

/// The tokens after a bracket of an element that closes.
fn closed<'a, 't>(tokens: &'t [Token<'a>]) -> Option<&'t [Token<'a>]>
    ensures some { IfSome result (λ rest. tokens.now ≡ Right ∷ rest.now) }
    ensures none { IfNone result (reads.begins_right tokens.now ≡ false) }
{
    let (first, rest) = parted(tokens)?;
    match first {
        Token::Right => Some(rest),
        _ => None,
    }
}

/// The number of an element, and the tokens after its bracket.
fn numbered<'a, 't>(tokens: &'t [Token<'a>]) -> Option<(u64, &'t [Token<'a>])>
    ensures some { IfSome result (λ n. tokens.now ≡ Number n.0 ∷ Right ∷ n.1.now) }
    ensures none { IfNone result (reads.begins_number tokens.now ≡ false) }
{
    let (first, rest) = parted(tokens)?;
    match first {
        Token::Number(number) => {
            let after = closed(rest)?;
            Some((number, after))
        }
        _ => None,
    }
}

/// What stands behind an expression, and the tokens after it; `None` if nothing does.
fn behind_of<'a, 't>(tokens: &'t [Token<'a>]) -> Option<(Behind<'a>, &'t [Token<'a>])>
    ensures some { IfSome result (λ b. tokens.now ≡ written b.0 ++ b.1.now) }
    ensures none { IfNone result (reads.behind tokens.now ≡ reads.nothing tokens.now) }
{
    let (first, rest) = parted(tokens)?;
    match first {
        Token::Dot => {
            let (name, after) = named(rest)?;
            Some((Behind::Member(name), after))
        }
        Token::Arrow => {
            let (name, after) = named(rest)?;
            Some((Behind::Arrow(name), after))
        }
        Token::Left => {
            let (number, after) = numbered(rest)?;
            Some((Behind::Element(number), after))
        }
        _ => None,
    }
}

/// Adds the steps of what stands behind an expression.
fn add_behind<'a>(steps: &mut Vec<Step<'a>>, behind: Behind<'a>) -> Result<(), ReadError>
    ensures added { IfOk result (λ _. steps.new.items ≡ steps.old.items ++ steps_behind behind.entry) }
    ensures refused { IfErr result (Refuses ⊥) }
{
    match behind {
        Behind::Member(name) => add(steps, Step::Member(name)),
        Behind::Arrow(name) => {
            add(steps, Step::Target)?;
            add(steps, Step::Member(name))
        }
        Behind::Element(number) => add(steps, Step::Index(number)),
    }
}

/// Reads members and elements that stand behind an expression; gives the tokens after them.
fn read_behind<'a, 't>(
    tokens: &'t [Token<'a>],
    steps: &mut Vec<Step<'a>>,
    most: usize,
) -> Result<&'t [Token<'a>], ReadError>
    ensures is { IfOk result (λ rest. IsBehind tokens.now rest.now steps.old.items steps.new.items) }
    ensures all { IfOk result (λ rest. IsTail (reads.behind tokens.now) rest.now steps.old.items steps.new.items) }
    ensures shorter { IfOk result (λ rest. length rest.now ≤ length tokens.now) }
    ensures refused { IfErr result (Refuses (most ≤ length tokens.now)) }
{
    if most == 0 {
        return Err(ReadError::NoExpression);
    }
    let Some((behind, rest)) = behind_of(tokens) else {
        return Ok(tokens);
    };
    add_behind(steps, behind)?;
    let after = read_behind(rest, steps, most - 1)?;
    Ok(after)
}

/// The tokens after a bracket that closes.
fn after_close<'a, 't>(tokens: &'t [Token<'a>]) -> Result<&'t [Token<'a>], ReadError>
    ensures closed { IfOk result (λ rest. tokens.now ≡ Close ∷ rest.now) }
    ensures refused { IfErr result (Refuses (reads.begins_close tokens.now ≡ false)) }
{
    match parted(tokens) {
        Some((Token::Close, rest)) => Ok(rest),
        _ => Err(ReadError::NoExpression),
    }
}

/// Reads an expression, and adds its steps, the first one first; gives its name, and the tokens after it.
fn read<'a, 't>(
    tokens: &'t [Token<'a>],
    steps: &mut Vec<Step<'a>>,
    most: usize,
) -> Result<(&'a [u8], &'t [Token<'a>]), ReadError>
    requires { most ≤ 64 }
    ensures is { IfOk result (λ r. IsRead tokens.now r.0 r.1.now steps.old.items steps.new.items) }
    ensures all { IfOk result (λ r. IsReading (reads.reading tokens.now) r.0 r.1.now steps.old.items steps.new.items) }
    ensures shorter { IfOk result (λ r. length r.1.now < length tokens.now) }
    ensures refused { IfErr result (Refuses (length tokens.now < most → reads.reading tokens.now ≡ None)) }
{
    if most == 0 {
        return Err(ReadError::NoExpression);
    }
    let Some((first, rest)) = parted(tokens) else {
        return Err(ReadError::NoExpression);
    };
    match first {
        Token::Star => {
            let (name, after) = read(rest, steps, most - 1)?;
            add(steps, Step::Target)?;
            Ok((name, after))
        }
        Token::And => {
            let (name, after) = read(rest, steps, most - 1)?;
            add(steps, Step::Address)?;
            Ok((name, after))
        }
        Token::Open => {
            let (name, inner) = read(rest, steps, most - 1)?;
            let behind = after_close(inner)?;
            let after = read_behind(behind, steps, MOST_DEPTH)?;
            Ok((name, after))
        }
        Token::Name(name) => {
            let after = read_behind(rest, steps, MOST_DEPTH)?;
            Ok((name, after))
        }
        _ => Err(ReadError::NoExpression),
    }
}

/// The expression that these tokens are.
///
/// # Errors
///
/// [`ReadError::NoExpression`] if they are none, or more than 64 signs and brackets stand before a name, or 64 steps behind
/// one; [`ReadError::Memory`] if the host has too little memory.
#[tactic(auto, using(crate::proofs::Longer::all_read, crate::proofs::Read::unread_refused))]
pub fn expression_of<'a>(alloc: Global, tokens: &[Token<'a>]) -> Result<Expression<'a>, ReadError>
    ensures is { IfOk result (λ e. IsExpressionOf tokens.now e.name e.steps.items) }
    ensures refused { IfErr result (Refuses (length tokens.now < 64 → IsNoExpression tokens.now)) }
{
    let mut steps = Vec::new(alloc);
    let (name, rest) = read(tokens, &mut steps, MOST_DEPTH)?;
    if rest.is_empty() {
        return Ok(Expression { name, steps });
    }
    Err(ReadError::NoExpression)
}
