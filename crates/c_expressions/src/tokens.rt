//! The signs, names and numbers of a text, one after another.
ghost use Rattle.std.specs.Prelude.{◌≡◌, ◌++◌, OnOk, true, false, ◌≤◌, ◌<◌, IfSome, IfNone, IfOk, IfErr, option_map, [], ◌∷◌, Some, None, length, map, drop, take};
ghost use Rattle.c_expressions.specs.ReadErrors.{Refuses};
ghost use Rattle.c_expressions.specs.Tokens as meant;

use crate::parser::ReadError;
use std::alloc::{AllocError, Global};

/// A sign, a name or a number.
#[derive(Clone, Copy)]
pub enum Token<'a> {
    /// A name: letters, digits and underscores, and no digit first.
    Name(&'a [u8]),
    /// A number; one below zero is in two's complement.
    Number(u64),
    /// `.`
    Dot,
    /// `->`
    Arrow,
    /// `[`
    Left,
    /// `]`
    Right,
    /// `(`
    Open,
    /// `)`
    Close,
    /// `*`
    Star,
    /// `&`
    And,
}

/// Whether a word may have this byte: a letter, a digit or an underscore.
fn is_of_word(byte: u8) -> bool
    ensures { result ≡ meant.is_of_word byte }
{
    matches!(byte, b'0'..=b'9' | b'A'..=b'Z' | b'a'..=b'z' | b'_')
}

/// Whether a byte stands between tokens.
fn is_blank(byte: u8) -> bool
    ensures { result ≡ meant.is_blank byte }
{
    byte == b' ' || byte == b'\t'
}

/// The value of a digit, in a base of 10 or 16.
fn digit_of(byte: u8, base: u64) -> Option<u64>
    ensures { result ≡ meant.digit_of base byte }
{
    let value = match byte {
        b'0'..=b'9' => byte - b'0',
        b'a'..=b'f' => byte - b'a' + 10,
        b'A'..=b'F' => byte - b'A' + 10,
        _ => return None,
    };
    let value = u64::from(value);
    if value < base { Some(value) } else { None }
}

/// A number with one more digit behind it; `None` if that has more than 64 bits.
fn with_digit(number: u64, base: u64, digit: u64) -> Option<u64>
    ensures { result ≡ meant.with_digit base number (Some digit) }
{
    number.checked_mul(base)?.checked_add(digit)
}

/// The number that these digits write; `None` if one is none, or the number has more than 64 bits.
fn number_of(digits: &[u8], base: u64) -> Option<u64>
    ensures { result ≡ meant.number_of base digits.now }
{
    let mut number: u64 = 0;
    for byte in digits {
        let digit = digit_of(*byte, base)?;
        number = with_digit(number, base, digit)?;
    }
    Some(number)
}

/// How many bytes of a word stand first.
fn word_length(text: &[u8]) -> usize
    ensures value { result ≡ meant.word_length text.now }
    ensures within { result ≤ length text.now }
{
    let mut count = 0;
    for byte in text {
        if !is_of_word(*byte) {
            return count;
        }
        count += 1;
    }
    count
}

/// The word that stands first, and the text behind it.
fn word_first(text: &[u8]) -> (&[u8], &[u8])
    ensures word { result.0.now ≡ take (meant.word_length text.now) text.now }
    ensures rest { result.1.now ≡ drop (meant.word_length text.now) text.now }
{
    text.split_at(word_length(text))
}

/// The token of a number, if there is one.
fn as_number(number: Option<u64>) -> Option<Token<'static>>
    ensures { result ≡ meant.as_number number }
{
    Some(Token::Number(number?))
}

/// The first byte, and the others.
fn parted(text: &[u8]) -> Option<(u8, &[u8])>
    ensures some { IfSome result (λ p. text.now ≡ p.0 ∷ p.1.now) }
    ensures none { IfNone result (text.now ≡ []) }
{
    let (first, rest) = text.split_first()?;
    Some((*first, rest))
}

/// The hexadecimal digits behind `0x`, if a word has some.
fn hexadecimal(word: &[u8]) -> Option<&[u8]>
    ensures { option_map (λ digits. digits.now) result ≡ meant.hexadecimal word.now }
{
    let (zero, rest) = parted(word)?;
    let (mark, digits) = parted(rest)?;
    if zero == b'0' && (mark == b'x' || mark == b'X') && !digits.is_empty() {
        Some(digits)
    } else {
        None
    }
}

/// The decimal number or the name that a word is.
fn plain_token(word: &[u8]) -> Option<Token<'_>>
    ensures { option_map meant.seen result ≡ meant.plain_token word.now }
{
    let (first, _) = parted(word)?;
    if first.is_ascii_digit() {
        return as_number(number_of(word, 10));
    }
    Some(Token::Name(word))
}

/// The number or the name that a word is.
fn word_token(word: &[u8]) -> Option<Token<'_>>
    ensures { option_map meant.seen result ≡ meant.word_token word.now }
{
    match hexadecimal(word) {
        Some(digits) => as_number(number_of(digits, 16)),
        None => plain_token(word),
    }
}

/// A number below zero, in two's complement.
fn negative(token: Token<'_>) -> Option<Token<'_>>
    ensures { option_map meant.seen result ≡ meant.negative (Some (meant.seen token.entry)) }
{
    match token {
        Token::Number(number) => Some(Token::Number(number.wrapping_neg())),
        _ => None,
    }
}

/// The token of a sign of one byte.
fn sign_token(byte: u8) -> Option<Token<'static>>
    ensures { result ≡ meant.sign_token byte }
{
    match byte {
        b'.' => Some(Token::Dot),
        b'[' => Some(Token::Left),
        b']' => Some(Token::Right),
        b'(' => Some(Token::Open),
        b')' => Some(Token::Close),
        b'*' => Some(Token::Star),
        b'&' => Some(Token::And),
        _ => None,
    }
}

/// What stands first in a text, and what stands behind it.
#[derive(Clone, Copy)]
struct First<'a> {
    /// A token; `None` of a blank.
    token: Option<Token<'a>>,
    /// What stands behind it.
    rest: &'a [u8],
}

/// A word that stands first in a text.
fn word_before(text: &[u8]) -> Option<First<'_>>
    requires { meant.begins_word text.now ≡ true }
    ensures some { IfSome result (meant.IsFirst text.now) }
    ensures none { IfNone result (meant.tokens_in text.now ≡ None) }
{
    let (word, rest) = word_first(text);
    let Some(token) = word_token(word) else {
        return None;
    };
    Some(First {
        token: Some(token),
        rest,
    })
}

/// The text behind a `>`, if it begins with one.
fn behind_point(text: &[u8]) -> Option<&[u8]>
    ensures some { IfSome result (λ rest. text.now ≡ 62 ∷ rest.now) }
    ensures none { IfNone result (meant.begins_with 62 text.now ≡ false) }
{
    let (first, rest) = parted(text)?;
    if first == b'>' { Some(rest) } else { None }
}

/// What begins with a minus: an arrow, or a number below zero. `rest` is what stands behind the minus.
fn minus_before(rest: &[u8]) -> Option<First<'_>>
    ensures some { IfSome result (meant.IsFirst (45 ∷ rest.now)) }
    ensures none { IfNone result (meant.tokens_in (45 ∷ rest.now) ≡ None) }
{
    if let Some(behind) = behind_point(rest) {
        return Some(First {
            token: Some(Token::Arrow),
            rest: behind,
        });
    }
    let (word, behind) = word_first(rest);
    let Some(number) = word_token(word) else {
        return None;
    };
    let Some(token) = negative(number) else {
        return None;
    };
    Some(First {
        token: Some(token),
        rest: behind,
    })
}

/// What begins with a byte of no word. `rest` is what stands behind it.
fn other_before(byte: u8, rest: &[u8]) -> Option<First<'_>>
    requires { meant.is_of_word byte ≡ false }
    ensures some { IfSome result (meant.IsFirst (byte ∷ rest.now)) }
    ensures none { IfNone result (meant.tokens_in (byte ∷ rest.now) ≡ None) }
{
    if is_blank(byte) {
        return Some(First { token: None, rest });
    }
    if byte == b'-' {
        return minus_before(rest);
    }
    let Some(token) = sign_token(byte) else {
        return None;
    };
    Some(First {
        token: Some(token),
        rest,
    })
}

/// What stands first in a text that isn't empty; `None` if it is no token, and no blank.
fn first_of(text: &[u8]) -> Option<First<'_>>
    requires { 0 < length text.now }
    ensures some { IfSome result (meant.IsFirst text.now) }
    ensures none { IfNone result (meant.tokens_in text.now ≡ None) }
{
    let Some((first, rest)) = parted(text) else {
        return None;
    };
    if is_of_word(first) {
        return word_before(text);
    }
    other_before(first, rest)
}

/// Adds a token, if there is one.
fn add<'a>(tokens: &mut Vec<Token<'a>>, token: Option<Token<'a>>) -> Result<(), AllocError>
    ensures { OnOk result (tokens.new.items ≡ tokens.old.items ++ meant.as_list token.entry) }
{
    match token {
        Some(token) => {
            tokens.push(token)?;
            Ok(())
        }
        None => Ok(()),
    }
}

/// The tokens of a text, in their order; blanks may stand between them.
///
/// # Errors
///
/// [`ReadError::NoExpression`] if something else stands there; [`ReadError::Memory`] if the host has too little memory.
pub fn tokens_of(alloc: Global, text: &str) -> Result<Vec<Token<'_>>, ReadError>
    ensures read { IfOk result (λ tokens. meant.tokens_in text.now ≡ Some (map meant.seen tokens.items)) }
    ensures refused { IfErr result (Refuses (meant.tokens_in text.now ≡ None)) }
{
    let mut tokens = Vec::new(alloc);
    let mut rest = text.as_bytes();
    while !rest.is_empty() {
        let Some(first) = first_of(rest) else {
            return Err(ReadError::NoExpression);
        };
        add(&mut tokens, first.token)?;
        rest = first.rest;
    }
    Ok(tokens)
}
