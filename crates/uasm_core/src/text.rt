//! Texts in quotes.
ghost use Rattle.std.specs.Prelude.{◌≡◌, List, ℕ, ◌∷◌};
ghost use Rattle.uasm_core.specs.Views.{Answers};
ghost use Rattle.uasm_core.specs.Views.{Reads};
ghost use Rattle.uasm_core.specs.Line.{escape_of, text_from, text_of};
ghost use Rattle.uasm_core.specs.Statement.{or_bad};
ghost use Rattle.uasm_core.specs.declared.scan.Quote.TheVariants.{Inside};

use crate::error::{AsmErrorKind, Refusal};
use crate::scan::Quote;
use std::alloc::Global;

/// What stands for an escaped byte.
fn escape(byte: u8) -> Option<u8>
    ensures { result ≡ escape_of byte }
{
    match byte {
        b'n' => Some(b'\n'),
        b't' => Some(b'\t'),
        b'0' => Some(0),
        b'\\' => Some(b'\\'),
        b'"' => Some(b'"'),
        _ => None,
    }
}

/// One byte of a text.
fn read_byte(found: &mut Vec<u8>, quote: Quote, byte: u8) -> Result<Quote, Refusal>
    ensures { (rest : List ℕ) → Reads found.old.items found.new.items result (text_from quote (byte ∷ rest)) rest }
{
    match quote {
        Quote::Outside => Err(Refusal::Kind(AsmErrorKind::BadOperand)),
        Quote::Inside => {
            if byte == b'"' {
                Ok(Quote::Outside)
            } else if byte == b'\\' {
                Ok(Quote::Escaped)
            } else {
                found.push(byte)?;
                Ok(Quote::Inside)
            }
        }
        Quote::Escaped => {
            let Some(escaped) = escape(byte) else {
                return Err(Refusal::Kind(AsmErrorKind::BadOperand));
            };
            found.push(escaped)?;
            Ok(Quote::Inside)
        }
    }
}

/// The text behind its first quote.
fn text_behind(alloc: Global, bytes: &[u8]) -> Result<Vec<u8>, Refusal>
    ensures { Answers (λ v. v.items) result (or_bad (text_from Inside bytes.now)) }
{
    let mut found = Vec::new(alloc);
    let mut quote = Quote::Inside;
    for byte in bytes {
        quote = read_byte(&mut found, quote, *byte)?;
    }
    match quote {
        Quote::Outside => Ok(found),
        _ => Err(Refusal::Kind(AsmErrorKind::BadOperand)),
    }
}

/// The text in quotes.
pub(crate) fn text(alloc: Global, bytes: &[u8]) -> Result<Vec<u8>, Refusal>
    ensures { Answers (λ v. v.items) result (or_bad (text_of bytes.now)) }
{
    if bytes.is_empty() || bytes[0] != b'"' {
        return Err(Refusal::Kind(AsmErrorKind::BadOperand));
    }
    text_behind(alloc, &bytes[1..])
}
