//! The argument texts of a program.
ghost use Rattle.std.specs.Prelude.{◌≡◌, ◌+◌, ◌<◌, ◌≤◌, ℕ, [], ◌∷◌, ◌++◌};
ghost use Rattle.std.specs.Prelude.{length, Ok, Err, nat_lt, ◌==◌, if◌then◌else◌, OnOk, OnErr};
ghost use Rattle.xk_base.specs.declared.limits.TheConstants.{MAXARG, ARG_BYTES};
ghost use Rattle.exec_core.specs.ArgTexts.{push_refusal, texts_of, IsSplit};

use arrayvec::ArrayVec;
use std::marker::Model;
use xk_base::ExecError;
use xk_base::limits::{ARG_BYTES, MAXARG};

/// The argument texts that a program is given: at most [`MAXARG`] of them, which have together, each
/// with a zero byte behind it, at most [`ARG_BYTES`] bytes.
///
/// Contracts see it as the list of the texts, in order.
#[derive(Drop)]
pub struct ArgList {
    /// How many bytes each text has.
    lengths: ArrayVec<usize, MAXARG>,
    /// The texts, each with its zero byte, one behind another.
    bytes: ArrayVec<u8, ARG_BYTES>,
}

impl Model for ArgList {
    ghost use Rattle.std.specs.Prelude.{ℕ, List};
    ghost use Rattle.exec_core.specs.ArgTexts.{texts_of, IsSplit};

    ghost Value = { List (List ℕ) };

    ghost view = { λ a. texts_of a.lengths.items a.bytes.items };

    ghost invariant = { λ a. IsSplit a.lengths.items a.bytes.items };
}

impl ArgList {
    /// No texts.
    pub fn new() -> ArgList
        ensures { result ≡ [] }
    {
        ArgList {
            lengths: ArrayVec::new(),
            bytes: ArrayVec::new(),
        }
    }

    /// Adds a text behind the others.
    ///
    /// # Errors
    ///
    /// [`ExecError::TooManyArgs`] exactly where there are [`MAXARG`] texts, else
    /// [`ExecError::ArgsTooLong`] exactly where all texts with their zero bytes would have more than
    /// [`ARG_BYTES`] bytes. Then nothing is changed.
    pub fn push(&mut self, text: &[u8]) -> Result<(), ExecError>
        ensures refusal { result ≡ push_refusal self.old text.now }
        ensures added { OnOk result (self.new ≡ self.old ++ text.now ∷ []) }
        ensures refused { OnErr result (self.new ≡ self.old) }
    {
        if self.lengths.is_full() {
            return Err(ExecError::TooManyArgs);
        }
        if text.len() >= self.bytes.remaining_capacity() {
            return Err(ExecError::ArgsTooLong);
        }
        self.lengths.push(text.len());
        let Ok(()) = self.bytes.try_extend_from_slice(text) else {
            unreachable!();
        };
        self.bytes.push(0);
        Ok(())
    }

    /// How many bytes each text has, and the texts, each with its zero byte.
    pub(crate) fn parts(&self) -> (&[usize], &[u8])
        ensures texts { self.now ≡ texts_of result.0.now result.1.now }
        ensures split { IsSplit result.0.now result.1.now }
        ensures few { length result.0.now ≤ MAXARG }
    {
        (self.lengths.as_slice(), self.bytes.as_slice())
    }
}
