//! What tells of a call of a program in C.
ghost use Rattle.std.specs.Prelude.{ℕ, IfOk, List, Option, string_bytes};

use crate::rows::Rows;
use debug_info::{Kind, Spot};
use std::alloc::{AllocError, Global};

/// Where the types and the variables of a call are read.
pub trait CallTables {
    ghost use Rattle.c_expressions.specs.declared.rows.Rows.{Rows};
    ghost use Rattle.debug_info.specs.declared.spots.Spot.{Spot};
    ghost use Rattle.debug_info.specs.declared.types.Kind.{Kind};

    /// These are the rows of the call.
    ghost AreRows: { Self → Rows → Type 0 };

    /// This is the text of the value of a type that begins at a place.
    ghost IsValue: { Self → Kind → Spot → List ℕ → Type 0 };

    /// This is the text of the type of pointers to values of a type.
    ghost IsPointer: { Self → Kind → List ℕ → Type 0 };

    /// So many bytes has a number, if the values of a type are numbers.
    ghost IsNumberSize: { Self → Kind → Option ℕ → Type 0 };

    /// The rows of the call.
    ///
    /// # Errors
    ///
    /// The host has too little memory.
    fn rows(&self, alloc: Global) -> Result<Rows<'_>, AllocError>
        ensures { IfOk result (AreRows self.now) };

    /// The text of the value of a type that begins at a place.
    ///
    /// # Errors
    ///
    /// The host has too little memory.
    fn value_text(&self, alloc: Global, kind: Kind, spot: Spot) -> Result<String, AllocError>
        ensures { IfOk result (λ text. IsValue self.now kind spot (string_bytes text)) };

    /// The text of the type of pointers to values of a type.
    ///
    /// # Errors
    ///
    /// The host has too little memory.
    fn pointer_text(&self, alloc: Global, kind: Kind) -> Result<String, AllocError>
        ensures { IfOk result (λ text. IsPointer self.now kind (string_bytes text)) };

    /// How many bytes a number has, if the values of a type are numbers.
    fn number_size(&self, kind: Kind) -> Option<u64>
        ensures { IsNumberSize self.now kind result };
}
