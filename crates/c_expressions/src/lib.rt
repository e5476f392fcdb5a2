//! Expressions of C in a call of a program: which variable a name is, which part of its value an expression selects, and
//! what is told of it.
//!
//! [`tokens_of`] and [`expression_of`] read an expression. [`selected`] follows it from a variable on, by the rows of types that
//! `debug_info` reads from the compiler's tables: what it gives follows from these rows and the bytes of memory alone.
//! [`innermost`] says which variable a name is. [`answer`] puts them together for a debugger's words ([`Asked`]).
#![tactic(auto)]

mod answers;
mod asked;
mod expression;
mod finding;
mod parser;
mod refusal;
mod rows;
mod scope;
mod selection;
mod tables;
mod telling;
mod tokens;

pub use answers::{Scene, answer};
pub use asked::{Asked, parted};
pub use expression::{Expression, Step};
pub use finding::Found;
pub use parser::{ReadError, expression_of};
pub use refusal::Refusal;
pub use rows::{Rows, VariableRow};
pub use scope::innermost;
pub use selection::{Subject, selected};
pub use tables::CallTables;
pub use telling::value_line;
pub use tokens::{Token, tokens_of};
