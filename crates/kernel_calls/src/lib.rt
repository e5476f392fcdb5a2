//! The kernel calls in one table: the number of each, its name, and its arguments.
//!
//! Numbers and names are those of xv6's `syscall.h`, and arguments are called as in the xv6 book's prototypes ("Operating
//! system interfaces"); `sbrklazy` is this project's own. The table stands in `specs/Table.antt`. That it has exactly the
//! calls that the kernel does, each at the number at which the kernel does it, is a law (`laws.rt`, `specs/Laws.antt`).
#![tactic(auto)]

mod argument;
mod call;
pub mod laws;
pub mod numbers;

pub use argument::{Argument, ArgumentKind};
pub use call::{CALLS, KernelCall};
