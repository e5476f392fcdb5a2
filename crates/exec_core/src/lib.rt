//! Makes a program file and its argument texts into a process's memory, as xv6's `exec` does
//! (ELF-64 Object File Format, "Program Loading"; the xv6 book, "Code: exec").
//!
//! An [`ArgList`] holds the texts. [`plan`] reads the file and finds out whether the program can be
//! loaded, and [`build`] makes the memory, a [`Space`](addr_space::Space) in frames of RAM, and says
//! with which registers the program starts. Together they are the definition `loaded` of
//! `xk_base/specs/Loaded.antt`: the same memory byte by byte, and the same refusals in the same order.
//! `build` tests the price of the whole memory before it takes the first frame, so a refused one
//! changes nothing.
#![tactic(auto)]

mod arg_list;
mod building;
mod planning;

pub use arg_list::ArgList;
pub use building::build;
pub use planning::{Entry, ExecPlan, plan};
