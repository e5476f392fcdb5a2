//! The process table: who is there, who sleeps, and whose turn comes next.
//!
//! A process stands in one of [`NPROC`](xk_base::limits::NPROC) slots from its fork until its parent
//! has waited for it. The table knows no memory: pages and saved registers are the kernel's.
#![tactic(auto)]

mod channel;
mod process;
mod table;

pub use channel::Channel;
pub use process::Call;
pub use table::{Reaped, Table};
