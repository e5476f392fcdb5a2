//! How much work a run does, beside the host's time: by what the machine shows, so that it is the same on each host. An
//! event is 1, and a page that is cleared or copied as much as 256 instructions (`specs/Work.antt`).
//!
//! Whoever plays a run may give it a budget of work: [`Work`] tells when it is used up. What the exit status of such a run
//! says stands in `specs/Runs.antt`.
#![tactic(auto)]

mod budget;
mod cost;

pub use budget::{BUDGET, OverBudget, Work, budget_of, close_over_budget};
pub use cost::{Before, cost_of};
