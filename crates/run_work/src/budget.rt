//! A budget of work.
ghost use Rattle.std.specs.Prelude.{◌≡◌, ◌<◌, option_map, nat_lt};
ghost use Rattle.kcall_core.specs.Observers.{size_of};
ghost use Rattle.xv_machine.specs.Events.{outcome_of};
ghost use Rattle.run_work.specs.Work as meant;
ghost use Rattle.run_work.specs.Work.{cost, with_more};

use crate::cost::{Before, cost_of};
use debug_words::texts::Grouped;
use program_files::NumberOption;
use program_files::exit_statuses::OVER_BUDGET;
use std::fmt;
use std::io::Write;
use xv_machine::{Machine, Outcome};

/// The instructions for which 1 of `--budget` stands.
const MILLION: u64 = 1_000_000;

/// `--budget`: the most work.
pub const BUDGET: NumberOption = NumberOption {
    name: "budget",
    help: "The most work, in millions of instructions: 0 to 1000000; 0: any",
    default: "0",
    least: 0,
    most: 1_000_000,
};

/// How much work a run may do, with this number of `--budget`.
pub fn budget_of(millions: u32) -> u64
    ensures { result ≡ meant.budget_of millions }
{
    if millions == 0 {
        u64::MAX
    } else {
        u64::from(millions) * MILLION
    }
}

/// How much work a run has done, and how much it may do.
#[derive(Clone, Copy)]
pub struct Work {
    /// 2^64 - 1 at most.
    pub done: u64,
    pub budget: u64,
    /// How many Runs were sent.
    pub runs: u64,
}

impl Work {
    /// Nothing is done.
    pub fn new(budget: u64) -> Work
        ensures { result ≡ record { done = 0; budget = budget; runs = 0 } }
    {
        Work {
            done: 0,
            budget,
            runs: 0,
        }
    }

    /// Whether more is done than may be.
    #[inline]
    pub fn is_over(&self) -> bool
        ensures { result ≡ nat_lt self.now.budget self.now.done }
    {
        self.done > self.budget
    }

    /// Adds Runs that were sent one after another: so many, before which a machine was seen so, and of the last of which
    /// this came, unless all are done instructions.
    pub fn add_runs(
        &mut self,
        machine: &Machine,
        before: &Before,
        sent: u32,
        last: &Option<Outcome>,
    )
        ensures done { self.new.done ≡ with_more self.old.done (cost before.now sent machine.now.world.state.free (size_of machine.now.world.state) (option_map outcome_of last.now)) }
        ensures budget { self.new.budget ≡ self.old.budget }
        ensures runs { self.new.runs ≡ with_more self.old.runs sent }
    {
        self.done = self
            .done
            .saturating_add(cost_of(machine, before, sent, last));
        self.runs = self.runs.saturating_add(u64::from(sent));
    }

    /// Adds an event that is no Run.
    #[inline]
    pub fn add_event(&mut self)
        ensures { self.new ≡ record self.old { done = with_more self.old.done 1 } }
    {
        self.done = self.done.saturating_add(1);
    }
}

/// That a run has used up its budget: `budget: 1,234 Runs, events between them, and pages that they clear or copy, are
/// more work than 5,000`.
#[derive(Clone, Copy)]
pub struct OverBudget {
    pub runs: u64,
    pub budget: u64,
}

impl fmt::Display for OverBudget {
    fn fmt<W: fmt::Write>(&self, f: &mut fmt::Formatter<W>) -> fmt::Result {
        let (runs, budget) = (Grouped(self.runs), Grouped(self.budget));
        write!(
            f,
            "budget: {runs} Runs, events between them, and pages that they clear or copy, are more work than {budget}"
        )
    }
}

/// Writes the closing line of a run that has used up its budget, under the name of the program that made it, and gives the
/// exit status. A line that can't be written is left out.
pub fn close_over_budget<E: Write>(name: &str, work: &Work, errors: &mut E) -> u8
    ensures { result ≡ 6 }
{
    let over = OverBudget {
        runs: work.runs,
        budget: work.budget,
    };
    let _ = writeln!(errors, "{name}: {over}");
    OVER_BUDGET
}
