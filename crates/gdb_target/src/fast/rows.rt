//! Runs that are sent in a row, up to the next stop. Between two instructions that lead to none there is nothing to
//! look at.
ghost use Rattle.std.specs.Prelude.{◌≡◌, ℕ, ◌++◌, ◌≤◌, ◌<◌, true, None, IfOk, IfSome, IsSome, OnOk, length};
ghost use Rattle.kernel_spec.specs.views.State.{live};
ghost use Rattle.xv_machine.specs.Events.{outcome_of};
ghost use Rattle.gdb_target.specs.Choices.{choices};
ghost use Rattle.gdb_target.specs.Forth.{GoesBy, goes_on, halted_of};
ghost use Rattle.gdb_target.specs.LastHit.{IsHitBefore, Looked};
ghost use Rattle.gdb_target.specs.Rows.{RunsToStop, is_free, looks_at_row, starts_row};
ghost use Rattle.gdb_target.specs.SameRun.{beginning};
ghost use Rattle.gdb_target.specs.Standing.{NextIsRun};
ghost use Rattle.gdb_target.specs.Told.{state_of};
ghost use Rattle.gdb_target.specs.Touches.{IsByChange, addresses_of, watched_addresses};

use crate::places::{Glimpse, changed, if_told, watched_now};
use crate::played::is_run;
use crate::points::{Points, Watched};
use crate::reverse::{Back, Hit, point_hit};
use crate::target::{Going, Pause, Target, Until};
use crate::touches::Touch;
use std::alloc::{AllocError, Global};
use xv_machine::Outcome;
use xv_session::SessionError;

/// Adds the addresses of bytes that are watched.
fn push_addresses(addresses: &mut Vec<u64>, watched: &Watched) -> Result<(), AllocError>
    ensures { OnOk result (addresses.new.items ≡ addresses.old.items ++ addresses_of watched.now) }
{
    for place in 0..watched.length {
        addresses.push(watched.address.wrapping_add(place))?;
    }
    Ok(())
}

/// The addresses of all bytes that are watched.
///
/// # Errors
///
/// [`AllocError`] if the host has too little memory.
pub(crate) fn watched_bytes(alloc: Global, points: &Points) -> Result<Vec<u64>, AllocError>
    ensures { IfOk result (λ addresses. addresses.items ≡ watched_addresses points.now) }
{
    let mut addresses = Vec::new(alloc);
    let all = points.watched();
    for watched in all {
        push_addresses(&mut addresses, watched)?;
    }
    Ok(addresses)
}

/// How many Runs a row has, of so many: one, if a watched byte isn't there, since a load makes its page.
fn row_length(glimpse: &Glimpse, most: u32) -> u32
    requires { 0 < most }
    ensures some { 0 < result }
    ensures within { result ≤ most }
{
    if glimpse.is_whole() { most } else { 1 }
}

/// Runs that were sent in a row.
#[derive(Drop)]
struct Row {
    /// What came of the last of them.
    outcome: Outcome,
    /// The watched bytes that it changed.
    change: Option<Touch>,
}

impl Target {
    /// Whether a process runs, and doesn't stand before a stop: at a breakpoint, or before a store to a watched byte; and no
    /// bytes are watched for reads, of which a row tells none.
    fn is_free(&self, bytes: &[u64]) -> bool
        ensures { result ≡ is_free bytes.now self.now }
    {
        self.run.machine().current().is_some()
            && !self.points.watches_uses()
            && !self
                .run
                .is_before_stop(self.points.breakpoints.as_slice(), bytes)
    }

    /// Whether Runs may be sent in a row until this.
    pub(crate) fn starts_row(&self, until: Until, bytes: &[u64]) -> bool
        ensures { result ≡ starts_row until bytes.now self.now }
    {
        match until {
            Until::Point => !self.points.is_empty() && self.is_free(bytes),
            Until::StepOf(_) => false,
            Until::AnyStep => false,
        }
    }

    /// Sends Runs in a row, up to a stop, and tells to what they came.
    fn send_to_stop(&mut self, alloc: Global, bytes: &[u64], end: u64) -> Result<Row, SessionError>
        requires watched { bytes.now ≡ watched_addresses self.old.points }
        requires runs { NextIsRun self.old.run }
        requires room { length self.old.run.session.events < end }
        ensures within { length self.new.run.session.events ≤ end }
        ensures more { IfOk result (λ _. length self.old.run.session.events < length self.new.run.session.events) }
        ensures row { IfOk result
            (λ r. RunsToStop self.old.points.breakpoints.items (watched_addresses self.old.points) self.old.run (outcome_of r.outcome) self.new.run) }
        ensures goes_on { IfOk result (λ r. IfSome r.change (λ _. halted_of self.new ≡ None)) }
        ensures lives { IfOk result (λ r. IfSome r.change (λ change. IsSome (live (state_of self.new) change.pid))) }
        ensures may { IfOk result (λ r. IfSome r.change (λ change. IsByChange change.how)) }
        ensures same { beginning self.new.run ≡ beginning self.old.run }
        ensures choices { choices self.new ≡ choices self.old }
    {
        let Ok(before) = watched_now(alloc, &self.run, &self.points, self.program) else {
            return Err(SessionError::Memory);
        };
        let most = row_length(&before, self.all_before(u32::MAX, end));
        let outcome = self
            .run
            .run_to_stop(most, self.points.breakpoints.as_slice(), bytes)?;
        let change = changed(&self.run, &self.points, self.program, &before);
        Ok(Row { outcome, change })
    }

    /// Sends Runs in a row, and tells what stops the program.
    pub(crate) fn send_row(
        &mut self,
        alloc: Global,
        going: &Going,
        bytes: &[u64],
    ) -> Result<Option<Pause>, SessionError>
        requires watched { bytes.now ≡ watched_addresses self.old.points }
        requires starts { starts_row going.now.way.until bytes.now self.old ≡ true }
        requires runs { NextIsRun self.old.run }
        requires room { length self.old.run.session.events < going.now.end }
        ensures within { length self.new.run.session.events ≤ going.now.end }
        ensures more { IfOk result (λ p. goes_on p ≡ true → length self.old.run.session.events < length self.new.run.session.events) }
        ensures goes { IfOk result (λ p. GoesBy going.now.way self.old p self.new) }
        ensures same { beginning self.new.run ≡ beginning self.old.run }
        ensures choices { choices self.new ≡ choices self.old }
    {
        let row = self.send_to_stop(alloc, bytes, going.end)?;
        if let Some(change) = if_told(row.change, going.way.let_run) {
            return Ok(Some(Pause::Stopped(change.stopped())));
        }
        self.judged(alloc, going, &row.outcome)
    }

    /// Whether Runs may be looked at in a row.
    pub(crate) fn looks_at_row(&self, back: &Back, bytes: &[u64]) -> bool
        ensures { result ≡ looks_at_row back.now bytes.now self.now }
    {
        match back {
            Back::Point(_) => is_run(self.run.next().event) && self.is_free(bytes),
            Back::StepOf(_) => false,
        }
    }

    /// Sends Runs in a row, and tells a change of watched bytes: before none of them a process stood at a breakpoint.
    pub(crate) fn look_at_row(
        &mut self,
        alloc: Global,
        back: &Back,
        bytes: &[u64],
        end: u64,
    ) -> Result<Option<Hit>, SessionError>
        requires watched { bytes.now ≡ watched_addresses self.old.points }
        requires looks { looks_at_row back.now bytes.now self.old ≡ true }
        requires room { length self.old.run.session.events < end }
        ensures within { length self.new.run.session.events ≤ end }
        ensures more { IfOk result (λ _. length self.old.run.session.events < length self.new.run.session.events) }
        ensures hit { IfOk result (λ h. IfSome h (λ found. IsHitBefore back.now end found)) }
        ensures looked { IfOk result (λ h. (n : ℕ) × Looked back.now n self.old self.new h) }
        ensures same { beginning self.new.run ≡ beginning self.old.run }
        ensures choices { choices self.new ≡ choices self.old }
    {
        let row = self.send_to_stop(alloc, bytes, end)?;
        let place = self.run.at().saturating_sub(1);
        Ok(point_hit(&back.let_run(), place, None, row.change, None))
    }
}
