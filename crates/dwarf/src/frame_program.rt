//! Programs of call frames (DWARF 5, section 6.4.1 and 6.4.2).
ghost use Rattle.std.specs.Prelude.{◌≡◌, ◌++◌, None, OnOk, option_map, option_to_list};
ghost use Rattle.dwarf.specs.Frames as meant;

use crate::fault::{Fault, LineError};
use crate::frame::{Base, FrameRow, FrameRules, Rule};
use crate::frame_change::{Change, change_at};
use crate::frame_common::Common;
use std::alloc::{AllocError, Global};

/// What an instruction did.
#[derive(Clone, Copy)]
pub(crate) struct FrameStep {
    /// The row that it ended.
    pub row: Option<FrameRow>,
    /// What holds after it.
    pub state: FrameRow,
    /// The place of the next instruction.
    pub next: usize,
}

/// The rows that a program ended, and what holds after it.
#[derive(Drop)]
pub(crate) struct FrameRun {
    pub rows: Vec<FrameRow>,
    pub state: FrameRow,
}

impl Base {
    /// Counted from another register, unless an expression tells it. If it wasn't told yet, the register has it: so the
    /// assembler for RISC-V begins.
    fn with_register(self, register: u64) -> Base
        ensures { result ≡ meant.with_register register self }
    {
        match self {
            Base::Register { offset, .. } => Base::Register { register, offset },
            Base::Unset => Base::Register {
                register,
                offset: 0,
            },
            Base::Other => Base::Other,
        }
    }

    /// At another distance from its register, if it is counted from one.
    fn with_offset(self, offset: i64) -> Base
        ensures { result ≡ meant.with_offset offset self }
    {
        match self {
            Base::Register { register, .. } => Base::Register { register, offset },
            _ => self,
        }
    }
}

impl FrameRules {
    /// Before any instruction: nothing is known.
    pub(crate) fn unknown() -> FrameRules
        ensures { result ≡ meant.unknown }
    {
        FrameRules {
            base: Base::Unset,
            ra: Rule::Unset,
            s0: Rule::Unset,
        }
    }

    /// With another rule of a register: of ra or s0, since the others aren't told.
    fn with_rule(self, register: u64, rule: Rule) -> FrameRules
        ensures { result ≡ meant.with_rule register rule self }
    {
        match register {
            1 => FrameRules { ra: rule, ..self },
            8 => FrameRules { s0: rule, ..self },
            _ => self,
        }
    }

    /// With the rule of a register that the functions have in common.
    fn restored(self, register: u64, common: FrameRules) -> FrameRules
        ensures { result ≡ meant.restored register common self }
    {
        match register {
            1 => FrameRules {
                ra: common.ra,
                ..self
            },
            8 => FrameRules {
                s0: common.s0,
                ..self
            },
            _ => self,
        }
    }

    /// After an instruction that neither advances, nor keeps rules or takes them back.
    fn changed_by(self, change: Change, common: FrameRules) -> FrameRules
        ensures { result ≡ meant.changed_by change common self }
    {
        match change {
            Change::SetBase(base) => FrameRules { base, ..self },
            Change::SetBaseRegister(register) => FrameRules {
                base: self.base.with_register(register),
                ..self
            },
            Change::SetBaseOffset(offset) => FrameRules {
                base: self.base.with_offset(offset),
                ..self
            },
            Change::SetRule { register, rule } => self.with_rule(register, rule),
            Change::Restore(register) => self.restored(register, common),
            _ => self,
        }
    }
}

impl FrameStep {
    /// An instruction that ended no row.
    fn went_on(state: FrameRow, next: usize) -> FrameStep
        ensures { result ≡ (record { row = None; state = state; next = next }) }
    {
        FrameStep {
            row: None,
            state,
            next,
        }
    }
}

/// Takes back the rules that were kept last, if there are any.
fn take_back(kept: &mut Vec<FrameRules>) -> Option<FrameRules>
    ensures { option_map (λ r. (kept.new.items, r)) result ≡ meant.taken_back kept.old.items }
{
    kept.pop()
}

/// What an instruction does, whose place is `at`, and that of the next one `next`.
fn act(
    change: Change,
    common: FrameRules,
    state: FrameRow,
    kept: &mut Vec<FrameRules>,
    next: usize,
    at: usize,
) -> Result<FrameStep, LineError>
    ensures { meant.IsStep result kept.new.items (meant.act change common state kept.old.items next at) }
{
    match change {
        Change::Advance(bytes) => {
            let address = state.address.wrapping_add(bytes);
            Ok(FrameStep {
                row: Some(state),
                state: FrameRow { address, ..state },
                next,
            })
        }
        Change::Remember => {
            kept.push(state.rules)?;
            Ok(FrameStep::went_on(state, next))
        }
        Change::Recall => {
            let Some(rules) = take_back(kept) else {
                return Err(LineError::Damaged(Fault::Stack(at)));
            };
            Ok(FrameStep::went_on(FrameRow { rules, ..state }, next))
        }
        _ => {
            let rules = state.rules.changed_by(change, common);
            Ok(FrameStep::went_on(FrameRow { rules, ..state }, next))
        }
    }
}

/// The instruction at a place.
#[tactic(auto, unfolding(crate::specs::Frames::frame_step))]
fn step_at(
    common: &Common,
    bytes: &[u8],
    rules: FrameRules,
    at: usize,
    state: FrameRow,
    kept: &mut Vec<FrameRules>,
) -> Result<FrameStep, LineError>
    ensures { meant.IsStep result kept.new.items (meant.frame_step common.now bytes.now rules at state kept.old.items) }
{
    let found = change_at(common, bytes, at)?;
    act(found.change, rules, state, kept, found.next, at)
}

/// Adds a row to the end of a list, if there is one.
fn add(rows: &mut Vec<FrameRow>, row: Option<FrameRow>) -> Result<(), AllocError>
    ensures { OnOk result (rows.new.items ≡ rows.old.items ++ option_to_list row) }
{
    let Some(row) = row else {
        return Ok(());
    };
    rows.push(row)?;
    Ok(())
}

/// Runs a program, from a place on up to the end of the bytes.
pub(crate) fn run(
    alloc: Global,
    common: &Common,
    bytes: &[u8],
    rules: FrameRules,
    from: usize,
    first: FrameRow,
) -> Result<FrameRun, LineError>
    ensures { meant.AreFrames result (meant.frames common.now bytes.now rules from first) }
{
    let mut rows = Vec::new(alloc);
    let mut kept = Vec::new(alloc);
    let mut state = first;
    let mut at = from;
    for _ in 0..bytes.len() {
        if at >= bytes.len() {
            return Ok(FrameRun { rows, state });
        }
        let step = step_at(common, bytes, rules, at, state, &mut kept)?;
        add(&mut rows, step.row)?;
        state = step.state;
        at = step.next;
    }
    Ok(FrameRun { rows, state })
}
