//! Where a jump or a branch leads.
ghost use Rattle.std.specs.Prelude.{◌≡◌};
ghost use Rattle.xv_report.specs.Jumps.{leads_to, jump_of};

use rv64i_core::{Instr, Regs, decode, extend_12};
use uasm_text::target;

/// Where an instruction leads that stands at the pc.
#[tactic(auto, unfolding(crate::specs::Jumps::leads_to))]
fn leads_to(regs: &Regs, instr: &Instr) -> Option<u64>
    ensures { result ≡ leads_to regs.now instr.now }
{
    match instr {
        Instr::Jalr { rs1, imm, .. } => {
            Some(regs.read(*rs1).wrapping_add(extend_12(*imm)) / 2 * 2)
        }
        _ => target(instr, regs.pc()),
    }
}

/// The address to which the jump or branch of this word leads, if it stands at the pc (RISC-V Unprivileged ISA,
/// "Control Transfer Instructions"); `None` for any other word. It need be no multiple of 4.
pub fn jump_target(regs: &Regs, word: Option<u32>) -> Option<u64>
    ensures { result ≡ jump_of regs.now word }
{
    let instr = decode(word?)?;
    leads_to(regs, &instr)
}
