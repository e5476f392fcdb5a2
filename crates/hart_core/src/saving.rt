//! Registers in a frame: the trapframe of a process that doesn't run.
ghost use Rattle.std.specs.Prelude.{◌≡◌, ℕ, ◌%◌, ◌<◌, ◌≤◌, [], ◌∷◌, length, slice_index};
ghost use Rattle.phys_ram.specs.Ram.{frame_at, word_at, OthersStay, WordWritten};
ghost use Rattle.hart_core.specs.Trapframe.{saved};

use byteorder::{ByteOrder, LittleEndian};
use phys_ram::Ram;
use rv64i_core::Regs;
use xk_base::{Frame, FrameBytes, Reg};

// Writes a number into word `word` of a frame, which is said as frame 0 of a RAM that has no other.
#[inline(always)]
fn write_word(bytes: &mut FrameBytes, word: usize, number: u64)
    requires { word < 512 }
    ensures { WordWritten (bytes.old ∷ []) (bytes.new ∷ []) 0 word number }
{
    LittleEndian::write_u64(&mut bytes[8 * word..8 * word + 8], number);
}

// Writes registers into the bytes of a frame: the pc into word 0, and xi into word i.
fn write_registers(regs: &Regs, bytes: &mut FrameBytes)
    ensures saved { saved (bytes.new ∷ []) 0 ≡ regs.now }
    ensures aligned { word_at (bytes.new ∷ []) 0 0 % 4 ≡ 0 }
    ensures rest { (k : ℕ) → 256 ≤ k → slice_index bytes.new k ≡ slice_index bytes.old k }
{
    write_word(bytes, 0, regs.pc());
    for i in 1..32 {
        let value = regs.read(Reg::new(i as u8));
        write_word(bytes, i, value);
    }
}

/// Writes registers into a frame: the pc at byte 0, and xi at byte 8 i. The rest of the frame and all other
/// frames stay.
pub fn save_registers(regs: &Regs, ram: &mut Ram, f: Frame)
    requires { f < length ram.old }
    ensures saved { saved ram.new f ≡ regs.now }
    ensures aligned { word_at ram.new f 0 % 4 ≡ 0 }
    ensures stay { OthersStay ram.old ram.new f }
    ensures rest { (k : ℕ) → 256 ≤ k
        → slice_index (frame_at ram.new f) k ≡ slice_index (frame_at ram.old f) k }
{
    write_registers(regs, ram.frame_mut(f));
}

// The number in word `word` of a frame, which is said as frame 0 of a RAM that has no other.
#[inline(always)]
fn read_word(bytes: &FrameBytes, word: usize) -> u64
    requires { word < 512 }
    ensures { result ≡ word_at (bytes.now ∷ []) 0 word }
{
    LittleEndian::read_u64(&bytes[8 * word..])
}

// Sets registers to those that the bytes of a frame hold.
fn read_registers(regs: &mut Regs, bytes: &FrameBytes)
    requires { word_at (bytes.now ∷ []) 0 0 % 4 ≡ 0 }
    ensures { regs.new ≡ saved (bytes.now ∷ []) 0 }
{
    regs.set_pc(read_word(bytes, 0));
    for i in 1..32 {
        let value = read_word(bytes, i);
        regs.write_not_x0(Reg::new(i as u8), value);
    }
}

// Sets registers to those that a frame holds.
pub(crate) fn restore_registers(regs: &mut Regs, ram: &Ram, f: Frame)
    requires frame_in { f < length ram.now }
    requires aligned { word_at ram.now f 0 % 4 ≡ 0 }
    ensures { regs.new ≡ saved ram.now f }
{
    read_registers(regs, ram.frame(f));
}

/// The registers that a frame holds. Its first word, the pc, must be a multiple of 4, as [`save_registers`]
/// leaves it.
pub fn saved_registers(ram: &Ram, f: Frame) -> Regs
    requires frame_in { f < length ram.now }
    requires aligned { word_at ram.now f 0 % 4 ≡ 0 }
    ensures { result ≡ saved ram.now f }
{
    let mut regs = Regs::new(0);
    restore_registers(&mut regs, ram, f);
    regs
}
