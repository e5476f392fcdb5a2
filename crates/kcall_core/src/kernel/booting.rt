//! The kernel before its first process.
ghost use Rattle.std.specs.Prelude.{◌≡◌, None, IfOk, IfErr, map};
ghost use Rattle.hart_core.specs.declared.hart.Hart.{Hart};
ghost use Rattle.kernel_spec.specs.views.State.{named_file};
ghost use Rattle.kernel_spec.specs.views.NewKernel.{are_refused, empty_state, refusal, or_memory};
ghost use Rattle.kcall_core.specs.Starts.{IsBlank};
ghost use Rattle.kcall_core.specs.Kernel.{frame_count, IsIdle, state_of, IsSound};
ghost use Rattle.kcall_core.specs.Whole.{IsWhole};

use crate::kernel::Kernel;
use crate::kernel::program_list::first_refused;
use crate::memories::Memories;
use console_core::Console;
use file_table::Files;
use proc_table::Table;
use std::alloc::Global;
use xk_base::limits::{FRAMES_MAX, FRAMES_MIN};
use xk_base::{BootError, Pid, Program};

/// Whether RAM may not have so many frames.
fn are_refused(frames: u32) -> bool
    ensures { result ≡ are_refused frames }
{
    frames < FRAMES_MIN || frames > FRAMES_MAX
}

impl Kernel {
    /// A kernel without processes, over RAM of so many frames, all of them free. It is whole beside each
    /// hart that uses no tables.
    ///
    /// # Errors
    ///
    /// The first that stands of these: [`BootError::BadConfig`] if the number of frames is not from 16
    /// to 32,768; [`BootError::BadPrograms`] of the least program that is refused: one that has 64 before
    /// it, or a name that is empty, longer than 14 bytes, holds a slash or a zero byte, is `console` or an
    /// earlier one's, or a file of more than 1,048,576 bytes; [`BootError::Memory`] if the host has too
    /// little memory. The programs are then dropped.
    pub fn new(alloc: Global, frames: u32, programs: Vec<Program>) -> Result<Kernel, BootError>
        ensures blank { IfOk result IsBlank }
        ensures sound { IfOk result (λ k. (hart : Hart) → IsIdle hart → IsSound k hart) }
        ensures whole { IfOk result (λ k. (hart : Hart) → IsIdle hart → IsWhole k hart) }
        ensures state { IfOk result (λ k.
            (hart : Hart) → state_of k hart ≡ empty_state frames (map named_file programs.items)) }
        ensures frames { IfOk result (λ k. frame_count k ≡ frames) }
        ensures made { IfOk result (λ k. refusal frames (map named_file programs.items) ≡ None) }
        ensures refused { IfErr result (λ e. e ≡ or_memory (refusal frames (map named_file programs.items))) }
    {
        if are_refused(frames) {
            return Err(BootError::BadConfig);
        }
        if let Some(index) = first_refused(&programs) {
            return Err(BootError::BadPrograms(index));
        }
        let Ok(memories) = Memories::new(alloc, frames) else {
            return Err(BootError::Memory);
        };
        let Ok(table) = Table::new(alloc, Pid::new(1)) else {
            return Err(BootError::Memory);
        };
        let Ok(files) = Files::new(alloc) else {
            return Err(BootError::Memory);
        };
        let Ok(console) = Console::new(alloc) else {
            return Err(BootError::Memory);
        };
        Ok(Kernel {
            memories,
            table,
            files,
            console,
            programs,
            clock: 0,
            current: None,
        })
    }
}
