//! Faults.
use crate::callers::Callers;
use crate::fault::FaultReport;
use crate::hints::Hint;
use crate::jumps::jump_target;
use crate::sources::ProgramSource;
use crate::text::hint::HintLine;
use crate::text::place::{Instruction, Place, Who};
use crate::unwinding::Calls;
use rv64i_core::Regs;
use std::fmt;
use uasm_text::register_name;
use xk_base::{Cause, Reg};

/// A fault: in one line the process, its program, what it was about to do and why it could not, and the instruction;
/// then its registers in the order of xv6's trapframe, four in a line; then the calls that led to it, from the last on;
/// then what may be wrong.
///
/// `process 3 (null): store to 0x0, which may not be written, at pc 0xfa8 <main+0x10>, null.c:5: sd a5, 0(a4)`
#[derive(Clone, Copy)]
pub struct FaultText<'a> {
    pub report: &'a FaultReport,
    /// The name of the process's program, where it is known.
    pub program: Option<&'a [u8]>,
    /// What is known of its source.
    pub source: ProgramSource<'a>,
}

impl<'a> fmt::Display for FaultText<'a> {
    fn fmt<W: fmt::Write>(&self, f: &mut fmt::Formatter<W>) -> fmt::Result {
        let step = &self.report.fault.step;
        let who = Who {
            pid: step.pid,
            program: self.program,
        };
        let reason = Reason(self.report);
        let instruction = Instruction {
            place: self.place(step.regs.pc()),
            word: step.word,
        };
        let registers = Registers(&step.regs);
        let calls = CallsText(&*self);
        let hint = HintLine {
            hint: self.report.hint,
            function: function_at(&self.source, step.address),
        };
        write!(
            f,
            "{who}: {reason}, at pc {instruction}{registers}{calls}{hint}"
        )
    }
}

/// The name of the function that begins at an address but 0.
fn function_at<'a>(source: &ProgramSource<'a>, address: Option<u64>) -> Option<&'a [u8]> {
    let address = address?;
    if address == 0 {
        return None;
    }
    let function = source.location(address).function?;
    if function.offset == 0 {
        Some(function.name)
    } else {
        None
    }
}

impl<'a> FaultText<'a> {
    /// An address of the program.
    fn place(&self, address: u64) -> Place<'a> {
        Place {
            address,
            source: self.source,
        }
    }

    /// A call, which stands in the four bytes before its return address, and after it whether it is a guess.
    fn write_call<W: fmt::Write>(
        &self,
        address: u64,
        guess: &str,
        f: &mut fmt::Formatter<W>,
    ) -> fmt::Result {
        let call = self.place(address.wrapping_sub(4));
        write!(f, "\n  called at {call}{guess}")
    }

    /// Calls from the last on, and after each whether it is a guess.
    fn write_calls<W: fmt::Write>(
        &self,
        addresses: &[u64],
        guess: &str,
        f: &mut fmt::Formatter<W>,
    ) -> fmt::Result {
        for &address in addresses {
            self.write_call(address, guess, f)?;
        }
        Ok(())
    }

    /// The calls that a table of call frames tells, or that it tells none.
    fn write_known<W: fmt::Write>(
        &self,
        addresses: &[u64],
        f: &mut fmt::Formatter<W>,
    ) -> fmt::Result {
        if addresses.is_empty() {
            return f.write_str(
                "\n  no call is told: by its table of call frames the stack holds none",
            );
        }
        self.write_calls(addresses, "", f)
    }

    /// The call that is told by the register ra, or that none is told.
    fn write_last_guess<W: fmt::Write>(
        &self,
        callers: &Callers,
        f: &mut fmt::Formatter<W>,
    ) -> fmt::Result {
        let has_frames = !callers.frames.as_slice().is_empty();
        // Where no instruction may be fetched, the call that led there has made no frame yet.
        let has_no_frame = self.report.fault.cause == Cause::FetchPageFault;
        match callers.ra {
            Some(address) if !has_frames => {
                let guess = ", a guess by ra alone: it may be of an earlier call";
                self.write_call(address, guess, f)
            }
            Some(address) if has_no_frame => self.write_call(address, ", a guess by ra", f),
            None if !has_frames => {
                f.write_str("\n  no call is told: s0 leads to no frame, and ra to no call")
            }
            _ => Ok(()),
        }
    }

    /// The calls that are guessed, by frame pointers and ra.
    fn write_guessed<W: fmt::Write>(
        &self,
        callers: &Callers,
        f: &mut fmt::Formatter<W>,
    ) -> fmt::Result {
        self.write_last_guess(callers, f)?;
        let guess = ", a guess by the frame pointers";
        self.write_calls(callers.frames.as_slice(), guess, f)
    }
}

/// The calls that led to a fault.
#[derive(Clone, Copy)]
struct CallsText<'a>(&'a FaultText<'a>);

impl<'a> fmt::Display for CallsText<'a> {
    fn fmt<W: fmt::Write>(&self, f: &mut fmt::Formatter<W>) -> fmt::Result {
        let text = self.0;
        match &text.report.calls {
            Calls::Known(addresses) => text.write_known(addresses.as_slice(), f),
            Calls::FromRa(addresses) => {
                text.write_calls(addresses.as_slice(), ", a guess from ra on", f)
            }
            Calls::Guessed(callers) => text.write_guessed(callers, f),
        }
    }
}

/// The registers x1 to x31, four in a line.
#[derive(Clone, Copy)]
struct Registers<'a>(&'a Regs);

impl<'a> fmt::Display for Registers<'a> {
    fn fmt<W: fmt::Write>(&self, f: &mut fmt::Formatter<W>) -> fmt::Result {
        for number in 1..32u8 {
            let end = if number % 4 == 1 { "\n  " } else { "  " };
            let register = Reg::new(number);
            let name = register_name(register);
            let value = self.0.read(register);
            write!(f, "{end}{name} {value:#x}")?;
        }
        Ok(())
    }
}

/// An address, where it is known.
#[derive(Clone, Copy)]
struct Address(Option<u64>);

impl fmt::Display for Address {
    fn fmt<W: fmt::Write>(&self, f: &mut fmt::Formatter<W>) -> fmt::Result {
        match self.0 {
            Some(address) => write!(f, "{address:#x}"),
            None => f.write_str("an address"),
        }
    }
}

/// An access, and why it may not be done.
fn write_access<W: fmt::Write>(
    access: &str,
    address: Option<u64>,
    why: &str,
    f: &mut fmt::Formatter<W>,
) -> fmt::Result {
    let address = Address(address);
    write!(f, "{access} {address}, which {why}")
}

/// Why a load or a store may not be done: the second text, if the stack is full.
fn denial(hint: Option<Hint>, plain: &'static str, full: &'static str) -> &'static str {
    match hint {
        Some(Hint::FullStack) => full,
        _ => plain,
    }
}

/// What the instruction did, and why it may not be done.
#[derive(Clone, Copy)]
struct Reason<'a>(&'a FaultReport);

impl<'a> fmt::Display for Reason<'a> {
    fn fmt<W: fmt::Write>(&self, f: &mut fmt::Formatter<W>) -> fmt::Result {
        let step = &self.0.fault.step;
        let address = step.address;
        match self.0.fault.cause {
            Cause::TargetMisaligned => {
                let target = jump_target(&step.regs, step.word);
                write_access("jump to", target, "is no multiple of 4", f)
            }
            Cause::IllegalInstruction => f.write_str(kind_of(step.word.unwrap_or(0))),
            Cause::Breakpoint => f.write_str("ebreak, with which a program gives up"),
            Cause::LoadMisaligned => {
                write_access("load from", address, "is no multiple of its size", f)
            }
            Cause::StoreMisaligned => {
                write_access("store to", address, "is no multiple of its size", f)
            }
            Cause::FetchPageFault => f.write_str("no instruction may be fetched"),
            Cause::LoadPageFault => {
                let why = denial(
                    self.0.hint,
                    "may not be read",
                    "may not be read: the stack is full",
                );
                write_access("load from", address, why, f)
            }
            Cause::StorePageFault => {
                let why = denial(
                    self.0.hint,
                    "may not be written",
                    "may not be written: the stack is full",
                );
                write_access("store to", address, why, f)
            }
        }
    }
}

/// What a word that is no instruction of the machine is by the ISA's opcodes (RISC-V Unprivileged ISA, "RV32/64G
/// Instruction Set Listings").
fn kind_of(word: u32) -> &'static str {
    if word == 0 {
        return "zeros are no instruction";
    }
    if word % 4 != 3 {
        return "an instruction of 16 bits, which RV64I does not have";
    }
    let opcode = word % 128;
    let upper = word >> 25;
    match opcode {
        0x33 | 0x3B if upper == 1 => "a multiplication or division, which RV64I does not have",
        0x2F => "an atomic instruction, which RV64I does not have",
        0x07 | 0x27 | 0x43 | 0x47 | 0x4B | 0x4F | 0x53 => {
            "an instruction of floating point, which RV64I does not have"
        }
        0x73 => "an instruction of the system, which programs may not do",
        _ => "no instruction",
    }
}
