//! What the instructions of a line number program do to the machine's registers (DWARF 5, sections 6.2.2 and 6.2.5).
ghost use Rattle.std.specs.Prelude.{◌≡◌};
ghost use Rattle.dwarf.specs.Registers as meant;

use crate::fault::Fault;
use crate::line_header::LineHeader;
use crate::operation::Operation;
use crate::operations::operation_at;
use crate::row::Row;

/// What an instruction did.
#[derive(Clone, Copy)]
pub(crate) struct Step {
    /// The row that it made.
    pub row: Option<Row>,
    /// The registers after it.
    pub registers: Row,
    /// The place of the next instruction.
    pub next: usize,
}

impl Row {
    /// The registers at the beginning of a sequence.
    pub(crate) fn first(is_statement: bool) -> Row
        ensures { result ≡ meant.first is_statement }
    {
        Row {
            address: 0,
            file: 1,
            line: 1,
            column: 0,
            is_statement,
            basic_block: false,
            end_sequence: false,
            prologue_end: false,
            epilogue_begin: false,
            isa: 0,
            discriminator: 0,
        }
    }

    /// With the address so many of the shortest instructions later. Addresses have 64 bits.
    fn advanced(self, advance: u64, instruction_bytes: u8) -> Row
        ensures { result ≡ meant.advanced advance instruction_bytes self }
    {
        let bytes = advance.wrapping_mul(u64::from(instruction_bytes));
        Row {
            address: self.address.wrapping_add(bytes),
            ..self
        }
    }

    /// With the line so many lines later, if that is one.
    fn moved(self, lines: i64) -> Option<Row>
        ensures { result ≡ meant.moved lines self }
    {
        let line = self.line.checked_add_signed(lines)?;
        Some(Row { line, ..self })
    }

    /// With what an instruction sets, if it changes nothing but single registers.
    fn set(self, operation: Operation) -> Row
        ensures { result ≡ meant.set operation self }
    {
        match operation {
            Operation::SetFile(file) => Row { file, ..self },
            Operation::SetColumn(column) => Row { column, ..self },
            Operation::NegateStatement => Row {
                is_statement: !self.is_statement,
                ..self
            },
            Operation::BeginBlock => Row {
                basic_block: true,
                ..self
            },
            Operation::AdvanceBytes(bytes) => Row {
                address: self.address.wrapping_add(u64::from(bytes)),
                ..self
            },
            Operation::EndPrologue => Row {
                prologue_end: true,
                ..self
            },
            Operation::BeginEpilogue => Row {
                epilogue_begin: true,
                ..self
            },
            Operation::SetIsa(isa) => Row { isa, ..self },
            Operation::SetAddress(address) => Row { address, ..self },
            Operation::SetDiscriminator(discriminator) => Row {
                discriminator,
                ..self
            },
            Operation::EndSequence => Row {
                end_sequence: true,
                ..self
            },
            _ => self,
        }
    }

    /// The registers as an instruction sets them, before it makes a row.
    fn done(self, operation: Operation, instruction_bytes: u8) -> Option<Row>
        ensures { result ≡ meant.done instruction_bytes operation self }
    {
        match operation {
            Operation::Special { advance, lines } => {
                self.advanced(advance, instruction_bytes).moved(lines)
            }
            Operation::AdvanceAddress(advance) => Some(self.advanced(advance, instruction_bytes)),
            Operation::AdvanceLine(lines) => self.moved(lines),
            _ => Some(self.set(operation)),
        }
    }

    /// The registers after a row was made.
    fn settled(self, is_statement: bool) -> Row
        ensures { result ≡ meant.settled is_statement self }
    {
        if self.end_sequence {
            return Row::first(is_statement);
        }
        Row {
            basic_block: false,
            prologue_end: false,
            epilogue_begin: false,
            discriminator: 0,
            ..self
        }
    }
}

/// Whether an instruction makes a row.
fn makes_row(operation: Operation) -> bool
    ensures { result ≡ meant.makes_row operation }
{
    matches!(
        operation,
        Operation::Special { .. } | Operation::Copy | Operation::EndSequence
    )
}

/// What the instruction at a place does to the registers, and the row that it makes, if it makes one.
#[tactic(auto, unfolding(crate::specs::Registers::step))]
pub(crate) fn step_at(
    header: &LineHeader,
    bytes: &[u8],
    at: usize,
    registers: Row,
) -> Result<Step, Fault>
    ensures { result ≡ meant.step header.now bytes.now at registers }
{
    let decoded = operation_at(header, bytes, at)?;
    let Some(registers) = registers.done(decoded.operation, header.instruction_bytes) else {
        return Err(Fault::Line(at));
    };
    if makes_row(decoded.operation) {
        return Ok(Step {
            row: Some(registers),
            registers: registers.settled(header.is_statement),
            next: decoded.next,
        });
    }
    Ok(Step {
        row: None,
        registers,
        next: decoded.next,
    })
}
