//! The machine that runs a line program, by section 6.2.2 of DWARF 5.

ghost use Rattle.std.specs.Prelude.{◌≡◌};
ghost use Rattle.dw_model.specs.Matrix as model;
ghost use Rattle.dw_line.specs.Header.{header_shown};
ghost use Rattle.dw_line.specs.Instruction.{instruction_shown};
ghost use Rattle.dw_line.specs.Registers.{registers_shown};
ghost use Rattle.dw_line.specs.Machine.{RunsToNext, registers_behind, state_at};

use crate::fault::LineFault;
use crate::header::Header;
use crate::instruction::{Instruction, next_instruction};
use crate::registers::Registers;
use dw_bytes::Cursor;

/// A row that the machine appends to the matrix: its registers, and whether it ends its sequence.
#[derive(Clone, Copy, Debug)]
pub(crate) struct Appended {
    pub(crate) registers: Registers,
    pub(crate) ends: bool,
}

impl Appended {
    /// The registers after the row: after one that ends its sequence they begin anew.
    #[inline(always)]
    pub(crate) fn registers_behind(self) -> Registers
        ensures { registers_shown result ≡ registers_behind (registers_shown self.registers) self.ends }
    {
        if self.ends {
            Registers::initial()
        } else {
            self.registers
        }
    }
}

/// Special opcodes, DW_LNS_copy and DW_LNE_end_sequence append a row.
#[inline(always)]
fn appends(instruction: Instruction) -> bool
    ensures { result ≡ model.appends (instruction_shown instruction) }
{
    matches!(
        instruction,
        Instruction::Special(_) | Instruction::AppendRow | Instruction::EndSequence
    )
}

/// DW_LNE_end_sequence.
#[inline(always)]
fn is_end(instruction: Instruction) -> bool
    ensures { result ≡ model.is_end (instruction_shown instruction) }
{
    matches!(instruction, Instruction::EndSequence)
}

/// Runs the machine from its registers and a place in the program to the next row; `None` at the
/// program's end. `Bad` where an instruction can't be read.
#[inline(always)]
pub(crate) fn next_row(
    cursor: &mut Cursor<'_>,
    header: &Header<'_>,
    registers: Registers,
) -> Result<Option<Appended>, LineFault>
    ensures { RunsToNext (header_shown header.now) (state_at registers cursor.old) result cursor.new }
{
    let mut registers = registers;
    loop {
        let Some(instruction) = next_instruction(cursor, header)? else {
            return Ok(None);
        };
        registers = registers.step(header, instruction);
        if appends(instruction) {
            let ends = is_end(instruction);
            return Ok(Some(Appended { registers, ends }));
        }
    }
}
