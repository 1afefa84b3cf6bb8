//! The registers of the line number machine, by section 6.2.2 of DWARF 5, as far as they are kept.

ghost use Rattle.std.specs.Prelude.{◌≡◌, ◌<◌};
ghost use Rattle.dw_model.specs.Instruction.{special};
ghost use Rattle.dw_model.specs.Matrix.{special_advance, line_advance};
ghost use Rattle.dw_model.specs.Registers as model;
ghost use Rattle.dw_line.specs.Header.{header_shown};
ghost use Rattle.dw_line.specs.Instruction.{instruction_shown};
ghost use Rattle.dw_line.specs.Registers.{registers_shown, advanced, advanced_lines};

use crate::header::Header;
use crate::instruction::Instruction;

/// The registers that are kept, and so a row of the matrix: where an address comes from. Numbers
/// run modulo 2^64.
#[derive(Clone, Copy, Debug, Default, PartialEq, Eq)]
pub(crate) struct Registers {
    pub(crate) address: u64,
    pub(crate) file: u64,
    pub(crate) line: u64,
    pub(crate) column: u64,
}

/// The address advance of a special opcode, which lies `n` above the first one, in bytes (section
/// 6.2.5.1).
#[inline(always)]
fn special_advance_of(header: &Header<'_>, n: u8) -> u64
    ensures { result ≡ special_advance (header_shown header.now) n }
{
    header.minimum_instruction_length as u64 * (n / header.line_range) as u64
}

/// The line advance of such an opcode.
#[inline(always)]
fn special_lines_of(header: &Header<'_>, n: u8) -> i64
    ensures { result ≡ line_advance (header_shown header.now) (special n) }
{
    header.line_base as i64 + (n % header.line_range) as i64
}

impl Registers {
    /// At the beginning of a sequence (table 6.4).
    pub(crate) fn initial() -> Self
        ensures { registers_shown result ≡ model.initial }
    {
        Registers {
            address: 0,
            file: 1,
            line: 1,
            column: 0,
        }
    }

    /// With so many bytes added to the address.
    #[inline(always)]
    fn advanced(self, bytes: u64) -> Self
        ensures { registers_shown result ≡ advanced bytes (registers_shown self) }
    {
        Registers {
            address: self.address.wrapping_add(bytes),
            file: self.file,
            line: self.line,
            column: self.column,
        }
    }

    /// With so many lines added to the line.
    #[inline(always)]
    fn advanced_lines(self, lines: i64) -> Self
        ensures { registers_shown result ≡ advanced_lines lines (registers_shown self) }
    {
        Registers {
            address: self.address,
            file: self.file,
            line: self.line.wrapping_add(lines.cast_unsigned()),
            column: self.column,
        }
    }

    /// The registers when the instruction is done.
    #[inline(always)]
    pub(crate) fn step(self, header: &Header<'_>, instruction: Instruction) -> Self
        ensures { registers_shown result ≡ model.step (header_shown header.now) (instruction_shown instruction)
            (registers_shown self) }
    {
        let Registers {
            address,
            file,
            line,
            column,
        } = self;
        match instruction {
            Instruction::Special(n) => self
                .advanced(special_advance_of(header, n))
                .advanced_lines(special_lines_of(header, n)),
            Instruction::AdvancePc(n) => {
                self.advanced((header.minimum_instruction_length as u64).wrapping_mul(n))
            }
            Instruction::ConstAddPc => {
                self.advanced(special_advance_of(header, 255 - header.opcode_base))
            }
            Instruction::FixedAdvancePc(n) => self.advanced(n as u64),
            Instruction::AdvanceLine(lines) => self.advanced_lines(lines),
            Instruction::SetAddress(address) => Registers {
                address,
                file,
                line,
                column,
            },
            Instruction::SetFile(file) => Registers {
                address,
                file,
                line,
                column,
            },
            Instruction::SetColumn(column) => Registers {
                address,
                file,
                line,
                column,
            },
            Instruction::AppendRow | Instruction::EndSequence | Instruction::NoEffect => self,
        }
    }
}
