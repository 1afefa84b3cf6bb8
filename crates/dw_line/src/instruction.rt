//! The instructions of a line program, by section 6.2.5 of DWARF 5.

ghost use Rattle.std.specs.Prelude.{◌≡◌, ◌-◌, option_map, nat_eq, slice_index};
ghost use Rattle.std.specs.Map.{lookup};
ghost use Rattle.dw_model.specs.Instruction.{standard_opcodes, unknown_at, extended, extended_at, standard_at};
ghost use Rattle.dw_model.specs.Instruction.{opcode_at};
ghost use Rattle.dw_model.specs.Instruction as model;
ghost use Rattle.dw_model.specs.Answers.{Gives, ReadsOn};
ghost use Rattle.dw_line.specs.Fault.{line_fault};
ghost use Rattle.dw_line.specs.Header.{header_shown};
ghost use Rattle.dw_line.specs.Instruction.{instruction_shown};

use crate::fault::LineFault;
use crate::header::Header;
use crate::numbers::{sleb, uleb};
use dw_bytes::Cursor;
use dw_model::dwarf::{
    ADDRESS_SIZE, DW_LNE_end_sequence, DW_LNE_set_address, DW_LNS_advance_line, DW_LNS_advance_pc,
    DW_LNS_const_add_pc, DW_LNS_copy, DW_LNS_extended, DW_LNS_fixed_advance_pc, DW_LNS_negate_stmt,
    DW_LNS_set_basic_block, DW_LNS_set_column, DW_LNS_set_epilogue_begin, DW_LNS_set_file,
    DW_LNS_set_isa, DW_LNS_set_prologue_end,
};

/// An instruction, as far as it bears on the registers that are kept: address, file, line and
/// column.
#[derive(Clone, Copy, Debug, PartialEq, Eq)]
pub(crate) enum Instruction {
    /// How far the special opcode lies above the first one.
    Special(u8),
    AppendRow,
    AdvancePc(u64),
    AdvanceLine(i64),
    SetFile(u64),
    SetColumn(u64),
    ConstAddPc,
    FixedAdvancePc(u16),
    EndSequence,
    SetAddress(u64),
    NoEffect,
}

/// Passes over `count` operands of an opcode that the standard doesn't name.
#[tactic(auto, unfolding(dw_model::specs::Instruction::unknown_at))]
#[inline(never)]
fn unknown(cursor: &mut Cursor<'_>, count: u8) -> Result<Instruction, LineFault>
    ensures { ReadsOn instruction_shown line_fault result (unknown_at count cursor.old) cursor.new }
{
    for _ in 0..count {
        let _operand = uleb(cursor)?;
    }
    Ok(Instruction::NoEffect)
}

/// What an extended opcode does by its bytes (section 6.2.5.3).
#[tactic(auto, unfolding(dw_model::specs::Instruction::extended))]
#[inline(always)]
fn extended_of(bytes: &[u8]) -> Result<Instruction, LineFault>
    ensures { Gives instruction_shown line_fault result (extended bytes.now) }
{
    let Some((opcode, operands)) = bytes.split_first() else {
        return Err(LineFault::Bad);
    };
    match *opcode {
        DW_LNE_end_sequence => Ok(Instruction::EndSequence),
        DW_LNE_set_address => {
            if operands.len() != ADDRESS_SIZE as usize {
                return Err(LineFault::Bad);
            }
            let address = Cursor::new(operands).u64().ok_or(LineFault::Bad)?;
            Ok(Instruction::SetAddress(address))
        }
        _ => Ok(Instruction::NoEffect),
    }
}

/// An extended opcode, which takes exactly its length.
#[tactic(auto, unfolding(dw_model::specs::Instruction::extended_at))]
#[inline(always)]
fn extended_opcode(cursor: &mut Cursor<'_>) -> Result<Instruction, LineFault>
    ensures { ReadsOn instruction_shown line_fault result (extended_at cursor.old) cursor.new }
{
    let len = uleb(cursor)?;
    let bytes = cursor.take(len as usize).ok_or(LineFault::Bad)?;
    extended_of(bytes)
}

/// The same of an opcode. They are read by a cursor of their own, so that the machine's, of which
/// no address is taken, is kept in registers.
#[inline(always)]
fn unknown_behind(
    cursor: &mut Cursor<'_>,
    header: &Header<'_>,
    opcode: u8,
) -> Result<Instruction, LineFault>
    ensures { ReadsOn instruction_shown line_fault result
        (unknown_at (slice_index (header_shown header.now).standard_opcode_lengths (opcode - 1)) cursor.old)
        cursor.new }
{
    let count = operand_count(header.standard_opcode_lengths, opcode);
    let mut operands = cursor.fork();
    let instruction = unknown(&mut operands, count)?;
    *cursor = operands;
    Ok(instruction)
}

/// The rest of an instruction after a standard opcode (section 6.2.5.2). One that the standard
/// doesn't name has as many operands as the header says.
#[inline(always)]
fn standard_opcode(
    cursor: &mut Cursor<'_>,
    header: &Header<'_>,
    opcode: u8,
) -> Result<Instruction, LineFault>
    ensures { ReadsOn instruction_shown line_fault result
        (standard_at (header_shown header.now) opcode (lookup (nat_eq opcode) standard_opcodes) cursor.old) cursor.new }
{
    match opcode {
        DW_LNS_copy => Ok(Instruction::AppendRow),
        DW_LNS_advance_pc => Ok(Instruction::AdvancePc(uleb(cursor)?)),
        DW_LNS_advance_line => Ok(Instruction::AdvanceLine(sleb(cursor)?)),
        DW_LNS_set_file => Ok(Instruction::SetFile(uleb(cursor)?)),
        DW_LNS_set_column => Ok(Instruction::SetColumn(uleb(cursor)?)),
        DW_LNS_const_add_pc => Ok(Instruction::ConstAddPc),
        DW_LNS_fixed_advance_pc => {
            let advance = cursor.u16().ok_or(LineFault::Bad)?;
            Ok(Instruction::FixedAdvancePc(advance))
        }
        DW_LNS_set_isa => {
            let _isa = uleb(cursor)?;
            Ok(Instruction::NoEffect)
        }
        DW_LNS_negate_stmt
        | DW_LNS_set_basic_block
        | DW_LNS_set_prologue_end
        | DW_LNS_set_epilogue_begin => Ok(Instruction::NoEffect),
        _ => unknown_behind(cursor, header, opcode),
    }
}

/// How many operands the header gives an opcode.
fn operand_count(lengths: &[u8], opcode: u8) -> u8
    ensures { result ≡ slice_index lengths.now (opcode - 1) }
{
    let place = opcode.saturating_sub(1) as usize;
    match lengths.get(place) {
        Some(count) => *count,
        None => 0,
    }
}

/// The rest of an instruction after its opcode.
#[tactic(auto, unfolding(dw_model::specs::Instruction::opcode_at))]
#[inline(always)]
fn opcode_of(
    cursor: &mut Cursor<'_>,
    header: &Header<'_>,
    opcode: u8,
) -> Result<Instruction, LineFault>
    ensures { ReadsOn instruction_shown line_fault result
        (opcode_at (header_shown header.now) opcode cursor.old) cursor.new }
{
    if opcode >= header.opcode_base {
        return Ok(Instruction::Special(opcode - header.opcode_base));
    }
    if opcode == DW_LNS_extended {
        return extended_opcode(cursor);
    }
    standard_opcode(cursor, header, opcode)
}

/// The next instruction of a program; `None` at its end.
#[tactic(auto, unfolding(dw_model::specs::Instruction::next_instruction))]
#[inline(always)]
pub(crate) fn next_instruction(
    cursor: &mut Cursor<'_>,
    header: &Header<'_>,
) -> Result<Option<Instruction>, LineFault>
    ensures { ReadsOn (option_map instruction_shown) line_fault result
        (model.next_instruction (header_shown header.now) cursor.old) cursor.new }
{
    if cursor.left() == 0 {
        return Ok(None);
    }
    let opcode = cursor.u8().ok_or(LineFault::Bad)?;
    let instruction = opcode_of(cursor, header, opcode)?;
    Ok(Some(instruction))
}
