//! Reading the header of a line table, by section 6.2.4 of DWARF 5.

ghost use Rattle.std.specs.Prelude.{◌<◌};
ghost use Rattle.dw_model.specs.LineHeader.{fields_at, table_behind, line_header};
ghost use Rattle.dw_model.specs.Text as model;
ghost use Rattle.dw_model.specs.Answers.{GivesUnlessMemory};
ghost use Rattle.dw_bytes.specs.Width.{size_of};
ghost use Rattle.dw_line.specs.Fault.{line_fault};
ghost use Rattle.dw_line.specs.Header.{header_in};

use crate::entries::entry_list_of;
use crate::fault::LineFault;
use crate::header::{Header, TableBytes, table_at};
use dw_bytes::{Cursor, Width};
use dw_model::dwarf::{ADDRESS_SIZE, DWARF_VERSION};
use std::alloc::Global;

/// The fields after header_length, where offsets have a width; `program` is what is after the
/// header.
#[tactic(auto, unfolding(dw_model::specs::LineHeader::fields_at))]
fn fields_of<'a>(
    alloc: Global,
    program: &'a [u8],
    cursor: &mut Cursor<'a>,
    width: Width,
) -> Result<Header<'a>, LineFault>
    ensures { (tables : model.Tables) (bases : model.Bases)
        → GivesUnlessMemory (header_in tables bases) line_fault result
        (fields_at tables bases (size_of width) program.now cursor.old) }
{
    let minimum_instruction_length = cursor.u8().ok_or(LineFault::Bad)?;
    let maximum_operations_per_instruction = cursor.u8().ok_or(LineFault::Bad)?;
    let _default_is_stmt = cursor.u8().ok_or(LineFault::Bad)?;
    let line_base = cursor.u8().ok_or(LineFault::Bad)?.cast_signed();
    let line_range = cursor.u8().ok_or(LineFault::Bad)?;
    let opcode_base = cursor.u8().ok_or(LineFault::Bad)?;
    let operands = opcode_base.saturating_sub(1) as usize;
    let standard_opcode_lengths = cursor.take(operands).ok_or(LineFault::Bad)?;
    if maximum_operations_per_instruction != 1 {
        return Err(LineFault::Bad);
    }
    if line_range == 0 || opcode_base == 0 {
        return Err(LineFault::Bad);
    }
    let directories = entry_list_of(alloc, cursor, width)?;
    let files = entry_list_of(alloc, cursor, width)?;
    Ok(Header {
        minimum_instruction_length,
        line_base,
        line_range,
        opcode_base,
        standard_opcode_lengths,
        directories,
        files,
        program,
    })
}

/// The table whose bytes after its length these are, where offsets have a width.
#[tactic(auto, unfolding(dw_model::specs::LineHeader::table_behind))]
fn table_of<'a>(
    alloc: Global,
    cursor: &mut Cursor<'a>,
    width: Width,
) -> Result<Header<'a>, LineFault>
    ensures { (tables : model.Tables) (bases : model.Bases)
        → GivesUnlessMemory (header_in tables bases) line_fault result
        (table_behind tables bases (size_of width) cursor.old) }
{
    let version = cursor.u16().ok_or(LineFault::Bad)?;
    let address_size = cursor.u8().ok_or(LineFault::Bad)?;
    let _segment_selector_size = cursor.u8().ok_or(LineFault::Bad)?;
    let header_length = cursor.offset(width).ok_or(LineFault::Bad)?;
    let header = cursor.take(header_length as usize).ok_or(LineFault::Bad)?;
    if version != DWARF_VERSION {
        return Err(LineFault::Bad);
    }
    if address_size != ADDRESS_SIZE {
        return Err(LineFault::Bad);
    }
    let Some(program) = cursor.take(cursor.left()) else {
        return Err(LineFault::Bad);
    };
    let mut fields = Cursor::new(header);
    fields_of(alloc, program, &mut fields, width)
}

/// The header of the table at an offset of .debug_line, in the format of the table's own length.
#[tactic(auto, using(crate::proofs::HeaderLemmas::header_behind))]
pub(crate) fn header_at<'a>(
    alloc: Global,
    section: &'a [u8],
    offset: u64,
) -> Result<Header<'a>, LineFault>
    ensures { (tables : model.Tables) (bases : model.Bases)
        → GivesUnlessMemory (header_in tables bases) line_fault result
        (line_header tables bases section.now offset) }
{
    let TableBytes { bytes, width, .. } = table_at(section, offset).ok_or(LineFault::Bad)?;
    table_of(alloc, &mut Cursor::new(bytes), width)
}
