//! Why a line table can't be read, its header (section 6.2.4 of DWARF 5) or its program (6.2.5).

use crate::reasons::fields::Fields;
use crate::reasons::reason::{Field, Found, Read, Spot, Stop, Wanted};
use dw_bytes::Width;
use dw_forms::Value;
use dw_model::dwarf::{
    ADDRESS_SIZE, DW_LNCT_directory_index, DW_LNCT_path, DW_LNE_set_address, DW_LNS_advance_line,
    DW_LNS_advance_pc, DW_LNS_const_add_pc, DW_LNS_copy, DW_LNS_extended, DW_LNS_fixed_advance_pc,
    DW_LNS_negate_stmt, DW_LNS_set_basic_block, DW_LNS_set_column, DW_LNS_set_epilogue_begin,
    DW_LNS_set_file, DW_LNS_set_isa, DW_LNS_set_prologue_end, DWARF_VERSION,
};
use std::alloc::Global;

const SECTION: &str = ".debug_line";
/// The number of entries of a list.
const COUNT: &str = "the number of entries of a list";

/// A directory or a file of a line table: the value of its path, and the number of its directory.
#[derive(Clone, Copy, Debug, Default)]
pub struct FileEntry<'a> {
    pub path: Option<Value<'a>>,
    pub directory: u64,
}

/// The header of a line table, as far as paths and the program need it.
#[derive(Debug, Drop)]
pub struct LineTable<'a> {
    pub directories: Vec<FileEntry<'a>>,
    pub files: Vec<FileEntry<'a>>,
    /// The first special opcode.
    opcode_base: u8,
    /// How many operands each opcode below that has, from 1 on.
    operand_counts: &'a [u8],
    /// Where its program begins in .debug_line, and the offset just past the table.
    program: u64,
    end: u64,
}

/// Fields of the table at an offset of .debug_line, from `at` on and up to an end.
fn fields_in(section: &[u8], offset: u64, at: u64, end: u64) -> Fields<'_> {
    let bytes = section.split_at(section.len().min(end as usize)).0;
    Fields::of(Spot::At("line table", offset, SECTION), SECTION, bytes, at)
}

/// The entry of a list that is next, which has contents (DW_LNCT codes) in forms (DW_FORM codes).
fn entry_of<'a>(
    fields: &mut Fields<'a>,
    formats: &[(u64, u64)],
    width: Width,
) -> Read<FileEntry<'a>> {
    let mut path = None;
    let mut directory = None;
    for (content, form) in formats {
        let field = Field::Content(*content, *form);
        let value = Some(fields.value(field, *form, None, width)?);
        match *content {
            DW_LNCT_path => path = path.or(value),
            DW_LNCT_directory_index => directory = directory.or(value),
            _ => {}
        }
    }
    let directory = match directory {
        Some(Value::Unsigned(number)) => number,
        _ => 0,
    };
    Ok(FileEntry { path, directory })
}

/// A list of directories or of files (section 6.2.4.1).
fn list_of<'a>(alloc: Global, fields: &mut Fields<'a>, width: Width) -> Read<Vec<FileEntry<'a>>> {
    let mut formats = Vec::new(alloc);
    for _ in 0..fields.u8("the number of formats of a list")? {
        let content = fields.uleb("the content type of a format")?;
        let form = fields.uleb("the form of a format")?;
        formats.push((content, form))?;
    }
    let mut entries = Vec::new(alloc);
    for _ in 0..count_of(fields)? {
        entries.push(entry_of(fields, &formats, width)?)?;
    }
    Ok(entries)
}

/// The number of entries of a list, of which each takes a byte.
fn count_of(fields: &mut Fields<'_>) -> Read<u64> {
    let count = fields.uleb(COUNT)?;
    let left = fields.left();
    if count <= left {
        return Ok(count);
    }
    let wanted = Wanted::Left(left, "the header");
    Err(fields.spot.stop(COUNT, Found::Number(count), wanted))
}

/// The fields after header_length, where offsets have a width.
fn header_behind<'a>(alloc: Global, fields: &mut Fields<'a>, width: Width) -> Read<LineTable<'a>> {
    let _ = fields.u8("minimum_instruction_length")?;
    let operations = fields.u8("maximum_operations_per_instruction")?;
    let _ = fields.u8("default_is_stmt")?;
    let _ = fields.u8("line_base")?;
    let line_range = fields.u8("line_range")?;
    let opcode_base = fields.u8("opcode_base")?;
    let counts = u64::from(opcode_base.saturating_sub(1));
    let operand_counts = fields.take(counts, "standard_opcode_lengths")?;
    for (field, number, most, wanted) in [
        ("maximum_operations_per_instruction", operations, 1, "1"),
        ("line_range", line_range, 255, "1 at least"),
        ("opcode_base", opcode_base, 255, "1 at least"),
    ] {
        fields.check(field, u64::from(number), (1, most), wanted)?;
    }
    Ok(LineTable {
        directories: list_of(alloc, fields, width)?,
        files: list_of(alloc, fields, width)?,
        opcode_base,
        operand_counts,
        program: fields.at().saturating_add(fields.left()),
        end: 0,
    })
}

/// The header of the table at an offset of .debug_line.
pub fn line_table(alloc: Global, section: &[u8], offset: u64) -> Read<LineTable<'_>> {
    let mut fields = Fields::new("line table", SECTION, section, offset);
    let spot = fields.spot;
    spot.check_offset("DW_AT_stmt_list", offset, section, SECTION)?;
    let (length, width) = fields.length()?;
    let begin = fields.at();
    let end = begin.saturating_add(length);
    let mut fields = fields_in(section, offset, begin, end);
    // The fields of other versions are elsewhere, so nothing after the version is reported of them.
    let version = u64::from(fields.u16("version")?);
    let wanted = u64::from(DWARF_VERSION);
    fields.check("version", version, (wanted, wanted), "5")?;
    let address_size = u64::from(fields.u8("address_size")?);
    let _ = fields.u8("segment_selector_size")?;
    let header_length = fields.offset(width, "header_length")?;
    let begin = fields.at();
    let _ = fields.take(header_length, "the header, by header_length")?;
    let wanted = u64::from(ADDRESS_SIZE);
    fields.check("address_size", address_size, (wanted, wanted), "8")?;
    let mut fields = fields_in(section, offset, begin, fields.at());
    let mut table = header_behind(alloc, &mut fields, width)?;
    table.end = end;
    Ok(table)
}

/// Passes over an extended opcode, which takes exactly its length.
fn pass_extended(fields: &mut Fields<'_>) -> Read<()> {
    let at = fields.at();
    let len = fields.uleb("the length of an extended opcode")?;
    let found = Found::NumberAt(len, at);
    let bytes = fields.take(len, "an extended opcode")?;
    let Some((opcode, operands)) = bytes.split_first() else {
        return Err(fields.stop("the length of an extended opcode", found, "1 at least"));
    };
    if *opcode == DW_LNE_set_address && operands.len() != ADDRESS_SIZE as usize {
        return Err(fields.stop("the length of DW_LNE_set_address", found, "9"));
    }
    Ok(())
}

/// How many unsigned LEB128 operands an opcode has: as the standard says, or else the header.
fn operand_count(table: &LineTable<'_>, opcode: u8) -> u8 {
    match opcode {
        DW_LNS_copy
        | DW_LNS_const_add_pc
        | DW_LNS_negate_stmt
        | DW_LNS_set_basic_block
        | DW_LNS_set_prologue_end
        | DW_LNS_set_epilogue_begin => 0,
        DW_LNS_advance_pc | DW_LNS_set_file | DW_LNS_set_column | DW_LNS_set_isa => 1,
        _ => {
            let place = opcode.saturating_sub(1) as usize;
            table.operand_counts.get(place).copied().unwrap_or(0)
        }
    }
}

/// Passes over the operands of an opcode below the first special one.
fn pass_operands(fields: &mut Fields<'_>, table: &LineTable<'_>, opcode: u8) -> Read<()> {
    match opcode {
        DW_LNS_extended => pass_extended(fields)?,
        DW_LNS_advance_line => fields.pass_sleb("the operand of DW_LNS_advance_line")?,
        DW_LNS_fixed_advance_pc => {
            let _ = fields.u16("the operand of DW_LNS_fixed_advance_pc")?;
        }
        _ => {
            for _ in 0..operand_count(table, opcode) {
                let _ = fields.uleb("the operand of an opcode")?;
            }
        }
    }
    Ok(())
}

/// Why the table at an offset of .debug_line can't be read.
pub(super) fn line_reason(alloc: Global, section: &[u8], offset: u64) -> Read<()> {
    let table = line_table(alloc, section, offset)?;
    let mut fields = fields_in(section, offset, table.program, table.end);
    for _ in 0..section.len() {
        if fields.left() == 0 {
            return Ok(());
        }
        let opcode = fields.u8("an opcode")?;
        if opcode < table.opcode_base {
            pass_operands(&mut fields, &table, opcode)?;
        }
    }
    Ok(())
}
