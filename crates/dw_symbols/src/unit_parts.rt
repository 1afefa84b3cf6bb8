//! What is read of a unit: its functions, and the line table that it names.

ghost use Rattle.std.specs.Prelude.{◌≡◌, ◌<◌, ℕ, false, List, IfOk, IfSome, length, option_map};
ghost use Rattle.dw_model.specs.Unit.{is_skipped, units};
ghost use Rattle.dw_units.specs.OpenUnit.{sections_of, unit_of};
ghost use Rattle.dw_units.specs.UnitAt.{unit_at};
ghost use Rattle.dw_symbols.specs.UnitParts.{HasTree, HasLines, IsNamed, IsTable, IsTableAt, IsTurned, AreTurned};
ghost use Rattle.dw_symbols.specs.UnitParts.{named_table, directory_of};

use crate::answer::UnitFault;
use dw_forms::Value;
use dw_frames::{Tree, TreeFault};
use dw_line::{LineFault, Lines};
use dw_model::dwarf::{DW_AT_comp_dir, DW_AT_stmt_list};
use dw_ranges::ListIndexes;
use dw_units::{OpenUnit, Units};
use std::alloc::{AllocError, Global};
use std::sync::Arc;

/// The functions of a unit, or why they can't be read.
pub type UnitTree<'a> = Result<Tree<'a>, UnitFault>;

/// The line table of a unit, where the unit names one, or why it can't be read.
pub type UnitLines<'a> = Result<Option<Lines<'a>>, UnitFault>;

/// The functions of the unit at an index, which isn't skipped, or why they can't be read. The error
/// comes only where an allocation was refused.
pub fn read_tree<'a>(
    alloc: Global,
    shared: &Arc<Units<'a>>,
    index: usize,
) -> Result<UnitTree<'a>, AllocError>
    requires within { index < length (units shared.now.value.info) }
    requires kind { is_skipped (unit_at shared.now.value index).kind ≡ false }
    ensures { IfOk result (HasTree shared.now.value (unit_at shared.now.value index)) }
{
    let mut indexes = ListIndexes::new(alloc, shared.tables());
    read_tree_with(alloc, shared, index, &mut indexes)
}

/// The same, with indexes of range lists of the file that many functions name.
pub(crate) fn read_tree_with<'a>(
    alloc: Global,
    shared: &Arc<Units<'a>>,
    index: usize,
    indexes: &mut ListIndexes<'a>,
) -> Result<UnitTree<'a>, AllocError>
    requires within { index < length (units shared.now.value.info) }
    requires kind { is_skipped (unit_at shared.now.value index).kind ≡ false }
    requires tables { indexes.old ≡ shared.now.value.tables }
    ensures tables { indexes.new ≡ indexes.old }
    ensures tree { IfOk result (HasTree shared.now.value (unit_at shared.now.value index)) }
{
    match Tree::read_with(alloc, shared, index, indexes) {
        Ok(tree) => Ok(Ok(tree)),
        Err(TreeFault::Entry) => Ok(Err(UnitFault::Entry)),
        Err(TreeFault::Depth) => Ok(Err(UnitFault::Depth)),
        Err(TreeFault::Ranges) => Ok(Err(UnitFault::Ranges)),
        Err(TreeFault::Memory) => Err(AllocError),
    }
}

/// Where the line table begins in .debug_line that a unit's first entry names (DWARF 5, section
/// 3.1.1); `None` where it names none.
pub fn table_offset(unit: OpenUnit<'_, '_>) -> Option<u64>
    ensures { result ≡ named_table (sections_of unit.entry) (unit_of unit.entry) }
{
    let Some(root) = &unit.unit().root else {
        return None;
    };
    match root.attr(DW_AT_stmt_list) {
        Some(Value::SectionOffset(offset)) => Some(*offset),
        _ => None,
    }
}

/// The directory in which a unit was compiled, where its first entry tells it.
fn directory<'a>(unit: OpenUnit<'_, 'a>) -> Option<&'a [u8]>
    ensures { option_map (λ text. text.now) result ≡ directory_of (sections_of unit.entry) (unit_of unit.entry) }
{
    let Some(root) = &unit.unit().root else {
        return None;
    };
    match root.attr(DW_AT_comp_dir) {
        Some(value) => unit.text(value),
        None => None,
    }
}

/// The line table at an offset of a .debug_line, as a unit that names it sees it but for the
/// directory in which the unit was compiled; or that no unit can read it. The error comes only
/// where an allocation was refused.
pub fn read_table<'a>(
    alloc: Global,
    line: &'a [u8],
    unit: OpenUnit<'_, 'a>,
    offset: u64,
) -> Result<UnitLines<'a>, AllocError>
    ensures { IfOk result (IsTableAt line.now offset) }
{
    let tables = unit.units().tables();
    match Lines::read(alloc, line, tables, &unit.unit().bases, None, offset) {
        Ok(lines) => Ok(Ok(Some(lines))),
        Err(LineFault::Bad) => Ok(Err(UnitFault::Line)),
        Err(LineFault::Memory) => Err(AllocError),
    }
}

/// Turns a line table that was read to the one at another offset of its section, if it is seen that
/// both have the same rows.
fn turned_table<'a>(
    alloc: Global,
    gone: Option<UnitLines<'a>>,
    unit: OpenUnit<'_, 'a>,
    offset: u64,
) -> Option<Lines<'a>>
    ensures { (line : List ℕ) → IfSome gone.entry (IsTable line)
        → IfSome result (λ lines. (lines.section ≡ line) × (lines.offset ≡ offset)) }
{
    let Some(Ok(Some(lines))) = gone else {
        return None;
    };
    let mut lines = lines;
    let tables = unit.units().tables();
    if !lines.turn_to_table(alloc, tables, &unit.unit().bases, None, offset) {
        return None;
    }
    Some(lines)
}

/// The same as `read_table`, after a table went to make room for it: its program isn't run again
/// where both have the same rows.
pub(crate) fn table_after<'a>(
    alloc: Global,
    line: &'a [u8],
    unit: OpenUnit<'_, 'a>,
    offset: u64,
    gone: Option<UnitLines<'a>>,
) -> Result<UnitLines<'a>, AllocError>
    requires { IfSome gone (IsTable line.now) }
    ensures { IfOk result (IsTableAt line.now offset) }
{
    if let Some(lines) = turned_table(alloc, gone, unit, offset) {
        return Ok(Ok(Some(lines)));
    }
    read_table(alloc, line, unit, offset)
}

/// Turns a line table to a unit.
fn turn_lines<'a>(lines: &mut Lines<'a>, unit: OpenUnit<'_, 'a>)
    ensures { IsTurned (sections_of unit.entry) (unit_of unit.entry) lines.old lines.new }
{
    lines.turn_to(unit.units().tables(), &unit.unit().bases, directory(unit));
}

/// The same where there is one.
fn turn_table<'a>(table: &mut Option<Lines<'a>>, unit: OpenUnit<'_, 'a>)
    ensures { AreTurned (sections_of unit.entry) (unit_of unit.entry) table.old table.new }
{
    match table {
        Some(lines) => turn_lines(lines, unit),
        None => {}
    }
}

/// Turns the line table that a unit names to that unit, which sees its paths in its own way.
pub(crate) fn turn<'a>(read: &mut UnitLines<'a>, unit: OpenUnit<'_, 'a>)
    requires named { IsNamed (sections_of unit) (unit_of unit) read.old }
    ensures named { IsNamed (sections_of unit.entry) (unit_of unit.entry) read.new }
    ensures lines { HasLines (sections_of unit.entry) (unit_of unit.entry) read.new }
{
    match read {
        Ok(table) => turn_table(table, unit),
        Err(_) => {}
    }
}
