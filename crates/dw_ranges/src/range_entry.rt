//! Entries of range lists, by section 7.25 of DWARF 5.

ghost use Rattle.std.specs.Prelude.{option_map};
ghost use Rattle.dw_model.specs.Ranges as model;
ghost use Rattle.dw_model.specs.Answers.{ReadsOn};
ghost use Rattle.dw_ranges.specs.Fault.{range_fault};
ghost use Rattle.dw_ranges.specs.RangeEntry.{range_entry_shown};
ghost use Rattle.dw_ranges.specs.NextOutcome.{entry_behind};

use crate::fault::RangeFault;
use dw_bytes::Cursor;
use dw_model::dwarf::{
    DW_RLE_base_address, DW_RLE_base_addressx, DW_RLE_end_of_list, DW_RLE_offset_pair,
    DW_RLE_start_end, DW_RLE_start_length, DW_RLE_startx_endx, DW_RLE_startx_length,
};

/// An entry of a range list, which sets the base or makes a range (table 7.30). Indexes are those
/// of addresses after the unit's base in .debug_addr.
#[derive(Clone, Copy)]
pub(crate) enum RangeEntry {
    /// The index of the base.
    BaseAddressx(u64),
    /// The indexes of begin and end.
    StartxEndx(u64, u64),
    /// The index of the begin, and how many addresses there are.
    StartxLength(u64, u64),
    /// Begin and end, counted from the base.
    OffsetPair(u64, u64),
    /// The base.
    BaseAddress(u64),
    /// Begin and end.
    StartEnd(u64, u64),
    /// The begin, and how many addresses there are.
    StartLength(u64, u64),
}

/// An operand that is an unsigned LEB128 number.
#[inline(always)]
pub(crate) fn leb(cursor: &mut Cursor<'_>) -> Result<u64, RangeFault>
    ensures { ReadsOn (λ x. x) range_fault result (model.leb cursor.old) cursor.new }
{
    let number = cursor.uleb()?;
    Ok(number)
}

/// An operand of eight bytes.
fn eight_bytes(cursor: &mut Cursor<'_>) -> Result<u64, RangeFault>
    ensures { ReadsOn (λ x. x) range_fault result (model.eight_bytes cursor.old) cursor.new }
{
    let number = cursor.u64().ok_or(RangeFault::Bad)?;
    Ok(number)
}

/// The entry of a code, whose operands are at the cursor; `None` for the one that ends a list.
pub(crate) fn entry_behind(
    cursor: &mut Cursor<'_>,
    code: u8,
) -> Result<Option<RangeEntry>, RangeFault>
    ensures { ReadsOn (option_map range_entry_shown) range_fault result (entry_behind code cursor.old) cursor.new }
{
    let entry = match code {
        DW_RLE_end_of_list => return Ok(None),
        DW_RLE_base_addressx => RangeEntry::BaseAddressx(leb(cursor)?),
        DW_RLE_startx_endx => RangeEntry::StartxEndx(leb(cursor)?, leb(cursor)?),
        DW_RLE_startx_length => RangeEntry::StartxLength(leb(cursor)?, leb(cursor)?),
        DW_RLE_offset_pair => RangeEntry::OffsetPair(leb(cursor)?, leb(cursor)?),
        DW_RLE_base_address => RangeEntry::BaseAddress(eight_bytes(cursor)?),
        DW_RLE_start_end => RangeEntry::StartEnd(eight_bytes(cursor)?, eight_bytes(cursor)?),
        DW_RLE_start_length => RangeEntry::StartLength(eight_bytes(cursor)?, leb(cursor)?),
        _ => return Err(RangeFault::Bad),
    };
    Ok(Some(entry))
}
