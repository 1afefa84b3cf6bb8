//! What the next entry of a range list does.

ghost use Rattle.std.specs.Prelude.{option_map};
ghost use Rattle.dw_model.specs.Answers.{ReadsOn};
ghost use Rattle.dw_model.specs.Ranges.{next_range_entry};
ghost use Rattle.dw_forms.specs.Tables.{tables_shown, bases_shown};
ghost use Rattle.dw_ranges.specs.Fault.{range_fault};
ghost use Rattle.dw_ranges.specs.NextOutcome as model;
ghost use Rattle.dw_ranges.specs.OutcomeShown.{base_shown, outcome_shown};
ghost use Rattle.dw_ranges.specs.RangeEntry.{range_entry_shown};

use crate::fault::RangeFault;
use crate::range_entry::{RangeEntry, entry_behind, leb};
use crate::step::{Outcome, step};
use dw_bytes::Cursor;
use dw_forms::{Bases, Tables};
use dw_model::dwarf::DW_RLE_offset_pair;

/// What an entry of any code does, whose operands are at the cursor; `None` where the code ends the
/// list. It isn't inlined, so that the loops over entries stay small.
#[inline(never)]
fn any_outcome(
    cursor: &mut Cursor<'_>,
    code: u8,
    tables: &Tables<'_>,
    bases: &Bases,
    base: Option<u64>,
) -> Result<Option<Outcome>, RangeFault>
    ensures { ReadsOn (option_map outcome_shown) range_fault result
        (model.outcome_behind (tables_shown tables.now) (bases_shown bases.now) (base_shown base) code cursor.old)
        cursor.new }
{
    let Some(entry) = entry_behind(cursor, code)? else {
        return Ok(None);
    };
    let outcome = step(tables, bases, base, entry)?;
    Ok(Some(outcome))
}

/// The next entry of a list; `None` where it ends the list.
#[tactic(auto, unfolding(dw_model::specs::Ranges::next_range_entry))]
pub(crate) fn next_entry(cursor: &mut Cursor<'_>) -> Result<Option<RangeEntry>, RangeFault>
    ensures { ReadsOn (option_map range_entry_shown) range_fault result (next_range_entry cursor.old) cursor.new }
{
    let code = cursor.u8().ok_or(RangeFault::Bad)?;
    entry_behind(cursor, code)
}

/// What the next entry of a list does, where the base before it is this one; `None` where it ends
/// the list.
#[tactic(auto, unfolding(dw_model::specs::Ranges::next_range_entry))]
#[inline(always)]
pub(crate) fn next_outcome(
    cursor: &mut Cursor<'_>,
    tables: &Tables<'_>,
    bases: &Bases,
    base: Option<u64>,
) -> Result<Option<Outcome>, RangeFault>
    ensures { ReadsOn (option_map outcome_shown) range_fault result
        (model.next_outcome (tables_shown tables.now) (bases_shown bases.now) (base_shown base) cursor.old)
        cursor.new }
{
    let code = cursor.u8().ok_or(RangeFault::Bad)?;
    if code != DW_RLE_offset_pair {
        return any_outcome(cursor, code, tables, bases, base);
    }
    // Most entries are of this kind.
    let start = leb(cursor)?;
    let end = leb(cursor)?;
    let outcome = step(tables, bases, base, RangeEntry::OffsetPair(start, end))?;
    Ok(Some(outcome))
}
