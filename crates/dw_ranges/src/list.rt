//! The ranges of a range list, by sections 2.17.3 and 7.25 of DWARF 5.

ghost use Rattle.std.specs.Prelude.{◌≡◌, ◌++◌, ◌+◌, ◌*◌, OnOk, map, option_to_list};
ghost use Rattle.dw_model.specs.Text.{number_in};
ghost use Rattle.dw_model.specs.Ranges.{list_ranges};
ghost use Rattle.dw_model.specs.Answers.{Gives, GivesUnlessMemory};
ghost use Rattle.dw_bytes.specs.Width.{size_of};
ghost use Rattle.dw_forms.specs.Tables.{tables_shown, bases_shown};
ghost use Rattle.dw_forms.specs.Value.{value_shown};
ghost use Rattle.dw_ranges.specs.Fault.{range_fault};
ghost use Rattle.dw_index.specs.Range.{range_shown};
ghost use Rattle.dw_ranges.specs.Step.{all_kept, list_place, place_at, ranges_from};
ghost use Rattle.dw_ranges.specs.OutcomeShown.{base_shown};

use crate::fault::RangeFault;
use crate::next_outcome::next_outcome;
use dw_bytes::{Cursor, Width};
use dw_forms::{Bases, Tables, Value};
use dw_index::Range;
use std::alloc::AllocError;

/// The offset of a width that is at an index after the unit's base in .debug_rnglists.
fn offset_at(section: &[u8], base: u64, index: u64, width: Width) -> Option<u64>
    ensures { result ≡ number_in section.now (base + size_of width * index) (size_of width) }
{
    let passed = index.checked_mul(width.size() as u64)?;
    let offset = base.checked_add(passed)?;
    if offset > section.len() as u64 {
        return None;
    }
    Cursor::new(section.split_at(offset as usize).1).offset(width)
}

/// The place at an offset of .debug_rnglists.
pub(crate) fn place_at<'a>(section: &'a [u8], offset: u64) -> Result<Cursor<'a>, RangeFault>
    ensures { Gives (λ cursor. cursor) range_fault result (place_at section.now offset) }
{
    if offset > section.len() as u64 {
        return Err(RangeFault::Bad);
    }
    let mut cursor = Cursor::new(section);
    cursor.take(offset as usize).ok_or(RangeFault::Bad)?;
    Ok(cursor)
}

/// The place where the list begins that a value names, an offset of .debug_rnglists.
#[tactic(auto, unfolding(dw_model::specs::Ranges::list_offset))]
pub(crate) fn list_place<'a>(
    tables: &Tables<'a>,
    bases: &Bases,
    value: &Value<'a>,
) -> Result<Cursor<'a>, RangeFault>
    ensures { Gives (λ cursor. cursor) range_fault result
        (list_place (tables_shown tables.now) (bases_shown bases.now) (value_shown value.now)) }
{
    match *value {
        Value::SectionOffset(offset) => place_at(tables.rnglists, offset),
        Value::RangeIndex(index) => {
            let base = bases.rnglists.ok_or(RangeFault::Bad)?;
            let offset = offset_at(tables.rnglists, base, index, bases.width).ok_or(
                RangeFault::Bad,
            )?;
            let begin = base.checked_add(offset).ok_or(RangeFault::Bad)?;
            place_at(tables.rnglists, begin)
        }
        _ => Err(RangeFault::Bad),
    }
}

/// Adds a range where there is one.
pub(crate) fn push_some(ranges: &mut Vec<Range>, range: Option<Range>) -> Result<(), AllocError>
    ensures { OnOk result (ranges.new.items ≡ ranges.old.items ++ option_to_list range) }
{
    if let Some(range) = range {
        ranges.push(range)?;
    }
    Ok(())
}

/// Reads those ranges that count of the list at the cursor into `ranges`, reusing its memory, where
/// the base before any entry is this one.
#[tactic(auto, using(crate::proofs::ListLemmas::entry_steps))]
pub(crate) fn ranges_at(
    ranges: &mut Vec<Range>,
    tables: &Tables<'_>,
    bases: &Bases,
    first: Option<u64>,
    cursor: &mut Cursor<'_>,
) -> Result<(), RangeFault>
    ensures { GivesUnlessMemory (λ _. map range_shown ranges.new.items) range_fault result
        (ranges_from (tables_shown tables.now) (bases_shown bases.now) (base_shown first) cursor.old) }
{
    ranges.clear();
    let mut base = first;
    loop {
        let Some(outcome) = next_outcome(cursor, tables, bases, base)? else {
            return Ok(());
        };
        push_some(ranges, outcome.range)?;
        base = outcome.base;
    }
}

/// Reads the ranges of the list that a value names, those that count, into `ranges`, reusing its
/// memory.
#[tactic(auto, using(crate::proofs::ListLemmas::list_by_place))]
pub(crate) fn list_ranges<'a>(
    ranges: &mut Vec<Range>,
    tables: &Tables<'a>,
    bases: &Bases,
    first: Option<u64>,
    value: &Value<'a>,
) -> Result<(), RangeFault>
    ensures { GivesUnlessMemory (λ _. map range_shown ranges.new.items) range_fault result
        (all_kept (list_ranges (tables_shown tables.now) (bases_shown bases.now) (base_shown first)
        (value_shown value.now))) }
{
    let mut cursor = list_place(tables, bases, value)?;
    ranges_at(ranges, tables, bases, first, &mut cursor)
}
