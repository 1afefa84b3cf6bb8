//! The ranges of an entry, by section 2.17 of DWARF 5.

ghost use Rattle.std.specs.Prelude.{◌≡◌, OnOk, map, option_map, option_to_list};
ghost use Rattle.dw_model.specs.Ranges.{first_base};
ghost use Rattle.dw_model.specs.Entry.{Entry as ModelEntry};
ghost use Rattle.dw_model.specs.Ranges as model;
ghost use Rattle.dw_model.specs.Answers.{Gives, GivesUnlessMemory};
ghost use Rattle.dw_forms.specs.Tables.{tables_shown, bases_shown};
ghost use Rattle.dw_forms.specs.Value.{value_shown};
ghost use Rattle.dw_units.specs.Entry.{entry_shown};
ghost use Rattle.dw_units.specs.NamedRanges.{IsNamed};
ghost use Rattle.dw_ranges.specs.Fault.{range_fault};
ghost use Rattle.dw_index.specs.Range.{range_shown};
ghost use Rattle.dw_ranges.specs.Step.{all_kept, high_range};
ghost use Rattle.dw_ranges.specs.Named.{between_bounds, ranges_by};
ghost use Rattle.dw_ranges.specs.OutcomeShown.{base_shown};

use crate::fault::RangeFault;
use crate::list::list_ranges;
use crate::step::{address_of, range_between, range_of_length};
use dw_forms::{Bases, Tables, Value};
use dw_index::Range;
use dw_model::dwarf::DW_AT_low_pc;
use dw_units::{Entry, NamedRanges, Unit};
use std::alloc::{AllocError, Global};

/// The range from an address to what DW_AT_high_pc says, where it counts: the end's address, or how
/// many addresses there are, of which a negative number makes none.
fn high_range<'a>(
    tables: &Tables<'a>,
    bases: &Bases,
    begin: u64,
    high: &Value<'a>,
) -> Result<Option<Range>, RangeFault>
    ensures { Gives (option_map range_shown) range_fault result
        (high_range (tables_shown tables.now) (bases_shown bases.now) begin (value_shown high.now)) }
{
    match *high {
        Value::Unsigned(length) => Ok(range_of_length(begin, length)),
        Value::Signed(length) => {
            if length < 0 {
                return Ok(None);
            }
            Ok(range_of_length(begin, length as u64))
        }
        _ => {
            let end = address_of(tables, bases, high)?;
            Ok(range_between(begin, end))
        }
    }
}

/// The range between two bounds, where it counts.
fn pc_range<'a>(
    tables: &Tables<'a>,
    bases: &Bases,
    low: &Value<'a>,
    high: &Value<'a>,
) -> Result<Option<Range>, RangeFault>
    ensures { Gives (λ found. option_to_list (option_map range_shown found)) range_fault result
        (all_kept (between_bounds (tables_shown tables.now) (bases_shown bases.now) (value_shown low.now)
        (value_shown high.now))) }
{
    let begin = address_of(tables, bases, low)?;
    high_range(tables, bases, begin, high)
}

/// The base of a unit's lists before any entry sets one: the address of its first entry, else 0;
/// `None` where that address can't be read.
pub(crate) fn first_base<'a>(
    tables: &Tables<'a>,
    bases: &Bases,
    root: Option<&Entry<'a>>,
) -> Option<u64>
    ensures { base_shown result ≡ first_base (tables_shown tables.now) (bases_shown bases.now)
        (option_map (λ first. entry_shown first.now) root.entry) }
{
    let Some(first) = root else {
        return Some(0);
    };
    let Some(low) = first.attr(DW_AT_low_pc) else {
        return Some(0);
    };
    tables.address(low, bases)
}

/// Puts one range, or none, into `ranges`, reusing its memory.
fn keep_one(ranges: &mut Vec<Range>, range: Option<Range>) -> Result<(), AllocError>
    ensures { OnOk result (ranges.new.items ≡ option_to_list range) }
{
    ranges.clear();
    if let Some(range) = range {
        ranges.push(range)?;
    }
    Ok(())
}

/// The ranges of an entry of a unit that count, in order (sections 2.17 and 7.25): those of the
/// list that DW_AT_ranges names, else the one from DW_AT_low_pc to DW_AT_high_pc, where both are
/// there. Only ranges whose begin is below their end, and whose end is at most 2^64 - 1, count.
///
/// The error is `Bad` where an address that is used can't be read, or the list has an unknown
/// entry, a number that doesn't fit 64 bits, or no end within .debug_rnglists; or `Memory`.
pub fn ranges_of<'a>(
    alloc: Global,
    entry: &Entry<'a>,
    unit: &Unit<'a>,
    tables: &Tables<'a>,
) -> Result<Vec<Range>, RangeFault>
    ensures { GivesUnlessMemory (λ ranges. map range_shown ranges.items) range_fault result
        (model.ranges_of (tables_shown tables.now) (bases_shown unit.now.bases)
        (option_map entry_shown unit.now.root) (entry_shown entry.now)) }
{
    let mut ranges = Vec::new(alloc);
    match read_ranges(&mut ranges, &entry.named_ranges(), unit, tables) {
        Ok(()) => Ok(ranges),
        Err(fault) => Err(fault),
    }
}

/// Reads the ranges of the entries of a unit that name them so into `ranges`, reusing its memory.
/// After an error any ranges may be in it.
#[tactic(auto, using(crate::proofs::NamedLemmas::by_named))]
pub fn read_ranges<'a>(
    ranges: &mut Vec<Range>,
    named: &NamedRanges<'a>,
    unit: &Unit<'a>,
    tables: &Tables<'a>,
) -> Result<(), RangeFault>
    ensures { (entry : ModelEntry) → IsNamed named.now entry
        → GivesUnlessMemory (λ _. map range_shown ranges.new.items) range_fault result
        (model.ranges_of (tables_shown tables.now) (bases_shown unit.now.bases)
        (option_map entry_shown unit.now.root) entry) }
{
    read_named(ranges, named, &unit.bases, unit.root.as_ref(), tables)
}

/// Reads the ranges that are named so in a unit with these bases and this first entry into
/// `ranges`, reusing its memory.
fn read_named<'a>(
    ranges: &mut Vec<Range>,
    named: &NamedRanges<'a>,
    bases: &Bases,
    root: Option<&Entry<'a>>,
    tables: &Tables<'a>,
) -> Result<(), RangeFault>
    ensures { GivesUnlessMemory (λ _. map range_shown ranges.new.items) range_fault result
        (ranges_by (tables_shown tables.now) (bases_shown bases.now)
        (option_map (λ first. entry_shown first.now) root.entry) named.now) }
{
    match *named {
        NamedRanges::List(list) => {
            let base = first_base(tables, bases, root);
            list_ranges(ranges, tables, bases, base, &list)
        }
        NamedRanges::Bounds { low, high } => {
            let range = pc_range(tables, bases, &low, &high)?;
            keep_one(ranges, range)?;
            Ok(())
        }
        NamedRanges::Nothing => {
            ranges.clear();
            Ok(())
        }
    }
}
