//! What each entry of a range list does, by section 2.17.3 of DWARF 5.

ghost use Rattle.std.specs.Prelude.{◌≡◌, ◌+◌, option_map};
ghost use Rattle.dw_model.specs.Ranges.{range, address_of, address_at};
ghost use Rattle.dw_model.specs.Answers.{Gives};
ghost use Rattle.dw_forms.specs.Tables.{tables_shown, bases_shown};
ghost use Rattle.dw_forms.specs.Value.{value_shown};
ghost use Rattle.dw_ranges.specs.Fault.{range_fault};
ghost use Rattle.dw_index.specs.Range.{range_shown};
ghost use Rattle.dw_ranges.specs.RangeEntry.{range_entry_shown};
ghost use Rattle.dw_ranges.specs.Step as model;
ghost use Rattle.dw_ranges.specs.OutcomeShown.{base_shown, outcome_shown};

use crate::fault::RangeFault;
use crate::range_entry::RangeEntry;
use dw_forms::{Bases, Tables, Value};
use dw_index::Range;

/// What is after an entry: the base in force, `None` where it can't be read, and the range that
/// the entry makes, where that counts.
#[derive(Clone, Copy, Debug)]
pub(crate) struct Outcome {
    pub base: Option<u64>,
    pub range: Option<Range>,
}

/// The range between two addresses, where it counts: its end is at most 2^64 - 1 as any address is.
pub(crate) fn range_between(begin: u64, end: u64) -> Option<Range>
    ensures { option_map range_shown result ≡ model.kept (range begin end) }
{
    if begin >= end {
        return None;
    }
    Some(Range { begin, end })
}

/// The range of `length` addresses from `begin` on, where it counts.
pub(crate) fn range_of_length(begin: u64, length: u64) -> Option<Range>
    ensures { option_map range_shown result ≡ model.kept (range begin (begin + length)) }
{
    let end = begin.checked_add(length)?;
    range_between(begin, end)
}

/// The range between two offsets from a base, where it counts.
fn range_behind(base: u64, start: u64, end: u64) -> Option<Range>
    ensures { option_map range_shown result ≡ model.kept (range (base + start) (base + end)) }
{
    let begin = base.checked_add(start)?;
    let end = base.checked_add(end)?;
    range_between(begin, end)
}

/// The address to which a value leads.
pub(crate) fn address_of<'a>(
    tables: &Tables<'a>,
    bases: &Bases,
    value: &Value<'a>,
) -> Result<u64, RangeFault>
    ensures { Gives (λ x. x) range_fault result
        (address_of (tables_shown tables.now) (bases_shown bases.now) (value_shown value.now)) }
{
    tables.address(value, bases).ok_or(RangeFault::Bad)
}

/// The address at an index.
fn address_at(tables: &Tables<'_>, bases: &Bases, index: u64) -> Result<u64, RangeFault>
    ensures { Gives (λ x. x) range_fault result (address_at (tables_shown tables.now) (bases_shown bases.now) index) }
{
    address_of(tables, bases, &Value::AddressIndex(index))
}

/// What an entry does, where the base before it is this one.
// With a known kind of entry the compiler leaves the others out.
#[tactic(auto, unfolding(crate::specs::Step::step))]
#[inline(always)]
pub(crate) fn step(
    tables: &Tables<'_>,
    bases: &Bases,
    base: Option<u64>,
    entry: RangeEntry,
) -> Result<Outcome, RangeFault>
    ensures { Gives outcome_shown range_fault result
        (model.step (tables_shown tables.now) (bases_shown bases.now) (base_shown base) (range_entry_shown entry)) }
{
    let range = match entry {
        RangeEntry::BaseAddressx(index) => {
            let base = Some(address_at(tables, bases, index)?);
            return Ok(Outcome { base, range: None });
        }
        RangeEntry::BaseAddress(address) => {
            let base = Some(address);
            return Ok(Outcome { base, range: None });
        }
        RangeEntry::StartxEndx(start, end) => {
            let begin = address_at(tables, bases, start)?;
            range_between(begin, address_at(tables, bases, end)?)
        }
        RangeEntry::StartxLength(start, length) => {
            range_of_length(address_at(tables, bases, start)?, length)
        }
        RangeEntry::OffsetPair(start, end) => {
            range_behind(base.ok_or(RangeFault::Bad)?, start, end)
        }
        RangeEntry::StartEnd(start, end) => range_between(start, end),
        RangeEntry::StartLength(start, length) => range_of_length(start, length),
    };
    Ok(Outcome { base, range })
}
