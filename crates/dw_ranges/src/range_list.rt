//! Range lists, by where they begin and what their entries count from.

ghost use Rattle.std.specs.Prelude.{◌≡◌, MatchOption, Err, map, option_map};
ghost use Rattle.dw_model.specs.Entry.{Entry as ModelEntry};
ghost use Rattle.dw_model.specs.Ranges as model;
ghost use Rattle.dw_model.specs.Answers.{GivesUnlessMemory};
ghost use Rattle.dw_model.specs.Faults.{bad};
ghost use Rattle.dw_forms.specs.Tables.{tables_shown, bases_shown};
ghost use Rattle.dw_forms.specs.Value.{value_shown};
ghost use Rattle.dw_units.specs.Entry.{entry_shown};
ghost use Rattle.dw_units.specs.NamedRanges.{IsNamed};
ghost use Rattle.dw_ranges.specs.Fault.{range_fault};
ghost use Rattle.dw_index.specs.Range.{range_shown};
ghost use Rattle.dw_ranges.specs.Lists.{IsListOf, IsOneAtMost, only_addr, ranges_of_list};
ghost use Rattle.dw_ranges.specs.Step.{all_kept};

use crate::fault::RangeFault;
use crate::list::{list_place, place_at, ranges_at};
use crate::ranges::first_base;
use dw_bytes::Width;
use dw_forms::{Bases, Tables, Value};
use dw_index::Range;
use dw_units::{Entry, NamedRanges, Unit};

/// A range list, with all that its ranges depend on: lists that are equal have the same ranges.
#[derive(Clone, Copy, Debug, PartialEq, Eq, PartialOrd, Ord)]
pub struct RangeList {
    /// Where it begins, as an offset of .debug_rnglists.
    pub begin: u64,
    /// The base before any entry sets one; `None` where it can't be read.
    pub base: Option<u64>,
    /// Where the addresses begin that entries name by index, as an offset of .debug_addr; `None`
    /// where the unit names no such place.
    pub addr: Option<u64>,
}

/// The list that a value names in a unit with these bases and this first entry; `None` where that
/// isn't within .debug_rnglists.
#[tactic(auto, using(crate::proofs::OnlyAddr::from_only, crate::proofs::ListLemmas::list_by_place))]
fn list_by<'a>(
    value: &Value<'a>,
    bases: &Bases,
    root: Option<&Entry<'a>>,
    tables: &Tables<'a>,
) -> Option<RangeList>
    ensures { MatchOption result
        (all_kept (model.list_ranges (tables_shown tables.now) (bases_shown bases.now)
        (model.first_base (tables_shown tables.now) (bases_shown bases.now)
        (option_map (λ first. entry_shown first.now) root.entry)) (value_shown value.now)) ≡ Err bad)
        (λ list. IsListOf (tables_shown tables.now) (bases_shown bases.now)
        (option_map (λ first. entry_shown first.now) root.entry) (value_shown value.now) list) }
{
    let Ok(place) = list_place(tables, bases, value) else {
        return None;
    };
    Some(RangeList {
        begin: place.at() as u64,
        base: first_base(tables, bases, root),
        addr: bases.addr,
    })
}

/// The list that the entries of a unit name that name their ranges so. `None` where they name no
/// list, so have one range at most, or one that isn't within .debug_rnglists, so can't be read.
#[inline]
pub fn list_of<'a>(
    named: &NamedRanges<'a>,
    unit: &Unit<'a>,
    tables: &Tables<'a>,
) -> Option<RangeList>
    ensures same_ranges { MatchOption result
        ((entry : ModelEntry) → IsNamed named.now entry
        → IsOneAtMost (model.ranges_of (tables_shown tables.now) (bases_shown unit.now.bases)
        (option_map entry_shown unit.now.root) entry))
        (λ list. (entry : ModelEntry) → IsNamed named.now entry
        → model.ranges_of (tables_shown tables.now) (bases_shown unit.now.bases)
        (option_map entry_shown unit.now.root) entry ≡ ranges_of_list (tables_shown tables.now) list) }
{
    let NamedRanges::List(value) = named else {
        return None;
    };
    list_by(value, &unit.bases, unit.root.as_ref(), tables)
}

/// Bases of which only that of addresses is there: the ranges of a list depend on no other.
pub(crate) fn only_addr(addr: Option<u64>) -> Bases
    ensures { bases_shown result ≡ only_addr addr }
{
    Bases {
        str_offsets: None,
        addr,
        rnglists: None,
        width: Width::Four,
    }
}

/// Reads the ranges of a list that count into `ranges`, reusing its memory, and returns how many
/// bytes the list takes. After an error any ranges may be in it.
///
/// The error is `Bad` where an address that is used can't be read, or the list has an unknown
/// entry, a number that doesn't fit 64 bits, or no end within .debug_rnglists; or `Memory`.
pub fn read_list(
    ranges: &mut Vec<Range>,
    list: RangeList,
    tables: &Tables<'_>,
) -> Result<usize, RangeFault>
    ensures { GivesUnlessMemory (λ _. map range_shown ranges.new.items) range_fault result
        (ranges_of_list (tables_shown tables.now) list) }
{
    let bases = only_addr(list.addr);
    let mut place = place_at(tables.rnglists, list.begin)?;
    let begin = place.at();
    ranges_at(ranges, tables, &bases, list.base, &mut place)?;
    Ok(place.at().saturating_sub(begin))
}
