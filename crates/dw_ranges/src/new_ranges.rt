//! The ranges of a list up to where it goes on as one that was read.

ghost use Rattle.std.specs.Prelude.{◌≡◌, ◌⊎◌, ℕ, OnOk, IsSome, map};
ghost use Rattle.dw_forms.specs.Tables.{tables_shown};
ghost use Rattle.dw_index.specs.Range.{range_shown};
ghost use Rattle.dw_ranges.specs.ReadLists.{Has};
ghost use Rattle.dw_ranges.specs.Tails.{EndsAs, ReadsNew, tail_at};

use crate::fault::RangeFault;
use crate::list::{place_at, push_some};
use crate::next_outcome::next_outcome;
use crate::range_list::{RangeList, only_addr};
use crate::read_lists::{ReadLists, is_same_base};
use dw_forms::Tables;
use dw_index::Range;
use std::alloc::AllocError;

/// Adds the place where a tail begins of a list that has this base: where the base before the tail
/// is the same, and its first entry makes a range.
#[tactic(auto, using(crate::proofs::ReadLemmas::has_parts))]
fn push_begin(
    begins: &mut Vec<u64>,
    tail: RangeList,
    base: Option<u64>,
    range: Option<Range>,
) -> Result<(), AllocError>
    ensures { OnOk result ((begin : ℕ) → Has begins.new.items begin
        → ((tail.base ≡ base) × IsSome range × (tail.begin ≡ begin)) ⊎ Has begins.old.items begin) }
{
    if !is_same_base(tail.base, base) {
        return Ok(());
    }
    if let Some(_) = range {
        begins.push(tail.begin)?;
    }
    Ok(())
}

/// Reads the ranges of a list that count into `ranges`, reusing its memory, up to where the list
/// goes on as one that was read for the owner, and returns that one; `None` where it comes to its
/// end. Reads into `begins`, as offsets of .debug_rnglists, where lists begin that have ranges and
/// end as this one. After an error any may be in either.
///
/// The error is `Bad` by the conditions of `read_list`, or `Memory`.
#[tactic(auto, using(crate::proofs::ListLemmas::entry_steps))]
pub fn read_new(
    ranges: &mut Vec<Range>,
    begins: &mut Vec<u64>,
    list: RangeList,
    owner: usize,
    tables: &Tables<'_>,
    read: &ReadLists,
) -> Result<Option<RangeList>, RangeFault>
    ensures ranges { ReadsNew (tables_shown tables.now) read.now (list, owner) result
        (map range_shown ranges.new.items) }
    ensures begins { OnOk result ((begin : ℕ) → Has begins.new.items begin
        → EndsAs (tables_shown tables.now) list (tail_at list begin)) }
{
    ranges.clear();
    begins.clear();
    let bases = only_addr(list.addr);
    let mut cursor = place_at(tables.rnglists, list.begin)?;
    let mut base = list.base;
    loop {
        let tail = RangeList {
            begin: cursor.at() as u64,
            base,
            addr: list.addr,
        };
        if read.has_tail(tail, owner) {
            return Ok(Some(tail));
        }
        let Some(outcome) = next_outcome(&mut cursor, tables, &bases, base)? else {
            return Ok(None);
        };
        push_begin(begins, tail, list.base, outcome.range)?;
        push_some(ranges, outcome.range)?;
        base = outcome.base;
    }
}
