//! Whether a range list has an address: it is read anew, without memory.

ghost use Rattle.std.specs.Prelude.{◌≡◌, ◌||◌, true, Some, Ok, IfSome, option_map, option_to_list};
ghost use Rattle.dw_model.specs.Answers.{Gives};
ghost use Rattle.dw_model.specs.Ranges as model;
ghost use Rattle.dw_forms.specs.Tables.{tables_shown};
ghost use Rattle.dw_index.specs.Range.{range_shown};
ghost use Rattle.dw_ranges.specs.Fault.{range_fault};
ghost use Rattle.dw_ranges.specs.Held.{Lacks, held_at, listed};
ghost use Rattle.dw_ranges.specs.Lists.{ranges_of_list};
ghost use Rattle.dw_ranges.specs.Step.{place_at};

use crate::fault::RangeFault;
use crate::list::place_at;
use crate::next_outcome::next_outcome;
use crate::range_list::{RangeList, only_addr};
use dw_bytes::Cursor;
use dw_forms::Tables;
use dw_index::Range;

/// Whether an address is held, by a range more, where there is one, or by those before it.
fn with_range(holds: bool, range: Option<Range>, a: u64) -> bool
    ensures { result ≡ (holds || model.covers a (option_to_list (option_map range_shown range))) }
{
    let Some(range) = range else {
        return holds;
    };
    holds || (range.begin <= a && a < range.end)
}

/// Whether the list that is known to lack an address is the one that begins here.
fn is_absent(absent: Option<RangeList>, tail: RangeList) -> bool
    ensures { result ≡ true → absent ≡ Some tail }
{
    match absent {
        Some(list) => list == tail,
        None => false,
    }
}

/// Whether the ranges of a list hold an address, where they can be read. It is read up to where it
/// goes on as a list that lacks the address, where one is known.
#[tactic(auto, using(crate::proofs::ListLemmas::held_steps))]
fn read_at(
    list: RangeList,
    absent: Option<RangeList>,
    tables: &Tables<'_>,
    a: u64,
) -> Result<bool, RangeFault>
    requires absent { IfSome absent (Lacks (tables_shown tables.now) a) }
    ensures { Gives (λ x. x) range_fault result (held_at a (ranges_of_list (tables_shown tables.now) list)) }
{
    let bases = only_addr(list.addr);
    let mut cursor = place_at(tables.rnglists, list.begin)?;
    let mut holds = false;
    let mut base = list.base;
    loop {
        let tail = RangeList {
            begin: cursor.at() as u64,
            base,
            addr: list.addr,
        };
        if is_absent(absent, tail) {
            return Ok(holds);
        }
        let Some(outcome) = next_outcome(&mut cursor, tables, &bases, base)? else {
            return Ok(holds);
        };
        holds = with_range(holds, outcome.range, a);
        base = outcome.base;
    }
}

/// Whether a list has a range that holds an address. A list that can't be read, by the conditions
/// of `read_list`, has none. The list is read anew, and nothing of it is kept: this takes no
/// memory. A list that can be read and lacks the address is noted in `absent`, so that a longer
/// one that ends in the same way is read up to there.
pub(crate) fn list_holds(
    list: RangeList,
    absent: &mut Option<RangeList>,
    tables: &Tables<'_>,
    a: u64,
) -> bool
    requires absent { IfSome absent.old (Lacks (tables_shown tables.now) a) }
    ensures holds { result ≡ model.covers a (listed (tables_shown tables.now) list) }
    ensures absent { IfSome absent.new (Lacks (tables_shown tables.now) a) }
{
    match read_at(list, *absent, tables, a) {
        Ok(true) => true,
        Ok(false) => {
            *absent = Some(list);
            false
        }
        Err(_) => false,
    }
}
