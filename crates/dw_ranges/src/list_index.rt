//! An index of a range list that many name: it is read once, whichever base they count from.

ghost use Rattle.std.specs.Prelude.{◌≡◌, ◌<◌, ◌≤◌, ◌^◌, ℕ, true, Option, IfOk, IfSome};
ghost use Rattle.dw_model.specs.Ranges.{covers};
ghost use Rattle.dw_model.specs.Steady.{last_address};
ghost use Rattle.dw_forms.specs.Tables.{tables_shown};
ghost use Rattle.dw_index.specs.Segments.{owner_at};
ghost use Rattle.dw_ranges.specs.ListIndex.{IsOfList, TellsSome, listed_from, ranges_by};
ghost use Rattle.dw_ranges.specs.Parts.{base_by, counts_at, is_within};
ghost use Rattle.dw_ranges.specs.PartsInside.{IsReadBy, base_for};

mod parts;

use crate::fault::RangeFault;
use crate::range_list::RangeList;
use crate::read_lists::is_same_base;
use crate::window::lesser;
use dw_forms::Tables;
use dw_index::Index;
use parts::Parts;
use std::alloc::{AllocError, Global};
use std::marker::Model;

/// From which bases a list can be read.
#[derive(Clone, Copy, Debug)]
pub(crate) enum Readable {
    /// From each, and where the base can't be read: no entry counts from it.
    Always,
    /// From each that can be read.
    WithBase,
    Never,
}

/// Whether a list holds some addresses, and where they end.
#[derive(Clone, Copy, Debug)]
pub(crate) struct Stretch {
    pub(crate) is_held: bool,
    pub(crate) until: u64,
}

/// Where the searches of an address ended in the indexes of a list. No promise rests on it.
#[derive(Clone, Copy, Debug, Default)]
pub(crate) struct Near {
    fixed: usize,
    counted: usize,
}

/// An index of a range list, whichever base it counts from. Contracts see where the list begins and
/// its place of addresses, with the tables of the file.
#[derive(Drop)]
pub struct ListIndex<'a> {
    tables: Tables<'a>,
    begin: u64,
    addr: Option<u64>,
    readable: Readable,
    /// The last base from which the list has ranges.
    last_base: Option<u64>,
    /// The ranges that are the same from each base.
    fixed: Index,
    /// Those that are counted from it, as they are from 0: the owner of each is its end.
    counted: Index,
    /// How many bytes the list takes; 0 where it can't be read.
    pub(crate) size: usize,
}

impl<'a> Model for ListIndex<'a> {
    ghost use Rattle.dw_ranges.specs.ListIndex.{IndexedList};
    ghost use Rattle.dw_ranges.specs.PartsInside.{IsListIndex, indexed_of};

    ghost Value = { IndexedList };

    ghost view = { indexed_of };

    ghost invariant = { IsListIndex };
}

/// From which bases a list can be read whose entries count from its own, or don't.
fn readable_of(is_counted: bool) -> Readable
    ensures { (base : Option ℕ) → base_for result base ≡ base_by is_counted base }
{
    if is_counted {
        return Readable::WithBase;
    }
    Readable::Always
}

/// The base from which ranges are counted of a list with a base, or with one that can't be read;
/// `None` where the list can't be read from there.
fn base_for(readable: Readable, base: Option<u64>) -> Option<u64>
    ensures from { result ≡ base_for readable base }
    ensures small { IfSome result (λ base. base < 2 ^ 64) }
{
    match readable {
        Readable::Always => Some(base.unwrap_or(0)),
        Readable::WithBase => base,
        Readable::Never => None,
    }
}

/// Whether some of the ranges that hold an offset from a base are ranges of addresses, by the least
/// of their ends: whether that, counted from the base, is an address too.
fn ends_within(end: Option<usize>, base: u64) -> bool
    ensures { result ≡ is_within base end }
{
    match end {
        Some(end) => end as u64 <= u64::MAX - base,
        None => false,
    }
}

/// Whether ranges that are counted from a base hold an address.
fn counts_at(counted: &Index, base: u64, a: u64) -> bool
    ensures { result ≡ counts_at (owner_at counted.now) base a }
{
    a >= base && ends_within(counted.find(a - base), base)
}

/// What `counts_at` says, and an address above, up to which it says the same.
fn counts_from(counted: &Index, base: u64, a: u64, near: &mut usize) -> Stretch
    requires { a < last_address }
    ensures above { a < result.until }
    ensures same { (c : ℕ) → a ≤ c → c < result.until → counts_at (owner_at counted.now) base c ≡ result.is_held }
{
    if a < base {
        return Stretch {
            is_held: false,
            until: base,
        };
    }
    let found = counted.find_from(a - base, near);
    Stretch {
        is_held: ends_within(found.owner, base),
        until: base.saturating_add(found.until),
    }
}

/// How many borders there are of ranges that are counted from a base, above one address and up to
/// another.
fn borders_in(counted: &Index, base: u64, from: u64, until: u64) -> usize {
    if until < base {
        return 0;
    }
    let passed = counted.passed(until - base, 0);
    if from < base {
        return passed;
    }
    passed.saturating_sub(counted.passed(from - base, 0))
}

impl<'a> ListIndex<'a> {
    /// The index of a list whose ranges were read.
    fn of(
        alloc: Global,
        list: RangeList,
        tables: &Tables<'a>,
        readable: Readable,
        parts: Parts,
    ) -> Result<Self, AllocError>
        requires { IsReadBy (tables_shown tables.now) list readable parts }
        ensures { IfOk result (IsOfList (tables_shown tables.now) list) }
    {
        Ok(ListIndex {
            tables: *tables,
            begin: list.begin,
            addr: list.addr,
            readable,
            last_base: parts.last_base,
            fixed: Index::build(alloc, &parts.fixed)?,
            counted: Index::build(alloc, &parts.counted)?,
            size: parts.size,
        })
    }

    /// Reads a list, where it takes no more than `most` bytes; else `None`.
    pub(crate) fn read(
        alloc: Global,
        list: RangeList,
        tables: &Tables<'a>,
        most: usize,
    ) -> Result<Option<Self>, AllocError>
        ensures { IfOk result (λ found. IfSome found (IsOfList (tables_shown tables.now) list)) }
    {
        match Parts::read(alloc, list, tables, most) {
            Ok(Some(parts)) => {
                let readable = readable_of(parts.is_counted);
                Ok(Some(ListIndex::of(alloc, list, tables, readable, parts)?))
            }
            Ok(None) => Ok(None),
            Err(RangeFault::Bad) => {
                let none = Parts::new(alloc);
                Ok(Some(ListIndex::of(alloc, list, tables, Readable::Never, none)?))
            }
            Err(RangeFault::Memory) => Err(AllocError),
        }
    }

    /// Whether a list begins there and has that place of addresses.
    pub(crate) fn is_of(&self, list: RangeList) -> bool
        ensures { result ≡ true → IsOfList self.now.tables list self.now }
    {
        self.begin == list.begin && is_same_base(self.addr, list.addr)
    }

    /// Whether the list has ranges that count from a base. The error is `Bad` by the conditions of
    /// `read_list`.
    #[tactic(auto, using(crate::proofs::IndexLemmas::told_steps))]
    pub fn has_ranges(&self, base: Option<u64>) -> Result<bool, RangeFault>
        ensures { TellsSome result (ranges_by self.now base) }
    {
        let Some(base) = base_for(self.readable, base) else {
            return Err(RangeFault::Bad);
        };
        match self.last_base {
            Some(last) => Ok(base <= last),
            None => Ok(false),
        }
    }

    /// Whether the list has a range from a base that holds an address; none where it can't be read.
    #[tactic(auto, using(crate::proofs::IndexLemmas::none_listed, crate::proofs::IndexLemmas::held))]
    pub(crate) fn holds(&self, base: Option<u64>, a: u64) -> bool
        ensures { result ≡ covers a (listed_from self.now base) }
    {
        let Some(base) = base_for(self.readable, base) else {
            return false;
        };
        self.fixed.find(a).is_some() || counts_at(&self.counted, base, a)
    }

    /// What `holds` says, and an address above, up to which it says the same. Whoever goes from one
    /// of these to the next passes the same `near`.
    #[tactic(auto, using(crate::proofs::IndexLemmas::none_listed, crate::proofs::IndexLemmas::held))]
    pub(crate) fn holds_from(&self, base: Option<u64>, a: u64, near: &mut Near) -> Stretch
        requires { a < last_address }
        ensures above { a < result.until }
        ensures same { (c : ℕ) → a ≤ c → c < result.until → covers c (listed_from self.now base) ≡ result.is_held }
    {
        let Some(base) = base_for(self.readable, base) else {
            return Stretch {
                is_held: false,
                until: u64::MAX,
            };
        };
        let counted = counts_from(&self.counted, base, a, &mut near.counted);
        let fixed = self.fixed.find_from(a, &mut near.fixed);
        Stretch {
            is_held: fixed.owner.is_some() || counted.is_held,
            until: lesser(fixed.until, counted.until),
        }
    }

    /// How many borders its ranges have from a base, above one address and up to another.
    pub(crate) fn borders(&self, base: Option<u64>, from: u64, until: u64) -> usize {
        let fixed = self
            .fixed
            .passed(until, 0)
            .saturating_sub(self.fixed.passed(from, 0));
        let Some(base) = base_for(self.readable, base) else {
            return fixed;
        };
        fixed.saturating_add(borders_in(&self.counted, base, from, until))
    }
}
