//! The ranges of a list, by what they count from.

ghost use Rattle.std.specs.Prelude.{◌≡◌, ◌||◌, ℕ, true, OnOk, nat_le, option_map};
ghost use Rattle.dw_forms.specs.Tables.{tables_shown, bases_shown};
ghost use Rattle.dw_index.specs.Range.{range_shown};
ghost use Rattle.dw_ranges.specs.Parts.{own_offsets, reaches};
ghost use Rattle.dw_ranges.specs.PartsInside.{AddsEntry, AddsOne, AreParts, IsFresh, ReadsParts, kept_from};
ghost use Rattle.dw_ranges.specs.RangeEntry.{range_entry_shown};

use crate::fault::RangeFault;
use crate::list::place_at;
use crate::next_outcome::next_entry;
use crate::range_entry::RangeEntry;
use crate::range_list::{RangeList, only_addr};
use crate::step::{range_between, step};
use dw_bytes::Cursor;
use dw_forms::{Bases, Tables};
use dw_index::Range;
use std::alloc::{AllocError, Global};

/// The ranges of a list that count, by what they count from, while its entries are read.
#[derive(Drop)]
pub(crate) struct Parts {
    /// The base in force, where an entry has set it.
    base: Option<u64>,
    /// Entries count from the base before any entry sets it.
    pub(crate) is_counted: bool,
    /// The last base from which there is a range.
    pub(crate) last_base: Option<u64>,
    /// The ranges that are the same from each base.
    pub(crate) fixed: Vec<(Range, usize)>,
    /// Those that are counted from it, as they are from 0, each with its end.
    pub(crate) counted: Vec<(Range, usize)>,
    /// How many bytes were read.
    pub(crate) size: usize,
}

/// The later of a base that was found and another.
fn later(found: Option<u64>, base: u64) -> Option<u64>
    ensures { (b : ℕ) → reaches result b ≡ (reaches found b || nat_le b base) }
{
    match found {
        Some(last) => Some(if last <= base { base } else { last }),
        None => Some(base),
    }
}

/// The offsets of an entry that counts from the list's own base, as no entry has set another.
fn own_offsets(base: Option<u64>, entry: RangeEntry) -> Option<(u64, u64)>
    ensures { result ≡ own_offsets base (range_entry_shown entry) }
{
    if let Some(_) = base {
        return None;
    }
    match entry {
        RangeEntry::OffsetPair(start, end) => Some((start, end)),
        _ => None,
    }
}

impl Parts {
    /// No entry was read yet.
    pub(super) fn new(alloc: Global) -> Self
        ensures { IsFresh result }
    {
        Parts {
            base: None,
            is_counted: false,
            last_base: None,
            fixed: Vec::new(alloc),
            counted: Vec::new(alloc),
            size: 0,
        }
    }

    /// Adds the range between two offsets from the list's own base, where it counts from some.
    fn count(&mut self, start: u64, end: u64) -> Result<(), AllocError>
        ensures base { self.new.base ≡ self.old.base }
        ensures counted { self.new.is_counted ≡ true }
        ensures ranges { OnOk result (AddsOne (kept_from start end) self.old self.new) }
    {
        self.is_counted = true;
        let Some(range) = range_between(start, end) else {
            return Ok(());
        };
        self.counted.push((range, end as usize))?;
        self.last_base = later(self.last_base, u64::MAX - end);
        Ok(())
    }

    /// Adds a range that is the same from each base, where there is one.
    fn fix(&mut self, range: Option<Range>) -> Result<(), AllocError>
        ensures base { self.new.base ≡ self.old.base }
        ensures counted { self.new.is_counted ≡ self.old.is_counted }
        ensures ranges { OnOk result (AddsOne (λ _. option_map range_shown range) self.old self.new) }
    {
        let Some(range) = range else {
            return Ok(());
        };
        self.fixed.push((range, 0))?;
        self.last_base = Some(u64::MAX);
        Ok(())
    }

    /// Adds what an entry makes.
    fn add(
        &mut self,
        tables: &Tables<'_>,
        bases: &Bases,
        entry: RangeEntry,
    ) -> Result<(), RangeFault>
        ensures { AddsEntry (tables_shown tables.now) (bases_shown bases.now) (range_entry_shown entry)
            result self.old self.new }
    {
        if let Some((start, end)) = own_offsets(self.base, entry) {
            self.count(start, end)?;
            return Ok(());
        }
        let outcome = step(tables, bases, self.base, entry)?;
        self.base = outcome.base;
        self.fix(outcome.range)?;
        Ok(())
    }

    /// Reads the entries from the cursor on, where they take no more than `most` bytes.
    fn read_from(
        &mut self,
        tables: &Tables<'_>,
        bases: &Bases,
        cursor: &mut Cursor<'_>,
        most: usize,
    ) -> Result<bool, RangeFault>
        requires { IsFresh self.old }
        ensures { ReadsParts (tables_shown tables.now) (bases_shown bases.now) cursor.old result self.new }
    {
        let begin = cursor.at();
        loop {
            let found = next_entry(cursor)?;
            let size = cursor.at().saturating_sub(begin);
            if size > most {
                return Ok(false);
            }
            let Some(entry) = found else {
                self.size = size;
                return Ok(true);
            };
            self.add(tables, bases, entry)?;
        }
    }

    /// Reads a list, where it takes no more than `most` bytes; else `None`. Its own base doesn't
    /// matter. The error is `Bad` where it can't be read from any, or `Memory`.
    pub(crate) fn read(
        alloc: Global,
        list: RangeList,
        tables: &Tables<'_>,
        most: usize,
    ) -> Result<Option<Self>, RangeFault>
        ensures { AreParts (tables_shown tables.now) list result }
    {
        let bases = only_addr(list.addr);
        let mut place = place_at(tables.rnglists, list.begin)?;
        let mut parts = Parts::new(alloc);
        if parts.read_from(tables, &bases, &mut place, most)? {
            return Ok(Some(parts));
        }
        Ok(None)
    }
}
