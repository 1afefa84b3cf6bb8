//! Entries of a unit, read one after the other, of which the functions are kept.

ghost use Rattle.std.specs.Prelude.{◌≡◌, ◌==◌, ◌∷◌, ◌⊎◌, [], ℕ, Bool, Option};
ghost use Rattle.std.specs.Prelude.{None, Some, Ok, true, false, OnOk, length, map, nat_lt};
ghost use Rattle.dw_model.specs.Results.{refuse_if};
ghost use Rattle.dw_model.specs.Faults.{depth_fault};
ghost use Rattle.dw_model.specs.Tree.{most_depth, entry_ranges_in, is_subprogram};
ghost use Rattle.dw_model.specs.Answers.{Gives};
ghost use Rattle.dw_index.specs.Range.{range_shown};
ghost use Rattle.dw_ranges.specs.ListIndex.{IsOfList};
ghost use Rattle.dw_ranges.specs.Lists.{IsOneAtMost};
ghost use Rattle.dw_ranges.specs.ReadLists.{Has};
ghost use Rattle.dw_ranges.specs.Tails.{tail_at};
ghost use Rattle.dw_model.specs.Entry.{Entry as ModelEntry};
ghost use Rattle.dw_units.specs.Entries.{IsNext};
ghost use Rattle.dw_units.specs.NamedRanges.{IsNamed};
ghost use Rattle.dw_units.specs.OpenUnit.{sections_of};
ghost use Rattle.dw_frames.specs.Fault.{tree_fault};
ghost use Rattle.dw_frames.specs.Drafts as model;
ghost use Rattle.dw_frames.specs.Known.{IsListed, Knows, ReadsList};
ghost use Rattle.dw_frames.specs.UnitIn.{unit_in};
ghost use Rattle.dw_frames.specs.Reader.{AddsFunction, Keeps};

use crate::drafts::{Drafts, NOWHERE};
use crate::fault::TreeFault;
use dw_ranges::{
    ListIndex, ListIndexes, Listed, Range, RangeFault, RangeList, ReadLists, list_of, read_list,
    read_new, read_ranges,
};
use dw_units::{Entries, EntryView, NamedRanges, Next, OpenUnit};
use std::alloc::{AllocError, Global};
use std::marker::Model;
use std::sync::Arc;

/// Below how many entries one may be.
const DEPTH: usize = 512;

/// What reads the functions of a unit. Contracts see the unit, and what is known of lists.
#[derive(Drop)]
pub(crate) struct Reader<'b, 'a> {
    pub(crate) unit: OpenUnit<'b, 'a>,
    /// The ranges of the function that was read last.
    pub(crate) ranges: Vec<Range>,
    /// The places where lists begin that have ranges and end as the list that was read last.
    pub(crate) begins: Vec<u64>,
    /// How many bytes of lists may still be read before lists are noted, or get an index: as many
    /// as the unit has, so that no look-up is paid for where few functions name one list, as in
    /// what compilers write.
    pub(crate) left: usize,
    /// The indexes of lists, which readers of other units made too.
    pub(crate) indexes: ListIndexes<'a>,
    /// The lists whose addresses earlier functions own, each with the group.
    pub(crate) owned: ReadLists,
}

impl<'b, 'a> Model for Reader<'b, 'a> {
    ghost use Rattle.dw_frames.specs.Reading.{Reading};
    ghost use Rattle.dw_frames.specs.ReaderInside.{IsReader, reading_of};

    ghost Value = { Reading };

    ghost view = { reading_of };

    ghost invariant = { IsReader };
}

/// An entry may not be too deep.
fn check_depth(depth: usize) -> Result<(), TreeFault>
    ensures { Gives (λ done. done) tree_fault result (refuse_if (nat_lt most_depth depth) depth_fault) }
{
    if depth > DEPTH {
        return Err(TreeFault::Depth);
    }
    Ok(())
}

/// Leaves out a function without ranges. What lies in it lies in no function.
fn leave_out(drafts: &mut Drafts<'_, '_>, entry: &EntryView<'_, '_>) -> Result<(), AllocError>
    ensures { OnOk result (drafts.new ≡ model.with_list entry.now.children model.nowhere drafts.old) }
{
    drafts.begin_list(entry.children(), NOWHERE)
}

/// No range of a list was read, and none of it was read before.
fn has_none(tail: Option<RangeList>, ranges: &[Range]) -> bool
    ensures none { result ≡ true → (tail ≡ None) × (map range_shown ranges.now ≡ []) }
    ensures some { result ≡ false → tail ≡ None → (length (map range_shown ranges.now) == 0) ≡ false }
{
    if let Some(_) = tail {
        return false;
    }
    ranges.is_empty()
}

impl<'b, 'a> Reader<'b, 'a> {
    /// No function of a unit was read yet.
    pub(crate) fn new(alloc: Global, unit: OpenUnit<'b, 'a>, indexes: ListIndexes<'a>) -> Self
        requires { indexes ≡ (sections_of unit).tables }
        ensures of { result.of ≡ unit_in unit.entry }
        ensures knows { Knows result (model.no_drafts (unit_in unit.entry)) }
    {
        let here = unit.unit();
        Reader {
            unit,
            ranges: Vec::new(alloc),
            begins: Vec::new(alloc),
            left: here.end.saturating_sub(here.offset) as usize,
            indexes,
            owned: ReadLists::new(alloc),
        }
    }

    /// The indexes of lists, for readers of other units.
    pub(crate) fn into_indexes(self) -> ListIndexes<'a>
        ensures { result ≡ self.entry.of.sections.tables }
    {
        self.indexes
    }

    /// Earlier functions own each address of a list in a group.
    fn is_owned(&self, list: RangeList, group: usize) -> bool
        ensures { result ≡ true → Has self.now.owned (list, group) }
    {
        self.left == 0 && self.owned.has(list, group)
    }

    /// Notes the list of a function that is kept, once lists are noted.
    fn note_owned(&mut self, list: RangeList, group: usize) -> Result<(), AllocError>
        ensures of { self.new.of ≡ self.old.of }
        ensures begins { self.new.begins ≡ self.old.begins }
        ensures owned { OnOk result ((known : _) → Has self.new.owned known
            → Has ((list, group) ∷ self.old.owned) known) }
    {
        if self.left > 0 {
            return Ok(());
        }
        self.owned.note(list, group)?;
        Ok(())
    }

    /// Notes the places where lists begin that end as the list that was read last.
    fn note_tails(&mut self, list: RangeList, group: usize) -> Result<(), AllocError>
        ensures of { self.new.of ≡ self.old.of }
        ensures owned { OnOk result ((known : _) → Has self.new.owned known
            → ((begin : ℕ) × Has self.old.begins begin × (known ≡ (tail_at list begin, group)))
            ⊎ Has self.old.owned known) }
    {
        if self.left > 0 || self.begins.is_empty() {
            return Ok(());
        }
        let size = self.unit.units().tables().rnglists.len();
        self.owned.note_tails(list, group, &self.begins, size)?;
        Ok(())
    }

    /// Makes an index of a list, so that it isn't read again.
    fn make_index(&mut self, list: RangeList) -> Result<(), AllocError>
        ensures { self.new ≡ self.old }
    {
        self.indexes.make(list)?;
        Ok(())
    }

    /// So many bytes of a list were read: where they are more than may still be, it gets an index.
    fn spend(&mut self, list: RangeList, size: usize) -> Result<(), AllocError>
        ensures { self.new ≡ self.old }
    {
        if size <= self.left {
            self.left -= size;
            return Ok(());
        }
        self.left = 0;
        self.make_index(list)
    }

    /// Notes a list without ranges, once lists are noted.
    fn note_idle(&mut self, list: RangeList) -> Result<(), AllocError>
        ensures { self.new ≡ self.old }
    {
        if self.left > 0 {
            return Ok(());
        }
        self.make_index(list)
    }

    /// Reads the ranges of a list: once lists are noted, up to where the list goes on as one that
    /// was read for an earlier function of the group, which owns the addresses from there on.
    fn read(&mut self, list: RangeList, group: usize) -> Result<Option<RangeList>, RangeFault>
        ensures { ReadsList list group self.old result self.new }
    {
        let unit = self.unit;
        let tables = unit.units().tables();
        if self.left == 0 {
            return read_new(
                &mut self.ranges,
                &mut self.begins,
                list,
                group,
                tables,
                &self.owned,
            );
        }
        self.begins.clear();
        let size = read_list(&mut self.ranges, list, tables)?;
        self.spend(list, size)?;
        Ok(None)
    }

    /// The same; a list that can't be read gets an index, so that it isn't read again.
    fn read_noted(&mut self, list: RangeList, group: usize) -> Result<Option<RangeList>, RangeFault>
        ensures { ReadsList list group self.old result self.new }
    {
        match self.read(list, group) {
            Err(RangeFault::Bad) => {
                self.make_index(list)?;
                Err(RangeFault::Bad)
            }
            read => read,
        }
    }

    /// Keeps a function whose list has an index, where the list has ranges: it isn't read.
    fn add_indexed(
        &mut self,
        drafts: &mut Drafts<'b, 'a>,
        entry: &EntryView<'_, 'a>,
        list: RangeList,
        index: Arc<ListIndex<'a>>,
    ) -> Result<(), TreeFault>
        requires index { IsOfList self.now.of.sections.tables list index.value }
        requires knows { Knows self.now drafts.now }
        requires listed { IsListed self.now.of entry.now list }
        ensures same { self.new.of ≡ self.old.of }
        ensures function { AddsFunction self.old.of entry.now result drafts.old drafts.new }
        ensures known { OnOk result (Knows self.new drafts.new) }
    {
        if !index.has_ranges(list.base)? {
            leave_out(drafts, entry)?;
            return Ok(());
        }
        let group = drafts.group_of(entry);
        drafts.hold(entry, Listed::Indexed(index, list.base))?;
        self.note_owned(list, group)?;
        Ok(())
    }

    /// Keeps a function that names a range list, where the list has ranges. A list is read once for
    /// all functions of a group: of those the first owns all its addresses.
    fn add_listed(
        &mut self,
        drafts: &mut Drafts<'b, 'a>,
        entry: &EntryView<'_, 'a>,
        list: RangeList,
    ) -> Result<(), TreeFault>
        requires knows { Knows self.now drafts.now }
        requires listed { IsListed self.now.of entry.now list }
        ensures same { self.new.of ≡ self.old.of }
        ensures function { AddsFunction self.old.of entry.now result drafts.old drafts.new }
        ensures known { OnOk result (Knows self.new drafts.new) }
    {
        let group = drafts.group_of(entry);
        if self.is_owned(list, group) {
            drafts.pass(entry)?;
            return Ok(());
        }
        if let Some(index) = self.indexes.get(list)? {
            return self.add_indexed(drafts, entry, list, index);
        }
        let tail = self.read_noted(list, group)?;
        if has_none(tail, &self.ranges) {
            self.note_idle(list)?;
            leave_out(drafts, entry)?;
            return Ok(());
        }
        drafts.add(entry, &self.ranges, Some(list), &mut self.indexes)?;
        self.note_owned(list, group)?;
        self.note_tails(list, group)?;
        Ok(())
    }

    /// Keeps a function that names no list that can be found, where it has ranges.
    fn add_bounded(
        &mut self,
        drafts: &mut Drafts<'b, 'a>,
        entry: &EntryView<'_, 'a>,
        named: &NamedRanges<'a>,
    ) -> Result<(), TreeFault>
        requires named { IsNamed named.now entry.now }
        requires one { IsOneAtMost (entry_ranges_in self.now.of.sections self.now.of.unit entry.now) }
        requires knows { Knows self.now drafts.now }
        ensures same { self.new.of ≡ self.old.of }
        ensures function { AddsFunction self.old.of entry.now result drafts.old drafts.new }
        ensures known { OnOk result (Knows self.new drafts.new) }
    {
        let unit = self.unit;
        read_ranges(&mut self.ranges, named, unit.unit(), unit.units().tables())?;
        if self.ranges.is_empty() {
            leave_out(drafts, entry)?;
            return Ok(());
        }
        drafts.add(entry, &self.ranges, None, &mut self.indexes)?;
        Ok(())
    }

    /// Keeps a function, where it has ranges. The error is `Ranges` where they can't be read, or
    /// `Memory`.
    // What keeps no function stays small.
    #[inline(never)]
    fn add_function(
        &mut self,
        drafts: &mut Drafts<'b, 'a>,
        entry: &EntryView<'_, 'a>,
    ) -> Result<(), TreeFault>
        requires { Knows self.now drafts.now }
        ensures same { self.new.of ≡ self.old.of }
        ensures function { AddsFunction self.old.of entry.now result drafts.old drafts.new }
        ensures known { OnOk result (Knows self.new drafts.new) }
    {
        let unit = self.unit;
        let named = entry.named_ranges();
        let Some(list) = list_of(&named, unit.unit(), unit.units().tables()) else {
            return self.add_bounded(drafts, entry, &named);
        };
        self.add_listed(drafts, entry, list)
    }

    /// Keeps the next entry of a walk, where it is a function that has ranges. The error is `Depth`
    /// where it is too deep, `Ranges` where it is a function whose ranges can't be read, or
    /// `Memory`.
    // Most entries are no functions: where this is inlined, they end here without a call.
    #[inline(always)]
    pub(crate) fn keep(
        &mut self,
        next: Next,
        entries: &Entries<'_, 'a>,
        drafts: &mut Drafts<'b, 'a>,
    ) -> Result<(), TreeFault>
        requires { Knows self.now drafts.now }
        ensures same { self.new.of ≡ self.old.of }
        ensures entry { (ranged : Bool) (found : Option ModelEntry) → IsNext ranged next found entries.now.last
            → Keeps self.old.of found result drafts.old drafts.new }
        ensures known { OnOk result (Knows self.new drafts.new) }
    {
        let depth = drafts.depth();
        match next {
            Next::Null => {
                drafts.end_list();
                Ok(())
            }
            Next::Passed { children } => {
                check_depth(depth)?;
                let group = drafts.innermost();
                drafts.begin_list(children, group)?;
                Ok(())
            }
            Next::Unranged { children } => {
                check_depth(depth)?;
                drafts.begin_list(children, NOWHERE)?;
                Ok(())
            }
            Next::Function => {
                check_depth(depth)?;
                let Some(entry) = entries.function() else {
                    return Err(TreeFault::Entry);
                };
                self.add_function(drafts, &entry)?;
                Ok(())
            }
        }
    }
}
