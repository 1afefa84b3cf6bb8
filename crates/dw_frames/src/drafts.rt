//! The functions of a unit, while its entries are read.

ghost use Rattle.std.specs.Prelude.{◌≡◌, ◌≤◌, ◌+◌, ℕ, [], None, OnOk, IfOk, length, map};
ghost use Rattle.dw_index.specs.Range.{range_shown};
ghost use Rattle.dw_ranges.specs.Claims.{held_ranges, owner_in, owner_of};
ghost use Rattle.dw_units.specs.OpenUnit.{unit_of};
ghost use Rattle.dw_model.specs.Tree.{is_subprogram};
ghost use Rattle.dw_frames.specs.Drafts as model;
ghost use Rattle.dw_frames.specs.Kept.{most_listed};
ghost use Rattle.dw_frames.specs.Known.{Same, WasAdded};
ghost use Rattle.dw_frames.specs.UnitIn.{unit_in};

use crate::chains::Chains;
use dw_model::dwarf::DW_TAG_subprogram;
use dw_ranges::{Claims, ListIndexes, Listed, Owners, Range, RangeList};
use dw_units::{EntryView, OpenUnit};
use std::alloc::{AllocError, Global};
use std::marker::Model;

/// The group in which subprograms claim ranges.
pub(crate) const OUTERMOST: usize = 0;

/// That of functions inlined in none that is kept. From the next on it is that of functions inlined
/// directly in the function of a number.
pub(crate) const NOWHERE: usize = 1;

/// How many ranges of lists may be kept for a unit.
fn most_listed(unit: OpenUnit<'_, '_>) -> usize
    ensures { result ≡ most_listed (unit_of unit.entry) }
{
    let unit = unit.unit();
    unit.end.saturating_sub(unit.offset) as usize / 4
}

/// The functions of a unit, while its entries are read.
#[derive(Drop)]
pub(crate) struct Drafts<'b, 'a> {
    unit: OpenUnit<'b, 'a>,
    /// The offsets of those that have ranges, in order. The number of a function is its index here.
    functions: Vec<u64>,
    /// Their ranges.
    claims: Claims<'a>,
    /// The lists of children that are open, the outermost first: each has the group of what is
    /// inlined there.
    lists: Vec<usize>,
}

impl<'b, 'a> Model for Drafts<'b, 'a> {
    ghost use Rattle.dw_frames.specs.Drafts as model;

    ghost Value = { model.Drafts };

    ghost use Rattle.dw_frames.specs.DraftsInside.{drafts_of, IsWithin};

    ghost view = { drafts_of };

    ghost invariant = { IsWithin };
}

impl<'b, 'a> Drafts<'b, 'a> {
    /// No entry was read yet.
    pub(crate) fn new(alloc: Global, unit: OpenUnit<'b, 'a>) -> Self
        ensures { result ≡ model.no_drafts (unit_in unit.entry) }
    {
        Drafts {
            unit,
            functions: Vec::new(alloc),
            claims: Claims::new(alloc, most_listed(unit)),
            lists: Vec::new(alloc),
        }
    }

    /// Below how many entries the next one is.
    pub(crate) fn depth(&self) -> usize
        ensures { result ≡ length self.now.lists }
    {
        self.lists.len()
    }

    /// The group of what is inlined where the next entry lies.
    pub(crate) fn innermost(&self) -> usize
        ensures { result ≡ model.innermost self.now }
    {
        match self.lists.last() {
            Some(group) => *group,
            None => NOWHERE,
        }
    }

    /// The group in which the next entry claims ranges.
    pub(crate) fn group_of(&self, entry: &EntryView<'_, '_>) -> usize
        ensures { result ≡ model.group_of (is_subprogram entry.now) self.now }
    {
        if entry.tag() == DW_TAG_subprogram {
            return OUTERMOST;
        }
        self.innermost()
    }

    /// A list of children ends.
    pub(crate) fn end_list(&mut self)
        ensures { self.new ≡ model.without_list self.old }
    {
        self.lists.pop();
    }

    /// A list of children begins, where there is one, with the group of what is inlined there.
    pub(crate) fn begin_list(&mut self, children: bool, group: usize) -> Result<(), AllocError>
        ensures { OnOk result (self.new ≡ model.with_list children group self.old) }
    {
        if !children {
            return Ok(());
        }
        self.lists.push(group)?;
        Ok(())
    }

    /// One more function with its ranges: those of a list, the first of them, or one at most.
    #[inline(always)]
    pub(crate) fn add(
        &mut self,
        entry: &EntryView<'_, '_>,
        ranges: &[Range],
        list: Option<RangeList>,
        indexes: &mut ListIndexes<'a>,
    ) -> Result<(), AllocError>
        requires { list ≡ None → length ranges.now ≤ 1 }
        ensures tables { indexes.new ≡ indexes.old }
        ensures added { self.old.of.sections.tables ≡ indexes.old
            → OnOk result (WasAdded entry.now (map range_shown ranges.now) list self.old self.new) }
    {
        let number = self.functions.len();
        let group = self.group_of(entry);
        self.functions.push(entry.offset())?;
        self.claims.add(group, ranges, number, list, indexes)?;
        self.begin_list(entry.children(), number + 2)?;
        Ok(())
    }

    /// One more function, whose list is held.
    pub(crate) fn hold(
        &mut self,
        entry: &EntryView<'_, '_>,
        list: Listed<'a>,
    ) -> Result<(), AllocError>
        ensures { OnOk result (self.new
            ≡ model.with_function entry.now (held_ranges self.old.of.sections.tables list.entry) self.old) }
    {
        let number = self.functions.len();
        let group = self.group_of(entry);
        self.functions.push(entry.offset())?;
        self.claims.hold(group, list, number)?;
        self.begin_list(entry.children(), number + 2)?;
        Ok(())
    }

    /// One more function that is seen to have ranges, but owns no address: those are all an earlier
    /// one's. What lies in it lies in a function all the same.
    pub(crate) fn pass(&mut self, entry: &EntryView<'_, '_>) -> Result<(), AllocError>
        ensures { OnOk result (self.new ≡ model.with_function entry.now [] self.old) }
    {
        let number = self.functions.len();
        self.functions.push(entry.offset())?;
        self.begin_list(entry.children(), number + 2)?;
        Ok(())
    }
}

impl<'b, 'a> Drafts<'b, 'a> {
    /// The functions of the unit, all of whose entries were read.
    pub(crate) fn chains(self, alloc: Global) -> Result<Chains<'a>, AllocError>
        ensures unit { IfOk result (λ chains. chains.unit ≡ self.entry.of.index) }
        ensures functions { IfOk result (λ chains. chains.functions.items ≡ self.entry.functions) }
        ensures owners { IfOk result (λ chains. (group a : ℕ)
            → owner_of self.entry.of.sections.tables chains.owners group a ≡ owner_in self.entry.claims group a) }
        ensures few { IfOk result (λ chains. chains.owners.size
            ≤ most_listed self.entry.of.unit + length self.entry.functions) }
    {
        let Drafts {
            unit,
            functions,
            claims,
            ..
        } = self;
        Ok(Chains {
            unit: unit.index(),
            functions,
            owners: Owners::build(alloc, claims)?,
        })
    }
}
