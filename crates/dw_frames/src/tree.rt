//! The functions of a unit, by sections 2.3, 3.3 and 7.5 of DWARF 5.

ghost use Rattle.std.specs.Prelude.{◌≡◌, ◌<◌, ◌≤◌, ◌+◌, ◌-◌, All, IfOk, IfErr, IfSome, IsSome, Some, Err, false};
ghost use Rattle.std.specs.Prelude.{length, map, option_map, option_and_then, slice_get, MatchOption};
ghost use Rattle.std.specs.Option.{option_map_or};
ghost use Rattle.dw_model.specs.Unit as cut;
ghost use Rattle.dw_model.specs.Unit.{DwarfUnit, is_skipped};
ghost use Rattle.dw_model.specs.Tree as model;
ghost use Rattle.dw_model.specs.Tree.{Node};
ghost use Rattle.dw_model.specs.Name.{name};
ghost use Rattle.dw_units.specs.UnitAt.{unit_at};
ghost use Rattle.dw_units.specs.OpenUnit.{sections_of, unit_of};
ghost use Rattle.dw_frames.specs.Call.{call_of, no_call};
ghost use Rattle.dw_frames.specs.Fault.{tree_fault};
ghost use Rattle.dw_frames.specs.Kept.{most_listed};
ghost use Rattle.dw_frames.specs.Name.{unit_entry};
ghost use Rattle.dw_frames.specs.Told.{described_shown, told_of};
ghost use Rattle.dw_frames.specs.Tree.{chain_in, function_at, function_of, most_kept, told_at, nodes_of};
ghost use Rattle.dw_frames.specs.Tree.{AreEnough};

use crate::chains::Chains;
use crate::descriptions::Descriptions;
use crate::fault::TreeFault;
use crate::function::{Call, Described, EntryId, call_of, no_call};
use crate::name::{UnitEntry, name_of};
use crate::walk::read_all;
use dw_model::dwarf::{DW_TAG_inlined_subroutine, DW_TAG_subprogram};
use dw_ranges::ListIndexes;
use dw_units::{Layouts, Units};
use std::alloc::{AllocError, Global};
use std::marker::Model;
use std::sync::Arc;

/// The functions of a unit. Contracts see the unit. It shares the units of the file with others, so
/// it lasts as long as the file's bytes.
#[derive(Drop)]
pub struct Tree<'a> {
    units: Arc<Units<'a>>,
    chains: Chains<'a>,
    /// The layouts of its declarations.
    layouts: Layouts<'a>,
    /// What was told of its functions. Contracts don't see it.
    told: Descriptions<'a>,
}

impl<'a> Model for Tree<'a> {
    ghost use Rattle.dw_frames.specs.UnitIn.{UnitIn};
    ghost use Rattle.dw_frames.specs.TreeInside.{unit_of_tree, IsTree};

    ghost Value = { UnitIn };

    ghost view = { unit_of_tree };

    ghost invariant = { IsTree };
}

impl<'a> Tree<'a> {
    /// Reads the entries of the unit at a place, which isn't skipped, in order from its first one
    /// to the end of the list below it.
    ///
    /// The error is the first in that order: `Entry` where an entry can't be read, `Depth` where
    /// one is below more than 512 others, `Ranges` where the ranges of a subprogram or an inlined
    /// subroutine can't be read; or `Memory`.
    pub fn read(alloc: Global, units: &Arc<Units<'a>>, i: usize) -> Result<Self, TreeFault>
        requires within { i < length (cut.units units.now.value.info) }
        requires kept { IfSome (slice_get (cut.units units.now.value.info) i) (λ unit. is_skipped unit.kind ≡ false) }
        ensures unit { IfOk result (λ tree. tree
            ≡ record { index = i; sections = units.now.value; unit = unit_at units.now.value i }) }
        ensures tree { IfOk result (λ tree. model.tree tree.sections tree.unit
            ≡ Ok (nodes_of tree.sections tree.unit)) }
        ensures fault { IfErr result (λ fault. MatchOption (tree_fault fault) (Unit {0})
            (λ told. model.tree units.now.value (unit_at units.now.value i) ≡ Err told)) }
    {
        let mut indexes = ListIndexes::new(alloc, units.tables());
        Tree::read_with(alloc, units, i, &mut indexes)
    }

    /// The same, with indexes of range lists of the file that many functions name: a list that has
    /// one isn't read, and others may get one.
    pub fn read_with(
        alloc: Global,
        units: &Arc<Units<'a>>,
        i: usize,
        indexes: &mut ListIndexes<'a>,
    ) -> Result<Self, TreeFault>
        requires within { i < length (cut.units units.now.value.info) }
        requires kept { IfSome (slice_get (cut.units units.now.value.info) i) (λ unit. is_skipped unit.kind ≡ false) }
        requires tables { indexes.old ≡ units.now.value.tables }
        ensures tables { indexes.new ≡ indexes.old }
        ensures unit { IfOk result (λ tree. tree
            ≡ record { index = i; sections = units.now.value; unit = unit_at units.now.value i }) }
        ensures tree { IfOk result (λ tree. model.tree tree.sections tree.unit
            ≡ Ok (nodes_of tree.sections tree.unit)) }
        ensures fault { IfErr result (λ fault. MatchOption (tree_fault fault) (Unit {0})
            (λ told. model.tree units.now.value (unit_at units.now.value i) ≡ Err told)) }
    {
        let unit = units.at(i);
        let Some(mut entries) = unit.entries(alloc) else {
            return Err(TreeFault::Entry);
        };
        let drafts = read_all(alloc, unit, &mut entries, indexes)?;
        let chains = drafts.chains(alloc)?;
        Ok(Tree {
            units: Arc::try_clone(units)?,
            chains,
            layouts: entries.into_layouts(),
            told: Descriptions::new(alloc),
        })
    }

    /// How many ranges of functions are kept, and lists of ranges are held: ranges of lists at most
    /// a quarter of the bytes of the unit, and a range or a list for each function that has ranges,
    /// of which there are at most as many as the unit's entries have bytes. So memory stays in
    /// proportion to the unit, however many functions name one long list.
    pub fn kept(&self) -> usize
        ensures functions { result ≤ most_kept self.now }
        ensures bytes { result ≤ most_listed self.now.unit + (self.now.unit.end - self.now.unit.first_entry) }
        ensures enough { AreEnough self.now result }
    {
        self.chains.owners.size()
    }

    /// The functions at an address, innermost first: the outermost is the first subprogram with a
    /// range that holds it, and each next one inwards the first that was inlined directly in the
    /// one before and has a range that holds it. Empty where no subprogram holds the address. The
    /// error comes only where an allocation was refused.
    pub fn chain(&self, alloc: Global, a: u64) -> Result<Vec<EntryId>, AllocError>
        ensures functions { IfOk result (λ ids. map (function_at self.now) ids.items ≡ map Some (chain_in self.now a)) }
        ensures told { IfOk result (λ ids. map (told_at self.now) ids.items
            ≡ map (λ node. told_of self.now.sections self.now.unit node.entry) (chain_in self.now a)) }
        ensures named { IfOk result (λ ids. All (λ id. IsSome (function_at self.now id)) ids.items) }
    {
        let mut ids = self.chains.at(alloc, self.units.tables(), a)?;
        ids.reverse();
        Ok(ids)
    }

    /// The function of an id.
    fn function(&self, id: EntryId) -> Option<UnitEntry<'_, 'a>>
        ensures function { option_map (λ found. found.entry) result ≡ function_of self.now id }
        ensures stands { (node : Node) → function_at self.now id ≡ Some node
            → function_of self.now id ≡ Some node.entry }
        ensures unit { IfSome result (λ found. unit_of found.unit ≡ self.now.unit) }
        ensures sections { IfSome result (λ found. sections_of found.unit ≡ self.now.sections) }
    {
        if id.unit != self.chains.unit {
            return None;
        }
        let unit = self.units.at(self.chains.unit);
        let entry = unit.view_by(&self.layouts, id.offset)?;
        let tag = entry.tag();
        if tag == DW_TAG_subprogram || tag == DW_TAG_inlined_subroutine {
            return Some(UnitEntry { unit, entry });
        }
        None
    }

    /// The name of a function: the text of DW_AT_linkage_name, else of DW_AT_name, of its entry, or
    /// of the first entry that has one among those to which at most 16 references lead
    /// (DW_AT_abstract_origin, or else DW_AT_specification). `None` where none of them has one, and
    /// where no function of the unit is at the offset.
    pub fn name(&self, id: EntryId) -> Option<&'a [u8]>
        ensures name { option_map (λ text. text.now) result ≡ (told_at self.now id).name }
        ensures function { (node : Node) → function_at self.now id ≡ Some node
            → option_map (λ text. text.now) result
            ≡ name self.now.sections (record { unit = self.now.unit; entry = node.entry }) }
    {
        let function = self.function(id)?;
        name_of(&function, &self.layouts)
    }

    /// Where a function was called, as its entry tells it.
    pub fn call(&self, id: EntryId) -> Call
        ensures call { result ≡ (told_at self.now id).call }
        ensures function { (node : Node) → function_at self.now id ≡ Some node → result ≡ call_of node.entry }
    {
        let Some(function) = self.function(id) else {
            return no_call();
        };
        call_of(&function.entry)
    }

    /// What is told of a function: what `name` and `call` tell of it, by one search.
    pub fn describe(&self, id: EntryId) -> Described<'a>
        ensures told { described_shown result ≡ told_at self.now id }
        ensures function { (node : Node) → function_at self.now id ≡ Some node
            → described_shown result ≡ told_of self.now.sections self.now.unit node.entry }
    {
        let Some(function) = self.function(id) else {
            return Described {
                name: None,
                call: no_call(),
            };
        };
        Described {
            name: name_of(&function, &self.layouts),
            call: call_of(&function.entry),
        }
    }

    /// Makes room to keep what is told of each function.
    fn make_room(&mut self)
        ensures { self.new ≡ self.old }
    {
        self.told.make_room(self.chains.functions.len());
    }

    /// What `describe` tells of a function. It is kept, and the entry is not read again.
    fn recall(&mut self, id: EntryId) -> Described<'a>
        ensures told { described_shown result ≡ told_at self.old id }
        ensures same { self.new ≡ self.old }
    {
        if id.unit != self.chains.unit {
            return self.describe(id);
        }
        let Ok(number) = self.chains.functions.binary_search(&id.offset) else {
            return self.describe(id);
        };
        if let Some(told) = self.told.get(number, id.offset) {
            return told;
        }
        let told = self.describe(id);
        self.told.put(number, id.offset, told);
        told
    }

    /// The functions at an address, innermost first, as `chain` finds them, with what is told of
    /// each. Descriptions are kept, where there is memory for them, and given again.
    pub fn functions(&mut self, alloc: Global, a: u64) -> Result<Vec<Described<'a>>, AllocError>
        ensures functions { IfOk result (λ found. map described_shown found.items
            ≡ map (λ node. told_of self.old.sections self.old.unit node.entry) (chain_in self.old a)) }
        ensures same { self.new ≡ self.old }
    {
        let ids = self.chain(alloc, a)?;
        let mut found = Vec::with_capacity(alloc, ids.len())?;
        self.make_room();
        for id in &ids {
            found.push(self.recall(*id))?;
        }
        Ok(found)
    }
}
