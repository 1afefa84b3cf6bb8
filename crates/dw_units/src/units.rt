//! The units of a file, in order of offset.

ghost use Rattle.std.specs.Prelude.{◌≡◌, ◌≤◌, ◌<◌, true, false, nat_le, option_and_then, None, OnOk, IfOk, IfErr};
ghost use Rattle.std.specs.Prelude.{ℕ, List, IfSome, MatchOption, Some, length, option_map, slice_get};
ghost use Rattle.std.specs.List.Sorted.{IsNonDecreasingBy, IsPartitionPoint};
ghost use Rattle.dw_model.specs.Abbrev.{Declaration};
ghost use Rattle.dw_model.specs.Section as model_sections;
ghost use Rattle.dw_model.specs.Unit.{units};
ghost use Rattle.dw_model.specs.Name.{holding};
ghost use Rattle.dw_model.specs.Root as model;
ghost use Rattle.dw_elf.specs.OpenFault.{RefusesUnlessMemory};
ghost use Rattle.dw_forms.specs.Fault.{HidesNoFault};
ghost use Rattle.dw_forms.specs.Table.{declarations_of};
ghost use Rattle.dw_forms.specs.Tables.{bases_shown, tables_shown};
ghost use Rattle.dw_units.specs.Entry.{entry_shown, FindsEntry};
ghost use Rattle.dw_units.specs.Unit.{unit_shown, HasFirst, TellsAtUnit};
ghost use Rattle.dw_units.specs.Null.{IsNull, IsPastNull};
ghost use Rattle.dw_units.specs.UnitAt.{unit_at, HasNoEntry, HasEntriesBy};
ghost use Rattle.dw_units.specs.Sections.{sections_shown};

use crate::entry::Entry;
use crate::header::piece;
use crate::sections::Sections;
use crate::unit::{Unit, open_unit};
use dw_bytes::Cursor;
use dw_elf::{Elf, OpenFault};
use dw_forms::{AbbrevStore, AbbrevTable, FormFault, Tables};
use std::alloc::Global;
use std::marker::Model;

/// The units of a file, in order of offset. Contracts see them as the sections of the file.
#[derive(Drop)]
pub struct Units<'a> {
    sections: Sections<'a>,
    units: Vec<Unit<'a>>,
    abbrevs: AbbrevStore<'a>,
}

impl<'a> Model for Units<'a> {
    ghost use Rattle.dw_model.specs.Section as model;
    ghost use Rattle.dw_units.specs.Units.{sections_in, AreUnits};

    ghost Value = { model.Sections };

    ghost view = { sections_in };

    ghost invariant = { AreUnits };
}

/// How many units begin at an offset or before it.
fn begun(units: &[Unit<'_>], offset: u64) -> usize
    ensures within { result ≤ length units.now }
    ensures begun { IsNonDecreasingBy (λ unit. unit.offset) units.now
        → IsPartitionPoint (λ unit. nat_le unit.offset offset ≡ true)
        (λ unit. nat_le unit.offset offset ≡ false) units.now result }
{
    units.partition_point(|unit| unit.offset <= offset)
}

impl<'a> Units<'a> {
    /// Cuts .debug_info into units, and reads the first entry of each that isn't skipped. Padding
    /// is no unit.
    ///
    /// The error is the first condition that fails, unit by unit, or `Memory` where an allocation
    /// was refused, which hides no fault of the header of the unit for which that was made.
    pub fn read(alloc: Global, elf: &Elf<'a>) -> Result<Self, OpenFault>
        ensures sections { IfOk result (λ units. units ≡ model_sections.sections elf.now) }
        ensures accepted { OnOk result (model.unit_refusal (model_sections.sections elf.now) ≡ None) }
        ensures refused { IfErr result (λ fault. RefusesUnlessMemory fault
            (model.unit_refusal (model_sections.sections elf.now))) }
        ensures memory { IfErr result (λ fault. TellsAtUnit fault (model_sections.sections elf.now)) }
    {
        let sections = Sections::of(elf);
        let mut abbrevs = AbbrevStore::new(alloc, sections.abbrevs);
        let mut units = Vec::new(alloc);
        let mut cursor = Cursor::new(sections.info);
        while cursor.left() > 0 {
            let Some(header) = piece(&mut cursor)? else {
                continue;
            };
            let unit = open_unit(alloc, &sections, &mut abbrevs, header)?;
            units.push(unit)?;
        }
        Ok(Units {
            sections,
            units,
            abbrevs,
        })
    }

    /// How many units there are.
    pub fn len(&self) -> usize
        ensures { result ≡ length (units self.now.info) }
    {
        self.units.len()
    }

    /// How many declarations of .debug_abbrev are kept for all of them, each once: at least those
    /// of each unit that has entries, and at most one for each byte of the section.
    pub fn declarations(&self) -> usize
        ensures tables { (i : ℕ) (declarations : List Declaration) → i < length (units self.now.info)
            → HasEntriesBy self.now (unit_at self.now i) declarations → length declarations ≤ result }
        ensures bound { result ≤ length self.now.abbrevs }
    {
        self.abbrevs.kept()
    }

    /// The unit at a place, in order of offset.
    pub fn unit(&self, i: usize) -> &Unit<'a>
        requires { i < length (units self.now.info) }
        ensures header { slice_get (units self.now.info) i ≡ Some (unit_shown result.now) }
        ensures root { option_map entry_shown result.now.root ≡ model.root self.now (unit_shown result.now) }
        ensures first { HasFirst self.now result.now }
        ensures bases { bases_shown result.now.bases ≡ model.bases self.now (unit_shown result.now) }
    {
        &self.units[i]
    }

    /// The place of the unit in whose bytes an offset of .debug_info lies. Units are in order, so
    /// it is searched by halves.
    pub fn holding(&self, offset: u64) -> Option<usize>
        ensures holding { option_and_then (slice_get (units self.now.info)) result
            ≡ holding (units self.now.info) offset }
        ensures within { IfSome result (λ i. i < length (units self.now.info)) }
    {
        let begun = begun(&self.units, offset);
        if begun == 0 {
            return None;
        }
        let last = begun - 1;
        if offset >= self.units[last].end {
            return None;
        }
        Some(last)
    }

    /// The sections to which values lead.
    pub fn tables(&self) -> &Tables<'a>
        ensures { tables_shown result.now ≡ self.now.tables }
    {
        &self.sections.tables
    }

    /// The sections of the file.
    pub(crate) fn sections(&self) -> &Sections<'a>
        ensures { sections_shown result.now ≡ self.now }
    {
        &self.sections
    }

    /// The declarations of the unit at an index; `None` just for a skipped unit, which has no
    /// entry.
    #[inline(always)]
    pub(crate) fn abbrevs(&self, index: usize) -> Option<AbbrevTable<'_, 'a>>
        requires { index < length (units self.now.info) }
        ensures { MatchOption result (HasNoEntry (unit_at self.now index))
            (λ table. HasEntriesBy self.now (unit_at self.now index) (declarations_of table)) }
    {
        let table = self.units[index].table?;
        Some(self.abbrevs.table(table))
    }

    /// The entry at an offset of .debug_info, in the unit at a place; `None` for a null entry,
    /// which ends a list of children.
    ///
    /// The error is `End` where the offset doesn't lie between the unit's first entry and its end,
    /// and where the entry runs past that; `Code` where the unit has no declaration of the entry's
    /// code; else the fault of its first value that can't be read; or `Memory`, which hides none of
    /// these.
    pub fn entry(
        &self,
        alloc: Global,
        i: usize,
        offset: u64,
    ) -> Result<Option<Entry<'a>>, FormFault>
        requires { i < length (units self.now.info) }
        ensures entry { IfSome (slice_get (units self.now.info) i)
            (λ unit. FindsEntry result (model.entry self.now unit offset)) }
        ensures memory { IfErr result (λ fault. IfSome (slice_get (units self.now.info) i)
            (λ unit. HidesNoFault fault (model.entry self.now unit offset))) }
    {
        self.at(i).entry(alloc, offset)
    }

    /// The offset just past a null entry, in the unit at a place. Its code may be padded, so it may
    /// take more than one byte.
    pub fn past_null(&self, i: usize, offset: u64) -> u64
        requires unit { i < length (units self.now.info) }
        requires null { IfSome (slice_get (units self.now.info) i) (λ unit. IsNull (model.entry self.now unit offset)) }
        ensures { IfSome (slice_get (units self.now.info) i)
            (λ unit. IsPastNull result (model.entry self.now unit offset)) }
    {
        self.at(i).past_null(offset)
    }
}
