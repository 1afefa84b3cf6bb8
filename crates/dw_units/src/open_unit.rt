//! One value for a unit of an open file.

ghost use Rattle.std.specs.Prelude.{◌<◌, length};
ghost use Rattle.dw_model.specs.Unit as cut;

use crate::entries::Entries;
use crate::entry::{Entry, cursor_at, end_of_null, entry_in};
use crate::layouts::Layouts;
use crate::unit::Unit;
use crate::units::Units;
use crate::view::{EntryView, view_in};
use dw_bytes::Width;
use dw_forms::{FormFault, Text, Value};
use std::alloc::Global;

/// A unit of an open file, from which its entries are read and what its values lead to. Contracts
/// see the sections of the file (`sections_of`) and the unit (`unit_of`).
#[derive(Clone, Copy)]
pub struct OpenUnit<'b, 'a> {
    units: &'b Units<'a>,
    index: usize,
    ghost within: { index < length (cut.units units.now.info) },
}

impl<'a> Units<'a> {
    ghost use Rattle.std.specs.Prelude.{◌≡◌, IfSome, option_map};
    ghost use Rattle.dw_model.specs.Name.{holding};
    ghost use Rattle.dw_units.specs.OpenUnit.{sections_of, unit_of};
    ghost use Rattle.dw_units.specs.UnitAt.{unit_at};

    /// The unit at an index, in order of offset.
    #[inline(always)]
    pub fn at(&self, index: usize) -> OpenUnit<'_, 'a>
        requires { index < length (cut.units self.now.info) }
        ensures sections { sections_of result ≡ self.now }
        ensures unit { unit_of result ≡ unit_at self.now index }
        ensures index { result.index ≡ index }
    {
        OpenUnit { units: self, index }
    }

    /// The unit in whose bytes an offset of .debug_info lies.
    pub fn find(&self, offset: u64) -> Option<OpenUnit<'_, 'a>>
        ensures sections { IfSome result (λ here. sections_of here ≡ self.now) }
        ensures unit { option_map (λ here. unit_of here) result ≡ holding (cut.units self.now.info) offset }
    {
        let index = self.holding(offset)?;
        Some(self.at(index))
    }
}

impl<'b, 'a> OpenUnit<'b, 'a> {
    ghost use Rattle.std.specs.Prelude.{◌≡◌, IfErr, option_map};
    ghost use Rattle.dw_model.specs.Root as model;
    ghost use Rattle.dw_model.specs.Text as texts;
    ghost use Rattle.dw_bytes.specs.Width.{size_of};
    ghost use Rattle.dw_forms.specs.Fault.{HidesNoFault};
    ghost use Rattle.dw_forms.specs.Tables.{bases_shown};
    ghost use Rattle.dw_forms.specs.Text.{text_shown};
    ghost use Rattle.dw_forms.specs.Value.{value_shown};
    ghost use Rattle.dw_units.specs.Entries.{WalksFrom};
    ghost use Rattle.dw_units.specs.Entry.{entry_shown, FindsEntry};
    ghost use Rattle.dw_units.specs.Layouts.{AreOfUnit};
    ghost use Rattle.dw_units.specs.Null.{IsNull, IsPastNull};
    ghost use Rattle.dw_units.specs.OpenUnit.{sections_of, unit_of};
    ghost use Rattle.dw_units.specs.Unit.{unit_shown, HasFirst};
    ghost use Rattle.dw_units.specs.View.{found_in};

    /// Its index among the units of the file, which are in order of offset.
    #[inline(always)]
    pub fn index(self) -> usize
        ensures index { result ≡ self.entry.index }
        ensures within { result < length (cut.units (sections_of self.entry).info) }
    {
        self.index
    }

    /// The units of the file.
    #[inline(always)]
    pub fn units(self) -> &'b Units<'a>
        ensures { result.now ≡ sections_of self.entry }
    {
        self.units
    }

    /// What its header and its first entry say.
    #[inline(always)]
    pub fn unit(self) -> &'b Unit<'a>
        ensures header { unit_shown result.now ≡ unit_of self.entry }
        ensures root { option_map entry_shown result.now.root
            ≡ model.root (sections_of self.entry) (unit_of self.entry) }
        ensures first { HasFirst (sections_of self.entry) result.now }
        ensures bases { bases_shown result.now.bases ≡ model.bases (sections_of self.entry) (unit_of self.entry) }
    {
        self.units.unit(self.index)
    }

    /// How many bytes its offsets have.
    pub fn width(self) -> Width
        ensures { size_of result ≡ (unit_of self.entry).offset_size }
    {
        self.unit().width
    }

    /// The text to which a value leads, without its zero byte; its end is looked for only when its
    /// bytes are asked for. `None` as `Tables::text`.
    pub fn find_text(self, value: &Value<'a>) -> Option<Text<'a>>
        ensures { option_map text_shown result
            ≡ texts.text (sections_of self.entry).tables
            (model.bases (sections_of self.entry) (unit_of self.entry)) (value_shown value.now) }
    {
        self.units.tables().find_text(value, &self.unit().bases)
    }

    /// The same text.
    pub fn text(self, value: &Value<'a>) -> Option<&'a [u8]>
        ensures { option_map (λ text. text.now) result
            ≡ texts.text (sections_of self.entry).tables
            (model.bases (sections_of self.entry) (unit_of self.entry)) (value_shown value.now) }
    {
        self.units.tables().text(value, &self.unit().bases)
    }

    /// The address to which a value leads. `None` as `Tables::address`.
    pub fn address(self, value: &Value<'a>) -> Option<u64>
        ensures { result ≡ texts.address (sections_of self.entry).tables
            (model.bases (sections_of self.entry) (unit_of self.entry)) (value_shown value.now) }
    {
        self.units.tables().address(value, &self.unit().bases)
    }

    /// The entry at an offset of .debug_info; `None` for a null entry. The error is that of
    /// `Units::entry`.
    pub fn entry(self, alloc: Global, offset: u64) -> Result<Option<Entry<'a>>, FormFault>
        ensures entry { FindsEntry result (model.entry (sections_of self.entry) (unit_of self.entry) offset) }
        ensures memory { IfErr result (λ fault. HidesNoFault fault
            (model.entry (sections_of self.entry) (unit_of self.entry) offset)) }
    {
        let Some(abbrevs) = self.units.abbrevs(self.index) else {
            return Err(FormFault::End);
        };
        let header = self.unit().header();
        entry_in(alloc, self.units.sections(), &header, abbrevs, offset)
    }

    /// The entry at an offset of .debug_info, of which each value is read when it is asked for.
    /// `None` for a null entry, and where none can be read.
    pub fn view(self, offset: u64) -> Option<EntryView<'b, 'a>>
        ensures { result ≡ found_in (model.entry (sections_of self.entry) (unit_of self.entry) offset) }
    {
        let abbrevs = self.units.abbrevs(self.index)?;
        let header = self.unit().header();
        view_in(self.units.sections(), &header, abbrevs, None, offset)
    }

    /// The same, by layouts of the unit's declarations.
    pub fn view_by(self, layouts: &'b Layouts<'a>, offset: u64) -> Option<EntryView<'b, 'a>>
        requires { AreOfUnit (sections_of self) (unit_of self) layouts.now }
        ensures { result ≡ found_in (model.entry (sections_of self.entry) (unit_of self.entry) offset) }
    {
        let abbrevs = self.units.abbrevs(self.index)?;
        let header = self.unit().header();
        view_in(
            self.units.sections(),
            &header,
            abbrevs,
            Some(layouts),
            offset,
        )
    }

    /// A walk over its entries, from the first one on; `None` just for a skipped unit.
    pub fn entries(self, alloc: Global) -> Option<Entries<'b, 'a>>
        ensures { WalksFrom (sections_of self.entry) (unit_of self.entry) (option_map (λ entries. entries) result) }
    {
        let abbrevs = self.units.abbrevs(self.index)?;
        let unit = self.unit();
        let cursor = cursor_at(self.units.sections(), &unit.header(), unit.first_entry)?;
        Some(Entries::new(alloc, abbrevs, unit.width, cursor))
    }

    /// The offset just past a null entry. Its code may be padded, so it may take more than one
    /// byte.
    pub fn past_null(self, offset: u64) -> u64
        requires { IsNull (model.entry (sections_of self) (unit_of self) offset) }
        ensures { IsPastNull result (model.entry (sections_of self.entry) (unit_of self.entry) offset) }
    {
        end_of_null(self.units.sections(), &self.unit().header(), offset)
    }
}
