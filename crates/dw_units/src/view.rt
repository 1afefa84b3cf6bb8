//! Entries whose values are read when they are asked for, by sections 7.5.2 to 7.5.6 of DWARF 5.

ghost use Rattle.std.specs.Prelude.{◌≡◌, IfSome, Ok, option_map};
ghost use Rattle.dw_model.specs.Abbrev.{abbreviations};
ghost use Rattle.dw_model.specs.Answers.{ReadsOn};
ghost use Rattle.dw_model.specs.Entry.{entry_at};
ghost use Rattle.dw_model.specs.Entry as model;
ghost use Rattle.dw_model.specs.Root.{entry};
ghost use Rattle.dw_bytes.specs.Width.{size_of};
ghost use Rattle.dw_forms.specs.Fault.{form_fault};
ghost use Rattle.dw_forms.specs.Table.{declarations_of};
ghost use Rattle.dw_forms.specs.Value.{value_shown};
ghost use Rattle.dw_units.specs.Header.{header_shown};
ghost use Rattle.dw_units.specs.Layouts.{AreOf};
ghost use Rattle.dw_units.specs.Sections.{sections_shown};
ghost use Rattle.dw_units.specs.View.{found_in};

use crate::class::counts;
use crate::entry::cursor_at;
use crate::header::Header;
use crate::layouts::{Layouts, meaning_of};
use crate::sections::Sections;
use crate::values::pass_values;
use dw_bytes::{Cursor, Width};
use dw_forms::{AbbrevTable, FormFault, Shape, Value};
use std::marker::Model;

/// An entry that can be read, of which each value is read when it is asked for: so it takes no
/// memory. Contracts see the entry.
#[derive(Drop)]
pub struct EntryView<'b, 'a> {
    pub(crate) tag: u64,
    pub(crate) children: bool,
    pub(crate) shape: Shape<'b, 'a>,
    /// How many bytes the offsets of its unit have.
    pub(crate) width: Width,
    /// Its offset, which counts from the first byte of .debug_info.
    pub(crate) offset: u64,
    /// Where its values begin.
    pub(crate) values: Cursor<'a>,
}

impl<'b, 'a> Model for EntryView<'b, 'a> {
    ghost use Rattle.dw_model.specs.Entry as model;
    ghost use Rattle.dw_units.specs.ViewInside.{entry_in, IsReadable};

    ghost Value = { model.Entry };

    ghost view = { entry_in };

    ghost invariant = { IsReadable };
}

impl<'b, 'a> EntryView<'b, 'a> {
    /// Its offset, which counts from the first byte of .debug_info.
    pub fn offset(&self) -> u64
        ensures { result ≡ self.now.offset }
    {
        self.offset
    }

    /// A list of children follows it.
    pub fn children(&self) -> bool
        ensures { result ≡ self.now.children }
    {
        self.children
    }

    /// A DW_TAG code.
    pub fn tag(&self) -> u64
        ensures { result ≡ self.now.tag }
    {
        self.tag
    }

    /// The value of the first attribute of a name, where it is of a kind that counts for the name;
    /// else the attribute is absent.
    #[tactic(auto, unfolding(dw_model::specs::Entry::attribute))]
    #[inline(always)]
    pub fn attr(&self, name: u64) -> Option<Value<'a>>
        ensures { option_map value_shown result ≡ model.attribute name self.now }
    {
        let value = self.shape.first_value(name, &self.values, self.width)?;
        if !counts(name, &value) {
            return None;
        }
        Some(value)
    }
}

/// The entry at the cursor, which goes just past it; `None` for a null entry, which ends a list of
/// children. After a refusal the cursor may be anywhere.
#[tactic(auto, unfolding(dw_model::specs::Entry::entry_at))]
fn view_at<'b, 'a>(
    cursor: &mut Cursor<'a>,
    abbrevs: AbbrevTable<'b, 'a>,
    layouts: Option<&'b Layouts<'a>>,
    width: Width,
) -> Result<Option<EntryView<'b, 'a>>, FormFault>
    requires { IfSome layouts (λ layouts. AreOf (declarations_of abbrevs) layouts.now) }
    ensures { ReadsOn (λ found. found) form_fault result
        (entry_at (size_of width) (declarations_of abbrevs.entry) cursor.old) cursor.new }
{
    let offset = cursor.at() as u64;
    let code = cursor.uleb()?;
    if code == 0 {
        return Ok(None);
    }
    let meant = meaning_of(layouts, abbrevs, code).ok_or(FormFault::Code)?;
    let values = cursor.fork();
    pass_values(cursor, meant.shape, width)?;
    Ok(Some(EntryView {
        tag: meant.tag,
        children: meant.children,
        shape: meant.shape,
        width,
        offset,
        values,
    }))
}

/// The entry at an offset of .debug_info that lies between a unit's first entry and its end. `None`
/// for a null entry, and where none can be read. Nothing past the unit's end is read.
#[tactic(auto, unfolding(dw_model::specs::Root::entry))]
pub(crate) fn view_in<'b, 'a>(
    sections: &Sections<'a>,
    unit: &Header,
    abbrevs: AbbrevTable<'b, 'a>,
    layouts: Option<&'b Layouts<'a>>,
    offset: u64,
) -> Option<EntryView<'b, 'a>>
    requires layouts { IfSome layouts (λ layouts. AreOf (declarations_of abbrevs) layouts.now) }
    requires table { abbreviations sections.now.abbrevs.now unit.now.debug_abbrev_offset
        ≡ Ok (declarations_of abbrevs) }
    ensures { result ≡ found_in (entry (sections_shown sections.now) (header_shown unit.now) offset) }
{
    if offset < unit.first_entry || offset >= unit.end {
        return None;
    }
    let mut cursor = cursor_at(sections, unit, offset)?;
    match view_at(&mut cursor, abbrevs, layouts, unit.width) {
        Ok(found) => found,
        Err(_) => None,
    }
}
