//! Entries of units, by sections 7.5.2 to 7.5.6 of DWARF 5.

ghost use Rattle.std.specs.Prelude.{◌≡◌, ◌<◌, Ok, IfOk, IfErr, IfSome, length, option_map, take, MatchOption};
ghost use Rattle.dw_model.specs.Entry.{entry_at};
ghost use Rattle.dw_model.specs.Entry as model;
ghost use Rattle.dw_model.specs.Abbrev.{abbreviations};
ghost use Rattle.dw_model.specs.Root.{place_in, entry};
ghost use Rattle.dw_model.specs.Answers.{ReadsUnlessMemory};
ghost use Rattle.dw_bytes.specs.Width.{size_of};
ghost use Rattle.dw_forms.specs.Fault.{form_fault, HidesNoFault};
ghost use Rattle.dw_forms.specs.Table.{declarations_of};
ghost use Rattle.dw_forms.specs.Value.{value_shown};
ghost use Rattle.dw_units.specs.Entry.{entry_shown, FindsEntry};
ghost use Rattle.dw_units.specs.Header.{header_shown};
ghost use Rattle.dw_units.specs.Sections.{sections_shown};
ghost use Rattle.dw_units.specs.Null.{IsNull, IsPastNull};

use crate::attributes::Attributes;
use crate::header::Header;
use crate::sections::Sections;
use dw_bytes::{Cursor, Width};
use dw_forms::{AbbrevTable, FormFault, Value};
use std::alloc::Global;

/// An entry. Offsets count from the first byte of .debug_info.
#[derive(Drop)]
pub struct Entry<'a> {
    pub offset: u64,
    /// The offset just past it.
    pub next: u64,
    /// A DW_TAG code.
    pub tag: u64,
    /// A list of children follows it.
    pub children: bool,
    pub attrs: Attributes<'a>,
}

/// The entry at the cursor, which goes just past it; `None` for a null entry, which ends a list of
/// children. After a refusal the cursor may be anywhere.
#[tactic(auto, unfolding(dw_model::specs::Entry::entry_at))]
fn read_entry<'a>(
    alloc: Global,
    cursor: &mut Cursor<'a>,
    abbrevs: AbbrevTable<'_, 'a>,
    width: Width,
) -> Result<Option<Entry<'a>>, FormFault>
    ensures entry { ReadsUnlessMemory (option_map entry_shown) form_fault result
        (entry_at (size_of width) (declarations_of abbrevs.entry) cursor.old) cursor.new }
    ensures next { IfOk result (λ found. IfSome found (λ entry. entry.next ≡ cursor.new.at)) }
    ensures memory { IfErr result (λ fault. HidesNoFault fault
        (entry_at (size_of width) (declarations_of abbrevs.entry) cursor.old)) }
{
    let offset = cursor.at() as u64;
    let code = cursor.uleb()?;
    if code == 0 {
        return Ok(None);
    }
    let declaration = abbrevs.get(code).ok_or(FormFault::Code)?;
    let attrs = Attributes::read(alloc, cursor, declaration, width)?;
    Ok(Some(Entry {
        offset,
        next: cursor.at() as u64,
        tag: declaration.tag,
        children: declaration.children,
        attrs,
    }))
}

impl<'a> Entry<'a> {
    /// The value of the first attribute of a name, where it is of a kind that counts for the name;
    /// else the attribute is absent.
    #[tactic(auto, unfolding(dw_model::specs::Entry::attribute))]
    #[inline(always)]
    pub fn attr(&self, name: u64) -> Option<&Value<'a>>
        ensures { option_map (λ value. value_shown value.now) result ≡ model.attribute name (entry_shown self.now) }
    {
        self.attrs.counted(name)
    }
}

/// The bytes of .debug_info up to the end of a unit.
fn up_to_end<'a>(info: &'a [u8], unit: &Header) -> &'a [u8]
    ensures { result.now ≡ take unit.now.end info.now }
{
    info.split_at(info.len().min(unit.end as usize)).0
}

/// The place at an offset of a unit; `None` where the offset is past all bytes.
pub(crate) fn cursor_at<'a>(
    sections: &Sections<'a>,
    unit: &Header,
    offset: u64,
) -> Option<Cursor<'a>>
    ensures { MatchOption result (length (take unit.now.end sections.now.info.now) < offset)
        (λ cursor. cursor ≡ place_in (sections_shown sections.now) (header_shown unit.now) offset) }
{
    let mut cursor = Cursor::new(up_to_end(sections.info, unit));
    cursor.take(offset as usize)?;
    Some(cursor)
}

/// The entry at an offset of .debug_info that lies between a unit's first entry and its end; `None`
/// for a null entry. Nothing past the unit's end is read.
#[tactic(auto, unfolding(dw_model::specs::Root::entry))]
pub(crate) fn entry_in<'a>(
    alloc: Global,
    sections: &Sections<'a>,
    unit: &Header,
    abbrevs: AbbrevTable<'_, 'a>,
    offset: u64,
) -> Result<Option<Entry<'a>>, FormFault>
    requires { abbreviations sections.now.abbrevs.now unit.now.debug_abbrev_offset ≡ Ok (declarations_of abbrevs) }
    ensures entry { FindsEntry result (entry (sections_shown sections.now) (header_shown unit.now) offset) }
    ensures memory { IfErr result (λ fault. HidesNoFault fault
        (entry (sections_shown sections.now) (header_shown unit.now) offset)) }
{
    if offset < unit.first_entry || offset >= unit.end {
        return Err(FormFault::End);
    }
    let Some(mut cursor) = cursor_at(sections, unit, offset) else {
        return Err(FormFault::End);
    };
    read_entry(alloc, &mut cursor, abbrevs, unit.width)
}

/// The offset just past a null entry, whose code may be padded.
pub(crate) fn end_of_null(sections: &Sections<'_>, unit: &Header, offset: u64) -> u64
    requires { IsNull (entry (sections_shown sections.now) (header_shown unit.now) offset) }
    ensures { IsPastNull result (entry (sections_shown sections.now) (header_shown unit.now) offset) }
{
    let Some(mut cursor) = cursor_at(sections, unit, offset) else {
        return offset;
    };
    let Ok(_) = cursor.uleb() else {
        return offset;
    };
    cursor.at() as u64
}
