//! Names of functions, across units, by sections 2.15 and 3.3.8 of DWARF 5.

ghost use Rattle.std.specs.Prelude.{◌≡◌, IfSome, option_map, option_and_then};
ghost use Rattle.dw_model.specs.Name as names;
ghost use Rattle.dw_forms.specs.Value.{value_shown};
ghost use Rattle.dw_model.specs.Root.{entry};
ghost use Rattle.dw_units.specs.Layouts.{AreOfUnit};
ghost use Rattle.dw_units.specs.View.{found_in};
ghost use Rattle.dw_units.specs.OpenUnit.{sections_of, unit_of};
ghost use Rattle.dw_frames.specs.Name.{unit_entry, IsTarget};

use dw_forms::Value;
use dw_model::dwarf::{DW_AT_abstract_origin, DW_AT_linkage_name, DW_AT_name, DW_AT_specification};
use dw_units::{EntryView, Layouts, OpenUnit};

/// How many references are followed to a name.
const REFERENCES: usize = 16;

/// An entry with the unit in which it is.
#[derive(Drop)]
pub(crate) struct UnitEntry<'b, 'a> {
    pub(crate) unit: OpenUnit<'b, 'a>,
    pub(crate) entry: EntryView<'b, 'a>,
}

/// The text of an attribute of an entry.
fn attribute_text<'a>(here: &UnitEntry<'_, 'a>, name: u64) -> Option<&'a [u8]>
    ensures { option_map (λ text. text.now) result
        ≡ names.attribute_text (sections_of here.now.unit) (unit_entry here.now) name }
{
    let value = here.entry.attr(name)?;
    here.unit.text(&value)
}

/// The name that an entry has itself: the one for the linker, else the one of the source.
fn own_name<'a>(here: &UnitEntry<'_, 'a>) -> Option<&'a [u8]>
    ensures { option_map (λ text. text.now) result ≡ names.own_name (sections_of here.now.unit) (unit_entry here.now) }
{
    let linkage = attribute_text(here, DW_AT_linkage_name);
    if let Some(text) = linkage {
        return Some(text);
    }
    attribute_text(here, DW_AT_name)
}

/// The reference by which an entry says what it is an instance of, or else which declaration it
/// completes.
fn reference<'a>(entry: &EntryView<'_, 'a>) -> Option<Value<'a>>
    ensures { option_map value_shown result ≡ names.reference entry.now }
{
    let origin = entry.attr(DW_AT_abstract_origin);
    if let Some(value) = origin {
        return Some(value);
    }
    entry.attr(DW_AT_specification)
}

/// The offset to which a reference of a unit leads, where any unit may hold it.
fn target(here: OpenUnit<'_, '_>, value: &Value<'_>) -> Option<u64>
    ensures { IsTarget (sections_of here.entry) (unit_of here.entry) (value_shown value.now) result }
{
    match *value {
        Value::UnitRef(n) => {
            let units = here.units();
            let offset = here.unit().offset;
            let last = units.unit(units.len() - 1);
            if n >= last.end.saturating_sub(offset) {
                return None;
            }
            Some(offset + n)
        }
        Value::SectionRef(n) => Some(n),
        _ => None,
    }
}

/// The entry at an offset of a unit, by the layouts of a unit where it is that one. `None` for a
/// null entry, and where none can be read.
fn view_in<'b, 'a>(
    unit: OpenUnit<'b, 'a>,
    home: OpenUnit<'b, 'a>,
    layouts: &'b Layouts<'a>,
    offset: u64,
) -> Option<EntryView<'b, 'a>>
    requires layouts { AreOfUnit (sections_of home) (unit_of home) layouts.now }
    requires sections { sections_of unit ≡ sections_of home }
    ensures { result ≡ found_in (entry (sections_of unit.entry) (unit_of unit.entry) offset) }
{
    if unit.index() == home.index() {
        return unit.view_by(layouts, offset);
    }
    unit.view(offset)
}

/// The entry that is at an offset of .debug_info, in whichever unit. `None` for a null entry, an
/// entry that can't be read, a header or a skipped unit.
#[tactic(auto, unfolding(dw_model::specs::Name::entry_of))]
fn entry_of<'b, 'a>(
    home: OpenUnit<'b, 'a>,
    layouts: &'b Layouts<'a>,
    offset: u64,
) -> Option<UnitEntry<'b, 'a>>
    requires { AreOfUnit (sections_of home) (unit_of home) layouts.now }
    ensures entry { option_map unit_entry result ≡ names.entry_of (sections_of home.entry) offset }
    ensures sections { IfSome result (λ there. sections_of there.unit ≡ sections_of home.entry) }
{
    let unit = home.units().find(offset)?;
    let entry = view_in(unit, home, layouts, offset)?;
    Some(UnitEntry { unit, entry })
}

/// The entry to which an entry refers.
#[tactic(auto, unfolding(dw_model::specs::Name::referred))]
fn referred<'b, 'a>(
    here: &UnitEntry<'b, 'a>,
    home: OpenUnit<'b, 'a>,
    layouts: &'b Layouts<'a>,
) -> Option<UnitEntry<'b, 'a>>
    requires layouts { AreOfUnit (sections_of home) (unit_of home) layouts.now }
    requires sections { sections_of here.now.unit ≡ sections_of home }
    ensures entry { option_map unit_entry result ≡ names.referred (sections_of here.now.unit) (unit_entry here.now) }
    ensures sections { IfSome result (λ there. sections_of there.unit ≡ sections_of here.now.unit) }
{
    let value = reference(&here.entry)?;
    let offset = target(here.unit, &value)?;
    entry_of(home, layouts, offset)
}

/// The name of an entry: the first that it has itself, or that an entry has to which at most so
/// many references lead. Entries of one unit are read by the layouts of its declarations.
fn name_within<'b, 'a>(
    here: &UnitEntry<'b, 'a>,
    home: OpenUnit<'b, 'a>,
    layouts: &'b Layouts<'a>,
    more: usize,
) -> Option<&'a [u8]>
    requires layouts { AreOfUnit (sections_of home) (unit_of home) layouts.now }
    requires sections { sections_of here.now.unit ≡ sections_of home }
    ensures { option_map (λ text. text.now) result
        ≡ names.name_within (sections_of here.now.unit) more (unit_entry here.now) }
{
    let own = own_name(here);
    if let Some(name) = own {
        return Some(name);
    }
    if more == 0 {
        return None;
    }
    let there = referred(here, home, layouts)?;
    name_within(&there, home, layouts, more - 1)
}

/// The name of an entry of a unit with these layouts.
pub(crate) fn name_of<'b, 'a>(
    here: &UnitEntry<'b, 'a>,
    layouts: &'b Layouts<'a>,
) -> Option<&'a [u8]>
    requires { AreOfUnit (sections_of here.now.unit) (unit_of here.now.unit) layouts.now }
    ensures { option_map (λ text. text.now) result ≡ names.name (sections_of here.now.unit) (unit_entry here.now) }
{
    name_within(here, here.unit, layouts, REFERENCES)
}
