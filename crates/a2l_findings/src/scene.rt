//! An open file: what is read of its units, and what is told of each.

ghost use Rattle.std.specs.Prelude.{◌≡◌, ◌<◌, length, IfOk};
ghost use Rattle.dw_model.specs.Section.{sections};
ghost use Rattle.dw_model.specs.Unit as cut;

use crate::note::{Allocated, Fact, Note};
use crate::reasons::{Stop, UnitHeader, push_attributes, unit_header};
use crate::section_headers::SectionHeaders;
use dw_elf::Elf;
use dw_forms::{Bases, Value};
use dw_model::dwarf::{ADDRESS_SIZE, DW_AT_name, DW_AT_str_offsets_base};
use dw_ranges::{Range, RangeFault, ranges_of};
use dw_symbols::{UnitLines, UnitTree, read_table, read_tree, table_offset};
use dw_units::{Attribute, Entry, OpenUnit, Sections, Units};
use std::alloc::{AllocError, Global};
use std::sync::Arc;

/// What is read of an open file. Each unit that a call is given is one of the same file.
#[derive(Drop)]
pub struct Scene<'a> {
    pub alloc: Global,
    pub units: Arc<Units<'a>>,
    pub sections: Sections<'a>,
    /// All section headers, in order.
    pub headers: SectionHeaders<'a>,
}

impl<'a> Scene<'a> {
    /// The scene of a file that was opened already, so that only memory can be refused.
    pub fn new(alloc: Global, file: &'a [u8]) -> Allocated<Self>
        ensures { IfOk result (λ scene. scene.units.value ≡ sections file.now) }
    {
        let Ok(elf) = Elf::open(file) else {
            return Err(AllocError);
        };
        let Ok(units) = Units::read(alloc, &elf) else {
            return Err(AllocError);
        };
        Ok(Scene {
            alloc,
            units: Arc::new(alloc, units)?,
            sections: Sections::of(&elf),
            headers: SectionHeaders::read(alloc, file)?,
        })
    }
}

/// The ranges of an entry of a unit; none where they can't be read.
pub fn ranges_at(alloc: Global, here: OpenUnit<'_, '_>, at: &Entry<'_>) -> Allocated<Vec<Range>> {
    match ranges_of(alloc, at, here.unit(), here.units().tables()) {
        Ok(ranges) => Ok(ranges),
        Err(RangeFault::Bad) => Ok(Vec::new(alloc)),
        Err(RangeFault::Memory) => Err(AllocError),
    }
}

/// The ranges of a unit's first entry; none where the unit answers no address.
pub fn ranges_in(alloc: Global, here: OpenUnit<'_, '_>) -> Allocated<Vec<Range>> {
    match &here.unit().root {
        Some(root) if here.unit().kind.answers() => ranges_at(alloc, here, root),
        _ => Ok(Vec::new(alloc)),
    }
}

/// The first of some ranges that holds an address.
pub fn holding(ranges: &[Range], address: u64) -> Option<Range> {
    let mut ranges = ranges.iter().copied();
    ranges.find(|range| range.begin <= address && address < range.end)
}

/// The line table of a unit, where it names one, or why it can't be read.
pub fn read_lines<'a>(scene: &Scene<'a>, here: OpenUnit<'_, 'a>) -> Allocated<UnitLines<'a>> {
    match table_offset(here) {
        Some(offset) => read_table(scene.alloc, scene.sections.line, here, offset),
        None => Ok(Ok(None)),
    }
}

/// The functions of the unit at an index, or why they can't be read; `None` where it is skipped.
pub fn read_functions<'a>(scene: &Scene<'a>, index: usize) -> Allocated<Option<UnitTree<'a>>>
    requires { index < length (cut.units scene.now.units.value.info) }
{
    if scene.units.unit(index).kind.is_skipped() {
        return Ok(None);
    }
    let tree = read_tree(scene.alloc, &scene.units, index)?;
    Ok(Some(tree))
}

/// What made the unit (DWARF 5, section 7.5.4, table 7.5).
pub const DW_AT_producer: u64 = 0x25;

/// The file with the split unit (DWARF 5, section 7.5.4, table 7.5).
pub const DW_AT_dwo_name: u64 = 0x76;

/// The text of an attribute of the first entry of a unit, where it isn't skipped.
pub fn root_text<'a>(here: OpenUnit<'_, 'a>, name: u64) -> Fact<'a> {
    let Some(root) = &here.unit().root else {
        return Fact::Nothing;
    };
    match root.attrs.first(name) {
        Some(value) => Fact::text(here.text(&value)),
        None => Fact::Nothing,
    }
}

/// Adds a unit: where it is, and its name.
pub fn tell_unit<'a>(note: &mut Note<'a>, here: OpenUnit<'_, 'a>) -> Allocated<()> {
    note.place("unit ", "unit", here.unit().offset)?;
    note.tell(" ", "name", root_text(here, DW_AT_name))
}

/// The value of the first attribute of a name.
fn first_of<'a>(attributes: &[Attribute<'a>], name: u64) -> Option<Value<'a>> {
    let mut attributes = attributes.iter().copied();
    Some(attributes.find(|attribute| attribute.name == name)?.value)
}

/// The text of the first attribute of a name, among those of a unit's first entry.
fn text_in<'a>(
    scene: &Scene<'a>,
    header: &UnitHeader,
    attributes: &[Attribute<'a>],
    name: u64,
) -> Fact<'a> {
    let bases = Bases {
        str_offsets: match first_of(attributes, DW_AT_str_offsets_base) {
            Some(Value::SectionOffset(offset)) => Some(offset),
            _ => None,
        },
        addr: None,
        rnglists: None,
        width: header.width,
    };
    match first_of(attributes, name) {
        Some(value) => Fact::text(scene.sections.tables.text(&value, &bases)),
        None => Fact::Nothing,
    }
}

/// Adds a skipped unit: where it is, its name and what made it, where these can be read.
pub fn tell_skipped<'a>(
    note: &mut Note<'a>,
    scene: &Scene<'a>,
    here: OpenUnit<'_, 'a>,
) -> Allocated<()> {
    tell_unit(note, here)?;
    let Ok(header) = unit_header(scene.sections.info, here.unit().offset) else {
        return Ok(());
    };
    let mut attributes = Vec::new(scene.alloc);
    if header.address_size == ADDRESS_SIZE {
        let at = header.first_entry;
        let read = push_attributes(scene.alloc, &scene.sections, &header, at, &mut attributes);
        if let Err(Stop::Memory) = read {
            return Err(AllocError);
        }
    }
    let name = text_in(scene, &header, &attributes, DW_AT_name);
    note.tell(" ", "name", name)?;
    let producer = text_in(scene, &header, &attributes, DW_AT_producer);
    note.tell(", made by ", "producer", producer)
}
