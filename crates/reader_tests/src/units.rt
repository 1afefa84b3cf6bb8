//! Units and entries that can't be read, and some that are read where an allocation was refused,
//! worked out by hand from the standard's tables.

use crate::expect::expect;
use dw_elf::{Elf, OpenFault};
use dw_forms::{FormFault, Value};
use dw_model::dwarf::{DW_AT_call_column, DW_AT_call_line, DW_AT_name};
use dw_units::{Attribute, Entry, Units};
use std::alloc::{AllocError, Global};
use std::test::Fail;
use test_inputs::files::{file_of, unit_of};

/// The units of a file.
pub fn units_of<'a>(alloc: Global, file: &'a [u8]) -> Result<Units<'a>, OpenFault> {
    let elf = Elf::open(file)?;
    Units::read(alloc, &elf)
}

/// The attribute of a name that counts. No clause says which it is, so that its callers are proved
/// soon.
fn attribute<'b, 'a>(entry: &'b Entry<'a>, name: u64) -> Option<&'b Value<'a>> {
    entry.attr(name)
}

/// How many attributes there are, in the same way.
fn count_in(entry: &Entry<'_>) -> usize {
    entry.attrs.len()
}

/// A unit; a function with two names, a number and a text, and the count of its addresses; one with
/// a value of no form; one with a number in LEB128.
const DECLARATIONS: &[u8] = &[
    1, 0x11, 1, 0, 0, 2, 0x2e, 0, 3, 0x0b, 3, 8, 0x12, 0x0d, 0, 0, 3, 0x2e, 0, 3, 0x7e, 0, 0, 4,
    0x2e, 0, 3, 0x0f, 0, 0, 0,
];

/// Entries that can't be read, in a unit of their own, and why.
static FAULTS: [(&[u8], FormFault); 4] = [
    (&[2, 5, b'f', 0], FormFault::End),
    (&[3, 1], FormFault::Form),
    (
        &[4, 0xff, 0xff, 0xff, 0xff, 0xff, 0xff, 0xff, 0xff, 0xff, 2],
        FormFault::Wide,
    ),
    (&[5], FormFault::Code),
];

/// A file of one unit whose second entry, at 13, has these bytes.
fn file_with(alloc: Global, entry: &[u8], declarations: &[u8]) -> Result<Vec<u8>, AllocError> {
    let mut entries = vec![in alloc; 1]?;
    entries.extend_from_slice(entry)?;
    let info = unit_of(alloc, &entries)?;
    file_of(alloc, &info, declarations)
}

/// Why the second entry can't be read, of a file with this one.
fn fault_of(alloc: Global, entry: &[u8]) -> Result<Option<FormFault>, Fail> {
    let file = file_with(alloc, entry, DECLARATIONS)?;
    let units = units_of(alloc, &file)?;
    if units.len() == 0 {
        return Err(Fail::from("a unit"));
    }
    Ok(units.entry(alloc, 0, 13).err())
}

#[test]
fn faults_of_entries(rt: HostRuntime) -> Result<(), Fail> {
    for (entry, fault) in &FAULTS {
        let found = fault_of(rt.alloc(), entry)?;
        expect(&rt, entry, &found, &Some(*fault));
    }
    Ok(())
}

/// Units that can't be read with the declarations above, and why.
static REFUSED: [(&[u8], OpenFault); 15] = [
    // a length that is cut, reserved, or longer than the section, in both formats
    (
        &[0xff, 0xff, 0xff, 0xff, 0, 0, 0, 0, 0, 0, 0],
        OpenFault::UnitHeader(0),
    ),
    (&[0xff, 0xff, 0xff], OpenFault::UnitHeader(0)),
    (
        &[0xfe, 0xff, 0xff, 0xff, 0, 0, 0, 0, 0, 0, 0, 0],
        OpenFault::UnitHeader(0),
    ),
    (
        &[0x0a, 0, 0, 0, 5, 0, 1, 8, 0, 0, 0, 0, 1],
        OpenFault::UnitHeader(0),
    ),
    (
        &[
            0, 0, 0, 0, 0xff, 0xff, 0xff, 0xff, 3, 0, 0, 0, 0, 0, 0, 0, 4, 0,
        ],
        OpenFault::UnitHeader(4),
    ),
    // a header that its unit cuts, the last one of a skeleton
    (&[7, 0, 0, 0, 5, 0, 1, 8, 0, 0, 0], OpenFault::UnitHeader(0)),
    (
        &[
            0xff, 0xff, 0xff, 0xff, 19, 0, 0, 0, 0, 0, 0, 0, 5, 0, 4, 8, 0, 0, 0, 0, 0, 0, 0, 0, 1,
            2, 3, 4, 5, 6, 7,
        ],
        OpenFault::UnitHeader(0),
    ),
    (
        &[9, 0, 0, 0, 5, 0, 1, 4, 0, 0, 0, 0, 1],
        OpenFault::AddressSize(0),
    ),
    // a table past the end
    (
        &[9, 0, 0, 0, 5, 0, 1, 8, 99, 0, 0, 0, 1],
        OpenFault::Root(0),
    ),
    // a first entry that is none, is null, has no declaration, ends early, has an unknown form or a
    // number of 65 bits
    (&[8, 0, 0, 0, 5, 0, 1, 8, 0, 0, 0, 0], OpenFault::Root(0)),
    (&[9, 0, 0, 0, 5, 0, 1, 8, 0, 0, 0, 0, 0], OpenFault::Root(0)),
    (&[9, 0, 0, 0, 5, 0, 1, 8, 0, 0, 0, 0, 9], OpenFault::Root(0)),
    (
        &[12, 0, 0, 0, 5, 0, 1, 8, 0, 0, 0, 0, 2, 5, b'f', 0],
        OpenFault::Root(0),
    ),
    (
        &[10, 0, 0, 0, 5, 0, 1, 8, 0, 0, 0, 0, 3, 1],
        OpenFault::Root(0),
    ),
    (
        &[
            19, 0, 0, 0, 5, 0, 1, 8, 0, 0, 0, 0, 4, 0xff, 0xff, 0xff, 0xff, 0xff, 0xff, 0xff, 0xff,
            0xff, 2,
        ],
        OpenFault::Root(0),
    ),
];

/// Why the units with these declarations can't be read.
fn refusal_of(
    alloc: Global,
    info: &[u8],
    declarations: &[u8],
) -> Result<Option<OpenFault>, AllocError> {
    let file = file_of(alloc, info, declarations)?;
    Ok(units_of(alloc, &file).err())
}

#[test]
fn refused_units(rt: HostRuntime) -> Result<(), Fail> {
    for (info, fault) in &REFUSED {
        let found = refusal_of(rt.alloc(), info, DECLARATIONS)?;
        expect(&rt, info, &found, &Some(*fault));
    }
    Ok(())
}

/// Tables of abbreviations that can't be read: one that ends in a code, in a tag, before the flag
/// for children, in a pair, and after a pair; a tag of 65 bits; and a number of 65 bits that is in
/// the declaration.
static UNREADABLE_TABLES: [&[u8]; 7] = [
    &[0x80],
    &[1],
    &[1, 0x11],
    &[1, 0x11, 1, 3],
    &[1, 0x11, 1, 3, 8],
    &[
        1, 0xff, 0xff, 0xff, 0xff, 0xff, 0xff, 0xff, 0xff, 0xff, 2, 1, 0, 0, 0,
    ],
    &[
        1, 0x11, 1, 3, 0x21, 0xff, 0xff, 0xff, 0xff, 0xff, 0xff, 0xff, 0xff, 0xff, 2, 0, 0, 0,
    ],
];

/// The same of a unit whose first entry has code 1, where a table follows this declaration or none.
fn refusal_behind(
    alloc: Global,
    declaration: &[u8],
    table: &[u8],
) -> Result<Option<OpenFault>, AllocError> {
    let info = unit_of(alloc, &[1, 0])?;
    let mut behind = Vec::from_slice(alloc, declaration)?;
    behind.extend_from_slice(table)?;
    refusal_of(alloc, &info, &behind)
}

/// The abbreviations of a unit can't be read where anything in their table can't be, behind the
/// declaration that the unit asks for too, and that isn't out of memory.
#[test]
fn unreadable_tables(rt: HostRuntime) -> Result<(), Fail> {
    for (i, table) in UNREADABLE_TABLES.iter().enumerate() {
        for declaration in [[].as_slice(), &[1, 0x11, 1, 0, 0]] {
            let found = refusal_behind(rt.alloc(), declaration, table)?;
            expect(&rt, i, &found, &Some(OpenFault::Root(0)));
        }
    }
    Ok(())
}

/// A unit and a function of 13 attributes, of which the last three count.
const MANY: &[u8] = &[
    1, 0x11, 1, 0, 0, 2, 0x2e, 0, 3, 0x0b, 4, 0x0b, 5, 0x0b, 6, 0x0b, 7, 0x0b, 8, 0x0b, 9, 0x0b,
    10, 0x0b, 11, 0x0b, 12, 0x0b, 0x57, 0x0b, 0x58, 0x0b, 0x59, 0x0b, 0, 0, 0,
];

/// The attributes of an entry, gathered once more where an allocation was refused.
fn all_at_last<'a>(alloc: Global, entry: &Entry<'a>) -> Result<Vec<Attribute<'a>>, AllocError> {
    let gathered = entry.attrs.to_vec(alloc);
    let Err(_) = gathered else {
        return gathered;
    };
    entry.attrs.to_vec(alloc)
}

/// The values are 0 to 12.
fn are_in_order(attributes: &[Attribute<'_>]) -> bool {
    let mut wanted = 0;
    for attribute in attributes {
        if attribute.value != Value::Unsigned(wanted) {
            return false;
        }
        wanted = wanted.saturating_add(1);
    }
    wanted == 13
}

/// Has 13 attributes, of which the last three count.
fn are_counted(entry: &Entry<'_>) -> bool {
    let counted = [
        (DW_AT_name, None),
        (DW_AT_call_column, Some(&Value::Unsigned(10))),
        (DW_AT_call_line, Some(&Value::Unsigned(12))),
    ];
    let same = counted
        .iter()
        .all(|(name, value)| attribute(entry, *name) == *value);
    count_in(entry) == 13 && same
}

/// Has the 13 attributes, whose values are 0 to 12.
fn is_whole(alloc: Global, entry: &Entry<'_>) -> Result<bool, AllocError> {
    let all = all_at_last(alloc, entry)?;
    Ok(are_in_order(&all) && are_counted(entry))
}

/// The units of a file, read once more where an allocation was refused.
fn units_at_last<'a>(alloc: Global, file: &'a [u8]) -> Result<Units<'a>, OpenFault> {
    let read = units_of(alloc, file);
    let Err(OpenFault::Memory) = read else {
        return read;
    };
    units_of(alloc, file)
}

/// The entry at 13 of the first unit, read once more where an allocation was refused.
fn entry_at_last<'a>(alloc: Global, units: &Units<'a>) -> Result<Option<Entry<'a>>, FormFault> {
    if units.len() == 0 {
        return Ok(None);
    }
    let found = units.entry(alloc, 0, 13);
    let Err(FormFault::Memory) = found else {
        return found;
    };
    units.entry(alloc, 0, 13)
}

/// The entry is whole, where it is read once more after an allocation was refused.
fn is_whole_at_last(alloc: Global, units: &Units<'_>) -> Result<bool, Fail> {
    match entry_at_last(alloc, units)? {
        Some(found) => Ok(is_whole(alloc, &found)?),
        None => Err(Fail::from("no null entry")),
    }
}

/// Where an allocation is refused, units and an entry are out of memory, and the same call, with
/// memory, gives them whole.
#[test]
fn each_allocation_refused(rt: HostRuntime) -> Result<(), Fail> {
    let entry = &[2, 0, 1, 2, 3, 4, 5, 6, 7, 8, 9, 10, 11, 12];
    let Ok(file) = file_with(rt.alloc(), entry, MANY) else {
        return Ok(());
    };
    let units = units_at_last(rt.alloc(), &file)?;
    assert!(rt; is_whole_at_last(rt.alloc(), &units)?);
    Ok(())
}
