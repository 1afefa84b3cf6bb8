//! Ranges of entries, worked out by hand from the standard's tables: each way to name them, each
//! kind of entry of a list, and what can't be read.

use crate::expect::expect;
use crate::units::units_of;
use dw_elf::Name;
use dw_forms::FormFault;
use dw_ranges::{Range, RangeFault, ranges_of};
use dw_units::{Entry, Units};
use std::alloc::{AllocError, Global};
use std::process::Abort;
use std::test::Fail;
use test_inputs::files::{elf, unit_of};

/// A unit with bases of addresses and of range lists; functions with a list, as an offset and by an
/// index; and one with an address by an index and how many it has.
const ABBREVS: &[u8] = &[
    1, 0x11, 1, 0x73, 0x17, 0x74, 0x17, 0, 0, 2, 0x2e, 0, 0x55, 0x17, 0, 0, 3, 0x2e, 0, 0x55, 0x23,
    0, 0, 4, 0x2e, 0, 0x11, 0x1b, 0x12, 0x0f, 0, 0, 0,
];

/// The bases are 8 and 4. Functions with lists as offsets are at 21, 26, 31 and 36, by indexes at
/// 41, 43 and 45, and with addresses at 47, 50 and 53.
const ENTRIES: &[u8] = &[
    1, 8, 0, 0, 0, 4, 0, 0, 0, // 21
    2, 12, 0, 0, 0, 2, 66, 0, 0, 0, 2, 70, 0, 0, 0, 2, 72, 0, 0, 0, // 41
    3, 0, 3, 1, 3, 2, // 47
    4, 0, 7, 4, 1, 0, 4, 2, 1, 0,
];

/// Eight bytes that aren't entries, and then the addresses 0x1000 and 0x2000.
const ADDR: &[u8] = &[
    1, 2, 3, 4, 5, 6, 7, 8, 0, 0x10, 0, 0, 0, 0, 0, 0, 0, 0x20, 0, 0, 0, 0, 0, 0,
];

/// Two offsets that count from 4, and lists: at 12 one with each kind of entry and an empty range;
/// at 66 one with an index that leads to no address; at 70 one that has no end.
const RNGLISTS: &[u8] = &[
    9, 9, 9, 9, 8, 0, 0, 0, 62, 0, 0, 0, // 12
    1, 1, 4, 1, 2, 4, 5, 5, 2, 0, 1, 3, 0, 0x10, 5, 0, 0x30, 0, 0, 0, 0, 0, 0, 4, 3, 4, 6, 1, 0, 0,
    0, 0, 0, 0, 0, 2, 0, 0, 0, 0, 0, 0, 0, 7, 9, 0, 0, 0, 0, 0, 0, 0, 5, 0, // 66
    2, 0, 2, 0, // 70
    4, 1,
];

/// The ranges of the list at 12.
const LISTED: &[Range] = &[
    Range {
        begin: 0x2001,
        end: 0x2002,
    },
    Range {
        begin: 0x1000,
        end: 0x2000,
    },
    Range {
        begin: 0x1000,
        end: 0x1010,
    },
    Range {
        begin: 0x3003,
        end: 0x3004,
    },
    Range { begin: 1, end: 2 },
    Range { begin: 9, end: 14 },
];

/// What an entry has: its ranges, or why they can't be read.
type Ranged = Result<&'static [Range], RangeFault>;

/// Offsets of entries, and their ranges.
static RANGED: [(u64, Ranged); 10] = [
    (21, Ok(LISTED)),
    (26, Err(RangeFault::Bad)),
    (31, Err(RangeFault::Bad)),
    // at the end of the section
    (36, Err(RangeFault::Bad)),
    (41, Ok(LISTED)),
    (43, Err(RangeFault::Bad)),
    // an index past the last
    (45, Err(RangeFault::Bad)),
    (
        47,
        Ok(&[Range {
            begin: 0x1000,
            end: 0x1007,
        }]),
    ),
    (50, Ok(&[])),
    (53, Err(RangeFault::Bad)),
];

/// A file of this unit.
fn file(alloc: Global) -> Result<Vec<u8>, AllocError> {
    let info = unit_of(alloc, ENTRIES)?;
    elf(
        alloc,
        &[
            (Name::DebugInfo, &info),
            (Name::DebugAbbrev, ABBREVS),
            (Name::DebugAddr, ADDR),
            (Name::DebugRnglists, RNGLISTS),
        ],
    )
}

/// The entry at an offset of the only unit.
fn entry_at<'a>(
    alloc: Global,
    units: &Units<'a>,
    offset: u64,
) -> Result<Option<Entry<'a>>, FormFault> {
    if units.len() == 0 {
        return Ok(None);
    }
    units.entry(alloc, 0, offset)
}

/// The ranges of an entry of that unit. No clause says which they are, so that its callers are
/// proved soon.
fn ranges_in(
    alloc: Global,
    units: &Units<'_>,
    entry: &Entry<'_>,
) -> Result<Vec<Range>, RangeFault> {
    if units.len() == 0 {
        return Ok(Vec::new(alloc));
    }
    ranges_of(alloc, entry, units.unit(0), units.tables())
}

/// An entry has these ranges.
fn expect_ranged<A: Abort>(
    rt: &A,
    offset: u64,
    found: &Result<Vec<Range>, RangeFault>,
    wanted: &Ranged,
) {
    let found = match found {
        Ok(ranges) => Ok(ranges.as_slice()),
        Err(fault) => Err(*fault),
    };
    expect(rt, offset, &found, wanted);
}

/// The entry at an offset has these ranges.
fn expect_ranges<A: Abort>(
    rt: &A,
    alloc: Global,
    units: &Units<'_>,
    offset: u64,
    wanted: &Ranged,
) -> Result<(), Fail> {
    let entry = entry_at(alloc, units, offset)?.ok_or("an entry")?;
    expect_ranged(rt, offset, &ranges_in(alloc, units, &entry), wanted);
    Ok(())
}

#[test]
fn ranges_of_entries(rt: HostRuntime) -> Result<(), Fail> {
    let file = file(rt.alloc())?;
    let units = units_of(rt.alloc(), &file)?;
    for (offset, wanted) in &RANGED {
        expect_ranges(&rt, rt.alloc(), &units, *offset, wanted)?;
    }
    Ok(())
}

/// The ranges of an entry, read once more where an allocation was refused.
fn at_last(alloc: Global, units: &Units<'_>, entry: &Entry<'_>) -> Result<Vec<Range>, RangeFault> {
    let found = ranges_in(alloc, units, entry);
    let Err(RangeFault::Memory) = found else {
        return found;
    };
    ranges_in(alloc, units, entry)
}

/// The entry at an offset has these ranges, where they are read once more after an allocation was
/// refused; nothing is compared where the entry was refused one.
fn expect_at_last<A: Abort>(
    rt: &A,
    alloc: Global,
    units: &Units<'_>,
    offset: u64,
    wanted: &Ranged,
) {
    let Ok(Some(entry)) = entry_at(alloc, units, offset) else {
        return;
    };
    expect_ranged(rt, offset, &at_last(alloc, units, &entry), wanted);
}

/// Ranges for which an allocation is refused are out of memory, and the next call, with memory,
/// gives them whole.
#[test]
fn each_allocation_refused(rt: HostRuntime) -> Result<(), Fail> {
    let Ok(file) = file(rt.alloc()) else {
        return Ok(());
    };
    let Ok(units) = units_of(rt.alloc(), &file) else {
        return Ok(());
    };
    for (offset, wanted) in &RANGED {
        expect_at_last(&rt, rt.alloc(), &units, *offset, wanted);
    }
    Ok(())
}
