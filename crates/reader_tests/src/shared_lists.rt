//! Functions that name one range list, and lists with more ranges than a tree keeps, worked out by
//! hand.

use crate::expect::expect;
use crate::trees::{expect_chains, fault_of_first, tree_of};
use dw_elf::Name;
use dw_frames::TreeFault;
use std::alloc::{AllocError, Global};
use std::process::Abort;
use std::test::Fail;
use test_inputs::files::{elf, unit_of};

/// A unit, a subprogram with children and an inlined subroutine, both with a range list.
const ABBREVS: &[u8] = &[
    1, 0x11, 1, 0, 0, 2, 0x2e, 1, 0x55, 0x17, 0, 0, 3, 0x1d, 0, 0x55, 0x17, 0, 0, 0,
];

/// Lists at 0: 0x10 to 0x20 and 0x40 to 0x50; at 7: 0x10 to 0x18; at 11: 0x40 to 0x48; at 15: a
/// range without addresses; at 19 one that has no end.
const LISTS: &[u8] = &[
    4, 0x10, 0x20, 4, 0x40, 0x50, 0, 4, 0x10, 0x18, 0, 4, 0x40, 0x48, 0, 4, 5, 5, 0, 4, 5,
];

/// The bytes of a function that is inlined in none, with the list at 0.
const LOOSE: &[u8] = &[3, 0, 0, 0, 0];

/// The entries of a unit whose first entry has so many functions of `LOOSE` below it, and then
/// these; the first is at 13, where there are none of `LOOSE`.
fn entries_behind(alloc: Global, loose: usize, entries: &[u8]) -> Result<Vec<u8>, AllocError> {
    let mut all = Vec::from_slice(alloc, &[1])?;
    for _ in 0..loose {
        all.extend_from_slice(LOOSE)?;
    }
    all.extend_from_slice(entries)?;
    Ok(all)
}

/// A file of units and lists.
fn file_with<'a>(alloc: Global, info: &'a [u8], lists: &'a [u8]) -> Result<Vec<u8>, AllocError> {
    elf(
        alloc,
        &[
            (Name::DebugInfo, info),
            (Name::DebugAbbrev, ABBREVS),
            (Name::DebugRnglists, lists),
        ],
    )
}

/// A file of a unit with these entries, and lists.
fn file_of(alloc: Global, entries: &[u8], lists: &[u8]) -> Result<Vec<u8>, AllocError> {
    let info = unit_of(alloc, entries)?;
    file_with(alloc, &info, lists)
}

/// The functions at addresses are these, whose offsets are those in a unit that has so many bytes
/// less before them.
fn expect_functions<A: Abort>(
    rt: &A,
    alloc: Global,
    file: &[u8],
    chains: &[(u64, &[u64])],
    before: usize,
) -> Result<(), Fail> {
    let tree = tree_of(alloc, file)?;
    expect_chains(rt, alloc, &tree, chains, before as u64)
}

/// Subprograms at 13 and 34 of the list at 0, with functions inlined at 18, 23 and 28, and at 39;
/// one at 45 of the list at 7, and two without addresses at 51 and 62, with one inlined at 56.
const LATER: &[u8] = &[
    2, 0, 0, 0, 0, 3, 7, 0, 0, 0, 3, 7, 0, 0, 0, 3, 11, 0, 0, 0, 0, 2, 0, 0, 0, 0, 3, 7, 0, 0, 0,
    0, 2, 7, 0, 0, 0, 0, 2, 15, 0, 0, 0, 3, 7, 0, 0, 0, 0, 2, 15, 0, 0, 0, 0, 0,
];

/// The functions at addresses, innermost first.
const OF_LATER: &[(u64, &[u64])] = &[
    (0x0f, &[]),
    (0x10, &[18, 13]),
    (0x17, &[18, 13]),
    (0x18, &[13]),
    (0x40, &[28, 13]),
    (0x48, &[13]),
    (0x50, &[]),
];

/// A subprogram at 13 of the list at 11, with one inlined at 18 of the list at 0; one at 24 of the
/// list at 0, with two inlined at 29 and 34 of the same list.
const CALLERS: &[u8] = &[
    2, 11, 0, 0, 0, 3, 0, 0, 0, 0, 0, 2, 0, 0, 0, 0, 3, 0, 0, 0, 0, 3, 0, 0, 0, 0, 0, 0,
];

/// The functions at addresses, innermost first.
const OF_CALLERS: &[(u64, &[u64])] = &[
    (0x10, &[29, 24]),
    (0x20, &[]),
    (0x40, &[18, 13]),
    (0x47, &[18, 13]),
    (0x48, &[29, 24]),
];

/// Entries, and the functions at addresses: the first of those that name one list answers, and a
/// list of a function that is inlined in another caller, or of the caller, is one's own too.
static SHARING: [(&[u8], &[(u64, &[u64])]); 2] = [(LATER, OF_LATER), (CALLERS, OF_CALLERS)];

/// How many functions of `LOOSE` are before others. Each reads seven bytes of a list and has five,
/// so with the last two as many bytes of lists are read as the unit has, and lists are noted.
static LOOSE_COUNTS: [usize; 4] = [0, 1, 35, 60];

#[test]
fn functions_of_one_list(rt: HostRuntime) -> Result<(), Fail> {
    for (entries, chains) in &SHARING {
        for loose in &LOOSE_COUNTS {
            let entries = entries_behind(rt.alloc(), *loose, entries)?;
            let file = file_of(rt.alloc(), &entries, LISTS)?;
            expect_functions(&rt, rt.alloc(), &file, chains, *loose * LOOSE.len())?;
        }
    }
    Ok(())
}

/// Entries, and why the unit's functions can't be read, if they can't.
static FAULTS: [(&[u8], Option<TreeFault>); 4] = [
    (&[2, 0, 0, 0, 0, 0, 2, 0, 0, 0, 0, 0, 0], None),
    (
        &[2, 0, 0, 0, 0, 0, 2, 19, 0, 0, 0, 0, 0],
        Some(TreeFault::Ranges),
    ),
    // in a function that answers nothing
    (
        &[2, 0, 0, 0, 0, 0, 2, 0, 0, 0, 0, 3, 19, 0, 0, 0, 0, 0],
        Some(TreeFault::Ranges),
    ),
    (
        &[2, 0, 0, 0, 0, 0, 2, 0, 0, 0, 0, 0x7f, 0, 0],
        Some(TreeFault::Entry),
    ),
];

#[test]
fn faults_behind_a_list_that_was_read(rt: HostRuntime) -> Result<(), Fail> {
    for (i, (entries, fault)) in FAULTS.iter().enumerate() {
        for loose in &LOOSE_COUNTS {
            let entries = entries_behind(rt.alloc(), *loose, entries)?;
            let file = file_of(rt.alloc(), &entries, LISTS)?;
            expect(&rt, i, &fault_of_first(rt.alloc(), &file)?, fault);
        }
    }
    Ok(())
}

/// Subprograms at 13, 29 and 45, of the lists at 54, 0 and 61; of functions inlined in the first
/// one at 18 and 23 of the lists at 57 and 0, and in the second at 34 and 39 of those at 3 and 61.
/// The unit has 52 bytes, so 13 ranges may be kept of lists that have more than one: the lists at 0
/// and 3 are too long.
const HELD: &[u8] = &[
    1, 2, 54, 0, 0, 0, 3, 57, 0, 0, 0, 3, 0, 0, 0, 0, 0, 2, 0, 0, 0, 0, 3, 3, 0, 0, 0, 3, 61, 0, 0,
    0, 0, 2, 61, 0, 0, 0, 0, 0,
];

/// Twenty ranges: two addresses from 4 on, two from 8 on, and so on to those from 80 on; the list
/// at 3 * n has all but the first n. At 61 is a list of the two addresses from 8 on.
fn held_lists(alloc: Global) -> Result<Vec<u8>, AllocError> {
    let mut lists = Vec::new(alloc);
    for i in 1..21u8 {
        lists.extend_from_slice(&[4, 4 * i, 4 * i + 2])?;
    }
    lists.extend_from_slice(&[0, 4, 8, 10, 0])?;
    Ok(lists)
}

/// The functions at addresses, innermost first.
const OF_HELD: &[(u64, &[u64])] = &[
    (3, &[]),
    (4, &[29]),
    (6, &[]),
    (8, &[34, 29]),
    (32, &[34, 29]),
    (76, &[23, 13]),
    (80, &[18, 13]),
    (82, &[]),
];

#[test]
fn lists_read_for_each_address(rt: HostRuntime) -> Result<(), Fail> {
    let lists = held_lists(rt.alloc())?;
    let file = file_of(rt.alloc(), HELD, &lists)?;
    expect_functions(&rt, rt.alloc(), &file, OF_HELD, 0)
}
