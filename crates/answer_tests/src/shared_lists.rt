//! Units whose first entries name one range list, worked out by hand.

use crate::contexts::image_of;
use crate::expect::expect;
use dw_elf::{Name, OpenFault};
use dw_symbols::Image;
use std::alloc::{AllocError, Global};
use std::process::Abort;
use std::test::Fail;
use test_inputs::files::{elf, push_unit};

/// A unit with a range list, one with a range list and an address, one with an address and how many
/// it has, and one with a range list and the index of an address.
const ABBREVS: &[u8] = &[
    1, 0x11, 0, 0x55, 0x17, 0, 0, 2, 0x11, 0, 0x55, 0x17, 0x11, 1, 0, 0, 3, 0x11, 0, 0x11, 1, 0x12,
    6, 0, 0, 4, 0x11, 0, 0x55, 0x17, 0x11, 0x1b, 0, 0, 0,
];

/// Lists at 0: 0x10 to 0x20 from the base of the unit on; at 4: 0x10 to 0x30; at 8 one that has no
/// end.
const LISTS: &[u8] = &[4, 0x10, 0x20, 0, 4, 0x10, 0x30, 0, 4, 5];

/// Units with these first entries.
fn info_of(alloc: Global, roots: &[&[u8]]) -> Result<Vec<u8>, AllocError> {
    let mut info = Vec::new(alloc);
    for root in roots {
        push_unit(&mut info, root)?;
    }
    Ok(info)
}

/// A file of units and lists.
fn file_with<'a>(alloc: Global, info: &'a [u8], lists: &'a [u8]) -> Result<Vec<u8>, AllocError> {
    elf(
        alloc,
        &[
            (Name::DebugInfo, info),
            (Name::DebugAbbrev, ABBREVS),
            (Name::DebugRnglists, lists),
        ],
    )
}

/// A file of units with these first entries, and these lists.
fn file_of(alloc: Global, roots: &[&[u8]], lists: &[u8]) -> Result<Vec<u8>, AllocError> {
    let info = info_of(alloc, roots)?;
    file_with(alloc, &info, lists)
}

/// An address, and the index of the unit that answers.
type Place = (u64, Option<usize>);

/// The index of the unit that answers an address. No clause says what it is, so that its callers
/// are proved soon.
fn place_of(image: &Image<'_>, a: u64) -> Option<usize> {
    image.unit_place(a).map(|found| found.place)
}

/// How many ranges are kept and lists are held, in the same way.
fn kept_in(image: &Image<'_>) -> usize {
    image.kept()
}

/// These units answer.
fn expect_places<A: Abort>(rt: &A, image: &Image<'_>, places: &[Place]) {
    for (a, wanted) in places {
        expect(rt, a, &place_of(image, *a), wanted);
    }
}

/// Lists at 0: 0x10 to 0x20 and 0x30 to 0x40 from the base of the unit on; at 7 one that has no
/// end. So two ranges of lists are kept.
const FEW: &[u8] = &[4, 0x10, 0x20, 4, 0x30, 0x40, 0, 5];

/// The two ranges of unit 0 are kept, and the one of unit 3, 0x118 to 0x150. The units 1, 2 and 4
/// are held by the list at 0, which counts from 0x100, 0x108 and 0x10.
const HELD: &[&[u8]] = &[
    &[1, 0, 0, 0, 0],
    &[2, 0, 0, 0, 0, 0, 1, 0, 0, 0, 0, 0, 0],
    &[2, 0, 0, 0, 0, 8, 1, 0, 0, 0, 0, 0, 0],
    &[3, 0x18, 1, 0, 0, 0, 0, 0, 0, 0x38, 0, 0, 0],
    &[2, 0, 0, 0, 0, 0x10, 0, 0, 0, 0, 0, 0, 0],
];

/// The indexes of the units that answer the first and the last address of each stretch.
static HELD_PLACES: [Place; 25] = [
    (0, None),
    (0x0f, None),
    (0x10, Some(0)),
    (0x1f, Some(0)),
    (0x20, Some(4)),
    (0x2f, Some(4)),
    (0x30, Some(0)),
    (0x3f, Some(0)),
    (0x40, Some(4)),
    (0x4f, Some(4)),
    (0x50, None),
    (0x10f, None),
    (0x110, Some(1)),
    (0x11f, Some(1)),
    (0x120, Some(2)),
    (0x127, Some(2)),
    (0x128, Some(3)),
    (0x12f, Some(3)),
    (0x130, Some(1)),
    (0x13f, Some(1)),
    (0x140, Some(2)),
    (0x147, Some(2)),
    (0x148, Some(3)),
    (0x14f, Some(3)),
    (0x150, None),
];

/// The units are held, and answer addresses.
fn expect_held<A: Abort>(rt: &A, image: &Image<'_>) {
    expect(rt, "kept", &kept_in(image), &6);
    expect_places(rt, image, &HELD_PLACES);
}

#[test]
fn units_held_by_their_lists(rt: HostRuntime) -> Result<(), Fail> {
    let file = file_of(rt.alloc(), HELD, FEW)?;
    let image = image_of(rt.alloc(), &file)?;
    expect_held(&rt, &image);
    Ok(())
}

/// A list at 0: 0x10 to 0x20 from the base of the unit on, 0x1000 to 0x1010 from any, and 0x2000 to
/// 0x2008 from a base that the list sets.
const FROM_BASES: &[u8] = &[
    4, 0x10, 0x20, 6, 0, 0x10, 0, 0, 0, 0, 0, 0, 0x10, 0x10, 0, 0, 0, 0, 0, 0, 5, 0, 0x20, 0, 0, 0,
    0, 0, 0, 4, 0, 8, 0,
];

/// Units that name this list, with the bases 0, 0x100, 2^64 - 0x21 and 2^64 - 0x20. It is read for
/// the first two, and asked by an index from then on. From the last base its first range ends at
/// 2^64, so it doesn't count.
const BASED: &[&[u8]] = &[
    &[1, 0, 0, 0, 0],
    &[2, 0, 0, 0, 0, 0, 1, 0, 0, 0, 0, 0, 0],
    &[
        2, 0, 0, 0, 0, 0xdf, 0xff, 0xff, 0xff, 0xff, 0xff, 0xff, 0xff,
    ],
    &[
        2, 0, 0, 0, 0, 0xe0, 0xff, 0xff, 0xff, 0xff, 0xff, 0xff, 0xff,
    ],
];

static BASED_PLACES: [Place; 19] = [
    (0x10, Some(0)),
    (0x1f, Some(0)),
    (0x20, None),
    (0x10f, None),
    (0x110, Some(1)),
    (0x11f, Some(1)),
    (0x120, None),
    (0x1000, Some(0)),
    (0x100f, Some(0)),
    (0x1010, None),
    (0x1100, None),
    (0x2000, Some(0)),
    (0x2007, Some(0)),
    (0x2008, None),
    (0x2100, None),
    (0xffff_ffff_ffff_ffee, None),
    (0xffff_ffff_ffff_ffef, Some(2)),
    (0xffff_ffff_ffff_fffe, Some(2)),
    (0xffff_ffff_ffff_ffff, None),
];

#[test]
fn one_list_from_many_bases(rt: HostRuntime) -> Result<(), Fail> {
    let file = file_of(rt.alloc(), BASED, FROM_BASES)?;
    let image = image_of(rt.alloc(), &file)?;
    expect_places(&rt, &image, &BASED_PLACES);
    Ok(())
}

/// A list at 0: 0x10 to 0x20, 0x30 to 0x40 and 0x50 to 0x60 from the base of the unit on; its tails
/// begin at 3 and 6.
const TAILS: &[u8] = &[4, 0x10, 0x20, 4, 0x30, 0x40, 4, 0x50, 0x60, 0];

/// Unit 0 has its ranges, from 0, for which as many bytes of lists are read as there are. The
/// others count from 0x100: unit 1 has the tail at 3, and is held; of unit 2 the first range is
/// kept, since its list goes on as that tail; unit 3 has the tail at 6, and owns no address.
const ALIKE: &[&[u8]] = &[
    &[1, 0, 0, 0, 0],
    &[2, 3, 0, 0, 0, 0, 1, 0, 0, 0, 0, 0, 0],
    &[2, 0, 0, 0, 0, 0, 1, 0, 0, 0, 0, 0, 0],
    &[2, 6, 0, 0, 0, 0, 1, 0, 0, 0, 0, 0, 0],
];

static ALIKE_PLACES: [Place; 12] = [
    (0x10, Some(0)),
    (0x5f, Some(0)),
    (0x60, None),
    (0x10f, None),
    (0x110, Some(2)),
    (0x11f, Some(2)),
    (0x120, None),
    (0x130, Some(1)),
    (0x13f, Some(1)),
    (0x150, Some(1)),
    (0x15f, Some(1)),
    (0x160, None),
];

#[test]
fn lists_that_end_alike(rt: HostRuntime) -> Result<(), Fail> {
    let file = file_of(rt.alloc(), ALIKE, TAILS)?;
    let image = image_of(rt.alloc(), &file)?;
    expect(&rt, "kept", &kept_in(&image), &5);
    expect_places(&rt, &image, &ALIKE_PLACES);
    Ok(())
}

/// Units with lists, and where the unit begins of which the list can't be read.
type Bad = (&'static [&'static [u8]], &'static [u8], u64);

static BAD: [Bad; 3] = [
    // A list that can't be read is reported of the first unit that names it, after units of a list
    // that was read.
    (
        &[
            &[1, 0, 0, 0, 0],
            &[1, 0, 0, 0, 0],
            &[1, 8, 0, 0, 0],
            &[1, 8, 0, 0, 0],
        ],
        LISTS,
        34,
    ),
    // It is reported where no more ranges are kept, too.
    (
        &[
            &[1, 0, 0, 0, 0],
            &[2, 0, 0, 0, 0, 0, 1, 0, 0, 0, 0, 0, 0],
            &[2, 7, 0, 0, 0, 0, 1, 0, 0, 0, 0, 0, 0],
        ],
        FEW,
        42,
    ),
    // A list asked by an index can't be read from a base that can't be read, as the unit has no
    // place of addresses.
    (
        &[
            &[1, 0, 0, 0, 0],
            &[2, 0, 0, 0, 0, 0, 1, 0, 0, 0, 0, 0, 0],
            &[4, 0, 0, 0, 0, 0],
        ],
        FROM_BASES,
        42,
    ),
];

#[test]
fn bad_lists(rt: HostRuntime) -> Result<(), Fail> {
    for (roots, lists, unit) in &BAD {
        let file = file_of(rt.alloc(), roots, lists)?;
        let fault = image_of(rt.alloc(), &file).err();
        expect(&rt, unit, &fault, &Some(OpenFault::RootRanges(*unit)));
    }
    Ok(())
}
