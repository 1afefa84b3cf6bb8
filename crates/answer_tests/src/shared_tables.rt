//! Units that name one line table, each with its own directory and texts, worked out by hand.

use crate::answers::{Question, Row, Wanted, expect_answers};
use dw_elf::Name;
use dw_symbols::UnitFault;
use std::alloc::{AllocError, Global};
use std::test::Fail;
use test_inputs::files::{elf, line_table};

/// The header of a line table after its length, without directories, whose file 0 is the text with
/// the index 0 after the unit's base.
const HEADER: &[u8] = &[
    5, 0, 8, 0, 0x19, 0, 0, 0, 1, 1, 1, 0xfb, 0x0e, 0x0d, 0, 1, 1, 1, 1, 0, 0, 0, 1, 0, 0, 1, 0, 0,
    1, 1, 0x1a, 1, 0,
];

/// 0x1000 line 3 of file 0, 0x1010 line 4, end 0x1030.
const ROWS: &[u8] = &[
    0, 9, 2, 0, 0x10, 0, 0, 0, 0, 0, 0, 4, 0, 0x14, 0xf3, 2, 0x20, 0, 1, 1,
];

/// A compile unit without children: where its line table begins, its directory, its base in
/// .debug_str_offsets, its first address and how many there are.
const ABBREVS: &[u8] = &[
    1, 0x11, 0, 0x10, 0x17, 0x1b, 8, 0x72, 0x17, 0x11, 1, 0x12, 6, 0, 0, 0,
];

/// Three units of 0x24 bytes. The one at 0 was compiled in `/a`, has its texts from 0 on, and
/// covers 0x1000 to 0x1010; the one at 0x24 was compiled in `/b`, has them from 4 on, and covers
/// 0x1010 to 0x1020. Both name the line table at 0. The one at 0x48, which covers 0x1020 to 0x1030,
/// names one at 0x100, where there is none.
const INFO: &[u8] = &[
    0x20, 0, 0, 0, 5, 0, 1, 8, 0, 0, 0, 0, // 0x0c
    1, 0, 0, 0, 0, b'/', b'a', 0, 0, 0, 0, 0, 0, 0x10, 0, 0, 0, 0, 0, 0, 0x10, 0, 0, 0, // 0x24
    0x20, 0, 0, 0, 5, 0, 1, 8, 0, 0, 0, 0, // 0x30
    1, 0, 0, 0, 0, b'/', b'b', 0, 4, 0, 0, 0, 0x10, 0x10, 0, 0, 0, 0, 0, 0, 0x10, 0, 0, 0, // 0x48
    0x20, 0, 0, 0, 5, 0, 1, 8, 0, 0, 0, 0, // 0x54
    1, 0, 1, 0, 0, b'/', b'a', 0, 0, 0, 0, 0, 0x20, 0x10, 0, 0, 0, 0, 0, 0, 0x10, 0, 0, 0,
];

/// The text of `/a` is `one.c`, that of `/b` is `two.c`.
const STR_OFFSETS: &[u8] = &[0, 0, 0, 0, 6, 0, 0, 0];

fn shared(alloc: Global) -> Result<Vec<u8>, AllocError> {
    let lines = line_table(alloc, HEADER, ROWS)?;
    elf(
        alloc,
        &[
            (Name::DebugInfo, INFO),
            (Name::DebugAbbrev, ABBREVS),
            (Name::DebugLine, &lines),
            (Name::DebugStr, b"one.c\0two.c\0"),
            (Name::DebugStrOffsets, STR_OFFSETS),
        ],
    )
}

/// At 0x1000 to 0x1010.
const FIRST: Wanted<'_> = Wanted::Frames(0, &[(None, Some(b"/a/one.c"), Some(3), Some(0))]);

/// At 0x1010 to 0x1020.
const SECOND: Wanted<'_> = Wanted::Frames(0x24, &[(None, Some(b"/b/two.c"), Some(4), Some(0))]);

/// The unit at 0x48 can't be answered, since its line table can't be read.
const FAULT: Wanted<'_> = Wanted::Fault(0x48, UnitFault::Line);

/// Units that have one table, by turns, and after each of them the one that can't be answered.
static FRAMES: [Row<'static>; 25] = [
    (Question::Frames(0x1000), FIRST),
    (Question::Location(0x1000), FIRST),
    (Question::Location(0x1020), FAULT),
    (Question::Location(0x1000), FIRST),
    (Question::Frames(0x1020), FAULT),
    (Question::Frames(0x1010), SECOND),
    (Question::Location(0x1010), SECOND),
    (Question::Location(0x1020), FAULT),
    (Question::Location(0x1010), SECOND),
    (Question::Frames(0x1020), FAULT),
    (Question::Frames(0x100f), FIRST),
    (Question::Location(0x100f), FIRST),
    (Question::Location(0x1020), FAULT),
    (Question::Location(0x100f), FIRST),
    (Question::Frames(0x1020), FAULT),
    (Question::Frames(0x101f), SECOND),
    (Question::Location(0x101f), SECOND),
    (Question::Location(0x1020), FAULT),
    (Question::Location(0x101f), SECOND),
    (Question::Frames(0x1020), FAULT),
    (Question::Frames(0x1000), FIRST),
    (Question::Location(0x1000), FIRST),
    (Question::Location(0x1020), FAULT),
    (Question::Location(0x1000), FIRST),
    (Question::Frames(0x1020), FAULT),
];

/// Spans over the first two units, and over all three.
static SPANS: [Row<'static>; 2] = [
    (
        Question::Span(0x1000, 0x1020),
        Wanted::Pieces(&[
            (0x1000, 0x1010, b"/a/one.c", 3),
            (0x1010, 0x1020, b"/b/two.c", 4),
        ]),
    ),
    (Question::Span(0x1000, 0x1030), FAULT),
];

#[test]
fn two_directories_of_one_table(rt: HostRuntime) -> Result<(), Fail> {
    let file = shared(rt.alloc())?;
    expect_answers(&rt, rt.alloc(), &file, &FRAMES)?;
    expect_answers(&rt, rt.alloc(), &file, &SPANS)
}
