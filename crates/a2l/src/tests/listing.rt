//! The lines of `--units`.

use super::samples::{INLINED, MIXED, SMALLEST};
use super::{Setting, expect, poked, run_in, run_on};
use std::test::Fail;

pub const LIST: [&str; 3] = ["-e", "FILE", "--units"];

pub const INLINED_LISTING: &str = "0x0 version 5 compile\n0x5b version 5 partial\n";

/// Where the header of .debug_line is in the sample: the size is at 32 of it.
const LINE_HEADER: usize = 366 + 3 * 64;

/// A sample, bytes that are put into it at an offset, and its listing then.
const LISTINGS: [(&str, usize, &[u8], &str); 4] = [
    (SMALLEST, 0, &[], ""),
    (
        MIXED,
        0,
        &[],
        "0x0 version 4 skipped\n0xb version 5 compile\n0x66 version 5 partial\n",
    ),
    // without .debug_line
    (INLINED, 354, b"x", INLINED_LISTING),
    // the first entry's address is one by index, and no base is named: a listing reads no address
    (INLINED, 180, &[0x1b], INLINED_LISTING),
];

#[test]
fn listings(rt: HostRuntime) -> Result<(), Fail> {
    for (sample, at, new, text) in LISTINGS {
        let file = poked(rt.alloc(), sample, at, new)?;
        expect(&rt, &run_on(&rt, rt.alloc(), &file, &LIST), 0, text, "");
    }
    Ok(())
}

#[test]
fn cut_files(rt: HostRuntime) -> Result<(), Fail> {
    let rows = [
        (SMALLEST, 63, "a2l: file refused: 1 NotElf\n"),
        (INLINED, 685, "a2l: file refused: 4 SectionTable\n"),
    ];
    for (sample, size, line) in rows {
        let file = hex::decode(rt.alloc(), sample)?;
        let short = file.get(..size).ok_or("so many bytes")?;
        expect(&rt, &run_on(&rt, rt.alloc(), short, &LIST), 2, "", line);
    }
    Ok(())
}

#[test]
fn refusals(rt: HostRuntime) -> Result<(), Fail> {
    let alloc = rt.alloc();
    let table: [(usize, &[u8], &str); 15] = [
        (0, &[0], "1 NotElf"),
        (4, &[1], "2 NotElf64Little"),
        (5, &[2], "2 NotElf64Little"),
        (16, &[1], "3 Relocatable"),
        (58, &[63], "4 SectionTable"),
        (64, &[0x58], "7 UnitHeader 0x5c"),
        (64, &[0xff, 0xff, 0xff, 0xff], "7 UnitHeader 0x0"),
        (71, &[4], "9 AddressSize 0x0"),
        (567, &[8], "6 Compressed .debug_line"),
        (344, b".zdebug_line\0", "6 Compressed .debug_line"),
        // The code that the first unit's first entry wants has no declaration; the second unit's
        // first entry is a null one, has no declaration, or wants more bytes than the unit has.
        (174, &[8], "10 Root 0x0"),
        (167, &[0], "10 Root 0x5b"),
        (167, &[9], "10 Root 0x5b"),
        (167, &[2], "10 Root 0x5b"),
        // the second byte of the size of .debug_line
        (LINE_HEADER + 33, &[4], "5 SectionRange .debug_line"),
    ];
    for (at, new, fault) in table {
        let file = poked(alloc, INLINED, at, new)?;
        let line = format!(in alloc; "a2l: file refused: {fault}\n")?;
        expect(&rt, &run_on(&rt, rt.alloc(), &file, &LIST), 2, "", &line);
    }
    Ok(())
}

/// A section of type SHT_NOBITS takes no bytes of the file.
#[test]
fn section_without_bytes(rt: HostRuntime) -> Result<(), Fail> {
    let mut file = poked(rt.alloc(), INLINED, LINE_HEADER + 33, &[4])?;
    *file.get_mut(LINE_HEADER + 4).ok_or("the section's type")? = 8;
    expect(
        &rt,
        &run_on(&rt, rt.alloc(), &file, &LIST),
        0,
        INLINED_LISTING,
        "",
    );
    Ok(())
}

#[test]
fn no_device(rt: HostRuntime) {
    let outcome = run_in(&rt, rt.alloc(), Setting::NOTHING, &LIST);
    expect(&rt, &outcome, 3, "", "a2l: cannot read file\n");
}

/// How many bytes a write takes at most, and how a listing ends then.
const SHORT_WRITES: [(usize, u8, &str, &str); 2] = [
    (7, 0, INLINED_LISTING, ""),
    (0, 3, "", "a2l: write failed\n"),
];

#[test]
fn short_writes(rt: HostRuntime) -> Result<(), Fail> {
    let file = hex::decode(rt.alloc(), INLINED)?;
    for (write_most, status, output, errors) in SHORT_WRITES {
        let setting = Setting {
            file: Some(&file),
            write_most,
            ..Setting::NOTHING
        };
        let outcome = run_in(&rt, rt.alloc(), setting, &LIST);
        expect(&rt, &outcome, status, output, errors);
    }
    Ok(())
}

#[test]
fn failing_writes(rt: HostRuntime) -> Result<(), Fail> {
    let file = hex::decode(rt.alloc(), INLINED)?;
    for call in 0..7 {
        let setting = Setting {
            file: Some(&file),
            write_most: 7,
            write_fails_at: call,
            ..Setting::NOTHING
        };
        let beginning = INLINED_LISTING
            .as_bytes()
            .chunks(7)
            .take(call as usize)
            .flatten()
            .copied();
        let beginning: Vec<u8> = beginning.collect(rt.alloc())?;
        let outcome = run_in(&rt, rt.alloc(), setting, &LIST);
        assert_eq!(rt;
            outcome.output.as_slice(),
            beginning.as_slice(),
            "at call {call}"
        );
        assert_eq!(rt;
            outcome.errors.as_slice(),
            b"a2l: write failed\n".as_slice()
        );
        assert_eq!(rt; outcome.status, 3);
    }
    Ok(())
}
