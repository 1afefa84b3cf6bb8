//! Spans of the sample files, whose pieces were worked out by hand.

use super::samples::{INLINED, ONE_LOCATION, OVERLAPPING, OVERLAPPING_TURNED};
use super::{expect, poked, run_on};
use std::test::Fail;

/// A sample, what is asked of it, the status, and the lines that answer.
type Spanned = (&'static str, &'static [&'static str], u8, &'static str);

const SPANS: [Spanned; 13] = [
    (
        INLINED,
        &["-e", "FILE", "400000-500000"],
        0,
        "0x0000000000401000-0x0000000000401004 /w/a.c:3\n0x0000000000401004-0x000000000040100e /w/a.c:4\n",
    ),
    (
        INLINED,
        &["-e", "FILE", "401002-401006"],
        0,
        "0x0000000000401002-0x0000000000401004 /w/a.c:3\n0x0000000000401004-0x0000000000401006 /w/a.c:4\n",
    ),
    (INLINED, &["-e", "FILE", "400000-401000"], 0, "??:0\n"),
    (
        INLINED,
        &["-e", "FILE", "401000-401000"],
        1,
        "!bad address\n",
    ),
    // both units hold 0x2000; the one that is first answers
    (
        OVERLAPPING_TURNED,
        &["-e", "FILE", "1000-3000"],
        0,
        "0x0000000000002000-0x0000000000002010 /w/a.c:3\n",
    ),
    (OVERLAPPING, &["-e", "FILE", "1000-3000"], 0, "??:0\n"),
    // two rows of one location
    (
        ONE_LOCATION,
        &["-e", "FILE", "2000-2010"],
        0,
        "0x0000000000002000-0x0000000000002010 /w/a.c:3\n",
    ),
    // with -a the span, and nothing by -f and -i
    (
        INLINED,
        &[
            "-e",
            "FILE",
            "-a",
            "-f",
            "-i",
            "0x401003-0X0000000000401005",
        ],
        0,
        "0x0000000000401003-0x0000000000401005\n0x0000000000401003-0x0000000000401004 /w/a.c:3\n\
         0x0000000000401004-0x0000000000401005 /w/a.c:4\n",
    ),
    (
        INLINED,
        &["-e", "FILE", "-a", "0-1"],
        0,
        "0x0000000000000000-0x0000000000000001\n??:0\n",
    ),
    // all addresses but the last
    (
        INLINED,
        &["-e", "FILE", "0-ffffffffffffffff"],
        0,
        "0x0000000000401000-0x0000000000401004 /w/a.c:3\n0x0000000000401004-0x000000000040100e /w/a.c:4\n",
    ),
    // an address and the spans that begin with it, of which one is asked twice
    (
        INLINED,
        &[
            "-e",
            "FILE",
            "-a",
            "401003-401005",
            "401003",
            "401003-401004",
            "401003-401005",
        ],
        0,
        "0x0000000000401003-0x0000000000401005\n0x0000000000401003-0x0000000000401004 /w/a.c:3\n\
         0x0000000000401004-0x0000000000401005 /w/a.c:4\n0x0000000000401003\n/w/a.c:3\n\
         0x0000000000401003-0x0000000000401004\n0x0000000000401003-0x0000000000401004 /w/a.c:3\n\
         0x0000000000401003-0x0000000000401005\n0x0000000000401003-0x0000000000401004 /w/a.c:3\n\
         0x0000000000401004-0x0000000000401005 /w/a.c:4\n",
    ),
    // no spans
    (
        INLINED,
        &[
            "-e",
            "FILE",
            "-a",
            "401004-401000",
            "401000-",
            "1-2-3",
            "zz-401000",
        ],
        1,
        "!bad address\n!bad address\n!bad address\n!bad address\n",
    ),
    (
        INLINED,
        &["-e", "FILE", "401000-00000000000401004", "401000--401004"],
        1,
        "!bad address\n!bad address\n",
    ),
];

#[test]
fn spans_of_samples(rt: HostRuntime) -> Result<(), Fail> {
    for (sample, words, status, text) in SPANS {
        let file = hex::decode(rt.alloc(), sample)?;
        expect(
            &rt,
            &run_on(&rt, rt.alloc(), &file, words),
            status,
            text,
            "",
        );
    }
    Ok(())
}

/// Bytes that are put into the sample at an offset, the span that is asked then, the status, and
/// the lines that answer.
type Damaged = (usize, &'static [u8], &'static str, u8, &'static str);

const DAMAGED: [Damaged; 4] = [
    // without .debug_line, the unit's lines can't be read, but no address is asked of it before
    // 0x401000
    (354, b"x", "400000-401001", 1, "!unit 0x0 fault 4\n"),
    (354, b"x", "40100d-401100", 1, "!unit 0x0 fault 4\n"),
    (354, b"x", "400000-401000", 0, "??:0\n"),
    // with another code at 0x23 its entries can't be read, which is no fault of a span
    (
        64 + 0x23,
        &[0x63],
        "401003-401005",
        0,
        "0x0000000000401003-0x0000000000401004 /w/a.c:3\n0x0000000000401004-0x0000000000401005 /w/a.c:4\n",
    ),
];

#[test]
fn spans_of_damaged_samples(rt: HostRuntime) -> Result<(), Fail> {
    for (at, new, span, status, text) in DAMAGED {
        let file = poked(rt.alloc(), INLINED, at, new)?;
        let words = ["-e", "FILE", span];
        expect(
            &rt,
            &run_on(&rt, rt.alloc(), &file, &words),
            status,
            text,
            "",
        );
    }
    Ok(())
}
