//! Addresses of the sample files, whose frames were worked out by hand.

use super::samples::{FOLLOWED, INLINED, MIXED, OVERLAPPING, OVERLAPPING_TURNED, SMALLEST};
use super::{Setting, expect, poked, run_in, run_on};
use std::alloc::Global;
use std::sync::Wait;
use std::test::Fail;
use std::thread::Threads;

/// A sample, what is asked of it, and the lines that answer.
type Answered = (&'static str, &'static [&'static str], &'static str);

const ANSWERS: [Answered; 8] = [
    (
        INLINED,
        &["-e", "FILE", "-a", "-f", "-i", "0x401004"],
        "0x0000000000401004\nleaf\n/w/a.c:4\nmid\n/w/a.c:30\nmain\n/w/z.c:20\n",
    ),
    (
        INLINED,
        &["-e", "FILE", "-a", "-f", "0x401004"],
        "0x0000000000401004\nleaf\n/w/a.c:4\n",
    ),
    // borders of frames
    (
        INLINED,
        &["-e", "FILE", "-f", "-i", "401000", "401006", "40100e"],
        "main\n/w/a.c:3\nmid\n/w/a.c:4\nmain\n/w/z.c:20\n??\n??:0\n",
    ),
    // after a unit of version 4 the reference of the second frame leads into a header
    (
        MIXED,
        &["-e", "FILE", "-f", "-i", "401003"],
        "??\n/w/a.c:3\nmain\n/w/z.c:20\n",
    ),
    (SMALLEST, &["-e", "FILE", "0x0"], "??:0\n"),
    // both units hold the address; the one that is first answers, and only one of them has lines
    (OVERLAPPING, &["-e", "FILE", "-f", "2000"], "??\n??:0\n"),
    (
        OVERLAPPING_TURNED,
        &["-e", "FILE", "-f", "2000"],
        "??\n/w/a.c:3\n",
    ),
    // units in turn
    (
        FOLLOWED,
        &[
            "-e", "FILE", "-f", "-i", "401004", "500001", "401004", "500004",
        ],
        "leaf\n/w/a.c:4\nmid\n/w/a.c:30\nmain\n/w/z.c:20\n??\n??:0\n\
         leaf\n/w/a.c:4\nmid\n/w/a.c:30\nmain\n/w/z.c:20\n??\n??:0\n",
    ),
];

/// The writer takes all at once, or at most 7 bytes a call.
#[test]
fn frames_of_samples(rt: HostRuntime) -> Result<(), Fail> {
    for (sample, words, text) in ANSWERS {
        let file = hex::decode(rt.alloc(), sample)?;
        for write_most in [usize::MAX, 7] {
            let setting = Setting {
                file: Some(&file),
                write_most,
                ..Setting::NOTHING
            };
            expect(&rt, &run_in(&rt, rt.alloc(), setting, words), 0, text, "");
        }
    }
    Ok(())
}

/// Bytes that are put into the sample at an offset, what is asked of it then, and how that ends:
/// the status, the lines that answer, and the line that reports an error.
type Damaged = (
    usize,
    &'static [u8],
    &'static [&'static str],
    u8,
    &'static str,
    &'static str,
);

const DAMAGED: [Damaged; 4] = [
    // the entry at 0x47 says that it is an instance of itself
    (
        64 + 0x48,
        &[0x47],
        &["-e", "FILE", "-f", "401004"],
        0,
        "??\n/w/a.c:4\n",
        "",
    ),
    // without .debug_line, the unit's lines can't be read
    (
        354,
        b"x",
        &["-e", "FILE", "401000", "zz"],
        1,
        "!unit 0x0 fault 4\n!bad address\n",
        "",
    ),
    // with another code at 0x23, its entries can't
    (
        64 + 0x23,
        &[0x63],
        &["-e", "FILE", "401000"],
        1,
        "!unit 0x0 fault 1\n",
        "",
    ),
    // the first entry's address is one by index, and no base is named
    (
        180,
        &[0x1b],
        &["-e", "FILE", "401000"],
        2,
        "",
        "a2l: file refused: 11 RootRanges 0x0\n",
    ),
];

#[test]
fn frames_of_damaged_samples(rt: HostRuntime) -> Result<(), Fail> {
    for (at, new, words, status, text, errors) in DAMAGED {
        let file = poked(rt.alloc(), INLINED, at, new)?;
        expect(
            &rt,
            &run_on(&rt, rt.alloc(), &file, words),
            status,
            text,
            errors,
        );
    }
    Ok(())
}

/// A byte, and how many runs end with status 0, 1 and 2 where each byte of the sample in turn is
/// changed to it: the counts of `tests/model`.
static CHANGED: [(u8, [usize; 3]); 4] = [
    (0, [594, 52, 40]),
    (0x7f, [472, 81, 133]),
    (0x80, [454, 89, 143]),
    (0xff, [446, 92, 148]),
];

/// The status of a run over a file with one byte changed.
fn status_with<T: Threads + Wait + Sync>(
    rt: &T,
    alloc: Global,
    file: &[u8],
    at: usize,
    new: u8,
) -> Result<u8, Fail> {
    let mut changed = Vec::from_slice(alloc, file)?;
    *changed.get_mut(at).ok_or("a place in the file")? = new;
    let words = ["-e", "FILE", "-a", "-f", "-i", "401004"];
    Ok(run_on(rt, alloc, &changed, &words).status)
}

/// How many of these runs end with each status.
fn statuses_with<T: Threads + Wait + Sync>(
    rt: &T,
    alloc: Global,
    file: &[u8],
    new: u8,
) -> Result<[usize; 3], Fail> {
    let mut statuses = [0; 3];
    for at in 0..file.len() {
        let status = status_with(rt, alloc, file, at, new)?;
        let count: &mut usize = statuses
            .get_mut(usize::from(status))
            .ok_or("status 0, 1 or 2")?;
        *count = count.saturating_add(1);
    }
    Ok(statuses)
}

#[test]
fn each_byte_changed(rt: HostRuntime) -> Result<(), Fail> {
    let file = hex::decode(rt.alloc(), INLINED)?;
    for (new, statuses) in &CHANGED {
        let found = statuses_with(&rt, rt.alloc(), &file, *new)?;
        assert_eq!(rt; found, *statuses, "for {new}");
    }
    Ok(())
}
