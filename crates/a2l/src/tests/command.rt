//! Command lines.

use super::listing::{INLINED_LISTING, LIST};
use super::samples::INLINED;
use super::{USAGE_LINE, expect, run_on};
use std::test::Fail;

#[test]
fn usage(rt: HostRuntime) {
    expect(&rt, &run_on(&rt, rt.alloc(), &[], &[]), 0, USAGE_LINE, "");
    let refused: [&[&str]; 10] = [
        &["-f"],
        &["--help"],
        &["--units"],
        &["-e", "FILE", "--units", "--workers", "0"],
        &["-e", "FILE", "--units", "--workers", "65"],
        &["-e", "FILE", "--units", "--senders=0"],
        &["-e", "FILE", "--units", "--senders", "x"],
        &["-e", "FILE", "-e", "FILE", "--units"],
        &["-e", "FILE", "-x", "--units"],
        &["-e"],
    ];
    for words in refused {
        expect(&rt, &run_on(&rt, rt.alloc(), &[], words), 2, "", USAGE_LINE);
    }
}

#[test]
fn spellings(rt: HostRuntime) -> Result<(), Fail> {
    let file = hex::decode(rt.alloc(), INLINED)?;
    let accepted: [&[&str]; 6] = [
        &LIST,
        &["-eFILE", "--units"],
        &["--units", "-fia", "-e", "FILE"],
        &["--units", "--workers=64", "--senders", "64", "-e", "FILE"],
        &["--units", "-e", "FILE", "401000", "zz"],
        &["--units", "-e", "FILE", "--", "401000"],
    ];
    for words in accepted {
        expect(
            &rt,
            &run_on(&rt, rt.alloc(), &file, words),
            0,
            INLINED_LISTING,
            "",
        );
    }
    Ok(())
}
