//! What is asked for, in the smallest file, which covers no address.

use super::samples::{FOLLOWED, INLINED, SMALLEST};
use super::{Setting, expect, poked, run_in, run_on, run_over};
use std::test::Fail;

const PLAIN: [&str; 2] = ["-e", "FILE"];

#[test]
fn lines_of_input(rt: HostRuntime) -> Result<(), Fail> {
    let alloc = rt.alloc();
    let file = hex::decode(alloc, SMALLEST)?;
    let bad = "!bad address\n";
    let table: [(&[u8], u8, &str); 9] = [
        (b"", 0, ""),
        (b"0x401000\n", 0, "??:0\n"),
        (b"1\r\n2", 0, "??:0\n??:0\n"),
        (b"\n", 1, bad),
        (b"zz\n1", 1, "!bad address\n??:0\n"),
        (b"1\r", 1, bad),
        (b"1\r\r\n", 1, bad),
        (b"00000000000000001\n", 1, bad),
        (b"0X00000000000000fF\n", 0, "??:0\n"),
    ];
    for (input, status, output) in table {
        for read_most in [usize::MAX, 1] {
            let setting = Setting {
                file: Some(&file),
                input,
                read_most,
                ..Setting::NOTHING
            };
            let outcome = run_in(&rt, rt.alloc(), setting, &PLAIN);
            expect(&rt, &outcome, status, output, "");
        }
    }
    Ok(())
}

#[test]
fn words_before_lines(rt: HostRuntime) -> Result<(), Fail> {
    let file = hex::decode(rt.alloc(), SMALLEST)?;
    let words = ["-e", "FILE", "-a", "-f", "-i", "4f", "0x", "401000"];
    let output = "0x000000000000004f\n??\n??:0\n!bad address\n0x0000000000401000\n??\n??:0\n";
    // The reader would fail, but it isn't read.
    let setting = Setting {
        file: Some(&file),
        read_fails_at: 0,
        ..Setting::NOTHING
    };
    expect(
        &rt,
        &run_in(&rt, rt.alloc(), setting, &words),
        1,
        output,
        "",
    );
    Ok(())
}

#[test]
fn empty_input(rt: HostRuntime) -> Result<(), Fail> {
    let file = hex::decode(rt.alloc(), INLINED)?;
    expect(&rt, &run_on(&rt, rt.alloc(), &file, &PLAIN), 0, "", "");
    Ok(())
}

#[test]
fn faults_and_bad_lines(rt: HostRuntime) -> Result<(), Fail> {
    // With another code at 0x23, the entries of the first unit can't be read.
    let file = poked(rt.alloc(), FOLLOWED, 64 + 0x23, &[0x63])?;
    let outcome = run_over(
        &rt,
        rt.alloc(),
        &file,
        b"0x401000\nzz\n\n0x500001\n",
        &["-e", "FILE", "-f"],
    );
    let text = "!unit 0x0 fault 1\n!bad address\n!bad address\n??\n??:0\n";
    expect(&rt, &outcome, 1, text, "");
    Ok(())
}

#[test]
fn same_for_all_pools(rt: HostRuntime) -> Result<(), Fail> {
    let file = poked(rt.alloc(), FOLLOWED, 64 + 0x23, &[0x63])?;
    let input = b"0x401000\nzz\n\n0x500001\n401000-40100e\n";
    let text = "!unit 0x0 fault 1\n!bad address\n!bad address\n??\n??:0\n\
        0x0000000000401000-0x0000000000401004 /w/a.c:3\n0x0000000000401004-0x000000000040100e /w/a.c:4\n";
    for workers in ["1", "2", "64"] {
        for senders in ["1", "3", "64"] {
            let words = &[
                "-e",
                "FILE",
                "-f",
                "--workers",
                workers,
                "--senders",
                senders,
            ];
            let outcome = run_over(&rt, rt.alloc(), &file, input, words);
            expect(&rt, &outcome, 1, text, "");
        }
    }
    Ok(())
}

#[test]
fn failing_reads(rt: HostRuntime) -> Result<(), Fail> {
    let file = hex::decode(rt.alloc(), SMALLEST)?;
    // Seven reads of one byte, and the one that finds the end.
    for call in 0..8 {
        let setting = Setting {
            file: Some(&file),
            input: b"401000\n",
            read_most: 1,
            read_fails_at: call,
            ..Setting::NOTHING
        };
        let outcome = run_in(&rt, rt.alloc(), setting, &PLAIN);
        expect(&rt, &outcome, 3, "", "a2l: read failed\n");
    }
    Ok(())
}

#[test]
fn failing_writes(rt: HostRuntime) -> Result<(), Fail> {
    let file = hex::decode(rt.alloc(), SMALLEST)?;
    let text = "??:0\n!bad address\n";
    for call in 0..4 {
        let setting = Setting {
            file: Some(&file),
            input: b"401000\nzz\n",
            write_most: 5,
            write_fails_at: call,
            ..Setting::NOTHING
        };
        let outcome = run_in(&rt, rt.alloc(), setting, &PLAIN);
        let beginning = text.get(..5 * call as usize).ok_or("a beginning")?;
        expect(&rt, &outcome, 3, beginning, "a2l: write failed\n");
    }
    Ok(())
}
