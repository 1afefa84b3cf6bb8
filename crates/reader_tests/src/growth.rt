//! How the times of building an index and of finding in it grow. bench/owners.sh shows what these
//! tests print.

use crate::owners::drawn;
use dw_ranges::{Index, Range};
use std::alloc::Global;
use std::io::Write;
use std::process::Abort;
use std::test::Fail;
use std::time::Instant;
use test_inputs::draws::Draws;

/// How many addresses are looked for.
const FINDS: usize = 100_000;

/// Each range lies within the one before it, and has a lesser owner.
fn nested(alloc: Global, count: usize) -> Result<Vec<(Range, usize)>, Fail> {
    let mut pairs = Vec::new(alloc);
    for i in 0..count {
        let range = Range {
            begin: i as u64,
            end: 1_000_000_u64.wrapping_sub(i as u64),
        };
        pairs.push((range, count - i))?;
    }
    Ok(pairs)
}

/// Builds the index, finds addresses in it, and prints the time of each.
fn measure(rt: HostRuntime, name: &str, pairs: &[(Range, usize)]) -> Result<(), Fail> {
    let start = Instant::now(&rt)?;
    let index = Index::build(rt.alloc(), pairs)?;
    let built = start.elapsed(&rt)?.as_micros();
    let mut draws = Draws::new(5);
    let mut held = 0_usize;
    let start = Instant::now(&rt)?;
    for _ in 0..FINDS {
        if index.find(draws.next() % 1_000_000).is_some() {
            held = held.wrapping_add(1);
        }
    }
    let found = start.elapsed(&rt)?.as_micros();
    let count = pairs.len();
    println!(rt;
        "{count} {name} ranges: built in {built} us; {FINDS} addresses looked for in {found} us, {held} held"
    )?;
    Ok(())
}

#[test]
fn nested_ranges(rt: HostRuntime) -> Result<(), Fail> {
    for count in [1_000, 10_000, 100_000] {
        let pairs = nested(rt.alloc(), count)?;
        measure(rt, "nested", &pairs)?;
    }
    Ok(())
}

#[test]
fn drawn_ranges(rt: HostRuntime) -> Result<(), Fail> {
    for count in [1_000, 10_000, 100_000] {
        let pairs = drawn(rt.alloc(), count)?;
        measure(rt, "drawn", &pairs)?;
    }
    Ok(())
}
