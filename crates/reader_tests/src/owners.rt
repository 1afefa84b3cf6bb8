//! The least owner of an address.

use crate::expect::expect;
use dw_ranges::{Index, Range};
use std::alloc::Global;
use std::process::Abort;
use std::test::Fail;
use test_inputs::draws::Draws;

fn pair(begin: u64, end: u64, owner: usize) -> (Range, usize) {
    (Range { begin, end }, owner)
}

/// The owner of an address. No clause says which it is, so that its callers are proved soon.
fn owner_of(index: &Index, a: u64) -> Option<usize> {
    index.find(a)
}

/// The first address at which the index doesn't find what is asked for.
fn differs(index: &Index, rows: &[(u64, Option<usize>)]) -> Option<u64> {
    for (a, owner) in rows {
        if owner_of(index, *a) != *owner {
            return Some(*a);
        }
    }
    None
}

/// The least owner of the ranges that hold an address, one after the other.
fn scanned(pairs: &[(Range, usize)], a: u64) -> Option<usize> {
    let mut least = None;
    for (range, owner) in pairs {
        if range.begin <= a && a < range.end {
            least = match least {
                Some(other) if other < *owner => Some(other),
                _ => Some(*owner),
            };
        }
    }
    least
}

/// Ranges of all sizes, some of them empty, with owners that come several times.
pub fn drawn(alloc: Global, count: usize) -> Result<Vec<(Range, usize)>, Fail> {
    let mut draws = Draws::new(2026);
    let mut pairs = Vec::new(alloc);
    for _ in 0..count {
        let begin = draws.next() % 1_000_000;
        let bits = draws.next() % 20;
        let size = draws.next() & ((1 << bits) - 1);
        let owner = draws.below(5_000);
        pairs.push(pair(begin, begin + size, owner))?;
    }
    Ok(pairs)
}

/// An index finds of an address what the scan of its pairs does.
fn expect_scanned<A: Abort>(rt: &A, index: &Index, pairs: &[(Range, usize)], a: u64) {
    expect(rt, a, &owner_of(index, a), &scanned(pairs, a));
}

/// The same of drawn addresses, and of the ends of the first ranges.
fn expect_all_scanned<A: Abort>(rt: &A, index: &Index, pairs: &[(Range, usize)]) {
    let mut draws = Draws::new(7);
    for _ in 0..2_000 {
        expect_scanned(rt, index, pairs, draws.next() % 1_600_000);
    }
    for (range, _) in pairs.iter().take(1_000) {
        expect_scanned(rt, index, pairs, range.begin);
        expect_scanned(rt, index, pairs, range.end);
    }
}

#[test]
fn agrees_with_a_scan(rt: HostRuntime) -> Result<(), Fail> {
    let pairs = drawn(rt.alloc(), 10_000)?;
    let index = Index::build(rt.alloc(), &pairs)?;
    expect_all_scanned(&rt, &index, &pairs);
    Ok(())
}

/// An index for which an allocation is refused is out of memory, and the next one, with memory,
/// finds what it should.
#[test]
fn each_allocation_refused(rt: HostRuntime) -> Result<(), Fail> {
    let pairs = [
        pair(1, 9, 2),
        pair(3, 5, 1),
        pair(8, 12, 0),
        pair(20, 30, 2),
    ];
    let index = match Index::build(rt.alloc(), &pairs) {
        Ok(index) => index,
        Err(_) => Index::build(rt.alloc(), &pairs)?,
    };
    let rows: &[(u64, Option<usize>)] = &[
        (0, None),
        (1, Some(2)),
        (3, Some(1)),
        (5, Some(2)),
        (8, Some(0)),
        (11, Some(0)),
        (12, None),
        (29, Some(2)),
        (30, None),
    ];
    expect(&rt, "index", &differs(&index, rows), &None);
    Ok(())
}
