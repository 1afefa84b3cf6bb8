//! The segment of an address, searched by halves.

ghost use Rattle.std.specs.Prelude.{◌≡◌, ◌≤◌, ◌<◌, ◌+◌, ℕ, true, None, IfSome, length, nat_le};
ghost use Rattle.dw_model.specs.Steady.{IsSteady, last_address};
ghost use Rattle.dw_index.specs.Search.{Passes, TakesDigits, TakesHalvings};
ghost use Rattle.dw_index.specs.Segments.{AreSegments, owner_at};

use crate::segment::Segment;
use dw_bytes::Steps;
use std::sync::ledger::{Blank, Ledger};

/// Whether a segment begins at an address or before it: one probe, which is counted.
#[inline(always)]
fn begins_by<L: Ledger>(segment: Segment, a: u64, steps: &mut Steps<L>) -> bool
    ensures begins { result ≡ nat_le segment.begin a }
    ensures counted { steps.new ≡ steps.old + 1 }
{
    steps.tick();
    segment.begin <= a
}

/// How many segments don't begin above an address. A step is a probe: there are as many as the
/// number of segments has binary digits, or one fewer.
pub(crate) fn count_passed<L: Ledger>(segments: &[Segment], a: u64, steps: &mut Steps<L>) -> usize
    requires { AreSegments 0 None segments.now }
    ensures passed { Passes segments.now a result }
    ensures counted { TakesDigits (length segments.now) steps.old steps.new }
    ensures least { TakesHalvings (length segments.now) steps.old steps.new }
{
    let mut low = 0;
    let mut high = segments.len();
    while low < high {
        let middle = low + (high - low) / 2;
        if begins_by(segments[middle], a, steps) {
            low = middle + 1;
        } else {
            high = middle;
        }
    }
    low
}

/// The same as `count_passed`, with a counter of its own.
pub(crate) fn count_uncounted<L: Ledger>(segments: &[Segment], a: u64, blank: Blank) -> usize
    requires name { blank.name ≡ L.name }
    requires parts { blank.parts ≡ L.parts }
    requires some { 0 < L.parts }
    requires segments { AreSegments 0 None segments.now }
    ensures { Passes segments.now a result }
{
    let mut steps = Steps::<L>::new(blank);
    count_passed(segments, a, &mut steps)
}

/// Whether so many segments don't begin above an address, and the others do.
fn is_passed<L: Ledger>(segments: &[Segment], a: u64, count: usize, steps: &mut Steps<L>) -> bool
    requires { AreSegments 0 None segments.now }
    ensures passed { result ≡ true → Passes segments.now a count }
    ensures counted { steps.new ≤ steps.old + 2 }
{
    if count > segments.len() {
        return false;
    }
    if count > 0 && !begins_by(segments[count - 1], a, steps) {
        return false;
    }
    count == segments.len() || !begins_by(segments[count], a, steps)
}

/// How many segments don't begin above an address, if that is a guess, one more, or all.
fn guessed<L: Ledger>(
    segments: &[Segment],
    a: u64,
    near: usize,
    steps: &mut Steps<L>,
) -> Option<usize>
    requires { AreSegments 0 None segments.now }
    ensures passed { IfSome result (Passes segments.now a) }
    ensures counted { steps.new ≤ steps.old + 6 }
{
    if is_passed(segments, a, near, steps) {
        return Some(near);
    }
    let next = near.saturating_add(1);
    if is_passed(segments, a, next, steps) {
        return Some(next);
    }
    let all = segments.len();
    if is_passed(segments, a, all, steps) {
        return Some(all);
    }
    None
}

/// How many segments don't begin above an address, by a guess. A step is a probe: there are at most
/// six more than `count_passed` takes.
pub(crate) fn count_from<L: Ledger>(
    segments: &[Segment],
    a: u64,
    near: usize,
    steps: &mut Steps<L>,
) -> usize
    requires { AreSegments 0 None segments.now }
    ensures passed { Passes segments.now a result }
    ensures counted { TakesDigits (length segments.now) (steps.old + 6) steps.new }
{
    match guessed(segments, a, near, steps) {
        Some(passed) => passed,
        None => count_passed(segments, a, steps),
    }
}

/// The same as `count_from`, with a counter of its own.
pub(crate) fn count_from_uncounted<L: Ledger>(
    segments: &[Segment],
    a: u64,
    near: usize,
    blank: Blank,
) -> usize
    requires name { blank.name ≡ L.name }
    requires parts { blank.parts ≡ L.parts }
    requires some { 0 < L.parts }
    requires segments { AreSegments 0 None segments.now }
    ensures { Passes segments.now a result }
{
    let mut steps = Steps::<L>::new(blank);
    count_from(segments, a, near, &mut steps)
}

/// The owner of the addresses that have passed so many segments.
pub(crate) fn owner_of(segments: &[Segment], passed: usize) -> Option<usize>
    requires { passed ≤ length segments.now }
    ensures { (a : ℕ) → Passes segments.now a passed → result ≡ owner_at segments.now a }
{
    if passed == 0 {
        return None;
    }
    segments[passed - 1].owner
}

/// The least address that has passed more than so many segments, and so has another owner; the last
/// address of all where there is none.
pub(crate) fn next_border(segments: &[Segment], passed: usize) -> u64
    requires { AreSegments 0 None segments.now }
    ensures { (a : ℕ) → a < last_address → Passes segments.now a passed → IsSteady (owner_at segments.now) a result }
{
    if passed >= segments.len() {
        return u64::MAX;
    }
    segments[passed].begin
}
