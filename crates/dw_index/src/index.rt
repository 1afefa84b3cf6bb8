//! An index of ranges that finds the least owner of an address.

ghost use Rattle.std.specs.Prelude.{◌≡◌, ◌≤◌, ◌<◌, ◌+◌, ◌*◌, ℕ, List, [], ◌∷◌, None, IfOk, map, length};
ghost use Rattle.dw_model.specs.Steady.{IsSteady, last_address};
ghost use Rattle.dw_index.specs.Owners.{least_owner};
ghost use Rattle.dw_index.specs.Range.{pair_shown};
ghost use Rattle.dw_index.specs.Search.{Passes, TakesDigits, TakesHalvings};
ghost use Rattle.dw_index.specs.Segments.{AreIndexOf, owner_at};

use crate::merge::merge;
use crate::range::Range;
use crate::run::run_of;
use crate::search::{
    count_from, count_from_uncounted, count_passed, count_uncounted, next_border, owner_of,
};
use crate::segment::Segment;
use dw_bytes::Steps;
use std::alloc::{AllocError, Global};
use std::marker::{Brand, Model};
use std::sync::ledger::{Blank, Ledger};

/// The segments of one range: its own, and the gap after it.
fn segments_of_range(alloc: Global, range: Range, owner: usize) -> Result<Vec<Segment>, AllocError>
    ensures { IfOk result (λ segments. AreIndexOf (pair_shown (range, owner) ∷ []) segments.items) }
{
    if range.begin >= range.end {
        return Ok(Vec::new(alloc));
    }
    let segments = vec![in alloc;
        Segment {
            begin: range.begin,
            owner: Some(owner),
        },
        Segment {
            begin: range.end,
            owner: None,
        },
    ]?;
    Ok(segments)
}

/// The segments of all ranges: one after the other where they are in order of address, none over
/// another, as those inlined in one function often do; else those of each half, merged. So it takes
/// n log n steps for n ranges, however they overlap.
fn gather(alloc: Global, pairs: &[(Range, usize)]) -> Result<Vec<Segment>, AllocError>
    ensures { IfOk result (λ segments. AreIndexOf (map pair_shown pairs.now) segments.items) }
{
    if pairs.len() == 0 {
        return Ok(Vec::new(alloc));
    }
    if pairs.len() == 1 {
        let (range, owner) = pairs[0];
        return segments_of_range(alloc, range, owner);
    }
    if let Some(segments) = run_of(alloc, pairs)? {
        return Ok(segments);
    }
    let (front, back) = pairs.split_at(pairs.len() / 2);
    let first = gather(alloc, front)?;
    let second = gather(alloc, back)?;
    merge(alloc, &first, &second)
}

/// Who owns some addresses, if one does, and where they end.
#[derive(Clone, Copy, Debug)]
pub struct Found {
    pub owner: Option<usize>,
    pub until: u64,
}

/// An index of ranges and their owners. Contracts see it as segments of addresses, each with the
/// owner that `owner_at` finds.
#[derive(Debug, Drop)]
pub struct Index {
    segments: Vec<Segment>,
}

impl Model for Index {
    ghost use Rattle.std.specs.Prelude.{List};
    ghost use Rattle.dw_index.specs.declared.segment.Segment.{Segment};
    ghost use Rattle.dw_index.specs.IndexInside.{segments_of, IsIndex};

    ghost Value = { List Segment };

    ghost view = { segments_of };

    ghost invariant = { IsIndex };
}

impl Index {
    /// The index of ranges, each with its owner, in any order; a range whose begin isn't below its
    /// end holds no address. It has at most twice as many segments as there are ranges. The error
    /// comes only where an allocation was refused.
    pub fn build(alloc: Global, pairs: &[(Range, usize)]) -> Result<Self, AllocError>
        ensures owners { IfOk result (λ index. (a : ℕ) → owner_at index a ≡ least_owner (map pair_shown pairs.now) a) }
        ensures size { IfOk result (λ index. length index ≤ 2 * length pairs.now) }
    {
        let segments = gather(alloc, pairs)?;
        Ok(Index { segments })
    }

    /// How many segments it keeps.
    pub fn segment_count(&self) -> usize
        ensures { result ≡ length self.now }
    {
        self.segments.len()
    }

    /// The least owner of the ranges that hold an address; `None` where none holds it.
    pub fn find(&self, a: u64) -> Option<usize>
        ensures { result ≡ owner_at self.now a }
    {
        owner_of(&self.segments, self.searched(a))
    }

    /// The least owner of the ranges that hold an address, as `find` finds it. A step is a probe,
    /// one comparison of the address with the begin of a segment: there are as many as the number
    /// of segments has binary digits, or one fewer.
    pub fn find_counted<L: Ledger>(&self, a: u64, steps: &mut Steps<L>) -> Option<usize>
        ensures owner { result ≡ owner_at self.now a }
        ensures counted { TakesDigits (length self.now) steps.old steps.new }
        ensures least { TakesHalvings (length self.now) steps.old steps.new }
    {
        let passed = count_passed(&self.segments, a, steps);
        owner_of(&self.segments, passed)
    }

    /// The least address above one at which `find` returns something else than there; 2^64 - 1
    /// where there is none. So `find` returns the same from the address on and below the one that
    /// is returned.
    pub fn steady(&self, a: u64) -> u64
        requires above { a < last_address }
        ensures steady { IsSteady (owner_at self.now) a result }
    {
        next_border(&self.segments, self.searched(a))
    }

    /// What `find` and `steady` return, by one search. `near` is where an earlier search ended, so
    /// whoever goes from border to border takes a few probes for each; any other number costs time
    /// alone.
    pub fn find_from(&self, a: u64, near: &mut usize) -> Found
        requires above { a < last_address }
        ensures owner { result.owner ≡ owner_at self.now a }
        ensures steady { IsSteady (owner_at self.now) a result.until }
    {
        self.found(self.passed(a, *near), near)
    }

    /// What `find_from` returns. A step is a probe: there are at most six more than by
    /// `find_counted`, whatever `near` is.
    pub fn find_from_counted<L: Ledger>(
        &self,
        a: u64,
        near: &mut usize,
        steps: &mut Steps<L>,
    ) -> Found
        requires above { a < last_address }
        ensures owner { result.owner ≡ owner_at self.now a }
        ensures steady { IsSteady (owner_at self.now) a result.until }
        ensures counted { TakesDigits (length self.now) (steps.old + 6) steps.new }
    {
        let passed = count_from(&self.segments, a, *near, steps);
        self.found(passed, near)
    }

    /// The owner of the addresses that have passed so many segments, and where they end; `near` is
    /// the number of these segments then.
    fn found(&self, passed: usize, near: &mut usize) -> Found
        requires { passed ≤ length self.now }
        ensures owner { (a : ℕ) → Passes self.now a passed → result.owner ≡ owner_at self.now a }
        ensures steady { (a : ℕ) → a < last_address → Passes self.now a passed
            → IsSteady (owner_at self.now) a result.until }
    {
        *near = passed;
        let owner = owner_of(&self.segments, passed);
        let until = next_border(&self.segments, passed);
        Found { owner, until }
    }

    /// How many segments don't begin above an address. `near` is a guess, and a wrong one costs
    /// time alone: a few probes are enough where the answer is `near`, one more, or all segments.
    pub fn passed(&self, a: u64, near: usize) -> usize
        ensures { Passes self.now a result }
    {
        count_from_uncounted::<Brand>(&self.segments, a, near, Blank::new(1))
    }

    /// The same, searched by halves.
    fn searched(&self, a: u64) -> usize
        ensures { Passes self.now a result }
    {
        count_uncounted::<Brand>(&self.segments, a, Blank::new(1))
    }
}
