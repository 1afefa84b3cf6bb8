//! Who owns an address in a group, by ranges that are linked.

ghost use Rattle.std.specs.Prelude.{◌≡◌, ◌≤◌, ◌+◌, ◌*◌, ◌++◌, OnOk, IfOk, length, map};
ghost use Rattle.dw_index.specs.Owners.{least, least_owner, owner_in};
ghost use Rattle.dw_index.specs.Range.{pair_shown, range_shown};
ghost use Rattle.dw_ranges.specs.Owned.{owned};
ghost use Rattle.dw_ranges.specs.Claims.{claims_in, in_group};
ghost use Rattle.dw_ranges.specs.LinkedInside.{AreIndexes, claims_linked, segments_in};

use crate::links::{Grouped, Links};
use crate::owners::least;
use dw_index::{Index, Range};
use std::alloc::{AllocError, Global};
use std::marker::Model;

/// In a group with more ranges than these, the one that holds an address is found by an index.
const FEW: usize = 8;

/// Ranges that owners claim in groups. Contracts see them as a list, and how many segments their
/// indexes have.
#[derive(Drop)]
pub(crate) struct Linked {
    links: Links<(Range, usize)>,
    /// The indexes of groups with many ranges, in order.
    indexes: Vec<(usize, Index)>,
}

impl Model for Linked {
    ghost use Rattle.dw_ranges.specs.Claims.{LinkedState};
    ghost use Rattle.dw_ranges.specs.LinkedInside.{linked_of, IsIndexed};

    ghost Value = { LinkedState };

    ghost view = { linked_of };

    ghost invariant = { IsIndexed };
}

/// Adds ranges of one owner in a group.
pub(crate) fn push_linked(
    links: &mut Links<(Range, usize)>,
    group: usize,
    ranges: &[Range],
    owner: usize,
) -> Result<(), AllocError>
    ensures pushed { OnOk result (claims_linked links.new
        ≡ claims_linked links.old ++ claims_in group (owned (map range_shown ranges.now) owner)) }
    ensures few { length links.new ≤ length links.old + length ranges.now }
{
    for range in ranges {
        let item = (*range, owner);
        links.push(Grouped { group, item })?;
    }
    Ok(())
}

/// The lesser of an owner that was found, where there is one, and that of a range, where the range
/// holds an address.
fn least_of(pair: &(Range, usize), a: u64, found: Option<usize>) -> Option<usize>
    ensures { result ≡ least found (owner_in a (pair_shown pair.now)) }
{
    let (range, owner) = pair;
    if a < range.begin || a >= range.end {
        return found;
    }
    least(found, Some(*owner))
}

/// The least owner in a group of the ranges that hold an address.
#[tactic(auto, using(crate::proofs::ClaimLemmas::linked_steps), unfolding(dw_index::specs::Owners::least_owner))]
fn find_linked(links: &Links<(Range, usize)>, group: usize, a: u64) -> Option<usize>
    ensures { result ≡ least_owner (in_group group (claims_linked links.now)) a }
{
    let mut found = None;
    for pair in links.back(group) {
        found = least_of(pair, a, found);
    }
    found
}

/// The ranges in a group, in order, each with its owner.
#[tactic(auto, using(crate::proofs::ClaimLemmas::linked_steps))]
fn pairs_of(
    alloc: Global,
    links: &Links<(Range, usize)>,
    group: usize,
) -> Result<Vec<(Range, usize)>, AllocError>
    ensures { IfOk result (λ pairs. map pair_shown pairs.items ≡ in_group group (claims_linked links.now)) }
{
    let mut pairs = Vec::new(alloc);
    for pair in links.back(group) {
        pairs.push(*pair)?;
    }
    pairs.reverse();
    Ok(pairs)
}

/// The indexes of the groups with many ranges.
#[tactic(auto, using(crate::proofs::IndexedLemmas::index_steps))]
fn indexes_of(
    alloc: Global,
    links: &Links<(Range, usize)>,
) -> Result<Vec<(usize, Index)>, AllocError>
    ensures each { IfOk result (λ indexes. AreIndexes (claims_linked links.now) indexes.items) }
    ensures few { IfOk result (λ indexes. segments_in indexes.items ≤ 2 * length (claims_linked links.now)) }
{
    let mut indexes = Vec::new(alloc);
    for group in 0..links.count() {
        if !links.is_more(group, FEW) {
            continue;
        }
        let pairs = pairs_of(alloc, links, group)?;
        let index = Index::build(alloc, &pairs)?;
        indexes.push((group, index))?;
    }
    Ok(indexes)
}

impl Linked {
    /// Of all ranges that were linked.
    pub(crate) fn new(alloc: Global, links: Links<(Range, usize)>) -> Result<Self, AllocError>
        ensures claims { IfOk result (λ linked. linked.claims ≡ claims_linked links) }
        ensures segments { IfOk result (λ linked. linked.segments ≤ 2 * length linked.claims) }
    {
        let indexes = indexes_of(alloc, &links)?;
        Ok(Linked { links, indexes })
    }

    /// The least owner in a group of the ranges that hold an address.
    pub(crate) fn find(&self, group: usize, a: u64) -> Option<usize>
        ensures { result ≡ least_owner (in_group group self.now.claims) a }
    {
        let place = self.indexes.partition_point(|(number, _)| *number < group);
        if let Some((number, index)) = self.indexes.get(place) {
            if *number == group {
                return index.find(a);
            }
        }
        find_linked(&self.links, group, a)
    }
}
