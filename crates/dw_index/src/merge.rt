//! The segments of two lists in one.

ghost use Rattle.std.specs.Prelude.{◌≡◌, None, IfOk};
ghost use Rattle.dw_index.specs.Owners.{least};
ghost use Rattle.dw_index.specs.Segments.{AreSegments, IsMerged, border, past_owner, past_rest};

use crate::segment::{Segment, Side};
use std::alloc::{AllocError, Global};

/// Of two owners the lesser, where there are two.
fn lesser(one: Option<usize>, other: Option<usize>) -> Option<usize>
    ensures { result ≡ least one other }
{
    match (one, other) {
        (None, other) => other,
        (one, None) => one,
        (Some(x), Some(y)) => { if x <= y { Some(x) } else { Some(y) } }
    }
}

/// Where the next segment of a side begins.
fn first_border(side: Side<'_>) -> Option<u64>
    ensures { result ≡ border side.entry.rest.now }
{
    let segment = side.rest.first()?;
    Some(segment.begin)
}

/// Where the next segment of either side begins.
fn next_border(left: Side<'_>, right: Side<'_>) -> Option<u64>
    ensures { result ≡ least (border left.entry.rest.now) (border right.entry.rest.now) }
{
    match (first_border(left), first_border(right)) {
        (None, at) => at,
        (at, None) => at,
        (Some(first), Some(second)) => {
            if first <= second {
                Some(first)
            } else {
                Some(second)
            }
        }
    }
}

/// A side after a border, which is at most its next one.
fn past(side: Side<'_>, at: u64) -> Side<'_>
    ensures owner { result.owner ≡ past_owner at side.entry.owner side.entry.rest.now }
    ensures rest { result.rest.now ≡ past_rest at side.entry.rest.now }
{
    let Some((segment, rest)) = side.rest.split_first() else {
        return side;
    };
    if segment.begin != at {
        return side;
    }
    Side {
        owner: segment.owner,
        rest,
    }
}

/// The segments that have the lesser owner of two lists at each address.
pub(crate) fn merge(
    alloc: Global,
    first: &[Segment],
    second: &[Segment],
) -> Result<Vec<Segment>, AllocError>
    requires first { AreSegments 0 None first.now }
    requires second { AreSegments 0 None second.now }
    ensures { IfOk result (λ merged. IsMerged first.now second.now merged.items) }
{
    let mut merged = Vec::with_capacity(alloc, first.len().saturating_add(second.len()))?;
    let mut left = Side {
        owner: None,
        rest: first,
    };
    let mut right = Side {
        owner: None,
        rest: second,
    };
    while let Some(at) = next_border(left, right) {
        let before = lesser(left.owner, right.owner);
        left = past(left, at);
        right = past(right, at);
        let owner = lesser(left.owner, right.owner);
        if owner == before {
            continue;
        }
        merged.push(Segment { begin: at, owner })?;
    }
    Ok(merged)
}
